ghost use Rattle.std.specs.Prelude.{◌≡◌, ℕ, ◌<◌, ◌≤◌, ◌+◌, ◌^◌, ◌⊎◌, ◌∷◌, [], length, ◌==◌, IsSome, IfSome, All, IfOk, IfErr, OnOk};
ghost use Rattle.std.specs.Ordering.{nat_cmp};
ghost use Rattle.std.specs.Map.Iter.{deref_pair, ShowsInOrder};
ghost use Rattle.vol_types.specs.Maps.{IsMap, value_at};
ghost use Rattle.snap_tree.specs.Snaps.{IsSnapKey, IsSnapTree, snaps_in, is_there, is_joined, are_trees, chain_of, chain_above, chain_of_maybe, parent_of, is_ancestor_of, is_live, live_leaves};
ghost use Rattle.snap_tree.specs.Splits.{IsSplit, SplitFails, ChainFails, TreesFail};
ghost use Rattle.vol_types.specs.declared.values.Snap.{Snap as ASnap};
ghost use Rattle.snap_tree.specs.TreeLaws.{HasParent};
ghost use Rattle.snap_tree.specs.Updates.{IsFitting};
ghost use Rattle.snap_tree.specs.Walks.{FollowsFew, ancestors};

use crate::links::{LEVELS, Links, link, link_all, make_room};
use crate::names::{Names, names_of};
use crate::split::{interior_over, leaf_under, snap_update};
use crate::{SnapFault, Split, Steps};
use std::alloc::{AllocError, Global};
use std::collections::BTreeMap;
use std::collections::btree_map::Iter;
use std::marker::Model;
use vol_types::{Duplicate, Ids, Keys, Snap, SnapState, Updates, Value};

/// Snapshot ids with their records, in which each id finds its parent and its children.
#[derive(Drop)]
pub struct SnapTree {
    pub(crate) snaps: BTreeMap<u32, Snap>,
    pub(crate) links: BTreeMap<u32, Links>,
    pub(crate) names: Names,
    pub(crate) live: usize,
    pub(crate) alloc: Global,
}

impl Model for SnapTree {
    ghost use Rattle.snap_tree.specs.Snaps.{Snaps};
    ghost use Rattle.snap_tree.specs.Links.{IsKept};

    ghost Value = { Snaps };

    ghost view = { λ tree. tree.snaps.entries };

    ghost invariant = { λ tree. IsKept tree.snaps.entries tree.links.entries tree.names.keys tree.live };
}

impl SnapTree {
    /// The tree of no ids. It takes no memory.
    pub fn new(alloc: Global) -> SnapTree
        ensures { result ≡ [] }
    {
        SnapTree {
            snaps: BTreeMap::new(alloc),
            links: BTreeMap::new(alloc),
            names: Names::new(alloc),
            live: 0,
            alloc,
        }
    }

    /// The trees of the ids that have keys. Each key costs some 40 logarithms of their number.
    pub fn of(alloc: Global, keys: &Keys) -> Result<SnapTree, SnapFault>
        requires { All IsSnapKey keys.now }
        ensures ok { IfOk result (λ tree. tree ≡ snaps_in keys.now) }
        ensures sound { IfOk result IsSnapTree }
        ensures fault { IfErr result (TreesFail (snaps_in keys.now)) }
    {
        let mut snaps = BTreeMap::new(alloc);
        let mut links = BTreeMap::new(alloc);
        for key in keys.as_slice() {
            let Some(Value::Snap(snap)) = &key.value else {
                unreachable!()
            };
            let id = key.pos.offset as u32;
            make_room(&mut links, id)?;
            snaps.insert(id, *snap)?;
        }
        if !are_trees(&snaps) {
            return Err(SnapFault::NoNode);
        }
        let names = names_of(alloc, &snaps)?;
        link_all(&snaps, &mut links);
        let live = count_live(&snaps);
        Ok(SnapTree {
            snaps,
            links,
            names,
            live,
            alloc,
        })
    }

    /// How many ids there are.
    pub fn len(&self) -> usize
        ensures { result ≡ length self.now }
    {
        self.snaps.len()
    }

    /// Whether there is no id.
    pub fn is_empty(&self) -> bool
        ensures { result ≡ (length self.now == 0) }
    {
        self.snaps.is_empty()
    }

    /// How many ids are live leaves, which is kept as a number. Where the records of a volume are sound, it is the number
    /// of its subvolumes.
    pub fn live_leaves(&self) -> usize
        ensures { result ≡ live_leaves self.now }
    {
        self.live
    }

    /// The record of an id.
    pub fn get(&self, id: u32) -> Option<Snap>
        ensures { result ≡ value_at nat_cmp id self.now }
    {
        self.snaps.get(&id).copied()
    }

    /// The ids in rising order, each with its record.
    pub fn iter(&self) -> Iter<'_, u32, Snap>
        ensures rest { result ≡ self.now }
        ensures rises { IsMap nat_cmp self.now }
        ensures runs { ShowsInOrder (deref_pair {K = ℕ} {X = ASnap}) }
    {
        self.snaps.iter()
    }

    /// The ids make trees, and each fits 32 bits. It costs nothing, and says so to a caller that needs it.
    pub fn ids_fit(&self)
        ensures trees { IsSnapTree self.now }
        ensures fits { (id : ℕ) → IsSome (value_at nat_cmp id self.now) → id < 2 ^ 32 }
    {
        let _ = &self.links;
    }

    /// The parent of an id; none where the id is a root or missing.
    pub fn parent(&self, id: u32) -> Option<u32>
        ensures value { result ≡ parent_of self.now id }
        ensures chain { IsSome (value_at nat_cmp id self.now)
            → chain_of self.now id ≡ id ∷ chain_of_maybe self.now result }
        ensures above { IfSome result (λ parent. (id < parent)
            × IsSome (value_at nat_cmp parent self.now)) }
    {
        if !self.snaps.contains_key(&id) {
            return None;
        }
        let parent = parent_or_zero(&self.snaps, id);
        if parent == 0 {
            return None;
        }
        Some(parent)
    }

    /// The id, its parent, its grandparent and so on up to the root. Each costs a logarithm of the number of ids.
    pub fn chain(&self, id: u32) -> Result<Ids, SnapFault>
        ensures ok { IfOk result (λ ids. ids ≡ chain_of self.now id) }
        ensures there { OnOk result (IsSome (value_at nat_cmp id self.now)) }
        ensures sound { IsSnapTree self.now }
        ensures fault { IfErr result (ChainFails self.now id) }
    {
        if !self.snaps.contains_key(&id) {
            return Err(SnapFault::NoNode);
        }
        let mut ids = Ids::new(self.alloc);
        ids.push(id)?;
        let mut above = parent_or_zero(&self.snaps, id);
        while above != 0 {
            ids.push(above)?;
            above = parent_or_zero(&self.snaps, above);
        }
        Ok(ids)
    }

    /// Whether the first id stands in the chain of the second one, which is itself in its chain. It takes no memory, and
    /// follows as many links as the logarithm of the number of the second one's ancestors, each at the cost of a
    /// logarithm of the number of ids.
    pub fn is_ancestor(&self, a: u32, b: u32) -> bool
        ensures { result ≡ is_ancestor_of self.now a b }
    {
        self.search(a, b).0
    }

    /// The same, where each link that is followed is counted.
    pub fn is_ancestor_counted(&self, a: u32, b: u32, steps: &mut Steps) -> bool
        ensures found { result ≡ is_ancestor_of self.now a b }
        ensures steps { FollowsFew self.now b steps.old.followed steps.new.followed }
    {
        let (found, followed) = self.search(a, b);
        steps.followed = steps.followed.saturating_add(followed as u64);
        found
    }

    // Whether the first id stands in the chain of the second one, and how many links were followed to know. Links halve,
    // so each is followed at most once.
    fn search(&self, a: u32, b: u32) -> (bool, u32)
        ensures found { result.0 ≡ is_ancestor_of self.now a b }
        ensures few { 2 ^ result.1 ≤ ancestors self.now b + 1 }
    {
        if !self.snaps.contains_key(&b) {
            return (false, 0);
        }
        if b > a {
            return (false, 0);
        }
        let mut at = b;
        let mut followed = 0;
        let mut level = LEVELS;
        while level > 0 {
            if at == a {
                return (true, followed);
            }
            level -= 1;
            let above = link(&self.links, at, level);
            if above != 0 && above <= a {
                at = above;
                followed += 1;
            }
        }
        (at == a, followed)
    }

    /// Splits a live leaf for a snapshot, where `next` is the next id to be drawn, and the one below it is drawn too.
    pub fn split_leaf(&self, id: u32, next: u32) -> Result<Split, SnapFault>
        ensures ok { IfOk result (IsSplit self.now id next) }
        ensures fitting { IfOk result (λ split. All IsFitting split.updates) }
        ensures fault { IfErr result (SplitFails self.now id next) }
    {
        if next < 2 {
            return Err(SnapFault::IdsSpent);
        }
        let Some(leaf) = self.snaps.get(&id) else {
            return Err(SnapFault::NoNode);
        };
        if leaf.state != SnapState::LiveLeaf {
            return Err(SnapFault::NotLeaf);
        }
        let mut updates = Updates::new(self.alloc);
        updates.push(snap_update(id, interior_over(next, next - 1, *leaf)))?;
        updates.push(snap_update(next, leaf_under(id)))?;
        updates.push(snap_update(next - 1, leaf_under(id)))?;
        Ok(Split {
            source: next,
            copy: next - 1,
            updates,
        })
    }
}

impl Duplicate for SnapTree {
    /// It costs as many steps as there are ids.
    fn copy(&self, alloc: Global) -> Result<Self, AllocError> {
        Ok(SnapTree {
            snaps: self.snaps.clone()?,
            links: self.links.clone()?,
            names: self.names.clone()?,
            live: self.live,
            alloc,
        })
    }
}

/// The parent of an id that is there, or 0.
pub(crate) fn parent_or_zero(snaps: &BTreeMap<u32, Snap>, id: u32) -> u32
    requires tree { IsSnapTree snaps.now.entries }
    requires there { IsSome (value_at nat_cmp id snaps.now.entries) }
    ensures value { IfSome (value_at nat_cmp id snaps.now.entries) (λ snap. result ≡ snap.parent) }
    ensures chain { chain_of snaps.now.entries id ≡ id ∷ chain_above snaps.now.entries result }
    ensures above { HasParent snaps.now.entries id result }
{
    match snaps.get(&id) {
        Some(snap) => snap.parent,
        None => unreachable!(),
    }
}

// How many ids are live leaves.
pub(crate) fn count_live(snaps: &BTreeMap<u32, Snap>) -> usize
    ensures { result ≡ live_leaves snaps.now.entries }
{
    snaps.values().filter(|snap| is_live(snap.state)).count()
}

// Whether a state is that of a live leaf.
pub(crate) fn is_live(state: SnapState) -> bool
    ensures { result ≡ is_live state }
{
    match state {
        SnapState::LiveLeaf => true,
        SnapState::Interior => false,
        SnapState::DeadLeaf => false,
    }
}

// Whether the ids make trees.
fn are_trees(snaps: &BTreeMap<u32, Snap>) -> bool
    ensures { result ≡ are_trees snaps.now.entries }
{
    snaps.iter().all(|(id, snap)| is_joined(snaps, *id, snap))
}

// Whether the parent and the children of an id are there, and the parent is above it.
fn is_joined(snaps: &BTreeMap<u32, Snap>, id: u32, snap: &Snap) -> bool
    ensures { result ≡ is_joined snaps.now.entries id snap.now }
{
    is_there(snaps, snap.parent)
        && (snap.parent == 0 || id < snap.parent)
        && is_there(snaps, snap.first_child)
        && is_there(snaps, snap.second_child)
}

// Whether a number is 0, which stands for no id, or an id that is there.
fn is_there(snaps: &BTreeMap<u32, Snap>, id: u32) -> bool
    ensures { result ≡ is_there snaps.now.entries id }
{
    id == 0 || snaps.contains_key(&id)
}
