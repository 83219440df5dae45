ghost use Rattle.std.specs.Map.{keys_of, values_of};
ghost use Rattle.std.specs.Prelude.{◌≡◌, ◌<◌, ◌↔◌, [], All, IfErr, IfOk, IsTrue, OnOk, Some, length, option_copied, slice_index_or};
ghost use Rattle.birth_index.specs.Births.{BirthsDiffer};
ghost use Rattle.btree_map.specs.Faults.{IsFaultOf};
ghost use Rattle.btree_map.specs.Trees.{IsBtree, IsTrees, cut_of};
ghost use Rattle.tree_keys.specs.Cuts.{IsCut};
ghost use Rattle.tree_nodes.specs.Levels.{IsTree, level_of};
ghost use Rattle.vol_types.specs.Btrees.{btree_code};
ghost use Rattle.vol_types.specs.Standing.{MayStand};
ghost use Rattle.vol_types.specs.declared.positions.Btree.{Btree as ABtree};

use crate::KeyMap;
use birth_index::{IndexFault, IndexedNodes};
use std::alloc::Global;
use tree_keys::TreeKeys;
use tree_nodes::{LevelNodes, TreeNodes, changes_leave_trees};
use vol_types::{Btree, Listing, Pos};

/// Why keys and nodes make no key map.
#[derive(Clone, Copy, PartialEq, Eq)]
pub enum NotAKeyMap {
    /// They aren't those of nine btrees.
    NotBtrees,
    /// Two nodes have this birth.
    SameBirth { birth: u64 },
    /// Out of memory.
    NoMemory,
}

impl From<IndexFault> for NotAKeyMap {
    ghost use Rattle.birth_index.specs.declared.making.IndexFault.{IndexFault};
    ghost use Rattle.btree_map.specs.Faults.{of_index};

    ghost from_gives = { λ fault told. told ≡ of_index fault };

    fn from(fault: IndexFault) -> Self {
        match fault {
            IndexFault::SameBirth { birth } => NotAKeyMap::SameBirth { birth },
            IndexFault::NoMemory => NotAKeyMap::NoMemory,
        }
    }
}

impl KeyMap {
    /// The btrees of these keys and nodes, which are in the order of the btrees' numbers, where they are those of nine
    /// btrees: the leaves of the keys are the nodes of level 0, each value may stand in a leaf of its btree, and no two
    /// nodes have one birth. It goes over all nodes and values, and takes memory for each node.
    pub fn of(
        alloc: Global,
        keys: Listing<TreeKeys>,
        nodes: Listing<TreeNodes>,
    ) -> Result<KeyMap, NotAKeyMap>
        ensures made { IfOk result (λ map. map ≡ record { keys = keys; nodes = nodes }) }
        ensures sound { OnOk result (IsTrees (record { keys = keys; nodes = nodes })) }
        ensures differ { OnOk result (BirthsDiffer nodes) }
        ensures err { IfErr result (IsFaultOf (record { keys = keys; nodes = nodes })) }
    {
        if !are_trees(keys.as_slice(), nodes.as_slice()) {
            return Err(NotAKeyMap::NotBtrees);
        }
        Ok(KeyMap {
            keys: Vec::from(keys),
            nodes: IndexedNodes::of(alloc, nodes)?,
        })
    }
}

// Whether these are the keys and the nodes of nine btrees.
fn are_trees(keys: &[TreeKeys], nodes: &[TreeNodes]) -> bool
    ensures { IsTrue result ↔ IsTrees (record { keys = keys.now; nodes = nodes.now }) }
{
    if keys.len() != 9 {
        return false;
    }
    if nodes.len() != 9 {
        return false;
    }
    are_btrees(keys, nodes)
}

// Whether each of nine is a btree.
fn are_btrees(keys: &[TreeKeys], nodes: &[TreeNodes]) -> bool
    requires keys { length keys.now ≡ 9 }
    requires nodes { length nodes.now ≡ 9 }
    ensures { IsTrue result ↔ ((btree : ABtree) → IsBtree btree (cut_of keys.now btree)
        (slice_index_or nodes.now (btree_code btree) [])) }
{
    for code in 0..9 {
        if !is_numbered(code, &keys[code], &nodes[code]) {
            return false;
        }
    }
    true
}

// Whether these are the keys and the nodes of the btree with a number.
fn is_numbered(code: usize, keys: &TreeKeys, nodes: &TreeNodes) -> bool
    requires few { code < 9 }
    ensures { IsTrue result ↔ ((btree : ABtree) → btree_code btree ≡ code
        → IsBtree btree keys.now nodes.now) }
{
    match Btree::from_code(code as u8) {
        None => unreachable!(),
        Some(btree) => is_btree(btree, keys, nodes),
    }
}

// Whether these are the keys and the nodes of a btree.
fn is_btree(btree: Btree, keys: &TreeKeys, nodes: &TreeNodes) -> bool
    ensures { IsTrue result ↔ IsBtree btree keys.now nodes.now }
{
    see_both(keys, nodes);
    if !do_meet(keys, nodes) {
        return false;
    }
    may_stand(btree, keys)
}

// Keys and nodes are sound, each by itself.
fn see_both(keys: &TreeKeys, nodes: &TreeNodes)
    ensures keys { IsCut keys.now }
    ensures nodes { IsTree nodes.now }
{
    let _ = (keys.len(), nodes.height());
}

// Whether the leaves of keys end where the nodes of level 0 do.
fn do_meet(keys: &TreeKeys, nodes: &TreeNodes) -> bool
    ensures { IsTrue result ↔ (keys.now.ends ≡ keys_of (level_of nodes.now 0)) }
{
    have_same_ends(keys, leaves_of(nodes))
}

// The nodes of level 0.
fn leaves_of(nodes: &TreeNodes) -> &LevelNodes
    ensures { result.now ≡ level_of nodes.now 0 }
{
    // There is a level of leaves.
    let height = nodes.height();
    changes_leave_trees();
    prove!(0 < height);
    match nodes.level(0) {
        Some(leaves) => leaves,
        None => unreachable!(),
    }
}

// Whether the leaves of keys end where nodes do.
#[tactic(auto, using(crate::proofs::Meeting::meeting_none, crate::proofs::Meeting::meeting_all))]
fn have_same_ends(keys: &TreeKeys, leaves: &LevelNodes) -> bool
    ensures { IsTrue result ↔ (keys.now.ends ≡ keys_of leaves.now) }
{
    let mut ends = keys.ends();
    for (greatest, _) in leaves.iter() {
        if !is_end(ends.next(), greatest) {
            return false;
        }
    }
    ends.next().is_none()
}

fn is_end(end: Option<&Pos>, greatest: &Pos) -> bool
    ensures { IsTrue result ↔ (option_copied end.entry ≡ Some greatest.now) }
{
    match end {
        None => false,
        Some(end) => *end == *greatest,
    }
}

// Whether each value may stand in a leaf of a btree.
#[tactic(auto, using(crate::proofs::Meeting::tried_none))]
fn may_stand(btree: Btree, keys: &TreeKeys) -> bool
    ensures { IsTrue result ↔ All (MayStand btree 0) (values_of keys.now.entries) }
{
    for (_, value) in keys.iter() {
        if !value.may_stand(btree, 0) {
            return false;
        }
    }
    true
}
