ghost use Rattle.std.specs.Map.Iter.{deref_pair};
ghost use Rattle.std.specs.Prelude.{◌≡◌, ◌==◌, ◌<◌, ◌↔◌, ◌∷◌, ◌-◌, [], All, IfErr, IfOk, IfSome, IsSome, OnErr, OnOk, Some, length, map, option_copied, option_map};
ghost use Rattle.birth_index.specs.Births.{HasCause, birth_of};
ghost use Rattle.btree_map.specs.Trees.{AreRoots, IsTrees, cut_in, entries_in, fresh_trees, keys_in, levels_in, one_leaf};
ghost use Rattle.btree_map.specs.Applied.{values_before};
ghost use Rattle.tree_nodes.specs.Levels.{Covers, IsNodeOf, level_of, node_at, under_root};
ghost use Rattle.vol_types.specs.KeyMaps.{entries_within, first_from, with_updates};
ghost use Rattle.vol_types.specs.Maps.{value_at};
ghost use Rattle.vol_types.specs.Positions.{greatest_pos, pos_cmp};
ghost use Rattle.vol_types.specs.Standing.{IsUpdate};

use crate::applying;
use birth_index::{IndexFault, IndexedNodes};
use std::alloc::{AllocError, Global};
use std::collections::btree_map;
use std::marker::Model;
use tree_keys::TreeKeys;
use tree_nodes::{TreeNodes, changes_leave_trees};
use vol_types::{Btree, Listing, NodePtr, Pos, Roots, Updates, Value};

/// The nine btrees of a volume: the keys of each, and its nodes. Each look costs a logarithm of the number of a btree's
/// keys, or of that of its nodes.
#[derive(Drop)]
pub struct KeyMap {
    pub(crate) keys: Vec<TreeKeys>,
    pub(crate) nodes: IndexedNodes,
}

impl Model for KeyMap {
    ghost use Rattle.btree_map.specs.Trees.{Trees, IsTrees};

    ghost Value = { Trees };

    ghost view = { λ map. record { keys = map.keys.items; nodes = map.nodes } };

    ghost invariant = { λ map. IsTrees (record { keys = map.keys.items; nodes = map.nodes }) };
}

impl KeyMap {
    /// Btrees without keys, each with one leaf, which is its root, or a birth that two of them have.
    pub fn fresh(alloc: Global, roots: Roots) -> Result<KeyMap, IndexFault>
        requires { AreRoots roots }
        ensures ok { IfOk result (λ map. map ≡ fresh_trees roots) }
        // It fails for two roots of one birth alone, or for memory.
        ensures err { IfErr result (HasCause (birth_of (fresh_trees roots).nodes)) }
    {
        let keys = no_keys(alloc, roots.as_slice())?;
        let nodes = Listing::from(leaves(alloc, roots)?);
        Ok(KeyMap {
            keys,
            nodes: IndexedNodes::of(alloc, nodes)?,
        })
    }

    /// The value at a position of a btree.
    pub fn get(&self, btree: Btree, pos: &Pos) -> Option<&Value>
        ensures { option_copied result ≡ value_at pos_cmp pos.now (entries_in self.now btree) }
    {
        self.keys(btree).get(pos)
    }

    /// The first value of a btree at this position or after it, with its position.
    pub fn next_from(&self, btree: Btree, pos: &Pos) -> Option<(&Pos, &Value)>
        ensures { option_map deref_pair result ≡ first_from pos.now (entries_in self.now btree) }
    {
        self.keys(btree).next_from(pos)
    }

    /// The values of a btree from the first position to the last one, both included, in order.
    pub fn span(&self, btree: Btree, first: &Pos, last: &Pos) -> btree_map::Range<'_, Pos, Value>
        ensures { result ≡ entries_within first.now last.now (entries_in self.now btree) }
    {
        self.keys(btree).range(first, last)
    }

    /// The node of a level of a btree that covers a position, with the greatest position that it covers, or none where
    /// the btree has no such level.
    pub fn node_at(&self, btree: Btree, level: u8, pos: &Pos) -> Option<(&Pos, &NodePtr)>
        ensures found { option_map deref_pair result ≡ node_at pos.now
            (level_of (levels_in self.now btree) level) }
        ensures there { IsSome result ↔ (level < length (levels_in self.now btree)) }
        ensures covers { IfSome result (λ node. Covers
            (level_of (levels_in self.now btree) level) node.0.now pos.now) }
    {
        self.nodes(btree).node_at(level, pos)
    }

    /// The birth of the leaf of a btree that covers a position.
    pub fn leaf_of(&self, btree: Btree, pos: &Pos) -> u64
        ensures { option_map (λ leaf. leaf.1.birth)
            (node_at pos.now (level_of (levels_in self.now btree) 0)) ≡ Some result }
    {
        let nodes = self.nodes(btree);
        // There is a level of leaves.
        let height = nodes.height();
        changes_leave_trees();
        prove!(0 < height);
        match nodes.node_at(0, pos) {
            Some((_, leaf)) => leaf.birth,
            None => unreachable!(),
        }
    }

    /// The root of a btree, which is the node of its last level.
    pub fn root(&self, btree: Btree) -> &NodePtr
        ensures { level_of (levels_in self.now btree) (length (levels_in self.now btree) - 1)
            ≡ (greatest_pos, result.now) ∷ [] }
    {
        self.nodes(btree).root()
    }

    /// How many levels a btree has, from 1 to 8.
    pub fn height(&self, btree: Btree) -> u8
        ensures exact { result ≡ length (levels_in self.now btree) }
        ensures sound { IsTrees self.now }
    {
        let _ = self.keys(btree);
        self.nodes(btree).height()
    }

    /// Makes updates, all of them or none, and gives for each the value that its position had before it, or none where it
    /// is of a level above the leaves: these are passed over. The nodes stay. An `Err` is out of memory, and changes
    /// nothing. Each update costs some logarithms of the number of its btree's keys, and memory for its value.
    pub fn apply(
        &mut self,
        alloc: Global,
        updates: &Updates,
    ) -> Result<Listing<Option<Value>>, AllocError>
        requires { All IsUpdate updates.now }
        ensures keys { OnOk result (keys_in self.new ≡ with_updates updates.now
            (keys_in self.old)) }
        ensures nodes { self.new.nodes ≡ self.old.nodes }
        ensures before { IfOk result (λ before. before ≡ values_before updates.now
            (keys_in self.old)) }
        ensures err { OnErr result (self.new ≡ self.old) }
    {
        let _ = &self.nodes;
        applying::apply(alloc, &mut self.keys, updates.as_slice())
    }

    /// The keys of a btree.
    pub(crate) fn keys(&self, btree: Btree) -> &TreeKeys
        ensures keys { result.now ≡ cut_in self.now btree }
        ensures sound { IsTrees self.now }
    {
        &self.keys[usize::from(btree.code())]
    }

    /// The nodes of a btree.
    pub(crate) fn nodes(&self, btree: Btree) -> &TreeNodes
        ensures { result.now ≡ levels_in self.now btree }
    {
        match self.nodes.get(btree) {
            Some(nodes) => nodes,
            None => unreachable!(),
        }
    }
}

// For each root no keys.
fn no_keys(alloc: Global, roots: &[NodePtr]) -> Result<Vec<TreeKeys>, AllocError>
    ensures { IfOk result (λ keys. keys.items ≡ map (λ _. one_leaf) roots.now) }
{
    let mut keys = Vec::new(alloc);
    for _ in roots {
        keys.push(TreeKeys::new(alloc)?)?;
    }
    Ok(keys)
}

// For each root the tree of it alone.
fn leaves(alloc: Global, roots: Roots) -> Result<Vec<TreeNodes>, AllocError>
    requires { All (IsNodeOf 0) roots }
    ensures { IfOk result (λ nodes. nodes.items ≡ map (λ root. under_root root []) roots) }
{
    let mut nodes = Vec::new(alloc);
    for root in Vec::from(roots) {
        nodes.push(TreeNodes::leaf(alloc, root)?)?;
    }
    Ok(nodes)
}
