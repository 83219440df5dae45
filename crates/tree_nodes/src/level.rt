ghost use Rattle.std.specs.Prelude.{◌≡◌, ◌≢◌, ◌↔◌, ◌==◌, All, Some, None, [], IsTrue, IfOk, OnOk, OnErr, length, is_some, option_copied, option_map};
ghost use Rattle.std.specs.List.{filter, list_all};
ghost use Rattle.std.specs.Map.{keys_of, values_of};
ghost use Rattle.std.specs.Map.Iter.{deref_pair};
ghost use Rattle.std.specs.declared.cmp.Ordering.TheVariants.{Greater};
ghost use Rattle.vol_types.specs.Maps.{value_at, with_value};
ghost use Rattle.vol_types.specs.Positions.{pos_cmp, is_within, IsBefore};
ghost use Rattle.tree_nodes.specs.Levels.{EndsAt, IsLevel, IsNested, IsNodeOf, IsRow, children_of, halved, least_of, node_at};

use crate::shape::is_node_of;
use std::alloc::{AllocError, Global};
use std::collections::{BTreeMap, btree_map};
use std::marker::Model;
use std::ops::Bound;
use vol_types::{Duplicate, NodePtr, Pos, copy_map, follower, wide};

/// Nodes of one level, each at the greatest position that it covers. Each look costs a logarithm of their number.
#[derive(Drop)]
pub struct LevelNodes {
    nodes: BTreeMap<Pos, NodePtr>,
}

impl Model for LevelNodes {
    ghost use Rattle.tree_nodes.specs.Levels.{Level, IsRow};

    ghost Value = { Level };

    ghost view = { λ level. level.nodes.entries };

    ghost invariant = { λ level. IsRow level.nodes.entries };
}

impl LevelNodes {
    /// No nodes. It takes no memory.
    pub fn new(alloc: Global) -> LevelNodes
        ensures { result ≡ [] }
    {
        LevelNodes {
            nodes: BTreeMap::new(alloc),
        }
    }

    /// Puts a node at the greatest position that it covers, and gives the one that was there. An `Err` changes nothing,
    /// and comes only where there was none.
    pub fn put(&mut self, greatest: &Pos, node: NodePtr) -> Result<Option<NodePtr>, AllocError>
        ensures before { IfOk result (λ before. before ≡ value_at pos_cmp greatest.now self.old) }
        ensures ok { OnOk result (self.new ≡ with_value pos_cmp greatest.now node self.old) }
        ensures err { OnErr result (self.new ≡ self.old) }
        ensures absent { OnErr result (value_at pos_cmp greatest.now self.old ≡ None) }
    {
        let greatest = wide(greatest);
        Ok(self.nodes.insert(greatest, node)?)
    }

    /// Puts a node in the place of one, and gives that one. It takes no memory.
    pub fn replace(&mut self, greatest: &Pos, node: NodePtr) -> NodePtr
        requires { EndsAt self.old greatest.now }
        ensures before { value_at pos_cmp greatest.now self.old ≡ Some result }
        ensures after { self.new ≡ with_value pos_cmp greatest.now node self.old }
    {
        match self.put(greatest, node) {
            Ok(Some(before)) => before,
            _ => unreachable!(),
        }
    }

    /// Puts two nodes in the place of one: the first ends at `at`, and the second where that one ended. It gives the one
    /// that was there. An `Err` is out of memory, and changes nothing.
    pub fn divide(
        &mut self,
        greatest: &Pos,
        at: &Pos,
        first: NodePtr,
        second: NodePtr,
    ) -> Result<NodePtr, AllocError>
        requires there { EndsAt self.old greatest.now }
        requires before { IsBefore at.now greatest.now }
        ensures before { IfOk result (λ before. value_at pos_cmp greatest.now self.old ≡ Some
            before) }
        ensures ok { OnOk result (self.new ≡ halved greatest.now at.now first second self.old) }
        ensures err { OnErr result (self.new ≡ self.old) }
    {
        self.put(at, first)?;
        Ok(self.replace(greatest, second))
    }

    /// How many nodes there are.
    pub fn len(&self) -> usize
        ensures exact { result ≡ length self.now }
        ensures row { IsRow self.now }
    {
        self.nodes.len()
    }

    /// Whether there are none.
    pub fn is_empty(&self) -> bool
        ensures { result ≡ (length self.now == 0) }
    {
        self.nodes.is_empty()
    }

    /// The node that ends at a position.
    pub fn get(&self, greatest: &Pos) -> Option<&NodePtr>
        ensures { option_copied result ≡ value_at pos_cmp greatest.now self.now }
    {
        self.nodes.get(greatest)
    }

    /// The first node that doesn't end before a position, with the position at which it ends.
    pub fn node_at(&self, pos: &Pos) -> Option<(&Pos, &NodePtr)>
        ensures { option_map deref_pair result ≡ node_at pos.now self.now }
    {
        self.nodes.range(*pos..).next()
    }

    /// The least position that a node covers which ends at a position: the one that follows the node before.
    pub fn least(&self, greatest: &Pos) -> Pos
        ensures exact { result ≡ least_of greatest.now self.now }
        ensures within { pos_cmp result greatest.now ≢ Greater }
    {
        let greatest = wide(greatest);
        match self.nodes.range(..greatest).next_back() {
            None => Pos::LEAST,
            Some((before, _)) => follower(before, &greatest),
        }
    }

    /// All nodes, each with the position at which it ends, in order.
    pub fn iter(&self) -> btree_map::Iter<'_, Pos, NodePtr>
        ensures { result ≡ self.now }
    {
        self.nodes.iter()
    }

    /// The nodes of this level that lie in the range of the node of the level above that ends at a position, in order.
    pub fn children_in(
        &self,
        above: &LevelNodes,
        greatest: &Pos,
    ) -> btree_map::Range<'_, Pos, NodePtr>
        ensures { result ≡ children_of greatest.now above.now self.now }
    {
        let least = above.least(greatest);
        nodes_within(&self.nodes, &least, greatest)
    }

    /// Whether they are the nodes of a level with this number. It looks at each.
    pub(crate) fn is_level(&self, level: usize) -> bool
        ensures { IsTrue result ↔ IsLevel level self.now }
    {
        if !ends_at(&self.nodes, &Pos::GREATEST) {
            return false;
        }
        are_nodes_of(&self.nodes, level)
    }

    /// Whether each ends where one of the level below does.
    pub(crate) fn is_nested_in(&self, below: &LevelNodes) -> bool
        ensures { IsTrue result ↔ IsNested self.now below.now }
    {
        all_end_in(&self.nodes, &below.nodes)
    }
}

// The nodes that end between two positions, both included.
fn nodes_within<'a>(
    nodes: &'a BTreeMap<Pos, NodePtr>,
    first: &Pos,
    last: &Pos,
) -> btree_map::Range<'a, Pos, NodePtr>
    requires { pos_cmp first.now last.now ≢ Greater }
    ensures { result ≡ filter (λ node. is_within first.now last.now node.0) nodes.now.entries }
{
    nodes.range((Bound::Included(*first), Bound::Included(*last)))
}

// Whether each pointer is one of this level, and in range.
fn are_nodes_of(nodes: &BTreeMap<Pos, NodePtr>, level: usize) -> bool
    ensures { IsTrue result ↔ All (IsNodeOf level) (values_of nodes.now.entries) }
{
    nodes.values().all(|node| is_node_of(node, level))
}

// Whether a node ends at a position.
fn ends_at(nodes: &BTreeMap<Pos, NodePtr>, at: &Pos) -> bool
    ensures { result ≡ is_some (value_at pos_cmp at.now nodes.now.entries) }
{
    nodes.contains_key(at)
}

// Whether each node ends where one of the others does.
fn all_end_in(nodes: &BTreeMap<Pos, NodePtr>, others: &BTreeMap<Pos, NodePtr>) -> bool
    ensures { result ≡ list_all (λ at. is_some (value_at pos_cmp at others.now.entries))
        (keys_of nodes.now.entries) }
{
    nodes.keys().all(|at| ends_at(others, at))
}

impl Duplicate for LevelNodes {
    fn copy(&self, alloc: Global) -> Result<Self, AllocError> {
        Ok(LevelNodes {
            nodes: copy_map(alloc, &self.nodes)?,
        })
    }
}
