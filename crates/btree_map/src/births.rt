ghost use Rattle.std.specs.Map.{values_of};
ghost use Rattle.std.specs.Prelude.{◌≡◌, ◌≢◌, ◌<◌, ◌^◌, All, IfNone, IfOk, IfSome, None, Some, length, map};
ghost use Rattle.birth_index.specs.Births.{BirthsDiffer, birth_of, node_of};
ghost use Rattle.birth_index.specs.declared.name.NodeName.{NodeName as ANodeName};
ghost use Rattle.btree_map.specs.Births.{children_in, node_size, parent_birth};
ghost use Rattle.btree_map.specs.Trees.{levels_in};
ghost use Rattle.interior.specs.Contents.{entry_of};
ghost use Rattle.node_mem.specs.Nodes.{size_of};
ghost use Rattle.tree_nodes.specs.Levels.{EndsAt, level_of};
ghost use Rattle.vol_types.specs.KeyMaps.{keys_in};
ghost use Rattle.vol_types.specs.Lengths.{key_length_of};
ghost use Rattle.vol_types.specs.Ranges.{IsNode};
ghost use Rattle.vol_types.specs.declared.values.Value.TheVariants.{Node};

use crate::KeyMap;
use birth_index::NodeName;
use std::alloc::{AllocError, Global};
use std::collections::btree_map;
use vol_types::{Duplicate, Key, Keys, NodePtr, Pos, SET_HEAD, Value};

impl KeyMap {
    /// The node with this birth, under its name, or none where no node has it. No other node has it.
    pub fn node_of(&self, birth: u64) -> Option<(NodeName, &NodePtr)>
        ensures named { IfSome result (λ found. node_of self.now.nodes found.0 ≡ Some found.1.now) }
        ensures born { IfSome result (λ found. found.1.now.birth ≡ birth) }
        ensures none { IfNone result ((name : ANodeName) → birth_of self.now.nodes name ≢ Some birth) }
        ensures differ { BirthsDiffer self.now.nodes }
    {
        match self.nodes.find(birth) {
            None => None,
            Some(name) => match self.node(name) {
                None => unreachable!(),
                Some(node) => Some((*name, node)),
            },
        }
    }

    /// The birth of the node above the one with this birth, or none where that is a root or no node has it.
    pub fn parent_of(&self, birth: u64) -> Option<u64>
        ensures each { (name : ANodeName) → birth_of self.now.nodes name ≡ Some birth
            → result ≡ parent_birth self.now.nodes name }
        ensures none { ((name : ANodeName) → birth_of self.now.nodes name ≢ Some birth) → result ≡ None }
    {
        match self.nodes.find(birth) {
            None => None,
            Some(name) => self.above(name),
        }
    }

    // The birth of the node above one with this name.
    fn above(&self, name: &NodeName) -> Option<u64>
        ensures { result ≡ parent_birth self.now.nodes name.now }
    {
        let nodes = self.nodes(name.btree);
        if name.level >= nodes.height() {
            return None;
        }
        match nodes.node_at(name.level + 1, &name.greatest) {
            None => None,
            Some((_, node)) => Some(node.birth),
        }
    }

    /// How many bytes the node with this birth takes on disk as one set, or 2^32 - 1 where they are more, or none where no
    /// node has it. Above the leaves it goes over the node's children.
    pub fn size_of(&self, birth: u64) -> Option<u32>
        ensures each { (name : ANodeName) → birth_of self.now.nodes name ≡ Some birth
            → result ≡ Some (node_size self.now name) }
        ensures none { ((name : ANodeName) → birth_of self.now.nodes name ≢ Some birth) → result ≡ None }
    {
        match self.nodes.find(birth) {
            None => None,
            Some(name) => Some(self.node_size(name)),
        }
    }

    /// How many bytes a node takes on disk as one set, or 2^32 - 1 where they are more. Above the leaves it goes over the
    /// node's children.
    pub fn node_size(&self, name: &NodeName) -> u32
        requires { EndsAt (level_of (levels_in self.now name.now.btree) name.now.level)
            name.now.greatest }
        ensures { result ≡ node_size self.now name.now }
    {
        // The leaves of the keys are the nodes of level 0.
        let _ = self.height(name.btree);
        if name.level > 0 {
            return self.upper_size(name);
        }
        match self.leaf_size(name.btree, &name.greatest) {
            Some(size) => size,
            None => unreachable!(),
        }
    }

    // How many bytes a node above the leaves takes on disk as one set, or 2^32 - 1 where they are more.
    fn upper_size(&self, name: &NodeName) -> u32
        requires above { 0 < name.now.level }
        requires there { name.now.level < length (levels_in self.now name.now.btree) }
        ensures { result ≡ size_of (children_in self.now name.now) }
    {
        let nodes = self.nodes(name.btree);
        let Some(below) = nodes.level(name.level - 1) else {
            unreachable!()
        };
        // So few children of so few bytes each fit 128 bits together.
        let count = below.len();
        prove!(count <= usize::MAX);
        children_size(nodes.children(name.level, &name.greatest))
    }

    /// What a node above the leaves holds, as keys: its children, in order. It takes memory for each.
    pub fn contents(&self, alloc: Global, name: &NodeName) -> Result<Keys, AllocError>
        requires above { 0 < name.now.level }
        requires there { name.now.level < length (levels_in self.now name.now.btree) }
        ensures { IfOk result (λ keys. keys ≡ keys_in (children_in self.now name.now)) }
    {
        children_keys(alloc, self.children(name))
    }
}

// How many bytes children take as one set, or 2^32 - 1 where they are more.
fn children_size(children: btree_map::Range<'_, Pos, NodePtr>) -> u32
    requires few { length children < 2 ^ 64 }
    requires in_range { All IsNode (values_of children) }
    ensures { result ≡ size_of (map entry_of children.entry) }
{
    let mut bytes = SET_HEAD;
    for (_, node) in children {
        bytes += node_length(node);
    }
    u32::try_from(bytes).unwrap_or(u32::MAX)
}

// How many bytes a node takes as the value of a key: 20 for its position and 1 for the kind, 10 for the birth, the level and
// the number of places, and 5 for each place.
fn node_length(node: &NodePtr) -> u128
    requires { IsNode node.now }
    ensures exact { result ≡ key_length_of (Some (Node node.now)) }
    ensures few { result < 64 }
{
    31 + 5 * node.places.len() as u128
}

// Children as keys.
fn children_keys(
    alloc: Global,
    children: btree_map::Range<'_, Pos, NodePtr>,
) -> Result<Keys, AllocError>
    ensures { IfOk result (λ keys. keys ≡ keys_in (map entry_of children.entry)) }
{
    let mut keys = Keys::new(alloc);
    for (pos, node) in children {
        keys.push(Key {
            pos: *pos,
            value: Some(Value::Node(node.copy(alloc)?)),
        })?;
    }
    Ok(keys)
}
