//! What a change of a node of a btree changes in the node above it.
#![tactic(auto)]

ghost use Rattle.std.specs.Prelude.{◌≡◌, ◌==◌, ◌<◌, ◌+◌, All, IfOk, length};
ghost use Rattle.vol_types.specs.Ranges.{IsNode};
ghost use Rattle.vol_types.specs.Standing.{IsUpdate};
ghost use Rattle.tree_nodes.specs.Levels.{IsTree, divided, with_node};
ghost use Rattle.interior.specs.Contents.{Turn, node_update, rewrite_updates, split_updates};

mod laws;

pub use laws::{contents_are_divided, contents_stay};
use std::alloc::{AllocError, Global};
use tree_nodes::TreeNodes;
use vol_types::{Btree, Duplicate, NodePtr, Pos, Update, Updates, Value};

/// The updates that put two nodes into the node above them in the place of one, where that one is to be divided at a
/// position: none for the root. They copy both pointers, and change nothing.
pub fn split(
    alloc: Global,
    nodes: &TreeNodes,
    btree: Btree,
    level: u8,
    greatest: &Pos,
    at: &Pos,
    first: &NodePtr,
    second: &NodePtr,
) -> Result<Updates, AllocError>
    requires there { level < length nodes.now }
    requires first { IsNode first.now }
    requires second { IsNode second.now }
    ensures exact { IfOk result (λ updates. updates
        ≡ split_updates btree nodes.now level greatest.now at.now first.now second.now) }
    ensures stand { IfOk result (All IsUpdate) }
    // So each node of the level above holds what the updates in its range make of what it held.
    ensures turn { IfOk result (λ updates. Turn (level + 1) updates nodes.now
        (divided level greatest.now at.now first.now second.now nodes.now)) }
{
    let mut updates = Updates::new(alloc);
    if is_top(nodes, level) {
        return Ok(updates);
    }
    updates.push(put(alloc, btree, level + 1, at, first)?)?;
    updates.push(put(alloc, btree, level + 1, greatest, second)?)?;
    Ok(updates)
}

/// The update that puts another pointer of a node into the node above it: none for the root. It copies the pointer, and
/// changes nothing.
pub fn rewrite(
    alloc: Global,
    nodes: &TreeNodes,
    btree: Btree,
    level: u8,
    greatest: &Pos,
    fresh: &NodePtr,
) -> Result<Updates, AllocError>
    requires there { level < length nodes.now }
    requires fresh { IsNode fresh.now }
    ensures exact { IfOk result (λ updates. updates ≡ rewrite_updates btree nodes.now level
        greatest.now fresh.now) }
    ensures stand { IfOk result (All IsUpdate) }
    ensures turn { IfOk result (λ updates. Turn (level + 1) updates nodes.now
        (with_node level greatest.now fresh.now nodes.now)) }
{
    let mut updates = Updates::new(alloc);
    if is_top(nodes, level) {
        return Ok(updates);
    }
    updates.push(put(alloc, btree, level + 1, greatest, fresh)?)?;
    Ok(updates)
}

// Whether a level is that of the root.
fn is_top(nodes: &TreeNodes, level: u8) -> bool
    ensures exact { result ≡ (level + 1 == length nodes.now) }
    ensures sound { IsTree nodes.now }
    ensures few { length nodes.now < 256 }
{
    usize::from(level) + 1 == usize::from(nodes.height())
}

// The update that puts a node at a position of a level above the leaves.
fn put(
    alloc: Global,
    btree: Btree,
    level: u8,
    pos: &Pos,
    node: &NodePtr,
) -> Result<Update, AllocError>
    requires above { 0 < level }
    requires node { IsNode node.now }
    ensures exact { IfOk result (λ update. update ≡ node_update btree level pos.now node.now) }
    ensures stands { IfOk result IsUpdate }
{
    Ok(Update {
        btree,
        level,
        pos: *pos,
        value: Some(Value::Node(node.copy(alloc)?)),
    })
}
