ghost use Rattle.std.specs.Prelude.{◌≡◌, ◌<◌, ◌&&◌, All, IfOk, IfSome, IsNone, OnOk, Some, slice_get, true};
ghost use Rattle.std.specs.List.{filter};
ghost use Rattle.btree_map.specs.Trees.{cut_in};
ghost use Rattle.dirty_nodes.specs.Splits.{IsLargeLeaf, IsSplitNeed, first_large, is_large, leaf_after};
ghost use Rattle.node_mem.specs.Nodes.{middle_of, size_of};
ghost use Rattle.tree_keys.specs.Cuts.{is_end, start_of};
ghost use Rattle.vol_types.specs.KeyMaps.{is_update_of};
ghost use Rattle.vol_types.specs.Limits.{node_limit};
ghost use Rattle.vol_types.specs.Maps.{put_at};
ghost use Rattle.vol_types.specs.Positions.{is_within, pos_cmp};
ghost use Rattle.vol_types.specs.Ranges.{IsKeyValue};
ghost use Rattle.vol_types.specs.Standing.{IsUpdate};

use btree_map::{KeyMap, NodeName, NodeSize};
use node_mem::{NodeMem, middles_halve};
use std::alloc::{AllocError, Global};
use vol_types::{Btree, Duplicate, NODE_LIMIT, Pos, Update, Value, positions_are_ordered, wide};

/// A node that has to be split before updates are made.
#[derive(Clone, Copy, PartialEq, Eq)]
pub struct NeedSplit {
    /// Its birth.
    pub node: u64,
    /// How many bytes it would take on disk as one set, or 2^32 - 1 where they would be more: over 47,616.
    pub size: u32,
    /// The middle one of the positions that it would hold, at which a split halves their number.
    pub at: Pos,
}

/// The first leaf that updates would make larger than nodes may be, if there is one. It takes a few steps for each update, times
/// a logarithm, and memory for each position that is changed; where there is such a leaf, it copies that one.
pub fn split_needed(
    alloc: Global,
    map: &KeyMap,
    updates: &[Update],
) -> Result<Option<NeedSplit>, AllocError>
    requires { All IsUpdate updates.now }
    ensures need { IfOk result (λ need. IfSome need (IsSplitNeed map.now updates.now)) }
    ensures none { IfOk result (λ need. IsNone need → IsNone (first_large map.now updates.now)) }
{
    let sizes = map.sizes_after_updates(alloc, updates)?;
    match first_large(sizes.as_slice()) {
        None => Ok(None),
        Some(large) => Ok(Some(need_of(alloc, map, updates, large)?)),
    }
}

// The first leaf that is larger than nodes may be, if there is one.
fn first_large(sizes: &[NodeSize]) -> Option<NodeSize>
    ensures { result ≡ slice_get (filter is_large sizes.now) 0 }
{
    for size in sizes {
        if is_large(size) {
            return Some(*size);
        }
    }
    None
}

// Whether a leaf is larger than nodes may be.
fn is_large(size: &NodeSize) -> bool
    ensures { result ≡ is_large size.now }
{
    size.size > NODE_LIMIT
}

// How the first leaf that would be too large has to be split.
fn need_of(
    alloc: Global,
    map: &KeyMap,
    updates: &[Update],
    large: NodeSize,
) -> Result<NeedSplit, AllocError>
    requires updates { All IsUpdate updates.now }
    requires large { first_large map.now updates.now ≡ Some large }
    ensures { IfOk result (IsSplitNeed map.now updates.now) }
{
    let name = leaf_named(map, updates, large);
    let leaf = leaf_after(alloc, map, name.btree, &name.greatest, updates)?;
    Ok(NeedSplit {
        node: large.birth,
        size: large.size,
        at: middle_of(&leaf),
    })
}

// The name of the first leaf that would be too large.
fn leaf_named(map: &KeyMap, updates: &[Update], large: NodeSize) -> NodeName
    requires { first_large map.now updates.now ≡ Some large }
    ensures { IsLargeLeaf map.now updates.now large result }
{
    // The leaves of the keys are the nodes of level 0.
    let _ = map.height(Btree::Extents);
    match map.node_of(large.birth) {
        None => unreachable!(),
        Some((name, _)) => name,
    }
}

// The middle one of the positions of a node that is larger than nodes may be: it has two at least.
fn middle_of(leaf: &NodeMem) -> Pos
    requires { node_limit < size_of leaf.now.entries }
    ensures { middle_of leaf.now.entries ≡ Some result }
{
    // Its values are in range, so that each takes few bytes.
    let _ = leaf.len();
    middles_halve();
    match leaf.middle() {
        None => unreachable!(),
        Some(at) => at,
    }
}

// A copy of the leaf of a btree that ends at a position, as it will be after updates.
fn leaf_after(
    alloc: Global,
    map: &KeyMap,
    btree: Btree,
    end: &Pos,
    updates: &[Update],
) -> Result<NodeMem, AllocError>
    requires updates { All IsUpdate updates.now }
    requires end { is_end end.now (cut_in map.now btree).ends ≡ true }
    ensures { IfOk result (λ leaf. leaf ≡ record {
      least = start_of end.now (cut_in map.now btree).ends;
      greatest = end.now;
      entries = leaf_after map.now updates.now btree end.now;
    }) }
{
    // The keys of the btree are cut into leaves.
    let _ = map.height(btree);
    let mut leaf = map.leaf(alloc, btree, end)?;
    for update in updates {
        let pos = wide(&update.pos);
        if is_in_leaf(&leaf, btree, update) {
            put(alloc, &mut leaf, &pos, &update.value)?;
        }
    }
    Ok(leaf)
}

// Puts a copy of a value into a leaf, or takes the value there away.
fn put(
    alloc: Global,
    leaf: &mut NodeMem,
    pos: &Pos,
    value: &Option<Value>,
) -> Result<(), AllocError>
    requires covered { is_within leaf.old.least leaf.old.greatest pos.now ≡ true }
    requires in_range { IsKeyValue value.now }
    ensures { OnOk result (leaf.new ≡ record {
      least = leaf.old.least;
      greatest = leaf.old.greatest;
      entries = put_at pos_cmp pos.now value.now leaf.old.entries;
    }) }
{
    positions_are_ordered();
    let copy = value.copy(alloc)?;
    let before = leaf.put(pos, copy)?;
    drop(before);
    Ok(())
}

// Whether an update is one of the keys of a leaf of a btree.
fn is_in_leaf(leaf: &NodeMem, btree: Btree, update: &Update) -> bool
    ensures { result ≡ (is_update_of btree update.now
        && is_within leaf.now.least leaf.now.greatest update.now.pos) }
{
    if update.level != 0 {
        return false;
    }
    if update.btree.code() != btree.code() {
        return false;
    }
    if update.pos < leaf.least() {
        return false;
    }
    update.pos <= leaf.greatest()
}
