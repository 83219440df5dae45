ghost use Rattle.std.specs.Prelude.{◌≡◌, ◌↔◌, ◌<◌, ◌++◌, ◌∷◌, [], if◌then◌else◌, None, Some, All, Contains, IfOk, IfSome, OnOk, get_or, length, map};
ghost use Rattle.std.specs.List.{flat_map};
ghost use Rattle.std.specs.Map.{values_of};
ghost use Rattle.dev_model.specs.Devices.{now};
ghost use Rattle.dev_model.specs.Disk.{as_read};
ghost use Rattle.dev_model.specs.Frames.{AreOnlyRead};
ghost use Rattle.geometry.specs.Faults.{DeviceFailed, SomeFailed};
ghost use Rattle.image_view.specs.Found.{sets_in, updates_of};
ghost use Rattle.image_view.specs.Trees.{all_btrees, btree_of, each_of, ends_of, read_down, with_roots};
ghost use Rattle.image_reader.specs.Answers.{AreRagged, AreSureBtrees, IsSureBtree, Tells};
ghost use Rattle.image_reader.specs.Faults.{failed_tree_device};
ghost use Rattle.image_reader.specs.Nodes.{node_in, ragged_births};
ghost use Rattle.image_reader.specs.Volumes.{btree_in};
ghost use Rattle.record_codec.specs.Entries.{IsEntryInRange};
ghost use Rattle.tree_nodes.specs.Levels.{IsNodeOf};
ghost use Rattle.vol_types.specs.Positions.{greatest_pos};
ghost use Rattle.vol_types.specs.Ranges.{IsNode};

use crate::fault::TreeFault;
use crate::found::{FoundBtree, FoundEntries, FoundLevel};
use crate::levels::{level_below, read_level};
use crate::nodes::FoundNode;
use dev_model::Devices;
use journal_ring::FoundEntry;
use std::alloc::{AllocError, Global};
use vol_types::{Births, Btree, Duplicate, Ends, Layout, Listing, NodeEnd, NodePtr, Pos};

// For each node where its sets end.
fn ends_of(alloc: Global, nodes: &[FoundNode]) -> Result<Ends, AllocError>
    ensures { IfOk result (λ ends. ends ≡ ends_of (map node_in nodes.now)) }
{
    let mut ends = Listing::new(alloc);
    for node in nodes {
        ends.push(NodeEnd {
            birth: node.pointer.birth,
            block: node.end,
        })?;
    }
    Ok(ends)
}

// Adds the birth of a node if some place of it lacks a set.
fn note_ragged(births: &mut Births, node: &FoundNode) -> Result<(), AllocError>
    ensures { OnOk result (births.new ≡ births.old
        ++ (if node.now.ragged then node.now.pointer.birth ∷ [] else [])) }
{
    if !node.ragged {
        return Ok(());
    }
    births.push(node.pointer.birth)?;
    Ok(())
}

// The births of the nodes of which some place lacks a set.
fn ragged_births(alloc: Global, nodes: &[FoundNode]) -> Result<Births, AllocError>
    ensures { IfOk result (λ births. births ≡ ragged_births nodes.now) }
{
    let mut births = Listing::new(alloc);
    for node in nodes {
        note_ragged(&mut births, node)?;
    }
    Ok(births)
}

// The entries of all nodes, in order.
fn entries_of(alloc: Global, nodes: Listing<FoundNode>) -> Result<FoundEntries, AllocError>
    ensures { IfOk result (λ entries. entries ≡ flat_map (λ node. node.entries) nodes) }
{
    let mut entries = Listing::new(alloc);
    for node in Vec::from(nodes) {
        let FoundNode { entries: own, .. } = node;
        append(&mut entries, own)?;
    }
    Ok(entries)
}

// Moves the entries of a node to the end.
fn append(entries: &mut FoundEntries, mut own: FoundEntries) -> Result<(), AllocError>
    ensures { OnOk result (entries.new ≡ entries.old ++ own) }
{
    entries.append(&mut own)
}

// A btree whose leaves are these nodes.
fn leaves(
    alloc: Global,
    read: Listing<FoundNode>,
    nodes: FoundLevel,
) -> Result<FoundBtree, AllocError>
    ensures btree { IfOk result (λ btree. btree_in btree ≡ record {
      entries = flat_map (λ node. node.entries) (map node_in read);
      levels = nodes ∷ [];
      ends = ends_of (map node_in read);
    }) }
    ensures ragged { IfOk result (λ btree. btree.ragged ≡ ragged_births read) }
{
    let ends = ends_of(alloc, read.as_slice())?;
    let ragged = ragged_births(alloc, read.as_slice())?;
    let mut levels = Listing::new(alloc);
    levels.push(nodes)?;
    let entries = entries_of(alloc, read)?;
    Ok(FoundBtree {
        entries,
        levels,
        ends,
        ragged,
    })
}

// The btree with these nodes as the level above it.
fn under(
    alloc: Global,
    read: &[FoundNode],
    nodes: FoundLevel,
    rest: FoundBtree,
) -> Result<FoundBtree, AllocError>
    ensures btree { IfOk result (λ btree. btree_in btree ≡ record {
      entries = rest.entries;
      levels = rest.levels ++ nodes ∷ [];
      ends = ends_of (map node_in read.now) ++ rest.ends;
    }) }
    ensures ragged { IfOk result (λ btree. btree.ragged ≡ ragged_births read.now ++ rest.ragged) }
{
    let FoundBtree {
        entries,
        mut levels,
        ends: mut lower_ends,
        ragged: mut lower_ragged,
    } = rest;
    let mut ends = ends_of(alloc, read)?;
    ends.append(&mut lower_ends)?;
    let mut ragged = ragged_births(alloc, read)?;
    ragged.append(&mut lower_ragged)?;
    levels.push(nodes)?;
    Ok(FoundBtree {
        entries,
        levels,
        ends,
        ragged,
    })
}

// A btree from a level down to the leaves, level by level. There are at most eight.
fn read_down<D: Devices>(
    alloc: Global,
    devices: &mut D,
    layout: &Layout,
    entries: &[FoundEntry],
    btree: Btree,
    level: u8,
    nodes: FoundLevel,
) -> Result<FoundBtree, TreeFault>
    requires entries { All (λ found. IsEntryInRange found.entry) entries.now }
    requires nodes { All (IsNodeOf level) (values_of nodes) }
    ensures found { D.tells → (SomeFailed (D.state devices.old).faults (D.state devices.new).faults
        → IsSureBtree layout.now.id (as_read (now (D.state devices.old)))
        (read_down (sets_in layout.now (as_read (now (D.state devices.old)))) (updates_of entries.now) btree level nodes))
        → Tells btree_in (read_down (sets_in layout.now (as_read (now (D.state devices.old))))
        (updates_of entries.now) btree level nodes) result }
    ensures ragged { D.tells → ¬ SomeFailed (D.state devices.old).faults (D.state devices.new).faults
        → IfOk result (λ read. AreRagged layout.now.id (as_read (now (D.state devices.old)))
        (flat_map values_of read.levels) read.ragged) }
    ensures cause { IfSome (failed_tree_device result) (λ dev. DeviceFailed dev
        (D.state devices.old).faults (D.state devices.new).faults) }
    ensures read { AreOnlyRead D.tells (D.state devices.old) (D.state devices.new) }
{
    let read = read_level(
        alloc,
        devices,
        layout,
        entries,
        btree,
        level,
        nodes.as_slice(),
    )?;
    if level == 0 {
        return Ok(leaves(alloc, read, nodes)?);
    }
    let below = level_below(alloc, level - 1, read.as_slice())?;
    let rest = read_down(alloc, devices, layout, entries, btree, level - 1, below)?;
    Ok(under(alloc, read.as_slice(), nodes, rest)?)
}

// The level of the root alone.
fn root_level(alloc: Global, root: &NodePtr) -> Result<FoundLevel, AllocError>
    ensures { IfOk result (λ top. top ≡ (greatest_pos, root.now) ∷ []) }
{
    let mut top = Listing::new(alloc);
    top.push((Pos::GREATEST, root.copy(alloc)?))?;
    Ok(top)
}

// A btree under its root, which covers all positions.
fn read_btree<D: Devices>(
    alloc: Global,
    devices: &mut D,
    layout: &Layout,
    entries: &[FoundEntry],
    btree: Btree,
    root: &NodePtr,
) -> Result<FoundBtree, TreeFault>
    requires entries { All (λ found. IsEntryInRange found.entry) entries.now }
    requires root { IsNode root.now }
    ensures found { D.tells → (SomeFailed (D.state devices.old).faults (D.state devices.new).faults
        → IsSureBtree layout.now.id (as_read (now (D.state devices.old)))
        (btree_of (sets_in layout.now (as_read (now (D.state devices.old)))) (updates_of entries.now) (btree, root.now)))
        → Tells btree_in (btree_of (sets_in layout.now (as_read (now (D.state devices.old))))
        (updates_of entries.now) (btree, root.now)) result }
    ensures ragged { D.tells → ¬ SomeFailed (D.state devices.old).faults (D.state devices.new).faults
        → IfOk result (λ read. AreRagged layout.now.id (as_read (now (D.state devices.old)))
        (flat_map values_of read.levels) read.ragged) }
    ensures cause { IfSome (failed_tree_device result) (λ dev. DeviceFailed dev
        (D.state devices.old).faults (D.state devices.new).faults) }
    ensures read { AreOnlyRead D.tells (D.state devices.old) (D.state devices.new) }
{
    let top = root_level(alloc, root)?;
    read_down(alloc, devices, layout, entries, btree, root.level, top)
}

// The btree with this number.
fn btree_at(number: u8) -> Btree
    requires { number < 9 }
    ensures { get_or all_btrees number result ≡ result }
{
    match Btree::from_code(number) {
        Some(btree) => btree,
        None => unreachable!(),
    }
}

/// The btrees under their roots, in the order of their numbers.
pub(crate) fn read_btrees<D: Devices>(
    alloc: Global,
    devices: &mut D,
    layout: &Layout,
    entries: &[FoundEntry],
    roots: &[NodePtr],
) -> Result<Listing<FoundBtree>, TreeFault>
    requires entries { All (λ found. IsEntryInRange found.entry) entries.now }
    requires roots { All IsNode roots.now }
    requires count { length roots.now ≡ 9 }
    ensures found { D.tells → (SomeFailed (D.state devices.old).faults (D.state devices.new).faults
        → AreSureBtrees layout.now.id (as_read (now (D.state devices.old)))
        (each_of (btree_of (sets_in layout.now (as_read (now (D.state devices.old)))) (updates_of entries.now)) (with_roots roots.now)))
        → Tells (map btree_in) (each_of (btree_of (sets_in layout.now (as_read (now (D.state devices.old))))
        (updates_of entries.now)) (with_roots roots.now)) result }
    ensures ragged { D.tells → ¬ SomeFailed (D.state devices.old).faults (D.state devices.new).faults
        → IfOk result (All (λ read. AreRagged layout.now.id (as_read (now (D.state devices.old)))
        (flat_map values_of read.levels) read.ragged)) }
    ensures cause { IfSome (failed_tree_device result) (λ dev. DeviceFailed dev
        (D.state devices.old).faults (D.state devices.new).faults) }
    ensures read { AreOnlyRead D.tells (D.state devices.old) (D.state devices.new) }
{
    let mut btrees = Listing::new(alloc);
    for number in 0..9u8 {
        let root = &roots[usize::from(number)];
        let btree = read_btree(alloc, devices, layout, entries, btree_at(number), root)?;
        btrees.push(btree)?;
    }
    Ok(btrees)
}
