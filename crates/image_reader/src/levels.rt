ghost use Rattle.std.specs.Prelude.{◌≡◌, ◌↔◌, true, None, All, IfOk, IfSome, map, unwrap_or};
ghost use Rattle.std.specs.Map.{values_of};
ghost use Rattle.dev_model.specs.Devices.{now};
ghost use Rattle.dev_model.specs.Disk.{as_read};
ghost use Rattle.dev_model.specs.Frames.{AreOnlyRead};
ghost use Rattle.geometry.specs.Faults.{DeviceFailed, SomeFailed};
ghost use Rattle.image_view.specs.Found.{PlacesAgree, sets_in, updates_of};
ghost use Rattle.image_view.specs.Trees.{child_in, children_of, each_of, ends_at, first_place, read_level};
ghost use Rattle.image_reader.specs.Answers.{IsRagged, Tells};
ghost use Rattle.image_reader.specs.Faults.{failed_tree_device};
ghost use Rattle.image_reader.specs.Nodes.{joined_levels, node_in};
ghost use Rattle.record_codec.specs.Entries.{IsEntryInRange};
ghost use Rattle.tree_nodes.specs.Levels.{IsNodeOf};
ghost use Rattle.vol_types.specs.Positions.{greatest_pos, least_pos, next_pos};
ghost use Rattle.vol_types.specs.Ranges.{IsValue};

use crate::changes::changes_of;
use crate::fault::TreeFault;
use crate::found::FoundLevel;
use crate::nodes::{FoundNode, read_changed};
use dev_model::Devices;
use journal_ring::FoundEntry;
use std::alloc::{AllocError, Global};
use vol_types::{Btree, Duplicate, Layout, Listing, NodePtr, Place, Pos, Value};

// The least position of the node behind one that ends here.
fn behind(greatest: &Pos) -> Pos
    ensures { result ≡ unwrap_or (next_pos greatest.now) greatest_pos }
{
    greatest.next().unwrap_or(Pos::GREATEST)
}

/// The nodes of a level of a btree, each of which covers the positions after the one before it.
pub(crate) fn read_level<D: Devices>(
    alloc: Global,
    devices: &mut D,
    layout: &Layout,
    entries: &[FoundEntry],
    btree: Btree,
    level: u8,
    nodes: &[(Pos, NodePtr)],
) -> Result<Listing<FoundNode>, TreeFault>
    requires entries { All (λ found. IsEntryInRange found.entry) entries.now }
    requires nodes { All (IsNodeOf level) (values_of nodes.now) }
    ensures found { D.tells → (SomeFailed (D.state devices.old).faults (D.state devices.new).faults
        → All (PlacesAgree layout.now.id (as_read (now (D.state devices.old)))) (values_of nodes.now))
        → Tells (map node_in) (read_level (sets_in layout.now (as_read (now (D.state devices.old))))
        (updates_of entries.now) btree least_pos nodes.now) result }
    ensures ragged { D.tells → ¬ SomeFailed (D.state devices.old).faults (D.state devices.new).faults
        → IfOk result (All (λ node. (node.ragged ≡ true) ↔ IsRagged layout.now.id
        (as_read (now (D.state devices.old))) node.pointer)) }
    ensures pointers { IfOk result (λ read. map (λ node. node.pointer) read ≡ values_of nodes.now) }
    ensures in_range { IfOk result (All (λ node. All IsValue (values_of node.entries))) }
    ensures cause { IfSome (failed_tree_device result) (λ dev. DeviceFailed dev
        (D.state devices.old).faults (D.state devices.new).faults) }
    ensures read { AreOnlyRead D.tells (D.state devices.old) (D.state devices.new) }
{
    let changes = changes_of(alloc, entries, btree, level)?;
    let mut read = Listing::new(alloc);
    let mut least = Pos::LEAST;
    for (greatest, pointer) in nodes {
        let node = read_changed(
            alloc, devices, layout, btree, &changes, &least, greatest, pointer,
        )?;
        read.push(node)?;
        least = behind(greatest);
    }
    Ok(read)
}

// The node of this level to which an entry leads, where it leads to one.
fn child_in(
    alloc: Global,
    level: u8,
    pos: &Pos,
    value: &Value,
) -> Result<Option<(Pos, NodePtr)>, AllocError>
    ensures { IfOk result (λ child. child ≡ child_in level (pos.now, value.now)) }
{
    match value {
        Value::Node(pointer) => {
            if pointer.level != level {
                return Ok(None);
            }
            Ok(Some((*pos, pointer.copy(alloc)?)))
        }
        _ => Ok(None),
    }
}

// Whether the last entry stands at this position.
fn ends_at(greatest: &Pos, entries: &[(Pos, Value)]) -> bool
    ensures { result ≡ ends_at greatest.now entries.now }
{
    match entries.last() {
        Some((pos, _)) => greatest == pos,
        None => false,
    }
}

/// The first place of a node.
pub(crate) fn first_place(pointer: &NodePtr) -> Place
    ensures { result ≡ first_place pointer.now }
{
    match pointer.places.get(0) {
        Some(place) => *place,
        None => Place { dev: 0, block: 0 },
    }
}

// The nodes of this level that make up a node of the level above. It copies their pointers.
fn children_of(alloc: Global, level: u8, node: &FoundNode) -> Result<FoundLevel, TreeFault>
    requires in_range { All IsValue (values_of node.now.entries) }
    ensures found { Tells (λ children. children) (children_of level (node_in node.now)) result }
    ensures nodes { IfOk result (λ children. All (IsNodeOf level) (values_of children)) }
    ensures none { failed_tree_device result ≡ None }
{
    let mut children = Listing::new(alloc);
    for (pos, value) in node.entries.as_slice() {
        match child_in(alloc, level, pos, value)? {
            Some(child) => children.push(child)?,
            None => return Err(TreeFault::BadNode(first_place(&node.pointer))),
        }
    }
    if !ends_at(&node.greatest, node.entries.as_slice()) {
        return Err(TreeFault::BadNode(first_place(&node.pointer)));
    }
    Ok(children)
}

/// The nodes of this level that make up those of the level above.
pub(crate) fn level_below(
    alloc: Global,
    level: u8,
    nodes: &[FoundNode],
) -> Result<FoundLevel, TreeFault>
    requires in_range { All (λ node. All IsValue (values_of node.entries)) nodes.now }
    ensures found { Tells (λ below. below) (joined_levels (each_of (children_of level)
        (map node_in nodes.now))) result }
    ensures nodes { IfOk result (λ below. All (IsNodeOf level) (values_of below)) }
    ensures none { failed_tree_device result ≡ None }
{
    let mut below = Listing::new(alloc);
    for node in nodes {
        let mut children = children_of(alloc, level, node)?;
        below.append(&mut children)?;
    }
    Ok(below)
}
