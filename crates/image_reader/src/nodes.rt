ghost use Rattle.std.specs.Prelude.{◌≡◌, ◌↔◌, ◌≤◌, List, true, [], All, IfOk, IfSome, length, slice_index};
ghost use Rattle.std.specs.Map.{values_of};
ghost use Rattle.dev_model.specs.Devices.{now};
ghost use Rattle.dev_model.specs.Disk.{as_read};
ghost use Rattle.dev_model.specs.Frames.{AreOnlyRead};
ghost use Rattle.geometry.specs.Faults.{DeviceFailed, SomeFailed};
ghost use Rattle.image_view.specs.Found.{PlacesAgree, are_mirrored, is_inside, sets_in};
ghost use Rattle.image_view.specs.Trees.{read_node};
ghost use Rattle.node_mem.specs.Nodes.{IsNode as IsNodeMem};
ghost use Rattle.image_reader.specs.Answers.{IsRagged, Tells};
ghost use Rattle.image_reader.specs.Changes.{all_noted, changes_within, with_changes};
ghost use Rattle.image_reader.specs.Faults.{failed_tree_device};
ghost use Rattle.image_reader.specs.Nodes.{node_in};
ghost use Rattle.vol_types.specs.Maps.{IsMap};
ghost use Rattle.vol_types.specs.Positions.{pos_cmp};
ghost use Rattle.vol_types.specs.Ranges.{IsKeyValue, IsNode, IsValue};
ghost use Rattle.vol_types.specs.declared.keys.Update.{Update as AnUpdate};

use crate::changes::{Changes, with_changes};
use crate::fault::{TreeFault, tree_fault};
use crate::found::FoundEntries;
use crate::levels::first_place;
use dev_model::Devices;
use node_mem::NodeMem;
use node_store::{ReadNode, failed_reads_are_made_up, read_node};
use std::alloc::{AllocError, Global};
use vol_types::{Btree, Duplicate, Layout, Listing, NodePtr, Place, Pos};

/// A node that was read.
#[derive(Drop)]
pub(crate) struct FoundNode {
    /// The greatest position that it covers.
    pub greatest: Pos,
    pub pointer: NodePtr,
    /// Its entries with the updates of its keys.
    pub entries: FoundEntries,
    /// The first block of its bucket behind its last set.
    pub end: u8,
    /// Whether some place of it lacks a set.
    pub ragged: bool,
}

// The entries of a node, in order. It copies each value.
fn entries_of(alloc: Global, node: &NodeMem) -> Result<FoundEntries, AllocError>
    ensures entries { IfOk result (λ entries. entries ≡ node.now.entries) }
    ensures sound { IsNodeMem node.now }
{
    let _ = node.len();
    let mut entries = Listing::new(alloc);
    for (pos, value) in node.iter() {
        entries.push((*pos, value.copy(alloc)?))?;
    }
    Ok(entries)
}

// The node whose sets were read, with the changes of its keys.
fn found_node(
    alloc: Global,
    read: ReadNode,
    changes: &Changes,
    greatest: &Pos,
    pointer: &NodePtr,
) -> Result<FoundNode, AllocError>
    requires in_range { All IsKeyValue (values_of changes.now.entries) }
    ensures node { IfOk result (λ node. node_in node ≡ record {
      greatest = greatest.now;
      pointer = pointer.now;
      entries = with_changes (changes_within read.node.least read.node.greatest changes.now.entries) read.node.entries;
      end = read.end;
    }) }
    ensures ragged { IfOk result (λ node. node.ragged ≡ read.ragged) }
    ensures in_range { IfOk result (λ node. All IsValue (values_of node.entries)) }
    ensures sound { IsNodeMem read.node }
{
    let ReadNode { node, end, ragged } = read;
    let _ = node.len();
    let changed = with_changes(alloc, node, changes)?;
    let entries = entries_of(alloc, &changed)?;
    Ok(FoundNode {
        greatest: *greatest,
        pointer: pointer.copy(alloc)?,
        entries,
        end,
        ragged,
    })
}

// How many blocks a device has; none where there is no such device.
fn size_of(layout: &Layout, dev: u8) -> u32
    ensures { result ≡ slice_index layout.now.blocks dev }
{
    let blocks = layout.blocks.as_slice();
    let at = usize::from(dev);
    if at >= blocks.len() {
        return 0;
    }
    blocks[at]
}

// Whether a place is a bucket on this device, inside it.
fn is_inside(layout: &Layout, dev: u8, place: &Place) -> bool
    ensures { result ≡ is_inside layout.now dev place.now }
{
    let size = size_of(layout, dev);
    place.dev == dev && u64::from(place.block) + 16 <= u64::from(size)
}

// Whether places are one bucket inside each metadata device, in their order.
fn are_mirrored(layout: &Layout, places: &[Place]) -> bool
    requires few { length places.now ≤ 3 }
    ensures { result ≡ are_mirrored layout.now 0 places.now }
{
    let mut dev = 0u8;
    for place in places {
        if !is_inside(layout, dev, place) {
            return false;
        }
        dev += 1;
    }
    dev == layout.metadata_replicas
}

/// The node to which a pointer leads, with the changes of its keys. It reads each of the 16 blocks of its bucket once on each
/// place. A node whose places aren't one bucket inside each metadata device, in their order, is bad, and isn't read.
pub(crate) fn read_changed<D: Devices>(
    alloc: Global,
    devices: &mut D,
    layout: &Layout,
    btree: Btree,
    changes: &Changes,
    least: &Pos,
    greatest: &Pos,
    pointer: &NodePtr,
) -> Result<FoundNode, TreeFault>
    requires pointer { IsNode pointer.now }
    requires in_range { All IsKeyValue (values_of changes.now.entries) }
    ensures found { D.tells → (updates : List AnUpdate)
        → changes.now.entries ≡ all_noted btree pointer.now.level updates []
        → (SomeFailed (D.state devices.old).faults (D.state devices.new).faults
        → PlacesAgree layout.now.id (as_read (now (D.state devices.old))) pointer.now)
        → Tells node_in (read_node (sets_in layout.now (as_read (now (D.state devices.old)))) updates
        (record { btree = btree; least = least.now; greatest = greatest.now; pointer = pointer.now })) result }
    ensures ragged { D.tells → ¬ SomeFailed (D.state devices.old).faults (D.state devices.new).faults
        → IfOk result (λ node. (node.ragged ≡ true) ↔ IsRagged layout.now.id
        (as_read (now (D.state devices.old))) pointer.now) }
    ensures pointer { IfOk result (λ node. node.pointer ≡ pointer.now) }
    ensures in_range { IfOk result (λ node. All IsValue (values_of node.entries)) }
    ensures cause { IfSome (failed_tree_device result) (λ dev. DeviceFailed dev
        (D.state devices.old).faults (D.state devices.new).faults) }
    ensures read { AreOnlyRead D.tells (D.state devices.old) (D.state devices.new) }
{
    if !are_mirrored(layout, pointer.places.as_slice()) {
        return Err(TreeFault::BadNode(first_place(pointer)));
    }
    read_placed(
        alloc, devices, layout, btree, changes, least, greatest, pointer,
    )
}

// The same of a node whose places are.
fn read_placed<D: Devices>(
    alloc: Global,
    devices: &mut D,
    layout: &Layout,
    btree: Btree,
    changes: &Changes,
    least: &Pos,
    greatest: &Pos,
    pointer: &NodePtr,
) -> Result<FoundNode, TreeFault>
    requires pointer { IsNode pointer.now }
    requires mirrored { are_mirrored layout.now 0 pointer.now.places ≡ true }
    requires in_range { All IsKeyValue (values_of changes.now.entries) }
    ensures found { D.tells → (updates : List AnUpdate)
        → changes.now.entries ≡ all_noted btree pointer.now.level updates []
        → (SomeFailed (D.state devices.old).faults (D.state devices.new).faults
        → PlacesAgree layout.now.id (as_read (now (D.state devices.old))) pointer.now)
        → Tells node_in (read_node (sets_in layout.now (as_read (now (D.state devices.old)))) updates
        (record { btree = btree; least = least.now; greatest = greatest.now; pointer = pointer.now })) result }
    ensures ragged { D.tells → ¬ SomeFailed (D.state devices.old).faults (D.state devices.new).faults
        → IfOk result (λ node. (node.ragged ≡ true) ↔ IsRagged layout.now.id
        (as_read (now (D.state devices.old))) pointer.now) }
    ensures pointer { IfOk result (λ node. node.pointer ≡ pointer.now) }
    ensures in_range { IfOk result (λ node. All IsValue (values_of node.entries)) }
    ensures cause { IfSome (failed_tree_device result) (λ dev. DeviceFailed dev
        (D.state devices.old).faults (D.state devices.new).faults) }
    ensures read { AreOnlyRead D.tells (D.state devices.old) (D.state devices.new) }
{
    failed_reads_are_made_up();
    match read_node(alloc, devices, layout, btree, least, greatest, pointer) {
        Ok(read) => Ok(found_node(alloc, read, changes, greatest, pointer)?),
        Err(fault) => Err(tree_fault(fault)),
    }
}
