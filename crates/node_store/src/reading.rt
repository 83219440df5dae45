ghost use Rattle.std.specs.Prelude.{◌≡◌, ◌↔◌, ◌⊎◌, ◌+◌, ◌≤◌, ◌<◌, ℕ, length, false, None, Some, Ok, Err, slice_index_or, IsSome, IfErr, IfOk, IfSome, MatchOption};
ghost use Rattle.vol_types.specs.Faults.{RoseBy};
ghost use Rattle.vol_types.specs.Ranges.{IsBucket, IsNode};
ghost use Rattle.vol_types.specs.declared.pointers.Place.{Place as APlace};
ghost use Rattle.node_store.specs.declared.reading.Unread.{Unread as AnUnread};
ghost use Rattle.dev_model.specs.Devices.{now};
ghost use Rattle.dev_model.specs.Disk.{as_read, block_at};
ghost use Rattle.dev_model.specs.Frames.{AreOnlyRead, after_reads};
ghost use Rattle.geometry.specs.Faults.{DeviceFailed, failed_device};
ghost use Rattle.node_store.specs.Answers.{AreAlike, AreCauses, AreSeenFrom, IsNodeAnswer, IsSeenFrom, LackNoMore, first_place};
ghost use Rattle.node_store.specs.Copies.{copies_at, copy_at, shown_at};
ghost use Rattle.node_store.specs.FailedReads.{IsFarthest, IsUnreadAt, farthest, lacking, read_from, unread_device};
ghost use Rattle.node_store.specs.Faults.{failed_node_device};
ghost use Rattle.node_store.specs.NodeContents.{wanted_of};

use crate::alike::are_alike;
use crate::contents::{Content, content_in};
use crate::opening::{Copied, OpenBlock, open_block};
use crate::sets::BUCKET;
use crate::{NodeFault, SetFault};
use dev_model::Devices;
use geometry::{DiskFault, read_block};
use node_mem::NodeMem;
use record_codec::SetHead;
use std::alloc::{AllocError, Global};
use vol_types::{Btree, Layout, Listing, NodePtr, Place, Pos};

/// A node as it was read.
#[derive(Drop)]
pub struct ReadNode {
    pub node: NodeMem,
    /// The first block of its bucket behind its last set.
    pub end: u8,
    /// Whether its places don't all hold its sets whole, as far as they could be read.
    pub ragged: bool,
}

// A block of the bucket that couldn't be read at a place, and the device there.
#[derive(Clone, Copy)]
struct Unread {
    block: u8,
    dev: u8,
}

// A block as it was seen: what it shows, and the device that failed.
#[derive(Drop)]
struct SeenBlock {
    shown: Option<OpenBlock>,
    failed: Option<u8>,
}

// The copies of a bucket as they were seen, and the farthest block that couldn't be read.
#[derive(Drop)]
struct SeenCopies {
    copies: Listing<Copied>,
    unread: Option<Unread>,
}

// A copy as it was seen, and the farthest block that couldn't be read in it or in those before.
#[derive(Drop)]
struct SeenCopy {
    copy: Copied,
    unread: Option<Unread>,
}

// What a block of the bucket at a place shows. A place that the devices don't have shows nothing.
fn read_shown<D: Devices>(
    alloc: Global,
    devices: &mut D,
    place: &Place,
    n: u8,
) -> Result<Option<OpenBlock>, DiskFault>
    ensures shown { D.tells → IfOk result (λ shown. shown ≡ shown_at
        (block_at (as_read (now (D.state devices.old)))) place.now n) }
    ensures read { AreOnlyRead D.tells (D.state devices.old) (D.state devices.new) }
    ensures cause { (D.state devices.new).faults ≡ after_reads (failed_device result)
        (D.state devices.old).faults }
    ensures device { IfSome (failed_device result) (λ dev. (dev ≡ place.now.dev) × (dev < 8)) }
{
    if place.dev >= devices.count() {
        return Ok(None);
    }
    let block = u64::from(place.block) + u64::from(n);
    if block >= u64::from(devices.blocks(place.dev)) {
        return Ok(None);
    }
    let bytes = read_block(alloc, devices, place.dev, block as u32)?;
    Ok(open_block(alloc, bytes.as_slice())?)
}

// The same, where a read that failed is no fault.
fn see_block<D: Devices>(
    alloc: Global,
    devices: &mut D,
    place: &Place,
    n: u8,
) -> Result<SeenBlock, AllocError>
    ensures shown { D.tells → IfOk result (λ seen. (seen.shown ≡ shown_at
        (block_at (as_read (now (D.state devices.old)))) place.now n) ⊎
        ((seen.shown ≡ None) × IsSome seen.failed)) }
    ensures unseen { IfOk result (λ seen. IsSome seen.failed → seen.shown ≡ None) }
    ensures read { AreOnlyRead D.tells (D.state devices.old) (D.state devices.new) }
    ensures cause { IfOk result (λ seen. MatchOption seen.failed ((D.state devices.new).faults
        ≡ (D.state devices.old).faults) (λ dev. (dev ≡ place.now.dev) × DeviceFailed dev
        (D.state devices.old).faults (D.state devices.new).faults)) }
{
    match read_shown(alloc, devices, place, n) {
        Ok(shown) => Ok(SeenBlock {
            shown,
            failed: None,
        }),
        Err(DiskFault::DeviceFault(dev)) => Ok(SeenBlock {
            shown: None,
            failed: Some(dev),
        }),
        Err(DiskFault::NoMemory) => Err(AllocError),
    }
}

// The farthest block that couldn't be read, after block n of a device, which failed or not.
fn farthest(n: u8, failed: Option<u8>, before: Option<Unread>) -> Option<Unread>
    ensures { result ≡ farthest n failed before }
{
    let Some(dev) = failed else {
        return before;
    };
    if let Some(unread) = before {
        if n < unread.block {
            return Some(unread);
        }
    }
    Some(Unread { block: n, dev })
}

// What the bucket at a place shows.
fn see_copy<D: Devices>(
    alloc: Global,
    devices: &mut D,
    place: &Place,
    before: Option<Unread>,
) -> Result<SeenCopy, AllocError>
    ensures shown { D.tells → IfOk result (λ seen. IsSeenFrom (read_from seen.unread)
        (copy_at (block_at (as_read (now (D.state devices.old)))) place.now) seen.copy) }
    ensures all { D.tells → IfOk result (λ seen. seen.unread ≡ None → seen.copy ≡ copy_at
        (block_at (as_read (now (D.state devices.old)))) place.now) }
    ensures few { D.tells → IfOk result (λ seen. RoseBy (lacking (copy_at
        (block_at (as_read (now (D.state devices.old)))) place.now) seen.copy)
        (slice_index_or (D.state devices.old).faults.calls place.now.dev 0)
        (slice_index_or (D.state devices.new).faults.calls place.now.dev 0)) }
    ensures from { IfOk result (λ seen. read_from before ≤ read_from seen.unread) }
    ensures unread { IfOk result (λ seen. IsFarthest before seen.unread seen.copy place.now.dev) }
    ensures size { IfOk result (λ seen. length seen.copy ≡ 16) }
    ensures read { AreOnlyRead D.tells (D.state devices.old) (D.state devices.new) }
    ensures cause { IfOk result (λ seen. AreCauses (unread_device before) (unread_device seen.unread)
        (D.state devices.old).faults (D.state devices.new).faults) }
{
    let mut copy = Listing::new(alloc);
    let mut unread = before;
    for n in 0..BUCKET {
        let seen = see_block(alloc, devices, place, n)?;
        unread = farthest(n, seen.failed, unread);
        copy.push(seen.shown)?;
    }
    Ok(SeenCopy { copy, unread })
}

// What the bucket at each place shows.
fn see_copies<D: Devices>(
    alloc: Global,
    devices: &mut D,
    places: &[Place],
) -> Result<SeenCopies, AllocError>
    ensures shown { D.tells → IfOk result (λ seen. AreSeenFrom (read_from seen.unread)
        (copies_at (block_at (as_read (now (D.state devices.old)))) places.now) seen.copies) }
    ensures few { D.tells → IfOk result (λ seen. LackNoMore
        (D.state devices.old).faults (D.state devices.new).faults places.now
        (copies_at (block_at (as_read (now (D.state devices.old)))) places.now) seen.copies) }
    ensures all { D.tells → IfOk result (λ seen. seen.unread ≡ None → seen.copies ≡ copies_at
        (block_at (as_read (now (D.state devices.old)))) places.now) }
    ensures read { AreOnlyRead D.tells (D.state devices.old) (D.state devices.new) }
    ensures cause { IfOk result (λ seen. AreCauses None (unread_device seen.unread)
        (D.state devices.old).faults (D.state devices.new).faults) }
    ensures unread { IfOk result (λ seen. IfSome seen.unread
        (IsUnreadAt places.now seen.copies)) }
{
    let mut copies = Listing::new(alloc);
    let mut unread = None;
    for place in places {
        let seen = see_copy(alloc, devices, place, unread)?;
        unread = seen.unread;
        copies.push(seen.copy)?;
    }
    Ok(SeenCopies { copies, unread })
}

// The block that couldn't be read, if it is this one or one behind it.
fn unread_from(unread: Option<Unread>, end: u8) -> Option<Unread>
    ensures { MatchOption result (read_from unread ≤ end)
        (λ far. (unread ≡ Some far) × (end ≤ far.block)) }
{
    match unread {
        None => None,
        Some(far) => {
            if far.block < end {
                return None;
            }
            Some(far)
        }
    }
}

// The node that was found, unless a block behind its sets couldn't be read.
fn judge_content(seen: &SeenCopies, content: Content) -> Result<ReadNode, NodeFault>
    ensures read { IfOk result (λ read. (read.node ≡ content.node) × (read.end ≡ content.end)) }
    ensures ragged { IfOk result (λ read. (read.ragged
        ≡ false) ↔ AreAlike read.end seen.now.copies) }
    ensures whole { IfOk result (λ read. read_from seen.now.unread ≤ read.end) }
    ensures device { IfErr result (λ fault. (far : AnUnread) × (fault
        ≡ NodeFault.DeviceFault far.dev) × (seen.now.unread ≡ Some far) × (content.end
        ≤ far.block)) }
{
    let Content { node, end } = content;
    match unread_from(seen.unread, end) {
        Some(far) => Err(NodeFault::DeviceFault(far.dev)),
        None => {
            let ragged = !are_alike(seen.copies.as_slice(), end);
            Ok(ReadNode { node, end, ragged })
        }
    }
}

// Block n of the bucket at a place.
fn behind(first: Place, n: u8) -> Place
    requires bucket { IsBucket first }
    requires block { n < 16 }
    ensures { result ≡ record { dev = first.dev; block = first.block + n } }
{
    Place {
        dev: first.dev,
        block: first.block + u32::from(n),
    }
}

// The fault of a bucket whose block n is bad, as far as it could be read.
fn fault_at(ptr: &NodePtr, unread: Option<Unread>, n: u8) -> NodeFault
    requires pointer { IsNode ptr.now }
    requires block { n < 16 }
    ensures device { (dev : ℕ) → result ≡ NodeFault.DeviceFault dev → (far : AnUnread) × (unread
        ≡ Some far) × (dev ≡ far.dev) }
    ensures bad { (place : APlace) → result ≡ NodeFault.BadNode place → (unread ≡ None) ×
        (first_place ptr.now n ≡ Some place) }
{
    if let Some(far) = unread {
        return NodeFault::DeviceFault(far.dev);
    }
    match ptr.places.get(0) {
        Some(first) => NodeFault::BadNode(behind(*first, n)),
        None => unreachable!(),
    }
}

/// The node to which the pointer leads, of this btree and with this range. It reads each of the 16 blocks of its bucket once
/// on each place, and takes memory for what they hold.
///
/// A read that fails is made up by another place where that gives the set. Where none does, and where a block behind the sets
/// can't be read, the device is at fault: that of the farthest block that couldn't be read.
pub fn read_node<D: Devices>(
    alloc: Global,
    devices: &mut D,
    layout: &Layout,
    btree: Btree,
    least: &Pos,
    greatest: &Pos,
    ptr: &NodePtr,
) -> Result<ReadNode, NodeFault>
    requires pointer { IsNode ptr.now }
    ensures found { D.tells → IsNodeAnswer (D.state devices.old).faults
        (D.state devices.new).faults layout.now.id
        (wanted_of btree least.now greatest.now ptr.now) ptr.now
        (copies_at (block_at (as_read (now (D.state devices.old)))) ptr.now.places) result }
    ensures least { IfOk result (λ read. read.node.least ≡ least.now) }
    ensures greatest { IfOk result (λ read. read.node.greatest ≡ greatest.now) }
    ensures read { AreOnlyRead D.tells (D.state devices.old) (D.state devices.new) }
    // A device that is named has failed, and a bad node is told only where none did.
    ensures cause { IfSome (failed_node_device result) (λ dev. DeviceFailed dev
        (D.state devices.old).faults (D.state devices.new).faults) }
    ensures bad { (place : APlace) → result ≡ Err (NodeFault.BadNode place)
        → (D.state devices.new).faults ≡ (D.state devices.old).faults }
{
    let wanted = SetHead {
        birth: ptr.birth,
        btree,
        level: ptr.level,
        least: *least,
        greatest: *greatest,
    };
    let seen = see_copies(alloc, devices, ptr.places.as_slice())?;
    match content_in(alloc, seen.copies.as_slice(), &layout.id, &wanted) {
        Ok(content) => judge_content(&seen, content),
        Err(SetFault::BadBlock(n)) => Err(fault_at(ptr, seen.unread, n)),
        Err(SetFault::NoMemory) => Err(NodeFault::NoMemory),
    }
}
