ghost use Rattle.std.specs.Prelude.{◌≡◌, ◌≢◌, ◌↔◌, ◌⊎◌, ◌+◌, ◌<◌, ℕ, Contains, List, length, true, false, None, Some, IsTrue, IfOk, IfSome, OnOk};
ghost use Rattle.dev_model.specs.Crashes.{EachCrash, IsAt, IsQuiet};
ghost use Rattle.dev_model.specs.Devices.{IsPlace, now};
ghost use Rattle.dev_model.specs.Disk.{as_read, block_at};
ghost use Rattle.dev_model.specs.Frames.{AreOnlyRead, GoOn};
ghost use Rattle.vol_types.specs.declared.pointers.Place.{Place as APlace};
ghost use Rattle.geometry.specs.Faults.{DeviceFailed, SomeFailed, failed_device};
ghost use Rattle.node_store.specs.Answers.{AreAlike};
ghost use Rattle.node_store.specs.Copies.{copies_at};
ghost use Rattle.node_store.specs.Mending.{ArePlaced, AreWritten, AtMostOneWriteFailed, CanBeMended, IsCopyShown, IsDeviceOf, IsPlaced, IsShown, IsStillShown, IsToMend, IsWanted, IsWholeOrNone, KeepsRest, MayBeMended, StayShown, WritesOnly, is_node_head, is_of_node};
ghost use Rattle.node_store.specs.Writes.{HaveCopies, IsCopyBlock, IsCopyOf};

use crate::sets::BUCKET;
use crate::writing::block_of;
use dev_model::Devices;
use geometry::{DiskFault, flush_device, read_block, write_device};
use sealed_block::{Head, NODE_SET, unseal};
use std::alloc::{AllocError, Global};
use vol_types::{Bytes, Layout, NodePtr, Place};

fn is_node_head(id: &[u8; 16], birth: u64, head: &Head) -> bool
    ensures { result ≡ is_node_head id.now birth head.now }
{
    head.kind == NODE_SET && head.id == *id && head.owner == birth
}

// Whether bytes open as a block of a node.
fn is_of_node(id: &[u8; 16], birth: u64, bytes: &[u8]) -> bool
    ensures { result ≡ is_of_node id.now birth (Some bytes.now) }
{
    match unseal(bytes) {
        None => false,
        Some(head) => is_node_head(id, birth, &head),
    }
}

// Whether the devices have block n of the bucket at a place.
fn has_block<D: Devices>(devices: &D, place: &Place, n: u8) -> bool
    ensures has { IsTrue result ↔ IsPlace (D.state devices.now).sizes place.now.dev
        (place.now.block + n) }
    ensures device { IsTrue result → place.now.dev < 8 }
{
    if place.dev >= devices.count() {
        return false;
    }
    u64::from(place.block) + u64::from(n) < u64::from(devices.blocks(place.dev))
}

// A block of a node as it was read, and the device of the place that shows it.
#[derive(Drop)]
struct Shown {
    dev: u8,
    bytes: Bytes,
}

// What came of a look at a place: a block of the node, and a device whose read has failed so far.
#[derive(Drop)]
struct Look {
    shown: Option<Shown>,
    failed: Option<u8>,
}

// Block n of the bucket at a place, if the devices have it and it opens as a block of the node.
fn shown_copy<D: Devices>(
    alloc: Global,
    devices: &mut D,
    layout: &Layout,
    birth: u64,
    place: &Place,
    n: u8,
) -> Result<Option<Bytes>, DiskFault>
    ensures bytes { D.tells → IfOk result (λ shown. IfSome shown (λ bytes. block_at
        (as_read (now (D.state devices.old))) place.now.dev (place.now.block + n) ≡ Some bytes)) }
    ensures size { IfOk result (λ shown. IfSome shown (λ bytes. length bytes ≡ 4096)) }
    ensures opens { IfOk result (λ shown. IfSome shown (λ bytes. is_of_node layout.now.id birth
        (Some bytes) ≡ true)) }
    ensures none { D.tells → IfOk result (λ shown. shown ≡ None → is_of_node layout.now.id birth
        (block_at (as_read (now (D.state devices.old))) place.now.dev (place.now.block + n))
        ≡ false) }
    ensures read { AreOnlyRead D.tells (D.state devices.old) (D.state devices.new) }
    ensures cause { IfSome (failed_device result) (λ dev. (dev ≡ place.now.dev)
        × DeviceFailed dev (D.state devices.old).faults (D.state devices.new).faults) }
{
    if !has_block(devices, place, n) {
        return Ok(None);
    }
    let block = block_of(devices, place, n);
    let bytes = read_block(alloc, devices, place.dev, block)?;
    if !is_of_node(&layout.id, birth, bytes.as_slice()) {
        return Ok(None);
    }
    Ok(Some(bytes))
}

// Looks at one place more for block n of the node. A read that fails ends nothing.
fn look_at<D: Devices>(
    alloc: Global,
    devices: &mut D,
    layout: &Layout,
    birth: u64,
    place: &Place,
    n: u8,
    failed: Option<u8>,
) -> Result<Look, AllocError>
    ensures bytes { D.tells → IfOk result (λ look. IfSome look.shown (λ shown. (block_at
        (as_read (now (D.state devices.old))) place.now.dev (place.now.block + n)
        ≡ Some shown.bytes) × (place.now.dev ≡ shown.dev))) }
    ensures size { IfOk result (λ look. IfSome look.shown (λ shown. length shown.bytes ≡ 4096)) }
    ensures opens { IfOk result (λ look. IfSome look.shown (λ shown. is_of_node layout.now.id birth
        (Some shown.bytes) ≡ true)) }
    ensures lacks { D.tells → IfOk result (λ look. look.shown ≡ None → look.failed ≡ None
        → is_of_node layout.now.id birth (block_at (as_read (now (D.state devices.old)))
        place.now.dev (place.now.block + n)) ≡ false) }
    ensures failed { IfOk result (λ look. (look.failed ≡ failed) ⊎ ((look.failed
        ≡ Some place.now.dev) × DeviceFailed place.now.dev (D.state devices.old).faults
        (D.state devices.new).faults)) }
    ensures read { AreOnlyRead D.tells (D.state devices.old) (D.state devices.new) }
{
    match shown_copy(alloc, devices, layout, birth, place, n) {
        Ok(Some(bytes)) => Ok(Look {
            shown: Some(Shown {
                dev: place.dev,
                bytes,
            }),
            failed,
        }),
        Ok(None) => Ok(Look {
            shown: None,
            failed,
        }),
        Err(DiskFault::DeviceFault(dev)) => Ok(Look {
            shown: None,
            failed: Some(dev),
        }),
        Err(DiskFault::NoMemory) => Err(AllocError),
    }
}

// Block n of the node, from the first place that shows it. Where none does, and a place can't be read, that device is at fault.
fn shown_block<D: Devices>(
    alloc: Global,
    devices: &mut D,
    layout: &Layout,
    birth: u64,
    places: &[Place],
    n: u8,
) -> Result<Option<Shown>, DiskFault>
    ensures shown { D.tells → IfOk result (λ found. IfSome found (λ shown. (is : IsShown layout.now.id
        birth places.now (as_read (now (D.state devices.old))) n shown.bytes)
        × (is.place.dev ≡ shown.dev))) }
    ensures size { IfOk result (λ found. IfSome found (λ shown. length shown.bytes ≡ 4096)) }
    ensures opens { IfOk result (λ found. IfSome found (λ shown. is_of_node layout.now.id birth
        (Some shown.bytes) ≡ true)) }
    ensures none { D.tells → IfOk result (λ found. found ≡ None → (bytes : List ℕ)
        → ¬ IsShown layout.now.id birth places.now (as_read (now (D.state devices.old))) n
        bytes) }
    ensures read { AreOnlyRead D.tells (D.state devices.old) (D.state devices.new) }
    ensures cause { IfSome (failed_device result) (λ dev. IsDeviceOf places.now dev
        × DeviceFailed dev (D.state devices.old).faults (D.state devices.new).faults) }
{
    let mut failed = None;
    for place in places {
        let look = look_at(alloc, devices, layout, birth, place, n, failed)?;
        failed = look.failed;
        if look.shown.is_some() {
            return Ok(look.shown);
        }
    }
    match failed {
        None => Ok(None),
        Some(dev) => Err(DiskFault::DeviceFault(dev)),
    }
}

// Writes a block of a device, and flushes that.
fn settle_block<D: Devices>(
    devices: &mut D,
    dev: u8,
    block: u32,
    bytes: &[u8],
) -> Result<(), DiskFault>
    requires place { IsPlace (D.state devices.old).sizes dev block }
    requires device { dev < 8 }
    requires size { length bytes.now ≡ 4096 }
    ensures writes { D.tells → WritesOnly (IsAt dev block) (λ d b x. IsAt dev block d b × (x
        ≡ bytes.now)) (D.state devices.old) (D.state devices.new) }
    ensures written { D.tells → OnOk result (block_at (as_read (now (D.state devices.new))) dev
        block ≡ Some bytes.now) }
    ensures rest { D.tells → OnOk result (KeepsRest (D.state devices.old) (D.state devices.new)) }
    ensures goes_on { GoOn (D.state devices.old) (D.state devices.new) }
    ensures cause { AtMostOneWriteFailed (failed_device result) (D.state devices.old).faults
        (D.state devices.new).faults }
    ensures device { IfSome (failed_device result) (λ failed. failed ≡ dev) }
{
    write_device(devices, dev, block, bytes)?;
    flush_device(devices, dev)
}

// Whether block n of the node is to be written at a place: the devices have it, and it shows no block of the node there or can't be
// read.
fn is_to_mend<D: Devices>(
    alloc: Global,
    devices: &mut D,
    layout: &Layout,
    birth: u64,
    place: &Place,
    n: u8,
) -> Result<bool, AllocError>
    ensures place { IfOk result (λ lacks. IsTrue lacks → IsPlace (D.state devices.old).sizes
        place.now.dev (place.now.block + n)) }
    ensures device { IfOk result (λ lacks. IsTrue lacks → place.now.dev < 8) }
    ensures lacks { D.tells → IfOk result (λ lacks. IsTrue lacks → (is_of_node layout.now.id birth
        (block_at (as_read (now (D.state devices.old))) place.now.dev (place.now.block + n))
        ≡ false) ⊎ DeviceFailed place.now.dev (D.state devices.old).faults
        (D.state devices.new).faults) }
    ensures stands { D.tells → IfOk result (λ lacks. lacks ≡ false → IsPlace
        (D.state devices.old).sizes place.now.dev (place.now.block + n)
        → is_of_node layout.now.id birth (block_at (as_read (now (D.state devices.old)))
        place.now.dev (place.now.block + n)) ≡ true) }
    ensures read { AreOnlyRead D.tells (D.state devices.old) (D.state devices.new) }
{
    if !has_block(devices, place, n) {
        return Ok(false);
    }
    match shown_copy(alloc, devices, layout, birth, place, n) {
        Ok(shown) => {
            let lacks = shown.is_none();
            drop(shown);
            Ok(lacks)
        }
        Err(DiskFault::DeviceFault(_)) => Ok(true),
        Err(DiskFault::NoMemory) => Err(AllocError),
    }
}

// Writes block n of the node at a place that is to be mended, and flushes the device. The device that the block was read from is left.
fn mend_copy<D: Devices>(
    alloc: Global,
    devices: &mut D,
    layout: &Layout,
    birth: u64,
    place: &Place,
    n: u8,
    shown: &Shown,
) -> Result<(), DiskFault>
    requires size { length shown.now.bytes ≡ 4096 }
    requires opens { is_of_node layout.now.id birth (Some shown.now.bytes) ≡ true }
    ensures writes { D.tells → WritesOnly (λ d b. IsAt place.now.dev (place.now.block + n) d b
        × (d ≢ shown.now.dev) × ((is_of_node layout.now.id birth
        (block_at (as_read (now (D.state devices.old))) d b) ≡ false)
        ⊎ DeviceFailed d (D.state devices.old).faults (D.state devices.new).faults))
        (λ d b x. IsAt place.now.dev (place.now.block + n) d b × (x ≡ shown.now.bytes))
        (D.state devices.old) (D.state devices.new) }
    // What can be read and doesn't lack is left.
    ensures idle { D.tells → ¬ SomeFailed (D.state devices.old).faults
        (D.state devices.new).faults → is_of_node layout.now.id birth
        (block_at (as_read (now (D.state devices.old))) place.now.dev (place.now.block + n)) ≡ true
        → AreOnlyRead D.tells (D.state devices.old) (D.state devices.new) }
    ensures mended { D.tells → OnOk result (IsPlace (D.state devices.old).sizes place.now.dev
        (place.now.block + n) → (place.now.dev ≡ shown.now.dev → is_of_node layout.now.id birth
        (block_at (as_read (now (D.state devices.old))) place.now.dev (place.now.block + n))
        ≡ true) → is_of_node layout.now.id birth (block_at (as_read (now (D.state devices.new)))
        place.now.dev (place.now.block + n)) ≡ true) }
    ensures written { D.tells → OnOk result (AreWritten (λ d b x. IsAt place.now.dev
        (place.now.block + n) d b × (x ≡ shown.now.bytes)) (as_read (now (D.state devices.old)))
        (as_read (now (D.state devices.new)))) }
    ensures rest { D.tells → OnOk result (KeepsRest (D.state devices.old) (D.state devices.new)) }
    ensures goes_on { GoOn (D.state devices.old) (D.state devices.new) }
    ensures cause { AtMostOneWriteFailed (failed_device result) (D.state devices.old).faults
        (D.state devices.new).faults }
    ensures device { IfSome (failed_device result) (λ failed. failed ≡ place.now.dev) }
{
    if place.dev == shown.dev {
        return Ok(());
    }
    if !is_to_mend(alloc, devices, layout, birth, place, n)? {
        return Ok(());
    }
    let block = block_of(devices, place, n);
    settle_block(devices, place.dev, block, shown.bytes.as_slice())
}

// Does so at each of its places.
fn mend_copies<D: Devices>(
    alloc: Global,
    devices: &mut D,
    layout: &Layout,
    birth: u64,
    places: &[Place],
    n: u8,
    shown: &Shown,
) -> Result<(), DiskFault>
    requires size { length shown.now.bytes ≡ 4096 }
    requires opens { is_of_node layout.now.id birth (Some shown.now.bytes) ≡ true }
    ensures writes { D.tells → WritesOnly (λ d b. IsCopyOf places.now n d b × (d ≢ shown.now.dev)
        × ((is_of_node layout.now.id birth (block_at (as_read (now (D.state devices.old))) d b)
        ≡ false) ⊎ DeviceFailed d (D.state devices.old).faults (D.state devices.new).faults))
        (IsCopyBlock places.now n shown.now.bytes) (D.state devices.old) (D.state devices.new) }
    ensures idle { D.tells → ¬ SomeFailed (D.state devices.old).faults
        (D.state devices.new).faults → ((place : APlace) → Contains places.now place
        → is_of_node layout.now.id birth (block_at (as_read (now (D.state devices.old)))
        place.dev (place.block + n)) ≡ true) → AreOnlyRead D.tells (D.state devices.old)
        (D.state devices.new) }
    ensures mended { D.tells → HaveCopies (D.state devices.old).sizes places.now n
        → ((place : APlace) → Contains places.now place → place.dev ≡ shown.now.dev
        → is_of_node layout.now.id birth (block_at (as_read (now (D.state devices.old)))
        place.dev (place.block + n)) ≡ true)
        → OnOk result ((place : APlace) → Contains places.now place
        → is_of_node layout.now.id birth (block_at (as_read (now (D.state devices.new)))
        place.dev (place.block + n)) ≡ true) }
    ensures written { D.tells → OnOk result (AreWritten (IsCopyBlock places.now n shown.now.bytes)
        (as_read (now (D.state devices.old))) (as_read (now (D.state devices.new)))) }
    ensures rest { D.tells → OnOk result (KeepsRest (D.state devices.old) (D.state devices.new)) }
    ensures goes_on { GoOn (D.state devices.old) (D.state devices.new) }
    ensures cause { AtMostOneWriteFailed (failed_device result) (D.state devices.old).faults
        (D.state devices.new).faults }
    ensures device { IfSome (failed_device result) (IsDeviceOf places.now) }
{
    for place in places {
        mend_copy(alloc, devices, layout, birth, place, n, shown)?;
    }
    Ok(())
}

// Writes block n of the node, from the first place that shows it, at each other place that is to be mended.
fn mend_block<D: Devices>(
    alloc: Global,
    devices: &mut D,
    layout: &Layout,
    birth: u64,
    places: &[Place],
    n: u8,
) -> Result<(), DiskFault>
    requires { ArePlaced layout.now places.now }
    ensures writes { D.tells → WritesOnly (λ d b. IsCopyOf places.now n d b
        × ((is_of_node layout.now.id birth (block_at (as_read (now (D.state devices.old))) d b)
        ≡ false) ⊎ DeviceFailed d (D.state devices.old).faults (D.state devices.new).faults))
        (IsCopyShown layout.now.id birth places.now n (as_read (now (D.state devices.old))))
        (D.state devices.old) (D.state devices.new) }
    ensures kept { D.tells → IsQuiet (now (D.state devices.old)) → EachCrash (λ _ _ image.
        (bytes : List ℕ) → IsShown layout.now.id birth places.now
        (as_read (now (D.state devices.old))) n bytes → IsStillShown layout.now.id birth
        places.now n (as_read (now (D.state devices.old))) image) (D.state devices.old)
        (D.state devices.new) }
    ensures idle { D.tells → ¬ SomeFailed (D.state devices.old).faults
        (D.state devices.new).faults → IsWholeOrNone layout.now.id birth places.now n
        (as_read (now (D.state devices.old))) → AreOnlyRead D.tells (D.state devices.old)
        (D.state devices.new) }
    ensures mended { D.tells → HaveCopies (D.state devices.old).sizes places.now n
        → (bytes : List ℕ) → IsShown layout.now.id birth places.now
        (as_read (now (D.state devices.old))) n bytes
        → OnOk result ((place : APlace) → Contains places.now place
        → is_of_node layout.now.id birth (block_at (as_read (now (D.state devices.new)))
        place.dev (place.block + n)) ≡ true) }
    ensures written { D.tells → OnOk result (AreWritten (IsCopyShown layout.now.id birth
        places.now n (as_read (now (D.state devices.old))))
        (as_read (now (D.state devices.old))) (as_read (now (D.state devices.new)))) }
    ensures rest { D.tells → OnOk result (KeepsRest (D.state devices.old) (D.state devices.new)) }
    ensures goes_on { GoOn (D.state devices.old) (D.state devices.new) }
    ensures cause { AtMostOneWriteFailed (failed_device result) (D.state devices.old).faults
        (D.state devices.new).faults }
    ensures device { IfSome (failed_device result) (IsDeviceOf places.now) }
{
    match shown_block(alloc, devices, layout, birth, places, n)? {
        None => Ok(()),
        Some(shown) => {
            let mended = mend_copies(alloc, devices, layout, birth, places, n, &shown);
            drop(shown);
            mended
        }
    }
}

// Does so with each of the first so many blocks of its bucket.
fn mend_blocks<D: Devices>(
    alloc: Global,
    devices: &mut D,
    layout: &Layout,
    birth: u64,
    places: &[Place],
    end: u8,
) -> Result<(), DiskFault>
    requires { MayBeMended layout.now places.now end }
    ensures writes { D.tells → WritesOnly (IsToMend layout.now.id birth places.now end
        (as_read (now (D.state devices.old))) (λ dev. DeviceFailed dev
        (D.state devices.old).faults (D.state devices.new).faults))
        (IsWanted layout.now.id birth places.now end (as_read (now (D.state devices.old))))
        (D.state devices.old) (D.state devices.new) }
    ensures kept { D.tells → IsQuiet (now (D.state devices.old)) → EachCrash (λ _ _ image.
        StayShown layout.now.id birth places.now end (as_read (now (D.state devices.old))) image)
        (D.state devices.old) (D.state devices.new) }
    ensures idle { D.tells → ¬ SomeFailed (D.state devices.old).faults
        (D.state devices.new).faults
        → AreAlike end (copies_at (block_at (as_read (now (D.state devices.old)))) places.now)
        → AreOnlyRead D.tells (D.state devices.old) (D.state devices.new) }
    ensures mended { D.tells → CanBeMended layout.now birth places.now end
        (D.state devices.old).sizes (as_read (now (D.state devices.old))) → OnOk result (AreAlike end
        (copies_at (block_at (as_read (now (D.state devices.new)))) places.now)) }
    ensures written { D.tells → OnOk result (AreWritten (IsWanted layout.now.id birth places.now end
        (as_read (now (D.state devices.old)))) (as_read (now (D.state devices.old)))
        (as_read (now (D.state devices.new)))) }
    ensures rest { D.tells → OnOk result (KeepsRest (D.state devices.old) (D.state devices.new)) }
    ensures goes_on { GoOn (D.state devices.old) (D.state devices.new) }
    ensures cause { AtMostOneWriteFailed (failed_device result) (D.state devices.old).faults
        (D.state devices.new).faults }
    ensures device { IfSome (failed_device result) (IsDeviceOf places.now) }
{
    for n in 0..end {
        mend_block(alloc, devices, layout, birth, places, n)?;
    }
    Ok(())
}

// Whether a place is on this device, behind its superblocks and its journal.
fn is_placed(layout: &Layout, dev: usize, place: &Place) -> bool
    ensures { IsTrue result ↔ IsPlaced layout.now dev place.now }
{
    usize::from(place.dev) == dev && u64::from(place.block) >= 16 + u64::from(layout.journal)
}

fn are_placed(layout: &Layout, places: &[Place]) -> bool
    ensures { IsTrue result ↔ ArePlaced layout.now places.now }
{
    for dev in 0..places.len() {
        if !is_placed(layout, dev, &places[dev]) {
            return false;
        }
    }
    true
}

fn may_be_mended(layout: &Layout, places: &[Place], end: u8) -> bool
    ensures { IsTrue result ↔ MayBeMended layout.now places.now end }
{
    end <= BUCKET && are_placed(layout, places)
}

/// Mends a node whose sets end at this block of its bucket: each block before it that some place of the node shows is written on each other
/// place that shows no block of the node there, or that can't be read, and flushed. The place that it is read from isn't written, so
/// that a crash meanwhile leaves one that shows it; and no block that can be read and is the node's is overwritten, also where its places
/// disagree.
///
/// Where a place lies on another device than its number in the list, or among superblocks or in a journal, nothing is written.
///
/// It reads each of these blocks at most twice at each place, and takes memory for two blocks. Where no place shows a block and one of
/// them can't be read, it ends with the fault of that device: the block may stand there alone.
pub fn mend_node<D: Devices>(
    alloc: Global,
    devices: &mut D,
    layout: &Layout,
    ptr: &NodePtr,
    end: u8,
) -> Result<(), DiskFault>
    // Whatever a crash leaves meanwhile is the same but at places that lacked a block of the node or couldn't be read, and there
    // nothing opens but what a place of the node showed, as far as no torn block opens by chance.
    ensures writes { D.tells → WritesOnly (IsToMend layout.now.id ptr.now.birth ptr.now.places end
        (as_read (now (D.state devices.old))) (λ dev. DeviceFailed dev (D.state devices.old).faults
        (D.state devices.new).faults)) (IsWanted layout.now.id ptr.now.birth ptr.now.places end
        (as_read (now (D.state devices.old)))) (D.state devices.old) (D.state devices.new) }
    // What was shown somewhere is shown somewhere still.
    ensures kept { D.tells → IsQuiet (now (D.state devices.old)) → EachCrash (λ _ _ image. StayShown
        layout.now.id ptr.now.birth ptr.now.places end (as_read (now (D.state devices.old))) image)
        (D.state devices.old) (D.state devices.new) }
    // A node that stands everywhere costs no write, where no read fails,
    ensures idle { D.tells → ¬ SomeFailed (D.state devices.old).faults (D.state devices.new).faults
        → AreAlike end (copies_at (block_at (as_read (now (D.state devices.old)))) ptr.now.places)
        → AreOnlyRead D.tells (D.state devices.old) (D.state devices.new) }
    // and one that isn't where nodes may be.
    ensures unplaced { ¬ MayBeMended layout.now ptr.now.places end → AreOnlyRead D.tells
        (D.state devices.old) (D.state devices.new) }
    // It stands everywhere then, whichever reads failed.
    ensures mended { D.tells → CanBeMended layout.now ptr.now.birth ptr.now.places end
        (D.state devices.old).sizes (as_read (now (D.state devices.old))) → OnOk result (AreAlike end
        (copies_at (block_at (as_read (now (D.state devices.new)))) ptr.now.places)) }
    ensures written { D.tells → OnOk result (AreWritten (IsWanted layout.now.id ptr.now.birth ptr.now.places end
        (as_read (now (D.state devices.old)))) (as_read (now (D.state devices.old)))
        (as_read (now (D.state devices.new)))) }
    ensures rest { D.tells → OnOk result (KeepsRest (D.state devices.old) (D.state devices.new)) }
    ensures goes_on { GoOn (D.state devices.old) (D.state devices.new) }
    ensures cause { AtMostOneWriteFailed (failed_device result) (D.state devices.old).faults
        (D.state devices.new).faults }
    ensures device { IfSome (failed_device result) (IsDeviceOf ptr.now.places) }
{
    let places = ptr.places.as_slice();
    if !may_be_mended(layout, places, end) {
        devices.count();
        return Ok(());
    }
    mend_blocks(alloc, devices, layout, ptr.birth, places, end)
}
