ghost use Rattle.std.specs.Prelude.{◌≡◌, ◌↔◌, ◌+◌, ◌^◌, ◌<◌, ◌≤◌, ℕ, List, false, true, length, IsTrue, OnOk, IfOk, IfSome, Ok, Some};
ghost use Rattle.dev_model.specs.Crashes.{IsQuiet};
ghost use Rattle.dev_model.specs.Devices.{IsPlace, now};
ghost use Rattle.dev_model.specs.Disk.{as_read, block_at};
ghost use Rattle.dev_model.specs.Frames.{AreAfterCalls, AreOnlyRead, GoOn};
ghost use Rattle.geometry.specs.Faults.{failed_device};
ghost use Rattle.geometry.specs.Mirrors.{AreAtRest, HaveBlock, HoldMirrors, IsMirrorBlock};
ghost use Rattle.geometry.specs.Layouts.{is_layout_of};
ghost use Rattle.journal_ring.specs.Entries.{IsWhole};
ghost use Rattle.journal_ring.specs.EntryBlocks.{AreEntryBlocks, HoldBlocks, ring_block};
ghost use Rattle.journal_ring.specs.Mending.{IsBlockAt, IsEntryBlock, Mends};
ghost use Rattle.journal_ring.specs.Parts.{Area};

use crate::FoundEntry;
use crate::blocks::sealed_parts;
use crate::ring::ring_block;
use dev_model::Devices;
use geometry::{DiskFault, flush_devices, read_block, write_device};
use record_codec::{entries_are_exact, entry_lengths, put_entry};
use sealed_block::opened_blocks_are_sealed;
use std::alloc::Global;
use vol_types::{BLOCK_SIZE, Layout};

// Whether these are the same bytes.
fn are_same(one: &[u8], other: &[u8]) -> bool
    ensures { IsTrue result ↔ (one.now ≡ other.now) }
{
    one == other
}

// Whether one of two is so.
fn either(one: bool, other: bool) -> bool
    ensures { result ≡ false → (one ≡ false) × (other ≡ false) }
{
    one || other
}

// Writes a block of a device where it has other bytes, and says whether it did.
fn mend_block<D: Devices>(
    alloc: Global,
    devices: &mut D,
    dev: u8,
    block: u32,
    bytes: &[u8],
) -> Result<bool, DiskFault>
    requires place { IsPlace (D.state devices.old).sizes dev block }
    requires size { length bytes.now ≡ 4096 }
    ensures mends { D.tells → Mends (IsBlockAt dev block bytes.now) (D.state devices.old)
        (D.state devices.new) }
    ensures held { D.tells → OnOk result (block_at (as_read (now (D.state devices.new))) dev block
        ≡ Some bytes.now) }
    ensures idle { result ≡ Ok false → AreOnlyRead D.tells (D.state devices.old)
        (D.state devices.new) }
    ensures goes_on { GoOn (D.state devices.old) (D.state devices.new) }
    ensures cause { AreAfterCalls (failed_device result) (D.state devices.old).faults
        (D.state devices.new).faults }
    ensures device { IfSome (failed_device result) (λ failed. failed ≡ dev) }
{
    let held = read_block(alloc, devices, dev, block)?;
    if are_same(held.as_slice(), bytes) {
        return Ok(false);
    }
    write_device(devices, dev, block, bytes)?;
    Ok(true)
}

// Writes a block on each of the first so many devices that has other bytes there, and says whether there was one.
fn mend_mirrors<D: Devices>(
    alloc: Global,
    devices: &mut D,
    mirrors: u8,
    block: u32,
    bytes: &[u8],
) -> Result<bool, DiskFault>
    requires mirrors { mirrors ≤ length (D.state devices.old).sizes }
    requires places { HaveBlock (D.state devices.old).sizes mirrors block }
    requires size { length bytes.now ≡ 4096 }
    ensures mends { D.tells → Mends (IsMirrorBlock mirrors block bytes.now) (D.state devices.old)
        (D.state devices.new) }
    ensures held { D.tells → OnOk result (HoldMirrors mirrors block bytes.now
        (as_read (now (D.state devices.new)))) }
    ensures idle { result ≡ Ok false → AreOnlyRead D.tells (D.state devices.old)
        (D.state devices.new) }
    ensures goes_on { GoOn (D.state devices.old) (D.state devices.new) }
    ensures cause { AreAfterCalls (failed_device result) (D.state devices.old).faults
        (D.state devices.new).faults }
    ensures device { IfSome (failed_device result) (λ failed. failed < mirrors) }
{
    let mut has_written = false;
    for dev in 0..mirrors {
        let mended = mend_block(alloc, devices, dev, block, bytes)?;
        has_written = either(has_written, mended);
    }
    Ok(has_written)
}

// Writes the parts of an entry, whose part 0 has this number, where they lack, and says whether there was one.
fn mend_parts<D: Devices>(
    alloc: Global,
    devices: &mut D,
    layout: &Layout,
    number: u64,
    blocks: &[[u8; BLOCK_SIZE]],
) -> Result<bool, DiskFault>
    requires layout { is_layout_of (D.state devices.old).sizes layout.now ≡ true }
    requires few { length blocks.now ≤ 64 }
    requires number { number + length blocks.now < 2 ^ 64 }
    ensures mends { D.tells → Mends (IsEntryBlock layout.now.metadata_replicas layout.now.journal
        number blocks.now) (D.state devices.old) (D.state devices.new) }
    ensures held { D.tells → OnOk result (HoldBlocks layout.now.metadata_replicas
        layout.now.journal number blocks.now (length blocks.now)
        (as_read (now (D.state devices.new)))) }
    ensures idle { result ≡ Ok false → AreOnlyRead D.tells (D.state devices.old)
        (D.state devices.new) }
    ensures goes_on { GoOn (D.state devices.old) (D.state devices.new) }
    ensures cause { AreAfterCalls (failed_device result) (D.state devices.old).faults
        (D.state devices.new).faults }
    ensures device { IfSome (failed_device result) (λ dev. dev < layout.now.metadata_replicas) }
{
    let mut has_written = false;
    for p in 0..blocks.len() {
        let place = ring_block(layout.journal, number + p as u64);
        let mended = mend_mirrors(alloc, devices, layout.metadata_replicas, place, &blocks[p])?;
        has_written = either(has_written, mended);
    }
    Ok(has_written)
}

// The same, and flushes the metadata devices if there was one.
fn settle_parts<D: Devices>(
    alloc: Global,
    devices: &mut D,
    layout: &Layout,
    number: u64,
    blocks: &[[u8; BLOCK_SIZE]],
) -> Result<(), DiskFault>
    requires layout { is_layout_of (D.state devices.old).sizes layout.now ≡ true }
    requires few { length blocks.now ≤ 64 }
    requires number { number + length blocks.now < 2 ^ 64 }
    ensures mends { D.tells → Mends (IsEntryBlock layout.now.metadata_replicas layout.now.journal
        number blocks.now) (D.state devices.old) (D.state devices.new) }
    ensures held { D.tells → OnOk result (HoldBlocks layout.now.metadata_replicas
        layout.now.journal number blocks.now (length blocks.now)
        (as_read (now (D.state devices.new)))) }
    ensures quiet { D.tells → IsQuiet (now (D.state devices.old)) → OnOk result
        (IsQuiet (now (D.state devices.new))) }
    ensures rest { D.tells → AreAtRest layout.now.metadata_replicas (now (D.state devices.old))
        → OnOk result (AreAtRest layout.now.metadata_replicas (now (D.state devices.new))) }
    ensures goes_on { GoOn (D.state devices.old) (D.state devices.new) }
    ensures cause { AreAfterCalls (failed_device result) (D.state devices.old).faults
        (D.state devices.new).faults }
    ensures device { IfSome (failed_device result) (λ dev. dev < layout.now.metadata_replicas) }
{
    if !mend_parts(alloc, devices, layout, number, blocks)? {
        return Ok(());
    }
    flush_devices(devices, layout.metadata_replicas)
}

/// Mends an entry that was read: writes each of its parts on each metadata device that has something else at its place, and
/// flushes these devices if there was one. It reads each part once on each of them, and takes memory for the entry's blocks.
///
/// No place is written that has its part. So, while that goes on, a crash leaves the entry whole, and what else is whole and
/// has other places.
pub fn mend_entry<D: Devices>(
    alloc: Global,
    devices: &mut D,
    layout: &Layout,
    found: &FoundEntry,
) -> Result<(), DiskFault>
    requires layout { is_layout_of (D.state devices.old).sizes layout.now ≡ true }
    // It was whole where it was read.
    requires whole { (area : Area) × IsWhole layout.now area found.now }
    ensures mends { D.tells → (blocks : List (List ℕ))
        → AreEntryBlocks layout.now.id found.now.number found.now.entry blocks
        → Mends (IsEntryBlock layout.now.metadata_replicas layout.now.journal found.now.number
        blocks) (D.state devices.old) (D.state devices.new) }
    ensures held { D.tells → OnOk result ((blocks : List (List ℕ))
        → AreEntryBlocks layout.now.id found.now.number found.now.entry blocks
        → HoldBlocks layout.now.metadata_replicas layout.now.journal found.now.number blocks
        (length blocks) (as_read (now (D.state devices.new)))) }
    ensures quiet { D.tells → IsQuiet (now (D.state devices.old)) → OnOk result
        (IsQuiet (now (D.state devices.new))) }
    ensures rest { D.tells → AreAtRest layout.now.metadata_replicas (now (D.state devices.old))
        → OnOk result (AreAtRest layout.now.metadata_replicas (now (D.state devices.new))) }
    ensures goes_on { GoOn (D.state devices.old) (D.state devices.new) }
    ensures cause { AreAfterCalls (failed_device result) (D.state devices.old).faults
        (D.state devices.new).faults }
    ensures device { IfSome (failed_device result) (λ dev. dev < layout.now.metadata_replicas) }
{
    opened_blocks_are_sealed();
    entries_are_exact();
    entry_lengths();
    let payload = put_entry(alloc, &found.entry)?;
    let blocks = sealed_parts(
        alloc,
        &layout.id,
        found.number,
        &found.entry,
        payload.as_slice(),
    )?;
    settle_parts(alloc, devices, layout, found.number, &blocks)
}
