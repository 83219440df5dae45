ghost use Rattle.std.specs.Prelude.{◌≡◌, ◌≢◌, ◌<◌, ◌≤◌, ℕ, true, Err, IfSome, OnOk, length};
ghost use Rattle.dev_model.specs.Devices.{DevicesState, now};
ghost use Rattle.dev_model.specs.Disk.{as_read, sizes_of, zeros};
ghost use Rattle.dev_model.specs.Frames.{AreAfterCalls, AreOnlyRead, DisksStay, GoOn, after_writes};
ghost use Rattle.geometry.specs.Faults.{failed_device};
ghost use Rattle.geometry.specs.Mirrors.{AreAtRest};
ghost use Rattle.geometry.specs.Sessions.{session_block};
ghost use Rattle.vol_types.specs.Layouts.{is_layout};
ghost use Rattle.vol_format.specs.Fresh.{AreFreshBlocks};
ghost use Rattle.vol_format.specs.declared.fresh.FreshBlocks.{FreshBlocks as AFresh};
ghost use Rattle.vol_format.specs.Formatting.{Done, Extend, FormatSurvives, IsFormatted};
ghost use Rattle.vol_format.specs.Steps.{ArePlaces, AreSupers, Formats, Reached};

use crate::FreshBlocks;
use crate::bytes::{find_spares, first_session, other_blocks, super_blocks, zero_block};
use crate::fresh::fresh_blocks;
use crate::laws::found_laws;
use crate::steps::{extend_devices, prepare_devices, seal_devices, write_copies};
use dev_model::Devices;
use geometry::DiskFault;
use std::alloc::Global;
use vol_types::{Bytes, Layout};

/// Why devices weren't formatted: a call of one failed, or out of memory.
pub type FormatFault = DiskFault;

// Makes zero blocks of the superblock copies of every device that don't count, and then of the others.
fn clear_supers<D: Devices>(
    devices: &mut D,
    layout: &Layout,
    spares: &[u32],
    others: &[u32],
    blank: &[u8],
) -> Result<(), DiskFault>
    requires size { length blank.now ≡ 4096 }
    requires blank { blank.now ≡ zeros }
    requires spares { length spares.now ≡ length (D.state devices.old).sizes }
    requires others { length others.now ≡ length (D.state devices.old).sizes }
    ensures formats { D.tells → (start : DevicesState) → DisksStay start (D.state devices.old)
        → ArePlaces (as_read (now start)) spares.now others.now → (fresh : AFresh)
        → Formats result layout.now fresh Extend start (D.state devices.new) }
    ensures goes_on { GoOn (D.state devices.old) (D.state devices.new) }
    ensures cause { (D.state devices.new).faults ≡ after_writes (failed_device result)
        (D.state devices.old).faults }
    ensures device { IfSome (failed_device result) (λ dev. dev < length (D.state devices.old).sizes) }
    ensures memory { result ≢ Err DiskFault.NoMemory }
{
    let _ = layout.metadata_replicas;
    write_copies(devices, spares, blank)?;
    write_copies(devices, others, blank)
}

// Makes devices whose superblocks are zeros as long as they shall be, and prepares and seals them.
fn lay_out<D: Devices>(
    devices: &mut D,
    layout: &Layout,
    blank: &[u8],
    session: &[u8],
    firsts: &[Bytes],
    seconds: &[Bytes],
    fresh: &FreshBlocks,
) -> Result<(), DiskFault>
    requires layout { is_layout layout.now ≡ true }
    requires count { length layout.now.blocks ≡ length (D.state devices.old).sizes }
    requires size { length blank.now ≡ 4096 }
    requires blank { blank.now ≡ zeros }
    requires session_size { length session.now ≡ 4096 }
    requires session { session.now ≡ session_block layout.now.id 1 }
    requires firsts { AreSupers layout.now 0 firsts.now }
    requires seconds { AreSupers layout.now 8 seconds.now }
    requires fresh { AreFreshBlocks layout.now fresh.now }
    ensures formats { D.tells → (start : DevicesState) → Reached layout.now fresh.now Extend start
        (D.state devices.old) → sizes_of (now start) ≡ (D.state devices.old).sizes
        → Formats result layout.now fresh.now Done start (D.state devices.new) }
    ensures cause { AreAfterCalls (failed_device result) (D.state devices.old).faults
        (D.state devices.new).faults }
    ensures device { IfSome (failed_device result) (λ dev. dev < length (D.state devices.old).sizes) }
    ensures memory { result ≢ Err DiskFault.NoMemory }
    ensures rest { D.tells → OnOk result (AreAtRest (length (D.state devices.old).sizes)
        (now (D.state devices.new))) }
    ensures moment { (D.state devices.old).moment ≤ (D.state devices.new).moment }
{
    extend_devices(devices, layout)?;
    prepare_devices(devices, layout, blank, session, fresh)?;
    seal_devices(devices, layout, firsts, seconds)
}

/// Formats the devices: whatever they held, they hold the fresh volume with this layout afterwards, and nothing of them is
/// pending. A device that is shorter than its number of blocks is made as long. A call that fails ends it, and its device is named.
///
/// It works in five steps, and every device is flushed after each: the superblock copy of every device that doesn't count is
/// made a zero block, then the other copy; devices are extended; each metadata device gets zeros in its first bucket, but for
/// the superblocks, and in the journal area, session 1, the first entry, and the nine roots; and both superblock copies of every
/// device are written. It costs a write for each block of the journal area and of nine buckets on each metadata device. Memory is
/// taken before the first write, nine buckets, two blocks a device and three more: out of memory, the devices are as they were.
pub fn format<D: Devices>(
    alloc: Global,
    devices: &mut D,
    layout: &Layout,
) -> Result<(), FormatFault>
    requires layout { is_layout layout.now ≡ true }
    requires count { length layout.now.blocks ≡ length (D.state devices.old).sizes }
    ensures survives { D.tells → FormatSurvives layout.now (D.state devices.old)
        (D.state devices.new) }
    ensures done { D.tells → OnOk result (IsFormatted layout.now (now (D.state devices.new))) }
    ensures memory { result ≡ Err DiskFault.NoMemory → AreOnlyRead D.tells (D.state devices.old)
        (D.state devices.new) }
    ensures cause { AreAfterCalls (failed_device result) (D.state devices.old).faults
        (D.state devices.new).faults }
    ensures device { IfSome (failed_device result) (λ dev. dev < length (D.state devices.old).sizes) }
    ensures past { D.tells → (m : ℕ) → m ≤ (D.state devices.old).moment
        → (D.state devices.new).disks m ≡ (D.state devices.old).disks m }
    ensures moment { (D.state devices.old).moment ≤ (D.state devices.new).moment }
{
    found_laws();
    let blank = zero_block(alloc)?;
    let session = first_session(alloc, layout)?;
    let fresh = fresh_blocks(alloc, layout)?;
    let firsts = super_blocks(alloc, layout, 0)?;
    let seconds = super_blocks(alloc, layout, 8)?;
    let spares = find_spares(alloc, devices)?;
    let others = other_blocks(alloc, &spares)?;
    clear_supers(devices, layout, &spares, &others, blank.as_slice())?;
    lay_out(
        devices,
        layout,
        blank.as_slice(),
        session.as_slice(),
        &firsts,
        &seconds,
        &fresh,
    )
}
