ghost use Rattle.std.specs.Prelude.{◌≡◌, ◌≢◌, ◌<◌, ◌≤◌, ℕ, true, Err, length, slice_index, IfSome, OnOk};
ghost use Rattle.dev_model.specs.Disk.{zeros};
ghost use Rattle.dev_model.specs.Devices.{IsPlace, now};
ghost use Rattle.dev_model.specs.Frames.{AreAfterCalls, GoOn, after_writes};
ghost use Rattle.geometry.specs.Faults.{failed_device};
ghost use Rattle.geometry.specs.Layouts.{is_layout_of};
ghost use Rattle.geometry.specs.Sessions.{session_block};
ghost use Rattle.geometry.specs.Mirrors.{AreAtRest};
ghost use Rattle.vol_format.specs.Fresh.{AreFreshBlocks};
ghost use Rattle.vol_format.specs.Formatting.{prepared};
ghost use Rattle.vol_format.specs.Steps.{AreSupers, IsStep, extension, if_there, on_first, super_copies};

use crate::FreshBlocks;
use crate::writing::{extend_device, prepare_device, seal_device, write_if_there};
use dev_model::Devices;
use geometry::{DiskFault, flush_devices};
use vol_types::{Bytes, Layout};

/// Writes the bytes into one block of each device that is long enough to have it, and flushes all.
pub(crate) fn write_copies<D: Devices>(
    devices: &mut D,
    places: &[u32],
    bytes: &[u8],
) -> Result<(), DiskFault>
    requires places { length places.now ≡ length (D.state devices.old).sizes }
    requires size { length bytes.now ≡ 4096 }
    ensures step { D.tells → IsStep result (on_first (length places.now)
        (λ dev. if_there (slice_index (D.state devices.old).sizes dev)
        (slice_index places.now dev) bytes.now)) (D.state devices.old) (D.state devices.new) }
    ensures goes_on { GoOn (D.state devices.old) (D.state devices.new) }
    ensures cause { (D.state devices.new).faults ≡ after_writes (failed_device result)
        (D.state devices.old).faults }
    ensures device { IfSome (failed_device result) (λ dev. dev < length (D.state devices.old).sizes) }
    ensures memory { result ≢ Err DiskFault.NoMemory }
{
    let all = devices.count();
    for dev in 0..all {
        write_if_there(devices, dev, places[dev as usize], bytes)?;
    }
    flush_devices(devices, all)
}

/// Makes each device as long as its number of blocks, and flushes all.
pub(crate) fn extend_devices<D: Devices>(devices: &mut D, layout: &Layout) -> Result<(), DiskFault>
    requires count { length layout.now.blocks ≡ length (D.state devices.old).sizes }
    ensures step { D.tells → IsStep result (on_first (length layout.now.blocks)
        (λ dev. extension (slice_index (D.state devices.old).sizes dev)
        (slice_index layout.now.blocks dev))) (D.state devices.old) (D.state devices.new) }
    ensures cause { AreAfterCalls (failed_device result) (D.state devices.old).faults
        (D.state devices.new).faults }
    ensures device { IfSome (failed_device result) (λ dev. dev < length (D.state devices.old).sizes) }
    ensures memory { result ≢ Err DiskFault.NoMemory }
    ensures count { length (D.state devices.new).sizes ≡ length (D.state devices.old).sizes }
    ensures room { OnOk result ((dev : ℕ) → dev < length (D.state devices.old).sizes
        → slice_index layout.now.blocks dev ≤ slice_index (D.state devices.new).sizes dev) }
    ensures moment { (D.state devices.old).moment ≤ (D.state devices.new).moment }
{
    let count = devices.count();
    let blocks = layout.blocks.as_slice();
    for dev in 0..count {
        extend_device(devices, dev, blocks[dev as usize])?;
    }
    flush_devices(devices, count)
}

/// Writes what the metadata devices get before their superblocks, and flushes all.
pub(crate) fn prepare_devices<D: Devices>(
    devices: &mut D,
    layout: &Layout,
    blank: &[u8],
    session: &[u8],
    fresh: &FreshBlocks,
) -> Result<(), DiskFault>
    requires fits { is_layout_of (D.state devices.old).sizes layout.now ≡ true }
    requires size { length blank.now ≡ 4096 }
    requires blank { blank.now ≡ zeros }
    requires session_size { length session.now ≡ 4096 }
    requires session { session.now ≡ session_block layout.now.id 1 }
    requires fresh { AreFreshBlocks layout.now fresh.now }
    ensures step { D.tells → IsStep result (on_first layout.now.metadata_replicas
        (λ dev. prepared layout.now fresh.now)) (D.state devices.old) (D.state devices.new) }
    ensures goes_on { GoOn (D.state devices.old) (D.state devices.new) }
    ensures cause { (D.state devices.new).faults ≡ after_writes (failed_device result)
        (D.state devices.old).faults }
    ensures device { IfSome (failed_device result) (λ dev. dev < length (D.state devices.old).sizes) }
    ensures memory { result ≢ Err DiskFault.NoMemory }
{
    for dev in 0..layout.metadata_replicas {
        prepare_device(devices, layout, dev, blank, session, fresh)?;
    }
    let count = devices.count();
    flush_devices(devices, count)
}

/// Writes both superblock copies of every device, and flushes all.
pub(crate) fn seal_devices<D: Devices>(
    devices: &mut D,
    layout: &Layout,
    firsts: &[Bytes],
    seconds: &[Bytes],
) -> Result<(), DiskFault>
    requires fits { is_layout_of (D.state devices.old).sizes layout.now ≡ true }
    requires firsts { AreSupers layout.now 0 firsts.now }
    requires seconds { AreSupers layout.now 8 seconds.now }
    ensures step { D.tells → IsStep result (on_first (length layout.now.blocks)
        (super_copies layout.now)) (D.state devices.old) (D.state devices.new) }
    ensures rest { D.tells → OnOk result (AreAtRest (length (D.state devices.old).sizes)
        (now (D.state devices.new))) }
    ensures goes_on { GoOn (D.state devices.old) (D.state devices.new) }
    ensures cause { (D.state devices.new).faults ≡ after_writes (failed_device result)
        (D.state devices.old).faults }
    ensures device { IfSome (failed_device result) (λ dev. dev < length (D.state devices.old).sizes) }
    ensures memory { result ≢ Err DiskFault.NoMemory }
{
    let count = devices.count();
    for dev in 0..count {
        let first = firsts[dev as usize].as_slice();
        let second = seconds[dev as usize].as_slice();
        seal_device(devices, layout, dev, first, second)?;
    }
    flush_devices(devices, count)
}
