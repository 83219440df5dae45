ghost use Rattle.std.specs.Prelude.{◌≡◌, ◌+◌, ◌*◌, ◌≤◌, ◌<◌, Bool, List, ℕ, length, IfErr, OnOk};
ghost use Rattle.dev_model.specs.Disk.{as_read};
ghost use Rattle.dev_model.specs.Devices.{IsPlace, IsWrite, now};
ghost use Rattle.dev_model.specs.Frames.{GoOn, after_writes};
ghost use Rattle.dev_model.specs.Crashes.{EachCrash, IsCrashImageBut, SameBut};
ghost use Rattle.dev_model.specs.HeldBlocks.{HoldOnly};
ghost use Rattle.node_store.specs.Faults.{failed_node_device};
ghost use Rattle.node_store.specs.Plans.{block_of_bytes, part_bytes, planned_blocks};
ghost use Rattle.node_store.specs.Writes.{HaveCopies, HoldCopies, IsCopyBlock, IsCopyOf, KeepsLengths, NamesDeviceOf};
ghost use Rattle.vol_types.specs.Faults.{RoseBy};

use crate::{Blocked, NodeFault};
use dev_model::Devices;
use vol_types::{BLOCK_SIZE, Place};

/// Writes one of the blocks on each place of the node, in the order of the places, which costs that many writes. Until the
/// devices are flushed, a crash may leave any bytes there.
pub fn write_part<D: Devices>(devices: &mut D, blocked: &Blocked, part: u8) -> Result<(), NodeFault>
    requires part { part < planned_blocks blocked.now }
    requires ends { blocked.now.block + planned_blocks blocked.now ≤ 16 }
    requires places { HaveCopies (D.state devices.old).sizes blocked.now.places
        (blocked.now.block + part) }
    ensures crashes { D.tells → EachCrash (λ _ _ image. IsCrashImageBut (IsCopyOf blocked.now.places
        (blocked.now.block + part)) (now (D.state devices.old)) image) (D.state devices.old)
        (D.state devices.new) }
    ensures written { D.tells → OnOk result (HoldCopies blocked.now.places
        (blocked.now.block + part) (part_bytes blocked.now part)
        (as_read (now (D.state devices.new)))) }
    ensures elsewhere { D.tells → SameBut (IsCopyOf blocked.now.places (blocked.now.block + part))
        (as_read (now (D.state devices.old))) (as_read (now (D.state devices.new))) }
    ensures asks { D.tells → (opens : List ℕ → Bool) → HoldOnly opens
        (IsCopyBlock blocked.now.places (blocked.now.block + part) (part_bytes blocked.now part))
        (D.state devices.old) (D.state devices.new) }
    ensures lengths { D.tells → KeepsLengths (D.state devices.old) (D.state devices.new) }
    ensures goes_on { GoOn (D.state devices.old) (D.state devices.new) }
    ensures cause { (D.state devices.new).faults ≡ after_writes (failed_node_device result)
        (D.state devices.old).faults }
    ensures device { NamesDeviceOf blocked.now.places result }
    ensures takes_time { OnOk result (0 < length blocked.now.places
        → RoseBy 1 (D.state devices.old).moment (D.state devices.new).moment) }
{
    let bytes = block_in(blocked.parts.as_slice(), part);
    write_copies(
        devices,
        blocked.places.as_slice(),
        blocked.block + part,
        bytes,
    )
}

// One of the blocks that stand one behind the other.
fn block_in(parts: &[u8], part: u8) -> &[u8]
    requires { 4096 * part + 4096 ≤ length parts.now }
    ensures bytes { result.now ≡ block_of_bytes parts.now part }
    ensures size { length result.now ≡ 4096 }
{
    let (_, rest) = parts.split_at(BLOCK_SIZE * part as usize);
    let (block, _) = rest.split_at(BLOCK_SIZE);
    block
}

// Writes a block of the bucket at each place.
fn write_copies<D: Devices>(
    devices: &mut D,
    places: &[Place],
    n: u8,
    bytes: &[u8],
) -> Result<(), NodeFault>
    requires places { HaveCopies (D.state devices.old).sizes places.now n }
    requires size { length bytes.now ≡ 4096 }
    ensures crashes { D.tells → EachCrash (λ _ _ image. IsCrashImageBut (IsCopyOf places.now n)
        (now (D.state devices.old)) image) (D.state devices.old) (D.state devices.new) }
    ensures written { D.tells → OnOk result (HoldCopies places.now n bytes.now
        (as_read (now (D.state devices.new)))) }
    ensures elsewhere { D.tells → SameBut (IsCopyOf places.now n)
        (as_read (now (D.state devices.old))) (as_read (now (D.state devices.new))) }
    ensures asks { D.tells → (opens : List ℕ → Bool) → HoldOnly opens
        (IsCopyBlock places.now n bytes.now) (D.state devices.old) (D.state devices.new) }
    ensures lengths { D.tells → KeepsLengths (D.state devices.old) (D.state devices.new) }
    ensures goes_on { GoOn (D.state devices.old) (D.state devices.new) }
    ensures cause { (D.state devices.new).faults ≡ after_writes (failed_node_device result)
        (D.state devices.old).faults }
    ensures device { NamesDeviceOf places.now result }
    ensures takes_time { OnOk result (0 < length places.now
        → RoseBy 1 (D.state devices.old).moment (D.state devices.new).moment) }
{
    for place in places {
        write_copy(devices, place, n, bytes)?;
    }
    Ok(())
}

// Writes a block of the bucket at one place.
fn write_copy<D: Devices>(
    devices: &mut D,
    place: &Place,
    n: u8,
    bytes: &[u8],
) -> Result<(), NodeFault>
    requires place { IsPlace (D.state devices.old).sizes place.now.dev (place.now.block + n) }
    requires size { length bytes.now ≡ 4096 }
    ensures call { IsWrite D.tells place.now.dev (place.now.block + n) bytes.now result
        (D.state devices.old) (D.state devices.new) }
    ensures device { IfErr result (λ fault. fault ≡ NodeFault.DeviceFault place.now.dev) }
    ensures sizes { (D.state devices.new).sizes ≡ (D.state devices.old).sizes }
{
    let block = block_of(devices, place, n);
    match devices.write(place.dev, block, bytes) {
        Ok(()) => Ok(()),
        Err(_) => Err(NodeFault::DeviceFault(place.dev)),
    }
}

// The block of a device that is block n of the bucket at a place.
pub(crate) fn block_of<D: Devices>(devices: &D, place: &Place, n: u8) -> u32
    requires { IsPlace (D.state devices.now).sizes place.now.dev (place.now.block + n) }
    ensures { result ≡ place.now.block + n }
{
    let size = devices.blocks(place.dev);
    let block = u64::from(place.block) + u64::from(n);
    prove!(block < size as u64);
    block as u32
}
