ghost use Rattle.std.specs.Prelude.{◌≡◌, Bool, List, ℕ, length, IfErr, OnOk};
ghost use Rattle.dev_model.specs.Disk.{as_read};
ghost use Rattle.dev_model.specs.Devices.{IsPlace, IsWrite, now};
ghost use Rattle.dev_model.specs.Frames.{GoOn, after_writes};
ghost use Rattle.dev_model.specs.Crashes.{EachCrash, IsCrashImageBut, SameBut};
ghost use Rattle.dev_model.specs.HeldBlocks.{HoldOnly};
ghost use Rattle.data_io.specs.Reads.{places_of};
ghost use Rattle.data_io.specs.Writes.{HavePlaces, HoldPlaces, IsBlockAt, IsOneOf, NamesDeviceOf, failed_data_device};

use crate::DataFault;
use dev_model::Devices;
use vol_types::{Place, Pointers};

/// Writes a block of a file at each of its places, in their order, which costs that many writes and takes no memory. Until the
/// devices are flushed, a crash may leave any bytes there; all else stays. A write that fails ends it, and its device is named.
pub fn put_block<D: Devices>(
    devices: &mut D,
    places: &Pointers,
    from: &[u8],
) -> Result<(), DataFault>
    requires places { HavePlaces (D.state devices.old).sizes (places_of places.now) }
    requires size { length from.now ≡ 4096 }
    ensures crashes { D.tells → EachCrash (λ _ _ image. IsCrashImageBut (IsOneOf
        (places_of places.now)) (now (D.state devices.old)) image) (D.state devices.old)
        (D.state devices.new) }
    ensures written { D.tells → OnOk result (HoldPlaces (places_of places.now) from.now
        (as_read (now (D.state devices.new)))) }
    ensures elsewhere { D.tells → SameBut (IsOneOf (places_of places.now))
        (as_read (now (D.state devices.old))) (as_read (now (D.state devices.new))) }
    ensures asks { D.tells → (opens : List ℕ → Bool) → HoldOnly opens
        (IsBlockAt (places_of places.now) from.now) (D.state devices.old) (D.state devices.new) }
    ensures goes_on { GoOn (D.state devices.old) (D.state devices.new) }
    ensures cause { (D.state devices.new).faults ≡ after_writes (failed_data_device result)
        (D.state devices.old).faults }
    ensures device { NamesDeviceOf (places_of places.now) result }
{
    for pointer in places.as_slice() {
        put_at(devices, &pointer.place, from)?;
    }
    Ok(())
}

// Writes the block at one place.
fn put_at<D: Devices>(devices: &mut D, place: &Place, from: &[u8]) -> Result<(), DataFault>
    requires place { IsPlace (D.state devices.old).sizes place.now.dev place.now.block }
    requires size { length from.now ≡ 4096 }
    ensures call { IsWrite D.tells place.now.dev place.now.block from.now result
        (D.state devices.old) (D.state devices.new) }
    ensures device { IfErr result (λ fault. fault ≡ DataFault.DeviceFault place.now.dev) }
    ensures sizes { (D.state devices.new).sizes ≡ (D.state devices.old).sizes }
{
    match devices.write(place.dev, place.block, from) {
        Ok(()) => Ok(()),
        Err(_) => Err(DataFault::DeviceFault(place.dev)),
    }
}
