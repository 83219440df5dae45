ghost use Rattle.std.specs.Prelude.{◌≡◌, ◌≢◌, ◌≤◌, ◌⊎◌, true, false, Some, length, nat_lt, slice_index, IfOk, IfSome, OnOk, IfErr};
ghost use Rattle.vol_types.specs.declared.layout.Lost.{Lost as ALost};
ghost use Rattle.vol_digest.specs.Digests.{short_of};
ghost use Rattle.dev_model.specs.Disk.{as_read};
ghost use Rattle.dev_model.specs.Devices.{now};
ghost use Rattle.dev_model.specs.Frames.{AreOnlyRead};
ghost use Rattle.geometry.specs.Faults.{SomeFailed};
ghost use Rattle.data_io.specs.Answers.{HasFailedWhereRight, IsAnswer, WasGot};
ghost use Rattle.data_io.specs.Reads.{after_read, block_of, first_right, places_of};

use crate::DataFault;
use dev_model::Devices;
use std::alloc::{AllocError, Global};
use vol_digest::short;
use vol_types::{Lost, Place, Places, Pointer, Pointers, Reads};

/// Reads a block of a file from the first of its places that gives bytes with the digest that is wanted. `number` is the block's
/// number in its file, and only told where it is lost; then what was got at each place is told too. `into` has the size of a
/// block; if the call fails, the bytes in it are unknown.
///
/// Each place is read at most once, and none behind the one that gives the block. Where the first one does, it costs one read and
/// a digest and takes no memory; else it takes memory for what was got. A place that the devices don't have gives nothing.
pub fn get_block<D: Devices>(
    alloc: Global,
    devices: &mut D,
    number: u64,
    places: &Pointers,
    want: u64,
    into: &mut [u8],
) -> Result<(), DataFault>
    requires { length into.old ≡ 4096 }
    ensures answer { IsAnswer D.tells (D.state devices.old) (D.state devices.new) number want
        (places_of places.now) into.new result }
    ensures read { AreOnlyRead D.tells (D.state devices.old) (D.state devices.new) }
    // Where no read failed it is the first place with the right digest, and lost only where there is none.
    ensures first { D.tells → OnOk result ((first_right (as_read (now (D.state devices.old)))
        (places_of places.now) want ≡ Some into.new) ⊎ SomeFailed (D.state devices.old).faults
        (D.state devices.new).faults) }
    ensures made_up { D.tells → IfErr result (λ fault. (lost : ALost) → fault
        ≡ DataFault.DataLost lost → HasFailedWhereRight (D.state devices.old)
        (D.state devices.new) want (places_of places.now)) }
{
    let mut got = Reads::new(alloc);
    for pointer in places.as_slice() {
        let found = get_at(devices, &pointer.place, into);
        if is_right(found, want) {
            return Ok(());
        }
        got.push(found)?;
    }
    Err(DataFault::DataLost(Lost {
        block: number,
        want,
        places: places_of(alloc, places.as_slice())?,
        got,
    }))
}

// Whether the digest that is wanted was got.
fn is_right(found: Option<u64>, want: u64) -> bool
    ensures right { result ≡ true → found ≡ Some want }
    ensures wrong { result ≡ false → found ≢ Some want }
{
    match found {
        None => false,
        Some(digest) => digest == want,
    }
}

// Reads the block at one place, and gives its digest, or nothing where it can't be read.
fn get_at<D: Devices>(devices: &mut D, place: &Place, into: &mut [u8]) -> Option<u64>
    requires { length into.old ≡ 4096 }
    ensures got { WasGot D.tells (D.state devices.old) (D.state devices.new) place.now result }
    ensures bytes { D.tells → IfSome result (λ _. block_of (as_read (now (D.state devices.old)))
        place.now ≡ Some into.new) }
    ensures digest { IfSome result (λ digest. short_of into.new ≡ digest) }
    ensures read { AreOnlyRead D.tells (D.state devices.old) (D.state devices.new) }
    ensures faults { (D.state devices.new).faults ≡ after_read (D.state devices.old).sizes place.now
        result (D.state devices.old).faults }
    ensures size { length into.new ≡ 4096 }
{
    if !has_place(devices, place) {
        return None;
    }
    match devices.read(place.dev, place.block, into) {
        Ok(()) => Some(short(into)),
        Err(_) => None,
    }
}

// Whether the devices have a place.
fn has_place<D: Devices>(devices: &D, place: &Place) -> bool
    ensures there { result ≡ nat_lt place.now.block (slice_index (D.state devices.now).sizes
        place.now.dev) }
    ensures few { length (D.state devices.now).sizes ≤ 8 }
{
    place.dev < devices.count() && place.block < devices.blocks(place.dev)
}

// The places of pointers.
fn places_of(alloc: Global, pointers: &[Pointer]) -> Result<Places, AllocError>
    ensures { IfOk result (λ places. places ≡ places_of pointers.now) }
{
    let mut places = Places::new(alloc);
    for pointer in pointers {
        places.push(pointer.place)?;
    }
    Ok(places)
}
