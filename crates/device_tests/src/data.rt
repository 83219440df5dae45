//! Blocks over two devices in memory, and torn places. The digests were computed by Python's hashlib.

ghost use Rattle.std.specs.Prelude.{IsTrue};
ghost use Rattle.dev_model.specs.Devices.{IsPlace};
ghost use Rattle.dev_model.specs.Memory.{mem_state};
ghost use Rattle.data_io.specs.Reads.{places_of};
ghost use Rattle.data_io.specs.Writes.{HavePlaces};

use data_io::{DataFault, get_block, put_block};
use dev_model::{Devices, MemDevices};
use std::alloc::{AllocError, Global};
use std::test::Fail;
use vol_types::{BLOCK_SIZE, Lost, Place, Pointer, Pointers, Reads};

const FIRST: Place = Place { dev: 0, block: 3 };

const SECOND: Place = Place { dev: 1, block: 5 };

// The digest of a block of sevens, which is the one that is wanted, and those of eights and of nines.
const SEVENS: u64 = 0xc9ac_7b06_2482_4f84;

const EIGHTS: u64 = 0x1e64_0ad0_fd3b_249a;

const NINES: u64 = 0x8027_abbc_b17f_f5a4;

fn places(alloc: Global) -> Result<Pointers, AllocError> {
    let first = Pointer {
        place: FIRST,
        generation: 1,
    };
    let second = Pointer {
        place: SECOND,
        generation: 2,
    };
    Pointers::from_slice(alloc, &[first, second])
}

// Whether the devices have a place.
fn has_place(devices: &MemDevices, place: &Place) -> bool
    ensures { IsTrue result → IsPlace (mem_state devices.now).sizes place.now.dev place.now.block }
{
    place.dev < devices.count() && place.block < devices.blocks(place.dev)
}

// Whether the devices have all places.
fn have_places(devices: &MemDevices, places: &[Pointer]) -> bool
    ensures { IsTrue result → HavePlaces (mem_state devices.now).sizes (places_of places.now) }
{
    for pointer in places {
        if !has_place(devices, &pointer.place) {
            return false;
        }
    }
    true
}

// Writes a block of sevens at the places.
fn put(alloc: Global, devices: &mut MemDevices) -> Result<Result<(), DataFault>, Fail> {
    let places = places(alloc)?;
    if !have_places(devices, places.as_slice()) {
        return Err(Fail::from("there are no such blocks"));
    }
    let block = vec![in alloc; 7; BLOCK_SIZE]?;
    Ok(put_block(devices, &places, &block))
}

// Tears the block at a place: it is full of this byte from now on, if that isn't the one that was written.
fn tear(alloc: Global, devices: &mut MemDevices, place: Place, byte: u8) -> Result<(), Fail> {
    if byte == 7 {
        return Ok(());
    }
    if !has_place(devices, &place) {
        return Err(Fail::from("there is no such block"));
    }
    let block = vec![in alloc; byte; BLOCK_SIZE]?;
    devices.write(place.dev, place.block, &block)?;
    Ok(())
}

// What reading the block gives.
#[derive(Clone, Copy, PartialEq, Eq)]
enum Seen {
    // A block of this byte, after so many reads.
    Block(u8, u64),
    // No block, but this at the places.
    Nothing([Option<u64>; 2]),
    Else,
}

fn got_at(got: &Reads, place: usize) -> Option<u64> {
    got.get(place).copied().flatten()
}

fn seen_of(lost: &Lost) -> Seen {
    if lost.block != 9 || lost.want != SEVENS || lost.got.len() != 2 || lost.places.len() != 2 {
        return Seen::Else;
    }
    if lost.places.get(0).copied() != Some(FIRST) || lost.places.get(1).copied() != Some(SECOND) {
        return Seen::Else;
    }
    Seen::Nothing([got_at(&lost.got, 0), got_at(&lost.got, 1)])
}

// What reading into a block gives.
fn get_into(
    alloc: Global,
    devices: &mut MemDevices,
    places: &Pointers,
    block: &mut [u8; BLOCK_SIZE],
) -> Seen {
    let calls = devices.calls();
    match get_block(alloc, devices, 9, places, SEVENS, block) {
        Ok(()) => Seen::Block(block[0], devices.calls().saturating_sub(calls)),
        Err(DataFault::DataLost(lost)) => seen_of(&lost),
        Err(_) => Seen::Else,
    }
}

fn get(alloc: Global, devices: &mut MemDevices) -> Result<Seen, Fail> {
    let places = places(alloc)?;
    let mut block = [0; BLOCK_SIZE];
    let seen = get_into(alloc, devices, &places, &mut block);
    drop(places);
    Ok(seen)
}

// What is seen where these bytes fill the blocks at the two places.
fn outcome_on(alloc: Global, devices: &mut MemDevices, held: &[u8; 2]) -> Result<Seen, Fail> {
    if put(alloc, devices)?.is_err() {
        return Err(Fail::from("the block isn't written"));
    }
    tear(alloc, devices, FIRST, held[0])?;
    tear(alloc, devices, SECOND, held[1])?;
    get(alloc, devices)
}

static SIZES: [u32; 2] = [4, 6];

fn outcome(alloc: Global, held: &[u8; 2]) -> Result<Seen, Fail> {
    let mut devices = MemDevices::blank(alloc, &SIZES)?;
    let outcome = outcome_on(alloc, &mut devices, held);
    drop(devices);
    outcome
}

// What fills the two places, and how many reads give the block of sevens, or 0 where none does.
static CASES: [([u8; 2], u64); 4] = [([7, 7], 1), ([7, 8], 1), ([8, 7], 2), ([8, 9], 0)];

fn wanted_of(reads: u64) -> Seen {
    if reads > 0 {
        return Seen::Block(7, reads);
    }
    Seen::Nothing([Some(EIGHTS), Some(NINES)])
}

// The number of the first case in which something else is seen.
fn first_other(alloc: Global) -> Result<Option<u32>, Fail> {
    let mut number: u32 = 0;
    for (held, reads) in CASES.iter() {
        if outcome(alloc, held)? != wanted_of(*reads) {
            return Ok(Some(number));
        }
        number = number.saturating_add(1);
    }
    Ok(None)
}

// The first place with the right block counts, a later one makes up for it, and if none has it what was got is told.
#[test]
fn places_make_up_for_others(rt: HostRuntime) -> Result<(), Fail> {
    assert!(rt; first_other(rt.alloc())? == None);
    Ok(())
}
