//! What a case asks of what is found on devices, where it is read as lists and where it is loaded.

use crate::bytes::{COUNTERS, pos_at};
use dev_model::MemDevices;
use image_reader::{FoundBtree, FoundVolume, read_plain};
use image_view::MountFault;
use journal_ring::FoundEntry;
use replay::{Loaded, load};
use std::alloc::Global;
use vol_types::{Btree, NodeEnd, Value};

/// What is found, as far as the cases tell.
#[derive(Clone, Copy, PartialEq, Eq)]
pub struct Found {
    pub session: u64,
    /// The journal block numbers of the needed entries, the oldest first.
    pub needed: [Option<u64>; 3],
    /// The counters at five offsets, 0 for one that isn't there.
    pub counters: [u64; 5],
    /// Where the sets of the nodes of Counters end, the topmost first, 0 for none.
    pub ends: [u8; 3],
    /// How many nodes lack a set on some place.
    pub ragged: usize,
}

// The value of a counter, 0 where there is none.
fn counter_of(value: Option<&Value>) -> u64 {
    match value {
        Some(Value::Counter { next }) => *next,
        _ => 0,
    }
}

// The counter that was read at an offset.
fn counter_read(btree: &FoundBtree, offset: u64) -> u64 {
    for (pos, value) in btree.entries.as_slice() {
        if *pos == pos_at(offset) {
            return counter_of(Some(value));
        }
    }
    0
}

fn counters_read(btree: &FoundBtree, offsets: &[u64; 5]) -> [u64; 5] {
    [
        counter_read(btree, offsets[0]),
        counter_read(btree, offsets[1]),
        counter_read(btree, offsets[2]),
        counter_read(btree, offsets[3]),
        counter_read(btree, offsets[4]),
    ]
}

// The counter that was loaded at an offset.
fn counter_loaded(loaded: &Loaded, offset: u64) -> u64 {
    counter_of(loaded.map.get(Btree::Counters, &pos_at(offset)))
}

fn counters_loaded(loaded: &Loaded, offsets: &[u64; 5]) -> [u64; 5] {
    [
        counter_loaded(loaded, offsets[0]),
        counter_loaded(loaded, offsets[1]),
        counter_loaded(loaded, offsets[2]),
        counter_loaded(loaded, offsets[3]),
        counter_loaded(loaded, offsets[4]),
    ]
}

fn end_at(ends: &[NodeEnd], at: usize) -> u8 {
    match ends.get(at) {
        Some(end) => end.block,
        None => 0,
    }
}

// How many nodes of all btrees lack a set on some place.
fn ragged_in(volume: &FoundVolume) -> usize {
    let mut count: usize = 0;
    for btree in volume.btrees.as_slice() {
        count = count.saturating_add(btree.ragged.len());
    }
    count
}

fn number_at(needed: &[FoundEntry], at: usize) -> Option<u64> {
    match needed.get(at) {
        Some(found) => Some(found.number),
        None => None,
    }
}

fn numbers_of(needed: &[FoundEntry]) -> [Option<u64>; 3] {
    [
        number_at(needed, 0),
        number_at(needed, 1),
        number_at(needed, 2),
    ]
}

// What is found in a volume that was read.
fn found_in(volume: &FoundVolume, offsets: &[u64; 5]) -> Result<Found, MountFault> {
    let Some(btree) = volume.btrees.get(COUNTERS as usize) else {
        return Err(MountFault::NoMemory);
    };
    let ends = btree.ends.as_slice();
    Ok(Found {
        session: volume.session,
        needed: numbers_of(volume.needed.as_slice()),
        counters: counters_read(btree, offsets),
        ends: [end_at(ends, 0), end_at(ends, 1), end_at(ends, 2)],
        ragged: ragged_in(volume),
    })
}

// What is read on devices, with the counters at these offsets.
fn read(alloc: Global, devices: &mut MemDevices, offsets: &[u64; 5]) -> Result<Found, MountFault> {
    match read_plain(alloc, devices) {
        Err(fault) => Err(fault),
        Ok(volume) => {
            let found = found_in(&volume, offsets);
            drop(volume);
            found
        }
    }
}

// What is found in a volume that was loaded. The ends are those of all btrees, and each before Counters has one node.
fn loaded_in(volume: &Loaded, offsets: &[u64; 5]) -> Found {
    let ends = volume.ends.as_slice();
    Found {
        session: volume.session,
        needed: numbers_of(volume.needed.as_slice()),
        counters: counters_loaded(volume, offsets),
        ends: [end_at(ends, 8), end_at(ends, 9), end_at(ends, 10)],
        ragged: volume.ragged.len(),
    }
}

// What is loaded from devices, with the counters at these offsets.
fn loaded(
    alloc: Global,
    devices: &mut MemDevices,
    offsets: &[u64; 5],
) -> Result<Found, MountFault> {
    match load(alloc, devices) {
        Err(fault) => Err(fault),
        Ok(volume) => {
            let found = loaded_in(&volume, offsets);
            drop(volume);
            Ok(found)
        }
    }
}

/// Whether this is found on devices, with the counters at these offsets, both where the volume is read and where it is loaded.
pub fn is_found(
    alloc: Global,
    devices: &mut MemDevices,
    offsets: &[u64; 5],
    wanted: &Result<Found, MountFault>,
) -> bool {
    read(alloc, devices, offsets) == *wanted && loaded(alloc, devices, offsets) == *wanted
}
