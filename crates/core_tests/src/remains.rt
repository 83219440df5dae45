//! What is left of the devices of a volume: which of two versions is found there, also where the journal of one metadata device alone
//! is whole, and what the newest entry says.

use crate::images::{block_of, put};
use crate::moves::{Version, counters_of};
use dev_model::MemDevices;
use image_reader::{FoundBtree, FoundVolume, read_plain};
use std::alloc::Global;
use std::test::Fail;
use vol_types::{NodePtr, Pos, Value};

// Whether a key is this counter.
fn is_counter(pos: &Pos, value: &Value, counter: (u64, u64)) -> bool {
    if pos.inode != 0 || pos.snapshot != 0 || pos.offset != counter.0 {
        return false;
    }
    match value {
        Value::Counter { next } => *next == counter.1,
        _ => false,
    }
}

// Whether a btree has these counters and nothing else.
fn has_counters(btree: &FoundBtree, counters: &[(u64, u64)]) -> bool {
    let mut rest = counters.iter();
    for (pos, value) in btree.entries.as_slice() {
        match rest.next() {
            None => return false,
            Some(counter) => {
                if !is_counter(pos, value, *counter) {
                    return false;
                }
            }
        }
    }
    rest.next().is_none()
}

// Whether it is the key of a deleted id.
fn is_gone(pos: &Pos, value: &Value) -> bool {
    pos.inode == 0 && pos.offset == 1 && pos.snapshot == 0 && matches!(value, Value::Gone)
}

// Whether a btree has the key of a deleted id and nothing else, or nothing.
fn has_gone(btree: &FoundBtree, gone: bool) -> bool {
    let mut count: u64 = 0;
    for (pos, value) in btree.entries.as_slice() {
        if !is_gone(pos, value) {
            return false;
        }
        count = count.saturating_add(1);
    }
    count == u64::from(gone)
}

// Whether a btree of this number has what it should.
fn has_its_keys(btree: &FoundBtree, code: u8, counters: &[(u64, u64)], gone: bool) -> bool {
    match code {
        7 => has_gone(btree, gone),
        8 => has_counters(btree, counters),
        _ => has_gone(btree, false),
    }
}

// Whether the last two of nine btrees have these keys, and no other one has a key.
fn have_keys(found: &FoundVolume, counters: &[(u64, u64)], gone: bool) -> bool {
    let mut code: u8 = 0;
    for btree in found.btrees.as_slice() {
        if !has_its_keys(btree, code, counters, gone) {
            return false;
        }
        code = code.saturating_add(1);
    }
    code == 9
}

// Whether the values of this version are found.
fn has_values(alloc: Global, found: &FoundVolume, version: Version) -> bool {
    match counters_of(alloc, version.values) {
        Ok(counters) => {
            let has_values = have_keys(found, counters.as_slice(), version.values.gone);
            drop(counters);
            has_values
        }
        Err(_) => false,
    }
}

// Whether this version is found.
fn is_version(alloc: Global, found: &FoundVolume, version: Version) -> bool {
    match found.needed.last() {
        None => false,
        Some(newest) => {
            newest.entry.commits == version.commits && has_values(alloc, found, version)
        }
    }
}

// Which of two versions is found: `Some(false)` for the first one, `Some(true)` for the second one.
fn which_of(alloc: Global, found: &FoundVolume, first: Version, second: Version) -> Option<bool> {
    if is_version(alloc, found, first) {
        return Some(false);
    }
    if is_version(alloc, found, second) {
        return Some(true);
    }
    None
}

/// What the newest entry says: how many commits there were, its sequence and that of the oldest entry that it needs, the number of its first block, and
/// the birth of the root of the counters with its block, which is the same on each metadata device.
#[derive(Clone, Copy, PartialEq)]
pub struct Newest {
    pub commits: u64,
    pub sequence: u64,
    pub oldest: u64,
    pub number: u64,
    pub birth: u64,
    pub block: u32,
}

// The block of a node, if it is the same on each of the first devices; else 0.
fn block_of_node(node: &NodePtr) -> u32 {
    let mut same = 0;
    let mut dev: u8 = 0;
    for place in node.places.as_slice() {
        if place.dev != dev || (dev > 0 && same != place.block) {
            return 0;
        }
        same = place.block;
        dev = dev.saturating_add(1);
    }
    same
}

// What the newest entry says, if one is found.
fn newest_of(found: &FoundVolume) -> Option<Newest> {
    let newest = found.needed.last()?;
    let root = newest.entry.roots.last()?;
    Some(Newest {
        commits: newest.entry.commits,
        sequence: newest.entry.sequence,
        oldest: newest.entry.oldest,
        number: newest.number,
        birth: root.birth,
        block: block_of_node(root),
    })
}

/// What is found: which of two versions, and what the newest entry says.
#[derive(Clone, Copy)]
pub struct Found {
    pub is_newer: Option<bool>,
    pub newest: Option<Newest>,
}

/// What is found on devices, of two versions.
pub fn found_on(alloc: Global, devices: &mut MemDevices, first: Version, second: Version) -> Found {
    match read_plain(alloc, devices) {
        Ok(volume) => {
            let found = Found {
                is_newer: which_of(alloc, &volume, first, second),
                newest: newest_of(&volume),
            };
            drop(volume);
            found
        }
        Err(_) => Found {
            is_newer: None,
            newest: None,
        },
    }
}

fn is_zero(bytes: &[u8]) -> bool {
    for byte in bytes {
        if *byte != 0 {
            return false;
        }
    }
    true
}

// Writes the bytes to a block with one of them changed.
fn put_flipped(
    devices: &mut MemDevices,
    dev: u8,
    block: u32,
    bytes: &mut Vec<u8>,
) -> Result<(), Fail> {
    if is_zero(bytes) {
        return Ok(());
    }
    if let Some(byte) = bytes.get_mut(100) {
        *byte ^= 1;
    }
    put(devices, dev, block, bytes)
}

// Spoils a block that holds anything, or makes it whole again.
fn flip(alloc: Global, devices: &mut MemDevices, dev: u8, block: u32) -> Result<(), Fail> {
    let mut bytes = block_of(alloc, devices, dev, block)?;
    let done = put_flipped(devices, dev, block, &mut bytes);
    drop(bytes);
    done
}

// Spoils each block that holds anything, of the first 64 of the journals of all metadata devices but one, or makes them whole again.
fn flip_others(alloc: Global, devices: &mut MemDevices, mirrors: u8, dev: u8) -> Result<(), Fail> {
    for other in 0..mirrors {
        if other != dev {
            for block in 16..80 {
                flip(alloc, devices, other, block)?;
            }
        }
    }
    Ok(())
}

/// Whether one of both versions is found also where any one of so many metadata devices alone has its journal.
pub fn stands_on_each(
    alloc: Global,
    devices: &mut MemDevices,
    mirrors: u8,
    first: Version,
    second: Version,
) -> Result<bool, Fail> {
    if mirrors < 2 {
        return Ok(true);
    }
    for dev in 0..mirrors {
        flip_others(alloc, devices, mirrors, dev)?;
        let found = found_on(alloc, devices, first, second);
        flip_others(alloc, devices, mirrors, dev)?;
        if found.is_newer.is_none() {
            return Ok(false);
        }
    }
    Ok(true)
}
