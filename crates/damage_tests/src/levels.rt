//! A btree of three levels with 30 nodes, of which a leaf is written anew with the nodes above it, and what is found where a crash comes
//! between any two of these writes: the old btree, until the entry stands that names the new root.

use crate::bytes::{Change, EntryOf, SetOf, pos_at};
use crate::found::{Found, is_found};
use crate::images::{EVERYWHERE, FIRST, formatted, put_entry, put_set, wipe};
use dev_model::{MemDevices, Pick};
use image_view::MountFault;
use std::alloc::Global;
use std::test::Fail;
use vol_types::Pos;

// The leaves are numbered 0 to 23, each of ten offsets but the last one, which ends at the greatest position. Leaf i has the counter
// 10 i + 5, with the value 100 + i, the count 14 + i, and the bucket of block 496 + 16 i. The nodes above them, 0 to 4, have five leaves
// each, the last one four; node j has the count 9 + j and the bucket of block 416 + 16 j. The root has the count 8 and block 400.
const LAST: u8 = 23;

const MOST: u8 = 4;

// The greatest offset of a leaf.
fn end_of(leaf: u8) -> u64 {
    if leaf >= LAST {
        return u64::MAX;
    }
    u64::from(leaf) * 10 + 9
}

// Where a leaf begins: behind the one before it.
fn start_of(leaf: u8) -> Pos {
    if leaf == 0 {
        return Pos::LEAST;
    }
    Pos {
        snapshot: 1,
        ..pos_at(u64::from(leaf) * 10 - 1)
    }
}

// A node as it is written: its count and the first block of its bucket.
#[derive(Clone, Copy)]
struct Home {
    count: u64,
    bucket: u32,
}

fn leaf_home(leaf: u8) -> Home {
    Home {
        count: 14 + u64::from(leaf),
        bucket: 496 + 16 * u32::from(leaf),
    }
}

fn inner_home(inner: u8) -> Home {
    Home {
        count: 9 + u64::from(inner),
        bucket: 416 + 16 * u32::from(inner),
    }
}

const ROOT: Home = Home {
    count: 8,
    bucket: 400,
};

// Leaf 7, node 1 above it and the root, where they are written anew.
const CHANGED: u8 = 7;

const NEW_LEAF: Home = Home {
    count: 38,
    bucket: 880,
};

const NEW_INNER: Home = Home {
    count: 39,
    bucket: 896,
};

const NEW_ROOT: Home = Home {
    count: 40,
    bucket: 912,
};

// The pointer to a node of this level that ends at this offset.
fn pointer(end: u64, level: u8, home: Home) -> Change {
    Change::Node(end, level, home.count, home.bucket)
}

// The pointer to a leaf, which is the new one where it was written anew.
fn leaf_pointer(leaf: u8, is_new: bool) -> Change {
    let home = if is_new && leaf == CHANGED {
        NEW_LEAF
    } else {
        leaf_home(leaf)
    };
    pointer(end_of(leaf), 0, home)
}

// The pointer to a node above leaves.
fn inner_pointer(inner: u8, is_new: bool) -> Change {
    let home = if is_new && inner == CHANGED / 5 {
        NEW_INNER
    } else {
        inner_home(inner)
    };
    let last = if inner >= MOST { LAST } else { inner * 5 + 4 };
    pointer(end_of(last), 1, home)
}

// Writes a leaf with this value of its counter.
fn put_leaf(
    alloc: Global,
    devices: &mut MemDevices,
    leaf: u8,
    value: u64,
    home: Home,
) -> Result<(), Fail> {
    let keys = [Change::Counter(u64::from(leaf) * 10 + 5, value)];
    let set = SetOf {
        count: home.count,
        level: 0,
        least: start_of(leaf),
        greatest: pos_at(end_of(leaf)),
        keys: &keys,
    };
    put_set(alloc, devices, home.bucket, 0, &set)
}

// Writes a node above leaves.
fn put_inner(
    alloc: Global,
    devices: &mut MemDevices,
    inner: u8,
    is_new: bool,
    home: Home,
) -> Result<(), Fail> {
    let inner = inner.min(MOST);
    let first = inner * 5;
    let keys = [
        leaf_pointer(first, is_new),
        leaf_pointer(first + 1, is_new),
        leaf_pointer(first + 2, is_new),
        leaf_pointer(first + 3, is_new),
        leaf_pointer(first + 4, is_new),
    ];
    let count = if inner == MOST { 4 } else { 5 };
    let last = (first + 4).min(LAST);
    let set = SetOf {
        count: home.count,
        level: 1,
        least: start_of(first),
        greatest: pos_at(end_of(last)),
        keys: &keys[..count],
    };
    put_set(alloc, devices, home.bucket, 0, &set)
}

fn put_root(alloc: Global, devices: &mut MemDevices, is_new: bool, home: Home) -> Result<(), Fail> {
    let keys = [
        inner_pointer(0, is_new),
        inner_pointer(1, is_new),
        inner_pointer(2, is_new),
        inner_pointer(3, is_new),
        inner_pointer(4, is_new),
    ];
    let set = SetOf {
        count: home.count,
        level: 2,
        least: Pos::LEAST,
        greatest: Pos::GREATEST,
        keys: &keys,
    };
    put_set(alloc, devices, home.bucket, 0, &set)
}

fn put_leaves(alloc: Global, devices: &mut MemDevices) -> Result<(), Fail> {
    for leaf in 0..=LAST {
        put_leaf(alloc, devices, leaf, 100 + u64::from(leaf), leaf_home(leaf))?;
    }
    Ok(())
}

fn put_inners(alloc: Global, devices: &mut MemDevices) -> Result<(), Fail> {
    for inner in 0..=MOST {
        put_inner(alloc, devices, inner, false, inner_home(inner))?;
    }
    Ok(())
}

// The entry that names this root.
fn naming(sequence: u64, root: Home) -> EntryOf<'static> {
    EntryOf {
        sequence,
        oldest: sequence,
        level: 2,
        root: (root.count, root.bucket),
        ..FIRST
    }
}

fn put_btree(alloc: Global, devices: &mut MemDevices) -> Result<(), Fail> {
    put_leaves(alloc, devices)?;
    put_inners(alloc, devices)?;
    put_root(alloc, devices, false, ROOT)?;
    put_entry(alloc, devices, 0, &naming(1, ROOT), EVERYWHERE)
}

// A volume with the btree, as it is found after a restart.
fn with_btree(alloc: Global) -> Result<MemDevices, Fail> {
    let mut devices = formatted(alloc, 1)?;
    if let Err(fail) = put_btree(alloc, &mut devices) {
        drop(devices);
        return Err(fail);
    }
    Ok(devices.restart(Pick::AllWritten)?)
}

// Makes one of the writes, which are numbered from 0: the 16 blocks of the new leaf, those of the node above it and of the root, the first of
// which has the set, and then the entry.
fn make_write(alloc: Global, devices: &mut MemDevices, number: u32) -> Result<(), Fail> {
    match number {
        0 => put_leaf(alloc, devices, CHANGED, 1007, NEW_LEAF),
        16 => put_inner(alloc, devices, CHANGED / 5, true, NEW_INNER),
        32 => put_root(alloc, devices, true, NEW_ROOT),
        48 => put_entry(alloc, devices, 1, &naming(2, NEW_ROOT), EVERYWHERE),
        _ => wipe(alloc, devices, 0, NEW_LEAF.bucket.saturating_add(number)),
    }
}

fn make_writes(alloc: Global, devices: &mut MemDevices, count: u32) -> Result<(), Fail> {
    for number in 0..count {
        make_write(alloc, devices, number)?;
    }
    Ok(())
}

// What is found of either btree, with the counters of five leaves.
const OFFSETS: [u64; 5] = [5, 55, 75, 115, 235];

const OLD: Result<Found, MountFault> = Ok(Found {
    session: 1,
    needed: [Some(0), None, None],
    counters: [100, 105, 107, 111, 123],
    ends: [1, 1, 1],
    ragged: 0,
});

const NEW: Result<Found, MountFault> = Ok(Found {
    session: 1,
    needed: [Some(1), None, None],
    counters: [100, 105, 1007, 111, 123],
    ends: [1, 1, 1],
    ragged: 0,
});

// Whether a crash behind so many of the writes leaves the btree that it should.
fn leaves_so(alloc: Global, count: u32, pick: Pick) -> Result<bool, Fail> {
    let mut devices = with_btree(alloc)?;
    if let Err(fail) = make_writes(alloc, &mut devices, count) {
        drop(devices);
        return Err(fail);
    }
    let mut after = devices.restart(pick)?;
    let is_named = count == 49 && pick == Pick::AllWritten;
    let wanted = if is_named { NEW } else { OLD };
    let is_so = is_found(alloc, &mut after, &OFFSETS, &wanted);
    drop(after);
    Ok(is_so)
}

// The first number of writes behind which it doesn't.
fn first_other(alloc: Global, pick: Pick) -> Result<Option<u32>, Fail> {
    for count in 0..=49 {
        if !leaves_so(alloc, count, pick)? {
            return Ok(Some(count));
        }
    }
    Ok(None)
}

#[test]
fn a_leaf_is_written_anew_with_its_path_and_all_is_left(rt: HostRuntime) -> Result<(), Fail> {
    assert!(rt; first_other(rt.alloc(), Pick::AllWritten)? == None);
    Ok(())
}

#[test]
fn a_leaf_is_written_anew_with_its_path_and_what_was_flushed_is_left(
    rt: HostRuntime,
) -> Result<(), Fail> {
    assert!(rt; first_other(rt.alloc(), Pick::NoneWritten)? == None);
    Ok(())
}

#[test]
fn a_leaf_is_written_anew_with_its_path_and_blocks_are_torn(rt: HostRuntime) -> Result<(), Fail> {
    assert!(rt; first_other(rt.alloc(), Pick::Torn)? == None);
    Ok(())
}
