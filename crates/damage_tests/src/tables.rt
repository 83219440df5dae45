//! The volume that is spoiled: two devices with metadata on both, four entries of which three are needed, and a btree of two
//! levels. Behind it lie blocks that are right at another place: the stock.

use crate::blocks::put_record;
use crate::bytes::{BIRTH, COUNTERS, Change, EntryOf, SetOf, entry_payload, set_payload};
use dev_model::MemDevices;
use sealed_block::{Head, JOURNAL_ENTRY, NODE_SET, SESSION, SUPERBLOCK};
use std::alloc::{AllocError, Global};
use std::test::Fail;
use vol_types::{Bytes, Pos};

static ID: [u8; 16] = [0, 0, 0, 0, 0, 0, 0x40, 0, 0x80, 0, 0, 0, 0, 0, 0, 1];

static OTHER_ID: [u8; 16] = [7, 0, 0, 0, 0, 0, 0x40, 0, 0x80, 0, 0, 0, 0, 0, 0, 1];

fn head_of(kind: u8, owner: u64, number: u64, sequence: u64) -> Head {
    Head {
        kind,
        version: 1,
        part: 0,
        parts: 1,
        id: ID,
        owner,
        number,
        sequence,
        length: 0,
        whole: [0; 32],
    }
}

// The payload of a device's superblock, with so many bytes behind it.
fn super_payload(alloc: Global, dev: u8, more: usize) -> Result<Bytes, AllocError> {
    let mut payload = Bytes::new(alloc);
    put_super_payload(&mut payload, dev, more)?;
    Ok(payload)
}

// Two devices, the number of this one, metadata on both and one copy of data; the journal area, and the blocks of each device.
static LAYOUT: [u8; 12] = [0, 1, 0, 0, 0, 4, 0, 0, 0, 4, 0, 0];

fn put_super_payload(into: &mut Bytes, dev: u8, more: usize) -> Result<(), AllocError> {
    into.extend_from_slice(&[2, dev, 2, 1])?;
    into.extend_from_slice(&LAYOUT)?;
    for _ in 0..more {
        into.push(0)?;
    }
    Ok(())
}

// Puts a copy of the superblock of a device into a block, with so many bytes behind its payload.
fn put_super(
    alloc: Global,
    devices: &mut MemDevices,
    dev: u8,
    at: u32,
    head: Head,
    more: usize,
) -> Result<(), Fail> {
    let payload = super_payload(alloc, dev, more)?;
    put_record(alloc, devices, dev, at, head, payload.as_slice())
}

// Writes the superblocks of a device: two right ones, and in the stock one of another version, one of another volume, and one with
// a payload of another length.
fn put_supers(alloc: Global, devices: &mut MemDevices, dev: u8) -> Result<(), Fail> {
    let first = head_of(SUPERBLOCK, u64::from(dev), 0, 1);
    let second = Head { number: 8, ..first };
    let other = Head {
        id: OTHER_ID,
        sequence: 2,
        ..second
    };
    let version = Head {
        version: 2,
        ..first
    };
    let form = Head {
        sequence: 3,
        ..first
    };
    put_super(alloc, devices, dev, 0, first, 0)?;
    put_super(alloc, devices, dev, 8, second, 0)?;
    put_super(alloc, devices, dev, 600, version, 0)?;
    put_super(alloc, devices, dev, 601, other, 0)?;
    put_super(alloc, devices, dev, 602, form, 1)
}

// Writes the blocks of sessions: 1 and 2, and in the stock 4 and 3.
fn put_sessions(alloc: Global, devices: &mut MemDevices, dev: u8) -> Result<(), Fail> {
    for (at, session) in [(5, 1u64), (4, 2), (603, 4), (604, 3)] {
        let head = head_of(SESSION, session, 4 + session % 2, session);
        put_record(alloc, devices, dev, at, head, &session.to_le_bytes())?;
    }
    Ok(())
}

const SHORT: EntryOf<'static> = EntryOf {
    sequence: 1,
    oldest: 1,
    session: 1,
    commits: 0,
    level: 1,
    root: (8, 400),
    is_long: false,
    updates: &[],
};

const TO_TWO: &[(u8, Change)] = &[(0, Change::Counter(0, 2))];

const TO_THREE: &[(u8, Change)] = &[(0, Change::Counter(0, 3)), (0, Change::Removed(100))];

const TO_FOUR: &[(u8, Change)] = &[
    (0, Change::Counter(0, 4)),
    (0, Change::Counter(21, 4)),
    (1, Change::Removed(500)),
];

const TO_FIVE: &[(u8, Change)] = &[(0, Change::Counter(0, 5))];

const TO_SIX: &[(u8, Change)] = &[(0, Change::Counter(0, 6))];

const TO_SEVEN: &[(u8, Change)] = &[(0, Change::Counter(0, 7))];

// The entries: where each stands, and its journal block number. Those behind block 600 are the stock.
static ENTRIES: [(u32, u64, EntryOf<'static>); 8] = [
    (16, 0, SHORT),
    (
        17,
        1,
        EntryOf {
            sequence: 2,
            commits: 1,
            is_long: true,
            updates: TO_TWO,
            ..SHORT
        },
    ),
    (
        19,
        3,
        EntryOf {
            sequence: 3,
            oldest: 2,
            session: 2,
            commits: 2,
            updates: TO_THREE,
            ..SHORT
        },
    ),
    (
        20,
        4,
        EntryOf {
            sequence: 4,
            oldest: 2,
            session: 2,
            commits: 3,
            updates: TO_FOUR,
            ..SHORT
        },
    ),
    (
        605,
        5,
        EntryOf {
            sequence: 5,
            oldest: 5,
            session: 3,
            commits: 9,
            updates: TO_FIVE,
            ..SHORT
        },
    ),
    (
        606,
        5,
        EntryOf {
            sequence: 4,
            oldest: 2,
            session: 3,
            commits: 4,
            updates: TO_SIX,
            ..SHORT
        },
    ),
    (
        607,
        4,
        EntryOf {
            sequence: 4,
            oldest: 3,
            session: 2,
            commits: 7,
            updates: TO_SEVEN,
            ..SHORT
        },
    ),
    (
        608,
        5,
        EntryOf {
            sequence: 7,
            oldest: 5,
            session: 2,
            commits: 8,
            ..SHORT
        },
    ),
];

fn put_entry(
    alloc: Global,
    devices: &mut MemDevices,
    dev: u8,
    at: u32,
    number: u64,
    entry: &EntryOf<'_>,
) -> Result<(), Fail> {
    let payload = entry_payload(alloc, entry, 2)?;
    let head = head_of(JOURNAL_ENTRY, entry.session, number, entry.sequence);
    put_record(alloc, devices, dev, at, head, payload.as_slice())
}

fn put_entries(alloc: Global, devices: &mut MemDevices, dev: u8) -> Result<(), Fail> {
    for (at, number, entry) in ENTRIES.iter() {
        put_entry(alloc, devices, dev, *at, *number, entry)?;
    }
    Ok(())
}

// The position of offset 9, and that after it.
const AT_9: Pos = Pos {
    inode: 0,
    offset: 9,
    snapshot: 0,
};

const AFTER: Pos = Pos {
    snapshot: 1,
    ..AT_9
};

const FIRST_LEAF: Change = Change::Node(9, 0, 9, 416);

const LAST_LEAF: Change = Change::Node(u64::MAX, 0, 10, 432);

const BOTH_LEAVES: &[Change] = &[FIRST_LEAF, LAST_LEAF];

const ONLY_LAST: &[Change] = &[LAST_LEAF];

const TWIN: &[Change] = &[Change::Node(9, 0, 10, 416)];

const FIRST_KEYS: &[Change] = &[Change::Counter(1, 10), Change::Counter(2, 20)];

const LATER_KEYS: &[Change] = &[Change::Removed(1), Change::Counter(3, 30)];

const LAST_KEYS: &[Change] = &[Change::Counter(20, 200)];

const OTHER_KEYS: &[Change] = &[Change::Counter(2, 21)];

const MORE_KEYS: &[Change] = &[Change::Counter(4, 40)];

const EMPTY: SetOf<'static> = SetOf {
    count: 8,
    level: 0,
    least: Pos::LEAST,
    greatest: Pos::GREATEST,
    keys: &[],
};

// Sets of the root of Counters, and of its first leaf.
const ROOT: SetOf<'static> = SetOf {
    level: 1,
    keys: BOTH_LEAVES,
    ..EMPTY
};

const LEAF: SetOf<'static> = SetOf {
    count: 9,
    greatest: AT_9,
    keys: FIRST_KEYS,
    ..EMPTY
};

// The sets of Counters: where each stands, its number and its sequence. Those behind block 600 are the stock.
static SETS: [(u32, u64, u64, SetOf<'static>); 8] = [
    (400, 0, 1, ROOT),
    (416, 0, 1, LEAF),
    (
        417,
        1,
        2,
        SetOf {
            keys: LATER_KEYS,
            ..LEAF
        },
    ),
    (
        432,
        0,
        1,
        SetOf {
            count: 10,
            least: AFTER,
            keys: LAST_KEYS,
            ..EMPTY
        },
    ),
    (
        609,
        1,
        2,
        SetOf {
            keys: OTHER_KEYS,
            ..LEAF
        },
    ),
    (
        610,
        2,
        3,
        SetOf {
            keys: MORE_KEYS,
            ..LEAF
        },
    ),
    (
        611,
        0,
        1,
        SetOf {
            keys: ONLY_LAST,
            ..ROOT
        },
    ),
    (612, 1, 3, SetOf { keys: TWIN, ..ROOT }),
];

// Writes a set of a btree into a block.
fn put_set(
    alloc: Global,
    devices: &mut MemDevices,
    dev: u8,
    at: u32,
    btree: u8,
    numbers: (u64, u64),
    set: &SetOf<'_>,
) -> Result<(), Fail> {
    let payload = set_payload(alloc, btree, set, 2)?;
    let (number, sequence) = numbers;
    let head = head_of(NODE_SET, BIRTH.wrapping_add(set.count), number, sequence);
    put_record(alloc, devices, dev, at, head, payload.as_slice())
}

// Writes the sets of all nodes: empty roots, and those of Counters.
fn put_nodes(alloc: Global, devices: &mut MemDevices, dev: u8) -> Result<(), Fail> {
    for btree in 0..8u8 {
        let set = SetOf {
            count: u64::from(btree),
            ..EMPTY
        };
        let at = 272 + 16 * u32::from(btree);
        put_set(alloc, devices, dev, at, btree, (0, 1), &set)?;
    }
    for (at, number, sequence, set) in SETS.iter() {
        put_set(
            alloc,
            devices,
            dev,
            *at,
            COUNTERS,
            (*number, *sequence),
            set,
        )?;
    }
    Ok(())
}

// Writes all that the volume and the stock have on a device.
fn put_all(alloc: Global, devices: &mut MemDevices, dev: u8) -> Result<(), Fail> {
    put_supers(alloc, devices, dev)?;
    put_sessions(alloc, devices, dev)?;
    put_entries(alloc, devices, dev)?;
    put_nodes(alloc, devices, dev)
}

fn put_on_both(alloc: Global, devices: &mut MemDevices) -> Result<(), Fail> {
    put_all(alloc, devices, 0)?;
    put_all(alloc, devices, 1)
}

/// The volume on two devices, with the stock.
pub fn volume(alloc: Global) -> Result<MemDevices, Fail> {
    let mut devices = MemDevices::blank(alloc, &[1024, 1024])?;
    let put = put_on_both(alloc, &mut devices);
    match put {
        Ok(()) => Ok(devices),
        Err(fail) => {
            drop(devices);
            Err(fail)
        }
    }
}

/// Each block of the stock, with the block where it is right.
pub static STOCK: [(u32, u32); 13] = [
    (600, 0),
    (601, 8),
    (602, 0),
    (603, 4),
    (604, 5),
    (605, 21),
    (606, 21),
    (607, 20),
    (608, 21),
    (609, 417),
    (610, 418),
    (611, 400),
    (612, 401),
];

/// The blocks that are spoiled one by one.
pub static TARGETS: [u32; 18] = [
    0, 8, 4, 5, 16, 17, 18, 19, 20, 21, 272, 336, 400, 401, 416, 417, 418, 432,
];

/// Blocks that are lost together, from the first one to the one behind the last: superblocks, sessions, the journal.
pub static GROUPS: [(u32, u32); 3] = [(0, 9), (4, 6), (16, 22)];
