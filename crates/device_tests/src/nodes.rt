//! Nodes over two devices in memory: sets of one to twelve blocks, sets behind sets, what a crash, a lost write or an older life
//! of the bucket leaves, and reads that fail. What is expected was worked out by hand from the tables of the format.

ghost use Rattle.std.specs.Prelude.{◌≡◌, ◌+◌, ◌↔◌, length, All, IsSome, IsTrue};
ghost use Rattle.dev_model.specs.Devices.{IsPlace};
ghost use Rattle.node_store.specs.Writes.{HaveCopies};
ghost use Rattle.record_codec.specs.Sets.{IsSetInRange};
ghost use Rattle.vol_types.specs.Sets.{set_length_of};

use dev_model::{Devices, MemDevices};
use node_mem::NodeMem;
use node_store::{Blocked, NodeFault, ReadNode, plan_set, read_node, write_part};
use record_codec::{SetRecord, get_set, set_lengths};
use std::alloc::{AllocError, Global};
use std::test::Fail;
use vol_types::{Blocks, Btree, Bytes, Key, Layout, NodePtr, Place, Places, Pos, Value};

pub static ID: [u8; 16] = [0, 0, 0, 0, 0, 0, 0x40, 0, 0x80, 0, 0, 0, 0, 0, 0, 1];

// The root of the btree Counters, as a format makes it.
pub const BIRTH: u64 = 0x1_0000_0008;

// The first blocks of its bucket.
pub const FIRST: Place = Place { dev: 0, block: 16 };

pub const SECOND: Place = Place { dev: 1, block: 48 };

static BOTH: [Place; 2] = [FIRST, SECOND];

// The sizes of the devices that the layout speaks of.
static SIZES: [u32; 2] = [1024, 1024];

// The sizes of the devices in memory, which have that bucket and little more.
static BLANK_SIZES: [u32; 2] = [32, 64];

pub fn layout_of(alloc: Global) -> Result<Layout, AllocError> {
    let blocks = Blocks::from_slice(alloc, &SIZES)?;
    Ok(Layout {
        id: ID,
        blocks,
        journal: 256,
        metadata_replicas: 2,
        data_replicas: 1,
    })
}

pub fn pointer_of(alloc: Global, birth: u64) -> Result<NodePtr, AllocError> {
    let places = Places::from_slice(alloc, &BOTH)?;
    Ok(NodePtr {
        birth,
        level: 0,
        places,
    })
}

// A leaf of Counters, and the least and the greatest position, as the head of a set has them.
static LEAF_AND_RANGE: [u8; 44] = [
    8, 0, 0, 0, // the btree, the level, and two zeros
    0, 0, 0, 0, 0, 0, 0, 0, 0, 0, 0, 0, 0, 0, 0, 0, 0, 0, 0, 0, // the least position
    0xff, 0xff, 0xff, 0xff, 0xff, 0xff, 0xff, 0xff, 0xff, 0xff, // the greatest one
    0xff, 0xff, 0xff, 0xff, 0xff, 0xff, 0xff, 0xff, 0xff, 0xff,
];

// The inode of a counter's position, its snapshot, and the kinds of value.
static INODE: [u8; 8] = [0; 8];

static SNAPSHOT: [u8; 4] = [0; 4];

static REMOVED: [u8; 1] = [0];

static COUNTER: [u8; 1] = [11];

// The head of a set of so many keys, of a leaf of Counters that covers all positions.
fn put_head(payload: &mut Bytes, birth: u64, count: u32) -> Result<(), AllocError> {
    payload.extend_from_slice(&birth.to_le_bytes())?;
    payload.extend_from_slice(&LEAF_AND_RANGE)?;
    payload.extend_from_slice(&count.to_le_bytes())
}

// A counter, or for 0 a key that is removed.
fn put_counter(payload: &mut Bytes, offset: u64, value: u64) -> Result<(), AllocError> {
    payload.extend_from_slice(&INODE)?;
    payload.extend_from_slice(&offset.to_le_bytes())?;
    payload.extend_from_slice(&SNAPSHOT)?;
    if value == 0 {
        return payload.extend_from_slice(&REMOVED);
    }
    payload.extend_from_slice(&COUNTER)?;
    payload.extend_from_slice(&value.to_le_bytes())
}

// The payload of a set of a leaf of Counters that covers all positions.
pub fn payload_of(alloc: Global, birth: u64, keys: &[(u64, u64)]) -> Result<Bytes, AllocError> {
    let count = keys.len().min(u32::MAX as usize) as u32;
    let mut payload = Bytes::new(alloc);
    put_head(&mut payload, birth, count)?;
    for (offset, value) in keys {
        put_counter(&mut payload, *offset, *value)?;
    }
    Ok(payload)
}

// Whether the devices have block n of the bucket at a place.
fn has_copy(devices: &MemDevices, place: &Place, n: u8) -> bool
    ensures { IsTrue result → IsPlace (⟦<MemDevices as Devices>⟧.state devices.now).sizes
        place.now.dev (place.now.block + n) }
{
    if place.dev >= devices.count() {
        return false;
    }
    u64::from(place.block) + u64::from(n) < u64::from(devices.blocks(place.dev))
}

// Whether they have it at each of these.
fn have_copies(devices: &MemDevices, places: &[Place], n: u8) -> bool
    ensures { IsTrue result → HaveCopies (⟦<MemDevices as Devices>⟧.state devices.now).sizes
        places.now n }
{
    for place in places {
        if !has_copy(devices, place, n) {
            return false;
        }
    }
    true
}

// Writes a block of the bucket at a place.
pub fn put(devices: &mut MemDevices, place: Place, n: u8, bytes: &[u8]) -> Result<(), Fail> {
    if place.dev >= devices.count() || bytes.len() != 4096 {
        return Err(Fail::from("there is no such device"));
    }
    let block = place.block.saturating_add(u32::from(n));
    if block >= devices.blocks(place.dev) {
        return Err(Fail::from("there is no such block"));
    }
    devices.write(place.dev, block, bytes)?;
    Ok(())
}

fn has_value(key: &Key) -> bool
    ensures { IsTrue result ↔ IsSome key.now.value }
{
    key.value.is_some()
}

// Whether no key is removed.
fn have_values(keys: &[Key]) -> bool
    ensures { IsTrue result ↔ All (λ key. IsSome key.value) keys.now }
{
    keys.iter().all(|key| has_value(key))
}

// The blocks of a set with this payload.
fn planned_set(
    alloc: Global,
    ptr: &NodePtr,
    block: u8,
    payload: &[u8],
    set: &SetRecord,
) -> Result<Blocked, Fail>
    requires set { IsSetInRange set.now }
    requires size { length payload.now ≡ set_length_of set.now.keys }
{
    let ends = block as usize + (payload.len() + 3967) / 3968;
    if set.birth != ptr.birth || set.level != ptr.level || ptr.places.is_empty() || ends > 16 {
        return Err(Fail::from("it is no set of the node"));
    }
    if block == 0 && !have_values(set.keys.as_slice()) {
        return Err(Fail::from("the first set removes a key"));
    }
    Ok(plan_set(alloc, &layout_of(alloc)?, ptr, block, 1, set)?)
}

// The blocks of a set, if it is one.
pub fn planned(alloc: Global, ptr: &NodePtr, block: u8, payload: &[u8]) -> Result<Blocked, Fail> {
    match get_set(alloc, payload) {
        Ok(set) => {
            set_lengths();
            planned_set(alloc, ptr, block, payload, &set)
        }
        Err(_) => Err(Fail::from("it is no set")),
    }
}

// Writes the blocks of a set on each place, and says how many they are.
fn write_blocks(devices: &mut MemDevices, blocked: &Blocked) -> Result<usize, Fail> {
    let count = blocked.parts.len() / 4096;
    if blocked.block as usize + count > 16 {
        return Err(Fail::from("the bucket ends before the set"));
    }
    for part in 0..count as u8 {
        if !have_copies(devices, blocked.places.as_slice(), blocked.block + part) {
            return Err(Fail::from("there are no such blocks"));
        }
        write_part(devices, blocked, part)?;
    }
    Ok(count)
}

// Writes a set of these keys from a block of the bucket on, and says how many blocks were written on each place.
pub fn write_set(
    alloc: Global,
    devices: &mut MemDevices,
    birth: u64,
    block: u8,
    keys: &[(u64, u64)],
) -> Result<usize, Fail> {
    let ptr = pointer_of(alloc, birth)?;
    let payload = payload_of(alloc, birth, keys)?;
    let blocked = planned(alloc, &ptr, block, payload.as_slice())?;
    write_blocks(devices, &blocked)
}

// Reads the node.
fn read(alloc: Global, devices: &mut MemDevices) -> Result<Result<ReadNode, NodeFault>, Fail> {
    let ptr = pointer_of(alloc, BIRTH)?;
    if !ptr.is_in_range() {
        return Err(Fail::from("it is no node"));
    }
    let layout = layout_of(alloc)?;
    Ok(read_node(
        alloc,
        devices,
        &layout,
        Btree::Counters,
        &Pos::LEAST,
        &Pos::GREATEST,
        &ptr,
    ))
}

pub fn blank(alloc: Global) -> Result<MemDevices, AllocError> {
    MemDevices::blank(alloc, &BLANK_SIZES)
}

// What reading the node gives: the counters at offsets 1 to 4, the block behind the last set, and whether the copies differ.
#[derive(Clone, Copy, PartialEq, Eq)]
pub struct Seen {
    pub counters: [u64; 4],
    pub end: u8,
    pub ragged: bool,
}

fn counter_at(node: &NodeMem, offset: u64) -> u64 {
    let pos = Pos {
        inode: 0,
        offset,
        snapshot: 0,
    };
    match node.get(&pos) {
        Some(Value::Counter { next }) => *next,
        _ => 0,
    }
}

pub fn outcome(alloc: Global, devices: &mut MemDevices) -> Result<Result<Seen, NodeFault>, Fail> {
    match read(alloc, devices)? {
        Err(fault) => Ok(Err(fault)),
        Ok(ReadNode { node, end, ragged }) => Ok(Ok(Seen {
            counters: [
                counter_at(&node, 1),
                counter_at(&node, 2),
                counter_at(&node, 3),
                counter_at(&node, 4),
            ],
            end,
            ragged,
        })),
    }
}

fn counter(n: u64, factor: u64) -> (u64, u64) {
    (n, n.wrapping_mul(factor).wrapping_add(1))
}

// So many counters, of which the one at offset n has n times the factor and 1 more.
pub fn counters(alloc: Global, count: u64, factor: u64) -> Result<Vec<(u64, u64)>, AllocError> {
    let mut keys = Vec::new(alloc);
    for n in 0..count {
        keys.push(counter(n, factor))?;
    }
    Ok(keys)
}

// Whether a node holds these counters and no other key.
fn holds(node: &NodeMem, keys: &[(u64, u64)]) -> bool {
    for (offset, value) in keys {
        if counter_at(node, *offset) != *value {
            return false;
        }
    }
    node.len() == keys.len()
}

// Whether the node is read with these counters, from so many blocks.
fn is_read(
    alloc: Global,
    devices: &mut MemDevices,
    keys: &[(u64, u64)],
    blocks: u8,
) -> Result<bool, Fail> {
    match read(alloc, devices)? {
        Ok(found) => Ok(found.end == blocks && !found.ragged && holds(&found.node, keys)),
        Err(_) => Ok(false),
    }
}

// Whether it is written so, and read: all 16 blocks are written once on each place, and read once.
fn is_held(
    alloc: Global,
    devices: &mut MemDevices,
    keys: &[(u64, u64)],
    blocks: u8,
) -> Result<bool, Fail> {
    let written = write_set(alloc, devices, BIRTH, 0, keys)?;
    if written != 16 || devices.calls() != 32 {
        return Ok(false);
    }
    Ok(is_read(alloc, devices, keys, blocks)? && devices.calls() == 64)
}

// Whether a set of so many counters takes so many blocks.
fn takes(alloc: Global, count: u64, blocks: u8) -> Result<bool, Fail> {
    let keys = counters(alloc, count, 3)?;
    let mut devices = blank(alloc)?;
    is_held(alloc, &mut devices, &keys, blocks)
}

// So many counters take so many blocks.
static LENGTHS: [(u64, u8); 17] = [
    (0, 1),
    (134, 1),
    (135, 2),
    (271, 2),
    (272, 3),
    (408, 3),
    (545, 4),
    (682, 5),
    (819, 6),
    (955, 7),
    (1092, 8),
    (1229, 9),
    (1366, 10),
    (1503, 11),
    (1504, 12),
    (1640, 12),
    (1641, 13),
];

// The first number of counters that takes another number of blocks.
fn first_other_length(alloc: Global) -> Result<Option<u64>, Fail> {
    for (count, blocks) in LENGTHS.iter() {
        if !takes(alloc, *count, *blocks)? {
            return Ok(Some(*count));
        }
    }
    Ok(None)
}

// A counter takes 29 bytes, and a set 56 more: so many counters take so many blocks of 3,968 bytes, 1,640 of them twelve full
// ones.
#[test]
fn sets_of_one_to_thirteen_blocks(rt: HostRuntime) -> Result<(), Fail> {
    assert!(rt; first_other_length(rt.alloc())? == None);
    Ok(())
}

// Three counters that are written from a block of the bucket on, as those of a node with this birth: the first ones or the others.
#[derive(Clone, Copy)]
struct Piece {
    block: u8,
    birth: u64,
    is_other: bool,
}

const OLDER: u64 = 0x1_0000_0007;

static FIRST_KEYS: [(u64, u64); 3] = [(1, 10), (2, 20), (3, 30)];

// 0 stands for a counter that is removed.
pub static OTHER_KEYS: [(u64, u64); 3] = [(2, 0), (3, 31), (4, 40)];

const FIRST_SET: Piece = Piece {
    block: 0,
    birth: BIRTH,
    is_other: false,
};

const SECOND_SET: Piece = Piece {
    block: 1,
    birth: BIRTH,
    is_other: true,
};

const STALE_SET: Piece = Piece {
    block: 1,
    birth: OLDER,
    is_other: true,
};

// One behind the bucket isn't written.
const NONE: Piece = Piece {
    block: 16,
    birth: BIRTH,
    is_other: false,
};

// Three pieces that are written one after the other, and what reading gives: the counters and the block behind the last set, or
// the block of the first device that is bad.
#[derive(Clone, Copy)]
struct Case {
    first: Piece,
    second: Piece,
    third: Piece,
    counters: [u64; 4],
    end: u8,
    bad: u32,
}

const CASE: Case = Case {
    first: FIRST_SET,
    second: NONE,
    third: NONE,
    counters: [10, 20, 30, 0],
    end: 1,
    bad: 0,
};

static CASES: [Case; 12] = [
    CASE,
    Case {
        second: SECOND_SET,
        counters: [10, 0, 31, 40],
        end: 2,
        ..CASE
    },
    Case {
        second: SECOND_SET,
        third: Piece {
            block: 2,
            ..FIRST_SET
        },
        counters: [10, 20, 30, 40],
        end: 3,
        ..CASE
    },
    Case {
        second: Piece {
            block: 2,
            ..SECOND_SET
        },
        bad: 18,
        ..CASE
    },
    Case {
        second: Piece {
            block: 15,
            ..SECOND_SET
        },
        third: Piece {
            block: 14,
            ..FIRST_SET
        },
        bad: 30,
        ..CASE
    },
    Case {
        second: STALE_SET,
        ..CASE
    },
    Case {
        second: SECOND_SET,
        third: Piece {
            block: 2,
            birth: OLDER,
            ..FIRST_SET
        },
        counters: [10, 0, 31, 40],
        end: 2,
        ..CASE
    },
    Case {
        second: STALE_SET,
        third: Piece {
            block: 2,
            ..SECOND_SET
        },
        bad: 18,
        ..CASE
    },
    Case {
        second: Piece {
            block: 3,
            ..STALE_SET
        },
        ..CASE
    },
    Case {
        first: Piece {
            birth: OLDER,
            ..FIRST_SET
        },
        bad: 16,
        ..CASE
    },
    Case {
        first: SECOND_SET,
        bad: 16,
        ..CASE
    },
    Case {
        first: NONE,
        bad: 16,
        ..CASE
    },
];

pub fn read_of(counters: [u64; 4], end: u8, ragged: bool) -> Result<Seen, NodeFault> {
    Ok(Seen {
        counters,
        end,
        ragged,
    })
}

pub fn read_as(counters: [u64; 4], end: u8) -> Result<Seen, NodeFault> {
    read_of(counters, end, false)
}

pub fn bad_at(block: u32) -> Result<Seen, NodeFault> {
    Err(NodeFault::BadNode(Place { dev: 0, block }))
}

fn put_piece(alloc: Global, devices: &mut MemDevices, piece: &Piece) -> Result<(), Fail> {
    let keys = if piece.is_other {
        &OTHER_KEYS
    } else {
        &FIRST_KEYS
    };
    if piece.block < 16 {
        write_set(alloc, devices, piece.birth, piece.block, keys)?;
    }
    Ok(())
}

// What reading gives once the pieces of a case are written.
fn outcome_behind(
    alloc: Global,
    devices: &mut MemDevices,
    case: &Case,
) -> Result<Result<Seen, NodeFault>, Fail> {
    put_piece(alloc, devices, &case.first)?;
    put_piece(alloc, devices, &case.second)?;
    put_piece(alloc, devices, &case.third)?;
    outcome(alloc, devices)
}

fn is_read_so(alloc: Global, case: &Case) -> Result<bool, Fail> {
    let wanted = match case.bad {
        0 => read_as(case.counters, case.end),
        block => bad_at(block),
    };
    let mut devices = blank(alloc)?;
    Ok(outcome_behind(alloc, &mut devices, case)? == wanted)
}

// The number of the first case that is read otherwise.
fn first_other(alloc: Global) -> Result<Option<u32>, Fail> {
    let mut number: u32 = 0;
    for case in CASES.iter() {
        if !is_read_so(alloc, case)? {
            return Ok(Some(number));
        }
        number = number.saturating_add(1);
    }
    Ok(None)
}

// A later set counts over an earlier one, and a key that is removed takes away. One behind a gap is bad, and that of a node with
// another birth is none.
#[test]
fn sets_behind_sets(rt: HostRuntime) -> Result<(), Fail> {
    assert!(rt; first_other(rt.alloc())? == None);
    Ok(())
}
