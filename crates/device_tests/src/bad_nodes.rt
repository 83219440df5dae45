//! Nodes over two devices whose blocks were changed or lost, and reads that fail. What is expected was worked out by hand from the
//! tables of the format.

use crate::layouts::filled;
use crate::nodes::{
    BIRTH, FIRST, ID, OTHER_KEYS, SECOND, Seen, bad_at, blank, counters, outcome, payload_of,
    planned, pointer_of, put, read_as, read_of, write_set,
};
use dev_model::{Devices, MemDevices};
use node_store::NodeFault;
use sealed_block::{Head, NODE_SET, seal};
use std::alloc::Global;
use std::test::Fail;
use vol_digest::digest;
use vol_types::{NodePtr, Place};

// The sealed block of a set with this payload, whatever that is.
fn sealed(alloc: Global, block: u8, payload: &[u8]) -> Result<Vec<u8>, Fail> {
    if payload.len() > 3968 {
        return Err(Fail::from("it takes two blocks"));
    }
    let head = Head {
        kind: NODE_SET,
        version: 1,
        part: 0,
        parts: 1,
        id: ID,
        owner: BIRTH,
        number: u64::from(block),
        sequence: 1,
        length: payload.len() as u32,
        whole: digest(payload),
    };
    let mut bytes = filled(alloc, 0)?;
    seal(&head, payload, &mut bytes);
    Ok(bytes)
}

// Writes a block of the bucket on each place.
fn put_both(devices: &mut MemDevices, block: u8, bytes: &[u8]) -> Result<(), Fail> {
    put(devices, FIRST, block, bytes)?;
    put(devices, SECOND, block, bytes)
}

// What reading gives where this block stands in both buckets.
fn outcome_with(
    alloc: Global,
    devices: &mut MemDevices,
    block: u8,
    bytes: &[u8],
) -> Result<Result<Seen, NodeFault>, Fail> {
    put_both(devices, block, bytes)?;
    outcome(alloc, devices)
}

// A first set that removes a key isn't planned. Where it stands nevertheless, the node is bad.
#[test]
fn a_first_set_that_removes(rt: HostRuntime) -> Result<(), Fail> {
    let alloc = rt.alloc();
    let payload = payload_of(alloc, BIRTH, &OTHER_KEYS)?;
    let bytes = sealed(alloc, 0, payload.as_slice())?;
    let mut devices = blank(alloc)?;
    let given = outcome_with(alloc, &mut devices, 0, &bytes)?;
    assert!(rt; given == bad_at(16));
    Ok(())
}

// The sealed block of a set of three counters with one byte changed.
fn changed_set(alloc: Global, block: u8, at: usize, byte: u8) -> Result<Vec<u8>, Fail> {
    let mut payload = Vec::from(payload_of(alloc, BIRTH, &[(1, 11), (2, 20), (4, 40)])?);
    if let Some(other) = payload.get_mut(at) {
        *other = byte;
    }
    sealed(alloc, block, &payload)
}

// What reading gives where a block stands behind the set of one counter.
fn outcome_behind_one(
    alloc: Global,
    devices: &mut MemDevices,
    block: u8,
    bytes: &[u8],
) -> Result<Result<Seen, NodeFault>, Fail> {
    write_set(alloc, devices, BIRTH, 0, &[(1, 10)])?;
    outcome_with(alloc, devices, block, bytes)
}

// A set of three counters with one byte changed, sealed by hand from a block of the bucket on, behind the set that stands there.
fn with_byte(
    alloc: Global,
    block: u8,
    at: usize,
    byte: u8,
) -> Result<Result<Seen, NodeFault>, Fail> {
    let bytes = changed_set(alloc, block, at, byte)?;
    let mut devices = blank(alloc)?;
    outcome_behind_one(alloc, &mut devices, block, &bytes)
}

// A place in the payload, another byte there, and the counters that are read, if the set is one of the node.
static CHANGES: [(usize, u8, Option<[u64; 4]>); 13] = [
    (64, 1, Some([11, 20, 0, 40])),
    (93, 3, Some([11, 0, 20, 40])),
    (64, 2, None),
    (64, 3, None),
    (93, 1, None),
    (122, 2, None),
    (0, 7, None),
    (8, 5, None),
    (9, 1, None),
    (12, 1, None),
    (32, 0xfe, None),
    (52, 2, None),
    (52, 4, None),
];

fn is_judged_so(
    alloc: Global,
    block: u8,
    at: usize,
    byte: u8,
    counters: Option<[u64; 4]>,
) -> Result<bool, Fail> {
    let wanted = match counters {
        Some(counters) => read_as(counters, block.saturating_add(1)),
        None => bad_at(16 + u32::from(block)),
    };
    Ok(with_byte(alloc, block, at, byte)? == wanted)
}

// The number of the first change of a set from a block of the bucket on that is judged otherwise.
fn first_other_change(alloc: Global, block: u8) -> Result<Option<u32>, Fail> {
    let mut number: u32 = 0;
    for (at, byte, expected) in CHANGES.iter() {
        if !is_judged_so(alloc, block, *at, *byte, *expected)? {
            return Ok(Some(number));
        }
        number = number.saturating_add(1);
    }
    Ok(None)
}

// The birth stands at byte 0 of the set, the btree at 8, the level at 9, the ends of the range at 12 and 32, the number of keys
// at 52, and the offsets of the three keys at 64, 93 and 122.
#[test]
fn sets_that_are_none_of_the_node(rt: HostRuntime) -> Result<(), Fail> {
    let alloc = rt.alloc();
    assert!(rt; first_other_change(alloc, 0)? == None);
    assert!(rt; first_other_change(alloc, 1)? == None);
    Ok(())
}

// Writes two sets, one of two blocks and behind it one of three.
pub fn put_two_sets(alloc: Global, devices: &mut MemDevices) -> Result<(), Fail> {
    let first = counters(alloc, 200, 3)?;
    write_set(alloc, devices, BIRTH, 0, &first)?;
    let second = counters(alloc, 400, 5)?;
    write_set(alloc, devices, BIRTH, 2, &second)?;
    Ok(())
}

// Wipes the blocks of the bucket at a place that have a bit in the mask.
pub fn lose(devices: &mut MemDevices, place: Place, mask: u8, zeros: &[u8]) -> Result<(), Fail> {
    for n in 0..8 {
        if mask >> n & 1 == 1 {
            put(devices, place, n, zeros)?;
        }
    }
    Ok(())
}

fn outcome_without(
    alloc: Global,
    devices: &mut MemDevices,
    first: u8,
    second: u8,
) -> Result<Result<Seen, NodeFault>, Fail> {
    put_two_sets(alloc, devices)?;
    let zeros = filled(alloc, 0)?;
    lose(devices, FIRST, first, &zeros)?;
    lose(devices, SECOND, second, &zeros)?;
    outcome(alloc, devices)
}

// What reading two sets gives where these blocks of the bucket were lost on each place, a bit for each.
fn with_lost(alloc: Global, first: u8, second: u8) -> Result<Result<Seen, NodeFault>, Fail> {
    let mut devices = blank(alloc)?;
    outcome_without(alloc, &mut devices, first, second)
}

static EARLIER: [u64; 4] = [4, 7, 10, 13];

pub static LATER: [u64; 4] = [6, 11, 16, 21];

// What is read where each part of both sets, or of the first alone, is on some place; and where the first isn't.
#[derive(Clone, Copy)]
enum Kept {
    Both { ragged: bool },
    First { ragged: bool },
    Neither,
}

fn read_where(kept: Kept) -> Result<Seen, NodeFault> {
    match kept {
        Kept::Both { ragged } => read_of(LATER, 5, ragged),
        Kept::First { ragged } => read_of(EARLIER, 2, ragged),
        Kept::Neither => bad_at(16),
    }
}

static LOSSES: [(u8, u8, Kept); 11] = [
    (0b00000, 0b00000, Kept::Both { ragged: false }),
    (0b00001, 0b00010, Kept::Both { ragged: true }),
    (0b01010, 0b10101, Kept::Both { ragged: true }),
    (0b10101, 0b01010, Kept::Both { ragged: true }),
    (0b11111, 0b00000, Kept::Both { ragged: true }),
    (0b00000, 0b11111, Kept::Both { ragged: true }),
    (0b01000, 0b01000, Kept::First { ragged: false }),
    (0b00100, 0b11100, Kept::First { ragged: false }),
    (0b01010, 0b01000, Kept::First { ragged: true }),
    (0b00010, 0b00010, Kept::Neither),
    (0b00001, 0b11111, Kept::Neither),
];

// The number of the first losses after which something else is read.
fn first_other_losses(alloc: Global) -> Result<Option<u32>, Fail> {
    let mut number: u32 = 0;
    for (first, second, kept) in LOSSES.iter() {
        if with_lost(alloc, *first, *second)? != read_where(*kept) {
            return Ok(Some(number));
        }
        number = number.saturating_add(1);
    }
    Ok(None)
}

// Each part may come from another place. Where no place has a part, the last set is none, and without the first one the node is
// bad.
#[test]
fn blocks_that_were_lost(rt: HostRuntime) -> Result<(), Fail> {
    assert!(rt; first_other_losses(rt.alloc())? == None);
    Ok(())
}

// What reading two sets gives where these of its calls fail. It makes 32 calls, or else this says that there is no memory.
fn outcome_failing(
    alloc: Global,
    devices: &mut MemDevices,
    calls: (u64, u64),
) -> Result<Result<Seen, NodeFault>, Fail> {
    put_two_sets(alloc, devices)?;
    let before = devices.calls();
    let first = before.saturating_add(calls.0);
    let second = before.saturating_add(calls.1);
    devices.fail_at(&[first, second])?;
    let outcome = outcome(alloc, devices)?;
    if devices.calls() != before.saturating_add(32) {
        return Ok(Err(NodeFault::NoMemory));
    }
    Ok(outcome)
}

fn with_failing(alloc: Global, calls: (u64, u64)) -> Result<Result<Seen, NodeFault>, Fail> {
    let mut devices = blank(alloc)?;
    outcome_failing(alloc, &mut devices, calls)
}

// The two calls that fail, and the device that is at fault, if the node isn't read.
static FAILURES: [((u64, u64), Option<u8>); 12] = [
    ((0, 0), None),
    ((4, 4), None),
    ((5, 5), Some(0)),
    ((15, 15), Some(0)),
    ((16, 16), None),
    ((20, 20), None),
    ((21, 21), Some(1)),
    ((31, 31), Some(1)),
    ((0, 17), None),
    ((2, 19), None),
    ((3, 19), Some(1)),
    ((1, 17), Some(1)),
];

// Whether reading blames this device where these calls fail, or gives all that was written where none is to blame.
fn fails_as(alloc: Global, calls: (u64, u64), fault: Option<u8>) -> Result<bool, Fail> {
    let wanted = match fault {
        Some(dev) => Err(NodeFault::DeviceFault(dev)),
        None => read_of(LATER, 5, true),
    };
    Ok(with_failing(alloc, calls)? == wanted)
}

// The number of the first calls that fail otherwise.
fn first_other_failure(alloc: Global) -> Result<Option<u32>, Fail> {
    let mut number: u32 = 0;
    for (calls, fault) in FAILURES.iter() {
        if !fails_as(alloc, *calls, *fault)? {
            return Ok(Some(number));
        }
        number = number.saturating_add(1);
    }
    Ok(None)
}

// Reads 0 to 15 are those of the bucket on the first place, and 16 to 31 those on the second one.
#[test]
fn reads_that_fail(rt: HostRuntime) -> Result<(), Fail> {
    let alloc = rt.alloc();
    assert!(rt; first_other_failure(alloc)? == None);
    let behind = with_failing(alloc, (32, 33))?;
    assert!(rt; behind == read_of(LATER, 5, false));
    Ok(())
}

// The root of the btree Inodes of a format's volume: the head of its only set, and the root directory of `main`.
static ROOT_SET: [u8; 90] = [
    1, 0, 0, 0, 1, 0, 0, 0, 1, 0, 0, 0, 0, 0, 0, 0, 0, 0, 0, 0, 0, 0, 0, 0, 0, 0, 0, 0, 0, 0, 0, 0,
    255, 255, 255, 255, 255, 255, 255, 255, 255, 255, 255, 255, 255, 255, 255, 255, 255, 255, 255,
    255, 1, 0, 0, 0, 0, 0, 0, 0, 0, 0, 0, 0, 1, 0, 0, 0, 0, 0, 0, 0, 255, 255, 255, 255, 1, 2, 1,
    0, 0, 0, 0, 0, 0, 0, 0, 0, 0, 0,
];

static ROOT_DIGEST: [u8; 32] = [
    0x94, 0xc4, 0xa0, 0xff, 0x98, 0xcc, 0x21, 0xe9, 0xeb, 0xd8, 0x55, 0x92, 0x31, 0x75, 0xb4, 0x69,
    0xe9, 0xe5, 0xd4, 0xc7, 0x6c, 0x69, 0x5a, 0x7d, 0x59, 0x94, 0x8e, 0xdc, 0x85, 0xe1, 0xdf, 0x48,
];

// Whether the first block has the digest, and all behind it is zeros.
fn is_root(parts: &[u8]) -> bool {
    if parts.len() != 65_536 {
        return false;
    }
    let (block, zeros) = parts.split_at(4096);
    digest(block) == ROOT_DIGEST && zeros.iter().all(|byte| *byte == 0)
}

fn is_root_planned(alloc: Global, ptr: &NodePtr) -> Result<bool, Fail> {
    let first = planned(alloc, ptr, 0, &ROOT_SET)?;
    Ok(is_root(first.parts.as_slice()))
}

fn length_further(alloc: Global, ptr: &NodePtr) -> Result<usize, Fail> {
    let further = planned(alloc, ptr, 3, &ROOT_SET)?;
    Ok(further.parts.len())
}

// Whether the blocks of the set are those of the root from the first block of the bucket on, and how long they are further behind.
fn root_and_length(alloc: Global) -> Result<(bool, usize), Fail> {
    let ptr = pointer_of(alloc, 0x1_0000_0001)?;
    let is_root = is_root_planned(alloc, &ptr)?;
    let length = length_further(alloc, &ptr)?;
    Ok((is_root, length))
}

// The digest was computed by Python's hashlib over the block that its struct module packed. Behind it are zeros, up to the end of
// the bucket.
#[test]
fn known_root(rt: HostRuntime) -> Result<(), Fail> {
    let (is_root, length) = root_and_length(rt.alloc())?;
    assert!(rt; is_root);
    assert!(rt; length == 4096);
    Ok(())
}
