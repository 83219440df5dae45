//! The payloads of sets and entries, byte by byte from the tables of the format.

use std::alloc::{AllocError, Global};
use vol_types::{Bytes, Pos};

/// The session and the count of the first node that a format makes: the root of btree 0.
pub const BIRTH: u64 = 0x1_0000_0000;

/// The number of the btree Counters.
pub const COUNTERS: u8 = 8;

/// A key of the btree Counters, at its offset of inode 0. The greatest offset stands for the greatest position.
#[derive(Clone, Copy)]
pub enum Change {
    /// A counter with its value.
    Counter(u64, u64),
    /// A key that is removed.
    Removed(u64),
    /// The node of this level with this count of its birth, whose bucket begins at this block of each device.
    Node(u64, u8, u64, u32),
}

/// A set of a node of Counters.
#[derive(Clone, Copy)]
pub struct SetOf<'a> {
    /// The count of the node's birth.
    pub count: u64,
    pub level: u8,
    pub least: Pos,
    pub greatest: Pos,
    pub keys: &'a [Change],
}

/// An entry, whose roots are those of a format but for the last one. A long one sets 130 counters besides, and so takes two
/// blocks.
#[derive(Clone, Copy)]
pub struct EntryOf<'a> {
    pub sequence: u64,
    pub oldest: u64,
    pub session: u64,
    pub commits: u64,
    /// The level of the root of Counters, and its count and the first block of its bucket.
    pub level: u8,
    pub root: (u64, u32),
    pub is_long: bool,
    /// The updates of Counters, each with its level.
    pub updates: &'a [(u8, Change)],
}

/// The position at an offset.
pub fn pos_at(offset: u64) -> Pos {
    if offset == u64::MAX {
        return Pos::GREATEST;
    }
    Pos {
        inode: 0,
        offset,
        snapshot: 0,
    }
}

fn put_pos(into: &mut Bytes, pos: Pos) -> Result<(), AllocError> {
    into.extend_from_slice(&pos.inode.to_le_bytes())?;
    into.extend_from_slice(&pos.offset.to_le_bytes())?;
    into.extend_from_slice(&pos.snapshot.to_le_bytes())
}

// The birth, the level and the places of a node: the same block on each of so many devices.
fn put_node(
    into: &mut Bytes,
    count: u64,
    level: u8,
    block: u32,
    devices: u8,
) -> Result<(), AllocError> {
    into.extend_from_slice(&BIRTH.wrapping_add(count).to_le_bytes())?;
    into.extend_from_slice(&[level, devices])?;
    for dev in 0..devices {
        into.extend_from_slice(&[dev])?;
        into.extend_from_slice(&block.to_le_bytes())?;
    }
    Ok(())
}

// A key, with the number of its kind: 0 for one that is removed, 11 for a counter, 12 for a node.
fn put_key(into: &mut Bytes, change: Change, devices: u8) -> Result<(), AllocError> {
    match change {
        Change::Removed(offset) => {
            put_pos(into, pos_at(offset))?;
            into.extend_from_slice(&[0])
        }
        Change::Counter(offset, value) => {
            put_pos(into, pos_at(offset))?;
            into.extend_from_slice(&[11])?;
            into.extend_from_slice(&value.to_le_bytes())
        }
        Change::Node(offset, level, count, block) => {
            put_pos(into, pos_at(offset))?;
            into.extend_from_slice(&[12])?;
            put_node(into, count, level, block, devices)
        }
    }
}

// How many there are, as four bytes.
fn put_count(into: &mut Bytes, count: usize) -> Result<(), AllocError> {
    let count = count.min(u32::MAX as usize) as u32;
    into.extend_from_slice(&count.to_le_bytes())
}

fn put_set(into: &mut Bytes, btree: u8, set: &SetOf<'_>, devices: u8) -> Result<(), AllocError> {
    into.extend_from_slice(&BIRTH.wrapping_add(set.count).to_le_bytes())?;
    into.extend_from_slice(&[btree, set.level, 0, 0])?;
    put_pos(into, set.least)?;
    put_pos(into, set.greatest)?;
    put_count(into, set.keys.len())?;
    for key in set.keys {
        put_key(into, *key, devices)?;
    }
    Ok(())
}

/// The payload of a set of a node of this btree.
pub fn set_payload(
    alloc: Global,
    btree: u8,
    set: &SetOf<'_>,
    devices: u8,
) -> Result<Bytes, AllocError> {
    let mut payload = Bytes::new(alloc);
    put_set(&mut payload, btree, set, devices)?;
    Ok(payload)
}

// The roots that a format makes, in the buckets behind a journal area of 256 blocks.
fn put_roots(into: &mut Bytes, entry: &EntryOf<'_>, devices: u8) -> Result<(), AllocError> {
    for count in 0..8 {
        put_node(into, count, 0, 272 + 16 * count as u32, devices)?;
    }
    put_node(into, entry.root.0, entry.level, entry.root.1, devices)
}

// The updates that a long entry has besides: the counters from offset 100 on are set to its sequence.
fn put_more(into: &mut Bytes, sequence: u64, devices: u8) -> Result<(), AllocError> {
    for offset in 100..230 {
        into.extend_from_slice(&[COUNTERS, 0])?;
        put_key(into, Change::Counter(offset, sequence), devices)?;
    }
    Ok(())
}

fn put_numbers(into: &mut Bytes, entry: &EntryOf<'_>) -> Result<(), AllocError> {
    into.extend_from_slice(&entry.sequence.to_le_bytes())?;
    into.extend_from_slice(&entry.oldest.to_le_bytes())?;
    into.extend_from_slice(&entry.session.to_le_bytes())?;
    into.extend_from_slice(&entry.commits.to_le_bytes())
}

fn put_entry(into: &mut Bytes, entry: &EntryOf<'_>, devices: u8) -> Result<(), AllocError> {
    put_numbers(into, entry)?;
    put_roots(into, entry, devices)?;
    let more = if entry.is_long { 130 } else { 0 };
    put_count(into, entry.updates.len().saturating_add(more))?;
    for (level, change) in entry.updates {
        into.extend_from_slice(&[COUNTERS, *level])?;
        put_key(into, *change, devices)?;
    }
    if entry.is_long {
        put_more(into, entry.sequence, devices)?;
    }
    Ok(())
}

/// The payload of an entry.
pub fn entry_payload(alloc: Global, entry: &EntryOf<'_>, devices: u8) -> Result<Bytes, AllocError> {
    let mut payload = Bytes::new(alloc);
    put_entry(&mut payload, entry, devices)?;
    Ok(payload)
}
