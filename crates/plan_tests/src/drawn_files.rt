//! A file of 4,096 blocks under drawn writes, punches and snapshots. The digest of what the ids show in the end was computed by a
//! program in Python that keeps for each id a plain array of what it shows, and knows no keys.

use crate::extents::{apply_all, digest_in, draw, extent};
use crate::ids::tree_of;
use extent_ops::{cover, overwrite, punch};
use snap_tree::SnapTree;
use std::alloc::{AllocError, Global};
use std::collections::BTreeMap;
use std::ops::Bound;
use std::test::Fail;
use vol_types::{Duplicate, Key, Keys, Pos, Value};

/// How many blocks the file has.
const BLOCKS: u64 = 4096;

/// The id that is there first; those drawn later lie below it.
const FIRST_ID: u32 = 1000;

/// How many steps are drawn.
const STEPS: u64 = 240;

/// The most ids that can be written.
const MOST_LEAVES: usize = 8;

/// The ids with their parents, those that can be written, and the keys of the file.
#[derive(Drop)]
struct Drawn {
    ids: Vec<(u32, u32)>,
    leaves: Vec<u32>,
    tree: SnapTree,
    keys: BTreeMap<Pos, Value>,
    seed: u64,
    digest: u64,
}

impl Drawn {
    fn new(alloc: Global) -> Result<Drawn, Fail> {
        let tree = tree_of(alloc, &[(FIRST_ID, 0)])?;
        let ids = vec![in alloc; (FIRST_ID, 0)]?;
        let leaves = vec![in alloc; FIRST_ID]?;
        Ok(Drawn {
            ids,
            leaves,
            tree,
            keys: BTreeMap::new(alloc),
            seed: 11,
            digest: 1,
        })
    }
}

// The keys that cover one of some blocks, and others: no extent or hole here has more than 16 blocks.
fn looked_at(
    alloc: Global,
    map: &BTreeMap<Pos, Value>,
    first: u64,
    last: u64,
) -> Result<Keys, AllocError> {
    let from = end_pos(first.saturating_add(1), 0);
    let to = end_pos(last.saturating_add(16), u32::MAX);
    let mut keys = Keys::new(alloc);
    if from > to {
        return Ok(keys);
    }
    for (pos, value) in map.range((Bound::Included(from), Bound::Included(to))) {
        push_copy(alloc, &mut keys, pos, value)?;
    }
    Ok(keys)
}

// Where an extent or a hole of the file stands that ends at a block.
fn end_pos(offset: u64, snapshot: u32) -> Pos {
    Pos {
        inode: 7,
        offset,
        snapshot,
    }
}

fn push_copy(alloc: Global, keys: &mut Keys, pos: &Pos, value: &Value) -> Result<(), AllocError> {
    keys.push(Key {
        pos: *pos,
        value: Some(value.copy(alloc)?),
    })?;
    Ok(())
}

// Adds a run of blocks, as extents of 16 blocks and a shorter one.
fn add_run(
    alloc: Global,
    fresh: &mut Keys,
    id: u32,
    first: u64,
    blocks: u64,
    digest: u64,
) -> Result<(), AllocError> {
    for piece in 0..blocks.saturating_add(15) / 16 {
        let done = piece.saturating_mul(16);
        let count = blocks.saturating_sub(done).min(16);
        fresh.push(extent(
            alloc,
            id,
            first.wrapping_add(done),
            count,
            digest.wrapping_add(done),
        )?)?;
    }
    Ok(())
}

// Adds two runs of blocks with a gap between them from a block on, and gives the block behind them and a gap.
fn add_runs(
    alloc: Global,
    drawn: &mut Drawn,
    fresh: &mut Keys,
    id: u32,
    from: u64,
) -> Result<u64, AllocError> {
    let mut first = from;
    for _ in 0..2 {
        let blocks = draw(&mut drawn.seed, 200).wrapping_add(1);
        let digest = drawn.digest;
        add_run(alloc, fresh, id, first, blocks, digest)?;
        drawn.digest = digest.wrapping_add(blocks);
        first = first
            .wrapping_add(blocks)
            .wrapping_add(draw(&mut drawn.seed, 40));
    }
    Ok(first)
}

// Writes two runs of blocks.
fn write(alloc: Global, drawn: &mut Drawn, id: u32) -> Result<(), AllocError> {
    let mut fresh = Keys::new(alloc);
    let written = write_runs(alloc, drawn, &mut fresh, id);
    drop(fresh);
    written
}

fn write_runs(
    alloc: Global,
    drawn: &mut Drawn,
    fresh: &mut Keys,
    id: u32,
) -> Result<(), AllocError> {
    let from = draw(&mut drawn.seed, 3656);
    let end = add_runs(alloc, drawn, fresh, id, from)?;
    let keys = looked_at(alloc, &drawn.keys, from, end)?;
    let updates = overwrite(alloc, &keys, id, fresh);
    drop(keys);
    apply_all(&mut drawn.keys, updates?)
}

fn punch_blocks(alloc: Global, drawn: &mut Drawn, id: u32) -> Result<(), AllocError> {
    let first = draw(&mut drawn.seed, 3840);
    let blocks = draw(&mut drawn.seed, 256).wrapping_add(1);
    let last = first.wrapping_add(blocks).saturating_sub(1);
    let keys = looked_at(alloc, &drawn.keys, first, last)?;
    let updates = punch(alloc, &keys, &drawn.tree, id, first, last);
    drop(keys);
    apply_all(&mut drawn.keys, updates?)
}

// Gives an id two children that can be written in its place.
fn snapshot(alloc: Global, drawn: &mut Drawn, place: usize) -> Result<(), Fail> {
    let id = leaf_at(drawn.leaves.as_slice(), place);
    let source = FIRST_ID.saturating_sub(u32::try_from(drawn.ids.len()).unwrap_or(0));
    let copy = source.saturating_sub(1);
    for child in [source, copy] {
        drawn.ids.push((child, id))?;
    }
    if let Some(leaf) = drawn.leaves.get_mut(place) {
        *leaf = source;
    }
    drawn.leaves.push(copy)?;
    drawn.tree = tree_of(alloc, drawn.ids.as_slice())?;
    Ok(())
}

fn leaf_at(leaves: &[u32], place: usize) -> u32 {
    match leaves.get(place) {
        None => 0,
        Some(leaf) => *leaf,
    }
}

// A snapshot, a punch or a write, in an id that can be written.
fn take_step(alloc: Global, drawn: &mut Drawn) -> Result<(), Fail> {
    let count = drawn.leaves.len();
    let place = draw(&mut drawn.seed, count as u64) as usize;
    let kind = draw(&mut drawn.seed, 8);
    if kind == 0 && count < MOST_LEAVES {
        return snapshot(alloc, drawn, place);
    }
    let id = leaf_at(drawn.leaves.as_slice(), place);
    if kind < 4 {
        punch_blocks(alloc, drawn, id)?;
    } else {
        write(alloc, drawn, id)?;
    }
    Ok(())
}

// Goes on with the FNV-1a digest of numbers.
fn hashed(all: u64, number: u64) -> u64 {
    (all ^ number).wrapping_mul(0x100_0000_01b3)
}

fn shown_at(
    alloc: Global,
    keys: &Keys,
    tree: &SnapTree,
    id: u32,
    block: u64,
) -> Result<u64, AllocError> {
    let found = cover(alloc, keys, tree, id, block)?;
    let digest = digest_in(found.as_ref());
    drop(found);
    Ok(digest)
}

// The digest with what an id shows of 16 blocks.
fn hashed_there(
    alloc: Global,
    keys: &Keys,
    tree: &SnapTree,
    id: u32,
    first: u64,
    all: u64,
) -> Result<u64, AllocError> {
    let mut all = all;
    for block in first..first.saturating_add(16) {
        all = hashed(all, shown_at(alloc, keys, tree, id, block)?);
    }
    Ok(all)
}

// The digest with what an id shows.
fn hashed_in(alloc: Global, drawn: &Drawn, id: u32, all: u64) -> Result<u64, AllocError> {
    let mut all = all;
    for piece in 0..BLOCKS / 16 {
        let first = piece.saturating_mul(16);
        let keys = looked_at(alloc, &drawn.keys, first, first.saturating_add(15))?;
        let more = hashed_there(alloc, &keys, &drawn.tree, id, first, all);
        drop(keys);
        all = more?;
    }
    Ok(all)
}

// The FNV-1a digest of what the ids show, number by number, from the smallest id on. No number lies between two of them.
fn digest_of(alloc: Global, drawn: &Drawn) -> Result<u64, AllocError> {
    let mut all: u64 = 0xcbf2_9ce4_8422_2325;
    let smallest = (FIRST_ID + 1).saturating_sub(u32::try_from(drawn.ids.len()).unwrap_or(0));
    for id in smallest..FIRST_ID + 1 {
        all = hashed_in(alloc, drawn, id, all)?;
    }
    Ok(all)
}

fn take_steps(alloc: Global, drawn: &mut Drawn) -> Result<u64, Fail> {
    for _ in 0..STEPS {
        take_step(alloc, drawn)?;
    }
    Ok(digest_of(alloc, drawn)?)
}

#[test]
fn drawn_files(rt: HostRuntime) -> Result<(), Fail> {
    let alloc = rt.alloc();
    let mut drawn = Drawn::new(alloc)?;
    let digest = take_steps(alloc, &mut drawn);
    drop(drawn);
    assert!(rt; digest? == 0xa4f8_b52a_2c39_c987);
    Ok(())
}
