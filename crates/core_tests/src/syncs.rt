//! How many device calls each sync makes, following the stage that it is told, and when commits are told to be durable.

use crate::acts::Act;
use crate::failing::NEVER;
use crate::images::Shape;
use crate::moves::{Move, Seen, make, push_some, step};
use crate::sessions::{Run, left_behind};
use dev_model::MemDevices;
use std::alloc::{AllocError, Global};
use std::test::Fail;
use vol_core::{Core, Event, Opening, Stage};
use vol_types::Updates;

/// What the commits before a sync put and remove, each of another client.
#[derive(Clone, Copy)]
enum Load {
    /// One key is put.
    One,
    /// As many are put and removed as fill a part of the entry to its last byte.
    Part,
    /// One more is removed.
    MorePart,
    /// 4,200 are put, which take 33 parts. No two such commits fit an entry of at most 64.
    Many,
}

/// What a sync does: how many entries it puts in flight and settles, how many parts it writes, each on every metadata device, and how many flushes and
/// device calls it makes; and for each client how many entries were settled when it was first told that its commits are durable.
#[derive(Clone, Copy, PartialEq)]
struct Sync {
    seals: u64,
    parts: u64,
    flushes: u64,
    calls: u64,
    settles: u64,
    told: [u64; 3],
}

/// A client isn't told yet.
const UNTOLD: u64 = u64::MAX;

/// How many commits there are before a sync, and what each does; how many entries the sync makes, and how many parts they have; whether it
/// is the first one of its session, which flushes all devices before; and what clients are told.
#[derive(Clone, Copy)]
struct Row {
    commits: u8,
    load: Load,
    entries: u64,
    parts: u64,
    is_first: bool,
    told: [u64; 3],
}

// All devices are flushed before the first part of a session; later on the metadata devices alone, after the last part of each entry.
static ROWS: [Row; 7] = [
    Row {
        commits: 0,
        load: Load::One,
        entries: 0,
        parts: 0,
        is_first: false,
        told: [0, 0, 0],
    },
    Row {
        commits: 1,
        load: Load::One,
        entries: 1,
        parts: 1,
        is_first: true,
        told: [1, 1, 1],
    },
    Row {
        commits: 0,
        load: Load::One,
        entries: 0,
        parts: 0,
        is_first: false,
        told: [0, 0, 0],
    },
    Row {
        commits: 3,
        load: Load::One,
        entries: 1,
        parts: 1,
        is_first: false,
        told: [1, 1, 1],
    },
    Row {
        commits: 1,
        load: Load::Part,
        entries: 1,
        parts: 1,
        is_first: false,
        told: [1, 0, 0],
    },
    Row {
        commits: 1,
        load: Load::MorePart,
        entries: 1,
        parts: 2,
        is_first: false,
        told: [1, 0, 0],
    },
    Row {
        commits: 3,
        load: Load::Many,
        entries: 3,
        parts: 99,
        is_first: false,
        told: [1, 2, 3],
    },
];

// An entry takes 126 bytes and 45 more for each metadata device, 31 for each key that is put, and 23 for each that is removed, in parts
// of 3,968: so many puts and removals fill one part to its last byte.
fn filling_part(mirrors: u8) -> (u64, u64) {
    match mirrors {
        1 => (6, 157),
        2 => (9, 151),
        _ => (12, 145),
    }
}

// How many keys a commit puts and removes.
fn counts_of(load: Load, mirrors: u8) -> (u64, u64) {
    let (puts, removals) = filling_part(mirrors);
    match load {
        Load::One => (1, 0),
        Load::Part => (puts, removals),
        Load::MorePart => (puts, removals.wrapping_add(1)),
        Load::Many => (4_200, 0),
    }
}

// What a sync does on a volume of a shape, as its row says.
fn expected_of(row: &Row, shape: Shape) -> Sync {
    let mirrors = u64::from(shape.mirrors);
    let before = if row.is_first { shape.devices } else { 0 };
    let flushes = row
        .entries
        .wrapping_mul(mirrors)
        .wrapping_add(u64::from(before));
    Sync {
        seals: row.entries,
        parts: row.parts,
        flushes,
        calls: row.parts.wrapping_mul(mirrors).wrapping_add(flushes),
        settles: row.entries,
        told: row.told,
    }
}

fn push_load(updates: &mut Updates, puts: u64, removals: u64) -> Result<(), AllocError> {
    push_some(updates, puts, 7, 1)?;
    push_some(updates, removals, 8, 0)
}

// The updates of a commit.
fn updates_of(alloc: Global, puts: u64, removals: u64) -> Result<Updates, AllocError> {
    let mut updates = Updates::new(alloc);
    match push_load(&mut updates, puts, removals) {
        Ok(()) => Ok(updates),
        Err(error) => {
            drop(updates);
            Err(error)
        }
    }
}

// Whether a commit of a client is made, which then begins again.
fn commits<O: Opening>(core: &mut Core<MemDevices, O>, client: u8, updates: Updates) -> bool {
    step(core, client, Event::Begin { first: true });
    step(core, client, Event::Intend(updates)) == Seen::Done
        && step(core, client, Event::Commit { counted: true }) == Seen::Done
        && step(core, client, Event::Begin { first: true }) == Seen::Done
}

// Whether all commits before a sync are made.
fn are_made<O: Opening>(
    alloc: Global,
    core: &mut Core<MemDevices, O>,
    count: u8,
    puts: u64,
    removals: u64,
) -> bool {
    for client in 0..count {
        let is_made = match updates_of(alloc, puts, removals) {
            Ok(updates) => commits(core, client, updates),
            Err(_) => false,
        };
        if !is_made {
            return false;
        }
    }
    true
}

// Asks for each client whether its commits are durable.
fn ask<O: Opening>(alloc: Global, core: &mut Core<MemDevices, O>, sync: &mut Sync) {
    let mut client: u8 = 0;
    for told in sync.told.iter_mut() {
        let seen = make(alloc, core, client, Move::Next);
        if *told == UNTOLD && matches!(seen, Seen::At(_, true)) {
            *told = sync.settles;
        }
        client = client.saturating_add(1);
    }
}

// Counts the event of a stage of the journal, and gives it; none at rest.
fn next(sync: &mut Sync, stage: Stage) -> Option<Move> {
    match stage {
        Stage::Rest | Stage::Freeze(_) | Stage::WriteSet(_) | Stage::CommitNodes => None,
        Stage::Seal => {
            sync.seals = sync.seals.saturating_add(1);
            Some(Move::Seal)
        }
        Stage::WriteEntry => {
            sync.parts = sync.parts.saturating_add(1);
            Some(Move::WriteEntry)
        }
        Stage::Flush(dev) => {
            sync.flushes = sync.flushes.saturating_add(1);
            Some(Move::Flush(dev))
        }
        Stage::Settle => {
            sync.settles = sync.settles.saturating_add(1);
            Some(Move::Settle)
        }
    }
}

// What a sync does that makes the events that the stage names, up to the rest, if each of them happens.
fn synced<O: Opening>(alloc: Global, core: &mut Core<MemDevices, O>) -> Option<Sync> {
    let before = core.devices().calls();
    let mut sync = Sync {
        seals: 0,
        parts: 0,
        flushes: 0,
        calls: 0,
        settles: 0,
        told: [UNTOLD; 3],
    };
    for _ in 0..1_000 {
        ask(alloc, core, &mut sync);
        let Seen::At(stage, is_durable) = make(alloc, core, 3, Move::Next) else {
            return None;
        };
        let Some(wanted) = next(&mut sync, stage) else {
            sync.calls = core.devices().calls().wrapping_sub(before);
            return if is_durable { Some(sync) } else { None };
        };
        if is_durable || make(alloc, core, 3, wanted) != Seen::Done {
            return None;
        }
    }
    None
}

/// The first sync on an open volume of a shape that isn't as its row says.
pub fn other_sync<O: Opening>(
    alloc: Global,
    core: &mut Core<MemDevices, O>,
    shape: Shape,
) -> Option<usize> {
    let mut at: usize = 0;
    for row in ROWS.iter() {
        let (puts, removals) = counts_of(row.load, shape.mirrors);
        if !are_made(alloc, core, row.commits, puts, removals)
            || synced(alloc, core) != Some(expected_of(row, shape))
        {
            return Some(at);
        }
        at = at.saturating_add(1);
    }
    None
}

// On how many devices a volume lies, and on how many its metadata.
static SHAPES: [(u8, u8); 6] = [(1, 1), (2, 1), (2, 2), (3, 2), (3, 3), (4, 3)];

// The first shape of a volume on which syncs aren't as they should be.
fn other_shape(alloc: Global) -> Result<Option<(u8, u8)>, Fail> {
    for (devices, mirrors) in SHAPES.iter() {
        let shape = Shape {
            devices: *devices,
            mirrors: *mirrors,
        };
        let mut run = Run::new(shape, NEVER, 0);
        drop(left_behind(alloc, &[Act::Syncs], &mut run)?);
        if !run.is_right {
            return Ok(Some((*devices, *mirrors)));
        }
    }
    Ok(None)
}

#[test]
fn syncs_make_these_calls(rt: HostRuntime) -> Result<(), Fail> {
    assert!(rt; other_shape(rt.alloc())? == None);
    Ok(())
}
