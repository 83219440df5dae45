//! Many rounds of the ring of the smallest journal, which commits fill and checkpoints empty.

use crate::acts::Act;
use crate::draws::Draw;
use crate::failing::NEVER;
use crate::images::{ONE, Shape, formatted_on};
use crate::moves::{Change, Seen};
use crate::remains::found_on;
use crate::sessions::{Run, session};
use crate::works::{checkpoint, commit, commit_again, follow};
use dev_model::MemDevices;
use std::alloc::Global;
use std::test::Fail;
use vol_core::{Core, Opening, Work};

/// How many sessions there are, one after the other.
const SESSIONS: u64 = 4;

/// How many entries each of them writes beside those of its checkpoints.
const ENTRIES: u64 = 500;

/// What a run came to.
#[derive(Clone, Copy, PartialEq)]
struct Rounds {
    commits: u64,
    /// The checkpoints that commits asked for.
    checkpoints: u64,
    /// The sequence of the newest entry, and the number of its first journal block.
    sequence: u64,
    number: u64,
}

fn drawn_change(draw: &mut Draw) -> Change {
    Change {
        key: draw.byte(4),
        value: draw.below(1000),
        is_long: draw.below(4) > 0,
        is_wide: false,
    }
}

// Whether a commit is made, for which the journal had no room, behind a checkpoint.
fn makes_room<O: Opening>(core: &mut Core<MemDevices, O>, run: &mut Run, change: Change) -> bool {
    run.checkpoints = run.checkpoints.saturating_add(1);
    checkpoint(core, &mut run.story) == Seen::Done
        && commit_again(core, change, &mut run.story) == Seen::Done
}

// Whether a commit is made, behind a checkpoint where the journal has no room for it.
fn commits<O: Opening>(alloc: Global, core: &mut Core<MemDevices, O>, run: &mut Run) -> bool {
    let change = drawn_change(&mut run.draw);
    match commit(alloc, core, change, &mut run.story) {
        Seen::Done => true,
        Seen::Full => makes_room(core, run, change),
        _ => false,
    }
}

// Whether one to four commits are made, and then the entry that has them.
fn makes_entry<O: Opening>(alloc: Global, core: &mut Core<MemDevices, O>, run: &mut Run) -> bool {
    let more = run.draw.below(4);
    for _ in 0..more.saturating_add(1) {
        if !commits(alloc, core, run) {
            return false;
        }
    }
    follow(core, Work::Journal, &mut run.story) == Seen::Done
}

/// Whether so many entries are made.
pub fn makes_entries<O: Opening>(
    alloc: Global,
    core: &mut Core<MemDevices, O>,
    count: u64,
    run: &mut Run,
) -> bool {
    for _ in 0..count {
        if !makes_entry(alloc, core, run) {
            return false;
        }
    }
    true
}

// What a run came to up to now, if its session went right and the devices mean what was committed.
fn rounds_of(alloc: Global, devices: &mut MemDevices, run: &Run) -> Option<Rounds> {
    let found = found_on(alloc, devices, run.story.now, run.story.now);
    let newest = found.newest?;
    if !run.is_right || found.is_newer.is_none() {
        return None;
    }
    Some(Rounds {
        commits: run.story.durable.commits,
        checkpoints: run.checkpoints,
        sequence: newest.sequence,
        number: newest.number,
    })
}

// What a run came to on a volume of a shape, if behind each session the image means what was committed.
fn rounds_on(alloc: Global, shape: Shape) -> Result<Option<Rounds>, Fail> {
    let mut run = Run::new(shape, NEVER, 7);
    let mut devices = formatted_on(alloc, shape)?;
    let mut rounds = None;
    for _ in 0..SESSIONS {
        devices = session(alloc, devices, &[Act::Entries(ENTRIES)], &mut run)?;
        rounds = rounds_of(alloc, &mut devices, &run);
        if rounds.is_none() {
            drop(devices);
            return Ok(None);
        }
    }
    drop(devices);
    Ok(rounds)
}

// A program in Python draws the same commits and counts the blocks of the entries: an entry takes 126 bytes, 45 more for each metadata
// device, and 31 for each key that is put, and 23 for each that is removed, in blocks of 3,968. The journal has 256 blocks, of which a commit
// leaves 64: so the ring has gone round 22 times. It is the same on one device and on three.
const EXPECTED: Rounds = Rounds {
    commits: 5_000,
    checkpoints: 29,
    sequence: 2_041,
    number: 5_737,
};

const THREE: Shape = Shape {
    devices: 3,
    mirrors: 3,
};

#[test]
fn the_ring_goes_round_on_one_device(rt: HostRuntime) -> Result<(), Fail> {
    assert!(rt; rounds_on(rt.alloc(), ONE)? == Some(EXPECTED));
    Ok(())
}

#[test]
fn the_ring_goes_round_on_three_devices(rt: HostRuntime) -> Result<(), Fail> {
    assert!(rt; rounds_on(rt.alloc(), THREE)? == Some(EXPECTED));
    Ok(())
}
