//! Lists of events, and checkpoints in turn on buckets that are used again, over devices of which each call fails, alone or with all later
//! ones, and what is found on what a restart leaves.

use crate::acts::{Act, JOURNAL, NODES};
use crate::failing::{Failing, NEVER, WAYS};
use crate::images::{ONE, Shape, TWO};
use crate::remains::{found_on, stands_on_each};
use crate::sessions::{Run, left_behind};
use dev_model::MemDevices;
use std::alloc::Global;
use std::test::Fail;
use vol_core::Work;

/// What was tried.
#[derive(Clone, Copy, PartialEq)]
struct Tally {
    /// How many device calls the runs make of which one fails.
    calls: u64,
    /// The images that crashes left.
    images: u64,
    /// Those on which what the entry in flight led to was found.
    newer: u64,
    /// How many commits were found on them in all.
    commits: u64,
    /// The last case that wasn't as it should be.
    other: Option<Failing>,
}

impl Tally {
    // One image more, on which so many commits were found.
    fn add(&mut self, is_newer: bool, commits: u64) {
        self.images = self.images.saturating_add(1);
        self.commits = self.commits.saturating_add(commits);
        if is_newer {
            self.newer = self.newer.saturating_add(1);
        }
    }
}

// Whether what is left of the devices means what it should: what was durable, or what the entry in flight led to.
fn stands(
    alloc: Global,
    devices: &mut MemDevices,
    run: &Run,
    tally: &mut Tally,
) -> Result<bool, Fail> {
    let durable = run.story.durable;
    let sealed = run.story.sealed;
    let Some(is_newer) = found_on(alloc, devices, durable, sealed).is_newer else {
        return Ok(false);
    };
    let commits = if is_newer {
        sealed.commits
    } else {
        durable.commits
    };
    tally.add(is_newer, commits);
    stands_on_each(alloc, devices, run.shape.mirrors, durable, sealed)
}

// Tries a case: the acts on a fresh volume, of which a call fails.
fn try_case(alloc: Global, acts: &[Act], run: &mut Run, tally: &mut Tally) -> Result<(), Fail> {
    let mut devices = left_behind(alloc, acts, run)?;
    let stands = stands(alloc, &mut devices, run, tally);
    drop(devices);
    if !stands? || !run.is_right {
        tally.other = Some(run.failing);
    }
    Ok(())
}

// Tries all ways in which a call fails.
fn try_ways(
    alloc: Global,
    shape: Shape,
    acts: &[Act],
    seed: u64,
    call: u64,
    tally: &mut Tally,
) -> Result<(), Fail> {
    for (stays, leaves) in WAYS.iter() {
        let failing = Failing {
            call,
            stays: *stays,
            leaves: *leaves,
        };
        let mut run = Run::new(shape, failing, seed);
        try_case(alloc, acts, &mut run, tally)?;
    }
    Ok(())
}

// Tries each of the calls of a run, or one of so many. The call behind the last one isn't made.
fn try_calls(
    alloc: Global,
    shape: Shape,
    acts: &[Act],
    seed: u64,
    every: u64,
    tally: &mut Tally,
) -> Result<(), Fail> {
    let mut run = Run::new(shape, NEVER, seed);
    drop(left_behind(alloc, acts, &mut run)?);
    if !run.is_right {
        tally.other = Some(NEVER);
    }
    tally.calls = tally.calls.saturating_add(run.calls);
    for call in 0..run.calls.saturating_add(1) {
        if every != 0 && call % every == 0 {
            let call = run.before.saturating_add(call);
            try_ways(alloc, shape, acts, seed, call, tally)?;
        }
    }
    Ok(())
}

// Tries the calls of so many runs of the acts, which differ in what is drawn.
fn tried(alloc: Global, shape: Shape, acts: &[Act], runs: u64, every: u64) -> Result<Tally, Fail> {
    let mut tally = Tally {
        calls: 0,
        images: 0,
        newer: 0,
        commits: 0,
        other: None,
    };
    for seed in 0..runs {
        try_calls(alloc, shape, acts, seed, every, &mut tally)?;
    }
    Ok(tally)
}

/// How many lists there are of each shape. Each makes 6 to 33 device calls, and leaves six images for each of them, and for the one behind them.
const LISTS: u64 = 3;

// What is expected was counted by a program in Python, which draws the same lists and keeps which parts of the entry in flight were
// written and flushed on which device: how many calls there are, how many images, on how many of them the entry in flight is found, and
// how many commits on all of them.
static LISTS_LEAVE: [(Shape, Tally); 3] = [
    (
        ONE,
        Tally {
            calls: 28,
            images: 186,
            newer: 50,
            commits: 462,
            other: None,
        },
    ),
    (
        Shape {
            devices: 3,
            mirrors: 2,
        },
        Tally {
            calls: 50,
            images: 318,
            newer: 96,
            commits: 696,
            other: None,
        },
    ),
    (
        Shape {
            devices: 3,
            mirrors: 3,
        },
        Tally {
            calls: 64,
            images: 402,
            newer: 152,
            commits: 828,
            other: None,
        },
    ),
];

// Whether the calls of lists on this shape leave what was counted.
fn lists_leave(alloc: Global, row: usize) -> Result<bool, Fail> {
    match LISTS_LEAVE.get(row) {
        Some((shape, expected)) => Ok(tried(alloc, *shape, &[Act::List], LISTS, 1)? == *expected),
        None => Ok(false),
    }
}

#[test]
fn calls_of_lists_fail_on_one_device(rt: HostRuntime) -> Result<(), Fail> {
    assert!(rt; lists_leave(rt.alloc(), 0)?);
    Ok(())
}

#[test]
fn calls_of_lists_fail_where_two_of_three_devices_keep_metadata(
    rt: HostRuntime,
) -> Result<(), Fail> {
    assert!(rt; lists_leave(rt.alloc(), 1)?);
    Ok(())
}

#[test]
fn calls_of_lists_fail_where_three_devices_keep_metadata(rt: HostRuntime) -> Result<(), Fail> {
    assert!(rt; lists_leave(rt.alloc(), 2)?);
    Ok(())
}

// Three checkpoints, with commits before them and behind their first event: their two leaves take two pairs of buckets in turn. Then the calls
// are counted: those of one checkpoint more, with a commit of which the leaf has nothing, and of one more entry.
static CHECKPOINTS: [Act; 30] = [
    Act::PutAll(0, 1),
    JOURNAL,
    Act::Make(Work::Nodes, 1),
    Act::Put(1, 1),
    JOURNAL,
    NODES,
    JOURNAL,
    Act::PutAll(0, 2),
    JOURNAL,
    Act::Make(Work::Nodes, 1),
    Act::Put(1, 2),
    JOURNAL,
    NODES,
    JOURNAL,
    Act::PutAll(0, 3),
    JOURNAL,
    Act::Make(Work::Nodes, 1),
    Act::Put(1, 3),
    JOURNAL,
    NODES,
    JOURNAL,
    Act::Mark,
    Act::PutAll(2, 10),
    JOURNAL,
    Act::Make(Work::Nodes, 1),
    Act::Put(0, 0),
    NODES,
    JOURNAL,
    Act::Put(3, 11),
    JOURNAL,
];

// What is expected was counted by a program in Python, which lists the device calls of the last checkpoint and keeps which parts of the
// entry in flight were written and flushed on which device. On two devices one of three calls fails. With each of them, which takes three times as long, there are
// 486 images, 36 newer ones, and 3,438 commits.
static CHECKPOINTS_LEAVE: [(Shape, u64, Tally); 2] = [
    (
        ONE,
        1,
        Tally {
            calls: 40,
            images: 246,
            newer: 12,
            commits: 1_740,
            other: None,
        },
    ),
    (
        TWO,
        3,
        Tally {
            calls: 80,
            images: 162,
            newer: 12,
            commits: 1_140,
            other: None,
        },
    ),
];

// Whether the calls of checkpoints on this shape leave what was counted.
fn checkpoints_leave(alloc: Global, row: usize) -> Result<bool, Fail> {
    match CHECKPOINTS_LEAVE.get(row) {
        Some((shape, every, expected)) => {
            Ok(tried(alloc, *shape, &CHECKPOINTS, 1, *every)? == *expected)
        }
        None => Ok(false),
    }
}

#[test]
fn calls_of_checkpoints_fail_on_one_device(rt: HostRuntime) -> Result<(), Fail> {
    assert!(rt; checkpoints_leave(rt.alloc(), 0)?);
    Ok(())
}

#[test]
fn calls_of_checkpoints_fail_on_two_devices(rt: HostRuntime) -> Result<(), Fail> {
    assert!(rt; checkpoints_leave(rt.alloc(), 1)?);
    Ok(())
}
