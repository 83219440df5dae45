//! Sessions that halt, and runs that end before their first line.

use crate::steps::{Start, Step, fails_so, other_step};
use crate::trials::{EMPTY_RUN, Trial};
use crate::volumes::MOUNTING;
use std::alloc::{AllocError, Global};
use std::test::Fail;

// The second sync fails. After it come a name that was there before, one that was made since, a new one, a sync and a
// listing.
const SCRIPT: &[u8] =
    b"mkfile main:/a\nsync\nmkfile main:/b\nsync\nmkfile main:/a\nmkfile main:/b\nmkfile main:/c\nsync\nls main:/\n";

// It fails on device 0.
const HALTED_0: Trial = Trial {
    script: SCRIPT,
    status: Some(6),
    printed: Some(
        b"@0 1 ok\n@0 2 ok 1\n@0 3 ok\n@0 4 err device 0\n@0 5 err exists\n@0 6 err exists\n@0 7 err halted 0\n@0 8 err halted 0\n@0 9 list a b\nend commits 2 synced 1\n",
    ),
    history: Some(b"mks1mksdmememhshl2sh"),
    acks: Some(&[1]),
    ..EMPTY_RUN
};

// It fails on device 1. A device with a failure has its own letters.
const HALTED_1: Trial = Trial {
    printed: Some(
        b"@0 1 ok\n@0 2 ok 1\n@0 3 ok\n@0 4 err device 1\n@0 5 err exists\n@0 6 err exists\n@0 7 err halted 1\n@0 8 err halted 1\n@0 9 list a b\nend commits 2 synced 1\n",
    ),
    history: Some(b"mks1mksDmememHsHl2sH"),
    ..HALTED_0
};

// Whether the run halts so on devices that fail at this call alone, and makes no other after it.
fn halts(
    alloc: Global,
    start: Start,
    call: u64,
    halted: Trial<'static>,
) -> Result<bool, AllocError> {
    let trial = Trial {
        calls: Some(call.saturating_add(1)),
        ..halted
    };
    fails_so(alloc, start, call, &trial)
}

const BEHIND: u64 = 2 * (MOUNTING + 3);

static ON_TWO: [(u64, Trial); 4] = [
    (BEHIND, HALTED_0),
    (BEHIND + 1, HALTED_1),
    (BEHIND + 2, HALTED_0),
    (BEHIND + 3, HALTED_1),
];

// After a sync that failed, at a flush or at its write, the forest still refuses what it would refuse, and lists. All else
// has halted, and no device is called any more. The first sync makes three calls, and the second two on each device.
#[test]
fn a_halted_session_refuses_and_lists(rt: HostRuntime) -> Result<(), Fail> {
    let alloc = rt.alloc();
    for call in MOUNTING + 3..MOUNTING + 5 {
        assert!(rt; halts(alloc, Start::One, call, HALTED_0)?, "at {call}");
    }
    for (call, halted) in ON_TWO.iter() {
        assert!(rt; halts(alloc, Start::Two, *call, *halted)?, "at {call}");
    }
    Ok(())
}

// A run that ends before its first line, for device 0 and for device 1.
const OF_0: Step = Step::Run(Trial {
    script: SCRIPT,
    status: Some(6),
    printed: Some(b"error 6 device 0\n"),
    entries: Some(0),
    ..EMPTY_RUN
});

const OF_1: Step = Step::Run(Trial {
    script: SCRIPT,
    status: Some(6),
    printed: Some(b"error 6 device 1\n"),
    entries: Some(0),
    ..EMPTY_RUN
});

// What `ls main:/` prints on a volume without files.
const NO_FILES: Trial = Trial {
    script: b"ls main:/\n",
    printed: Some(b"@0 1 list\nend commits 0 synced 0\n"),
    ..EMPTY_RUN
};

// Calls 0 to 3 read the superblocks, 4 to 7 the sessions, 8 to 263 the journal of device 0, 264 to 519 that of device 1, and then of each
// root the bucket on device 0 and that on device 1, up to call 807. 808 to 811 write and flush the new session, and 812 and 813 read the entry
// on both. A run whose devices fail there ends, and says which it was. Block 0 of a bucket, which holds a root, is made up by the other
// device; block 1, behind the root, isn't.
static BEFORE_RUNS: [(u64, Step); 24] = [
    (0, OF_0),
    (1, OF_0),
    (2, OF_1),
    (3, OF_1),
    (4, OF_0),
    (5, OF_0),
    (6, OF_1),
    (7, OF_1),
    (8, OF_0),
    (263, OF_0),
    (264, OF_1),
    (519, OF_1),
    (521, OF_0),
    (535, OF_0),
    (537, OF_1),
    (551, OF_1),
    (553, OF_0),
    (807, OF_1),
    (808, OF_0),
    (809, OF_1),
    (810, OF_0),
    (811, OF_1),
    (812, OF_0),
    (813, OF_1),
];

// Whether a run of two devices that fail at this call alone ends so, and the next one goes on.
fn ends_once(alloc: Global, call: u64, end: Step<'static>) -> Result<bool, AllocError> {
    let fail = Step::Fail { call, stays: false };
    let steps = [fail, end, Step::Run(NO_FILES)];
    Ok(other_step(alloc, Start::Two, &steps)?.is_none())
}

#[test]
fn the_device_that_failed_before_a_run_is_told(rt: HostRuntime) -> Result<(), Fail> {
    let alloc = rt.alloc();
    for (call, end) in BEFORE_RUNS.iter() {
        assert!(rt; ends_once(alloc, *call, *end)?, "at {call}");
    }
    Ok(())
}

// The first blocks of the buckets of a root, on device 0 and on device 1.
static ROOTS: [u64; 6] = [520, 536, 552, 568, 776, 792];

static MADE_UP: Trial = Trial {
    status: Some(0),
    ..NO_FILES
};

#[test]
fn a_root_that_one_device_cannot_give_is_read_from_the_other(rt: HostRuntime) -> Result<(), Fail> {
    let alloc = rt.alloc();
    for call in ROOTS.iter() {
        assert!(rt; fails_so(alloc, Start::Two, *call, &MADE_UP)?, "at {call}");
    }
    Ok(())
}
