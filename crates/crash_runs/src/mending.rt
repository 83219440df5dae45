//! Runs that crash before their first line, also while they mend the journal of a mirror that has lost it.

use crate::steps::{ALL_WRITTEN, NONE_WRITTEN, Start, Step, crash_in, other_row, other_step};
use crate::trials::{EMPTY_RUN, Seen, Trial};
use dev_model::Pick;
use std::alloc::{AllocError, Global};
use std::test::Fail;

// Of so many calls that read the volume one fails, the first of them; with 1 each does. So does each call behind them.
const EVERY: u64 = 202;

// How many calls read the volume.
const READING: u64 = 808;

// How many calls there are in all: two entries are mended, the block of each of nine roots is read on both devices, and the third entry is
// written.
const ALL: u64 = READING + 38;

// Two files, which two entries make.
const MAKE: Step = Step::Run(Trial {
    script: b"mkfile main:/a\nsync\nmkfile main:/b\nsync\n",
    status: Some(0),
    ..EMPTY_RUN
});

// Device 0 loses its journal.
const LOSE: Step = Step::Wipe(0, 16, 271);

// A run that makes a third file.
const THIRD: Trial = Trial {
    script: b"mkfile main:/c\n",
    ..EMPTY_RUN
};

// Whether a call is tried.
fn is_tried(call: u64) -> bool {
    call >= READING || call % EVERY == 0
}

const AB: &[u8] = b"@0 1 list a b\nend commits 0 synced 0\n";

const ABC: &[u8] = b"@0 1 list a b c\nend commits 0 synced 0\n";

const SYNCED: &[u8] = b"@0 1 ok\nend commits 1 synced 1\n";

// A run that makes a third file, and prints one of these: it ends before its first line, for device 0 or device 1, or with a sync that
// failed, or well.
static THIRD_FILE: Trial = Trial {
    texts: &[
        b"error 6 device 0\n",
        b"error 6 device 1\n",
        b"@0 1 ok\nend commits 1 synced 0\n",
        SYNCED,
    ],
    ..THIRD
};

// Whether such a run ended as it may.
fn may_end(run: Seen) -> bool {
    match run.text {
        Some(0) | Some(1) => run.status == 6 && run.entries == 0,
        Some(2) => run.status == 6 && run.acks == 0,
        Some(3) => run.status == 0,
        _ => false,
    }
}

// A run that lists two files or three.
static LISTING: Trial = Trial {
    script: b"ls main:/\n",
    status: Some(0),
    texts: &[AB, ABC],
    ..EMPTY_RUN
};

// Whether it lists what it may behind such a run: two files where nothing was acknowledged, and three where a line ran.
fn may_list(run: Seen, next: Seen) -> bool {
    match next.text {
        Some(0) => run.acks == 0,
        Some(1) => run.entries > 0,
        _ => false,
    }
}

// Whether a run one of whose calls fails, alone or with all later ones, ends as it may, and leaves what it may.
fn survives(alloc: Global, call: u64, stays: bool, pick: Pick) -> Result<bool, AllocError> {
    let steps = [MAKE, LOSE, ALL_WRITTEN, Step::Fail { call, stays }];
    match crash_in(alloc, &steps, &THIRD_FILE, pick, &LISTING)? {
        Some((run, next)) => Ok(may_end(run) && may_list(run, next)),
        None => Ok(false),
    }
}

// The first call, of those that are tried, whose failure leaves anything else, where the devices are restarted by this pick.
fn other_call(alloc: Global, pick: Pick) -> Result<Option<u64>, AllocError> {
    for call in 0..ALL {
        if is_tried(call) {
            if !survives(alloc, call, true, pick)? || !survives(alloc, call, false, pick)? {
                return Ok(Some(call));
            }
        }
    }
    Ok(None)
}

#[test]
fn a_crash_loses_nothing_where_all_is_left(rt: HostRuntime) -> Result<(), Fail> {
    assert!(rt; other_call(rt.alloc(), Pick::AllWritten)? == None);
    Ok(())
}

#[test]
fn a_crash_loses_nothing_where_what_was_flushed_is_left(rt: HostRuntime) -> Result<(), Fail> {
    assert!(rt; other_call(rt.alloc(), Pick::NoneWritten)? == None);
    Ok(())
}

#[test]
fn a_crash_loses_nothing_where_blocks_are_torn(rt: HostRuntime) -> Result<(), Fail> {
    assert!(rt; other_call(rt.alloc(), Pick::Torn)? == None);
    Ok(())
}

// A run whose calls all succeed makes so many.
static MENDING: [Step; 4] = [
    MAKE,
    LOSE,
    ALL_WRITTEN,
    Step::Run(Trial {
        printed: Some(SYNCED),
        calls: Some(ALL),
        ..THIRD
    }),
];

#[test]
fn a_run_that_mends_makes_these_calls(rt: HostRuntime) -> Result<(), Fail> {
    assert!(rt; other_step(rt.alloc(), Start::Two, &MENDING)? == None);
    Ok(())
}

// A run that mends, and one that lists both files.
const MEND: Step = Step::Run(Trial {
    status: Some(0),
    ..EMPTY_RUN
});

const LIST: Step = Step::Run(Trial {
    script: b"ls main:/\n",
    status: Some(0),
    printed: Some(AB),
    ..EMPTY_RUN
});

// What one mirror lacked it has again, and it was flushed, so that the other may lose all.
static MENDED: [&[Step]; 2] = [
    &[
        MAKE,
        LOSE,
        ALL_WRITTEN,
        MEND,
        NONE_WRITTEN,
        Step::Wipe(1, 16, 271),
        ALL_WRITTEN,
        LIST,
    ],
    &[
        MAKE,
        Step::Wipe(1, 16, 271),
        ALL_WRITTEN,
        MEND,
        NONE_WRITTEN,
        LOSE,
        ALL_WRITTEN,
        LIST,
    ],
];

#[test]
fn a_run_mends_the_journal(rt: HostRuntime) -> Result<(), Fail> {
    assert!(rt; other_row(rt.alloc(), Start::Two, &MENDED)? == None);
    Ok(())
}
