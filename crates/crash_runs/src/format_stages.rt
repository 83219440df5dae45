//! Formats that crash, as tables of stages.

use crate::steps::{Start, Step, other_step};
use crate::trials::{EMPTY_RUN, Trial};
use crate::volumes::FORMAT_TWO;
use dev_model::Pick;
use std::alloc::{AllocError, Global};

/// Of so many calls of a stage one is to fail, the first of them, and the last of all; with 1 each call is.
const EVERY: u64 = 60;

/// What two devices hold before they are formatted.
#[derive(Clone, Copy)]
pub enum Before {
    /// Nothing: they have no block.
    Blank,
    /// A volume with the files `a` and `b`.
    Volume,
}

/// What a crash leaves of them.
#[derive(Clone, Copy)]
pub enum Left {
    /// Nothing that mounts.
    Nothing,
    /// The volume that was there before.
    Earlier,
    /// The fresh volume.
    Fresh,
}

/// Some calls of a format, one after the other: how many, the device to which they go, and what is left where it crashes at any
/// of them, by each pick.
#[derive(Clone, Copy)]
pub struct Stage {
    pub calls: u64,
    pub dev: u8,
    pub all: Left,
    pub flushed: Left,
    pub torn: Left,
}

/// One call to device 0, at which nothing is left that mounts.
pub const NOTHING: Stage = Stage {
    calls: 1,
    dev: 0,
    all: Left::Nothing,
    flushed: Left::Nothing,
    torn: Left::Nothing,
};

/// The last step: both superblock copies of device 0 and of device 1 are written, and both devices are flushed. Once each has a
/// copy, flushed or not, the fresh volume may be there.
pub static SEALING: [Stage; 5] = [
    Stage {
        calls: 2,
        ..NOTHING
    },
    Stage { dev: 1, ..NOTHING },
    Stage {
        dev: 1,
        all: Left::Fresh,
        ..NOTHING
    },
    Stage {
        all: Left::Fresh,
        ..NOTHING
    },
    Stage {
        dev: 1,
        all: Left::Fresh,
        ..NOTHING
    },
];

// Makes the files of the earlier volume.
const MAKE: Step = Step::Run(Trial {
    script: b"mkfile main:/a\nmkfile main:/b\n",
    ..EMPTY_RUN
});

// Whether these steps over two devices all find what they must: one at which the devices fail, a format, a restart, and a run.
fn are_taken(
    alloc: Global,
    before: Before,
    fail: Step<'static>,
    format: Step<'static>,
    restart: Step<'static>,
    run: Step<'static>,
) -> Result<bool, AllocError> {
    let other = match before {
        Before::Blank => {
            let steps = [fail, format, restart, run];
            other_step(alloc, Start::Blank, &steps)?
        }
        Before::Volume => {
            let steps = [MAKE, fail, format, restart, run];
            other_step(alloc, Start::Two, &steps)?
        }
    };
    Ok(other.is_none())
}

fn left_by(stage: &Stage, pick: Pick) -> Left {
    match pick {
        Pick::AllWritten => stage.all,
        Pick::NoneWritten => stage.flushed,
        Pick::Torn => stage.torn,
    }
}

// A run that lists the names of what is left.
const NOTHING_LISTED: Step = Step::Run(Trial {
    script: b"ls main:/\n",
    status: Some(3),
    printed: Some(b"mount refused 1\n"),
    ..EMPTY_RUN
});

const EARLIER_LISTED: Step = Step::Run(Trial {
    script: b"ls main:/\n",
    status: Some(0),
    printed: Some(b"@0 1 list a b\nend commits 0 synced 0\n"),
    ..EMPTY_RUN
});

const FRESH_LISTED: Step = Step::Run(Trial {
    script: b"ls main:/\n",
    status: Some(0),
    printed: Some(b"@0 1 list\nend commits 0 synced 0\n"),
    ..EMPTY_RUN
});

fn listing_of(left: Left) -> Step<'static> {
    match left {
        Left::Nothing => NOTHING_LISTED,
        Left::Earlier => EARLIER_LISTED,
        Left::Fresh => FRESH_LISTED,
    }
}

// A format that ends for a device.
const FAILS_0: Step = Step::Run(Trial {
    status: Some(6),
    printed: Some(b"error 6 device 0\n"),
    ..FORMAT_TWO
});

const FAILS_1: Step = Step::Run(Trial {
    status: Some(6),
    printed: Some(b"error 6 device 1\n"),
    ..FORMAT_TWO
});

fn failing(dev: u8) -> Step<'static> {
    if dev == 0 { FAILS_0 } else { FAILS_1 }
}

// Whether a format whose devices fail at this call, alone or with all later ones, ends for the device of the stage, and leaves
// what the stage says.
fn crashes_so(
    alloc: Global,
    before: Before,
    stage: &Stage,
    call: u64,
    stays: bool,
    pick: Pick,
) -> Result<bool, AllocError> {
    let fail = Step::Fail { call, stays };
    let listing = listing_of(left_by(stage, pick));
    let format = failing(stage.dev);
    are_taken(alloc, before, fail, format, Step::Restart(pick), listing)
}

// Whether this call of a stage of so many is tried.
fn is_tried(number: u64, calls: u64) -> bool {
    number % EVERY == 0 || number.saturating_add(1) == calls
}

// The first call of a stage, of those that are tried, at which a format doesn't crash as it says. Its calls begin with this one.
fn other_of_stage(
    alloc: Global,
    before: Before,
    stage: &Stage,
    first: u64,
    stays: bool,
    pick: Pick,
) -> Result<Option<u64>, AllocError> {
    for number in 0..stage.calls {
        if is_tried(number, stage.calls) {
            let call = first.saturating_add(number);
            if !crashes_so(alloc, before, stage, call, stays, pick)? {
                return Ok(Some(call));
            }
        }
    }
    Ok(None)
}

/// The first call, of those that are tried, at which a format doesn't crash as these stages say, one after the other, and then those that
/// seal the superblocks.
pub fn other_call(
    alloc: Global,
    before: Before,
    stages: &[Stage],
    stays: bool,
    pick: Pick,
) -> Result<Option<u64>, AllocError> {
    let mut first = 0u64;
    for part in [stages, SEALING.as_slice()] {
        for stage in part {
            let other = other_of_stage(alloc, before, stage, first, stays, pick)?;
            if other.is_some() {
                return Ok(other);
            }
            first = first.saturating_add(stage.calls);
        }
    }
    Ok(None)
}

// How many calls the stages and those that seal the superblocks have.
fn calls_of(stages: &[Stage]) -> u64 {
    let mut calls = 0u64;
    for part in [stages, SEALING.as_slice()] {
        for stage in part {
            calls = calls.saturating_add(stage.calls);
        }
    }
    calls
}

/// Whether a format makes no call after these stages: where that one would fail it succeeds, and the fresh volume is left by
/// this pick.
pub fn ends_after(
    alloc: Global,
    before: Before,
    stages: &[Stage],
    pick: Pick,
) -> Result<bool, AllocError> {
    let fail = Step::Fail {
        call: calls_of(stages),
        stays: true,
    };
    let format = Step::Run(FORMAT_TWO);
    are_taken(
        alloc,
        before,
        fail,
        format,
        Step::Restart(pick),
        FRESH_LISTED,
    )
}
