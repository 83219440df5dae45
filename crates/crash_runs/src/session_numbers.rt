//! The numbers of sessions, in the blocks that keep them.

use crate::steps::{ALL_WRITTEN, NONE_WRITTEN, Start, Step, other_row, other_step};
use crate::trials::{EMPTY_RUN, Trial};
use crate::volumes::FORMAT_ONE;
use std::test::Fail;

// A run of an empty script that mounts.
const MOUNTS: Step = Step::Run(Trial {
    status: Some(0),
    entries: Some(1),
    acks: Some(&[0]),
    ..EMPTY_RUN
});

// A run that is refused.
const NO_ENTRY: Step = Step::Run(Trial {
    status: Some(3),
    printed: Some(b"mount refused 5\n"),
    entries: Some(0),
    acks: Some(&[]),
    ..EMPTY_RUN
});

// A run that makes a file that may be there already.
const RUN: Step = Step::Run(Trial {
    script: b"mkfile main:/a\n",
    status: Some(0),
    ..EMPTY_RUN
});

// Formatting leaves session 1, and each run seals the next one, in block 4 or 5, by turns, with the one before in the other.
static FOUR_RUNS: [Step; 24] = [
    RUN,
    NONE_WRITTEN,
    Step::HasSession(0, 4, Some(2)),
    Step::HasSession(0, 5, Some(1)),
    Step::HasSession(1, 4, Some(2)),
    Step::HasSession(1, 5, Some(1)),
    RUN,
    NONE_WRITTEN,
    Step::HasSession(0, 4, Some(2)),
    Step::HasSession(0, 5, Some(3)),
    Step::HasSession(1, 4, Some(2)),
    Step::HasSession(1, 5, Some(3)),
    RUN,
    NONE_WRITTEN,
    Step::HasSession(0, 4, Some(4)),
    Step::HasSession(0, 5, Some(3)),
    Step::HasSession(1, 4, Some(4)),
    Step::HasSession(1, 5, Some(3)),
    RUN,
    NONE_WRITTEN,
    Step::HasSession(0, 4, Some(4)),
    Step::HasSession(0, 5, Some(5)),
    Step::HasSession(1, 4, Some(4)),
    Step::HasSession(1, 5, Some(5)),
];

#[test]
fn each_run_raises_the_session(rt: HostRuntime) -> Result<(), Fail> {
    assert!(rt; other_step(rt.alloc(), Start::Two, &FOUR_RUNS)? == None);
    Ok(())
}

static LAST_ON_TWO: [&[Step]; 2] = [
    &[Step::PutSession(0, 4_294_967_295), ALL_WRITTEN, NO_ENTRY],
    &[Step::PutSession(1, 4_294_967_295), ALL_WRITTEN, NO_ENTRY],
];

static LAST_ON_ONE: [Step; 7] = [
    Step::PutSession(0, 4_294_967_293),
    ALL_WRITTEN,
    MOUNTS,
    Step::HasSession(0, 4, Some(4_294_967_294)),
    MOUNTS,
    NONE_WRITTEN,
    NO_ENTRY,
];

// After session 4,294,967,295 there is none.
#[test]
fn the_last_session_is_spent(rt: HostRuntime) -> Result<(), Fail> {
    let alloc = rt.alloc();
    assert!(rt; other_row(alloc, Start::Two, &LAST_ON_TWO)? == None);
    assert!(rt; other_step(alloc, Start::One, &LAST_ON_ONE)? == None);
    Ok(())
}

// A volume that is formatted again begins at session 1.
static TWICE: [Step; 6] = [
    RUN,
    NONE_WRITTEN,
    Step::Run(FORMAT_ONE),
    NONE_WRITTEN,
    Step::HasSession(0, 4, None),
    Step::HasSession(0, 5, Some(1)),
];

#[test]
fn a_format_begins_at_the_first_session(rt: HostRuntime) -> Result<(), Fail> {
    assert!(rt; other_step(rt.alloc(), Start::One, &TWICE)? == None);
    Ok(())
}
