use crate::steps::{Start, Step, other_step};
use crate::trials::{EMPTY_RUN, Trial};
use std::alloc::{AllocError, Global};
use std::test::Fail;

// A run of a script of 30 bytes whose source fails: no line of the script runs, those that were read neither.
const STOPPED: Trial = Trial {
    script: b"mkfile main:/a\nsync\nls main:/\n",
    status: Some(4),
    printed: Some(b"error 4 source\n"),
    entries: Some(0),
    acks: Some(&[]),
    calls: Some(0),
    ..EMPTY_RUN
};

// Whether the run stops at this call of the source, which fails, where none gives more than so many bytes.
fn stops_at(alloc: Global, most: usize, call: u64) -> Result<bool, AllocError> {
    let trial = Trial {
        failing_takes: &[call],
        most_taken: most,
        takes: Some(call.saturating_add(1)),
        ..STOPPED
    };
    Ok(other_step(alloc, Start::One, &[Step::Run(trial)])?.is_none())
}

// The first piece, one within a line, one that ends with a line, the last piece, and the call that would say that the
// source ends.
#[test]
fn a_source_that_fails_between_pieces_stops_the_run(rt: HostRuntime) -> Result<(), Fail> {
    let alloc = rt.alloc();
    for call in 0..31u64 {
        assert!(rt; stops_at(alloc, 1, call)?, "at {call}");
    }
    for call in 0..6u64 {
        assert!(rt; stops_at(alloc, 7, call)?, "at {call}");
    }
    for call in 0..3u64 {
        assert!(rt; stops_at(alloc, 15, call)?, "at {call}");
        assert!(rt; stops_at(alloc, 20, call)?, "at {call}");
    }
    Ok(())
}
