//! Runs and infos of which a call of the devices, the source or the sink fails.

use crate::steps::{Start, Step, fails_so, other_row, other_step};
use crate::trials::{EMPTY_RUN, Trial};
use crate::volumes::MOUNTING;
use std::test::Fail;

// How many calls there are where none fails: before the entry the device is flushed, it is written, and flushed.
const ALL: u64 = MOUNTING + 3;

// A run that makes a file, over a volume without files. No commit is acknowledged but where all calls succeed.
const MAKE: Trial = Trial {
    script: b"mkfile main:/a\n",
    acks: Some(&[]),
    ..EMPTY_RUN
};

// It goes on where the sink fails: the volume is mounted, and the entry is written and flushed.
const UNHEARD: Trial = Trial {
    status: Some(5),
    entries: Some(2),
    acks: Some(&[1]),
    calls: Some(ALL),
    ..MAKE
};

static FAILING_SINKS: [&[Step]; 2] = [
    &[Step::Run(Trial {
        failing_gives: &[0],
        printed: Some(b""),
        ..UNHEARD
    })],
    &[Step::Run(Trial {
        failing_gives: &[1],
        printed: Some(b"@0 1 ok\n"),
        ..UNHEARD
    })],
];

#[test]
fn a_sink_that_fails_stops_no_run(rt: HostRuntime) -> Result<(), Fail> {
    assert!(rt; other_row(rt.alloc(), Start::One, &FAILING_SINKS)? == None);
    Ok(())
}

// The calls before the first line, but for the block of each root that is read once more: superblocks, sessions, the journal from call 4 on,
// nine roots from call 260 on, the next session, and the entry. All 16 blocks of a root are read before it is judged.
static EARLY: [(u64, u64); 14] = [
    (0, 1),
    (1, 2),
    (2, 3),
    (3, 4),
    (4, 5),
    (100, 101),
    (259, 260),
    (260, 276),
    (275, 276),
    (276, 292),
    (403, 404),
    (404, 405),
    (405, 406),
    (406, 407),
];

const UNMOUNTED: Trial = Trial {
    status: Some(6),
    entries: Some(0),
    printed: Some(b"error 6 device 0\n"),
    ..MAKE
};

const UNSYNCED: Trial = Trial {
    status: Some(6),
    entries: Some(2),
    printed: Some(b"@0 1 ok\nend commits 1 synced 0\n"),
    ..MAKE
};

// The same after so many calls.
fn after(calls: u64, trial: Trial<'static>) -> Trial<'static> {
    Trial {
        calls: Some(calls),
        ..trial
    }
}

// Behind the early calls come the three of the entry.
#[test]
fn a_device_that_fails_is_told(rt: HostRuntime) -> Result<(), Fail> {
    let alloc = rt.alloc();
    for (call, calls) in EARLY.iter() {
        let trial = after(*calls, UNMOUNTED);
        assert!(rt; fails_so(alloc, Start::One, *call, &trial)?, "at {call}");
    }
    for call in MOUNTING..ALL {
        let trial = after(call.saturating_add(1), UNSYNCED);
        assert!(rt; fails_so(alloc, Start::One, call, &trial)?, "at {call}");
    }
    Ok(())
}

// A sink that fails gives the status 5, whatever failed before it. Of a source and a device that are to fail, the source
// comes first, and no device is called.
static SEVERAL: [&[Step]; 5] = [
    &[
        Step::Fail {
            call: 0,
            stays: false,
        },
        Step::Run(Trial {
            failing_takes: &[1],
            status: Some(4),
            entries: Some(0),
            calls: Some(0),
            printed: Some(b"error 4 source\n"),
            ..MAKE
        }),
    ],
    &[Step::Run(Trial {
        failing_takes: &[0],
        failing_gives: &[0],
        status: Some(5),
        entries: Some(0),
        calls: Some(0),
        printed: Some(b""),
        ..MAKE
    })],
    &[
        Step::Fail {
            call: 0,
            stays: false,
        },
        Step::Run(Trial {
            failing_gives: &[0],
            status: Some(5),
            entries: Some(0),
            calls: Some(1),
            printed: Some(b""),
            ..MAKE
        }),
    ],
    &[
        Step::Fail {
            call: MOUNTING + 1,
            stays: false,
        },
        Step::Run(Trial {
            failing_gives: &[0],
            status: Some(5),
            entries: Some(2),
            calls: Some(MOUNTING + 2),
            printed: Some(b""),
            ..MAKE
        }),
    ],
    &[
        Step::Fail {
            call: MOUNTING + 2,
            stays: false,
        },
        Step::Run(Trial {
            failing_gives: &[1],
            status: Some(5),
            entries: Some(2),
            calls: Some(MOUNTING + 3),
            printed: Some(b"@0 1 ok\n"),
            ..MAKE
        }),
    ],
];

#[test]
fn of_several_failures_the_sink_gives_the_status(rt: HostRuntime) -> Result<(), Fail> {
    assert!(rt; other_row(rt.alloc(), Start::One, &SEVERAL)? == None);
    Ok(())
}

// All calls of the device fail.
const FAIL: Step = Step::Fail {
    call: 0,
    stays: true,
};

// A run that ends before its first line, and calls no device.
const UNTOUCHED: Trial = Trial {
    entries: Some(0),
    acks: Some(&[]),
    calls: Some(0),
    ..EMPTY_RUN
};

static CAUSES: [&[Step]; 4] = [
    &[
        FAIL,
        Step::Run(Trial {
            arguments: &["x"],
            script: b"x\n",
            failing_takes: &[0],
            status: Some(1),
            printed: Some(b"error 1 usage\n"),
            takes: Some(0),
            ..UNTOUCHED
        }),
    ],
    &[
        FAIL,
        Step::Run(Trial {
            script: b"x\n",
            failing_takes: &[0],
            status: Some(4),
            printed: Some(b"error 4 source\n"),
            ..UNTOUCHED
        }),
    ],
    &[
        FAIL,
        Step::Run(Trial {
            script: b"x\n",
            status: Some(2),
            printed: Some(b"error 2 line 1 bad-verb\n"),
            ..UNTOUCHED
        }),
    ],
    &[
        FAIL,
        Step::Run(Trial {
            script: b"sync\n",
            status: Some(6),
            printed: Some(b"error 6 device 0\n"),
            calls: Some(1),
            ..UNTOUCHED
        }),
    ],
];

// The arguments are looked at before the source, the source before what it gives, and that before the device.
#[test]
fn the_first_cause_is_told(rt: HostRuntime) -> Result<(), Fail> {
    assert!(rt; other_row(rt.alloc(), Start::One, &CAUSES)? == None);
    Ok(())
}

// A call of `info`, without a history. The source would fail, and isn't asked.
const INFO: Trial = Trial {
    arguments: &["info"],
    failing_takes: &[0],
    entries: Some(0),
    acks: Some(&[]),
    takes: Some(0),
    ..EMPTY_RUN
};

// It reads 2 superblock copies, 2 sessions, 256 blocks of the journal and 16 of each of nine roots, and makes no other call.
static INFORMED: [Step; 1] = [Step::Run(Trial {
    status: Some(0),
    calls: Some(404),
    ..INFO
})];

static FAILED_INFO: Trial = Trial {
    status: Some(6),
    printed: Some(b"error 6 device 0\n"),
    ..INFO
};

// The first call, one of a session, one of the journal, and the last one, of a node.
static INFO_CALLS: [u64; 4] = [0, 3, 259, 403];

#[test]
fn a_device_that_fails_an_info_is_told(rt: HostRuntime) -> Result<(), Fail> {
    let alloc = rt.alloc();
    assert!(rt; other_step(alloc, Start::One, &INFORMED)? == None);
    for call in INFO_CALLS.iter() {
        assert!(rt;
            fails_so(alloc, Start::One, *call, &FAILED_INFO)?,
            "at {call}"
        );
    }
    Ok(())
}

// A call whose output takes no more than 7 bytes at once, and fails.
const UNHEARD_INFO: Trial = Trial {
    most_given: 7,
    status: Some(5),
    ..INFO
};

static FAILED_OUTPUTS: [&[Step]; 2] = [
    &[Step::Run(Trial {
        failing_gives: &[0],
        printed: Some(b""),
        ..UNHEARD_INFO
    })],
    &[Step::Run(Trial {
        failing_gives: &[1],
        printed: Some(b"volume "),
        ..UNHEARD_INFO
    })],
];

// Where the output fails at once nothing is printed, and where it fails later the first bytes are.
#[test]
fn a_failed_output_of_an_info_is_status_5(rt: HostRuntime) -> Result<(), Fail> {
    assert!(rt; other_row(rt.alloc(), Start::One, &FAILED_OUTPUTS)? == None);
    Ok(())
}
