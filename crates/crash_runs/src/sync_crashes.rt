//! Runs that crash at each call behind mounting, as tables of calls.

use crate::steps::{ALL_WRITTEN, Start, Step, other_step};
use crate::trials::{EMPTY_RUN, Trial};
use crate::volumes::MOUNTING;
use dev_model::Pick;
use std::alloc::{AllocError, Global};
use std::test::Fail;

// How a run ends that crashes at one of some calls of its devices, counted from the first behind mounting, and what the next run prints
// for `ls main:/` on what is left of them.
#[derive(Clone, Copy)]
struct Crash {
    calls: &'static [u64],
    status: u8,
    lines: &'static [u8],
    // The history, as two letters for each entry.
    entries: &'static [u8],
    acks: &'static [u64],
    // Where all that was written is left.
    all: &'static [u8],
    // Where nothing is left that wasn't flushed, or such blocks are torn.
    flushed: &'static [u8],
}

const NONE: &[u8] = b"@0 1 list\nend commits 0 synced 0\n";

const A: &[u8] = b"@0 1 list a\nend commits 0 synced 0\n";

const AB: &[u8] = b"@0 1 list a b\nend commits 0 synced 0\n";

const ABC: &[u8] = b"@0 1 list a b c\nend commits 0 synced 0\n";

const ABCD: &[u8] = b"@0 1 list a b c d\nend commits 0 synced 0\n";

// The run of a script that ends with a crash.
fn crashing(script: &'static [u8], crash: &Crash) -> Step<'static> {
    Step::Run(Trial {
        script,
        status: Some(crash.status),
        printed: Some(crash.lines),
        history: Some(crash.entries),
        acks: Some(crash.acks),
        ..EMPTY_RUN
    })
}

// A run that finds these names.
fn finding(names: &'static [u8]) -> Step<'static> {
    Step::Run(Trial {
        script: b"ls main:/\n",
        status: Some(0),
        printed: Some(names),
        entries: Some(2),
        acks: Some(&[0]),
        ..EMPTY_RUN
    })
}

// The names that the next run finds where a crash leaves what the pick says.
fn names_left(crash: &Crash, pick: Pick) -> &'static [u8] {
    match pick {
        Pick::AllWritten => crash.all,
        Pick::NoneWritten | Pick::Torn => crash.flushed,
    }
}

// A script, on how many devices it runs, and how many calls these get before its first line.
#[derive(Clone, Copy)]
struct Script {
    text: &'static [u8],
    devices: Start,
    mounting: u64,
}

// Whether the run of a script whose devices fail at this call behind mounting, alone or with all later ones, ends as it should, and the
// next one finds what it should on what is left of them.
fn crashes_so(
    alloc: Global,
    script: &Script,
    crash: &Crash,
    call: u64,
    stays: bool,
    pick: Pick,
) -> Result<bool, AllocError> {
    let call = script.mounting.saturating_add(call);
    let steps = [
        Step::Fail { call, stays },
        crashing(script.text, crash),
        Step::Restart(pick),
        finding(names_left(crash, pick)),
    ];
    Ok(other_step(alloc, script.devices, &steps)?.is_none())
}

// The first call of a crash at which the run of the script doesn't end so.
fn other_call(
    alloc: Global,
    script: &Script,
    crash: &Crash,
    pick: Pick,
) -> Result<Option<u64>, AllocError> {
    for call in crash.calls {
        if !crashes_so(alloc, script, crash, *call, true, pick)?
            || !crashes_so(alloc, script, crash, *call, false, pick)?
        {
            return Ok(Some(*call));
        }
    }
    Ok(None)
}

// The first call of these crashes at which the run of the script doesn't end so.
fn other_crash(
    alloc: Global,
    script: &Script,
    crashes: &[Crash],
    pick: Pick,
) -> Result<Option<u64>, AllocError> {
    for crash in crashes {
        let other = other_call(alloc, script, crash, pick)?;
        if other.is_some() {
            return Ok(other);
        }
    }
    Ok(None)
}

// The first pick, and the first call, at which the run of the script doesn't end so.
fn other_pick(
    alloc: Global,
    script: &Script,
    crashes: &[Crash],
) -> Result<Option<(Pick, u64)>, AllocError> {
    for pick in PICKS.iter() {
        if let Some(call) = other_crash(alloc, script, crashes, *pick)? {
            return Ok(Some((*pick, call)));
        }
    }
    Ok(None)
}

// The picks by which a crash may leave the devices.
static PICKS: [Pick; 3] = [Pick::AllWritten, Pick::NoneWritten, Pick::Torn];

// Three files, a sync and a fourth file.
static FILES: Script = Script {
    text: b"mkfile main:/a\nmkfile main:/b\nmkfile main:/c\nsync\nmkfile main:/d\n",
    devices: Start::Two,
    mounting: 2 * MOUNTING,
};

// The sync of the script failed on device 0.
const AT_SYNC: Crash = Crash {
    calls: &[],
    status: 6,
    lines: b"@0 1 ok\n@0 2 ok\n@0 3 ok\n@0 4 err device 0\n@0 5 err halted 0\nend commits 3 synced 0\n",
    entries: b"mkmkmksdmhsh",
    acks: &[],
    all: NONE,
    flushed: NONE,
};

// It failed on device 1.
const AT_SYNC_OF_1: Crash = Crash {
    lines: b"@0 1 ok\n@0 2 ok\n@0 3 ok\n@0 4 err device 1\n@0 5 err halted 1\nend commits 3 synced 0\n",
    entries: b"mkmkmksDmHsH",
    ..AT_SYNC
};

// The last sync failed on device 0.
const AT_END: Crash = Crash {
    lines: b"@0 1 ok\n@0 2 ok\n@0 3 ok\n@0 4 ok 3\n@0 5 ok\nend commits 4 synced 3\n",
    entries: b"mkmkmks3mksd",
    acks: &[3],
    all: ABC,
    flushed: ABC,
    ..AT_SYNC
};

// It failed on device 1.
const AT_END_OF_1: Crash = Crash {
    entries: b"mkmkmks3mksD",
    ..AT_END
};

// Nothing failed.
const NO_CRASH: Crash = Crash {
    status: 0,
    lines: b"@0 1 ok\n@0 2 ok\n@0 3 ok\n@0 4 ok 3\n@0 5 ok\nend commits 4 synced 4\n",
    entries: b"mkmkmks3mks4",
    acks: &[3, 4],
    all: ABCD,
    flushed: ABCD,
    ..AT_SYNC
};

// On two devices both are flushed first, calls 0 and 1. Then the entry of the sync is written on both, and both are flushed, and so it goes with
// that of the last sync. An entry is found where one of them has it, and with it all its commits. So call 10 isn't made.
static FILES_ON_TWO: [Crash; 10] = [
    Crash {
        calls: &[0, 2],
        ..AT_SYNC
    },
    Crash {
        calls: &[1],
        ..AT_SYNC_OF_1
    },
    Crash {
        calls: &[3],
        all: ABC,
        ..AT_SYNC_OF_1
    },
    Crash {
        calls: &[4],
        all: ABC,
        ..AT_SYNC
    },
    Crash {
        calls: &[5],
        all: ABC,
        flushed: ABC,
        ..AT_SYNC_OF_1
    },
    Crash {
        calls: &[6],
        ..AT_END
    },
    Crash {
        calls: &[7],
        all: ABCD,
        ..AT_END_OF_1
    },
    Crash {
        calls: &[8],
        all: ABCD,
        ..AT_END
    },
    Crash {
        calls: &[9],
        all: ABCD,
        flushed: ABCD,
        ..AT_END_OF_1
    },
    Crash {
        calls: &[10],
        ..NO_CRASH
    },
];

#[test]
fn a_crash_of_two_devices_leaves_what_was_acknowledged(rt: HostRuntime) -> Result<(), Fail> {
    assert!(rt; other_pick(rt.alloc(), &FILES, &FILES_ON_TWO)? == None);
    Ok(())
}

// What a run may find, once nothing, the first sync or the last one was acknowledged.
static FROM_NONE: [&[u8]; 3] = [NONE, ABC, ABCD];

static FROM_FIRST: [&[u8]; 2] = [ABC, ABCD];

static FROM_LAST: [&[u8]; 1] = [ABCD];

fn names_from(crash: &Crash) -> &'static [&'static [u8]] {
    match crash.acks.len() {
        0 => &FROM_NONE,
        1 => &FROM_FIRST,
        _ => &FROM_LAST,
    }
}

// A run that finds the names of one of these texts.
fn finding_one_of(texts: &'static [&'static [u8]]) -> Step<'static> {
    Step::Run(Trial {
        script: b"ls main:/\n",
        status: Some(0),
        texts,
        entries: Some(2),
        acks: Some(&[0]),
        ..EMPTY_RUN
    })
}

// Whether what was acknowledged is found where, behind the crash, this device loses its journal and its nodes.
fn stands_without(
    alloc: Global,
    crash: &Crash,
    call: u64,
    pick: Pick,
    lost: u8,
) -> Result<bool, AllocError> {
    let call = FILES.mounting.saturating_add(call);
    let steps = [
        Step::Fail { call, stays: true },
        crashing(FILES.text, crash),
        Step::Restart(pick),
        Step::Wipe(lost, 16, 1023),
        ALL_WRITTEN,
        finding_one_of(names_from(crash)),
    ];
    Ok(other_step(alloc, FILES.devices, &steps)?.is_none())
}

// The first call of the crash at which it isn't.
fn other_call_without(
    alloc: Global,
    crash: &Crash,
    pick: Pick,
    lost: u8,
) -> Result<Option<u64>, AllocError> {
    for call in crash.calls {
        if !stands_without(alloc, crash, *call, pick, lost)? {
            return Ok(Some(*call));
        }
    }
    Ok(None)
}

// The first call of all at which it isn't.
fn other_without(alloc: Global, pick: Pick, lost: u8) -> Result<Option<u64>, AllocError> {
    for crash in FILES_ON_TWO.iter() {
        let other = other_call_without(alloc, crash, pick, lost)?;
        if other.is_some() {
            return Ok(other);
        }
    }
    Ok(None)
}

// The first pick, and the first call, at which it isn't.
fn other_pick_without(alloc: Global, lost: u8) -> Result<Option<(Pick, u64)>, AllocError> {
    for pick in PICKS.iter() {
        if let Some(call) = other_without(alloc, *pick, lost)? {
            return Ok(Some((*pick, call)));
        }
    }
    Ok(None)
}

#[test]
fn what_was_acknowledged_stands_on_the_first_device_alone(rt: HostRuntime) -> Result<(), Fail> {
    assert!(rt; other_pick_without(rt.alloc(), 1)? == None);
    Ok(())
}

#[test]
fn what_was_acknowledged_stands_on_the_second_device_alone(rt: HostRuntime) -> Result<(), Fail> {
    assert!(rt; other_pick_without(rt.alloc(), 0)? == None);
    Ok(())
}

// A file, a sync, another file and a listing.
static TWO_FILES: Script = Script {
    text: b"mkfile main:/a\nsync\nmkfile main:/b\nls main:/\n",
    devices: Start::One,
    mounting: MOUNTING,
};

// The sync of the script failed.
const AT_FIRST: Crash = Crash {
    lines: b"@0 1 ok\n@0 2 err device 0\n@0 3 err halted 0\n@0 4 list a\nend commits 1 synced 0\n",
    entries: b"mksdmhl1sh",
    ..AT_SYNC
};

// The last sync failed.
const AT_LAST: Crash = Crash {
    lines: b"@0 1 ok\n@0 2 ok 1\n@0 3 ok\n@0 4 list a b\nend commits 2 synced 1\n",
    entries: b"mks1mkl2sd",
    acks: &[1],
    all: A,
    flushed: A,
    ..AT_SYNC
};

static TWO_FILES_ON_ONE: [Crash; 5] = [
    Crash {
        calls: &[0, 1],
        ..AT_FIRST
    },
    Crash {
        calls: &[2],
        all: A,
        ..AT_FIRST
    },
    Crash {
        calls: &[3],
        ..AT_LAST
    },
    Crash {
        calls: &[4],
        all: AB,
        ..AT_LAST
    },
    Crash {
        calls: &[5],
        status: 0,
        lines: b"@0 1 ok\n@0 2 ok 1\n@0 3 ok\n@0 4 list a b\nend commits 2 synced 2\n",
        entries: b"mks1mkl2s2",
        acks: &[1, 2],
        all: AB,
        flushed: AB,
    },
];

#[test]
fn a_sync_whose_flush_fails_halts_the_session(rt: HostRuntime) -> Result<(), Fail> {
    assert!(rt; other_pick(rt.alloc(), &TWO_FILES, &TWO_FILES_ON_ONE)? == None);
    Ok(())
}
