//! A script with each operation that changes names, a sync and an fsync, that crashes at each call behind mounting.

use crate::steps::{Start, Step, other_step};
use crate::trials::{EMPTY_RUN, Trial};
use crate::volumes::MOUNTING;
use dev_model::Pick;
use std::alloc::{AllocError, Global};
use std::test::Fail;

// What a line is answered.
#[derive(Clone, Copy)]
enum Answer {
    Says(&'static str),
    // A call of the device fails now, or has failed before.
    Fails,
    Halts,
}

use Answer::{Fails, Halts, Says};

// A line of the script, and what it is answered where the first sync fails, where the second one does, and where the final one does.
type Line = (&'static str, Answer, Answer, Answer);

const OK: Answer = Says("ok");

const NOT_FOUND: Answer = Says("err not-found");

// The directory `d` is moved to `g`, and another one made in its place; its file has two names, one of which goes and one moves.
static LINES: [Line; 15] = [
    ("mkdir main:/d", OK, OK, OK),
    ("mkdir main:/d/e", OK, OK, OK),
    ("mkfile main:/a", OK, OK, OK),
    ("link main:/a main:/d/b", OK, OK, OK),
    ("sync", Fails, Says("ok 4"), Says("ok 4")),
    ("rename main:/d main:/g", Halts, OK, OK),
    ("unlink main:/a", Halts, OK, OK),
    ("mkfile main:/g/c", NOT_FOUND, OK, OK),
    ("rmdir main:/g/e", NOT_FOUND, OK, OK),
    ("ls main:/g", NOT_FOUND, Says("list b c"), Says("list b c")),
    ("fsync main:/g/b", NOT_FOUND, Fails, Says("ok 8")),
    ("rename main:/g/b main:/b", NOT_FOUND, Halts, OK),
    ("unlink main:/g/c", NOT_FOUND, Halts, OK),
    ("mkdir main:/d", Says("err exists"), Halts, OK),
    ("stat main:/b", NOT_FOUND, NOT_FOUND, Says("file 4 0 1")),
];

// What the next run does.
const LOOKING: &[u8] =
    b"ls main:/\nls main:/d\nls main:/g\nstat main:/a\nstat main:/g/b\nstat main:/d\nstat main:/b\nmkfile main:/z\nstat main:/z\n";

// What it prints where 0, 4, 8 and 11 commits are left. The numbers from 2 on are those of d, e, a, g/c and the second d.
const NONE: &[u8] =
    b"@0 1 list\n@0 2 err not-found\n@0 3 err not-found\n@0 4 err not-found\n@0 5 err not-found\n@0 6 err not-found\n@0 7 err not-found\n@0 8 ok\n@0 9 file 2 0 1\nend commits 1 synced 1\n";

const FOUR: &[u8] =
    b"@0 1 list a d/\n@0 2 list b e/\n@0 3 err not-found\n@0 4 file 4 0 2\n@0 5 err not-found\n@0 6 dir 2 2\n@0 7 err not-found\n@0 8 ok\n@0 9 file 5 0 1\nend commits 1 synced 1\n";

const EIGHT: &[u8] =
    b"@0 1 list g/\n@0 2 err not-found\n@0 3 list b c\n@0 4 err not-found\n@0 5 file 4 0 1\n@0 6 err not-found\n@0 7 err not-found\n@0 8 ok\n@0 9 file 6 0 1\nend commits 1 synced 1\n";

const ELEVEN: &[u8] =
    b"@0 1 list b d/ g/\n@0 2 list\n@0 3 list\n@0 4 err not-found\n@0 5 err not-found\n@0 6 dir 6 0\n@0 7 file 4 0 1\n@0 8 ok\n@0 9 file 7 0 1\nend commits 1 synced 1\n";

// The syncs.
#[derive(Clone, Copy)]
enum Which {
    First,
    Second,
    Last,
}

// A sync that fails: how many calls it makes, to device 0 and device 1 by turns, how many commits there are then, what was acknowledged before, and
// what is found without it and with it.
#[derive(Clone, Copy)]
struct Sync {
    which: Which,
    calls: u64,
    commits: u64,
    synced: u64,
    acks: &'static [u64],
    before: &'static [u8],
    after: &'static [u8],
}

// Before the first entry both devices are flushed; each entry is written on both, and both are flushed.
static SYNCS: [Sync; 3] = [
    Sync {
        which: Which::First,
        calls: 6,
        commits: 4,
        synced: 0,
        acks: &[],
        before: NONE,
        after: FOUR,
    },
    Sync {
        which: Which::Second,
        calls: 4,
        commits: 8,
        synced: 4,
        acks: &[4],
        before: FOUR,
        after: EIGHT,
    },
    Sync {
        which: Which::Last,
        calls: 4,
        commits: 11,
        synced: 8,
        acks: &[4, 8],
        before: EIGHT,
        after: ELEVEN,
    },
];

fn answer_of(line: Line, which: Which) -> Answer {
    let (_, first, second, last) = line;
    match which {
        Which::First => first,
        Which::Second => second,
        Which::Last => last,
    }
}

fn push_answer(lines: &mut String, answer: Answer, dev: u64) -> Result<(), AllocError> {
    match answer {
        Says(text) => lines.push_str(text)?,
        Fails => write!(lines, "err device {dev}")?,
        Halts => write!(lines, "err halted {dev}")?,
    }
    Ok(())
}

// Adds what the run prints of which this sync fails, on this device.
fn push_answers(lines: &mut String, sync: Sync, dev: u64) -> Result<(), AllocError> {
    let mut number = 0u32;
    for line in LINES.iter() {
        number = number.saturating_add(1);
        write!(lines, "@0 {number} ")?;
        push_answer(lines, answer_of(*line, sync.which), dev)?;
        lines.push_str("\n")?;
    }
    let commits = sync.commits;
    let synced = sync.synced;
    write!(lines, "end commits {commits} synced {synced}\n")?;
    Ok(())
}

fn push_script(script: &mut String) -> Result<(), AllocError> {
    for (text, _, _, _) in LINES.iter() {
        script.push_str(text)?;
        script.push_str("\n")?;
    }
    Ok(())
}

// The run of the script, of which this sync fails.
fn run_of<'a>(script: &'a str, printed: &'a str, sync: Sync) -> Trial<'a> {
    Trial {
        script: script.as_bytes(),
        status: Some(6),
        printed: Some(printed.as_bytes()),
        acks: Some(sync.acks),
        ..EMPTY_RUN
    }
}

// The next run, which prints this.
fn next_of(found: &'static [u8]) -> Trial<'static> {
    Trial {
        script: LOOKING,
        status: Some(0),
        printed: Some(found),
        acks: Some(&[1]),
        ..EMPTY_RUN
    }
}

// Whether a run whose devices fail at this call, alone or with all later ones, ends so, and the next one on what is left of them does.
fn ends_so<'a>(
    alloc: Global,
    run: &Trial<'a>,
    call: u64,
    stays: bool,
    pick: Pick,
    next: &Trial<'a>,
) -> Result<bool, AllocError> {
    let steps = [
        Step::Fail { call, stays },
        Step::Run(*run),
        Step::Restart(pick),
        Step::Run(*next),
    ];
    Ok(other_step(alloc, Start::Two, &steps)?.is_none())
}

// A call of a sync, by the number of it in the run and in the sync. The last call of a sync is the one behind which its entry is flushed on a
// device.
#[derive(Clone, Copy)]
struct Failure {
    call: u64,
    part: u64,
}

// What is found where nothing is left that wasn't flushed, or such blocks are torn.
fn found_after(sync: Sync, failure: Failure) -> &'static [u8] {
    if failure.part.saturating_add(1) == sync.calls {
        sync.after
    } else {
        sync.before
    }
}

fn leaves(
    alloc: Global,
    script: &str,
    printed: &mut String,
    sync: Sync,
    failure: Failure,
    pick: Pick,
) -> Result<bool, AllocError> {
    push_answers(printed, sync, failure.part % 2)?;
    let run = run_of(script, printed.as_str(), sync);
    let next = next_of(found_after(sync, failure));
    let call = failure.call;
    Ok(
        ends_so(alloc, &run, call, true, pick, &next)?
            && ends_so(alloc, &run, call, false, pick, &next)?,
    )
}

// Whether the run of the script with this failure ends as expected, and leaves the commits that it should.
fn survives(
    alloc: Global,
    script: &str,
    sync: Sync,
    failure: Failure,
    pick: Pick,
) -> Result<bool, AllocError> {
    let mut printed = String::new(alloc);
    let answer = leaves(alloc, script, &mut printed, sync, failure, pick);
    drop(printed);
    answer
}

// The first call of a sync, whose first one has this number, whose failure leaves anything else.
fn other_part(
    alloc: Global,
    script: &str,
    sync: Sync,
    first: u64,
    pick: Pick,
) -> Result<Option<u64>, AllocError> {
    for part in 0..sync.calls {
        let call = first.saturating_add(part);
        if !survives(alloc, script, sync, Failure { call, part }, pick)? {
            return Ok(Some(call));
        }
    }
    Ok(None)
}

fn other_of(alloc: Global, script: &mut String, pick: Pick) -> Result<Option<u64>, AllocError> {
    push_script(script)?;
    let mut first = 2 * MOUNTING;
    for sync in SYNCS.iter() {
        let other = other_part(alloc, script.as_str(), *sync, first, pick)?;
        if other.is_some() {
            return Ok(other);
        }
        first = first.saturating_add(sync.calls);
    }
    Ok(None)
}

// The first call behind mounting whose failure leaves anything else, alone or with all later ones, where the devices are restarted by
// this pick.
fn other_call(alloc: Global, pick: Pick) -> Result<Option<u64>, AllocError> {
    let mut script = String::new(alloc);
    let other = other_of(alloc, &mut script, pick);
    drop(script);
    other
}

#[test]
fn each_call_fails_and_names_are_as_flushed(rt: HostRuntime) -> Result<(), Fail> {
    assert!(rt; other_call(rt.alloc(), Pick::NoneWritten)? == None);
    Ok(())
}

#[test]
fn each_call_fails_and_names_are_as_flushed_where_blocks_are_torn(
    rt: HostRuntime,
) -> Result<(), Fail> {
    assert!(rt; other_call(rt.alloc(), Pick::Torn)? == None);
    Ok(())
}
