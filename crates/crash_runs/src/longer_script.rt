//! A script of thirty names and five syncs that crashes at each call behind mounting.

use crate::steps::{Start, Step, other_step};
use crate::trials::{EMPTY_RUN, Trial};
use crate::volumes::MOUNTING;
use dev_model::Pick;
use std::alloc::{AllocError, Global};
use std::test::Fail;

// A line of the script.
#[derive(Clone, Copy)]
enum Line {
    // Makes the file of this name, the one with this number.
    Make(&'static str, u64),
    List,
    Sync,
}

// The script. Names are numbered from 1 as they are first made, and some are made again.
static LINES: [Line; 41] = [
    Line::Make("nut-1", 1),
    Line::Make("7up", 2),
    Line::Make("fig", 3),
    Line::Make("cherry", 4),
    Line::Make("aa", 5),
    Line::Make("7up", 2),
    Line::Sync,
    Line::Make("grape", 6),
    Line::Make("b", 7),
    Line::Make("oak", 8),
    Line::Make("pear", 9),
    Line::Make("ab", 10),
    Line::Make("mango", 11),
    Line::Make("mango", 11),
    Line::Make("nut-1", 1),
    Line::Sync,
    Line::Make("nut-2", 12),
    Line::Sync,
    Line::Make("_", 13),
    Line::Make("quince-with-a-longer-name", 14),
    Line::Make("nut-10", 15),
    Line::Make("0", 16),
    Line::Make("quince-with-a-longer-name", 14),
    Line::List,
    Line::Make("Kiwi", 17),
    Line::Make("a", 18),
    Line::Make("lime", 19),
    Line::Make("-", 20),
    Line::Make("sloe", 21),
    Line::Make("!x", 22),
    Line::Make("fir", 23),
    Line::Make("date", 24),
    Line::Sync,
    Line::Make("ash", 25),
    Line::Make("elm", 26),
    Line::Make("kiwi", 27),
    Line::Make("plum", 28),
    Line::Make("Yew", 29),
    Line::Make("~", 30),
    Line::Make("kiwi", 27),
    Line::Make("aa", 5),
];

// The names in rising order, each with its number.
static RISING: [(&str, u64); 30] = [
    ("!x", 22),
    ("-", 20),
    ("0", 16),
    ("7up", 2),
    ("Kiwi", 17),
    ("Yew", 29),
    ("_", 13),
    ("a", 18),
    ("aa", 5),
    ("ab", 10),
    ("ash", 25),
    ("b", 7),
    ("cherry", 4),
    ("date", 24),
    ("elm", 26),
    ("fig", 3),
    ("fir", 23),
    ("grape", 6),
    ("kiwi", 27),
    ("lime", 19),
    ("mango", 11),
    ("nut-1", 1),
    ("nut-10", 15),
    ("nut-2", 12),
    ("oak", 8),
    ("pear", 9),
    ("plum", 28),
    ("quince-with-a-longer-name", 14),
    ("sloe", 21),
    ("~", 30),
];

// A call that fails: in the sync with this number, the first of which has the number 1 and the final one 5, on this device. The last
// call of a sync is the one behind which its entry is flushed on a device.
#[derive(Clone, Copy)]
struct Failure {
    call: u64,
    sync: u64,
    dev: u64,
    is_last: bool,
}

// What a run prints of which this call fails, what it amounts to, and how many commits each sync before it acknowledged.
#[derive(Drop)]
struct Answers {
    lines: String,
    status: u8,
    commits: u64,
    acks: Vec<u64>,
}

impl Answers {
    fn none(alloc: Global) -> Self {
        Answers {
            lines: String::new(alloc),
            status: 0,
            commits: 0,
            acks: Vec::new(alloc),
        }
    }

    // How many commits were acknowledged.
    fn synced(&self) -> u64 {
        self.acks.last().copied().unwrap_or(0)
    }

    // Whether the next sync is the one that fails.
    fn is_next(&self, failure: Failure) -> bool {
        (self.acks.len() as u64).saturating_add(1) == failure.sync
    }

    // How many commits are found where nothing is left that wasn't flushed, or such blocks are torn.
    fn left(&self, failure: Failure) -> u64 {
        if failure.is_last {
            self.commits
        } else {
            self.synced()
        }
    }
}

// Adds the listing of the first names, so many of them.
fn push_listing(lines: &mut String, count: u64) -> Result<(), AllocError> {
    lines.push_str("list")?;
    for (name, number) in RISING.iter() {
        if *number <= count {
            write!(lines, " {name}")?;
        }
    }
    Ok(())
}

// Adds what a run of `ls main:/` prints that finds the first names, so many of them.
fn push_found(lines: &mut String, count: u64) -> Result<(), AllocError> {
    lines.push_str("@0 1 ")?;
    push_listing(lines, count)?;
    lines.push_str("\nend commits 0 synced 0\n")?;
    Ok(())
}

fn push_script(script: &mut String) -> Result<(), AllocError> {
    for line in LINES.iter() {
        match line {
            Line::Make(name, _) => write!(script, "mkfile main:/{name}\n")?,
            Line::List => script.push_str("ls main:/\n")?,
            Line::Sync => script.push_str("sync\n")?,
        }
    }
    Ok(())
}

// Answers a line of a session that has so many commits. After its failure nothing more is made.
fn answer(expected: &mut Answers, line: Line, failure: Failure) -> Result<(), AllocError> {
    let has_halted = expected.status == 6;
    let is_failing = expected.is_next(failure);
    let dev = failure.dev;
    let commits = expected.commits;
    let lines = &mut expected.lines;
    match line {
        Line::Make(_, number) if number <= commits => lines.push_str("err exists")?,
        Line::Make(_, _) | Line::Sync if has_halted => write!(lines, "err halted {dev}")?,
        Line::Make(_, number) => {
            expected.commits = number;
            lines.push_str("ok")?;
        }
        Line::List => push_listing(lines, commits)?,
        Line::Sync if is_failing => {
            expected.status = 6;
            write!(lines, "err device {dev}")?;
        }
        Line::Sync => {
            expected.acks.push(commits)?;
            write!(lines, "ok {commits}")?;
        }
    }
    Ok(())
}

// Answers the whole script.
fn answer_all(expected: &mut Answers, failure: Failure) -> Result<(), AllocError> {
    let mut number = 0u32;
    for line in LINES.iter() {
        number = number.saturating_add(1);
        write!(expected.lines, "@0 {number} ")?;
        answer(expected, *line, failure)?;
        expected.lines.push_str("\n")?;
    }
    expected.status = 6;
    let commits = expected.commits;
    let synced = expected.synced();
    write!(expected.lines, "end commits {commits} synced {synced}\n")?;
    Ok(())
}

// The run of the script, which ends as expected.
fn run_of<'a>(script: &'a str, expected: &'a Answers) -> Trial<'a> {
    Trial {
        script: script.as_bytes(),
        status: Some(expected.status),
        printed: Some(expected.lines.as_bytes()),
        acks: Some(&expected.acks),
        ..EMPTY_RUN
    }
}

// A run of `ls main:/` that prints this.
fn listing_of<'a>(found: &'a str) -> Trial<'a> {
    Trial {
        script: b"ls main:/\n",
        status: Some(0),
        printed: Some(found.as_bytes()),
        acks: Some(&[0]),
        ..EMPTY_RUN
    }
}

// Whether a run whose devices fail at this call, alone or with all later ones, ends so, and the next one on what is left of them does.
fn ends_so<'a>(
    alloc: Global,
    run: &Trial<'a>,
    call: u64,
    stays: bool,
    pick: Pick,
    next: &Trial<'a>,
) -> Result<bool, AllocError> {
    let steps = [
        Step::Fail { call, stays },
        Step::Run(*run),
        Step::Restart(pick),
        Step::Run(*next),
    ];
    Ok(other_step(alloc, Start::Two, &steps)?.is_none())
}

fn leaves(
    alloc: Global,
    script: &str,
    expected: &Answers,
    found: &mut String,
    failure: Failure,
    pick: Pick,
) -> Result<bool, AllocError> {
    push_found(found, expected.left(failure))?;
    let run = run_of(script, expected);
    let next = listing_of(found.as_str());
    let call = failure.call;
    Ok(
        ends_so(alloc, &run, call, true, pick, &next)?
            && ends_so(alloc, &run, call, false, pick, &next)?,
    )
}

fn survives_as(
    alloc: Global,
    script: &str,
    expected: &mut Answers,
    failure: Failure,
    pick: Pick,
) -> Result<bool, AllocError> {
    answer_all(expected, failure)?;
    let mut found = String::new(alloc);
    let answer = leaves(alloc, script, expected, &mut found, failure, pick);
    drop(found);
    answer
}

// Whether the run of the script with this failure ends as expected, and leaves the commits that it should.
fn survives(alloc: Global, script: &str, failure: Failure, pick: Pick) -> Result<bool, AllocError> {
    let mut expected = Answers::none(alloc);
    let answer = survives_as(alloc, script, &mut expected, failure, pick);
    drop(expected);
    answer
}

// The syncs, and how many calls each takes, to device 0 and device 1 by turns: before the first entry both are flushed, each entry is
// written on both, and both are flushed.
static SYNCS: [(u64, u64); 5] = [(1, 6), (2, 4), (3, 4), (4, 4), (5, 4)];

fn other_of(alloc: Global, script: &mut String, pick: Pick) -> Result<Option<u64>, AllocError> {
    push_script(script)?;
    let mut call = 2 * MOUNTING;
    for (sync, calls) in SYNCS.iter() {
        for part in 0..*calls {
            let failure = Failure {
                call,
                sync: *sync,
                dev: part % 2,
                is_last: part.saturating_add(1) == *calls,
            };
            if !survives(alloc, script.as_str(), failure, pick)? {
                return Ok(Some(call));
            }
            call = call.saturating_add(1);
        }
    }
    Ok(None)
}

// The first call behind mounting whose failure leaves anything else, alone or with all later ones, where the devices are restarted by
// this pick.
fn other_call(alloc: Global, pick: Pick) -> Result<Option<u64>, AllocError> {
    let mut script = String::new(alloc);
    let other = other_of(alloc, &mut script, pick);
    drop(script);
    other
}

#[test]
fn each_call_fails_and_what_was_flushed_is_left(rt: HostRuntime) -> Result<(), Fail> {
    assert!(rt; other_call(rt.alloc(), Pick::NoneWritten)? == None);
    Ok(())
}

#[test]
fn each_call_fails_and_blocks_are_torn(rt: HostRuntime) -> Result<(), Fail> {
    assert!(rt; other_call(rt.alloc(), Pick::Torn)? == None);
    Ok(())
}
