//! Runs, and how they must end.

use crate::histories::{has_acks, is_history};
use dev_model::{MemDevices, NoGate};
use forest_ops::{Acks, Trace};
use shell::{Ended, run_words};
use std::alloc::{AllocError, Global};
use std::mem;
use std::rc::RcStr;
use text_io::{MemSink, MemSource};

/// A run, and how it must end. What is `None` isn't looked at.
#[derive(Clone, Copy)]
pub struct Trial<'a> {
    pub arguments: &'a [&'a str],
    pub script: &'a [u8],
    /// The calls of the source that fail, and how many bytes each of them gives at most.
    pub failing_takes: &'a [u64],
    pub most_taken: usize,
    /// The calls of the sink that fail, and how many bytes each of them takes at most.
    pub failing_gives: &'a [u64],
    pub most_given: usize,
    pub status: Option<u8>,
    /// All that is printed; or texts of which one is printed, unless there is none.
    pub printed: Option<&'a [u8]>,
    pub texts: &'a [&'a [u8]],
    /// The history: how many entries it has, and two letters for each entry.
    pub entries: Option<usize>,
    pub history: Option<&'a [u8]>,
    /// How many commits are acknowledged, each time.
    pub acks: Option<&'a [u64]>,
    /// How many calls of the devices there are, and of the source.
    pub calls: Option<u64>,
    pub takes: Option<u64>,
}

/// A run of an empty script, however it ends.
pub const EMPTY_RUN: Trial<'static> = Trial {
    arguments: &["run"],
    script: b"",
    failing_takes: &[],
    most_taken: usize::MAX,
    failing_gives: &[],
    most_given: usize::MAX,
    status: None,
    printed: None,
    texts: &[],
    entries: None,
    history: None,
    acks: None,
    calls: None,
    takes: None,
};

/// What is seen of a run: its status, which of the texts it printed, by its number, and how many entries its history and
/// acknowledgements there were.
#[derive(Clone, Copy)]
pub struct Seen {
    pub status: u8,
    pub text: Option<usize>,
    pub entries: usize,
    pub acks: usize,
}

// What a run left, but for its devices and what it printed.
#[derive(Drop)]
struct Ran {
    status: u8,
    calls: u64,
    trace: Trace,
    acks: Acks,
}

fn push_words(alloc: Global, words: &mut Vec<RcStr>, arguments: &[&str]) -> Result<(), AllocError> {
    for argument in arguments {
        words.push(RcStr::from_str(alloc, argument)?)?;
    }
    Ok(())
}

fn source_of(alloc: Global, trial: &Trial) -> Result<MemSource, AllocError> {
    let source = MemSource::new(alloc, trial.script, trial.failing_takes)?;
    Ok(source.in_pieces(trial.most_taken.max(1)))
}

fn sink_of(alloc: Global, trial: &Trial) -> Result<MemSink, AllocError> {
    let sink = MemSink::new(alloc, trial.failing_gives)?;
    Ok(sink.in_pieces(trial.most_given.max(1)))
}

/// The devices, in whose place blank ones stand.
pub fn taken(alloc: Global, devices: &mut MemDevices) -> Result<MemDevices, AllocError> {
    let blank = MemDevices::blank(alloc, &[0])?;
    Ok(mem::replace(devices, blank))
}

// Makes a run. The devices are afterwards as it left them.
fn run_over(
    alloc: Global,
    devices: &mut MemDevices,
    words: &[RcStr],
    source: &mut MemSource,
    sink: &mut MemSink,
) -> Result<Ran, AllocError> {
    let own = taken(alloc, devices)?;
    let before = own.calls();
    let ended = run_words(&(), alloc, words, source, sink, own, &NoGate);
    let Ended {
        status,
        devices: left,
        trace,
        acks,
        shorts,
        calls,
        early_end: _,
    } = ended;
    drop(shorts);
    drop(calls);
    let calls = left.calls().saturating_sub(before);
    *devices = left;
    Ok(Ran {
        status,
        calls,
        trace,
        acks,
    })
}

fn is_number(number: u64, expected: Option<u64>) -> bool {
    match expected {
        Some(expected) => number == expected,
        None => true,
    }
}

fn has_status(status: u8, expected: Option<u8>) -> bool {
    match expected {
        Some(expected) => status == expected,
        None => true,
    }
}

fn has_history(ran: &Ran, trial: &Trial) -> bool {
    let has_count = match trial.entries {
        Some(entries) => ran.trace.len() == entries,
        None => true,
    };
    let has_letters = match trial.history {
        Some(letters) => is_history(ran.trace.as_slice(), letters),
        None => true,
    };
    has_count && has_letters
}

fn is_acknowledged(ran: &Ran, trial: &Trial) -> bool {
    match trial.acks {
        Some(counts) => has_acks(ran.acks.as_slice(), counts),
        None => true,
    }
}

fn is_printed(printed: &[u8], trial: &Trial) -> bool {
    match trial.printed {
        Some(text) => printed == text,
        None => true,
    }
}

// The number of the first of these texts that was printed.
fn text_of(printed: &[u8], texts: &[&[u8]]) -> Option<usize> {
    let mut number = 0usize;
    for text in texts {
        if printed == *text {
            return Some(number);
        }
        number = number.saturating_add(1);
    }
    None
}

// What is seen of a run that ended as it must, but for the calls of its source.
fn seen_of(ran: &Ran, printed: &[u8], trial: &Trial) -> Option<Seen> {
    let text = text_of(printed, trial.texts);
    let is_so = has_status(ran.status, trial.status)
        && is_printed(printed, trial)
        && (text.is_some() || trial.texts.is_empty())
        && is_number(ran.calls, trial.calls)
        && has_history(ran, trial)
        && is_acknowledged(ran, trial);
    if !is_so {
        return None;
    }
    Some(Seen {
        status: ran.status,
        text,
        entries: ran.trace.len(),
        acks: ran.acks.len(),
    })
}

fn seen_through(
    alloc: Global,
    devices: &mut MemDevices,
    words: &[RcStr],
    source: &mut MemSource,
    sink: &mut MemSink,
    trial: &Trial,
) -> Result<Option<Seen>, AllocError> {
    let ran = run_over(alloc, devices, words, source, sink)?;
    let seen = seen_of(&ran, sink.held(), trial);
    drop(ran);
    Ok(seen)
}

fn seen_over(
    alloc: Global,
    devices: &mut MemDevices,
    words: &[RcStr],
    source: &mut MemSource,
    trial: &Trial,
) -> Result<Option<Seen>, AllocError> {
    let mut sink = sink_of(alloc, trial)?;
    let seen = seen_through(alloc, devices, words, source, &mut sink, trial);
    drop(sink);
    seen
}

fn seen_with(
    alloc: Global,
    devices: &mut MemDevices,
    words: &[RcStr],
    trial: &Trial,
) -> Result<Option<Seen>, AllocError> {
    let mut source = source_of(alloc, trial)?;
    let seen = seen_over(alloc, devices, words, &mut source, trial);
    let takes = source.calls();
    drop(source);
    if is_number(takes, trial.takes) {
        seen
    } else {
        Ok(None)
    }
}

fn seen_for(
    alloc: Global,
    devices: &mut MemDevices,
    words: &mut Vec<RcStr>,
    trial: &Trial,
) -> Result<Option<Seen>, AllocError> {
    push_words(alloc, words, trial.arguments)?;
    seen_with(alloc, devices, words.as_slice(), trial)
}

/// Makes the run of a trial, and says what is seen of it where it ends as it must.
pub fn seen_run(
    alloc: Global,
    devices: &mut MemDevices,
    trial: &Trial,
) -> Result<Option<Seen>, AllocError> {
    let mut words = Vec::new(alloc);
    let seen = seen_for(alloc, devices, &mut words, trial);
    drop(words);
    seen
}

/// Makes the run of a trial. Whether it ends as it must.
pub fn is_run(alloc: Global, devices: &mut MemDevices, trial: &Trial) -> Result<bool, AllocError> {
    let seen = seen_run(alloc, devices, trial)?;
    Ok(seen.is_some())
}
