//! What is done with devices, step by step, and what each step must find.

use crate::trials::{Seen, Trial, is_run, seen_run};
use crate::volumes::{
    FORMAT_ONE, FORMAT_THREE, FORMAT_TWO, fail, put_session, restart, session_on, wipe,
};
use dev_model::{MemDevices, Pick};
use std::alloc::{AllocError, Global};

/// What the devices are before the first step.
#[derive(Clone, Copy)]
pub enum Start {
    /// Two devices without a block.
    Blank,
    /// A fresh volume on one device.
    One,
    /// A fresh volume on two devices, with two replicas of everything.
    Two,
    /// One on three devices, with three.
    Three,
}

/// What is done with devices.
#[derive(Clone, Copy)]
pub enum Step<'a> {
    /// They fail at one of the calls to come, counted from 0, and then at each later one too, or at that call alone.
    Fail { call: u64, stays: bool },
    /// They are restarted, with what this pick leaves.
    Restart(Pick),
    /// Zeros are written over the blocks of a device from the first to the last.
    Wipe(u8, u32, u32),
    /// This session is sealed in block 5 of a device.
    PutSession(u8, u64),
    /// A block of a device must name this session.
    HasSession(u8, u32, Option<u64>),
    /// A run that must end so.
    Run(Trial<'a>),
}

/// Restarts with all that was written, and with what was flushed alone.
pub const ALL_WRITTEN: Step<'static> = Step::Restart(Pick::AllWritten);

pub const NONE_WRITTEN: Step<'static> = Step::Restart(Pick::NoneWritten);

fn blank_at(alloc: Global, start: Start) -> Result<MemDevices, AllocError> {
    match start {
        Start::Blank => MemDevices::blank(alloc, &[0, 0]),
        Start::One => MemDevices::blank(alloc, &[1024]),
        Start::Two => MemDevices::blank(alloc, &[1024, 1024]),
        Start::Three => MemDevices::blank(alloc, &[1024, 1024, 1024]),
    }
}

// Formats devices where a volume is wanted. Whether the format ended as it must.
fn is_begun(alloc: Global, devices: &mut MemDevices, start: Start) -> Result<bool, AllocError> {
    match start {
        Start::Blank => Ok(true),
        Start::One => is_run(alloc, devices, &FORMAT_ONE),
        Start::Two => is_run(alloc, devices, &FORMAT_TWO),
        Start::Three => is_run(alloc, devices, &FORMAT_THREE),
    }
}

// Whether a step could be taken, and found what it must.
fn is_taken(alloc: Global, devices: &mut MemDevices, step: &Step) -> Result<bool, AllocError> {
    match step {
        Step::Fail { call, stays } => {
            fail(devices, *call, *stays)?;
            Ok(true)
        }
        Step::Restart(pick) => {
            restart(alloc, devices, *pick)?;
            Ok(true)
        }
        Step::Wipe(dev, first, last) => wipe(alloc, devices, *dev, *first, *last),
        Step::PutSession(dev, session) => put_session(alloc, devices, *dev, *session),
        Step::HasSession(dev, block, session) => {
            Ok(session_on(alloc, devices, *dev, *block)? == *session)
        }
        Step::Run(trial) => is_run(alloc, devices, trial),
    }
}

// The number of the first of these steps, where the format before them is number 0.
fn other_of(
    alloc: Global,
    devices: &mut MemDevices,
    start: Start,
    steps: &[Step],
) -> Result<Option<usize>, AllocError> {
    if !is_begun(alloc, devices, start)? {
        return Ok(Some(0));
    }
    let mut number = 1usize;
    for step in steps {
        if !is_taken(alloc, devices, step)? {
            return Ok(Some(number));
        }
        number = number.saturating_add(1);
    }
    Ok(None)
}

/// The number of the first step, from 1, that couldn't be taken, or found something else than it must. It is 0 for the format that
/// makes the volume at the start.
pub fn other_step(
    alloc: Global,
    start: Start,
    steps: &[Step],
) -> Result<Option<usize>, AllocError> {
    let mut devices = blank_at(alloc, start)?;
    let other = other_of(alloc, &mut devices, start, steps);
    drop(devices);
    other
}

/// The number of the first row of steps, from 0, and that of the step in it, of which the same is true.
pub fn other_row(
    alloc: Global,
    start: Start,
    rows: &[&[Step]],
) -> Result<Option<(usize, usize)>, AllocError> {
    let mut number = 0usize;
    for steps in rows {
        if let Some(step) = other_step(alloc, start, steps)? {
            return Ok(Some((number, step)));
        }
        number = number.saturating_add(1);
    }
    Ok(None)
}

/// Whether a run over devices that fail at this call alone ends as it must.
pub fn fails_so(alloc: Global, start: Start, call: u64, trial: &Trial) -> Result<bool, AllocError> {
    let steps = [Step::Fail { call, stays: false }, Step::Run(*trial)];
    Ok(other_step(alloc, start, &steps)?.is_none())
}

fn both_seen(
    alloc: Global,
    devices: &mut MemDevices,
    trial: &Trial,
    pick: Pick,
    next: &Trial,
) -> Result<Option<(Seen, Seen)>, AllocError> {
    let first = seen_run(alloc, devices, trial)?;
    restart(alloc, devices, pick)?;
    let next = seen_run(alloc, devices, next)?;
    match (first, next) {
        (Some(first), Some(next)) => Ok(Some((first, next))),
        _ => Ok(None),
    }
}

fn crash_over(
    alloc: Global,
    devices: &mut MemDevices,
    steps: &[Step],
    trial: &Trial,
    pick: Pick,
    next: &Trial,
) -> Result<Option<(Seen, Seen)>, AllocError> {
    match other_of(alloc, devices, Start::Two, steps)? {
        Some(_) => Ok(None),
        None => both_seen(alloc, devices, trial, pick, next),
    }
}

/// What is seen of a run on a fresh volume of two devices after these steps, and of the next one over what this pick leaves. `None`
/// where a step or a run finds something else than it must.
pub fn crash_in(
    alloc: Global,
    steps: &[Step],
    trial: &Trial,
    pick: Pick,
    next: &Trial,
) -> Result<Option<(Seen, Seen)>, AllocError> {
    let mut devices = blank_at(alloc, Start::Two)?;
    let crash = crash_over(alloc, &mut devices, steps, trial, pick, next);
    drop(devices);
    crash
}
