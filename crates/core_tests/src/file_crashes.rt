//! Sessions one after the other, of each of which a device call fails, alone or with all later ones: what is found on what a restart leaves lies between
//! what was acknowledged and what was committed.

use crate::deeds::{Deed, Played, UNPLAYED, file_session};
use crate::failing::{Failing, NEVER, WAYS};
use crate::volumes::formatted_by;
use dev_model::MemDevices;
use std::alloc::Global;
use std::test::Fail;

/// How many files a session makes, each with a sync.
const FILES: u64 = 40;

/// How many files there are at least and at most.
#[derive(Clone, Copy)]
struct Range {
    least: u64,
    most: u64,
}

/// What was tried: how many calls, each on a volume of its own.
#[derive(Clone, Copy, PartialEq)]
struct Tally {
    calls: u64,
    sessions: u64,
    /// The sessions that found a file which wasn't acknowledged.
    newer: u64,
    /// How many files all sessions found.
    files: u64,
    /// The last session that wasn't as it must be.
    other: Option<Failing>,
}

impl Tally {
    // One session more.
    fn add(&mut self, found: u64, least: u64) {
        self.sessions = self.sessions.saturating_add(1);
        self.files = self.files.saturating_add(found);
        if found > least {
            self.newer = self.newer.saturating_add(1);
        }
    }
}

// Whether a session found as many files as there had to be, and, if no call fails, made and acknowledged each of its own.
fn is_right(played: Played, range: &Range, failing: Failing) -> bool {
    played.is_right
        && played.found >= range.least
        && played.found <= range.most
        && (failing.call != NEVER.call || played.acknowledged == FILES)
}

// The devices behind a session of which calls fail so, and a restart.
fn session_on(
    alloc: Global,
    devices: MemDevices,
    failing: Failing,
    range: &mut Range,
    tally: &mut Tally,
) -> Result<MemDevices, Fail> {
    let mut played = UNPLAYED;
    let devices = file_session(
        alloc,
        devices,
        failing,
        &[Deed::MakeMore(FILES)],
        &mut played,
    )?;
    if !is_right(played, range, failing) {
        tally.other = Some(failing);
    }
    tally.add(played.found, range.least);
    range.least = played.found.saturating_add(played.acknowledged);
    range.most = played.found.saturating_add(played.commits);
    Ok(devices.restart(failing.leaves)?)
}

// Tries all ways in which a call fails, in sessions one after the other, and a whole session in the end.
fn try_call(alloc: Global, count: u8, call: u64, tally: &mut Tally) -> Result<(), Fail> {
    let mut range = Range { least: 0, most: 0 };
    let mut devices = formatted_by(alloc, count)?;
    for (stays, leaves) in WAYS.iter() {
        let failing = Failing {
            call,
            stays: *stays,
            leaves: *leaves,
        };
        devices = session_on(alloc, devices, failing, &mut range, tally)?;
    }
    drop(session_on(alloc, devices, NEVER, &mut range, tally)?);
    Ok(())
}

// How many device calls a session makes that is whole.
fn calls_of(alloc: Global, count: u8) -> Result<u64, Fail> {
    let mut played = UNPLAYED;
    let devices = file_session(
        alloc,
        formatted_by(alloc, count)?,
        NEVER,
        &[Deed::MakeMore(FILES)],
        &mut played,
    )?;
    let calls = devices.calls().saturating_sub(played.opened);
    drop(devices);
    Ok(calls)
}

// What was tried on so many devices, where one of so many calls fails. The calls of a session behind its last one aren't made.
fn tried(alloc: Global, count: u8, every: u64) -> Result<Tally, Fail> {
    let mut tally = Tally {
        calls: 0,
        sessions: 0,
        newer: 0,
        files: 0,
        other: None,
    };
    for call in 0..calls_of(alloc, count)? {
        if every != 0 && call % every == 0 {
            try_call(alloc, count, call, &mut tally)?;
            tally.calls = tally.calls.saturating_add(1);
        }
    }
    Ok(tally)
}

// What is expected was counted by a program in Python, which plays the same sessions by what a sync and a checkpoint write and flush: an entry is found where it is
// settled on a device, or where all is left of what was written. Before its first entry a session flushes each device, so it makes 81 calls on one and 162 on two.
// With each of them in place of every 7th and 17th there are 567 and 1,134 sessions, 160 and 474 of them newer, and 33,330 and 67,032 files.
static SESSIONS_LEAVE: [(u8, u64, Tally); 2] = [
    (
        1,
        7,
        Tally {
            calls: 12,
            sessions: 84,
            newer: 22,
            files: 4765,
            other: None,
        },
    ),
    (
        2,
        17,
        Tally {
            calls: 10,
            sessions: 70,
            newer: 29,
            files: 3938,
            other: None,
        },
    ),
];

// Whether what is left of the devices of this row is what was counted.
fn sessions_leave(alloc: Global, row: usize) -> Result<bool, Fail> {
    match SESSIONS_LEAVE.get(row) {
        Some((count, every, expected)) => Ok(tried(alloc, *count, *every)? == *expected),
        None => Ok(false),
    }
}

#[test]
fn what_is_left_of_one_device_has_what_was_acknowledged(rt: HostRuntime) -> Result<(), Fail> {
    assert!(rt; sessions_leave(rt.alloc(), 0)?);
    Ok(())
}

#[test]
fn what_is_left_of_two_devices_has_what_was_acknowledged(rt: HostRuntime) -> Result<(), Fail> {
    assert!(rt; sessions_leave(rt.alloc(), 1)?);
    Ok(())
}
