//! Lists of what is done with an open volume, and how it must be answered. One function alone has the volume.

ghost use Rattle.std.specs.Prelude.{◌≡◌, true};
ghost use Rattle.geometry.specs.Layouts.{is_layout_of};
ghost use Rattle.replay.specs.Volumes.{found_in};

use crate::failing::{Failing, NEVER, loaded_from};
use crate::volumes::{
    Ask, Names, Told, count_numbered, ended, formatted_by, is_made, is_made_by, is_synced, is_told,
    list, make_file,
};
use dev_model::{Devices, MemDevices};
use forest_ops::{Op, Reply};
use replay::Loaded;
use std::alloc::Global;
use std::marker::Brand;
use std::test::Fail;
use vol_core::{Opening, Unopened};
use vol_types::Short;
use volume::VolState;

/// What is done with an open volume.
#[derive(Clone, Copy)]
pub enum Deed {
    /// So many files are made, from number 0 on.
    Make(Names, u64),
    /// This client, below 16, makes two files, of this number and the next.
    MakeBy(u8, u64),
    /// This client, below 16, asks for this and is told that.
    Tell(u8, Ask, Told),
    /// So many files are made, each with a sync.
    MakeEach(Names, u64),
    /// A sync acknowledges so many commits.
    Sync(u64),
    /// So many files are listed, from f000 on.
    Count(u64),
    /// A name isn't taken for lack of space, though no bucket lacks, and the root has the same names still, so many.
    Full(Names, u64),
    /// All files are counted, and so many more are made, each with a sync, as far as devices don't fail.
    MakeMore(u64),
}

/// What a session came to: whether each deed was answered as it must be; and, where more files were made, how many it found, and how many commits it
/// acknowledged and made.
#[derive(Clone, Copy)]
pub struct Played {
    pub is_right: bool,
    /// How many device calls there were up to the opening.
    pub opened: u64,
    pub found: u64,
    pub acknowledged: u64,
    pub commits: u64,
}

/// Nothing is done.
pub const UNPLAYED: Played = Played {
    is_right: false,
    opened: 0,
    found: 0,
    acknowledged: 0,
    commits: 0,
};

// Whether so many files are made.
fn are_made<D: Devices, O: Opening>(
    alloc: Global,
    volume: &mut VolState<D, O>,
    names: Names,
    count: u64,
) -> bool {
    for number in 0..count {
        if !is_made(alloc, volume, names, number) {
            return false;
        }
    }
    true
}

// Whether so many files are made, each with a sync.
fn are_synced<D: Devices, O: Opening>(
    alloc: Global,
    volume: &mut VolState<D, O>,
    names: Names,
    count: u64,
) -> bool {
    for number in 0..count {
        if !is_made(alloc, volume, names, number) || !is_synced(volume, number.saturating_add(1)) {
            return false;
        }
    }
    true
}

// Whether a client makes two files, of this number and the next.
fn are_made_by<D: Devices, O: Opening>(
    alloc: Global,
    volume: &mut VolState<D, O>,
    client: u8,
    first: u64,
) -> bool {
    if client >= 16 {
        return false;
    }
    is_made_by(alloc, volume, client, Names::Short, first)
        && is_made_by(alloc, volume, client, Names::Short, first.saturating_add(1))
}

// Whether it lists so many names.
fn has_names(listed: &Reply, names: u64) -> bool {
    match listed {
        Reply::List(list) => list.len() as u64 == names,
        _ => false,
    }
}

// Whether no bucket is said to lack.
fn is_of_leaf(short: &Short) -> bool {
    short.need == 0 && short.free.is_empty() && short.held.is_empty()
}

// Whether a name isn't taken for lack of space, though no bucket lacks.
fn is_refused<D: Devices, O: Opening>(
    alloc: Global,
    volume: &mut VolState<D, O>,
    names: Names,
) -> bool {
    let reply = make_file(alloc, volume, names, 999);
    let is_refused = match &reply {
        Ok(Reply::NoSpace(short)) => is_of_leaf(short),
        _ => false,
    };
    drop(reply);
    is_refused
}

// Whether the root lists the same as before.
fn lists_same<D: Devices, O: Opening>(
    alloc: Global,
    volume: &mut VolState<D, O>,
    before: &Reply,
) -> bool {
    match list(alloc, volume) {
        Ok(after) => {
            let is_same = after == *before;
            drop(after);
            is_same
        }
        Err(_) => false,
    }
}

// Whether such a name isn't taken, and the root has the same names still, so many.
fn is_full<D: Devices, O: Opening>(
    alloc: Global,
    volume: &mut VolState<D, O>,
    names: Names,
    count: u64,
) -> bool {
    match list(alloc, volume) {
        Ok(before) => {
            let is_full = has_names(&before, count)
                && is_refused(alloc, volume, names)
                && lists_same(alloc, volume, &before);
            drop(before);
            is_full
        }
        Err(_) => false,
    }
}

// Whether it says that a device failed, now or before.
fn is_failure(reply: &Reply) -> bool {
    matches!(reply, Reply::DeviceFault(_) | Reply::Halted { .. })
}

// Counts a commit that was made: whether the reply is one that it may be.
fn count_commit(reply: &Reply, played: &mut Played) -> bool {
    if matches!(reply, Reply::Okay) {
        played.commits = played.commits.saturating_add(1);
        return true;
    }
    is_failure(reply)
}

// Notes what a sync acknowledged: whether the reply is one that it may be.
fn note_sync(reply: &Reply, played: &mut Played) -> bool {
    if let Reply::Synced(count) = reply {
        played.acknowledged = *count;
        return *count == played.commits;
    }
    is_failure(reply)
}

// Makes the next file: whether the reply is one that it may be.
fn make_one<D: Devices, O: Opening>(
    alloc: Global,
    volume: &mut VolState<D, O>,
    played: &mut Played,
) -> bool {
    let number = played.found.saturating_add(played.commits);
    match make_file(alloc, volume, Names::Numbered, number) {
        Ok(reply) => {
            let is_right = count_commit(&reply, played);
            drop(reply);
            is_right
        }
        Err(_) => false,
    }
}

// Syncs: whether the reply is one that it may be.
fn sync_one<D: Devices, O: Opening>(volume: &mut VolState<D, O>, played: &mut Played) -> bool {
    match volume.call(0, Op::Sync) {
        Ok(reply) => {
            let is_right = note_sync(&reply, played);
            drop(reply);
            is_right
        }
        Err(_) => false,
    }
}

// Makes so many more files, as far as they are made: whether each reply is one that it may be.
fn make_more<D: Devices, O: Opening>(
    alloc: Global,
    volume: &mut VolState<D, O>,
    count: u64,
    played: &mut Played,
) -> bool {
    let Some(found) = count_numbered(alloc, volume) else {
        return false;
    };
    played.found = found;
    for _ in 0..count {
        if !make_one(alloc, volume, played) || !sync_one(volume, played) {
            return false;
        }
    }
    true
}

// Whether this is done, and answered as it must be.
fn is_done<D: Devices, O: Opening>(
    alloc: Global,
    volume: &mut VolState<D, O>,
    deed: Deed,
    played: &mut Played,
) -> bool {
    match deed {
        Deed::Make(names, count) => are_made(alloc, volume, names, count),
        Deed::MakeBy(client, first) => are_made_by(alloc, volume, client, first),
        Deed::Tell(client, ask, told) => client < 16 && is_told(alloc, volume, client, ask, told),
        Deed::MakeEach(names, count) => are_synced(alloc, volume, names, count),
        Deed::Sync(commits) => is_synced(volume, commits),
        Deed::Count(count) => count_numbered(alloc, volume) == Some(count),
        Deed::Full(names, count) => is_full(alloc, volume, names, count),
        Deed::MakeMore(count) => make_more(alloc, volume, count, played),
    }
}

// Whether all of this is done.
fn are_done<D: Devices, O: Opening>(
    alloc: Global,
    volume: &mut VolState<D, O>,
    deeds: &[Deed],
    played: &mut Played,
) -> bool {
    for deed in deeds {
        if !is_done(alloc, volume, *deed, played) {
            return false;
        }
    }
    true
}

// The devices of an open volume with which all of this is done.
fn done_on<D: Devices, O: Opening>(
    alloc: Global,
    volume: VolState<D, O>,
    deeds: &[Deed],
    played: &mut Played,
) -> D {
    let mut volume = volume;
    let is_right = are_done(alloc, &mut volume, deeds, played);
    played.is_right = is_right;
    ended(volume)
}

// The same of a volume that was loaded.
fn done_from<D: Devices, O: Opening>(
    alloc: Global,
    devices: D,
    loaded: Loaded,
    deeds: &[Deed],
    played: &mut Played,
) -> D
    requires layout { is_layout_of (D.state devices).sizes loaded.layout ≡ true }
    requires opening { found_in loaded ≡ O.found }
    requires start { D.state devices ≡ O.start }
{
    match VolState::<D, O>::start(alloc, loaded, devices) {
        Ok(volume) => done_on(alloc, volume, deeds, played),
        Err(unopened) => {
            let Unopened { devices } = unopened;
            played.is_right = false;
            devices
        }
    }
}

/// The devices behind a session with these deeds, of which calls fail so.
pub fn file_session(
    alloc: Global,
    devices: MemDevices,
    failing: Failing,
    deeds: &[Deed],
    played: &mut Played,
) -> Result<MemDevices, Fail> {
    let mut devices = devices;
    match loaded_from(alloc, &mut devices, failing) {
        Ok(loaded) => {
            played.opened = devices.calls();
            Ok(done_from::<MemDevices, Brand>(alloc, devices, loaded, deeds, played))
        }
        Err(fail) => {
            drop(devices);
            Err(fail)
        }
    }
}

/// The devices of a fresh volume with all of this done in a session, on so many devices.
pub fn devices_behind(alloc: Global, count: u8, deeds: &[Deed]) -> Result<MemDevices, Fail> {
    let mut played = UNPLAYED;
    let devices = file_session(
        alloc,
        formatted_by(alloc, count)?,
        NEVER,
        deeds,
        &mut played,
    )?;
    if played.is_right {
        return Ok(devices);
    }
    drop(devices);
    Err(Fail::from("a deed isn't answered as it must be"))
}
