//! Acts on an open volume: commits, events of both works, and events that aren't due or are refused.

use crate::lists::follows_list;
use crate::moves::{Change, Seen, Shortage, push_some, step};
use crate::ring_rounds::makes_entries;
use crate::sessions::Run;
use crate::shortages::filling;
use crate::syncs::other_sync;
use crate::works::{
    FOLLOWER, Story, commit, commit_made, event_of, finds, follow, give_up, make_next,
};
use dev_model::MemDevices;
use std::alloc::{AllocError, Global};
use vol_core::{Core, Event, Opening, Stage, Work};
use vol_types::Updates;

/// What is done to a volume.
#[derive(Clone, Copy)]
pub enum Act {
    /// A commit puts this value at the key.
    Put(u8, u64),
    /// It puts the key of another btree too.
    PutBoth(u8, u64),
    /// It puts many keys more.
    PutAll(u8, u64),
    /// A commit puts the value at the key so often that its entry has 33 parts.
    Fill(u8, u64),
    /// So does one that closes the open entry, since both take more than 64 parts.
    FillNext(u8, u64),
    /// A commit puts 5 at the first key, and says that all buckets are in use that could be free, but for so many, the last ones.
    Use(u64),
    /// So many events of a work are made.
    Make(Work, u8),
    /// The events of a work are made up to its rest.
    Follow(Work),
    /// A work has this stage so often, one time after the other, and its event makes so many device calls each time.
    At(Work, Stage, u8, u64),
    /// The event of the first stage isn't due: it is answered with the second one, which its work has, without a device call.
    Undue(Stage, Stage),
    /// A work has this stage, and its event is answered with the fault of this device.
    Fails(Work, Stage, u8),
    /// The event of this stage is refused without a device call, since this device failed.
    Refused(Stage, u8),
    /// The nodes have this stage, and all commits are durable.
    Due(Stage),
    /// The event of this stage is refused without a device call, since buckets are short.
    Short(Stage, Shortage),
    /// A commit is refused, since buckets are short, and given up.
    NoCommit(Shortage),
    /// What is behind it are the device calls that are counted.
    Mark,
    /// So many entries are made, each of commits that are drawn.
    Entries(u64),
    /// A drawn list of events is answered as the model says.
    List,
    /// Syncs are made, each behind some commits.
    Syncs,
    /// Nothing is done. Behind the acts before it the newest entry has this sequence and needs the entries from this one on, and the root of
    /// the counters has this birth and this place.
    Found(u64, u64, u64, u32),
}

/// Entries are made up to the rest of the journal.
pub const JOURNAL: Act = Act::Follow(Work::Journal);

/// Leaves are written anew and put in place up to the rest of the nodes.
pub const NODES: Act = Act::Follow(Work::Nodes);

/// A change of one key.
pub fn put(key: u8, value: u64) -> Change {
    Change {
        key,
        value,
        is_long: false,
        is_wide: false,
    }
}

// A change of keys of two btrees, of many or of two.
fn put_both(key: u8, value: u64, is_long: bool) -> Change {
    Change {
        key,
        value,
        is_long,
        is_wide: true,
    }
}

// What so many events of a work are answered: the first answer that isn't `Done`.
fn make_some<O: Opening>(
    core: &mut Core<MemDevices, O>,
    work: Work,
    count: u8,
    story: &mut Story,
) -> Seen {
    for _ in 0..count {
        let seen = make_next(core, work, story);
        if seen != Seen::Done {
            return seen;
        }
    }
    Seen::Done
}

// Whether an answer names this stage.
fn is_at(seen: Seen, stage: Stage) -> bool {
    match seen {
        Seen::At(told, _) => told == stage,
        _ => false,
    }
}

// Whether a work is told to have this stage.
fn has_stage<O: Opening>(core: &mut Core<MemDevices, O>, work: Work, stage: Stage) -> bool {
    is_at(step(core, FOLLOWER, Event::Next(work)), stage)
}

// What the event of a stage is answered, if it makes no device call.
fn answered<O: Opening>(core: &mut Core<MemDevices, O>, stage: Stage) -> Seen {
    let Some(event) = event_of(stage) else {
        return Seen::Other;
    };
    let before = core.devices().calls();
    let seen = step(core, FOLLOWER, event);
    if core.devices().calls() != before {
        return Seen::Other;
    }
    seen
}

// Whether a work has this stage, and a device fails in its event.
fn fails<O: Opening>(
    core: &mut Core<MemDevices, O>,
    work: Work,
    stage: Stage,
    dev: u8,
    story: &mut Story,
) -> bool {
    has_stage(core, work, stage) && make_next(core, work, story) == Seen::DeviceFault(dev)
}

// Whether a work has this stage, and its event happens with so many device calls.
fn happens<O: Opening>(
    core: &mut Core<MemDevices, O>,
    work: Work,
    stage: Stage,
    calls: u64,
    story: &mut Story,
) -> bool {
    let before = core.devices().calls();
    has_stage(core, work, stage)
        && make_next(core, work, story) == Seen::Done
        && core.devices().calls().wrapping_sub(before) == calls
}

// Whether that is so this often, one time after the other.
fn happen<O: Opening>(
    core: &mut Core<MemDevices, O>,
    work: Work,
    stage: Stage,
    times: u8,
    calls: u64,
    story: &mut Story,
) -> bool {
    for _ in 0..times {
        if !happens(core, work, stage, calls, story) {
            return false;
        }
    }
    true
}

// Updates that put a value 4,200 times.
fn many_updates(alloc: Global, key: u8, value: u64) -> Result<Updates, AllocError> {
    let mut updates = Updates::new(alloc);
    match push_some(&mut updates, 4_200, u64::from(key).saturating_add(1), value) {
        Ok(()) => Ok(updates),
        Err(error) => {
            drop(updates);
            Err(error)
        }
    }
}

// Whether a commit is refused since buckets are short. It is given up.
fn is_short<O: Opening>(
    alloc: Global,
    core: &mut Core<MemDevices, O>,
    shortage: Shortage,
    story: &mut Story,
) -> bool {
    commit(alloc, core, put(0, 6), story) == Seen::Short(shortage) && give_up(core) == Seen::Done
}

// Whether an act that makes no change is answered as it should be.
fn is_answered<O: Opening>(
    alloc: Global,
    core: &mut Core<MemDevices, O>,
    act: Act,
    run: &mut Run,
) -> bool {
    match act {
        Act::At(work, stage, times, calls) => {
            happen(core, work, stage, times, calls, &mut run.story)
        }
        Act::Undue(stage, due) => is_at(answered(core, stage), due),
        Act::Fails(work, stage, dev) => fails(core, work, stage, dev, &mut run.story),
        Act::Refused(stage, dev) => answered(core, stage) == Seen::Halted(dev),
        Act::Due(stage) => {
            step(core, FOLLOWER, Event::Next(Work::Nodes)) == Seen::At(stage, true)
        }
        Act::Short(stage, shortage) => answered(core, stage) == Seen::Short(shortage),
        Act::NoCommit(shortage) => is_short(alloc, core, shortage, &mut run.story),
        Act::Entries(count) => makes_entries(alloc, core, count, run),
        Act::List => follows_list(alloc, core, run),
        Act::Syncs => other_sync(alloc, core, run.shape).is_none(),
        _ => true,
    }
}

// What an act is answered: `Done` where that is as it should be.
fn answer<O: Opening>(
    alloc: Global,
    core: &mut Core<MemDevices, O>,
    act: Act,
    run: &mut Run,
) -> Seen {
    match act {
        Act::Put(key, value) => commit(alloc, core, put(key, value), &mut run.story),
        Act::PutBoth(key, value) => {
            commit(alloc, core, put_both(key, value, false), &mut run.story)
        }
        Act::PutAll(key, value) => commit(alloc, core, put_both(key, value, true), &mut run.story),
        Act::Fill(key, value) => fill(alloc, core, key, value, &mut run.story),
        Act::FillNext(key, value) => {
            run.story.close();
            fill(alloc, core, key, value, &mut run.story)
        }
        Act::Use(free) => commit_made(core, filling(alloc, free), put(0, 5), &mut run.story),
        Act::Make(work, count) => make_some(core, work, count, &mut run.story),
        Act::Follow(work) => follow(core, work, &mut run.story),
        other => {
            if is_answered(alloc, core, other, run) {
                Seen::Done
            } else {
                Seen::Other
            }
        }
    }
}

// Makes a commit that puts a value 4,200 times.
fn fill<O: Opening>(
    alloc: Global,
    core: &mut Core<MemDevices, O>,
    key: u8,
    value: u64,
    story: &mut Story,
) -> Seen {
    commit_made(
        core,
        many_updates(alloc, key, value),
        put(key, value),
        story,
    )
}

// Whether an event of a work isn't made since a device failed, or the work is at rest.
fn is_refused(seen: Seen, dev: u8) -> bool {
    match seen {
        Seen::Halted(halted) => halted == dev,
        Seen::At(_, _) => true,
        _ => false,
    }
}

// Whether the volume stopped as it should: a call failed, and all that writes is refused.
fn is_stopped<O: Opening>(core: &mut Core<MemDevices, O>, seen: Seen, story: &mut Story) -> bool {
    let Seen::DeviceFault(dev) = seen else {
        return false;
    };
    let before = core.devices().calls();
    let journal = make_next(core, Work::Journal, story);
    let nodes = make_next(core, Work::Nodes, story);
    is_refused(journal, dev) && is_refused(nodes, dev) && core.devices().calls() == before
}

// Whether all of this is done, or the volume stops as it should.
fn are_done<O: Opening>(
    alloc: Global,
    core: &mut Core<MemDevices, O>,
    acts: &[Act],
    run: &mut Run,
) -> bool {
    for act in acts {
        if let Act::Mark = act {
            run.before = core.devices().calls().wrapping_sub(run.opened);
        }
        let seen = answer(alloc, core, *act, run);
        if seen != Seen::Done {
            return is_stopped(core, seen, &mut run.story);
        }
    }
    true
}

/// Does all of this to an open volume, and then looks. The run says how that went.
pub fn do_all<O: Opening>(
    alloc: Global,
    core: &mut Core<MemDevices, O>,
    acts: &[Act],
    run: &mut Run,
) {
    run.opened = core.devices().calls();
    run.before = 0;
    let are_done = are_done(alloc, core, acts, run);
    run.is_right = are_done && finds(core, run.story.now.values);
    let calls = core.devices().calls().wrapping_sub(run.opened);
    run.calls = calls.wrapping_sub(run.before);
}
