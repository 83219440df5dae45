//! A core whose works are followed stage by stage, beside what a plain model says of its commits: which are made, which are in the last
//! entry that was put in flight, and which are durable.

use crate::moves::{Change, NO_VALUES, Seen, Values, Version, changed, look_at, step, updates_of};
use dev_model::MemDevices;
use std::alloc::{AllocError, Global};
use vol_core::{Core, Event, Opening, Stage, Work};
use vol_types::Updates;

/// The actor that follows the stages: the reclaimer.
pub const FOLLOWER: u8 = 16;

/// The actor that commits.
const CLIENT: u8 = 0;

/// How many events of a work are made one after the other, at most.
const MOST: u32 = 10_000;

/// What there is after all commits, after those of the last entry that was put in flight, and after those that are durable; and, where an
/// entry is closed that waits, after those of it.
#[derive(Clone, Copy)]
pub struct Story {
    pub now: Version,
    pub sealed: Version,
    pub durable: Version,
    pub closed: Option<Version>,
}

// No commits.
const EMPTY: Version = Version {
    commits: 0,
    values: NO_VALUES,
};

/// The story without commits.
pub const BEGINNING: Story = Story {
    now: EMPTY,
    sealed: EMPTY,
    durable: EMPTY,
    closed: None,
};

impl Story {
    /// The next commit closes the open entry, which has all commits up to now.
    pub fn close(&mut self) {
        self.closed = Some(self.now);
    }

    // One more commit, which makes this change.
    fn add(&mut self, change: Change) {
        self.now = Version {
            commits: self.now.commits.saturating_add(1),
            values: changed(self.now.values, change),
        };
    }

    // The event of a stage happened.
    fn happened(&mut self, stage: Stage) {
        match stage {
            Stage::Seal => {
                self.sealed = match self.closed {
                    Some(closed) => closed,
                    None => self.now,
                };
                self.closed = None;
            }
            Stage::Settle => self.durable = self.sealed,
            _ => {}
        }
    }
}

/// The event that a stage names; none at rest.
pub fn event_of(stage: Stage) -> Option<Event> {
    match stage {
        Stage::Rest => None,
        Stage::Seal => Some(Event::Seal),
        Stage::WriteEntry => Some(Event::WriteEntry),
        Stage::Flush(dev) => Some(Event::Flush(dev)),
        Stage::Settle => Some(Event::Settle),
        Stage::Freeze(node) => Some(Event::Freeze(node)),
        Stage::WriteSet(node) => Some(Event::WriteSet(node)),
        Stage::CommitNodes => Some(Event::CommitNodes),
    }
}

/// Makes the event that a work needs next. It says what that is answered, or which stage the work has at rest.
pub fn make_next<O: Opening>(
    core: &mut Core<MemDevices, O>,
    work: Work,
    story: &mut Story,
) -> Seen {
    let told = step(core, FOLLOWER, Event::Next(work));
    let Seen::At(stage, _) = told else {
        return told;
    };
    let Some(event) = event_of(stage) else {
        return told;
    };
    let seen = step(core, FOLLOWER, event);
    if seen == Seen::Done {
        story.happened(stage);
    }
    seen
}

/// Makes the events of a work up to its rest: `Done` there, or the first answer that is another one.
pub fn follow<O: Opening>(core: &mut Core<MemDevices, O>, work: Work, story: &mut Story) -> Seen {
    for _ in 0..MOST {
        let seen = make_next(core, work, story);
        if let Seen::At(Stage::Rest, _) = seen {
            return Seen::Done;
        }
        if seen != Seen::Done {
            return seen;
        }
    }
    Seen::Other
}

/// Makes a checkpoint: all that is committed is made durable, then the nodes with it are written anew, and then the entry that names
/// these. `Done`, or the first answer that is another one.
pub fn checkpoint<O: Opening>(core: &mut Core<MemDevices, O>, story: &mut Story) -> Seen {
    for work in [Work::Journal, Work::Nodes, Work::Journal] {
        let seen = follow(core, work, story);
        if seen != Seen::Done {
            return seen;
        }
    }
    Seen::Done
}

/// Commits what the client intends, which makes this change.
pub fn commit_again<O: Opening>(
    core: &mut Core<MemDevices, O>,
    change: Change,
    story: &mut Story,
) -> Seen {
    let seen = step(core, CLIENT, Event::Commit { counted: true });
    if seen == Seen::Done {
        story.add(change);
    }
    seen
}

/// Makes a change by a transaction of the client. Where it isn't committed, it stays as it is.
pub fn commit<O: Opening>(
    alloc: Global,
    core: &mut Core<MemDevices, O>,
    change: Change,
    story: &mut Story,
) -> Seen {
    commit_made(core, updates_of(alloc, change), change, story)
}

/// Commits updates that make this change, if there was memory for them.
pub fn commit_made<O: Opening>(
    core: &mut Core<MemDevices, O>,
    updates: Result<Updates, AllocError>,
    change: Change,
    story: &mut Story,
) -> Seen {
    match updates {
        Ok(updates) => commit_updates(core, updates, change, story),
        Err(_) => Seen::Other,
    }
}

// Commits updates by a transaction of the client, which make this change.
fn commit_updates<O: Opening>(
    core: &mut Core<MemDevices, O>,
    updates: Updates,
    change: Change,
    story: &mut Story,
) -> Seen {
    step(core, CLIENT, Event::Begin { first: true });
    let seen = step(core, CLIENT, Event::Intend(updates));
    if seen != Seen::Done {
        return seen;
    }
    commit_again(core, change, story)
}

/// Gives up what the client intends.
pub fn give_up<O: Opening>(core: &mut Core<MemDevices, O>) -> Seen {
    step(core, CLIENT, Event::Finish)
}

/// Whether looks of the client find these values.
pub fn finds<O: Opening>(core: &mut Core<MemDevices, O>, values: Values) -> bool {
    step(core, CLIENT, Event::Begin { first: true });
    let mut key: u8 = 0;
    for value in values.few.iter() {
        if step(core, CLIENT, look_at(key)) != Seen::Value(*value) {
            return false;
        }
        key = key.saturating_add(1);
    }
    let finds_many = step(core, CLIENT, look_at(key)) == Seen::Value(values.many);
    step(core, CLIENT, Event::Finish);
    finds_many
}
