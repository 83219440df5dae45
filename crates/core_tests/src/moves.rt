//! Events of a core as plain values, so that a core and a model of it can be given the same ones, and what a core answers.

use dev_model::MemDevices;
use std::alloc::{AllocError, Global};
use vol_core::{Answer, Core, Event, NoSpace, Opening, Refusal, Stage, Work};
use vol_types::{Btree, Key, Keys, Pos, Query, Update, Updates, Value};

/// How many actors there are: three clients, and the reclaimer, which is the last one here and number 16 of a core.
pub const ACTORS: usize = 4;

// The offset of the first of the counters that are changed together.
const MANY: u64 = 100;

// How many these are.
const MANY_COUNT: u64 = 130;

/// The values of counters, of which 0 stands for a key that isn't there, and whether another btree has its one key.
#[derive(Clone, Copy)]
pub struct Values {
    /// Those at the offsets 1 to 4.
    pub few: [u64; 4],
    /// The one value of those at the offsets 100 to 229.
    pub many: u64,
    /// Whether the btree of deleted ids has its key.
    pub gone: bool,
}

/// No keys.
pub const NO_VALUES: Values = Values {
    few: [0; 4],
    many: 0,
    gone: false,
};

/// How many commits there were, and the values after them.
#[derive(Clone, Copy)]
pub struct Version {
    pub commits: u64,
    pub values: Values,
}

/// What a commit does: it puts a value at one of the offsets 1 to 4, and, where it is long, at those from 100 to 229; where it is wide, it
/// puts the key of the btree of deleted ids too, or removes it for the value 0.
#[derive(Clone, Copy)]
pub struct Change {
    pub key: u8,
    pub value: u64,
    pub is_long: bool,
    pub is_wide: bool,
}

/// An event.
#[derive(Clone, Copy)]
pub enum Move {
    Begin { first: bool },
    /// Looks at one of the offsets 1 to 4, from 0, or at offset 100.
    Look(u8),
    Intend(Change),
    Commit,
    Finish,
    Drop,
    Next,
    Seal,
    WriteEntry,
    Flush(u8),
    Settle,
}

/// What is said where a bucket is missing: the free buckets of the only device, those that are held back, whether a checkpoint would free none, and
/// how many commits of updates and of nodes there were in the session.
#[derive(Clone, Copy, PartialEq)]
pub struct Shortage {
    pub free: u32,
    pub held: u32,
    pub idle: bool,
    pub changes: u64,
}

/// What an event is answered.
#[derive(Clone, Copy, PartialEq)]
pub enum Seen {
    /// It didn't fit.
    Unfit,
    Done,
    /// This value was found, or no key for 0.
    Value(u64),
    Wait(u8),
    At(Stage, bool),
    /// The session has stopped writing, since this device failed.
    Halted(u8),
    DeviceFault(u8),
    /// The journal has no room.
    Full,
    /// There are too few free buckets.
    Short(Shortage),
    /// So many snapshot ids are seen.
    Ids(usize),
    /// Anything else.
    Other,
}

/// The number that an actor has in a core.
pub fn number_of(actor: u8) -> u8 {
    if actor == 3 { 16 } else { actor }
}

fn at(offset: u64) -> Pos {
    Pos {
        inode: 0,
        offset,
        snapshot: 0,
    }
}

// The offset of a key.
fn offset_of(key: u8) -> u64 {
    if key < 4 { u64::from(key) + 1 } else { MANY }
}

// The value of a counter, or none for 0.
fn counter_of(value: u64) -> Option<Value> {
    if value == 0 {
        return None;
    }
    Some(Value::Counter { next: value })
}

/// Adds an update that puts a value at an offset, or removes the key there for 0.
pub fn push(updates: &mut Updates, offset: u64, value: u64) -> Result<(), AllocError> {
    updates.push(Update {
        btree: Btree::Counters,
        level: 0,
        pos: at(offset),
        value: counter_of(value),
    })?;
    Ok(())
}

/// Adds so many updates that put a value at an offset, or remove the key there for 0.
pub fn push_some(
    updates: &mut Updates,
    count: u64,
    offset: u64,
    value: u64,
) -> Result<(), AllocError> {
    for _ in 0..count {
        push(updates, offset, value)?;
    }
    Ok(())
}

// Adds an update that puts the key of the btree of deleted ids, or removes it.
fn push_gone(updates: &mut Updates, is_put: bool) -> Result<(), AllocError> {
    updates.push(Update {
        btree: Btree::Deleted,
        level: 0,
        pos: at(1),
        value: if is_put { Some(Value::Gone) } else { None },
    })?;
    Ok(())
}

// Adds the updates of a change.
fn push_change(updates: &mut Updates, change: Change) -> Result<(), AllocError> {
    push(updates, offset_of(change.key), change.value)?;
    if change.is_long {
        for offset in MANY..MANY + MANY_COUNT {
            push(updates, offset, change.value)?;
        }
    }
    if change.is_wide {
        push_gone(updates, change.value != 0)?;
    }
    Ok(())
}

/// The updates of a change.
pub fn updates_of(alloc: Global, change: Change) -> Result<Updates, AllocError> {
    let mut updates = Updates::new(alloc);
    match push_change(&mut updates, change) {
        Ok(()) => Ok(updates),
        Err(error) => {
            drop(updates);
            Err(error)
        }
    }
}

/// How many counters a change puts or removes.
pub fn count_of(change: Change) -> u64 {
    if change.is_long { 1 + MANY_COUNT } else { 1 }
}

/// The values after a change.
pub fn changed(values: Values, change: Change) -> Values {
    let mut values = values;
    if let Some(value) = values.few.get_mut(usize::from(change.key)) {
        *value = change.value;
    }
    if change.is_long {
        values.many = change.value;
    }
    if change.is_wide {
        values.gone = change.value != 0;
    }
    values
}

fn push_counters(counters: &mut Vec<(u64, u64)>, values: Values) -> Result<(), AllocError> {
    let mut offset: u64 = 0;
    for value in values.few.iter() {
        offset = offset.wrapping_add(1);
        if *value != 0 {
            counters.push((offset, *value))?;
        }
    }
    if values.many != 0 {
        for offset in MANY..MANY + MANY_COUNT {
            counters.push((offset, values.many))?;
        }
    }
    Ok(())
}

/// The offset and the value of each key of these values, in order.
pub fn counters_of(alloc: Global, values: Values) -> Result<Vec<(u64, u64)>, AllocError> {
    let mut counters = Vec::new(alloc);
    match push_counters(&mut counters, values) {
        Ok(()) => Ok(counters),
        Err(error) => {
            drop(counters);
            Err(error)
        }
    }
}

/// A look at one of the offsets 1 to 4, from 0, or at offset 100.
pub fn look_at(key: u8) -> Event {
    Event::Look(Query::At {
        btree: Btree::Counters,
        pos: at(offset_of(key)),
    })
}

fn event_of(alloc: Global, wanted: Move) -> Result<Event, AllocError> {
    Ok(match wanted {
        Move::Begin { first } => Event::Begin { first },
        Move::Look(key) => look_at(key),
        Move::Intend(change) => Event::Intend(updates_of(alloc, change)?),
        Move::Commit => Event::Commit { counted: true },
        Move::Finish => Event::Finish,
        Move::Drop => Event::Drop,
        Move::Next => Event::Next(Work::Journal),
        Move::Seal => Event::Seal,
        Move::WriteEntry => Event::WriteEntry,
        Move::Flush(dev) => Event::Flush(dev),
        Move::Settle => Event::Settle,
    })
}

fn value_of(key: &Key) -> Seen {
    match &key.value {
        Some(Value::Counter { next }) => Seen::Value(*next),
        _ => Seen::Other,
    }
}

// The value of the only key that was found, or 0 for none.
fn found_value(keys: &Keys) -> Seen {
    if keys.len() > 1 {
        return Seen::Other;
    }
    match keys.get(0) {
        None => Seen::Value(0),
        Some(key) => value_of(key),
    }
}

// What is said of one device.
fn shortage_of(none: &NoSpace) -> Seen {
    if none.short.need != 0 || none.short.free.len() != 1 || none.short.held.len() != 1 {
        return Seen::Other;
    }
    match (none.short.free.get(0), none.short.held.get(0)) {
        (Some(free), Some(held)) => Seen::Short(Shortage {
            free: *free,
            held: *held,
            idle: none.idle,
            changes: none.changes,
        }),
        _ => Seen::Other,
    }
}

fn seen_of(answer: &Answer) -> Seen {
    match answer {
        Answer::Done => Seen::Done,
        Answer::Found(keys) => found_value(keys),
        Answer::At { stage, durable } => Seen::At(*stage, *durable),
        Answer::Wait { holder } => Seen::Wait(*holder),
        Answer::Refused(Refusal::Halted(halt)) => Seen::Halted(halt.dev),
        Answer::Refused(Refusal::RingFull(_)) => Seen::Full,
        Answer::Refused(Refusal::NoSpace(none)) => shortage_of(none),
        Answer::DeviceFault(dev) => Seen::DeviceFault(*dev),
        Answer::Ids(ids) => Seen::Ids(ids.len()),
        Answer::Refused(_) | Answer::NoMemory => Seen::Other,
    }
}

/// Makes an event of an actor of a core, if it fits.
pub fn step<O: Opening>(core: &mut Core<MemDevices, O>, actor: u8, event: Event) -> Seen {
    if !core.may(actor, &event) {
        drop(event);
        return Seen::Unfit;
    }
    let answer = core.step(actor, event);
    let seen = seen_of(&answer);
    drop(answer);
    seen
}

/// Makes an event of an actor of a core, if it fits.
pub fn make<O: Opening>(
    alloc: Global,
    core: &mut Core<MemDevices, O>,
    actor: u8,
    wanted: Move,
) -> Seen {
    match event_of(alloc, wanted) {
        Ok(event) => step(core, number_of(actor), event),
        Err(_) => Seen::Other,
    }
}
