//! What memory keeps of an open volume, alone: random events of four actors beside a plain table, and each cause that refuses a commit, at its
//! limit and beyond.

ghost use Rattle.std.specs.Prelude.{◌≡◌, ◌<◌, IfOk, IsTrue, length};
ghost use Rattle.core_state.specs.Events.{IsOfMemory};
ghost use Rattle.btree_map.specs.Trees.{AreRoots};
ghost use Rattle.tree_nodes.specs.Levels.{IsNodeOf};

use crate::draws::following;
use btree_map::KeyMap;
use core_state::{Answer, Event, Failure, Memory, NoSpace, Refusal, Stage, Work};
use journal_ring::FoundEntry;
use record_codec::EntryRecord;
use std::alloc::{AllocError, Global};
use std::test::Fail;
use vol_types::{
    Blocks, Btree, Halt, Keys, Layout, Live, NodePtr, Place, Places, Pos, Query, Roots, Update,
    Updates, Value,
};

fn pointer(alloc: Global, birth: u64) -> Result<NodePtr, AllocError>
    ensures { IfOk result (IsNodeOf 0) }
{
    let places = Places::from_slice(alloc, &[Place { dev: 0, block: 512 }])?;
    Ok(NodePtr {
        birth,
        level: 0,
        places,
    })
}

fn roots(alloc: Global) -> Result<Roots, AllocError>
    ensures { IfOk result AreRoots }
{
    let mut roots = Roots::new(alloc);
    for birth in 0..9 {
        roots.push(pointer(alloc, birth)?)?;
    }
    Ok(roots)
}

// A map without keys, if there is memory for it.
fn fresh(alloc: Global) -> Option<KeyMap> {
    match roots(alloc) {
        Ok(roots) => match KeyMap::fresh(alloc, roots) {
            Ok(map) => Some(map),
            Err(_) => None,
        },
        Err(_) => None,
    }
}

// What a volume is opened with: the sequence of its newest entry, the commits up to it, where the needed blocks begin and end, and how
// many of its 47 buckets behind the journal have nodes.
#[derive(Clone, Copy)]
struct Opening {
    sequence: u64,
    commits: u64,
    number: u64,
    end: u64,
    nodes: u32,
}

const FRESH: Opening = Opening {
    sequence: 1,
    commits: 0,
    number: 0,
    end: 1,
    nodes: 0,
};

fn entry(alloc: Global, opening: Opening) -> Result<FoundEntry, AllocError> {
    Ok(FoundEntry {
        number: opening.number,
        end: opening.end,
        entry: EntryRecord {
            sequence: opening.sequence,
            oldest: opening.sequence,
            session: 1,
            commits: opening.commits,
            roots: roots(alloc)?,
            updates: Updates::new(alloc),
        },
    })
}

fn push_nodes(places: &mut Places, count: u32) -> Result<(), AllocError> {
    for at in 0..count {
        let block = at.saturating_mul(16).saturating_add(272);
        places.push(Place { dev: 0, block })?;
    }
    Ok(())
}

fn nodes(alloc: Global, count: u32) -> Result<Places, AllocError> {
    let mut places = Places::new(alloc);
    match push_nodes(&mut places, count) {
        Ok(()) => Ok(places),
        Err(error) => {
            drop(places);
            Err(error)
        }
    }
}

// A layout of one device with 64 buckets, of which the superblocks and the journal take 17.
fn layout(alloc: Global) -> Result<Layout, AllocError> {
    Ok(Layout {
        id: [7; 16],
        blocks: Blocks::from_slice(alloc, &[1024])?,
        journal: 256,
        metadata_replicas: 1,
        data_replicas: 1,
    })
}

// A volume of this layout with these keys.
fn open_map(
    alloc: Global,
    layout: Layout,
    map: KeyMap,
    needed: &[FoundEntry],
    nodes: &Places,
) -> Option<Memory>
    requires { 0 < length needed.now }
{
    if !layout.is_valid() {
        drop(layout);
        drop(map);
        return None;
    }
    match Memory::of(alloc, layout, 2, map, needed, nodes) {
        Ok(memory) => Some(memory),
        Err(_) => None,
    }
}

// A volume without keys.
fn open_with(alloc: Global, needed: &[FoundEntry], nodes: &Places) -> Option<Memory>
    requires { 0 < length needed.now }
{
    match layout(alloc) {
        Ok(layout) => match fresh(alloc) {
            Some(map) => open_map(alloc, layout, map, needed, nodes),
            None => {
                drop(layout);
                None
            }
        },
        Err(_) => None,
    }
}

// The same with so many nodes.
fn open_behind(alloc: Global, needed: &[FoundEntry], count: u32) -> Option<Memory>
    requires { 0 < length needed.now }
{
    match nodes(alloc, count) {
        Ok(nodes) => {
            let memory = open_with(alloc, needed, &nodes);
            drop(nodes);
            memory
        }
        Err(_) => None,
    }
}

// A volume that is opened with this, if there is memory for it.
fn open(alloc: Global, opening: Opening) -> Option<Memory> {
    match entry(alloc, opening) {
        Ok(entry) => {
            let needed = [entry];
            let memory = open_behind(alloc, &needed, opening.nodes);
            drop(needed);
            memory
        }
        Err(_) => None,
    }
}

fn at(offset: u64) -> Pos {
    Pos {
        inode: 0,
        offset,
        snapshot: 0,
    }
}

fn put(updates: &mut Updates, offset: u64, generation: Option<u32>) -> Result<(), AllocError> {
    let value = match generation {
        None => None,
        Some(generation) => Some(Value::Live(Live {
            blocks: 1,
            generation,
        })),
    };
    updates.push(Update {
        btree: Btree::Alloc,
        level: 0,
        pos: at(offset),
        value,
    })?;
    Ok(())
}

// One or two updates of the first eight positions.
fn push_random(updates: &mut Updates, seed: u64) -> Result<(), AllocError> {
    let generation = (seed >> 24 & 255) as u32;
    put(updates, seed >> 40 & 7, Some(generation))?;
    if seed >> 43 & 1 == 1 {
        put(updates, seed >> 44 & 7, None)?;
    }
    Ok(())
}

fn random_updates(alloc: Global, seed: u64) -> Result<Updates, AllocError> {
    let mut updates = Updates::new(alloc);
    match push_random(&mut updates, seed) {
        Ok(()) => Ok(updates),
        Err(error) => {
            drop(updates);
            Err(error)
        }
    }
}

fn random_look(seed: u64) -> Event {
    let pos = at(seed >> 40 & 7);
    let btree = Btree::Alloc;
    Event::Look(match seed >> 43 & 3 {
        0 => Query::Starting { btree, pos },
        1 => Query::Span {
            btree,
            first: at(2),
            last: pos,
        },
        _ => Query::At { btree, pos },
    })
}

fn random_event(alloc: Global, seed: u64) -> Result<Event, AllocError> {
    let flag = seed >> 39 & 1 == 1;
    Ok(match seed >> 33 & 15 {
        0 | 1 | 2 => Event::Begin { first: flag },
        3 | 4 | 5 | 6 => random_look(seed),
        7 => Event::LookIds,
        8 | 9 | 10 => Event::Intend(random_updates(alloc, seed)?),
        11 | 12 => Event::Commit { counted: flag },
        13 => Event::Finish,
        14 => Event::Drop,
        _ => Event::Next(Work::Journal),
    })
}

fn code_of_key(value: &Option<Value>) -> u64 {
    match value {
        Some(Value::Live(live)) => u64::from(live.generation),
        _ => 1000,
    }
}

// A number for the keys that were found, in their order.
fn code_of_keys(keys: &Keys) -> u64 {
    let mut code = 100;
    for key in keys.iter() {
        code = following(code ^ key.pos.offset << 32 ^ code_of_key(&key.value));
    }
    code
}

fn code_of_stage(stage: Stage) -> u64 {
    match stage {
        Stage::Rest => 0,
        Stage::Seal => 1,
        Stage::WriteEntry => 2,
        Stage::Flush(_) => 3,
        Stage::Settle => 4,
        Stage::Freeze(_) => 5,
        Stage::WriteSet(_) => 6,
        Stage::CommitNodes => 7,
    }
}

// A number for an answer.
fn code_of(answer: &Answer) -> u64 {
    match answer {
        Answer::Done => 1,
        Answer::Found(keys) => code_of_keys(keys),
        Answer::Ids(_) => 2,
        Answer::At { stage, durable } => {
            if *durable {
                code_of_stage(*stage).saturating_add(10)
            } else {
                code_of_stage(*stage).saturating_add(20)
            }
        }
        Answer::Wait { holder } => 30 + u64::from(*holder),
        Answer::Refused(_) => 3,
        Answer::NoMemory => 4,
        Answer::DeviceFault(_) => 5,
    }
}

// Whether an event calls no device.
fn is_of_memory(event: &Event) -> bool
    ensures { IsTrue result → IsOfMemory event.now }
{
    match event {
        Event::WriteEntry | Event::Flush(_) | Event::WriteSet(_) => false,
        Event::Begin { .. } => true,
        Event::Look(_) => true,
        Event::LookIds => true,
        Event::Intend(_) => true,
        Event::Commit { .. } => true,
        Event::Finish => true,
        Event::Drop => true,
        Event::Next(_) => true,
        Event::Seal => true,
        Event::Settle => true,
        Event::Freeze(_) => true,
        Event::CommitNodes => true,
    }
}

// What an event is answered, if it fits.
fn step(memory: &mut Memory, actor: u8, event: Event) -> Option<Answer> {
    if !memory.may(actor, &event) {
        drop(event);
        return None;
    }
    if !is_of_memory(&event) {
        drop(event);
        return None;
    }
    Some(memory.step(actor, event))
}

// What is told of a volume.
#[derive(Clone, Copy, PartialEq)]
enum Told {
    /// A number for the answers to random events.
    Code(u64),
    /// The commit is made.
    Taken,
    /// It is refused for one of these causes, with what is told of each.
    RingFull { left: u32, need: u32 },
    NeedSplit { node: u64, size: u32, at: u64 },
    NoSpace { free: u32, held: u32 },
    Spent,
    Halted { dev: u8, tick: u64 },
    /// Anything else.
    Other,
}

// What is told where buckets are short on one device, and nothing waits which could free some.
fn told_of_space(none: &NoSpace) -> Told {
    if none.short.need != 0 || !none.idle || none.changes != 0 {
        return Told::Other;
    }
    if none.short.free.len() != 1 || none.short.held.len() != 1 {
        return Told::Other;
    }
    match (none.short.free.get(0), none.short.held.get(0)) {
        (Some(free), Some(held)) => Told::NoSpace {
            free: *free,
            held: *held,
        },
        _ => Told::Other,
    }
}

fn told_of(answer: &Option<Answer>) -> Told {
    match answer {
        Some(Answer::Done) => Told::Taken,
        Some(Answer::Refused(Refusal::RingFull(full))) => Told::RingFull {
            left: full.left,
            need: full.need,
        },
        Some(Answer::Refused(Refusal::NeedSplit(split))) => Told::NeedSplit {
            node: split.node,
            size: split.size,
            at: split.at.offset,
        },
        Some(Answer::Refused(Refusal::NoSpace(none))) => told_of_space(none),
        Some(Answer::Refused(Refusal::Spent)) => Told::Spent,
        Some(Answer::Refused(Refusal::Halted(halt))) => Told::Halted {
            dev: halt.dev,
            tick: halt.tick,
        },
        _ => Told::Other,
    }
}

// Whether an event is answered with keys or happens.
fn happens(memory: &mut Memory, event: Event) -> bool {
    let answer = step(memory, 0, event);
    let happens = matches!(&answer, Some(Answer::Done) | Some(Answer::Found(_)));
    drop(answer);
    happens
}

// What a random event of one of four actors is answered, as a number: 0 where it doesn't fit.
fn random_step(memory: &mut Memory, actor: u8, event: Event) -> u64 {
    let answer = step(memory, actor, event);
    let code = match &answer {
        None => 0,
        Some(answer) => code_of(answer),
    };
    drop(answer);
    code
}

// A number for what 2,000 random events are answered.
fn code_of_events(alloc: Global, memory: &mut Memory) -> Result<u64, AllocError> {
    let mut seed = 1;
    let mut sum = 0;
    for _ in 0..2_000 {
        seed = following(seed);
        let event = random_event(alloc, seed)?;
        sum = following(sum ^ random_step(memory, (seed >> 50 & 3) as u8, event));
    }
    Ok(sum)
}

fn put_many(updates: &mut Updates, keys: u64) -> Result<(), AllocError> {
    for offset in 0..keys {
        put(updates, offset, Some(1))?;
    }
    Ok(())
}

// Updates that put so many keys.
fn updates_of(alloc: Global, keys: u64) -> Result<Updates, AllocError> {
    let mut updates = Updates::new(alloc);
    match put_many(&mut updates, keys) {
        Ok(()) => Ok(updates),
        Err(error) => {
            drop(updates);
            Err(error)
        }
    }
}

// What a commit of the first actor is told that makes these updates.
fn commit(memory: &mut Memory, updates: Updates, counted: bool) -> Told {
    happens(memory, Event::Begin { first: true });
    happens(memory, Event::Intend(updates));
    let answer = step(memory, 0, Event::Commit { counted });
    let told = told_of(&answer);
    drop(answer);
    told
}

// What a first commit is told that puts so many keys.
fn commit_keys(alloc: Global, memory: &mut Memory, keys: u64, counted: bool) -> Told {
    match updates_of(alloc, keys) {
        Ok(updates) => commit(memory, updates, counted),
        Err(_) => Told::Other,
    }
}

// What is done with an open volume.
#[derive(Clone, Copy)]
enum Task {
    Events,
    Commit { keys: u64, counted: bool },
    CommitOnceHalted,
}

// What a commit is told in a session that has stopped writing at moment 9, and again at moment 11, if a look is answered and the first actor keeps the
// failure.
fn commit_halted(alloc: Global, memory: &mut Memory) -> Told {
    memory.halt(Halt { dev: 0, tick: 9 });
    memory.halt(Halt { dev: 0, tick: 11 });
    let told = commit_keys(alloc, memory, 1, true);
    let failure = memory.actor(0).failure;
    if happens(memory, random_look(0)) && failure == Some(Failure::Halted { dev: 0, tick: 9 }) {
        return told;
    }
    Told::Other
}

fn done(alloc: Global, memory: &mut Memory, task: Task) -> Told {
    match task {
        Task::Events => match code_of_events(alloc, memory) {
            Ok(code) => Told::Code(code),
            Err(_) => Told::Other,
        },
        Task::Commit { keys, counted } => commit_keys(alloc, memory, keys, counted),
        Task::CommitOnceHalted => commit_halted(alloc, memory),
    }
}

// What is told of a volume that is opened with this. No other function has the volume itself.
fn told_by(alloc: Global, opening: Opening, task: Task) -> Told {
    match open(alloc, opening) {
        Some(memory) => {
            let mut memory = memory;
            let told = done(alloc, &mut memory, task);
            drop(memory);
            told
        }
        None => Told::Other,
    }
}

const LAST: u64 = u64::MAX;

const ONE_KEY: Task = Task::Commit {
    keys: 1,
    counted: true,
};

const SPLIT: Told = Told::NeedSplit {
    node: 5,
    size: 47_636,
    at: 914,
};

// What a volume is opened with, what is done with it, and what is told.
static ROWS: [(Opening, Task, Told); 16] = [
    // Another program, with a dictionary in place of btrees, has the same numbers for 2,000 events, of which 36 are commits,
    // and 275 wait for another actor.
    (FRESH, Task::Events, Told::Code(11_180_462_962_821_810_847)),
    // 171 bytes of the entry's only block stand before its keys, and each of these takes 28. Of 256 blocks 64 are kept: 191 up to the last
    // entry, and the open one's, leave no other.
    (
        Opening { end: 191, ..FRESH },
        Task::Commit {
            keys: 136,
            counted: true,
        },
        Told::RingFull { left: 64, need: 1 },
    ),
    (
        Opening { end: 191, ..FRESH },
        Task::Commit {
            keys: 135,
            counted: true,
        },
        Told::Taken,
    ),
    (
        Opening { end: 190, ..FRESH },
        Task::Commit {
            keys: 136,
            counted: true,
        },
        Told::Taken,
    ),
    // 56 bytes of a leaf stand before its keys, and each of these takes 26: 1,829 take 47,610 of 47,616.
    (
        FRESH,
        Task::Commit {
            keys: 1_830,
            counted: true,
        },
        SPLIT,
    ),
    (
        FRESH,
        Task::Commit {
            keys: 1_829,
            counted: true,
        },
        Told::Taken,
    ),
    // One leaf is marked by the commit, and four buckets are kept beside it. Nine levels hold back 22.
    (Opening { nodes: 42, ..FRESH }, ONE_KEY, Told::Taken),
    (
        Opening { nodes: 43, ..FRESH },
        ONE_KEY,
        Told::NoSpace { free: 4, held: 22 },
    ),
    // The last sequence, the last count of commits, and the last journal block. A leaf that has to be split is told before.
    (
        Opening {
            sequence: LAST,
            ..FRESH
        },
        Task::Commit {
            keys: 1_830,
            counted: true,
        },
        SPLIT,
    ),
    (
        Opening {
            sequence: LAST - 1,
            ..FRESH
        },
        ONE_KEY,
        Told::Taken,
    ),
    (
        Opening {
            sequence: LAST,
            ..FRESH
        },
        ONE_KEY,
        Told::Spent,
    ),
    (
        Opening {
            commits: LAST,
            ..FRESH
        },
        Task::Commit {
            keys: 1,
            counted: false,
        },
        Told::Taken,
    ),
    (
        Opening {
            commits: LAST,
            ..FRESH
        },
        ONE_KEY,
        Told::Spent,
    ),
    (
        Opening {
            number: LAST - 2,
            end: LAST - 1,
            ..FRESH
        },
        ONE_KEY,
        Told::Taken,
    ),
    (
        Opening {
            number: LAST - 1,
            end: LAST,
            ..FRESH
        },
        ONE_KEY,
        Told::Spent,
    ),
    // A session that has stopped writing answers looks, and no commit.
    (
        FRESH,
        Task::CommitOnceHalted,
        Told::Halted { dev: 0, tick: 9 },
    ),
];

// The first row of which anything else is told.
fn other_row(alloc: Global) -> Option<usize> {
    let mut at: usize = 0;
    for (opening, task, expected) in ROWS.iter() {
        if told_by(alloc, *opening, *task) != *expected {
            return Some(at);
        }
        at = at.saturating_add(1);
    }
    None
}

#[test]
fn memory_tells_what_the_rows_say(rt: HostRuntime) -> Result<(), Fail> {
    assert!(rt; other_row(rt.alloc()) == None);
    Ok(())
}
