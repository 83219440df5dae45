//! Entries that are filled to the last byte, and random commits beside a plain table, with updates taken back.

ghost use Rattle.std.specs.Prelude.{◌≡◌, ◌↔◌, ◌+◌, ◌<◌, ◌≤◌, ◌^◌, All, IsTrue, true};
ghost use Rattle.vol_types.specs.Positions.{is_within};
ghost use Rattle.vol_types.specs.Ranges.{IsKeyValue};
ghost use Rattle.vol_types.specs.Standing.{IsUpdate};
ghost use Rattle.journal_writer.specs.Queues.{AreChanges, HasNumbers, blocks_with};

use journal_writer::{EntryQueue, KeyChanges};
use node_mem::NodeMem;
use std::alloc::{AllocError, Global};
use std::test::Fail;
use vol_types::{
    Btree, Duplicate, Listing, Live, Pos, Update, Updates, Value, positions_are_ordered,
};

fn at(offset: u64) -> Pos {
    Pos {
        inode: 0,
        offset,
        snapshot: 0,
    }
}

// A key of 26 bytes besides its btree and level.
fn live(generation: u32) -> Value {
    Value::Live(Live {
        blocks: 2,
        generation,
    })
}

// An update of 28 bytes that puts a key, or one of 23 bytes that takes one away.
fn update(offset: u64, value: Option<Value>) -> Update {
    Update {
        btree: Btree::Alloc,
        level: 0,
        pos: at(offset),
        value,
    }
}

fn are_updates(updates: &[Update]) -> bool
    ensures { IsTrue result ↔ All IsUpdate updates.now }
{
    updates.iter().all(|update| update.may_stand())
}

fn is_in_range(value: &Option<Value>) -> bool
    ensures { IsTrue result ↔ IsKeyValue value.now }
{
    match value {
        None => true,
        Some(value) => value.is_in_range(),
    }
}

fn are_in_range(values: &[Option<Value>]) -> bool
    ensures { IsTrue result ↔ All IsKeyValue values.now }
{
    values.iter().all(|value| is_in_range(value))
}

// The changes of one update, behind others.
fn push(changes: &mut KeyChanges, update: Update, before: Option<Value>) -> Result<(), AllocError> {
    changes.updates.push(update)?;
    changes.before.push(before)?;
    Ok(())
}

fn no_changes(alloc: Global) -> KeyChanges {
    KeyChanges {
        updates: Updates::new(alloc),
        before: Listing::new(alloc),
    }
}

// So many updates that take a key away, and then so many that put one.
fn changes(alloc: Global, removals: u64, puts: u64) -> Result<KeyChanges, AllocError>
    requires { removals + puts < 2 ^ 32 }
{
    let mut changes = no_changes(alloc);
    for offset in 0..removals + puts {
        let value = if offset < removals {
            None
        } else {
            Some(live(1))
        };
        push(&mut changes, update(offset, value), None)?;
    }
    Ok(changes)
}

// Whether a commit may be made.
fn may_be_made(queue: &EntryQueue, changes: &KeyChanges, counted: bool) -> bool
    ensures changes { result ≡ true → AreChanges queue.now.queue.mirrors changes.now }
    ensures numbers { result ≡ true → HasNumbers changes.now.updates counted queue.now.queue }
{
    let updates = changes.updates.as_slice();
    let before = changes.before.as_slice();
    if !are_updates(updates) || !are_in_range(before) || updates.len() != before.len() {
        return false;
    }
    if !queue.fits(updates) {
        return false;
    }
    has_numbers_for(queue, updates, counted)
}

// Whether the numbers are left that the entries take with these updates.
fn has_numbers_for(queue: &EntryQueue, updates: &[Update], counted: bool) -> bool
    requires updates { All IsUpdate updates.now }
    requires few { blocks_with queue.now.queue.mirrors updates.now ≤ 64 }
    ensures { IsTrue result ↔ HasNumbers updates.now counted queue.now.queue }
{
    let size = queue.size_of(updates);
    queue.has_numbers(size, counted)
}

// Makes a commit, and gives by how many blocks the entries grow; or none where it may not be made.
fn commit(
    queue: &mut EntryQueue,
    changes: KeyChanges,
    counted: bool,
) -> Result<Option<u32>, AllocError> {
    if !may_be_made(queue, &changes, counted) {
        return Ok(None);
    }
    let size = queue.size_of(changes.updates.as_slice());
    queue.reserve(changes.updates.as_slice(), size)?;
    queue.join(changes, size, counted);
    Ok(Some(size.blocks))
}

// A commit, and what is there after it.
#[derive(Clone, Copy)]
struct Step {
    removals: u16,
    puts: u16,
    counted: bool,
    growth: Option<u32>,
    has_closed: bool,
    last_block: u64,
    commits: u64,
}

const EMPTY: Step = Step {
    removals: 0,
    puts: 0,
    counted: true,
    growth: Some(0),
    has_closed: false,
    last_block: 100,
    commits: 6,
};

// Whether a commit does what the step says.
fn does(alloc: Global, queue: &mut EntryQueue, step: &Step) -> Result<bool, AllocError> {
    let growth = commit(
        queue,
        changes(alloc, u64::from(step.removals), u64::from(step.puts))?,
        step.counted,
    )?;
    if growth != step.growth || queue.has_closed() != step.has_closed {
        return Ok(false);
    }
    Ok(queue.last_block() == step.last_block && queue.commits() == step.commits)
}

// How many of the steps are as they say, up to the first that isn't.
fn right_steps(alloc: Global, queue: &mut EntryQueue, steps: &[Step]) -> Result<usize, AllocError> {
    for at in 0..steps.len() {
        if !does(alloc, queue, &steps[at])? {
            return Ok(at);
        }
    }
    Ok(steps.len())
}

// The numbers of an entry, and how many updates it has.
#[derive(Clone, Copy)]
struct Taken {
    after: u64,
    behind: u64,
    commits: u64,
    updates: usize,
}

// Whether the entry that is taken out, put back and taken out again has these numbers.
fn takes(alloc: Global, queue: &mut EntryQueue, taken: &Taken) -> bool {
    if !put_out_back(alloc, queue) || !queue.has_entry_numbers() {
        return false;
    }
    let entry = queue.take_oldest(alloc);
    if entry.after != taken.after || entry.behind != taken.behind {
        return false;
    }
    entry.commits == taken.commits && entry.changes.updates.len() == taken.updates
}

// How many of the entries are as they are expected, up to the first that isn't.
fn right_entries(alloc: Global, queue: &mut EntryQueue, entries: &[Taken]) -> usize {
    for at in 0..entries.len() {
        if !takes(alloc, queue, &entries[at]) {
            return at;
        }
    }
    entries.len()
}

const FULL: Step = Step {
    removals: 11_023,
    puts: 9,
    growth: Some(63),
    last_block: 163,
    ..EMPTY
};

const ONE_MORE: Step = Step {
    removals: 1,
    growth: Some(1),
    has_closed: true,
    last_block: 164,
    commits: 7,
    ..EMPTY
};

const WITHOUT_KEYS: Step = Step {
    removals: 0,
    growth: Some(0),
    commits: 8,
    ..ONE_MORE
};

// One update too many, as many as there may be, one more, and none, which is counted or isn't.
static FILLED: [Step; 5] = [
    Step {
        removals: 11_024,
        growth: None,
        commits: 5,
        last_block: 100,
        ..FULL
    },
    FULL,
    ONE_MORE,
    WITHOUT_KEYS,
    Step {
        counted: false,
        ..WITHOUT_KEYS
    },
];

// How many of the steps go as they say in a queue without entries.
fn right_from_new(alloc: Global, steps: &[Step]) -> Result<usize, AllocError> {
    let mut queue = EntryQueue::new(alloc, 1, 7, 99, 5);
    right_steps(alloc, &mut queue, steps)
}

// An entry with roots on one device takes 171 bytes, and 64 blocks have 253,952: 11,023 removals and 9 puts fill them to the
// last byte.
#[test]
fn filled_to_the_last_byte(rt: HostRuntime) -> Result<(), Fail> {
    assert!(rt; right_from_new(rt.alloc(), &FILLED)? == 5);
    Ok(())
}

// Commits that fill entries to their last byte, and what is then counted.
static GROWN: [Step; 6] = [
    Step {
        removals: 165,
        ..EMPTY
    },
    Step {
        puts: 1,
        growth: Some(1),
        last_block: 101,
        commits: 7,
        ..EMPTY
    },
    Step {
        removals: 10_856,
        puts: 9,
        growth: Some(62),
        last_block: 163,
        commits: 8,
        ..EMPTY
    },
    Step {
        removals: 11_023,
        puts: 9,
        growth: Some(64),
        has_closed: true,
        last_block: 227,
        commits: 9,
        ..EMPTY
    },
    Step {
        removals: 11_023,
        puts: 9,
        growth: Some(64),
        has_closed: true,
        last_block: 291,
        commits: 10,
        ..EMPTY
    },
    Step {
        removals: 1,
        growth: Some(1),
        has_closed: true,
        last_block: 292,
        commits: 11,
        ..EMPTY
    },
];

// The entries that they filled, as they leave.
static LEAVING: [Taken; 4] = [
    Taken {
        after: 7,
        behind: 99,
        commits: 8,
        updates: 11_031,
    },
    Taken {
        after: 8,
        behind: 163,
        commits: 9,
        updates: 11_032,
    },
    Taken {
        after: 9,
        behind: 227,
        commits: 10,
        updates: 11_032,
    },
    Taken {
        after: 10,
        behind: 291,
        commits: 11,
        updates: 1,
    },
];

// How many of the steps and of the entries that leave are right, and the last block after them.
fn grown(alloc: Global) -> Result<(usize, usize, u64), AllocError> {
    let mut queue = EntryQueue::new(alloc, 1, 7, 99, 5);
    grow(alloc, &mut queue)
}

fn grow(alloc: Global, queue: &mut EntryQueue) -> Result<(usize, usize, u64), AllocError> {
    let steps = right_steps(alloc, queue, &GROWN)?;
    let entries = right_entries(alloc, queue, &LEAVING);
    Ok((steps, entries, queue.last_block()))
}

// 165 removals fill the first block but for 2 bytes. Three entries of 64 blocks are closed, and leave in their order.
#[test]
fn grown_by_little(rt: HostRuntime) -> Result<(), Fail> {
    assert!(rt; grown(rt.alloc())? == (6, 4, 293));
    Ok(())
}

// Whether a node covers a position.
fn covers(node: &NodeMem, pos: &Pos) -> bool
    ensures { result ≡ is_within node.now.least node.now.greatest pos.now }
{
    node.least() <= *pos && *pos <= node.greatest()
}

// Puts a value into a table, and gives the one that was there.
fn put(
    table: &mut NodeMem,
    offset: u64,
    value: Option<Value>,
) -> Result<Option<Value>, AllocError> {
    let pos = at(offset);
    if !covers(table, &pos) || !is_in_range(&value) {
        return Ok(None);
    }
    positions_are_ordered();
    table.put(&pos, value)
}

fn next(seed: u64) -> u64 {
    seed.wrapping_mul(6_364_136_223_846_793_005)
        .wrapping_add(1_442_695_040_888_963_407)
}

// Makes a random update of a table, and adds it with the value before it.
fn change(
    alloc: Global,
    table: &mut NodeMem,
    changes: &mut KeyChanges,
    seed: u64,
) -> Result<(), AllocError> {
    let offset = seed >> 61;
    let value = if seed >> 40 & 1 == 0 {
        None
    } else {
        Some(live((seed >> 32) as u32))
    };
    let update = update(offset, value.copy(alloc)?);
    let before = put(table, offset, value)?;
    push(changes, update, before)
}

// A few random updates of a table, with the values before them.
fn random_changes(
    alloc: Global,
    table: &mut NodeMem,
    first: u64,
) -> Result<KeyChanges, AllocError> {
    let mut changes = no_changes(alloc);
    let mut seed = first;
    for _ in 0..5 {
        seed = next(seed);
        change(alloc, table, &mut changes, seed)?;
    }
    Ok(changes)
}

// Commits random changes of a table, so many times, and says whether each could be made.
fn commit_some(
    alloc: Global,
    queue: &mut EntryQueue,
    table: &mut NodeMem,
    first: u64,
) -> Result<bool, AllocError> {
    for turn in 0..40 {
        let changes = random_changes(alloc, table, first.wrapping_add(turn))?;
        if commit(queue, changes, true)?.is_none() {
            return Ok(false);
        }
    }
    Ok(true)
}

// Takes an entry out, if it has its numbers.
fn take_out(alloc: Global, queue: &mut EntryQueue) -> bool {
    if !queue.has_entry_numbers() {
        return false;
    }
    let _ = queue.take_oldest(alloc);
    true
}

// Takes an entry out, if it has its numbers, and puts it back.
fn put_out_back(alloc: Global, queue: &mut EntryQueue) -> bool {
    if !queue.has_entry_numbers() {
        return false;
    }
    let entry = queue.take_oldest(alloc);
    queue.put_back(entry);
    true
}

// Whether a table without what waits has the same keys as another one.
fn is_back(
    alloc: Global,
    queue: &EntryQueue,
    table: &NodeMem,
    other: &NodeMem,
) -> Result<bool, AllocError> {
    let back = queue.taken_back(alloc, Btree::Alloc, table.copy(alloc)?)?;
    are_same(alloc, &back, other)
}

// Whether two tables have the same keys.
fn are_same(alloc: Global, one: &NodeMem, other: &NodeMem) -> Result<bool, AllocError> {
    Ok(one.keys(alloc)? == other.keys(alloc)?)
}

// A table with some keys.
fn table(alloc: Global) -> Result<NodeMem, AllocError> {
    let mut table = NodeMem::new(alloc, &Pos::LEAST, &Pos::GREATEST)?;
    let mut changes = no_changes(alloc);
    for seed in 0..6 {
        change(alloc, &mut table, &mut changes, (seed << 61) | (1 << 40))?;
    }
    Ok(table)
}

// Whether all commits are made, an entry is taken out and put back, the table without what waits is the first one, and it is
// the first one with it.
fn back_to_first(alloc: Global) -> Result<[bool; 4], AllocError> {
    let mut table = table(alloc)?;
    let first = table.copy(alloc)?;
    let mut queue = EntryQueue::new(alloc, 2, 1, 0, 0);
    back_to(alloc, &mut queue, &mut table, &first)
}

fn back_to(
    alloc: Global,
    queue: &mut EntryQueue,
    table: &mut NodeMem,
    first: &NodeMem,
) -> Result<[bool; 4], AllocError> {
    let is_committed = commit_some(alloc, queue, table, 10)?;
    let is_put_back = put_out_back(alloc, queue);
    let is_back = is_back(alloc, queue, table, first)?;
    let is_same = are_same(alloc, table, first)?;
    Ok([is_committed, is_put_back, is_back, is_same])
}

// All that was committed is taken back, also when it was taken out once and put back.
#[test]
fn taken_back_to_the_first(rt: HostRuntime) -> Result<(), Fail> {
    assert!(rt; back_to_first(rt.alloc())? == [true, true, true, false]);
    Ok(())
}

// The changes of one update that takes a key away, or a pointer to a node where the level isn't 0.
fn removal(alloc: Global, btree: Btree, level: u8) -> Result<KeyChanges, AllocError> {
    let mut changes = no_changes(alloc);
    let update = Update {
        btree,
        level,
        pos: at(3),
        value: None,
    };
    push(&mut changes, update, None)?;
    Ok(changes)
}

// The first entries that change three btrees.
fn firsts(queue: &EntryQueue) -> [Option<u64>; 3] {
    [
        queue.first_with(Btree::Alloc),
        queue.first_with(Btree::Inodes),
        queue.first_with(Btree::Dirents),
    ]
}

// Commits a removal.
fn commit_removal(
    alloc: Global,
    queue: &mut EntryQueue,
    btree: Btree,
    level: u8,
) -> Result<(), AllocError> {
    commit(queue, removal(alloc, btree, level)?, level == 0)?;
    Ok(())
}

// The first entries from commit to commit, the last but one after an entry was taken out, and whether it was.
fn firsts_in_turn(alloc: Global) -> Result<([[Option<u64>; 3]; 5], bool), AllocError> {
    let mut queue = EntryQueue::new(alloc, 1, 7, 99, 5);
    firsts_of(alloc, &mut queue)
}

fn firsts_of(
    alloc: Global,
    queue: &mut EntryQueue,
) -> Result<([[Option<u64>; 3]; 5], bool), AllocError> {
    let none = firsts(queue);
    commit(queue, changes(alloc, 11_023, 9)?, true)?;
    let one = firsts(queue);
    commit_removal(alloc, queue, Btree::Inodes, 0)?;
    commit_removal(alloc, queue, Btree::Dirents, 1)?;
    let two = firsts(queue);
    let is_taken_out = take_out(alloc, queue);
    let left = firsts(queue);
    commit_removal(alloc, queue, Btree::Dirents, 0)?;
    Ok(([none, one, two, left, firsts(queue)], is_taken_out))
}

// Entry 8 is filled with changes of one btree and closed, and entry 9 has those of others; a pointer is no key.
#[test]
fn first_entries_with_keys(rt: HostRuntime) -> Result<(), Fail> {
    let rows = [
        [None, None, None],
        [Some(8), None, None],
        [Some(8), Some(9), None],
        [None, Some(9), None],
        [None, Some(9), Some(9)],
    ];
    assert!(rt; firsts_in_turn(rt.alloc())? == (rows, true));
    Ok(())
}

// Whether all commits are made, and a table without the changes of the entry that is written next, which is taken out, is the
// first one.
fn without_next(alloc: Global) -> Result<(bool, bool), AllocError> {
    let mut table = table(alloc)?;
    let first = table.copy(alloc)?;
    let mut queue = EntryQueue::new(alloc, 2, 1, 0, 0);
    commit_and_take(alloc, &mut queue, &mut table, &first)
}

fn commit_and_take(
    alloc: Global,
    queue: &mut EntryQueue,
    table: &mut NodeMem,
    first: &NodeMem,
) -> Result<(bool, bool), AllocError> {
    let is_committed = commit_some(alloc, queue, table, 10)?;
    Ok((is_committed, is_next_back(alloc, queue, table, first)?))
}

fn is_next_back(
    alloc: Global,
    queue: &mut EntryQueue,
    table: &NodeMem,
    first: &NodeMem,
) -> Result<bool, AllocError> {
    if !queue.has_entry_numbers() {
        return Ok(false);
    }
    let entry = queue.take_oldest(alloc);
    let back = entry.taken_back(alloc, Btree::Alloc, table.copy(alloc)?)?;
    are_same(alloc, &back, first)
}

// The changes of the one entry that is taken out are taken back from what stood when it was.
#[test]
fn one_entry_taken_back(rt: HostRuntime) -> Result<(), Fail> {
    assert!(rt; without_next(rt.alloc())? == (true, true));
    Ok(())
}
