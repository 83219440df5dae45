ghost use Rattle.std.specs.Prelude.{◌≡◌, ◌≤◌, ◌<◌, ◌+◌, ◌*◌, length, is_some, true, map, ◌^◌, IfSome};
ghost use Rattle.std.specs.List.{list_all, list_any};
ghost use Rattle.bucket_pool.specs.Buckets.{is_free, is_empty, is_reserved, is_used, begins_empty, first_run, is_current_of, has_room, closed_state, rest_state, let_go, opened_for, marked_slot, marked_state, covers, is_named, kept_bucket, kept_state, kept_at, emptied_slot, waited, settled, slots_of, in_state, in_next, released, kept_slot};
ghost use Rattle.bucket_pool.specs.Places.{each_place};
ghost use Rattle.bucket_pool.specs.Space.{run_of, as_node};

use vol_types::{BUCKET_BLOCKS, Place};

/// A block of an open bucket.
#[derive(Clone, Copy, PartialEq, Eq)]
pub enum Slot {
    /// It may be reserved.
    Empty,
    /// Reserved by the bucket's actor.
    Reserved,
    /// Kept by a commit.
    Used,
    /// It was used before the bucket was emptied, and isn't given while the bucket is open.
    Spent,
}

/// A bucket that is open for an actor.
#[derive(Clone, Copy, PartialEq, Eq)]
pub struct OpenBucket {
    pub actor: u8,
    /// Whether the actor reserves in it; else it is open for blocks that are reserved still.
    pub current: bool,
    /// The number of the entry that emptied it last, since it was opened.
    pub emptied: Option<u64>,
    pub blocks: [Slot; 16],
}

/// What a bucket is used for.
#[derive(Clone, Copy, PartialEq, Eq)]
pub enum State {
    /// The superblocks and the sessions.
    Super,
    /// A part of the journal area.
    Journal,
    /// A node of a btree.
    Node,
    /// Blocks of files.
    User,
    Free,
    /// Emptied, and free once the entry of this number is durable.
    Waiting(u64),
    Opened(OpenBucket),
    /// Never given again, since it had its last generation.
    Retired,
}

/// A bucket: how often it was given anew, and its state.
#[derive(Clone, Copy, PartialEq, Eq)]
pub struct Bucket {
    pub generation: u32,
    pub state: State,
}

/// Blocks in a row: the first one, and how many.
#[derive(Clone, Copy, PartialEq, Eq)]
pub struct Run {
    pub place: Place,
    pub blocks: u8,
}

pub(crate) fn is_free(bucket: &Bucket) -> bool
    ensures { result ≡ is_free bucket.now }
{
    matches!(bucket.state, State::Free)
}

fn is_empty(slot: &Slot) -> bool
    ensures { result ≡ is_empty slot.now }
{
    matches!(slot, Slot::Empty)
}

fn is_reserved(slot: &Slot) -> bool
    ensures { result ≡ is_reserved slot.now }
{
    matches!(slot, Slot::Reserved)
}

fn is_used(slot: &Slot) -> bool
    ensures { result ≡ is_used slot.now }
{
    matches!(slot, Slot::Used)
}

// Whether the first so many blocks are there and may be reserved.
fn begins_empty(slots: &[Slot], count: usize) -> bool
    ensures value { result ≡ begins_empty count slots.now }
    ensures within { result ≡ true → count ≤ length slots.now }
{
    if slots.len() < count {
        return false;
    }
    let (first, _) = slots.split_at(count);
    are_empty(first)
}

fn are_empty(slots: &[Slot]) -> bool
    ensures { result ≡ list_all is_empty slots.now }
{
    slots.iter().all(is_empty)
}

// Where the first so many blocks in a row are that may be reserved.
fn first_run(slots: &[Slot], count: usize) -> Option<usize>
    ensures value { result ≡ first_run count slots.now }
    ensures within { IfSome result (λ first. first + count ≤ length slots.now) }
{
    for at in 0..slots.len() {
        let (_, rest) = slots.split_at(at);
        if begins_empty(rest, count) {
            return Some(at);
        }
    }
    None
}

pub(crate) fn is_current_of(bucket: &Bucket, actor: u8) -> bool
    ensures { result ≡ is_current_of actor bucket.now }
{
    match &bucket.state {
        State::Opened(bucket) => bucket.actor == actor && bucket.current,
        _ => false,
    }
}

// Where the first so many blocks in a row of an open bucket are that may be reserved.
pub(crate) fn run_in(bucket: &Bucket, count: usize) -> Option<usize>
    ensures value { result ≡ first_run count (slots_of bucket.now.state) }
    ensures within { IfSome result (λ first. first + count ≤ 16) }
{
    match &bucket.state {
        State::Opened(bucket) => first_run(&bucket.blocks, count),
        _ => None,
    }
}

/// Where the blocks are that are reserved next, so many in a row, if the bucket has them.
pub(crate) fn run_of(bucket: &Bucket, count: usize) -> usize
    requires { count ≤ 16 }
    ensures value { result ≡ run_of count bucket.now }
    ensures within { result + count ≤ 16 }
{
    match run_in(bucket, count) {
        Some(first) => first,
        None => 0,
    }
}

pub(crate) fn has_room(bucket: &Bucket, count: usize, actor: u8) -> bool
    ensures { result ≡ has_room count actor bucket.now }
{
    is_current_of(bucket, actor) && run_in(bucket, count).is_some()
}

fn has_used(slots: &[Slot]) -> bool
    ensures { result ≡ list_any is_used slots.now }
{
    slots.iter().any(is_used)
}

fn has_reserved(slots: &[Slot]) -> bool
    ensures { result ≡ list_any is_reserved slots.now }
{
    slots.iter().any(is_reserved)
}

// What an open bucket is when it is closed.
fn closed_state(bucket: &OpenBucket) -> State
    ensures { result ≡ closed_state bucket.now }
{
    if has_used(&bucket.blocks) {
        return State::User;
    }
    match bucket.emptied {
        None => State::Free,
        Some(seq) => State::Waiting(seq),
    }
}

// Closes an open bucket in which its actor reserves no more and has nothing reserved.
fn rest_state(bucket: OpenBucket) -> State
    ensures { result ≡ rest_state bucket }
{
    if bucket.current {
        return State::Opened(bucket);
    }
    if has_reserved(&bucket.blocks) {
        return State::Opened(bucket);
    }
    closed_state(&bucket)
}

/// A bucket in which its actor reserves no more.
pub(crate) fn let_go(bucket: Bucket) -> Bucket
    ensures { result ≡ let_go bucket }
{
    match bucket.state {
        State::Opened(inside) => {
            let blocks = inside.blocks;
            Bucket {
                generation: bucket.generation,
                state: rest_state(OpenBucket {
                    actor: inside.actor,
                    current: false,
                    emptied: inside.emptied,
                    blocks,
                }),
            }
        }
        _ => bucket,
    }
}

/// A bucket that was opened for an actor.
pub(crate) fn opened_for(bucket: Bucket, actor: u8) -> Bucket
    ensures { result ≡ opened_for actor bucket }
{
    Bucket {
        generation: bucket.generation,
        state: State::Opened(OpenBucket {
            actor,
            current: true,
            emptied: None,
            blocks: [Slot::Empty; 16],
        }),
    }
}

// A block, reserved if it is one of so many from the first one on.
fn marked_slot(slot: Slot, first: usize, count: usize, at: usize) -> Slot
    requires { first + count ≤ 16 }
    ensures { result ≡ marked_slot first count at slot }
{
    if first <= at && at < first + count {
        return Slot::Reserved;
    }
    slot
}

// Reserves so many blocks from the first one on.
#[tactic(auto, using(crate::proofs::EachPlace::partly_more, crate::proofs::EachPlace::partly_all))]
fn mark(slots: &mut [Slot], first: usize, count: usize)
    requires { first + count ≤ 16 }
    ensures { slots.new ≡ each_place (marked_slot first count) slots.old }
{
    for at in 0..slots.len() {
        slots[at] = marked_slot(slots[at], first, count, at);
    }
}

/// A bucket in which so many blocks from the first one on are reserved, where it is open.
pub(crate) fn marked(bucket: Bucket, first: usize, count: usize) -> Bucket
    requires { first + count ≤ 16 }
    ensures { result ≡ in_state bucket (marked_state first count bucket.state) }
{
    match bucket.state {
        State::Opened(inside) => {
            let mut blocks = inside.blocks;
            mark(&mut blocks, first, count);
            Bucket {
                generation: bucket.generation,
                state: State::Opened(OpenBucket {
                    actor: inside.actor,
                    current: inside.current,
                    emptied: inside.emptied,
                    blocks,
                }),
            }
        }
        _ => bucket,
    }
}

fn covers(run: &Run, dev: u8, block: u32) -> bool
    ensures { result ≡ covers dev block run.now }
{
    run.place.dev == dev
        && run.place.block <= block
        && u64::from(block) < u64::from(run.place.block) + u64::from(run.blocks)
}

// Whether one of the runs has the block of the device.
fn is_named(runs: &[Run], dev: u8, block: u32) -> bool
    ensures { result ≡ is_named runs.now dev block }
{
    runs.iter().any(|run| covers(run, dev, block))
}

fn kept_slot(slot: Slot, named: bool) -> Slot
    ensures { result ≡ kept_slot named slot }
{
    match slot {
        Slot::Reserved if named => Slot::Used,
        Slot::Reserved => Slot::Empty,
        _ => slot,
    }
}

// Keeps of the reserved blocks those that the runs name, and gives the others back. The first block's number is given.
#[tactic(auto, using(crate::proofs::EachPlace::partly_more, crate::proofs::EachPlace::partly_all))]
fn keep_slots(slots: &mut [Slot], runs: &[Run], dev: u8, first: u32)
    requires { first + length slots.old < 2 ^ 32 }
    ensures { slots.new ≡ each_place (λ at. kept_slot (is_named runs.now dev (first + at)))
        slots.old }
{
    for at in 0..slots.len() {
        slots[at] = kept_slot(slots[at], is_named(runs, dev, first + at as u32));
    }
}

/// Bucket `at` of a device after a commit of an actor that uses the blocks of the runs.
pub(crate) fn kept(bucket: Bucket, actor: u8, runs: &[Run], dev: u8, at: u32) -> Bucket
    requires { at < 65536 }
    ensures { result ≡ kept_at actor runs.now dev at bucket }
{
    match bucket.state {
        State::Opened(inside) if inside.actor == actor => {
            let mut blocks = inside.blocks;
            keep_slots(&mut blocks, runs, dev, BUCKET_BLOCKS * at);
            Bucket {
                generation: bucket.generation,
                state: rest_state(OpenBucket {
                    actor: inside.actor,
                    current: inside.current,
                    emptied: inside.emptied,
                    blocks,
                }),
            }
        }
        _ => bucket,
    }
}

fn emptied_slot(slot: Slot) -> Slot
    ensures { result ≡ emptied_slot slot }
{
    match slot {
        Slot::Used => Slot::Spent,
        _ => slot,
    }
}

// No block is used any more.
#[tactic(auto, using(crate::proofs::EachPlace::partly_more))]
fn empty_slots(slots: &mut [Slot])
    ensures { slots.new ≡ map emptied_slot slots.old }
{
    for at in 0..slots.len() {
        slots[at] = emptied_slot(slots[at]);
    }
}

// A bucket in another state, with the next generation, where there is one.
fn in_next(bucket: Bucket, state: State) -> Bucket
    ensures { result ≡ in_next bucket state }
{
    Bucket {
        generation: bucket.generation.saturating_add(1),
        state,
    }
}

/// A bucket that the entry of this number empties.
pub(crate) fn waited(bucket: Bucket, seq: u64) -> Bucket
    ensures { result ≡ waited seq bucket }
{
    match bucket.state {
        State::Node => Bucket {
            generation: bucket.generation,
            state: State::Waiting(seq),
        },
        State::User => in_next(bucket, State::Waiting(seq)),
        State::Opened(inside) => {
            let mut blocks = inside.blocks;
            empty_slots(&mut blocks);
            in_next(
                bucket,
                State::Opened(OpenBucket {
                    actor: inside.actor,
                    current: inside.current,
                    emptied: Some(seq),
                    blocks,
                }),
            )
        }
        _ => bucket,
    }
}

// What a bucket is once nothing waits for it.
pub(crate) fn released(generation: u32) -> State
    ensures { result ≡ released generation }
{
    if generation == u32::MAX {
        return State::Retired;
    }
    State::Free
}

/// A bucket once all entries up to this number are durable.
pub(crate) fn settled(bucket: Bucket, seq: u64) -> Bucket
    ensures { result ≡ settled seq bucket }
{
    match bucket.state {
        State::Waiting(entry) if entry <= seq => Bucket {
            generation: bucket.generation,
            state: released(bucket.generation),
        },
        _ => bucket,
    }
}

/// A bucket that holds a node.
pub(crate) fn as_node(bucket: Bucket) -> Bucket
    ensures { result ≡ as_node bucket }
{
    Bucket {
        generation: bucket.generation,
        state: State::Node,
    }
}
