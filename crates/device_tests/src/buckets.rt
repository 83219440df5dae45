//! Random steps over two devices, with what each answers and the state of all buckets after it, as another program with a
//! plain list of states computed them.

use bucket_pool::{Bucket, OpenBucket, Pool, PoolFault, Run, Slot, State};
use std::alloc::{AllocError, Global};
use std::test::Fail;
use vol_types::{Blocks, Counts, Key, Keys, Layout, Live, Place, Places, Pointers, Pos, Value};

#[derive(Clone, Copy)]
enum Step {
    // an actor, blocks, replicas, and how many buckets are held back on each device
    Reserve(u8, u8, u8, u32, u32),
    // an actor, and two runs: a device, a block, and how many
    Keep(u8, (u8, u32, u8), (u8, u32, u8)),
    GiveBack(u8),
    Nodes(u8),
    // a device, a block, and the number of an entry
    Wait(u8, u32, u64),
    Settle(u64),
}

fn mixed(sum: u64, number: u64) -> u64 {
    (sum % 1_000_003 * 131 + number % 1_000_003) % 1_000_003
}

fn state_code(state: &State) -> u64 {
    match state {
        State::Super => 1,
        State::Journal => 2,
        State::Node => 3,
        State::User => 4,
        State::Free => 5,
        State::Waiting(_) => 6,
        State::Opened(_) => 7,
        State::Retired => 8,
    }
}

fn slot_code(slot: Slot) -> u64 {
    match slot {
        Slot::Empty => 0,
        Slot::Reserved => 1,
        Slot::Used => 2,
        Slot::Spent => 3,
    }
}

fn emptied_code(emptied: Option<u64>) -> u64 {
    match emptied {
        None => 0,
        Some(seq) => seq % 1_000_003 + 1,
    }
}

fn opened_sum(start: u64, bucket: &OpenBucket) -> u64 {
    let mut sum = mixed(start, u64::from(bucket.actor));
    sum = mixed(sum, u64::from(bucket.current));
    sum = mixed(sum, emptied_code(bucket.emptied));
    for slot in bucket.blocks.iter() {
        sum = mixed(sum, slot_code(*slot));
    }
    sum
}

fn bucket_sum(bucket: &Bucket) -> u64 {
    let sum = mixed(state_code(&bucket.state), u64::from(bucket.generation));
    match &bucket.state {
        State::Waiting(seq) => mixed(sum, *seq),
        State::Opened(bucket) => opened_sum(sum, bucket),
        _ => sum,
    }
}

fn sum_with(sum: u64, pool: &Pool, dev: u8, at: u32) -> u64 {
    match pool.bucket(dev, at) {
        Some(bucket) => mixed(sum, bucket_sum(&bucket)),
        None => sum,
    }
}

// The states of 64 buckets of a device, mixed into a number.
fn device_sum(start: u64, pool: &Pool, dev: u8) -> u64 {
    let mut sum = start;
    for at in 0..64 {
        sum = sum_with(sum, pool, dev, at);
    }
    sum
}

// The states of 64 buckets of both.
fn sum_of(pool: &Pool) -> u64 {
    device_sum(device_sum(0, pool, 0), pool, 1)
}

fn place_sum(start: u64, place: &Place, generation: u32) -> u64 {
    let mut sum = mixed(start, u64::from(place.dev));
    sum = mixed(sum, u64::from(place.block));
    mixed(sum, u64::from(generation))
}

fn pointers_sum(pointers: &Pointers) -> u64 {
    let mut sum = 1;
    for pointer in pointers.as_slice() {
        sum = place_sum(sum, &pointer.place, pointer.generation);
    }
    sum
}

fn places_sum(places: &Places) -> u64 {
    let mut sum = 1;
    for place in places.as_slice() {
        sum = place_sum(sum, place, 0);
    }
    sum
}

// What a reservation answers, as a number: 0 for no space, 8 for no memory, and 9 where the call may not be made.
fn reserve(
    alloc: Global,
    pool: &mut Pool,
    actor: u8,
    blocks: u8,
    replicas: u8,
    held: &Counts,
) -> u64 {
    let devices = pool.devices();
    if blocks < 1 || blocks > 16 || replicas < 1 {
        return 9;
    }
    if replicas as usize > devices || held.len() != devices {
        return 9;
    }
    match pool.reserve(alloc, actor, blocks, replicas, held) {
        Ok(pointers) => pointers_sum(&pointers),
        Err(PoolFault::NoSpace(_)) => 0,
        Err(PoolFault::NoMemory) => 8,
    }
}

// The same, where so many buckets are held back on each device.
fn reserve_beside(
    alloc: Global,
    pool: &mut Pool,
    actor: u8,
    blocks: u8,
    replicas: u8,
    held: [u32; 2],
) -> u64 {
    match Counts::from_slice(alloc, &held) {
        Ok(held) => reserve(alloc, pool, actor, blocks, replicas, &held),
        Err(_) => 8,
    }
}

fn take_nodes(alloc: Global, pool: &mut Pool, replicas: u8) -> u64 {
    if replicas as usize > pool.devices() {
        return 9;
    }
    match pool.free_places(alloc, replicas) {
        Ok(places) => {
            pool.take_nodes(replicas);
            places_sum(&places)
        }
        Err(PoolFault::NoSpace(_)) => 0,
        Err(PoolFault::NoMemory) => 8,
    }
}

fn run_of(run: (u8, u32, u8)) -> Run {
    Run {
        place: Place {
            dev: run.0,
            block: run.1,
        },
        blocks: run.2,
    }
}

fn keep(pool: &mut Pool, actor: u8, first: (u8, u32, u8), second: (u8, u32, u8)) -> u64 {
    let runs = [run_of(first), run_of(second)];
    pool.keep(actor, &runs);
    1
}

fn wait(pool: &mut Pool, dev: u8, block: u32, seq: u64) -> u64 {
    let place = Place { dev, block };
    pool.wait(&place, seq);
    1
}

fn give_back(pool: &mut Pool, actor: u8) -> u64 {
    pool.give_back(actor);
    1
}

fn settle(pool: &mut Pool, seq: u64) -> u64 {
    pool.settle(seq);
    1
}

// What a step answers, as a number, which is 1 where it gives nothing.
fn take(alloc: Global, pool: &mut Pool, step: Step) -> u64 {
    match step {
        Step::Reserve(actor, blocks, replicas, first, second) => {
            reserve_beside(alloc, pool, actor, blocks, replicas, [first, second])
        }
        Step::Nodes(replicas) => take_nodes(alloc, pool, replicas),
        Step::Keep(actor, first, second) => keep(pool, actor, first, second),
        Step::GiveBack(actor) => give_back(pool, actor),
        Step::Wait(dev, block, seq) => wait(pool, dev, block, seq),
        Step::Settle(seq) => settle(pool, seq),
    }
}

static ID: [u8; 16] = [7; 16];

static SIZES: [u32; 2] = [1024, 1024];

fn layout(alloc: Global) -> Result<Layout, AllocError> {
    let blocks = Blocks::from_slice(alloc, &SIZES)?;
    Ok(Layout {
        id: ID,
        blocks,
        journal: 256,
        metadata_replicas: 2,
        data_replicas: 1,
    })
}

// The device, the number and the generation of a bucket, and how many of its blocks are in use.
static LIVE: [(u64, u64, u32, u8); 7] = [
    (0, 20, u32::MAX - 1, 3),
    (0, 21, u32::MAX, 0),
    (0, 22, 5, 0),
    (1, 3, 4, 2),
    (1, 17, 0, 0),
    (1, 30, 9, 16),
    (1, 31, u32::MAX, 1),
];

fn live_key(inode: u64, offset: u64, generation: u32, blocks: u8) -> Key {
    Key {
        pos: Pos {
            inode,
            offset,
            snapshot: 0,
        },
        value: Some(Value::Live(Live { generation, blocks })),
    }
}

// Keys of buckets that are in use, free again, and retired, and one of a bucket of the journal area.
fn live(alloc: Global) -> Result<Keys, AllocError> {
    let mut keys = Keys::new(alloc);
    for (dev, number, generation, blocks) in LIVE.iter() {
        keys.push(live_key(*dev, *number, *generation, *blocks))?;
    }
    Ok(keys)
}

// Two nodes in free buckets, one in the journal area, and a place that begins no bucket.
static NODES: [Place; 4] = [
    Place { dev: 0, block: 288 },
    Place { dev: 1, block: 288 },
    Place { dev: 1, block: 48 },
    Place { dev: 1, block: 600 },
];

fn opened_on(alloc: Global, layout: &Layout, live: &Keys) -> Result<Pool, Fail> {
    if !layout.is_valid() {
        return Err(Fail::from("the layout is none"));
    }
    let nodes = Places::from_slice(alloc, &NODES)?;
    Ok(Pool::of(alloc, layout, live, &nodes)?)
}

fn opened(alloc: Global) -> Result<Pool, Fail> {
    let layout = layout(alloc)?;
    let live = live(alloc)?;
    opened_on(alloc, &layout, &live)
}

// A step, what it answers, and the states of all buckets after it.
static STEPS: [(Step, u64, u64); 72] = [
    (Step::Reserve(1, 3, 1, 0, 0), 283717, 287696),
    (Step::Reserve(7, 5, 1, 0, 43), 287909, 296101),
    (Step::Keep(1, (0, 272, 3), (0, 0, 0)), 1, 363058),
    (Step::Settle(9), 1, 363058),
    (Step::Reserve(0, 1, 2, 42, 43), 0, 363058),
    (Step::Settle(9), 1, 363058),
    (Step::Nodes(2), 696583, 575137),
    (Step::Reserve(0, 11, 2, 40, 0), 685375, 627572),
    (Step::Reserve(7, 2, 1, 0, 0), 288564, 524212),
    (Step::Keep(0, (0, 368, 11), (1, 304, 11)), 1, 513034),
    (Step::Reserve(7, 13, 2, 39, 42), 0, 513034),
    (Step::Wait(0, 275, 11), 1, 400138),
    (Step::Keep(1, (0, 0, 0), (0, 0, 0)), 1, 400138),
    (Step::Nodes(2), 672071, 40718),
    (Step::Keep(0, (0, 0, 0), (0, 0, 0)), 1, 40718),
    (Step::Reserve(1, 16, 1, 0, 41), 300485, 348849),
    (Step::Reserve(0, 7, 1, 0, 0), 302581, 702435),
    (Step::Keep(1, (0, 408, 8), (0, 0, 0)), 1, 758530),
    (Step::Nodes(2), 627967, 162863),
    (Step::Reserve(1, 2, 1, 0, 0), 300485, 24669),
    (Step::Reserve(0, 11, 1, 0, 0), 306773, 548308),
    (Step::Reserve(7, 13, 1, 34, 0), 308869, 770162),
    (Step::Reserve(0, 1, 1, 0, 0), 308214, 462873),
    (Step::Wait(0, 370, 12), 1, 140954),
    (Step::Reserve(0, 9, 1, 0, 40), 310965, 49068),
    (Step::Reserve(1, 1, 2, 32, 0), 658938, 665756),
    (Step::Wait(0, 413, 13), 1, 54274),
    (Step::Keep(0, (0, 480, 9), (0, 416, 7)), 1, 626174),
    (Step::Keep(0, (0, 0, 0), (0, 0, 0)), 1, 626174),
    (Step::Reserve(0, 13, 2, 0, 0), 616759, 191369),
    (Step::Nodes(2), 572655, 332557),
    (Step::Keep(1, (1, 352, 1), (0, 400, 2)), 1, 988458),
    (Step::Reserve(0, 2, 1, 0, 37), 308476, 954822),
    (Step::Wait(1, 390, 14), 1, 435160),
    (Step::Keep(1, (0, 0, 0), (0, 0, 0)), 1, 435160),
    (Step::Keep(7, (0, 310, 1), (0, 304, 5)), 1, 595395),
    (Step::GiveBack(0), 1, 457973),
    (Step::Wait(1, 281, 15), 1, 5883),
    (Step::Reserve(1, 9, 2, 32, 37), 0, 5883),
    (Step::Wait(0, 411, 16), 1, 374231),
    (Step::Reserve(7, 7, 1, 32, 36), 308869, 668226),
    (Step::Wait(0, 507, 17), 1, 672718),
    (Step::Nodes(1), 315157, 397817),
    (Step::Keep(7, (0, 464, 7), (0, 0, 0)), 1, 691812),
    (Step::Reserve(0, 2, 1, 31, 0), 306773, 645166),
    (Step::GiveBack(1), 1, 645166),
    (Step::Settle(16), 1, 182858),
    (Step::Wait(0, 461, 18), 1, 24959),
    (Step::Reserve(0, 5, 2, 32, 0), 862919, 862865),
    (Step::Wait(0, 419, 19), 1, 503660),
    (Step::Wait(0, 477, 20), 1, 718669),
    (Step::Settle(20), 1, 679001),
    (Step::Reserve(0, 7, 1, 0, 38), 307691, 41872),
    (Step::Wait(1, 507, 21), 1, 444900),
    (Step::Wait(0, 514, 22), 1, 812777),
    (Step::Wait(1, 306, 23), 1, 408662),
    (Step::Wait(1, 299, 24), 1, 382404),
    (Step::Settle(24), 1, 915274),
    (Step::Keep(0, (0, 458, 4), (0, 448, 2)), 1, 731193),
    (Step::Settle(24), 1, 731193),
    (Step::Keep(0, (0, 0, 0), (0, 0, 0)), 1, 731193),
    (Step::Reserve(0, 2, 1, 0, 0), 307036, 41310),
    (Step::Reserve(0, 1, 2, 0, 41), 860994, 578360),
    (Step::Reserve(0, 16, 1, 0, 0), 283718, 999233),
    (Step::Settle(24), 1, 999233),
    (Step::Reserve(0, 11, 1, 0, 40), 296294, 447657),
    (Step::Reserve(1, 7, 1, 33, 40), 302582, 25320),
    (Step::Wait(1, 488, 25), 1, 570194),
    (Step::Nodes(2), 557983, 644621),
    (Step::Wait(0, 441, 26), 1, 409699),
    (Step::Wait(1, 287, 27), 1, 640679),
    (Step::GiveBack(0), 1, 391024),
];

// The number of the first step that answers otherwise, or after which the buckets have other states.
fn first_other(alloc: Global, pool: &mut Pool) -> Option<u32> {
    let mut number: u32 = 0;
    for (step, answer, sum) in STEPS.iter() {
        if take(alloc, pool, *step) != *answer || sum_of(pool) != *sum {
            return Some(number);
        }
        number = number.saturating_add(1);
    }
    None
}

#[test]
fn steps(rt: HostRuntime) -> Result<(), Fail> {
    let alloc = rt.alloc();
    let mut pool = opened(alloc)?;
    assert!(rt; sum_of(&pool) == 712_977);
    assert!(rt; first_other(alloc, &mut pool) == None);
    Ok(())
}
