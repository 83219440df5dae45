//! Worked checkpoints, act by act: the events that they take with their device calls, what the newest entry says that is found behind
//! them, and what is written of a leaf.

use crate::acts::{Act, JOURNAL, NODES};
use crate::failing::{Failing, NEVER};
use crate::images::{ONE, Shape, TWO, block_of, leaf_payload};
use crate::remains::{Newest, found_on};
use crate::sessions::{Run, left_behind};
use dev_model::MemDevices;
use sealed_block::{NODE_SET, payload, unseal};
use std::alloc::Global;
use std::test::Fail;
use vol_core::{Stage, Work};

// The births of the roots of deleted ids and of the counters as the format makes them, and of the first three nodes of session 2.
const OTHER: u64 = 0x1_0000_0007;

const ROOT: u64 = 0x1_0000_0008;

const NEW: u64 = 0x2_0000_0000;

const SECOND: u64 = 0x2_0000_0001;

const THIRD: u64 = 0x2_0000_0002;

// The place of the root of the counters, and the first free ones behind all roots.
const OLD: u32 = 400;

const FREE: u32 = 416;

const NEXT_FREE: u32 = 432;

// On three devices, of which two keep metadata.
static ON_THREE: [&[Act]; 1] = [
    // A checkpoint of two leaves behind a first commit: the entry of the commit, before which all
    // devices are flushed; for each leaf 16 blocks on each metadata device; a flush of these, before the leaves are put in place; and
    // the entry that names them. The next commit makes one of the leaves dirty, and its entry needs nothing for the other one. The root of
    // the counters is the second leaf. What is found leads to the new leaves once the entry that names them is flushed on one of the
    // metadata devices, and not before.
    &[
        Act::PutBoth(0, 5),
        Act::At(Work::Journal, Stage::Seal, 1, 0),
        Act::At(Work::Journal, Stage::Flush(0), 1, 1),
        Act::At(Work::Journal, Stage::Flush(1), 1, 1),
        Act::At(Work::Journal, Stage::Flush(2), 1, 1),
        Act::At(Work::Journal, Stage::WriteEntry, 1, 2),
        Act::At(Work::Journal, Stage::Flush(0), 1, 1),
        Act::At(Work::Journal, Stage::Flush(1), 1, 1),
        Act::At(Work::Journal, Stage::Settle, 1, 0),
        Act::Found(2, 2, ROOT, OLD),
        Act::At(Work::Nodes, Stage::Freeze(OTHER), 1, 0),
        Act::At(Work::Nodes, Stage::WriteSet(OTHER), 16, 2),
        Act::At(Work::Nodes, Stage::Freeze(ROOT), 1, 0),
        Act::At(Work::Nodes, Stage::WriteSet(ROOT), 16, 2),
        Act::At(Work::Nodes, Stage::Flush(0), 1, 1),
        Act::At(Work::Nodes, Stage::Flush(1), 1, 1),
        Act::At(Work::Nodes, Stage::CommitNodes, 1, 0),
        Act::At(Work::Journal, Stage::Seal, 1, 0),
        Act::At(Work::Journal, Stage::WriteEntry, 1, 2),
        Act::Found(2, 2, ROOT, OLD),
        Act::At(Work::Journal, Stage::Flush(0), 1, 1),
        Act::Found(3, 3, SECOND, NEXT_FREE),
        Act::At(Work::Journal, Stage::Flush(1), 1, 1),
        Act::At(Work::Journal, Stage::Settle, 1, 0),
        JOURNAL,
        NODES,
        Act::Found(3, 3, SECOND, NEXT_FREE),
        Act::Put(1, 6),
        JOURNAL,
        Act::Found(4, 4, SECOND, NEXT_FREE),
    ],
];

// On one device.
static ON_ONE: [&[Act]; 3] = [
    // Events of a checkpoint of two leaves where they aren't due: none before the entry is durable, none of the second leaf before the first one is
    // written, and no leaf is put in place before all blocks are written and flushed.
    &[
        Act::PutBoth(0, 5),
        Act::Undue(Stage::Freeze(OTHER), Stage::Rest),
        Act::Undue(Stage::WriteSet(OTHER), Stage::Rest),
        Act::Undue(Stage::CommitNodes, Stage::Rest),
        JOURNAL,
        Act::Undue(Stage::Freeze(ROOT), Stage::Freeze(OTHER)),
        Act::Undue(Stage::WriteSet(OTHER), Stage::Freeze(OTHER)),
        Act::Undue(Stage::CommitNodes, Stage::Freeze(OTHER)),
        Act::Make(Work::Nodes, 16),
        Act::Undue(Stage::Freeze(OTHER), Stage::WriteSet(OTHER)),
        Act::Undue(Stage::WriteSet(ROOT), Stage::WriteSet(OTHER)),
        Act::Undue(Stage::CommitNodes, Stage::WriteSet(OTHER)),
        Act::Make(Work::Nodes, 1),
        Act::Undue(Stage::WriteSet(OTHER), Stage::Freeze(ROOT)),
        Act::Make(Work::Nodes, 17),
        Act::Undue(Stage::CommitNodes, Stage::Flush(0)),
        Act::Make(Work::Nodes, 1),
        Act::Undue(Stage::Freeze(ROOT), Stage::CommitNodes),
        NODES,
        Act::Undue(Stage::Freeze(SECOND), Stage::Rest),
        Act::Undue(Stage::CommitNodes, Stage::Rest),
        JOURNAL,
        Act::Found(3, 3, SECOND, NEXT_FREE),
    ],
    // The bucket of a leaf that was replaced isn't given to a new one before the entry that names the new one is durable. Entry 3 is in flight,
    // with the old root, when the first new leaf is put in place; once it is durable the leaf is due again, which goes to the next free bucket,
    // and entry 4 names that. Then the old bucket is free, and the next leaf goes there.
    &[
        Act::Put(0, 5),
        JOURNAL,
        Act::Put(1, 6),
        Act::Make(Work::Journal, 1),
        NODES,
        Act::Make(Work::Journal, 3),
        Act::Found(3, 2, ROOT, OLD),
        NODES,
        Act::Found(3, 2, ROOT, OLD),
        JOURNAL,
        Act::Found(4, 4, SECOND, NEXT_FREE),
        Act::Put(2, 7),
        JOURNAL,
        NODES,
        Act::Found(5, 5, SECOND, NEXT_FREE),
        JOURNAL,
        Act::Found(6, 6, THIRD, OLD),
    ],
    // A leaf has the keys of durable entries alone, though entry 3 is closed and entry 4 open when it is frozen. Entry 3 names the leaf, which then
    // pins it, and is durable before entry 4: what is found then has nothing of that one. An entry of 33 parts takes 36 events on one device.
    &[
        Act::Put(0, 5),
        JOURNAL,
        Act::Fill(1, 6),
        Act::FillNext(2, 7),
        NODES,
        Act::Make(Work::Journal, 36),
        Act::Found(3, 3, NEW, FREE),
        JOURNAL,
        Act::Found(4, 3, NEW, FREE),
    ],
];

// On one device, and on two that keep metadata.
static ON_BOTH: [&[Act]; 2] = [
    // The formatted volume has entry 1. Entries need those from the first one on that changed a dirty leaf; behind a checkpoint the last one needs only itself, and leads to the
    // leaf in its new place.
    &[
        Act::Found(1, 1, ROOT, OLD),
        Act::Put(0, 5),
        JOURNAL,
        Act::Found(2, 2, ROOT, OLD),
        Act::Put(1, 6),
        JOURNAL,
        Act::Found(3, 2, ROOT, OLD),
        NODES,
        Act::Found(3, 2, ROOT, OLD),
        JOURNAL,
        Act::Found(4, 4, NEW, FREE),
    ],
    // A commit between `Freeze` and `CommitNodes` is in the entry that names the new leaf, so that this leaf pins that entry, and it is in the
    // leaf of the next checkpoint, whose entry needs no other one: so its keys are read from the leaf alone.
    &[
        Act::Put(0, 5),
        JOURNAL,
        Act::Make(Work::Nodes, 1),
        Act::Put(1, 6),
        NODES,
        JOURNAL,
        Act::Found(3, 3, NEW, FREE),
        Act::Put(2, 7),
        JOURNAL,
        Act::Found(4, 3, NEW, FREE),
        NODES,
        JOURNAL,
        Act::Found(5, 5, SECOND, OLD),
    ],
];

// On two devices the entry of a commit takes two calls to flush them, two to write it, and two to flush it; then each block of a leaf takes
// one on each of them. Behind these calls, here of three blocks and of one device, the other device fails.
const SECOND_OF_FOURTH: Failing = Failing { call: 13, ..NEVER };

// Nothing is written behind a write that fails. Looks go on, and what was durable is found.
static LEAF_FAILS: [&[Act]; 1] = [&[
    Act::Put(0, 5),
    JOURNAL,
    Act::At(Work::Nodes, Stage::Freeze(ROOT), 1, 0),
    Act::At(Work::Nodes, Stage::WriteSet(ROOT), 3, 2),
    Act::Fails(Work::Nodes, Stage::WriteSet(ROOT), 1),
    Act::Refused(Stage::WriteSet(ROOT), 1),
    Act::Refused(Stage::CommitNodes, 1),
    Act::Refused(Stage::Freeze(ROOT), 1),
    Act::Refused(Stage::Flush(0), 1),
    Act::Refused(Stage::Seal, 1),
    Act::Refused(Stage::Settle, 1),
    Act::Found(2, 2, ROOT, OLD),
]];

// What the newest entry says that is found where a volume stops behind all of this with nothing that isn't settled, if what was durable is
// found.
fn found_behind(
    alloc: Global,
    shape: Shape,
    failing: Failing,
    acts: &[Act],
) -> Result<Option<Newest>, Fail> {
    let mut run = Run::new(shape, failing, 0);
    let mut devices = left_behind(alloc, acts, &mut run)?;
    let found = found_on(alloc, &mut devices, run.story.durable, run.story.durable);
    drop(devices);
    if run.is_right && found.is_newer.is_some() {
        return Ok(found.newest);
    }
    Ok(None)
}

// Whether the newest entry says what an act of `Found` does. Any other act asks for nothing.
fn is_found(
    alloc: Global,
    shape: Shape,
    failing: Failing,
    done: &[Act],
    act: Act,
) -> Result<bool, Fail> {
    let Act::Found(sequence, oldest, birth, block) = act else {
        return Ok(true);
    };
    Ok(match found_behind(alloc, shape, failing, done)? {
        Some(newest) => {
            newest.sequence == sequence
                && newest.oldest == oldest
                && newest.birth == birth
                && newest.block == block
        }
        None => false,
    })
}

// The place of the first act of `Found` that finds anything else.
fn other_act(
    alloc: Global,
    shape: Shape,
    failing: Failing,
    acts: &[Act],
) -> Result<Option<usize>, Fail> {
    let mut at: usize = 0;
    for act in acts {
        let (done, _) = acts.split_at(at.min(acts.len()));
        if !is_found(alloc, shape, failing, done, *act)? {
            return Ok(Some(at));
        }
        at = at.saturating_add(1);
    }
    Ok(None)
}

// The first list with an act that finds anything else, and the place of that act.
fn other_list(
    alloc: Global,
    shape: Shape,
    failing: Failing,
    lists: &[&[Act]],
) -> Result<Option<(usize, usize)>, Fail> {
    let mut list: usize = 0;
    for acts in lists {
        if let Some(at) = other_act(alloc, shape, failing, acts)? {
            return Ok(Some((list, at)));
        }
        list = list.saturating_add(1);
    }
    Ok(None)
}

#[test]
fn checkpoints_leave_these_entries(rt: HostRuntime) -> Result<(), Fail> {
    let alloc = rt.alloc();
    let three = Shape {
        devices: 3,
        mirrors: 2,
    };
    assert!(rt; other_list(alloc, three, NEVER, &ON_THREE)? == None);
    assert!(rt; other_list(alloc, ONE, NEVER, &ON_ONE)? == None);
    assert!(rt; other_list(alloc, ONE, NEVER, &ON_BOTH)? == None);
    assert!(rt; other_list(alloc, TWO, NEVER, &ON_BOTH)? == None);
    assert!(rt; other_list(alloc, TWO, SECOND_OF_FOURTH, &LEAF_FAILS)? == None);
    Ok(())
}

// Whether a block is the only part of a set of the first new leaf, written where the last durable entry had the sequence 2, with this payload.
fn is_leaf(bytes: &[u8], expected: &[u8]) -> bool {
    let Some(head) = unseal(bytes) else {
        return false;
    };
    let is_set = head.kind == NODE_SET && head.part == 0 && head.parts == 1;
    is_set && head.owner == NEW && head.sequence == 2 && payload(bytes, &head) == expected
}

// Whether the leaf of the first free bucket has this payload on a device.
fn has_leaf(
    alloc: Global,
    devices: &mut MemDevices,
    dev: u8,
    expected: &[u8],
) -> Result<bool, Fail> {
    let bytes = block_of(alloc, devices, dev, FREE)?;
    let is_leaf = is_leaf(&bytes, expected);
    drop(bytes);
    Ok(is_leaf)
}

// The first metadata device on which it has another one.
fn other_device(
    alloc: Global,
    devices: &mut MemDevices,
    mirrors: u8,
    expected: &[u8],
) -> Result<Option<u8>, Fail> {
    for dev in 0..mirrors {
        if !has_leaf(alloc, devices, dev, expected)? {
            return Ok(Some(dev));
        }
    }
    Ok(None)
}

// The first metadata device on which it has another one than the first key alone with the value 5.
fn other_than_first(
    alloc: Global,
    devices: &mut MemDevices,
    mirrors: u8,
) -> Result<Option<u8>, Fail> {
    let expected = leaf_payload(alloc, NEW, 8, &[(1, 5)])?;
    let other = other_device(alloc, devices, mirrors, expected.as_slice());
    drop(expected);
    other
}

// Whether it has the first key alone on each metadata device, behind all of this.
fn has_first_key(alloc: Global, shape: Shape, acts: &[Act]) -> Result<bool, Fail> {
    let mut run = Run::new(shape, NEVER, 0);
    let mut devices = left_behind(alloc, acts, &mut run)?;
    let other = other_than_first(alloc, &mut devices, shape.mirrors);
    drop(devices);
    Ok(other?.is_none() && run.is_right)
}

// Commits that aren't durable when a leaf is frozen: one in the open entry, of another key or of the same one; one in the entry in flight,
// and one behind it; and one that comes while the leaf is written.
static UNDURABLE: [&[Act]; 5] = [
    &[Act::Put(0, 5), JOURNAL, Act::Put(1, 6), NODES],
    &[Act::Put(0, 5), JOURNAL, Act::Put(0, 6), NODES],
    &[Act::Put(0, 5), JOURNAL, Act::Put(0, 0), NODES],
    &[
        Act::Put(0, 5),
        JOURNAL,
        Act::Put(0, 6),
        Act::Make(Work::Journal, 1),
        Act::Put(1, 7),
        NODES,
    ],
    &[
        Act::Put(0, 5),
        JOURNAL,
        Act::Make(Work::Nodes, 3),
        Act::Put(0, 6),
        NODES,
    ],
];

// The first list of acts behind which a leaf has other keys.
fn other_leaf(alloc: Global, shape: Shape) -> Result<Option<usize>, Fail> {
    let mut at: usize = 0;
    for acts in UNDURABLE.iter() {
        if !has_first_key(alloc, shape, acts)? {
            return Ok(Some(at));
        }
        at = at.saturating_add(1);
    }
    Ok(None)
}

// What is written of a leaf are the keys of durable entries alone, byte by byte as the tables of the format say.
#[test]
fn leaves_have_durable_keys_alone(rt: HostRuntime) -> Result<(), Fail> {
    for shape in [ONE, TWO] {
        assert!(rt; other_leaf(rt.alloc(), shape)? == None);
    }
    Ok(())
}
