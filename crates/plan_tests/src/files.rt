//! A file that is written, cut and grown in a snapshot and beside it, with what each id shows worked by hand.

ghost use Rattle.std.specs.Prelude.{◌≡◌, ◌≤◌, ◌<◌, ◌^◌, All, length};

use crate::ids::shared_tree;
use file_plan::{
    Change, Contents, PlainContents, block_after, content, cut_size, end_block, shown_block,
    write_end, write_run,
};
use key_view::{Hold, PlainKeys, View};
use snap_tree::SnapTree;
use std::alloc::{AllocError, Global};
use std::collections::BTreeMap;
use std::test::Fail;
use vol_types::{Bytes, Keys, Pos, Update, Updates, Value, copy_map};

/// The id of the first writes, and those of a snapshot of it: the one of the source, and the one of the copy.
const OLD: u32 = 90;

const SOURCE: u32 = 80;

const COPY: u32 = 70;

static IDS: [(u32, u32); 3] = [(OLD, 0), (SOURCE, OLD), (COPY, OLD)];

/// The number of the file.
const NUMBER: u64 = 2;

/// The extents and holes of the file, and the blocks in memory.
#[derive(Drop)]
struct Disk {
    keys: BTreeMap<Pos, Value>,
    blocks: BTreeMap<u32, Bytes>,
    next: u32,
}

// A view of the disk, which has the blocks from then on.
fn view_of(alloc: Global, disk: &mut Disk) -> Result<PlainContents, Fail> {
    let tree = shared_tree(alloc, &IDS)?;
    match keys_of(alloc, &disk.keys) {
        Ok(keys) => {
            let blocks = std::mem::replace(&mut disk.blocks, BTreeMap::new(alloc));
            Ok(PlainContents::new(alloc, keys, tree, blocks, disk.next))
        }
        Err(error) => {
            drop(tree);
            Err(Fail::from(error))
        }
    }
}

fn keys_of(alloc: Global, extents: &BTreeMap<Pos, Value>) -> Result<PlainKeys, AllocError> {
    let extents = copy_map(alloc, extents)?;
    let mut keys = PlainKeys::new(alloc);
    keys.extents = extents;
    Ok(keys)
}

fn give_back(disk: &mut Disk, view: PlainContents) {
    let (blocks, next) = view.into_blocks();
    disk.blocks = blocks;
    disk.next = next;
}

fn apply(disk: &mut Disk, updates: Updates) -> Result<(), AllocError> {
    for update in Vec::from(updates) {
        set(&mut disk.keys, update)?;
    }
    Ok(())
}

fn set(keys: &mut BTreeMap<Pos, Value>, update: Update) -> Result<(), AllocError> {
    let Update { pos, value, .. } = update;
    match value {
        None => {
            keys.remove(&pos);
        }
        Some(value) => {
            keys.insert(pos, value)?;
        }
    }
    Ok(())
}

// Puts blocks of the file in an id, from a first one on, and the block of its end before them where it is to be written anew.
fn put(
    alloc: Global,
    view: &mut PlainContents,
    tree: &SnapTree,
    id: u32,
    size: u64,
    first: u64,
    blocks: &[Bytes],
) -> Result<Updates, Hold>
    requires sizes { All (λ bytes. length bytes ≡ 4096) blocks.now }
    requires few { length blocks.now ≤ 2 }
    requires near { first < 2 ^ 60 }
{
    let mut run = write_run(alloc, view, id, NUMBER, first, blocks)?;
    if first <= size / 4096 {
        return put_extents(alloc, view, tree, id, size, first, run);
    }
    let updates = put_behind(alloc, view, tree, id, size, &mut run);
    drop(run);
    updates
}

// Puts the block of the end before a run.
fn put_behind(
    alloc: Global,
    view: &mut PlainContents,
    tree: &SnapTree,
    id: u32,
    size: u64,
    run: &mut Keys,
) -> Result<Updates, Hold> {
    let mut extents = write_end(alloc, view, tree, id, NUMBER, size)?;
    if let Err(error) = extents.append(run) {
        drop(extents);
        return Err(Hold::from(error));
    }
    put_extents(alloc, view, tree, id, size, size / 4096, extents)
}

fn put_extents(
    alloc: Global,
    view: &mut PlainContents,
    tree: &SnapTree,
    id: u32,
    size: u64,
    first: u64,
    extents: Keys,
) -> Result<Updates, Hold> {
    let change = Change::Put { first, extents };
    let updates = content(alloc, view, tree, id, NUMBER, size, &change);
    drop(change);
    updates
}

// A truncation of the file in an id, after which its old end is put where it grows.
fn cut(
    alloc: Global,
    view: &mut PlainContents,
    tree: &SnapTree,
    id: u32,
    size: u64,
    new: u64,
) -> Result<Updates, Hold> {
    if new <= size {
        let change = Change::Cut { new };
        let updates = content(alloc, view, tree, id, NUMBER, size, &change);
        drop(change);
        return updates;
    }
    let end = write_end(alloc, view, tree, id, NUMBER, size)?;
    put_extents(alloc, view, tree, id, size, size / 4096, end)
}

// Writes two bytes at an offset of the file in an id, in one run with the block of its end where that is the one before them and
// is to be written anew.
fn write(
    alloc: Global,
    view: &mut PlainContents,
    tree: &SnapTree,
    id: u32,
    size: u64,
    offset: u64,
    bytes: [u8; 2],
) -> Result<Updates, Hold>
    requires { offset ≤ 16777216 }
{
    let first = offset / 4096;
    let block = block_after(alloc, view, tree, id, NUMBER, size, first, offset, &bytes)?;
    if size / 4096 + 1 != first {
        return put(alloc, view, tree, id, size, first, &[block]);
    }
    let Some(end) = end_block(alloc, view, tree, id, NUMBER, size)? else {
        return put(alloc, view, tree, id, size, first, &[block]);
    };
    put(alloc, view, tree, id, size, size / 4096, &[end, block])
}

/// A change of the file in an id, where it has this size: two bytes at an offset, in one block, or a truncation.
#[derive(Clone, Copy, PartialEq, Eq)]
enum Step {
    Write {
        id: u32,
        size: u64,
        offset: u64,
        bytes: [u8; 2],
    },
    Cut {
        id: u32,
        size: u64,
        new: u64,
    },
}

// The updates of a change.
fn updates_of(
    alloc: Global,
    view: &mut PlainContents,
    tree: &SnapTree,
    step: Step,
) -> Result<Updates, Fail> {
    match step {
        Step::Write {
            id,
            size,
            offset,
            bytes,
        } => {
            if offset > 16_777_216 {
                return Err(Fail::from("the file is too long"));
            }
            Ok(write(alloc, view, tree, id, size, offset, bytes)?)
        }
        Step::Cut { id, size, new } => Ok(cut(alloc, view, tree, id, size, new)?),
    }
}

fn planned(alloc: Global, view: &mut PlainContents, step: Step) -> Result<Updates, Fail> {
    let tree = view.tree()?;
    let updates = updates_of(alloc, view, &tree, step);
    drop(tree);
    updates
}

fn take(alloc: Global, disk: &mut Disk, step: Step) -> Result<(), Fail> {
    let mut view = view_of(alloc, disk)?;
    let updates = planned(alloc, &mut view, step);
    give_back(disk, view);
    apply(disk, updates?)?;
    Ok(())
}

/// The first two bytes of a block, if it shows.
fn head_of(block: Option<Bytes>) -> Option<(u8, u8)> {
    let block = block?;
    Some((*block.get(0)?, *block.get(1)?))
}

/// What an id shows of a block.
fn head_at(
    alloc: Global,
    view: &mut PlainContents,
    id: u32,
    block: u64,
) -> Result<Option<(u8, u8)>, Hold> {
    let tree = view.tree()?;
    let shown = shown_block(alloc, view, &tree, id, NUMBER, block);
    drop(tree);
    Ok(head_of(shown?))
}

/// What an id shows of three blocks.
type Heads = [Option<(u8, u8)>; 3];

fn heads_of(alloc: Global, view: &mut PlainContents, id: u32) -> Result<Heads, Hold> {
    let first = head_at(alloc, view, id, 0)?;
    let second = head_at(alloc, view, id, 1)?;
    let third = head_at(alloc, view, id, 2)?;
    Ok([first, second, third])
}

/// What an id shows of the first three blocks.
fn heads(alloc: Global, disk: &mut Disk, id: u32) -> Result<Heads, Fail> {
    let mut view = view_of(alloc, disk)?;
    let found = heads_of(alloc, &mut view, id);
    give_back(disk, view);
    Ok(found?)
}

// How many of the keys are extents, and how many are holes.
fn counts(disk: &Disk) -> (u32, u32) {
    let mut extents = 0u32;
    let mut holes = 0u32;
    for value in disk.keys.values() {
        match value {
            Value::Extent(_) => extents = extents.saturating_add(1),
            _ => holes = holes.saturating_add(1),
        }
    }
    (extents, holes)
}

fn no_disk(alloc: Global) -> Disk {
    Disk {
        keys: BTreeMap::new(alloc),
        blocks: BTreeMap::new(alloc),
        next: 16,
    }
}

// What the source and the copy show after some steps, and how many extents and holes there are.
fn seen_after(
    alloc: Global,
    disk: &mut Disk,
    steps: &[Step],
) -> Result<(Heads, Heads, (u32, u32)), Fail> {
    for step in steps {
        take(alloc, disk, *step)?;
    }
    let source = heads(alloc, disk, SOURCE)?;
    let copy = heads(alloc, disk, COPY)?;
    Ok((source, copy, counts(disk)))
}

static STEPS: [Step; 4] = [
    Step::Write {
        id: OLD,
        size: 0,
        offset: 0,
        bytes: [0x68, 0x69],
    },
    Step::Write {
        id: OLD,
        size: 2,
        offset: 4096,
        bytes: [0x6a, 0],
    },
    Step::Cut {
        id: COPY,
        size: 4097,
        new: 1,
    },
    Step::Cut {
        id: COPY,
        size: 1,
        new: 8192,
    },
];

// Two blocks further on the end is an extent of its own.
static FURTHER_ON: [Step; 1] = [Step::Write {
    id: SOURCE,
    size: 4097,
    offset: 12_288,
    bytes: [1, 2],
}];

// A byte is kept before two that are written over zeros.
static OVER_ZEROS: [Step; 1] = [Step::Write {
    id: COPY,
    size: 8192,
    offset: 1,
    bytes: [3, 4],
}];

// Whether the source and the copy show what they have to, after all of these steps.
fn are_seen(alloc: Global, disk: &mut Disk) -> Result<bool, Fail> {
    let (source, copy, first) = seen_after(alloc, disk, &STEPS)?;
    let (_, _, further) = seen_after(alloc, disk, &FURTHER_ON)?;
    let (_, over, _) = seen_after(alloc, disk, &OVER_ZEROS)?;
    Ok(
        source == [Some((0x68, 0x69)), Some((0x6a, 0)), None]
            && copy == [Some((0x68, 0)), None, None]
            && first == (2, 1)
            && further == (4, 1)
            && over == [Some((0x68, 3)), None, None],
    )
}

/// A file of `hi`, to whose second block `j` is written: its first block is written anew, in one extent with the second. Below a
/// snapshot the copy is cut to one byte, and grows to two blocks: the source keeps what it shows.
#[test]
fn cut_and_grown_below_a_snapshot(rt: HostRuntime) -> Result<(), Fail> {
    let mut disk = no_disk(rt.alloc());
    let good = are_seen(rt.alloc(), &mut disk);
    drop(disk);
    assert!(rt; good?);
    Ok(())
}

/// Sizes after one truncation. 256 blocks are cut at most.
static SIZES: [(u64, u64, u64); 8] = [
    (16_777_216, 0, 15_728_640),
    (16_777_216, 15_728_640, 15_728_640),
    (1_048_576, 0, 0),
    (1_048_577, 0, 4096),
    (1_048_577, 1, 1),
    (5, 5, 5),
    (0, 16_777_216, 16_777_216),
    (u64::MAX, 1, 18_446_744_073_708_503_040),
];

fn are_cut() -> bool {
    for (size, new, cut) in SIZES.iter() {
        if cut_size(*size, *new) != *cut {
            return false;
        }
    }
    true
}

#[test]
fn truncations_in_steps(rt: HostRuntime) -> Result<(), Fail> {
    assert!(rt; are_cut());
    Ok(())
}

/// Holes in the copy, each by the block at which it ends and how many it has, and what the copy shows of block 200 then. Its
/// ancestor has an extent of that block alone.
static HOLES: [(u64, u32, Option<(u8, u8)>); 4] = [
    // One that is longer than a truncation makes them, and ends far behind the block.
    (500, 300, None),
    (500, 299, Some((1, 2))),
    (216, 16, None),
    (217, 16, Some((1, 2))),
];

// How many blocks the longest extent or hole has, and what the copy shows of block 200.
fn shown_there(alloc: Global, disk: &mut Disk) -> Result<(u64, Option<(u8, u8)>), Fail> {
    let mut view = view_of(alloc, disk)?;
    let longest = view.longest();
    let shown = head_at(alloc, &mut view, COPY, 200);
    give_back(disk, view);
    Ok((longest, shown?))
}

// The same where the copy has a hole.
fn hidden_by(
    alloc: Global,
    disk: &mut Disk,
    end: u64,
    blocks: u32,
) -> Result<(u64, Option<(u8, u8)>), Fail> {
    let pos = Pos {
        inode: NUMBER,
        offset: end,
        snapshot: COPY,
    };
    disk.keys.insert(pos, Value::Hole { blocks })?;
    let shown = shown_there(alloc, disk)?;
    disk.keys.remove(&pos);
    Ok(shown)
}

// The same where there is one extent.
fn shown_at_first(alloc: Global, disk: &mut Disk) -> Result<(u64, Option<(u8, u8)>), Fail> {
    let written = Step::Write {
        id: OLD,
        size: 0,
        offset: 819_200,
        bytes: [1, 2],
    };
    take(alloc, disk, written)?;
    shown_there(alloc, disk)
}

// Whether the copy shows what it has to beside each hole.
fn are_hidden(alloc: Global, disk: &mut Disk) -> Result<bool, Fail> {
    if shown_at_first(alloc, disk)? != (1, Some((1, 2))) {
        return Ok(false);
    }
    for (end, blocks, shown) in HOLES.iter() {
        if hidden_by(alloc, disk, *end, *blocks)? != (u64::from(*blocks), *shown) {
            return Ok(false);
        }
    }
    Ok(true)
}

#[test]
fn hidden_by_holes(rt: HostRuntime) -> Result<(), Fail> {
    let mut disk = no_disk(rt.alloc());
    let good = are_hidden(rt.alloc(), &mut disk);
    drop(disk);
    assert!(rt; good?);
    Ok(())
}
