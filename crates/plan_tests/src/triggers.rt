//! Extents that come, are cut, move and go, each commit against the states of two buckets, and the owners of two blocks, that were
//! worked out by hand.

use key_triggers::expand;
use key_view::{PlainKeys, PlainView};
use snap_tree::SnapTree;
use std::alloc::{AllocError, Global};
use std::collections::BTreeMap;
use std::sync::Arc;
use std::test::Fail;
use vol_types::{
    Btree, Digests, Extent, Live, Place, Pointer, Pointers, Pos, Update, Updates, Value, copy_map,
};

// The position of an extent of file 5 in id 9 that ends here.
fn ends_at(end: u64) -> Pos {
    Pos {
        inode: 5,
        offset: end,
        snapshot: 9,
    }
}

fn pointer(dev: u8, block: u32) -> Pointer {
    Pointer {
        place: Place { dev, block },
        generation: 7,
    }
}

// An extent of so many blocks from this one on, on device 0, and two buckets behind on device 1.
fn extent(alloc: Global, first: u32, blocks: u8) -> Result<Value, AllocError> {
    let mut digests = Digests::new(alloc);
    for _ in 0..blocks {
        digests.push(1)?;
    }
    let pointers = [pointer(0, first), pointer(1, first.saturating_add(32))];
    Ok(Value::Extent(Extent {
        pointers: Pointers::from_slice(alloc, &pointers)?,
        digests,
    }))
}

// What a plan does to an extent: where it ends, and the first block and the number of blocks that it has then, if it stays.
type Change = (u64, Option<(u32, u8)>);

fn value_of(alloc: Global, put: Option<(u32, u8)>) -> Result<Option<Value>, AllocError> {
    match put {
        None => Ok(None),
        Some((first, blocks)) => Ok(Some(extent(alloc, first, blocks)?)),
    }
}

fn plan(alloc: Global, changes: &[Change]) -> Result<Updates, AllocError> {
    let mut updates = Updates::new(alloc);
    for (end, put) in changes {
        updates.push(Update {
            btree: Btree::Extents,
            level: 0,
            pos: ends_at(*end),
            value: value_of(alloc, *put)?,
        })?;
    }
    Ok(updates)
}

fn copy_into(alloc: Global, copy: &mut PlainKeys, keys: &PlainKeys) -> Result<(), AllocError> {
    copy.extents = copy_map(alloc, &keys.extents)?;
    copy.alloc = copy_map(alloc, &keys.alloc)?;
    copy.backptrs = copy_map(alloc, &keys.backptrs)?;
    Ok(())
}

fn copied(alloc: Global, keys: &PlainKeys) -> Result<PlainKeys, AllocError> {
    let mut copy = PlainKeys::new(alloc);
    if let Err(error) = copy_into(alloc, &mut copy, keys) {
        drop(copy);
        return Err(error);
    }
    Ok(copy)
}

fn set(
    values: &mut BTreeMap<Pos, Value>,
    pos: Pos,
    value: Option<Value>,
) -> Result<(), AllocError> {
    match value {
        None => {
            values.remove(&pos);
        }
        Some(value) => {
            values.insert(pos, value)?;
        }
    }
    Ok(())
}

fn apply(keys: &mut PlainKeys, update: Update) -> Result<(), Fail> {
    match update.btree {
        Btree::Extents => set(&mut keys.extents, update.pos, update.value)?,
        Btree::Alloc => set(&mut keys.alloc, update.pos, update.value)?,
        Btree::Backptrs => set(&mut keys.backptrs, update.pos, update.value)?,
        _ => return Err(Fail::from("an update of another btree")),
    }
    Ok(())
}

fn view_of(alloc: Global, keys: &PlainKeys) -> Result<PlainView, Fail> {
    let tree = Arc::new(alloc, SnapTree::new(alloc))?;
    match copied(alloc, keys) {
        Ok(copy) => Ok(PlainView::new(alloc, copy, tree)),
        Err(error) => {
            drop(tree);
            Err(Fail::from(error))
        }
    }
}

// The updates with what follows from them.
fn expanded(alloc: Global, keys: &PlainKeys, planned: &Updates) -> Result<Updates, Fail> {
    let mut view = view_of(alloc, keys)?;
    let updates = expand(alloc, &mut view, planned);
    drop(view);
    Ok(updates?)
}

// All updates of a plan.
fn updates_of(alloc: Global, keys: &PlainKeys, changes: &[Change]) -> Result<Updates, Fail> {
    let planned = plan(alloc, changes)?;
    let updates = expanded(alloc, keys, &planned);
    drop(planned);
    updates
}

// Makes the updates of a plan.
fn commit(alloc: Global, keys: &mut PlainKeys, changes: &[Change]) -> Result<(), Fail> {
    for update in Vec::from(updates_of(alloc, keys, changes)?) {
        apply(keys, update)?;
    }
    Ok(())
}

fn live_at(keys: &PlainKeys, dev: u64, bucket: u64) -> Live {
    let pos = Pos {
        inode: dev,
        offset: bucket,
        snapshot: 0,
    };
    match keys.alloc.get(&pos) {
        Some(Value::Live(live)) => *live,
        _ => Live {
            generation: 0,
            blocks: 0,
        },
    }
}

// The end of the extent of which a copy begins at a block of device 0.
fn owner_at(keys: &PlainKeys, block: u64) -> Option<u64> {
    let pos = Pos {
        inode: 0,
        offset: block,
        snapshot: 0,
    };
    match keys.backptrs.get(&pos) {
        Some(Value::Back { extent }) if *extent == ends_at(extent.offset) => Some(extent.offset),
        _ => None,
    }
}

/// A plan, the blocks and generations of buckets 1 and 2 of device 0 after it, and where the extents end that begin at its blocks 16, 24
/// and 32.
type Row = (
    &'static [Change],
    (u8, u32),
    (u8, u32),
    (Option<u64>, Option<u64>, Option<u64>),
);

// The plans of one volume, one after the other.
static PLANS: [Row; 7] = [
    (
        &[(16, Some((16, 16)))],
        (16, 0),
        (0, 0),
        (Some(16), None, None),
    ),
    // The middle is cut out, the first part put before or behind the last one.
    (
        &[(4, Some((16, 4))), (16, Some((24, 8)))],
        (12, 0),
        (0, 0),
        (Some(4), Some(16), None),
    ),
    // The later of two updates counts.
    (
        &[(4, None), (4, Some((32, 4)))],
        (8, 0),
        (4, 0),
        (None, Some(16), Some(4)),
    ),
    (&[(16, None)], (0, 1), (4, 0), (None, None, Some(4))),
    (
        &[(32, Some((16, 2)))],
        (2, 1),
        (4, 0),
        (Some(32), None, Some(4)),
    ),
    // An extent that moves leaves its bucket in use.
    (
        &[(40, Some((16, 2))), (32, None)],
        (2, 1),
        (4, 0),
        (Some(40), None, Some(4)),
    ),
    (&[(40, None), (4, None)], (0, 2), (0, 1), (None, None, None)),
];

// The blocks and the generation of a bucket of device 0.
fn state_of(keys: &PlainKeys, bucket: u64) -> (u8, u32) {
    let live = live_at(keys, 0, bucket);
    (live.blocks, live.generation)
}

// Makes a plan, and says whether all is then as it has to be.
fn follows(alloc: Global, keys: &mut PlainKeys, row: &Row) -> Result<bool, Fail> {
    let (changes, first, second, owners) = row;
    commit(alloc, keys, changes)?;
    let found = (owner_at(keys, 16), owner_at(keys, 24), owner_at(keys, 32));
    Ok(state_of(keys, 1) == *first && state_of(keys, 2) == *second && found == *owners)
}

// The number of the first plan after which it isn't.
fn first_other(alloc: Global, keys: &mut PlainKeys) -> Result<Option<u32>, Fail> {
    let mut number: u32 = 0;
    for row in PLANS.iter() {
        if !follows(alloc, keys, row)? {
            return Ok(Some(number));
        }
        number = number.saturating_add(1);
    }
    Ok(None)
}

#[test]
fn keys_follow_extents(rt: HostRuntime) -> Result<(), Fail> {
    let mut keys = PlainKeys::new(rt.alloc());
    let other = first_other(rt.alloc(), &mut keys);
    drop(keys);
    assert!(rt; other? == None);
    Ok(())
}
