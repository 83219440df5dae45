//! Checkpoints for whose leaves there are no free buckets, or just enough: all others are in use, as keys of buckets say.

use crate::acts::{Act, JOURNAL, NODES};
use crate::failing::NEVER;
use crate::images::ONE;
use crate::moves::{Shortage, push};
use crate::remains::{Newest, found_on};
use crate::sessions::{Run, left_behind, session};
use std::alloc::{AllocError, Global};
use std::test::Fail;
use vol_core::{Stage, Work};
use vol_types::{Btree, Live, Pos, Update, Updates, Value};

// The births of the roots of buckets and of counters as the format makes them.
const BUCKETS: u64 = 0x1_0000_0005;

const COUNTERS: u64 = 0x1_0000_0008;

// The buckets behind those of the journal and of nine roots, and how many there are on a device.
const FIRST_FREE: u64 = 26;

const ALL: u64 = 64;

// Adds an update that says that a bucket is in use.
fn push_used(updates: &mut Updates, bucket: u64) -> Result<(), AllocError> {
    updates.push(Update {
        btree: Btree::Alloc,
        level: 0,
        pos: Pos {
            inode: 0,
            offset: bucket,
            snapshot: 0,
        },
        value: Some(Value::Live(Live {
            generation: 1,
            blocks: 1,
        })),
    })?;
    Ok(())
}

fn push_filling(updates: &mut Updates, free: u64) -> Result<(), AllocError> {
    push(updates, 1, 5)?;
    for bucket in FIRST_FREE..ALL.saturating_sub(free) {
        push_used(updates, bucket)?;
    }
    Ok(())
}

/// Puts a counter, and says that all buckets are in use that could be free, but for so many, the last ones.
pub fn filling(alloc: Global, free: u64) -> Result<Updates, AllocError> {
    let mut updates = Updates::new(alloc);
    match push_filling(&mut updates, free) {
        Ok(()) => Ok(updates),
        Err(error) => {
            drop(updates);
            Err(error)
        }
    }
}

// What is said of a leaf, and of a commit, which could be made behind a checkpoint.
const NONE: Shortage = Shortage {
    free: 0,
    held: 26,
    idle: true,
    changes: 0,
};

const DIRTY: Shortage = Shortage {
    free: 0,
    held: 26,
    idle: false,
    changes: 0,
};

const FEW: Shortage = Shortage {
    free: 2,
    held: 22,
    idle: true,
    changes: 1,
};

const FIRST: Act = Act::Due(Stage::Freeze(BUCKETS));

const SECOND: Act = Act::Due(Stage::Freeze(COUNTERS));

const NO_FIRST: Act = Act::Short(Stage::Freeze(BUCKETS), NONE);

const NO_SECOND: Act = Act::Short(Stage::Freeze(COUNTERS), NONE);

const WRITE_FIRST: Act = Act::Make(Work::Nodes, 17);

// What is done where no, one and two buckets are free. No leaf can be written where none is free, however often that is tried, and no commit is made. One
// leaf is written where one is free, and there is none for the other one: then the bucket is free again, and the first leaf is due again. Where two are free, a
// checkpoint is made, which frees two; no commit is made, for which more are held back.
static WITH_FREE: [&[Act]; 3] = [
    &[
        FIRST,
        NO_FIRST,
        FIRST,
        NO_FIRST,
        FIRST,
        NO_FIRST,
        Act::NoCommit(DIRTY),
    ],
    &[
        FIRST,
        WRITE_FIRST,
        SECOND,
        NO_SECOND,
        FIRST,
        WRITE_FIRST,
        SECOND,
        NO_SECOND,
        FIRST,
        WRITE_FIRST,
        SECOND,
        NO_SECOND,
    ],
    &[FIRST, JOURNAL, NODES, JOURNAL, Act::NoCommit(FEW)],
];

// What the newest entry says behind a session with so many free buckets, of which two leaves are dirty, if its acts are answered as they should be.
fn newest_behind(alloc: Global, free: u64, acts: &[Act]) -> Result<Option<Newest>, Fail> {
    let mut run = Run::new(ONE, NEVER, 0);
    let devices = left_behind(alloc, &[Act::Use(free), JOURNAL], &mut run)?;
    let is_filled = run.is_right;
    let mut devices = session(alloc, devices, acts, &mut run)?;
    let found = found_on(alloc, &mut devices, run.story.now, run.story.now);
    drop(devices);
    if is_filled && run.is_right {
        return Ok(found.newest);
    }
    Ok(None)
}

// The first count of free buckets with which anything else is found than that the root of the counters has this birth and this block, in the
// entry of this sequence, which needs no other one.
fn other_count(alloc: Global) -> Result<Option<u64>, Fail> {
    let mut free: u64 = 0;
    for acts in WITH_FREE.iter() {
        let newest = newest_behind(alloc, free, acts)?;
        if !is_expected(newest, free) {
            return Ok(Some(free));
        }
        free = free.saturating_add(1);
    }
    Ok(None)
}

// Two leaves and nine levels hold back 26 buckets, and the levels alone 22. Bucket 62 is for the keys of buckets, and 63, from block
// 1,008 on, for the counters, whose leaf is the second one of session 3.
fn is_expected(newest: Option<Newest>, free: u64) -> bool {
    let (sequence, birth, block) = if free < 2 {
        (2, COUNTERS, 400)
    } else {
        (3, 0x3_0000_0001, 1008)
    };
    match newest {
        Some(newest) => {
            newest.sequence == sequence
                && newest.oldest == sequence
                && newest.birth == birth
                && newest.block == block
        }
        None => false,
    }
}

#[test]
fn leaves_need_free_buckets(rt: HostRuntime) -> Result<(), Fail> {
    assert!(rt; other_count(rt.alloc())? == None);
    Ok(())
}
