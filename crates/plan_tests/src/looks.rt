//! Which keys of a file are looked at for blocks, and how many blocks the longest extent or hole has.

use crate::extents::extent;
use extent_ops::{longest_in, longest_with, reach};
use std::alloc::{AllocError, Global};
use std::test::Fail;
use vol_types::{Btree, Key, Pos, Query, Update, Updates, Value};

/// A look at some blocks of a file which has an extent of the blocks 100 to 115 and a hole of the blocks 200 to 499: the first and the
/// last block, how many blocks the longest of them is said to have, and whether the extent and the hole are among the keys.
#[derive(Clone, Copy, PartialEq, Eq)]
struct Look {
    first: u64,
    last: u64,
    longest: u64,
    has_extent: bool,
    has_hole: bool,
}

const BASE: Look = Look {
    first: 0,
    last: 0,
    longest: 300,
    has_extent: false,
    has_hole: false,
};

static LOOKS: [Look; 9] = [
    // The hole ends 300 blocks behind its first block, and 290 behind the last one that is looked at.
    Look {
        first: 200,
        last: 200,
        has_hole: true,
        ..BASE
    },
    Look {
        first: 120,
        last: 210,
        has_hole: true,
        ..BASE
    },
    Look {
        first: 499,
        last: 600,
        has_hole: true,
        ..BASE
    },
    Look {
        first: 500,
        last: 600,
        ..BASE
    },
    Look {
        first: 100,
        last: 200,
        has_extent: true,
        has_hole: true,
        ..BASE
    },
    // Where no extent or hole is longer than 16 blocks, no key further on is looked at.
    Look {
        first: 100,
        last: 100,
        longest: 16,
        has_extent: true,
        ..BASE
    },
    Look {
        first: 115,
        last: 483,
        longest: 16,
        has_extent: true,
        ..BASE
    },
    Look {
        first: 116,
        last: 116,
        longest: 16,
        ..BASE
    },
    Look {
        first: 0,
        last: 99,
        longest: 16,
        ..BASE
    },
];

const HOLE: Value = Value::Hole { blocks: 300 };

// Where the extent stands, at its end.
const EXTENT_AT: Pos = Pos {
    inode: 7,
    offset: 116,
    snapshot: 90,
};

// Where the hole stands, at its end.
const HOLE_AT: Pos = Pos {
    inode: 7,
    offset: 500,
    snapshot: 80,
};

// Whether a query asks for what stands at a position.
fn asks_for(query: &Query, pos: Pos) -> bool {
    match query {
        Query::Span { first, last, .. } => *first <= pos && pos <= *last,
        _ => false,
    }
}

// The number of the first look that doesn't ask for what it has to.
fn first_other() -> Option<u32> {
    let mut number: u32 = 0;
    for look in LOOKS.iter() {
        let query = reach(7, look.first, look.last, look.longest);
        if asks_for(&query, EXTENT_AT) != look.has_extent
            || asks_for(&query, HOLE_AT) != look.has_hole
        {
            return Some(number);
        }
        number = number.saturating_add(1);
    }
    None
}

#[test]
fn keys_within_reach(rt: HostRuntime) -> Result<(), Fail> {
    assert!(rt; first_other() == None);
    Ok(())
}

// An update of the extents and holes that puts a value, or removes one.
fn update_at(pos: Pos, value: Option<Value>) -> Update {
    Update {
        btree: Btree::Extents,
        level: 0,
        pos,
        value,
    }
}

// Adds updates that put the extent and remove the hole.
fn put_extent(alloc: Global, updates: &mut Updates) -> Result<(), AllocError> {
    let Key { pos, value } = extent(alloc, 90, 100, 16, 1)?;
    updates.push(update_at(pos, value))?;
    updates.push(update_at(HOLE_AT, None))?;
    Ok(())
}

// Whether the longest extent or hole of updates has so many blocks: of none, of an extent, and of a hole beside it.
fn are_longest(alloc: Global, updates: &mut Updates) -> Result<bool, AllocError> {
    let none = longest_in(updates.as_slice(), 0) == 0;
    put_extent(alloc, updates)?;
    let one = longest_in(updates.as_slice(), 0) == 16 && longest_in(updates.as_slice(), 256) == 256;
    updates.push(update_at(HOLE_AT, Some(HOLE)))?;
    Ok(none && one && longest_in(updates.as_slice(), 256) == 300)
}

#[test]
fn longest_of_updates(rt: HostRuntime) -> Result<(), Fail> {
    let alloc = rt.alloc();
    let mut updates = Updates::new(alloc);
    let good = are_longest(alloc, &mut updates);
    drop(updates);
    assert!(rt; good? && longest_with(&HOLE, 16) == 300);
    Ok(())
}
