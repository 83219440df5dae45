//! Positions, and what is seen of keys that are found, for the tests beside it.

ghost use Rattle.std.specs.Prelude.{◌≡◌};

use std::collections::btree_map;
use vol_types::{Pos, Value};

pub(crate) fn at(offset: u64) -> Pos
    ensures { result ≡ record { inode = 0; offset = offset; snapshot = 7 } }
{
    Pos {
        inode: 0,
        offset,
        snapshot: 7,
    }
}

/// The offset of what is found.
pub(crate) fn offset_of(found: Option<(&Pos, &Value)>) -> Option<u64> {
    match found {
        None => None,
        Some((pos, _)) => Some(pos.offset),
    }
}

/// How many values a range has.
pub(crate) fn count(values: btree_map::Range<'_, Pos, Value>) -> u64 {
    let mut count: u64 = 0;
    for _ in values {
        count = count.saturating_add(1);
    }
    count
}
