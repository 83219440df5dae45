//! What the sets of nodes and the updates of entries make together: btrees of one and of two levels. What is expected was
//! worked out by hand, and by a second reader in Python that was written by the tables of the format.

use crate::bytes::{Change, EntryOf, SetOf};
use crate::found::{Found, is_found};
use crate::images::{EVERYWHERE, FIRST, formatted, put_entry, put_set};
use dev_model::MemDevices;
use image_view::MountFault;
use std::alloc::Global;
use std::test::Fail;
use vol_types::{Place, Pos};

// A set of a node of Counters, from block n of the bucket that begins at a block.
#[derive(Clone, Copy)]
struct Written {
    bucket: u32,
    n: u8,
    set: SetOf<'static>,
}

const FEW: &[Change] = &[Change::Counter(1, 10), Change::Counter(2, 20)];

const OTHERS: &[Change] = &[
    Change::Removed(1),
    Change::Counter(2, 21),
    Change::Counter(3, 30),
];

const LAST: &[Change] = &[Change::Counter(20, 200)];

// The root of Counters has the count 8 and lies in block 400. Below it are the leaf 9 in block 416, for the positions up to
// offset 9, and the leaf 10 in block 432, for all others.
const FIRST_LEAF: Change = Change::Node(9, 0, 9, 416);

const LAST_LEAF: Change = Change::Node(u64::MAX, 0, 10, 432);

const BOTH_LEAVES: &[Change] = &[FIRST_LEAF, LAST_LEAF];

const ONLY_LAST: &[Change] = &[LAST_LEAF];

const TOO_SHORT: &[Change] = &[FIRST_LEAF, Change::Node(20, 0, 10, 432)];

const INNER: &[Change] = &[Change::Node(u64::MAX, 1, 9, 416)];

const TWINS: &[Change] = &[Change::Node(9, 0, 10, 416), LAST_LEAF];

// The position at offset 9, that after it, and that at offset 10.
const AT_9: Pos = Pos {
    inode: 0,
    offset: 9,
    snapshot: 0,
};

const AFTER: Pos = Pos {
    snapshot: 1,
    ..AT_9
};

const AT_10: Pos = Pos { offset: 10, ..AT_9 };

// Sets of the root that is a leaf: the first one, one behind it, one of another node, and one of another level.
const FEW_KEYS: SetOf<'static> = SetOf {
    count: 8,
    level: 0,
    least: Pos::LEAST,
    greatest: Pos::GREATEST,
    keys: FEW,
};

const OTHER_KEYS: SetOf<'static> = SetOf {
    keys: OTHERS,
    ..FEW_KEYS
};

const OF_SEVEN: SetOf<'static> = SetOf {
    count: 7,
    ..OTHER_KEYS
};

// Sets of the root above leaves.
const TO_NONE: SetOf<'static> = SetOf {
    level: 1,
    keys: &[],
    ..FEW_KEYS
};

const TO_BOTH: SetOf<'static> = SetOf {
    keys: BOTH_LEAVES,
    ..TO_NONE
};

const TO_LAST: SetOf<'static> = SetOf {
    keys: ONLY_LAST,
    ..TO_NONE
};

const TO_SHORT: SetOf<'static> = SetOf {
    keys: TOO_SHORT,
    ..TO_NONE
};

const TO_INNER: SetOf<'static> = SetOf {
    keys: INNER,
    ..TO_NONE
};

const TO_TWINS: SetOf<'static> = SetOf {
    keys: TWINS,
    ..TO_NONE
};

// The set of the leaf up to offset 9, and the same with the other leaf's birth.
const OF_NINE: SetOf<'static> = SetOf {
    count: 9,
    greatest: AT_9,
    ..FEW_KEYS
};

const OF_TWIN: SetOf<'static> = SetOf {
    count: 10,
    ..OF_NINE
};

// The set of the last leaf, which begins behind the first one, at the least position, or where it leaves a gap or covers a position
// twice.
const OF_TEN: SetOf<'static> = SetOf {
    count: 10,
    least: AFTER,
    keys: LAST,
    ..FEW_KEYS
};

const OF_ALL: SetOf<'static> = SetOf {
    least: Pos::LEAST,
    ..OF_TEN
};

const BEHIND_GAP: SetOf<'static> = SetOf {
    least: AT_10,
    ..OF_TEN
};

const FROM_9: SetOf<'static> = SetOf {
    least: AT_9,
    ..OF_TEN
};

const LEAF: Written = Written {
    bucket: 400,
    n: 0,
    set: FEW_KEYS,
};

const BEHIND: Written = Written {
    n: 1,
    set: OTHER_KEYS,
    ..LEAF
};

const STALE: Written = Written {
    set: OF_SEVEN,
    ..BEHIND
};

const OF_LEVEL_1: Written = Written {
    set: TO_NONE,
    ..BEHIND
};

const ROOT: Written = Written {
    set: TO_BOTH,
    ..LEAF
};

const LEAF_9: Written = Written {
    bucket: 416,
    n: 0,
    set: OF_NINE,
};

const LEAF_10: Written = Written {
    bucket: 432,
    n: 0,
    set: OF_TEN,
};

// Three sets, the level of the root and the updates of the first entry, and what is found then: the counters 1, 2, 3, 9 and 20, and
// where the sets of the nodes end; or the bad block, if it isn't 0.
#[derive(Clone, Copy)]
struct Case {
    first: Written,
    second: Written,
    third: Written,
    level: u8,
    updates: &'static [(u8, Change)],
    counters: [u64; 5],
    ends: [u8; 3],
    bad: u32,
}

const ONE_LEVEL: Case = Case {
    first: LEAF,
    second: LEAF,
    third: LEAF,
    level: 0,
    updates: &[],
    counters: [10, 20, 0, 0, 0],
    ends: [1, 0, 0],
    bad: 0,
};

const TWO_SETS: Case = Case {
    second: BEHIND,
    third: BEHIND,
    counters: [0, 21, 30, 0, 0],
    ends: [2, 0, 0],
    ..ONE_LEVEL
};

const SOME: &[(u8, Change)] = &[
    (0, Change::Counter(1, 11)),
    (0, Change::Removed(2)),
    (0, Change::Counter(3, 33)),
    (0, Change::Counter(3, 34)),
];

const ABOVE: &[(u8, Change)] = &[(1, Change::Removed(1)), (1, LAST_LEAF)];

// Sets behind sets, and updates over them. An update above the level of the root is none of its keys.
static OF_ONE_LEVEL: [Case; 8] = [
    ONE_LEVEL,
    Case {
        updates: SOME,
        counters: [11, 0, 34, 0, 0],
        ..ONE_LEVEL
    },
    Case {
        updates: ABOVE,
        ..ONE_LEVEL
    },
    TWO_SETS,
    Case {
        updates: SOME,
        counters: [11, 0, 34, 0, 0],
        ..TWO_SETS
    },
    Case {
        second: Written { n: 2, ..BEHIND },
        third: LEAF,
        bad: 402,
        ..TWO_SETS
    },
    Case {
        second: STALE,
        third: STALE,
        ..ONE_LEVEL
    },
    Case {
        second: OF_LEVEL_1,
        third: OF_LEVEL_1,
        bad: 401,
        ..ONE_LEVEL
    },
];

const TWO_LEVELS: Case = Case {
    first: ROOT,
    second: LEAF_9,
    third: LEAF_10,
    level: 1,
    updates: &[],
    counters: [10, 20, 0, 0, 200],
    ends: [1, 1, 1],
    bad: 0,
};

// The last leaf alone.
const LAST_ALONE: Case = Case {
    third: Written {
        set: OF_ALL,
        ..LEAF_10
    },
    counters: [0, 0, 0, 0, 200],
    ends: [1, 1, 0],
    ..TWO_LEVELS
};

const UNDER: &[(u8, Change)] = &[
    (0, Change::Counter(9, 99)),
    (0, Change::Counter(20, 201)),
    (0, Change::Removed(1)),
];

const WITH_LEAF: &[(u8, Change)] = &[(1, FIRST_LEAF)];

const WITHOUT_LEAF: &[(u8, Change)] = &[(1, Change::Removed(9))];

// A root's keys lead to leaves that follow one another and end where it does.
static OF_TWO_LEVELS: [Case; 14] = [
    TWO_LEVELS,
    Case {
        updates: UNDER,
        counters: [0, 20, 0, 99, 201],
        ..TWO_LEVELS
    },
    Case {
        first: Written {
            set: TO_LAST,
            ..ROOT
        },
        updates: WITH_LEAF,
        ..TWO_LEVELS
    },
    Case {
        first: Written {
            set: TO_LAST,
            ..ROOT
        },
        ..LAST_ALONE
    },
    Case {
        updates: WITHOUT_LEAF,
        ..LAST_ALONE
    },
    // between the leaves is a gap, or both cover a position
    Case {
        third: Written {
            set: BEHIND_GAP,
            ..LEAF_10
        },
        bad: 432,
        ..TWO_LEVELS
    },
    Case {
        third: Written {
            set: FROM_9,
            ..LEAF_10
        },
        bad: 432,
        ..TWO_LEVELS
    },
    Case {
        updates: WITHOUT_LEAF,
        bad: 432,
        ..TWO_LEVELS
    },
    // the leaves end before the root, there is none, or a node of the root's level
    Case {
        first: Written {
            set: TO_SHORT,
            ..ROOT
        },
        bad: 400,
        ..TWO_LEVELS
    },
    Case {
        first: Written {
            set: TO_NONE,
            ..ROOT
        },
        bad: 400,
        ..TWO_LEVELS
    },
    Case {
        first: Written {
            set: TO_INNER,
            ..ROOT
        },
        bad: 400,
        ..TWO_LEVELS
    },
    // a leaf isn't there, or two have one birth
    Case {
        second: LEAF_10,
        bad: 416,
        ..TWO_LEVELS
    },
    Case {
        first: Written {
            set: TO_TWINS,
            ..ROOT
        },
        second: Written {
            set: OF_TWIN,
            ..LEAF_9
        },
        bad: 416,
        ..TWO_LEVELS
    },
    // the root's set is that of a leaf
    Case {
        first: LEAF,
        bad: 400,
        ..TWO_LEVELS
    },
];

// What a case has to be found as.
fn wanted_of(case: &Case) -> Result<Found, MountFault> {
    if case.bad != 0 {
        return Err(MountFault::BadNode(Place {
            dev: 0,
            block: case.bad,
        }));
    }
    Ok(Found {
        session: 1,
        needed: [Some(0), None, None],
        counters: case.counters,
        ends: case.ends,
        ragged: 0,
    })
}

fn put(alloc: Global, devices: &mut MemDevices, written: &Written) -> Result<(), Fail> {
    put_set(alloc, devices, written.bucket, written.n, &written.set)
}

fn put_first(alloc: Global, devices: &mut MemDevices, case: &Case) -> Result<(), Fail> {
    let entry = EntryOf {
        level: case.level,
        updates: case.updates,
        ..FIRST
    };
    put_entry(alloc, devices, 0, &entry, EVERYWHERE)
}

fn is_found_with(alloc: Global, devices: &mut MemDevices, case: &Case) -> Result<bool, Fail> {
    put(alloc, devices, &case.first)?;
    put(alloc, devices, &case.second)?;
    put(alloc, devices, &case.third)?;
    put_first(alloc, devices, case)?;
    Ok(is_found(alloc, devices, &[1, 2, 3, 9, 20], &wanted_of(case)))
}

// Whether a volume with the sets and updates of a case is found so.
fn is_so(alloc: Global, case: &Case) -> Result<bool, Fail> {
    let mut devices = formatted(alloc, 1)?;
    let is_found = is_found_with(alloc, &mut devices, case);
    drop(devices);
    is_found
}

// The number of the first case that is found otherwise.
fn first_other(alloc: Global, cases: &[Case]) -> Result<Option<u32>, Fail> {
    let mut number: u32 = 0;
    for case in cases {
        if !is_so(alloc, case)? {
            return Ok(Some(number));
        }
        number = number.saturating_add(1);
    }
    Ok(None)
}

#[test]
fn btrees_of_one_level(rt: HostRuntime) -> Result<(), Fail> {
    assert!(rt; first_other(rt.alloc(), &OF_ONE_LEVEL)? == None);
    Ok(())
}

#[test]
fn btrees_of_two_levels(rt: HostRuntime) -> Result<(), Fail> {
    assert!(rt; first_other(rt.alloc(), &OF_TWO_LEVELS)? == None);
    Ok(())
}
