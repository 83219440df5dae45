//! The order of nodes, and calls by several actors in turn, with ample memory.

use lock_table::{LockTable, Mode, NodeName, Ruling};
use std::alloc::AllocError;
use std::test::Fail;
use vol_types::{Btree, Pos};

#[derive(Clone, Copy)]
enum Call {
    Ask(NodeName, Mode),
    Upgrade(u64),
    Lower(u64),
    DropAll,
}

// Makes the call where its condition holds. None where it doesn't, or where the call answers nothing.
fn make(table: &mut LockTable, actor: u8, call: Call) -> Result<Option<Ruling>, AllocError> {
    if actor >= table.count() {
        return Ok(None);
    }
    match call {
        Call::Ask(name, mode) => Ok(Some(table.ask(actor, &name, mode)?)),
        Call::Upgrade(birth) if table.has_intent(actor, birth) => {
            Ok(Some(table.upgrade(actor, birth)))
        }
        Call::Lower(birth) if table.has_exclusive(actor, birth) => {
            table.lower(actor, birth);
            Ok(None)
        }
        Call::DropAll => {
            table.drop_all(actor);
            Ok(None)
        }
        _ => Ok(None),
    }
}

// Nodes, of which each stands above the one before it.
static NAMES: [NodeName; 7] = [
    NodeName {
        btree: Btree::Extents,
        level: 0,
        greatest: Pos {
            inode: 7,
            offset: 9,
            snapshot: 0,
        },
        birth: 9,
    },
    NodeName {
        btree: Btree::Inodes,
        level: 2,
        greatest: Pos {
            inode: 7,
            offset: 1,
            snapshot: 0,
        },
        birth: 1,
    },
    NodeName {
        btree: Btree::Inodes,
        level: 1,
        greatest: Pos {
            inode: 7,
            offset: 9,
            snapshot: 0,
        },
        birth: 3,
    },
    NodeName {
        btree: Btree::Inodes,
        level: 0,
        greatest: Pos {
            inode: 7,
            offset: 1,
            snapshot: 0,
        },
        birth: 8,
    },
    NodeName {
        btree: Btree::Inodes,
        level: 0,
        greatest: Pos {
            inode: 7,
            offset: 2,
            snapshot: 0,
        },
        birth: 4,
    },
    NodeName {
        btree: Btree::Inodes,
        level: 0,
        greatest: Pos {
            inode: 7,
            offset: 2,
            snapshot: 0,
        },
        birth: 5,
    },
    NodeName {
        btree: Btree::Dirents,
        level: 1,
        greatest: Pos {
            inode: 7,
            offset: 0,
            snapshot: 0,
        },
        birth: 2,
    },
];

// Whether each node is above those before it, and no other.
fn are_in_order() -> bool {
    for low in 0..NAMES.len() {
        for high in 0..NAMES.len() {
            if NAMES[high].is_above(&NAMES[low]) != (low < high) {
                return false;
            }
        }
    }
    true
}

#[test]
fn order_of_nodes(rt: HostRuntime) -> Result<(), Fail> {
    assert!(rt; are_in_order());
    Ok(())
}

// A root with two leaves, and a leaf of another btree.
const ROOT: NodeName = NodeName {
    btree: Btree::Inodes,
    level: 1,
    greatest: Pos {
        inode: 7,
        offset: 9,
        snapshot: 0,
    },
    birth: 10,
};

const LEFT: NodeName = NodeName {
    btree: Btree::Inodes,
    level: 0,
    greatest: Pos {
        inode: 7,
        offset: 4,
        snapshot: 0,
    },
    birth: 11,
};

const RIGHT: NodeName = NodeName {
    btree: Btree::Inodes,
    level: 0,
    greatest: Pos {
        inode: 7,
        offset: 9,
        snapshot: 0,
    },
    birth: 12,
};

const OTHER: NodeName = NodeName {
    btree: Btree::Dirents,
    level: 0,
    greatest: Pos {
        inode: 7,
        offset: 9,
        snapshot: 0,
    },
    birth: 5,
};

const GRANTED: Option<Ruling> = Some(Ruling::Granted);

// Who calls what, and what is answered.
type Row = (u8, Call, Option<Ruling>);

static FIRST_ROWS: [Row; 13] = [
    (0, Call::Ask(ROOT, Mode::Shared), GRANTED),
    (1, Call::Ask(ROOT, Mode::Shared), GRANTED),
    (0, Call::Ask(LEFT, Mode::Shared), GRANTED),
    (0, Call::Ask(LEFT, Mode::Intent), GRANTED),
    (
        1,
        Call::Ask(LEFT, Mode::Intent),
        Some(Ruling::Wait {
            node: 11,
            holder: 0,
        }),
    ),
    (1, Call::Ask(LEFT, Mode::Shared), GRANTED),
    (
        0,
        Call::Upgrade(11),
        Some(Ruling::Restart {
            node: 11,
            holder: 1,
        }),
    ),
    (1, Call::Ask(RIGHT, Mode::Intent), GRANTED),
    (
        0,
        Call::Ask(RIGHT, Mode::Intent),
        Some(Ruling::Wait {
            node: 12,
            holder: 1,
        }),
    ),
    (
        1,
        Call::Ask(LEFT, Mode::Intent),
        Some(Ruling::Restart {
            node: 11,
            holder: 0,
        }),
    ),
    (1, Call::DropAll, None),
    (0, Call::Upgrade(11), GRANTED),
    (
        1,
        Call::Ask(LEFT, Mode::Shared),
        Some(Ruling::Wait {
            node: 11,
            holder: 0,
        }),
    ),
];

static LATER_ROWS: [Row; 13] = [
    (1, Call::Ask(OTHER, Mode::Intent), GRANTED),
    (
        1,
        Call::Ask(LEFT, Mode::Shared),
        Some(Ruling::Restart {
            node: 11,
            holder: 0,
        }),
    ),
    (0, Call::Lower(11), None),
    (1, Call::Ask(LEFT, Mode::Shared), GRANTED),
    (0, Call::Ask(OTHER, Mode::Shared), GRANTED),
    (
        0,
        Call::Ask(OTHER, Mode::Intent),
        Some(Ruling::Restart { node: 5, holder: 1 }),
    ),
    (
        2,
        Call::Ask(LEFT, Mode::Intent),
        Some(Ruling::Wait {
            node: 11,
            holder: 0,
        }),
    ),
    (2, Call::Upgrade(11), None),
    (0, Call::DropAll, None),
    (2, Call::Ask(LEFT, Mode::Intent), GRANTED),
    (
        2,
        Call::Upgrade(11),
        Some(Ruling::Restart {
            node: 11,
            holder: 1,
        }),
    ),
    (1, Call::DropAll, None),
    (2, Call::Upgrade(11), GRANTED),
];

// How many of the rows go as they say, up to the first that doesn't.
fn right_rows(table: &mut LockTable, rows: &[Row]) -> Result<usize, AllocError> {
    for at in 0..rows.len() {
        let (actor, call, answer) = rows[at];
        if make(table, actor, call)? != answer {
            return Ok(at);
        }
    }
    Ok(rows.len())
}

// Whether the calls are answered as the rows say, and who holds what then.
fn are_right(table: &mut LockTable) -> Result<bool, AllocError> {
    let first = right_rows(table, &FIRST_ROWS)?;
    let later = right_rows(table, &LATER_ROWS)?;
    Ok(
        first == 13
            && later == 13
            && table.other_holder(0, 11) == Some(2)
            && table.other_reader(0, 11) == None
            && table.seq(11) == 1,
    )
}

// Whether the locks of nodes go on from their sequences once the last one is dropped.
fn goes_on(table: &mut LockTable) -> Result<bool, AllocError> {
    let dropped = make(table, 2, Call::DropAll)?;
    let is_free = dropped == None && !table.is_held(11) && table.seq(11) == 2;
    // the next lock of a node goes on from there
    let asked = make(table, 1, Call::Ask(RIGHT, Mode::Shared))?;
    Ok(is_free && asked == GRANTED && table.seq(12) == 2)
}

fn is_right(table: &mut LockTable) -> Result<bool, AllocError> {
    Ok(are_right(table)? && goes_on(table)?)
}

#[test]
fn calls_in_turn(rt: HostRuntime) -> Result<(), Fail> {
    let mut table = LockTable::new(rt.alloc(), 3)?;
    let good = is_right(&mut table);
    drop(table);
    assert!(rt; good?);
    Ok(())
}
