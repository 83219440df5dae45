//! The value that an id sees, and how many looks it takes, by a table.

use crate::ids::shared_tree;
use key_view::{Hold, PlainKeys, PlainView, View, nearest, whiteout_needed};
use snap_tree::SnapTree;
use std::alloc::{AllocError, Global};
use std::test::Fail;
use vol_types::{Btree, FileKind, Inode, Pos, Value};

/// The number of the inode that is looked for.
const NUMBER: u64 = 5;

/// Ids, each with its parent: three are under 30.
static IDS: [(u32, u32); 4] = [(10, 30), (20, 30), (25, 30), (30, 0)];

/// The ids that have an inode of their own there, or a whiteout where it is false; an id, the id whose inode it sees, the looks that it
/// takes, and whether a removal in it needs a whiteout.
type Row = (&'static [(u32, bool)], u32, Option<u32>, usize, bool);

/// There is a look for each key of another branch that stands between, and one more.
static ROWS: [Row; 9] = [
    (&[], 10, None, 1, false),
    (&[(10, true)], 10, Some(10), 1, false),
    (&[(30, true)], 10, Some(30), 1, true),
    (&[(20, true), (30, true)], 10, Some(30), 2, true),
    (
        &[(20, true), (25, false), (30, true)],
        10,
        Some(30),
        3,
        true,
    ),
    (&[(20, true), (25, true)], 10, None, 3, false),
    (&[(10, false), (30, true)], 10, None, 1, true),
    (&[(10, true)], 20, None, 1, false),
    (&[(30, false)], 10, None, 1, false),
];

fn put(keys: &mut PlainKeys, number: u64, snapshot: u32, value: Value) -> Result<(), AllocError> {
    let pos = Pos {
        inode: 0,
        offset: number,
        snapshot,
    };
    keys.inodes.insert(pos, value)?;
    Ok(())
}

// An inode that is told by its size.
fn inode_of(id: u32) -> Value {
    Value::Inode(Inode {
        kind: FileKind::File,
        links: 1,
        size: u64::from(id),
    })
}

// Puts what ids have, among whiteouts of the numbers before and after.
fn put_all(keys: &mut PlainKeys, held: &[(u32, bool)]) -> Result<(), AllocError> {
    put(keys, NUMBER - 1, 30, Value::White)?;
    put(keys, NUMBER + 1, 10, Value::White)?;
    for (id, is_shown) in held {
        let value = if *is_shown {
            inode_of(*id)
        } else {
            Value::White
        };
        put(keys, NUMBER, *id, value)?;
    }
    Ok(())
}

fn keys_of(alloc: Global, held: &[(u32, bool)]) -> Result<PlainKeys, AllocError> {
    let mut keys = PlainKeys::new(alloc);
    if let Err(error) = put_all(&mut keys, held) {
        drop(keys);
        return Err(error);
    }
    Ok(keys)
}

fn view_of(alloc: Global, held: &[(u32, bool)]) -> Result<PlainView, Fail> {
    let tree = shared_tree(alloc, &IDS)?;
    match keys_of(alloc, held) {
        Ok(keys) => Ok(PlainView::new(alloc, keys, tree)),
        Err(error) => {
            drop(tree);
            Err(Fail::from(error))
        }
    }
}

fn is_seen(value: Option<&Value>, id: Option<u32>) -> bool {
    match (value, id) {
        (None, None) => true,
        (Some(Value::Inode(inode)), Some(id)) => inode.size == u64::from(id),
        _ => false,
    }
}

// Whether an id sees what it has to, by so many looks, and needs a whiteout where its parent sees something.
fn sees(view: &mut PlainView, tree: &SnapTree, row: &Row) -> Result<bool, Hold> {
    let (_, id, seen, looks, needed) = row;
    let value = nearest(view, tree, Btree::Inodes, 0, NUMBER, *id)?;
    let good = is_seen(value.as_ref(), *seen) && view.looks().len() == *looks;
    drop(value);
    Ok(good && whiteout_needed(view, tree, Btree::Inodes, 0, NUMBER, *id)? == *needed)
}

fn sees_of_its_own(view: &mut PlainView, row: &Row) -> Result<bool, Hold> {
    let tree = view.tree()?;
    let good = sees(view, &tree, row);
    drop(tree);
    good
}

fn is_right(alloc: Global, row: &Row) -> Result<bool, Fail> {
    let mut view = view_of(alloc, row.0)?;
    let good = sees_of_its_own(&mut view, row);
    drop(view);
    Ok(good?)
}

// The number of the first row that isn't right.
fn first_wrong(alloc: Global) -> Result<Option<u32>, Fail> {
    let mut number: u32 = 0;
    for row in ROWS.iter() {
        if !is_right(alloc, row)? {
            return Ok(Some(number));
        }
        number = number.saturating_add(1);
    }
    Ok(None)
}

#[test]
fn nearest_values(rt: HostRuntime) -> Result<(), Fail> {
    assert!(rt; first_wrong(rt.alloc())? == None);
    Ok(())
}
