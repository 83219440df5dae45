//! How large a leaf may become before it has to be split, to the byte, and ids that form no tree.

use crate::maps::{fresh, may_stand};
use btree_map::KeyMap;
use dirty_nodes::{ids_updated, split_needed, trees_after};
use snap_tree::SnapTree;
use std::alloc::{AllocError, Global};
use std::test::Fail;
use vol_types::{Btree, FileKind, Inode, Pos, Snap, SnapState, Update, Updates, Value};

// An inode takes 34 bytes, and a whiteout 21.
fn value_of(is_inode: bool) -> Value {
    if is_inode {
        Value::Inode(Inode {
            kind: FileKind::File,
            links: 1,
            size: 0,
        })
    } else {
        Value::White
    }
}

// Updates that put inodes and, after them, whiteouts.
fn inodes_of(alloc: Global, inodes: u64, whites: u64) -> Result<Updates, AllocError> {
    let mut updates = Updates::new(alloc);
    for offset in 0..inodes.saturating_add(whites) {
        updates.push(Update {
            btree: Btree::Inodes,
            level: 0,
            pos: Pos {
                inode: 0,
                offset,
                snapshot: 1,
            },
            value: Some(value_of(offset < inodes)),
        })?;
    }
    Ok(updates)
}

// The birth of the node that has to be split, its size, and the offset to split it at.
fn need_of(alloc: Global, map: &KeyMap, updates: &[Update]) -> Result<(u64, u32, u64), AllocError> {
    if !may_stand(updates) {
        return Ok((99, 0, 0));
    }
    match split_needed(alloc, map, updates)? {
        None => Ok((0, 0, 0)),
        Some(need) => Ok((need.node, need.size, need.at.offset)),
    }
}

// The same where inodes and whiteouts are put.
fn need_after(
    alloc: Global,
    map: &KeyMap,
    inodes: u64,
    whites: u64,
) -> Result<(u64, u32, u64), AllocError> {
    let updates = inodes_of(alloc, inodes, whites)?;
    need_of(alloc, map, updates.as_slice())
}

// Two leaves: 56 bytes before the keys, and 19 times 34 with 2,234 times 21, or 11 times 34 with 2,247 times 21.
#[test]
fn limit(rt: HostRuntime) -> Result<(), Fail> {
    let alloc = rt.alloc();
    match fresh(alloc)? {
        None => assert!(rt; false),
        Some(map) => {
            for (inodes, whites, need) in [
                (19, 2_234, (0, 0, 0)),
                (11, 2_247, (1, 47_617, 1_128)),
            ] {
                assert!(rt; need_after(alloc, &map, inodes, whites)? == need);
            }
        }
    }
    Ok(())
}

// The record of an id is put, under this parent, in this snapshot.
fn id_put(alloc: Global, id: u64, parent: u32, snapshot: u32) -> Result<Updates, AllocError> {
    let mut updates = Updates::new(alloc);
    updates.push(Update {
        btree: Btree::Snapshots,
        level: 0,
        pos: Pos {
            inode: 0,
            offset: id,
            snapshot,
        },
        value: Some(Value::Snap(Snap {
            parent,
            first_child: 0,
            second_child: 0,
            state: SnapState::LiveLeaf,
        })),
    })?;
    Ok(updates)
}

// How many ids there are after the record of one is put.
fn ids_after(alloc: Global, map: &KeyMap, parent: u32, snapshot: u32) -> Result<usize, AllocError> {
    let updates = id_put(alloc, 5, parent, snapshot)?;
    if !may_stand(updates.as_slice()) {
        return Ok(99);
    }
    Ok(trees_after(alloc, map, updates.as_slice())?.len())
}

// An id forms a tree alone, but not under a parent that isn't there, nor in the place of a snapshot.
#[test]
fn ids(rt: HostRuntime) -> Result<(), Fail> {
    let alloc = rt.alloc();
    match fresh(alloc)? {
        None => assert!(rt; false),
        Some(map) => {
            for (parent, snapshot, count) in [(0, 0, 1), (7, 0, 0), (0, 1, 0)] {
                assert!(rt; ids_after(alloc, &map, parent, snapshot)? == count);
            }
        }
    }
    Ok(())
}

/// A parent, a snapshot, whether id 5 is put beside id 9, and how many ids there are then.
const PUT_BESIDE_9: [(u32, u32, (bool, usize)); 3] = [
    (9, 0, (true, 2)),
    (7, 0, (false, 1)),
    (9, 1, (false, 1)),
];

// The trees of id 9 alone, or without ids where its record may not stand.
fn alone(alloc: Global, map: &KeyMap) -> Result<SnapTree, AllocError> {
    let updates = id_put(alloc, 9, 0, 0)?;
    if !may_stand(updates.as_slice()) {
        return Ok(SnapTree::new(alloc));
    }
    trees_after(alloc, map, updates.as_slice())
}

// Whether the record of id 5 is put into the trees in place, and how many ids there are then.
fn put_in_place(
    alloc: Global,
    tree: &mut SnapTree,
    parent: u32,
    snapshot: u32,
) -> Result<(bool, usize), AllocError> {
    let updates = id_put(alloc, 5, parent, snapshot)?;
    if !may_stand(updates.as_slice()) {
        return Ok((false, 99));
    }
    let made = ids_updated(tree, &updates);
    Ok((made, tree.len()))
}

// The same beside id 9.
fn put_beside(
    alloc: Global,
    map: &KeyMap,
    parent: u32,
    snapshot: u32,
) -> Result<(bool, usize), AllocError> {
    let mut tree = alone(alloc, map)?;
    put_in_place(alloc, &mut tree, parent, snapshot)
}

// An id is made under another in place, but not under one that isn't there, nor in the place of a snapshot, nor where there
// is no id yet.
#[test]
fn ids_in_place(rt: HostRuntime) -> Result<(), Fail> {
    let alloc = rt.alloc();
    match fresh(alloc)? {
        None => assert!(rt; false),
        Some(map) => {
            for (parent, snapshot, answer) in PUT_BESIDE_9 {
                assert!(rt; put_beside(alloc, &map, parent, snapshot)? == answer);
            }
        }
    }
    let mut tree = SnapTree::new(alloc);
    assert!(rt; put_in_place(alloc, &mut tree, 0, 0)? == (false, 0));
    Ok(())
}
