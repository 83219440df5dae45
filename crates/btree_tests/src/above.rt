//! The updates of a division and of a new pointer, of a leaf and of the root.

use crate::pointers::pointer;
use interior::{rewrite, split};
use std::alloc::{AllocError, Global};
use std::test::Fail;
use tree_nodes::TreeNodes;
use vol_types::{Btree, Pos, Update, Updates, Value};

fn at(offset: u64) -> Pos {
    Pos {
        inode: 0,
        offset,
        snapshot: 0,
    }
}

fn is_node(value: Option<&Value>, birth: u64) -> bool {
    match value {
        Some(Value::Node(node)) => node.birth == birth,
        _ => false,
    }
}

// Whether an update puts the node of a birth at a position of a level of the inodes.
fn puts(update: Option<&Update>, level: u8, pos: Pos, birth: u64) -> bool {
    let Some(update) = update else {
        return false;
    };
    let place = update.btree == Btree::Inodes && update.level == level && update.pos == pos;
    place && is_node(update.value.as_ref(), birth)
}

// The updates where the leaf that ends at the greatest position is to be divided at an offset, into those of two births.
fn halves(
    alloc: Global,
    nodes: &TreeNodes,
    offset: u64,
    births: [u64; 2],
) -> Result<Updates, AllocError> {
    if nodes.height() == 0 {
        return Err(AllocError);
    }
    let [one, other] = births;
    let first = pointer(alloc, one, 0)?;
    let second = pointer(alloc, other, 0)?;
    split(
        alloc,
        nodes,
        Btree::Inodes,
        0,
        &Pos::GREATEST,
        &at(offset),
        &first,
        &second,
    )
}

// The updates where the leaf that ends at a position gets another pointer.
fn moved(
    alloc: Global,
    nodes: &TreeNodes,
    greatest: &Pos,
    birth: u64,
) -> Result<Updates, AllocError> {
    if nodes.height() == 0 {
        return Err(AllocError);
    }
    let fresh = pointer(alloc, birth, 0)?;
    rewrite(alloc, nodes, Btree::Inodes, 0, greatest, &fresh)
}

// How many updates there are for the root.
fn root_counts(alloc: Global, nodes: &TreeNodes) -> Result<(usize, usize), AllocError> {
    let none = halves(alloc, nodes, 7, [2, 3])?.len();
    Ok((none, moved(alloc, nodes, &Pos::GREATEST, 2)?.len()))
}

// Divides the root where it is a leaf.
fn divide_leaf(alloc: Global, nodes: &mut TreeNodes, at: &Pos) -> Result<(), AllocError> {
    if nodes.height() != 1 || *at >= Pos::GREATEST {
        return Ok(());
    }
    let (first, second) = (pointer(alloc, 2, 0)?, pointer(alloc, 3, 0)?);
    nodes.divide_root(alloc, at, first, second, pointer(alloc, 4, 1)?)?;
    Ok(())
}

// How many updates there are for a leaf that is divided, and whether they put both halves.
fn has_halves(alloc: Global, nodes: &TreeNodes) -> Result<(usize, bool), AllocError> {
    let both = halves(alloc, nodes, 9, [5, 6])?;
    let puts_first = puts(both.get(0), 1, at(9), 5);
    let puts_second = puts(both.get(1), 1, Pos::GREATEST, 6);
    Ok((both.len(), puts_first && puts_second))
}

// How many there are for a leaf that gets another pointer, and whether they put it.
fn has_moved(alloc: Global, nodes: &TreeNodes) -> Result<(usize, bool), AllocError> {
    let one = moved(alloc, nodes, &at(7), 5)?;
    Ok((one.len(), puts(one.get(0), 1, at(7), 5)))
}

#[test]
fn leaf_and_root(rt: HostRuntime) -> Result<(), Fail> {
    let alloc = rt.alloc();
    let mut nodes = TreeNodes::leaf(alloc, pointer(alloc, 1, 0)?)?;
    assert!(rt; root_counts(alloc, &nodes)? == (0, 0));
    divide_leaf(alloc, &mut nodes, &at(7))?;
    assert!(rt; has_halves(alloc, &nodes)? == (2, true));
    assert!(rt; has_moved(alloc, &nodes)? == (1, true));
    Ok(())
}
