//! Divisions and replacements from one leaf on, and levels that make a tree or none.

use crate::looks::at;
use crate::pointers::{NODE_PLACES, pointer};
use std::alloc::{AllocError, Global};
use std::test::Fail;
use tree_nodes::{LevelNodes, TreeNodes};
use vol_types::{Duplicate, Listing, NodePtr, Places, Pos};

// Replaces a node where there is one, and gives its old birth.
fn replace(
    alloc: Global,
    tree: &mut TreeNodes,
    level: u8,
    at: &Pos,
    birth: u64,
) -> Result<Option<u64>, AllocError> {
    if level > 7 || tree.get(level, at).is_none() {
        return Ok(None);
    }
    let fresh = pointer(alloc, birth, level)?;
    Ok(Some(tree.replace(level, at, fresh).birth))
}

// Divides the node below the root that covers a position where it may be, and gives its old birth.
fn divide(
    alloc: Global,
    tree: &mut TreeNodes,
    level: u8,
    at: &Pos,
    birth: u64,
) -> Result<Option<u64>, AllocError> {
    let Some((greatest, _)) = tree.node_at(level, at) else {
        return Ok(None);
    };
    let greatest = *greatest;
    if level > 6 || level + 1 >= tree.height() || *at >= greatest {
        return Ok(None);
    }
    if level > 0 && tree.get(level - 1, at).is_none() {
        return Ok(None);
    }
    let first = pointer(alloc, birth, level)?;
    let second = pointer(alloc, birth.wrapping_add(1), level)?;
    let old = tree.divide(level, &greatest, at, first, second)?;
    Ok(Some(old.birth))
}

// Divides the root where it may be, and gives its old birth.
fn divide_root(
    alloc: Global,
    tree: &mut TreeNodes,
    at: &Pos,
    birth: u64,
) -> Result<Option<u64>, AllocError> {
    let height = tree.height();
    if height > 7 || *at >= Pos::GREATEST {
        return Ok(None);
    }
    if height > 1 && tree.get(height - 2, at).is_none() {
        return Ok(None);
    }
    let first = pointer(alloc, birth, height - 1)?;
    let second = pointer(alloc, birth.wrapping_add(1), height - 1)?;
    let root = pointer(alloc, birth.wrapping_add(2), height)?;
    let old = tree.divide_root(alloc, at, first, second, root)?;
    Ok(Some(old.birth))
}

// Divides the one leaf of a tree, divides the second one, and replaces the first. It gives the births of those that are gone.
fn grow(alloc: Global, tree: &mut TreeNodes) -> Result<[Option<u64>; 3], AllocError> {
    let root = divide_root(alloc, tree, &at(7), 2)?;
    let leaf = divide(alloc, tree, 0, &at(9), 5)?;
    let first = replace(alloc, tree, 0, &at(7), 8)?;
    Ok([root, leaf, first])
}

/// The ends of the leaves then, and their births. 0 stands for the greatest position.
static CHILDREN: [(u64, u64); 3] = [(7, 8), (9, 5), (0, 6)];

fn is_at(found: Option<(&Pos, &NodePtr)>, end: u64, birth: u64) -> bool {
    match found {
        None => false,
        Some((pos, node)) => *pos == end_pos(end) && node.birth == birth,
    }
}

fn has_children(tree: &TreeNodes) -> bool {
    if tree.height() != 2 {
        return false;
    }
    let mut found = tree.children(1, &Pos::GREATEST);
    for (end, birth) in CHILDREN.iter() {
        if !is_at(found.next(), *end, *birth) {
            return false;
        }
    }
    found.next().is_none()
}

// Whether a tree is the one that was grown.
fn is_grown(tree: &TreeNodes) -> bool {
    has_children(tree)
        && is_at(tree.node_at(0, &at(8)), 9, 5)
        && tree.get(0, &at(8)).is_none()
        && Some(tree.least(0, &at(9))) == at(7).next()
        && tree.root().birth == 4
}

fn copy_is_grown(alloc: Global, tree: &TreeNodes) -> Result<bool, AllocError> {
    let copy = tree.copy(alloc)?;
    let good = is_grown(&copy);
    drop(copy);
    Ok(good)
}

// Grows a tree, and says whether it is as it has to be, and so is a copy.
fn grows(alloc: Global, tree: &mut TreeNodes) -> Result<bool, AllocError> {
    let gone = grow(alloc, tree)?;
    Ok(gone == [Some(1), Some(3), Some(2)] && is_grown(tree) && copy_is_grown(alloc, tree)?)
}

#[test]
fn divisions(rt: HostRuntime) -> Result<(), Fail> {
    let alloc = rt.alloc();
    let mut tree = TreeNodes::leaf(alloc, pointer(alloc, 1, 0)?)?;
    let good = grows(alloc, &mut tree);
    drop(tree);
    assert!(rt; good?);
    Ok(())
}

// The position of an offset, or the greatest position for 0.
fn end_pos(end: u64) -> Pos {
    if end == 0 { Pos::GREATEST } else { at(end) }
}

fn put_node(alloc: Global, nodes: &mut LevelNodes, end: u64, level: u8) -> Result<(), AllocError> {
    let places = Places::from_slice(alloc, &NODE_PLACES)?;
    let node = NodePtr {
        birth: end,
        level,
        places,
    };
    nodes.put(&end_pos(end), node)?;
    Ok(())
}

// A level of nodes with these ends.
fn level_of(alloc: Global, ends: &[u64], level: u8) -> Result<LevelNodes, AllocError> {
    let mut nodes = LevelNodes::new(alloc);
    for end in ends {
        put_node(alloc, &mut nodes, *end, level)?;
    }
    Ok(nodes)
}

static ROOT_ENDS: [u64; 1] = [0];

fn push_level(
    alloc: Global,
    levels: &mut Listing<LevelNodes>,
    ends: &[u64],
    level: u8,
) -> Result<(), AllocError> {
    let nodes = level_of(alloc, ends, level)?;
    levels.push(nodes)?;
    Ok(())
}

// Two levels and a root.
fn levels_of(
    alloc: Global,
    leaves: &[u64],
    middle: &[u64],
    level: u8,
) -> Result<Listing<LevelNodes>, AllocError> {
    let mut levels = Listing::new(alloc);
    push_level(alloc, &mut levels, leaves, 0)?;
    push_level(alloc, &mut levels, middle, level)?;
    push_level(alloc, &mut levels, &ROOT_ENDS, 2)?;
    Ok(levels)
}

// Whether two levels under a root make a tree.
fn is_tree(alloc: Global, leaves: &[u64], middle: &[u64], level: u8) -> Result<bool, AllocError> {
    let levels = levels_of(alloc, leaves, middle, level)?;
    Ok(TreeNodes::of(levels).is_ok())
}

// Levels by the ends of their nodes, with whether they make a tree.
static TREES: [(&[u64], &[u64], u8, bool); 7] = [
    (&[3, 5, 9, 0], &[5, 0], 1, true),
    (&[3, 5, 9, 0], &[0], 1, true),
    (&[3, 5, 9, 0], &[6, 0], 1, false),
    (&[3, 5, 9], &[5, 0], 1, false),
    (&[3, 5, 9, 0], &[3, 5, 9], 1, false),
    (&[3, 5, 9, 0], &[], 1, false),
    (&[3, 5, 9, 0], &[5, 0], 2, false),
];

// The number of the first levels that make a tree where they shouldn't, or don't where they should.
fn first_other(alloc: Global) -> Result<Option<u32>, AllocError> {
    let mut number: u32 = 0;
    for (leaves, middle, level, good) in TREES.iter() {
        if is_tree(alloc, leaves, middle, *level)? != *good {
            return Ok(Some(number));
        }
        number = number.saturating_add(1);
    }
    Ok(None)
}

#[test]
fn levels_make_trees(rt: HostRuntime) -> Result<(), Fail> {
    let alloc = rt.alloc();
    assert!(rt; first_other(alloc)? == None);
    assert!(rt; TreeNodes::of(Listing::new(alloc)).is_err());
    Ok(())
}
