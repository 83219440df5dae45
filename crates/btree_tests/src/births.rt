//! An index of nine btrees, of which one has three nodes; two nodes of one birth; nodes in the place of one; and pointers of
//! two nodes that are exchanged.

ghost use Rattle.std.specs.Prelude.{◌≡◌, ◌≢◌, IfOk, IsTrue, Some};
ghost use Rattle.birth_index.specs.Births.{birth_of, levels_of};
ghost use Rattle.birth_index.specs.Exchanges.{only_name};
ghost use Rattle.birth_index.specs.declared.name.NodeName.{NodeName as ANodeName};
ghost use Rattle.tree_nodes.specs.Levels.{EndsAt, IsNodeOf, level_of};
ghost use Rattle.vol_types.specs.Positions.{greatest_pos};

use crate::pointers::pointer;
use birth_index::{BirthIndex, Exchange, IndexFault, IndexedNodes, Named, NodeName};
use std::alloc::{AllocError, Global};
use std::test::Fail;
use tree_nodes::TreeNodes;
use vol_types::{Btree, Listing, Pos};

fn at(offset: u64) -> Pos {
    Pos {
        inode: 0,
        offset,
        snapshot: 0,
    }
}

fn name(btree: Btree, level: u8, greatest: Pos) -> NodeName {
    NodeName {
        btree,
        level,
        greatest,
    }
}

// Divides a btree of one node at a position.
fn divide(alloc: Global, nodes: &mut TreeNodes) -> Result<(), AllocError> {
    let end = at(7);
    if nodes.height() != 1 || end >= Pos::GREATEST {
        return Ok(());
    }
    let (first, second) = (pointer(alloc, 21, 0)?, pointer(alloc, 22, 0)?);
    nodes.divide_root(alloc, &end, first, second, pointer(alloc, 23, 1)?)?;
    Ok(())
}

// A btree of one node, which is divided where this is the second btree.
fn tree(alloc: Global, place: u8) -> Result<TreeNodes, AllocError> {
    let mut nodes = TreeNodes::leaf(alloc, pointer(alloc, 10 + u64::from(place), 0)?)?;
    if place == 1 {
        divide(alloc, &mut nodes)?;
    }
    Ok(nodes)
}

// Nine btrees, and the birth of the root of a tenth, which is none of them.
fn nine(alloc: Global) -> Result<Vec<TreeNodes>, AllocError> {
    let mut trees = Vec::new(alloc);
    for place in 0..10 {
        trees.push(tree(alloc, place)?)?;
    }
    Ok(trees)
}

/// Births, and where they lead: those of a leaf that is gone and of a tenth btree lead nowhere.
fn expected() -> [(u64, Option<NodeName>); 7] {
    [
        (10, Some(name(Btree::Extents, 0, Pos::GREATEST))),
        (11, None),
        (18, Some(name(Btree::Counters, 0, Pos::GREATEST))),
        (19, None),
        (21, Some(name(Btree::Inodes, 0, at(7)))),
        (22, Some(name(Btree::Inodes, 0, Pos::GREATEST))),
        (23, Some(name(Btree::Inodes, 1, Pos::GREATEST))),
    ]
}

// An index of nine btrees, or none where it isn't made.
fn index_of_nine(alloc: Global) -> Result<Option<BirthIndex>, AllocError> {
    let trees = nine(alloc)?;
    Ok(match BirthIndex::of(alloc, trees.as_slice()) {
        Err(_) => None,
        Ok(index) => Some(index),
    })
}

#[test]
fn births_lead_to_nodes(rt: HostRuntime) -> Result<(), Fail> {
    match index_of_nine(rt.alloc())? {
        None => assert!(rt; false),
        Some(index) => {
            for (birth, name) in expected() {
                assert!(rt; index.find(birth).copied() == name);
            }
        }
    }
    Ok(())
}

// Takes the memory for another birth of a node, and uses it or gives it back. It answers whether the births fit.
fn exchange(
    index: &mut BirthIndex,
    gone: u64,
    fresh: u64,
    is_used: bool,
) -> Result<bool, AllocError> {
    let Some(name) = index.find(gone).copied() else {
        return Ok(false);
    };
    if index.find(fresh).is_some() {
        return Ok(false);
    }
    let news = [Named { birth: fresh, name }];
    index.take_room(gone, &name, &news)?;
    if is_used {
        index.replace(gone, &news);
    } else if index.find(gone).is_some() {
        index.give_room_back(gone, &name, &news);
    }
    Ok(true)
}

// Takes the memory for another birth twice, and gives whether the births fit, and where three of them lead then.
fn exchange_twice(index: &mut BirthIndex) -> Result<(bool, [Option<NodeName>; 3]), AllocError> {
    let fits = exchange(index, 21, 31, false)? && exchange(index, 21, 32, true)?;
    let gone = index.find(21).copied();
    let unused = index.find(31).copied();
    Ok((fits, [gone, unused, index.find(32).copied()]))
}

#[test]
fn births_change(rt: HostRuntime) -> Result<(), Fail> {
    match index_of_nine(rt.alloc())? {
        None => assert!(rt; false),
        Some(index) => {
            let mut index = index;
            let found = [None, None, Some(name(Btree::Inodes, 0, at(7)))];
            assert!(rt; exchange_twice(&mut index)? == (true, found));
        }
    }
    Ok(())
}

#[test]
fn one_birth_twice(rt: HostRuntime) -> Result<(), Fail> {
    let alloc = rt.alloc();
    let mut trees = Vec::new(alloc);
    for place in [3, 2, 0, 2, 3] {
        trees.push(tree(alloc, place)?)?;
    }
    match BirthIndex::of(alloc, trees.as_slice()) {
        Err(fault) => assert!(rt; fault == IndexFault::SameBirth { birth: 12 }),
        Ok(_) => assert!(rt; false),
    }
    Ok(())
}

// Whether a btree is one node, and no node has the birth.
fn may_get(nodes: &IndexedNodes, btree: Btree, birth: u64) -> bool
    ensures there { IsTrue result → EndsAt (level_of (levels_of nodes.now btree) 0) greatest_pos }
    ensures free { IsTrue result → (name : ANodeName) → birth_of nodes.now name ≢ Some birth }
{
    let Some(tree) = nodes.get(btree) else {
        return false;
    };
    if tree.get(0, &Pos::GREATEST).is_none() {
        return false;
    }
    nodes.find(birth).is_none()
}

fn root_change(alloc: Global, btree: Btree, birth: u64) -> Result<Exchange, AllocError>
    ensures name { IfOk result (λ change. change.name ≡ only_name btree) }
    ensures node { IfOk result (λ change. IsNodeOf 0 change.pointer) }
    ensures born { IfOk result (λ change. change.pointer.birth ≡ birth) }
{
    let name = NodeName {
        btree,
        level: 0,
        greatest: Pos::GREATEST,
    };
    let pointer = pointer(alloc, birth, 0)?;
    Ok(Exchange { name, pointer })
}

// Exchanges the pointers of two btrees of one node each, and gives the births of those that were there.
fn exchange_two(
    alloc: Global,
    nodes: &mut IndexedNodes,
    one: Btree,
    other: Btree,
) -> Result<Option<[u64; 2]>, AllocError> {
    if one.code() == other.code() {
        return Ok(None);
    }
    if !may_get(nodes, one, 31) {
        return Ok(None);
    }
    if !may_get(nodes, other, 32) {
        return Ok(None);
    }
    let first = root_change(alloc, one, 31)?;
    let second = root_change(alloc, other, 32)?;
    let mut changes = [first, second];
    nodes.exchange(alloc, &mut changes)?;
    Ok(Some([changes[0].pointer.birth, changes[1].pointer.birth]))
}

fn root_birth(nodes: &IndexedNodes, btree: Btree) -> Option<u64> {
    let root = nodes.get(btree)?.get(0, &Pos::GREATEST)?;
    Some(root.birth)
}

// Where four births lead.
fn births_found(nodes: &IndexedNodes) -> [Option<NodeName>; 4] {
    let first = nodes.find(12).copied();
    let second = nodes.find(18).copied();
    [
        first,
        second,
        nodes.find(31).copied(),
        nodes.find(32).copied(),
    ]
}

// The births of three roots.
fn root_births(nodes: &IndexedNodes) -> [Option<u64>; 3] {
    let dirents = root_birth(nodes, Btree::Dirents);
    let subvols = root_birth(nodes, Btree::Subvols);
    [dirents, subvols, root_birth(nodes, Btree::Counters)]
}

#[test]
fn pointers_are_exchanged(rt: HostRuntime) -> Result<(), Fail> {
    let alloc = rt.alloc();
    let trees = Listing::from(nine(alloc)?);
    match IndexedNodes::of(alloc, trees) {
        Err(_) => assert!(rt; false),
        Ok(nodes) => {
            let mut nodes = nodes;
            let before = exchange_two(alloc, &mut nodes, Btree::Dirents, Btree::Counters)?;
            assert!(rt; before == Some([12, 18]));
            let dirents = name(Btree::Dirents, 0, Pos::GREATEST);
            let counters = name(Btree::Counters, 0, Pos::GREATEST);
            assert!(rt; births_found(&nodes) == [None, None, Some(dirents), Some(counters)]);
            assert!(rt; root_births(&nodes) == [Some(31), Some(13), Some(32)]);
        }
    }
    Ok(())
}
