//! Updates of a key map, divisions of its nodes, btrees that make a key map or none, and nodes that are found by their births.

ghost use Rattle.std.specs.Prelude.{ℕ, ◌≡◌, ◌≢◌, ◌+◌, ◌<◌, ◌≤◌, ◌^◌, All, IfOk, IsTrue, Some, ◌↔◌};
ghost use Rattle.birth_index.specs.Births.{birth_of};
ghost use Rattle.birth_index.specs.declared.name.NodeName.{NodeName as ANodeName};
ghost use Rattle.btree_map.specs.Trees.{AreRoots, levels_in};
ghost use Rattle.tree_nodes.specs.Levels.{EndsAt, IsNodeOf, level_of};
ghost use Rattle.vol_types.specs.Standing.{IsUpdate};

use crate::looks::{count, offset_of};
use crate::pointers::pointer;
use btree_map::{IndexFault, KeyMap, NodeName, NotAKeyMap};
use std::alloc::{AllocError, Global};
use std::test::Fail;
use tree_keys::TreeKeys;
use tree_nodes::TreeNodes;
use vol_types::{Btree, Listing, Pos, Roots, Update, Updates, Value};

fn at(offset: u64) -> Pos {
    Pos {
        inode: 3,
        offset,
        snapshot: 9,
    }
}

fn roots(alloc: Global) -> Result<Roots, AllocError>
    ensures { IfOk result AreRoots }
{
    let mut roots = Roots::new(alloc);
    for birth in 0..9 {
        roots.push(pointer(alloc, birth, 0)?)?;
    }
    Ok(roots)
}

pub(crate) fn may_stand(updates: &[Update]) -> bool
    ensures { IsTrue result ↔ All IsUpdate updates.now }
{
    updates.iter().all(|update| update.may_stand())
}

fn push_update(
    updates: &mut Updates,
    btree: Btree,
    offset: u64,
    value: Value,
) -> Result<(), AllocError> {
    updates.push(Update {
        btree,
        level: 0,
        pos: at(offset),
        value: Some(value),
    })?;
    Ok(())
}

// Puts two counters and a whiteout.
fn some_updates(alloc: Global) -> Result<Updates, AllocError> {
    let mut updates = Updates::new(alloc);
    push_update(&mut updates, Btree::Counters, 3, Value::Counter { next: 4 })?;
    push_update(&mut updates, Btree::Counters, 3, Value::Counter { next: 5 })?;
    push_update(&mut updates, Btree::Inodes, 5, Value::White)?;
    Ok(updates)
}

// Whether these are the values before each of them.
fn are_before(before: &[Option<Value>]) -> bool {
    matches!(before, [None, Some(Value::Counter { next: 4 }), None])
}

// Makes updates, and says whether their positions had what they had to have.
fn applies(alloc: Global, map: &mut KeyMap, updates: &Updates) -> Result<bool, AllocError> {
    if !may_stand(updates.as_slice()) {
        return Ok(false);
    }
    let before = map.apply(alloc, updates)?;
    let good = are_before(before.as_slice());
    drop(before);
    Ok(good)
}

// Whether the values are found, each in its btree.
fn finds_values(map: &KeyMap) -> bool {
    matches!(
        map.get(Btree::Counters, &at(3)),
        Some(Value::Counter { next: 5 })
    ) && offset_of(map.next_from(Btree::Inodes, &at(0))) == Some(5)
        && count(map.span(Btree::Inodes, &at(0), &at(9))) == 1
        && count(map.span(Btree::Dirents, &at(0), &at(9))) == 0
        && map.leaf_of(Btree::Inodes, &at(5)) == 1
        && map.leaf_size(Btree::Inodes, &Pos::GREATEST) == Some(77)
}

fn goes_all_steps(alloc: Global, map: &mut KeyMap) -> Result<bool, AllocError> {
    let updates = some_updates(alloc)?;
    let good = applies(alloc, map, &updates);
    drop(updates);
    Ok(good? && finds_values(map))
}

// Whether updates are made of a map without keys.
fn updates_are_found(alloc: Global) -> Result<bool, AllocError> {
    let Some(mut map) = fresh(alloc)? else {
        return Ok(false);
    };
    let good = goes_all_steps(alloc, &mut map);
    drop(map);
    good
}

#[test]
fn updates(rt: HostRuntime) -> Result<(), Fail> {
    assert!(rt; updates_are_found(rt.alloc())?);
    Ok(())
}

// Divides the node of a level, which isn't the root, where it may be, and says whether it was.
fn divide(
    alloc: Global,
    map: &mut KeyMap,
    btree: Btree,
    level: u8,
    pos: &Pos,
    birth: u64,
) -> Result<bool, AllocError> {
    let Some((greatest, _)) = map.node_at(btree, level, pos) else {
        return Ok(false);
    };
    let name = NodeName {
        btree,
        level,
        greatest: *greatest,
    };
    if level > 6 || level + 1 >= map.height(btree) || *pos >= name.greatest {
        return Ok(false);
    }
    if level > 0 && !has_node(map, btree, level - 1, pos) {
        return Ok(false);
    }
    if !are_unused(map, birth) {
        return Ok(false);
    }
    let first = pointer(alloc, birth, level)?;
    let second = pointer(alloc, birth + 1, level)?;
    map.divide(&name, pos, first, second)?;
    Ok(true)
}

// Whether no node has one of three births in a row.
pub(crate) fn are_unused(map: &KeyMap, birth: u64) -> bool
    ensures room { IsTrue result → birth + 2 < 2 ^ 64 }
    ensures free { IsTrue result → (name : ANodeName) (place : ℕ) → place ≤ 2
        → birth_of map.now.nodes name ≢ Some (birth + place) }
{
    if birth > u64::MAX - 2 {
        return false;
    }
    if map.node_of(birth).is_some() || map.node_of(birth + 1).is_some() {
        return false;
    }
    map.node_of(birth + 2).is_none()
}

pub(crate) fn has_node(map: &KeyMap, btree: Btree, level: u8, greatest: &Pos) -> bool
    ensures { IsTrue result → EndsAt (level_of (levels_in map.now btree) level) greatest.now }
{
    let name = NodeName {
        btree,
        level,
        greatest: *greatest,
    };
    map.node(&name).is_some()
}

// Divides the root of one or two levels where it may be, and says whether it was.
fn divide_root(
    alloc: Global,
    map: &mut KeyMap,
    btree: Btree,
    pos: &Pos,
    birth: u64,
) -> Result<bool, AllocError> {
    let height = map.height(btree);
    if height == 0 || height > 2 || *pos >= Pos::GREATEST {
        return Ok(false);
    }
    if height > 1 && !has_node(map, btree, height - 2, pos) {
        return Ok(false);
    }
    if !are_unused(map, birth) {
        return Ok(false);
    }
    let first = pointer(alloc, birth, height - 1)?;
    let second = pointer(alloc, birth + 1, height - 1)?;
    let root = pointer(alloc, birth + 2, height)?;
    map.divide_root(alloc, btree, pos, first, second, root)?;
    Ok(true)
}

// A map without keys, or none where two roots have one birth.
pub(crate) fn fresh(alloc: Global) -> Result<Option<KeyMap>, AllocError> {
    match KeyMap::fresh(alloc, roots(alloc)?) {
        Ok(map) => Ok(Some(map)),
        Err(IndexFault::NoMemory) => Err(AllocError),
        Err(IndexFault::SameBirth { .. }) => Ok(None),
    }
}

// The keys of a btree: none, but where there is a hole, and in one leaf, but where they are cut.
fn keys_of(alloc: Global, case: &Case, code: u64) -> Result<TreeKeys, AllocError> {
    let mut tree = TreeKeys::new(alloc)?;
    if let Err(error) = change(&mut tree, case.1 == Some(code), case.2 == Some(code)) {
        drop(tree);
        return Err(error);
    }
    Ok(tree)
}

fn cut(tree: &mut TreeKeys, pos: &Pos) -> Result<(), AllocError> {
    if !tree.is_end(pos) {
        tree.cut(pos)?;
    }
    Ok(())
}

fn change(tree: &mut TreeKeys, is_cut: bool, has_hole: bool) -> Result<(), AllocError> {
    if is_cut {
        cut(tree, &at(5))?;
    }
    if has_hole {
        tree.put(&at(3), Some(Value::Hole { blocks: 1 }))?;
    }
    Ok(())
}

fn add_keys(
    alloc: Global,
    keys: &mut Listing<TreeKeys>,
    case: &Case,
    code: u64,
) -> Result<(), AllocError> {
    keys.push(keys_of(alloc, case, code)?)?;
    Ok(())
}

fn all_keys(alloc: Global, case: &Case) -> Result<Listing<TreeKeys>, AllocError> {
    let mut keys = Listing::new(alloc);
    for code in 0..case.0 {
        add_keys(alloc, &mut keys, case, code)?;
    }
    Ok(keys)
}

fn add_leaf(alloc: Global, nodes: &mut Listing<TreeNodes>, birth: u64) -> Result<(), AllocError> {
    nodes.push(TreeNodes::leaf(alloc, pointer(alloc, birth, 0)?)?)?;
    Ok(())
}

fn all_leaves(alloc: Global, count: u64) -> Result<Listing<TreeNodes>, AllocError> {
    let mut nodes = Listing::new(alloc);
    for code in 0..count {
        add_leaf(alloc, &mut nodes, code)?;
    }
    Ok(nodes)
}

// Whether some btrees make a key map.
fn is_map(alloc: Global, case: &Case) -> Result<bool, AllocError> {
    let leaves = all_leaves(alloc, case.0)?;
    match KeyMap::of(alloc, all_keys(alloc, case)?, leaves) {
        Ok(map) => {
            drop(map);
            Ok(true)
        }
        Err(NotAKeyMap::NoMemory) => Err(AllocError),
        Err(_) => Ok(false),
    }
}

/// How many btrees there are, which one is cut, which one has a hole, and whether they make a key map.
type Case = (u64, Option<u64>, Option<u64>, bool);

/// Holes stand in btree 0 alone, and no node ends where keys are cut.
static CASES: [Case; 5] = [
    (9, None, None, true),
    (9, None, Some(0), true),
    (9, None, Some(8), false),
    (9, Some(4), None, false),
    (8, None, None, false),
];

// The number of the first case that isn't as it has to be.
fn first_other(alloc: Global) -> Result<Option<u32>, AllocError> {
    let mut number: u32 = 0;
    for case in CASES.iter() {
        if is_map(alloc, case)? != case.3 {
            return Ok(Some(number));
        }
        number = number.saturating_add(1);
    }
    Ok(None)
}

#[test]
fn parts_make_maps(rt: HostRuntime) -> Result<(), Fail> {
    assert!(rt; first_other(rt.alloc())? == None);
    Ok(())
}

// Births with the birth of the node above and the size: a set of no keys takes 56 bytes, and one of two nodes 72 more.
static BORN: [(u64, Option<u64>, Option<u32>); 6] = [
    (0, None, Some(56)),
    (1, None, None),
    (21, Some(23), Some(56)),
    (22, Some(23), Some(56)),
    (23, None, Some(128)),
    (24, None, None),
];

// Whether nodes are found by their births, where the leaf of the inodes was divided.
fn are_born(map: &KeyMap) -> bool {
    for (birth, parent, size) in BORN.iter() {
        if map.parent_of(*birth) != *parent || map.size_of(*birth) != *size {
            return false;
        }
    }
    true
}

// Divides the leaf of the inodes, and then the second of both, and says whether nodes are found after each.
fn are_found(alloc: Global, map: &mut KeyMap) -> Result<bool, AllocError> {
    let divided = divide_root(alloc, map, Btree::Inodes, &at(7), 21)?;
    let found = divided && are_born(map);
    let divided = divide(alloc, map, Btree::Inodes, 0, &at(9), 31)?;
    Ok(found && divided && map.parent_of(32) == Some(23) && map.node_of(22).is_none())
}

// Whether they are found in a map without keys.
fn births_are_found(alloc: Global) -> Result<bool, AllocError> {
    let Some(mut map) = fresh(alloc)? else {
        return Ok(false);
    };
    let good = are_found(alloc, &mut map);
    drop(map);
    good
}

#[test]
fn nodes_are_found_by_birth(rt: HostRuntime) -> Result<(), Fail> {
    assert!(rt; births_are_found(rt.alloc())?);
    Ok(())
}
