//! Trees of ids by tables: records, chains, ancestry, splits, updates and each refusal.

ghost use Rattle.std.specs.Prelude.{◌≡◌, All, IfOk};
ghost use Rattle.snap_tree.specs.Snaps.{IsSnapKey};
ghost use Rattle.snap_tree.specs.Updates.{IsFitting};

use snap_tree::{SnapFault, SnapTree, Steps};
use std::alloc::{AllocError, Global};
use std::test::Fail;
use vol_types::{Btree, Duplicate, Key, Keys, Pos, Snap, SnapState, Update, Updates, Value};

/// An id with its parent, its children and its state.
type Row = (u32, u32, u32, u32, SnapState);

/// Two trees: 100 over 99 and 98, with 98 over 96 and 95; and 97 alone.
static TREES: [Row; 6] = [
    (95, 98, 0, 0, SnapState::DeadLeaf),
    (96, 98, 0, 0, SnapState::LiveLeaf),
    (97, 0, 0, 0, SnapState::LiveLeaf),
    (98, 100, 96, 95, SnapState::Interior),
    (99, 100, 0, 0, SnapState::LiveLeaf),
    (100, 0, 99, 98, SnapState::Interior),
];

fn snap_of(row: Row) -> Snap {
    let (_, parent, first_child, second_child, state) = row;
    Snap {
        parent,
        first_child,
        second_child,
        state,
    }
}

fn id_pos(id: u32) -> Pos
    ensures { result ≡ record { inode = 0; offset = id; snapshot = 0 } }
{
    Pos {
        inode: 0,
        offset: u64::from(id),
        snapshot: 0,
    }
}

fn update_of(row: Row) -> Update
    ensures fits { IsFitting result }
    ensures key { IsSnapKey (record { pos = result.pos; value = result.value }) }
{
    Update {
        btree: Btree::Snapshots,
        level: 0,
        pos: id_pos(row.0),
        value: Some(Value::Snap(snap_of(row))),
    }
}

fn snap_keys(alloc: Global, rows: &[Row]) -> Result<Keys, AllocError>
    ensures { IfOk result (All IsSnapKey) }
{
    let mut keys = Keys::new(alloc);
    for row in rows {
        let update = update_of(*row);
        keys.push(Key {
            pos: update.pos,
            value: update.value,
        })?;
    }
    Ok(keys)
}

// The trees that rows are.
fn tree_of(alloc: Global, rows: &[Row]) -> Result<SnapTree, SnapFault> {
    let keys = snap_keys(alloc, rows)?;
    let tree = SnapTree::of(alloc, &keys);
    drop(keys);
    tree
}

/// The chain of each id of the two trees but one.
static CHAINS: [(u32, &[u32]); 5] = [
    (95, &[95, 98, 100]),
    (96, &[96, 98, 100]),
    (97, &[97]),
    (99, &[99, 100]),
    (100, &[100]),
];

/// Ids that aren't there.
static NO_IDS: [u32; 3] = [0, 94, 101];

// Whether an id has this chain.
fn has_chain(tree: &SnapTree, id: u32, chain: &[u32]) -> bool {
    match tree.chain(id) {
        Ok(found) => {
            let same = found.as_slice() == chain;
            drop(found);
            same
        }
        Err(_) => false,
    }
}

fn has_no_chain(tree: &SnapTree, id: u32) -> bool {
    match tree.chain(id) {
        Ok(found) => {
            drop(found);
            false
        }
        Err(fault) => fault == SnapFault::NoNode,
    }
}

fn have_chains(tree: &SnapTree) -> bool {
    for (id, chain) in CHAINS.iter() {
        if !has_chain(tree, *id, chain) {
            return false;
        }
    }
    for id in NO_IDS.iter() {
        if !has_no_chain(tree, *id) {
            return false;
        }
    }
    true
}

/// Two ids, and whether the first one is an ancestor of the second one.
static ANCESTORS: [(u32, u32, bool); 12] = [
    (100, 95, true),
    (98, 95, true),
    (95, 95, true),
    (100, 99, true),
    (99, 95, false),
    (97, 95, false),
    (96, 95, false),
    (95, 98, false),
    (98, 99, false),
    (0, 97, false),
    (98, 94, false),
    (94, 94, false),
];

fn have_ancestors(tree: &SnapTree) -> bool {
    for (a, b, stands) in ANCESTORS.iter() {
        if tree.is_ancestor(*a, *b) != *stands {
            return false;
        }
    }
    true
}

/// Ids with their parents.
static PARENTS: [(u32, Option<u32>); 4] = [(95, Some(98)), (98, Some(100)), (97, None), (94, None)];

fn have_parents(tree: &SnapTree) -> bool {
    for (id, parent) in PARENTS.iter() {
        if tree.parent(*id) != *parent {
            return false;
        }
    }
    true
}

// Whether a tree has the records of these rows, in their order.
fn are_records(tree: &SnapTree, rows: &[Row]) -> bool {
    let mut rest = rows.iter();
    for (id, snap) in tree.iter() {
        let Some(row) = rest.next() else { return false };
        if *id != row.0 || snap_of(*row) != *snap {
            return false;
        }
    }
    rest.next().is_none()
}

// Whether a tree has these records.
fn has_records(tree: &SnapTree) -> bool {
    tree.len() == 6
        && tree.live_leaves() == 3
        && !tree.is_empty()
        && are_records(tree, &TREES)
        && have_parents(tree)
}

/// The records after a snapshot of 96.
static SPLIT: [Row; 3] = [
    (96, 98, 90, 89, SnapState::Interior),
    (90, 96, 0, 0, SnapState::LiveLeaf),
    (89, 96, 0, 0, SnapState::LiveLeaf),
];

// Whether a snapshot of 96 draws 90 and 89, and makes these updates.
fn is_split(tree: &SnapTree, updates: &Updates) -> Result<bool, SnapFault> {
    let split = tree.split_leaf(96, 90)?;
    let good = split.source == 90 && split.copy == 89 && split.updates == *updates;
    drop(split);
    Ok(good)
}

// Whether it does so in the two trees.
fn is_tree_split(alloc: Global, tree: &SnapTree) -> Result<bool, SnapFault> {
    let updates = put_updates(alloc, &SPLIT)?;
    let good = is_split(tree, &updates);
    drop(updates);
    good
}

// The id of a copy.
fn copy_of(tree: &SnapTree, id: u32, next: u32) -> Result<u32, SnapFault> {
    let split = tree.split_leaf(id, next)?;
    let copy = split.copy;
    drop(split);
    Ok(copy)
}

/// Ids with what is drawn for them, and the copies' ids or why there are none.
static COPIES: [(u32, u32, Result<u32, SnapFault>); 6] = [
    (97, 2, Ok(1)),
    (95, 90, Err(SnapFault::NotLeaf)),
    (98, 90, Err(SnapFault::NotLeaf)),
    (94, 90, Err(SnapFault::NoNode)),
    (96, 1, Err(SnapFault::IdsSpent)),
    (96, 0, Err(SnapFault::IdsSpent)),
];

fn are_copies(tree: &SnapTree) -> bool {
    for (id, next, copy) in COPIES.iter() {
        if copy_of(tree, *id, *next) != *copy {
            return false;
        }
    }
    true
}

// Whether all that is looked up in the two trees is so.
fn is_right(alloc: Global, tree: &SnapTree) -> Result<bool, SnapFault> {
    let looks = has_records(tree) && have_chains(tree) && have_ancestors(tree);
    Ok(looks && is_tree_split(alloc, tree)? && are_copies(tree))
}

#[test]
fn two_trees(rt: HostRuntime) -> Result<(), Fail> {
    let tree = tree_of(rt.alloc(), &TREES)?;
    let good = is_right(rt.alloc(), &tree);
    drop(tree);
    assert!(rt; good?);
    Ok(())
}

/// Records that make no tree: a parent that is missing, one that is the id itself, and one below it; and a first child that is
/// missing, and a second one.
static NO_TREES: [[Row; 2]; 5] = [
    [
        (7, 9, 0, 0, SnapState::LiveLeaf),
        (8, 0, 7, 0, SnapState::Interior),
    ],
    [
        (7, 7, 0, 0, SnapState::LiveLeaf),
        (8, 0, 7, 0, SnapState::Interior),
    ],
    [
        (7, 0, 0, 0, SnapState::LiveLeaf),
        (8, 7, 0, 0, SnapState::LiveLeaf),
    ],
    [
        (7, 8, 0, 0, SnapState::LiveLeaf),
        (8, 0, 6, 7, SnapState::Interior),
    ],
    [
        (7, 8, 0, 0, SnapState::LiveLeaf),
        (8, 0, 7, 6, SnapState::Interior),
    ],
];

// Whether rows make no tree.
fn makes_none(alloc: Global, rows: &[Row]) -> bool {
    match tree_of(alloc, rows) {
        Ok(tree) => {
            drop(tree);
            false
        }
        Err(fault) => fault == SnapFault::NoNode,
    }
}

#[test]
fn no_trees(rt: HostRuntime) -> Result<(), Fail> {
    let alloc = rt.alloc();
    for rows in NO_TREES.iter() {
        assert!(rt; makes_none(alloc, rows));
    }
    Ok(())
}

// The updates that give ids these records, and then take one away, if it isn't 0.
fn updates_of(alloc: Global, rows: &[Row], gone: u32) -> Result<Updates, AllocError>
    ensures { IfOk result (All IsFitting) }
{
    let mut updates = put_updates(alloc, rows)?;
    if gone == 0 {
        return Ok(updates);
    }
    updates.push(removal(gone))?;
    Ok(updates)
}

fn put_updates(alloc: Global, rows: &[Row]) -> Result<Updates, AllocError>
    ensures { IfOk result (All IsFitting) }
{
    let mut updates = Updates::new(alloc);
    for row in rows {
        updates.push(update_of(*row))?;
    }
    Ok(updates)
}

fn removal(id: u32) -> Update
    ensures { IsFitting result }
{
    Update {
        btree: Btree::Snapshots,
        level: 0,
        pos: id_pos(id),
        value: None,
    }
}

// Whether updates are made, and the chain of 89 is this afterwards.
fn goes(tree: &mut SnapTree, updates: &Updates, chain: &[u32]) -> Result<bool, SnapFault>
    requires { All IsFitting updates.now }
{
    tree.apply(updates)?;
    Ok(has_chain(tree, 89, chain))
}

// Whether ids are given these records, another one is taken away, if it isn't 0, and the chain of 89 is this afterwards.
fn rows_go(
    alloc: Global,
    tree: &mut SnapTree,
    rows: &[Row],
    gone: u32,
    chain: &[u32],
) -> Result<bool, SnapFault> {
    let updates = updates_of(alloc, rows, gone)?;
    let good = goes(tree, &updates, chain);
    drop(updates);
    good
}

/// The chain of 89 after a snapshot of 96.
static LONGEST: [u32; 4] = [89, 96, 98, 100];

// Whether a snapshot of 96 is made, and the chain of 89 is right afterwards.
fn split_goes(tree: &mut SnapTree) -> Result<bool, SnapFault> {
    let split = tree.split_leaf(96, 90)?;
    let good = goes(tree, &split.updates, &LONGEST);
    drop(split);
    good
}

/// One id gets a record.
static ROOT: [Row; 1] = [(88, 0, 0, 0, SnapState::LiveLeaf)];

/// 98 has one child.
static ONE_CHILD: [Row; 1] = [(98, 100, 96, 0, SnapState::Interior)];

/// 96 stands under 100.
static WITHOUT_98: [Row; 2] = [
    (96, 100, 90, 89, SnapState::Interior),
    (100, 0, 99, 96, SnapState::Interior),
];

// Whether three changes go: a root of its own; then 95 goes, which leaves 98 with one child; and then 98.
fn three_go(alloc: Global, tree: &mut SnapTree) -> Result<bool, SnapFault> {
    let root = rows_go(alloc, tree, &ROOT, 0, &LONGEST)?;
    let one = rows_go(alloc, tree, &ONE_CHILD, 95, &LONGEST)?;
    let none = rows_go(alloc, tree, &WITHOUT_98, 98, &[89, 96, 100])?;
    Ok(root && one && none)
}

// How many ids a copy has.
fn copied_ids(alloc: Global, tree: &SnapTree) -> Result<usize, SnapFault> {
    let copy = tree.copy(alloc)?;
    let ids = copy.len();
    drop(copy);
    Ok(ids)
}

// Whether a snapshot and three changes go, a copy from between them has 8 ids, and there are 5 live leaves.
fn four_go(alloc: Global, tree: &mut SnapTree) -> Result<bool, SnapFault> {
    let split = split_goes(tree)?;
    let before = copied_ids(alloc, tree)?;
    let three = three_go(alloc, tree)?;
    Ok(split && three && before == 8 && tree.live_leaves() == 5)
}

#[test]
fn updates(rt: HostRuntime) -> Result<(), Fail> {
    let mut tree = tree_of(rt.alloc(), &TREES)?;
    let good = four_go(rt.alloc(), &mut tree);
    drop(tree);
    assert!(rt; good?);
    Ok(())
}

// Whether updates are refused, and nothing has changed.
fn is_refused(tree: &mut SnapTree, updates: &Updates) -> bool
    requires { All IsFitting updates.now }
{
    tree.apply(updates).err() == Some(SnapFault::NoNode) && tree.len() == 6
}

// Whether a record and a removal are refused.
fn are_refused(alloc: Global, tree: &mut SnapTree, row: Row, gone: u32) -> Result<bool, SnapFault> {
    let updates = updates_of(alloc, &[row], gone)?;
    let good = is_refused(tree, &updates);
    drop(updates);
    Ok(good)
}

/// A parent that is missing, one below its child, a child that is missing, and an id that goes and is named.
static REFUSED: [(Row, u32); 4] = [
    ((90, 94, 0, 0, SnapState::LiveLeaf), 0),
    ((97, 96, 0, 0, SnapState::LiveLeaf), 0),
    ((91, 0, 96, 94, SnapState::Interior), 0),
    ((90, 0, 0, 0, SnapState::LiveLeaf), 98),
];

fn all_are_refused(alloc: Global, tree: &mut SnapTree) -> Result<bool, SnapFault> {
    for (row, gone) in REFUSED.iter() {
        if !are_refused(alloc, tree, *row, *gone)? {
            return Ok(false);
        }
    }
    Ok(true)
}

#[test]
fn refused_updates(rt: HostRuntime) -> Result<(), Fail> {
    let mut tree = tree_of(rt.alloc(), &TREES)?;
    let good = all_are_refused(rt.alloc(), &mut tree);
    drop(tree);
    assert!(rt; good?);
    Ok(())
}

/// How many ids a large tree has. They are the greatest ones.
const MANY: u32 = 4096;

// A chain: each id but the greatest is under the next one.
fn long_row(id: u32) -> Row {
    let parent = if id < u32::MAX { id + 1 } else { 0 };
    (id, parent, 0, 0, SnapState::LiveLeaf)
}

// A tree in which each id but the greatest is under one that is half as far from the greatest.
fn wide_row(id: u32) -> Row {
    let far = u32::MAX - id;
    let parent = if far > 0 { u32::MAX - (far - 1) / 2 } else { 0 };
    (id, parent, 0, 0, SnapState::LiveLeaf)
}

// How far two ids of a chain are apart.
fn in_long(above: u32, id: u32) -> Option<u32> {
    if id <= above { Some(above - id) } else { None }
}

// How far two ids of the wide tree are apart, by going up from the lower one.
fn in_wide(above: u32, id: u32) -> Option<u32> {
    let mut at = u32::MAX - id;
    for steps in 0..32 {
        if at == u32::MAX - above {
            return Some(steps);
        }
        if at == 0 {
            return None;
        }
        at = (at - 1) / 2;
    }
    None
}

fn many_rows(alloc: Global, is_long: bool) -> Result<Vec<Row>, AllocError> {
    let mut rows = Vec::new(alloc);
    for far in 0..MANY {
        let id = u32::MAX - far;
        rows.push(if is_long { long_row(id) } else { wide_row(id) })?;
    }
    Ok(rows)
}

// How far up an ancestor is.
fn far_up(above: u32, id: u32, is_long: bool) -> Option<u32> {
    if is_long {
        in_long(above, id)
    } else {
        in_wide(above, id)
    }
}

// Whether a search finds the ancestor where it is, and follows a link for each one in the binary digits of how far up.
fn is_found(tree: &SnapTree, above: u32, id: u32, is_long: bool) -> bool {
    let mut steps = Steps::new();
    let found = tree.is_ancestor_counted(above, id, &mut steps);
    match far_up(above, id, is_long) {
        None => !found && steps.followed <= 12,
        Some(far) => found && steps.followed <= 12 && steps.followed == far.count_ones() as u64,
    }
}

// The first of 10,000 searches that finds something else, or follows other links than one for each one in the binary
// digits of how far up the ancestor is.
fn first_wrong(tree: &SnapTree, is_long: bool) -> Option<u32> {
    for case in 0..10_000 {
        let above = u32::MAX - (case * 101) % MANY;
        let id = u32::MAX - (case * 37) % MANY;
        if !is_found(tree, above, id, is_long) {
            return Some(case);
        }
    }
    None
}

// Splits the lowest one of many ids, and gives how many links lead up from its snapshot to the greatest one.
fn split_lowest(tree: &mut SnapTree) -> Result<u64, SnapFault> {
    let lowest = u32::MAX - (MANY - 1);
    let split = tree.split_leaf(lowest, lowest - 1)?;
    let copy = split.copy;
    let made = tree.apply(&split.updates);
    drop(split);
    made?;
    let mut steps = Steps::new();
    if !tree.is_ancestor_counted(u32::MAX, copy, &mut steps) {
        return Err(SnapFault::NoNode);
    }
    Ok(steps.followed)
}

// A tree of many ids.
fn many_of(alloc: Global, is_long: bool) -> Result<SnapTree, SnapFault> {
    let rows = many_rows(alloc, is_long)?;
    let tree = tree_of(alloc, rows.as_slice());
    drop(rows);
    tree
}

// The first wrong search in a tree of many ids, how many links lead up from a snapshot of the lowest one, and how many live
// leaves there are then.
fn searched(alloc: Global, is_long: bool) -> Result<(Option<u32>, u64, usize), SnapFault> {
    let mut tree = many_of(alloc, is_long)?;
    let found = search(&mut tree, is_long);
    drop(tree);
    found
}

fn search(tree: &mut SnapTree, is_long: bool) -> Result<(Option<u32>, u64, usize), SnapFault> {
    let wrong = first_wrong(tree, is_long);
    let links = split_lowest(tree)?;
    Ok((wrong, links, tree.live_leaves()))
}

#[test]
fn many_ids(rt: HostRuntime) -> Result<(), Fail> {
    // 4,096 ids up are one link, and 13 are three
    let long = searched(rt.alloc(), true)?;
    let wide = searched(rt.alloc(), false)?;
    assert!(rt; long == (None, 1, 4097) && wide == (None, 3, 4097));
    Ok(())
}

// An id that goes, two ids that go under its parent, and this parent, each as how far from the greatest id it is; and how long
// the chain of the lowest of many ids is then.
type TakenOut = (u32, u32, u32, u32, usize);

/// In the chain one id is under each.
static LONG: [TakenOut; 2] = [
    (4094, 4095, 4095, 4093, 4095),
    (2048, 2049, 2049, 2047, 4094),
];

/// In the wide tree two ids are under each, but one under that which is 2,047 far, as the lowest of 13 levels.
static WIDE: [TakenOut; 3] = [
    (30, 61, 62, 14, 13),
    (15, 31, 32, 7, 12),
    (2047, 4095, 4095, 1023, 11),
];

// The updates that take an id out.
fn taken_out(alloc: Global, case: TakenOut) -> Result<Updates, AllocError>
    ensures { IfOk result (All IsFitting) }
{
    let (gone, first, second, parent, _) = case;
    let parent = u32::MAX - parent;
    let mut updates = Updates::new(alloc);
    updates.push(update_of((u32::MAX - first, parent, 0, 0, SnapState::LiveLeaf)))?;
    updates.push(update_of((u32::MAX - second, parent, 0, 0, SnapState::LiveLeaf)))?;
    updates.push(removal(u32::MAX - gone))?;
    Ok(updates)
}

// How long the chain of the lowest of many ids is.
fn lowest_chain(tree: &SnapTree) -> Result<usize, SnapFault> {
    let chain = tree.chain(u32::MAX - (MANY - 1))?;
    let length = chain.len();
    drop(chain);
    Ok(length)
}

// Whether taking an id out leaves as long a chain as the case says.
fn is_as_told(alloc: Global, tree: &mut SnapTree, case: TakenOut) -> Result<bool, SnapFault> {
    let updates = taken_out(alloc, case)?;
    let made = tree.apply(&updates);
    drop(updates);
    made?;
    Ok(lowest_chain(tree)? == case.4)
}

// The first id whose removal from a large tree isn't as told.
fn first_untold(
    alloc: Global,
    is_long: bool,
    cases: &[TakenOut],
) -> Result<Option<u32>, SnapFault> {
    let mut tree = many_of(alloc, is_long)?;
    let untold = untold_in(alloc, &mut tree, cases);
    drop(tree);
    untold
}

fn untold_in(
    alloc: Global,
    tree: &mut SnapTree,
    cases: &[TakenOut],
) -> Result<Option<u32>, SnapFault> {
    for case in cases {
        if !is_as_told(alloc, tree, *case)? {
            return Ok(Some(case.0));
        }
    }
    Ok(None)
}

#[test]
fn removals(rt: HostRuntime) -> Result<(), Fail> {
    let alloc = rt.alloc();
    assert!(rt; first_untold(alloc, true, &LONG)? == None);
    assert!(rt; first_untold(alloc, false, &WIDE)? == None);
    Ok(())
}
