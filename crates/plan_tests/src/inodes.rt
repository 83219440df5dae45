//! Draws by a table: the first numbers of clients, their last ones, and spent ones. And an inode that is set in two ids.

ghost use Rattle.std.specs.Prelude.{◌<◌};

use crate::ids::tree_of;
use inode_keys::{Draw, next_number, set};
use key_view::{Hold, PlainKeys, PlainView, View};
use snap_tree::SnapTree;
use std::alloc::{AllocError, Global};
use std::sync::Arc;
use std::test::Fail;
use vol_types::{Btree, FileKind, Inode, Pos, Update, Updates, Value};

/// A client, what its counter stands at, and what it draws: the number, and what its counter then stands at.
type Row = (u8, u64, Option<(u64, u64)>);

/// Clients 0, 3 and 15. In a fresh volume client 0 has drawn its first number, for the root of `main`.
static ROWS: [Row; 9] = [
    (0, 2, Some((2, 3))),
    (3, 1, Some((844_424_930_131_969, 2))),
    (15, 1, Some((4_222_124_650_659_841, 2))),
    (3, 100, Some((844_424_930_132_068, 101))),
    (
        0,
        281_474_976_710_655,
        Some((281_474_976_710_655, 281_474_976_710_656)),
    ),
    (
        15,
        281_474_976_710_655,
        Some((4_503_599_627_370_495, 281_474_976_710_656)),
    ),
    (0, 281_474_976_710_656, None),
    (3, 281_474_976_710_656, None),
    (15, 281_474_976_710_656, None),
];

fn counter_at(counter: u8) -> Pos {
    Pos {
        inode: 0,
        offset: u64::from(counter),
        snapshot: 0,
    }
}

// Puts 17 counters. This client's stands at a number, and the others at 7.
fn put_counters(keys: &mut PlainKeys, client: u8, next: u64) -> Result<(), AllocError> {
    for counter in 0..17 {
        let next = if counter == client { next } else { 7 };
        keys.counters
            .insert(counter_at(counter), Value::Counter { next })?;
    }
    Ok(())
}

fn counter_keys(alloc: Global, client: u8, next: u64) -> Result<PlainKeys, AllocError> {
    let mut keys = PlainKeys::new(alloc);
    if let Err(error) = put_counters(&mut keys, client, next) {
        drop(keys);
        return Err(error);
    }
    Ok(keys)
}

// A view of these counters.
fn counters(alloc: Global, client: u8, next: u64) -> Result<PlainView, AllocError> {
    let tree = Arc::new(alloc, SnapTree::new(alloc))?;
    match counter_keys(alloc, client, next) {
        Ok(keys) => Ok(PlainView::new(alloc, keys, tree)),
        Err(error) => {
            drop(tree);
            Err(error)
        }
    }
}

// Whether the only update sets the counter to a number.
fn counts_to(updates: &[Update], counter: u8, wanted: u64) -> bool {
    let [update] = updates else {
        return false;
    };
    let place = update.pos == counter_at(counter) && update.level == 0;
    place && update.btree == Btree::Counters && holds(update.value.as_ref(), wanted)
}

fn holds(value: Option<&Value>, wanted: u64) -> bool {
    match value {
        Some(Value::Counter { next }) => *next == wanted,
        _ => false,
    }
}

// Whether this was drawn.
fn is_drawn(draw: &Draw, client: u8, wanted: Option<(u64, u64)>) -> bool {
    match (draw, wanted) {
        (Draw::Spent, None) => true,
        (Draw::Drawn { number, updates }, Some((wanted, next))) => {
            *number == wanted && counts_to(updates.as_slice(), client, next)
        }
        _ => false,
    }
}

// Whether a client draws this, and how many looks the view has made then.
fn draws_so(
    alloc: Global,
    view: &mut PlainView,
    client: u8,
    wanted: Option<(u64, u64)>,
) -> Result<(bool, usize), Hold>
    requires { client < 16 }
{
    let draw = next_number(alloc, view, client)?;
    let good = is_drawn(&draw, client, wanted);
    drop(draw);
    Ok((good, view.looks().len()))
}

// Whether a client draws what a row says, by one look.
fn is_row(alloc: Global, row: &Row) -> Result<bool, Fail> {
    let (client, next, wanted) = *row;
    if client > 15 {
        return Ok(false);
    }
    let mut view = counters(alloc, client, next)?;
    let found = draws_so(alloc, &mut view, client, wanted);
    drop(view);
    Ok(found? == (true, 1))
}

// The number of the first row that isn't so.
fn first_other_draw(alloc: Global) -> Result<Option<u32>, Fail> {
    let mut number: u32 = 0;
    for row in ROWS.iter() {
        if !is_row(alloc, row)? {
            return Ok(Some(number));
        }
        number = number.saturating_add(1);
    }
    Ok(None)
}

#[test]
fn draws(rt: HostRuntime) -> Result<(), Fail> {
    assert!(rt; first_other_draw(rt.alloc())? == None);
    Ok(())
}

// A counter that isn't there stands at 0.
#[test]
fn missing_counter(rt: HostRuntime) -> Result<(), Fail> {
    let alloc = rt.alloc();
    let tree = Arc::new(alloc, SnapTree::new(alloc))?;
    let mut view = PlainView::new(alloc, PlainKeys::new(alloc), tree);
    let found = draws_so(alloc, &mut view, 1, Some((281_474_976_710_656, 1)));
    drop(view);
    assert!(rt; found?.0);
    Ok(())
}

/// What an update does to an inode: it puts one, hides it, or takes its key away.
#[derive(Clone, Copy, PartialEq, Eq)]
enum Step {
    Put,
    Hidden,
    Gone,
}

/// An id, a number, whether it gets an inode, and what its update does, if there is one.
type SetRow = (u32, u64, bool, Option<Step>);

/// The inode 7 stands in id 9, the parent of 5.
static SET_ROWS: [SetRow; 7] = [
    (5, 7, true, Some(Step::Put)),
    (9, 7, true, Some(Step::Put)),
    (5, 8, true, Some(Step::Put)),
    (5, 7, false, Some(Step::Hidden)),
    (9, 7, false, Some(Step::Gone)),
    (5, 8, false, None),
    (9, 8, false, None),
];

const INODE: Inode = Inode {
    kind: FileKind::File,
    links: 1,
    size: 0,
};

/// Id 5 below id 9.
static IDS: [(u32, u32); 2] = [(5, 9), (9, 0)];

fn inode_at(number: u64, id: u32) -> Pos {
    Pos {
        inode: 0,
        offset: number,
        snapshot: id,
    }
}

// What the only update does to the inode of a number in an id; none where there is no update, or another one.
fn step_at(updates: &[Update], number: u64, id: u32) -> Option<Step> {
    let [update] = updates else {
        return None;
    };
    let place = update.pos == inode_at(number, id) && update.level == 0;
    if !place || update.btree != Btree::Inodes {
        return None;
    }
    match &update.value {
        Some(Value::Inode(inode)) if *inode == INODE => Some(Step::Put),
        Some(Value::White) => Some(Step::Hidden),
        None => Some(Step::Gone),
        _ => None,
    }
}

fn one_key(alloc: Global) -> Result<PlainKeys, AllocError> {
    let mut keys = PlainKeys::new(alloc);
    if let Err(error) = put_inode(&mut keys) {
        drop(keys);
        return Err(error);
    }
    Ok(keys)
}

// A view of the inode 7 in id 9.
fn one_inode(alloc: Global) -> Result<PlainView, AllocError> {
    let tree = Arc::new(alloc, SnapTree::new(alloc))?;
    match one_key(alloc) {
        Ok(keys) => Ok(PlainView::new(alloc, keys, tree)),
        Err(error) => {
            drop(tree);
            Err(error)
        }
    }
}

fn put_inode(keys: &mut PlainKeys) -> Result<(), AllocError> {
    keys.inodes.insert(inode_at(7, 9), Value::Inode(INODE))?;
    Ok(())
}

// The updates where a number in an id gets an inode or loses it.
fn updates_in(
    alloc: Global,
    tree: &SnapTree,
    id: u32,
    number: u64,
    is_there: bool,
) -> Result<Updates, Fail> {
    let mut view = one_inode(alloc)?;
    let inode = if is_there { Some(INODE) } else { None };
    let updates = set(alloc, &mut view, tree, id, number, inode);
    drop(view);
    Ok(updates?)
}

// Whether they are what a row says.
fn is_set(alloc: Global, tree: &SnapTree, row: &SetRow) -> Result<bool, Fail> {
    let (id, number, is_there, wanted) = *row;
    let updates = updates_in(alloc, tree, id, number, is_there)?;
    let good = updates.len() == usize::from(wanted.is_some())
        && step_at(updates.as_slice(), number, id) == wanted;
    drop(updates);
    Ok(good)
}

// The number of the first row that isn't so.
fn first_other_set(alloc: Global, tree: &SnapTree) -> Result<Option<u32>, Fail> {
    let mut number: u32 = 0;
    for row in SET_ROWS.iter() {
        if !is_set(alloc, tree, row)? {
            return Ok(Some(number));
        }
        number = number.saturating_add(1);
    }
    Ok(None)
}

#[test]
fn sets(rt: HostRuntime) -> Result<(), Fail> {
    let tree = tree_of(rt.alloc(), &IDS)?;
    let other = first_other_set(rt.alloc(), &tree);
    drop(tree);
    assert!(rt; other? == None);
    Ok(())
}
