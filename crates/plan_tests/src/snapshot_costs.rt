//! What operations on subvolumes cost: how many looks their plans make, and how many updates they have, whatever the tree of the
//! subvolume holds and however many snapshots there are of it.

use crate::plans::{inode_pos, name_pos};
use crate::subvolume_plans::{
    OTHER_TWIN, TWIN, Verb, op_of, push, push_counters, push_snap, push_subs, view_after,
};
use fs_plan::{Plan, plan};
use key_view::{PlainView, View};
use std::alloc::{AllocError, Global};
use std::test::Fail;
use vol_types::{Btree, Bytes, FileKind, Inode, Link, LinkList, SnapState, Updates, Value};

/// The id in which the subvolume was made; each snapshot has drawn the next two.
const FIRST_ID: u32 = 5002;

/// The number of its root.
const ROOT: u64 = 1;

/// How many files a subvolume has in its root, and how many snapshots were made of it before.
#[derive(Clone, Copy)]
struct Held {
    files: u32,
    snapshots: u32,
}

static HELD: [Held; 4] = [
    Held {
        files: 0,
        snapshots: 0,
    },
    Held {
        files: 1,
        snapshots: 0,
    },
    Held {
        files: 300,
        snapshots: 0,
    },
    Held {
        files: 1,
        snapshots: 1000,
    },
];

/// An operation, and the looks and updates that it costs: one look at each slot, and one at each counter that it draws from; one update
/// for each slot, each counter and each record of an id that changes, and one for a new root.
type Cost = (Verb, &'static [u8], &'static [&'static [u8]], usize, usize);

static COSTS: [Cost; 4] = [
    (Verb::Snap, TWIN, &[b"new"], 3, 6),
    (Verb::Snap, TWIN, &[OTHER_TWIN], 3, 5),
    (Verb::Subvol, b"new", &[], 3, 5),
    (Verb::Delsub, TWIN, &[], 1, 2),
];

fn letter(number: u32) -> u8 {
    b'a'.saturating_add((number % 26) as u8)
}

fn name_of(number: u32) -> [u8; 3] {
    [letter(number / 676), letter(number / 26), letter(number)]
}

fn inode_of(kind: FileKind) -> Value {
    Value::Inode(Inode {
        kind,
        links: 1,
        size: 0,
    })
}

fn push_file(alloc: Global, history: &mut Updates, file: u32) -> Result<(), AllocError> {
    let number = u64::from(file).saturating_add(2);
    let inode = inode_of(FileKind::File);
    push(history, Btree::Inodes, inode_pos(FIRST_ID, number), inode)?;
    let name = name_of(file);
    let pos = name_pos(FIRST_ID, ROOT, name.as_slice());
    let name = Bytes::from_slice(alloc, name.as_slice())?;
    let mut links = LinkList::new(alloc);
    links.push(Link {
        number,
        kind: FileKind::File,
        name,
    })?;
    push(history, Btree::Dirents, pos, Value::Names(links))
}

// Adds the two ids of a snapshot, the second of which is split by the next one if there is one.
fn push_snapshot(
    alloc: Global,
    history: &mut Updates,
    number: u32,
    state: SnapState,
) -> Result<(), AllocError> {
    let split = FIRST_ID.saturating_sub(number.saturating_mul(2));
    let (copy, source) = (split.saturating_sub(3), split.saturating_sub(2));
    push_snap(history, source, split, state)?;
    push_snap(history, copy, split, SnapState::LiveLeaf)?;
    let name = name_of(number);
    push_subs(alloc, history, name.as_slice(), &[(name.as_slice(), copy)])
}

// The state of the id of the subvolume after some of all its snapshots.
fn state_after(made: u32, all: u32) -> SnapState {
    if made < all {
        SnapState::Interior
    } else {
        SnapState::LiveLeaf
    }
}

fn push_held(alloc: Global, history: &mut Updates, held: Held) -> Result<(), AllocError> {
    let root = inode_of(FileKind::Directory);
    push(history, Btree::Inodes, inode_pos(FIRST_ID, ROOT), root)?;
    for file in 0..held.files {
        push_file(alloc, history, file)?;
    }
    push_snap(history, FIRST_ID, 0, state_after(0, held.snapshots))?;
    for number in 0..held.snapshots {
        let state = state_after(number.saturating_add(1), held.snapshots);
        push_snapshot(alloc, history, number, state)?;
    }
    let id = FIRST_ID.saturating_sub(held.snapshots.saturating_mul(2));
    push_subs(alloc, history, TWIN, &[(TWIN, id)])?;
    push_counters(history, 400, u64::from(id.saturating_sub(2)))
}

fn is_cost(view: &PlainView, plan: &Option<Plan>, looks: usize, updates: usize) -> bool {
    match plan {
        Some(plan) => {
            plan.commits && plan.updates.len() == updates && view.looks().len() == looks
        }
        None => false,
    }
}

fn costs(alloc: Global, history: &Updates, cost: Cost) -> Result<bool, Fail> {
    let (verb, sub, names, looks, updates) = cost;
    let op = op_of(alloc, verb, sub, names)?;
    let mut view = match view_after(alloc, history) {
        Ok(view) => view,
        Err(fail) => {
            drop(op);
            return Err(fail);
        }
    };
    let plan = plan(alloc, &mut view, 0, op).ok();
    let good = is_cost(&view, &plan, looks, updates);
    drop(plan);
    drop(view);
    Ok(good)
}

fn other_cost_in(alloc: Global, history: &mut Updates, held: Held) -> Result<Option<u32>, Fail> {
    push_held(alloc, history, held)?;
    let mut number: u32 = 0;
    for cost in COSTS.iter() {
        if !costs(alloc, history, *cost)? {
            return Ok(Some(number));
        }
        number = number.saturating_add(1);
    }
    Ok(None)
}

// The number of the first operation that costs otherwise.
fn other_cost(alloc: Global, held: Held) -> Result<Option<u32>, Fail> {
    let mut history = Updates::new(alloc);
    let other = other_cost_in(alloc, &mut history, held);
    drop(history);
    other
}

// The numbers of the first volume, and of its first operation, that costs otherwise.
fn other_costs(alloc: Global) -> Result<Option<(u32, u32)>, Fail> {
    let mut number: u32 = 0;
    for held in HELD.iter() {
        if let Some(cost) = other_cost(alloc, *held)? {
            return Ok(Some((number, cost)));
        }
        number = number.saturating_add(1);
    }
    Ok(None)
}

#[test]
fn costs_are_those_of_an_empty_tree(rt: HostRuntime) -> Result<(), Fail> {
    assert!(rt; other_costs(rt.alloc())? == None);
    Ok(())
}
