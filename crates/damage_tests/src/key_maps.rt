//! Lists as they are found, as a key map, also where they aren't those of one; and devices without a volume.

use btree_map::KeyMap;
use dev_model::MemDevices;
use image_reader::FoundBtree;
use image_view::MountFault;
use replay::{MadeMap, Unmade, key_map, load};
use std::alloc::{AllocError, Global};
use std::test::Fail;
use vol_types::{Births, Btree, Ends, Listing, NodeEnd, NodePtr, Place, Places, Pos, Value};

// What is wrong with the lists, if anything is.
#[derive(Clone, Copy, PartialEq, Eq)]
enum Flaw {
    None,
    // One btree more.
    Ten,
    // Two values at one position.
    Repeated,
    // The last leaf ends before the greatest position.
    Short,
    // A node above the leaves ends where no leaf does.
    Apart,
    // Two leaves have one birth.
    Twins,
    // A leaf has the value of another btree.
    Foreign,
}

const FLAWS: [(Flaw, bool); 7] = [
    (Flaw::None, true),
    (Flaw::Ten, false),
    (Flaw::Repeated, false),
    (Flaw::Short, false),
    (Flaw::Apart, false),
    (Flaw::Twins, false),
    (Flaw::Foreign, false),
];

fn at(offset: u64) -> Pos {
    Pos {
        inode: 7,
        offset,
        snapshot: 1,
    }
}

fn pointer(alloc: Global, birth: u64, level: u8) -> Result<NodePtr, AllocError> {
    let places = Places::from_slice(alloc, &[Place { dev: 0, block: 512 }])?;
    Ok(NodePtr {
        birth,
        level,
        places,
    })
}

fn put_node(
    alloc: Global,
    nodes: &mut Listing<(Pos, NodePtr)>,
    level: u8,
    greatest: Pos,
    birth: u64,
) -> Result<(), AllocError> {
    let node = pointer(alloc, birth, level)?;
    nodes.push((greatest, node))?;
    Ok(())
}

fn level_of(
    alloc: Global,
    level: u8,
    nodes: &[(Pos, u64)],
) -> Result<Listing<(Pos, NodePtr)>, AllocError> {
    let mut all = Listing::new(alloc);
    for (greatest, birth) in nodes {
        put_node(alloc, &mut all, level, *greatest, *birth)?;
    }
    Ok(all)
}

fn put_level(
    alloc: Global,
    btree: &mut FoundBtree,
    level: u8,
    nodes: &[(Pos, u64)],
) -> Result<(), AllocError> {
    let nodes = level_of(alloc, level, nodes)?;
    btree.levels.push(nodes)?;
    Ok(())
}

fn put_counter(btree: &mut FoundBtree, offset: u64, next: u64) -> Result<(), AllocError> {
    btree.entries.push((at(offset), Value::Counter { next }))?;
    Ok(())
}

fn put_end(btree: &mut FoundBtree, birth: u64, block: u8) -> Result<(), AllocError> {
    btree.ends.push(NodeEnd { birth, block })?;
    Ok(())
}

// Nothing of a btree yet.
fn nothing(alloc: Global) -> FoundBtree {
    FoundBtree {
        entries: Listing::new(alloc),
        levels: Listing::new(alloc),
        ends: Ends::new(alloc),
        ragged: Births::new(alloc),
    }
}

// Puts in a leaf without values.
fn put_empty(alloc: Global, btree: &mut FoundBtree, birth: u64) -> Result<(), AllocError> {
    put_level(alloc, btree, 0, &[(Pos::GREATEST, birth)])?;
    put_end(btree, birth, 2)
}

// Puts in counters: two leaves under a root, the first of which ends at offset 4.
fn put_counters(alloc: Global, btree: &mut FoundBtree, flaw: Flaw) -> Result<(), AllocError> {
    let second = if flaw == Flaw::Repeated { 3 } else { 9 };
    let last = if flaw == Flaw::Short {
        at(20)
    } else {
        Pos::GREATEST
    };
    let top = if flaw == Flaw::Apart {
        at(30)
    } else {
        Pos::GREATEST
    };
    let twin = if flaw == Flaw::Twins { 5 } else { 12 };
    put_level(alloc, btree, 0, &[(at(4), 11), (last, twin)])?;
    put_level(alloc, btree, 1, &[(top, 13)])?;
    put_counter(btree, 3, 30)?;
    put_counter(btree, second, 90)?;
    if flaw == Flaw::Foreign {
        btree.entries.push((at(10), Value::Gone))?;
    }
    put_end(btree, 13, 6)?;
    btree.ragged.push(12)?;
    Ok(())
}

// Adds a btree of one leaf without values.
fn push_empty(alloc: Global, all: &mut Listing<FoundBtree>, birth: u64) -> Result<(), AllocError> {
    let mut btree = nothing(alloc);
    if let Err(error) = put_empty(alloc, &mut btree, birth) {
        drop(btree);
        return Err(error);
    }
    all.push(btree)?;
    Ok(())
}

// Adds the btree of counters.
fn push_counters(
    alloc: Global,
    all: &mut Listing<FoundBtree>,
    flaw: Flaw,
) -> Result<(), AllocError> {
    let mut btree = nothing(alloc);
    if let Err(error) = put_counters(alloc, &mut btree, flaw) {
        drop(btree);
        return Err(error);
    }
    all.push(btree)?;
    Ok(())
}

fn push_btrees(alloc: Global, all: &mut Listing<FoundBtree>, flaw: Flaw) -> Result<(), AllocError> {
    for birth in 0..8 {
        push_empty(alloc, all, birth)?;
    }
    push_counters(alloc, all, flaw)?;
    if flaw == Flaw::Ten {
        push_empty(alloc, all, 20)?;
    }
    Ok(())
}

fn btrees(alloc: Global, flaw: Flaw) -> Result<Listing<FoundBtree>, AllocError> {
    let mut all = Listing::new(alloc);
    push_btrees(alloc, &mut all, flaw)?;
    Ok(all)
}

// Whether a counter stands at an offset, and in the leaf of this birth.
fn stands(map: &KeyMap, offset: u64, next: u64, leaf: u64) -> bool {
    if map.leaf_of(Btree::Counters, &at(offset)) != leaf {
        return false;
    }
    match map.get(Btree::Counters, &at(offset)) {
        Some(Value::Counter { next: found }) => *found == next,
        _ => false,
    }
}

// Whether the map has what the lists have.
fn is_whole(made: &MadeMap) -> bool {
    let (map, ends) = (&made.map, &made.ends);
    if !stands(map, 3, 30, 11) || !stands(map, 9, 90, 12) {
        return false;
    }
    if map.get(Btree::Counters, &at(4)).is_some() {
        return false;
    }
    if map.height(Btree::Counters) != 2 || map.height(Btree::Alloc) != 1 {
        return false;
    }
    if map.root(Btree::Counters).birth != 13 || map.root(Btree::Alloc).birth != 5 {
        return false;
    }
    if made.ragged.len() != 1 || made.ragged.get(0) != Some(&12) {
        return false;
    }
    ends.len() == 9
        && ends.get(0) == Some(&NodeEnd { birth: 0, block: 2 })
        && ends.get(8)
            == Some(&NodeEnd {
                birth: 13,
                block: 6,
            })
}

// Whether lists with a flaw are refused, and others make their map.
fn is_judged(alloc: Global, flaw: Flaw, sound: bool) -> Result<bool, AllocError> {
    let lists = btrees(alloc, flaw)?;
    match key_map(alloc, lists) {
        Ok(made) => {
            let whole = is_whole(&made);
            drop(made);
            Ok(sound && whole)
        }
        Err(fault) => Ok(!sound && fault == Unmade::NotBtrees),
    }
}

// The number of the first flaw that is judged otherwise.
fn first_other(alloc: Global) -> Result<Option<usize>, AllocError> {
    for number in 0..FLAWS.len() {
        let (flaw, sound) = FLAWS[number];
        if !is_judged(alloc, flaw, sound)? {
            return Ok(Some(number));
        }
    }
    Ok(None)
}

#[test]
fn lists_make_a_key_map(rt: HostRuntime) -> Result<(), Fail> {
    assert!(rt; first_other(rt.alloc())? == None);
    Ok(())
}

// Why nothing is loaded, if nothing is.
fn fault_on(alloc: Global, devices: &mut MemDevices) -> Option<MountFault> {
    match load(alloc, devices) {
        Ok(loaded) => {
            drop(loaded);
            None
        }
        Err(fault) => Some(fault),
    }
}

#[test]
fn blank_devices_have_no_volume(rt: HostRuntime) -> Result<(), Fail> {
    let mut devices = MemDevices::blank(rt.alloc(), &[64, 64])?;
    let fault = fault_on(rt.alloc(), &mut devices);
    drop(devices);
    assert!(rt; fault == Some(MountFault::NoSuper));
    Ok(())
}
