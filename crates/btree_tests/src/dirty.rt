//! Nodes that are written while they change.

ghost use Rattle.std.specs.Prelude.{IfOk, IsSome, OnOk};
ghost use Rattle.std.specs.Ordering.{nat_cmp};
ghost use Rattle.vol_types.specs.Maps.{value_at};

use dirty_nodes::{DirtyNodes, Paths};
use std::alloc::{AllocError, Global};
use std::test::Fail;

// The entry of this number changes the node of this birth, which is a root.
fn change(alloc: Global, dirty: &mut DirtyNodes, birth: u64, seq: u64) -> Result<(), AllocError>
    ensures pinned { OnOk result (IsSome (value_at nat_cmp birth dirty.new.pins.numbers)) }
    ensures marked { OnOk result (IsSome (value_at nat_cmp birth dirty.new.marks.numbers)) }
{
    let paths = Paths {
        changed: vec![in alloc; birth]?,
        over: vec![in alloc; birth]?,
    };
    dirty.reserve(&paths)?;
    dirty.dirty(&paths, seq);
    Ok(())
}

// Entry 6 changes node 3, and entry 5 changes node 1, which is frozen with all of it.
fn frozen(alloc: Global) -> Result<DirtyNodes, AllocError>
    ensures pinned { IfOk result (λ dirty. IsSome (value_at nat_cmp 1 dirty.pins.numbers)) }
    ensures marked { IfOk result (λ dirty. IsSome (value_at nat_cmp 1 dirty.marks.numbers)) }
{
    let mut dirty = DirtyNodes::new(alloc)?;
    change(alloc, &mut dirty, 3, 6)?;
    change(alloc, &mut dirty, 1, 5)?;
    dirty.reserve_freeze()?;
    dirty.freeze(1, None);
    Ok(dirty)
}

// What node 1 pins once it has the birth 2, the oldest pin then, and how many nodes are marked.
fn seen_moved(mut dirty: DirtyNodes) -> (u64, u64, usize)
    requires pinned { IsSome (value_at nat_cmp 1 dirty.pins.numbers) }
    requires marked { IsSome (value_at nat_cmp 1 dirty.marks.numbers) }
{
    dirty.move_to(1, 2);
    (
        dirty.pin_of(2).unwrap_or(0),
        dirty.oldest().unwrap_or(0),
        dirty.marked(),
    )
}

// The frozen node pins the older of the entries that changed it since.
#[test]
fn changed_while_frozen(rt: HostRuntime) -> Result<(), Fail> {
    let alloc = rt.alloc();
    let mut dirty = frozen(alloc)?;
    change(alloc, &mut dirty, 1, 7)?;
    change(alloc, &mut dirty, 1, 9)?;
    assert!(rt; seen_moved(dirty) == (7, 6, 2));
    Ok(())
}

// It is clean where none did.
#[test]
fn unchanged_while_frozen(rt: HostRuntime) -> Result<(), Fail> {
    let dirty = frozen(rt.alloc())?;
    assert!(rt; seen_moved(dirty) == (0, 6, 1));
    Ok(())
}

// And where it is forgotten what did.
#[test]
fn forgotten(rt: HostRuntime) -> Result<(), Fail> {
    let alloc = rt.alloc();
    let mut dirty = frozen(alloc)?;
    change(alloc, &mut dirty, 1, 7)?;
    dirty.forget_later();
    assert!(rt; seen_moved(dirty) == (0, 6, 1));
    Ok(())
}
