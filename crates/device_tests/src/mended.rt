//! Nodes that are mended where places lost blocks of them, and calls of that which fail: what each place shows then alone.

use crate::bad_nodes::{LATER, lose, put_two_sets};
use crate::layouts::filled;
use crate::nodes::{BIRTH, FIRST, ID, SECOND, blank, outcome, pointer_of, read_of};
use dev_model::MemDevices;
use geometry::DiskFault;
use node_store::mend_node;
use std::alloc::{AllocError, Global};
use std::test::Fail;
use vol_types::{Blocks, Layout, Place};

static SIZES: [u32; 2] = [32, 64];

// A layout without a journal, behind whose superblocks the bucket lies.
fn layout_before(alloc: Global) -> Result<Layout, AllocError> {
    let blocks = Blocks::from_slice(alloc, &SIZES)?;
    Ok(Layout {
        id: ID,
        blocks,
        journal: 0,
        metadata_replicas: 2,
        data_replicas: 1,
    })
}

// Two sets of two and of three blocks, of which each place lost some, a bit for each; up to which block they are mended, which
// calls of that fail, and what it answers; and whether both sets stand then on the first place, and on the second one.
#[derive(Clone, Copy)]
struct Case {
    lost: (u8, u8),
    end: u8,
    fails: Option<u64>,
    fails_too: Option<u64>,
    answer: Result<(), DiskFault>,
    stand: (bool, bool),
}

const MENDED: Case = Case {
    lost: (0b00001, 0b00000),
    end: 5,
    fails: None,
    fails_too: None,
    answer: Ok(()),
    stand: (true, true),
};

static LOST: [Case; 10] = [
    MENDED,
    Case {
        lost: (0b00000, 0b00000),
        ..MENDED
    },
    Case {
        lost: (0b00001, 0b00010),
        ..MENDED
    },
    Case {
        lost: (0b01010, 0b10101),
        ..MENDED
    },
    Case {
        lost: (0b11111, 0b00000),
        ..MENDED
    },
    Case {
        lost: (0b00000, 0b11111),
        ..MENDED
    },
    // A block that no place has stays lost, and the others come.
    Case {
        lost: (0b00011, 0b00010),
        stand: (false, false),
        ..MENDED
    },
    // No block is mended from the end on.
    Case {
        lost: (0b10000, 0b00000),
        end: 4,
        stand: (false, true),
        ..MENDED
    },
    Case {
        end: 0,
        stand: (false, true),
        ..MENDED
    },
    Case {
        end: 17,
        stand: (false, true),
        ..MENDED
    },
];

// The calls of mending a first block that the first place lacks: it is read on both places, and read again, written and flushed on
// the first one. Of one that the second place lacks: it is read on both places, and written and flushed on the second one. A block
// that both have is read once on each.
static FAILING: [Case; 14] = [
    // Where a read fails another place has the block, and it is written where it can't be read.
    Case {
        fails: Some(0),
        ..MENDED
    },
    Case {
        fails: Some(2),
        ..MENDED
    },
    Case {
        fails: Some(0),
        fails_too: Some(2),
        ..MENDED
    },
    Case {
        fails: Some(5),
        fails_too: Some(7),
        ..MENDED
    },
    Case {
        fails: Some(6),
        ..MENDED
    },
    Case {
        lost: (0b00000, 0b00001),
        fails: Some(1),
        ..MENDED
    },
    // A block that no place shows, while one of them can't be read, ends it.
    Case {
        fails: Some(1),
        answer: Err(DiskFault::DeviceFault(1)),
        stand: (false, true),
        ..MENDED
    },
    Case {
        lost: (0b00000, 0b00001),
        fails: Some(0),
        answer: Err(DiskFault::DeviceFault(0)),
        stand: (true, false),
        ..MENDED
    },
    Case {
        lost: (0b00010, 0b00010),
        fails: Some(2),
        answer: Err(DiskFault::DeviceFault(0)),
        stand: (false, false),
        ..MENDED
    },
    Case {
        lost: (0b00010, 0b00010),
        fails: Some(3),
        answer: Err(DiskFault::DeviceFault(1)),
        stand: (false, false),
        ..MENDED
    },
    // Writes and flushes that fail end it.
    Case {
        fails: Some(3),
        answer: Err(DiskFault::DeviceFault(0)),
        stand: (false, true),
        ..MENDED
    },
    Case {
        fails: Some(4),
        answer: Err(DiskFault::DeviceFault(0)),
        ..MENDED
    },
    Case {
        lost: (0b00000, 0b00001),
        fails: Some(2),
        answer: Err(DiskFault::DeviceFault(1)),
        stand: (true, false),
        ..MENDED
    },
    Case {
        lost: (0b00000, 0b00001),
        fails: Some(3),
        answer: Err(DiskFault::DeviceFault(1)),
        ..MENDED
    },
];

fn mend(alloc: Global, devices: &mut MemDevices, end: u8) -> Result<Result<(), DiskFault>, Fail> {
    let layout = layout_before(alloc)?;
    let node = pointer_of(alloc, BIRTH)?;
    Ok(mend_node(alloc, devices, &layout, &node, end))
}

fn fail(devices: &mut MemDevices, first: u64, call: Option<u64>) -> Result<(), Fail> {
    if let Some(call) = call {
        let number = first.saturating_add(call);
        devices.fail_at(&[number])?;
    }
    Ok(())
}

// What mending answers, and whether both sets are read afterwards, once this place is wiped.
fn without(
    alloc: Global,
    devices: &mut MemDevices,
    case: &Case,
    wiped: Place,
) -> Result<(Result<(), DiskFault>, bool), Fail> {
    let zeros = filled(alloc, 0)?;
    put_two_sets(alloc, devices)?;
    lose(devices, FIRST, case.lost.0, &zeros)?;
    lose(devices, SECOND, case.lost.1, &zeros)?;
    let first = devices.calls();
    fail(devices, first, case.fails)?;
    fail(devices, first, case.fails_too)?;
    let answer = mend(alloc, devices, case.end)?;
    lose(devices, wiped, 0xff, &zeros)?;
    Ok((answer, outcome(alloc, devices)? == read_of(LATER, 5, true)))
}

fn is_so(alloc: Global, case: &Case, wiped: Place, stands: bool) -> Result<bool, Fail> {
    let mut devices = blank(alloc)?;
    Ok(without(alloc, &mut devices, case, wiped)? == (case.answer, stands))
}

// The number of the first case that ends otherwise.
fn first_other(alloc: Global, cases: &[Case]) -> Result<Option<u32>, Fail> {
    let mut number: u32 = 0;
    for case in cases.iter() {
        if !is_so(alloc, case, SECOND, case.stand.0)? || !is_so(alloc, case, FIRST, case.stand.1)? {
            return Ok(Some(number));
        }
        number = number.saturating_add(1);
    }
    Ok(None)
}

#[test]
fn places_that_lost_blocks(rt: HostRuntime) -> Result<(), Fail> {
    assert!(rt; first_other(rt.alloc(), &LOST)? == None);
    Ok(())
}

#[test]
fn calls_of_mending_that_fail(rt: HostRuntime) -> Result<(), Fail> {
    assert!(rt; first_other(rt.alloc(), &FAILING)? == None);
    Ok(())
}
