//! Blocks of a volume on two mirrors that were lost.

use crate::found::{Found, is_found};
use crate::images::{formatted, wipe};
use dev_model::MemDevices;
use image_view::MountFault;
use std::alloc::Global;
use std::test::Fail;
use vol_types::Place;

// The empty volume, with so many nodes that lack their set on a mirror.
fn empty(ragged: usize) -> Found {
    Found {
        session: 1,
        needed: [Some(0), None, None],
        counters: [0; 5],
        ends: [1, 0, 0],
        ragged,
    }
}

const NO_ROOT: MountFault = MountFault::BadNode(Place { dev: 0, block: 400 });

// Two blocks that are lost, each with its device, and how many nodes then lack their set on a mirror, or why nothing is found. Blocks
// 0 and 8 hold the superblock of their device, block 5 the session, 16 the entry, and 272 and 400 roots. Blocks 2 and 3 hold
// nothing.
static LOSSES: [((u8, u32), (u8, u32), Result<usize, MountFault>); 10] = [
    ((0, 2), (1, 3), Ok(0)),
    ((0, 0), (1, 8), Ok(0)),
    ((1, 0), (1, 8), Err(MountFault::NoSuper)),
    ((0, 5), (0, 5), Ok(0)),
    ((0, 5), (1, 5), Err(MountFault::NoEntry)),
    ((0, 16), (0, 5), Ok(0)),
    ((0, 16), (1, 16), Err(MountFault::NoEntry)),
    ((0, 400), (0, 2), Ok(1)),
    ((1, 400), (0, 272), Ok(2)),
    ((0, 400), (1, 400), Err(NO_ROOT)),
];

fn wanted_of(found: &Result<usize, MountFault>) -> Result<Found, MountFault> {
    match found {
        Ok(ragged) => Ok(empty(*ragged)),
        Err(fault) => Err(*fault),
    }
}

// Whether this is found once the blocks are zero.
fn is_found_without(
    alloc: Global,
    devices: &mut MemDevices,
    first: (u8, u32),
    second: (u8, u32),
    wanted: &Result<Found, MountFault>,
) -> Result<bool, Fail> {
    wipe(alloc, devices, first.0, first.1)?;
    wipe(alloc, devices, second.0, second.1)?;
    Ok(is_found(alloc, devices, &[0, 1, 2, 3, 4], wanted))
}

fn leaves(
    alloc: Global,
    first: (u8, u32),
    second: (u8, u32),
    found: &Result<usize, MountFault>,
) -> Result<bool, Fail> {
    let mut devices = formatted(alloc, 2)?;
    let is_found = is_found_without(alloc, &mut devices, first, second, &wanted_of(found));
    drop(devices);
    is_found
}

// The number of the first losses that leave something else.
fn first_other(alloc: Global) -> Result<Option<u32>, Fail> {
    let mut number: u32 = 0;
    for (first, second, found) in LOSSES.iter() {
        if !leaves(alloc, *first, *second, found)? {
            return Ok(Some(number));
        }
        number = number.saturating_add(1);
    }
    Ok(None)
}

#[test]
fn blocks_that_were_lost(rt: HostRuntime) -> Result<(), Fail> {
    assert!(rt; first_other(rt.alloc())? == None);
    Ok(())
}
