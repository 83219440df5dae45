//! The 300 cases; and which blocks are read, where nothing is spoiled.

use crate::outcomes::{Outcome, do_agree, mixed, outcome_of};
use crate::spoiling::{restore, spoil};
use crate::tables::volume;
use dev_model::MemDevices;
use image_reader::read_plain;
use image_view::MountFault;
use replay::load;
use std::alloc::Global;
use std::test::Fail;

// What is read on devices, where loading agrees.
fn agreed(alloc: Global, devices: &mut MemDevices) -> Option<Outcome> {
    let read = read_plain(alloc, devices);
    let loaded = load(alloc, devices);
    let outcome = if do_agree(&loaded, &read) {
        Some(outcome_of(&read))
    } else {
        None
    };
    drop(loaded);
    drop(read);
    outcome
}

// What is found in a case, after which all is put back.
fn outcome_in(
    alloc: Global,
    devices: &mut MemDevices,
    kept: &mut MemDevices,
    case: u64,
) -> Result<Outcome, Fail> {
    let touched = spoil(alloc, devices, case)?;
    let found = agreed(alloc, devices);
    let restored = restore(alloc, devices, kept, &touched);
    drop(touched);
    restored?;
    match found {
        Some(outcome) => Ok(outcome),
        None => Err(Fail::from("loading and reading differ")),
    }
}

// One more of those with this fault.
fn count(counts: &mut [u64; 8], fault: u64) {
    if fault < 8 {
        counts[fault as usize] = counts[fault as usize].wrapping_add(1);
    }
}

// How many cases have each fault, and a number that hangs on all that is found or refused, in the order of the cases.
type Outcomes = ([u64; 8], u64);

fn outcomes_beside(
    alloc: Global,
    devices: &mut MemDevices,
    kept: &mut MemDevices,
) -> Result<Outcomes, Fail> {
    let mut counts = [0u64; 8];
    let mut all: u64 = 0;
    for case in 0..300u64 {
        let Outcome(fault, first, second) = outcome_in(alloc, devices, kept, case)?;
        count(&mut counts, fault);
        all = mixed(mixed(mixed(all, fault), first), second);
    }
    Ok((counts, all))
}

fn outcomes_on(alloc: Global, kept: &mut MemDevices) -> Result<Outcomes, Fail> {
    let mut devices = volume(alloc)?;
    let outcomes = outcomes_beside(alloc, &mut devices, kept);
    drop(devices);
    outcomes
}

fn outcomes(alloc: Global) -> Result<Outcomes, Fail> {
    let mut kept = volume(alloc)?;
    let outcomes = outcomes_on(alloc, &mut kept);
    drop(kept);
    outcomes
}

// How many are found, and how many have the faults 1 to 7.
static COUNTS: [u64; 8] = [102, 37, 23, 20, 25, 23, 27, 43];

// What is expected was computed by a second reader in Python, which made and spoiled the same volume by the tables of the format.
#[test]
fn spoiled_images(rt: HostRuntime) -> Result<(), Fail> {
    let (counts, all) = outcomes(rt.alloc())?;
    assert!(rt; counts == COUNTS);
    assert!(rt; all == 0xf9b9_495d_b708_6691);
    Ok(())
}

// The fault of loading devices.
fn fault_of(alloc: Global, devices: &mut MemDevices) -> Option<MountFault> {
    match load(alloc, devices) {
        Err(fault) => Some(fault),
        Ok(loaded) => {
            drop(loaded);
            None
        }
    }
}

// The fault of loading where the read with this number fails, from 0, and how many calls there are.
type Failed = (Option<MountFault>, u64);

fn failing_on(alloc: Global, devices: &mut MemDevices, read: u64) -> Result<Failed, Fail> {
    let first = devices.calls();
    devices.fail_at(&[first.wrapping_add(read)])?;
    let fault = fault_of(alloc, devices);
    Ok((fault, devices.calls().wrapping_sub(first)))
}

fn failing(alloc: Global, read: u64) -> Result<Failed, Fail> {
    let mut devices = volume(alloc)?;
    let failed = failing_on(alloc, &mut devices, read);
    drop(devices);
    failed
}

// Which read fails, and the device that ends the loading, if one does. Each block is read once: 4 of superblocks, 4 of sessions, 256
// of the journal of each device, and of 11 nodes 16 on each of two places. What fails of a node's sets is made up by its other
// place. All else ends the loading; so does a block behind the sets, where another one could begin.
static FAILED: [(u64, Option<u8>); 10] = [
    (0, Some(0)),
    (3, Some(1)),
    (4, Some(0)),
    (7, Some(1)),
    (8, Some(0)),
    (519, Some(1)),
    (871, Some(1)),
    (520, None),
    (536, None),
    (872, None),
];

fn wanted_of(read: u64, dev: Option<u8>) -> Failed {
    match dev {
        Some(dev) => (Some(MountFault::DeviceFault(dev)), read.wrapping_add(1)),
        None => (None, 872),
    }
}

// The first read that fails otherwise.
fn first_other(alloc: Global) -> Result<Option<u64>, Fail> {
    for (read, dev) in FAILED.iter() {
        if failing(alloc, *read)? != wanted_of(*read, *dev) {
            return Ok(Some(*read));
        }
    }
    Ok(None)
}

#[test]
fn failed_reads(rt: HostRuntime) -> Result<(), Fail> {
    assert!(rt; first_other(rt.alloc())? == None);
    Ok(())
}
