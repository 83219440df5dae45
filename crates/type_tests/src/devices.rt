//! Devices in memory: what a crash, a write that fails, an extension and a patch leave, and which calls fail.

use dev_model::{Devices, Gate, MemDevices, NoGate, Pick};
use std::alloc::{AllocError, Global};
use std::test::Fail;
use vol_types::Place;

static ONES: [u8; 4096] = [1; 4096];

static TWOS: [u8; 4096] = [2; 4096];

// The first and the last byte of a block, if it is there and is read.
fn ends(devices: &mut MemDevices, dev: u8, block: u32) -> Option<(u8, u8)> {
    if dev >= devices.count() || block >= devices.blocks(dev) {
        return None;
    }
    let mut found = [9; 4096];
    match devices.read(dev, block, &mut found) {
        Ok(()) => Some((found[0], found[4095])),
        Err(_) => None,
    }
}

// Writes a block, if it is there, and says whether that succeeds.
fn write(devices: &mut MemDevices, dev: u8, block: u32, bytes: &[u8; 4096]) -> bool {
    if dev >= devices.count() || block >= devices.blocks(dev) {
        return false;
    }
    devices.write(dev, block, bytes).is_ok()
}

// Flushes a device, if it is there, and says whether that succeeds.
fn flush(devices: &mut MemDevices, dev: u8) -> bool {
    dev < devices.count() && devices.flush(dev).is_ok()
}

// Makes a device longer, and says whether that succeeds.
fn extend(devices: &mut MemDevices, dev: u8, blocks: u32) -> bool {
    if dev >= devices.count() || blocks < devices.blocks(dev) {
        return false;
    }
    devices.extend(dev, blocks).is_ok()
}

// Two devices of zeros, of which the calls with these numbers are to fail.
fn blank(alloc: Global, failing: &[u64]) -> Result<MemDevices, AllocError> {
    let mut devices = MemDevices::blank(alloc, &[4, 8])?;
    if let Err(failed) = devices.fail_at(failing) {
        drop(devices);
        return Err(failed);
    }
    Ok(devices)
}

// The calls before a crash.
#[derive(Clone, Copy)]
enum Run {
    // A write of ones, a flush and a write of twos.
    Twice,
    // An extension, a write of ones behind the old end, and a flush.
    Longer,
}

fn make(devices: &mut MemDevices, run: Run) {
    match run {
        Run::Twice => {
            let _ = write(devices, 1, 2, &ONES);
            let _ = flush(devices, 1);
            let _ = write(devices, 1, 2, &TWOS);
        }
        Run::Longer => {
            let _ = extend(devices, 0, 6);
            let _ = write(devices, 0, 5, &ONES);
            let _ = flush(devices, 0);
        }
    }
}

// What a run leaves on the devices, of which one call is to fail.
fn made(alloc: Global, failing: u64, run: Run) -> Result<MemDevices, AllocError> {
    let mut devices = blank(alloc, &[failing])?;
    make(&mut devices, run);
    Ok(devices)
}

// A run with a call that fails and a pick of what a crash leaves; what is at two places then.
type Row = (Run, u64, Pick, (u8, u8), Option<(u8, u8)>);

static CRASHES: [Row; 18] = [
    (Run::Twice, 9, Pick::AllWritten, (2, 2), None),
    (Run::Twice, 9, Pick::NoneWritten, (1, 1), None),
    (Run::Twice, 9, Pick::Torn, (2, 1), None),
    (Run::Twice, 2, Pick::AllWritten, (1, 1), None),
    (Run::Twice, 2, Pick::NoneWritten, (1, 1), None),
    (Run::Twice, 2, Pick::Torn, (1, 1), None),
    (Run::Twice, 1, Pick::AllWritten, (2, 2), None),
    (Run::Twice, 1, Pick::NoneWritten, (0, 0), None),
    (Run::Twice, 1, Pick::Torn, (2, 0), None),
    (Run::Twice, 0, Pick::AllWritten, (2, 2), None),
    (Run::Twice, 0, Pick::NoneWritten, (0, 0), None),
    (Run::Twice, 0, Pick::Torn, (2, 0), None),
    (Run::Longer, 2, Pick::AllWritten, (0, 0), Some((1, 1))),
    (Run::Longer, 2, Pick::NoneWritten, (0, 0), None),
    (Run::Longer, 2, Pick::Torn, (0, 0), Some((1, 0))),
    (Run::Longer, 9, Pick::AllWritten, (0, 0), Some((1, 1))),
    (Run::Longer, 9, Pick::NoneWritten, (0, 0), Some((1, 1))),
    (Run::Longer, 9, Pick::Torn, (0, 0), Some((1, 1))),
];

// Whether a crash leaves it so, and zeros at another place.
fn is_left(alloc: Global, row: &Row) -> bool {
    let (run, failing, pick, first, behind) = row;
    let Ok(devices) = made(alloc, *failing, *run) else {
        return false;
    };
    match devices.restart(*pick) {
        Ok(mut after) => {
            let found = ends(&mut after, 1, 2);
            let extended = ends(&mut after, 0, 5);
            let other = ends(&mut after, 0, 3);
            drop(after);
            found == Some(*first) && extended == *behind && other == Some((0, 0))
        }
        Err(_) => false,
    }
}

#[test]
fn a_crash_leaves_what_is_picked(rt: HostRuntime) {
    for (number, row) in CRASHES.iter().enumerate() {
        assert!(rt; is_left(rt.alloc(), row), "row {number}");
    }
}

// What a write of twos over ones leaves that fails, and then what a crash leaves of it.
type FailedRow = (Pick, Pick, (u8, u8), (u8, u8));

static FAILED: [FailedRow; 9] = [
    (Pick::AllWritten, Pick::AllWritten, (2, 2), (2, 2)),
    (Pick::AllWritten, Pick::NoneWritten, (2, 2), (1, 1)),
    (Pick::AllWritten, Pick::Torn, (2, 2), (2, 1)),
    (Pick::NoneWritten, Pick::AllWritten, (1, 1), (1, 1)),
    (Pick::NoneWritten, Pick::NoneWritten, (1, 1), (1, 1)),
    (Pick::NoneWritten, Pick::Torn, (1, 1), (1, 1)),
    (Pick::Torn, Pick::AllWritten, (2, 1), (2, 1)),
    (Pick::Torn, Pick::NoneWritten, (2, 1), (1, 1)),
    (Pick::Torn, Pick::Torn, (2, 1), (2, 1)),
];

// Whether a write of twos over ones fails and leaves this.
fn fails(devices: &mut MemDevices, leaves: Pick, left: (u8, u8)) -> bool {
    devices.failed_writes_leave(leaves);
    let written = write(devices, 1, 2, &ONES) && flush(devices, 1);
    written && !write(devices, 1, 2, &TWOS) && ends(devices, 1, 2) == Some(left)
}

fn is_left_by_failure(alloc: Global, row: &FailedRow) -> bool {
    let (leaves, pick, left, wanted) = row;
    let Ok(mut devices) = blank(alloc, &[2]) else {
        return false;
    };
    let failed = fails(&mut devices, *leaves, *left);
    match devices.restart(*pick) {
        Ok(mut after) => {
            let found = ends(&mut after, 1, 2);
            drop(after);
            failed && found == Some(*wanted)
        }
        Err(_) => false,
    }
}

#[test]
fn a_failed_write_leaves_what_it_is_to(rt: HostRuntime) {
    for (number, row) in FAILED.iter().enumerate() {
        assert!(rt; is_left_by_failure(rt.alloc(), row), "row {number}");
    }
}

// Whether of a read, a write, a flush, an extension and another flush this one and the last one fail, and no other.
fn fail_so(devices: &mut MemDevices, failing: u64) -> bool {
    devices.fail_from(4);
    (ends(devices, 0, 3).is_none() == (failing == 0))
        && (write(devices, 0, 3, &ONES) == (failing != 1))
        && (flush(devices, 0) == (failing != 2))
        && (extend(devices, 0, 6) == (failing != 3))
        && !flush(devices, 0)
        && devices.calls() == 5
        && devices.shortages() == 0
}

fn is_failing(alloc: Global, failing: u64) -> bool {
    match blank(alloc, &[failing]) {
        Ok(mut devices) => {
            let failed = fail_so(&mut devices, failing);
            drop(devices);
            failed
        }
        Err(_) => false,
    }
}

#[test]
fn calls_fail_where_they_are_to(rt: HostRuntime) {
    for failing in 0..4 {
        assert!(rt; is_failing(rt.alloc(), failing), "call {failing}");
    }
}

fn patched(alloc: Global) -> Result<MemDevices, AllocError> {
    let mut devices = MemDevices::blank(alloc, &[4])?;
    if let Err(failed) = devices.patch(&Place { dev: 0, block: 1 }, &TWOS) {
        drop(devices);
        return Err(failed);
    }
    devices.restart(Pick::NoneWritten)
}

#[test]
fn a_patch_stays(rt: HostRuntime) -> Result<(), Fail> {
    let mut after = patched(rt.alloc())?;
    let found = ends(&mut after, 0, 1);
    drop(after);
    assert!(rt; found == Some((2, 2)));
    NoGate.at(0, 1);
    Ok(())
}

// Devices and gates can be used by other threads.
fn can_be_sent<T: Send>(_value: &T) {}

fn can_be_shared<T: Sync>(_value: &T) {}

#[test]
fn threads_may_use_them(rt: HostRuntime) -> Result<(), Fail> {
    let devices = MemDevices::blank(rt.alloc(), &[4])?;
    can_be_sent(&devices);
    drop(devices);
    can_be_shared(&NoGate);
    Ok(())
}
