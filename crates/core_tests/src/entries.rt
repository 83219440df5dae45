//! The entry of sixty files: its parts, byte by byte where it counts.

use crate::deeds::{Deed, devices_behind};
use crate::images::block_of;
use crate::volumes::Names;
use dev_model::MemDevices;
use std::alloc::Global;
use std::test::Fail;
use vol_digest::digest;

// The files n00 to n59 are made, and then synced.
static SIXTY: [Deed; 2] = [Deed::Make(Names::Short, 60), Deed::Sync(60)];

// Whether these bytes stand in a block from this one on.
fn stand_at(block: &[u8], at: usize, bytes: &[u8]) -> bool {
    match block.get(at..) {
        Some(rest) => rest.starts_with(bytes),
        None => false,
    }
}

// Where it is, and what stands there: of the two blocks of the second entry kind, version, part and parts, the block's number, the sequence, and how many bytes of the payload it
// has, 6,456 in all; then its sequence, the oldest that it needs, its session, and its commits. Nothing stands behind them.
static ROWS: [(u32, usize, &[u8]); 13] = [
    (17, 8, &[2, 1, 0, 0, 0, 0, 2, 0]),
    (17, 40, &[1, 0, 0, 0, 0, 0, 0, 0]),
    (17, 48, &[2, 0, 0, 0, 0, 0, 0, 0]),
    (17, 56, &[0x80, 0x0f, 0, 0, 0, 0, 0, 0]),
    (17, 96, &[2, 0, 0, 0, 0, 0, 0, 0]),
    (17, 104, &[2, 0, 0, 0, 0, 0, 0, 0]),
    (17, 112, &[2, 0, 0, 0, 0, 0, 0, 0]),
    (17, 120, &[60, 0, 0, 0, 0, 0, 0, 0]),
    (18, 8, &[2, 1, 0, 0, 1, 0, 2, 0]),
    (18, 40, &[2, 0, 0, 0, 0, 0, 0, 0]),
    (18, 48, &[2, 0, 0, 0, 0, 0, 0, 0]),
    (18, 56, &[0xb8, 0x09, 0, 0, 0, 0, 0, 0]),
    (19, 0, &[0, 0, 0, 0, 0, 0, 0, 0]),
];

// The digests of both blocks. They were computed by a program in Python, which makes the entry and seals its blocks by the tables of the format: for each file
// the counter of client 0, its inode and its name are put.
static BLOCKS: [(u32, &[u8]); 2] = [
    (
        17,
        &[
            0x1f, 0xc1, 0xde, 0x8a, 0x17, 0x36, 0x2c, 0xf8, 0xde, 0x0e, 0x6a, 0xfe, 0x01, 0xa4,
            0x16, 0xca, 0x4d, 0x8c, 0xe4, 0xbe, 0x57, 0x71, 0xdd, 0x5c, 0x2b, 0xac, 0xbb, 0x74,
            0x45, 0x00, 0xb0, 0x7d,
        ],
    ),
    (
        18,
        &[
            0x7d, 0x85, 0xa0, 0xc4, 0x62, 0xb2, 0x7e, 0xf4, 0x5c, 0xe4, 0xf8, 0x79, 0xa4, 0xa3,
            0xb3, 0x7f, 0x0d, 0xb4, 0xa7, 0x0c, 0x4f, 0x6e, 0xd6, 0x7c, 0x4a, 0xd6, 0xcf, 0x19,
            0x61, 0x34, 0x96, 0xe9,
        ],
    ),
];

// Whether these bytes stand in a block of a device from this one on.
fn has_row(
    alloc: Global,
    devices: &mut MemDevices,
    dev: u8,
    row: &(u32, usize, &[u8]),
) -> Result<bool, Fail> {
    let bytes = block_of(alloc, devices, dev, row.0)?;
    let stand_there = stand_at(&bytes, row.1, row.2);
    drop(bytes);
    Ok(stand_there)
}

// Whether a block of a device has this digest.
fn has_digest(
    alloc: Global,
    devices: &mut MemDevices,
    dev: u8,
    block: u32,
    expected: &[u8],
) -> Result<bool, Fail> {
    let bytes = block_of(alloc, devices, dev, block)?;
    let found = digest(&bytes);
    drop(bytes);
    Ok(found.as_slice() == expected)
}

// Whether all that stands in the rows stands on a device, and both blocks, each byte of them.
fn has_entry(alloc: Global, devices: &mut MemDevices, dev: u8) -> Result<bool, Fail> {
    for row in ROWS.iter() {
        if !has_row(alloc, devices, dev, row)? {
            return Ok(false);
        }
    }
    for (block, expected) in BLOCKS.iter() {
        if !has_digest(alloc, devices, dev, *block, expected)? {
            return Ok(false);
        }
    }
    Ok(true)
}

// The first of two devices that hasn't all of it.
fn other_device(alloc: Global, devices: &mut MemDevices) -> Result<Option<u8>, Fail> {
    for dev in 0..2u8 {
        if !has_entry(alloc, devices, dev)? {
            return Ok(Some(dev));
        }
    }
    Ok(None)
}

// The first device that hasn't the entry of the sixty files.
fn other_behind(alloc: Global) -> Result<Option<u8>, Fail> {
    let mut devices = devices_behind(alloc, 2, &SIXTY)?;
    let other = other_device(alloc, &mut devices);
    drop(devices);
    other
}

#[test]
fn sixty_files_are_one_entry(rt: HostRuntime) -> Result<(), Fail> {
    assert!(rt; other_behind(rt.alloc())? == None);
    Ok(())
}
