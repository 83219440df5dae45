//! Fresh volumes, and devices of which blocks are changed between two runs.

use crate::trials::{EMPTY_RUN, Trial, taken};
use dev_model::{Devices, MemDevices, Pick};
use geometry::{session_bytes, session_named};
use std::alloc::{AllocError, Global};

/// The id of the volumes of these tests, as the arguments give it.
pub const ID_TEXT: &str = "00000000-0000-4000-8000-000000000001";

/// The same id in its 16 bytes.
pub const ID: [u8; 16] = [0, 0, 0, 0, 0, 0, 0x40, 0, 0x80, 0, 0, 0, 0, 0, 0, 1];

/// Formats one device of 1,024 blocks, with a journal area of 256, over a source that fails. Nothing else is printed, and there
/// is no history.
pub const FORMAT_ONE: Trial<'static> = Trial {
    arguments: &["format", "--id", ID_TEXT, "--blocks", "1024"],
    failing_takes: &[0],
    status: Some(0),
    printed: Some(
        b"formatted 00000000-0000-4000-8000-000000000001 devices 1 blocks 1024 journal 256\n",
    ),
    entries: Some(0),
    acks: Some(&[]),
    takes: Some(0),
    ..EMPTY_RUN
};

/// Formats two devices in the same way, with two replicas of everything.
pub const FORMAT_TWO: Trial<'static> = Trial {
    arguments: &[
        "format",
        "--id",
        ID_TEXT,
        "--blocks",
        "1024",
        "--data-replicas",
        "2",
        "--meta-replicas",
        "2",
    ],
    printed: Some(
        b"formatted 00000000-0000-4000-8000-000000000001 devices 2 blocks 1024 journal 256\n",
    ),
    ..FORMAT_ONE
};

/// Formats three devices in the same way, with three replicas of everything.
pub const FORMAT_THREE: Trial<'static> = Trial {
    arguments: &[
        "format",
        "--id",
        ID_TEXT,
        "--blocks",
        "1024",
        "--data-replicas",
        "3",
        "--meta-replicas",
        "3",
    ],
    printed: Some(
        b"formatted 00000000-0000-4000-8000-000000000001 devices 3 blocks 1024 journal 256\n",
    ),
    ..FORMAT_ONE
};

/// How many calls a run on a fresh volume of one device makes before its first line. 2 superblock copies, 2 sessions, 256 blocks of
/// the journal and 16 of each of nine roots are read; the next session is written and flushed; and the only entry is read once
/// more, as the journal is mended, and so is the block of each root's set, as the roots are. On two devices with two replicas of everything it
/// makes twice as many.
pub const MOUNTING: u64 = 416;

/// Restarts the devices, with what this pick leaves.
pub fn restart(alloc: Global, devices: &mut MemDevices, pick: Pick) -> Result<(), AllocError> {
    *devices = taken(alloc, devices)?.restart(pick)?;
    Ok(())
}

/// The devices fail at one of the calls to come, counted from 0, and then at each later one too, or at that call alone.
pub fn fail(devices: &mut MemDevices, call: u64, stays: bool) -> Result<(), AllocError> {
    let call = devices.calls().saturating_add(call);
    if stays {
        devices.fail_from(call);
        Ok(())
    } else {
        devices.fail_at(&[call])
    }
}

// Writes a block, as one who changes a disk that isn't in use: whoever calls this restarts the devices with all that was
// written. Whether it was written.
fn put_block(devices: &mut MemDevices, dev: u8, block: u32, bytes: &[u8]) -> bool {
    dev < devices.count()
        && block < devices.blocks(dev)
        && bytes.len() == 4096
        && devices.write(dev, block, bytes).is_ok()
}

/// The session that a block of a device names.
pub fn session_on(
    alloc: Global,
    devices: &mut MemDevices,
    dev: u8,
    block: u32,
) -> Result<Option<u64>, AllocError> {
    if dev >= devices.count() || block >= devices.blocks(dev) {
        return Ok(None);
    }
    let mut bytes = vec![in alloc; 0; 4096]?;
    let is_read = devices.read(dev, block, &mut bytes).is_ok();
    let session = session_named(&ID, block, &bytes);
    drop(bytes);
    Ok(if is_read { session } else { None })
}

/// Seals this session in block 5 of a device.
pub fn put_session(
    alloc: Global,
    devices: &mut MemDevices,
    dev: u8,
    session: u64,
) -> Result<bool, AllocError> {
    let mut bytes = vec![in alloc; 0; 4096]?;
    session_bytes(&ID, session, &mut bytes);
    let is_put = put_block(devices, dev, 5, &bytes);
    drop(bytes);
    Ok(is_put)
}

// Whether all could be written.
fn are_put(devices: &mut MemDevices, dev: u8, first: u32, last: u32, bytes: &[u8]) -> bool {
    for block in first..=last {
        if !put_block(devices, dev, block, bytes) {
            return false;
        }
    }
    true
}

/// Writes zeros over the blocks of a device from the first to the last. Whether all were written.
pub fn wipe(
    alloc: Global,
    devices: &mut MemDevices,
    dev: u8,
    first: u32,
    last: u32,
) -> Result<bool, AllocError> {
    let zeros = vec![in alloc; 0; 4096]?;
    let are_put = are_put(devices, dev, first, last, &zeros);
    drop(zeros);
    Ok(are_put)
}
