//! Blocks of two devices of 1,024 blocks in memory.

use dev_model::{Devices, MemDevices};
use sealed_block::{Head, seal};
use std::alloc::Global;
use std::test::Fail;
use vol_digest::digest;

/// Writes a block of a device.
pub fn put(devices: &mut MemDevices, dev: u8, block: u32, bytes: &[u8]) -> Result<(), Fail> {
    if dev >= devices.count() || block >= devices.blocks(dev) || bytes.len() != 4096 {
        return Err(Fail::from("there is no such block"));
    }
    devices.write(dev, block, bytes)?;
    Ok(())
}

/// The bytes of a block of a device.
pub fn block_of(
    alloc: Global,
    devices: &mut MemDevices,
    dev: u8,
    block: u32,
) -> Result<Vec<u8>, Fail> {
    if dev >= devices.count() || block >= devices.blocks(dev) {
        return Err(Fail::from("there is no such block"));
    }
    let mut bytes = vec![in alloc; 0; 4096]?;
    devices.read(dev, block, &mut bytes)?;
    Ok(bytes)
}

// One part of a record, sealed.
fn sealed(alloc: Global, head: &Head, payload: &[u8]) -> Result<Vec<u8>, Fail> {
    if !head.is_in_ranges() || payload.len() != head.length as usize {
        return Err(Fail::from("it is no part of a record"));
    }
    let mut bytes = vec![in alloc; 0; 4096]?;
    seal(head, payload, &mut bytes);
    Ok(bytes)
}

/// Writes the parts of a record from this block of a device on. The head is that of part 0, but for the parts, the length and
/// the digest.
pub fn put_record(
    alloc: Global,
    devices: &mut MemDevices,
    dev: u8,
    at: u32,
    head: Head,
    payload: &[u8],
) -> Result<(), Fail> {
    let whole = digest(payload);
    let parts = payload.chunks(3968).count().min(64) as u16;
    let mut part: u16 = 0;
    for bytes in payload.chunks(3968) {
        let this = Head {
            part,
            parts,
            number: head.number.wrapping_add(u64::from(part)),
            length: bytes.len().min(3968) as u32,
            whole,
            ..head
        };
        let block = sealed(alloc, &this, bytes)?;
        put(devices, dev, at.saturating_add(u32::from(part)), &block)?;
        part = part.saturating_add(1);
    }
    Ok(())
}
