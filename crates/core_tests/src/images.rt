//! A volume on up to four devices of 1,024 blocks in memory, with a journal area of 256 on each metadata device: nine leaves without
//! keys, byte by byte from the tables of the format.

use dev_model::{Devices, MemDevices};
use geometry::{session_bytes, write_super};
use sealed_block::{Head, JOURNAL_ENTRY, NODE_SET, seal};
use std::alloc::{AllocError, Global};
use std::test::Fail;
use vol_digest::digest;
use vol_types::{Blocks, Bytes, Layout};

const ID: [u8; 16] = [0, 0, 0, 0, 0, 0, 0x40, 0, 0x80, 0, 0, 0, 0, 0, 0, 1];

// The birth of the root of btree 0.
const BIRTH: u64 = 0x1_0000_0000;

/// On how many devices a volume lies, and how many of them, the first ones, keep its metadata.
#[derive(Clone, Copy)]
pub struct Shape {
    pub devices: u8,
    pub mirrors: u8,
}

/// One device.
pub const ONE: Shape = Shape {
    devices: 1,
    mirrors: 1,
};

/// Two devices, with the metadata on both.
pub const TWO: Shape = Shape {
    devices: 2,
    mirrors: 2,
};

// The place of the root of a btree.
fn root_block(btree: u8) -> u32 {
    272 + 16 * u32::from(btree)
}

/// The bytes of a block of a device.
pub fn block_of(
    alloc: Global,
    devices: &mut MemDevices,
    dev: u8,
    block: u32,
) -> Result<Vec<u8>, Fail> {
    if dev >= devices.count() || block >= devices.blocks(dev) {
        return Err(Fail::from("there is no such block"));
    }
    let mut bytes = vec![in alloc; 0; 4096]?;
    match devices.read(dev, block, &mut bytes) {
        Ok(()) => Ok(bytes),
        Err(_) => {
            drop(bytes);
            Err(Fail::from("the block isn't read"))
        }
    }
}

/// Writes a block of a device.
pub fn put(devices: &mut MemDevices, dev: u8, block: u32, bytes: &[u8]) -> Result<(), Fail> {
    if dev >= devices.count() || block >= devices.blocks(dev) || bytes.len() != 4096 {
        return Err(Fail::from("there is no such block"));
    }
    devices.write(dev, block, bytes)?;
    Ok(())
}

// Settles what was written to a device.
fn settle(devices: &mut MemDevices, dev: u8) -> Result<(), Fail> {
    if dev >= devices.count() {
        return Err(Fail::from("there is no such device"));
    }
    devices.flush(dev)?;
    Ok(())
}

// The head of a record of one part.
fn head_of(kind: u8, owner: u64, payload: &[u8]) -> Head {
    Head {
        kind,
        version: 1,
        part: 0,
        parts: 1,
        id: ID,
        owner,
        number: 0,
        sequence: 1,
        length: payload.len().min(3968) as u32,
        whole: digest(payload),
    }
}

// Writes a record of one part.
fn put_record(
    alloc: Global,
    devices: &mut MemDevices,
    dev: u8,
    block: u32,
    head: &Head,
    payload: &[u8],
) -> Result<(), Fail> {
    if !head.is_in_ranges() || payload.len() != head.length as usize {
        return Err(Fail::from("it is no record of one part"));
    }
    let mut bytes = vec![in alloc; 0; 4096]?;
    seal(head, payload, &mut bytes);
    let done = put(devices, dev, block, &bytes);
    drop(bytes);
    done
}

// What stands behind the number of the btree of a leaf: that it is a leaf, and that it covers all positions.
static SPAN: [u8; 43] = [
    0, 0, 0, 0, 0, 0, 0, 0, 0, 0, 0, 0, 0, 0, 0, 0, 0, 0, 0, 0, 0, 0, 0, 255, 255, 255, 255, 255,
    255, 255, 255, 255, 255, 255, 255, 255, 255, 255, 255, 255, 255, 255, 255,
];

// What stands before the offset of a counter, and between that and its value.
static INODE: [u8; 8] = [0, 0, 0, 0, 0, 0, 0, 0];

static KIND: [u8; 5] = [0, 0, 0, 0, 11];

fn push_counter(payload: &mut Bytes, offset: u64, value: u64) -> Result<(), AllocError> {
    payload.extend_from_slice(&INODE)?;
    payload.extend_from_slice(&offset.to_le_bytes())?;
    payload.extend_from_slice(&KIND)?;
    payload.extend_from_slice(&value.to_le_bytes())
}

fn push_leaf(
    payload: &mut Bytes,
    birth: u64,
    btree: u8,
    counters: &[(u64, u64)],
) -> Result<(), AllocError> {
    payload.extend_from_slice(&birth.to_le_bytes())?;
    payload.extend_from_slice(&[btree])?;
    payload.extend_from_slice(&SPAN)?;
    payload.extend_from_slice(&[(counters.len() & 255) as u8, 0, 0, 0])?;
    for (offset, value) in counters {
        push_counter(payload, *offset, *value)?;
    }
    Ok(())
}

/// A leaf that covers all positions, with the offsets and values of counters, fewer than 256.
pub fn leaf_payload(
    alloc: Global,
    birth: u64,
    btree: u8,
    counters: &[(u64, u64)],
) -> Result<Bytes, AllocError> {
    let mut payload = Bytes::new(alloc);
    match push_leaf(&mut payload, birth, btree, counters) {
        Ok(()) => Ok(payload),
        Err(error) => {
            drop(payload);
            Err(error)
        }
    }
}

// A root, at the same place of each metadata device.
fn push_root(payload: &mut Bytes, btree: u8, mirrors: u8) -> Result<(), AllocError> {
    payload.extend_from_slice(&BIRTH.wrapping_add(u64::from(btree)).to_le_bytes())?;
    payload.extend_from_slice(&[0, mirrors])?;
    for dev in 0..mirrors {
        payload.extend_from_slice(&[dev])?;
        payload.extend_from_slice(&root_block(btree).to_le_bytes())?;
    }
    Ok(())
}

// The sequence of the first entry and the oldest that it needs, its session, and its commits.
static FIRST: [u64; 4] = [1, 1, 1, 0];

// The first entry: its numbers, the roots, and no updates.
fn push_entry(payload: &mut Bytes, mirrors: u8) -> Result<(), AllocError> {
    for number in FIRST.iter() {
        payload.extend_from_slice(&number.to_le_bytes())?;
    }
    for btree in 0..9 {
        push_root(payload, btree, mirrors)?;
    }
    payload.extend_from_slice(&[0; 4])
}

fn entry_payload(alloc: Global, mirrors: u8) -> Result<Bytes, AllocError> {
    let mut payload = Bytes::new(alloc);
    match push_entry(&mut payload, mirrors) {
        Ok(()) => Ok(payload),
        Err(error) => {
            drop(payload);
            Err(error)
        }
    }
}

// The sizes of the devices.
fn sizes_of(count: u8) -> &'static [u32] {
    match count {
        1 => &[1024],
        2 => &[1024, 1024],
        3 => &[1024, 1024, 1024],
        _ => &[1024, 1024, 1024, 1024],
    }
}

// Writes the superblock of a device.
fn put_super(
    alloc: Global,
    devices: &mut MemDevices,
    layout: &Layout,
    dev: u8,
) -> Result<(), Fail> {
    if !layout.is_valid() || usize::from(dev) >= layout.blocks.len() {
        return Err(Fail::from("it is no layout"));
    }
    let mut bytes = vec![in alloc; 0; 4096]?;
    write_super(layout, dev, 0, 1, &mut bytes);
    let done = put(devices, dev, 0, &bytes);
    drop(bytes);
    done
}

// Writes the superblocks of all devices, and settles what was written.
fn put_supers(alloc: Global, devices: &mut MemDevices, layout: &Layout) -> Result<(), Fail> {
    for dev in 0..devices.count() {
        put_super(alloc, devices, layout, dev)?;
        settle(devices, dev)?;
    }
    Ok(())
}

// Writes the leaf of a btree of a metadata device.
fn put_leaf(alloc: Global, devices: &mut MemDevices, dev: u8, btree: u8) -> Result<(), Fail> {
    let birth = BIRTH.wrapping_add(u64::from(btree));
    let leaf = leaf_payload(alloc, birth, btree, &[])?;
    let head = head_of(NODE_SET, birth, leaf.as_slice());
    let done = put_record(
        alloc,
        devices,
        dev,
        root_block(btree),
        &head,
        leaf.as_slice(),
    );
    drop(leaf);
    done
}

// Writes the first entry of a metadata device.
fn put_entry(alloc: Global, devices: &mut MemDevices, mirrors: u8, dev: u8) -> Result<(), Fail> {
    let entry = entry_payload(alloc, mirrors)?;
    let head = head_of(JOURNAL_ENTRY, 1, entry.as_slice());
    let done = put_record(alloc, devices, dev, 16, &head, entry.as_slice());
    drop(entry);
    done
}

// Writes the session of a metadata device.
fn put_session(alloc: Global, devices: &mut MemDevices, dev: u8) -> Result<(), Fail> {
    let mut bytes = vec![in alloc; 0; 4096]?;
    session_bytes(&ID, 1, &mut bytes);
    let done = put(devices, dev, 5, &bytes);
    drop(bytes);
    done
}

// Writes what stands on the metadata devices alone.
fn put_metadata(alloc: Global, devices: &mut MemDevices, mirrors: u8) -> Result<(), Fail> {
    for dev in 0..mirrors {
        for btree in 0..9 {
            put_leaf(alloc, devices, dev, btree)?;
        }
        put_entry(alloc, devices, mirrors, dev)?;
        put_session(alloc, devices, dev)?;
    }
    Ok(())
}

// Writes a volume of this shape to its devices.
fn put_volume(alloc: Global, devices: &mut MemDevices, shape: Shape) -> Result<(), Fail> {
    put_metadata(alloc, devices, shape.mirrors)?;
    let layout = Layout {
        id: ID,
        blocks: Blocks::from_slice(alloc, sizes_of(shape.devices))?,
        journal: 256,
        metadata_replicas: shape.mirrors,
        data_replicas: 1,
    };
    let done = put_supers(alloc, devices, &layout);
    drop(layout);
    done
}

/// The devices of a volume of this shape, which session 1 wrote last. Nothing is pending on them.
pub fn formatted_on(alloc: Global, shape: Shape) -> Result<MemDevices, Fail> {
    let sizes = sizes_of(shape.devices);
    if sizes.is_empty() || sizes.len() > 8 {
        return Err(Fail::from("there are no such devices"));
    }
    let mut devices = MemDevices::blank(alloc, sizes)?;
    match put_volume(alloc, &mut devices, shape) {
        Ok(()) => Ok(devices),
        Err(fail) => {
            drop(devices);
            Err(fail)
        }
    }
}
