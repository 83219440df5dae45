//! Volumes on one or two devices of 1,024 blocks in memory, with a journal area of 256 blocks. What a case writes stands on each
//! device, if it doesn't say on which.

ghost use Rattle.std.specs.Prelude.{◌≡◌, ◌↔◌, All, IfOk, IsSome, IsTrue};
ghost use Rattle.record_codec.specs.Entries.{IsEntryInRange};

use crate::blocks::{block_of, put};
use crate::bytes::{COUNTERS, EntryOf, SetOf, entry_payload, set_payload};
use dev_model::{Devices, MemDevices};
use geometry::{is_layout_of, session_bytes, write_super};
use journal_ring::{Ring, areas_have_places, entry_parts};
use node_store::plan_set;
use record_codec::{EntryRecord, get_entry, get_set, set_lengths};
use std::alloc::{AllocError, Global};
use std::test::Fail;
use vol_digest::digest;
use vol_types::{Blocks, Key, Layout, NodePtr, Place, Places, Pos};

const ID: [u8; 16] = [0, 0, 0, 0, 0, 0, 0x40, 0, 0x80, 0, 0, 0, 0, 0, 0, 1];

/// A layout on one or two devices, with metadata on each.
pub fn layout_of(alloc: Global, devices: u8) -> Result<Layout, AllocError>
    ensures mirrors { IfOk result (λ layout. layout.metadata_replicas ≡ devices) }
    ensures journal { IfOk result (λ layout. layout.journal ≡ 256) }
{
    let sizes: &[u32] = if devices == 2 { &[1024, 1024] } else { &[1024] };
    Ok(Layout {
        id: ID,
        blocks: Blocks::from_slice(alloc, sizes)?,
        journal: 256,
        metadata_replicas: devices,
        data_replicas: 1,
    })
}

// Writes a block of each device.
fn put_all(devices: &mut MemDevices, block: u32, bytes: &[u8]) -> Result<(), Fail> {
    for dev in 0..devices.count() {
        put(devices, dev, block, bytes)?;
    }
    Ok(())
}

/// Writes zeros over a block of a device.
pub fn wipe(alloc: Global, devices: &mut MemDevices, dev: u8, block: u32) -> Result<(), Fail> {
    let zeros = vec![in alloc; 0; 4096]?;
    put(devices, dev, block, &zeros)
}

// Writes a copy of the superblock of a device.
fn put_super(
    alloc: Global,
    devices: &mut MemDevices,
    layout: &Layout,
    dev: u8,
    block: u32,
) -> Result<(), Fail> {
    if !layout.is_valid() || dev as usize >= layout.blocks.len() {
        return Err(Fail::from("the layout has no such device"));
    }
    let mut bytes = vec![in alloc; 0; 4096]?;
    write_super(layout, dev, block, 1, &mut bytes);
    put(devices, dev, block, &bytes)
}

// Writes both copies of the superblock of each device.
fn put_supers(alloc: Global, devices: &mut MemDevices) -> Result<(), Fail> {
    let layout = layout_of(alloc, devices.count())?;
    for dev in 0..devices.count() {
        put_super(alloc, devices, &layout, dev, 0)?;
        put_super(alloc, devices, &layout, dev, 8)?;
    }
    Ok(())
}

// Names session 1 on each device.
fn put_session(alloc: Global, devices: &mut MemDevices) -> Result<(), Fail> {
    let mut bytes = vec![in alloc; 0; 4096]?;
    session_bytes(&ID, 1, &mut bytes);
    put_all(devices, 5, &bytes)
}

fn has_value(key: &Key) -> bool
    ensures { IsTrue result ↔ IsSome key.now.value }
{
    key.value.is_some()
}

// Whether no key is removed.
fn have_values(keys: &[Key]) -> bool
    ensures { IsTrue result ↔ All (λ key. IsSome key.value) keys.now }
{
    keys.iter().all(|key| has_value(key))
}

// The sealed blocks of a set with this payload, from this block of its bucket on.
fn set_blocks(alloc: Global, n: u8, payload: &[u8]) -> Result<Vec<u8>, Fail> {
    let Ok(set) = get_set(alloc, payload) else {
        return Err(Fail::from("it is no set"));
    };
    let ends = n as usize + (payload.len() + 3967) / 3968;
    if ends > 16 {
        return Err(Fail::from("the bucket ends before the set"));
    }
    if n == 0 && !have_values(set.keys.as_slice()) {
        return Err(Fail::from("the first set removes a key"));
    }
    let ptr = NodePtr {
        birth: set.birth,
        level: set.level,
        places: Places::from_slice(alloc, &[Place { dev: 0, block: 0 }])?,
    };
    set_lengths();
    let blocked = plan_set(alloc, &layout_of(alloc, 1)?, &ptr, n, 1, &set)?;
    Ok(Vec::from(blocked.parts))
}

// Writes a set of this btree into the bucket that begins at this block.
fn put_btree(
    alloc: Global,
    devices: &mut MemDevices,
    btree: u8,
    bucket: u32,
    n: u8,
    set: &SetOf<'_>,
) -> Result<(), Fail> {
    let payload = set_payload(alloc, btree, set, devices.count())?;
    let blocks = set_blocks(alloc, n, payload.as_slice())?;
    let mut block = bucket.saturating_add(u32::from(n));
    for bytes in blocks.chunks(4096).take((payload.len() + 3967) / 3968) {
        put_all(devices, block, bytes)?;
        block = block.saturating_add(1);
    }
    Ok(())
}

/// Writes a set of a node of Counters from block n of the bucket that begins at this block.
pub fn put_set(
    alloc: Global,
    devices: &mut MemDevices,
    bucket: u32,
    n: u8,
    set: &SetOf<'_>,
) -> Result<(), Fail> {
    put_btree(alloc, devices, COUNTERS, bucket, n, set)
}

// Devices on which a ring has written all parts of an entry, and how many these are.
fn with_entry(alloc: Global, number: u64, entry: &EntryRecord) -> Result<(MemDevices, u64), Fail>
    requires { IsEntryInRange entry.now }
{
    let layout = layout_of(alloc, 1)?;
    let parts = entry_parts(entry);
    if !is_layout_of(&[1024], &layout) || parts > 64 || number > 1 << 32 {
        return Err(Fail::from("the entry has no room"));
    }
    areas_have_places();
    let mut devices = MemDevices::blank(alloc, &[1024])?;
    let mut ring = Ring::of(alloc, &layout, number, number);
    ring.stage(alloc, entry)?;
    for _ in 0..parts {
        if !ring.is_written() {
            ring.write_part(&mut devices)?;
        }
    }
    Ok((devices, parts))
}

// The block where a journal block number lies.
fn ring_block(number: u64) -> u32 {
    16 + (number % 256) as u32
}

// Copies a block of the first device to a device.
fn copy_block(
    alloc: Global,
    from: &mut MemDevices,
    block: u32,
    devices: &mut MemDevices,
    dev: u8,
) -> Result<(), Fail> {
    let bytes = block_of(alloc, from, 0, block)?;
    put(devices, dev, block, &bytes)
}

/// Which parts of an entry stand on which devices, a bit for each.
#[derive(Clone, Copy)]
pub struct Stands {
    pub devices: u8,
    pub parts: u8,
}

/// All parts on each device.
pub const EVERYWHERE: Stands = Stands {
    devices: 0b11,
    parts: 0b11,
};

// Whether a mask has the bit of this number, of which there are eight.
fn has_bit(mask: u8, number: u8) -> bool {
    number < 8 && mask >> number & 1 == 1
}

/// Writes the parts of an entry that stand there, from this journal block number on.
pub fn put_entry(
    alloc: Global,
    devices: &mut MemDevices,
    number: u64,
    entry: &EntryOf<'_>,
    stands: Stands,
) -> Result<(), Fail> {
    let payload = entry_payload(alloc, entry, devices.count())?;
    match get_entry(alloc, payload.as_slice()) {
        Ok(entry) => {
            let put = put_read_entry(alloc, devices, number, &entry, stands);
            drop(entry);
            put
        }
        Err(_) => Err(Fail::from("it is no entry")),
    }
}

fn put_read_entry(
    alloc: Global,
    devices: &mut MemDevices,
    number: u64,
    entry: &EntryRecord,
    stands: Stands,
) -> Result<(), Fail>
    requires { IsEntryInRange entry.now }
{
    let (mut written, parts) = with_entry(alloc, number, entry)?;
    let copied = copy_parts(alloc, &mut written, devices, number, parts, stands);
    drop(written);
    copied
}

// Copies the parts that stand there from the first device of those on which a ring has written them.
fn copy_parts(
    alloc: Global,
    written: &mut MemDevices,
    devices: &mut MemDevices,
    number: u64,
    parts: u64,
    stands: Stands,
) -> Result<(), Fail> {
    for dev in 0..devices.count() {
        for part in 0..parts.min(8) as u8 {
            if has_bit(stands.devices, dev) && has_bit(stands.parts, part) {
                let block = ring_block(number.wrapping_add(u64::from(part)));
                copy_block(alloc, written, block, devices, dev)?;
            }
        }
    }
    Ok(())
}

// The only set of an empty leaf that covers all positions.
fn empty_root(count: u64) -> SetOf<'static> {
    SetOf {
        count,
        level: 0,
        least: Pos::LEAST,
        greatest: Pos::GREATEST,
        keys: &[],
    }
}

/// The first entry of a volume.
pub const FIRST: EntryOf<'static> = EntryOf {
    sequence: 1,
    oldest: 1,
    session: 1,
    commits: 0,
    level: 0,
    root: (8, 400),
    is_long: false,
    updates: &[],
};

fn put_volume(alloc: Global, made: &mut MemDevices) -> Result<(), Fail> {
    for btree in 0..9 {
        let bucket = 272 + 16 * u32::from(btree);
        let root = empty_root(u64::from(btree));
        put_btree(alloc, made, btree, bucket, 0, &root)?;
    }
    put_entry(alloc, made, 0, &FIRST, EVERYWHERE)?;
    put_session(alloc, made)?;
    put_supers(alloc, made)
}

/// A volume as a format makes it, but without a key: nine empty roots, the first entry under number 0, session 1, and the
/// superblocks.
pub fn formatted(alloc: Global, devices: u8) -> Result<MemDevices, Fail> {
    let sizes: &[u32] = if devices == 2 { &[1024, 1024] } else { &[1024] };
    let mut made = MemDevices::blank(alloc, sizes)?;
    match put_volume(alloc, &mut made) {
        Ok(()) => Ok(made),
        Err(fail) => {
            drop(made);
            Err(fail)
        }
    }
}

// Appends a block of the first device.
fn add_block(
    alloc: Global,
    devices: &mut MemDevices,
    block: u32,
    image: &mut Vec<u8>,
) -> Result<(), Fail> {
    let bytes = block_of(alloc, devices, 0, block)?;
    image.extend_from_slice(&bytes)?;
    Ok(())
}

// The digest of all blocks of the first device.
fn image_digest(alloc: Global, devices: &mut MemDevices) -> Result<[u8; 32], Fail> {
    let mut image = Vec::new(alloc);
    for block in 0..1024 {
        add_block(alloc, devices, block, &mut image)?;
    }
    Ok(digest(&image))
}

// The digest was computed by Python's hashlib over the 4 MiB that its struct module packed by the tables of the format: the
// superblock in blocks 0 and 8, the session in block 5, the first entry in block 16, and the root of btree c in block 272 + 16 c.
static KNOWN_DIGEST: [u8; 32] = [
    0x56, 0xbd, 0xf9, 0x8f, 0x20, 0x47, 0x61, 0xbd, 0xd5, 0x12, 0x6d, 0xaa, 0x74, 0x35, 0xd1, 0x4d,
    0xe3, 0x7f, 0x54, 0x85, 0xab, 0x3a, 0x34, 0xef, 0xbe, 0xf9, 0xe4, 0x7f, 0x5f, 0xd9, 0x62, 0x82,
];

#[test]
fn known_image(rt: HostRuntime) -> Result<(), Fail> {
    let mut devices = formatted(rt.alloc(), 1)?;
    let found = image_digest(rt.alloc(), &mut devices);
    drop(devices);
    assert!(rt; found? == KNOWN_DIGEST);
    Ok(())
}
