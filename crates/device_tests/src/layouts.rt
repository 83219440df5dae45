//! Layouts on two devices, their sizes, and sessions: which of them count.

ghost use Rattle.std.specs.Prelude.{◌≡◌, ◌≤◌, length, IfOk, OnOk};
ghost use Rattle.dev_model.specs.Devices.{now};
ghost use Rattle.dev_model.specs.Disk.{NothingPending};

use dev_model::{Devices, MemDevices};
use geometry::{
    DiskFault, have_room, is_layout_of, read_session, session_bytes, session_named, session_place,
    write_session,
};
use std::alloc::{AllocError, Global};
use std::test::Fail;
use vol_digest::digest;
use vol_types::{Blocks, Layout, Place};

/// The id of the volume.
pub static ID: [u8; 16] = [
    0x10, 0x11, 0x12, 0x13, 0x14, 0x15, 0x16, 0x17, 0x18, 0x19, 0x1a, 0x1b, 0x1c, 0x1d, 0x1e, 0x1f,
];

/// The id of another volume.
pub static FOREIGN_ID: [u8; 16] = [7; 16];

/// The sizes of two devices of the same size.
pub static EQUAL: [u32; 2] = [1024, 1024];

/// The sizes of two devices of which the second is twice as large.
pub static UNEQUAL: [u32; 2] = [1024, 2048];

/// A layout on two devices of these sizes: a journal area of 256 blocks, metadata on both, and one copy of data.
pub fn layout_on(alloc: Global, id: &[u8; 16], blocks: &[u32; 2]) -> Result<Layout, AllocError> {
    let blocks = Blocks::from_slice(alloc, blocks)?;
    Ok(Layout {
        id: *id,
        blocks,
        journal: 256,
        metadata_replicas: 2,
        data_replicas: 1,
    })
}

/// Sets a block between two sessions.
pub fn put(devices: &mut MemDevices, dev: u8, block: u32, bytes: &[u8]) -> Result<(), Fail>
    requires { NothingPending (now (⟦<MemDevices as Devices>⟧.state devices.old)) }
    ensures quiet { NothingPending (now (⟦<MemDevices as Devices>⟧.state devices.new)) }
    ensures sizes { (⟦<MemDevices as Devices>⟧.state devices.new).sizes
        ≡ (⟦<MemDevices as Devices>⟧.state devices.old).sizes }
{
    if dev >= devices.count() || block >= devices.blocks(dev) || bytes.len() != 4096 {
        return Err(Fail::from("there is no such block"));
    }
    devices.patch(&Place { dev, block }, bytes)?;
    Ok(())
}

/// A block that is full of this byte.
pub fn filled(alloc: Global, byte: u8) -> Result<Vec<u8>, AllocError>
    ensures { IfOk result (λ bytes. length bytes.items ≡ 4096) }
{
    vec![in alloc; byte; 4096]
}

// A session that is sealed over a block that is full of this byte.
fn sealed_over(alloc: Global, byte: u8, id: &[u8; 16], session: u64) -> Result<Vec<u8>, AllocError>
    ensures { IfOk result (λ bytes. length bytes.items ≡ 4096) }
{
    let mut bytes = filled(alloc, byte)?;
    session_bytes(id, session, &mut bytes);
    Ok(bytes)
}

static SESSION_DIGEST: [u8; 32] = [
    0x7b, 0x0c, 0x8a, 0x59, 0x07, 0xcd, 0x93, 0x0d, 0xda, 0xad, 0xdb, 0xbc, 0x2e, 0x28, 0x74, 0x12,
    0x08, 0x29, 0x9b, 0x7d, 0xfe, 0x7f, 0x7e, 0x4e, 0x99, 0x84, 0x59, 0x0e, 0x16, 0xba, 0x1b, 0xe2,
];

// Whether a block names session 7, in the place of its own alone, and has the known digest.
fn is_known_session(bytes: &[u8]) -> bool
    requires { length bytes.now ≡ 4096 }
{
    session_named(&ID, 5, bytes) == Some(7)
        && session_named(&ID, 4, bytes).is_none()
        && digest(bytes) == SESSION_DIGEST
}

// The digest was computed as that of `known_superblock`, with kind 4, owner 7, number 5, sequence 7, and the payload "<Q" of 7.
#[test]
fn known_session(rt: HostRuntime) -> Result<(), Fail> {
    assert!(rt; session_place(7) == 5);
    let bytes = sealed_over(rt.alloc(), 0xff, &ID, 7)?;
    assert!(rt; is_known_session(&bytes));
    Ok(())
}

// The sizes of two devices, and whether a layout on them stands.
static SIZES: [([u32; 2], bool); 4] = [
    ([1024, 1_048_576], true),
    ([1008, 2048], false),
    ([1024, 1_048_592], false),
    ([1024, 2056], false),
];

// The journal area and the replicas of metadata and data, and whether they stand.
static REPLICAS: [(u32, u8, u8, bool); 7] = [
    (256, 2, 2, true),
    (240, 2, 1, false),
    (264, 2, 1, false),
    (496, 1, 1, true),
    (512, 1, 1, false),
    (256, 3, 1, false),
    (256, 1, 0, false),
];

fn stand_on(alloc: Global, sizes: &[u32; 2]) -> Result<bool, AllocError> {
    let layout = layout_on(alloc, &ID, sizes)?;
    Ok(layout.is_valid())
}

fn stands_with(alloc: Global, journal: u32, meta: u8, replicas: u8) -> Result<bool, AllocError> {
    let mut layout = layout_on(alloc, &ID, &UNEQUAL)?;
    layout.journal = journal;
    layout.metadata_replicas = meta;
    layout.data_replicas = replicas;
    Ok(layout.is_valid())
}

// The number of the first sizes on which a layout stands where it shouldn't, or doesn't where it should.
fn first_other_sizes(alloc: Global) -> Result<Option<u32>, AllocError> {
    let mut number: u32 = 0;
    for (sizes, stands) in SIZES.iter() {
        if stand_on(alloc, sizes)? != *stands {
            return Ok(Some(number));
        }
        number = number.saturating_add(1);
    }
    Ok(None)
}

// The number of the first journal area and replicas with which one stands where it shouldn't, or doesn't where it should.
fn first_other_replicas(alloc: Global) -> Result<Option<u32>, AllocError> {
    let mut number: u32 = 0;
    for (journal, meta, replicas, stands) in REPLICAS.iter() {
        if stands_with(alloc, *journal, *meta, *replicas)? != *stands {
            return Ok(Some(number));
        }
        number = number.saturating_add(1);
    }
    Ok(None)
}

fn is_layout_on(alloc: Global, sizes: &[u32; 2]) -> Result<bool, AllocError> {
    let layout = layout_on(alloc, &ID, &UNEQUAL)?;
    Ok(is_layout_of(sizes, &layout))
}

static LARGER: [u32; 2] = [1030, 2048];

static SMALLER: [u32; 2] = [1024, 2047];

/// The size of one device.
pub static ONE: [u32; 1] = [1024];

// Whether a layout is one of larger sizes and none of smaller ones, and one device has no room for two.
fn sizes_are_judged_so(alloc: Global) -> Result<bool, AllocError> {
    let larger = is_layout_on(alloc, &LARGER)?;
    let smaller = is_layout_on(alloc, &SMALLER)?;
    Ok(larger && !smaller && !have_room(&UNEQUAL, &ONE))
}

#[test]
fn layouts_and_sizes(rt: HostRuntime) -> Result<(), Fail> {
    let alloc = rt.alloc();
    assert!(rt; first_other_sizes(alloc)? == None);
    assert!(rt; first_other_replicas(alloc)? == None);
    assert!(rt; sizes_are_judged_so(alloc)?);
    Ok(())
}

// The number of blocks of each device.
fn sizes_of<D: Devices>(alloc: Global, devices: &D) -> Result<Vec<u32>, AllocError>
    ensures { IfOk result (λ sizes. sizes.items ≡ (D.state devices.now).sizes) }
{
    let mut sizes = Vec::new(alloc);
    for dev in 0..devices.count() {
        sizes.push(devices.blocks(dev))?;
    }
    Ok(sizes)
}

// The greatest session on devices on which the layout has room.
fn session_on(
    alloc: Global,
    devices: &mut MemDevices,
    layout: &Layout,
) -> Result<Option<u64>, DiskFault> {
    let sizes = sizes_of(alloc, devices)?;
    if !is_layout_of(&sizes, layout) {
        return Err(DiskFault::NoMemory);
    }
    read_session(alloc, devices, layout)
}

// Seals a session on devices on which the layout has room.
fn begin_session(
    alloc: Global,
    devices: &mut MemDevices,
    layout: &Layout,
    session: u64,
) -> Result<(), DiskFault> {
    let sizes = sizes_of(alloc, devices)?;
    if !is_layout_of(&sizes, layout) {
        return Err(DiskFault::NoMemory);
    }
    write_session(alloc, devices, layout, session)
}

// Puts a session of the volume with this id into a block.
fn put_session(
    alloc: Global,
    devices: &mut MemDevices,
    id: &[u8; 16],
    session: u64,
    dev: u8,
    block: u32,
) -> Result<(), Fail>
    requires { NothingPending (now (⟦<MemDevices as Devices>⟧.state devices.old)) }
{
    let bytes = sealed_over(alloc, 0, id, session)?;
    put(devices, dev, block, &bytes)
}

// The session that is read once one of the volume with this id was put into a block.
fn session_behind(
    alloc: Global,
    devices: &mut MemDevices,
    id: &[u8; 16],
    session: u64,
    dev: u8,
    block: u32,
) -> Result<Option<u64>, Fail>
    requires { NothingPending (now (⟦<MemDevices as Devices>⟧.state devices.old)) }
{
    put_session(alloc, devices, id, session, dev, block)?;
    let layout = layout_on(alloc, &ID, &EQUAL)?;
    Ok(session_on(alloc, devices, &layout)?)
}

// The session that is read from two devices where one of the volume with this id stands in a block.
fn session_with(
    alloc: Global,
    id: &[u8; 16],
    session: u64,
    dev: u8,
    block: u32,
) -> Result<Option<u64>, Fail> {
    let mut devices = MemDevices::blank(alloc, &EQUAL)?;
    session_behind(alloc, &mut devices, id, session, dev, block)
}

// A session, the device and the block where it stands, and what is read.
static PLACES: [(u64, u8, u32, Option<u64>); 5] = [
    (6, 0, 4, Some(6)),
    (6, 0, 5, None),
    (7, 1, 5, Some(7)),
    (7, 1, 4, None),
    (u64::MAX, 1, 5, Some(u64::MAX)),
];

// The number of the first place from which another session is read.
fn first_other_place(alloc: Global) -> Result<Option<u32>, Fail> {
    let mut number: u32 = 0;
    for (session, dev, block, expected) in PLACES.iter() {
        if session_with(alloc, &ID, *session, *dev, *block)? != *expected {
            return Ok(Some(number));
        }
        number = number.saturating_add(1);
    }
    Ok(None)
}

#[test]
fn sessions_that_count(rt: HostRuntime) -> Result<(), Fail> {
    let alloc = rt.alloc();
    assert!(rt; first_other_place(alloc)? == None);
    assert!(rt; session_with(alloc, &FOREIGN_ID, 6, 0, 4)?.is_none());
    Ok(())
}

// The greatest session once this one was begun.
fn greatest_after(
    alloc: Global,
    devices: &mut MemDevices,
    layout: &Layout,
    session: u64,
) -> Result<Option<u64>, DiskFault> {
    begin_session(alloc, devices, layout, session)?;
    session_on(alloc, devices, layout)
}

// The sessions that are begun, one after the other, and the greatest after each.
static BEGUN: [(u64, u64); 4] = [(10, 11), (12, 12), (13, 13), (2, 13)];

fn reads_greatest(
    alloc: Global,
    devices: &mut MemDevices,
    layout: &Layout,
) -> Result<bool, DiskFault> {
    for (session, greatest) in BEGUN.iter() {
        if greatest_after(alloc, devices, layout, *session)? != Some(*greatest) {
            return Ok(false);
        }
    }
    Ok(true)
}

// Whether it is where the first session is 11.
fn reads_greatest_behind_11(alloc: Global, devices: &mut MemDevices) -> Result<bool, Fail>
    requires { NothingPending (now (⟦<MemDevices as Devices>⟧.state devices.old)) }
{
    put_session(alloc, devices, &ID, 11, 1, 5)?;
    let layout = layout_on(alloc, &ID, &EQUAL)?;
    Ok(reads_greatest(alloc, devices, &layout)?)
}

fn reads_greatest_from_11(alloc: Global) -> Result<bool, Fail> {
    let mut devices = MemDevices::blank(alloc, &EQUAL)?;
    reads_greatest_behind_11(alloc, &mut devices)
}

// The greatest of both devices and both blocks is read, whatever was sealed last.
#[test]
fn the_greatest_session_is_read(rt: HostRuntime) -> Result<(), Fail> {
    assert!(rt; reads_greatest_from_11(rt.alloc())?);
    Ok(())
}
