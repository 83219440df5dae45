use dev_model::{Devices, MemDevices, Pick};
use geometry::{DiskFault, read_session, read_super};
use image_reader::{FoundVolume, read_plain};
use std::alloc::{AllocError, Global};
use std::test::Fail;
use vol_format::format;
use vol_types::{Blocks, Layout};

const ID: [u8; 16] = [
    0x10, 0x11, 0x12, 0x13, 0x14, 0x15, 0x16, 0x17, 0x18, 0x19, 0x1a, 0x1b, 0x1c, 0x1d, 0x1e, 0x1f,
];

// A volume: its id, on how many devices it is and its metadata are, and its journal area.
#[derive(Clone, Copy)]
struct Volume {
    id: [u8; 16],
    devices: usize,
    metadata: u8,
    journal: u32,
}

static ON_ONE: Volume = Volume {
    id: ID,
    devices: 1,
    metadata: 1,
    journal: 256,
};

static ON_TWO: Volume = Volume {
    id: ID,
    devices: 2,
    metadata: 1,
    journal: 256,
};

static OTHER_ON_TWO: Volume = Volume {
    id: OTHER,
    devices: 2,
    metadata: 1,
    journal: 256,
};

static SIZES: [u32; 8] = [1024; 8];

// The layout of a volume whose devices have 1,024 blocks each, with one copy of data.
fn layout_of(alloc: Global, volume: &Volume) -> Result<Layout, AllocError> {
    let blocks = Blocks::from_slice(alloc, &SIZES[..volume.devices.min(8)])?;
    Ok(Layout {
        id: volume.id,
        blocks,
        journal: volume.journal,
        metadata_replicas: volume.metadata,
        data_replicas: 1,
    })
}

// Formats, if the devices may have the layout.
fn format_with(
    alloc: Global,
    devices: &mut MemDevices,
    layout: &Layout,
) -> Option<Result<(), DiskFault>> {
    if !layout.is_valid() || layout.blocks.len() != devices.count() as usize {
        return None;
    }
    Some(format(alloc, devices, layout))
}

// Formats as this volume, if the devices may have its layout.
fn format_as(
    alloc: Global,
    devices: &mut MemDevices,
    volume: &Volume,
) -> Option<Result<(), DiskFault>> {
    match layout_of(alloc, volume) {
        Ok(layout) => {
            let formatted = format_with(alloc, devices, &layout);
            drop(layout);
            formatted
        }
        Err(_) => None,
    }
}

const DONE: Option<Result<(), DiskFault>> = Some(Ok(()));

// Reads a block.
fn read(devices: &mut MemDevices, dev: u8, block: u32, found: &mut [u8; 4096]) -> Result<(), Fail> {
    if dev >= devices.count() || block >= devices.blocks(dev) {
        return Err(Fail::from("there is no such block"));
    }
    devices.read(dev, block, found)?;
    Ok(())
}

static ALL_SEVENS: [u8; 4096] = [7; 4096];

// Fills blocks of a device with sevens.
fn fill(devices: &mut MemDevices, dev: u8, blocks: &[u32]) -> Result<(), Fail> {
    for block in blocks {
        if dev >= devices.count() || *block >= devices.blocks(dev) {
            return Err(Fail::from("there is no such block"));
        }
        devices.write(dev, *block, &ALL_SEVENS)?;
    }
    Ok(())
}

// The first of these blocks whose bytes aren't all this one.
fn first_other(
    devices: &mut MemDevices,
    dev: u8,
    blocks: &[u32],
    byte: u8,
) -> Result<Option<u32>, Fail> {
    let mut found = [0; 4096];
    for block in blocks {
        read(devices, dev, *block, &mut found)?;
        if found.iter().any(|b| *b != byte) {
            return Ok(Some(*block));
        }
    }
    Ok(None)
}

// Eight bytes of a block, from this one on.
type Field = (u32, usize, [u8; 8]);

// Whether these bytes stand there.
fn stand_at(found: &[u8], at: usize, bytes: &[u8; 8]) -> bool {
    match found.get(at..) {
        Some(rest) => rest.starts_with(bytes),
        None => false,
    }
}

// Whether the field is there.
fn is_there(
    devices: &mut MemDevices,
    dev: u8,
    field: &Field,
    found: &mut [u8; 4096],
) -> Result<bool, Fail> {
    let (block, at, bytes) = field;
    read(devices, dev, *block, found)?;
    Ok(stand_at(found, *at, bytes))
}

// The first of these fields that isn't there.
fn first_wrong(devices: &mut MemDevices, dev: u8, fields: &[Field]) -> Result<Option<usize>, Fail> {
    let mut found = [0; 4096];
    for i in 0..fields.len() {
        if !is_there(devices, dev, &fields[i], &mut found)? {
            return Ok(Some(i));
        }
    }
    Ok(None)
}

// The magic; kind, version and parts; the first half of the id; owner, number and sequence; how long the payload is, and the
// payload: devices, own number, metadata devices, replicas, journal area, and the number of blocks.
const FORMATTED: [Field; 37] = [
    (0, 0, [0x62, 0x76, 0x6f, 0x6c, 0x73, 0x65, 0x61, 0x6c]),
    (0, 8, [1, 1, 0, 0, 0, 0, 1, 0]),
    (0, 16, [0x10, 0x11, 0x12, 0x13, 0x14, 0x15, 0x16, 0x17]),
    (0, 32, [0, 0, 0, 0, 0, 0, 0, 0]),
    (0, 40, [0, 0, 0, 0, 0, 0, 0, 0]),
    (0, 48, [1, 0, 0, 0, 0, 0, 0, 0]),
    (0, 56, [12, 0, 0, 0, 0, 0, 0, 0]),
    (0, 96, [1, 0, 1, 1, 0, 1, 0, 0]),
    (0, 104, [0, 4, 0, 0, 0, 0, 0, 0]),
    (8, 8, [1, 1, 0, 0, 0, 0, 1, 0]),
    (8, 40, [8, 0, 0, 0, 0, 0, 0, 0]),
    (8, 48, [1, 0, 0, 0, 0, 0, 0, 0]),
    (8, 96, [1, 0, 1, 1, 0, 1, 0, 0]),
    (5, 8, [4, 1, 0, 0, 0, 0, 1, 0]),
    (5, 32, [1, 0, 0, 0, 0, 0, 0, 0]),
    (5, 40, [5, 0, 0, 0, 0, 0, 0, 0]),
    (5, 48, [1, 0, 0, 0, 0, 0, 0, 0]),
    (5, 96, [1, 0, 0, 0, 0, 0, 0, 0]),
    // the first entry: its head, its numbers, and the root of Extents, at block 272
    (16, 8, [2, 1, 0, 0, 0, 0, 1, 0]),
    (16, 32, [1, 0, 0, 0, 0, 0, 0, 0]),
    (16, 40, [0, 0, 0, 0, 0, 0, 0, 0]),
    (16, 48, [1, 0, 0, 0, 0, 0, 0, 0]),
    (16, 56, [0xab, 0, 0, 0, 0, 0, 0, 0]),
    (16, 96, [1, 0, 0, 0, 0, 0, 0, 0]),
    (16, 104, [1, 0, 0, 0, 0, 0, 0, 0]),
    (16, 112, [1, 0, 0, 0, 0, 0, 0, 0]),
    (16, 120, [0, 0, 0, 0, 0, 0, 0, 0]),
    (16, 128, [0, 0, 0, 0, 1, 0, 0, 0]),
    (16, 136, [0, 1, 0, 0x10, 0x01, 0, 0, 1]),
    // the root of Inodes: its head, its birth, its btree and level, and its only key
    (288, 8, [3, 1, 0, 0, 0, 0, 1, 0]),
    (288, 32, [1, 0, 0, 0, 1, 0, 0, 0]),
    (288, 40, [0, 0, 0, 0, 0, 0, 0, 0]),
    (288, 96, [1, 0, 0, 0, 1, 0, 0, 0]),
    (288, 104, [1, 0, 0, 0, 0, 0, 0, 0]),
    (288, 148, [1, 0, 0, 0, 0, 0, 0, 0]),
    (288, 160, [1, 0, 0, 0, 0, 0, 0, 0]),
    (288, 168, [0xff, 0xff, 0xff, 0xff, 1, 2, 1, 0]),
];

static FILLED: [u32; 17] = [
    0, 1, 3, 4, 5, 6, 7, 8, 9, 15, 16, 271, 272, 287, 415, 416, 1023,
];

static CLEARED: [u32; 14] = [1, 2, 3, 4, 6, 7, 9, 15, 17, 271, 273, 287, 289, 415];

static KEPT: [u32; 2] = [416, 1023];

// Whether a format of a device that holds sevens writes its blocks.
fn gets_its_blocks(alloc: Global, devices: &mut MemDevices) -> Result<bool, Fail> {
    fill(devices, 0, &FILLED)?;
    let formatted = format_as(alloc, devices, &ON_ONE) == DONE;
    let wrong = first_wrong(devices, 0, &FORMATTED)?;
    let other = first_other(devices, 0, &CLEARED, 0)?;
    let gone = first_other(devices, 0, &KEPT, 7)?;
    Ok(formatted && wrong == None && other == None && gone == None)
}

#[test]
fn a_device_gets_its_blocks(rt: HostRuntime) -> Result<(), Fail> {
    let mut devices = MemDevices::blank(rt.alloc(), &[1024])?;
    let good = gets_its_blocks(rt.alloc(), &mut devices);
    drop(devices);
    assert!(rt; good?);
    Ok(())
}

// The second device's superblock in block 8: its owner and number, and its payload.
const SECOND: [Field; 4] = [
    (8, 32, [1, 0, 0, 0, 0, 0, 0, 0]),
    (8, 40, [8, 0, 0, 0, 0, 0, 0, 0]),
    (8, 96, [2, 1, 1, 1, 0, 1, 0, 0]),
    (8, 104, [0, 4, 0, 0, 0, 4, 0, 0]),
];

static FILLED_FIRST: [u32; 2] = [0, 3];

static FILLED_SECOND: [u32; 5] = [0, 5, 8, 16, 1029];

static CLEARED_FIRST: [u32; 5] = [3, 4, 17, 416, 1023];

// The second device keeps no metadata, so it gets superblocks alone.
static KEPT_SECOND: [u32; 3] = [5, 16, 1029];

// Whether there are two devices of these sizes.
fn have_sizes(devices: &MemDevices, first: u32, second: u32) -> bool {
    devices.count() == 2 && devices.blocks(0) == first && devices.blocks(1) == second
}

// Whether a format of a device with 4 blocks and one with 1,030 extends the first, and writes the blocks of both.
fn is_extended(alloc: Global, devices: &mut MemDevices) -> Result<bool, Fail> {
    fill(devices, 0, &FILLED_FIRST)?;
    fill(devices, 1, &FILLED_SECOND)?;
    let formatted = format_as(alloc, devices, &ON_TWO) == DONE && have_sizes(devices, 1024, 1030);
    let other = first_other(devices, 0, &CLEARED_FIRST, 0)?;
    let gone = first_other(devices, 1, &KEPT_SECOND, 7)?;
    let wrong = first_wrong(devices, 1, &SECOND)?;
    Ok(formatted && other == None && gone == None && wrong == None)
}

#[test]
fn a_shorter_device_is_extended(rt: HostRuntime) -> Result<(), Fail> {
    let mut devices = MemDevices::blank(rt.alloc(), &[4, 1030])?;
    let good = is_extended(rt.alloc(), &mut devices);
    drop(devices);
    assert!(rt; good?);
    Ok(())
}

const OTHER: [u8; 16] = [
    0x10, 0x11, 0x12, 0, 0x14, 0x15, 0x16, 0x17, 0x18, 0x19, 0x1a, 0x1b, 0x1c, 0x1d, 0x1e, 0x1f,
];

// Whether the devices have this layout, and are in session 1.
fn begin_as(alloc: Global, devices: &mut MemDevices, layout: &Layout) -> bool {
    match read_super(alloc, devices) {
        Ok(found) => {
            let begin = found == *layout && read_session(alloc, devices, &found) == Ok(Some(1));
            drop(found);
            begin
        }
        Err(_) => false,
    }
}

// The volumes that take the place of one another.
static VOLUMES: [Volume; 3] = [
    Volume {
        id: OTHER,
        devices: 2,
        metadata: 2,
        journal: 496,
    },
    Volume {
        id: ID,
        devices: 2,
        metadata: 2,
        journal: 256,
    },
    Volume {
        id: OTHER,
        devices: 2,
        metadata: 1,
        journal: 272,
    },
];

// Whether the devices are formatted so, and the volume is found in its session 1.
fn takes_place(alloc: Global, devices: &mut MemDevices, volume: &Volume) -> bool {
    let formatted = format_as(alloc, devices, volume) == DONE;
    match layout_of(alloc, volume) {
        Ok(layout) => {
            let begin = begin_as(alloc, devices, &layout);
            drop(layout);
            formatted && begin
        }
        Err(_) => false,
    }
}

// The number of the first volume that doesn't take the place of the one before.
fn first_without_place(alloc: Global, devices: &mut MemDevices) -> Option<usize> {
    for number in 0..VOLUMES.len() {
        if !takes_place(alloc, devices, &VOLUMES[number]) {
            return Some(number);
        }
    }
    None
}

#[test]
fn another_volume_takes_the_place_of_one(rt: HostRuntime) -> Result<(), Fail> {
    let mut devices = MemDevices::blank(rt.alloc(), &[1024, 1024])?;
    let other = first_without_place(rt.alloc(), &mut devices);
    drop(devices);
    assert!(rt; other == None);
    Ok(())
}

// What comes of a format, and how many calls it makes. One call fails, if there is one.
fn formatted_failing(
    alloc: Global,
    devices: &mut MemDevices,
    failing: Option<u64>,
) -> Result<(Option<Result<(), DiskFault>>, u64), Fail> {
    if let Some(call) = failing {
        devices.fail_at(&[call])?;
    }
    let formatted = format_as(alloc, devices, &ON_TWO);
    Ok((formatted, devices.calls()))
}

// What comes of it on two devices, the second of them too short.
fn formatted_short(
    alloc: Global,
    failing: Option<u64>,
) -> Result<(Option<Result<(), DiskFault>>, u64), Fail> {
    let mut devices = MemDevices::blank(alloc, &[1024, 1000])?;
    let formatted = formatted_failing(alloc, &mut devices, failing);
    drop(devices);
    formatted
}

// Which call fails, and to which device it goes.
const FAILING: [(u64, u8); 10] = [
    (0, 0),
    (1, 0),
    (3, 1),
    (4, 0),
    (7, 1),
    (8, 0),
    (12, 1),
    (13, 0),
    (15, 0),
    (436, 1),
];

// The number of the first call whose failure ends it otherwise.
fn first_other_failure(alloc: Global) -> Result<Option<usize>, Fail> {
    for number in 0..FAILING.len() {
        let (call, dev) = FAILING[number];
        let (formatted, _) = formatted_short(alloc, Some(call))?;
        if formatted != Some(Err(DiskFault::DeviceFault(dev))) {
            return Ok(Some(number));
        }
    }
    Ok(None)
}

#[test]
fn a_call_that_fails_ends_it(rt: HostRuntime) -> Result<(), Fail> {
    let alloc = rt.alloc();
    // two reads a device; a zero block each and two flushes, twice; an extension and two flushes; 414 blocks and two flushes;
    // two superblocks each and two flushes
    let all = 4 + 4 + 4 + 3 + 416 + 6;
    let (formatted, calls) = formatted_short(alloc, None)?;
    assert!(rt; formatted == DONE && calls == all);
    assert!(rt; first_other_failure(alloc)? == None);
    Ok(())
}

// What is found: the session, the entries that are needed, the numbers of the newest one, and how many keys each btree has.
type Shown = (u64, usize, (u64, u64, u64, u64), [usize; 9]);

const FRESH: Shown = (1, 1, (1, 1, 0, 0), [0, 1, 0, 1, 1, 0, 0, 0, 17]);

// How many keys each btree has that was found.
fn counts_of(found: &FoundVolume) -> [usize; 9] {
    let mut counts = [0; 9];
    let mut code: usize = 0;
    for btree in found.btrees.as_slice() {
        if code < 9 {
            counts[code] = btree.entries.len();
        }
        code = code.saturating_add(1);
    }
    counts
}

// What was found, if an entry was.
fn shown_of(found: &FoundVolume) -> Option<Shown> {
    let newest = found.needed.last()?;
    let entry = &newest.entry;
    let numbers = (entry.sequence, entry.oldest, entry.commits, newest.number);
    Some((found.session, found.needed.len(), numbers, counts_of(found)))
}

// What is found on devices, if something is, and it has this id.
fn shown(alloc: Global, devices: &mut MemDevices, id: &[u8; 16]) -> Option<Shown> {
    match read_plain(alloc, devices) {
        Ok(found) => {
            let shown = if found.layout.id == *id {
                shown_of(&found)
            } else {
                None
            };
            drop(found);
            shown
        }
        Err(_) => None,
    }
}

// Three devices as a format leaves them, so many of them with metadata.
fn three_formatted(alloc: Global, metadata: u8) -> Result<MemDevices, Fail> {
    let mut devices = MemDevices::blank(alloc, &[0, 1024, 1030])?;
    let volume = Volume {
        id: ID,
        devices: 3,
        metadata,
        journal: 272,
    };
    if format_as(alloc, &mut devices, &volume) != DONE {
        drop(devices);
        return Err(Fail::from("the devices aren't formatted"));
    }
    Ok(devices)
}

// Whether the fresh volume is found on them.
fn is_fresh_on(alloc: Global, metadata: u8) -> Result<bool, Fail> {
    let devices = three_formatted(alloc, metadata)?;
    let mut after = devices.restart(Pick::NoneWritten)?;
    let found = shown(alloc, &mut after, &ID) == Some(FRESH);
    drop(after);
    Ok(found)
}

#[test]
fn the_fresh_volume_is_found(rt: HostRuntime) -> Result<(), Fail> {
    let alloc = rt.alloc();
    for metadata in 1..4u8 {
        assert!(rt; is_fresh_on(alloc, metadata)?);
    }
    Ok(())
}

// Formats devices with one volume and then with another, which fails at this call.
fn format_twice(alloc: Global, devices: &mut MemDevices, call: u64) -> Result<(), Fail> {
    if format_as(alloc, devices, &OTHER_ON_TWO) != DONE {
        return Err(Fail::from("the first format failed"));
    }
    let before = devices.calls();
    devices.fail_at(&[before.saturating_add(call)])?;
    match format_as(alloc, devices, &ON_TWO) {
        Some(Err(_)) => Ok(()),
        _ => Err(Fail::from("the second format didn't fail")),
    }
}

// What a format leaves that fails at this call, with blocks torn: the volume that was there, the fresh one, or none.
fn left_of(alloc: Global, call: u64, pick: Pick) -> Result<(bool, bool), Fail> {
    let mut devices = MemDevices::blank(alloc, &[1024, 1024])?;
    if let Err(fail) = format_twice(alloc, &mut devices, call) {
        drop(devices);
        return Err(fail);
    }
    let mut after = devices.restart(pick)?;
    let old = shown(alloc, &mut after, &OTHER) == Some(FRESH);
    let new = shown(alloc, &mut after, &ID) == Some(FRESH);
    drop(after);
    Ok((old, new))
}

// Two reads a device; the spare copies, and two flushes; the other ones, and two flushes; two flushes; 414 blocks of device 0, and
// two flushes; two copies of each device, and two flushes. Where copies are torn, the first one that is lost ends the old volume.
const LEFT: [(u64, Pick, (bool, bool)); 8] = [
    (4, Pick::Torn, (true, false)),
    (9, Pick::NoneWritten, (true, false)),
    (9, Pick::Torn, (false, false)),
    (300, Pick::AllWritten, (false, false)),
    (431, Pick::AllWritten, (false, false)),
    (434, Pick::NoneWritten, (false, false)),
    (434, Pick::Torn, (false, false)),
    (434, Pick::AllWritten, (false, true)),
];

// The number of the first failure that leaves something else.
fn first_other_left(alloc: Global) -> Result<Option<usize>, Fail> {
    for number in 0..LEFT.len() {
        let (call, pick, left) = LEFT[number];
        if left_of(alloc, call, pick)? != left {
            return Ok(Some(number));
        }
    }
    Ok(None)
}

#[test]
fn a_format_that_fails_leaves_what_was_there_or_nothing_or_the_fresh_volume(
    rt: HostRuntime,
) -> Result<(), Fail> {
    assert!(rt; first_other_left(rt.alloc())? == None);
    Ok(())
}
