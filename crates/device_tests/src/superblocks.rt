//! Superblocks of two devices: which copies count, what they say, and why devices hold none. What is expected was worked out by hand from
//! the tables of the format.

ghost use Rattle.std.specs.Prelude.{◌≡◌};
ghost use Rattle.dev_model.specs.Devices.{now};
ghost use Rattle.dev_model.specs.Disk.{NothingPending};

use crate::layouts::{EQUAL, FOREIGN_ID, ID, ONE, UNEQUAL, filled, layout_on, put};
use dev_model::{Devices, MemDevices};
use geometry::{SuperFault, read_super, write_super};
use sealed_block::{Head, SUPERBLOCK, seal};
use std::alloc::{AllocError, Global};
use std::test::Fail;
use vol_digest::digest;
use vol_types::{Bytes, Layout};

// A copy of the superblock of a device, in the block that it names, of the volume or of a foreign one, whose devices have so many
// blocks.
#[derive(Clone, Copy)]
struct Super {
    is_foreign: bool,
    blocks: [u32; 2],
    metadata_replicas: u8,
    data_replicas: u8,
    dev: u8,
    block: u32,
    sequence: u64,
}

const BASE: Super = Super {
    is_foreign: false,
    blocks: [1024, 1024],
    metadata_replicas: 2,
    data_replicas: 1,
    dev: 0,
    block: 0,
    sequence: 1,
};

static FIRST: Super = BASE;

static BEHIND_FIRST: Super = Super { block: 8, ..BASE };

static LARGE: Super = Super {
    blocks: [1024, 2048],
    ..BASE
};

static FOREIGN: Super = Super {
    is_foreign: true,
    ..BASE
};

static ONE_REPLICA: Super = Super {
    metadata_replicas: 1,
    ..BASE
};

static TWO_DATA_REPLICAS: Super = Super {
    data_replicas: 2,
    ..BASE
};

// What stands in a block. One that is odd has the head of a copy of the first device's superblock, but with another version, or another
// payload, of which it has so many of the bytes of `ODD`.
#[derive(Clone, Copy)]
enum Block {
    Blank,
    Copy(Super),
    Odd { version: u8, length: usize },
}

// The payload of such a copy, and one byte more.
static ODD: [u8; 17] = [2, 0, 2, 1, 0, 1, 0, 0, 0, 4, 0, 0, 0, 4, 0, 0, 0];

fn layout_of(alloc: Global, copy: &Super) -> Result<Layout, AllocError> {
    let id = if copy.is_foreign { &FOREIGN_ID } else { &ID };
    let mut layout = layout_on(alloc, id, &copy.blocks)?;
    layout.metadata_replicas = copy.metadata_replicas;
    layout.data_replicas = copy.data_replicas;
    Ok(layout)
}

fn copy_in(alloc: Global, layout: &Layout, copy: &Super) -> Result<Bytes, Fail> {
    if !layout.is_valid() || copy.dev as usize >= layout.blocks.len() {
        return Err(Fail::from("the layout has no such device"));
    }
    let mut bytes = filled(alloc, 0xff)?;
    write_super(layout, copy.dev, copy.block, copy.sequence, &mut bytes);
    Ok(Bytes::from(bytes))
}

fn copy_of(alloc: Global, copy: &Super) -> Result<Bytes, Fail> {
    let layout = layout_of(alloc, copy)?;
    copy_in(alloc, &layout, copy)
}

fn odd_copy(alloc: Global, version: u8, payload: &[u8]) -> Result<Bytes, Fail> {
    if version == 0 || payload.len() > 3968 {
        return Err(Fail::from("the head is out of its ranges"));
    }
    let head = Head {
        kind: SUPERBLOCK,
        version,
        part: 0,
        parts: 1,
        id: ID,
        owner: 0,
        number: 0,
        sequence: 2,
        length: payload.len() as u32,
        whole: digest(payload),
    };
    let mut bytes = filled(alloc, 0)?;
    seal(&head, payload, &mut bytes);
    Ok(Bytes::from(bytes))
}

fn bytes_of(alloc: Global, block: &Block) -> Result<Bytes, Fail> {
    match block {
        Block::Blank => Ok(Bytes::from(filled(alloc, 0)?)),
        Block::Copy(copy) => copy_of(alloc, copy),
        Block::Odd { version, length } => {
            let (payload, _) = ODD.split_at((*length).min(17));
            odd_copy(alloc, *version, payload)
        }
    }
}

// Sets the block of a device between two sessions. One that stays blank needs no device.
fn put_block(
    alloc: Global,
    devices: &mut MemDevices,
    dev: u8,
    at: u32,
    block: &Block,
) -> Result<(), Fail>
    requires { NothingPending (now (⟦<MemDevices as Devices>⟧.state devices.old)) }
    ensures { NothingPending (now (⟦<MemDevices as Devices>⟧.state devices.new)) }
{
    if matches!(block, Block::Blank) {
        return Ok(());
    }
    let bytes = bytes_of(alloc, block)?;
    put(devices, dev, at, bytes.as_slice())
}

// Sets the blocks 0 and 8 of two devices.
fn put_blocks(alloc: Global, devices: &mut MemDevices, blocks: &[Block; 4]) -> Result<(), Fail>
    requires { NothingPending (now (⟦<MemDevices as Devices>⟧.state devices.old)) }
{
    put_block(alloc, devices, 0, 0, &blocks[0])?;
    put_block(alloc, devices, 0, 8, &blocks[1])?;
    put_block(alloc, devices, 1, 0, &blocks[2])?;
    put_block(alloc, devices, 1, 8, &blocks[3])
}

// Devices of these sizes whose blocks 0 and 8 are these.
fn devices_with(alloc: Global, sizes: &[u32], blocks: &[Block; 4]) -> Result<MemDevices, Fail> {
    if sizes.is_empty() || sizes.len() > 8 {
        return Err(Fail::from("there are one to eight devices"));
    }
    let mut devices = MemDevices::blank(alloc, sizes)?;
    let put = put_blocks(alloc, &mut devices, blocks);
    match put {
        Ok(()) => Ok(devices),
        Err(fail) => Err(fail),
    }
}

// Why the devices hold no superblocks of one volume, if they don't.
fn fault_of(alloc: Global, sizes: &[u32], blocks: &[Block; 4]) -> Result<Option<SuperFault>, Fail> {
    let mut devices = devices_with(alloc, sizes, blocks)?;
    Ok(read_super(alloc, &mut devices).err())
}

// Whether they say the layout of this copy.
fn say(alloc: Global, sizes: &[u32], blocks: &[Block; 4], copy: &Super) -> Result<bool, Fail> {
    let layout = layout_of(alloc, copy)?;
    let mut devices = devices_with(alloc, sizes, blocks)?;
    Ok(read_super(alloc, &mut devices) == Ok(layout))
}

// Both copies of the superblock of a device.
fn pair(copy: &Super, dev: u8) -> [Block; 2] {
    let first = Super { dev, ..*copy };
    let second = Super { block: 8, ..first };
    [Block::Copy(first), Block::Copy(second)]
}

fn both(first: [Block; 2], second: [Block; 2]) -> [Block; 4] {
    [first[0], first[1], second[0], second[1]]
}

const NOTHING: [Block; 2] = [Block::Blank, Block::Blank];

static KNOWN: Super = Super {
    blocks: [1024, 2048],
    dev: 1,
    block: 8,
    sequence: 5,
    ..BASE
};

static KNOWN_DIGEST: [u8; 32] = [
    0x19, 0x54, 0xf3, 0x09, 0xc0, 0x71, 0xfa, 0x73, 0xed, 0xfe, 0xd1, 0x40, 0x7b, 0xe3, 0xbd, 0xb2,
    0x7e, 0xee, 0x3a, 0xb3, 0xdd, 0x2e, 0xdb, 0x88, 0x09, 0xde, 0xe3, 0x84, 0x8f, 0x46, 0xcc, 0xc9,
];

// The digest was computed by Python's hashlib over the block that its struct module packed: the head of 96 bytes with
// kind 1, version 1, part 0 of 1, owner 1, number 8 and sequence 5, the payload "<BBBBIII" of 2, 1, 2, 1, 256, 1024 and
// 2048, zeros up to byte 4,064, and the SHA-256 digest of all that.
#[test]
fn known_superblock(rt: HostRuntime) -> Result<(), Fail> {
    let copy = copy_of(rt.alloc(), &KNOWN)?;
    assert!(rt; digest(copy.as_slice()) == KNOWN_DIGEST);
    Ok(())
}

#[test]
fn what_is_written_is_read(rt: HostRuntime) -> Result<(), Fail> {
    let blocks = both(pair(&LARGE, 0), pair(&LARGE, 1));
    assert!(rt; say(rt.alloc(), &UNEQUAL, &blocks, &LARGE)?);
    Ok(())
}

// Both copies of a device's superblock, with these sequences, of which the second says that data have two replicas.
fn differing(dev: u8, sequences: &(u64, u64)) -> [Block; 2] {
    let first = Super {
        dev,
        sequence: sequences.0,
        ..FIRST
    };
    let second = Super {
        dev,
        block: 8,
        sequence: sequences.1,
        ..TWO_DATA_REPLICAS
    };
    [Block::Copy(first), Block::Copy(second)]
}

// Whether the first copies, or the second ones, count of those with these sequences.
fn counts(alloc: Global, sequences: &(u64, u64), is_second: bool) -> Result<bool, Fail> {
    let blocks = both(differing(0, sequences), differing(1, sequences));
    let expected = if is_second {
        &TWO_DATA_REPLICAS
    } else {
        &FIRST
    };
    say(alloc, &EQUAL, &blocks, expected)
}

static SEQUENCES: [((u64, u64), bool); 6] = [
    ((1, 2), true),
    ((2, 1), false),
    ((2, 2), false),
    ((1, 1 << 63), false),
    ((1, (1 << 63) - 1), true),
    ((1 << 63, 1), true),
];

// The number of the first sequences with which the other copies count.
fn first_other_sequences(alloc: Global) -> Result<Option<u32>, Fail> {
    let mut number: u32 = 0;
    for (sequences, is_second) in SEQUENCES.iter() {
        if !counts(alloc, sequences, *is_second)? {
            return Ok(Some(number));
        }
        number = number.saturating_add(1);
    }
    Ok(None)
}

// The greater sequence counts, copy 0 of two with the same, and none of 2^63 or more.
#[test]
fn which_copy_counts(rt: HostRuntime) -> Result<(), Fail> {
    assert!(rt; first_other_sequences(rt.alloc())? == None);
    Ok(())
}

// Whether two devices of 1,024 blocks have this fault.
fn has_fault(
    alloc: Global,
    first: [Block; 2],
    second: [Block; 2],
    fault: SuperFault,
) -> Result<bool, Fail> {
    Ok(fault_of(alloc, &EQUAL, &both(first, second))? == Some(fault))
}

// Whether one device of this size has it, whose first block is this.
fn one_has_fault(
    alloc: Global,
    sizes: &[u32; 1],
    first: Block,
    fault: SuperFault,
) -> Result<bool, Fail> {
    let blocks = both([first, Block::Blank], NOTHING);
    Ok(fault_of(alloc, sizes, &blocks)? == Some(fault))
}

static ONE_BLOCK: [u32; 1] = [1];

#[test]
fn devices_without_superblocks(rt: HostRuntime) -> Result<(), Fail> {
    let alloc = rt.alloc();
    let none = SuperFault::NoSuper;
    assert!(rt; has_fault(alloc, pair(&FIRST, 0), NOTHING, none)?);
    assert!(rt; has_fault(alloc, NOTHING, pair(&FIRST, 1), none)?);
    // A copy in another block than its own is none.
    let [first, second] = pair(&FIRST, 0);
    assert!(rt; has_fault(alloc, [second, first], pair(&FIRST, 1), none)?);
    assert!(rt; one_has_fault(alloc, &ONE_BLOCK, Block::Blank, none)?);
    Ok(())
}

// Devices in another order, of another volume, and of another layout.
#[test]
fn devices_of_several_volumes(rt: HostRuntime) -> Result<(), Fail> {
    let alloc = rt.alloc();
    let mixed = SuperFault::Mixed;
    assert!(rt; has_fault(alloc, pair(&FIRST, 1), pair(&FIRST, 0), mixed)?);
    assert!(rt; has_fault(alloc, pair(&FIRST, 0), pair(&FOREIGN, 1), mixed)?);
    assert!(rt; has_fault(alloc, pair(&FIRST, 0), pair(&ONE_REPLICA, 1), mixed)?);
    // one device of two
    assert!(rt; one_has_fault(alloc, &ONE, Block::Copy(FIRST), mixed)?);
    Ok(())
}

// The version and the length of the payload of the first copy on the first device, and the fault.
static ODD_COPIES: [(u8, usize, Option<SuperFault>); 5] = [
    (1, 16, None),
    (9, 16, Some(SuperFault::Version)),
    (9, 17, Some(SuperFault::Version)),
    (1, 17, Some(SuperFault::BadLayout)),
    (1, 0, Some(SuperFault::BadLayout)),
];

fn odd_fault(alloc: Global, version: u8, length: usize) -> Result<Option<SuperFault>, Fail> {
    let first = [Block::Odd { version, length }, Block::Copy(BEHIND_FIRST)];
    fault_of(alloc, &EQUAL, &both(first, pair(&FIRST, 1)))
}

// The number of the first odd copy that has another fault.
fn first_other_odd(alloc: Global) -> Result<Option<u32>, Fail> {
    let mut number: u32 = 0;
    for (version, length, fault) in ODD_COPIES.iter() {
        if odd_fault(alloc, *version, *length)? != *fault {
            return Ok(Some(number));
        }
        number = number.saturating_add(1);
    }
    Ok(None)
}

#[test]
fn bad_versions_and_payloads(rt: HostRuntime) -> Result<(), Fail> {
    let alloc = rt.alloc();
    assert!(rt; first_other_odd(alloc)? == None);
    // a device that is shorter than its superblock says
    assert!(rt;
        has_fault(
            alloc,
            pair(&LARGE, 0),
            pair(&LARGE, 1),
            SuperFault::BadLayout
        )?
    );
    Ok(())
}
