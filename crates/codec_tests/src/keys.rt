//! The vectors of the format, each kind with the least and the greatest value of each field, and each fault at each field.
//! Expected values come from a second reader, written in Python by the table of the format.

ghost use Rattle.vol_types.specs.Ranges.{IsKeyValue};

use crate::digits::{bytes_of, put_hex};
use key_codec::{KeyFault, KeyRead, get_key, put_key};
use std::alloc::{AllocError, Global};
use std::test::Fail;
use vol_types::{
    Bytes, Extent, FileKind, Inode, Link, LinkList, Listing, Live, NodePtr, Place, Pointer, Pos,
    Snap, SnapState, Sub, SubList, Value,
};

const LEAST: Pos = Pos {
    inode: 0,
    offset: 0,
    snapshot: 0,
};

const GREATEST: Pos = Pos {
    inode: u64::MAX,
    offset: u64::MAX,
    snapshot: u32::MAX,
};

// The bytes of the greatest position.
static GREATEST_BYTES: [u8; 20] = [0xff; 20];

// A key at the least position, whose kind and fields the digits encode.
fn key_of(alloc: Global, digits: &str) -> Result<Vec<u8>, AllocError> {
    let mut bytes = Vec::from_slice(alloc, &[0; 20])?;
    put_hex(&mut bytes, digits)?;
    Ok(bytes)
}

// A key at the greatest position, whose kind and fields the digits encode, with these bytes behind them.
fn greatest_key_of(alloc: Global, digits: &str, behind: &[u8]) -> Result<Vec<u8>, AllocError> {
    let mut bytes = Vec::from_slice(alloc, &GREATEST_BYTES)?;
    put_hex(&mut bytes, digits)?;
    bytes.extend_from_slice(behind)?;
    Ok(bytes)
}

// Whether a key at the least position is encoded so.
fn is_least(alloc: Global, digits: &str, value: Option<Value>) -> Result<bool, AllocError> {
    match key_of(alloc, digits) {
        Ok(bytes) => is_encoded(alloc, &bytes, LEAST, value),
        Err(error) => {
            drop(value);
            Err(error)
        }
    }
}

// Whether a key at the greatest position is encoded so, with these bytes behind the digits.
fn is_greatest_and(
    alloc: Global,
    digits: &str,
    behind: &[u8],
    value: Option<Value>,
) -> Result<bool, AllocError> {
    match greatest_key_of(alloc, digits, behind) {
        Ok(bytes) => is_encoded(alloc, &bytes, GREATEST, value),
        Err(error) => {
            drop(value);
            Err(error)
        }
    }
}

// The bytes, with one more after them.
fn longer(alloc: Global, bytes: &[u8]) -> Result<Vec<u8>, AllocError> {
    let mut longer = Vec::from_slice(alloc, bytes)?;
    longer.push(0xaa)?;
    Ok(longer)
}

// The bytes behind others.
fn behind_others(alloc: Global, bytes: &[u8]) -> Result<Vec<u8>, AllocError> {
    let mut kept = Vec::from_slice(alloc, b"kept")?;
    kept.extend_from_slice(bytes)?;
    Ok(kept)
}

// The encoding of a key, appended to others.
fn appended(alloc: Global, read: &KeyRead) -> Result<Bytes, AllocError>
    requires { IsKeyValue read.now.value }
{
    let mut into = Bytes::from_slice(alloc, b"kept")?;
    put_key(alloc, &mut into, &read.pos, read.value.as_ref())?;
    Ok(into)
}

// Whether a key that was read is this one, and is appended as the bytes are.
fn is_same(alloc: Global, bytes: &[u8], read: &KeyRead, key: &KeyRead) -> Result<bool, AllocError>
    requires { IsKeyValue read.now.value }
{
    let kept = behind_others(alloc, bytes)?;
    let into = appended(alloc, read)?;
    Ok(*read == *key && into.as_slice() == kept.as_slice())
}

// Whether the bytes, with one more after them, are read as this key, and the key that was read is appended as they are.
fn is_key(alloc: Global, bytes: &[u8], key: &KeyRead) -> Result<bool, AllocError> {
    let longer = longer(alloc, bytes)?;
    match get_key(alloc, &longer) {
        Ok(read) => is_same(alloc, bytes, &read, key),
        Err(_) => Ok(false),
    }
}

// Whether they are so read as one with this position and this value.
fn is_encoded(
    alloc: Global,
    bytes: &[u8],
    pos: Pos,
    value: Option<Value>,
) -> Result<bool, AllocError> {
    let key = KeyRead {
        pos,
        value,
        used: bytes.len(),
    };
    is_key(alloc, bytes, &key)
}

// Whether the key is encoded so.
fn is_vector(
    alloc: Global,
    digits: &str,
    pos: Pos,
    value: Option<Value>,
) -> Result<bool, AllocError> {
    is_encoded(alloc, &bytes_of(alloc, digits)?, pos, value)
}

#[test]
fn vectors(rt: HostRuntime) -> Result<(), Fail> {
    let alloc = rt.alloc();
    let root = Pos {
        inode: 0,
        offset: 1,
        snapshot: u32::MAX,
    };
    let inode = "0000000000000000 0100000000000000 ffffffff 01 02 01000000 0000000000000000";
    assert!(rt; is_vector(alloc, inode, root, inode_of(FileKind::Directory, 1, 0))?);
    let name = Pos {
        inode: 1,
        offset: 0x654b_c089_650d_dee5,
        snapshot: u32::MAX - 1,
    };
    let white = "0100000000000000 e5de0d6589c04b65 feffffff 05";
    assert!(rt; is_vector(alloc, white, name, Some(Value::White))?);
    let bucket = Pos {
        inode: 0,
        offset: 26,
        snapshot: 0,
    };
    let live = "0000000000000000 1a00000000000000 00000000 08 00000000 10";
    assert!(rt; is_vector(alloc, live, bucket, live_of(0, 16))?);
    Ok(())
}

// The fault of these bytes, if they don't begin with a key.
fn fault_in(alloc: Global, bytes: &[u8]) -> Option<KeyFault> {
    get_key(alloc, bytes).err()
}

// The least length at which the bytes, cut there, aren't too short, if there is one below their own.
fn first_not_short(alloc: Global, bytes: &[u8]) -> Option<usize> {
    for length in 0..bytes.len() {
        if fault_in(alloc, &bytes[..length]) != Some(KeyFault::Short) {
            return Some(length);
        }
    }
    None
}

// The fault of the digits.
fn fault_of(alloc: Global, digits: &str) -> Result<Option<KeyFault>, AllocError> {
    Ok(fault_in(alloc, &bytes_of(alloc, digits)?))
}

// Whether the digits encode so many bytes, of which each beginning is too short.
fn is_short_within(alloc: Global, digits: &str, length: usize) -> Result<bool, AllocError> {
    let whole = bytes_of(alloc, digits)?;
    Ok(whole.len() == length && first_not_short(alloc, &whole).is_none())
}

#[test]
fn first_vector_faults(rt: HostRuntime) -> Result<(), Fail> {
    let alloc = rt.alloc();
    let whole = "0000000000000000 0100000000000000 ffffffff 01 02 01000000 0000000000000000";
    assert!(rt; is_short_within(alloc, whole, 34)?);
    let other_kind = "0000000000000000 0100000000000000 ffffffff 0d 02 01000000 0000000000000000";
    assert!(rt; fault_of(alloc, other_kind)? == Some(KeyFault::Kind(13)));
    let no_links = "0000000000000000 0100000000000000 ffffffff 01 02 00000000 0000000000000000";
    assert!(rt; fault_of(alloc, no_links)? == Some(KeyFault::Range(2)));
    Ok(())
}

// The kind and the fields of a key at the least position, with their fault: for each field that has a range or an order
// what is just out of it, and where two faults meet the first from the left.
static FAULTS: [(&str, KeyFault); 47] = [
    ("01 00 01000000 0000000000000000", KeyFault::Range(1)),
    ("01 03 01000000 0000000000000000", KeyFault::Range(1)),
    ("01 01 00000000 0000000000000000", KeyFault::Range(2)),
    ("01 01 00010000 0000000000000000", KeyFault::Range(2)),
    ("01 02 00000000 0000000000000000", KeyFault::Range(2)),
    ("01 02 02000000 0000000000000000", KeyFault::Range(2)),
    ("01 01 ff000000 0100000100000000", KeyFault::Range(3)),
    ("01 02 01000000 0100000000000000", KeyFault::Range(3)),
    ("02 00", KeyFault::Range(1)),
    ("02 09 0200000000000000 01 02 6162", KeyFault::Range(1)),
    ("02 01 0200000000000000 00 01 61", KeyFault::Range(3)),
    ("02 01 0200000000000000 03 01 61", KeyFault::Range(3)),
    ("02 01 0200000000000000 01 00", KeyFault::Range(4)),
    (
        "02 02 0200000000000000 01 02 6162 0200000000000000 01 02 6162",
        KeyFault::Order,
    ),
    (
        "02 02 0200000000000000 01 02 6162 0300000000000000 01 01 61",
        KeyFault::Order,
    ),
    (
        "02 03 0200000000000000 01 02 6162 0200000000000000 01 02 6162 0300000000000000 00",
        KeyFault::Order,
    ),
    (
        "03 00 01 00 10000000 07000000 0900000000000000",
        KeyFault::Range(1),
    ),
    (
        "03 11 01 00 10000000 07000000 0900000000000000 0900000000000000 0900000000000000 0900000000000000 0900000000000000 0900000000000000 0900000000000000 0900000000000000 0900000000000000 0900000000000000 0900000000000000 0900000000000000 0900000000000000 0900000000000000 0900000000000000 0900000000000000 0900000000000000",
        KeyFault::Range(1),
    ),
    ("03 01 00 0900000000000000", KeyFault::Range(2)),
    (
        "03 01 04 00 10000000 07000000 01 10000000 07000000 02 10000000 07000000 03 10000000 07000000 0900000000000000",
        KeyFault::Range(2),
    ),
    (
        "03 01 01 08 10000000 07000000 0900000000000000",
        KeyFault::Range(3),
    ),
    (
        "03 01 02 00 10000000 07000000 08 10000000 07000000 0900000000000000",
        KeyFault::Range(3),
    ),
    (
        "03 01 02 01 10000000 07000000 01 10000000 07000000 0900000000000000",
        KeyFault::Order,
    ),
    (
        "03 01 02 01 10000000 07000000 00 10000000 07000000 0900000000000000",
        KeyFault::Order,
    ),
    (
        "03 01 03 00 10000000 07000000 02 10000000 07000000 01",
        KeyFault::Order,
    ),
    ("04 00000000", KeyFault::Range(1)),
    ("04 01100000", KeyFault::Range(1)),
    ("06 00", KeyFault::Range(1)),
    (
        "06 09 05000000 0100000000000000 00 04 6d61696e",
        KeyFault::Range(1),
    ),
    (
        "06 01 05000000 0100000000000000 02 01 61",
        KeyFault::Range(4),
    ),
    ("06 01 05000000 0100000000000000 01 00", KeyFault::Range(5)),
    (
        "06 02 05000000 0100000000000000 00 04 6d61696e 05000000 0100000000000000 00 04 6d61696e",
        KeyFault::Order,
    ),
    (
        "06 02 05000000 0100000000000000 00 04 6d61696e 06000000 0200000000000000 01 01 61",
        KeyFault::Order,
    ),
    ("07 00000000 00000000 00000000 00", KeyFault::Range(4)),
    ("07 00000000 00000000 00000000 04", KeyFault::Range(4)),
    ("08 00000000 11", KeyFault::Range(2)),
    ("0c 0700000000000000 08 01 00 10000000", KeyFault::Range(2)),
    ("0c 0700000000000000 00 00", KeyFault::Range(3)),
    (
        "0c 0700000000000000 00 04 00 10000000 00 10000000 00 10000000 00 10000000",
        KeyFault::Range(3),
    ),
    ("0c 0700000000000000 00 01 08 10000000", KeyFault::Range(4)),
    ("0c 0700000000000000 00 01 00 18000000", KeyFault::Range(5)),
    (
        "0c 0700000000000000 00 02 00 10000000 00 11000000",
        KeyFault::Range(5),
    ),
    ("0d", KeyFault::Kind(13)),
    ("ff 00", KeyFault::Kind(255)),
    ("01 03 00000000 ffffffffffffffff", KeyFault::Range(1)),
    ("01 01 00000000", KeyFault::Range(2)),
    ("0c 0700000000000000 08", KeyFault::Range(2)),
];

// The fault of a key at the least position, if it has one.
fn least_fault(alloc: Global, digits: &str) -> Result<Option<KeyFault>, AllocError> {
    Ok(fault_in(alloc, &key_of(alloc, digits)?))
}

// The first row whose fault is another.
fn first_other_fault(alloc: Global) -> Result<Option<usize>, AllocError> {
    for row in 0..FAULTS.len() {
        let (digits, fault) = FAULTS[row];
        if least_fault(alloc, digits)? != Some(fault) {
            return Ok(Some(row));
        }
    }
    Ok(None)
}

#[test]
fn each_fault_at_each_field(rt: HostRuntime) -> Result<(), Fail> {
    assert!(rt; first_other_fault(rt.alloc())? == None);
    Ok(())
}

// The kind and the fields of a key of each kind.
static KINDS: [&str; 13] = [
    "00",
    "01 02 01000000 0000000000000000",
    "02 02 0200000000000000 01 02 6162 0300000000000000 02 01 62",
    "03 02 02 00 10000000 07000000 07 10000000 07000000 0900000000000000 0900000000000000",
    "04 00100000",
    "05",
    "06 01 05000000 0100000000000000 00 04 6d61696e",
    "07 01000000 02000000 03000000 02",
    "08 07000000 10",
    "09 0200000000000000 1000000000000000 feffffff",
    "0a",
    "0b 0500000000000000",
    "0c 0700000000000000 01 02 00 a0010000 00 a0010000",
];

// Whether each beginning of the bytes is too short, and all of them are a key.
fn is_whole(alloc: Global, bytes: &[u8]) -> bool {
    if first_not_short(alloc, bytes).is_some() {
        return false;
    }
    match get_key(alloc, bytes) {
        Ok(read) => read.used == bytes.len(),
        Err(_) => false,
    }
}

// The first row that isn't so.
fn first_not_whole(alloc: Global) -> Result<Option<usize>, AllocError> {
    for row in 0..KINDS.len() {
        if !is_whole(alloc, &key_of(alloc, KINDS[row])?) {
            return Ok(Some(row));
        }
    }
    Ok(None)
}

#[test]
fn each_kind_cut(rt: HostRuntime) -> Result<(), Fail> {
    assert!(rt; first_not_whole(rt.alloc())? == None);
    Ok(())
}

// The kinds and the fields of keys with the least number in each field.
static LEAST_NUMBERS: [&str; 9] = [
    "00",
    "01 01 01000000 0000000000000000",
    "04 01000000",
    "05",
    "07 00000000 00000000 00000000 01",
    "08 00000000 00",
    "09 0000000000000000 0000000000000000 00000000",
    "0a",
    "0b 0000000000000000",
];

// The value of the key in a row of them.
fn least_number(row: usize) -> Option<Value> {
    match row {
        0 => None,
        1 => inode_of(FileKind::File, 1, 0),
        2 => Some(Value::Hole { blocks: 1 }),
        3 => Some(Value::White),
        4 => snap_of(0, SnapState::LiveLeaf),
        5 => live_of(0, 0),
        6 => Some(Value::Back { extent: LEAST }),
        7 => Some(Value::Gone),
        _ => Some(Value::Counter { next: 0 }),
    }
}

// The first row that isn't encoded so.
fn first_other_least(alloc: Global) -> Result<Option<usize>, AllocError> {
    for row in 0..LEAST_NUMBERS.len() {
        if !is_least(alloc, LEAST_NUMBERS[row], least_number(row))? {
            return Ok(Some(row));
        }
    }
    Ok(None)
}

#[test]
fn least_numbers(rt: HostRuntime) -> Result<(), Fail> {
    assert!(rt; first_other_least(rt.alloc())? == None);
    Ok(())
}

// The kinds and the fields of keys with the greatest number in each field.
static GREATEST_NUMBERS: [&str; 11] = [
    "00",
    "01 01 ff000000 0000000100000000",
    "01 02 01000000 0000000000000000",
    "04 00100000",
    "05",
    "07 ffffffff ffffffff ffffffff 02",
    "07 ffffffff ffffffff ffffffff 03",
    "08 ffffffff 10",
    "09 ffffffffffffffff ffffffffffffffff ffffffff",
    "0a",
    "0b ffffffffffffffff",
];

// The value of the key in a row of them.
fn greatest_number(row: usize) -> Option<Value> {
    match row {
        0 => None,
        1 => inode_of(FileKind::File, 255, 16_777_216),
        2 => inode_of(FileKind::Directory, 1, 0),
        3 => Some(Value::Hole { blocks: 4096 }),
        4 => Some(Value::White),
        5 => snap_of(u32::MAX, SnapState::Interior),
        6 => snap_of(u32::MAX, SnapState::DeadLeaf),
        7 => live_of(u32::MAX, 16),
        8 => Some(Value::Back { extent: GREATEST }),
        9 => Some(Value::Gone),
        _ => Some(Value::Counter { next: u64::MAX }),
    }
}

// The first row that isn't encoded so.
fn first_other_greatest(alloc: Global) -> Result<Option<usize>, AllocError> {
    for row in 0..GREATEST_NUMBERS.len() {
        if !is_greatest_and(alloc, GREATEST_NUMBERS[row], &[], greatest_number(row))? {
            return Ok(Some(row));
        }
    }
    Ok(None)
}

#[test]
fn greatest_numbers(rt: HostRuntime) -> Result<(), Fail> {
    assert!(rt; first_other_greatest(rt.alloc())? == None);
    Ok(())
}

fn inode_of(kind: FileKind, links: u32, size: u64) -> Option<Value> {
    Some(Value::Inode(Inode { kind, links, size }))
}

fn snap_of(id: u32, state: SnapState) -> Option<Value> {
    Some(Value::Snap(Snap {
        parent: id,
        first_child: id,
        second_child: id,
        state,
    }))
}

fn live_of(generation: u32, blocks: u8) -> Option<Value> {
    Some(Value::Live(Live { generation, blocks }))
}

fn extent_of(
    alloc: Global,
    pointers: &[Pointer],
    digests: &[u64],
) -> Result<Option<Value>, AllocError> {
    Ok(Some(Value::Extent(Extent {
        pointers: Listing::from_slice(alloc, pointers)?,
        digests: Listing::from_slice(alloc, digests)?,
    })))
}

#[test]
fn the_least_extent(rt: HostRuntime) -> Result<(), Fail> {
    let alloc = rt.alloc();
    let least = extent_of(alloc, &[pointer(0, 0)], &[0])?;
    let digits = "03 01 01 00 00000000 00000000 0000000000000000";
    assert!(rt; is_least(alloc, digits, least)?);
    Ok(())
}

// Up to the digests.
const GREATEST_EXTENT: &str =
    "03 10 03 05 ffffffff ffffffff 06 ffffffff ffffffff 07 ffffffff ffffffff";

#[test]
fn the_greatest_extent(rt: HostRuntime) -> Result<(), Fail> {
    let alloc = rt.alloc();
    let pointers = [
        pointer(5, u32::MAX),
        pointer(6, u32::MAX),
        pointer(7, u32::MAX),
    ];
    let greatest = extent_of(alloc, &pointers, &[u64::MAX; 16])?;
    assert!(rt; is_greatest_and(alloc, GREATEST_EXTENT, &[0xff; 128], greatest)?);
    Ok(())
}

fn node_of(
    alloc: Global,
    birth: u64,
    level: u8,
    places: &[Place],
) -> Result<Option<Value>, AllocError> {
    Ok(Some(Value::Node(NodePtr {
        birth,
        level,
        places: Listing::from_slice(alloc, places)?,
    })))
}

#[test]
fn least_and_greatest_nodes(rt: HostRuntime) -> Result<(), Fail> {
    let alloc = rt.alloc();
    let least = node_of(alloc, 0, 0, &[Place { dev: 0, block: 0 }])?;
    let digits = "0c 0000000000000000 00 01 00 00000000";
    assert!(rt; is_least(alloc, digits, least)?);
    let last = Place {
        dev: 7,
        block: 0xffff_fff0,
    };
    let greatest = node_of(alloc, u64::MAX, 7, &[last, last, last])?;
    let digits = "0c ffffffffffffffff 07 03 07 f0ffffff 07 f0ffffff 07 f0ffffff";
    assert!(rt; is_greatest_and(alloc, digits, &[], greatest)?);
    Ok(())
}

fn pointer(dev: u8, number: u32) -> Pointer {
    Pointer {
        place: Place { dev, block: number },
        generation: number,
    }
}

// The last bytes of eight names of 255 bytes each, of which the others are the greatest.
const LASTS: [u8; 8] = [0xf8, 0xf9, 0xfa, 0xfb, 0xfc, 0xfd, 0xfe, 0xff];

fn long_name(alloc: Global, last: u8) -> Result<Bytes, AllocError> {
    let mut name = Bytes::from_slice(alloc, &[0xff; 254])?;
    name.push(last)?;
    Ok(name)
}

// Eight times these digits and a long name.
fn with_long_names(alloc: Global, digits: &str) -> Result<Vec<u8>, AllocError> {
    let mut bytes = Vec::new(alloc);
    for last in LASTS {
        put_hex(&mut bytes, digits)?;
        bytes.extend_from_slice(&[0xff; 254])?;
        bytes.push(last)?;
    }
    Ok(bytes)
}

fn least_link(alloc: Global) -> Result<LinkList, AllocError> {
    let mut links = LinkList::new(alloc);
    links.push(Link {
        number: 0,
        kind: FileKind::File,
        name: Bytes::from_slice(alloc, &[0])?,
    })?;
    Ok(links)
}

fn greatest_links(alloc: Global) -> Result<LinkList, AllocError> {
    let mut links = LinkList::new(alloc);
    for last in LASTS {
        links.push(Link {
            number: u64::MAX,
            kind: FileKind::Directory,
            name: long_name(alloc, last)?,
        })?;
    }
    Ok(links)
}

#[test]
fn least_and_greatest_names(rt: HostRuntime) -> Result<(), Fail> {
    let alloc = rt.alloc();
    let least = Some(Value::Names(least_link(alloc)?));
    assert!(rt; is_least(alloc, "02 01 0000000000000000 01 01 00", least)?);
    let names = with_long_names(alloc, "ffffffffffffffff 02 ff")?;
    let greatest = Some(Value::Names(greatest_links(alloc)?));
    assert!(rt; is_greatest_and(alloc, "02 08", &names, greatest)?);
    Ok(())
}

fn least_sub(alloc: Global) -> Result<SubList, AllocError> {
    let mut subs = SubList::new(alloc);
    subs.push(Sub {
        id: 0,
        root: 0,
        read_only: false,
        name: Bytes::from_slice(alloc, &[0])?,
    })?;
    Ok(subs)
}

fn greatest_subs(alloc: Global) -> Result<SubList, AllocError> {
    let mut subs = SubList::new(alloc);
    for last in LASTS {
        subs.push(Sub {
            id: u32::MAX,
            root: u64::MAX,
            read_only: true,
            name: long_name(alloc, last)?,
        })?;
    }
    Ok(subs)
}

#[test]
fn least_and_greatest_subvolumes(rt: HostRuntime) -> Result<(), Fail> {
    let alloc = rt.alloc();
    let least = Some(Value::Subs(least_sub(alloc)?));
    assert!(rt; is_least(alloc, "06 01 00000000 0000000000000000 00 01 00", least)?);
    let names = with_long_names(alloc, "ffffffff ffffffffffffffff 01 ff")?;
    let greatest = Some(Value::Subs(greatest_subs(alloc)?));
    assert!(rt; is_greatest_and(alloc, "06 08", &names, greatest)?);
    Ok(())
}
