//! Each place of three payloads with other bytes in it, and the kinds at each level of each btree. What is expected comes from a
//! second reader, written in Python by the table of the format.

ghost use Rattle.record_codec.specs.Entries.{IsEntryInRange};
ghost use Rattle.record_codec.specs.Sets.{IsSetInRange};

use crate::digits::bytes_of;
use key_codec::KeyFault;
use record_codec::{EntryRecord, RecordFault, SetRecord, get_entry, get_set, put_entry, put_set};
use std::alloc::{AllocError, Global};
use std::test::Fail;

/// A set of a leaf: names, a whiteout, and a key that is removed.
pub static LEAF: &str = "\
    02000000010000000200000001000000000000000000000000000000000000000900000000000000ffffffffffffffff\
    ffffffff0300000001000000000000000500000000000000070000000202020000000000000001016103000000000000\
    00020162010000000000000005000000000000000900000005020000000000000000000000000000000100000000";

/// A set of a node above the leaves: a node, and a key that is removed at the greatest position.
pub static INNER: &str = "\
    070000000000000000010000000000000000000000000000000000000000000005000000000000001000000000000000\
    090000000200000003000000000000000400000000000000ffffffff0c05000000000000000002002000000007300000\
    00050000000000000010000000000000000900000000";

/// An entry with four updates: an inode, a hole, a node, and a key that is removed.
pub static ENTRY: &str = "\
    090000000000000003000000000000000400000000000000640000000000000000000000010000000001001001000001\
    000000010000000101002001000002000000010000000201003001000003000000010000000301004001000004000000\
    010000000401005001000005000000010000000501006001000006000000010000000601007001000007000000010000\
    000701008001000008000000010000000002009001000001100000000400000001000000000000000000020000000000\
    0000ffffffff0101010000000010000000000000000002000000000000000800000000000000ffffffff040800000002\
    0101000000000000000200000000000000030000000c0600000000000000000100400000000300000000000000000001\
    000000000000000000000000";

// The beginning of an entry, up to its one update.
static BEFORE_UPDATES: &str = "\
    010000000000000001000000000000000000000000000000000000000000000000000000010000000001001001000001\
    000000010000000101002001000002000000010000000201003001000003000000010000000301004001000004000000\
    010000000401005001000005000000010000000501006001000006000000010000000601007001000007000000010000\
    0007010080010000080000000100000000020090010000011000000001000000";

/// A set with the greatest number in each field.
pub static GREATEST: &str = "\
    ffffffffffffffff080000000000000000000000000000000000000000000000ffffffffffffffffffffffffffffffff\
    ffffffff0200000000000000000000000000000000000000000000000b0000000000000000ffffffffffffffffffffff\
    ffffffffffffffffff0bffffffffffffffff";

// What reading gives, as a letter: a dot for a record that is written as it was read, and for a field of a key that is out of
// its range the number of the field.
fn letter_of(fault: RecordFault) -> u8 {
    match fault {
        RecordFault::Short => b's',
        RecordFault::Order => b'o',
        RecordFault::Key(KeyFault::Kind(_)) => b'k',
        RecordFault::Key(KeyFault::Range(field)) => b'0'.wrapping_add(field),
        RecordFault::Key(KeyFault::Order) => b'n',
        RecordFault::Key(_) => b'?',
        RecordFault::Roots => b'R',
        RecordFault::Field => b'F',
        RecordFault::Long => b'L',
        RecordFault::NoMemory => b'm',
    }
}

// A dot where a record was written as it was read.
fn letter_of_written(written: &[u8], payload: &[u8]) -> u8 {
    if written == payload { b'.' } else { b'!' }
}

fn letter_of_set(alloc: Global, set: &SetRecord, payload: &[u8]) -> Result<u8, AllocError>
    requires { IsSetInRange set.now }
{
    let again = put_set(alloc, set)?;
    Ok(letter_of_written(again.as_slice(), payload))
}

fn set_letter(alloc: Global, payload: &[u8]) -> Result<u8, AllocError> {
    match get_set(alloc, payload) {
        Err(fault) => Ok(letter_of(fault)),
        Ok(set) => {
            let letter = letter_of_set(alloc, &set, payload);
            drop(set);
            letter
        }
    }
}

fn letter_of_entry(alloc: Global, entry: &EntryRecord, payload: &[u8]) -> Result<u8, AllocError>
    requires { IsEntryInRange entry.now }
{
    let again = put_entry(alloc, entry)?;
    Ok(letter_of_written(again.as_slice(), payload))
}

/// What reading an entry gives, as a letter.
pub fn entry_letter(alloc: Global, payload: &[u8]) -> Result<u8, AllocError> {
    match get_entry(alloc, payload) {
        Err(fault) => Ok(letter_of(fault)),
        Ok(entry) => {
            let letter = letter_of_entry(alloc, &entry, payload);
            drop(entry);
            letter
        }
    }
}

fn letter(alloc: Global, is_set: bool, payload: &[u8]) -> Result<u8, AllocError> {
    if is_set {
        return set_letter(alloc, payload);
    }
    entry_letter(alloc, payload)
}

// What the payload gives with this byte in a place.
fn letter_with(
    alloc: Global,
    is_set: bool,
    payload: &[u8],
    place: usize,
    byte: u8,
) -> Result<u8, AllocError> {
    let mut changed = Vec::from_slice(alloc, payload)?;
    if let Some(other) = changed.get_mut(place) {
        *other = byte;
    }
    letter(alloc, is_set, &changed)
}

// Whether each beginning of the payload is too short.
fn is_short(alloc: Global, is_set: bool, payload: &[u8]) -> Result<bool, AllocError> {
    for length in 0..payload.len() {
        if letter(alloc, is_set, &payload[..length])? != b's' {
            return Ok(false);
        }
    }
    Ok(true)
}

// Whether it is so, and the payload with one byte more is too long.
fn is_cut(alloc: Global, is_set: bool, digits: &str) -> Result<bool, AllocError> {
    let mut payload = bytes_of(alloc, digits)?;
    payload.push(0)?;
    let (whole, _) = payload.split_at(payload.len() - 1);
    Ok(is_short(alloc, is_set, whole)? && letter(alloc, is_set, &payload)? == b'L')
}

#[test]
fn cut_and_longer(rt: HostRuntime) -> Result<(), Fail> {
    let alloc = rt.alloc();
    assert!(rt; is_cut(alloc, true, LEAF)?);
    assert!(rt; is_cut(alloc, true, INNER)?);
    assert!(rt; is_cut(alloc, true, GREATEST)?);
    assert!(rt; is_cut(alloc, false, ENTRY)?);
    Ok(())
}

// Whether each place of the payload with this byte in it gives what the letters say.
fn gives_all(
    alloc: Global,
    is_set: bool,
    payload: &[u8],
    byte: u8,
    wanted: &[u8],
) -> Result<bool, AllocError> {
    let mut letters = wanted.iter();
    for place in 0..payload.len() {
        let letter = letter_with(alloc, is_set, payload, place, byte)?;
        if letters.next() != Some(&letter) {
            return Ok(false);
        }
    }
    Ok(letters.next().is_none())
}

fn gives(
    alloc: Global,
    is_set: bool,
    digits: &str,
    byte: u8,
    wanted: &str,
) -> Result<bool, AllocError> {
    let payload = bytes_of(alloc, digits)?;
    gives_all(alloc, is_set, &payload, byte, wanted.as_bytes())
}

// What each place of the leaf gives with this byte in it.
static IN_A_LEAF: [(u8, &str); 4] = [
    (
        0x00,
        "\
        ........k.......................o...................L...o...................o1........34..\
        .......34no.......o.......o....o....................",
    ),
    (
        0x01,
        "\
        ........kkFF.ooooooo.ooooooo....o...................Lsss.ooooooo.ooooooo.oooko............\
        .........n.oooooooo.......o...koooooooo............k",
    ),
    (
        0x10,
        "\
        ........FkFFoooooooooooooooo........................ssssooooooooooooooooooook1........33..\
        .......3onoooooooo............koooooooo............k",
    ),
    (
        0xff,
        "\
        ........FkFFoooooooooooooooo........................ssssooooooooooooooooooook1........3sn.\
        .......3s.oooooooo............koooooooo............k",
    ),
];

#[test]
fn other_bytes_in_a_leaf(rt: HostRuntime) -> Result<(), Fail> {
    let alloc = rt.alloc();
    for (byte, wanted) in IN_A_LEAF.iter() {
        assert!(rt; gives(alloc, true, LEAF, *byte, wanted)?, "byte {byte}");
    }
    Ok(())
}

static IN_A_NODE: [(u8, &str); 4] = [
    (
        0x00,
        "\
        .........k......................o.......o.......o...L.......................o.........3...\
        .......o....................",
    ),
    (
        0x01,
        "\
        ..........FF.ooooooo............o.......o.......o...Lsss.ooooooo............k.........o.5.\
        ...5...oooooooo.ooooooo.oook",
    ),
    (
        0x10,
        "\
        ........F.FFoooooooo................................ssssoooooooo............k........234..\
        ..4....oooooooo.oooooooooook",
    ),
    (
        0xff,
        "\
        ........F.FFoooooooo................................ssssoooooooo............k........2345.\
        ..45...ooooooooooooooooooook",
    ),
];

#[test]
fn other_bytes_in_a_node(rt: HostRuntime) -> Result<(), Fail> {
    let alloc = rt.alloc();
    for (byte, wanted) in IN_A_NODE.iter() {
        assert!(rt; gives(alloc, true, INNER, *byte, wanted)?, "byte {byte}");
    }
    Ok(())
}

static IN_AN_ENTRY: [(u8, &str); 4] = [
    (
        0x00,
        "\
        F........................................R..............R..............R..............R...\
        ...........R..............R..............R..............R..............R..........L...k...\
        ..................L12.................................k1....k....................L........\
        .3............................",
    ),
    (
        0x01,
        "\
        F........FFFFFFF...........................R..............R..............R..............R.\
        .............R..............R..............R..............R............F.R....R...Lsss.k..\
        .....................222...33333kk....................k..11......................k........\
        ...5.........................k",
    ),
    (
        0x10,
        "\
        ........FFFFFFFF........................RRR............RRR............RRR............RRR..\
        ..........RRR............RRR............RRR............RRR............RRR....R....ssssFk..\
        ..................k1.222...33333Fk....................k.111F.....................k........\
        234....F.....................k",
    ),
    (
        0xff,
        "\
        ........FFFFFFFF........................RRRR...........RRRR...........RRRR...........RRRR.\
        ..........RRRR...........RRRR...........RRRR...........RRRR...........RRRR...RR...ssssFk..\
        ..................k1.222...33333Fk....................k.111F.....................k........\
        2345...F.....................k",
    ),
];

#[test]
fn other_bytes_in_an_entry(rt: HostRuntime) -> Result<(), Fail> {
    let alloc = rt.alloc();
    for (byte, wanted) in IN_AN_ENTRY.iter() {
        assert!(rt; gives(alloc, false, ENTRY, *byte, wanted)?, "byte {byte}");
    }
    Ok(())
}

// An entry whose one update ends after its kind.
fn with_kind(alloc: Global, btree: u8, level: u8, kind: u8) -> Result<Vec<u8>, AllocError> {
    let mut payload = bytes_of(alloc, BEFORE_UPDATES)?;
    let mut update = [0; 23];
    update[0] = btree;
    update[1] = level;
    update[22] = kind;
    payload.extend_from_slice(&update)?;
    Ok(payload)
}

fn kind_letter(alloc: Global, btree: u8, level: u8, kind: u8) -> Result<u8, AllocError> {
    let payload = with_kind(alloc, btree, level, kind)?;
    entry_letter(alloc, &payload)
}

// Whether it gives what the letters say, for each kind up to 13.
fn kinds_give(alloc: Global, btree: u8, level: u8, wanted: &str) -> Result<bool, AllocError> {
    let mut letters = wanted.as_bytes().iter();
    for kind in 0..14 {
        let letter = kind_letter(alloc, btree, level, kind)?;
        if letters.next() != Some(&letter) {
            return Ok(false);
        }
    }
    Ok(letters.next().is_none())
}

static OF_LEAVES: [(u8, &str); 10] = [
    (0, ".kksskkkkkkkkk"),
    (1, ".skkk.kkkkkkkk"),
    (2, ".kskk.kkkkkkkk"),
    (3, ".kkkkkskkkkkkk"),
    (4, ".kkkkkkskkkkkk"),
    (5, ".kkkkkkkskkkkk"),
    (6, ".kkkkkkkkskkkk"),
    (7, ".kkkkkkkkk.kkk"),
    (8, ".kkkkkkkkkkskk"),
    (9, "FFFFFFFFFFFFFF"),
];

#[test]
fn kinds_of_each_btree(rt: HostRuntime) -> Result<(), Fail> {
    let alloc = rt.alloc();
    for (btree, wanted) in OF_LEAVES.iter() {
        assert!(rt; kinds_give(alloc, *btree, 0, wanted)?, "btree {btree}");
    }
    for btree in 0..9 {
        assert!(rt;
            kinds_give(alloc, btree, 1, ".kkkkkkkkkkksk")?,
            "btree {btree}"
        );
        assert!(rt;
            kinds_give(alloc, btree, 255, ".kkkkkkkkkkksk")?,
            "btree {btree}"
        );
    }
    Ok(())
}

#[test]
fn a_kind_is_named(rt: HostRuntime) -> Result<(), Fail> {
    let alloc = rt.alloc();
    let payload = with_kind(alloc, 8, 0, 12)?;
    let fault = get_entry(alloc, &payload).err();
    assert!(rt; fault == Some(RecordFault::Key(KeyFault::Kind(12))));
    Ok(())
}
