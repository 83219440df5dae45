//! Sealed blocks: one that is known, others that stay shut, and blocks that are the parts of a record or aren't.

ghost use Rattle.std.specs.Prelude.{◌<◌, ◌≤◌, length};

use sealed_block::{Head, JOURNAL_ENTRY, JoinFault, join_parts, payload, seal, unseal};
use std::alloc::{AllocError, Global};
use std::test::Fail;
use vol_digest::digest;
use vol_types::Bytes;

const VOLUME: [u8; 16] = [
    16, 17, 18, 19, 20, 21, 22, 23, 24, 25, 26, 27, 28, 29, 30, 31,
];

// The block of one part of a record of journal entries.
fn part_of(part: u16, parts: u16, payload: &[u8], whole: [u8; 32]) -> [u8; 4096]
    requires order { part < parts }
    requires most { parts ≤ 64 }
    requires fits { length payload.now ≤ 3968 }
{
    let head = Head {
        kind: JOURNAL_ENTRY,
        version: 1,
        part,
        parts,
        id: VOLUME,
        owner: 0x0102_0304_0506_0708,
        number: 0x1112_1314_1516_1718 + part as u64,
        sequence: 0x2122_2324_2526_2728,
        length: payload.len() as u32,
        whole,
    };
    let mut block = [0xff; 4096];
    seal(&head, payload, &mut block);
    block
}

// The block with another byte, and the digest that this makes.
fn changed(mut block: [u8; 4096], at: usize, value: u8) -> [u8; 4096] {
    let (covered, block_digest) = block.split_at_mut(4064);
    if at < 4064 {
        covered[at] = value;
    }
    block_digest.copy_from_slice(&digest(covered));
    block
}

// What blocks are as a record.
fn join(alloc: Global, blocks: &[u8]) -> Result<Bytes, JoinFault> {
    if blocks.is_empty() || blocks.len() % 4096 != 0 {
        return Err(JoinFault::NoMemory);
    }
    join_parts(alloc, blocks)
}

// The digests were computed by Python's hashlib over the bytes that its struct module packed by the table of the format.
#[test]
fn known_block(rt: HostRuntime) -> Result<(), Fail> {
    let block = part_of(0, 1, b"hello", digest(b"hello"));
    assert!(rt;
        digest(&block)
            == [
                0x22, 0x1e, 0xbe, 0x61, 0x43, 0x07, 0xa8, 0x23, 0xdb, 0x08, 0x9f, 0x4d, 0xda, 0x5f,
                0xb8, 0x74, 0x95, 0x65, 0x6a, 0xd3, 0x68, 0x15, 0x79, 0x15, 0x42, 0x8c, 0x4b, 0x8f,
                0x1e, 0xb2, 0x48, 0x40,
            ]
    );
    let head = unseal(&block).ok_or("the block is sealed")?;
    assert!(rt; head.sequence == 0x2122_2324_2526_2728);
    assert!(rt; payload(&block, &head) == b"hello".as_slice());
    Ok(())
}

/// Other bytes of the known block, each with the place where it stands.
const FAULTS: [(usize, u8); 16] = [
    (0, b'c'),
    (7, b'L'),
    (8, 0),
    (8, 5),
    (9, 0),
    (10, 1),
    (11, 1),
    (12, 1),
    (14, 0),
    (14, 65),
    (57, 16),
    (56, 4),
    (60, 1),
    (63, 1),
    (101, 1),
    (4063, 1),
];

#[test]
fn other_forms_stay_shut(rt: HostRuntime) {
    let block = part_of(0, 1, b"hello", digest(b"hello"));
    for (at, value) in FAULTS {
        assert!(rt; unseal(&changed(block, at, value)) == None, "at {at}");
    }
    assert!(rt; unseal(&changed(block, 40, 1)).is_some());
    let mut torn = block;
    torn[40] = 1;
    assert!(rt; unseal(&torn) == None);
    let (short, _) = block.split_at(4095);
    assert!(rt; unseal(short) == None);
}

static SEVENS: [u8; 3968] = [7; 3968];

// Appends so many full payloads and a byte.
fn put_full(payload: &mut Vec<u8>, full: u16, last: u8) -> Result<(), AllocError> {
    for _ in 0..full {
        payload.extend_from_slice(&SEVENS)?;
    }
    Ok(payload.push(last)?)
}

// The digest of so many full payloads and a byte.
fn digest_of_full(alloc: Global, full: u16, last: u8) -> Result<[u8; 32], AllocError> {
    let mut payload = Vec::new(alloc);
    let put = put_full(&mut payload, full, last);
    let whole = digest(payload.as_slice());
    drop(payload);
    put?;
    Ok(whole)
}

// Appends the blocks of 63 full payloads and a byte, with this digest of the whole.
fn put_most(blocks: &mut Vec<u8>, whole: [u8; 32]) -> Result<(), AllocError> {
    for part in 0..63 {
        blocks.extend_from_slice(&part_of(part, 64, &SEVENS, whole))?;
    }
    blocks.extend_from_slice(&part_of(63, 64, &[8], whole))
}

// The digest of the joined blocks and their length.
fn joined(alloc: Global, blocks: &[u8]) -> Option<([u8; 32], usize)> {
    match join(alloc, blocks) {
        Ok(payload) => {
            let found = (digest(payload.as_slice()), payload.len());
            drop(payload);
            Some(found)
        }
        Err(_) => None,
    }
}

fn most_joined(alloc: Global, whole: [u8; 32]) -> Option<([u8; 32], usize)> {
    let mut blocks = Vec::new(alloc);
    let put = put_most(&mut blocks, whole).is_ok();
    let found = joined(alloc, blocks.as_slice());
    drop(blocks);
    if put { found } else { None }
}

#[test]
fn parts_are_joined(rt: HostRuntime) -> Result<(), Fail> {
    let alloc = rt.alloc();
    let whole = digest_of_full(alloc, 63, 8)?;
    assert!(rt; most_joined(alloc, whole) == Some((whole, 63 * 3968 + 1)));
    let hello = digest(b"hello");
    assert!(rt; joined(alloc, &part_of(0, 1, b"hello", hello)) == Some((hello, 5)));
    Ok(())
}

// The block that a letter stands for, with this digest of the record: its two parts, the second part with another byte or with
// another number, or zeros.
fn block_of(letter: u8, whole: [u8; 32]) -> [u8; 4096] {
    match letter {
        b'a' => part_of(0, 2, &SEVENS, whole),
        b'b' => part_of(1, 2, &[8], whole),
        b'o' => part_of(1, 2, &[9], whole),
        b'n' => changed(part_of(1, 2, &[8], whole), 40, 0),
        _ => [0; 4096],
    }
}

// Appends the blocks that letters stand for.
fn put_blocks(blocks: &mut Vec<u8>, letters: &str, whole: [u8; 32]) -> Result<(), AllocError> {
    for letter in letters.bytes() {
        blocks.extend_from_slice(&block_of(letter, whole))?;
    }
    Ok(())
}

// Whether the blocks that letters stand for are no record for this reason, or are one.
fn has_fault(alloc: Global, letters: &str, whole: [u8; 32], fault: Option<JoinFault>) -> bool {
    let mut blocks = Vec::new(alloc);
    let put = put_blocks(&mut blocks, letters, whole).is_ok();
    let found = join(alloc, blocks.as_slice()).err();
    drop(blocks);
    put && found == fault
}

/// Blocks by letters, and why they are no record, if they are none.
static JOINED: [(&str, Option<JoinFault>); 9] = [
    ("ab", None),
    ("a", Some(JoinFault::Foreign(1))),
    ("b", Some(JoinFault::Foreign(0))),
    ("aa", Some(JoinFault::Foreign(1))),
    ("abb", Some(JoinFault::Foreign(2))),
    ("an", Some(JoinFault::Foreign(1))),
    (".b", Some(JoinFault::NotSealed(0))),
    ("a.a", Some(JoinFault::NotSealed(1))),
    ("ao", Some(JoinFault::Digest)),
];

#[test]
fn first_faults(rt: HostRuntime) -> Result<(), Fail> {
    let alloc = rt.alloc();
    let whole = digest_of_full(alloc, 1, 8)?;
    for (letters, fault) in JOINED.iter() {
        assert!(rt; has_fault(alloc, letters, whole, *fault), "at {letters}");
    }
    Ok(())
}
