ghost use Rattle.std.specs.Prelude.{◌≡◌, ◌+◌, ◌*◌, ◌^◌, ◌<◌, ◌≤◌, length, IfOk};
ghost use Rattle.sha2.specs.Sha256.{sha256};
ghost use Rattle.sealed_block.specs.Blocks.{IsInRanges, Opens};
ghost use Rattle.record_codec.specs.Entries.{IsEntryInRange};
ghost use Rattle.journal_ring.specs.EntryBlocks.{ArePartBlocks, IsPartBlock, part_count, part_payload, parts_of};

use record_codec::{EntryRecord, entry_length};
use sealed_block::{Head, JOURNAL_ENTRY, PAYLOAD_BYTES, seal};
use std::alloc::{AllocError, Global};
use vol_digest::digest;
use vol_types::BLOCK_SIZE;

/// How many blocks an entry of so many bytes takes.
pub fn part_count(bytes: u64) -> u64
    ensures { result ≡ part_count bytes }
{
    bytes.div_ceil(3968)
}

/// How many blocks an entry takes. It goes over its roots and updates.
pub fn entry_parts(entry: &EntryRecord) -> u64
    requires { IsEntryInRange entry.now }
    ensures { result ≡ parts_of entry.now }
{
    part_count(entry_length(entry.roots.as_slice(), entry.updates.as_slice()))
}

// The payload of a part: full, and in the last part what is left.
fn part_payload(payload: &[u8], part: u16) -> &[u8]
    requires { 3968 * part < length payload.now }
    ensures payload { result.now ≡ part_payload payload.now part }
    ensures fits { length result.now ≤ 3968 }
    ensures some { 0 < length result.now }
{
    let (_, rest) = payload.split_at(part as usize * PAYLOAD_BYTES);
    if rest.len() <= PAYLOAD_BYTES {
        return rest;
    }
    let (bytes, _) = rest.split_at(PAYLOAD_BYTES);
    bytes
}

// The head of a part of an entry.
fn part_head(
    id: &[u8; 16],
    number: u64,
    entry: &EntryRecord,
    whole: &[u8; 32],
    parts: u16,
    part: u16,
    length: u32,
) -> Head
    requires part { part < parts }
    requires parts { parts ≤ 64 }
    requires number { number + parts < 2 ^ 64 }
    requires length { length ≤ 3968 }
    ensures head { result ≡ record {
      kind = 2;
      version = 1;
      part = part;
      parts = parts;
      id = id.now;
      owner = entry.now.session;
      number = number + part;
      sequence = entry.now.sequence;
      length = length;
      whole = whole.now;
    } }
    ensures ranges { IsInRanges result }
{
    Head {
        kind: JOURNAL_ENTRY,
        version: 1,
        part,
        parts,
        id: *id,
        owner: entry.session,
        number: number + u64::from(part),
        sequence: entry.sequence,
        length,
        whole: *whole,
    }
}

fn empty_block() -> [u8; BLOCK_SIZE] {
    [0; BLOCK_SIZE]
}

// The sealed block with this head and this payload.
fn sealed_block(head: &Head, payload: &[u8]) -> [u8; BLOCK_SIZE]
    requires ranges { IsInRanges head.now }
    requires fills { length payload.now ≡ head.now.length }
    ensures { Opens result head.now payload.now }
{
    let mut block = empty_block();
    seal(head, payload, &mut block);
    block
}

// The sealed block of a part of an entry with this payload, whose part 0 has this number.
fn sealed_part(
    id: &[u8; 16],
    number: u64,
    entry: &EntryRecord,
    payload: &[u8],
    whole: &[u8; 32],
    part: u16,
) -> [u8; BLOCK_SIZE]
    requires part { part < part_count (length payload.now) }
    requires parts { part_count (length payload.now) ≤ 64 }
    requires number { number + part_count (length payload.now) < 2 ^ 64 }
    requires whole { whole.now ≡ sha256 payload.now }
    ensures { IsPartBlock id.now number entry.now payload.now part result }
{
    let parts = payload.len().div_ceil(PAYLOAD_BYTES) as u16;
    let bytes = part_payload(payload, part);
    let head = part_head(id, number, entry, whole, parts, part, bytes.len() as u32);
    sealed_block(&head, bytes)
}

/// The sealed blocks of an entry with this payload, whose part 0 has this number. It takes memory for the blocks, and the
/// time of two digests of the payload.
pub fn sealed_parts(
    alloc: Global,
    id: &[u8; 16],
    number: u64,
    entry: &EntryRecord,
    payload: &[u8],
) -> Result<Vec<[u8; BLOCK_SIZE]>, AllocError>
    requires parts { part_count (length payload.now) ≤ 64 }
    requires number { number + part_count (length payload.now) < 2 ^ 64 }
    ensures count { IfOk result (λ blocks. length blocks.items ≡ part_count (length payload.now)) }
    ensures parts { IfOk result (λ blocks. ArePartBlocks id.now number entry.now payload.now
        blocks.items (part_count (length payload.now))) }
{
    let whole = digest(payload);
    let parts = payload.len().div_ceil(PAYLOAD_BYTES) as u16;
    let mut blocks = Vec::with_capacity(alloc, parts as usize)?;
    for part in 0..parts {
        blocks.push(sealed_part(id, number, entry, payload, &whole, part))?;
    }
    Ok(blocks)
}
