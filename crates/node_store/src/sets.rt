ghost use Rattle.std.specs.Prelude.{◌≡◌, ◌+◌, ◌-◌, ◌≤◌, ◌<◌, ◌++◌, length, IfOk, IfSome, IfNone, option_copied, option_map};
ghost use Rattle.std.specs.List.{list_any};
ghost use Rattle.node_store.specs.Answers.{Gives};
ghost use Rattle.sealed_block.specs.Parts.{continues};
ghost use Rattle.node_store.specs.StoredSets.{begins, first_head, is_set_head, part_in, part_of, parts_from, set_at, set_begun, set_from, set_with, sets_from, sets_in, shows_head};

use crate::SetFault;
use crate::opening::{Copied, OpenBlock, block_in};
use sealed_block::{Head, NODE_SET};
use std::alloc::{AllocError, Global};
use vol_digest::digest;
use vol_types::{Bytes, Duplicate, Listing};

/// How many blocks a bucket has.
pub(crate) const BUCKET: u8 = 16;

/// A set of a node as its bucket holds it.
#[derive(Drop)]
pub struct StoredSet {
    /// The block of the bucket at which it begins.
    pub block: u8,
    /// How many blocks it takes.
    pub blocks: u8,
    /// The sequence number of the newest entry whose keys it holds.
    pub sequence: u64,
    pub payload: Bytes,
}

/// The sets that a bucket holds, in their order.
#[derive(Drop)]
pub struct StoredSets {
    pub sets: Listing<StoredSet>,
    /// The first block behind the last set.
    pub end: u8,
}

// Whether it is the head of the first block of a set of the node, at this block of its bucket.
fn is_set_head(id: &[u8; 16], birth: u64, n: u8, head: &Head) -> bool
    ensures { result ≡ is_set_head id.now birth n head.now }
{
    head.kind == NODE_SET
        && head.version == 1
        && head.part == 0
        && head.id == *id
        && head.owner == birth
        && head.number == u64::from(n)
}

// Whether a head is that of this part of the record whose part 0 has the first head.
fn continues(first: &Head, part: u16, head: &Head) -> bool
    ensures { result ≡ continues first.now part head.now }
{
    head.continues(first, part)
}

// Whether a head begins a set of the node at this block, which ends behind it within the bucket.
fn begins(id: &[u8; 16], birth: u64, n: u8, head: &Head) -> bool
    ensures { result ≡ begins id.now birth n head.now }
{
    let end = u32::from(n) + u32::from(head.parts);
    is_set_head(id, birth, n, head)
        && continues(head, 0, head)
        && u32::from(n) < end
        && end <= u32::from(BUCKET)
}

// A part of the record that begins at block n, if the copy has it.
fn part_in<'a>(first: &Head, n: u8, part: u16, copy: &'a Copied) -> Option<&'a OpenBlock>
    ensures { option_copied result ≡ part_in first.now n part copy.now }
{
    let block = block_in(copy, n as usize + part as usize)?;
    if continues(first, part, &block.head) {
        Some(block)
    } else {
        None
    }
}

// A part of the record that begins at block n, from the first copy that has it.
#[tactic(auto, using(crate::proofs::FirstOf::first_here, crate::proofs::FirstOf::first_next, crate::proofs::FirstOf::first_none))]
fn part_of<'a>(copies: &'a [Copied], first: &Head, n: u8, part: u16) -> Option<&'a OpenBlock>
    ensures { option_copied result ≡ part_of copies.now first.now n part }
{
    for copy in copies {
        if let Some(block) = part_in(first, n, part, copy) {
            return Some(block);
        }
    }
    None
}

// The joined payloads, with those of the parts behind the first one, if all are there.
#[tactic(auto, using(crate::proofs::Joined::part_next, crate::proofs::Joined::part_lacks, crate::proofs::Joined::parts_end))]
fn with_parts(
    copies: &[Copied],
    first: &Head,
    n: u8,
    mut joined: Bytes,
) -> Result<Option<Bytes>, AllocError>
    ensures { IfOk result (λ whole. whole ≡ option_map (λ rest. joined ++ rest)
        (parts_from copies.now first.now n (first.now.parts - 1) 1)) }
{
    for part in 1..first.parts {
        let Some(block) = part_of(copies, first, n, part) else {
            return Ok(None);
        };
        joined.extend_from_slice(block.payload.as_slice())?;
    }
    Ok(Some(joined))
}

// The set with this joined payload, if that has the record's digest.
fn set_with(n: u8, first: &Head, payload: Bytes) -> Option<StoredSet>
    requires { first.now.parts ≤ 16 }
    ensures { result ≡ set_with n first.now payload }
{
    if first.whole != digest(payload.as_slice()) {
        return None;
    }
    Some(StoredSet {
        block: n,
        blocks: first.parts as u8,
        sequence: first.sequence,
        payload,
    })
}

// The set whose first block is this one.
fn set_begun(
    alloc: Global,
    copies: &[Copied],
    id: &[u8; 16],
    birth: u64,
    n: u8,
    first: &OpenBlock,
) -> Result<Option<StoredSet>, AllocError>
    ensures { IfOk result (λ set. set ≡ set_begun copies.now id.now birth n first.now) }
{
    if !begins(id, birth, n, &first.head) {
        return Ok(None);
    }
    let joined = first.payload.copy(alloc)?;
    match with_parts(copies, &first.head, n, joined)? {
        None => Ok(None),
        Some(payload) => Ok(set_with(n, &first.head, payload)),
    }
}

// The set that begins in this block of a copy.
fn set_from(
    alloc: Global,
    copies: &[Copied],
    id: &[u8; 16],
    birth: u64,
    n: u8,
    copy: &Copied,
) -> Result<Option<StoredSet>, AllocError>
    ensures { IfOk result (λ set. set ≡ set_from copies.now id.now birth n copy.now) }
{
    match block_in(copy, n as usize) {
        None => Ok(None),
        Some(first) => set_begun(alloc, copies, id, birth, n, first),
    }
}

/// The set at a block of the bucket, from the first copy in which one begins there.
#[tactic(auto, using(crate::proofs::FirstOf::first_here, crate::proofs::FirstOf::first_next, crate::proofs::FirstOf::first_none))]
pub(crate) fn set_at(
    alloc: Global,
    copies: &[Copied],
    id: &[u8; 16],
    birth: u64,
    n: u8,
) -> Result<Option<StoredSet>, AllocError>
    ensures { IfOk result (λ set. set ≡ set_at copies.now id.now birth n) }
{
    for copy in copies {
        if let Some(set) = set_from(alloc, copies, id, birth, n, copy)? {
            return Ok(Some(set));
        }
    }
    Ok(None)
}

// The sets from block 0 on, up to the first block where none is.
#[tactic(auto, using(crate::proofs::Joined::join_more, crate::proofs::Joined::join_none, crate::proofs::Joined::join_all))]
fn sets_found(
    alloc: Global,
    copies: &[Copied],
    id: &[u8; 16],
    birth: u64,
) -> Result<StoredSets, AllocError>
    ensures found { IfOk result (λ found. found ≡ sets_from copies.now id.now birth 16 0) }
    ensures end { IfOk result (λ found. found.end ≤ 16) }
{
    let mut sets = Listing::new(alloc);
    let mut end = 0;
    for _ in 0..BUCKET {
        let Some(set) = set_at(alloc, copies, id, birth, end)? else {
            return Ok(StoredSets { sets, end });
        };
        end += set.blocks;
        sets.push(set)?;
    }
    Ok(StoredSets { sets, end })
}

// Whether a copy shows in this block the first block of a set of the node.
fn shows_head(id: &[u8; 16], birth: u64, n: u8, copy: &Copied) -> bool
    ensures { result ≡ shows_head id.now birth n copy.now }
{
    match block_in(copy, n as usize) {
        None => false,
        Some(block) => is_set_head(id, birth, n, &block.head),
    }
}

// Whether some copy shows in this block the first block of a set of the node.
fn is_head_shown(copies: &[Copied], id: &[u8; 16], birth: u64, n: u8) -> bool
    ensures { result ≡ list_any (shows_head id.now birth n) copies.now }
{
    copies.iter().any(|copy| shows_head(id, birth, n, copy))
}

// The first block behind this one where a copy shows the first block of a set of the node.
#[tactic(auto, using(crate::proofs::Joined::head_here, crate::proofs::Joined::head_next, crate::proofs::Joined::head_end))]
fn head_behind(copies: &[Copied], id: &[u8; 16], birth: u64, end: u8) -> Option<u8>
    requires { end ≤ 16 }
    ensures { result ≡ first_head copies.now id.now birth (16 - (end + 1)) (end + 1) }
{
    for n in end + 1..BUCKET {
        if is_head_shown(copies, id, birth, n) {
            return Some(n);
        }
    }
    None
}

/// The sets that the copies of a node's bucket hold, or the block at fault. It takes memory for their payloads, and the
/// time of a digest of each.
#[tactic(auto, unfolding(crate::specs::StoredSets::sets_in))]
pub(crate) fn sets_in(
    alloc: Global,
    copies: &[Copied],
    id: &[u8; 16],
    birth: u64,
) -> Result<StoredSets, SetFault>
    ensures { Gives (λ found. found) result (sets_in copies.now id.now birth) }
{
    let found = sets_found(alloc, copies, id, birth)?;
    if found.sets.is_empty() {
        return Err(SetFault::BadBlock(0));
    }
    if let Some(n) = head_behind(copies, id, birth, found.end) {
        return Err(SetFault::BadBlock(n));
    }
    Ok(found)
}
