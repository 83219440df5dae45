ghost use Rattle.std.specs.Prelude.{◌≡◌, ◌≢◌, ◌⊎◌, ◌↔◌, ℕ, ◌+◌, ◌*◌, ◌≤◌, ◌<◌, ◌%◌, List, Some, Ok, Err, length, MatchOption, IfOk, OnOk, IfErr};
ghost use Rattle.std.specs.List.{flat_map};
ghost use Rattle.sealed_block.specs.declared.records.JoinFault.{JoinFault as AFault};
ghost use Rattle.sealed_block.specs.declared.records.JoinFault.TheVariants.{NotSealed, Foreign, NoMemory};
ghost use Rattle.sealed_block.specs.Opening.{opened, payload_in};
ghost use Rattle.sealed_block.specs.Records.{ArePartsBelow, Continues, IsFirstFault, IsRecord, IsUnlessNoMemory, block_at, blocks_of};

use crate::heads::are_same;
use crate::{Head, PAYLOAD_BYTES, payload, unseal};
use std::alloc::{AllocError, Global};
use vol_digest::digest;
use vol_types::{BLOCK_SIZE, Bytes};

/// Why blocks are no record.
#[derive(Clone, Copy, Debug, PartialEq, Eq)]
pub enum JoinFault {
    /// The block of this part is no sealed block.
    NotSealed(u16),
    /// The block of this part doesn't continue part 0. Where the blocks end too early, this is the first part that is
    /// missing.
    Foreign(u16),
    /// The joined payloads have another digest than the heads name.
    Digest,
    /// Out of memory.
    NoMemory,
}

impl From<AllocError> for JoinFault {
    ghost use Rattle.sealed_block.specs.declared.records.JoinFault.TheVariants.{NoMemory};

    ghost from_gives = { λ _ fault. fault ≡ NoMemory };

    fn from(_: AllocError) -> Self {
        JoinFault::NoMemory
    }
}

/// The payload of the record whose parts the blocks are, one after the other. The first fault counts, where the parts
/// are judged in their order, and each is first opened and then held against part 0; the digest is judged last. It takes
/// memory for the payload, and the time of two digests of the blocks.
pub fn join_parts(alloc: Global, blocks: &[u8]) -> Result<Bytes, JoinFault>
    requires some { 0 < length blocks.now }
    requires whole { length blocks.now % 4096 ≡ 0 }
    ensures joined { IfOk result (IsRecord (blocks_of blocks.now)) }
    ensures fault { IfErr result (λ fault. fault ≢ NoMemory → IsFirstFault (blocks_of blocks.now)
        fault) }
    // Each record is joined, and each first fault reported, unless memory runs out.
    ensures each_record { (payload : List ℕ) → IsRecord (blocks_of blocks.now) payload
        → IsUnlessNoMemory result (Ok payload) }
    ensures each_fault { (fault : AFault) → IsFirstFault (blocks_of blocks.now) fault
        → IsUnlessNoMemory result (Err fault) }
{
    let (parts, _) = blocks.as_chunks::<BLOCK_SIZE>();
    join_blocks(alloc, parts)
}

fn join_blocks(alloc: Global, parts: &[[u8; BLOCK_SIZE]]) -> Result<Bytes, JoinFault>
    requires { 0 < length parts.now }
    ensures joined { IfOk result (IsRecord parts.now) }
    ensures fault { IfErr result (λ fault. fault ≢ NoMemory → IsFirstFault parts.now fault) }
{
    let Some(first) = unseal(&parts[0]) else {
        return Err(JoinFault::NotSealed(0));
    };
    let joined = payloads_of(alloc, parts, &first)?;
    if parts.len() < first.parts as usize {
        drop(joined);
        return Err(JoinFault::Foreign(parts.len() as u16));
    }
    if !are_same(&digest(joined.as_slice()), &first.whole) {
        drop(joined);
        return Err(JoinFault::Digest);
    }
    Ok(joined)
}

// The joined payloads of the blocks, each of which is the next part of the record that begins with the first head.
fn payloads_of(alloc: Global, parts: &[[u8; BLOCK_SIZE]], first: &Head) -> Result<Bytes, JoinFault>
    requires begins { opened (block_at parts.now 0) ≡ Some first.now }
    requires room { first.now.parts ≤ 64 }
    ensures joined { IfOk result (λ joined. joined ≡ flat_map payload_in parts.now) }
    ensures parts { OnOk result (ArePartsBelow parts.now (length parts.now)) }
    ensures fault { IfErr result (λ fault. fault ≢ NoMemory → IsFirstFault parts.now fault) }
{
    let mut joined = Vec::with_capacity(alloc, first.parts as usize * PAYLOAD_BYTES)?;
    for part in 0..parts.len() {
        let block = &parts[part];
        let head = check_part(first, part as u16, open_part(first, part, block))?;
        joined.extend_from_slice(payload(block, &head))?;
    }
    Ok(Bytes::from(joined))
}

// Opens a part. Part 0 has been opened before.
fn open_part(first: &Head, part: usize, block: &[u8]) -> Option<Head>
    requires { part ≡ 0 → opened block.now ≡ Some first.now }
    ensures { result ≡ opened block.now }
{
    if part == 0 {
        Some(*first)
    } else {
        unseal(block)
    }
}

// The head of a part, where the block opened with one that continues the first.
fn check_part(first: &Head, part: u16, head: Option<Head>) -> Result<Head, JoinFault>
    ensures sealed { MatchOption head (result ≡ Err (NotSealed part))
        (λ h. (Continues first.now part h × (result ≡ Ok h))
        ⊎ ((Continues first.now part h → ⊥) × (result ≡ Err (Foreign part)))) }
{
    let Some(head) = head else {
        return Err(JoinFault::NotSealed(part));
    };
    if !head.continues(first, part) {
        return Err(JoinFault::Foreign(part));
    }
    Ok(head)
}
