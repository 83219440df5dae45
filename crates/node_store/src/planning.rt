ghost use Rattle.std.specs.Prelude.{◌≡◌, ◌+◌, ◌-◌, ◌*◌, ◌/◌, ◌<◌, ◌≤◌, ◌++◌, length, replicate, All, IfOk, IsSome};
ghost use Rattle.sha2.specs.Sha256.{sha256};
ghost use Rattle.sealed_block.specs.Blocks.{IsInRanges, Opens};
ghost use Rattle.vol_types.specs.Sets.{set_length_of};
ghost use Rattle.record_codec.specs.Sets.{IsSetInRange, set_format};
ghost use Rattle.node_store.specs.Plans.{AreZerosFrom, ArePartsBefore, HoldsAlone, HoldsBehind, IsReadAlone, IsReadBehind, blocks_for, chunk, part_head, planned_blocks, set_stored};

use record_codec::{SetRecord, put_set, set_lengths, sets_are_exact};
use sealed_block::{Head, NODE_SET, PAYLOAD_BYTES, seal, sealed_blocks_open};
use std::alloc::{AllocError, Global};
use vol_digest::digest;
use vol_types::{BLOCK_SIZE, Bytes, Duplicate, Layout, NodePtr, Places};

/// The sealed blocks of a set of a node, which are the same for each of its places.
#[derive(Drop)]
pub struct Blocked {
    /// The first block of the node's bucket on each device.
    pub places: Places,
    /// The block of the bucket at which they begin.
    pub block: u8,
    /// The blocks, one behind the other.
    pub parts: Bytes,
}

// How many blocks a payload takes.
fn blocks_for(payload: &[u8]) -> u16
    requires { length payload.now ≤ 63488 }
    ensures count { result ≡ blocks_for payload.now }
    ensures few { result ≤ 16 }
{
    ((payload.len() + PAYLOAD_BYTES - 1) / PAYLOAD_BYTES) as u16
}

// What part p of a payload holds.
#[tactic(auto, using(std::proofs::lemmas::List::take_all, std::proofs::lemmas::List::drop_all))]
fn chunk(payload: &[u8], part: u16) -> &[u8]
    ensures chunk { result.now ≡ chunk payload.now part }
    ensures short { length result.now ≤ 3968 }
{
    let at = PAYLOAD_BYTES * part as usize;
    if at >= payload.len() {
        return &[];
    }
    let (_, rest) = payload.split_at(at);
    if rest.len() <= PAYLOAD_BYTES {
        return rest;
    }
    let (chunk, _) = rest.split_at(PAYLOAD_BYTES);
    chunk
}

// The head of part p of a set.
fn part_head(
    id: &[u8; 16],
    birth: u64,
    block: u8,
    sequence: u64,
    payload: &[u8],
    whole: &[u8; 32],
    part: u16,
) -> Head
    requires size { length payload.now ≤ 63488 }
    requires whole { whole.now ≡ sha256 payload.now }
    requires part { part < blocks_for payload.now }
    ensures head { result ≡ part_head id.now birth block sequence payload.now part }
    ensures ranges { IsInRanges result }
{
    Head {
        kind: NODE_SET,
        version: 1,
        part,
        parts: blocks_for(payload),
        id: *id,
        owner: birth,
        number: u64::from(block) + u64::from(part),
        sequence,
        length: chunk(payload, part).len() as u32,
        whole: *whole,
    }
}

// The block with this head and this payload.
fn seal_block(head: &Head, payload: &[u8]) -> [u8; 4096]
    requires ranges { IsInRanges head.now }
    requires fills { length payload.now ≡ head.now.length }
    ensures opens { Opens result head.now payload.now }
    ensures size { length result ≡ 4096 }
{
    let mut block = [0; BLOCK_SIZE];
    seal(head, payload, &mut block);
    block
}

// The blocks of a set, one behind the other.
fn seal_parts(
    alloc: Global,
    id: &[u8; 16],
    birth: u64,
    block: u8,
    sequence: u64,
    payload: &[u8],
) -> Result<Bytes, AllocError>
    requires size { length payload.now ≤ 63488 }
    ensures whole { IfOk result (λ parts. length parts ≡ 4096 * blocks_for payload.now) }
    ensures parts { IfOk result
        (λ parts. ArePartsBefore id.now birth block sequence payload.now parts
        (blocks_for payload.now)) }
{
    let whole = digest(payload);
    let mut parts = Bytes::new(alloc);
    for part in 0..blocks_for(payload) {
        let head = part_head(id, birth, block, sequence, payload, &whole, part);
        parts.extend_from_slice(&seal_block(&head, chunk(payload, part)))?;
    }
    Ok(parts)
}

// The blocks of a new node, with zero blocks behind them up to the end of its bucket. Those of a further set stay.
fn fill_bucket(alloc: Global, block: u8, mut parts: Bytes) -> Result<Bytes, AllocError>
    requires { length parts ≤ 65536 }
    ensures new { block ≡ 0 → IfOk result (λ all. all ≡ parts ++ replicate
        (65536 - length parts) 0) }
    ensures further { 0 < block → IfOk result (λ all. all ≡ parts) }
{
    if block > 0 {
        return Ok(parts);
    }
    let zeros = zero_bytes(alloc, 65_536 - parts.len())?;
    parts.extend_from_slice(zeros.as_slice())?;
    Ok(parts)
}

fn zero_bytes(alloc: Global, count: usize) -> Result<Bytes, AllocError>
    ensures { IfOk result (λ bytes. bytes ≡ replicate count 0) }
{
    Ok(Bytes::from(vec![in alloc; 0; count]?))
}

/// The sealed blocks of a set of a node, to be written from this block of its bucket on. At block 0 all 16 blocks of the
/// bucket are planned: zero blocks behind the set, so that an older life of the bucket isn't read. A node's first set removes
/// no key. It takes memory for the blocks, and the time of two digests of the set.
pub fn plan_set(
    alloc: Global,
    layout: &Layout,
    ptr: &NodePtr,
    block: u8,
    sequence: u64,
    set: &SetRecord,
) -> Result<Blocked, AllocError>
    requires set { IsSetInRange set.now }
    requires birth { set.now.birth ≡ ptr.now.birth }
    requires level { set.now.level ≡ ptr.now.level }
    requires places { 0 < length ptr.now.places }
    requires fits { block + (set_length_of set.now.keys + 3967) / 3968 ≤ 16 }
    requires first { block ≡ 0 → All (λ key. IsSome key.value) set.now.keys }
    ensures places { IfOk result (λ blocked. blocked.places ≡ ptr.now.places) }
    ensures block { IfOk result (λ blocked. blocked.block ≡ block) }
    ensures whole { IfOk result (λ blocked. length blocked.parts ≡ 4096 * planned_blocks blocked) }
    ensures ends { IfOk result (λ blocked. blocked.block + planned_blocks blocked ≤ 16) }
    ensures bucket { block ≡ 0 → IfOk result (λ blocked. planned_blocks blocked ≡ 16) }
    ensures further { 0 < block → IfOk result (λ blocked. planned_blocks blocked ≡ blocks_for
        (set_format.encode set.now)) }
    ensures zeros { block ≡ 0 → IfOk result (AreZerosFrom (blocks_for (set_format.encode set.now))) }
    // The blocks of a new node are read as this set alone, and those of a further set as the sets before it and this one.
    ensures alone { block ≡ 0 → IfOk result (IsReadAlone layout.now.id ptr.now
        (set_stored block sequence (set_format.encode set.now))) }
    ensures behind { 0 < block → IfOk result (IsReadBehind layout.now.id ptr.now
        (set_stored block sequence (set_format.encode set.now))) }
    // So a new node holds the keys of the set, and another one these over what it held before.
    ensures new { block ≡ 0 → IfOk result (HoldsAlone layout.now.id ptr.now set.now) }
    ensures more { 0 < block → IfOk result (HoldsBehind layout.now.id ptr.now set.now) }
{
    let Ok(payload) = put_set(alloc, set) else {
        return Err(AllocError);
    };
    set_lengths();
    sets_are_exact();
    let Ok(parts) = seal_parts(
        alloc,
        &layout.id,
        ptr.birth,
        block,
        sequence,
        payload.as_slice(),
    ) else {
        drop(payload);
        return Err(AllocError);
    };
    drop(payload);
    let Ok(parts) = fill_bucket(alloc, block, parts) else {
        return Err(AllocError);
    };
    let Ok(places) = ptr.places.copy(alloc) else {
        drop(parts);
        return Err(AllocError);
    };
    sealed_blocks_open();
    Ok(Blocked {
        places,
        block,
        parts,
    })
}
