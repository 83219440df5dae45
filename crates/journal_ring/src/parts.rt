ghost use Rattle.std.specs.Prelude.{◌≡◌, ◌+◌, ◌^◌, ◌<◌, IfOk, option_copied};
ghost use Rattle.dev_model.specs.Disk.{block_at};
ghost use Rattle.sealed_block.specs.Parts.{continues};
ghost use Rattle.journal_ring.specs.Parts.{area_in, first_on, joined, numbered, part_in, part_of, part_on};

use sealed_block::{Head, PAYLOAD_BYTES, payload, unseal};
use std::alloc::{AllocError, Global};
use vol_types::{Bytes, Layout, Listing};

/// The blocks of a device's journal area, in the order of their places.
pub type AreaBlocks = Listing<Bytes>;

/// What a device holds at a place of its journal area.
pub(crate) fn block_of(areas: &[AreaBlocks], dev: u8, place: u64) -> Option<&Bytes>
    ensures { option_copied result ≡ block_at areas.now dev place }
{
    areas.get(dev as usize)?.get(place as usize)
}

// What a device holds at the place of a journal block number.
fn numbered<'a>(layout: &Layout, areas: &'a [AreaBlocks], dev: u8, number: u64) -> Option<&'a Bytes>
    requires { 0 < layout.now.journal }
    ensures { option_copied result ≡ numbered layout.now (area_in areas.now) dev number }
{
    block_of(areas, dev, number % u64::from(layout.journal))
}

// Whether a head is that of this part of the record whose part 0 has the first head.
fn continues(first: &Head, part: u16, head: &Head) -> bool
    ensures { result ≡ continues first.now part head.now }
{
    head.continues(first, part)
}

// The payload of a block that opens as a part of the record.
fn part_in<'a>(first: &Head, part: u16, block: &'a [u8]) -> Option<&'a [u8]>
    ensures { option_copied result ≡ part_in first.now part block.now }
{
    let head = unseal(block)?;
    if !continues(first, part, &head) {
        return None;
    }
    Some(payload(block, &head))
}

// The payload of a part as a device has it.
fn part_on<'a>(
    layout: &Layout,
    areas: &'a [AreaBlocks],
    first: &Head,
    part: u16,
    dev: u8,
) -> Option<&'a [u8]>
    requires some { 0 < layout.now.journal }
    requires number { first.now.number + part < 2 ^ 64 }
    ensures { option_copied result ≡ part_on layout.now (area_in areas.now) first.now part dev }
{
    let number = first.number + u64::from(part);
    let block = numbered(layout, areas, dev, number)?;
    part_in(first, part, block.as_slice())
}

// The payload of a part from the first metadata device that has it.
#[tactic(auto, using(crate::proofs::Loops::first_found, crate::proofs::Loops::none_found))]
fn first_part<'a>(
    layout: &Layout,
    areas: &'a [AreaBlocks],
    first: &Head,
    part: u16,
) -> Option<&'a [u8]>
    requires some { 0 < layout.now.journal }
    requires number { first.now.number + part < 2 ^ 64 }
    ensures { option_copied result ≡ first_on (part_on layout.now (area_in areas.now) first.now part)
        layout.now.metadata_replicas }
{
    for dev in 0..layout.metadata_replicas {
        if let Some(bytes) = part_on(layout, areas, first, part, dev) {
            return Some(bytes);
        }
    }
    None
}

// The payload of a part: part 0 from this device, and each further one from the first metadata device that has it.
fn part_of<'a>(
    layout: &Layout,
    areas: &'a [AreaBlocks],
    dev: u8,
    first: &Head,
    part: u16,
) -> Option<&'a [u8]>
    requires some { 0 < layout.now.journal }
    requires number { first.now.number + part < 2 ^ 64 }
    ensures { option_copied result ≡ part_of layout.now (area_in areas.now) dev first.now part }
{
    if part == 0 {
        return part_on(layout, areas, first, 0, dev);
    }
    first_part(layout, areas, first, part)
}

/// The joined payloads of the parts of the record whose part 0 is on this device, if all are there. It takes memory for the
/// payloads, and opens each part once on each device up to the one that has it.
#[tactic(auto, using(crate::proofs::Loops::joined_none))]
pub(crate) fn joined(
    alloc: Global,
    layout: &Layout,
    areas: &[AreaBlocks],
    dev: u8,
    first: &Head,
) -> Result<Option<Bytes>, AllocError>
    requires some { 0 < layout.now.journal }
    requires number { first.now.number + first.now.parts < 2 ^ 64 }
    ensures { IfOk result (λ bytes. bytes ≡ joined layout.now (area_in areas.now) dev first.now
        first.now.parts) }
{
    let mut bytes = Bytes::new(alloc);
    for part in 0..first.parts {
        let Some(payload) = part_of(layout, areas, dev, first, part) else {
            return Ok(None);
        };
        bytes.extend_from_slice(payload)?;
    }
    Ok(Some(bytes))
}
