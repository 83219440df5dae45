ghost use Rattle.std.specs.Prelude.{◌≡◌, ◌%◌, ◌==◌, ◌+◌, ◌^◌, ◌<◌, nat_lt, IfOk};
ghost use Rattle.journal_ring.specs.Counting.{entry_at};
ghost use Rattle.journal_ring.specs.Entries.{agreeing, agrees, begun_by, entry_under, is_entry_head};
ghost use Rattle.journal_ring.specs.Parts.{area_in};

use crate::FoundEntry;
use crate::parts::{AreaBlocks, block_of, joined};
use record_codec::{EntryRecord, RecordFault, get_entry};
use sealed_block::{Head, JOURNAL_ENTRY, unseal};
use std::alloc::{AllocError, Global};
use vol_digest::digest;
use vol_types::Layout;

// Whether the number behind the last part is one.
fn is_end_number(number: u64, parts: u16) -> bool
    ensures { result ≡ nat_lt (number + parts) (2 ^ 64) }
{
    number <= u64::MAX - u64::from(parts)
}

// Whether it is the head of part 0 of an entry of the volume with this id.
fn is_entry_head(id: &[u8; 16], number: u64, head: &Head) -> bool
    ensures { result ≡ is_entry_head id.now number head.now }
{
    head.kind == JOURNAL_ENTRY
        && head.version == 1
        && head.part == 0
        && head.id == *id
        && head.number == number
        && is_end_number(number, head.parts)
}

// Whether an entry has the sequence and the session that the head names.
fn agrees(head: &Head, entry: &EntryRecord) -> bool
    ensures { result ≡ agrees head.now entry.now }
{
    entry.sequence == head.sequence && entry.session == head.owner
}

// The entry, if it agrees with the head.
fn agreeing(head: &Head, entry: EntryRecord) -> Option<EntryRecord>
    ensures { result ≡ agreeing head.now (Some entry) }
{
    if !agrees(head, &entry) {
        return None;
    }
    Some(entry)
}

// The entry that a joined payload is under this head, if it is one.
fn entry_under(
    alloc: Global,
    head: &Head,
    payload: &[u8],
) -> Result<Option<EntryRecord>, AllocError>
    ensures { IfOk result (λ entry. entry ≡ entry_under head.now payload.now) }
{
    if digest(payload) != head.whole {
        return Ok(None);
    }
    match get_entry(alloc, payload) {
        Ok(entry) => Ok(agreeing(head, entry)),
        Err(RecordFault::NoMemory) => Err(AllocError),
        Err(_) => Ok(None),
    }
}

// The whole entry that a head of part 0 on a device begins, if there is one.
fn begun_by(
    alloc: Global,
    layout: &Layout,
    areas: &[AreaBlocks],
    dev: u8,
    number: u64,
    head: &Head,
) -> Result<Option<FoundEntry>, AllocError>
    requires some { 0 < layout.now.journal }
    ensures { IfOk result (λ found. found ≡ begun_by layout.now (area_in areas.now) dev number
        head.now) }
{
    if !is_entry_head(&layout.id, number, head) {
        return Ok(None);
    }
    let Some(payload) = joined(alloc, layout, areas, dev, head)? else {
        return Ok(None);
    };
    let Some(entry) = entry_under(alloc, head, payload.as_slice())? else {
        return Ok(None);
    };
    Ok(Some(FoundEntry {
        number,
        end: number + u64::from(head.parts),
        entry,
    }))
}

// Whether a journal block number lies at this place.
fn lies_at(layout: &Layout, number: u64, place: u32) -> bool
    requires { 0 < layout.now.journal }
    ensures { result ≡ (number % layout.now.journal == place) }
{
    number % u64::from(layout.journal) == u64::from(place)
}

/// The whole entry whose part 0 stands at a place of a device, if there is one. It opens the block there, and where that is
/// a part 0, all parts of its entry, whose payloads it takes memory for.
pub(crate) fn entry_at(
    alloc: Global,
    layout: &Layout,
    areas: &[AreaBlocks],
    dev: u8,
    place: u32,
) -> Result<Option<FoundEntry>, AllocError>
    requires some { 0 < layout.now.journal }
    ensures { IfOk result (λ found. found ≡ entry_at layout.now (area_in areas.now) dev place) }
{
    let Some(block) = block_of(areas, dev, u64::from(place)) else {
        return Ok(None);
    };
    let Some(head) = unseal(block.as_slice()) else {
        return Ok(None);
    };
    if !lies_at(layout, head.number, place) {
        return Ok(None);
    }
    begun_by(alloc, layout, areas, dev, head.number, &head)
}
