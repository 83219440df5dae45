ghost use Rattle.std.specs.Prelude.{◌≡◌, ◌<◌, ℕ, Some, IfOk, OnOk};
ghost use Rattle.std.specs.Ordering.{nat_cmp};
ghost use Rattle.vol_types.specs.Maps.{value_at};
ghost use Rattle.journal_ring.specs.Counting.{counting, counting_on, counting_then, entry_at, is_later, journal_in};
ghost use Rattle.journal_ring.specs.Parts.{area_in};
ghost use Rattle.journal_ring.specs.Reading.{counts_after, journal_up_to};

use crate::entries::entry_at;
use crate::parts::AreaBlocks;
use crate::{FoundEntry, Journal};
use std::alloc::{AllocError, Global};
use std::collections::BTreeMap;
use vol_types::{Layout, Listing};

/// Whole entries by their sequences: the one that counts for each.
type Counting = BTreeMap<u64, FoundEntry>;

// Whether an entry counts before one that stands on the same device or on a lower one.
fn is_later(other: &FoundEntry, one: &FoundEntry) -> bool
    ensures { result ≡ is_later other.now one.now }
{
    one.entry.session < other.entry.session
        || (one.entry.session == other.entry.session && one.number < other.number)
}

// Whether an entry counts before the one of its sequence that counts so far.
fn counts(counting: &Counting, found: &FoundEntry) -> bool
    ensures { result ≡ counts_after (value_at nat_cmp found.now.entry.sequence counting.now.entries) found.now }
{
    match counting.get(&found.entry.sequence) {
        None => true,
        Some(one) => is_later(found, one),
    }
}

// Takes an entry in, if it counts.
fn count_entry(counting: &mut Counting, found: FoundEntry) -> Result<(), AllocError>
    ensures { OnOk result ((sequence : ℕ) → value_at nat_cmp sequence counting.new.entries
        ≡ counting_then sequence (value_at nat_cmp sequence counting.old.entries) (Some found)) }
{
    if !counts(counting, &found) {
        return Ok(());
    }
    counting.insert(found.entry.sequence, found)?;
    Ok(())
}

// Takes in the entry at a place of a device, if one stands there and counts.
fn count_place(
    alloc: Global,
    layout: &Layout,
    areas: &[AreaBlocks],
    dev: u8,
    place: u32,
    counting: &mut Counting,
) -> Result<(), AllocError>
    requires { 0 < layout.now.journal }
    ensures { OnOk result ((sequence : ℕ) → value_at nat_cmp sequence counting.new.entries
        ≡ counting_then sequence (value_at nat_cmp sequence counting.old.entries)
        (entry_at layout.now (area_in areas.now) dev place)) }
{
    match entry_at(alloc, layout, areas, dev, place)? {
        None => Ok(()),
        Some(found) => count_entry(counting, found),
    }
}

// Takes in the entries of a device.
fn count_device(
    alloc: Global,
    layout: &Layout,
    areas: &[AreaBlocks],
    dev: u8,
    counting: &mut Counting,
) -> Result<(), AllocError>
    requires { 0 < layout.now.journal }
    ensures { OnOk result ((sequence : ℕ) → value_at nat_cmp sequence counting.new.entries
        ≡ counting_on layout.now (area_in areas.now) sequence dev
        (value_at nat_cmp sequence counting.old.entries) layout.now.journal) }
{
    for place in 0..layout.journal {
        count_place(alloc, layout, areas, dev, place, counting)?;
    }
    Ok(())
}

// The entries that count, by their sequences.
fn counting_entries(
    alloc: Global,
    layout: &Layout,
    areas: &[AreaBlocks],
) -> Result<Counting, AllocError>
    requires { 0 < layout.now.journal }
    ensures { IfOk result (λ entries. (sequence : ℕ) → value_at nat_cmp sequence entries.entries
        ≡ counting layout.now (area_in areas.now) sequence) }
{
    let mut entries = BTreeMap::new(alloc);
    for dev in 0..layout.metadata_replicas {
        count_device(alloc, layout, areas, dev, &mut entries)?;
    }
    Ok(entries)
}

// The needed entries of the newest one, taken out of those that count below its sequence.
fn needed_entries(
    alloc: Global,
    mut below: Counting,
    last: FoundEntry,
) -> Result<Journal, AllocError>
    ensures { IfOk result (λ journal. journal ≡ journal_up_to (λ sequence. value_at
        nat_cmp sequence below.entries) last) }
{
    let mut needed = Listing::new(alloc);
    for sequence in last.entry.oldest..last.entry.sequence {
        match below.remove(&sequence) {
            Some(entry) => needed.push(entry)?,
            None => return Ok(Journal::Missing(sequence)),
        }
    }
    needed.push(last)?;
    Ok(Journal::Needed(needed))
}

/// What the journal is read as that these areas hold: one map step for each whole entry, whose time rises with the logarithm of
/// their number. It takes memory for all whole entries.
pub fn journal_of(
    alloc: Global,
    layout: &Layout,
    areas: &[AreaBlocks],
) -> Result<Journal, AllocError>
    requires { 0 < layout.now.journal }
    ensures { IfOk result (λ journal. journal ≡ journal_in layout.now (area_in areas.now)) }
{
    let mut entries = counting_entries(alloc, layout, areas)?;
    match entries.pop_last() {
        None => Ok(Journal::NoEntry),
        Some((_, last)) => needed_entries(alloc, entries, last),
    }
}
