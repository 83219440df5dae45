ghost use Rattle.std.specs.Prelude.{◌≡◌, ◌<◌, ◌≤◌, ◌+◌, ◌^◌, ◌==◌, ℕ, false, IsSome, is_some, OnOk, length};
ghost use Rattle.std.specs.Ordering.{nat_cmp};
ghost use Rattle.vol_types.specs.Maps.{value_at};
ghost use Rattle.snap_tree.specs.Snaps.{IsSnapTree, chain_of};
ghost use Rattle.snap_tree.specs.Names.{has_id};
ghost use Rattle.snap_tree.specs.Links.{AreLinks, HasLinks, AllHaveLinks, HaveSameIds, link_in, link_at};

use crate::greatest::{last, last_below, last_id, last_id_below};
use crate::tree::parent_or_zero;
use std::alloc::AllocError;
use std::collections::{BTreeMap, BTreeSet};
use vol_types::Snap;

/// How many links an id has. A chain has at most 2^32 ids, so they pass its end.
pub(crate) const LEVELS: usize = 32;

/// The ancestors 1, 2, 4 and so on above an id, and 0 where there is none.
#[derive(Clone, Copy)]
pub(crate) struct Links {
    above: [u32; 32],
}

/// Where a link of an id leads to; 0 where there is none.
pub(crate) fn link(links: &BTreeMap<u32, Links>, id: u32, level: usize) -> u32
    requires { level < 32 }
    ensures { result ≡ link_in (value_at nat_cmp id links.now.entries) level }
{
    match links.get(&id) {
        None => 0,
        Some(own) => own.above[level],
    }
}

// The same, where 0 stands for no id, and nothing is above it.
fn link_above(links: &BTreeMap<u32, Links>, id: u32, level: usize) -> u32
    requires { level < 32 }
    ensures { result ≡ link_at links.now.entries id level }
{
    if id == 0 {
        return 0;
    }
    link(links, id, level)
}

// The links of an id, where all greater ids have theirs.
fn links_of(snaps: &BTreeMap<u32, Snap>, links: &BTreeMap<u32, Links>, id: u32) -> Links
    requires tree { IsSnapTree snaps.now.entries }
    requires there { IsSome (value_at nat_cmp id snaps.now.entries) }
    requires above { (other : ℕ) → id < other → IsSome (value_at nat_cmp other snaps.now.entries)
        → HasLinks snaps.now.entries links.now.entries other }
    ensures lead { AreLinks (chain_of snaps.now.entries id) result.above }
    ensures fits { id + length (chain_of snaps.now.entries id) ≤ 2 ^ 32 }
{
    let mut above = [0; 32];
    above[0] = parent_or_zero(snaps, id);
    for level in 1..LEVELS {
        above[level] = link_above(links, above[level - 1], level - 1);
    }
    Links { above }
}

/// Makes the links of all ids, which have room for them. Each costs a few logarithms of their number. It takes no memory.
pub(crate) fn link_all(snaps: &BTreeMap<u32, Snap>, links: &mut BTreeMap<u32, Links>)
    requires tree { IsSnapTree snaps.now.entries }
    requires ids { HaveSameIds snaps.now.entries links.old.entries }
    ensures linked { AllHaveLinks snaps.now.entries links.new.entries }
    ensures ids { HaveSameIds snaps.now.entries links.new.entries }
{
    let mut next = last(snaps);
    while let Some(id) = next {
        link_one(snaps, links, id);
        next = last_below(snaps, id);
    }
}

/// Makes the links of some ids anew, where all others have theirs, and all have room. Each costs a few logarithms of the
/// number of all ids. It takes no memory.
pub(crate) fn link_stale(
    snaps: &BTreeMap<u32, Snap>,
    links: &mut BTreeMap<u32, Links>,
    stale: &BTreeSet<u32>,
)
    requires tree { IsSnapTree snaps.now.entries }
    requires fresh { (id : ℕ) → has_id stale.now.keys id ≡ false
        → IsSome (value_at nat_cmp id snaps.now.entries)
        → HasLinks snaps.now.entries links.old.entries id }
    requires ids { HaveSameIds snaps.now.entries links.old.entries }
    ensures linked { AllHaveLinks snaps.now.entries links.new.entries }
    ensures ids { HaveSameIds snaps.now.entries links.new.entries }
{
    let mut next = last_id(stale);
    while let Some(id) = next {
        link_one(snaps, links, id);
        next = last_id_below(stale, id);
    }
}

// Makes the links of an id that may be missing, where all greater ones have theirs.
fn link_one(snaps: &BTreeMap<u32, Snap>, links: &mut BTreeMap<u32, Links>, id: u32)
    requires tree { IsSnapTree snaps.now.entries }
    requires above { (other : ℕ) → id < other → IsSome (value_at nat_cmp other snaps.now.entries)
        → HasLinks snaps.now.entries links.old.entries other }
    requires roomy { IsSome (value_at nat_cmp id snaps.now.entries)
        → IsSome (value_at nat_cmp id links.old.entries) }
    ensures here { IsSome (value_at nat_cmp id snaps.now.entries)
        → HasLinks snaps.now.entries links.new.entries id }
    ensures others { (other : ℕ) → ¬ (other ≡ id) → value_at nat_cmp other links.new.entries
        ≡ value_at nat_cmp other links.old.entries }
    ensures ids { (other : ℕ) → is_some (value_at nat_cmp other links.new.entries) ≡ is_some
        (value_at nat_cmp other links.old.entries) }
{
    if snaps.contains_key(&id) {
        let own = links_of(snaps, links, id);
        if links.insert(id, own).is_err() {
            unreachable!()
        }
    }
}

/// Makes room for the links of an id.
pub(crate) fn make_room(links: &mut BTreeMap<u32, Links>, id: u32) -> Result<(), AllocError>
    ensures ok { OnOk result (IsSome (value_at nat_cmp id links.new.entries)) }
    ensures kept { (other : ℕ) → IsSome (value_at nat_cmp other links.old.entries)
        → value_at nat_cmp other links.new.entries ≡ value_at nat_cmp other links.old.entries }
    ensures others { (other : ℕ) → ¬ (other ≡ id) → value_at nat_cmp other links.new.entries
        ≡ value_at nat_cmp other links.old.entries }
{
    if !links.contains_key(&id) {
        links.insert(id, Links { above: [0; 32] })?;
    }
    Ok(())
}
