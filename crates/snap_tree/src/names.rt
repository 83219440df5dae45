ghost use Rattle.std.specs.Prelude.{◌≡◌, ◌<◌, ◌≤◌, ◌⊎◌, ◌&&◌, ◌==◌, not, ℕ, true, Some, IfOk, IfSome, OnOk};
ghost use Rattle.snap_tree.specs.Names.{IsIndex, has_pair, names};
ghost use Rattle.snap_tree.specs.Links.{IsPast};

use crate::greatest::{last, last_below};
use std::alloc::{AllocError, Global};
use std::collections::{BTreeMap, BTreeSet};
use vol_types::Snap;

/// Pairs of an id that is named and the id whose record names it.
pub(crate) type Names = BTreeSet<(u32, u32)>;

// Whether a record that may be none names an id, as its parent or as a child.
fn does_name(snap: Option<Snap>, named: u32) -> bool
    ensures { result ≡ names named snap }
{
    match snap {
        None => false,
        Some(snap) => {
            named != 0
                && (snap.parent == named || snap.first_child == named || snap.second_child == named)
        }
    }
}

/// The pairs of all records.
pub(crate) fn names_of(alloc: Global, snaps: &BTreeMap<u32, Snap>) -> Result<Names, AllocError>
    ensures { IfOk result (λ pairs. IsIndex snaps.now.entries pairs.keys) }
{
    let mut pairs = Names::new(alloc);
    let mut next = last(snaps);
    while let Some(id) = next {
        if let Some(snap) = snaps.get(&id) {
            note_names(&mut pairs, id, *snap)?;
        }
        next = last_below(snaps, id);
    }
    Ok(pairs)
}

/// Notes that the record of an id names those that it names. Where memory is out, some may be noted.
pub(crate) fn note_names(pairs: &mut Names, id: u32, snap: Snap) -> Result<(), AllocError>
    ensures ok { OnOk result ((named : ℕ) → names named (Some snap) ≡ true
        → has_pair pairs.new.keys named id ≡ true) }
    ensures kept { (named namer : ℕ) → has_pair pairs.old.keys named namer ≡ true
        → has_pair pairs.new.keys named namer ≡ true }
    ensures only { (named namer : ℕ) → has_pair pairs.new.keys named namer ≡ true
        → (has_pair pairs.old.keys named namer ≡ true)
        ⊎ ((namer ≡ id) × (names named (Some snap) ≡ true)) }
{
    note_name(pairs, snap.parent, id)?;
    note_name(pairs, snap.first_child, id)?;
    note_name(pairs, snap.second_child, id)
}

// Notes that an id names another, if this isn't 0.
fn note_name(pairs: &mut Names, named: u32, namer: u32) -> Result<(), AllocError>
    ensures ok { OnOk result (¬ (named ≡ 0) → has_pair pairs.new.keys named namer ≡ true) }
    ensures kept { (other by : ℕ) → has_pair pairs.old.keys other by ≡ true
        → has_pair pairs.new.keys other by ≡ true }
    ensures only { (other by : ℕ) → has_pair pairs.new.keys other by ≡ true
        → (has_pair pairs.old.keys other by ≡ true)
        ⊎ ((by ≡ namer) × (other ≡ named) × ¬ (named ≡ 0)) }
{
    if named != 0 {
        pairs.insert((named, namer))?;
    }
    Ok(())
}

/// Drops what one record of an id names and another, which it has instead, doesn't.
pub(crate) fn drop_names(pairs: &mut Names, id: u32, gone: Option<Snap>, stays: Option<Snap>)
    ensures { (named namer : ℕ) → has_pair pairs.new.keys named namer
        ≡ (has_pair pairs.old.keys named namer && not
        (namer == id && names named gone && not (names named stays))) }
{
    let Some(snap) = gone else { return };
    drop_name(pairs, snap.parent, id, stays);
    drop_name(pairs, snap.first_child, id, stays);
    drop_name(pairs, snap.second_child, id, stays);
}

// Drops that an id names another, if its record doesn't name this.
fn drop_name(pairs: &mut Names, named: u32, namer: u32, stays: Option<Snap>)
    ensures { (other by : ℕ) → has_pair pairs.new.keys other by
        ≡ (has_pair pairs.old.keys other by && not
        (by == namer && not (other == 0) && named == other && not (names other stays))) }
{
    if named != 0 && !does_name(stays, named) {
        pairs.remove(&(named, namer));
    }
}

/// The greatest id up to a number whose record names an id.
pub(crate) fn namer_up_to(pairs: &Names, named: u32, bound: u32) -> Option<u32>
    ensures within { IfSome result (λ namer. namer ≤ bound) }
    ensures there { IfSome result (λ namer. has_pair pairs.now.keys named namer ≡ true) }
    ensures greatest { (namer : ℕ) → namer ≤ bound → IsPast result namer
        → ¬ (has_pair pairs.now.keys named namer ≡ true) }
{
    match pairs.range((named, 0)..=(named, bound)).next_back() {
        None => None,
        Some((_, namer)) => Some(*namer),
    }
}

/// The greatest id below a number whose record names an id.
pub(crate) fn namer_below(pairs: &Names, named: u32, bound: u32) -> Option<u32>
    ensures within { IfSome result (λ namer. namer < bound) }
    ensures there { IfSome result (λ namer. has_pair pairs.now.keys named namer ≡ true) }
    ensures greatest { (namer : ℕ) → namer < bound → IsPast result namer
        → ¬ (has_pair pairs.now.keys named namer ≡ true) }
{
    if bound == 0 {
        return None;
    }
    namer_up_to(pairs, named, bound - 1)
}
