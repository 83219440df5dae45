ghost use Rattle.std.specs.Prelude.{◌≡◌, ◌⊎◌, ℕ, true, false, Some, IfOk, OnOk};
ghost use Rattle.std.specs.Ordering.{nat_cmp};
ghost use Rattle.vol_types.specs.Maps.{value_at};
ghost use Rattle.snap_tree.specs.Snaps.{IsSnapTree};
ghost use Rattle.snap_tree.specs.Names.{IsIndex, has_id};
ghost use Rattle.snap_tree.specs.Changes.{AreSmall, HasMoved, HasChildren, IsChildOf, IsBelowMoved, is_moved};

use crate::change::Change;
use crate::greatest::{last, last_below, last_id, last_id_below};
use crate::names::{Names, namer_below, namer_up_to};
use std::alloc::{AllocError, Global};
use std::collections::{BTreeMap, BTreeSet};
use vol_types::Snap;

/// The ids whose links changes make wrong: those that are new or get another parent, and all below them. Each of them, and
/// each id whose record names one, costs a few logarithms of the number of all ids.
pub(crate) fn stale_of(
    alloc: Global,
    snaps: &BTreeMap<u32, Snap>,
    pairs: &Names,
    changes: &BTreeMap<u32, Change>,
) -> Result<BTreeSet<u32>, AllocError>
    requires tree { IsSnapTree snaps.now.entries }
    requires index { IsIndex snaps.now.entries pairs.now.keys }
    requires small { AreSmall snaps.now.entries }
    ensures moved { IfOk result (λ stale. HasMoved changes.now.entries stale.keys) }
    ensures few { IfOk result (λ stale. (id : ℕ) → has_id stale.keys id ≡ true
        → IsBelowMoved snaps.now.entries changes.now.entries stale.keys id) }
    ensures closed { IfOk result (λ stale. (id : ℕ) → HasChildren snaps.now.entries stale.keys id) }
{
    let mut stale = moved_ids(alloc, changes)?;
    let mut next = last_id(&stale);
    while let Some(id) = next {
        add_children(snaps, pairs, &mut stale, id)?;
        next = last_id_below(&stale, id);
    }
    Ok(stale)
}

// The ids that changes make new, or give another parent.
fn moved_ids(alloc: Global, changes: &BTreeMap<u32, Change>) -> Result<BTreeSet<u32>, AllocError>
    ensures all { IfOk result (λ ids. HasMoved changes.now.entries ids.keys) }
    ensures only { IfOk result (λ ids. (id : ℕ) → has_id ids.keys id ≡ true
        → is_moved (value_at nat_cmp id changes.now.entries) ≡ true) }
{
    let mut ids = BTreeSet::new(alloc);
    let mut next = last(changes);
    while let Some(id) = next {
        if is_moved_in(changes, id) {
            ids.insert(id)?;
        }
        next = last_below(changes, id);
    }
    Ok(ids)
}

// Whether a change makes an id new, or gives it another parent.
fn is_moved_in(changes: &BTreeMap<u32, Change>, id: u32) -> bool
    ensures { result ≡ is_moved (value_at nat_cmp id changes.now.entries) }
{
    match changes.get(&id) {
        None => false,
        Some(change) => is_moved(change.old, change.new),
    }
}

// Whether the second record makes an id new, or gives it another parent.
fn is_moved(old: Option<Snap>, new: Option<Snap>) -> bool
    ensures { result ≡ is_moved (Some (record { old = old; new = new })) }
{
    let Some(new) = new else { return false };
    match old {
        None => true,
        Some(old) => old.parent != new.parent,
    }
}

// Adds the ids whose parent is this.
fn add_children(
    snaps: &BTreeMap<u32, Snap>,
    pairs: &Names,
    ids: &mut BTreeSet<u32>,
    parent: u32,
) -> Result<(), AllocError>
    requires index { IsIndex snaps.now.entries pairs.now.keys }
    requires small { AreSmall snaps.now.entries }
    ensures ok { OnOk result ((id : ℕ) → IsChildOf snaps.now.entries parent id
        → has_id ids.new.keys id ≡ true) }
    ensures kept { (id : ℕ) → has_id ids.old.keys id ≡ true → has_id ids.new.keys id ≡ true }
    ensures only { (id : ℕ) → has_id ids.new.keys id ≡ true → (has_id ids.old.keys id ≡ true)
        ⊎ IsChildOf snaps.now.entries parent id }
{
    let mut next = namer_up_to(pairs, parent, u32::MAX);
    while let Some(id) = next {
        add_child(snaps, ids, parent, id)?;
        next = namer_below(pairs, parent, id);
    }
    Ok(())
}

// Adds an id if its parent is this.
fn add_child(
    snaps: &BTreeMap<u32, Snap>,
    ids: &mut BTreeSet<u32>,
    parent: u32,
    id: u32,
) -> Result<(), AllocError>
    ensures ok { OnOk result (IsChildOf snaps.now.entries parent id → has_id ids.new.keys id ≡ true) }
    ensures kept { (other : ℕ) → has_id ids.old.keys other ≡ true → has_id ids.new.keys other ≡ true }
    ensures only { (other : ℕ) → has_id ids.new.keys other ≡ true
        → (has_id ids.old.keys other ≡ true) ⊎ IsChildOf snaps.now.entries parent other }
{
    if is_child(snaps, parent, id) {
        ids.insert(id)?;
    }
    Ok(())
}

// Whether the parent of an id is this.
fn is_child(snaps: &BTreeMap<u32, Snap>, parent: u32, id: u32) -> bool
    ensures yes { result ≡ true → IsChildOf snaps.now.entries parent id }
    ensures no { result ≡ false → ¬ IsChildOf snaps.now.entries parent id }
{
    match snaps.get(&id) {
        None => false,
        Some(snap) => parent != 0 && snap.parent == parent,
    }
}
