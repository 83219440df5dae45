ghost use Rattle.std.specs.Prelude.{◌≡◌, true, false, All, IfOk, is_some};
ghost use Rattle.std.specs.Ordering.{nat_cmp};
ghost use Rattle.vol_types.specs.Maps.{IsMap, value_at};
ghost use Rattle.snap_tree.specs.Snaps.{Snaps, IsSnapTree, snap_of, is_there, is_joined, are_trees};
ghost use Rattle.snap_tree.specs.Names.{IsIndex};
ghost use Rattle.snap_tree.specs.Updates.{IsFitting, snaps_after};
ghost use Rattle.snap_tree.specs.Changes.{changed_id, Leads, AreSmall, IsLetGo, IsHeld, ChangeFits};

use crate::greatest::{last, last_below};
use crate::names::{Names, namer_below, namer_up_to};
use std::alloc::{AllocError, Global};
use std::collections::BTreeMap;
use vol_types::{Btree, Snap, Update, Updates, Value};

/// The record that an id had, and the one that it gets.
#[derive(Clone, Copy)]
pub(crate) struct Change {
    pub(crate) old: Option<Snap>,
    pub(crate) new: Option<Snap>,
}

/// The changes that updates make, each id once.
pub(crate) fn changes_of(
    alloc: Global,
    snaps: &BTreeMap<u32, Snap>,
    updates: &Updates,
) -> Result<BTreeMap<u32, Change>, AllocError>
    requires fitting { All IsFitting updates.now }
    requires rises { IsMap nat_cmp snaps.now.entries }
    ensures { IfOk result (λ changes. Leads snaps.now.entries
        (snaps_after snaps.now.entries updates.now) changes.entries) }
{
    let mut changes = BTreeMap::new(alloc);
    for update in updates.as_slice() {
        if let Some(id) = changed_id(update) {
            let old = snaps.get(&id).copied();
            let new = snap_in(update);
            changes.insert(id, Change { old, new })?;
        }
    }
    Ok(changes)
}

// The id that an update changes, if it changes one.
fn changed_id(update: &Update) -> Option<u32>
    requires { IsFitting update.now }
    ensures { result ≡ changed_id update.now }
{
    if update.btree != Btree::Snapshots || update.level != 0 {
        return None;
    }
    Some(update.pos.offset as u32)
}

// The record that an update gives its id, if it gives one.
fn snap_in(update: &Update) -> Option<Snap>
    ensures { result ≡ snap_of update.now.value }
{
    match &update.value {
        Some(Value::Snap(snap)) => Some(*snap),
        _ => None,
    }
}

/// Whether the records that changes lead to make trees. It looks at the changed ids and at those that name the ones that go.
pub(crate) fn will_stand(
    snaps: &BTreeMap<u32, Snap>,
    pairs: &Names,
    changes: &BTreeMap<u32, Change>,
) -> bool
    requires tree { IsSnapTree snaps.now.entries }
    requires index { IsIndex snaps.now.entries pairs.now.keys }
    requires small { AreSmall snaps.now.entries }
    ensures { (new : Snaps) → IsMap nat_cmp new → Leads snaps.now.entries new changes.now.entries
        → result ≡ are_trees new }
{
    let mut next = last(changes);
    while let Some(id) = next {
        if !will_fit(snaps, pairs, changes, id) {
            return false;
        }
        next = last_below(changes, id);
    }
    true
}

// Whether the change of an id, if there is one, fits the records that all changes lead to.
fn will_fit(
    snaps: &BTreeMap<u32, Snap>,
    pairs: &Names,
    changes: &BTreeMap<u32, Change>,
    id: u32,
) -> bool
    requires index { IsIndex snaps.now.entries pairs.now.keys }
    ensures fits { result ≡ true → (new : Snaps) → Leads snaps.now.entries new changes.now.entries
        → ChangeFits new pairs.now.keys changes.now.entries id
        (value_at nat_cmp id changes.now.entries) }
    ensures breaks { result ≡ false → (new : Snaps) → Leads snaps.now.entries new
        changes.now.entries → are_trees new ≡ false }
{
    let Some(change) = changes.get(&id) else {
        return true;
    };
    match change.new {
        Some(snap) => will_join(snaps, changes, id, snap),
        None => is_let_go(pairs, changes, id),
    }
}

// Whether all ids whose records name an id are changed.
fn is_let_go(pairs: &Names, changes: &BTreeMap<u32, Change>, id: u32) -> bool
    ensures yes { result ≡ true → IsLetGo pairs.now.keys changes.now.entries id }
    ensures no { result ≡ false → IsHeld pairs.now.keys changes.now.entries id }
{
    let mut next = namer_up_to(pairs, id, u32::MAX);
    while let Some(namer) = next {
        if !changes.contains_key(&namer) {
            return false;
        }
        next = namer_below(pairs, id, namer);
    }
    true
}

// Whether a record of an id is joined to those that it names, once the changes are made.
fn will_join(
    snaps: &BTreeMap<u32, Snap>,
    changes: &BTreeMap<u32, Change>,
    id: u32,
    snap: Snap,
) -> bool
    ensures { (new : Snaps) → Leads snaps.now.entries new changes.now.entries
        → result ≡ is_joined new id snap }
{
    will_be_there(snaps, changes, snap.parent)
        && (snap.parent == 0 || id < snap.parent)
        && will_be_there(snaps, changes, snap.first_child)
        && will_be_there(snaps, changes, snap.second_child)
}

// Whether a number is 0, which stands for no id, or an id that is there once the changes are made.
fn will_be_there(snaps: &BTreeMap<u32, Snap>, changes: &BTreeMap<u32, Change>, id: u32) -> bool
    ensures { (new : Snaps) → Leads snaps.now.entries new changes.now.entries
        → result ≡ is_there new id }
{
    id == 0 || will_have(snaps, changes, id)
}

// Whether an id is there once the changes are made.
fn will_have(snaps: &BTreeMap<u32, Snap>, changes: &BTreeMap<u32, Change>, id: u32) -> bool
    ensures { (new : Snaps) → Leads snaps.now.entries new changes.now.entries
        → result ≡ is_some (value_at nat_cmp id new) }
{
    match changes.get(&id) {
        Some(change) => change.new.is_some(),
        None => snaps.contains_key(&id),
    }
}
