ghost use Rattle.std.specs.Prelude.{◌≡◌, ◌≤◌, ℕ, true, false, None, Some, OnOk, OnErr, IsSome};
ghost use Rattle.std.specs.Ordering.{nat_cmp};
ghost use Rattle.vol_types.specs.Maps.{IsMap, value_at, put_at};
ghost use Rattle.snap_tree.specs.Snaps.{Snaps, live_leaves};
ghost use Rattle.snap_tree.specs.Names.{IsIndex, has_pair};
ghost use Rattle.snap_tree.specs.Links.{HaveSameIds};
ghost use Rattle.snap_tree.specs.declared.change.Change.{Change as AChange};
ghost use Rattle.snap_tree.specs.Changes.{live_of, Leads, Tells, IsEntered, HasRoom, SettledAt, IsReady, given, picked};

use crate::change::Change;
use crate::greatest::{last, last_below};
use crate::links::{Links, make_room};
use crate::names::{Names, drop_names, note_names};
use crate::tree::is_live;
use std::alloc::AllocError;
use std::collections::BTreeMap;
use vol_types::Snap;

/// Makes changes to the records, to what they name and to the number of live leaves, and makes room for the links of new
/// ids. Out of memory leaves the records as they are.
pub(crate) fn make_changes(
    snaps: &mut BTreeMap<u32, Snap>,
    links: &mut BTreeMap<u32, Links>,
    pairs: &mut Names,
    live: &mut usize,
    changes: &BTreeMap<u32, Change>,
) -> Result<(), AllocError>
    requires rises { IsMap nat_cmp snaps.old.entries }
    requires index { IsIndex snaps.old.entries pairs.old.keys }
    requires ids { HaveSameIds snaps.old.entries links.old.entries }
    requires live { live.old ≡ live_leaves snaps.old.entries }
    requires tells { Tells snaps.old.entries changes.now.entries }
    ensures ok { OnOk result ((new : Snaps) → IsMap nat_cmp new
        → Leads snaps.old.entries new changes.now.entries → snaps.new.entries ≡ new) }
    ensures err { OnErr result (snaps.new.entries ≡ snaps.old.entries) }
    ensures index { IsIndex snaps.new.entries pairs.new.keys }
    ensures live { live.new ≡ live_leaves snaps.new.entries }
    ensures ids { HaveSameIds snaps.new.entries links.new.entries }
    ensures links { (id : ℕ) → IsSome (value_at nat_cmp id snaps.new.entries)
        → IsSome (value_at nat_cmp id links.old.entries) → value_at nat_cmp id links.new.entries
        ≡ value_at nat_cmp id links.old.entries }
{
    match enter(snaps, links, pairs, live, changes) {
        Ok(()) => {
            settle(snaps, links, pairs, live, changes, true);
            Ok(())
        }
        Err(error) => {
            settle(snaps, links, pairs, live, changes, false);
            Err(error)
        }
    }
}

// Makes room for changes.
fn enter(
    snaps: &mut BTreeMap<u32, Snap>,
    links: &mut BTreeMap<u32, Links>,
    pairs: &mut Names,
    live: &mut usize,
    changes: &BTreeMap<u32, Change>,
) -> Result<(), AllocError>
    requires rises { IsMap nat_cmp snaps.old.entries }
    requires live { live.old ≡ live_leaves snaps.old.entries }
    requires tells { Tells snaps.old.entries changes.now.entries }
    ensures entered { IsEntered changes.now.entries snaps.old.entries snaps.new.entries
        pairs.old.keys pairs.new.keys links.old.entries links.new.entries }
    ensures room { OnOk result ((id : ℕ) → HasRoom snaps.new.entries pairs.new.keys
        links.new.entries id (given (value_at nat_cmp id changes.now.entries))) }
    ensures live { live.new ≡ live_leaves snaps.new.entries }
{
    let mut next = last(changes);
    while let Some(id) = next {
        enter_one(snaps, links, pairs, live, changes, id)?;
        next = last_below(changes, id);
    }
    Ok(())
}

// Makes room for the change of an id, if there is one.
fn enter_one(
    snaps: &mut BTreeMap<u32, Snap>,
    links: &mut BTreeMap<u32, Links>,
    pairs: &mut Names,
    live: &mut usize,
    changes: &BTreeMap<u32, Change>,
    id: u32,
) -> Result<(), AllocError>
    requires rises { IsMap nat_cmp snaps.old.entries }
    requires live { live.old ≡ live_leaves snaps.old.entries }
    requires there { (change : AChange) → value_at nat_cmp id changes.now.entries ≡ Some change
        → IsSome change.old → IsSome (value_at nat_cmp id snaps.old.entries) }
    ensures entered { IsEntered changes.now.entries snaps.old.entries snaps.new.entries
        pairs.old.keys pairs.new.keys links.old.entries links.new.entries }
    ensures room { OnOk result (HasRoom snaps.new.entries pairs.new.keys links.new.entries id
        (given (value_at nat_cmp id changes.now.entries))) }
    ensures live { live.new ≡ live_leaves snaps.new.entries }
{
    let Some(change) = changes.get(&id) else {
        return Ok(());
    };
    let Some(new) = change.new else { return Ok(()) };
    note_names(pairs, id, new)?;
    make_room(links, id)?;
    if change.old.is_none() {
        set_record(snaps, live, id, Some(new))?;
    }
    Ok(())
}

// Gives each changed id the record of after its change, or of before it, for which there is room.
fn settle(
    snaps: &mut BTreeMap<u32, Snap>,
    links: &mut BTreeMap<u32, Links>,
    pairs: &mut Names,
    live: &mut usize,
    changes: &BTreeMap<u32, Change>,
    forth: bool,
)
    requires rises { IsMap nat_cmp snaps.old.entries }
    requires live { live.old ≡ live_leaves snaps.old.entries }
    requires ready { (id : ℕ) → IsReady forth snaps.old.entries id
        (value_at nat_cmp id changes.now.entries) }
    ensures rises { IsMap nat_cmp snaps.new.entries }
    ensures live { live.new ≡ live_leaves snaps.new.entries }
    ensures settled { (id : ℕ) → SettledAt forth snaps.old.entries snaps.new.entries pairs.old.keys
        pairs.new.keys links.old.entries links.new.entries id
        (value_at nat_cmp id changes.now.entries) }
{
    let mut next = last(changes);
    while let Some(id) = next {
        settle_one(snaps, links, pairs, live, changes, id, forth);
        next = last_below(changes, id);
    }
}

// Gives an id the record of after its change, or of before it, if it is changed.
fn settle_one(
    snaps: &mut BTreeMap<u32, Snap>,
    links: &mut BTreeMap<u32, Links>,
    pairs: &mut Names,
    live: &mut usize,
    changes: &BTreeMap<u32, Change>,
    id: u32,
    forth: bool,
)
    requires rises { IsMap nat_cmp snaps.old.entries }
    requires live { live.old ≡ live_leaves snaps.old.entries }
    requires ready { IsReady forth snaps.old.entries id (value_at nat_cmp id changes.now.entries) }
    ensures rises { IsMap nat_cmp snaps.new.entries }
    ensures live { live.new ≡ live_leaves snaps.new.entries }
    ensures settled { SettledAt forth snaps.old.entries snaps.new.entries pairs.old.keys
        pairs.new.keys links.old.entries links.new.entries id
        (value_at nat_cmp id changes.now.entries) }
    ensures others { (other : ℕ) → ¬ (other ≡ id) → value_at nat_cmp other snaps.new.entries
        ≡ value_at nat_cmp other snaps.old.entries }
    ensures pairs { (named other : ℕ) → ¬ (other ≡ id) → has_pair pairs.new.keys named other
        ≡ has_pair pairs.old.keys named other }
    ensures links { (other : ℕ) → ¬ (other ≡ id) → value_at nat_cmp other links.new.entries
        ≡ value_at nat_cmp other links.old.entries }
{
    let Some(change) = changes.get(&id) else {
        return;
    };
    let stays = picked(change, forth);
    let gone = picked(change, !forth);
    drop_names(pairs, id, gone, stays);
    if set_record(snaps, live, id, stays).is_err() {
        unreachable!()
    }
    if stays.is_none() {
        links.remove(&id);
    }
}

// The record after a change, or before it.
fn picked(change: &Change, forth: bool) -> Option<Snap>
    ensures { result ≡ picked forth change.now }
{
    if forth { change.new } else { change.old }
}

// Gives an id this record, or none, and counts the live leaves.
fn set_record(
    snaps: &mut BTreeMap<u32, Snap>,
    live: &mut usize,
    id: u32,
    snap: Option<Snap>,
) -> Result<(), AllocError>
    requires rises { IsMap nat_cmp snaps.old.entries }
    requires live { live.old ≡ live_leaves snaps.old.entries }
    ensures ok { OnOk result (snaps.new.entries ≡ put_at nat_cmp id snap snaps.old.entries) }
    ensures err { OnErr result (snaps.new.entries ≡ snaps.old.entries) }
    ensures absent { OnErr result (value_at nat_cmp id snaps.old.entries ≡ None) }
    ensures new { OnErr result (IsSome snap) }
    ensures live { live.new ≡ live_leaves snaps.new.entries }
{
    // So few ids fit 64 bits.
    let count = snaps.len();
    prove!(count < 1 << 63);
    let old = snaps.get(&id).copied();
    put_record(snaps, id, snap)?;
    *live = *live + live_of(snap) - live_of(old);
    Ok(())
}

// Gives an id this record, or none.
fn put_record(
    snaps: &mut BTreeMap<u32, Snap>,
    id: u32,
    snap: Option<Snap>,
) -> Result<(), AllocError>
    ensures ok { OnOk result (snaps.new.entries ≡ put_at nat_cmp id snap snaps.old.entries) }
    ensures err { OnErr result (snaps.new.entries ≡ snaps.old.entries) }
    ensures absent { OnErr result (value_at nat_cmp id snaps.old.entries ≡ None) }
    ensures new { OnErr result (IsSome snap) }
{
    match snap {
        None => {
            snaps.remove(&id);
        }
        Some(snap) => {
            snaps.insert(id, snap)?;
        }
    }
    Ok(())
}

// How many live leaves a record is.
fn live_of(snap: Option<Snap>) -> usize
    ensures exact { result ≡ live_of snap }
    ensures few { result ≤ 1 }
{
    match snap {
        Some(snap) if is_live(snap.state) => 1,
        _ => 0,
    }
}
