ghost use Rattle.std.specs.Prelude.{◌≡◌, All, IfOk, IsTrue, OnOk, false, map};
ghost use Rattle.std.specs.List.{list_all};
ghost use Rattle.std.specs.Map.{values_of};
ghost use Rattle.btree_map.specs.Trees.{keys_in};
ghost use Rattle.dirty_nodes.specs.Ids.{are_id_places, changes_ids, id_trees, is_id_place, is_placed, trees_of};
ghost use Rattle.vol_types.specs.KeyMaps.{IsKeyMap, KeyMap as AKeyMap, entries_of, is_update_of, keys_in as as_keys, with_updates};
ghost use Rattle.vol_types.specs.Maps.{put_at, with_value};
ghost use Rattle.vol_types.specs.Positions.{pos_cmp};
ghost use Rattle.vol_types.specs.Standing.{IsUpdate, MayStand};
ghost use Rattle.vol_types.specs.declared.positions.Btree.TheVariants.{Snapshots};

use btree_map::KeyMap;
use snap_tree::{SnapFault, SnapTree};
use std::alloc::{AllocError, Global};
use std::collections::BTreeMap;
use vol_types::{Btree, Duplicate, Key, Keys, Pos, Update, Updates, Value};

/// Whether updates change the record of a snapshot id.
pub fn changes_ids(updates: &[Update]) -> bool
    ensures { result ≡ changes_ids updates.now }
{
    updates.iter().any(is_of_id)
}

/// The snapshot ids that a key map will have after updates, as trees; without ids where they form none. It goes over all ids, and
/// each costs some 40 logarithms of their number.
pub fn trees_after(alloc: Global, map: &KeyMap, updates: &[Update]) -> Result<SnapTree, AllocError>
    requires { All IsUpdate updates.now }
    ensures { IfOk result (λ tree. tree ≡ id_trees (with_updates updates.now (keys_in map.now))) }
{
    let snaps = records_after(alloc, map, updates)?;
    tree_of(alloc, snaps)
}

/// Makes updates to the records of snapshot ids in their trees, in place, and passes over those of other keys: the trees of
/// a key map become those that it has after the updates. `false` says that it couldn't, and the trees are as they were: they
/// had no id, an update of an id's record isn't at that id's place, the records would form no trees, or memory lacked. Then
/// `trees_after` makes them anew.
///
/// It costs what `SnapTree::apply` does: a few logarithms of the number of ids for each update, and 32 for each id that is
/// new or gets another parent, and for each below one of these.
pub fn ids_updated(tree: &mut SnapTree, updates: &Updates) -> bool
    requires { All IsUpdate updates.now }
    ensures made { IsTrue result → (keys : AKeyMap) → IsKeyMap keys → tree.old ≡ id_trees keys
        → tree.new ≡ id_trees (with_updates updates.now keys) }
    ensures kept { result ≡ false → tree.new ≡ tree.old }
{
    // Trees without ids may stand for records that form none.
    if tree.is_empty() {
        return false;
    }
    if !are_placed(updates.as_slice()) {
        return false;
    }
    tree.apply(updates).is_ok()
}

// The ids of records as trees; without ids where they form none.
fn tree_of(alloc: Global, snaps: BTreeMap<Pos, Value>) -> Result<SnapTree, AllocError>
    requires { All (MayStand Snapshots 0) (values_of snaps.entries) }
    ensures { IfOk result (λ tree. tree ≡ trees_of snaps.entries) }
{
    if !are_id_places(&snaps) {
        return Ok(SnapTree::new(alloc));
    }
    let keys = keys_of(alloc, snaps)?;
    match SnapTree::of(alloc, &keys) {
        Ok(tree) => Ok(tree),
        Err(SnapFault::NoMemory) => Err(AllocError),
        Err(_) => Ok(SnapTree::new(alloc)),
    }
}

// Whether an update is one of the record of an id.
fn is_of_id(update: &Update) -> bool
    ensures { result ≡ is_update_of Snapshots update.now }
{
    if update.level != 0 {
        return false;
    }
    update.btree.code() == Btree::Snapshots.code()
}

// Whether all updates of the records of ids are at places of ids.
fn are_placed(updates: &[Update]) -> bool
    ensures { result ≡ list_all is_placed updates.now }
{
    updates.iter().all(is_placed)
}

// Whether an update is at the place of an id, if it is one of the record of an id.
fn is_placed(update: &Update) -> bool
    ensures { result ≡ is_placed update.now }
{
    if !is_of_id(update) {
        return true;
    }
    is_id_place(&update.pos)
}

// The records of ids after updates, each at its position.
fn records_after(
    alloc: Global,
    map: &KeyMap,
    updates: &[Update],
) -> Result<BTreeMap<Pos, Value>, AllocError>
    requires { All IsUpdate updates.now }
    ensures records { IfOk result (λ snaps. snaps.entries ≡ entries_of
        (with_updates updates.now (keys_in map.now)) Snapshots) }
    ensures stand { IfOk result (λ snaps. All (MayStand Snapshots 0) (values_of snaps.entries)) }
{
    // Each record of an id may stand there.
    let _ = map.height(Btree::Snapshots);
    let mut snaps = records_of(alloc, map)?;
    for update in updates {
        if is_of_id(update) {
            put(alloc, &mut snaps, update)?;
        }
    }
    Ok(snaps)
}

// The records of ids, each at its position.
#[tactic(auto, using(vol_types::specs::CopyLaws::copy_more))]
fn records_of(alloc: Global, map: &KeyMap) -> Result<BTreeMap<Pos, Value>, AllocError>
    ensures { IfOk result (λ snaps. snaps.entries ≡ entries_of (keys_in map.now) Snapshots) }
{
    // The positions have their widths.
    let _ = map.height(Btree::Snapshots);
    let mut snaps = BTreeMap::new(alloc);
    for (pos, value) in map.span(Btree::Snapshots, &Pos::LEAST, &Pos::GREATEST) {
        add(alloc, &mut snaps, pos, value)?;
    }
    Ok(snaps)
}

// Adds a copy of a value.
fn add(
    alloc: Global,
    values: &mut BTreeMap<Pos, Value>,
    pos: &Pos,
    value: &Value,
) -> Result<(), AllocError>
    ensures { OnOk result (values.new.entries ≡ with_value pos_cmp pos.now value.now
        values.old.entries) }
{
    let copy = value.copy(alloc)?;
    let before = values.insert(*pos, copy)?;
    drop(before);
    Ok(())
}

// Makes an update of the values.
fn put(alloc: Global, values: &mut BTreeMap<Pos, Value>, update: &Update) -> Result<(), AllocError>
    ensures { OnOk result (values.new.entries ≡ put_at pos_cmp update.now.pos update.now.value
        values.old.entries) }
{
    match &update.value {
        None => {
            let before = values.remove(&update.pos);
            drop(before);
            Ok(())
        }
        Some(value) => add(alloc, values, &update.pos, value),
    }
}

// Whether all values stand where records of ids may.
fn are_id_places(values: &BTreeMap<Pos, Value>) -> bool
    ensures { result ≡ are_id_places values.now.entries }
{
    for (pos, _) in values.iter() {
        if !is_id_place(pos) {
            return false;
        }
    }
    true
}

// Whether the record of an id may stand at a position.
fn is_id_place(pos: &Pos) -> bool
    ensures { result ≡ is_id_place pos.now }
{
    if pos.inode != 0 {
        return false;
    }
    if pos.offset > u64::from(u32::MAX) {
        return false;
    }
    pos.snapshot == 0
}

// The values as keys.
fn keys_of(alloc: Global, values: BTreeMap<Pos, Value>) -> Result<Keys, AllocError>
    ensures { IfOk result (λ keys. keys ≡ as_keys values.entries) }
{
    let mut keys = Keys::new(alloc);
    for (pos, value) in values {
        keys.push(Key {
            pos,
            value: Some(value),
        })?;
    }
    Ok(keys)
}
