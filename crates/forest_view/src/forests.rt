ghost use Rattle.std.specs.Prelude.{◌≡◌, IfOk, OnOk, Some};
ghost use Rattle.btree_map.specs.Trees.{keys_in};
ghost use Rattle.key_meaning.specs.Forest.{forest_in};
ghost use Rattle.key_meaning.specs.Visible.{snaps_of};
ghost use Rattle.vol_types.specs.declared.positions.Btree.TheVariants.{Subvols};
ghost use Rattle.vol_types.specs.KeyMaps.{entries_of};
ghost use Rattle.forest_view.specs.Meant.{IsMeant, no_blocks};
ghost use Rattle.forest_view.specs.Subvolumes.{with_sub, with_subs, with_subs_at, with_subvolumes};

use crate::chains::snaps_of;
use crate::counters::{client_counters, ids_left};
use crate::nearest::all_keys;
use crate::trees::tree_of;
use btree_map::KeyMap;
use forest_ops::Forest;
use std::alloc::{AllocError, Global};
use std::collections::BTreeMap;
use vol_digest::slot;
use vol_types::{Btree, Pos, Snap, Sub, Value};

/// The forest that a key map means, with zeros for the bytes of files, since no block is read. It is that forest whatever the
/// keys are, sound or not, if only no client's counter stands above 2^48: a forest holds none above it. An `Err` is out of
/// memory; it would also come where a count of names is at the end of `u32`.
///
/// It goes over the snapshot ids once, and then for each subvolume once over the keys of inodes and once over those of names.
/// Each key costs some logarithms, of the length of the subvolume's chain of ids and of the numbers of keys. Each name that
/// shows costs a digest besides, and each file its bytes.
pub fn forest_of(alloc: Global, map: &KeyMap) -> Result<Forest, AllocError>
    ensures { IfOk result (λ forest. IsMeant (keys_in map.now)
        → forest ≡ forest_in (keys_in map.now) no_blocks) }
{
    // The keys of each btree rise.
    let _ = map.height(Btree::Subvols);
    let snaps = snaps_of(alloc, map)?;
    let mut forest = Forest::bare(alloc, client_counters(map), ids_left(map));
    insert_subvolumes(alloc, map, &snaps, &mut forest)?;
    Ok(forest)
}

// Inserts all subvolumes, where the snapshot ids have these records.
fn insert_subvolumes(
    alloc: Global,
    map: &KeyMap,
    snaps: &BTreeMap<u64, Snap>,
    forest: &mut Forest,
) -> Result<(), AllocError>
    requires { snaps.now.entries ≡ snaps_of (keys_in map.now) }
    ensures { OnOk result (forest.new ≡ with_subvolumes (keys_in map.now)
        (entries_of (keys_in map.now) Subvols) forest.old) }
{
    for (pos, value) in all_keys(map, Btree::Subvols) {
        insert_subs_at(alloc, map, snaps, pos, value, forest)?;
    }
    Ok(())
}

// Inserts the subvolumes of a value, if it stands at the place of a slot.
fn insert_subs_at(
    alloc: Global,
    map: &KeyMap,
    snaps: &BTreeMap<u64, Snap>,
    pos: &Pos,
    value: &Value,
    forest: &mut Forest,
) -> Result<(), AllocError>
    requires { snaps.now.entries ≡ snaps_of (keys_in map.now) }
    ensures { OnOk result (forest.new ≡ with_subs_at (keys_in map.now) (pos.now, value.now)
        forest.old) }
{
    if pos.inode != 0 || pos.snapshot != 0 {
        return Ok(());
    }
    match value {
        Value::Subs(subs) => insert_subs(alloc, map, snaps, pos.offset, subs.as_slice(), forest),
        _ => Ok(()),
    }
}

// Inserts those of some subvolumes that stand under their slot.
fn insert_subs(
    alloc: Global,
    map: &KeyMap,
    snaps: &BTreeMap<u64, Snap>,
    stands: u64,
    subs: &[Sub],
    forest: &mut Forest,
) -> Result<(), AllocError>
    requires { snaps.now.entries ≡ snaps_of (keys_in map.now) }
    ensures { OnOk result (forest.new ≡ with_subs (keys_in map.now) stands subs.now forest.old) }
{
    for sub in subs {
        insert_sub(alloc, map, snaps, stands, sub, forest)?;
    }
    Ok(())
}

// Inserts a subvolume with its tree, if it stands under its slot.
fn insert_sub(
    alloc: Global,
    map: &KeyMap,
    snaps: &BTreeMap<u64, Snap>,
    stands: u64,
    sub: &Sub,
    forest: &mut Forest,
) -> Result<(), AllocError>
    requires { snaps.now.entries ≡ snaps_of (keys_in map.now) }
    ensures { OnOk result (forest.new ≡ with_sub (keys_in map.now) stands sub.now forest.old) }
{
    let slot = slot(sub.name.as_slice());
    if slot != stands {
        return Ok(());
    }
    let tree = tree_of(alloc, map, snaps, sub)?;
    forest.insert_subvolume(&sub.name, slot, tree)
}
