ghost use Rattle.std.specs.Prelude.{◌≡◌, IfOk, OnOk, Some};
ghost use Rattle.std.specs.Ordering.{nat_cmp};
ghost use Rattle.btree_map.specs.Trees.{keys_in};
ghost use Rattle.key_meaning.specs.Visible.{snaps_of};
ghost use Rattle.snap_tree.specs.Snaps.{chain_of, snap_of, with_snap};
ghost use Rattle.vol_types.specs.Maps.{IsMap};

use crate::nearest::all_keys;
use btree_map::KeyMap;
use std::alloc::{AllocError, Global};
use std::collections::{BTreeMap, BTreeSet};
use vol_types::{Btree, Snap, Value};

/// The records of the snapshot ids of a key map, by the numbers at which they stand.
pub(crate) fn snaps_of(alloc: Global, map: &KeyMap) -> Result<BTreeMap<u64, Snap>, AllocError>
    ensures { IfOk result (λ snaps. snaps.entries ≡ snaps_of (keys_in map.now)) }
{
    let mut snaps = BTreeMap::new(alloc);
    for (pos, value) in all_keys(map, Btree::Snapshots) {
        insert_snap(&mut snaps, pos.offset, value)?;
    }
    Ok(snaps)
}

// Puts a record under its id.
fn insert_snap(snaps: &mut BTreeMap<u64, Snap>, id: u64, value: &Value) -> Result<(), AllocError>
    ensures { OnOk result (snaps.new.entries ≡ with_snap id (snap_of (Some value.now))
        snaps.old.entries) }
{
    match value {
        Value::Snap(snap) => {
            snaps.insert(id, *snap)?;
            Ok(())
        }
        _ => Ok(()),
    }
}

/// An id, its parent, its grandparent and so on, as long as they are there and rise. Each costs a logarithm of the number of
/// ids.
pub(crate) fn chain_of(
    alloc: Global,
    snaps: &BTreeMap<u64, Snap>,
    id: u32,
) -> Result<BTreeSet<u32>, AllocError>
    requires { IsMap nat_cmp snaps.now.entries }
    ensures { IfOk result (λ chain. chain.keys ≡ chain_of snaps.now.entries id) }
{
    let mut chain = BTreeSet::new(alloc);
    let mut at = id;
    while let Some(snap) = snaps.get(&u64::from(at)) {
        chain.insert(at)?;
        if snap.parent <= at {
            return Ok(chain);
        }
        at = snap.parent;
    }
    Ok(chain)
}
