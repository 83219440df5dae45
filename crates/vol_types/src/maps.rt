ghost use Rattle.std.specs.Prelude.{◌≡◌, [], IfOk, OnOk};
ghost use Rattle.std.specs.BTreeMap.{insert_entry};

use crate::Duplicate;
use std::alloc::{AllocError, Global};
use std::collections::BTreeMap;

/// An equal map. It goes over all entries, and takes memory for each.
pub fn copy_map<K: Ord + Duplicate, V: Duplicate>(
    alloc: Global,
    map: &BTreeMap<K, V>,
) -> Result<BTreeMap<K, V>, AllocError>
    ensures { IfOk result (λ copy. copy.entries ≡ map.now.entries) }
{
    let mut copy = BTreeMap::new(alloc);
    match add_entries(alloc, map, &mut copy) {
        Ok(()) => Ok(copy),
        Err(failed) => {
            drop(copy);
            Err(failed)
        }
    }
}

// Copies of all entries into an empty map.
#[tactic(auto, using(crate::specs::CopyLaws::copy_more))]
fn add_entries<K: Ord + Duplicate, V: Duplicate>(
    alloc: Global,
    map: &BTreeMap<K, V>,
    copy: &mut BTreeMap<K, V>,
) -> Result<(), AllocError>
    requires { copy.old.entries ≡ [] }
    ensures { OnOk result (copy.new.entries ≡ map.now.entries) }
{
    for (key, value) in map.iter() {
        add_entry(alloc, copy, key, value)?;
    }
    Ok(())
}

fn add_entry<K: Ord + Duplicate, V: Duplicate>(
    alloc: Global,
    copy: &mut BTreeMap<K, V>,
    key: &K,
    value: &V,
) -> Result<(), AllocError>
    ensures { OnOk result (copy.new.entries ≡ insert_entry K.cmp copy.old.entries key.now value.now) }
{
    let key = key.copy(alloc)?;
    match value.copy(alloc) {
        Ok(value) => {
            drop(copy.insert(key, value)?);
            Ok(())
        }
        Err(failed) => {
            drop(key);
            Err(failed)
        }
    }
}
