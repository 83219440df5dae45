ghost use Rattle.std.specs.Prelude.{◌≡◌, IsSome, IfOk, OnOk, OnErr};
ghost use Rattle.vol_types.specs.Maps.{value_at, put_at, IsMap};
ghost use Rattle.vol_types.specs.Positions.{pos_cmp};
ghost use Rattle.vol_types.specs.KeyMaps.{keys_in};

use std::alloc::{AllocError, Global};
use std::collections::BTreeMap;
use vol_types::{Duplicate, Key, Keys, Pos, Value};

/// Puts a value at a position or takes it away, and gives the one that was there. An `Err` changes nothing.
pub fn exchange(
    entries: &mut BTreeMap<Pos, Value>,
    pos: Pos,
    value: Option<Value>,
) -> Result<Option<Value>, AllocError>
    ensures before { IfOk result (λ before. before ≡ value_at pos_cmp pos entries.old.entries) }
    ensures rises { IsMap pos_cmp entries.new.entries }
    ensures ok { OnOk result (entries.new.entries ≡ put_at pos_cmp pos value entries.old.entries) }
    ensures err { OnErr result (entries.new.entries ≡ entries.old.entries) }
    ensures put { OnErr result (IsSome value) }
    ensures absent { OnErr result (value_at pos_cmp pos entries.old.entries ≡ None) }
{
    match value {
        None => Ok(entries.remove(&pos)),
        Some(value) => Ok(entries.insert(pos, value)?),
    }
}

/// The entries as keys, in their order. It copies each value.
pub fn copy_keys(alloc: Global, entries: &BTreeMap<Pos, Value>) -> Result<Keys, AllocError>
    ensures { IfOk result (λ keys. keys ≡ keys_in entries.now.entries) }
{
    let mut keys = Keys::new(alloc);
    for (pos, value) in entries.iter() {
        keys.push(Key {
            pos: *pos,
            value: Some(value.copy(alloc)?),
        })?;
    }
    Ok(keys)
}
