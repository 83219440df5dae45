ghost use Rattle.std.specs.Prelude.{◌≡◌, All, IfOk, map};
ghost use Rattle.std.specs.Map.{values_of};
ghost use Rattle.vol_types.specs.KeyMaps.{keys_in};
ghost use Rattle.vol_types.specs.Maps.{IsMap};
ghost use Rattle.vol_types.specs.Positions.{pos_cmp};
ghost use Rattle.vol_types.specs.Ranges.{IsValue, IsKeyValue};
ghost use Rattle.vol_types.specs.Sets.{set_length_of};
ghost use Rattle.node_mem.specs.Counts.{IsCounted};
ghost use Rattle.node_mem.specs.Nodes.{with_keys};

use crate::Change;
use crate::lengths::{borrowed_length, length_so_far};
use std::alloc::{AllocError, Global};
use std::collections::BTreeMap;
use vol_types::{Pos, Value};

/// How many bytes the entries take as one set after the changes, by how many they take before them.
pub(crate) fn bytes_after<C: Change>(
    alloc: Global,
    entries: &BTreeMap<Pos, Value>,
    bytes: u128,
    changes: &[C],
) -> Result<u128, AllocError>
    requires counted { IsCounted entries.now.entries bytes }
    requires rises { IsMap pos_cmp entries.now.entries }
    requires values { All IsValue (values_of entries.now.entries) }
    requires in_range { All (λ change. IsKeyValue (C.key change).value) changes.now }
    ensures { IfOk result (λ after. after ≡ set_length_of
        (keys_in (with_keys (map C.key changes.now) entries.now.entries))) }
{
    // So few keys of so few bytes each fit 128 bits together.
    let (count, more) = (entries.len(), changes.len());
    prove!(count < 1 << 63 && more <= usize::MAX);
    // The length of the key at each position that was changed so far.
    let mut lengths = BTreeMap::new(alloc);
    let mut after = bytes;
    for change in changes {
        let pos = *change.pos();
        let added = borrowed_length(change.value());
        let before = length_so_far(&lengths, entries, &pos);
        lengths.insert(pos, added)?;
        after = after + added as u128 - before as u128;
    }
    Ok(after)
}
