ghost use Rattle.std.specs.Map.{keys_of};
ghost use Rattle.std.specs.Prelude.{◌≡◌, ◌-◌, ◌<◌, ◌^◌, All, IfOk, length, map, min, unwrap_or};
ghost use Rattle.tree_keys.specs.Counts.{AreCounted};
ghost use Rattle.tree_keys.specs.Cuts.{Cut, IsCut};
ghost use Rattle.tree_keys.specs.Sizes.{IsSized};
ghost use Rattle.vol_types.specs.Maps.{value_at};
ghost use Rattle.vol_types.specs.Positions.{pos_cmp};
ghost use Rattle.vol_types.specs.Ranges.{IsKeyValue};

use crate::leaves::{clamped, leaf_at};
use node_mem::Change;
use node_mem::lengths::{borrowed_length, length_so_far};
use std::alloc::{AllocError, Global};
use std::collections::BTreeMap;
use vol_types::{Listing, Pos, Value, wide};

/// The end of a leaf, and how many bytes it takes on disk as one set, or 2^32 - 1 where they are more.
#[derive(Clone, Copy, PartialEq, Eq)]
pub struct LeafSize {
    pub end: Pos,
    pub size: u32,
}

/// How many bytes each leaf that a change touches would take after the changes, under its end.
pub(crate) fn bytes_after<C: Change>(
    alloc: Global,
    keys: &BTreeMap<Pos, Value>,
    leaves: &BTreeMap<Pos, u128>,
    changes: &[C],
) -> Result<BTreeMap<Pos, u128>, AllocError>
    requires cut { IsCut (record { entries = keys.now.entries; ends = keys_of leaves.now.entries }) }
    requires counted { AreCounted (record {
      entries = keys.now.entries;
      ends = keys_of
          leaves.now.entries;
    }) leaves.now.entries }
    requires in_range { All (λ change. IsKeyValue (C.key change).value) changes.now }
    ensures { IfOk result (λ sizes. IsSized (record
        { entries = keys.now.entries; ends = keys_of leaves.now.entries }) (map C.key changes.now)
        sizes.entries) }
{
    // So few keys of so few bytes each fit 128 bits together.
    let (count, more) = (keys.len(), changes.len());
    prove!(count < 1 << 63 && more <= usize::MAX);
    // The length of the key at each position that was changed so far.
    let mut lengths = BTreeMap::new(alloc);
    let mut sizes = BTreeMap::new(alloc);
    for change in changes {
        let pos = wide(change.pos());
        let added = borrowed_length(change.value());
        let before = length_so_far(&lengths, keys, &pos);
        lengths.insert(pos, added)?;
        let (end, counted) = leaf_at(leaves, &pos);
        let bytes = bytes_so_far(&sizes, &end, counted);
        sizes.insert(end, bytes + added as u128 - before as u128)?;
    }
    Ok(sizes)
}

// How many bytes a leaf takes after some changes, or before them where none touched it.
fn bytes_so_far(sizes: &BTreeMap<Pos, u128>, end: &Pos, counted: u128) -> u128
    ensures { result ≡ unwrap_or (value_at pos_cmp end.now sizes.now.entries) counted }
{
    match sizes.get(end) {
        None => counted,
        Some(bytes) => *bytes,
    }
}

/// The sizes in the order of the leaves.
pub(crate) fn listed(
    alloc: Global,
    sizes: &BTreeMap<Pos, u128>,
) -> Result<Listing<LeafSize>, AllocError>
    ensures { IfOk result (λ list. list ≡ map (λ entry. record
        { end = entry.0; size = min entry.1 (2 ^ 32 - 1) }) sizes.now.entries) }
{
    let mut list = Listing::new(alloc);
    for (end, bytes) in sizes.iter() {
        list.push(LeafSize {
            end: *end,
            size: clamped(*bytes),
        })?;
    }
    Ok(list)
}
