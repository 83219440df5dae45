ghost use Rattle.std.specs.Map.{keys_of, values_of};
ghost use Rattle.std.specs.Prelude.{◌≡◌, ◌-◌, ◌<◌, ◌^◌, length, min, All, Some, IsSome, IfOk};
ghost use Rattle.node_mem.specs.Counts.{lengths_of};
ghost use Rattle.tree_keys.specs.Cuts.{AreEnds, end_before, end_of, start_of};
ghost use Rattle.vol_types.specs.Maps.{value_at, with_value};
ghost use Rattle.vol_types.specs.Positions.{pos_cmp};
ghost use Rattle.vol_types.specs.Ranges.{IsValue};

use std::alloc::{AllocError, Global};
use std::collections::{BTreeMap, btree_map};
use vol_types::{Pos, Value, key_length, wide};

/// The end of the leaf that covers a position, and its bytes.
pub(crate) fn leaf_at(leaves: &BTreeMap<Pos, u128>, pos: &Pos) -> (Pos, u128)
    requires { AreEnds (keys_of leaves.now.entries) }
    ensures end { result.0 ≡ end_of pos.now (keys_of leaves.now.entries) }
    ensures bytes { value_at pos_cmp result.0 leaves.now.entries ≡ Some result.1 }
{
    let pos = wide(pos);
    match leaves.range(pos..).next() {
        None => unreachable!(),
        Some((end, bytes)) => (*end, *bytes),
    }
}

/// The last end before a position, if there is one.
pub(crate) fn end_before(leaves: &BTreeMap<Pos, u128>, pos: &Pos) -> Option<Pos>
    ensures { result ≡ end_before pos.now (keys_of leaves.now.entries) }
{
    match leaves.range(..*pos).next_back() {
        None => None,
        Some((end, _)) => Some(*end),
    }
}

/// The first position that the leaf with this end covers.
pub(crate) fn start_of(leaves: &BTreeMap<Pos, u128>, end: &Pos) -> Pos
    ensures { result ≡ start_of end.now (keys_of leaves.now.entries) }
{
    match end_before(leaves, end) {
        None => Pos::LEAST,
        Some(before) => before.next().unwrap_or(Pos::LEAST),
    }
}

/// Sets the bytes of the leaf with this end.
pub(crate) fn set_bytes(leaves: &mut BTreeMap<Pos, u128>, end: Pos, bytes: u128)
    requires { IsSome (value_at pos_cmp end leaves.old.entries) }
    ensures bytes { leaves.new.entries ≡ with_value pos_cmp end bytes leaves.old.entries }
    ensures ends { keys_of leaves.new.entries ≡ keys_of leaves.old.entries }
{
    if leaves.insert(end, bytes).is_err() {
        unreachable!()
    }
}

/// The bytes as a size of 32 bits, or 2^32 - 1 where they are more.
pub(crate) fn clamped(bytes: u128) -> u32
    ensures { result ≡ min bytes (2 ^ 32 - 1) }
{
    u32::try_from(bytes).unwrap_or(u32::MAX)
}

/// How many bytes the values of a range take as keys. It goes over all of them.
pub(crate) fn total(values: btree_map::Range<'_, Pos, Value>) -> u128
    requires few { length values < 2 ^ 63 }
    requires in_range { All IsValue (values_of values) }
    ensures { result ≡ lengths_of values.entry }
{
    let mut bytes: u128 = 0;
    for (_, value) in values {
        bytes += key_length(Some(value)) as u128;
    }
    bytes
}

/// An equal map. It goes over all leaves, and takes memory for each.
#[tactic(auto, using(vol_types::specs::CopyLaws::copy_more))]
pub(crate) fn copy_leaves(
    alloc: Global,
    leaves: &BTreeMap<Pos, u128>,
) -> Result<BTreeMap<Pos, u128>, AllocError>
    ensures { IfOk result (λ copy. copy.entries ≡ leaves.now.entries) }
{
    let mut copy = BTreeMap::new(alloc);
    for (end, bytes) in leaves.iter() {
        copy.insert(*end, *bytes)?;
    }
    Ok(copy)
}
