ghost use Rattle.std.specs.Prelude.{◌≡◌, ◌<◌, ℕ, true, IsSome, IfSome};
ghost use Rattle.std.specs.Ordering.{nat_cmp};
ghost use Rattle.vol_types.specs.Maps.{value_at};
ghost use Rattle.snap_tree.specs.Links.{IsPast};
ghost use Rattle.snap_tree.specs.Names.{has_id};

use std::collections::{BTreeMap, BTreeSet};

/// The greatest id of a map.
pub(crate) fn last<V>(map: &BTreeMap<u32, V>) -> Option<u32>
    ensures there { IfSome result (λ last. IsSome (value_at nat_cmp last map.now.entries)) }
    ensures greatest { (id : ℕ) → IsPast result id → ¬ IsSome (value_at nat_cmp id map.now.entries) }
{
    match map.last_key_value() {
        None => None,
        Some((id, _)) => Some(*id),
    }
}

/// The greatest id of a map below a number.
pub(crate) fn last_below<V>(map: &BTreeMap<u32, V>, bound: u32) -> Option<u32>
    ensures within { IfSome result (λ last. last < bound) }
    ensures there { IfSome result (λ last. IsSome (value_at nat_cmp last map.now.entries)) }
    ensures greatest { (id : ℕ) → id < bound → IsPast result id
        → ¬ IsSome (value_at nat_cmp id map.now.entries) }
{
    match map.range(..bound).next_back() {
        None => None,
        Some((id, _)) => Some(*id),
    }
}

/// The greatest id of a set.
pub(crate) fn last_id(ids: &BTreeSet<u32>) -> Option<u32>
    ensures there { IfSome result (λ last. has_id ids.now.keys last ≡ true) }
    ensures greatest { (id : ℕ) → IsPast result id → ¬ (has_id ids.now.keys id ≡ true) }
{
    match ids.last() {
        None => None,
        Some(id) => Some(*id),
    }
}

/// The greatest id of a set below a number.
pub(crate) fn last_id_below(ids: &BTreeSet<u32>, bound: u32) -> Option<u32>
    ensures within { IfSome result (λ last. last < bound) }
    ensures there { IfSome result (λ last. has_id ids.now.keys last ≡ true) }
    ensures greatest { (id : ℕ) → id < bound → IsPast result id → ¬ (has_id ids.now.keys id ≡ true) }
{
    match ids.range(..bound).next_back() {
        None => None,
        Some(id) => Some(*id),
    }
}
