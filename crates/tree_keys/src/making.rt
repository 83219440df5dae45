ghost use Rattle.std.specs.Map.{keys_of, values_of};
ghost use Rattle.std.specs.Prelude.{◌≡◌, ◌↔◌, All, IfOk, IsTrue, option_copied};
ghost use Rattle.tree_keys.specs.Counts.{AreCounted};
ghost use Rattle.tree_keys.specs.Cuts.{AreEnds, Cut, IsCut, is_end};
ghost use Rattle.vol_types.specs.Maps.{IsMap};
ghost use Rattle.vol_types.specs.Positions.{greatest_pos, pos_cmp};
ghost use Rattle.vol_types.specs.Ranges.{IsAbove, IsValue, Rise};
ghost use Rattle.vol_types.specs.Widths.{PosFits};

use crate::copies::within;
use crate::leaves::{start_of, total};
use std::alloc::{AllocError, Global};
use std::collections::BTreeMap;
use vol_types::{Pos, SET_HEAD, Value, wide};

/// Whether all values are in range. It goes over all of them.
pub(crate) fn are_in_range(keys: &BTreeMap<Pos, Value>) -> bool
    ensures exact { IsTrue result ↔ All IsValue (values_of keys.now.entries) }
    ensures fit { IsTrue result → All PosFits (keys_of keys.now.entries) }
    ensures rises { IsMap pos_cmp keys.now.entries }
{
    for (pos, value) in keys.iter() {
        let _ = wide(pos);
        if !value.is_in_range() {
            return false;
        }
    }
    true
}

/// Whether positions are the ends of leaves.
pub(crate) fn are_ends(ends: &[Pos]) -> bool
    ensures { IsTrue result ↔ AreEnds ends.now }
{
    see_widths(ends);
    if !do_rise(ends) {
        return false;
    }
    has_greatest(ends)
}

// Each position has the widths of its parts.
fn see_widths(ends: &[Pos])
    ensures { All PosFits ends.now }
{
    for end in ends {
        let _ = wide(end);
    }
}

// Whether each position is above the one before it.
fn do_rise(ends: &[Pos]) -> bool
    ensures { IsTrue result ↔ Rise pos_cmp ends.now }
{
    let mut before = None;
    for end in ends {
        if !is_above(before, end) {
            return false;
        }
        before = Some(end);
    }
    true
}

fn is_above(before: Option<&Pos>, end: &Pos) -> bool
    ensures { IsTrue result ↔ IsAbove pos_cmp (option_copied before.entry) end.now }
{
    match before {
        None => true,
        Some(before) => before < end,
    }
}

// Whether the greatest position is one of these.
fn has_greatest(ends: &[Pos]) -> bool
    ensures { result ≡ is_end greatest_pos ends.now }
{
    for end in ends {
        if Pos::GREATEST.cmp(end).is_eq() {
            return true;
        }
    }
    false
}

/// The bytes of each leaf, under its end. It goes over all values once.
pub(crate) fn count_leaves(
    alloc: Global,
    keys: &BTreeMap<Pos, Value>,
    ends: &[Pos],
) -> Result<BTreeMap<Pos, u128>, AllocError>
    requires { IsCut (record { entries = keys.now.entries; ends = ends.now }) }
    ensures ends { IfOk result (λ leaves. keys_of leaves.entries ≡ ends.now) }
    ensures counted { IfOk result (λ leaves. AreCounted
        (record { entries = keys.now.entries; ends = ends.now }) leaves.entries) }
{
    // So few keys of so few bytes each fit 128 bits together.
    let count = keys.len();
    prove!(count < 1 << 63);
    let mut leaves = BTreeMap::new(alloc);
    for end in ends {
        let bytes = total(within(keys, &start_of(&leaves, end), end));
        leaves.insert(*end, SET_HEAD + bytes)?;
    }
    Ok(leaves)
}
