ghost use Rattle.std.specs.Map.{keys_of, values_of};
ghost use Rattle.std.specs.Prelude.{◌≡◌, ◌<◌, ◌^◌, All, IfOk, OnOk, Some, length, option_copied, slice_get};
ghost use Rattle.vol_types.specs.KeyMaps.{entries_within};
ghost use Rattle.vol_types.specs.Maps.{IsMap, put_at};
ghost use Rattle.vol_types.specs.Positions.{IsWithin, pos_cmp};
ghost use Rattle.vol_types.specs.Ranges.{IsValue};

use node_mem::NodeMem;
use std::alloc::{AllocError, Global};
use std::collections::{BTreeMap, btree_map};
use std::ops::Bound;
use vol_types::{Duplicate, Pos, Value};

/// The values from the first position to the last one, both included. There are none where the first is after the last.
pub(crate) fn within<'a>(
    keys: &'a BTreeMap<Pos, Value>,
    first: &Pos,
    last: &Pos,
) -> btree_map::Range<'a, Pos, Value>
    ensures { result ≡ entries_within first.now last.now keys.now.entries }
{
    if first > last {
        return keys.range(*first..*first);
    }
    keys.range((Bound::Included(*first), Bound::Included(*last)))
}

/// Copies of the values of a range, as a node that covers it.
pub(crate) fn copy_range(
    alloc: Global,
    least: &Pos,
    greatest: &Pos,
    values: btree_map::Range<'_, Pos, Value>,
) -> Result<NodeMem, AllocError>
    requires rises { IsMap pos_cmp values }
    requires covered { All (IsWithin least.now greatest.now) (keys_of values) }
    requires in_range { All IsValue (values_of values) }
    ensures { IfOk result (λ node. node ≡ record {
      least = least.now;
      greatest = greatest.now;
      entries = values.entry;
    }) }
{
    let mut node = NodeMem::new(alloc, least, greatest)?;
    for (pos, value) in values {
        put_copy(alloc, &mut node, pos, value)?;
    }
    Ok(node)
}

// Puts a copy of a value into a node that covers its position.
fn put_copy(alloc: Global, node: &mut NodeMem, pos: &Pos, value: &Value) -> Result<(), AllocError>
    requires covered { IsWithin node.old.least node.old.greatest pos.now }
    requires in_range { IsValue value.now }
    ensures { OnOk result (node.new ≡ record {
      least = node.old.least;
      greatest = node.old.greatest;
      entries = put_at pos_cmp pos.now (Some value.now) node.old.entries;
    }) }
{
    node.put(pos, Some(value.copy(alloc)?))?;
    Ok(())
}

/// A copy of a value that is borrowed, if there is one.
pub(crate) fn copy_borrowed(
    alloc: Global,
    value: Option<&Value>,
) -> Result<Option<Value>, AllocError>
    ensures { IfOk result (λ copy. copy ≡ option_copied value.entry) }
{
    match value {
        None => Ok(None),
        Some(value) => Ok(Some(value.copy(alloc)?)),
    }
}

/// How many values a range has. It goes over all of them.
pub(crate) fn count_values(values: btree_map::Range<'_, Pos, Value>) -> usize
    requires { length values < 2 ^ 63 }
    ensures { result ≡ length values.entry }
{
    let mut count = 0;
    for _ in values {
        count += 1;
    }
    count
}

/// The position at a place of a range, which counts from 0. It goes over the values before it.
pub(crate) fn position_at(values: btree_map::Range<'_, Pos, Value>, place: usize) -> Option<Pos>
    ensures { result ≡ slice_get (keys_of values.entry) place }
{
    let mut left = place;
    for (pos, _) in values {
        if left == 0 {
            return Some(*pos);
        }
        left -= 1;
    }
    None
}
