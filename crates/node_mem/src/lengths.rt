ghost use Rattle.std.specs.Prelude.{◌≡◌, ◌+◌, ◌<◌, ◌^◌, All, option_copied, unwrap_or};
ghost use Rattle.std.specs.Map.{values_of};
ghost use Rattle.vol_types.specs.Positions.{pos_cmp};
ghost use Rattle.vol_types.specs.Maps.{value_at};
ghost use Rattle.vol_types.specs.Ranges.{IsValue, IsKeyValue};
ghost use Rattle.node_mem.specs.Counts.{length_of, lengths_of};

use std::collections::BTreeMap;
use vol_types::{Pos, Value, key_length};

/// How many bytes a value takes as a key, or none where there is none.
pub fn length(value: &Option<Value>) -> u32
    requires { IsKeyValue value.now }
    ensures { result ≡ length_of value.now }
{
    match value {
        None => 0,
        Some(value) => key_length(Some(value)),
    }
}

/// The same of a value that is borrowed.
pub fn borrowed_length(value: Option<&Value>) -> u32
    requires { IsKeyValue (option_copied value) }
    ensures { result ≡ length_of (option_copied value.entry) }
{
    match value {
        None => 0,
        Some(value) => key_length(Some(value)),
    }
}

/// How many bytes the value at a position takes as a key, or none where there is none.
pub fn length_at(entries: &BTreeMap<Pos, Value>, pos: &Pos) -> u32
    requires { All IsValue (values_of entries.now.entries) }
    ensures { result ≡ length_of (value_at pos_cmp pos.now entries.now.entries) }
{
    borrowed_length(entries.get(pos))
}

/// How many bytes the key at a position takes after some changes, by those at the positions that were changed.
pub fn length_so_far(lengths: &BTreeMap<Pos, u32>, entries: &BTreeMap<Pos, Value>, pos: &Pos) -> u32
    requires { All IsValue (values_of entries.now.entries) }
    ensures { result ≡ unwrap_or (value_at pos_cmp pos.now lengths.now.entries)
        (length_of (value_at pos_cmp pos.now entries.now.entries)) }
{
    match lengths.get(pos) {
        Some(length) => *length,
        None => length_at(entries, pos),
    }
}

/// How many bytes the entries take as keys. It goes over all of them.
pub fn total(entries: &BTreeMap<Pos, Value>) -> u128
    requires { All IsValue (values_of entries.now.entries) }
    ensures { result ≡ lengths_of entries.now.entries }
{
    let mut bytes: u128 = 0;
    for value in entries.values() {
        bytes += key_length(Some(value)) as u128;
    }
    bytes
}
