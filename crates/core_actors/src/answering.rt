ghost use Rattle.std.specs.Option.{option_to_list};
ghost use Rattle.std.specs.Prelude.{◌≡◌, IfOk, Some};
ghost use Rattle.btree_map.specs.Trees.{keys_in};
ghost use Rattle.vol_types.specs.KeyMaps.{answer_of, entry_at, entries_of, first_from, entries_within, key_of, keys_in as as_keys};

use btree_map::KeyMap;
use std::alloc::{AllocError, Global};
use std::collections::btree_map::Range;
use vol_types::{Btree, Duplicate, Key, Keys, Pos, Query, Value};

/// The keys that a query asks for. It costs a logarithm of the number of keys, and a copy of each key of the answer.
pub fn find_keys(alloc: Global, map: &KeyMap, query: &Query) -> Result<Keys, AllocError>
    ensures { IfOk result (λ keys. keys ≡ answer_of query.now (keys_in map.now)) }
{
    match *query {
        Query::At { btree, pos } => key_at(alloc, map, btree, &pos),
        Query::Starting { btree, pos } => key_from(alloc, map, btree, &pos),
        Query::Span { btree, first, last } => copy_keys(alloc, map.span(btree, &first, &last)),
    }
}

// The key at a position, if there is one.
fn key_at(alloc: Global, map: &KeyMap, btree: Btree, pos: &Pos) -> Result<Keys, AllocError>
    ensures { IfOk result (λ keys. keys ≡ as_keys (option_to_list (entry_at pos.now
        (entries_of (keys_in map.now) btree)))) }
{
    match map.get(btree, pos) {
        None => Ok(Keys::new(alloc)),
        Some(value) => one_key(alloc, pos, value),
    }
}

// The first key at a position or after it, if there is one.
fn key_from(alloc: Global, map: &KeyMap, btree: Btree, pos: &Pos) -> Result<Keys, AllocError>
    ensures { IfOk result (λ keys. keys ≡ as_keys (option_to_list (first_from pos.now
        (entries_of (keys_in map.now) btree)))) }
{
    match map.next_from(btree, pos) {
        None => Ok(Keys::new(alloc)),
        Some((pos, value)) => one_key(alloc, pos, value),
    }
}

// Copies of the values of a range, as keys.
fn copy_keys(alloc: Global, values: Range<'_, Pos, Value>) -> Result<Keys, AllocError>
    ensures { IfOk result (λ keys. keys ≡ as_keys values.entry) }
{
    let mut keys = Keys::new(alloc);
    for (pos, value) in values {
        keys.push(key(alloc, pos, value)?)?;
    }
    Ok(keys)
}

// A position with a copy of its value, as the only key.
fn one_key(alloc: Global, pos: &Pos, value: &Value) -> Result<Keys, AllocError>
    ensures { IfOk result (λ keys. keys ≡ as_keys (option_to_list (Some (pos.now, value.now)))) }
{
    let mut keys = Keys::new(alloc);
    keys.push(key(alloc, pos, value)?)?;
    Ok(keys)
}

// A position with a copy of its value, as a key.
fn key(alloc: Global, pos: &Pos, value: &Value) -> Result<Key, AllocError>
    ensures { IfOk result (λ key. key ≡ key_of (pos.now, value.now)) }
{
    Ok(Key {
        pos: *pos,
        value: Some(value.copy(alloc)?),
    })
}
