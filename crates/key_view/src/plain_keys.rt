ghost use Rattle.std.specs.Option.{option_to_list};
ghost use Rattle.std.specs.Prelude.{◌≡◌, ◌∷◌, ◌++◌, [], IfOk, OnOk};
ghost use Rattle.vol_types.specs.KeyMaps.{answer_of, entries_of, entries_within, entry_at, first_from, key_of, keys_in};

use std::alloc::{AllocError, Global};
use std::collections::{BTreeMap, btree_map};
use std::ops::Bound;
use vol_types::{Btree, Duplicate, Key, Keys, Pos, Query, Value};

/// A key map in memory: for each btree the values at their positions.
#[derive(Drop)]
pub struct PlainKeys {
    pub extents: BTreeMap<Pos, Value>,
    pub inodes: BTreeMap<Pos, Value>,
    pub dirents: BTreeMap<Pos, Value>,
    pub subvols: BTreeMap<Pos, Value>,
    pub snapshots: BTreeMap<Pos, Value>,
    pub alloc: BTreeMap<Pos, Value>,
    pub backptrs: BTreeMap<Pos, Value>,
    pub deleted: BTreeMap<Pos, Value>,
    pub counters: BTreeMap<Pos, Value>,
}

impl PlainKeys {
    ghost use Rattle.key_view.specs.Plain.{key_map_of, no_keys};

    /// The key map without keys. It takes no memory.
    pub fn new(alloc: Global) -> PlainKeys
        ensures { key_map_of result ≡ no_keys }
    {
        PlainKeys {
            extents: BTreeMap::new(alloc),
            inodes: BTreeMap::new(alloc),
            dirents: BTreeMap::new(alloc),
            subvols: BTreeMap::new(alloc),
            snapshots: BTreeMap::new(alloc),
            alloc: BTreeMap::new(alloc),
            backptrs: BTreeMap::new(alloc),
            deleted: BTreeMap::new(alloc),
            counters: BTreeMap::new(alloc),
        }
    }

    /// The values of a btree.
    pub fn values(&self, btree: Btree) -> &BTreeMap<Pos, Value>
        ensures { result.now.entries ≡ entries_of (key_map_of self.now) btree }
    {
        match btree {
            Btree::Extents => &self.extents,
            Btree::Inodes => &self.inodes,
            Btree::Dirents => &self.dirents,
            Btree::Subvols => &self.subvols,
            Btree::Snapshots => &self.snapshots,
            Btree::Alloc => &self.alloc,
            Btree::Backptrs => &self.backptrs,
            Btree::Deleted => &self.deleted,
            Btree::Counters => &self.counters,
        }
    }

    /// The keys that a query asks for. It costs a logarithm of the number of keys, and a copy of each key of the answer.
    pub fn answer(&self, alloc: Global, query: &Query) -> Result<Keys, AllocError>
        ensures { IfOk result (λ answer. answer ≡ answer_of query.now (key_map_of self.now)) }
    {
        match *query {
            Query::At { btree, pos } => key_at(alloc, self.values(btree), pos),
            Query::Starting { btree, pos } => key_from(alloc, self.values(btree), pos),
            Query::Span { btree, first, last } => keys_within(
                alloc,
                self.values(btree),
                first,
                last,
            ),
        }
    }
}

// The key at a position, if there is one.
fn key_at(alloc: Global, values: &BTreeMap<Pos, Value>, pos: Pos) -> Result<Keys, AllocError>
    ensures { IfOk result (λ keys. keys ≡ keys_in (option_to_list (entry_at pos values.now.entries))) }
{
    match values.get(&pos) {
        None => Ok(Keys::new(alloc)),
        Some(value) => one_key(alloc, pos, value),
    }
}

// The first key at a position or after it, if there is one.
fn key_from(alloc: Global, values: &BTreeMap<Pos, Value>, pos: Pos) -> Result<Keys, AllocError>
    ensures { IfOk result (λ keys. keys ≡ keys_in (option_to_list (first_from pos values.now.entries))) }
{
    match values.range(pos..).next() {
        None => Ok(Keys::new(alloc)),
        Some((pos, value)) => one_key(alloc, *pos, value),
    }
}

// The keys from the first position to the last one, both included.
fn keys_within(
    alloc: Global,
    values: &BTreeMap<Pos, Value>,
    first: Pos,
    last: Pos,
) -> Result<Keys, AllocError>
    ensures { IfOk result (λ keys. keys ≡ keys_in (entries_within first last values.now.entries)) }
{
    if first > last {
        return Ok(Keys::new(alloc));
    }
    copy_keys(
        alloc,
        values.range((Bound::Included(first), Bound::Included(last))),
    )
}

// Copies of the values of a range, as keys.
fn copy_keys(alloc: Global, values: btree_map::Range<'_, Pos, Value>) -> Result<Keys, AllocError>
    ensures { IfOk result (λ keys. keys ≡ keys_in values.entry) }
{
    let mut keys = Keys::new(alloc);
    for (pos, value) in values {
        push_copy(alloc, &mut keys, *pos, value)?;
    }
    Ok(keys)
}

// A position with a copy of its value, as the only key.
fn one_key(alloc: Global, pos: Pos, value: &Value) -> Result<Keys, AllocError>
    ensures { IfOk result (λ keys. keys ≡ key_of (pos, value.now) ∷ []) }
{
    let mut keys = Keys::new(alloc);
    push_copy(alloc, &mut keys, pos, value)?;
    Ok(keys)
}

// Adds a position with a copy of its value.
fn push_copy(alloc: Global, keys: &mut Keys, pos: Pos, value: &Value) -> Result<(), AllocError>
    ensures { OnOk result (keys.new ≡ keys.old ++ key_of (pos, value.now) ∷ []) }
{
    let value = value.copy(alloc)?;
    keys.push(Key {
        pos,
        value: Some(value),
    })?;
    Ok(())
}
