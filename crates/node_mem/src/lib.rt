//! A node of a btree in memory: the values of a range of positions, and how many bytes they take on disk.
#![tactic(auto)]

ghost use Rattle.std.specs.Prelude.{◌≡◌, ◌++◌, [], length, map, All, option_copied, option_map, IsSome, IfOk, OnOk, OnErr};
ghost use Rattle.std.specs.Map.Iter.{deref_pair};
ghost use Rattle.vol_types.specs.KeyMaps.{keys_in, first_from, entries_within};
ghost use Rattle.vol_types.specs.Maps.{value_at, put_at};
ghost use Rattle.vol_types.specs.Positions.{pos_cmp, next_pos, IsBefore, IsWithin};
ghost use Rattle.vol_types.specs.Ranges.{IsKeyValue};
ghost use Rattle.node_mem.specs.Nodes.{IsNode, with_keys, entries_after, entries_up_to, first_of, last_of, middle_of, size_of};

mod changes;
pub mod entries;
mod laws;
pub mod lengths;
mod positions;
mod sizing;

use crate::entries::{copy_keys, exchange};
use crate::lengths::{length, total};
use crate::positions::middle_after;
use crate::sizing::bytes_after;
pub use changes::Change;
pub use laws::{keys_are_merged, middles_halve, nodes_are_sets, puts_are_counted};
use std::alloc::{AllocError, Global};
use std::collections::{BTreeMap, btree_map};
use std::marker::Model;
use std::ops::Bound;
use vol_types::{Duplicate, Key, Keys, Pos, SET_HEAD, Value, copy_map, follower, wide};

/// The values of a node, each at its position, in order. Each call that looks for a position, puts or removes takes steps
/// that grow with the logarithm of their number. `size`, `len`, `least` and `greatest` only look.
#[derive(Drop)]
pub struct NodeMem {
    least: Pos,
    greatest: Pos,
    entries: BTreeMap<Pos, Value>,
    /// How many bytes the node takes as one set.
    bytes: u128,
}

impl Model for NodeMem {
    ghost use Rattle.std.specs.Prelude.{All};
    ghost use Rattle.std.specs.Map.{keys_of};
    ghost use Rattle.vol_types.specs.Widths.{PosFits};
    ghost use Rattle.node_mem.specs.Counts.{IsCounted};
    ghost use Rattle.node_mem.specs.Nodes.{Node, IsNode};

    ghost Value = { Node };

    ghost view = { λ node. record { least = node.least; greatest = node.greatest; entries = node.entries.entries } };

    ghost invariant = { λ node. IsNode (record { least = node.least; greatest = node.greatest; entries = node.entries.entries }) × IsCounted node.entries.entries node.bytes × All PosFits (keys_of node.entries.entries) };
}

impl NodeMem {
    /// A node without values, which covers the positions from the least to the greatest one. It takes no memory.
    pub fn new(alloc: Global, least: &Pos, greatest: &Pos) -> Result<NodeMem, AllocError>
        ensures { IfOk result (λ node. node ≡ record
            { least = least.now; greatest = greatest.now; entries = [] }) }
    {
        Ok(NodeMem {
            least: *least,
            greatest: *greatest,
            entries: BTreeMap::new(alloc),
            bytes: SET_HEAD,
        })
    }

    /// The least position that the node covers.
    pub fn least(&self) -> Pos
        ensures { result ≡ self.now.least }
    {
        self.least
    }

    /// The greatest position that the node covers.
    pub fn greatest(&self) -> Pos
        ensures { result ≡ self.now.greatest }
    {
        self.greatest
    }

    /// How many values there are.
    pub fn len(&self) -> usize
        ensures exact { result ≡ length self.now.entries }
        ensures sound { IsNode self.now }
    {
        self.entries.len()
    }

    /// How many bytes the node takes on disk as one set, or 2^32 - 1 where they are more.
    pub fn size(&self) -> u32
        ensures exact { result ≡ size_of self.now.entries }
        ensures sound { IsNode self.now }
    {
        u32::try_from(self.bytes).unwrap_or(u32::MAX)
    }

    /// The value at a position.
    pub fn get(&self, pos: &Pos) -> Option<&Value>
        ensures { option_copied result ≡ value_at pos_cmp pos.now self.now.entries }
    {
        self.entries.get(pos)
    }

    /// The first value at this position or after it, with its position.
    pub fn next_from(&self, pos: &Pos) -> Option<(&Pos, &Value)>
        ensures { option_map deref_pair result ≡ first_from pos.now self.now.entries }
    {
        self.entries.range(*pos..).next()
    }

    /// The first value strictly after this position, with its position.
    pub fn next_after(&self, pos: &Pos) -> Option<(&Pos, &Value)>
        ensures { option_map deref_pair result ≡ first_of (entries_after pos.now self.now.entries) }
    {
        self.entries
            .range((Bound::Excluded(*pos), Bound::Unbounded))
            .next()
    }

    /// The last value at this position or before it, with its position.
    pub fn last_up_to(&self, pos: &Pos) -> Option<(&Pos, &Value)>
        ensures { option_map deref_pair result ≡ last_of (entries_up_to pos.now self.now.entries) }
    {
        self.entries.range(..=*pos).next_back()
    }

    /// All values, each with its position, in order.
    pub fn iter(&self) -> btree_map::Iter<'_, Pos, Value>
        ensures { result ≡ self.now.entries }
    {
        self.entries.iter()
    }

    /// The values from the first position to the last one, both included, in order. There are none where the first is
    /// after the last. A step costs no more than that of `iter`.
    pub fn range(&self, first: &Pos, last: &Pos) -> btree_map::Range<'_, Pos, Value>
        ensures { result ≡ entries_within first.now last.now self.now.entries }
    {
        if first > last {
            return self.entries.range(*first..*first);
        }
        self.entries
            .range((Bound::Included(*first), Bound::Included(*last)))
    }

    /// The middle one of the positions of two or more values, which is not the last: a split there halves their number.
    /// It goes over half of the values.
    pub fn middle(&self) -> Option<Pos>
        ensures { result ≡ middle_of self.now.entries }
    {
        let count = self.entries.len();
        if count < 2 {
            return None;
        }
        self.entries.keys().nth((count - 1) / 2).copied()
    }

    /// Puts a value at a position, whether or not there was one, or takes it away where none is given, and gives the
    /// value that was there. Only a value at a position that had none takes memory. It goes over the names of both
    /// values for their lengths.
    pub fn put(&mut self, pos: &Pos, value: Option<Value>) -> Result<Option<Value>, AllocError>
        requires covered { IsWithin self.old.least self.old.greatest pos.now }
        requires in_range { IsKeyValue value }
        ensures before { IfOk result (λ before. before ≡ value_at pos_cmp pos.now self.old.entries) }
        ensures ok { OnOk result (self.new ≡ record {
          least = self.old.least;
          greatest = self.old.greatest;
          entries = put_at pos_cmp pos.now value self.old.entries;
        }) }
        // After an `Err` the node is as before. It comes only where a value is put at a position that has none.
        ensures err { OnErr result (self.new ≡ self.old) }
        ensures put { OnErr result (IsSome value) }
        ensures absent { OnErr result (value_at pos_cmp pos.now self.old.entries ≡ None) }
    {
        // So few keys of so few bytes each fit 128 bits together.
        let count = self.entries.len();
        prove!(count < 1 << 63);
        let added = length(&value);
        let pos = wide(pos);
        let before = exchange(&mut self.entries, pos, value)?;
        self.bytes = self.bytes + added as u128 - length(&before) as u128;
        Ok(before)
    }

    /// Takes the value at a position away, and gives it. It takes no memory.
    pub fn remove(&mut self, pos: &Pos) -> Option<Value>
        ensures before { result ≡ value_at pos_cmp pos.now self.old.entries }
        ensures after { self.new ≡ record {
          least = self.old.least;
          greatest = self.old.greatest;
          entries = put_at pos_cmp pos.now None self.old.entries;
        } }
    {
        let before = self.entries.remove(pos);
        self.bytes -= length(&before) as u128;
        before
    }

    /// Splits the node after a position that it covers, which isn't its greatest one: what stands up to the position stays,
    /// and what stands after it comes back as a node of its own, whose range begins with the next position. It goes over
    /// the values that leave.
    pub fn split_off(&mut self, at: &Pos) -> Result<NodeMem, AllocError>
        requires covered { IsWithin self.old.least self.old.greatest at.now }
        requires before { IsBefore at.now self.old.greatest }
        ensures stays { OnOk result (self.new ≡ record {
          least = self.old.least;
          greatest = at.now;
          entries = entries_up_to at.now self.old.entries;
        }) }
        ensures follows { IfOk result (λ second. next_pos at.now ≡ Some second.least) }
        ensures ends { IfOk result (λ second. second.greatest ≡ self.old.greatest) }
        ensures goes { IfOk result (λ second. second.entries ≡ entries_after at.now
            self.old.entries) }
        ensures whole { IfOk result (λ second. self.old.entries
            ≡ self.new.entries ++ second.entries) }
        // After an `Err` the node is as before.
        ensures err { OnErr result (self.new ≡ self.old) }
    {
        let next = follower(at, &self.greatest);
        let entries = self.entries.split_off(&next)?;
        let bytes = total(&entries);
        let second = NodeMem {
            least: next,
            greatest: self.greatest,
            entries,
            bytes: SET_HEAD + bytes,
        };
        self.greatest = *at;
        self.bytes -= bytes;
        Ok(second)
    }

    /// All values as keys, in their order. It copies each value.
    pub fn keys(&self, alloc: Global) -> Result<Keys, AllocError>
        ensures { IfOk result (λ keys. keys ≡ keys_in self.now.entries) }
    {
        copy_keys(alloc, &self.entries)
    }

    /// How many bytes the node would take on disk as one set after the changes, a later one of a position over an
    /// earlier one, or 2^32 - 1 where they would be more. It makes none of them, and doesn't go over the node: it takes a
    /// few steps for each change, times a logarithm, and memory for each position that is changed.
    pub fn size_after<C: Change>(&self, alloc: Global, changes: &[C]) -> Result<u32, AllocError>
        requires { All (λ change. IsKeyValue (C.key change).value) changes.now }
        ensures { IfOk result (λ size. size ≡ size_of
            (with_keys (map C.key changes.now) self.now.entries)) }
    {
        let bytes = bytes_after(alloc, &self.entries, self.bytes, changes)?;
        Ok(u32::try_from(bytes).unwrap_or(u32::MAX))
    }

    /// The middle one of the positions that the node would hold after the changes, as `middle` says. It makes none of them,
    /// and goes over the positions of the node, with memory for each.
    pub fn middle_after<C: Change>(
        &self,
        alloc: Global,
        changes: &[C],
    ) -> Result<Option<Pos>, AllocError>
        ensures { IfOk result (λ at. at ≡ middle_of
            (with_keys (map C.key changes.now) self.now.entries)) }
    {
        middle_after(alloc, &self.entries, changes)
    }

    // Puts the key's value at its position, or takes the one there away.
    fn put_key(&mut self, key: Key) -> Result<(), AllocError>
        requires covered { IsWithin self.old.least self.old.greatest key.pos }
        requires in_range { IsKeyValue key.value }
        ensures { OnOk result (self.new ≡ record {
          least = self.old.least;
          greatest = self.old.greatest;
          entries = put_at pos_cmp key.pos key.value self.old.entries;
        }) }
    {
        let Key { pos, value } = key;
        self.put(&pos, value)?;
        Ok(())
    }

    /// The node with each key put in turn, or taken away where it has no value, so that a later one of a position counts.
    /// It costs as much as a `put` for each key.
    pub fn merged(mut self, keys: Keys) -> Result<NodeMem, AllocError>
        requires covered { All (λ key. IsWithin self.least self.greatest key.pos) keys }
        requires in_range { All (λ key. IsKeyValue key.value) keys }
        ensures { IfOk result (λ node. node ≡ record {
          least = self.least;
          greatest = self.greatest;
          entries = with_keys keys self.entries;
        }) }
    {
        for key in Vec::from(keys) {
            self.put_key(key)?;
        }
        Ok(self)
    }
}

impl Duplicate for NodeMem {
    fn copy(&self, alloc: Global) -> Result<Self, AllocError> {
        Ok(NodeMem {
            least: self.least,
            greatest: self.greatest,
            entries: copy_map(alloc, &self.entries)?,
            bytes: self.bytes,
        })
    }
}
