//! The keys of one btree in memory: its values in the order of their positions, cut into leaves, and how many bytes each
//! leaf takes on disk. One map holds all values, so a look-up, the next key and a span need no leaf, and a cut moves none.
#![tactic(auto)]

ghost use Rattle.std.specs.Map.Iter.{deref_pair};
ghost use Rattle.std.specs.Prelude.{◌≡◌, ◌==◌, ◌∷◌, [], length, false, if◌then◌else◌, option_copied, option_map, map, ◌↔◌, true, All, IfSome, Some, None, IsSome, IfOk, OnOk, OnErr};
ghost use Rattle.node_mem.specs.Nodes.{entries_after, entries_up_to, first_of, last_of, middle_of, with_keys};
ghost use Rattle.tree_keys.specs.Changes.{values_before};
ghost use Rattle.tree_keys.specs.Counts.{leaf_size};
ghost use Rattle.tree_keys.specs.Cuts.{IsCut, cut_at, end_of, is_end, joined_at, leaf_entries, start_of, with_entries};
ghost use Rattle.tree_keys.specs.Sizes.{sizes_after};
ghost use Rattle.vol_types.specs.KeyMaps.{entries_within, first_from};
ghost use Rattle.vol_types.specs.Maps.{value_at, put_at};
ghost use Rattle.vol_types.specs.Positions.{IsBefore, greatest_pos, pos_cmp};
ghost use Rattle.vol_types.specs.Ranges.{IsKeyValue};

mod changing;
mod copies;
mod laws;
mod leaves;
mod making;
mod planned;
mod sizing;

use crate::changing::NetChanges;
use crate::copies::{copy_range, count_values, position_at, within};
use crate::leaves::{clamped, copy_leaves, leaf_at, set_bytes, start_of, total};
use crate::making::{are_ends, are_in_range, count_leaves};
use crate::sizing::{bytes_after, listed};
pub use laws::{
    changes_are_made, changes_stay_in_leaves, cuts_part_leaves, joins_undo_cuts, leaves_are_joined,
    leaves_cover_positions,
};
use node_mem::entries::exchange;
use node_mem::lengths::length;
use node_mem::{Change, NodeMem};
pub use planned::LastValues;
pub use sizing::LeafSize;
use std::alloc::{AllocError, Global};
use std::collections::{BTreeMap, btree_map};
use std::marker::Model;
use std::ops::Bound;
use vol_types::{Duplicate, Listing, Pos, SET_HEAD, Value, copy_map, wide};

/// The values of a btree, each at its position, in order, and the leaves that they are cut into. A leaf is named by its
/// end, the greatest position that it covers. Each call that looks for a position or a leaf, puts or removes takes steps
/// that grow with the logarithm of the number of values, or of that of leaves.
#[derive(Drop)]
pub struct TreeKeys {
    keys: BTreeMap<Pos, Value>,
    /// For each leaf, under its end, how many bytes it takes as one set.
    leaves: BTreeMap<Pos, u128>,
}

impl Model for TreeKeys {
    ghost use Rattle.std.specs.Map.{keys_of};
    ghost use Rattle.tree_keys.specs.Counts.{AreCounted};
    ghost use Rattle.tree_keys.specs.Cuts.{Cut, IsCut};

    ghost Value = { Cut };

    ghost view = { λ keys. record { entries = keys.keys.entries; ends = keys_of keys.leaves.entries } };

    ghost invariant = { λ keys. IsCut (record { entries = keys.keys.entries; ends = keys_of keys.leaves.entries }) × AreCounted (record { entries = keys.keys.entries; ends = keys_of keys.leaves.entries }) keys.leaves.entries };
}

impl TreeKeys {
    /// No values, and one leaf that covers all positions.
    pub fn new(alloc: Global) -> Result<TreeKeys, AllocError>
        ensures { IfOk result (λ keys. keys ≡ record { entries = []; ends = greatest_pos ∷ [] }) }
    {
        let mut leaves = BTreeMap::new(alloc);
        leaves.insert(Pos::GREATEST, SET_HEAD)?;
        Ok(TreeKeys {
            keys: BTreeMap::new(alloc),
            leaves,
        })
    }

    /// The keys of a map, with leaves of these ends, or none where a value is out of range, or the ends don't rise to the
    /// greatest position. It goes over all values, and takes memory for each leaf.
    pub fn of(
        alloc: Global,
        keys: BTreeMap<Pos, Value>,
        ends: &[Pos],
    ) -> Result<Option<TreeKeys>, AllocError>
        ensures made { IfOk result (λ made. IfSome made
            (λ made. made ≡ record { entries = keys.entries; ends = ends.now })) }
        ensures exact { IfOk result (λ made. IsSome made
            ↔ IsCut (record { entries = keys.entries; ends = ends.now })) }
    {
        if !are_in_range(&keys) {
            return Ok(None);
        }
        if !are_ends(ends) {
            return Ok(None);
        }
        let leaves = count_leaves(alloc, &keys, ends)?;
        Ok(Some(TreeKeys { keys, leaves }))
    }

    /// How many values there are.
    pub fn len(&self) -> usize
        ensures exact { result ≡ length self.now.entries }
        ensures sound { IsCut self.now }
    {
        self.keys.len()
    }

    /// Whether there are no values.
    pub fn is_empty(&self) -> bool
        ensures { result ≡ (length self.now.entries == 0) }
    {
        self.keys.is_empty()
    }

    /// The value at a position.
    pub fn get(&self, pos: &Pos) -> Option<&Value>
        ensures { option_copied result ≡ value_at pos_cmp pos.now self.now.entries }
    {
        self.keys.get(pos)
    }

    /// The first value at this position or after it, with its position.
    pub fn next_from(&self, pos: &Pos) -> Option<(&Pos, &Value)>
        ensures { option_map deref_pair result ≡ first_from pos.now self.now.entries }
    {
        self.keys.range(*pos..).next()
    }

    /// The first value strictly after this position, with its position.
    pub fn next_after(&self, pos: &Pos) -> Option<(&Pos, &Value)>
        ensures { option_map deref_pair result ≡ first_of (entries_after pos.now self.now.entries) }
    {
        self.keys
            .range((Bound::Excluded(*pos), Bound::Unbounded))
            .next()
    }

    /// The last value at this position or before it, with its position.
    pub fn last_up_to(&self, pos: &Pos) -> Option<(&Pos, &Value)>
        ensures { option_map deref_pair result ≡ last_of (entries_up_to pos.now self.now.entries) }
    {
        self.keys.range(..=*pos).next_back()
    }

    /// All values, each with its position, in order.
    pub fn iter(&self) -> btree_map::Iter<'_, Pos, Value>
        ensures { result ≡ self.now.entries }
    {
        self.keys.iter()
    }

    /// The values from the first position to the last one, both included, in order. There are none where the first is
    /// after the last. A step costs no more than that of `iter`.
    pub fn range(&self, first: &Pos, last: &Pos) -> btree_map::Range<'_, Pos, Value>
        ensures { result ≡ entries_within first.now last.now self.now.entries }
    {
        within(&self.keys, first, last)
    }

    /// The ends of the leaves, in order. The last is the greatest position.
    pub fn ends(&self) -> btree_map::Keys<'_, Pos, u128>
        ensures { result ≡ self.now.ends }
    {
        self.leaves.keys()
    }

    /// The end of the leaf that covers a position.
    pub fn leaf_of(&self, pos: &Pos) -> Pos
        ensures { result ≡ end_of pos.now self.now.ends }
    {
        leaf_at(&self.leaves, pos).0
    }

    /// Whether a leaf ends at a position.
    pub fn is_end(&self, pos: &Pos) -> bool
        ensures { result ≡ is_end pos.now self.now.ends }
    {
        self.leaves.contains_key(pos)
    }

    /// The first position that the leaf with this end covers.
    pub fn start_of(&self, end: &Pos) -> Pos
        ensures { result ≡ start_of end.now self.now.ends }
    {
        start_of(&self.leaves, end)
    }

    /// How many bytes the leaf with this end takes on disk as one set, or 2^32 - 1 where they are more, or none where no
    /// leaf has this end.
    pub fn size(&self, end: &Pos) -> Option<u32>
        ensures { result ≡ (if is_end end.now self.now.ends then Some (leaf_size end.now self.now)
            else None) }
    {
        match self.leaves.get(end) {
            None => None,
            Some(bytes) => Some(clamped(*bytes)),
        }
    }

    /// A copy of the leaf with this end, as a node of the positions that it covers. It goes over its values, and takes
    /// memory for each.
    pub fn leaf(&self, alloc: Global, end: &Pos) -> Result<NodeMem, AllocError>
        ensures { IfOk result (λ node. node ≡ record {
          least = start_of end.now self.now.ends;
          greatest = end.now;
          entries = leaf_entries
              end.now self.now;
        }) }
    {
        let start = self.start_of(end);
        copy_range(alloc, &start, end, within(&self.keys, &start, end))
    }

    /// The middle one of the positions of two or more values of the leaf with this end, which is not the last: a cut there
    /// halves their number. It goes over the values of the leaf.
    pub fn middle(&self, end: &Pos) -> Option<Pos>
        ensures { result ≡ middle_of (leaf_entries end.now self.now) }
    {
        // So few values are counted in 64 bits.
        let all = self.keys.len();
        prove!(all < 1 << 63);
        let start = self.start_of(end);
        let count = count_values(within(&self.keys, &start, end));
        if count < 2 {
            return None;
        }
        position_at(within(&self.keys, &start, end), (count - 1) / 2)
    }

    /// How many bytes each leaf that a change touches would take on disk as one set after the changes, a later one of a
    /// position over an earlier one, or 2^32 - 1 where they would be more; in the order of the leaves. It makes none of
    /// them: it takes a few steps for each change, times a logarithm, and memory for each position that is changed.
    pub fn sizes_after<C: Change>(
        &self,
        alloc: Global,
        changes: &[C],
    ) -> Result<Listing<LeafSize>, AllocError>
        requires { All (λ change. IsKeyValue (C.key change).value) changes.now }
        ensures { IfOk result (λ sizes. sizes ≡ sizes_after (map C.key changes.now) self.now) }
    {
        let sizes = bytes_after(alloc, &self.keys, &self.leaves, changes)?;
        Ok(listed(alloc, &sizes)?)
    }

    /// Puts a value at a position, whether or not there was one, or takes it away where none is given, and gives the
    /// value that was there. Only a value at a position that had none takes memory. It goes over the names of both
    /// values for their lengths. The leaves cover what they covered.
    pub fn put(&mut self, pos: &Pos, value: Option<Value>) -> Result<Option<Value>, AllocError>
        requires { IsKeyValue value }
        ensures before { IfOk result (λ before. before ≡ value_at pos_cmp pos.now self.old.entries) }
        ensures ok { OnOk result (self.new ≡ with_entries self.old
            (put_at pos_cmp pos.now value self.old.entries)) }
        // After an `Err` all is as before. It comes only where a value is put at a position that has none.
        ensures err { OnErr result (self.new ≡ self.old) }
        ensures put { OnErr result (IsSome value) }
        ensures absent { OnErr result (value_at pos_cmp pos.now self.old.entries ≡ None) }
    {
        // So few keys of so few bytes each fit 128 bits together.
        let count = self.keys.len();
        prove!(count < 1 << 63);
        let added = length(&value);
        let pos = wide(pos);
        let (end, bytes) = leaf_at(&self.leaves, &pos);
        let before = exchange(&mut self.keys, pos, value)?;
        set_bytes(
            &mut self.leaves,
            end,
            bytes + added as u128 - length(&before) as u128,
        );
        Ok(before)
    }

    /// Takes the value at a position away, and gives it. It takes no memory.
    pub fn remove(&mut self, pos: &Pos) -> Option<Value>
        ensures before { result ≡ value_at pos_cmp pos.now self.old.entries }
        ensures after { self.new ≡ with_entries self.old
            (put_at pos_cmp pos.now None self.old.entries) }
    {
        let pos = wide(pos);
        let (end, bytes) = leaf_at(&self.leaves, &pos);
        let before = self.keys.remove(&pos);
        set_bytes(&mut self.leaves, end, bytes - length(&before) as u128);
        before
    }

    /// Makes all changes in their order, or none, and gives for each the value that its position had before it. It copies
    /// the values, and takes memory for all of them before it makes the first change.
    pub fn put_all<C: Change>(
        &mut self,
        alloc: Global,
        changes: &[C],
    ) -> Result<Listing<Option<Value>>, AllocError>
        requires { All (λ change. IsKeyValue (C.key change).value) changes.now }
        ensures ok { OnOk result (self.new ≡ with_entries self.old
            (with_keys (map C.key changes.now) self.old.entries)) }
        ensures before { IfOk result (λ before. before ≡ values_before (map C.key changes.now)
            self.old.entries) }
        // After an `Err` all is as before.
        ensures err { OnErr result (self.new ≡ self.old) }
    {
        let _ = &self.keys;
        let NetChanges { last, before } = self.net_changes(alloc, changes)?;
        let fresh = self.fresh(alloc, &last)?;
        self.place(fresh.as_slice())?;
        self.fill(last);
        Ok(before)
    }

    /// Cuts the leaf that covers a position, which isn't its end, in two: the first ends at this position, and the second
    /// covers what follows. No value moves. It goes over the values of the first one.
    pub fn cut(&mut self, at: &Pos) -> Result<(), AllocError>
        requires { is_end at.now self.old.ends ≡ false }
        ensures ok { OnOk result (self.new ≡ cut_at at.now self.old) }
        // After an `Err` all is as before.
        ensures err { OnErr result (self.new ≡ self.old) }
    {
        // So few keys of so few bytes each fit 128 bits together.
        let count = self.keys.len();
        prove!(count < 1 << 63);
        let at = wide(at);
        let (end, bytes) = leaf_at(&self.leaves, &at);
        let first = total(self.range(&self.start_of(&end), &at));
        self.leaves.insert(at, SET_HEAD + first)?;
        set_bytes(&mut self.leaves, end, bytes - first);
        Ok(())
    }

    /// Joins the leaf that ends at a position, which isn't the last one, with the next, as if it had never been cut there.
    /// No value moves. It takes no memory.
    pub fn join(&mut self, at: &Pos)
        requires end { is_end at.now self.old.ends ≡ true }
        requires inner { IsBefore at.now greatest_pos }
        ensures { self.new ≡ joined_at at.now self.old }
    {
        // So few keys of so few bytes each fit 128 bits together.
        let count = self.keys.len();
        prove!(count < 1 << 63);
        let at = wide(at);
        let Some(first) = self.leaves.remove(&at) else {
            unreachable!()
        };
        let (end, bytes) = leaf_at(&self.leaves, &at);
        set_bytes(&mut self.leaves, end, bytes + first - SET_HEAD);
    }
}

impl Duplicate for TreeKeys {
    fn copy(&self, alloc: Global) -> Result<Self, AllocError> {
        Ok(TreeKeys {
            keys: copy_map(alloc, &self.keys)?,
            leaves: copy_leaves(alloc, &self.leaves)?,
        })
    }
}
