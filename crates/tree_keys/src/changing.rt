ghost use Rattle.std.specs.Map.{values_of};
ghost use Rattle.std.specs.Prelude.{◌≡◌, ◌&&◌, All, IfOk, IsSome, OnErr, OnOk, None, Some, is_none, is_some, map, unwrap_or};
ghost use Rattle.node_mem.specs.Nodes.{with_keys};
ghost use Rattle.tree_keys.specs.Changes.{fresh_positions, keys_of_changed, keys_with, values_before};
ghost use Rattle.tree_keys.specs.Cuts.{with_entries};
ghost use Rattle.vol_types.specs.Maps.{IsMap, put_at, value_at};
ghost use Rattle.vol_types.specs.Positions.{pos_cmp};
ghost use Rattle.vol_types.specs.Ranges.{IsKeyValue};
ghost use Rattle.vol_types.specs.declared.positions.Pos.{Pos as APos};
ghost use Rattle.vol_types.specs.declared.values.Value.{Value as AValue};
ghost use Rattle.vol_types.specs.declared.values.Value.TheVariants.{White};

use crate::TreeKeys;
use crate::copies::copy_borrowed;
use node_mem::Change;
use std::alloc::{AllocError, Global};
use std::collections::BTreeMap;
use vol_types::{Listing, Pos, Value};

/// What changes come to: the last value of each position that is changed, and for each change the value before it.
#[derive(Drop)]
pub(crate) struct NetChanges {
    pub(crate) last: BTreeMap<Pos, Option<Value>>,
    pub(crate) before: Listing<Option<Value>>,
}

impl TreeKeys {
    /// Works out what changes come to, without making them.
    pub(crate) fn net_changes<C: Change>(
        &self,
        alloc: Global,
        changes: &[C],
    ) -> Result<NetChanges, AllocError>
        requires { All (λ change. IsKeyValue (C.key change).value) changes.now }
        ensures rises { IfOk result (λ net. IsMap pos_cmp net.last.entries) }
        ensures in_range { IfOk result (λ net. All IsKeyValue (values_of net.last.entries)) }
        ensures last { IfOk result (λ net. (pos : APos)
            → unwrap_or (value_at pos_cmp pos net.last.entries)
            (value_at pos_cmp pos self.now.entries) ≡ value_at pos_cmp pos
            (with_keys (map C.key changes.now) self.now.entries)) }
        ensures before { IfOk result (λ net. net.before ≡ values_before (map C.key changes.now)
            self.now.entries) }
    {
        let _ = &self.keys;
        let mut last = BTreeMap::new(alloc);
        let mut before = Listing::new(alloc);
        for change in changes {
            let pos = *change.pos();
            let value = copy_borrowed(alloc, change.value())?;
            let earlier = last.insert(pos, value)?;
            before.push(self.value_before(alloc, &pos, earlier)?)?;
        }
        Ok(NetChanges { last, before })
    }

    // The value that a position got by an earlier change, or else a copy of the one that it has.
    fn value_before(
        &self,
        alloc: Global,
        pos: &Pos,
        earlier: Option<Option<Value>>,
    ) -> Result<Option<Value>, AllocError>
        ensures { IfOk result (λ value. value ≡ unwrap_or earlier
            (value_at pos_cmp pos.now self.now.entries)) }
    {
        match earlier {
            None => copy_borrowed(alloc, self.get(pos)),
            Some(value) => Ok(value),
        }
    }

    /// The positions that get a value and have none.
    pub(crate) fn fresh(
        &self,
        alloc: Global,
        last: &BTreeMap<Pos, Option<Value>>,
    ) -> Result<Vec<Pos>, AllocError>
        ensures { IfOk result (λ fresh. fresh.items ≡ fresh_positions last.now.entries
            self.now.entries) }
    {
        let mut fresh = Vec::new(alloc);
        for (pos, value) in last.iter() {
            if self.is_fresh(pos, value) {
                fresh.push(*pos)?;
            }
        }
        Ok(fresh)
    }

    fn is_fresh(&self, pos: &Pos, value: &Option<Value>) -> bool
        ensures { result ≡ (is_some value.now && is_none
            (value_at pos_cmp pos.now self.now.entries)) }
    {
        value.is_some() && self.get(pos).is_none()
    }

    /// Takes the memory for values at positions that have none: it puts a whiteout at each.
    pub(crate) fn place(&mut self, positions: &[Pos]) -> Result<(), AllocError>
        requires { All (λ pos. value_at pos_cmp pos self.old.entries ≡ None) positions.now }
        ensures ok { OnOk result (self.new ≡ with_entries self.old
            (with_keys (keys_with (Some White) positions.now) self.old.entries)) }
        ensures err { OnErr result (self.new ≡ self.old) }
    {
        let _ = &self.keys;
        for count in 0..positions.len() {
            if let Err(error) = self.place_one(&positions[count]) {
                self.clear(&positions[..count]);
                return Err(error);
            }
        }
        Ok(())
    }

    /// Takes away what is at each of the positions.
    pub(crate) fn clear(&mut self, positions: &[Pos])
        ensures { self.new ≡ with_entries self.old (with_keys (keys_with None positions.now)
            self.old.entries) }
    {
        for pos in positions {
            self.clear_one(pos);
        }
    }

    fn place_one(&mut self, pos: &Pos) -> Result<(), AllocError>
        ensures ok { OnOk result (self.new ≡ with_entries self.old
            (put_at pos_cmp pos.now (Some White) self.old.entries)) }
        ensures err { OnErr result (self.new ≡ self.old) }
    {
        self.put(pos, Some(Value::White))?;
        Ok(())
    }

    fn clear_one(&mut self, pos: &Pos)
        ensures { self.new ≡ with_entries self.old (put_at pos_cmp pos.now None self.old.entries) }
    {
        self.remove(pos);
    }

    // Gives a position its value, or takes the one there away. It takes no memory, since a position that gets one has one.
    fn fill_one(&mut self, pos: &Pos, value: Option<Value>)
        requires in_range { IsKeyValue value }
        requires placed { IsSome value → IsSome (value_at pos_cmp pos.now self.old.entries) }
        ensures { self.new ≡ with_entries self.old (put_at pos_cmp pos.now value self.old.entries) }
    {
        if self.put(pos, value).is_err() {
            unreachable!()
        }
    }

    /// Gives each position its value, or takes the one there away. It takes no memory, since each that gets one has one.
    pub(crate) fn fill(&mut self, last: BTreeMap<Pos, Option<Value>>)
        requires rises { IsMap pos_cmp last.entries }
        requires in_range { All IsKeyValue (values_of last.entries) }
        requires placed { (pos : APos) (value : AValue) → value_at pos_cmp pos last.entries ≡ Some
            (Some value) → IsSome (value_at pos_cmp pos self.old.entries) }
        ensures { self.new ≡ with_entries self.old (with_keys (keys_of_changed last.entries)
            self.old.entries) }
    {
        let _ = &self.keys;
        for (pos, value) in last {
            self.fill_one(&pos, value);
        }
    }
}
