ghost use Rattle.std.specs.Prelude.{◌≡◌, [], All, IfOk, IsSome, OnErr, OnOk, None, Some, option_copied, unwrap_or};
ghost use Rattle.node_mem.specs.Nodes.{with_keys};
ghost use Rattle.tree_keys.specs.Changes.{AreLast, fresh_positions, keys_with, made, placed};
ghost use Rattle.tree_keys.specs.Cuts.{IsCut, with_entries};
ghost use Rattle.vol_types.specs.Maps.{value_at, with_value};
ghost use Rattle.vol_types.specs.Positions.{pos_cmp};
ghost use Rattle.vol_types.specs.Ranges.{IsKeyValue};
ghost use Rattle.vol_types.specs.declared.positions.Pos.{Pos as APos};
ghost use Rattle.vol_types.specs.declared.values.Value.{Value as AValue};

use crate::TreeKeys;
use crate::copies::copy_borrowed;
use std::alloc::{AllocError, Global};
use std::collections::BTreeMap;
use std::marker::Model;
use vol_types::{Pos, Value};

/// What changes come to: for each position that one of them touches its last value, or none where that is taken away.
#[derive(Drop)]
pub struct LastValues {
    last: BTreeMap<Pos, Option<Value>>,
}

impl Model for LastValues {
    ghost use Rattle.std.specs.Prelude.{List, Option};
    ghost use Rattle.tree_keys.specs.Changes.{AreLast};
    ghost use Rattle.vol_types.specs.declared.positions.Pos.{Pos as ThePos};
    ghost use Rattle.vol_types.specs.declared.values.Value.{Value as TheValue};

    ghost Value = { List (ThePos × Option TheValue) };

    ghost view = { λ values. values.last.entries };

    ghost invariant = { λ values. AreLast values.last.entries };
}

impl LastValues {
    /// No position is touched. It takes no memory.
    pub fn new(alloc: Global) -> LastValues
        ensures { result ≡ [] }
    {
        LastValues {
            last: BTreeMap::new(alloc),
        }
    }

    /// The last value of a position, or else a copy of the one that it has.
    fn value_at(
        &self,
        alloc: Global,
        keys: &TreeKeys,
        pos: &Pos,
    ) -> Result<Option<Value>, AllocError>
        ensures { IfOk result (λ value. value ≡ unwrap_or (value_at pos_cmp pos.now self.now)
            (value_at pos_cmp pos.now keys.now.entries)) }
    {
        match self.last.get(pos) {
            None => copy_borrowed(alloc, keys.get(pos)),
            Some(value) => copy_borrowed(alloc, value.as_ref()),
        }
    }

    /// Notes a further change of the keys, with a copy of its value, and gives a copy of the value that its position had
    /// before it. An `Err` is out of memory, and changes nothing.
    pub fn note(
        &mut self,
        alloc: Global,
        keys: &TreeKeys,
        pos: &Pos,
        value: Option<&Value>,
    ) -> Result<Option<Value>, AllocError>
        requires { IsKeyValue (option_copied value) }
        ensures ok { OnOk result (self.new ≡ with_value pos_cmp pos.now (option_copied value.entry)
            self.old) }
        ensures before { IfOk result (λ before. before ≡ unwrap_or
            (value_at pos_cmp pos.now self.old) (value_at pos_cmp pos.now keys.now.entries)) }
        ensures err { OnErr result (self.new ≡ self.old) }
    {
        let before = self.value_at(alloc, keys, pos)?;
        let value = copy_borrowed(alloc, value)?;
        put_last(&mut self.last, pos, value)?;
        Ok(before)
    }
}

// Gives a position its last value, so far.
fn put_last(
    last: &mut BTreeMap<Pos, Option<Value>>,
    pos: &Pos,
    value: Option<Value>,
) -> Result<(), AllocError>
    ensures ok { OnOk result (last.new.entries ≡ with_value pos_cmp pos.now value last.old.entries) }
    ensures err { OnErr result (last.new.entries ≡ last.old.entries) }
{
    last.insert(*pos, value)?;
    Ok(())
}

impl TreeKeys {
    /// Takes the memory for changes: it puts a whiteout at each position that gets a value and has none, and gives these
    /// positions. An `Err` is out of memory, and changes nothing.
    pub fn take_room(&mut self, alloc: Global, values: &LastValues) -> Result<Vec<Pos>, AllocError>
        ensures ok { OnOk result (self.new ≡ placed values.now self.old) }
        ensures positions { IfOk result (λ fresh. fresh.items ≡ fresh_positions values.now
            self.old.entries) }
        ensures err { OnErr result (self.new ≡ self.old) }
    {
        let fresh = self.fresh(alloc, &values.last)?;
        self.place(fresh.as_slice())?;
        Ok(fresh)
    }

    /// Takes away what is at each of the positions. It takes no memory.
    pub fn give_room_back(&mut self, positions: &[Pos])
        ensures { self.new ≡ with_entries self.old (with_keys (keys_with None positions.now)
            self.old.entries) }
    {
        self.clear(positions);
    }

    /// Makes the changes whose memory was taken: each position gets its last value, or loses the one that it has. It takes
    /// no memory, and costs a logarithm of the number of values for each position.
    pub fn make(&mut self, values: LastValues)
        requires { (pos : APos) (value : AValue) → value_at pos_cmp pos values ≡ Some (Some value)
            → IsSome (value_at pos_cmp pos self.old.entries) }
        ensures made { self.new ≡ made values self.old }
        ensures sound { IsCut self.new }
    {
        self.fill(values.last);
        let _ = &self.keys;
    }
}
