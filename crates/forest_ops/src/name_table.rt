ghost use Rattle.std.specs.Prelude.{◌≡◌, ℕ, [], length, None, OnOk, OnErr};
ghost use Rattle.vol_digest.specs.Digests.{slot_of};
ghost use Rattle.plain_forest.specs.Maps.{name_cmp, value_at, with_value};
ghost use Rattle.vol_types.specs.Maps.{without};
ghost use Rattle.forest_ops.specs.Names.{count_in_slot, is_crowded};
ghost use Rattle.forest_ops.specs.Tallies.{counted};

use crate::tally::Tally;
use std::alloc::{AllocError, Global};
use std::collections::{BTreeMap, btree_map};
use std::marker::Model;
use vol_types::{Bytes, Duplicate, copy_map};

/// How many names of a directory may have one slot, and how many subvolumes.
pub const NAMES_PER_SLOT: u32 = 8;

/// The names of a directory, which contracts see rising by their bytes, each with the number to which it leads. It
/// counts the names of each slot, so that no call but a listing goes over all names. Each other call costs the
/// logarithm of their number.
#[derive(Drop)]
pub struct NameTable {
    numbers: BTreeMap<Bytes, u64>,
    slots: Tally,
}

impl Model for NameTable {
    ghost use Rattle.std.specs.Prelude.{◌≡◌, ℕ, List};
    ghost use Rattle.forest_ops.specs.Tallies.{counted};
    ghost use Rattle.forest_ops.specs.Names.{count_in_slot};

    ghost Value = { List (List ℕ × ℕ) };

    ghost view = { λ table. table.numbers.entries };

    ghost invariant = { λ table. (slot : ℕ) → counted slot table.slots ≡ count_in_slot slot table.numbers.entries };
}

impl NameTable {
    /// No names. It takes no memory.
    pub fn new(alloc: Global) -> Self
        ensures { result ≡ [] }
    {
        NameTable {
            numbers: BTreeMap::new(alloc),
            slots: Tally::new(alloc),
        }
    }

    /// How many names there are.
    pub fn len(&self) -> usize
        ensures { result ≡ length self.now }
    {
        self.numbers.len()
    }

    /// The number to which a name leads.
    pub fn number(&self, name: &Bytes) -> Option<u64>
        ensures { result ≡ value_at name_cmp name.now self.now }
    {
        self.numbers.get(name).copied()
    }

    // How many names have the slot.
    fn count_in_slot(&self, slot: u64) -> u32
        ensures { result ≡ count_in_slot slot self.now }
    {
        self.slots.count(slot)
    }

    /// Whether as many names have a new name's slot as may have one.
    pub fn is_crowded(&self, name: &Bytes, slot: u64) -> bool
        requires { slot ≡ slot_of name.now }
        ensures { result ≡ is_crowded name.now self.now }
    {
        self.count_in_slot(slot) >= NAMES_PER_SLOT
    }

    /// Whether as many names have a new name's slot as may have one, once a name of `gone_slot` is gone.
    pub fn is_crowded_without(&self, gone: &Bytes, gone_slot: u64, name: &Bytes, slot: u64) -> bool
        requires gone { gone_slot ≡ slot_of gone.now }
        requires new { slot ≡ slot_of name.now }
        ensures { result ≡ is_crowded name.now (without name_cmp gone.now self.now) }
    {
        self.count_without(gone, gone_slot, slot) >= NAMES_PER_SLOT
    }

    // How many names have the slot, once a name of `gone_slot` is gone.
    fn count_without(&self, gone: &Bytes, gone_slot: u64, slot: u64) -> u32
        requires { gone_slot ≡ slot_of gone.now }
        ensures { result ≡ count_in_slot slot (without name_cmp gone.now self.now) }
    {
        let count = self.count_in_slot(slot);
        if gone_slot != slot {
            return count;
        }
        if self.number(gone).is_none() {
            return count;
        }
        count.saturating_sub(1)
    }

    /// Adds a new name of this slot. An `Err` changes nothing.
    pub fn insert(
        &mut self,
        alloc: Global,
        name: &Bytes,
        slot: u64,
        number: u64,
    ) -> Result<(), AllocError>
        requires slot { slot ≡ slot_of name.now }
        requires new { value_at name_cmp name.now self.old ≡ None }
        ensures ok { OnOk result (self.new ≡ with_value name_cmp name.now number self.old) }
        ensures err { OnErr result (self.new ≡ self.old) }
    {
        insert_slotted(
            alloc,
            &mut self.numbers,
            &mut self.slots,
            name,
            slot,
            number,
        )
    }

    /// Takes a name of this slot away, and says where it led.
    pub fn remove(&mut self, name: &Bytes, slot: u64) -> Option<u64>
        requires { slot ≡ slot_of name.now }
        ensures number { result ≡ value_at name_cmp name.now self.old }
        ensures rest { self.new ≡ without name_cmp name.now self.old }
    {
        let gone = self.numbers.remove(name);
        if gone.is_some() {
            self.slots.take(slot);
        }
        gone
    }

    /// The names with their numbers, rising by their bytes.
    pub fn iter(&self) -> btree_map::Iter<'_, Bytes, u64>
        ensures { result ≡ self.now }
    {
        self.numbers.iter()
    }
}

impl Duplicate for NameTable {
    fn copy(&self, alloc: Global) -> Result<Self, AllocError> {
        Ok(NameTable {
            numbers: copy_map(alloc, &self.numbers)?,
            slots: self.slots.copy(alloc)?,
        })
    }
}

/// Adds a value under a new name of this slot to a map, and counts the slot once more. An `Err` changes neither the map
/// nor what was counted.
pub fn insert_slotted<V: Drop>(
    alloc: Global,
    values: &mut BTreeMap<Bytes, V>,
    slots: &mut Tally,
    name: &Bytes,
    slot: u64,
    value: V,
) -> Result<(), AllocError>
    requires slot { slot ≡ slot_of name.now }
    requires new { value_at name_cmp name.now values.old.entries ≡ None }
    ensures ok { OnOk result (values.new.entries ≡ with_value name_cmp name.now value values.old.entries) }
    ensures err { OnErr result (values.new.entries ≡ values.old.entries) }
    ensures counted { (other : ℕ) → counted other slots.old ≡ count_in_slot other values.old.entries
        → counted other slots.new ≡ count_in_slot other values.new.entries }
{
    let key = name.copy(alloc)?;
    slots.add(slot)?;
    if values.insert(key, value).is_err() {
        slots.take(slot);
        return Err(AllocError);
    }
    Ok(())
}
