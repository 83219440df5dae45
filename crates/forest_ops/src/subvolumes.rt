ghost use Rattle.std.specs.Prelude.{◌≡◌, [], ◌∷◌, length, map, codes, Some, None, option_copied, IfOk, OnOk, OnErr};
ghost use Rattle.vol_digest.specs.Digests.{slot_of};
ghost use Rattle.plain_forest.specs.Maps.{name_cmp, value_at, with_value, changed_at};
ghost use Rattle.plain_forest.specs.Forest.{Tree};
ghost use Rattle.vol_types.specs.Maps.{without};
ghost use Rattle.forest_ops.specs.Names.{count_in_slot, is_crowded};
ghost use Rattle.forest_ops.specs.Places.{changed, Fits};
ghost use Rattle.forest_ops.specs.Steps.{flagged_subvolume};

use crate::name_table::{NAMES_PER_SLOT, insert_slotted};
use crate::names::push_flagged;
use crate::place::Change;
use crate::subvolume::Subvolume;
use crate::tally::Tally;
use std::alloc::{AllocError, Global};
use std::collections::BTreeMap;
use std::marker::Model;
use vol_types::{Bytes, Duplicate, FlagList, copy_map};

/// The subvolumes of a forest, which contracts see rising by their names. They count the names of each slot. Each call
/// but a listing costs the logarithm of their number, and what it does to a tree.
#[derive(Drop)]
pub struct Subvolumes {
    trees: BTreeMap<Bytes, Subvolume>,
    slots: Tally,
}

impl Model for Subvolumes {
    ghost use Rattle.std.specs.Prelude.{◌≡◌, ℕ, List};
    ghost use Rattle.std.specs.Coded.{coded×, coded_ℕ, coded_list};
    ghost use Rattle.plain_forest.specs.Forest.{Tree, tree_code};
    ghost use Rattle.forest_ops.specs.Tallies.{counted};
    ghost use Rattle.forest_ops.specs.Names.{count_in_slot};

    ghost Value = { List (List ℕ × Tree) };

    ghost coded = { coded_list (coded× (coded_list coded_ℕ) tree_code) };

    ghost view = { λ subvolumes. subvolumes.trees.entries };

    ghost invariant = { λ subvolumes. (slot : ℕ) → counted slot subvolumes.slots ≡ count_in_slot slot subvolumes.trees.entries };
}

impl Subvolumes {
    /// No subvolumes. It takes no memory.
    pub fn new(alloc: Global) -> Self
        ensures { result ≡ [] }
    {
        Subvolumes {
            trees: BTreeMap::new(alloc),
            slots: Tally::new(alloc),
        }
    }

    /// How many subvolumes there are.
    pub fn len(&self) -> usize
        ensures { result ≡ length self.now }
    {
        self.trees.len()
    }

    /// The tree of a subvolume.
    pub fn tree(&self, name: &Bytes) -> Option<&Subvolume>
        ensures { option_copied result ≡ value_at name_cmp name.now self.now }
    {
        self.trees.get(name)
    }

    /// Whether as many subvolumes have a new name's slot as may have one.
    pub fn is_crowded(&self, name: &Bytes, slot: u64) -> bool
        requires { slot ≡ slot_of name.now }
        ensures { result ≡ is_crowded name.now self.now }
    {
        self.count_in_slot(slot) >= NAMES_PER_SLOT
    }

    // How many subvolumes have names of this slot.
    fn count_in_slot(&self, slot: u64) -> u32
        ensures { result ≡ count_in_slot slot self.now }
    {
        self.slots.count(slot)
    }

    /// Adds a new subvolume, whose name has this slot. An `Err` changes nothing.
    pub fn insert(
        &mut self,
        alloc: Global,
        name: &Bytes,
        slot: u64,
        tree: Subvolume,
    ) -> Result<(), AllocError>
        requires slot { slot ≡ slot_of name.now }
        requires new { value_at name_cmp name.now self.old ≡ None }
        ensures ok { OnOk result (self.new ≡ with_value name_cmp name.now tree self.old) }
        ensures err { OnErr result (self.new ≡ self.old) }
    {
        insert_slotted(alloc, &mut self.trees, &mut self.slots, name, slot, tree)
    }

    /// Removes a subvolume, whose name has this slot.
    pub fn remove(&mut self, name: &Bytes, slot: u64)
        requires { slot ≡ slot_of name.now }
        ensures { self.new ≡ without name_cmp name.now self.old }
    {
        let gone = self.trees.remove(name);
        if gone.is_some() {
            self.slots.take(slot);
        }
    }

    /// Makes a change of a tree. An `Err` changes nothing.
    pub fn change(
        &mut self,
        alloc: Global,
        name: &Bytes,
        change: &Change<'_>,
    ) -> Result<(), AllocError>
        requires { (tree : Tree) → value_at name_cmp name.now self.old ≡ Some tree → Fits change.now tree }
        ensures ok { OnOk result (self.new ≡ changed_at name_cmp name.now (changed change.now) self.old) }
        ensures err { OnErr result (self.new ≡ self.old) }
    {
        change_tree(alloc, &mut self.trees, name, change)
    }

    /// The names of the subvolumes, rising by their bytes, with 1 for one that may only be read and else 0.
    pub fn list(&self, alloc: Global) -> Result<FlagList, AllocError>
        ensures { IfOk result (λ list. list ≡ map flagged_subvolume self.now) }
    {
        let mut list = FlagList::new(alloc);
        match self.push_names(alloc, &mut list) {
            Ok(()) => Ok(list),
            Err(failed) => {
                drop(list);
                Err(failed)
            }
        }
    }

    // Adds the names of the subvolumes to none.
    fn push_names(&self, alloc: Global, list: &mut FlagList) -> Result<(), AllocError>
        requires { list.old ≡ [] }
        ensures { OnOk result (list.new ≡ map flagged_subvolume self.now) }
    {
        for (name, tree) in self.trees.iter() {
            push_flagged(alloc, list, name, u8::from(tree.is_locked()))?;
        }
        Ok(())
    }
}

impl Duplicate for Subvolumes {
    fn copy(&self, alloc: Global) -> Result<Self, AllocError> {
        Ok(Subvolumes {
            trees: copy_map(alloc, &self.trees)?,
            slots: self.slots.copy(alloc)?,
        })
    }
}

// Makes a change of one of the trees. An `Err` changes nothing.
fn change_tree(
    alloc: Global,
    trees: &mut BTreeMap<Bytes, Subvolume>,
    name: &Bytes,
    change: &Change<'_>,
) -> Result<(), AllocError>
    requires { (tree : Tree) → value_at name_cmp name.now trees.old.entries ≡ Some tree → Fits change.now tree }
    ensures ok { OnOk result (trees.new.entries ≡ changed_at name_cmp name.now (changed change.now) trees.old.entries) }
    ensures err { OnErr result (trees.new.entries ≡ trees.old.entries) }
{
    match trees.get_mut(name) {
        Some(tree) => tree.change(alloc, change),
        None => Ok(()),
    }
}
