ghost use Rattle.std.specs.Prelude.{◌≡◌, ℕ, ◌+◌, ◌-◌, ◌≤◌, [], ◌∷◌, None, option_copied, IfOk, OnOk, OnErr};
ghost use Rattle.std.specs.Ordering.{nat_cmp};
ghost use Rattle.plain_forest.specs.Maps.{name_cmp, value_at, with_value, changed_at};
ghost use Rattle.vol_types.specs.Maps.{without};
ghost use Rattle.forest_ops.specs.Tallies.{counted};
ghost use Rattle.forest_ops.specs.Names.{links_in, links_of};
ghost use Rattle.forest_ops.specs.Places.{place_of, IsFree, IsEmptyDirectory};

use crate::name_table::NameTable;
use crate::place::NamePlace;
use crate::tally::Tally;
use std::alloc::{AllocError, Global};
use std::collections::BTreeMap;
use std::marker::Model;
use vol_types::{Duplicate, copy_map};

/// The directories of a file tree, which contracts see by their number, each with its names. They count how many names
/// lead to each number. Each call costs the logarithms of the numbers of directories and names.
#[derive(Drop)]
pub struct Directories {
    tables: BTreeMap<u64, NameTable>,
    links: Tally,
}

impl Model for Directories {
    ghost use Rattle.std.specs.Prelude.{◌≡◌, ℕ, List};
    ghost use Rattle.forest_ops.specs.Tallies.{counted};
    ghost use Rattle.forest_ops.specs.Names.{links_of};

    ghost Value = { List (ℕ × List (List ℕ × ℕ)) };

    ghost view = { λ directories. directories.tables.entries };

    ghost invariant = { λ directories. (number : ℕ) → counted number directories.links ≡ links_of number directories.tables.entries };
}

impl Directories {
    /// No directories. It takes no memory.
    pub fn none(alloc: Global) -> Self
        ensures { result ≡ [] }
    {
        Directories {
            tables: BTreeMap::new(alloc),
            links: Tally::new(alloc),
        }
    }

    /// One directory without names.
    pub fn new(alloc: Global, root: u64) -> Result<Self, AllocError>
        ensures { IfOk result (λ directories. directories ≡ (root, []) ∷ []) }
    {
        let mut tables = BTreeMap::new(alloc);
        tables.insert(root, NameTable::new(alloc))?;
        Ok(Directories {
            tables,
            links: Tally::new(alloc),
        })
    }

    /// The names of a directory.
    pub fn names(&self, number: u64) -> Option<&NameTable>
        ensures { option_copied result ≡ value_at nat_cmp number self.now }
    {
        self.tables.get(&number)
    }

    /// How many names lead to a number.
    pub fn links(&self, number: u64) -> u32
        ensures { result ≡ links_of number self.now }
    {
        self.links.count(number)
    }

    /// Adds a new name to its directory. An `Err` changes nothing.
    pub fn add_name(&mut self, alloc: Global, place: &NamePlace<'_>) -> Result<(), AllocError>
        requires { IsFree (place_of place.now) self.old }
        ensures ok { OnOk result (self.new ≡ changed_at nat_cmp place.now.directory
            (with_value name_cmp place.now.name.now place.now.number) self.old) }
        ensures err { OnErr result (self.new ≡ self.old) }
    {
        put_name(alloc, &mut self.tables, &mut self.links, place)
    }

    /// Takes a name out of its directory.
    pub fn drop_name(&mut self, place: &NamePlace<'_>)
        ensures { self.new ≡ changed_at nat_cmp place.now.directory
            (without name_cmp place.now.name.now) self.old }
    {
        take_name(&mut self.tables, &mut self.links, place);
    }

    /// Adds a directory without names; where the number is a directory's, its names go. An `Err` changes nothing.
    pub fn add_directory(&mut self, alloc: Global, number: u64) -> Result<(), AllocError>
        ensures ok { OnOk result (self.new ≡ with_value nat_cmp number [] self.old) }
        ensures err { OnErr result (self.new ≡ self.old) }
    {
        let before = self.tables.insert(number, NameTable::new(alloc))?;
        match before {
            Some(gone) => {
                forget(&mut self.links, &gone);
                Ok(())
            }
            None => Ok(()),
        }
    }

    /// Removes a directory without names.
    pub fn remove_directory(&mut self, number: u64)
        requires { IsEmptyDirectory number self.old }
        ensures { self.new ≡ without nat_cmp number self.old }
    {
        let _ = self.tables.remove(&number);
    }
}

impl Duplicate for Directories {
    fn copy(&self, alloc: Global) -> Result<Self, AllocError> {
        Ok(Directories {
            tables: copy_map(alloc, &self.tables)?,
            links: self.links.copy(alloc)?,
        })
    }
}

// Adds a new name to its directory, and counts it. An `Err` changes neither what the directories have nor what was
// counted.
fn put_name(
    alloc: Global,
    tables: &mut BTreeMap<u64, NameTable>,
    links: &mut Tally,
    place: &NamePlace<'_>,
) -> Result<(), AllocError>
    requires { IsFree (place_of place.now) tables.old.entries }
    ensures ok { OnOk result (tables.new.entries ≡ changed_at nat_cmp place.now.directory
        (with_value name_cmp place.now.name.now place.now.number) tables.old.entries) }
    ensures err { OnErr result (tables.new.entries ≡ tables.old.entries) }
    ensures counted { ((number : ℕ) → counted number links.old ≡ links_of number tables.old.entries)
        → (number : ℕ) → counted number links.new ≡ links_of number tables.new.entries }
{
    match tables.get_mut(&place.directory) {
        Some(names) => insert_counted(alloc, names, links, place),
        None => Ok(()),
    }
}

// Takes a name out of its directory, and counts it no more.
fn take_name(tables: &mut BTreeMap<u64, NameTable>, links: &mut Tally, place: &NamePlace<'_>)
    ensures rest { tables.new.entries ≡ changed_at nat_cmp place.now.directory
        (without name_cmp place.now.name.now) tables.old.entries }
    ensures counted { ((number : ℕ) → counted number links.old ≡ links_of number tables.old.entries)
        → (number : ℕ) → counted number links.new ≡ links_of number tables.new.entries }
{
    match tables.get_mut(&place.directory) {
        Some(names) => remove_counted(names, links, place),
        None => {}
    }
}

// Adds a new name to a directory, and counts it. An `Err` changes neither the names nor what was counted.
fn insert_counted(
    alloc: Global,
    names: &mut NameTable,
    links: &mut Tally,
    place: &NamePlace<'_>,
) -> Result<(), AllocError>
    requires { value_at name_cmp place.now.name.now names.old ≡ None }
    ensures ok { OnOk result (names.new ≡ with_value name_cmp place.now.name.now place.now.number names.old) }
    ensures err { OnErr result (names.new ≡ names.old) }
    ensures counted { (other : ℕ) → counted other links.new + links_in other names.old ≡ counted other links.old + links_in other names.new }
{
    links.add(place.number)?;
    if names
        .insert(alloc, place.name, place.slot, place.number)
        .is_err()
    {
        links.take(place.number);
        return Err(AllocError);
    }
    Ok(())
}

// Takes a name out of a directory, and counts it no more.
fn remove_counted(names: &mut NameTable, links: &mut Tally, place: &NamePlace<'_>)
    ensures rest { names.new ≡ without name_cmp place.now.name.now names.old }
    ensures counted { (other : ℕ) → links_in other names.old ≤ counted other links.old
        → counted other links.new + links_in other names.old ≡ counted other links.old + links_in other names.new }
{
    match names.remove(place.name, place.slot) {
        Some(number) => links.take(number),
        None => {}
    }
}

// Counts the names of a directory no more.
fn forget(links: &mut Tally, gone: &NameTable)
    ensures { (other : ℕ) → counted other links.new ≡ counted other links.old - links_in other gone.now }
{
    for (_, number) in gone.iter() {
        links.take(*number);
    }
}
