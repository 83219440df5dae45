ghost use Rattle.std.specs.Prelude.{◌≡◌, ◌+◌, ◌≤◌, [], map, length, option_copied, replicate, OnOk, OnErr, IfOk};
ghost use Rattle.std.specs.Ordering.{nat_cmp};
ghost use Rattle.plain_forest.specs.Maps.{value_at, changed_at};
ghost use Rattle.forest_ops.specs.Names.{links_of};
ghost use Rattle.forest_ops.specs.Content.{max_size, put_at, resized};
ghost use Rattle.forest_ops.specs.Walking.{named_in, walk};
ghost use Rattle.forest_ops.specs.Parts.{bare_tree, with_new, with_zeros, with_bare_directory, with_link};
ghost use Rattle.vol_digest.specs.Digests.{slot_of};
ghost use Rattle.forest_ops.specs.Trees.{empty_tree, with_file, with_directory, with_name, unlinked, without_directory, moved, with_bytes};
ghost use Rattle.forest_ops.specs.Places.{place_of, changed, Fits, IsFree, IsEmptyDirectory};
ghost use Rattle.forest_ops.specs.Steps.{flagged, status_of};

use crate::content::Content;
use crate::directories::Directories;
use crate::name_table::NameTable;
use crate::names::push_flagged;
use crate::place::{Change, NamePlace};
use crate::{Cause, Reply};
use std::alloc::{AllocError, Global};
use std::collections::BTreeMap;
use std::marker::Model;
use vol_types::{Bytes, Duplicate, FlagList, copy_map};

/// A subvolume with its file tree: by number the bytes of each file and the names of each directory.
#[derive(Drop)]
pub struct Subvolume {
    locked: bool,
    root: u64,
    files: BTreeMap<u64, Content>,
    directories: Directories,
}

impl Model for Subvolume {
    ghost use Rattle.plain_forest.specs.Forest.{Tree, tree_code};

    ghost Value = { Tree };

    ghost coded = { tree_code };

    ghost view = { λ s. record { locked = s.locked; root = s.root; files = s.files.entries; directories = s.directories } };
}

impl Subvolume {
    /// A tree with an empty root directory of that number, which may be changed.
    pub fn empty(alloc: Global, root: u64) -> Result<Self, AllocError>
        ensures { IfOk result (λ tree. tree ≡ empty_tree root) }
    {
        Ok(Subvolume {
            locked: false,
            root,
            files: BTreeMap::new(alloc),
            directories: Directories::new(alloc, root)?,
        })
    }

    /// An equal tree, which may only be read where `locked` says so. It goes over all that the tree holds, the bytes of
    /// each file too.
    pub fn snapshot(&self, alloc: Global, locked: bool) -> Result<Self, AllocError>
        ensures { IfOk result (λ copy. copy ≡ record self.now { locked = locked }) }
    {
        Ok(Subvolume {
            locked,
            root: self.root,
            files: copy_map(alloc, &self.files)?,
            directories: self.directories.copy(alloc)?,
        })
    }

    /// A tree that has its root's number, and neither files nor directories. It takes no memory.
    pub fn bare(alloc: Global, locked: bool, root: u64) -> Self
        ensures { result ≡ bare_tree locked root }
    {
        Subvolume {
            locked,
            root,
            files: BTreeMap::new(alloc),
            directories: Directories::none(alloc),
        }
    }

    /// Inserts a file of so many zeros, unless the number has a file. An `Err` changes nothing. It costs the zeros, and a
    /// logarithm of the number of files.
    pub fn insert_file(&mut self, alloc: Global, number: u64, size: u64) -> Result<(), AllocError>
        ensures ok { OnOk result (self.new ≡ with_zeros number size self.old) }
        ensures err { OnErr result (self.new ≡ self.old) }
    {
        insert_zeros(alloc, &mut self.files, number, size)
    }

    /// Inserts a directory without names, unless the number has a directory. An `Err` changes nothing.
    pub fn insert_directory(&mut self, alloc: Global, number: u64) -> Result<(), AllocError>
        ensures ok { OnOk result (self.new ≡ with_bare_directory number self.old) }
        ensures err { OnErr result (self.new ≡ self.old) }
    {
        if self.directories.names(number).is_some() {
            return Ok(());
        }
        self.directories.add_directory(alloc, number)
    }

    /// Inserts a name of this slot, unless its directory has the name or isn't there. An `Err` changes nothing; it would
    /// also come where a count of names is at the end of `u32`.
    pub fn insert_name(
        &mut self,
        alloc: Global,
        directory: u64,
        name: &Bytes,
        slot: u64,
        number: u64,
    ) -> Result<(), AllocError>
        requires { slot ≡ slot_of name.now }
        ensures ok { OnOk result (self.new ≡ with_link (record { directory = directory; name = name.now; number = number }) self.old) }
        ensures err { OnErr result (self.new ≡ self.old) }
    {
        if self.named(directory, name).is_ok() {
            return Ok(());
        }
        let place = NamePlace {
            directory,
            name,
            slot,
            number,
        };
        self.directories.add_name(alloc, &place)
    }

    /// Whether it may only be read.
    pub fn is_locked(&self) -> bool
        ensures { result ≡ self.now.locked }
    {
        self.locked
    }

    /// The names of a directory; none for a file.
    pub fn directory(&self, number: u64) -> Option<&NameTable>
        ensures { option_copied result ≡ value_at nat_cmp number self.now.directories }
    {
        self.directories.names(number)
    }

    /// The bytes of a file; none for a directory.
    pub fn file(&self, number: u64) -> Option<&Content>
        ensures { option_copied result ≡ value_at nat_cmp number self.now.files }
    {
        self.files.get(&number)
    }

    /// How many names lead to a number.
    pub fn links(&self, number: u64) -> u32
        ensures { result ≡ links_of number self.now.directories }
    {
        self.directories.links(number)
    }

    /// Where the names lead from the root. It costs a look for each name.
    pub fn walk(&self, names: &[Bytes]) -> Result<u64, Cause>
        ensures { result ≡ walk self.now names.now self.now.root }
    {
        let mut number = self.root;
        for name in names {
            number = self.named(number, name)?;
        }
        Ok(number)
    }

    // Where a name of a directory leads.
    fn named(&self, number: u64, name: &Bytes) -> Result<u64, Cause>
        ensures { result ≡ named_in self.now number name.now }
    {
        let Some(names) = self.directory(number) else {
            return Err(Cause::NotDir);
        };
        names.number(name).ok_or(Cause::NotFound)
    }

    /// What is told of an inode.
    pub fn status(&self, number: u64) -> Reply
        ensures { result ≡ status_of (record { tree = self.now; number = number }) (value_at nat_cmp number self.now.directories) }
    {
        match self.directory(number) {
            Some(names) => Reply::Dir {
                number,
                entries: names.len() as u64,
            },
            None => Reply::File {
                number,
                size: self.file(number).map_or(0, |content| content.len() as u64),
                links: self.links(number),
            },
        }
    }

    /// The names of a directory with their kinds, rising by their bytes.
    pub fn list(&self, alloc: Global, names: &NameTable) -> Result<FlagList, AllocError>
        ensures { IfOk result (λ list. list ≡ map (flagged self.now) names.now) }
    {
        let mut list = FlagList::new(alloc);
        match self.push_names(alloc, names, &mut list) {
            Ok(()) => Ok(list),
            Err(failed) => {
                drop(list);
                Err(failed)
            }
        }
    }

    // Adds the names of a directory with their kinds to none.
    fn push_names(
        &self,
        alloc: Global,
        names: &NameTable,
        list: &mut FlagList,
    ) -> Result<(), AllocError>
        requires { list.old ≡ [] }
        ensures { OnOk result (list.new ≡ map (flagged self.now) names.now) }
    {
        for (name, number) in names.iter() {
            let flag = if self.directory(*number).is_some() {
                2
            } else {
                1
            };
            push_flagged(alloc, list, name, flag)?;
        }
        Ok(())
    }

    /// Makes a change. An `Err` changes nothing.
    pub fn change(&mut self, alloc: Global, change: &Change<'_>) -> Result<(), AllocError>
        requires { Fits change.now self.old }
        ensures ok { OnOk result (self.new ≡ changed change.now self.old) }
        ensures err { OnErr result (self.new ≡ self.old) }
    {
        match change {
            Change::MakeFile(place) => self.add_file(alloc, place),
            Change::MakeDirectory(place) => self.add_directory(alloc, place),
            Change::AddName(place) => self.add_name(alloc, place),
            Change::Unlink(place) => {
                self.unlink(place);
                Ok(())
            }
            Change::RemoveDirectory(place) => {
                self.remove_directory(place);
                Ok(())
            }
            Change::Move { old, new } => self.move_name(alloc, old, new),
            Change::Put {
                number,
                offset,
                bytes,
            } => self.put(*number, *offset, bytes),
            Change::Resize { number, size } => self.resize(*number, *size),
        }
    }

    // Adds an empty file under a new name.
    fn add_file(&mut self, alloc: Global, place: &NamePlace<'_>) -> Result<(), AllocError>
        requires { IsFree (place_of place.now) self.old.directories }
        ensures ok { OnOk result (self.new ≡ with_file (place_of place.now) self.old) }
        ensures err { OnErr result (self.new ≡ self.old) }
    {
        self.directories.add_name(alloc, place)?;
        if self
            .files
            .insert(place.number, Content::new(alloc))
            .is_err()
        {
            self.directories.drop_name(place);
            return Err(AllocError);
        }
        Ok(())
    }

    // Adds an empty directory under a new name.
    fn add_directory(&mut self, alloc: Global, place: &NamePlace<'_>) -> Result<(), AllocError>
        requires { IsFree (place_of place.now) self.old.directories }
        ensures ok { OnOk result (self.new ≡ with_directory (place_of place.now) self.old) }
        ensures err { OnErr result (self.new ≡ self.old) }
    {
        self.directories.add_name(alloc, place)?;
        if self.directories.add_directory(alloc, place.number).is_err() {
            self.directories.drop_name(place);
            return Err(AllocError);
        }
        Ok(())
    }

    // Adds a new name of a file.
    fn add_name(&mut self, alloc: Global, place: &NamePlace<'_>) -> Result<(), AllocError>
        requires { IsFree (place_of place.now) self.old.directories }
        ensures ok { OnOk result (self.new ≡ with_name (place_of place.now) self.old) }
        ensures err { OnErr result (self.new ≡ self.old) }
    {
        self.directories.add_name(alloc, place)
    }

    // Takes a name of a file away, and the file with its last name.
    fn unlink(&mut self, place: &NamePlace<'_>)
        ensures { self.new ≡ unlinked (place_of place.now) self.old }
    {
        self.directories.drop_name(place);
        if self.directories.links(place.number) == 0 {
            let _ = self.files.remove(&place.number);
        }
    }

    // Removes an empty directory with its name.
    fn remove_directory(&mut self, place: &NamePlace<'_>)
        requires { IsEmptyDirectory place.now.number self.old.directories }
        ensures { self.new ≡ without_directory (place_of place.now) self.old }
    {
        self.directories.drop_name(place);
        self.directories.remove_directory(place.number);
    }

    // Moves a name to a new place.
    fn move_name(
        &mut self,
        alloc: Global,
        old: &NamePlace<'_>,
        new: &NamePlace<'_>,
    ) -> Result<(), AllocError>
        requires { IsFree (place_of new.now) self.old.directories }
        ensures ok { OnOk result (self.new ≡ moved (place_of old.now) (place_of new.now) self.old) }
        ensures err { OnErr result (self.new ≡ self.old) }
    {
        self.directories.add_name(alloc, new)?;
        self.directories.drop_name(old);
        Ok(())
    }

    // Puts bytes into a file.
    fn put(&mut self, number: u64, offset: u64, bytes: &Bytes) -> Result<(), AllocError>
        requires { offset + length bytes.now ≤ max_size }
        ensures ok { OnOk result (self.new ≡ with_bytes number (put_at offset bytes.now) self.old) }
        ensures err { OnErr result (self.new ≡ self.old) }
    {
        put_into(&mut self.files, number, offset, bytes)
    }

    // Cuts a file to a size, or makes it longer with zeros.
    fn resize(&mut self, number: u64, size: u64) -> Result<(), AllocError>
        ensures ok { OnOk result (self.new ≡ with_bytes number (resized size) self.old) }
        ensures err { OnErr result (self.new ≡ self.old) }
    {
        resize_in(&mut self.files, number, size)
    }
}

impl Duplicate for Subvolume {
    fn copy(&self, alloc: Global) -> Result<Self, AllocError> {
        self.snapshot(alloc, self.locked)
    }
}

// Inserts a file of so many zeros, unless the number has a file. An `Err` changes nothing.
fn insert_zeros(
    alloc: Global,
    files: &mut BTreeMap<u64, Content>,
    number: u64,
    size: u64,
) -> Result<(), AllocError>
    ensures ok { OnOk result (files.new.entries ≡ with_new nat_cmp number (replicate size 0) files.old.entries) }
    ensures err { OnErr result (files.new.entries ≡ files.old.entries) }
{
    if files.contains_key(&number) {
        return Ok(());
    }
    files.insert(number, Content::zeros(alloc, size)?)?;
    Ok(())
}

// Puts bytes into one of the files. An `Err` changes nothing.
fn put_into(
    files: &mut BTreeMap<u64, Content>,
    number: u64,
    offset: u64,
    bytes: &Bytes,
) -> Result<(), AllocError>
    requires { offset + length bytes.now ≤ max_size }
    ensures ok { OnOk result (files.new.entries ≡ changed_at nat_cmp number (put_at offset bytes.now) files.old.entries) }
    ensures err { OnErr result (files.new.entries ≡ files.old.entries) }
{
    match files.get_mut(&number) {
        Some(content) => content.put(offset, bytes),
        None => Ok(()),
    }
}

// Cuts one of the files to a size, or makes it longer with zeros. An `Err` changes nothing.
fn resize_in(files: &mut BTreeMap<u64, Content>, number: u64, size: u64) -> Result<(), AllocError>
    ensures ok { OnOk result (files.new.entries ≡ changed_at nat_cmp number (resized size) files.old.entries) }
    ensures err { OnErr result (files.new.entries ≡ files.old.entries) }
{
    match files.get_mut(&number) {
        Some(content) => content.resize(size),
        None => Ok(()),
    }
}
