ghost use Rattle.std.specs.Prelude.{◌≡◌, ◌<◌, option_map};
ghost use Rattle.plain_forest.specs.Forest.{Tree};
ghost use Rattle.vol_digest.specs.Digests.{slot_of};
ghost use Rattle.forest_ops.specs.Refusals.{result_map};
ghost use Rattle.forest_ops.specs.Walking.{same_name, tree_named, tree_of, shared_tree, inode_at, directory_at, file_at};
ghost use Rattle.forest_ops.specs.Names.{is_crowded, new_name, same_names, is_above};
ghost use Rattle.forest_ops.specs.Places.{place_of};
ghost use Rattle.forest_ops.specs.Subvolumes.{new_subvolume};
ghost use Rattle.forest_ops.specs.Steps.{is_spent, next_number, new_place, open_file, sized_file, link_place, place_at, unlink_place, rmdir_place, rename_ends, names_left, move_places, move_of, subvolume_fits, snapshot_source};

use crate::content::MAX_SIZE;
use crate::found::{FoundDirectory, FoundFile, FoundInode, FoundMove};
use crate::name_table::NameTable;
use crate::names::good_subvolume;
use crate::place::NamePlace;
use crate::refusals::refuse_if;
use crate::subvolume::Subvolume;
use crate::{Cause, Forest};
use plain_forest::Path;
use vol_digest::slot;
use vol_types::Bytes;

/// How many inode numbers a client has.
pub const NUMBERS_PER_CLIENT: u64 = 1 << 48;

// How many names a file may have.
const MAX_LINKS: u32 = 255;

// How many subvolumes there may be.
const MAX_SUBVOLUMES: usize = 4096;

impl Forest {
    /// The number that the next inode of a client gets.
    pub fn next_number(&self, client: u8) -> u64
        requires { client < 16 }
        ensures { result ≡ next_number client self.now }
    {
        u64::from(client) * NUMBERS_PER_CLIENT + self.next[client as usize]
    }

    // Whether a client has used all its numbers.
    pub(crate) fn is_spent(&self, client: u8) -> bool
        requires { client < 16 }
        ensures { result ≡ is_spent client self.now }
    {
        self.next[client as usize] >= NUMBERS_PER_CLIENT
    }

    // The tree of a subvolume.
    pub(crate) fn tree_named(&self, name: &Bytes) -> Result<&Subvolume, Cause>
        ensures { result_map (λ tree. tree.now) result ≡ tree_named name.now self.now }
    {
        self.subvolumes.tree(name).ok_or(Cause::NoSubvolume)
    }

    // The tree of the subvolume of a good path.
    fn tree_of(&self, path: &Path) -> Result<&Subvolume, Cause>
        ensures { result_map (λ tree. tree.now) result ≡ tree_of path.now self.now }
    {
        if !path.is_good() {
            return Err(Cause::BadPath);
        }
        self.tree_named(&path.sub)
    }

    // The tree in which two good paths lie.
    fn shared_tree(&self, from: &Path, to: &Path) -> Result<&Subvolume, Cause>
        ensures { result_map (λ tree. tree.now) result ≡ shared_tree from.now to.now self.now }
    {
        if !from.is_good() {
            return Err(Cause::BadPath);
        }
        if !to.is_good() {
            return Err(Cause::BadPath);
        }
        if !is_same_name(&from.sub, &to.sub) {
            return Err(Cause::Cross);
        }
        self.tree_named(&from.sub)
    }

    // The inode at a path.
    pub(crate) fn inode_at(&self, path: &Path) -> Result<FoundInode<'_>, Cause>
        ensures { result_map (λ inode. record { tree = inode.tree.now; number = inode.number }) result ≡ inode_at path.now self.now }
    {
        let tree = self.tree_of(path)?;
        let number = tree.walk(path.names.as_slice())?;
        Ok(FoundInode { tree, number })
    }

    // The directory at a path.
    pub(crate) fn directory_at(&self, path: &Path) -> Result<FoundDirectory<'_>, Cause>
        ensures { result_map (λ found. record { tree = found.tree.now; number = found.number; names = found.names.now }) result
            ≡ directory_at path.now self.now }
    {
        let inode = self.inode_at(path)?;
        let Some(names) = inode.tree.directory(inode.number) else {
            return Err(Cause::NotDir);
        };
        Ok(FoundDirectory {
            tree: inode.tree,
            number: inode.number,
            names,
        })
    }

    // The file at a path.
    pub(crate) fn file_at(&self, path: &Path) -> Result<FoundFile<'_>, Cause>
        ensures { result_map (λ found. record { tree = found.tree.now; number = found.number; bytes = found.content.now }) result
            ≡ file_at path.now self.now }
    {
        let inode = self.inode_at(path)?;
        let Some(content) = inode.tree.file(inode.number) else {
            return Err(Cause::IsDir);
        };
        Ok(FoundFile {
            tree: inode.tree,
            number: inode.number,
            content,
        })
    }

    // The file at a path, where it may be changed.
    fn open_file(&self, path: &Path) -> Result<FoundFile<'_>, Cause>
        ensures { result_map (λ found. record { tree = found.tree.now; number = found.number; bytes = found.content.now }) result
            ≡ open_file path.now self.now }
    {
        let file = self.file_at(path)?;
        if file.tree.is_locked() {
            return Err(Cause::ReadOnly);
        }
        Ok(file)
    }

    // The file at a path, where it may be changed and get this size.
    pub(crate) fn sized_file(&self, path: &Path, size: u128) -> Result<FoundFile<'_>, Cause>
        ensures { result_map (λ found. record { tree = found.tree.now; number = found.number; bytes = found.content.now }) result
            ≡ sized_file path.now size self.now }
    {
        let file = self.open_file(path)?;
        if size > u128::from(MAX_SIZE) {
            return Err(Cause::TooBig);
        }
        Ok(file)
    }

    // Where an inode that a client makes at a path goes.
    pub(crate) fn new_place<'a>(&self, client: u8, path: &'a Path) -> Result<NamePlace<'a>, Cause>
        requires { client < 16 }
        ensures { result_map place_of result ≡ new_place client path.now self.now }
    {
        let tree = self.tree_of(path)?;
        let directory = tree.walk(path.parents())?;
        let Some(names) = tree.directory(directory) else {
            return Err(Cause::NotDir);
        };
        if tree.is_locked() {
            return Err(Cause::ReadOnly);
        }
        let name = new_name(path, names)?;
        if self.is_spent(client) {
            return Err(Cause::IdsSpent);
        }
        Ok(NamePlace {
            directory,
            name,
            slot: slot(name.as_slice()),
            number: self.next_number(client),
        })
    }

    // Where a new name of a file goes.
    pub(crate) fn link_place<'a>(&self, from: &Path, to: &'a Path) -> Result<NamePlace<'a>, Cause>
        ensures { result_map place_of result ≡ link_place from.now to.now self.now }
    {
        let tree = self.shared_tree(from, to)?;
        let number = tree.walk(from.names.as_slice())?;
        if tree.file(number).is_none() {
            return Err(Cause::IsDir);
        }
        let directory = tree.walk(to.parents())?;
        let Some(names) = tree.directory(directory) else {
            return Err(Cause::NotDir);
        };
        if tree.is_locked() {
            return Err(Cause::ReadOnly);
        }
        let name = new_name(to, names)?;
        if tree.links(number) >= MAX_LINKS {
            return Err(Cause::LinksFull);
        }
        Ok(NamePlace {
            directory,
            name,
            slot: slot(name.as_slice()),
            number,
        })
    }

    // The name of a file that goes.
    pub(crate) fn unlink_place<'a>(&self, path: &'a Path) -> Result<NamePlace<'a>, Cause>
        ensures { result_map place_of result ≡ unlink_place path.now self.now }
    {
        let file = self.open_file(path)?;
        place_at(path, Cause::IsDir, file.tree, file.number)
    }

    // The name of a directory that goes.
    pub(crate) fn rmdir_place<'a>(&self, path: &'a Path) -> Result<NamePlace<'a>, Cause>
        ensures { result_map place_of result ≡ rmdir_place path.now self.now }
    {
        let directory = self.directory_at(path)?;
        refuse_if(directory.tree.is_locked(), Cause::ReadOnly)?;
        let place = place_at(path, Cause::Loop, directory.tree, directory.number)?;
        if directory.names.len() != 0 {
            return Err(Cause::NotEmpty);
        }
        Ok(place)
    }

    // What a rename finds at its two paths.
    fn rename_ends(&self, from: &Path, to: &Path) -> Result<FoundMove<'_>, Cause>
        ensures { result_map (λ found. record { tree = found.tree.now; number = found.number; directory = found.directory; names = found.names.now }) result
            ≡ rename_ends from.now to.now self.now }
    {
        let tree = self.shared_tree(from, to)?;
        let number = tree.walk(from.names.as_slice())?;
        let directory = tree.walk(to.parents())?;
        let Some(names) = tree.directory(directory) else {
            return Err(Cause::NotDir);
        };
        if tree.is_locked() {
            return Err(Cause::ReadOnly);
        }
        Ok(FoundMove {
            tree,
            number,
            directory,
            names,
        })
    }

    // The name that a rename moves, at its old place and at its new one; none where the paths are equal.
    pub(crate) fn move_of<'a>(
        &self,
        from: &'a Path,
        to: &'a Path,
    ) -> Result<Option<(NamePlace<'a>, NamePlace<'a>)>, Cause>
        ensures { result_map (option_map (λ places. (place_of places.0, place_of places.1))) result ≡ move_of from.now to.now self.now }
    {
        let ends = self.rename_ends(from, to)?;
        if are_same_names(from.names.as_slice(), to.names.as_slice()) {
            return Ok(None);
        }
        let places = move_places(from, to, &ends)?;
        Ok(Some(places))
    }

    // Whether the forest takes a new subvolume of this name, which has this slot.
    fn new_subvolume(&self, name: &Bytes, slot: u64) -> Result<(), Cause>
        requires { slot ≡ slot_of name.now }
        ensures { result ≡ new_subvolume name.now self.now }
    {
        if self.subvolumes.tree(name).is_some() {
            return Err(Cause::Exists);
        }
        if self.subvolumes.is_crowded(name, slot) {
            return Err(Cause::Crowded);
        }
        refuse_if(self.subvolumes.len() >= MAX_SUBVOLUMES, Cause::TooMany)
    }

    // Whether a client can make a subvolume of this name.
    pub(crate) fn subvolume_fits(&self, client: u8, name: &Bytes) -> Result<(), Cause>
        requires { client < 16 }
        ensures { result ≡ subvolume_fits client name.now self.now }
    {
        good_subvolume(name)?;
        self.new_subvolume(name, slot(name.as_slice()))?;
        if self.is_spent(client) {
            return Err(Cause::IdsSpent);
        }
        refuse_if(self.ids_left < 1, Cause::IdsSpent)
    }

    // The tree of which a snapshot is made.
    pub(crate) fn snapshot_source(&self, source: &Bytes, copy: &Bytes) -> Result<&Subvolume, Cause>
        ensures { result_map (λ tree. tree.now) result ≡ snapshot_source source.now copy.now self.now }
    {
        good_subvolume(source)?;
        good_subvolume(copy)?;
        let tree = self.tree_named(source)?;
        self.new_subvolume(copy, slot(copy.as_slice()))?;
        if self.ids_left < 2 {
            return Err(Cause::IdsSpent);
        }
        Ok(tree)
    }
}

// The last name of a path, where it may be new in its directory.
fn new_name<'a>(path: &'a Path, names: &NameTable) -> Result<&'a Bytes, Cause>
    ensures { result_map (λ name. name.now) result ≡ new_name path.now names.now }
{
    let Some(name) = path.last() else {
        return Err(Cause::Exists);
    };
    if names.number(name).is_some() {
        return Err(Cause::Exists);
    }
    let slot = slot(name.as_slice());
    if names.is_crowded(name, slot) {
        return Err(Cause::Crowded);
    }
    Ok(name)
}

// The place of the name with which a path ends. A root has none, which is refused for the cause that is given.
fn place_at<'a>(
    path: &'a Path,
    cause: Cause,
    tree: &Subvolume,
    number: u64,
) -> Result<NamePlace<'a>, Cause>
    ensures { result_map place_of result ≡ place_at path.now cause tree.now number }
{
    let Some(name) = path.last() else {
        return Err(cause);
    };
    let directory = tree.walk(path.parents())?;
    Ok(NamePlace {
        directory,
        name,
        slot: slot(name.as_slice()),
        number,
    })
}

// The name that moves, at its old place and at its new one.
fn move_places<'a>(
    from: &'a Path,
    to: &'a Path,
    ends: &FoundMove<'_>,
) -> Result<(NamePlace<'a>, NamePlace<'a>), Cause>
    ensures { result_map (λ places. (place_of places.0, place_of places.1)) result
        ≡ move_places from.now to.now (record { tree = ends.now.tree.now; number = ends.now.number; directory = ends.now.directory; names = ends.now.names.now }) }
{
    if lies_above(from.names.as_slice(), to.names.as_slice()) {
        return Err(Cause::Loop);
    }
    let old = place_at(from, Cause::Loop, ends.tree, ends.number)?;
    let Some(name) = to.last() else {
        return Err(Cause::Exists);
    };
    if ends.names.number(name).is_some() {
        return Err(Cause::Exists);
    }
    let slot = slot(name.as_slice());
    if is_crowded_left(&old, ends, name, slot) {
        return Err(Cause::Crowded);
    }
    Ok((
        old,
        NamePlace {
            directory: ends.directory,
            name,
            slot,
            number: ends.number,
        },
    ))
}

// Whether the new directory of a move is crowded for the new name, once the old one is gone.
fn is_crowded_left(old: &NamePlace<'_>, ends: &FoundMove<'_>, name: &Bytes, slot: u64) -> bool
    requires { slot ≡ slot_of name.now }
    ensures { result ≡ is_crowded name.now (names_left (place_of old.now) ends.now.directory ends.now.names.now) }
{
    if old.directory == ends.directory {
        return ends
            .names
            .is_crowded_without(old.name, old.slot, name, slot);
    }
    ends.names.is_crowded(name, slot)
}

pub(crate) fn is_same_name(one: &Bytes, other: &Bytes) -> bool
    ensures { result ≡ same_name one.now other.now }
{
    one == other
}

// Whether two lists of names are equal.
pub(crate) fn are_same_names(one: &[Bytes], other: &[Bytes]) -> bool
    ensures { result ≡ same_names one.now other.now }
{
    one == other
}

// Whether the first names lead to something above what the second ones lead to.
fn lies_above(above: &[Bytes], below: &[Bytes]) -> bool
    ensures { result ≡ is_above above.now below.now }
{
    if above.len() >= below.len() {
        return false;
    }
    are_same_names(&below[..above.len()], above)
}
