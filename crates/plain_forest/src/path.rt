ghost use Rattle.std.specs.Prelude.{◌≡◌, option_copied};
ghost use Rattle.std.specs.List.{list_all};
ghost use Rattle.plain_forest.specs.Names.{is_dots, has_good_bytes, has_no_colon, is_good_name, is_good_subvolume_name};

use std::alloc::{AllocError, Global};
use vol_types::{Bytes, Duplicate, NameList};

/// The greatest number of names in a path.
pub const MAX_NAMES: usize = 32;

/// The greatest number of bytes in a name.
pub const MAX_NAME_LENGTH: usize = 255;

/// A place in the forest: a subvolume's name, and the names that lead from its root. Without names it is the root.
#[derive(PartialEq, Eq, Drop)]
pub struct Path {
    pub sub: Bytes,
    pub names: NameList,
}

impl Duplicate for Path {
    fn copy(&self, alloc: Global) -> Result<Self, AllocError> {
        Ok(Path {
            sub: self.sub.copy(alloc)?,
            names: self.names.copy(alloc)?,
        })
    }
}

// Whether the name is `.` or `..`.
fn is_name_dots(name: &[u8]) -> bool
    ensures { result ≡ is_dots name.now }
{
    name == b".".as_slice() || name == b"..".as_slice()
}

// Whether no byte of the name ends a name.
fn are_bytes_good(name: &[u8]) -> bool
    ensures { result ≡ has_good_bytes name.now }
{
    name.iter().all(|byte| *byte != b'/' && *byte != 0)
}

/// Whether a directory may keep the name.
pub fn is_name_good(name: &[u8]) -> bool
    ensures { result ≡ is_good_name name.now }
{
    if name.is_empty() || name.len() > MAX_NAME_LENGTH {
        return false;
    }
    if !are_bytes_good(name) {
        return false;
    }
    !is_name_dots(name)
}

// Whether the name has no `:`.
fn is_colon_free(name: &[u8]) -> bool
    ensures { result ≡ has_no_colon name.now }
{
    name.iter().all(|byte| *byte != b':')
}

/// Whether a subvolume may have the name.
pub fn is_subvolume_name_good(name: &[u8]) -> bool
    ensures { result ≡ is_good_subvolume_name name.now }
{
    if !is_name_good(name) {
        return false;
    }
    is_colon_free(name)
}

fn are_names_good(names: &[Bytes]) -> bool
    ensures { result ≡ list_all is_good_name names.now }
{
    names.iter().all(|name| is_name_good(name.as_slice()))
}

impl Path {
    ghost use Rattle.plain_forest.specs.Names.{is_good_path, parent_names, last_name};

    /// Whether the forest may have the path.
    pub fn is_good(&self) -> bool
        ensures { result ≡ is_good_path self.now }
    {
        if !is_subvolume_name_good(self.sub.as_slice()) {
            return false;
        }
        if self.names.len() > MAX_NAMES {
            return false;
        }
        are_names_good(self.names.as_slice())
    }

    /// The names that lead to its parent; of a root none.
    pub fn parents(&self) -> &[Bytes]
        ensures { result.now ≡ parent_names self.now }
    {
        let names = self.names.as_slice();
        &names[..names.len().saturating_sub(1)]
    }

    /// Its last name; a root has none.
    pub fn last(&self) -> Option<&Bytes>
        ensures { option_copied result ≡ last_name self.now }
    {
        self.names.get(self.names.len().saturating_sub(1))
    }
}
