ghost use Rattle.std.specs.Prelude.{◌≡◌, ◌++◌, ◌∷◌, [], OnOk};
ghost use Rattle.plain_forest.specs.Names.{is_dots, has_good_bytes, has_no_colon, is_good_name, is_good_subvolume_name};
ghost use Rattle.forest_ops.specs.Subvolumes.{good_subvolume};

use crate::Cause;
use crate::refusals::refuse_if;
use std::alloc::{AllocError, Global};
use vol_types::{Bytes, Duplicate, FlagList, FlaggedName};

/// The greatest number of bytes in a name.
const MAX_NAME_LENGTH: usize = 255;

/// Adds a copy of a name with a flag to a list.
pub fn push_flagged(
    alloc: Global,
    list: &mut FlagList,
    name: &Bytes,
    flag: u8,
) -> Result<(), AllocError>
    ensures { OnOk result (list.new ≡ list.old ++ record { name = name.now; flag = flag } ∷ []) }
{
    let name = name.copy(alloc)?;
    Ok(list.push(FlaggedName { name, flag })?)
}

/// Whether a subvolume may have the name.
pub fn good_subvolume(name: &Bytes) -> Result<(), Cause>
    ensures { result ≡ good_subvolume name.now }
{
    refuse_if(!is_subvolume_name_good(name.as_slice()), Cause::BadPath)
}

fn is_subvolume_name_good(name: &[u8]) -> bool
    ensures { result ≡ is_good_subvolume_name name.now }
{
    if !is_name_good(name) {
        return false;
    }
    is_colon_free(name)
}

fn is_name_good(name: &[u8]) -> bool
    ensures { result ≡ is_good_name name.now }
{
    if name.is_empty() || name.len() > MAX_NAME_LENGTH {
        return false;
    }
    if !are_bytes_good(name) {
        return false;
    }
    !is_name_dots(name)
}

// Whether the name is `.` or `..`.
fn is_name_dots(name: &[u8]) -> bool
    ensures { result ≡ is_dots name.now }
{
    name == b".".as_slice() || name == b"..".as_slice()
}

// Whether no byte of the name ends a name.
fn are_bytes_good(name: &[u8]) -> bool
    ensures { result ≡ has_good_bytes name.now }
{
    name.iter().all(|byte| *byte != b'/' && *byte != 0)
}

// Whether the name has no `:`.
fn is_colon_free(name: &[u8]) -> bool
    ensures { result ≡ has_no_colon name.now }
{
    name.iter().all(|byte| *byte != b':')
}
