ghost use Rattle.std.specs.Prelude.{◌≡◌};
ghost use Rattle.plain_forest.specs.Names.{has_good_bytes, has_no_colon, is_dots, is_good_name, is_good_subvolume_name};

/// The greatest number of bytes in a name.
const MAX_NAME_LENGTH: usize = 255;

/// Whether a subvolume may have the name.
pub(crate) fn is_subvolume_name_good(name: &[u8]) -> bool
    ensures { result ≡ is_good_subvolume_name name.now }
{
    if !is_name_good(name) {
        return false;
    }
    is_colon_free(name)
}

// Whether the name has few bytes, all of them good, and isn't one of the dots.
fn is_name_good(name: &[u8]) -> bool
    ensures { result ≡ is_good_name name.now }
{
    if name.is_empty() || name.len() > MAX_NAME_LENGTH {
        return false;
    }
    if !are_bytes_good(name) {
        return false;
    }
    !is_name_dots(name)
}

// Whether no byte of the name ends a name.
fn are_bytes_good(name: &[u8]) -> bool
    ensures { result ≡ has_good_bytes name.now }
{
    name.iter().all(|byte| *byte != b'/' && *byte != 0)
}

// Whether the name is `.` or `..`.
fn is_name_dots(name: &[u8]) -> bool
    ensures { result ≡ is_dots name.now }
{
    name == b".".as_slice() || name == b"..".as_slice()
}

// Whether the name has no `:`.
fn is_colon_free(name: &[u8]) -> bool
    ensures { result ≡ has_no_colon name.now }
{
    name.iter().all(|byte| *byte != b':')
}
