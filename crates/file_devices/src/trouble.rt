use std::alloc::AllocFailed;
use std::io;

/// What is wrong with an image file.
#[derive(Clone, Copy, Debug, PartialEq, Eq)]
pub enum Trouble {
    /// There is no such file.
    Missing,
    /// It may not be read and written.
    NotPermitted,
    /// It is a directory.
    Directory,
    /// Another program has its lock, or it stands twice among the images.
    InUse,
    /// The system gave another error.
    Other,
}

/// Why files were not opened.
#[derive(Clone, Copy, Debug, PartialEq, Eq)]
pub enum OpenFault {
    /// The file with this number, from 0, can't be opened for this reason.
    Device(u8, Trouble),
    /// Out of memory.
    NoMemory,
}

/// The trouble that an error of the system tells.
pub fn trouble_of(error: io::Error) -> Trouble {
    match error.kind() {
        io::ErrorKind::NotFound => Trouble::Missing,
        io::ErrorKind::PermissionDenied => Trouble::NotPermitted,
        io::ErrorKind::ReadOnlyFilesystem => Trouble::NotPermitted,
        io::ErrorKind::IsADirectory => Trouble::Directory,
        _ => Trouble::Other,
    }
}

impl<T: Drop> From<AllocFailed<T>> for OpenFault {
    ghost use Rattle.std.specs.Prelude.{◌≡◌};
    ghost use Rattle.file_devices.specs.declared.trouble.OpenFault.TheVariants.{NoMemory};

    ghost from_gives = { λ _ fault. fault ≡ NoMemory };

    fn from(_error: AllocFailed<T>) -> Self {
        OpenFault::NoMemory
    }
}
