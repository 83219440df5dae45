ghost use Rattle.std.specs.Prelude.{◌≡◌};
ghost use Rattle.bvol.specs.Refusals.{refusal_status};

use file_devices::{OpenFault, Trouble};
use std::alloc::{AllocError, AllocFailed};
use std::{fmt, io};

/// Why no command was begun.
#[derive(Clone, Copy)]
pub enum NotBegun {
    /// The arguments name no files, or too many.
    Usage,
    /// An argument isn't UTF-8.
    NotText,
    /// This file can't be opened for this reason.
    Device(u8, Trouble),
    /// Out of memory.
    Memory,
}

impl NotBegun {
    /// The status with which the program ends.
    pub fn status(self) -> u8
        ensures { result ≡ refusal_status self }
    {
        match self {
            NotBegun::Usage | NotBegun::NotText => 1,
            NotBegun::Device(_, _) => 6,
            NotBegun::Memory => 7,
        }
    }
}

impl fmt::Display for NotBegun {
    fn fmt<W: fmt::Write>(&self, f: &mut fmt::Formatter<W>) -> fmt::Result {
        match *self {
            NotBegun::Usage | NotBegun::NotText => f.write_str("error 1 usage"),
            NotBegun::Device(dev, _) => write!(f, "error 6 device {dev}"),
            NotBegun::Memory => f.write_str("error 7 memory"),
        }
    }
}

impl From<AllocError> for NotBegun {
    ghost use Rattle.std.specs.Prelude.{◌≡◌};
    ghost use Rattle.bvol.specs.declared.refusal.NotBegun.TheVariants.{Memory};

    ghost from_gives = { λ _ refusal. refusal ≡ Memory };

    fn from(_error: AllocError) -> Self {
        NotBegun::Memory
    }
}

impl<T: Drop> From<AllocFailed<T>> for NotBegun {
    ghost use Rattle.std.specs.Prelude.{◌≡◌};
    ghost use Rattle.bvol.specs.declared.refusal.NotBegun.TheVariants.{Memory};

    ghost from_gives = { λ _ refusal. refusal ≡ Memory };

    fn from(_error: AllocFailed<T>) -> Self {
        NotBegun::Memory
    }
}

impl From<OpenFault> for NotBegun {
    ghost use Rattle.std.specs.Prelude.{◌≡◌};
    ghost use Rattle.bvol.specs.Refusals.{refusal_of};

    ghost from_gives = { λ fault refusal. refusal ≡ refusal_of fault };

    fn from(fault: OpenFault) -> Self {
        match fault {
            OpenFault::Device(dev, trouble) => NotBegun::Device(dev, trouble),
            OpenFault::NoMemory => NotBegun::Memory,
        }
    }
}

// Of the arguments: one isn't UTF-8, or it is out of memory.
impl From<io::Error> for NotBegun {
    fn from(error: io::Error) -> Self {
        match error.kind() {
            io::ErrorKind::OutOfMemory => NotBegun::Memory,
            _ => NotBegun::NotText,
        }
    }
}
