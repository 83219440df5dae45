ghost use Rattle.std.specs.Prelude.{◌≡◌};
ghost use Rattle.key_codec.specs.declared.fault.KeyFault.TheVariants.{NoMemory};

use std::alloc::{AllocError, AllocFailed};

/// Why bytes don't begin with a key: the first fault from the left.
#[derive(Clone, Copy, PartialEq, Eq)]
pub enum KeyFault {
    /// The bytes end within a field.
    Short,
    /// No kind has this number.
    Kind(u8),
    /// The field of this number is out of its range.
    Range(u8),
    /// A name or a device isn't above the one before it.
    Order,
    /// Out of memory. It says nothing of the bytes.
    NoMemory,
}

impl From<AllocError> for KeyFault {
    ghost from_gives = { λ _ fault. fault ≡ NoMemory };

    fn from(_: AllocError) -> Self {
        KeyFault::NoMemory
    }
}

impl<T: Drop> From<AllocFailed<T>> for KeyFault {
    ghost from_gives = { λ _ fault. fault ≡ NoMemory };

    fn from(_: AllocFailed<T>) -> Self {
        KeyFault::NoMemory
    }
}
