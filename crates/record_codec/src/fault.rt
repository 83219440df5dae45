ghost use Rattle.std.specs.Prelude.{◌≡◌};
ghost use Rattle.record_codec.specs.declared.fault.RecordFault.TheVariants.{NoMemory};
ghost use Rattle.record_codec.specs.Reading.{key_fault, root_fault};

use key_codec::KeyFault;
use std::alloc::{AllocError, AllocFailed};

/// Why bytes aren't a set or an entry: the first fault from the left.
#[derive(Clone, Copy, PartialEq, Eq)]
pub enum RecordFault {
    /// The bytes end too early, wherever they do: in a key or in another field.
    Short,
    /// A position of a set isn't above the one before it, or isn't covered by the node.
    Order,
    /// A key isn't one, or its kind may not stand there. The fault is neither `Short` nor `NoMemory`.
    Key(KeyFault),
    /// A root isn't a pointer to a node.
    Roots,
    /// Another number is out of its range.
    Field,
    /// Bytes stand after the last key.
    Long,
    /// Out of memory. It says nothing of the bytes.
    NoMemory,
}

impl From<AllocError> for RecordFault {
    ghost from_gives = { λ _ fault. fault ≡ NoMemory };

    fn from(_: AllocError) -> Self {
        RecordFault::NoMemory
    }
}

impl<T: Drop> From<AllocFailed<T>> for RecordFault {
    ghost from_gives = { λ _ fault. fault ≡ NoMemory };

    fn from(_: AllocFailed<T>) -> Self {
        RecordFault::NoMemory
    }
}

/// The fault of a key, as a record names it.
pub(crate) fn key_fault(fault: KeyFault) -> RecordFault
    ensures { result ≡ key_fault fault }
{
    match fault {
        KeyFault::Short => RecordFault::Short,
        KeyFault::NoMemory => RecordFault::NoMemory,
        _ => RecordFault::Key(fault),
    }
}

/// The fault of a root, as a record names it.
pub(crate) fn root_fault(fault: KeyFault) -> RecordFault
    ensures { result ≡ root_fault fault }
{
    match fault {
        KeyFault::Short => RecordFault::Short,
        KeyFault::NoMemory => RecordFault::NoMemory,
        _ => RecordFault::Roots,
    }
}
