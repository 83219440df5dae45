use std::alloc::{AllocError, AllocFailed};
use vol_types::Lost;

/// Why a block of a file wasn't read or written.
#[derive(PartialEq, Eq, Drop)]
pub enum DataFault {
    /// A write to this device failed.
    DeviceFault(u8),
    /// No place gives the block's bytes.
    DataLost(Lost),
    /// Out of memory.
    NoMemory,
}

impl From<AllocError> for DataFault {
    ghost use Rattle.std.specs.Prelude.{◌≡◌};
    ghost use Rattle.data_io.specs.declared.fault.DataFault.TheVariants.{NoMemory};

    ghost from_gives = { λ _ e. e ≡ NoMemory };

    fn from(_: AllocError) -> Self {
        DataFault::NoMemory
    }
}

impl<T: Drop> From<AllocFailed<T>> for DataFault {
    ghost use Rattle.std.specs.Prelude.{◌≡◌};
    ghost use Rattle.data_io.specs.declared.fault.DataFault.TheVariants.{NoMemory};

    ghost from_gives = { λ _ e. e ≡ NoMemory };

    fn from(_: AllocFailed<T>) -> Self {
        DataFault::NoMemory
    }
}
