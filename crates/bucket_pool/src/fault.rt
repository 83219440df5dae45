use std::alloc::{AllocError, AllocFailed};
use vol_types::Short;

/// Why there was no place.
#[derive(Drop)]
pub enum PoolFault {
    /// Fewer devices have space than were asked for.
    NoSpace(Short),
    /// Out of memory.
    NoMemory,
}

impl From<AllocError> for PoolFault {
    ghost use Rattle.std.specs.Prelude.{◌≡◌};
    ghost use Rattle.bucket_pool.specs.declared.fault.PoolFault.TheVariants.{NoMemory};

    ghost from_gives = { λ _ fault. fault ≡ NoMemory };

    fn from(_: AllocError) -> Self {
        PoolFault::NoMemory
    }
}

impl<T: Drop> From<AllocFailed<T>> for PoolFault {
    ghost use Rattle.std.specs.Prelude.{◌≡◌};
    ghost use Rattle.bucket_pool.specs.declared.fault.PoolFault.TheVariants.{NoMemory};

    ghost from_gives = { λ _ fault. fault ≡ NoMemory };

    fn from(_: AllocFailed<T>) -> Self {
        PoolFault::NoMemory
    }
}
