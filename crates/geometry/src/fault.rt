use std::alloc::{AllocError, AllocFailed};

/// Why a call on several devices failed.
#[derive(Clone, Copy, Debug, PartialEq, Eq)]
pub enum DiskFault {
    /// This device failed.
    DeviceFault(u8),
    /// Out of memory.
    NoMemory,
}

impl From<AllocError> for DiskFault {
    ghost use Rattle.std.specs.Prelude.{◌≡◌};
    ghost use Rattle.geometry.specs.declared.fault.DiskFault.TheVariants.{NoMemory};

    ghost from_gives = { λ _ e. e ≡ NoMemory };

    fn from(_: AllocError) -> Self {
        DiskFault::NoMemory
    }
}

/// Why devices don't hold the superblocks of one volume.
#[derive(Clone, Copy, PartialEq, Eq)]
pub enum SuperFault {
    /// A device has no superblock.
    NoSuper,
    /// A superblock has another version than 1.
    Version,
    /// The superblocks aren't those of one volume's devices in their order.
    Mixed,
    /// A superblock's payload has another form, a number in it is out of its range, or a device has fewer blocks than it says.
    BadLayout,
    /// This device couldn't be read.
    DeviceFault(u8),
    /// Out of memory.
    NoMemory,
}

impl<T: Drop> From<AllocFailed<T>> for DiskFault {
    ghost use Rattle.std.specs.Prelude.{◌≡◌};
    ghost use Rattle.geometry.specs.declared.fault.DiskFault.TheVariants.{NoMemory};

    ghost from_gives = { λ _ e. e ≡ NoMemory };

    fn from(_: AllocFailed<T>) -> Self {
        DiskFault::NoMemory
    }
}

impl From<AllocError> for SuperFault {
    ghost use Rattle.std.specs.Prelude.{◌≡◌};
    ghost use Rattle.geometry.specs.declared.fault.SuperFault.TheVariants.{NoMemory};

    ghost from_gives = { λ _ e. e ≡ NoMemory };

    fn from(_: AllocError) -> Self {
        SuperFault::NoMemory
    }
}

impl From<DiskFault> for SuperFault {
    ghost use Rattle.std.specs.Prelude.{◌≡◌};
    ghost use Rattle.geometry.specs.Faults.{super_fault};

    ghost from_gives = { λ fault e. e ≡ super_fault fault };

    fn from(fault: DiskFault) -> Self {
        match fault {
            DiskFault::DeviceFault(dev) => SuperFault::DeviceFault(dev),
            DiskFault::NoMemory => SuperFault::NoMemory,
        }
    }
}
