use geometry::DiskFault;
use std::alloc::{AllocError, AllocFailed};
use vol_types::Place;

/// Why a node wasn't read or written.
#[derive(Clone, Copy, Debug, PartialEq, Eq)]
pub enum NodeFault {
    /// A call to this device failed.
    DeviceFault(u8),
    /// The blocks don't hold this node. It is the block of the first place at which that shows.
    BadNode(Place),
    /// Out of memory.
    NoMemory,
}

impl From<AllocError> for NodeFault {
    ghost use Rattle.std.specs.Prelude.{◌≡◌};
    ghost use Rattle.node_store.specs.declared.fault.NodeFault.TheVariants.{NoMemory};

    ghost from_gives = { λ _ e. e ≡ NoMemory };

    fn from(_: AllocError) -> Self {
        NodeFault::NoMemory
    }
}

/// Why the blocks of a bucket don't hold a node.
#[derive(Clone, Copy, PartialEq, Eq)]
pub enum SetFault {
    /// This block of the bucket is at fault.
    BadBlock(u8),
    /// Out of memory.
    NoMemory,
}

impl From<AllocError> for SetFault {
    ghost use Rattle.std.specs.Prelude.{◌≡◌};
    ghost use Rattle.node_store.specs.declared.fault.SetFault.TheVariants.{NoMemory};

    ghost from_gives = { λ _ e. e ≡ NoMemory };

    fn from(_: AllocError) -> Self {
        SetFault::NoMemory
    }
}

impl<T: Drop> From<AllocFailed<T>> for SetFault {
    ghost use Rattle.std.specs.Prelude.{◌≡◌};
    ghost use Rattle.node_store.specs.declared.fault.SetFault.TheVariants.{NoMemory};

    ghost from_gives = { λ _ e. e ≡ NoMemory };

    fn from(_: AllocFailed<T>) -> Self {
        SetFault::NoMemory
    }
}
