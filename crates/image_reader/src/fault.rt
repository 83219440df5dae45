ghost use Rattle.std.specs.Prelude.{◌≡◌};
ghost use Rattle.image_view.specs.Found.{super_fault};
ghost use Rattle.image_reader.specs.Faults.{disk_fault, mount_fault, tree_fault};

use geometry::{DiskFault, SuperFault};
use image_view::MountFault;
use node_store::NodeFault;
use std::alloc::{AllocError, AllocFailed};
use vol_types::Place;

/// Why a btree wasn't read.
#[derive(Clone, Copy, PartialEq, Eq)]
pub(crate) enum TreeFault {
    /// At this place a node is bad.
    BadNode(Place),
    /// A call to this device failed.
    DeviceFault(u8),
    /// Out of memory.
    NoMemory,
}

impl From<AllocError> for TreeFault {
    ghost use Rattle.std.specs.Prelude.{◌≡◌};
    ghost use Rattle.image_reader.specs.declared.fault.TreeFault.TheVariants.{NoMemory};

    ghost from_gives = { λ _ e. e ≡ NoMemory };

    fn from(_: AllocError) -> Self {
        TreeFault::NoMemory
    }
}

impl<T: Drop> From<AllocFailed<T>> for TreeFault {
    ghost use Rattle.std.specs.Prelude.{◌≡◌};
    ghost use Rattle.image_reader.specs.declared.fault.TreeFault.TheVariants.{NoMemory};

    ghost from_gives = { λ _ e. e ≡ NoMemory };

    fn from(_: AllocFailed<T>) -> Self {
        TreeFault::NoMemory
    }
}

/// The fault of a node as one of its btree.
pub(crate) fn tree_fault(fault: NodeFault) -> TreeFault
    ensures { result ≡ tree_fault fault }
{
    match fault {
        NodeFault::BadNode(place) => TreeFault::BadNode(place),
        NodeFault::DeviceFault(dev) => TreeFault::DeviceFault(dev),
        NodeFault::NoMemory => TreeFault::NoMemory,
    }
}

/// The fault of a btree as one of its volume.
pub(crate) fn mount_fault(fault: TreeFault) -> MountFault
    ensures { result ≡ mount_fault fault }
{
    match fault {
        TreeFault::BadNode(place) => MountFault::BadNode(place),
        TreeFault::DeviceFault(dev) => MountFault::DeviceFault(dev),
        TreeFault::NoMemory => MountFault::NoMemory,
    }
}

/// The fault of superblocks as one of their volume.
pub(crate) fn layout_fault(fault: SuperFault) -> MountFault
    ensures { result ≡ super_fault fault }
{
    match fault {
        SuperFault::NoSuper => MountFault::NoSuper,
        SuperFault::Version => MountFault::Version,
        SuperFault::Mixed => MountFault::Mixed,
        SuperFault::BadLayout => MountFault::BadLayout,
        SuperFault::DeviceFault(dev) => MountFault::DeviceFault(dev),
        SuperFault::NoMemory => MountFault::NoMemory,
    }
}

/// The fault of a call on several devices as one of their volume.
pub(crate) fn disk_fault(fault: DiskFault) -> MountFault
    ensures { result ≡ disk_fault fault }
{
    match fault {
        DiskFault::DeviceFault(dev) => MountFault::DeviceFault(dev),
        DiskFault::NoMemory => MountFault::NoMemory,
    }
}
