use std::alloc::{AllocError, AllocFailed};

/// Why a question about snapshot ids has no answer.
#[derive(Clone, Copy, Debug, PartialEq, Eq)]
pub enum SnapFault {
    /// An id that is named is missing, or a parent isn't above its child.
    NoNode,
    /// The id is no live leaf.
    NotLeaf,
    /// Fewer than two ids are left to be drawn.
    IdsSpent,
    /// Out of memory.
    NoMemory,
}

impl From<AllocError> for SnapFault {
    ghost use Rattle.std.specs.Prelude.{◌≡◌};
    ghost use Rattle.snap_tree.specs.declared.fault.SnapFault.TheVariants.{NoMemory};

    ghost from_gives = { λ _ fault. fault ≡ NoMemory };

    fn from(_: AllocError) -> Self {
        SnapFault::NoMemory
    }
}

impl<T: Drop> From<AllocFailed<T>> for SnapFault {
    ghost use Rattle.std.specs.Prelude.{◌≡◌};
    ghost use Rattle.snap_tree.specs.declared.fault.SnapFault.TheVariants.{NoMemory};

    ghost from_gives = { λ _ fault. fault ≡ NoMemory };

    fn from(_: AllocFailed<T>) -> Self {
        SnapFault::NoMemory
    }
}
