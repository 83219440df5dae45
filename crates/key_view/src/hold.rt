use std::alloc::{AllocError, AllocFailed};
use vol_types::{Lost, Short};

/// Why a look has no answer now.
#[derive(Debug, PartialEq, Eq, Drop)]
pub enum Hold {
    /// A lock is held by this actor, and the transaction waits for it with what it holds.
    Wait(u8),
    /// A lock is held by this actor, and the transaction has dropped what it held and begins again.
    Restart(u8),
    /// A call of this device failed.
    Fault(u8),
    /// The session has halted: a write of this device failed at this moment.
    Halted { dev: u8, tick: u64 },
    /// No place of a block gave what it should.
    Lost(Lost),
    /// There is too little space.
    Short(Short),
    /// The view made this turn's event, and goes on with the next turn.
    Turn,
    /// Out of memory.
    NoMemory,
}

impl From<AllocError> for Hold {
    ghost use Rattle.std.specs.Prelude.{◌≡◌};
    ghost use Rattle.key_view.specs.declared.hold.Hold.TheVariants.{NoMemory};

    ghost from_gives = { λ _ hold. hold ≡ NoMemory };

    fn from(_: AllocError) -> Self {
        Hold::NoMemory
    }
}

impl<T: Drop> From<AllocFailed<T>> for Hold {
    ghost use Rattle.std.specs.Prelude.{◌≡◌};
    ghost use Rattle.key_view.specs.declared.hold.Hold.TheVariants.{NoMemory};

    ghost from_gives = { λ _ hold. hold ≡ NoMemory };

    fn from(_: AllocFailed<T>) -> Self {
        Hold::NoMemory
    }
}
