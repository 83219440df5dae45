use std::marker::Model;

/// How many operations a volume was called with, also those that were out of memory, up to 2^64 - 1. None but a volume counts them: who has the count of one knows
/// that so many operations were called of it.
#[derive(Drop)]
pub struct Calls {
    count: u64,
}

impl Model for Calls {
    ghost use Rattle.std.specs.Prelude.{ℕ};

    ghost Value = { ℕ };

    ghost view = { λ calls. calls.count };
}

impl Calls {
    ghost use Rattle.std.specs.Prelude.{◌≡◌};
    ghost use Rattle.core_actors.specs.Actors.{one_more};

    /// That of no call.
    pub fn none() -> Self
        ensures { result ≡ 0 }
    {
        Calls { count: 0 }
    }

    /// Counts a call.
    pub(crate) fn count_one(&mut self)
        ensures { self.new ≡ one_more self.old }
    {
        self.count = self.count.saturating_add(1);
    }

    /// The count.
    pub fn count(&self) -> u64
        ensures { result ≡ self.now }
    {
        self.count
    }
}
