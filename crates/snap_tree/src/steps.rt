ghost use Rattle.std.specs.Prelude.{◌≡◌};

/// A count of the links that searches for ancestors have followed.
#[derive(Clone, Copy, PartialEq, Eq)]
pub struct Steps {
    /// It stands still at its type's end.
    pub followed: u64,
}

impl Steps {
    /// The count before any search.
    pub fn new() -> Steps
        ensures { result.followed ≡ 0 }
    {
        Steps { followed: 0 }
    }
}
