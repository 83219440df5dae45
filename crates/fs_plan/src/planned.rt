use forest_ops::{Op, Reply};
use vol_types::Updates;

/// What becomes of an operation: its updates, to be made at once, and its reply.
#[derive(PartialEq, Eq, Drop)]
pub struct Plan {
    pub op: Op,
    /// None where the operation is refused or changes nothing.
    pub updates: Updates,
    /// 0 stands for the number of a sync, which no forest knows.
    pub reply: Reply,
    /// Whether the operation is a commit: it changes the forest, and was done.
    pub commits: bool,
}

/// A plan without its operation.
#[derive(Drop)]
pub(crate) struct Outcome {
    pub updates: Updates,
    pub reply: Reply,
    pub commits: bool,
}
