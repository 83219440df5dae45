use crate::{Btree, Keys, Pos};

/// What a transaction asks a btree for.
#[derive(Clone, Copy, PartialEq, Eq)]
pub enum Query {
    /// The key at a position.
    At { btree: Btree, pos: Pos },
    /// The first key at or after a position.
    Starting { btree: Btree, pos: Pos },
    /// All keys from the first position to the last one, both included.
    Span { btree: Btree, first: Pos, last: Pos },
}

/// A query with its answer, which is empty where there is no such key.
#[derive(Drop)]
pub struct Look {
    pub query: Query,
    pub answer: Keys,
}
