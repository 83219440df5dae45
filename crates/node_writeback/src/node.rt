use node_store::Blocked;
use vol_types::{Btree, NodePtr};

/// A node that is frozen: what is written of it, and where.
#[derive(Drop)]
pub struct FrozenNode {
    pub btree: Btree,
    /// The birth of the node that it takes the place of.
    pub birth: u64,
    /// The node as it is written: its birth, its level, and its places.
    pub fresh: NodePtr,
    /// The blocks of its bucket.
    pub blocked: Blocked,
}

/// A frozen node of which blocks are left to be written.
#[derive(Drop)]
pub struct UnfinishedNode {
    pub node: FrozenNode,
    /// How many blocks are written, fewer than 16.
    pub written: u8,
}
