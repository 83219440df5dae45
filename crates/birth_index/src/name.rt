use vol_types::{Btree, NodePtr, Pos};

/// Which node of which btree: its level, and the greatest position that it covers.
#[derive(Clone, Copy, PartialEq, Eq)]
pub struct NodeName {
    pub btree: Btree,
    pub level: u8,
    pub greatest: Pos,
}

/// A birth, with the name of the node that has it.
#[derive(Clone, Copy, PartialEq, Eq)]
pub struct Named {
    pub birth: u64,
    pub name: NodeName,
}

/// A node, by its name, and a pointer to put in the place of the one that it has. Once it was put, the one that it had.
#[derive(PartialEq, Eq, Drop)]
pub struct Exchange {
    pub name: NodeName,
    pub pointer: NodePtr,
}
