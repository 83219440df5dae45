use crate::{Duplicate, Places};
use std::alloc::{AllocError, Global};

/// A block of a device.
#[derive(Clone, Copy, Debug, PartialEq, Eq)]
pub struct Place {
    pub dev: u8,
    pub block: u32,
}

impl Duplicate for Place {
    fn copy(&self, _alloc: Global) -> Result<Self, AllocError> {
        Ok(*self)
    }
}

/// Where a copy of an extent lies: its first block, with the generation of that block's bucket. A bucket that was
/// given to others since has a greater generation.
#[derive(Clone, Copy, PartialEq, Eq)]
pub struct Pointer {
    pub place: Place,
    pub generation: u32,
}

impl Duplicate for Pointer {
    fn copy(&self, _alloc: Global) -> Result<Self, AllocError> {
        Ok(*self)
    }
}

/// Where a node of a btree lies. A place is the first block of a bucket.
#[derive(PartialEq, Eq, Drop)]
pub struct NodePtr {
    pub birth: u64,
    pub level: u8,
    pub places: Places,
}

impl Duplicate for NodePtr {
    fn copy(&self, alloc: Global) -> Result<Self, AllocError> {
        Ok(NodePtr {
            birth: self.birth,
            level: self.level,
            places: self.places.copy(alloc)?,
        })
    }
}

/// Up to where a node's bucket is written: the node's birth, and the first block after its last set.
#[derive(Clone, Copy, PartialEq, Eq)]
pub struct NodeEnd {
    pub birth: u64,
    pub block: u8,
}
