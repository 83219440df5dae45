use crate::{Counts, Duplicate};
use std::alloc::{AllocError, Global};

/// Why there was no space: how many blocks the first extent without a place needs, or 0 where it was no extent, and
/// for each device its free buckets and those that are held back.
#[derive(Debug, PartialEq, Eq, Drop)]
pub struct Short {
    pub need: u8,
    pub free: Counts,
    pub held: Counts,
}

impl Duplicate for Short {
    fn copy(&self, alloc: Global) -> Result<Self, AllocError> {
        let free = self.free.copy(alloc)?;
        match self.held.copy(alloc) {
            Ok(held) => Ok(Short {
                need: self.need,
                free,
                held,
            }),
            Err(failed) => {
                drop(free);
                Err(failed)
            }
        }
    }
}
