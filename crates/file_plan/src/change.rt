use vol_types::Keys;

/// A change of a file's content.
#[derive(Drop)]
pub enum Change {
    /// These extents, of blocks from a first one on, whose blocks are written: each is a key of the file in the id, and covers
    /// blocks behind those of the one before it.
    Put { first: u64, extents: Keys },
    /// One truncation to a new size, which may be greater than the size that the file has.
    Cut { new: u64 },
}
