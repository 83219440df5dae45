/// The bytes of a block.
pub const BLOCK_SIZE: usize = 4096;

/// The blocks of a bucket.
pub const BUCKET_BLOCKS: u32 = 16;

/// The most bytes of a node's keys as one set, so that the set fits 12 of its bucket's blocks.
pub const NODE_LIMIT: u32 = 47_616;

/// The bytes before the keys of a set.
pub const SET_HEAD: u128 = 56;
