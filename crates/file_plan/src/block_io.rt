use vol_types::{Bytes, Listing, Places, Pointers};

/// A block whose bytes are known: they were read at its places, or written there.
#[derive(Drop)]
pub struct KnownBlock {
    pub places: Places,
    pub digest: u64,
    pub bytes: Bytes,
}

/// Places that were reserved: for each copy the first one of so many blocks.
#[derive(Drop)]
pub struct Reservation {
    pub pointers: Pointers,
    pub blocks: u8,
}

/// What was read, reserved and written of blocks, each in its order.
#[derive(Drop)]
pub struct BlockIo {
    pub read: Listing<KnownBlock>,
    pub reserved: Listing<Reservation>,
    pub written: Listing<KnownBlock>,
}
