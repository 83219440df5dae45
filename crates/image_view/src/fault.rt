use vol_types::Place;

/// Why the image of a volume doesn't mount: the first of these that holds.
#[derive(Clone, Copy, PartialEq, Eq)]
pub enum MountFault {
    /// A device has no superblock.
    NoSuper,
    /// A superblock has another version than 1.
    Version,
    /// The superblocks aren't those of one volume's devices in their order.
    Mixed,
    /// A superblock has another form, or a number out of its range, or a device has fewer blocks than it says.
    BadLayout,
    /// No session is named, or no entry of the journal is whole.
    NoEntry,
    /// The entry of this sequence is needed, and isn't whole.
    MissingEntry(u64),
    /// At this place a node of a btree is bad.
    BadNode(Place),
    /// The keys fail this one of the eight checks.
    Unsound(u8),
    /// A call to this device failed.
    DeviceFault(u8),
    /// Out of memory.
    NoMemory,
}
