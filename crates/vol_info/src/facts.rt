use vol_types::{Btree, Layout, Listing};

/// What is told of a volume.
#[derive(Drop)]
pub struct Facts {
    /// How it lies on its devices.
    pub layout: Layout,
    /// The session that wrote to it last.
    pub session: u64,
    /// The number of commits since it was formatted.
    pub commits: u64,
    /// The journal.
    pub journal: JournalFacts,
    /// The snapshot ids.
    pub ids: IdFacts,
    /// The btrees, in the order of their numbers.
    pub btrees: Listing<BtreeFacts>,
    /// The devices, in their order.
    pub devices: Listing<DeviceFacts>,
}

/// What is told of the journal.
#[derive(Clone, Copy)]
pub struct JournalFacts {
    /// The sequence of the newest entry.
    pub sequence: u64,
    /// The sequence of the oldest entry that is needed.
    pub oldest: u64,
    /// How many entries are needed, the newest one among them.
    pub entries: u64,
    /// How many blocks of the ring they take, from the first block of the oldest one to the last block of the newest one.
    pub blocks: u64,
}

/// What is told of the snapshot ids.
#[derive(Clone, Copy)]
pub struct IdFacts {
    /// How many subvolumes there are, snapshots among them: one for each id that is a live leaf.
    pub subvolumes: u64,
    /// How many ids have a record: those of subvolumes, those that snapshots were made of, and dead ones.
    pub ids: u64,
    /// How many were those of subvolumes that have been removed, whose keys aren't cleared.
    pub dead: u64,
}

/// What is told of a btree.
#[derive(Clone, Copy)]
pub struct BtreeFacts {
    pub btree: Btree,
    /// The level of its root; 0 where it is one leaf.
    pub level: u64,
    /// How many nodes it has.
    pub nodes: u64,
    /// How many keys its leaves have, with those that the journal alone has yet.
    pub keys: u64,
}

/// What is told of a device. Of its other buckets one has the superblocks, some have the journal on a device that keeps one, and the
/// rest are retired.
#[derive(Clone, Copy)]
pub struct DeviceFacts {
    pub dev: u64,
    /// How many buckets it has.
    pub buckets: u64,
    /// How many of them are free.
    pub free: u64,
    /// In how many of them a node or blocks of files lie.
    pub used: u64,
}
