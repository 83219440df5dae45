use journal_ring::FoundEntry;
use vol_types::{Births, Ends, Layout, Listing, NodePtr, Pos, Value};

/// The nodes of a level, each behind the greatest position that it covers, in order.
pub type FoundLevel = Listing<(Pos, NodePtr)>;

/// Values, each behind its position, in order.
pub type FoundEntries = Listing<(Pos, Value)>;

/// A btree as it was found.
#[derive(Drop)]
pub struct FoundBtree {
    /// The keys of its leaves.
    pub entries: FoundEntries,
    /// Its nodes, level by level, from the leaves up.
    pub levels: Listing<FoundLevel>,
    /// For each node where its sets end, the topmost node first.
    pub ends: Ends,
    /// The births of its nodes of which some place lacks a set.
    pub ragged: Births,
}

/// What is found in the image of a volume.
#[derive(Drop)]
pub struct FoundVolume {
    pub layout: Layout,
    /// The session that wrote to it last.
    pub session: u64,
    /// The entries that are needed, the oldest first. The last one is the newest entry.
    pub needed: Listing<FoundEntry>,
    /// The btrees, in the order of their numbers.
    pub btrees: Listing<FoundBtree>,
}
