ghost use Rattle.std.specs.Prelude.{◌<◌, length};

use btree_map::KeyMap;
use journal_ring::FoundEntry;
use vol_types::{Births, Ends, Layout, Listing};

/// A volume as it was found, with its keys in memory.
#[derive(Drop)]
pub struct Loaded {
    /// How it lies on its devices.
    pub layout: Layout,
    /// The session that wrote to it last.
    pub session: u64,
    /// The entries of the journal that are needed, the oldest first. The last one is the newest entry.
    pub needed: Listing<FoundEntry>,
    /// The keys and nodes of its btrees.
    pub map: KeyMap,
    /// For each node where its sets end, btree by btree.
    pub ends: Ends,
    /// The births of the nodes of which some place lacks a set.
    pub ragged: Births,
    // The newest entry is one of those that are needed.
    ghost some: { 0 < length needed },
}
