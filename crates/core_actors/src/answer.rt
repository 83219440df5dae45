use dirty_nodes::NeedSplit;
use journal_ring::RingFull;
use journal_writer::Stage;
use snap_tree::SnapTree;
use std::sync::Arc;
use vol_types::{Halt, Keys, Short};

/// A metadata device has too few free buckets for the nodes that will have to be written.
#[derive(PartialEq, Eq, Drop)]
pub struct NoSpace {
    /// For each device its free buckets and those that are held back; it needs 0, since it is no extent that lacks a place.
    pub short: Short,
    /// A checkpoint would free none. Of a commit: no node is dirty, no bucket waits for an entry, and no node is frozen. Where a leaf is to
    /// be frozen: no bucket waits, and no entry with keys isn't durable, so that this work, begun anew, would end here again.
    pub idle: bool,
    /// How many commits of updates and of nodes there were in this session.
    pub changes: u64,
}

/// Why a commit isn't made, an entry isn't written, or nodes aren't. The transaction stands as it was.
#[derive(PartialEq, Eq, Drop)]
pub enum Refusal {
    /// The session has stopped writing.
    Halted(Halt),
    /// A leaf would be larger than nodes may be; or one that is to be frozen is, by durable entries alone, which no commits of this
    /// program lead to.
    NeedSplit(NeedSplit),
    /// A number that the event would draw isn't left: a sequence, a journal block, a birth, a count of commits or of changes.
    Spent,
    /// The journal would have fewer than 64 blocks left after a commit, or has no room for an entry that is to be written. The last
    /// is so of no volume that this program wrote.
    RingFull(RingFull),
    /// There would be too few free buckets for nodes after a commit; or there is none for a leaf that is to be frozen, and then the work
    /// on nodes has ended, and their buckets are free again.
    NoSpace(NoSpace),
}

/// What an event is answered.
#[derive(Drop)]
pub enum Answer {
    /// It happened.
    Done,
    /// The keys that a query asks for.
    Found(Keys),
    /// The trees of snapshot ids, which are shared and not copied.
    Ids(Arc<SnapTree>),
    /// The next event that a work needs, and whether the commits are durable that stood at the actor's last `Begin`, or all
    /// commits where it has no operation.
    At { stage: Stage, durable: bool },
    /// Another actor has the turn.
    Wait { holder: u8 },
    /// The event doesn't happen.
    Refused(Refusal),
    /// A write or a flush of this device failed: the session stops writing.
    DeviceFault(u8),
    /// Out of memory. Nothing has changed.
    NoMemory,
}
