/// The next step that a work on what is durable needs: the journal, or nodes that are written.
#[derive(Clone, Copy, PartialEq, Eq)]
pub enum Stage {
    /// None.
    Rest,
    /// The oldest entry that isn't durable is to be put in flight: a closed one, or the open one, which is closed then.
    Seal,
    /// The next part of the entry in flight is to be written.
    WriteEntry,
    /// This device is to be flushed.
    Flush(u8),
    /// All of the entry in flight is settled, and it is to be taken as the last durable one.
    Settle,
    /// The node of this birth is to be frozen.
    Freeze(u64),
    /// The next block of what is frozen of the node of this birth is to be written.
    WriteSet(u64),
    /// All frozen nodes are written and settled, and are to be put in place.
    CommitNodes,
}
