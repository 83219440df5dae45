use vol_types::{Query, Updates};

/// A work on what is durable, whose events any actor may make.
#[derive(Clone, Copy, PartialEq, Eq)]
pub enum Work {
    /// Entries of the journal are written.
    Journal,
    /// Nodes are written anew, so that the journal can let entries go.
    Nodes,
}

/// What an actor asks of the volume.
#[derive(PartialEq, Eq, Drop)]
pub enum Event {
    /// Begins a transaction of an operation, or, where it isn't the first one, a further one of the same operation.
    Begin { first: bool },
    /// Looks for keys.
    Look(Query),
    /// Looks at the trees of all snapshot ids.
    LookIds,
    /// Says which updates the transaction is to make, in place of any that it said before.
    Intend(Updates),
    /// Makes the updates that the transaction intends, all or none. One that counts ends the operation.
    Commit { counted: bool },
    /// Ends the operation without a commit.
    Finish,
    /// Gives the transaction up; the operation stays.
    Drop,
    /// Asks what a work needs next.
    Next(Work),
    /// Puts the oldest entry in flight that isn't durable: a closed one, or the open one, which is closed then.
    Seal,
    /// Writes the next part of the entry in flight on every metadata device.
    WriteEntry,
    /// Flushes a device.
    Flush(u8),
    /// Takes the entry in flight, all of which is settled, as the last durable one.
    Settle,
    /// Freezes the leaf of this birth: its keys of durable entries are what is written of it, into new buckets.
    Freeze(u64),
    /// Writes the next block of what is frozen of the leaf of this birth, on every metadata device.
    WriteSet(u64),
    /// Puts all frozen leaves in place, once they are written and settled.
    CommitNodes,
}
