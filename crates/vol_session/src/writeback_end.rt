use vol_core::{NoSpace, Refusal};
use vol_types::Halt;

/// Why a work on what is durable ends before it is done.
#[derive(Drop)]
pub enum WritebackEnd {
    /// A write or a flush of this device failed, so that the session stops writing.
    DeviceFault(u8),
    /// The session had stopped writing before.
    Halted(Halt),
    /// A number isn't left: of a sequence, a block of the journal, a birth, or a count of changes.
    Spent,
    /// There is no free bucket for a leaf, and a checkpoint begun anew would end alike.
    NoSpace(NoSpace),
    /// A leaf is too large by durable entries alone, or the ring has no room for an entry, as only an image of another program shows.
    Foreign(Refusal),
    /// Out of memory. What was done stays.
    NoMemory,
}
