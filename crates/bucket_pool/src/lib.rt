//! The space of a volume: what each bucket of each device is used for, which blocks are reserved for whom, and when a
//! bucket that was emptied may be given again.
//!
//! A bucket is 16 blocks; bucket b of a device begins at its block 16 * b. An actor writes into a bucket that is open for
//! it: it reserves blocks there, and a commit keeps those that its keys use. A bucket that a commit emptied waits until the
//! commit's entry in the journal is durable, and is free from then on.
#![tactic(auto)]

mod bucket;
mod device;
mod fault;
mod groups;
mod laws;
mod opening;
mod pool;

pub use bucket::{Bucket, OpenBucket, Run, Slot, State};
pub use fault::PoolFault;
pub use laws::{
    buckets_stay, nodes_keep_their_buckets, reservations_are_whole, reserved_blocks_are_unused,
};
pub use pool::Pool;
