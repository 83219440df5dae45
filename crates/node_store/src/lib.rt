//! Nodes of btrees on devices. A node lies in one bucket of 16 blocks on each of its places, and is stored as sets of keys,
//! one behind the other: each set is a record of sealed blocks, and a later one counts over an earlier one.
//!
//! | field of a block's head | value |
//! |---|---|
//! | kind, version | 3, 1 |
//! | part, parts | which of the set's blocks it is, and how many there are |
//! | id | the volume's |
//! | owner | the node's birth |
//! | number | the block within the bucket, 0 to 15 |
//! | sequence | the newest entry whose keys the set holds |
//!
//! `specs/StoredSets` says which sets the blocks of a bucket hold and where they end, `specs/NodeContents` what the node
//! holds by them. `read_node` reads that, `plan_set` seals the blocks of one set, and `write_part` writes one of these on
//! each place of the node. `mend_node` writes blocks of a node at places that lack them.
#![tactic(auto)]

mod alike;
mod contents;
mod fault;
mod laws;
mod mending;
mod opening;
mod planning;
mod reading;
mod sets;
mod writing;

pub use fault::{NodeFault, SetFault};
pub use laws::failed_reads_are_made_up;
pub use mending::mend_node;
pub use opening::OpenBlock;
pub use planning::{Blocked, plan_set};
pub use reading::{ReadNode, read_node};
pub use sets::{StoredSet, StoredSets};
pub use writing::write_part;
