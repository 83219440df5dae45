//! What a crash leaves of an open volume whose btrees are one leaf each: definitions and laws, which whoever writes calls.
//!
//! Each node of a btree holds the keys of its btree up to some needed entry of the journal, and pins the oldest of the later ones
//! that change it. Entries are written one after the other: at each moment an image means what one of them led to, and none before
//! the last durable one. Nodes are written whole into buckets of their own: while their blocks are written, what stands on the
//! devices stays; once all of them are and the devices are settled, the node stands, and the next entry may name it as a root. That entry
//! names the roots as they are, and needs the entries from the least pin on, so what it leads to has the durable keys. A bucket is
//! free only once an entry is durable that no longer leads to it.
#![tactic(auto)]

mod apart;
mod checkpoints;
mod entry_laws;
mod flight;
mod laws;
mod leaves;
mod naming;
mod parts;
mod safety;

pub use apart::nodes_lie_apart;
pub use checkpoints::{entries_of_leaves_are_safe, leaves_are_written_safely};
pub use entry_laws::{entries_are_written_safely, flushed_devices_are_settled};
pub use flight::entries_in_flight_are_found_or_not;
pub use laws::nodes_hold_keys_up_to_an_entry;
pub use leaves::leaves_stand;
pub use naming::{found_roots_are_leaves, leaf_roots_are_named};
pub use parts::node_parts_stand;
pub use safety::node_parts_are_written_safely;
