//! The key map of a volume in memory: nine btrees as one finite map, with their nodes.
//!
//! The keys of a btree and its nodes stand beside each other, and meet at the leaves: these are the nodes of level 0, and
//! cut the keys. A change of keys leaves the nodes, and a change of nodes leaves the keys. No two nodes have one birth, and
//! each is found by its birth.
#![tactic(auto)]

mod applying;
mod births;
mod laws;
mod map;
mod nodes;
mod parts;
mod sizes;

pub use birth_index::{Exchange, IndexFault, NodeName};
pub use laws::btrees_hold_a_key_map;
pub use map::KeyMap;
pub use parts::NotAKeyMap;
pub use sizes::NodeSize;
