//! The forest that a key map means, made in memory: subvolumes with their files, directories and names.
//!
//! A key map has the keys of all snapshots beside each other. A subvolume shows of each place the key of the nearest id of
//! its chain, and nothing where that is a whiteout. Here its tree is made of what it shows. No block is read, so a file has
//! its size in zeros.
#![tactic(auto)]

mod chains;
mod counters;
mod forests;
mod laws;
mod nearest;
mod trees;

pub use forests::forest_of;
pub use laws::{tidy_keys_are_meant, unread_blocks_are_zeros};
