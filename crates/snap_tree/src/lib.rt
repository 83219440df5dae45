//! The trees that snapshot ids form: the chain of an id up to its root, ancestry, and the split of a leaf.
//!
//! A snapshot makes two ids under the one that its source had, which becomes interior. What an id sees is what stands at
//! the ids of its chain, the nearest one first. Each id keeps links to its ancestors 1, 2, 4 and so on above it, so that
//! ancestry costs logarithms of the length of a chain. Which ids name which is kept as an index, so that an update costs
//! what stands below the ids that it changes, and not all ids.
#![tactic(auto)]

mod change;
mod fault;
mod greatest;
mod laws;
mod links;
mod names;
mod settle;
mod split;
mod stale;
mod steps;
mod tree;
mod update;

pub use fault::SnapFault;
pub use laws::{chains_rise, nearest_ancestor_is_first, removals_drop_one_id, splits_make_trees};
pub use split::Split;
pub use steps::Steps;
pub use tree::SnapTree;
