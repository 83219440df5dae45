//! The nodes of a btree without their keys: which node of which level covers which positions, and where each lies.
//!
//! The nodes of a level follow each other without a gap, from the least position to the greatest one. So a level is a map
//! from the greatest position that a node covers to its pointer, and what a node above the leaves holds is known from the
//! level below. That births differ is not kept here: whoever has an index by birth keeps it.
#![tactic(auto)]

mod laws;
mod level;
mod shape;
mod tree;

pub use laws::{changes_leave_trees, children_tile, positions_are_covered, ranges_are_divided};
pub use level::LevelNodes;
pub use tree::{NotATree, TreeNodes};
