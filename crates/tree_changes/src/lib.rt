//! What operations make of a tree: which names lead to each inode after a change, and that the directories still form a tree.
//! Laws on plain values, which the planning of operations cites. The functions do nothing; each carries a few laws to its caller.
#![tactic(auto)]

mod trees;

pub use trees::{changed_trees_are_well_formed, names_are_counted, refusals_that_are_passed};
