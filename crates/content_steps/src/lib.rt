//! The steps by which the content of a file changes: blocks that are put or cut, and the keys on space that follow; and what an
//! operation owes of a file whose blocks or size changed. The functions do nothing; each carries a few laws to its caller.
#![tactic(auto)]

mod closing;
mod contents;
mod files;
mod lists;
mod plain;
mod space;
mod steps;
mod trees;

pub use closing::contents_end_in_good_trees;
pub use contents::contents_stay_good;
pub use files::planned_contents_change_files;
pub use lists::written_bytes_are_put;
pub use plain::plans_leave_space;
pub use space::space_follows_in_steps;
pub use steps::{blocks_are_planned_once, blocks_are_steps, steps_but_space_follow_each_other};
pub use trees::good_trees_take_bytes;
