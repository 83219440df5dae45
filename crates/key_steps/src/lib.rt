//! The steps of which every operation on the files of a subvolume is made, each with one law: what shows in the subvolume's id
//! after it, as a value, and that all that is said of the keys together stays. What an operation owes besides it owes once, at
//! its end, of that value alone. The functions do nothing; each carries a few laws to its caller.
#![tactic(auto)]

mod closing;
mod kept;
mod shown;
mod steps;

pub use closing::steps_end_in_good_trees;
pub use kept::{kept_names_are_apart, shown_numbers_are_drawn, sound_keys_are_kept_and_good};
pub use shown::shown_keys_mean_trees;
pub use steps::{
    counters_are_steps, files_go_in_steps, inodes_are_steps, names_are_steps,
    steps_follow_each_other, updates_are_planned_once,
};
