//! What the keys of a volume mean: which value shows in a snapshot, which forest a key map stands for, and when it is
//! sound. Definitions and laws, which the planning of operations, mounting and checking cite. The functions do nothing;
//! each carries a few laws to its caller.
#![tactic(auto)]

mod changes;
mod examples;
mod laws;
mod numbers;
mod shared;

pub use changes::{
    blocks_are_updated, changes_stay_in_their_id, counters_are_updated, inodes_are_updated,
    names_are_updated, trees_take_a_name, trees_take_an_inode,
};
pub use examples::{whiteouts_hide, wrong_keys_are_refused};
pub use laws::{
    alike_ids_have_one_tree, forests_are_looked_up, forests_hang_on_their_blocks,
    fresh_keys_mean_fresh, sound_ids_are_apart, sound_is_all_checks, soundness_stays, updates_show,
};
pub use numbers::{counters_are_raised, numbers_are_drawn_upwards};
pub use shared::{blocks_are_covered, entries_stay_as_they_are, shared_keys_show_alike};
