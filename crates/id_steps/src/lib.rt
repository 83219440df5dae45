//! What becomes of the trees of snapshot ids, of the subvolumes and of what ids show where a subvolume is made, a snapshot is made of
//! one, or one is removed. The functions do nothing; each carries a few laws to its caller.
#![tactic(auto)]

mod entries;
mod examples;
mod fresh;
mod ids;
mod leaves;
mod removing;
mod snapshots;
mod subvolumes;

pub use entries::{each_subvolume_is_named, entries_put_subvolumes, slots_take_subvolumes};
pub use examples::{chains_of_snapshots, wrong_entries_are_refused};
pub use fresh::{fresh_ids_have_no_keys, other_ids_show_alike, split_leaves_show_alike};
pub use ids::{dead_leaves_stay, records_follow_updates, roots_stand_alone, splits_stay_joined};
pub use leaves::{live_leaves_are_counted, live_leaves_are_subvolumes, slots_are_counted};
pub use removing::subvolumes_are_removed;
pub use snapshots::snapshots_are_made;
pub use subvolumes::subvolumes_are_made;
