//! What a commit of updates would need, before it is made: whether a leaf has to be split first, which nodes it makes dirty,
//! and the snapshot ids that there will be.
#![tactic(auto)]

mod dirty;
mod ids;
mod laws;
mod splits;

pub use dirty::{DirtyNodes, Paths, paths_of};
pub use ids::{changes_ids, ids_updated, trees_after};
pub use laws::{
    changed_pins_are_known, dirty_nodes_are_marked, moved_pins_are_known, moved_roots_are_marked,
    other_updates_leave_ids,
};
pub use splits::{NeedSplit, split_needed};
