//! Plans of operations on subvolumes: the updates by which one is made, a snapshot is made of one, or one is removed, or why the forest
//! refuses it. What each promises is said of every sound and tidy key map that gives the looks which were made. A snapshot changes a
//! handful of records, whatever its tree holds.
#![tactic(auto)]

mod counters;
mod listing;
mod making;
mod names;
mod removing;
mod slots;
mod snapshots;
mod updates;

pub use listing::list_subvolumes;
pub use making::make_subvolume;
pub use removing::remove_subvolume;
pub use snapshots::make_snapshot;
