//! What an image of the devices of a volume means: its layout and session, the entries of its journal that count, the nodes of
//! its btrees, and the forest of its keys. Definitions and laws; the readers of images are elsewhere.
#![tactic(auto)]

mod fault;
mod key_updates;
mod laws;
mod needed_entries;
mod new_nodes;
mod next_entry;

pub use fault::MountFault;
pub use key_updates::updates_of_leaves_join_the_keys;
pub use laws::{
    crashes_keep_what_was_found, images_mean_their_bases, mending_changes_nothing,
    sessions_change_nothing_else, whole_entries_are_held,
};
pub use needed_entries::needed_entries_are_counted;
pub use new_nodes::{crashes_leave_new_nodes, new_nodes_are_found, new_nodes_hold_the_keys};
pub use next_entry::{blocks_of_a_session_are_numbered_below, crashes_leave_the_next_entry_or_not};
