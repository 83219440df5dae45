//! Btrees of any number of levels on devices over time: what stands there while an open volume writes, what its leaves hold of the entries of the
//! journal that are needed, and how new nodes come to stand. The functions do nothing; each carries a few laws to its caller.
#![tactic(auto)]

mod checkpoints;
mod found;
mod fresh;
mod keys;
mod leaves;
mod naming;
mod nodes;

pub use checkpoints::{entries_of_btrees_are_safe, nodes_of_btrees_are_written_safely};
pub use found::found_btrees_stand_on_devices;
pub use fresh::{btrees_are_exchanged, written_nodes_stand};
pub use keys::{entries_hold_values_up_to_an_entry, leaves_hold_keys_up_to_entries};
pub use leaves::written_leaves_may_be_put_in_place;
pub use naming::standing_btrees_are_named;
pub use nodes::nodes_stand;
