//! What a change of an operation makes of what shows in a subvolume's id, and of the tree that it means: where what shows is
//! good and the operation's refusals are passed, what shows after the change is good, and means the changed tree. And how an
//! operation begins, in sound and tidy keys. The functions do nothing; each carries a few laws to its caller.
#![tactic(auto)]

mod beginning;
mod changes;

pub use beginning::{places_stand_in_trees, subvolumes_begin_good};
pub use changes::{good_trees_are_changed, moved_names_are_good};
