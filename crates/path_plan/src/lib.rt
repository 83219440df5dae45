//! What plans of operations begin with and owe: to which inode the names of a path lead in the keys, by looks, or why the forest
//! refuses the path; and, as definitions, what the updates of a change are to make of the keys.
#![tactic(auto)]

mod subvolumes;
mod walking;

pub use subvolumes::{shared_subvolume, subvolume_of};
pub use walking::{Spot, directory_along, inode_of, reached_along, walk};
