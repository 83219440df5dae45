//! The plain reader of images: what is found in the image that devices hold, read from the superblocks down to the leaves of
//! the btrees.
//!
//! `image_view` defines what is found in an image. `read_plain` reads it in the order of that definition: the layout, the
//! session, the needed entries of the journal, and then each btree from its root down, level by level.
#![tactic(auto)]

mod changes;
mod fault;
mod found;
mod levels;
mod nodes;
mod reading;
mod trees;
mod twins;

pub use found::{FoundBtree, FoundVolume};
pub use reading::read_plain;
