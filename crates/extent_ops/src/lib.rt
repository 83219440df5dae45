//! Which extent of a file a block belongs to in a snapshot, and the updates by which an id takes blocks over: fresh ones, or
//! holes. An id's own extents and holes are cut; those of its ancestors never are.
//!
//! Each stands at its end, so that the keys of a file which cover some blocks end in their range, or in as many blocks behind it
//! as the longest extent or hole has (`reach`). Whoever keeps a key map keeps this number (`longest_with`, `longest_in`).
#![tactic(auto)]

mod above;
mod covering;
mod cutting;
mod laws;
mod looking;
mod parts;
mod stretches;
mod taking;

pub use covering::cover;
pub use laws::{taken_blocks_keep_keys, taken_blocks_show};
pub use looking::{
    longest_in, longest_with, looked_at_keys_are_content, reach, reached_keys_are_looked_at,
};
pub use taking::{overwrite, punch};
