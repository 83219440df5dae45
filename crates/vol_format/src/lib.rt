//! Making a volume of devices, in five steps, so that a crash in one leaves what was there, or nothing that mounts, or the fresh
//! volume: the forest with the empty subvolume `main`, over nine roots of one leaf each and a first entry that names them.
#![tactic(auto)]

mod bytes;
mod formatting;
mod fresh;
mod laws;
mod steps;
mod writing;

pub use formatting::{FormatFault, format};
pub use fresh::FreshBlocks;
