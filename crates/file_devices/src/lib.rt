//! Devices over image files: each file's whole pieces of 4,096 bytes are the blocks of a device.
//!
//! `FileDevices` is generic over `ImageFile`, one open file. Over files that tell what they hold, as `MemFile` in memory does, it tells it
//! as devices do. Over the files of the system it tells nothing: what a real file holds isn't proved.
#![tactic(auto)]

mod devices;
mod file;
mod image;
mod mark;
mod memory;
mod opening;
mod std_file;
mod trouble;

pub use devices::{FileDevices, MOST_DEVICES};
pub use file::ImageFile;
pub use memory::MemFile;
pub use opening::open_devices;
pub use trouble::{OpenFault, Trouble};

#[cfg(test)]
mod tests;
