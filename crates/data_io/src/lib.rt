//! Blocks of files on devices: a block is written at each of its places, and read from the first place that still gives bytes
//! with its digest.
#![tactic(auto)]

mod fault;
mod reading;
mod writing;

pub use fault::DataFault;
pub use reading::get_block;
pub use writing::put_block;
