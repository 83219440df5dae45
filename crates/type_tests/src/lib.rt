//! Copies of the shared types, sealed blocks, and devices in memory: that values and lists are copied where memory is ample, a
//! block and what is put out of order in one, and what a crash, a plan of failures and a patch leave of devices. The crate
//! holds tests alone.
#![tactic(auto)]

#[cfg(test)]
mod blocks;
#[cfg(test)]
mod copies;
#[cfg(test)]
mod devices;
