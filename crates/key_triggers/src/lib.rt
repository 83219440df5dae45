//! Keys that follow the extents: how many blocks of each bucket are used, and to which extent a copy on a device belongs.
//!
//! A plan changes extents alone; `expand` adds to its updates what follows from that, so that one commit does both.
#![tactic(auto)]

mod changes;
mod expanding;
mod laws;
mod looks;
mod owners;
mod stamps;
mod tallies;
mod values;

pub use expanding::expand;
pub use laws::{expanded_keys_follow, expanded_updates_are_few};
