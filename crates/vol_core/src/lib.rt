//! The core of an open volume: what it keeps in memory, and the devices on which it lies.
//!
//! All that happens to it is an event of an actor, one at a time. Those that are there look at keys and commit updates in memory,
//! and call no device. Others write the entries of the journal, in which what was committed is durable, and leaves of btrees anew, so that
//! the journal can let entries go. Those that split nodes, and that reserve, write and read blocks of files, are to come.
//!
//! Where the devices tell what they hold, and what was found on them was in order with each btree one leaf, whatever a crash leaves of them
//! means what some entry led to, and none before the last that was durable by then, as far as no torn block opens by chance.
#![tactic(auto)]

mod laws;
mod machine;
mod opening;

pub use core_state::{
    Actor, Answer, Durable, Event, Failure, Memory, NoSpace, Refusal, Stage, Work,
};
pub use machine::{Core, Unopened};
pub use opening::Opening;
