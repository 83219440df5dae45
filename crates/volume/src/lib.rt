//! An open volume: operations of 16 clients over a session, each answered with what the forest answers, or with a failure that has a cause.
//!
//! An operation is planned by looks at the keys in memory, and committed, or its reply told. Where the journal or the buckets are short, a checkpoint is made
//! before the commit is tried again; so a volume that is short of these alone is never refused for it.
#![tactic(auto)]

mod calls;
mod committing;
mod planner;
mod serving;
mod state;

pub use calls::Calls;
pub use state::{Finished, VolState};
