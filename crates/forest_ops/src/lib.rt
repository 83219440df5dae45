//! Every operation on the plain forest: what it does, what it answers and why it is refused; and what a session's history
//! promises besides.
//!
//! A forest has a file tree for each subvolume and copies a tree whole where a volume shares it. Each reply of a volume
//! is the plain forest's, at its place in one history. Of the history itself this crate says when it is legal, what
//! acknowledgements and halts go with it, which failures have a cause, and how the replies to a script fit it.
#![tactic(auto)]

mod acks;
mod content;
mod directories;
mod finding;
mod fit_laws;
mod forest;
mod found;
mod laws;
mod name_table;
mod names;
mod operation;
mod parts;
mod place;
mod refusals;
mod subvolume;
mod subvolumes;
mod tally;

pub use acks::{Ack, Acks};
pub use fit_laws::one_phase_fits;
pub use forest::Forest;
pub use laws::{entries_are_steps, histories_go_on, only_commits_change_forests};
pub use operation::{Cause, Class, Entry, Op, Reply, Trace};
pub use subvolume::Subvolume;
