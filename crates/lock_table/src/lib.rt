//! Locks on the nodes of a volume's btrees, for a fixed number of actors.
//!
//! An actor that is refused a lock waits only for a node that stands above all that it holds, in one order of all nodes;
//! else it drops all its locks and begins again. So nobody ever waits for itself, over no matter how many others: each
//! waits for a node above all that it holds, and the holder of that node waits, if it does, for one higher still.
//! [`sound_has_no_cycle`] says so of every table.
//!
//! A node that nobody holds takes no room here. Its sequence is then one number of the table, from which its next lock goes
//! on, so that no sequence which was seen with a node comes again after an exclusive use.
//!
//! `specs/Tables` says what a table of locks says, `specs/Calls` what each call answers and leaves, and `specs/Runs` what
//! lists of calls may lead to.
#![tactic(auto)]

mod holding;
mod laws;
mod name;
mod node;
mod table;
mod wait;

pub use laws::{
    calls_keep_sound, one_name_is_awaited, runs_are_sound, sequences_rise, sound_has_no_cycle,
};
pub use name::NodeName;
pub use table::{LockTable, Mode, Ruling};
