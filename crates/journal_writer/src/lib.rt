//! The entries of a volume's journal that aren't durable yet: those that wait, and the one that is written.
//!
//! An entry takes 1 to 64 blocks. A commit with which the open entry would take more closes it first, and joins a new one.
//! Beside each update stands the value that its position had before it, so that the keys of durable entries can be got
//! back from those in memory: what isn't durable is taken back, the newest first.
//!
//! An entry that is put in flight is written by steps: every device on which something isn't settled is flushed, so that what the
//! entry leads to is durable before it; then its parts are written, each on every metadata device; then these are flushed. After that it is
//! the last durable entry, and what it needs no more is let go. Which step is next is `stage`; who takes the steps is left to the caller.
#![tactic(auto)]

mod changes;
mod durable;
mod entry_size;
mod flags;
mod laws;
mod open_entry;
mod queue;
mod sizes;
mod stage;
mod writer;

pub use changes::{KeyChanges, Pending, has_keys_of, taken_back};
pub use durable::Durable;
pub use entry_size::EntrySize;
pub use laws::{
    btrees_change_from_their_first_entry, commits_are_undone, commits_leave_queues, entries_fit,
    entries_leave_in_turn, waiting_changes_lead_from_durable_keys,
};
pub use queue::EntryQueue;
pub use stage::Stage;
pub use writer::{EntryWriter, Flight, Unsealed, Why};
