//! What a volume keeps in memory, and the events that change it: transactions look at keys and commit updates, which join the
//! journal's open entry; entries are put in flight, written, settled and become durable; leaves are frozen, written anew and put in
//! place, so that the journal can let entries go.
//!
//! Each event is an actor's: one of 16 clients, or the reclaimer. What an actor has under way is changed by its own events
//! alone. The first look of a transaction takes the turn, which it has until it commits, finishes or is dropped; another
//! actor that looks meanwhile is told to wait. So what a transaction has looked at is so until it commits.
#![tactic(auto)]

mod device_events;
mod memory;
mod opening;

pub use core_actors::{Actor, Answer, Event, Failure, NoSpace, Refusal, Work, node_places};
pub use journal_writer::{Durable, Stage};
pub use memory::Memory;
