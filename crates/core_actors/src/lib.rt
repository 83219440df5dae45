//! What the actors of an open volume look at, what each of them has under way, what it may ask, and what it is answered.
//!
//! The keys are a key map, with the trees of snapshot ids beside it once they were asked for. What an actor has under way is a transaction of
//! an operation: its looks, and the updates that it intends.
#![tactic(auto)]

mod actor;
mod answer;
mod answering;
mod event;
mod keys;
mod nodes;

pub use actor::{Actor, Failure};
pub use answer::{Answer, NoSpace, Refusal};
pub use answering::find_keys;
pub use event::{Event, Work};
pub use keys::VolumeKeys;
pub use nodes::node_places;
