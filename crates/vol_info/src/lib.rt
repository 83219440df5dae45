//! What a volume holds, in numbers: how it lies on its devices, how far its journal is, how many subvolumes and snapshot
//! ids it has, how large its btrees are, and what is free.
//!
//! `read_facts` reads the image that devices hold, as `read_plain` does, and writes nothing. `facts_text` says the facts in lines.
#![tactic(auto)]

mod btrees;
mod facts;
mod ids;
mod reading;
mod space;
mod text;

pub use facts::{BtreeFacts, DeviceFacts, Facts, IdFacts, JournalFacts};
pub use reading::read_facts;
pub use text::facts_text;
