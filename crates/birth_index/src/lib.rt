//! Which node of a volume's nine btrees has which birth.
//!
//! Each node has a birth, a number that was drawn once and that no other node has. An index leads from each birth to the
//! name of its node. Where nodes come in the place of one, the memory for their births is taken first, and what follows
//! can't fail.
#![tactic(auto)]

mod changing;
mod index;
mod laws;
mod making;
mod name;
mod nodes;
mod pointers;

pub use index::BirthIndex;
pub use laws::{births_differ, exchanges_are_kept, indexes_are_kept};
pub use making::IndexFault;
pub use name::{Exchange, Named, NodeName};
pub use nodes::IndexedNodes;
