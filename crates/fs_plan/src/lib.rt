//! Plans of operations: what an operation answers, and the updates that make it so.
//!
//! A plan is made by looks at a key map alone. What it promises is said of every sound and tidy key map that gives these looks:
//! the reply is that of the forest which the key map means, and with the updates it means the forest after the operation.
#![tactic(auto)]

mod listing;
mod planned;
mod planning;
mod slots;
mod status;
mod syncing;

pub use planned::Plan;
pub use planning::{is_planned, plan};
