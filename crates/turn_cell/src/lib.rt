//! A machine that threads share by turns.
//!
//! A `Machine` takes events of its actors, one at a time, and keeps a trace of them. A `TurnCell` holds one machine, and each
//! thread has a `Pass` for one actor. A call of `TurnCell::step` takes the turn, makes one event of the machine, and gives
//! the turn back, so the events of all threads stand in the machine's one trace. The pass knows the prefix of the trace that
//! it has seen, and what the machine keeps of its actor.
//!
//! `specs/Passes` says what each call does to a pass; `specs/Rule` has what the cell keeps between any two atomic steps.
#![tactic(auto)]

mod cell;
mod machine;
mod pass;
mod plays;
mod view;

pub use cell::TurnCell;
pub use machine::Machine;
pub use pass::Pass;
pub use view::{Ledger, Standing, View};
