//! The lock of a node, with three modes: shared, intent and exclusive (a "SIX lock", as bcachefs has it).
//!
//! Any number of actors read beside each other under shared. One of them may hold intent beside them: it will write, and
//! keeps others from wanting the same. It writes under exclusive, beside nobody. No call waits: a request that can't be
//! granted names who is in the way. Beside `new` no call takes memory.
//!
//! `specs/Locks` says which modes go together and what each call answers and leaves.
#![tactic(auto)]

mod lock;

pub use lock::{Ask, Six};
