//! Locks and turns: what each call on the lock of a node and on a table of locks answers, the order of nodes, the sequences that
//! they leave, and numbers that threads draw by turns. The crate holds tests alone.
#![tactic(auto)]

#[cfg(test)]
mod draws;
#[cfg(test)]
mod modes;
#[cfg(test)]
mod tables;
