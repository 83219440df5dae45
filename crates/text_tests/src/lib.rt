//! What is read and printed: arguments of the command line, bytes in pieces, and lines of scripts and replies; and scripts over a forest
//! without devices: the examples of docs/SEMANTICS.md, refusals in their order, and forests at their limits. The crate holds tests alone.
#![tactic(auto)]

#[cfg(test)]
mod commands;
#[cfg(test)]
mod examples;
#[cfg(test)]
mod forests;
#[cfg(test)]
mod pieces;
#[cfg(test)]
mod printing;
#[cfg(test)]
mod reading;
#[cfg(test)]
mod tables;
