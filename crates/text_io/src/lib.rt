//! Where the program's text comes from and where its replies go: sources and sinks of bytes, in memory with failures
//! that are planned, and over std's readers and writers.
#![tactic(auto)]

mod adapters;
mod calls;
mod memory;
mod sink;
mod source;

pub use adapters::{StdSink, StdSource};
pub use memory::{MemSink, MemSource};
pub use sink::{Sink, give_all};
pub use source::{Source, TakeFault, take_all};
