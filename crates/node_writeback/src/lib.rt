//! Nodes that are written anew: which one is to be frozen next, which of its keys are written, how far they are, and what
//! becomes of btrees, pins and buckets once all frozen nodes are written, or are given up.
//!
//! It works on btrees that are one leaf each, and leaves others alone. A leaf is frozen with its keys of durable entries: what later
//! entries changed is taken back in a copy of it. Commits go on meanwhile, and the oldest entry is noted that changed the leaf and whose keys
//! it lacks then, so that it pins that one in its new place. What was frozen is written as one set, into a new bucket on each
//! metadata device, each of the bucket's 16 blocks on every place before the next one. Once all frozen nodes are
//! written, and the devices were flushed, they are put in place together.
#![tactic(auto)]

mod due;
mod durable;
mod freezing;
mod laws;
mod node;
mod placing;
mod positions;
mod writer;

pub use due::leaf_due;
pub use durable::{durable_leaf, first_undurable};
pub use freezing::{FreezeFault, freeze_leaf};
pub use laws::{frozen_leaves_are_kept, leaves_are_put_in_place};
pub use node::{FrozenNode, UnfinishedNode};
pub use placing::{exchanges_of, give_up, put_in_place};
pub use writer::NodeWriter;
