//! What lies on devices in memory: superblocks and sessions, nodes of btrees with their sets, entries of a journal, those that wait and
//! those that areas hold, and blocks of files; and the buckets of two devices beside a plain list of states. The crate holds tests alone.
#![tactic(auto)]

#[cfg(test)]
mod bad_nodes;
#[cfg(test)]
mod buckets;
#[cfg(test)]
mod data;
#[cfg(test)]
mod journals;
#[cfg(test)]
mod layouts;
#[cfg(test)]
mod mended;
#[cfg(test)]
mod nodes;
#[cfg(test)]
mod queues;
#[cfg(test)]
mod superblocks;
