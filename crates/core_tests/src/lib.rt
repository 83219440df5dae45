//! Open volumes on devices in memory. What memory keeps of one, alone: random events beside a plain table, and each cause that refuses
//! a commit. A core: what its events are answered beside a plain model, how many device calls its syncs and checkpoints make, what is
//! written where, rounds of the journal's ring, and what is left where device calls fail. A volume: the entry of sixty files, the
//! numbers of two clients' files, a root at its limit, rounds of the ring, and what is left where calls fail. Each of the two goes to another thread. The crate holds tests alone.
#![tactic(auto)]

#[cfg(test)]
mod acts;
#[cfg(test)]
mod checkpoints;
#[cfg(test)]
mod core_threads;
#[cfg(test)]
mod crashes;
#[cfg(test)]
mod deeds;
#[cfg(test)]
mod draws;
#[cfg(test)]
mod entries;
#[cfg(test)]
mod failing;
#[cfg(test)]
mod file_crashes;
#[cfg(test)]
mod file_rounds;
#[cfg(test)]
mod images;
#[cfg(test)]
mod limits;
#[cfg(test)]
mod lists;
#[cfg(test)]
mod memory;
#[cfg(test)]
mod model;
#[cfg(test)]
mod moves;
#[cfg(test)]
mod numbers;
#[cfg(test)]
mod remains;
#[cfg(test)]
mod ring_rounds;
#[cfg(test)]
mod sessions;
#[cfg(test)]
mod shortages;
#[cfg(test)]
mod syncs;
#[cfg(test)]
mod volume_threads;
#[cfg(test)]
mod volumes;
#[cfg(test)]
mod works;
