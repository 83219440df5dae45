//! Plans of changes over key maps in memory: files that are cut and written in snapshots, names, inodes and what an id sees, the keys
//! that follow extents, and whole plans of operations, by tables. The crate holds tests alone.
#![tactic(auto)]

#[cfg(test)]
mod drawn_files;
#[cfg(test)]
mod extents;
#[cfg(test)]
mod files;
#[cfg(test)]
mod ids;
#[cfg(test)]
mod inodes;
#[cfg(test)]
mod looks;
#[cfg(test)]
mod name_plans;
#[cfg(test)]
mod names;
#[cfg(test)]
mod plans;
#[cfg(test)]
mod snapshot_costs;
#[cfg(test)]
mod subvolume_plans;
#[cfg(test)]
mod triggers;
#[cfg(test)]
mod views;
