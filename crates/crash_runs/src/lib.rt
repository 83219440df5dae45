//! Runs and formats over sources, sinks and devices in memory that crash at each call of their devices, or of which a call fails:
//! what they print, how many calls they make, their history and acknowledgements, and what the next run finds on what is left.
//! The crate holds tests alone. Whole runs that need no call to fail are those of `checks/golden`.
#![tactic(auto)]

#[cfg(test)]
mod blank_devices;
#[cfg(test)]
mod earlier_volumes;
#[cfg(test)]
mod failing_calls;
#[cfg(test)]
mod format_stages;
#[cfg(test)]
mod halted_sessions;
#[cfg(test)]
mod histories;
#[cfg(test)]
mod longer_script;
#[cfg(test)]
mod mended_nodes;
#[cfg(test)]
mod mending;
#[cfg(test)]
mod name_crashes;
#[cfg(test)]
mod session_numbers;
#[cfg(test)]
mod snapshot_crashes;
#[cfg(test)]
mod source_pieces;
#[cfg(test)]
mod steps;
#[cfg(test)]
mod sync_crashes;
#[cfg(test)]
mod syncs;
#[cfg(test)]
mod trials;
#[cfg(test)]
mod volumes;
