//! What stands in memory of a volume's btrees, and pins: nodes with their keys, leaves, levels, births, exchanges of pointers,
//! updates of the nodes above, key maps, trees of ids, and what a commit needs. The crate holds tests alone.
#![tactic(auto)]

#[cfg(test)]
mod above;
#[cfg(test)]
mod births;
#[cfg(test)]
mod dirty;
#[cfg(test)]
mod exchanges;
#[cfg(test)]
mod keys;
#[cfg(test)]
mod levels;
#[cfg(test)]
mod looks;
#[cfg(test)]
mod maps;
#[cfg(test)]
mod nodes;
#[cfg(test)]
mod pins;
#[cfg(test)]
mod pointers;
#[cfg(test)]
mod splits;
#[cfg(test)]
mod trees;
