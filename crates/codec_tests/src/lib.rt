//! Keys, sets of nodes and entries of the journal as bytes: the vectors of their formats, each fault at each field, random bytes, and
//! other bytes at each place. The crate holds tests alone.
#![tactic(auto)]

#[cfg(test)]
mod digits;
#[cfg(test)]
mod keys;
#[cfg(test)]
mod random_keys;
#[cfg(test)]
mod record_values;
#[cfg(test)]
mod records;
