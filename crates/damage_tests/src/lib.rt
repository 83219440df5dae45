//! Images of volumes that are made by hand, block by block, and what `read_plain` and `load` find in them or refuse: entries that are
//! torn, that stand on one mirror alone or that wrap around the ring, nodes of one, of two and of three levels, and 300 images of which random blocks
//! are spoiled. Lists of what is found, of which some are no key map. And what a format writes, in its steps, and what a crash between
//! them leaves. The crate holds tests alone.
#![tactic(auto)]

#[cfg(test)]
mod blocks;
#[cfg(test)]
mod bytes;
#[cfg(test)]
mod formats;
#[cfg(test)]
mod found;
#[cfg(test)]
mod images;
#[cfg(test)]
mod journals;
#[cfg(test)]
mod key_maps;
#[cfg(test)]
mod levels;
#[cfg(test)]
mod losses;
#[cfg(test)]
mod outcomes;
#[cfg(test)]
mod spoiled;
#[cfg(test)]
mod spoiling;
#[cfg(test)]
mod tables;
#[cfg(test)]
mod trees;
