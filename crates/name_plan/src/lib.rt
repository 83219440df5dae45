//! Plans of operations on names: the updates by which a file or a directory is made, linked, unlinked, removed or renamed, or why the
//! forest refuses it. What each promises is said of every sound and tidy key map that gives the looks which were made.
#![tactic(auto)]

mod directories;
mod files;
mod linking;
mod making;
mod name_steps;
mod removing;
mod renaming;
mod unlinking;

pub use linking::link;
pub use making::make;
pub use removing::remove_directory;
pub use renaming::rename;
pub use unlinking::unlink;
