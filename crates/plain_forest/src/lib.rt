//! What a volume means: a plain forest of file trees, with the names and paths that lead through it.
//!
//! A forest has a file tree for each subvolume and copies a tree whole where a volume shares it. What operations do to it is in
//! `forest_ops`.
#![tactic(auto)]

mod operation;
mod path;

pub use operation::Cause;
pub use path::Path;
