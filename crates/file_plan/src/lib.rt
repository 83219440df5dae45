//! The updates that change the content of a file, and the blocks that are written anew for it.
//!
//! A file's blocks are put by extents of up to 16 blocks, each at places that were reserved for it, and cut from its end.
//! Bytes behind the end of a file count for nothing: where it grows, the block of its old end is written anew with zeros behind
//! that end, and put in front of the other extents. All updates are of the id that sees the file so.
//!
//! A look for blocks takes the keys of the file that end in their range, or in as many blocks behind it as the longest extent or hole
//! of the volume has, and costs a step for each of them: a view is told this number (`Contents::longest`).
#![tactic(auto)]

mod block_io;
mod blocks;
mod change;
mod changing;
mod contents;
mod ends;
mod laws;
mod overlays;
mod plain_contents;
mod runs;
mod sizes;

pub use block_io::{BlockIo, KnownBlock, Reservation};
pub use blocks::shown_block;
pub use change::Change;
pub use changing::content;
pub use contents::Contents;
pub use ends::{end_block, write_end};
pub use laws::{
    changes_are_few, ends_go_first, files_take_content, runs_are_fresh, sound_files_have_content,
    writes_are_put,
};
pub use overlays::block_after;
pub use plain_contents::PlainContents;
pub use runs::write_run;
pub use sizes::cut_size;
