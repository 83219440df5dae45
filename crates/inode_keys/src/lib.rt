//! What changes where an inode changes: its own key in the id that sees it so. And which number a new inode gets, which fields it
//! has, and the note that a file is gone.
#![tactic(auto)]

mod fields;
mod gone;
mod inodes;
mod numbers;

pub use fields::{new_inode, with_links, with_size};
pub use gone::put_gone;
pub use inodes::set;
pub use numbers::{Draw, draws_are_counted, draws_are_new, next_number};
