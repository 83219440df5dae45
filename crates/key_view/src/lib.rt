//! Views of a key map: what a plan of an operation asks for, one look after the other, and which value an id sees at a
//! position by such looks.
//!
//! What is proved of a plan is said of every key map that gives the looks that the view has made, and whose snapshot ids are
//! those of the tree. So a plan knows no more than what it looked at, and holds for the key map that it is committed to if
//! that gives the same looks.
#![tactic(auto)]

mod changes;
mod hold;
mod plain_keys;
mod plain_view;
mod view;
mod visibility;

pub use changes::{changes_are_seen, updates_to_see};
pub use hold::Hold;
pub use plain_keys::PlainKeys;
pub use plain_view::PlainView;
pub use view::View;
pub use visibility::{nearest, whiteout_needed};
