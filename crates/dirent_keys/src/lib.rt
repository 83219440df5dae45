//! What changes where a directory gets a name or loses one: the key of the name's slot, in the id that sees it so.
//!
//! Names that share a slot stand in one value, in the order of their bytes. So a further name goes there beside those that
//! the id sees, also where it sees them in an ancestor, and the last name that goes is hidden by a whiteout where an ancestor's
//! value would show.
#![tactic(auto)]

mod counts;
mod finding;
mod laws;
mod links;
mod moving;
mod names;
mod slots;
mod step;

pub use counts::{count, is_bare};
pub use finding::find;
pub use laws::{
    bare_directories_have_no_names, directories_take_names, links_are_added_and_taken,
    moved_names_are_taken_and_added, moves_are_refused_alike, moves_are_steps,
    names_are_refused_alike, sound_names_are_refused_alike,
};
pub use moving::move_name;
pub use names::{add, remove};
pub use slots::next_slot;
pub use step::NameStep;
