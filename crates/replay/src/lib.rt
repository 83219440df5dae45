//! Loading a volume and beginning a session: what is found in the image that its devices hold, with its keys as a key map in
//! memory, the next session's number, and the mirrors of the journal and of the nodes.
//!
//! `plain_reader` reads what is found as lists. What is found is a key map, so `load` makes one of it, and writes nothing.
//! `begin_session` seals the next session's number, `mend_journal` writes the needed entries where a mirror lacks them, and
//! `mend_roots` the roots that the newest entry names: whatever a crash leaves meanwhile means what the image did. `begin_and_mend` does
//! all three, in this order, and `open_volume` loads a volume first: so one is opened for writing.
#![tactic(auto)]

mod beginning;
mod btrees;
mod entries;
mod laws;
mod mending;
mod opening;
mod reading;
mod roots;
mod volume;

pub use beginning::{BeginFault, begin_session};
pub use btrees::{MadeMap, Unmade, key_map};
pub use laws::{
    found_btrees_are_a_key_map, mended_copies_hold_the_same_sets,
    roots_that_show_the_same_mean_the_same, updates_change_nodes,
};
pub use mending::mend_journal;
pub use opening::{begin_and_mend, open_volume};
pub use reading::load;
pub use roots::mend_roots;
pub use volume::Loaded;
