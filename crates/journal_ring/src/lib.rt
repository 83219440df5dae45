//! The journal of a volume: a ring of entries on the metadata devices. Journal block numbers rise for ever, and number n
//! lies at block `16 + n mod J` of each metadata device, J being the length of the journal area. An entry is a record of 1
//! to 64 sealed blocks under consecutive numbers.
//!
//! `specs/Parts`, `specs/Entries` and `specs/Counting` say which entries blocks hold, which of them count, and which are
//! needed. `read_journal` reads these, and `Ring` writes entries, never over one that is still needed.
#![tactic(auto)]

mod blocks;
mod counting;
mod entries;
mod found;
mod journal;
mod laws;
mod mending;
mod parts;
mod reading;
mod ring;

pub use blocks::{entry_parts, part_count, sealed_parts};
pub use counting::journal_of;
pub use found::FoundEntry;
pub use journal::Journal;
pub use laws::{
    areas_have_places, leading_entries_are_needed, mended_entries_stay_whole, one_entry_counts,
    parts_have_own_places, same_areas_hold_one_journal, whole_entries_are_made_of_blocks,
    whole_entries_stay, written_entries_are_whole,
};
pub use mending::mend_entry;
pub use parts::AreaBlocks;
pub use reading::read_journal;
pub use ring::{Ring, RingFull};
