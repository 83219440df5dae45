//! The records of a volume as bytes: the sets of a node's bucket and the entries of the journal. Each has one encoding,
//! and reading gives the record that is encoded or the first fault from the left.
//!
//! Numbers are little-endian. A position, a key and its fields are those of `key_codec`.
//!
//! | a set | size |
//! |---|---|
//! | birth of the node | 8 |
//! | btree, 0 to 8 | 1 |
//! | level, 0 for a leaf | 1 |
//! | zero | 2 |
//! | least and greatest position of the node | 20 and 20 |
//! | number of keys | 4 |
//! | the keys, in strictly rising position, each from the least to the greatest | |
//!
//! | an entry | size |
//! |---|---|
//! | sequence | 8 |
//! | oldest sequence that is needed, up to its own | 8 |
//! | session | 8 |
//! | number of commits since format, those of this entry included | 8 |
//! | for each of the nine btrees its root, as the fields of a `Node` | |
//! | number of updates | 4 |
//! | the updates in the order of their commits, each a btree, a level, and a key | |
//!
//! In a leaf the kinds of values are those of the btree, and above it all are `Node`. A key that is removed may stand
//! anywhere.
#![tactic(auto)]

mod entries;
mod fault;
mod fields;
mod laws;
mod lengths;
mod members;
mod sets;

pub use entries::{EntryRecord, get_entry, put_entry};
pub use fault::RecordFault;
pub use laws::{
    entries_are_exact, entry_lengths, lengths_add, one_entry_encoding, one_set_encoding,
    set_lengths, sets_are_exact,
};
pub use lengths::{entry_length, update_length};
pub use sets::{KeyRef, SetHead, SetRecord, get_set, put_lent_set, put_set};
