//! Keys as bytes: each key has one encoding, and reading gives the key that is encoded or the first fault from the left.
//!
//! A key is a position (inode u64, offset u64, snapshot u32), the number of its kind in a byte, and the fields of its
//! value. Numbers are little-endian. Kind 0 is a key without a value, which stands for one that is removed.
//!
//! | kind | value | fields, with their ranges |
//! |---|---|---|
//! | 1 | `Inode` | kind u8 (1 file, 2 directory), links u32 (1 to 255), size u64 (up to 16,777,216); a directory has 1 link and the size 0 |
//! | 2 | `Names` | count u8 (1 to 8), then each: number u64, kind u8 (1 or 2), length u8 (1 to 255), bytes; names rising |
//! | 3 | `Extent` | blocks u8 (1 to 16), pointers u8 (1 to 3), then each: device u8 (0 to 7), first block u32, generation u32, devices rising; then for each block a digest u64 |
//! | 4 | `Hole` | blocks u32 (1 to 4,096) |
//! | 5 | `White` | none |
//! | 6 | `Subs` | count u8 (1 to 8), then each: id u32, root u64, read-only u8 (0 or 1), length u8 (1 to 255), bytes; names rising |
//! | 7 | `Snap` | parent u32, first child u32, second child u32, state u8 (1 live leaf, 2 interior, 3 dead leaf) |
//! | 8 | `Live` | generation u32, blocks u8 (0 to 16) |
//! | 9 | `Back` | inode u64, offset u64, snapshot u32 |
//! | 10 | `Gone` | none |
//! | 11 | `Counter` | value u64 |
//! | 12 | `Node` | birth u64, level u8 (0 to 7), places u8 (1 to 3), then each: device u8 (0 to 7), first block u32, a multiple of 16 |
//!
//! The fields of a kind are numbered from 1 in this order, and one that is repeated keeps its number.
//!
//! Numbers, positions, the fields of a kind and pointers to nodes are also read and written by calls of their own, for
//! the formats that hold keys.
#![tactic(auto)]

mod fault;
mod fields;
mod items;
mod kinds;
mod laws;
mod lists;
mod reading;
mod writing;

pub use fault::KeyFault;
pub use fields::{put_u8, put_u32, put_u64, u8_at, u32_at, u64_at};
pub use kinds::{node_at, position_at, put_node, put_position};
pub use laws::{key_lengths, keys_are_exact, one_encoding};
pub use reading::{KeyRead, fields_at, get_key};
pub use writing::put_key;
