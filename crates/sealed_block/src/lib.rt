//! Sealed blocks: everything on disk is a record, and a record is one to 64 blocks of 4,096 bytes. Each block says what
//! it is and where it belongs, and ends in a digest of itself, so that a block that was torn, lost or put elsewhere is
//! known from its bytes alone. All numbers are little-endian.
//!
//! | at | size | field |
//! |---|---|---|
//! | 0 | 8 | magic, `bvolseal` |
//! | 8 | 1 | kind |
//! | 9 | 1 | version, from 1 |
//! | 10 | 2 | zero |
//! | 12 | 2 | part, from 0 |
//! | 14 | 2 | parts, 1 to 64 |
//! | 16 | 16 | volume id |
//! | 32 | 8 | owner |
//! | 40 | 8 | number |
//! | 48 | 8 | sequence |
//! | 56 | 4 | payload length, at most 3,968 |
//! | 60 | 4 | zero |
//! | 64 | 32 | SHA-256 digest of the whole record, which is the payloads of its parts joined |
//! | 96 | 3,968 | payload, then zeros |
//! | 4,064 | 32 | SHA-256 digest of the first 4,064 bytes |
#![tactic(auto)]

mod heads;
mod laws;
mod opening;
mod records;
mod sealing;

pub use heads::{Head, JOURNAL_ENTRY, NODE_SET, SESSION, SUPERBLOCK};
pub use laws::{one_encoding, opened_blocks_are_sealed, sealed_blocks_open};
pub use opening::{payload, unseal};
pub use records::{JoinFault, join_parts};
pub use sealing::seal;

/// How many bytes of payload fit a block.
pub const PAYLOAD_BYTES: usize = 3968;

/// How many parts a record may have.
pub const MOST_PARTS: u16 = 64;

/// Where the payload begins in its block.
const PAYLOAD_AT: usize = 96;

/// Where the block's digest stands, which is also how many bytes it covers.
const DIGEST_AT: usize = 4064;
