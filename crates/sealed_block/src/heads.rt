ghost use Rattle.std.specs.Prelude.{◌≡◌, ◌↔◌, IsTrue};
ghost use Rattle.sealed_block.specs.Blocks.{IsInRanges};
ghost use Rattle.sealed_block.specs.Records.{Continues, IsOfRecord};

use crate::{MOST_PARTS, PAYLOAD_BYTES};

/// The kind of a block that describes a device and its volume.
pub const SUPERBLOCK: u8 = 1;

/// The kind of a block of a journal entry.
pub const JOURNAL_ENTRY: u8 = 2;

/// The kind of a block of a node's set of keys.
pub const NODE_SET: u8 = 3;

/// The kind of a block that names the session which holds a volume.
pub const SESSION: u8 = 4;

/// What a block says of itself. A kind, an owner and a number tell where the block belongs; what they count depends on
/// the kind.
#[derive(Clone, Copy, PartialEq, Eq)]
pub struct Head {
    /// What the record is: one of the four constants of kinds.
    pub kind: u8,
    /// The version of the record's format, which isn't 0. Any other opens.
    pub version: u8,
    /// Which part of its record the block is, from 0.
    pub part: u16,
    /// How many parts the record has, 1 to 64.
    pub parts: u16,
    /// The volume that the block belongs to.
    pub id: [u8; 16],
    /// Whose block it is: a device, a session or a node.
    pub owner: u64,
    /// Where the block stands among those of its kind. It rises by one from part to part.
    pub number: u64,
    /// Which of the records in one place it is: the later has the greater sequence.
    pub sequence: u64,
    /// The bytes of payload in this block, at most 3,968.
    pub length: u32,
    /// The SHA-256 digest of the record's joined payloads.
    pub whole: [u8; 32],
}

impl Head {
    /// Whether a block may have this head.
    pub fn is_in_ranges(&self) -> bool
        ensures { IsTrue result ↔ IsInRanges self.now }
    {
        1 <= self.kind
            && self.kind <= 4
            && 1 <= self.version
            && self.part < self.parts
            && self.parts <= MOST_PARTS
            && self.length as usize <= PAYLOAD_BYTES
    }

    /// Whether this is the head of that part of the record whose part 0 has the first head.
    pub fn continues(&self, first: &Head, part: u16) -> bool
        ensures { IsTrue result ↔ Continues first.now part self.now }
    {
        self.is_of_record(first)
            && self.part == part
            && self.number >= first.number
            && self.number - first.number == part as u64
            && 0 < self.length
            && (first.parts.saturating_sub(part) <= 1 || self.length as usize == PAYLOAD_BYTES)
    }

    fn is_of_record(&self, first: &Head) -> bool
        ensures { IsTrue result ↔ IsOfRecord first.now self.now }
    {
        self.kind == first.kind
            && self.version == first.version
            && self.parts == first.parts
            && self.owner == first.owner
            && self.sequence == first.sequence
            && are_same(&self.id, &first.id)
            && are_same(&self.whole, &first.whole)
    }
}

/// Whether the bytes are the same.
pub(crate) fn are_same(some: &[u8], others: &[u8]) -> bool
    ensures { IsTrue result ↔ (some.now ≡ others.now) }
{
    some == others
}
