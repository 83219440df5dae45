ghost use Rattle.std.specs.Prelude.{◌≡◌, ◌+◌, ◌-◌, ◌≤◌, ◌<◌, ◌^◌, ◌++◌, ◌∷◌, [], codes, length, take, replicate};
ghost use Rattle.std.specs.Int.{w16, w32, w64, to_le_bytes};
ghost use Rattle.sha2.specs.Sha256.{sha256};
ghost use Rattle.sealed_block.specs.Blocks.{AreBytes, HasWidths, IsInRanges, Opens, covered, head_bytes, encoding};

use crate::{DIGEST_AT, Head, PAYLOAD_AT};
use vol_digest::digest;

/// Writes the block with this head and this payload over `into`, in one pass and without memory. The digest of the whole
/// record is taken from the head as it is.
pub fn seal(head: &Head, payload: &[u8], into: &mut [u8])
    requires ranges { IsInRanges head.now }
    requires fills { length payload.now ≡ head.now.length }
    requires room { length into.old ≡ 4096 }
    ensures encoded { into.new ≡ encoding head.now payload.now }
    ensures opens { Opens into.new head.now payload.now }
{
    put_covered(head, payload, into);
    let digest = covered_digest(into);
    put(into, DIGEST_AT, &digest);
}

// Writes all that the digest covers.
fn put_covered(head: &Head, payload: &[u8], into: &mut [u8])
    requires fits { length payload.now ≤ 3968 }
    requires room { length into.old ≡ 4096 }
    ensures written { take 4064 into.new ≡ covered head.now payload.now }
    ensures widths { HasWidths head.now }
    ensures bytes { AreBytes payload.now }
{
    put_head(head, into);
    put(into, PAYLOAD_AT, payload);
    put_zeros(into, PAYLOAD_AT + payload.len(), DIGEST_AT);
}

// The digest of all that a block's digest covers.
fn covered_digest(block: &[u8]) -> [u8; 32]
    requires { 4064 ≤ length block.now }
    ensures { result ≡ sha256 (take 4064 block.now) }
{
    digest(&block[..DIGEST_AT])
}

/// Writes the head over the first 96 bytes.
pub(crate) fn put_head(head: &Head, into: &mut [u8])
    requires { 96 ≤ length into.old }
    ensures written { take 96 into.new ≡ head_bytes head.now }
    ensures widths { HasWidths head.now }
{
    put_names(head, into);
    put_numbers(head, into);
    put(into, 60, &[0; 4]);
    put(into, 64, &head.whole);
}

// Writes what comes before the owner over the first 32 bytes.
fn put_names(head: &Head, into: &mut [u8])
    requires { 32 ≤ length into.old }
    ensures written { take 32 into.new ≡ codes "bvolseal" ++ head.now.kind ∷ head.now.version ∷ 0 ∷ 0 ∷ []
        ++ to_le_bytes w16 head.now.part ++ to_le_bytes w16 head.now.parts ++ head.now.id }
    ensures id { length head.now.id ≡ 16 }
    ensures id_bytes { AreBytes head.now.id }
{
    put(into, 0, b"bvolseal");
    put(into, 8, &[head.kind, head.version, 0, 0]);
    put(into, 12, &head.part.to_le_bytes());
    put(into, 14, &head.parts.to_le_bytes());
    put(into, 16, &head.id);
}

// Writes the numbers from the owner to the length after the first 32 bytes.
fn put_numbers(head: &Head, into: &mut [u8])
    requires { 60 ≤ length into.old }
    ensures written { take 60 into.new ≡ take 32 into.old ++ to_le_bytes w64 head.now.owner
        ++ to_le_bytes w64 head.now.number ++ to_le_bytes w64 head.now.sequence
        ++ to_le_bytes w32 head.now.length }
    ensures owner { head.now.owner < 2 ^ 64 }
    ensures number { head.now.number < 2 ^ 64 }
    ensures sequence { head.now.sequence < 2 ^ 64 }
{
    put(into, 32, &head.owner.to_le_bytes());
    put(into, 40, &head.number.to_le_bytes());
    put(into, 48, &head.sequence.to_le_bytes());
    put(into, 56, &head.length.to_le_bytes());
}

// Writes the bytes after the first `at` ones.
fn put(into: &mut [u8], at: usize, bytes: &[u8])
    requires { at + length bytes.now ≤ length into.old }
    ensures written { take (at + length bytes.now) into.new ≡ take at into.old ++ bytes.now }
    ensures bytes { AreBytes bytes.now }
{
    into[at..at + bytes.len()].copy_from_slice(bytes);
}

// Writes zeros after the first `at` bytes, up to `end`.
fn put_zeros(into: &mut [u8], at: usize, end: usize)
    requires order { at ≤ end }
    requires room { end ≤ length into.old }
    ensures { take end into.new ≡ take at into.old ++ replicate (end - at) 0 }
{
    into[at..end].fill(0);
}
