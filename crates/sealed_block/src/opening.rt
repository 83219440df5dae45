ghost use Rattle.std.specs.Prelude.{◌≡◌, ◌+◌, ◌-◌, ◌≤◌, ◌↔◌, ℕ, List, Some, length, take, drop, replicate, slice_index, IsTrue, IfSome, IfNone};
ghost use Rattle.std.specs.Int.{w16, w32, w64, from_le_bytes};
ghost use Rattle.sealed_block.specs.declared.heads.Head.{Head as AHead};
ghost use Rattle.sealed_block.specs.Blocks.{HasWidths, Opens, head_bytes, encoding};
ghost use Rattle.sealed_block.specs.Opening.{field, head_in, opened, payload_in};

use crate::heads::are_same;
use crate::sealing::put_head;
use crate::{DIGEST_AT, Head, PAYLOAD_AT};
use vol_digest::digest;
use vol_types::BLOCK_SIZE;

/// The head of a sealed block. `None` says that the bytes are no sealed block: they have another length or form, or the
/// block's digest isn't theirs. It takes no memory, and the time of one digest.
pub fn unseal(block: &[u8]) -> Option<Head>
    ensures head { result ≡ opened block.now }
    ensures open { IfSome result (λ head. Opens block.now head (payload_in block.now)) }
    ensures shut { IfNone result ((head : AHead) (payload : List ℕ) → Opens block.now head payload
        → ⊥) }
{
    if block.len() != BLOCK_SIZE {
        return None;
    }
    let head = head_of(block);
    if !head.is_in_ranges() {
        return None;
    }
    if !is_encoding(block, &head) {
        return None;
    }
    Some(head)
}

/// The payload of a block that opened with this head.
pub fn payload<'a>(block: &'a [u8], head: &Head) -> &'a [u8]
    requires { opened block.now ≡ Some head.now }
    ensures { result.now ≡ payload_in block.now }
{
    let (_, rest) = block.split_at(PAYLOAD_AT);
    let (payload, _) = rest.split_at(head.length as usize);
    payload
}

// Whether the block is the encoding of its head and its payload.
fn is_encoding(block: &[u8], head: &Head) -> bool
    requires size { length block.now ≡ 4096 }
    requires named { head.now ≡ head_in block.now }
    requires fits { head.now.length ≤ 3968 }
    ensures { IsTrue result ↔ (block.now ≡ encoding head.now (payload_in block.now)) }
{
    let (covered, block_digest) = block.split_at(DIGEST_AT);
    let (prefix, rest) = covered.split_at(PAYLOAD_AT);
    let (_, padding) = rest.split_at(head.length as usize);
    if !are_same(&encoded_head(head), prefix) {
        return false;
    }
    if !are_zeros(padding) {
        return false;
    }
    are_same(&digest(covered), block_digest)
}

fn encoded_head(head: &Head) -> [u8; 96]
    ensures bytes { result ≡ head_bytes head.now }
    ensures widths { HasWidths head.now }
{
    let mut bytes = [0; PAYLOAD_AT];
    put_head(head, &mut bytes);
    bytes
}

fn are_zeros(bytes: &[u8]) -> bool
    ensures { IsTrue result ↔ (bytes.now ≡ replicate (length bytes.now) 0) }
{
    bytes.iter().all(|byte| *byte == 0)
}

// The head that the block names, whether it is sealed or not.
fn head_of(block: &[u8]) -> Head
    requires { length block.now ≡ 4096 }
    ensures { result ≡ head_in block.now }
{
    Head {
        kind: block[8],
        version: block[9],
        part: u16::from_le_bytes(field_of(block, 12)),
        parts: u16::from_le_bytes(field_of(block, 14)),
        id: field_of(block, 16),
        owner: u64::from_le_bytes(field_of(block, 32)),
        number: u64::from_le_bytes(field_of(block, 40)),
        sequence: u64::from_le_bytes(field_of(block, 48)),
        length: u32::from_le_bytes(field_of(block, 56)),
        whole: field_of(block, 64),
    }
}

// So many bytes of the block from this place on.
fn field_of<const N: usize>(block: &[u8], at: usize) -> [u8; N]
    requires { at + N ≤ length block.now }
    ensures { result ≡ field block.now at N }
{
    let mut bytes = [0; N];
    bytes.copy_from_slice(&block[at..at + N]);
    bytes
}
