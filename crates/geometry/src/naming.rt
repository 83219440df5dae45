ghost use Rattle.std.specs.Prelude.{◌≡◌, ◌+◌, slice_index, drop, IfOk};
ghost use Rattle.std.specs.Int.{w32, from_le_bytes};
ghost use Rattle.std.specs.Str.{bytes_eq};
ghost use Rattle.sealed_block.specs.Opening.{field};
ghost use Rattle.geometry.specs.Superblocks.{has_form, is_same_layout, named_layout, numbers_in};

use crate::copies::SuperCopy;
use std::alloc::{AllocError, Global};
use vol_types::{Blocks, Layout};

/// A byte of a payload, and 0 past its end.
pub(crate) fn byte_at(payload: &[u8], at: usize) -> u8
    ensures { result ≡ slice_index payload.now at }
{
    payload.get(at).copied().unwrap_or(0)
}

/// Whether a payload has the length that its own number of devices asks for.
pub(crate) fn has_form(payload: &[u8]) -> bool
    ensures { result ≡ has_form payload.now }
{
    payload.len() == 8 + 4 * byte_at(payload, 0) as usize
}

// The length of the journal area that a payload names.
fn journal_of(payload: &[u8]) -> u32
    ensures { result ≡ from_le_bytes w32 (field payload.now 4 4) }
{
    u32::from_le_bytes([
        byte_at(payload, 4),
        byte_at(payload, 5),
        byte_at(payload, 6),
        byte_at(payload, 7),
    ])
}

// The numbers of four bytes each.
fn numbers_in(alloc: Global, bytes: &[u8]) -> Result<Blocks, AllocError>
    ensures { IfOk result (λ numbers. numbers ≡ numbers_in bytes.now) }
{
    let (chunks, _) = bytes.as_chunks::<4>();
    let mut numbers = Vec::new(alloc);
    for chunk in chunks {
        numbers.push(u32::from_le_bytes(*chunk))?;
    }
    Ok(Blocks::from(numbers))
}

// What comes after the first eight bytes of a payload.
fn after_head(payload: &[u8]) -> &[u8]
    ensures { result.now ≡ drop 8 payload.now }
{
    if payload.len() < 8 {
        return &[];
    }
    let (_, rest) = payload.split_at(8);
    rest
}

/// The layout that a copy names. It takes memory for the numbers of blocks.
#[tactic(auto, unfolding(crate::specs::Superblocks::named_layout))]
pub(crate) fn named_layout(alloc: Global, copy: &SuperCopy) -> Result<Layout, AllocError>
    ensures { IfOk result (λ layout. layout ≡ named_layout copy.now) }
{
    let payload = copy.payload.as_slice();
    Ok(Layout {
        id: copy.head.id,
        blocks: numbers_in(alloc, after_head(payload))?,
        journal: journal_of(payload),
        metadata_replicas: byte_at(payload, 2),
        data_replicas: byte_at(payload, 3),
    })
}

fn are_same_blocks(one: &[u32], other: &[u32]) -> bool
    ensures { result ≡ bytes_eq one.now other.now }
{
    one == other
}

/// Whether both layouts are of one volume and lie alike.
pub(crate) fn is_same_layout(one: &Layout, other: &Layout) -> bool
    ensures { result ≡ is_same_layout one.now other.now }
{
    one.id == other.id
        && are_same_blocks(one.blocks.as_slice(), other.blocks.as_slice())
        && one.journal == other.journal
        && one.metadata_replicas == other.metadata_replicas
        && one.data_replicas == other.data_replicas
}
