ghost use Rattle.std.specs.Prelude.{◌≡◌, ◌≤◌, ◌<◌, ◌+◌, ◌*◌, ◌^◌, ◌⊎◌, [], true, length, map, slice_index, unwrap_or, IfErr, IfOk};
ghost use Rattle.std.specs.List.{range_with_len};
ghost use Rattle.file_plan.specs.BlockIo.{Holds, OnlyReads};
ghost use Rattle.file_plan.specs.Content.{AreExtentsInRange, HasFile};
ghost use Rattle.file_plan.specs.Writes.{block_after, byte_over, is_over};
ghost use Rattle.file_plan.specs.Seen.{IsSeenUpTo};
ghost use Rattle.key_meaning.specs.Forest.{Read, bytes_in, content_of};
ghost use Rattle.key_view.specs.Holds.{IsCause};
ghost use Rattle.key_view.specs.Seen.{GoesOn};
ghost use Rattle.vol_types.specs.KeyMaps.{KeyMap};
ghost use Rattle.vol_types.specs.Limits.{block_size};

use crate::sizes::BLOCK;
use crate::{Contents, shown_block};
use key_view::Hold;
use snap_tree::SnapTree;
use std::alloc::{AllocError, Global};
use vol_types::Bytes;

/// A block of a file of this size in an id of the tree, after bytes were written at an offset: these bytes where they lie, and
/// elsewhere what the file has there, with zeros behind its end. Where they lie over the whole block it makes no look and reads
/// nothing; else it costs what `shown_block` does.
pub fn block_after<V: Contents>(
    alloc: Global,
    view: &mut V,
    tree: &SnapTree,
    id: u32,
    number: u64,
    size: u64,
    block: u64,
    offset: u64,
    bytes: &[u8],
) -> Result<Bytes, Hold>
    requires numbers { block < 2 ^ 40 }
    requires fits { offset + length bytes.now < 2 ^ 64 }
    ensures after { IfOk result (λ made. (keys : KeyMap) (read : Read)
        → IsSeenUpTo keys (V.made view.new) tree.now (V.most view.new) → Holds read (V.io view.new)
        → HasFile keys id number size
        → made ≡ block_after offset bytes.now (content_of keys read id number size) block) }
    ensures size { IfOk result (λ made. length made ≡ block_size) }
    ensures looks { GoesOn (V.made view.old) (V.made view.new) }
    ensures ids { V.told view.new ≡ V.told view.old }
    ensures longest { V.most view.new ≡ V.most view.old }
    ensures io { OnlyReads (V.io view.old) (V.io view.new) }
    ensures cause { IfErr result (IsCause (V.held view.new)) }
{
    let base = base_of(alloc, view, tree, id, number, block, offset, bytes)?;
    Ok(overlaid(alloc, base.as_slice(), size, block * BLOCK, offset, bytes)?)
}

// What a block shows, where bytes that are written at an offset leave some of it; no bytes where it shows none.
fn base_of<V: Contents>(
    alloc: Global,
    view: &mut V,
    tree: &SnapTree,
    id: u32,
    number: u64,
    block: u64,
    offset: u64,
    bytes: &[u8],
) -> Result<Bytes, Hold>
    requires numbers { block < 2 ^ 40 }
    requires fits { offset + length bytes.now < 2 ^ 64 }
    ensures shown { IfOk result (λ base. (keys : KeyMap) (read : Read)
        → IsSeenUpTo keys (V.made view.new) tree.now (V.most view.new) → Holds read (V.io view.new)
        → AreExtentsInRange keys → (block * block_size < offset)
        ⊎ (offset + length bytes.now < block * block_size + block_size)
        → base ≡ unwrap_or (bytes_in keys read id number block) []) }
    ensures looks { GoesOn (V.made view.old) (V.made view.new) }
    ensures ids { V.told view.new ≡ V.told view.old }
    ensures longest { V.most view.new ≡ V.most view.old }
    ensures io { OnlyReads (V.io view.old) (V.io view.new) }
    ensures cause { IfErr result (IsCause (V.held view.new)) }
{
    if is_whole(block * BLOCK, offset, bytes) {
        return Ok(Bytes::new(alloc));
    }
    let shown = shown_block(alloc, view, tree, id, number, block)?;
    Ok(bytes_or_none(alloc, shown))
}

// Some bytes, or no bytes.
fn bytes_or_none(alloc: Global, bytes: Option<Bytes>) -> Bytes
    ensures { result ≡ unwrap_or bytes [] }
{
    match bytes {
        None => Bytes::new(alloc),
        Some(bytes) => bytes,
    }
}

// Whether bytes that are written at an offset lie over the whole block that begins at a byte.
fn is_whole(start: u64, offset: u64, bytes: &[u8]) -> bool
    requires numbers { start < 2 ^ 52 }
    requires fits { offset + length bytes.now < 2 ^ 64 }
    ensures { result ≡ true → (offset ≤ start) × (start + block_size ≤ offset + length bytes.now) }
{
    if start < offset {
        return false;
    }
    start + BLOCK <= offset + bytes.len() as u64
}

// The block that begins at a byte: bytes over what it had, which counts up to a size.
fn overlaid(
    alloc: Global,
    base: &[u8],
    size: u64,
    start: u64,
    offset: u64,
    bytes: &[u8],
) -> Result<Bytes, AllocError>
    requires numbers { start < 2 ^ 52 }
    requires fits { offset + length bytes.now < 2 ^ 64 }
    ensures { IfOk result (λ made.
        made ≡ map (byte_over base.now size start offset bytes.now) (range_with_len start block_size)) }
{
    let mut made = Bytes::new(alloc);
    for index in 0..BLOCK {
        made.push(byte_over(base, size, start, offset, bytes, start + index))?;
    }
    Ok(made)
}

// A byte of that block.
fn byte_over(base: &[u8], size: u64, start: u64, offset: u64, bytes: &[u8], index: u64) -> u8
    requires behind { start ≤ index }
    requires fits { offset + length bytes.now < 2 ^ 64 }
    ensures { result ≡ byte_over base.now size start offset bytes.now index }
{
    if is_over(offset, bytes, index) {
        return byte_in(bytes, index.saturating_sub(offset));
    }
    if index >= size {
        return 0;
    }
    byte_in(base, index - start)
}

// Whether bytes that are written at an offset lie over a byte.
fn is_over(offset: u64, bytes: &[u8], index: u64) -> bool
    requires { offset + length bytes.now < 2 ^ 64 }
    ensures { result ≡ is_over offset bytes.now index }
{
    offset <= index && index < offset + bytes.len() as u64
}

// A byte of some bytes, and zero behind them.
fn byte_in(bytes: &[u8], index: u64) -> u8
    ensures { result ≡ slice_index bytes.now index }
{
    if index < bytes.len() as u64 {
        bytes[index as usize]
    } else {
        0
    }
}
