ghost use Rattle.std.specs.Prelude.{◌≡◌, ℕ, All, IfOk, option_copied, option_map, slice_index};
ghost use Rattle.extent_ops.specs.Content.{AreLookedAt, HavePlaces, block_at};
ghost use Rattle.extent_ops.specs.Nearest.{covers_maybe, found_at, found_in, is_nearer, nearest_of};
ghost use Rattle.key_meaning.specs.Blocks.{block_in};
ghost use Rattle.key_meaning.specs.Visible.{snaps_of};
ghost use Rattle.vol_types.specs.KeyMaps.{IsKeyMap, KeyMap};

use crate::parts::{blocks_of, pointers_behind};
use snap_tree::SnapTree;
use std::alloc::{AllocError, Global};
use vol_types::{Extent, Key, Keys, Pointers, Value};

/// Where the copies of a block of a file lie that an id of the tree shows, and the digest of its bytes; none where the id shows
/// nothing there. The keys are those of the file that cover the block, and maybe others of the file. Each of them that covers it
/// costs a search in the tree.
pub fn cover(
    alloc: Global,
    keys: &Keys,
    tree: &SnapTree,
    id: u32,
    block: u64,
) -> Result<Option<(Pointers, u64)>, AllocError>
    ensures { IfOk result (λ found. (map : KeyMap) (file : ℕ) → IsKeyMap map
        → snaps_of map ≡ tree.now → AreLookedAt map file block block keys.now
        → All (λ entry. HavePlaces entry.1) map.extents
        → option_map block_at found ≡ block_in map id file block) }
{
    match nearest(keys.as_slice(), tree, id, block) {
        None => Ok(None),
        Some(key) => shown_of(alloc, key, block),
    }
}

// The key of the nearest id of a chain that covers a block.
fn nearest<'a>(keys: &'a [Key], tree: &SnapTree, id: u32, block: u64) -> Option<&'a Key>
    ensures { option_copied result ≡ nearest_of tree.now id block keys.now }
{
    let mut best = None;
    for key in keys {
        if is_covering(key, block)
            && tree.is_ancestor(key.pos.snapshot, id)
            && is_nearer(best, key)
        {
            best = Some(key);
        }
    }
    best
}

// Whether a key covers a block.
fn is_covering(key: &Key, block: u64) -> bool
    ensures { result ≡ covers_maybe key.now.pos.offset key.now.value block }
{
    let end = key.pos.offset;
    match &key.value {
        None => false,
        Some(value) => block < end && end <= block.saturating_add(blocks_of(value)),
    }
}

fn is_nearer(best: Option<&Key>, key: &Key) -> bool
    ensures { result ≡ is_nearer (option_copied best.entry) key.now }
{
    match best {
        None => true,
        Some(best) => key.pos.snapshot < best.pos.snapshot,
    }
}

// What shows of a block that a key covers.
fn shown_of(alloc: Global, key: &Key, block: u64) -> Result<Option<(Pointers, u64)>, AllocError>
    ensures { IfOk result (λ found. found ≡ found_in block key.now.pos.offset key.now.value) }
{
    match &key.value {
        None => Ok(None),
        Some(value) => {
            let first = key.pos.offset.saturating_sub(blocks_of(value));
            block_at(alloc, block.saturating_sub(first), value)
        }
    }
}

// The block at a place of an extent.
fn block_at(alloc: Global, index: u64, value: &Value) -> Result<Option<(Pointers, u64)>, AllocError>
    ensures { IfOk result (λ found. found ≡ found_at index value.now) }
{
    let Value::Extent(extent) = value else {
        return Ok(None);
    };
    let pointers = pointers_behind(alloc, index, extent.pointers.as_slice())?;
    Ok(Some((pointers, digest_at(extent, index))))
}

fn digest_at(extent: &Extent, index: u64) -> u64
    ensures { result ≡ slice_index extent.now.digests index }
{
    let digests = extent.digests.as_slice();
    if index < digests.len() as u64 {
        digests[index as usize]
    } else {
        0
    }
}
