ghost use Rattle.std.specs.Prelude.{◌≡◌, ◌≤◌, ◌+◌, All, IfErr, IfNone, IfOk, IfSome, List, ℕ, [], length};
ghost use Rattle.extent_ops.specs.Content.{AreFresh, AreOfContent, IsContent};
ghost use Rattle.extent_ops.specs.Looking.{AreExtentsUpTo, reach};
ghost use Rattle.extent_ops.specs.Placing.{MayBePlaced};
ghost use Rattle.file_plan.specs.Bounds.{keys_seen, most_beside, most_updates};
ghost use Rattle.file_plan.specs.Content.{AreExtentsInRange, AreNear, HasFile, IsChanged, PutsFresh, TakesChange, extents_of};
ghost use Rattle.file_plan.specs.Seen.{IsSeenUpTo, MayLook, MayLookFor, last_block};
ghost use Rattle.file_plan.specs.declared.change.Change.TheVariants.{Cut, Put};
ghost use Rattle.key_meaning.specs.Checks.{AreBlocksPlaced};
ghost use Rattle.key_meaning.specs.Forest.{Read};
ghost use Rattle.key_meaning.specs.Tidy.{IsKeyOf};
ghost use Rattle.key_view.specs.Holds.{IsCause};
ghost use Rattle.key_view.specs.Seen.{GoesOn};
ghost use Rattle.vol_types.specs.KeyMaps.{KeyMap, with_updates};
ghost use Rattle.vol_types.specs.Standing.{IsUpdate};
ghost use Rattle.vol_types.specs.declared.layout.Layout.{Layout};
ghost use Rattle.vol_types.specs.declared.pointers.Place.{Place};
ghost use Rattle.vol_types.specs.declared.positions.Btree.TheVariants.{Extents};

use crate::blocks::covering_keys;
use crate::sizes::blocks_up_to;
use crate::{Change, Contents, cut_size};
use extent_ops::{looked_at_keys_are_content, overwrite, punch, taken_blocks_show};
use key_view::Hold;
use snap_tree::SnapTree;
use std::alloc::Global;
use vol_types::{Key, Keys, Updates};

/// The updates that change the content of a file in an id of the tree. `size` is the size that the file has in the id before the
/// change: bytes behind it count for nothing. The inode is left to the caller, who knows it: where the change makes another size,
/// it is to be set, and else no inode changes.
///
/// A put gives the blocks of the extents to the file, and keeps all others. A cut is one truncation, to `cut_size`; to a size that
/// isn't smaller it needs no updates. No block is read, reserved or written. Where the file grows, and ends inside a block that
/// shows and that isn't put, the caller puts the key of `write_end` in front of the others, or what `end_block` gives among its
/// blocks, so that zeros stand behind the old end.
///
/// There is at most one update for each block that is put or cut, two more for each extent that is put, and two for a cut; and at
/// most one for each key that is looked at, two more for each extent that is put, and one for a cut.
///
/// It makes at most one look, at the keys of the file that end between the first block which is put or cut and `Contents::longest`
/// blocks behind the last one; the updates stand there too. Keys of other ids cost a search in the tree each, those of the id and
/// the extents some logarithms.
pub fn content<V: Contents>(
    alloc: Global,
    view: &mut V,
    tree: &SnapTree,
    id: u32,
    number: u64,
    size: u64,
    change: &Change,
) -> Result<Updates, Hold>
    ensures changed { IfOk result (λ updates. (keys : KeyMap) (read : Read)
        → IsSeenUpTo keys (V.made view.new) tree.now (V.most view.new) → HasFile keys id number size
        → IsChanged change.now keys (with_updates updates keys) read id number size) }
    ensures takes { IfOk result (λ updates. (keys : KeyMap)
        → IsSeenUpTo keys (V.made view.new) tree.now (V.most view.new) → HasFile keys id number size
        → TakesChange change.now keys (with_updates updates keys) number id size) }
    ensures own { IfOk result (AreOfContent id) }
    ensures fits { IfOk result (λ updates. (keys : KeyMap)
        → IsSeenUpTo keys (V.made view.new) tree.now (V.most view.new) → AreExtentsInRange keys
        → All (IsKeyOf keys Extents) keys.extents → PutsFresh change.now number id
        → All (λ key. IsContent key.value) (extents_of change.now) → All IsUpdate updates) }
    ensures near { IfOk result (λ updates. (keys : KeyMap) (longest : ℕ)
        → IsSeenUpTo keys (V.made view.new) tree.now (V.most view.new) → AreExtentsInRange keys
        → AreExtentsUpTo longest keys → AreNear change.now number id size longest updates) }
    ensures placed { IfOk result (λ updates. (keys : KeyMap) (nodes : List Place) (layout : Layout)
        → IsSeenUpTo keys (V.made view.new) tree.now (V.most view.new) → AreExtentsInRange keys
        → PutsFresh change.now number id → AreBlocksPlaced keys nodes layout
        → MayBePlaced keys nodes layout (extents_of change.now)
        → AreBlocksPlaced (with_updates updates keys) nodes layout) }
    ensures few { IfOk result (λ updates. (keys : KeyMap)
        → IsSeenUpTo keys (V.made view.new) tree.now (V.most view.new) → HasFile keys id number size
        → PutsFresh change.now number id → length updates ≤ most_updates size change.now) }
    ensures few_by_keys { IfOk result (λ updates. PutsFresh change.now number id
        → length updates + keys_seen (V.made view.old)
        ≤ keys_seen (V.made view.new) + most_beside change.now) }
    ensures look { MayLookFor change.now number size (V.most view.old) (V.made view.old)
        (V.made view.new) }
    ensures looks { GoesOn (V.made view.old) (V.made view.new) }
    ensures ids { V.told view.new ≡ V.told view.old }
    ensures longest { V.most view.new ≡ V.most view.old }
    ensures io { V.io view.new ≡ V.io view.old }
    ensures cause { IfErr result (IsCause (V.held view.new)) }
{
    match change {
        Change::Put { first, extents } => put(alloc, view, tree, id, number, *first, extents),
        Change::Cut { new } => cut(alloc, view, tree, id, number, size, *new),
    }
}

// The updates that put extents, of blocks from a first one on.
fn put<V: Contents>(
    alloc: Global,
    view: &mut V,
    tree: &SnapTree,
    id: u32,
    number: u64,
    first: u64,
    extents: &Keys,
) -> Result<Updates, Hold>
    ensures changed { IfOk result (λ updates. (keys : KeyMap) (read : Read) (size : ℕ)
        → IsSeenUpTo keys (V.made view.new) tree.now (V.most view.new) → HasFile keys id number size
        → IsChanged (Put first extents.now) keys (with_updates updates keys) read id number size) }
    ensures takes { IfOk result (λ updates. (keys : KeyMap) (size : ℕ)
        → IsSeenUpTo keys (V.made view.new) tree.now (V.most view.new) → HasFile keys id number size
        → TakesChange (Put first extents.now) keys (with_updates updates keys) number id size) }
    ensures own { IfOk result (AreOfContent id) }
    ensures fits { IfOk result (λ updates. (keys : KeyMap)
        → IsSeenUpTo keys (V.made view.new) tree.now (V.most view.new) → AreExtentsInRange keys
        → All (IsKeyOf keys Extents) keys.extents → PutsFresh (Put first extents.now) number id
        → All (λ key. IsContent key.value) (extents_of (Put first extents.now)) → All IsUpdate updates) }
    ensures near { IfOk result (λ updates. (keys : KeyMap) (size longest : ℕ)
        → IsSeenUpTo keys (V.made view.new) tree.now (V.most view.new) → AreExtentsInRange keys
        → AreExtentsUpTo longest keys → AreNear (Put first extents.now) number id size longest updates) }
    ensures placed { IfOk result (λ updates. (keys : KeyMap) (nodes : List Place) (layout : Layout)
        → IsSeenUpTo keys (V.made view.new) tree.now (V.most view.new) → AreExtentsInRange keys
        → PutsFresh (Put first extents.now) number id → AreBlocksPlaced keys nodes layout
        → MayBePlaced keys nodes layout (extents_of (Put first extents.now))
        → AreBlocksPlaced (with_updates updates keys) nodes layout) }
    ensures few { IfOk result (λ updates. (keys : KeyMap) (size : ℕ)
        → IsSeenUpTo keys (V.made view.new) tree.now (V.most view.new) → HasFile keys id number size
        → PutsFresh (Put first extents.now) number id
        → length updates ≤ most_updates size (Put first extents.now)) }
    ensures few_by_keys { IfOk result (λ updates. PutsFresh (Put first extents.now) number id
        → length updates + keys_seen (V.made view.old)
        ≤ keys_seen (V.made view.new) + most_beside (Put first extents.now)) }
    ensures look { MayLook (reach number first (last_block extents.now) (V.most view.old))
        (V.made view.old) (V.made view.new) }
    ensures looks { GoesOn (V.made view.old) (V.made view.new) }
    ensures ids { V.told view.new ≡ V.told view.old }
    ensures longest { V.most view.new ≡ V.most view.old }
    ensures io { V.io view.new ≡ V.io view.old }
    ensures cause { IfErr result (IsCause (V.held view.new)) }
{
    tree.ids_fit();
    taken_blocks_show();
    looked_at_keys_are_content();
    let Some(last) = last_block(extents.as_slice()) else {
        return Ok(Updates::new(alloc));
    };
    let keys = covering_keys(view, number, first, last)?;
    Ok(overwrite(alloc, &keys, id, extents)?)
}

// The last block of extents.
fn last_block(keys: &[Key]) -> Option<u64>
    ensures none { IfNone result (keys.now ≡ []) }
    ensures is { IfSome result (λ last. last ≡ last_block keys.now) }
    ensures within { IfSome result (λ last. (file id first : ℕ) → AreFresh file id first keys.now
        → All (λ key. key.pos.offset ≤ last + 1) keys.now) }
{
    match keys.last() {
        None => None,
        Some(key) => Some(key.pos.offset.saturating_sub(1)),
    }
}

// The updates after which an id shows no blocks of a file behind the size to which it is cut.
fn cut<V: Contents>(
    alloc: Global,
    view: &mut V,
    tree: &SnapTree,
    id: u32,
    number: u64,
    size: u64,
    new: u64,
) -> Result<Updates, Hold>
    ensures changed { IfOk result (λ updates. (keys : KeyMap) (read : Read)
        → IsSeenUpTo keys (V.made view.new) tree.now (V.most view.new) → HasFile keys id number size
        → IsChanged (Cut new) keys (with_updates updates keys) read id number size) }
    ensures takes { IfOk result (λ updates. (keys : KeyMap)
        → IsSeenUpTo keys (V.made view.new) tree.now (V.most view.new) → HasFile keys id number size
        → TakesChange (Cut new) keys (with_updates updates keys) number id size) }
    ensures own { IfOk result (AreOfContent id) }
    ensures fits { IfOk result (λ updates. (keys : KeyMap)
        → IsSeenUpTo keys (V.made view.new) tree.now (V.most view.new) → AreExtentsInRange keys
        → All (IsKeyOf keys Extents) keys.extents → PutsFresh (Cut new) number id
        → All (λ key. IsContent key.value) (extents_of (Cut new)) → All IsUpdate updates) }
    ensures near { IfOk result (λ updates. (keys : KeyMap) (longest : ℕ)
        → IsSeenUpTo keys (V.made view.new) tree.now (V.most view.new) → AreExtentsInRange keys
        → AreExtentsUpTo longest keys → AreNear (Cut new) number id size longest updates) }
    ensures placed { IfOk result (λ updates. (keys : KeyMap) (nodes : List Place) (layout : Layout)
        → IsSeenUpTo keys (V.made view.new) tree.now (V.most view.new) → AreExtentsInRange keys
        → PutsFresh (Cut new) number id → AreBlocksPlaced keys nodes layout
        → MayBePlaced keys nodes layout (extents_of (Cut new))
        → AreBlocksPlaced (with_updates updates keys) nodes layout) }
    ensures few { IfOk result (λ updates. (keys : KeyMap)
        → IsSeenUpTo keys (V.made view.new) tree.now (V.most view.new) → HasFile keys id number size
        → length updates ≤ most_updates size (Cut new)) }
    ensures few_by_keys { IfOk result (λ updates. length updates + keys_seen (V.made view.old)
        ≤ keys_seen (V.made view.new) + most_beside (Cut new)) }
    ensures look { MayLookFor (Cut new) number size (V.most view.old) (V.made view.old)
        (V.made view.new) }
    ensures looks { GoesOn (V.made view.old) (V.made view.new) }
    ensures ids { V.told view.new ≡ V.told view.old }
    ensures longest { V.most view.new ≡ V.most view.old }
    ensures io { V.io view.new ≡ V.io view.old }
    ensures cause { IfErr result (IsCause (V.held view.new)) }
{
    tree.ids_fit();
    taken_blocks_show();
    looked_at_keys_are_content();
    let first = blocks_up_to(cut_size(size, new));
    let end = blocks_up_to(size);
    if end <= first {
        return Ok(Updates::new(alloc));
    }
    let keys = covering_keys(view, number, first, end - 1)?;
    Ok(punch(alloc, &keys, tree, id, first, end - 1)?)
}
