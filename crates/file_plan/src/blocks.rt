ghost use Rattle.std.specs.Prelude.{◌≡◌, ◌+◌, length, is_some, IfErr, IfOk, IfSome};
ghost use Rattle.extent_ops.specs.Content.{AreLookedAt};
ghost use Rattle.extent_ops.specs.Looking.{reach};
ghost use Rattle.file_plan.specs.BlockIo.{Holds, OnlyReads, ReadsBlock};
ghost use Rattle.file_plan.specs.Bounds.{keys_seen};
ghost use Rattle.file_plan.specs.Content.{AreExtentsInRange};
ghost use Rattle.file_plan.specs.Seen.{IsSeenUpTo, MayLook};
ghost use Rattle.key_meaning.specs.Blocks.{block_in};
ghost use Rattle.key_meaning.specs.Forest.{Read, bytes_in};
ghost use Rattle.key_view.specs.Holds.{IsCause};
ghost use Rattle.key_view.specs.Seen.{GoesOn};
ghost use Rattle.snap_tree.specs.Snaps.{Snaps};
ghost use Rattle.vol_types.specs.KeyMaps.{KeyMap};
ghost use Rattle.vol_types.specs.Limits.{block_size};

use crate::Contents;
use extent_ops::{cover, reach, reached_keys_are_looked_at};
use key_view::Hold;
use snap_tree::SnapTree;
use std::alloc::Global;
use vol_types::{Bytes, Keys};

/// The bytes of a block of a file that an id of the tree shows; none where it shows none, and the block reads as zeros. It makes
/// one look, at the keys of the file that end up to `Contents::longest` blocks behind the block, and reads at most one block.
pub fn shown_block<V: Contents>(
    alloc: Global,
    view: &mut V,
    tree: &SnapTree,
    id: u32,
    number: u64,
    block: u64,
) -> Result<Option<Bytes>, Hold>
    ensures bytes { IfOk result (λ shown. (keys : KeyMap) (read : Read)
        → IsSeenUpTo keys (V.made view.new) tree.now (V.most view.new) → Holds read (V.io view.new)
        → AreExtentsInRange keys → shown ≡ bytes_in keys read id number block) }
    ensures there { IfOk result (λ shown. (keys : KeyMap)
        → IsSeenUpTo keys (V.made view.new) tree.now (V.most view.new)
        → AreExtentsInRange keys → is_some shown ≡ is_some (block_in keys id number block)) }
    ensures reads { IfOk result (λ _. (keys : KeyMap)
        → IsSeenUpTo keys (V.made view.new) tree.now (V.most view.new)
        → AreExtentsInRange keys
        → ReadsBlock (block_in keys id number block) (V.io view.old) (V.io view.new)) }
    ensures size { IfOk result (λ shown. IfSome shown (λ bytes. length bytes ≡ block_size)) }
    ensures look { MayLook (reach number block block (V.most view.old)) (V.made view.old)
        (V.made view.new) }
    ensures looks { GoesOn (V.made view.old) (V.made view.new) }
    ensures ids { V.told view.new ≡ V.told view.old }
    ensures longest { V.most view.new ≡ V.most view.old }
    ensures io { OnlyReads (V.io view.old) (V.io view.new) }
    ensures cause { IfErr result (IsCause (V.held view.new)) }
{
    let keys = covering_keys(view, number, block, block)?;
    let Some((pointers, digest)) = cover(alloc, &keys, tree, id, block)? else {
        return Ok(None);
    };
    Ok(Some(view.block(block, &pointers, digest)?))
}

/// The keys of a file that cover one of some blocks, from the first to the last one, and maybe others of the file. It makes one
/// look, at all keys of the file that end in the range or in as many blocks behind it as the longest extent or hole has.
pub(crate) fn covering_keys<V: Contents>(
    view: &mut V,
    number: u64,
    first: u64,
    last: u64,
) -> Result<Keys, Hold>
    ensures found { IfOk result (λ found. (keys : KeyMap) (tree : Snaps)
        → IsSeenUpTo keys (V.made view.new) tree (V.most view.new) → AreExtentsInRange keys
        → AreLookedAt keys number first last found) }
    ensures seen { IfOk result (λ found.
        keys_seen (V.made view.new) ≡ keys_seen (V.made view.old) + length found) }
    ensures look { MayLook (reach number first last (V.most view.old)) (V.made view.old)
        (V.made view.new) }
    ensures looks { GoesOn (V.made view.old) (V.made view.new) }
    ensures ids { V.told view.new ≡ V.told view.old }
    ensures longest { V.most view.new ≡ V.most view.old }
    ensures io { V.io view.new ≡ V.io view.old }
    ensures cause { IfErr result (IsCause (V.held view.new)) }
{
    reached_keys_are_looked_at();
    let longest = view.longest();
    view.find(&reach(number, first, last, longest))
}
