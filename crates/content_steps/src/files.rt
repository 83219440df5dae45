ghost use Rattle.std.specs.Prelude.{◌≡◌, ◌≤◌, ◌&&◌, ℕ, All, List, Some, nat_le, nat_lt};
ghost use Rattle.content_steps.specs.Shown.{EndsWithin};
ghost use Rattle.content_steps.specs.Steps.{ChangesContent, MayTakeBlocks};
ghost use Rattle.extent_ops.specs.Content.{given_by, hidden_if};
ghost use Rattle.file_plan.specs.Content.{LosesBlocks, TakesExtents};
ghost use Rattle.file_plan.specs.Sizes.{blocks_up_to};
ghost use Rattle.key_meaning.specs.Checks.{IsLiveLeaf};
ghost use Rattle.key_meaning.specs.Forest.{Read, content_of, inode_in};
ghost use Rattle.key_steps.specs.Kept.{IsKept};
ghost use Rattle.vol_types.specs.KeyMaps.{KeyMap, with_updates};
ghost use Rattle.vol_types.specs.declared.keys.Key.{Key};
ghost use Rattle.vol_types.specs.declared.keys.Update.{Update};
ghost use Rattle.vol_types.specs.declared.layout.Layout.{Layout};
ghost use Rattle.vol_types.specs.declared.pointers.Place.{Place};
ghost use Rattle.vol_types.specs.declared.values.FileKind.TheVariants.{File};
ghost use Rattle.vol_types.specs.declared.values.Inode.{Inode};
ghost use Rattle.vol_types.specs.declared.values.Sub.{Sub};

use crate::steps::blocks_are_steps;

/// Updates that put extents into a file which reaches as far, or cut its blocks behind a size, change its content: to the bytes that
/// it has then.
pub fn planned_contents_change_files()
    ensures put { (keys : KeyMap) (updates : List Update) (nodes : List Place) (layout : Layout)
        (read : Read) (sub : Sub) (file size : ℕ) (old : Inode) (extents : List Key)
        (change : List ℕ → List ℕ) → IsKept keys nodes layout → IsLiveLeaf keys sub.id
        → MayTakeBlocks keys nodes layout sub.id file updates
        → inode_in keys sub.id file ≡ Some old → old.kind ≡ File
        → TakesExtents keys (with_updates updates keys) file sub.id old.size extents
        → old.size ≤ size → All (EndsWithin size) extents
        → content_of (with_updates updates keys) read sub.id file size ≡ change
        (content_of keys read sub.id file old.size)
        → ChangesContent keys updates nodes layout read sub file size old (given_by extents) change }
    ensures cut { (keys : KeyMap) (updates : List Update) (nodes : List Place) (layout : Layout)
        (read : Read) (sub : Sub) (file size : ℕ) (old : Inode) (change : List ℕ → List ℕ)
        → IsKept keys nodes layout → IsLiveLeaf keys sub.id
        → MayTakeBlocks keys nodes layout sub.id file updates
        → inode_in keys sub.id file ≡ Some old → old.kind ≡ File
        → LosesBlocks keys (with_updates updates keys) file sub.id old.size size
        → content_of (with_updates updates keys) read sub.id file size ≡ change
        (content_of keys read sub.id file old.size)
        → ChangesContent keys updates nodes layout read sub file size old (λ block. hidden_if
        (nat_le (blocks_up_to size) block && nat_lt block (blocks_up_to old.size))) change }
{
    blocks_are_steps();
}
