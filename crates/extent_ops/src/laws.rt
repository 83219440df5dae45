ghost use Rattle.std.specs.Ordering.{nat_cmp};
ghost use Rattle.std.specs.Prelude.{◌≡◌, ◌<◌, ◌^◌, ℕ, All, Bool, false, true, IsSome, List, None, Option};
ghost use Rattle.extent_ops.specs.Content.{AreOfContent, IsNear, TakesBlocks, block_above, hidden_if, is_covered_above, shown_over};
ghost use Rattle.key_meaning.specs.Blocks.{Block, block_in};
ghost use Rattle.key_meaning.specs.Checks.{AreExtentsApart};
ghost use Rattle.key_meaning.specs.Tidy.{AreKeysDrawn, IsDrawn};
ghost use Rattle.key_meaning.specs.Visible.{snaps_of};
ghost use Rattle.snap_tree.specs.Snaps.{IsSnapTree};
ghost use Rattle.vol_types.specs.KeyMaps.{IsKeyMap, KeyMap, with_updates};
ghost use Rattle.vol_types.specs.Maps.{value_at};
ghost use Rattle.vol_types.specs.Standing.{IsUpdate};
ghost use Rattle.vol_types.specs.declared.keys.Update.{Update};

/// What an id shows of a file in which it took blocks over: of those that were cut out what is given, or what its parent shows
/// where nothing is; nothing where what ancestors have is hidden; and of the others what it showed.
pub fn taken_blocks_show()
    ensures taken { (old new : KeyMap) (file id : ℕ) (cut : ℕ → Bool)
        (given : ℕ → Option (Option Block)) → TakesBlocks old new file id cut given
        → IsSnapTree (snaps_of old) → IsSome (value_at nat_cmp id (snaps_of old)) → (block : ℕ)
        → cut block ≡ true
        → block_in new id file block ≡ shown_over (given block) (block_above old id file block) }
    ensures hidden { (old new : KeyMap) (file id : ℕ) (cut : ℕ → Bool) → TakesBlocks old new file id cut
        (λ block. hidden_if (is_covered_above old id file block))
        → IsSnapTree (snaps_of old) → IsSome (value_at nat_cmp id (snaps_of old)) → (block : ℕ)
        → cut block ≡ true → block_in new id file block ≡ None }
    ensures stays { (old new : KeyMap) (file id : ℕ) (cut : ℕ → Bool)
        (given : ℕ → Option (Option Block)) → TakesBlocks old new file id cut given
        → IsSnapTree (snaps_of old) → IsSome (value_at nat_cmp id (snaps_of old)) → (block : ℕ)
        → cut block ≡ false → block_in new id file block ≡ block_in old id file block }
{}

/// An id that took blocks over, by updates of its own that may be made and lie near the blocks, leaves extents apart where they
/// were, and each key one of its btree.
pub fn taken_blocks_keep_keys()
    ensures apart { (old : KeyMap) (updates : List Update) (file id first last longest : ℕ) (cut : ℕ → Bool)
        (given : ℕ → Option (Option Block)) → IsKeyMap old
        → TakesBlocks old (with_updates updates old) file id cut given → AreOfContent id updates
        → All (IsNear file first last longest) updates → AreExtentsApart old
        → IsSome (value_at nat_cmp id (snaps_of old)) → AreExtentsApart (with_updates updates old) }
    ensures drawn { (old : KeyMap) (updates : List Update) (file id first last longest : ℕ) (cut : ℕ → Bool)
        (given : ℕ → Option (Option Block)) → IsKeyMap old
        → TakesBlocks old (with_updates updates old) file id cut given → AreOfContent id updates
        → All (IsNear file first last longest) updates → AreKeysDrawn old → IsDrawn old file → id < 2 ^ 32
        → All IsUpdate updates → AreKeysDrawn (with_updates updates old) }
{}
