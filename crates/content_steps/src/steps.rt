ghost use Rattle.std.specs.Prelude.{◌≡◌, ℕ, Bool, List, Option, is_some};
ghost use Rattle.content_steps.specs.Shown.{with_blocks};
ghost use Rattle.content_steps.specs.Steps.{MayTakeBlocks, StepsButSpace};
ghost use Rattle.extent_ops.specs.Content.{AreOfContent, TakesBlocks, hidden_if, is_covered_above};
ghost use Rattle.key_meaning.specs.Blocks.{Block};
ghost use Rattle.key_meaning.specs.Checks.{AreBlocksPlaced, IsLiveLeaf};
ghost use Rattle.key_meaning.specs.Forest.{counter_in};
ghost use Rattle.key_meaning.specs.Visible.{snaps_of};
ghost use Rattle.key_steps.specs.Kept.{IsKept};
ghost use Rattle.key_steps.specs.Shown.{Shown, shown_in};
ghost use Rattle.key_steps.specs.Steps.{Steps};
ghost use Rattle.vol_types.specs.KeyMaps.{IsKeyMap, KeyMap, with_updates};
ghost use Rattle.vol_types.specs.declared.keys.Update.{Update};
ghost use Rattle.vol_types.specs.declared.layout.Layout.{Layout};
ghost use Rattle.vol_types.specs.declared.pointers.Place.{Place};

use extent_ops::{taken_blocks_keep_keys, taken_blocks_show};
use key_steps::shown_numbers_are_drawn;

/// Steps are steps but for the keys on space, these follow each other, the second one as a change of what the first one shows, and a
/// live leaf stays one.
pub fn steps_but_space_follow_each_other()
    ensures weaker { (keys new : KeyMap) (nodes : List Place) (layout : Layout) (id : ℕ)
        (shown : Shown) (counters : ℕ → Option ℕ) → Steps keys new nodes layout id shown counters
        → StepsButSpace keys new nodes layout id shown counters }
    ensures then { (keys middle new : KeyMap) (nodes : List Place) (layout : Layout) (id : ℕ)
        (one : Shown) (counters : ℕ → Option ℕ) (change : Shown → Shown)
        → StepsButSpace keys middle nodes layout id one counters
        → StepsButSpace middle new nodes layout id (change (shown_in middle id)) (counter_in middle)
        → StepsButSpace keys new nodes layout id (change one) counters }
    ensures leaf { (keys new : KeyMap) (nodes : List Place) (layout : Layout) (id : ℕ)
        (shown : Shown) (counters : ℕ → Option ℕ)
        → StepsButSpace keys new nodes layout id shown counters → IsLiveLeaf keys id
        → IsLiveLeaf new id }
{}

/// Blocks that are put into a file of a live leaf, or cut, are a step but for the keys on space: the id shows the same inodes and
/// names, and of the file what was put, or nothing where it was cut. So are those of a file that is gone.
pub fn blocks_are_steps()
    ensures put { (keys : KeyMap) (nodes : List Place) (layout : Layout) (id file : ℕ)
        (updates : List Update) (given : ℕ → Option (Option Block)) → IsKept keys nodes layout
        → IsLiveLeaf keys id → MayTakeBlocks keys nodes layout id file updates
        → TakesBlocks keys (with_updates updates keys) file id (λ block. is_some (given block)) given
        → StepsButSpace keys (with_updates updates keys) nodes layout id
        (with_blocks file given (shown_in keys id)) (counter_in keys) }
    ensures cut { (keys : KeyMap) (nodes : List Place) (layout : Layout) (id file : ℕ)
        (updates : List Update) (is_cut : ℕ → Bool) → IsKept keys nodes layout → IsLiveLeaf keys id
        → MayTakeBlocks keys nodes layout id file updates
        → TakesBlocks keys (with_updates updates keys) file id is_cut
        (λ block. hidden_if (is_covered_above keys id file block))
        → StepsButSpace keys (with_updates updates keys) nodes layout id
        (with_blocks file (λ block. hidden_if (is_cut block)) (shown_in keys id)) (counter_in keys) }
{
    shown_numbers_are_drawn();
    taken_blocks_keep_keys();
    taken_blocks_show();
}

/// Updates that take blocks over do so wherever extents and ids are the same, and blocks lie as they would: so an operation looks once,
/// at the keys as they are.
pub fn blocks_are_planned_once()
    ensures put { (keys middle : KeyMap) (updates : List Update) (id file : ℕ) (cut : ℕ → Bool)
        (given : ℕ → Option (Option Block)) → IsKeyMap middle → middle.extents ≡ keys.extents
        → snaps_of middle ≡ snaps_of keys → AreOfContent id updates
        → TakesBlocks keys (with_updates updates keys) file id cut given
        → TakesBlocks middle (with_updates updates middle) file id cut given }
    ensures cut { (keys middle : KeyMap) (updates : List Update) (id file : ℕ) (is_cut : ℕ → Bool)
        → IsKeyMap middle → middle.extents ≡ keys.extents → snaps_of middle ≡ snaps_of keys
        → AreOfContent id updates → TakesBlocks keys (with_updates updates keys) file id is_cut
        (λ block. hidden_if (is_covered_above keys id file block))
        → TakesBlocks middle (with_updates updates middle) file id is_cut
        (λ block. hidden_if (is_covered_above middle id file block)) }
    ensures placed { (keys middle : KeyMap) (updates : List Update) (nodes : List Place)
        (layout : Layout) → middle.extents ≡ keys.extents
        → AreBlocksPlaced (with_updates updates keys) nodes layout
        → AreBlocksPlaced (with_updates updates middle) nodes layout }
{}
