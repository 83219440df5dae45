ghost use Rattle.std.specs.Prelude.{◌≡◌, ℕ, All, List, map, max};
ghost use Rattle.extent_ops.specs.Above.{blocks_maybe};
ghost use Rattle.extent_ops.specs.Content.{AreLookedAt, IsContent, IsInRange};
ghost use Rattle.extent_ops.specs.Looking.{AreExtentsUpTo, IsLongest, IsUpTo, reach};
ghost use Rattle.key_meaning.specs.Blocks.{blocks_of};
ghost use Rattle.key_meaning.specs.Tidy.{IsKeyOf};
ghost use Rattle.vol_types.specs.KeyMaps.{KeyMap, answer_of, with_updates};
ghost use Rattle.vol_types.specs.declared.keys.Key.{Key as AKey};
ghost use Rattle.vol_types.specs.declared.positions.Btree.TheVariants.{Extents};

use crate::parts::blocks_of;
use vol_types::{Btree, Pos, Query, Update, Value};

/// The query whose answer has the keys of a file that cover one of some blocks, from the first to the last one, where no extent or
/// hole has more than `longest` blocks. The answer has all keys of the file that end in the range or in the `longest` blocks behind
/// it, in any id.
pub fn reach(file: u64, first: u64, last: u64, longest: u64) -> Query
    ensures { result ≡ reach file first last longest }
{
    Query::Span {
        btree: Btree::Extents,
        first: Pos {
            inode: file,
            offset: first.saturating_add(1),
            snapshot: 0,
        },
        last: Pos {
            inode: file,
            offset: last.saturating_add(longest),
            snapshot: u32::MAX,
        },
    }
}

/// The answer to that query is what `cover`, `overwrite` and `punch` want, where extents and holes are in range and have no more
/// blocks than was said.
pub fn reached_keys_are_looked_at()
    ensures { (map : KeyMap) (file first last longest : ℕ) (keys : List AKey)
        → All (λ entry. IsInRange entry) map.extents → AreExtentsUpTo longest map
        → keys ≡ answer_of (reach file first last longest) map → AreLookedAt map file first last keys }
{}

/// Keys that were looked at are of the file. They are extents and holes in range, where those of the map are keys of their btree,
/// and none has more blocks than those of the map.
pub fn looked_at_keys_are_content()
    ensures of_file { (map : KeyMap) (file first last : ℕ) (keys : List AKey)
        → AreLookedAt map file first last keys → All (λ key. key.pos.inode ≡ file) keys }
    ensures content { (map : KeyMap) (file first last : ℕ) (keys : List AKey)
        → All (IsKeyOf map Extents) map.extents → AreLookedAt map file first last keys
        → All (λ key. IsContent key.value) keys }
    ensures up_to { (map : KeyMap) (file first last longest : ℕ) (keys : List AKey)
        → AreExtentsUpTo longest map → AreLookedAt map file first last keys
        → All (λ key. IsUpTo longest key.value) keys }
{}

/// How many blocks the longest extent or hole of a key map has after updates, or more, where none had more than `so_far`: the
/// greatest of this and of what the updates put. Each update costs a step.
pub fn longest_in(updates: &[Update], so_far: u64) -> u64
    ensures is { IsLongest so_far (map (λ update. update.value) updates.now) result }
    ensures after { (keys : KeyMap) → AreExtentsUpTo so_far keys
        → AreExtentsUpTo result (with_updates updates.now keys) }
{
    let mut longest = so_far;
    for update in updates {
        longest = longest_after(update, longest);
    }
    longest
}

// The greatest of a number and of the blocks of what an update puts.
fn longest_after(update: &Update, so_far: u64) -> u64
    ensures { result ≡ max so_far (blocks_maybe update.now.value) }
{
    match &update.value {
        None => so_far,
        Some(value) => longest_with(value, so_far),
    }
}

/// The greatest of a number and of the blocks that a value covers. Taken over all extents and holes of a volume, from 0 on, it is how
/// many blocks the longest of them has.
pub fn longest_with(value: &Value, so_far: u64) -> u64
    ensures { result ≡ max so_far (blocks_of value.now) }
{
    so_far.max(blocks_of(value))
}
