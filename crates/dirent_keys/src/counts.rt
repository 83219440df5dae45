ghost use Rattle.std.specs.Prelude.{◌≡◌, ◌↔◌, true, IfErr, IfOk, length};
ghost use Rattle.dirent_keys.specs.Slots.{IsBare};
ghost use Rattle.key_meaning.specs.Checks.{AreNamesJoined, IsLiveLeaf};
ghost use Rattle.key_meaning.specs.Forest.{names_in};
ghost use Rattle.key_meaning.specs.Tidy.{AreKeysDrawn};
ghost use Rattle.key_view.specs.Holds.{IsCause};
ghost use Rattle.key_view.specs.Seen.{GoesOn, IsSeen};
ghost use Rattle.vol_types.specs.KeyMaps.{KeyMap};

use crate::slots::next_shown;
use key_view::{Hold, View};
use snap_tree::SnapTree;

/// Whether no name of a directory shows in an id of the tree. It makes a look for each slot that the directory has in any id,
/// beside those of `nearest` there, and one more; it ends at the first slot under which a name shows, and makes no list.
pub fn is_bare<V: View>(view: &mut V, tree: &SnapTree, id: u32, dir: u64) -> Result<bool, Hold>
    ensures bare { IfOk result (λ bare. (keys : KeyMap) → IsSeen keys (V.made view.new) tree.now
        → (bare ≡ true) ↔ IsBare keys id dir) }
    ensures looks { GoesOn (V.made view.old) (V.made view.new) }
    ensures ids { V.told view.new ≡ V.told view.old }
    ensures cause { IfErr result (V.held view.new) }
{
    Ok(next_shown(view, tree, id, dir, 0)?.is_none())
}

/// How many names a directory has in an id of the tree, a live leaf of sound keys in range. It makes a look for each slot that
/// the directory has in any id, beside those of `nearest` there, and one more, and makes no list. For a count beyond 64 bits
/// there is no memory.
#[tactic(auto, using(crate::proofs::Looks::looks_then))]
pub fn count<V: View>(view: &mut V, tree: &SnapTree, id: u32, dir: u64) -> Result<u64, Hold>
    ensures count { IfOk result (λ count. (keys : KeyMap) → IsSeen keys (V.made view.new) tree.now
        → AreKeysDrawn keys → AreNamesJoined keys → IsLiveLeaf keys id
        → count ≡ length (names_in keys id dir)) }
    ensures looks { GoesOn (V.made view.old) (V.made view.new) }
    ensures ids { V.told view.new ≡ V.told view.old }
    ensures cause { IfErr result (IsCause (V.held view.new)) }
{
    let mut count: u64 = 0;
    let mut from = 0;
    loop {
        let Some(shown) = next_shown(view, tree, id, dir, from)? else {
            return Ok(count);
        };
        let Some(sum) = count.checked_add(shown.count) else {
            return Err(Hold::NoMemory);
        };
        if shown.slot == u64::MAX {
            return Ok(sum);
        }
        count = sum;
        from = shown.slot + 1;
    }
}
