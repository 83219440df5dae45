ghost use Rattle.std.specs.Prelude.{◌≡◌, ◌≤◌, ◌<◌, ◌^◌, IfErr, IfOk, IfSome, length};
ghost use Rattle.dirent_keys.specs.Slots.{HasNoSlot, IsNextShown, slot_of_key};
ghost use Rattle.key_meaning.specs.Forest.{links_in, links_of};
ghost use Rattle.key_view.specs.Seen.{GoesOn, IsSeen};
ghost use Rattle.vol_types.specs.KeyMaps.{GivesLooks, IsKeyMap, KeyMap};

use key_view::{Hold, View, nearest};
use snap_tree::SnapTree;
use vol_types::{Btree, Key, Pos, Query, Value};

/// A slot of a directory under which names show in an id, and how many.
#[derive(PartialEq, Eq, Drop)]
pub(crate) struct ShownSlot {
    pub slot: u64,
    pub count: u64,
}

/// The first slot of a directory from a number on at which some id has a key. It makes one look.
pub fn next_slot<V: View>(view: &mut V, directory: u64, from: u64) -> Result<Option<u64>, Hold>
    ensures next { IfOk result (λ next. (keys : KeyMap) → IsKeyMap keys
        → GivesLooks keys (V.made view.new) → HasNoSlot keys directory from next) }
    ensures above { IfOk result (λ next. IfSome next (λ slot. from ≤ slot)) }
    ensures looks { GoesOn (V.made view.old) (V.made view.new) }
    ensures ids { V.told view.new ≡ V.told view.old }
    ensures cause { IfErr result (V.held view.new) }
{
    let pos = Pos {
        inode: directory,
        offset: from,
        snapshot: 0,
    };
    let mut answer = view.look(&Query::Starting {
        btree: Btree::Dirents,
        pos,
    })?;
    Ok(slot_of_key(answer.pop(), directory, from))
}

// The slot of a key, where it is one of this directory from a slot on.
fn slot_of_key(key: Option<Key>, directory: u64, from: u64) -> Option<u64>
    ensures { result ≡ slot_of_key key directory from }
{
    let Some(Key { pos, value: _ }) = key else {
        return None;
    };
    if pos.inode != directory || pos.offset < from {
        return None;
    }
    Some(pos.offset)
}

/// The first slot of a directory from a number on under which names show in an id of the tree, and how many do. It makes a
/// look for each slot from there that has a key in any id, beside those of `nearest` there, and makes no list.
#[tactic(auto, using(crate::proofs::Looks::looks_then))]
pub(crate) fn next_shown<V: View>(
    view: &mut V,
    tree: &SnapTree,
    id: u32,
    directory: u64,
    from: u64,
) -> Result<Option<ShownSlot>, Hold>
    ensures shown { IfOk result (λ shown. (keys : KeyMap) → IsSeen keys (V.made view.new) tree.now
        → IsNextShown keys id directory from shown) }
    ensures some { IfOk result (λ shown. IfSome shown (λ slot. 0 < slot.count)) }
    ensures above { IfOk result (λ shown. IfSome shown (λ slot. from ≤ slot.slot)) }
    ensures fits { IfOk result (λ shown. IfSome shown (λ slot. slot.slot < 2 ^ 64)) }
    ensures looks { GoesOn (V.made view.old) (V.made view.new) }
    ensures ids { V.told view.new ≡ V.told view.old }
    ensures cause { IfErr result (V.held view.new) }
{
    let mut next = from;
    loop {
        let Some(slot) = next_slot(view, directory, next)? else {
            return Ok(None);
        };
        let count = count_at(view, tree, id, directory, slot)?;
        if count > 0 {
            return Ok(Some(ShownSlot { slot, count }));
        }
        if slot == u64::MAX {
            return Ok(None);
        }
        next = slot + 1;
    }
}

// How many names show in an id under a slot of a directory.
fn count_at<V: View>(
    view: &mut V,
    tree: &SnapTree,
    id: u32,
    directory: u64,
    slot: u64,
) -> Result<u64, Hold>
    ensures count { IfOk result (λ count. (keys : KeyMap) → IsSeen keys (V.made view.new) tree.now
        → count ≡ length (links_in keys id directory slot)) }
    ensures looks { GoesOn (V.made view.old) (V.made view.new) }
    ensures ids { V.told view.new ≡ V.told view.old }
    ensures cause { IfErr result (V.held view.new) }
{
    let value = nearest(view, tree, Btree::Dirents, directory, slot, id)?;
    Ok(count_in_value(value))
}

// How many names a value holds.
fn count_in_value(value: Option<Value>) -> u64
    ensures { result ≡ length (links_of value) }
{
    match value {
        Some(Value::Names(links)) => links.len() as u64,
        _ => 0,
    }
}
