ghost use Rattle.std.specs.Prelude.{◌≡◌, ◌≤◌, Some, None, is_some, if◌then◌else◌, IfOk, IfErr, IfSome};
ghost use Rattle.key_meaning.specs.Visible.{shown, visible, visible_above};
ghost use Rattle.key_view.specs.Own.{IsNextOwn, own_of, stands_above};
ghost use Rattle.key_view.specs.Seen.{IsSeen, GoesOn};
ghost use Rattle.vol_types.specs.KeyMaps.{KeyMap, IsKeyMap, GivesLooks};

use crate::{Hold, View};
use snap_tree::SnapTree;
use vol_types::{Btree, Key, Pos, Query, Value};

/// The value that an id of the tree sees at a position, or none: that of the nearest of the id, its parent, its grandparent
/// and so on that has a key there, if it isn't a whiteout. One look for each key of another branch at that position that
/// stands between, and one more; no look costs more than a logarithm. It takes no memory of its own.
pub fn nearest<V: View>(
    view: &mut V,
    tree: &SnapTree,
    btree: Btree,
    inode: u64,
    offset: u64,
    id: u32,
) -> Result<Option<Value>, Hold>
    ensures visible { IfOk result (λ value. (keys : KeyMap) → IsSeen keys (V.made view.new) tree.now
        → value ≡ visible keys btree inode offset id) }
    ensures looks { GoesOn (V.made view.old) (V.made view.new) }
    ensures ids { V.told view.new ≡ V.told view.old }
    ensures cause { IfErr result (V.held view.new) }
{
    tree.ids_fit();
    let mut from = id;
    loop {
        let Some((owner, value)) = next_own(view, btree, inode, offset, from)? else {
            return Ok(None);
        };
        if let Some(shown) = shown_if(tree.is_ancestor(owner, id), value) {
            return Ok(shown);
        }
        if owner == u32::MAX {
            return Ok(None);
        }
        from = owner + 1;
    }
}

/// Whether an id of the tree needs a whiteout to see nothing at a position: its parent sees a value there. It costs what
/// `nearest` does.
pub fn whiteout_needed<V: View>(
    view: &mut V,
    tree: &SnapTree,
    btree: Btree,
    inode: u64,
    offset: u64,
    id: u32,
) -> Result<bool, Hold>
    ensures needed { IfOk result (λ needed. (keys : KeyMap) → IsSeen keys (V.made view.new) tree.now
        → needed ≡ is_some (visible_above keys btree inode offset id)) }
    ensures looks { GoesOn (V.made view.old) (V.made view.new) }
    ensures ids { V.told view.new ≡ V.told view.old }
    ensures cause { IfErr result (V.held view.new) }
{
    let Some(parent) = tree.parent(id) else {
        return Ok(false);
    };
    let seen = nearest(view, tree, btree, inode, offset, parent)?;
    let needed = seen.is_some();
    drop(seen);
    Ok(needed)
}

// The first id from a number on that has a key of its own at a position, with its value.
fn next_own<V: View>(
    view: &mut V,
    btree: Btree,
    inode: u64,
    offset: u64,
    from: u32,
) -> Result<Option<(u32, Value)>, Hold>
    ensures next { IfOk result (λ next. (keys : KeyMap) → IsKeyMap keys
        → GivesLooks keys (V.made view.new) → IsNextOwn keys btree inode offset from next) }
    ensures above { IfOk result (λ next. IfSome next (λ own. from ≤ own.0)) }
    ensures looks { GoesOn (V.made view.old) (V.made view.new) }
    ensures ids { V.told view.new ≡ V.told view.old }
    ensures cause { IfErr result (V.held view.new) }
{
    let pos = Pos {
        inode,
        offset,
        snapshot: from,
    };
    let mut answer = view.look(&Query::Starting { btree, pos })?;
    let Some(key) = answer.pop() else {
        return Ok(None);
    };
    Ok(own_of(key, pos))
}

// The id of a key with its value, where it stands at this inode and offset, at this id or a greater one.
fn own_of(key: Key, from: Pos) -> Option<(u32, Value)>
    ensures { result ≡ own_of key from }
{
    let Key { pos, value } = key;
    if !stands_above(from, pos) {
        return None;
    }
    match value {
        None => None,
        Some(value) => Some((pos.snapshot, value)),
    }
}

// Whether the second position is at the inode and the offset of the first one, at its id or a greater one.
fn stands_above(from: Pos, pos: Pos) -> bool
    ensures { result ≡ stands_above from pos }
{
    pos.inode == from.inode && pos.offset == from.offset && pos.snapshot >= from.snapshot
}

// What a value shows, which is nothing where it is a whiteout; none where it isn't an ancestor's.
fn shown_if(is_ancestor: bool, value: Value) -> Option<Option<Value>>
    ensures { result ≡ (if is_ancestor then Some (shown (Some value)) else None) }
{
    if !is_ancestor {
        return None;
    }
    match value {
        Value::White => Some(None),
        value => Some(Some(value)),
    }
}
