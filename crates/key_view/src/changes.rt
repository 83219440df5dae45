ghost use Rattle.std.specs.Ordering.{nat_cmp};
ghost use Rattle.std.specs.Prelude.{◌≡◌, ◌≢◌, ◌∷◌, [], ℕ, Option, Some, IfOk, IfErr, IsSome, All, is_some};
ghost use Rattle.key_meaning.specs.Visible.{snaps_of, shown};
ghost use Rattle.key_view.specs.Changes.{SeesThere, own_update, removal, updates_to_see};
ghost use Rattle.key_view.specs.Holds.{IsCause};
ghost use Rattle.key_view.specs.Seen.{IsSeen, GoesOn};
ghost use Rattle.snap_tree.specs.Snaps.{IsSnapTree};
ghost use Rattle.vol_types.specs.KeyMaps.{KeyMap, IsKeyMap, GivesLooks, value_in, with_updates};
ghost use Rattle.vol_types.specs.Maps.{value_at};
ghost use Rattle.vol_types.specs.Standing.{IsUpdate};
ghost use Rattle.vol_types.specs.declared.positions.Btree.{Btree as ABtree};
ghost use Rattle.vol_types.specs.declared.positions.Btree.TheVariants.{Snapshots};
ghost use Rattle.vol_types.specs.declared.values.Value.{Value as AValue};
ghost use Rattle.vol_types.specs.declared.values.Value.TheVariants.{White};

use crate::{Hold, View, whiteout_needed};
use snap_tree::SnapTree;
use std::alloc::{AllocError, Global};
use vol_types::{Btree, Pos, Query, Update, Updates, Value};

/// The updates after which an id of the tree sees this value at a position, or none: its own key there, whose position is
/// given, gets the value. To see none it gets a whiteout where its parent sees a value, else it is removed, if there is one.
pub fn updates_to_see<V: View>(
    alloc: Global,
    view: &mut V,
    tree: &SnapTree,
    btree: Btree,
    own: Pos,
    value: Option<Value>,
) -> Result<Updates, Hold>
    ensures updates { IfOk result (λ updates. (keys : KeyMap) → IsSeen keys (V.made view.new) tree.now
        → updates ≡ updates_to_see keys btree own.inode own.offset own.snapshot value) }
    ensures fits { IsUpdate (own_update btree own.inode own.offset own.snapshot value)
        → IsUpdate (own_update btree own.inode own.offset own.snapshot (Some White))
        → IfOk result (All IsUpdate) }
    ensures looks { GoesOn (V.made view.old) (V.made view.new) }
    ensures ids { V.told view.new ≡ V.told view.old }
    ensures cause { IfErr result (IsCause (V.held view.new)) }
{
    match value {
        Some(value) => Ok(own_update(alloc, btree, own, Some(value))?),
        None => removal(alloc, view, tree, btree, own),
    }
}

// The updates after which an id of the tree sees nothing at the position of this key of its own.
fn removal<V: View>(
    alloc: Global,
    view: &mut V,
    tree: &SnapTree,
    btree: Btree,
    own: Pos,
) -> Result<Updates, Hold>
    ensures updates { IfOk result (λ updates. (keys : KeyMap) → IsSeen keys (V.made view.new) tree.now
        → updates ≡ removal keys btree own.inode own.offset own.snapshot) }
    ensures fits { IsUpdate (own_update btree own.inode own.offset own.snapshot (Some White))
        → IfOk result (All IsUpdate) }
    ensures looks { GoesOn (V.made view.old) (V.made view.new) }
    ensures ids { V.told view.new ≡ V.told view.old }
    ensures cause { IfErr result (IsCause (V.held view.new)) }
{
    let hides = whiteout_needed(view, tree, btree, own.inode, own.offset, own.snapshot)?;
    if hides {
        return Ok(own_update(alloc, btree, own, Some(Value::White))?);
    }
    let has_own = has_key(view, btree, own)?;
    if !has_own {
        return Ok(Updates::new(alloc));
    }
    let updates = own_update(alloc, btree, own, None)?;
    Ok(updates)
}

// Whether there is a key at a position.
fn has_key<V: View>(view: &mut V, btree: Btree, pos: Pos) -> Result<bool, Hold>
    ensures there { IfOk result (λ there. (keys : KeyMap) → GivesLooks keys (V.made view.new)
        → there ≡ is_some (value_in keys btree pos)) }
    ensures looks { GoesOn (V.made view.old) (V.made view.new) }
    ensures ids { V.told view.new ≡ V.told view.old }
    ensures cause { IfErr result (V.held view.new) }
{
    let answer = view.look(&Query::At { btree, pos })?;
    Ok(!answer.is_empty())
}

// The update that gives a key of the leaves this value, or removes it.
fn own_update(
    alloc: Global,
    btree: Btree,
    pos: Pos,
    value: Option<Value>,
) -> Result<Updates, AllocError>
    ensures updates { IfOk result (λ updates.
        updates ≡ own_update btree pos.inode pos.offset pos.snapshot value ∷ []) }
    ensures fits { IsUpdate (own_update btree pos.inode pos.offset pos.snapshot value)
        → IfOk result (All IsUpdate) }
{
    let mut updates = Updates::new(alloc);
    updates.push(Update {
        btree,
        level: 0,
        pos,
        value,
    })?;
    Ok(updates)
}

/// After these updates the id sees that value or none, and all else that is seen stays.
pub fn changes_are_seen()
    ensures { (keys : KeyMap) (btree : ABtree) (inode offset id : ℕ) (value : Option AValue)
        → IsKeyMap keys → IsSnapTree (snaps_of keys) → btree ≢ Snapshots → shown value ≡ value
        → IsSome (value_at nat_cmp id (snaps_of keys))
        → SeesThere keys (with_updates (updates_to_see keys btree inode offset id value) keys)
        btree inode offset id value }
{}
