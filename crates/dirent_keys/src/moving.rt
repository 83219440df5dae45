ghost use Rattle.std.specs.Ordering.{nat_cmp};
ghost use Rattle.std.specs.Prelude.{◌≡◌, ◌==◌, ◌&&◌, ◌++◌, [], All, IfErr, IfOk, IsSome, Some, if◌then◌else◌};
ghost use Rattle.dirent_keys.specs.Links.{names_value, without_name};
ghost use Rattle.dirent_keys.specs.Moves.{IsMove, MovesName, step_to_move, with_room};
ghost use Rattle.dirent_keys.specs.Names.{IfDone};
ghost use Rattle.key_meaning.specs.Forest.{links_in};
ghost use Rattle.key_meaning.specs.Visible.{visible};
ghost use Rattle.key_view.specs.Changes.{own_update, updates_to_see};
ghost use Rattle.key_view.specs.Holds.{IsCause};
ghost use Rattle.key_view.specs.Seen.{GoesOn, IsSeen};
ghost use Rattle.vol_digest.specs.Digests.{slot_of};
ghost use Rattle.vol_types.specs.KeyMaps.{KeyMap, with_updates};
ghost use Rattle.vol_types.specs.Maps.{value_at};
ghost use Rattle.vol_types.specs.Ranges.{IsKeyValue, IsName};
ghost use Rattle.vol_types.specs.Standing.{IsUpdate};
ghost use Rattle.vol_types.specs.declared.positions.Btree.TheVariants.{Dirents};
ghost use Rattle.vol_types.specs.declared.values.Value.TheVariants.{White};

use crate::NameStep;
use crate::links::{is_among, is_full, link_to, with_link, without_name};
use crate::names::{links_at, place_of, updates_to_show};
use key_view::{Hold, View, changes_are_seen};
use snap_tree::SnapTree;
use std::alloc::Global;
use vol_types::{Bytes, FileKind, LinkList, Pos, Updates};

/// Moves a name in an id of the tree: the updates after which the id doesn't see the old name and sees the new one lead to this
/// inode, and nothing else that is seen changes. Where both names stand under one slot it is one update. The new name exists
/// where the id sees it, and is crowded out where the id sees eight others of its slot once the old one is gone. It makes the
/// looks that `add` makes for the new name and, where it has another slot, those that `remove` makes for the old one. It takes
/// memory for the names of each slot and for one update of each.
pub fn move_name<V: View>(
    alloc: Global,
    view: &mut V,
    tree: &SnapTree,
    id: u32,
    from_dir: u64,
    from_name: &Bytes,
    to_dir: u64,
    to_name: &Bytes,
    number: u64,
    kind: FileKind,
) -> Result<NameStep, Hold>
    ensures step { IfOk result (λ step. (keys : KeyMap) → IsSeen keys (V.made view.new) tree.now
        → step ≡ step_to_move keys id from_dir from_name.now to_dir
        (record { number = number; kind = kind; name = to_name.now })) }
    ensures seen { IfOk result (λ step. IfDone step (λ updates. (keys : KeyMap)
        → IsSeen keys (V.made view.new) tree.now → IsSome (value_at nat_cmp id tree.now)
        → IsMove keys id from_dir from_name.now to_dir to_name.now
        → MovesName keys (with_updates updates keys) id from_dir from_name.now to_dir to_name.now
        (number, kind))) }
    ensures fits { IsName to_name.now → IfOk result (λ step. IfDone step (λ updates. (keys : KeyMap)
        → IsSeen keys (V.made view.new) tree.now
        → IsKeyValue (visible keys Dirents from_dir (slot_of from_name.now) id)
        → IsKeyValue (visible keys Dirents to_dir (slot_of to_name.now) id)
        → All IsUpdate updates)) }
    ensures looks { GoesOn (V.made view.old) (V.made view.new) }
    ensures ids { V.told view.new ≡ V.told view.old }
    ensures cause { IfErr result (IsCause (V.held view.new)) }
{
    tree.ids_fit();
    changes_are_seen();
    let old = place_of(id, from_dir, from_name);
    let new = place_of(id, to_dir, to_name);
    let links = links_at(alloc, view, tree, new)?;
    if is_among(to_name.as_slice(), links.as_slice()) {
        return Ok(NameStep::Exists);
    }
    let Some(left) = links_with_room(old, new, links, from_name.as_slice()) else {
        return Ok(NameStep::Crowded);
    };
    let link = link_to(alloc, to_name, number, kind)?;
    let all = with_link(left, link)?;
    let updates = updates_to_move(alloc, view, tree, old, new, from_name.as_slice(), all)?;
    Ok(NameStep::Done(updates))
}

// Whether two places of keys of an id are one.
fn are_one(old: Pos, new: Pos) -> bool
    ensures { result ≡ (old.inode == new.inode && old.offset == new.offset) }
{
    old.inode == new.inode && old.offset == new.offset
}

// The names of the new place once the old name is gone; none where it has no room for a further one then.
fn links_with_room(old: Pos, new: Pos, links: LinkList, name: &[u8]) -> Option<LinkList>
    ensures { result ≡ with_room (if old.inode == new.inode && old.offset == new.offset then without_name name.now links else links) }
{
    let left = links_left(old, new, links, name);
    if is_full(left.as_slice()) {
        return None;
    }
    Some(left)
}

// The names of the new place once the old name is gone, which is one of them where both places are one.
fn links_left(old: Pos, new: Pos, links: LinkList, name: &[u8]) -> LinkList
    ensures { result ≡ (if old.inode == new.inode && old.offset == new.offset then without_name name.now links else links) }
{
    if are_one(old, new) {
        return without_name(links, name);
    }
    links
}

// The updates after which the old place hasn't the name, and the new one has these names.
fn updates_to_move<V: View>(
    alloc: Global,
    view: &mut V,
    tree: &SnapTree,
    old: Pos,
    new: Pos,
    name: &[u8],
    links: LinkList,
) -> Result<Updates, Hold>
    ensures updates { IfOk result (λ updates. (keys : KeyMap) → IsSeen keys (V.made view.new) tree.now
        → updates ≡ (if old.inode == new.inode && old.offset == new.offset then []
        else updates_to_see keys Dirents old.inode old.offset old.snapshot
        (names_value (without_name name.now (links_in keys old.snapshot old.inode old.offset))))
        ++ updates_to_see keys Dirents new.inode new.offset new.snapshot (names_value links)) }
    ensures looks { GoesOn (V.made view.old) (V.made view.new) }
    ensures ids { V.told view.new ≡ V.told view.old }
    ensures cause { IfErr result (IsCause (V.held view.new)) }
{
    let mut updates = updates_to_leave(alloc, view, tree, old, new, name)?;
    let mut added = updates_to_show(alloc, view, tree, new, links)?;
    updates.append(&mut added)?;
    Ok(updates)
}

// The updates after which the old place hasn't the name, where the new one is another; none where it is the same.
fn updates_to_leave<V: View>(
    alloc: Global,
    view: &mut V,
    tree: &SnapTree,
    old: Pos,
    new: Pos,
    name: &[u8],
) -> Result<Updates, Hold>
    ensures updates { IfOk result (λ updates. (keys : KeyMap) → IsSeen keys (V.made view.new) tree.now
        → updates ≡ (if old.inode == new.inode && old.offset == new.offset then []
        else updates_to_see keys Dirents old.inode old.offset old.snapshot
        (names_value (without_name name.now (links_in keys old.snapshot old.inode old.offset))))) }
    ensures looks { GoesOn (V.made view.old) (V.made view.new) }
    ensures ids { V.told view.new ≡ V.told view.old }
    ensures cause { IfErr result (IsCause (V.held view.new)) }
{
    if are_one(old, new) {
        return Ok(Updates::new(alloc));
    }
    let links = links_at(alloc, view, tree, old)?;
    updates_to_show(alloc, view, tree, old, without_name(links, name))
}
