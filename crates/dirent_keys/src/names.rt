ghost use Rattle.std.specs.Ordering.{nat_cmp};
ghost use Rattle.std.specs.Prelude.{◌≡◌, All, IfErr, IfOk, IfSome, IsSome, None, Some};
ghost use Rattle.dirent_keys.specs.Links.{names_value};
ghost use Rattle.dirent_keys.specs.Names.{IfDone, SeesName, removal_of, step_to_add};
ghost use Rattle.key_meaning.specs.Forest.{links_in};
ghost use Rattle.key_meaning.specs.Visible.{visible};
ghost use Rattle.key_view.specs.Changes.{own_update, updates_to_see};
ghost use Rattle.key_view.specs.Holds.{IsCause};
ghost use Rattle.key_view.specs.Seen.{GoesOn, IsSeen};
ghost use Rattle.vol_digest.specs.Digests.{slot_of};
ghost use Rattle.vol_types.specs.KeyMaps.{KeyMap, with_updates};
ghost use Rattle.vol_types.specs.Maps.{value_at};
ghost use Rattle.vol_types.specs.Ranges.{IsKeyValue, IsName};
ghost use Rattle.vol_types.specs.Standing.{IsUpdate};
ghost use Rattle.vol_types.specs.declared.positions.Btree.TheVariants.{Dirents};
ghost use Rattle.vol_types.specs.declared.values.Value.TheVariants.{White};

use crate::NameStep;
use crate::links::{is_among, is_full, link_to, links_of, names_value, with_link, without_name};
use key_view::{Hold, View, changes_are_seen, nearest, updates_to_see};
use snap_tree::SnapTree;
use std::alloc::Global;
use vol_digest::slot;
use vol_types::{Btree, Bytes, FileKind, LinkList, Pos, Updates};

/// Adds a name to a directory in an id of the tree: the updates after which the id sees it lead to this inode, and nothing else
/// that is seen changes. The name exists where the id sees it, and is crowded out where the id sees eight others of its slot.
/// It makes the looks that `nearest` makes at the slot, and takes memory for the names of the slot and for one update.
pub fn add<V: View>(
    alloc: Global,
    view: &mut V,
    tree: &SnapTree,
    id: u32,
    dir: u64,
    name: &Bytes,
    number: u64,
    kind: FileKind,
) -> Result<NameStep, Hold>
    ensures step { IfOk result (λ step. (keys : KeyMap) → IsSeen keys (V.made view.new) tree.now
        → step ≡ step_to_add keys id dir (record { number = number; kind = kind; name = name.now })) }
    ensures seen { IfOk result (λ step. IfDone step (λ updates. (keys : KeyMap)
        → IsSeen keys (V.made view.new) tree.now → IsSome (value_at nat_cmp id tree.now)
        → SeesName keys (with_updates updates keys) id dir name.now (Some (number, kind)))) }
    ensures fits { IsName name.now → IfOk result (λ step. IfDone step (λ updates. (keys : KeyMap)
        → IsSeen keys (V.made view.new) tree.now
        → IsKeyValue (visible keys Dirents dir (slot_of name.now) id) → All IsUpdate updates)) }
    ensures looks { GoesOn (V.made view.old) (V.made view.new) }
    ensures ids { V.told view.new ≡ V.told view.old }
    ensures cause { IfErr result (IsCause (V.held view.new)) }
{
    tree.ids_fit();
    changes_are_seen();
    let own = place_of(id, dir, name);
    let links = links_at(alloc, view, tree, own)?;
    if is_among(name.as_slice(), links.as_slice()) {
        return Ok(NameStep::Exists);
    }
    if is_full(links.as_slice()) {
        return Ok(NameStep::Crowded);
    }
    let link = link_to(alloc, name, number, kind)?;
    let updates = updates_to_show(alloc, view, tree, own, with_link(links, link)?)?;
    Ok(NameStep::Done(updates))
}

/// Removes a name of a directory in an id of the tree: the updates after which the id doesn't see it, and nothing else that is
/// seen changes; none where the id doesn't see it. It makes the looks that `nearest` makes at the slot, and where the name is
/// the last one of its slot those that it makes for the parent, and one more. It takes memory for the names of the slot and
/// for one update.
pub fn remove<V: View>(
    alloc: Global,
    view: &mut V,
    tree: &SnapTree,
    id: u32,
    dir: u64,
    name: &Bytes,
) -> Result<Option<Updates>, Hold>
    ensures removal { IfOk result (λ removal. (keys : KeyMap)
        → IsSeen keys (V.made view.new) tree.now → removal ≡ removal_of keys id dir name.now) }
    ensures seen { IfOk result (λ removal. IfSome removal (λ updates. (keys : KeyMap)
        → IsSeen keys (V.made view.new) tree.now → IsSome (value_at nat_cmp id tree.now)
        → SeesName keys (with_updates updates keys) id dir name.now None)) }
    ensures fits { IfOk result (λ removal. IfSome removal (λ updates. (keys : KeyMap)
        → IsSeen keys (V.made view.new) tree.now
        → IsKeyValue (visible keys Dirents dir (slot_of name.now) id) → All IsUpdate updates)) }
    ensures looks { GoesOn (V.made view.old) (V.made view.new) }
    ensures ids { V.told view.new ≡ V.told view.old }
    ensures cause { IfErr result (IsCause (V.held view.new)) }
{
    tree.ids_fit();
    changes_are_seen();
    let own = place_of(id, dir, name);
    let links = links_at(alloc, view, tree, own)?;
    if !is_among(name.as_slice(), links.as_slice()) {
        return Ok(None);
    }
    let left = without_name(links, name.as_slice());
    let updates = updates_to_show(alloc, view, tree, own, left)?;
    Ok(Some(updates))
}

// Where an id has its own key of the names that share the slot of this one.
pub(crate) fn place_of(id: u32, dir: u64, name: &Bytes) -> Pos
    ensures { result ≡ record { inode = dir; offset = slot_of name.now; snapshot = id } }
{
    Pos {
        inode: dir,
        offset: slot(name.as_slice()),
        snapshot: id,
    }
}

// The names that an id sees at the place of a key of its own.
pub(crate) fn links_at<V: View>(
    alloc: Global,
    view: &mut V,
    tree: &SnapTree,
    own: Pos,
) -> Result<LinkList, Hold>
    ensures links { IfOk result (λ links. (keys : KeyMap) → IsSeen keys (V.made view.new) tree.now
        → links ≡ links_in keys own.snapshot own.inode own.offset) }
    ensures looks { GoesOn (V.made view.old) (V.made view.new) }
    ensures ids { V.told view.new ≡ V.told view.old }
    ensures cause { IfErr result (IsCause (V.held view.new)) }
{
    let Pos {
        inode,
        offset,
        snapshot,
    } = own;
    let value = nearest(view, tree, Btree::Dirents, inode, offset, snapshot)?;
    Ok(links_of(alloc, value))
}

// The updates after which an id sees these names at the place of a key of its own, and nothing where there are none.
pub(crate) fn updates_to_show<V: View>(
    alloc: Global,
    view: &mut V,
    tree: &SnapTree,
    own: Pos,
    links: LinkList,
) -> Result<Updates, Hold>
    ensures updates { IfOk result (λ updates. (keys : KeyMap) → IsSeen keys (V.made view.new) tree.now
        → updates ≡ updates_to_see keys Dirents own.inode own.offset own.snapshot (names_value links)) }
    ensures fits { IsUpdate (own_update Dirents own.inode own.offset own.snapshot (names_value links))
        → IsUpdate (own_update Dirents own.inode own.offset own.snapshot (Some White))
        → IfOk result (All IsUpdate) }
    ensures looks { GoesOn (V.made view.old) (V.made view.new) }
    ensures ids { V.told view.new ≡ V.told view.old }
    ensures cause { IfErr result (IsCause (V.held view.new)) }
{
    updates_to_see(alloc, view, tree, Btree::Dirents, own, names_value(links))
}
