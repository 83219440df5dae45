ghost use Rattle.std.specs.Prelude.{◌≡◌, ◌-◌, ◌≤◌, List, Some, IfErr, IfOk, IfSome};
ghost use Rattle.forest_ops.specs.Steps.{with_snapshot};
ghost use Rattle.id_steps.specs.SlotLists.{with_sub};
ghost use Rattle.id_steps.specs.Steps.{copied_to, slots_updates};
ghost use Rattle.key_meaning.specs.Checks.{IsSound};
ghost use Rattle.key_meaning.specs.Forest.{next_in, subs_in};
ghost use Rattle.key_meaning.specs.Tidy.{IsTidy, id_counter};
ghost use Rattle.key_view.specs.Holds.{IsCause};
ghost use Rattle.key_view.specs.Seen.{GoesOn, IsSeen};
ghost use Rattle.path_plan.specs.Given.{IsGiven};
ghost use Rattle.path_plan.specs.Made.{IsStepMade};
ghost use Rattle.subvol_ops.specs.Plans.{copied_drawn, found_copied, snapshot_made, updates_to_copy};
ghost use Rattle.subvol_ops.specs.Slots.{leaf_of, slot_taken, with_moved};
ghost use Rattle.vol_digest.specs.Digests.{slot_of};
ghost use Rattle.vol_types.specs.KeyMaps.{KeyMap};
ghost use Rattle.vol_types.specs.declared.layout.Layout.{Layout};
ghost use Rattle.vol_types.specs.declared.pointers.Place.{Place};
ghost use Rattle.vol_types.specs.declared.values.Snap.{Snap as ASnap};
ghost use Rattle.vol_types.specs.declared.values.Sub.{Sub as ASub};

use crate::counters::{ID_COUNTER, counter, next_id};
use crate::names::is_subvolume_name_good;
use crate::slots::{Leaf, copied_to, leaf_among, room_among, subs_at, with_moved, with_sub};
use crate::updates::{counter_update, joined, one, split_updates, subs_update};
use forest_ops::Cause;
use id_steps::{
    live_leaves_are_subvolumes, slots_are_counted, slots_take_subvolumes, snapshots_are_made,
};
use key_view::{Hold, View};
use snap_tree::SnapTree;
use std::alloc::{AllocError, Global};
use vol_digest::slot;
use vol_types::{Bytes, Sub, SubList, Updates};

/// The updates after which there is a snapshot of a subvolume under another name, which may be locked, or why the forest refuses it. The
/// leaf of the source is split: the source goes on in the greater of two new ids, and the copy has the smaller one. No key of a file
/// changes. It makes one look at the slot of each name and one at the counter of ids, whatever the tree holds, and takes memory for the
/// subvolumes of both slots and for six updates.
pub fn make_snapshot<V: View>(
    alloc: Global,
    view: &mut V,
    source: &Bytes,
    copy: &Bytes,
    locked: bool,
) -> Result<Result<Updates, Cause>, Hold>
    ensures is { IfOk result (λ planned. (keys : KeyMap)
        → IsGiven keys (V.made view.new) (V.told view.new)
        → planned ≡ snapshot_made keys source.now copy.now locked) }
    ensures made { IfOk result (λ planned. (keys : KeyMap) (nodes : List Place) (layout : Layout)
        → IsGiven keys (V.made view.new) (V.told view.new) → IsSound keys nodes layout → IsTidy keys
        → IsStepMade keys nodes layout (with_snapshot source.now copy.now locked) planned) }
    ensures looks { GoesOn (V.made view.old) (V.made view.new) }
    ensures ids { IfSome (V.told view.old) (λ tree. V.told view.new ≡ Some tree) }
    ensures cause { IfErr result (IsCause (V.held view.new)) }
{
    live_leaves_are_subvolumes();
    slots_are_counted();
    slots_take_subvolumes();
    snapshots_are_made();
    let tree = view.tree()?;
    snapshot_in(alloc, view, &tree, source, copy, locked)
}

// The updates after which there is a snapshot of a subvolume, where the ids are those of this tree.
#[tactic(auto, using(path_plan::specs::LookLaws::looks_then))]
fn snapshot_in<V: View>(
    alloc: Global,
    view: &mut V,
    tree: &SnapTree,
    source: &Bytes,
    copy: &Bytes,
    locked: bool,
) -> Result<Result<Updates, Cause>, Hold>
    ensures is { IfOk result (λ planned. (keys : KeyMap) → IsSeen keys (V.made view.new) tree.now
        → planned ≡ snapshot_made keys source.now copy.now locked) }
    ensures looks { GoesOn (V.made view.old) (V.made view.new) }
    ensures ids { V.told view.new ≡ V.told view.old }
    ensures cause { IfErr result (IsCause (V.held view.new)) }
{
    if !is_subvolume_name_good(source.as_slice()) {
        return Ok(Err(Cause::BadPath));
    }
    if !is_subvolume_name_good(copy.as_slice()) {
        return Ok(Err(Cause::BadPath));
    }
    let subs = subs_at(alloc, view, source)?;
    let Some(leaf) = leaf_among(tree, subs.as_slice(), source.as_slice()) else {
        drop(subs);
        return Ok(Err(Cause::NoSubvolume));
    };
    copy_leaf(alloc, view, tree, source, copy, locked, subs, leaf)
}

// The updates by which a snapshot is made of the subvolume in a leaf, whose slot has these, or why not.
#[tactic(auto, using(path_plan::specs::LookLaws::looks_then))]
fn copy_leaf<V: View>(
    alloc: Global,
    view: &mut V,
    tree: &SnapTree,
    source: &Bytes,
    copy: &Bytes,
    locked: bool,
    subs: SubList,
    leaf: Leaf,
) -> Result<Result<Updates, Cause>, Hold>
    ensures is { IfOk result (λ planned. (keys : KeyMap) (sub : ASub) (snap : ASnap)
        → IsSeen keys (V.made view.new) tree.now → subs ≡ subs_in keys (slot_of source.now)
        → leaf ≡ leaf_of sub snap
        → planned ≡ found_copied keys source.now copy.now locked (sub, snap)) }
    ensures looks { GoesOn (V.made view.old) (V.made view.new) }
    ensures ids { V.told view.new ≡ V.told view.old }
    ensures cause { IfErr result (IsCause (V.held view.new)) }
{
    let others = match subs_at(alloc, view, copy) {
        Ok(others) => others,
        Err(hold) => {
            drop(subs);
            return Err(hold);
        }
    };
    if let Err(cause) = room_among(copy.as_slice(), others.as_slice(), tree.live_leaves()) {
        drop(subs);
        drop(others);
        return Ok(Err(cause));
    }
    let next = match counter(view, ID_COUNTER) {
        Ok(next) => next,
        Err(hold) => {
            drop(subs);
            drop(others);
            return Err(hold);
        }
    };
    Ok(copy_drawn(alloc, source, copy, locked, subs, others, leaf, next)?)
}

// The updates by which a snapshot is made of the subvolume in a leaf, where the counter of ids stands so, or why not.
fn copy_drawn(
    alloc: Global,
    source: &Bytes,
    copy: &Bytes,
    locked: bool,
    subs: SubList,
    others: SubList,
    leaf: Leaf,
    next: u64,
) -> Result<Result<Updates, Cause>, AllocError>
    ensures { IfOk result (λ planned. (keys : KeyMap) (sub : ASub) (snap : ASnap)
        → subs ≡ subs_in keys (slot_of source.now) → others ≡ subs_in keys (slot_of copy.now)
        → leaf ≡ leaf_of sub snap → next_in keys id_counter ≡ next
        → planned ≡ copied_drawn keys source.now copy.now locked (sub, snap)) }
{
    let Some(id) = next_id(2, next) else {
        drop(subs);
        drop(others);
        return Ok(Err(Cause::IdsSpent));
    };
    Ok(Ok(updates_to_copy(alloc, source, copy, locked, subs, others, leaf, id)?))
}

// The updates by which a snapshot is made of the subvolume in a leaf, which goes on in this id; the copy has the one below it.
fn updates_to_copy(
    alloc: Global,
    source: &Bytes,
    copy: &Bytes,
    locked: bool,
    subs: SubList,
    others: SubList,
    leaf: Leaf,
    id: u32,
) -> Result<Updates, AllocError>
    requires { 2 ≤ id }
    ensures { IfOk result (λ updates. (keys : KeyMap) (sub : ASub) (snap : ASnap)
        → subs ≡ subs_in keys (slot_of source.now) → others ≡ subs_in keys (slot_of copy.now)
        → leaf ≡ leaf_of sub snap → next_in keys id_counter ≡ id
        → updates ≡ updates_to_copy keys sub snap source.now copy.now locked) }
{
    let entries = entries_to_copy(alloc, source, copy, locked, subs, others, leaf, id)?;
    let drawn = one(alloc, counter_update(ID_COUNTER, u64::from(id - 2)))?;
    let split = split_updates(alloc, leaf.id, id, leaf.snap)?;
    let both = joined(entries, drawn)?;
    joined(split, both)
}

// The updates of the slots of the source and of the copy.
fn entries_to_copy(
    alloc: Global,
    source: &Bytes,
    copy: &Bytes,
    locked: bool,
    subs: SubList,
    others: SubList,
    leaf: Leaf,
    id: u32,
) -> Result<Updates, AllocError>
    requires { 2 ≤ id }
    ensures { IfOk result (λ updates. (sub : ASub) → sub.root ≡ leaf.root
        → updates ≡ slots_updates source.now copy.now (with_moved source.now id subs)
        (with_sub (copied_to (id - 1) copy.now locked sub)
        (slot_taken source.now copy.now (with_moved source.now id subs) others))) }
{
    let named = match copied_to(alloc, leaf, id - 1, copy, locked) {
        Ok(named) => named,
        Err(e) => {
            drop(subs);
            drop(others);
            return Err(e);
        }
    };
    let sources = match with_moved(alloc, subs, source.as_slice(), id) {
        Ok(sources) => sources,
        Err(e) => {
            drop(others);
            drop(named);
            return Err(e);
        }
    };
    put_copy(alloc, source, copy, sources, others, named)
}

// The updates of the slots of the source and of the copy, where the copy is put among those of its slot.
fn put_copy(
    alloc: Global,
    source: &Bytes,
    copy: &Bytes,
    sources: SubList,
    others: SubList,
    named: Sub,
) -> Result<Updates, AllocError>
    ensures { IfOk result (λ updates. updates ≡ slots_updates source.now copy.now sources
        (with_sub named (slot_taken source.now copy.now sources others))) }
{
    if slot(source.as_slice()) == slot(copy.as_slice()) {
        drop(others);
        return one(alloc, subs_update(copy, with_sub(sources, named)?));
    }
    let first = one(alloc, subs_update(source, sources))?;
    let second = one(alloc, subs_update(copy, with_sub(others, named)?))?;
    joined(first, second)
}
