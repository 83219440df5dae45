ghost use Rattle.std.specs.Prelude.{◌≡◌, List, Some, IfErr, IfOk, IfSome};
ghost use Rattle.forest_ops.specs.Steps.{without_subvolume};
ghost use Rattle.id_steps.specs.SlotLists.{without_sub};
ghost use Rattle.id_steps.specs.Steps.{removal_updates};
ghost use Rattle.key_meaning.specs.Checks.{IsSound};
ghost use Rattle.key_meaning.specs.Tidy.{IsTidy};
ghost use Rattle.key_view.specs.Holds.{IsCause};
ghost use Rattle.key_view.specs.Seen.{GoesOn, IsSeen};
ghost use Rattle.path_plan.specs.Given.{IsGiven};
ghost use Rattle.path_plan.specs.Made.{IsStepMade};
ghost use Rattle.subvol_ops.specs.Plans.{subvolume_removed};
ghost use Rattle.vol_types.specs.KeyMaps.{KeyMap};
ghost use Rattle.vol_types.specs.declared.layout.Layout.{Layout};
ghost use Rattle.vol_types.specs.declared.pointers.Place.{Place};
ghost use Rattle.vol_types.specs.declared.values.Sub.{Sub as ASub};

use crate::names::is_subvolume_name_good;
use crate::slots::{Leaf, leaf_among, subs_at, without_sub};
use crate::updates::{dead, snap_update, subs_update};
use forest_ops::Cause;
use id_steps::{slots_take_subvolumes, subvolumes_are_removed};
use key_view::{Hold, View};
use snap_tree::SnapTree;
use std::alloc::{AllocError, Global};
use vol_types::{Bytes, SubList, Updates};

/// The updates after which there is no subvolume of a name, or why the forest refuses it: its leaf dies, and its slot has the others.
/// The keys of its tree stay, which no other subvolume sees. It makes one look, at the slot, whatever the tree holds, and takes memory
/// for the subvolumes of the slot and for two updates.
pub fn remove_subvolume<V: View>(
    alloc: Global,
    view: &mut V,
    name: &Bytes,
) -> Result<Result<Updates, Cause>, Hold>
    ensures is { IfOk result (λ planned. (keys : KeyMap)
        → IsGiven keys (V.made view.new) (V.told view.new)
        → planned ≡ subvolume_removed keys name.now) }
    ensures made { IfOk result (λ planned. (keys : KeyMap) (nodes : List Place) (layout : Layout)
        → IsGiven keys (V.made view.new) (V.told view.new) → IsSound keys nodes layout → IsTidy keys
        → IsStepMade keys nodes layout (without_subvolume name.now) planned) }
    ensures looks { GoesOn (V.made view.old) (V.made view.new) }
    ensures ids { IfSome (V.told view.old) (λ tree. V.told view.new ≡ Some tree) }
    ensures cause { IfErr result (IsCause (V.held view.new)) }
{
    slots_take_subvolumes();
    subvolumes_are_removed();
    let tree = view.tree()?;
    remove_in(alloc, view, &tree, name)
}

// The updates after which there is no subvolume of a name, where the ids are those of this tree.
fn remove_in<V: View>(
    alloc: Global,
    view: &mut V,
    tree: &SnapTree,
    name: &Bytes,
) -> Result<Result<Updates, Cause>, Hold>
    ensures is { IfOk result (λ planned. (keys : KeyMap) → IsSeen keys (V.made view.new) tree.now
        → planned ≡ subvolume_removed keys name.now) }
    ensures looks { GoesOn (V.made view.old) (V.made view.new) }
    ensures ids { V.told view.new ≡ V.told view.old }
    ensures cause { IfErr result (IsCause (V.held view.new)) }
{
    if !is_subvolume_name_good(name.as_slice()) {
        return Ok(Err(Cause::BadPath));
    }
    let subs = subs_at(alloc, view, name)?;
    let Some(leaf) = leaf_among(tree, subs.as_slice(), name.as_slice()) else {
        drop(subs);
        return Ok(Err(Cause::NoSubvolume));
    };
    Ok(Ok(removal_updates(alloc, name, leaf, subs)?))
}

// The updates by which a subvolume goes from a slot that has these.
fn removal_updates(
    alloc: Global,
    name: &Bytes,
    leaf: Leaf,
    subs: SubList,
) -> Result<Updates, AllocError>
    ensures { IfOk result (λ updates. (sub : ASub) → sub.id ≡ leaf.id
        → updates ≡ removal_updates name.now sub leaf.snap (without_sub name.now subs)) }
{
    let left = without_sub(subs, name.as_slice());
    let entry = subs_update(name, left);
    let mut updates = Updates::new(alloc);
    updates.push(snap_update(leaf.id, dead(leaf.snap)))?;
    updates.push(entry)?;
    Ok(updates)
}
