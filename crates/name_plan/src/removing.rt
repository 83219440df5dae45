ghost use Rattle.std.specs.Prelude.{◌≡◌, ℕ, All, List, Err, Some, IfErr, IfOk, IfSome, option_map};
ghost use Rattle.forest_ops.specs.Steps.{removed};
ghost use Rattle.key_meaning.specs.Checks.{IsSound};
ghost use Rattle.key_meaning.specs.Forest.{is_directory};
ghost use Rattle.key_meaning.specs.Tidy.{IsTidy};
ghost use Rattle.key_meaning.specs.Visible.{visible};
ghost use Rattle.key_view.specs.Holds.{IsCause};
ghost use Rattle.key_view.specs.Seen.{GoesOn, IsSeen};
ghost use Rattle.name_plan.specs.Gone.{has_names, name_removed, removed_at, root_removed};
ghost use Rattle.path_plan.specs.Given.{IsGiven};
ghost use Rattle.path_plan.specs.Made.{IfMade, IsStepMade};
ghost use Rattle.vol_digest.specs.Digests.{slot_of};
ghost use Rattle.vol_types.specs.KeyMaps.{GivesLooks, KeyMap};
ghost use Rattle.vol_types.specs.Ranges.{IsKeyValue};
ghost use Rattle.vol_types.specs.Standing.{IsUpdate};
ghost use Rattle.vol_types.specs.declared.layout.Layout.{Layout};
ghost use Rattle.vol_types.specs.declared.pointers.Place.{Place};
ghost use Rattle.vol_types.specs.declared.positions.Btree.TheVariants.{Dirents};

use crate::name_steps::joined;
use crate::unlinking::number_of;
use dirent_keys::{
    bare_directories_have_no_names, find, is_bare, links_are_added_and_taken, remove,
    sound_names_are_refused_alike,
};
use forest_ops::Cause;
use inode_keys::set;
use key_steps::{
    inodes_are_steps, names_are_steps, shown_numbers_are_drawn, steps_end_in_good_trees,
    steps_follow_each_other, updates_are_planned_once,
};
use key_view::{Hold, View};
use path_plan::{Spot, directory_along, inode_of, subvolume_of};
use plain_forest::Path;
use shown_changes::{good_trees_are_changed, places_stand_in_trees, subvolumes_begin_good};
use snap_tree::SnapTree;
use std::alloc::Global;
use vol_types::{Bytes, FileKind, Inode, Updates};

/// The updates after which the empty directory at a path is gone, or why the forest refuses it. It makes the looks of `directory_along`
/// at the directory in which the path ends, those of `is_bare` at the one that goes, which end at its first name, and those of
/// `nearest` at the name's slot and at the inode, once to find them and once for their updates, and where a key may go one more each;
/// it takes memory for the names of the slot and for two updates.
pub fn remove_directory<V: View>(
    alloc: Global,
    view: &mut V,
    path: &Path,
) -> Result<Result<Updates, Cause>, Hold>
    ensures is { IfOk result (λ planned. (keys : KeyMap)
        → IsGiven keys (V.made view.new) (V.told view.new) → planned ≡ removed_at keys path.now) }
    ensures made { IfOk result (λ planned. (keys : KeyMap) (nodes : List Place) (layout : Layout)
        → IsGiven keys (V.made view.new) (V.told view.new) → IsSound keys nodes layout → IsTidy keys
        → IsStepMade keys nodes layout (removed path.now) planned) }
    ensures looks { GoesOn (V.made view.old) (V.made view.new) }
    ensures ids { IfSome (V.told view.old) (λ tree. V.told view.new ≡ Some tree) }
    ensures cause { IfErr result (IsCause (V.held view.new)) }
{
    sound_names_are_refused_alike();
    bare_directories_have_no_names();
    links_are_added_and_taken();
    subvolumes_begin_good();
    places_stand_in_trees();
    shown_numbers_are_drawn();
    names_are_steps();
    inodes_are_steps();
    steps_follow_each_other();
    updates_are_planned_once();
    good_trees_are_changed();
    steps_end_in_good_trees();
    let tree = view.tree()?;
    remove_in(alloc, view, &tree, path)
}

// The updates after which the empty directory at a path is gone, where the ids are those of this tree.
#[tactic(auto, using(path_plan::specs::LookLaws::looks_then))]
fn remove_in<V: View>(
    alloc: Global,
    view: &mut V,
    tree: &SnapTree,
    path: &Path,
) -> Result<Result<Updates, Cause>, Hold>
    ensures made { IfOk result (λ made. (keys : KeyMap) → IsSeen keys (V.made view.new) tree.now
        → made ≡ removed_at keys path.now) }
    ensures fits { IfOk result (λ made. IfMade made (λ updates. (keys : KeyMap)
        → IsSeen keys (V.made view.new) tree.now → IsTidy keys → All IsUpdate updates)) }
    ensures looks { GoesOn (V.made view.old) (V.made view.new) }
    ensures ids { V.told view.new ≡ V.told view.old }
    ensures cause { IfErr result (IsCause (V.held view.new)) }
{
    sound_names_are_refused_alike();
    let Some(name) = path.last() else {
        let cause = root_removed(view, path)?;
        return Ok(Err(cause));
    };
    let spot = match directory_along(view, tree, path, path.parents())? {
        Ok(spot) => spot,
        Err(cause) => return Ok(Err(cause)),
    };
    let planned = remove_name(alloc, view, tree, &spot, name);
    drop(spot);
    planned
}

// Why a root isn't removed.
fn root_removed<V: View>(view: &mut V, path: &Path) -> Result<Cause, Hold>
    ensures refused { IfOk result (λ cause. (keys : KeyMap) → GivesLooks keys (V.made view.new)
        → Err cause ≡ root_removed keys path.now) }
    ensures looks { GoesOn (V.made view.old) (V.made view.new) }
    ensures ids { V.told view.new ≡ V.told view.old }
    ensures cause { IfErr result (V.held view.new) }
{
    match subvolume_of(view, path)? {
        Ok(sub) => {
            let locked = sub.read_only;
            drop(sub);
            if locked {
                return Ok(Cause::ReadOnly);
            }
            Ok(Cause::Loop)
        }
        Err(cause) => Ok(cause),
    }
}

// The updates after which a directory lacks an empty directory and its name.
#[tactic(auto, using(path_plan::specs::LookLaws::looks_then))]
fn remove_name<V: View>(
    alloc: Global,
    view: &mut V,
    tree: &SnapTree,
    spot: &Spot,
    name: &Bytes,
) -> Result<Result<Updates, Cause>, Hold>
    ensures made { IfOk result (λ made. (keys : KeyMap) → IsSeen keys (V.made view.new) tree.now
        → made ≡ name_removed keys name.now spot.now) }
    ensures fits { IfOk result (λ made. IfMade made (λ updates. (keys : KeyMap)
        → IsSeen keys (V.made view.new) tree.now
        → IsKeyValue (visible keys Dirents spot.now.number (slot_of name.now) spot.now.sub.id)
        → All IsUpdate updates)) }
    ensures looks { GoesOn (V.made view.old) (V.made view.new) }
    ensures ids { V.told view.new ≡ V.told view.old }
    ensures cause { IfErr result (IsCause (V.held view.new)) }
{
    let id = spot.sub.id;
    let Some(number) = number_of(find(view, tree, id, spot.number, name)?) else {
        return Ok(Err(Cause::NotFound));
    };
    if !is_of_directory(inode_of(view, tree, id, number)?) {
        return Ok(Err(Cause::NotDir));
    }
    if spot.sub.read_only {
        return Ok(Err(Cause::ReadOnly));
    }
    if has_names(view, tree, id, number)? {
        return Ok(Err(Cause::NotEmpty));
    }
    let Some(named) = remove(alloc, view, tree, id, spot.number, name)? else {
        return Ok(Err(Cause::NotFound));
    };
    let gone = set(alloc, view, tree, id, number, None)?;
    Ok(Ok(joined(named, gone)?))
}

// Whether an inode is that of a directory.
fn is_of_directory(inode: Option<Inode>) -> bool
    ensures { result ≡ is_directory (option_map (λ inode. inode.kind) inode) }
{
    match inode {
        None => false,
        Some(inode) => matches!(inode.kind, FileKind::Directory),
    }
}

// Whether a name of a directory shows. It ends at the first slot under which one does.
fn has_names<V: View>(view: &mut V, tree: &SnapTree, id: u32, directory: u64) -> Result<bool, Hold>
    ensures has { IfOk result (λ has. (keys : KeyMap) → IsSeen keys (V.made view.new) tree.now
        → has ≡ has_names keys id directory) }
    ensures looks { GoesOn (V.made view.old) (V.made view.new) }
    ensures ids { V.told view.new ≡ V.told view.old }
    ensures cause { IfErr result (IsCause (V.held view.new)) }
{
    let bare = is_bare(view, tree, id, directory)?;
    Ok(!bare)
}
