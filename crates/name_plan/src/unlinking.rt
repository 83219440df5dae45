ghost use Rattle.std.specs.Prelude.{◌≡◌, ℕ, All, List, Err, Some, IfErr, IfOk, IfSome, option_map};
ghost use Rattle.forest_ops.specs.Steps.{unlinked_at as unlinked};
ghost use Rattle.key_meaning.specs.Checks.{IsSound};
ghost use Rattle.key_meaning.specs.Tidy.{IsTidy};
ghost use Rattle.key_meaning.specs.Visible.{visible};
ghost use Rattle.key_view.specs.Holds.{IsCause};
ghost use Rattle.key_view.specs.Seen.{GoesOn, IsSeen};
ghost use Rattle.name_plan.specs.Gone.{name_unlinked, root_unlinked, unlinked_at, updates_to_drop, updates_to_unlink};
ghost use Rattle.path_plan.specs.Given.{IsGiven};
ghost use Rattle.path_plan.specs.Made.{IfMade, IsStepMade};
ghost use Rattle.vol_digest.specs.Digests.{slot_of};
ghost use Rattle.vol_types.specs.KeyMaps.{GivesLooks, KeyMap};
ghost use Rattle.vol_types.specs.Ranges.{IsInode, IsKeyValue};
ghost use Rattle.vol_types.specs.Standing.{IsUpdate};
ghost use Rattle.vol_types.specs.declared.layout.Layout.{Layout};
ghost use Rattle.vol_types.specs.declared.pointers.Place.{Place};
ghost use Rattle.vol_types.specs.declared.positions.Btree.TheVariants.{Dirents, Inodes};

use crate::files::file_shown;
use crate::name_steps::joined;
use dirent_keys::{find, links_are_added_and_taken, remove, sound_names_are_refused_alike};
use forest_ops::Cause;
use inode_keys::{put_gone, set, with_links};
use key_steps::{
    files_go_in_steps, inodes_are_steps, names_are_steps, shown_numbers_are_drawn,
    steps_end_in_good_trees, steps_follow_each_other, updates_are_planned_once,
};
use key_view::{Hold, View};
use path_plan::{Spot, directory_along, subvolume_of};
use plain_forest::Path;
use shown_changes::{good_trees_are_changed, places_stand_in_trees, subvolumes_begin_good};
use snap_tree::SnapTree;
use std::alloc::Global;
use vol_types::{Bytes, FileKind, Inode, Updates};

/// The updates after which a file has the name at a path no more, or why the forest refuses it. With its last name the file goes: its
/// inode, while its number is noted as that of a file that is gone. It makes the looks of `directory_along` at the directory in which
/// the path ends, those of `nearest` at the name's slot and at the inode, once to find them and once for their updates, and where a
/// key may go one more each; it takes memory for the names of the slot and for three updates.
pub fn unlink<V: View>(
    alloc: Global,
    view: &mut V,
    path: &Path,
) -> Result<Result<Updates, Cause>, Hold>
    ensures is { IfOk result (λ planned. (keys : KeyMap)
        → IsGiven keys (V.made view.new) (V.told view.new) → planned ≡ unlinked_at keys path.now) }
    ensures made { IfOk result (λ planned. (keys : KeyMap) (nodes : List Place) (layout : Layout)
        → IsGiven keys (V.made view.new) (V.told view.new) → IsSound keys nodes layout → IsTidy keys
        → IsStepMade keys nodes layout (unlinked path.now) planned) }
    ensures looks { GoesOn (V.made view.old) (V.made view.new) }
    ensures ids { IfSome (V.told view.old) (λ tree. V.told view.new ≡ Some tree) }
    ensures cause { IfErr result (IsCause (V.held view.new)) }
{
    sound_names_are_refused_alike();
    links_are_added_and_taken();
    subvolumes_begin_good();
    places_stand_in_trees();
    shown_numbers_are_drawn();
    names_are_steps();
    inodes_are_steps();
    files_go_in_steps();
    steps_follow_each_other();
    updates_are_planned_once();
    good_trees_are_changed();
    steps_end_in_good_trees();
    let tree = view.tree()?;
    unlink_in(alloc, view, &tree, path)
}

// The updates after which a file has the name at a path no more, where the ids are those of this tree.
#[tactic(auto, using(path_plan::specs::LookLaws::looks_then))]
fn unlink_in<V: View>(
    alloc: Global,
    view: &mut V,
    tree: &SnapTree,
    path: &Path,
) -> Result<Result<Updates, Cause>, Hold>
    ensures made { IfOk result (λ made. (keys : KeyMap) → IsSeen keys (V.made view.new) tree.now
        → made ≡ unlinked_at keys path.now) }
    ensures fits { IfOk result (λ made. IfMade made (λ updates. (keys : KeyMap)
        → IsSeen keys (V.made view.new) tree.now → IsTidy keys → All IsUpdate updates)) }
    ensures looks { GoesOn (V.made view.old) (V.made view.new) }
    ensures ids { V.told view.new ≡ V.told view.old }
    ensures cause { IfErr result (IsCause (V.held view.new)) }
{
    sound_names_are_refused_alike();
    let Some(name) = path.last() else {
        let cause = root_unlinked(view, path)?;
        return Ok(Err(cause));
    };
    let spot = match directory_along(view, tree, path, path.parents())? {
        Ok(spot) => spot,
        Err(cause) => return Ok(Err(cause)),
    };
    let planned = unlink_name(alloc, view, tree, &spot, name);
    drop(spot);
    planned
}

// Why a root isn't unlinked.
fn root_unlinked<V: View>(view: &mut V, path: &Path) -> Result<Cause, Hold>
    ensures refused { IfOk result (λ cause. (keys : KeyMap) → GivesLooks keys (V.made view.new)
        → Err cause ≡ root_unlinked keys path.now) }
    ensures looks { GoesOn (V.made view.old) (V.made view.new) }
    ensures ids { V.told view.new ≡ V.told view.old }
    ensures cause { IfErr result (V.held view.new) }
{
    match subvolume_of(view, path)? {
        Ok(sub) => {
            drop(sub);
            Ok(Cause::IsDir)
        }
        Err(cause) => Ok(cause),
    }
}

// The updates after which a directory has one name of a file less.
#[tactic(auto, using(path_plan::specs::LookLaws::looks_then))]
fn unlink_name<V: View>(
    alloc: Global,
    view: &mut V,
    tree: &SnapTree,
    spot: &Spot,
    name: &Bytes,
) -> Result<Result<Updates, Cause>, Hold>
    ensures made { IfOk result (λ made. (keys : KeyMap) → IsSeen keys (V.made view.new) tree.now
        → made ≡ name_unlinked keys name.now spot.now) }
    ensures fits { IfOk result (λ made. IfMade made (λ updates. (keys : KeyMap)
        → IsSeen keys (V.made view.new) tree.now
        → IsKeyValue (visible keys Dirents spot.now.number (slot_of name.now) spot.now.sub.id)
        → ((number : ℕ) → IsKeyValue (visible keys Inodes 0 number spot.now.sub.id))
        → All IsUpdate updates)) }
    ensures looks { GoesOn (V.made view.old) (V.made view.new) }
    ensures ids { V.told view.new ≡ V.told view.old }
    ensures cause { IfErr result (IsCause (V.held view.new)) }
{
    let id = spot.sub.id;
    let Some(number) = number_of(find(view, tree, id, spot.number, name)?) else {
        return Ok(Err(Cause::NotFound));
    };
    let Some(inode) = file_shown(view, tree, id, number)? else {
        return Ok(Err(Cause::IsDir));
    };
    if spot.sub.read_only {
        return Ok(Err(Cause::ReadOnly));
    }
    let Some(named) = remove(alloc, view, tree, id, spot.number, name)? else {
        return Ok(Err(Cause::NotFound));
    };
    let unlinked = one_link_less(alloc, view, tree, id, number, inode)?;
    Ok(Ok(joined(named, unlinked)?))
}

// The number to which a name leads.
pub(crate) fn number_of(target: Option<(u64, FileKind)>) -> Option<u64>
    ensures { result ≡ option_map (λ t. t.0) target }
{
    match target {
        None => None,
        Some((number, _)) => Some(number),
    }
}

// The updates after which a file has one link less; it goes with its last one.
#[tactic(auto, using(path_plan::specs::LookLaws::looks_then))]
fn one_link_less<V: View>(
    alloc: Global,
    view: &mut V,
    tree: &SnapTree,
    id: u32,
    number: u64,
    inode: Inode,
) -> Result<Updates, Hold>
    ensures updates { IfOk result (λ updates. (keys : KeyMap) → IsSeen keys (V.made view.new) tree.now
        → updates ≡ updates_to_unlink keys id number inode) }
    ensures fits { IsInode inode → IfOk result (All IsUpdate) }
    ensures looks { GoesOn (V.made view.old) (V.made view.new) }
    ensures ids { V.told view.new ≡ V.told view.old }
    ensures cause { IfErr result (IsCause (V.held view.new)) }
{
    if inode.links == 1 {
        return file_gone(alloc, view, tree, id, number);
    }
    let links = inode.links.saturating_sub(1);
    set(
        alloc,
        view,
        tree,
        id,
        number,
        Some(with_links(inode, links)),
    )
}

// The updates after which a file is gone, and noted so.
fn file_gone<V: View>(
    alloc: Global,
    view: &mut V,
    tree: &SnapTree,
    id: u32,
    number: u64,
) -> Result<Updates, Hold>
    ensures updates { IfOk result (λ updates. (keys : KeyMap) → IsSeen keys (V.made view.new) tree.now
        → updates ≡ updates_to_drop keys id number) }
    ensures fits { IfOk result (All IsUpdate) }
    ensures looks { GoesOn (V.made view.old) (V.made view.new) }
    ensures ids { V.told view.new ≡ V.told view.old }
    ensures cause { IfErr result (IsCause (V.held view.new)) }
{
    let gone = set(alloc, view, tree, id, number, None)?;
    let noted = put_gone(alloc, id, number)?;
    Ok(joined(gone, noted)?)
}
