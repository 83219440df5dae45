ghost use Rattle.std.specs.Prelude.{◌≡◌, ◌<◌, All, List, Some, IfErr, IfOk, IfSome};
ghost use Rattle.forest_ops.specs.Steps.{made};
ghost use Rattle.key_meaning.specs.Checks.{IsSound};
ghost use Rattle.key_meaning.specs.Tidy.{IsTidy};
ghost use Rattle.key_meaning.specs.Visible.{visible};
ghost use Rattle.key_view.specs.Holds.{IsCause};
ghost use Rattle.key_view.specs.Seen.{GoesOn, IsSeen};
ghost use Rattle.name_plan.specs.New.{inode_made, inode_numbered, made_at, spent_out, with_new};
ghost use Rattle.path_plan.specs.Given.{IsGiven};
ghost use Rattle.path_plan.specs.Made.{IfMade, IsStepMade};
ghost use Rattle.vol_digest.specs.Digests.{slot_of};
ghost use Rattle.vol_types.specs.KeyMaps.{KeyMap};
ghost use Rattle.vol_types.specs.Ranges.{IsKeyValue, IsName};
ghost use Rattle.vol_types.specs.Standing.{IsUpdate};
ghost use Rattle.vol_types.specs.declared.layout.Layout.{Layout};
ghost use Rattle.vol_types.specs.declared.pointers.Place.{Place};
ghost use Rattle.vol_types.specs.declared.positions.Btree.TheVariants.{Dirents};

use crate::name_steps::{joined, step_made};
use dirent_keys::{NameStep, add, links_are_added_and_taken, sound_names_are_refused_alike};
use forest_ops::Cause;
use inode_keys::{Draw, draws_are_counted, draws_are_new, new_inode, next_number, set};
use key_steps::{
    counters_are_steps, inodes_are_steps, names_are_steps, steps_end_in_good_trees,
    steps_follow_each_other,
};
use key_view::{Hold, View};
use path_plan::directory_along;
use plain_forest::Path;
use shown_changes::{good_trees_are_changed, places_stand_in_trees, subvolumes_begin_good};
use snap_tree::SnapTree;
use std::alloc::Global;
use vol_types::{Bytes, FileKind, Updates};

/// The updates after which there is an empty file or an empty directory at a path, or why the forest refuses it. It makes the looks of
/// `directory_along` at the directory in which the path ends, one at the client's counter, and those of `nearest` at the name's slot;
/// it takes memory for the names of the slot and for three updates.
pub fn make<V: View>(
    alloc: Global,
    view: &mut V,
    client: u8,
    kind: FileKind,
    path: &Path,
) -> Result<Result<Updates, Cause>, Hold>
    requires { client < 16 }
    ensures is { IfOk result (λ planned. (keys : KeyMap)
        → IsGiven keys (V.made view.new) (V.told view.new) → planned ≡ made_at kind keys client path.now) }
    ensures made { IfOk result (λ planned. (keys : KeyMap) (nodes : List Place) (layout : Layout)
        → IsGiven keys (V.made view.new) (V.told view.new) → IsSound keys nodes layout → IsTidy keys
        → IsStepMade keys nodes layout (made (with_new kind) client path.now) planned) }
    ensures looks { GoesOn (V.made view.old) (V.made view.new) }
    ensures ids { IfSome (V.told view.old) (λ tree. V.told view.new ≡ Some tree) }
    ensures cause { IfErr result (IsCause (V.held view.new)) }
{
    sound_names_are_refused_alike();
    links_are_added_and_taken();
    draws_are_new();
    draws_are_counted();
    subvolumes_begin_good();
    places_stand_in_trees();
    counters_are_steps();
    inodes_are_steps();
    names_are_steps();
    steps_follow_each_other();
    good_trees_are_changed();
    steps_end_in_good_trees();
    let tree = view.tree()?;
    make_in(alloc, view, &tree, client, kind, path)
}

// The updates after which there is an empty inode of a kind at a path, where the ids are those of this tree.
#[tactic(auto, using(path_plan::specs::LookLaws::looks_then))]
fn make_in<V: View>(
    alloc: Global,
    view: &mut V,
    tree: &SnapTree,
    client: u8,
    kind: FileKind,
    path: &Path,
) -> Result<Result<Updates, Cause>, Hold>
    requires { client < 16 }
    ensures made { IfOk result (λ made. (keys : KeyMap) → IsSeen keys (V.made view.new) tree.now
        → made ≡ made_at kind keys client path.now) }
    ensures fits { IfOk result (λ made. IfMade made (λ updates. (keys : KeyMap)
        → IsSeen keys (V.made view.new) tree.now → IsTidy keys → All IsUpdate updates)) }
    ensures looks { GoesOn (V.made view.old) (V.made view.new) }
    ensures ids { V.told view.new ≡ V.told view.old }
    ensures cause { IfErr result (IsCause (V.held view.new)) }
{
    sound_names_are_refused_alike();
    let spot = match directory_along(view, tree, path, path.parents())? {
        Ok(spot) => spot,
        Err(cause) => return Ok(Err(cause)),
    };
    if spot.sub.read_only {
        return Ok(Err(Cause::ReadOnly));
    }
    let Some(name) = path.last() else {
        return Ok(Err(Cause::Exists));
    };
    new_under(
        alloc,
        view,
        tree,
        client,
        kind,
        spot.sub.id,
        spot.number,
        name,
    )
}

// The updates after which a directory has a new inode under a name in an id.
#[tactic(auto, using(path_plan::specs::LookLaws::looks_then))]
fn new_under<V: View>(
    alloc: Global,
    view: &mut V,
    tree: &SnapTree,
    client: u8,
    kind: FileKind,
    id: u32,
    directory: u64,
    name: &Bytes,
) -> Result<Result<Updates, Cause>, Hold>
    requires { client < 16 }
    ensures made { IfOk result (λ made. (keys : KeyMap) → IsSeen keys (V.made view.new) tree.now
        → made ≡ inode_made kind keys client id directory name.now) }
    ensures fits { IfOk result (λ made. IfMade made (λ updates. IsName name.now
        → (keys : KeyMap) → IsSeen keys (V.made view.new) tree.now
        → IsKeyValue (visible keys Dirents directory (slot_of name.now) id)
        → All IsUpdate updates)) }
    ensures looks { GoesOn (V.made view.old) (V.made view.new) }
    ensures ids { V.told view.new ≡ V.told view.old }
    ensures cause { IfErr result (IsCause (V.held view.new)) }
{
    match next_number(alloc, view, client)? {
        Draw::Drawn { number, updates } => numbered(
            alloc, view, tree, kind, id, directory, name, number, updates,
        ),
        Draw::Spent => {
            let step = add(alloc, view, tree, id, directory, name, 0, kind)?;
            Ok(spent(step))
        }
    }
}

// The updates after which a directory has a new inode of this number, which was drawn by some updates.
#[tactic(auto, using(path_plan::specs::LookLaws::looks_then))]
fn numbered<V: View>(
    alloc: Global,
    view: &mut V,
    tree: &SnapTree,
    kind: FileKind,
    id: u32,
    directory: u64,
    name: &Bytes,
    number: u64,
    counted: Updates,
) -> Result<Result<Updates, Cause>, Hold>
    ensures made { IfOk result (λ made. (keys : KeyMap) → IsSeen keys (V.made view.new) tree.now
        → made ≡ inode_numbered kind keys id directory name.now number counted) }
    ensures fits { All IsUpdate counted → IfOk result (λ made. IfMade made (λ updates.
        IsName name.now → (keys : KeyMap) → IsSeen keys (V.made view.new) tree.now
        → IsKeyValue (visible keys Dirents directory (slot_of name.now) id)
        → All IsUpdate updates)) }
    ensures looks { GoesOn (V.made view.old) (V.made view.new) }
    ensures ids { V.told view.new ≡ V.told view.old }
    ensures cause { IfErr result (IsCause (V.held view.new)) }
{
    let step = add(alloc, view, tree, id, directory, name, number, kind)?;
    match step_made(step) {
        Ok(named) => {
            let inode = set(alloc, view, tree, id, number, Some(new_inode(kind)))?;
            let both = joined(inode, named)?;
            let all = joined(counted, both)?;
            Ok(Ok(all))
        }
        Err(cause) => Ok(Err(cause)),
    }
}

// Why a name isn't added for which there is no number.
fn spent(step: NameStep) -> Result<Updates, Cause>
    ensures { result ≡ spent_out step }
{
    let updates = step_made(step)?;
    drop(updates);
    Err(Cause::IdsSpent)
}
