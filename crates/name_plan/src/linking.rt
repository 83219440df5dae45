ghost use Rattle.std.specs.Prelude.{◌≡◌, All, List, Some, true, IfErr, IfOk, IfSome};
ghost use Rattle.forest_ops.specs.Steps.{linked};
ghost use Rattle.key_meaning.specs.Checks.{IsSound};
ghost use Rattle.key_meaning.specs.Tidy.{AreKeysDrawn, IsTidy};
ghost use Rattle.key_meaning.specs.Visible.{visible};
ghost use Rattle.key_view.specs.Holds.{IsCause};
ghost use Rattle.key_view.specs.Seen.{GoesOn, IsSeen};
ghost use Rattle.name_plan.specs.New.{file_linked, file_named, linked_at, linked_in};
ghost use Rattle.path_plan.specs.Given.{IsGiven};
ghost use Rattle.path_plan.specs.Made.{IfMade, IsStepMade};
ghost use Rattle.plain_forest.specs.Names.{is_good_path};
ghost use Rattle.vol_digest.specs.Digests.{slot_of};
ghost use Rattle.vol_types.specs.KeyMaps.{KeyMap};
ghost use Rattle.vol_types.specs.Ranges.{IsInode, IsKeyValue, IsName};
ghost use Rattle.vol_types.specs.Standing.{IsUpdate};
ghost use Rattle.vol_types.specs.declared.layout.Layout.{Layout};
ghost use Rattle.vol_types.specs.declared.pointers.Place.{Place};
ghost use Rattle.vol_types.specs.declared.positions.Btree.TheVariants.{Dirents};
ghost use Rattle.vol_types.specs.declared.values.FileKind.TheVariants.{File};

use crate::directories::directory_under;
use crate::files::file_shown;
use crate::name_steps::{joined, step_made};
use dirent_keys::{add, links_are_added_and_taken, sound_names_are_refused_alike};
use forest_ops::Cause;
use inode_keys::{set, with_links};
use key_steps::{
    inodes_are_steps, names_are_steps, shown_numbers_are_drawn, steps_end_in_good_trees,
    steps_follow_each_other,
};
use key_view::{Hold, View};
use path_plan::{shared_subvolume, walk};
use plain_forest::Path;
use shown_changes::{good_trees_are_changed, places_stand_in_trees, subvolumes_begin_good};
use snap_tree::SnapTree;
use std::alloc::Global;
use vol_types::{Bytes, FileKind, Inode, Sub, Updates};

// How many names a file may have.
const LINKS_MAX: u32 = 255;

/// The updates after which the file at the first path has a further name at the second one, or why the forest refuses it. It makes a
/// look for the subvolume, those of `walk` along each path, and those of `nearest` at the file's inode, at the directory's and at the
/// name's slot; it takes memory for the names of the slot and for two updates.
pub fn link<V: View>(
    alloc: Global,
    view: &mut V,
    from: &Path,
    to: &Path,
) -> Result<Result<Updates, Cause>, Hold>
    ensures is { IfOk result (λ planned. (keys : KeyMap)
        → IsGiven keys (V.made view.new) (V.told view.new) → planned ≡ linked_at keys from.now to.now) }
    ensures made { IfOk result (λ planned. (keys : KeyMap) (nodes : List Place) (layout : Layout)
        → IsGiven keys (V.made view.new) (V.told view.new) → IsSound keys nodes layout → IsTidy keys
        → IsStepMade keys nodes layout (linked from.now to.now) planned) }
    ensures looks { GoesOn (V.made view.old) (V.made view.new) }
    ensures ids { IfSome (V.told view.old) (λ tree. V.told view.new ≡ Some tree) }
    ensures cause { IfErr result (IsCause (V.held view.new)) }
{
    sound_names_are_refused_alike();
    links_are_added_and_taken();
    subvolumes_begin_good();
    shown_numbers_are_drawn();
    places_stand_in_trees();
    inodes_are_steps();
    names_are_steps();
    steps_follow_each_other();
    good_trees_are_changed();
    steps_end_in_good_trees();
    let tree = view.tree()?;
    link_shared(alloc, view, &tree, from, to)
}

// The updates of a link, where the ids are those of this tree.
#[tactic(auto, using(path_plan::specs::LookLaws::looks_then))]
fn link_shared<V: View>(
    alloc: Global,
    view: &mut V,
    tree: &SnapTree,
    from: &Path,
    to: &Path,
) -> Result<Result<Updates, Cause>, Hold>
    ensures made { IfOk result (λ made. (keys : KeyMap) → IsSeen keys (V.made view.new) tree.now
        → made ≡ linked_at keys from.now to.now) }
    ensures fits { IfOk result (λ made. IfMade made (λ updates. (keys : KeyMap)
        → IsSeen keys (V.made view.new) tree.now → IsTidy keys → All IsUpdate updates)) }
    ensures looks { GoesOn (V.made view.old) (V.made view.new) }
    ensures ids { V.told view.new ≡ V.told view.old }
    ensures cause { IfErr result (IsCause (V.held view.new)) }
{
    let sub = match shared_subvolume(view, from, to)? {
        Ok(sub) => sub,
        Err(cause) => return Ok(Err(cause)),
    };
    link_in(alloc, view, tree, &sub, from, to)
}

// The updates of a link in the subvolume of both paths.
#[tactic(auto, using(path_plan::specs::LookLaws::looks_then))]
fn link_in<V: View>(
    alloc: Global,
    view: &mut V,
    tree: &SnapTree,
    sub: &Sub,
    from: &Path,
    to: &Path,
) -> Result<Result<Updates, Cause>, Hold>
    ensures made { IfOk result (λ made. (keys : KeyMap) → IsSeen keys (V.made view.new) tree.now
        → made ≡ linked_in keys from.now to.now sub.now) }
    ensures fits { IfOk result (λ made. IfMade made (λ updates. is_good_path to.now ≡ true
        → (keys : KeyMap) → IsSeen keys (V.made view.new) tree.now → AreKeysDrawn keys
        → All IsUpdate updates)) }
    ensures looks { GoesOn (V.made view.old) (V.made view.new) }
    ensures ids { V.told view.new ≡ V.told view.old }
    ensures cause { IfErr result (IsCause (V.held view.new)) }
{
    sound_names_are_refused_alike();
    let number = match walk(view, tree, sub, from.names.as_slice())? {
        Ok(number) => number,
        Err(cause) => return Ok(Err(cause)),
    };
    match file_shown(view, tree, sub.id, number)? {
        Some(inode) => link_file(alloc, view, tree, sub, number, inode, to),
        None => Ok(Err(Cause::IsDir)),
    }
}

// The updates after which a file of a subvolume has a further name at a path.
#[tactic(auto, using(path_plan::specs::LookLaws::looks_then))]
fn link_file<V: View>(
    alloc: Global,
    view: &mut V,
    tree: &SnapTree,
    sub: &Sub,
    number: u64,
    inode: Inode,
    to: &Path,
) -> Result<Result<Updates, Cause>, Hold>
    ensures made { IfOk result (λ made. (keys : KeyMap) → IsSeen keys (V.made view.new) tree.now
        → made ≡ file_linked keys to.now sub.now number inode) }
    ensures fits { IfOk result (λ made. IfMade made (λ updates. inode.kind ≡ File → IsInode inode
        → is_good_path to.now ≡ true → (keys : KeyMap) → IsSeen keys (V.made view.new) tree.now
        → AreKeysDrawn keys → All IsUpdate updates)) }
    ensures looks { GoesOn (V.made view.old) (V.made view.new) }
    ensures ids { V.told view.new ≡ V.told view.old }
    ensures cause { IfErr result (IsCause (V.held view.new)) }
{
    sound_names_are_refused_alike();
    let directory = match directory_under(view, tree, sub, to.parents())? {
        Ok(directory) => directory,
        Err(cause) => return Ok(Err(cause)),
    };
    if sub.read_only {
        return Ok(Err(Cause::ReadOnly));
    }
    let Some(name) = to.last() else {
        return Ok(Err(Cause::Exists));
    };
    name_file(alloc, view, tree, sub.id, number, inode, directory, name)
}

// The updates after which a directory has a further name of a file in an id.
#[tactic(auto, using(path_plan::specs::LookLaws::looks_then))]
fn name_file<V: View>(
    alloc: Global,
    view: &mut V,
    tree: &SnapTree,
    id: u32,
    number: u64,
    inode: Inode,
    directory: u64,
    name: &Bytes,
) -> Result<Result<Updates, Cause>, Hold>
    ensures made { IfOk result (λ made. (keys : KeyMap) → IsSeen keys (V.made view.new) tree.now
        → made ≡ file_named keys id number inode directory name.now) }
    ensures fits { IfOk result (λ made. IfMade made (λ updates. inode.kind ≡ File → IsInode inode
        → IsName name.now → (keys : KeyMap) → IsSeen keys (V.made view.new) tree.now
        → IsKeyValue (visible keys Dirents directory (slot_of name.now) id)
        → All IsUpdate updates)) }
    ensures looks { GoesOn (V.made view.old) (V.made view.new) }
    ensures ids { V.told view.new ≡ V.told view.old }
    ensures cause { IfErr result (IsCause (V.held view.new)) }
{
    let step = add(
        alloc,
        view,
        tree,
        id,
        directory,
        name,
        number,
        FileKind::File,
    )?;
    let named = match step_made(step) {
        Ok(named) => named,
        Err(cause) => return Ok(Err(cause)),
    };
    if inode.links >= LINKS_MAX {
        drop(named);
        return Ok(Err(Cause::LinksFull));
    }
    let links = inode.links + 1;
    let counted = set(
        alloc,
        view,
        tree,
        id,
        number,
        Some(with_links(inode, links)),
    )?;
    let all = joined(counted, named)?;
    Ok(Ok(all))
}
