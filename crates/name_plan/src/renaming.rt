ghost use Rattle.std.specs.Prelude.{◌≡◌, true, All, List, Some, IfErr, IfOk, IfSome, is_some, not};
ghost use Rattle.forest_ops.specs.Names.{is_above, same_names, same_path};
ghost use Rattle.forest_ops.specs.Walking.{same_name};
ghost use Rattle.forest_ops.specs.Steps.{renamed};
ghost use Rattle.path_plan.specs.Given.{IsGiven};
ghost use Rattle.name_plan.specs.Moved.{IfMoved, IsRenameMade, moved_by, moved_to, renamed_at, renamed_in, source_at, source_of, source_renamed};
ghost use Rattle.key_meaning.specs.Checks.{IsSound};
ghost use Rattle.key_meaning.specs.Tidy.{AreKeysDrawn, IsTidy};
ghost use Rattle.key_view.specs.Holds.{IsCause};
ghost use Rattle.key_view.specs.Seen.{GoesOn, IsSeen};
ghost use Rattle.plain_forest.specs.Names.{is_good_path};
ghost use Rattle.vol_types.specs.KeyMaps.{KeyMap};
ghost use Rattle.vol_types.specs.Standing.{IsUpdate};
ghost use Rattle.vol_types.specs.declared.layout.Layout.{Layout};
ghost use Rattle.vol_types.specs.declared.pointers.Place.{Place};

use crate::directories::directory_under;
use crate::name_steps::step_made;
use dirent_keys::{
    NameStep, find, links_are_added_and_taken, move_name, moved_names_are_taken_and_added,
    moves_are_refused_alike, moves_are_steps, sound_names_are_refused_alike,
};
use forest_ops::Cause;
use key_steps::{shown_numbers_are_drawn, steps_end_in_good_trees};
use key_view::{Hold, View};
use path_plan::shared_subvolume;
use plain_forest::Path;
use shown_changes::{moved_names_are_good, subvolumes_begin_good};
use snap_tree::SnapTree;
use std::alloc::Global;
use tree_changes::refusals_that_are_passed;
use vol_types::{Bytes, FileKind, Sub, Updates};

/// What stands at a path: the directory of the path's last name, and the inode to which this leads. A root stands in itself.
#[derive(Clone, Copy)]
pub(crate) struct Source {
    pub directory: u64,
    pub number: u64,
    pub kind: FileKind,
}

/// The updates after which what stands at the first path stands at the second one, or why the forest refuses it. Where the paths are
/// equal, and only there, it is done without updates: `None`. What moves keeps its number and its inode's key; the names under one
/// slot change, or those under two.
///
/// It makes a look for the subvolume, those of `nearest` at an inode and at a slot for each name of both paths, and those of
/// `move_name`. It takes memory for the names of each slot and for an update of each. An `Err` is the view's, or comes where memory
/// ends.
pub fn rename<V: View>(
    alloc: Global,
    view: &mut V,
    from: &Path,
    to: &Path,
) -> Result<Result<Option<Updates>, Cause>, Hold>
    ensures is { IfOk result (λ planned. (keys : KeyMap)
        → IsGiven keys (V.made view.new) (V.told view.new) → planned ≡ renamed_at keys from.now to.now) }
    ensures made { IfOk result (λ planned. (keys : KeyMap) (nodes : List Place) (layout : Layout)
        → IsGiven keys (V.made view.new) (V.told view.new) → IsSound keys nodes layout → IsTidy keys
        → IsRenameMade keys nodes layout (renamed from.now to.now) planned) }
    ensures idle { IfOk result (λ planned. IfOk planned (λ updates.
        is_some updates ≡ not (same_path from.now to.now))) }
    ensures looks { GoesOn (V.made view.old) (V.made view.new) }
    ensures ids { IfSome (V.told view.old) (λ tree. V.told view.new ≡ Some tree) }
    ensures cause { IfErr result (IsCause (V.held view.new)) }
{
    moves_are_refused_alike();
    links_are_added_and_taken();
    subvolumes_begin_good();
    shown_numbers_are_drawn();
    refusals_that_are_passed();
    moves_are_steps();
    moved_names_are_good();
    steps_end_in_good_trees();
    let tree = view.tree()?;
    rename_shared(alloc, view, &tree, from, to)
}

// The updates of a rename, where the ids are those of this tree.
#[tactic(auto, using(path_plan::specs::LookLaws::looks_then))]
fn rename_shared<V: View>(
    alloc: Global,
    view: &mut V,
    tree: &SnapTree,
    from: &Path,
    to: &Path,
) -> Result<Result<Option<Updates>, Cause>, Hold>
    ensures moved { IfOk result (λ planned. (keys : KeyMap) → IsSeen keys (V.made view.new) tree.now
        → planned ≡ renamed_at keys from.now to.now) }
    ensures fits { IfOk result (λ planned. IfMoved planned (λ updates. (keys : KeyMap)
        → IsSeen keys (V.made view.new) tree.now → IsTidy keys → All IsUpdate updates)) }
    ensures idle { IfOk result (λ planned. IfOk planned (λ updates.
        is_some updates ≡ not (same_path from.now to.now))) }
    ensures looks { GoesOn (V.made view.old) (V.made view.new) }
    ensures ids { V.told view.new ≡ V.told view.old }
    ensures cause { IfErr result (IsCause (V.held view.new)) }
{
    let sub = match shared_subvolume(view, from, to)? {
        Ok(sub) => sub,
        Err(cause) => return Ok(Err(cause)),
    };
    rename_in(alloc, view, tree, &sub, from, to)
}

// The updates of a rename in the subvolume of both paths.
#[tactic(auto, using(path_plan::specs::LookLaws::looks_then))]
fn rename_in<V: View>(
    alloc: Global,
    view: &mut V,
    tree: &SnapTree,
    sub: &Sub,
    from: &Path,
    to: &Path,
) -> Result<Result<Option<Updates>, Cause>, Hold>
    ensures moved { IfOk result (λ planned. (keys : KeyMap) → IsSeen keys (V.made view.new) tree.now
        → planned ≡ renamed_in keys from.now to.now sub.now) }
    ensures fits { IfOk result (λ planned. IfMoved planned (λ updates. is_good_path to.now ≡ true
        → (keys : KeyMap) → IsSeen keys (V.made view.new) tree.now → AreKeysDrawn keys
        → All IsUpdate updates)) }
    ensures idle { IfOk result (λ planned. IfOk planned (λ updates.
        is_some updates ≡ not (same_path from.now to.now))) }
    ensures looks { GoesOn (V.made view.old) (V.made view.new) }
    ensures ids { V.told view.new ≡ V.told view.old }
    ensures cause { IfErr result (IsCause (V.held view.new)) }
{
    let source = match source_of(view, tree, sub, from)? {
        Ok(source) => source,
        Err(cause) => return Ok(Err(cause)),
    };
    rename_source(alloc, view, tree, sub, source, from, to)
}

// The updates after which what stands at the first path stands at the second one of a subvolume.
#[tactic(auto, using(path_plan::specs::LookLaws::looks_then))]
fn rename_source<V: View>(
    alloc: Global,
    view: &mut V,
    tree: &SnapTree,
    sub: &Sub,
    source: Source,
    from: &Path,
    to: &Path,
) -> Result<Result<Option<Updates>, Cause>, Hold>
    ensures moved { IfOk result (λ planned. (keys : KeyMap) → IsSeen keys (V.made view.new) tree.now
        → planned ≡ source_renamed keys from.now to.now sub.now source) }
    ensures fits { IfOk result (λ planned. IfMoved planned (λ updates. is_good_path to.now ≡ true
        → (keys : KeyMap) → IsSeen keys (V.made view.new) tree.now → AreKeysDrawn keys
        → All IsUpdate updates)) }
    ensures idle { IfOk result (λ planned. IfOk planned (λ updates.
        is_some updates ≡ not (same_path from.now to.now))) }
    ensures looks { GoesOn (V.made view.old) (V.made view.new) }
    ensures ids { V.told view.new ≡ V.told view.old }
    ensures cause { IfErr result (IsCause (V.held view.new)) }
{
    let directory = match directory_under(view, tree, sub, to.parents())? {
        Ok(directory) => directory,
        Err(cause) => return Ok(Err(cause)),
    };
    if sub.read_only {
        return Ok(Err(Cause::ReadOnly));
    }
    if are_same_paths(from, to) {
        return Ok(Ok(None));
    }
    move_to(alloc, view, tree, sub.id, source, directory, from, to)
}

// What stands at a path of a subvolume, or why nothing does.
#[tactic(auto, using(path_plan::specs::LookLaws::looks_then))]
fn source_of<V: View>(
    view: &mut V,
    tree: &SnapTree,
    sub: &Sub,
    path: &Path,
) -> Result<Result<Source, Cause>, Hold>
    ensures source { IfOk result (λ source. (keys : KeyMap) → IsSeen keys (V.made view.new) tree.now
        → source ≡ source_of keys sub.now path.now) }
    ensures looks { GoesOn (V.made view.old) (V.made view.new) }
    ensures ids { V.told view.new ≡ V.told view.old }
    ensures cause { IfErr result (V.held view.new) }
{
    let Some(name) = path.last() else {
        return Ok(Ok(Source {
            directory: sub.root,
            number: sub.root,
            kind: FileKind::Directory,
        }));
    };
    let directory = match directory_under(view, tree, sub, path.parents())? {
        Ok(directory) => directory,
        Err(cause) => return Ok(Err(cause)),
    };
    let target = find(view, tree, sub.id, directory, name)?;
    Ok(source_at(directory, target))
}

// What a name of a directory leads to, if it leads anywhere.
fn source_at(directory: u64, target: Option<(u64, FileKind)>) -> Result<Source, Cause>
    ensures { result ≡ source_at directory target }
{
    match target {
        None => Err(Cause::NotFound),
        Some((number, kind)) => Ok(Source {
            directory,
            number,
            kind,
        }),
    }
}

// The updates after which what stands at the first path has the last name of the second one, in this directory.
fn move_to<V: View>(
    alloc: Global,
    view: &mut V,
    tree: &SnapTree,
    id: u32,
    source: Source,
    directory: u64,
    from: &Path,
    to: &Path,
) -> Result<Result<Option<Updates>, Cause>, Hold>
    ensures moved { IfOk result (λ planned. (keys : KeyMap) → IsSeen keys (V.made view.new) tree.now
        → planned ≡ moved_to keys id source directory from.now to.now) }
    ensures fits { IfOk result (λ planned. IfMoved planned (λ updates. is_good_path to.now ≡ true
        → (keys : KeyMap) → IsSeen keys (V.made view.new) tree.now → AreKeysDrawn keys
        → All IsUpdate updates)) }
    ensures some { IfOk result (λ planned. IfOk planned (λ updates. is_some updates ≡ true)) }
    ensures looks { GoesOn (V.made view.old) (V.made view.new) }
    ensures ids { V.told view.new ≡ V.told view.old }
    ensures cause { IfErr result (IsCause (V.held view.new)) }
{
    sound_names_are_refused_alike();
    if lies_above(from.names.as_slice(), to.names.as_slice()) {
        return Ok(Err(Cause::Loop));
    }
    let Some(name) = from.last() else {
        return Ok(Err(Cause::Loop));
    };
    let Some(other) = to.last() else {
        return Ok(Err(Cause::Exists));
    };
    let step = move_name(
        alloc,
        view,
        tree,
        id,
        source.directory,
        name,
        directory,
        other,
        source.number,
        source.kind,
    )?;
    Ok(moved_by(step))
}

// The updates of a name that moves, or why it doesn't.
fn moved_by(step: NameStep) -> Result<Option<Updates>, Cause>
    ensures { result ≡ moved_by step }
{
    Ok(Some(step_made(step)?))
}

// Whether two paths are equal.
fn are_same_paths(one: &Path, other: &Path) -> bool
    ensures { result ≡ same_path one.now other.now }
{
    if !is_same_name(&one.sub, &other.sub) {
        return false;
    }
    are_same_names(one.names.as_slice(), other.names.as_slice())
}

// Whether two names are equal.
fn is_same_name(one: &Bytes, other: &Bytes) -> bool
    ensures { result ≡ same_name one.now other.now }
{
    one == other
}

// Whether two lists of names are equal.
fn are_same_names(one: &[Bytes], other: &[Bytes]) -> bool
    ensures { result ≡ same_names one.now other.now }
{
    one == other
}

// Whether the first names lead to something above what the second ones lead to.
fn lies_above(above: &[Bytes], below: &[Bytes]) -> bool
    ensures { result ≡ is_above above.now below.now }
{
    if above.len() >= below.len() {
        return false;
    }
    are_same_names(&below[..above.len()], above)
}
