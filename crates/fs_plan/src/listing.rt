ghost use Rattle.std.specs.Prelude.{◌≡◌, IfErr, IfOk, IfSome, None, Some, false, map};
ghost use Rattle.forest_ops.specs.Acknowledged.{synced_count};
ghost use Rattle.forest_ops.specs.Steps.{flagged, listed, reply_or};
ghost use Rattle.fs_plan.specs.Listing.{flagged_name};
ghost use Rattle.fs_plan.specs.Plans.{is_failure};
ghost use Rattle.path_plan.specs.Given.{IsGiven};
ghost use Rattle.key_meaning.specs.Checks.{AreNamesJoined, DoLeavesMatch, IsLiveLeaf};
ghost use Rattle.key_meaning.specs.Forest.{Read, forest_in, names_in, tree_of};
ghost use Rattle.key_view.specs.Holds.{IsCause};
ghost use Rattle.key_view.specs.Seen.{GoesOn, IsSeen};
ghost use Rattle.vol_types.specs.KeyMaps.{KeyMap};
ghost use Rattle.vol_types.specs.Maps.{IsMap};
ghost use Rattle.vol_types.specs.Ranges.{name_cmp};
ghost use Rattle.vol_types.specs.declared.values.Sub.{Sub as ASub};

use crate::slots::flags_in;
use forest_ops::Reply;
use key_meaning::sound_ids_are_apart;
use key_view::{Hold, View};
use path_plan::directory_along;
use plain_forest::Path;
use snap_tree::SnapTree;
use std::alloc::{AllocError, Global};
use std::collections::BTreeMap;
use vol_types::{Bytes, FlagList, FlaggedName};

/// What a listing of a path answers.
pub(crate) fn list<V: View>(alloc: Global, view: &mut V, path: &Path) -> Result<Reply, Hold>
    ensures reply { IfOk result (λ reply. (keys : KeyMap) (read : Read)
        → IsGiven keys (V.made view.new) (V.told view.new) → DoLeavesMatch keys
        → AreNamesJoined keys → reply ≡ reply_or (listed path.now (forest_in keys read))) }
    ensures unfailed { IfOk result (λ reply. is_failure reply ≡ false) }
    ensures unsynced { IfOk result (λ reply. synced_count reply ≡ None) }
    ensures looks { GoesOn (V.made view.old) (V.made view.new) }
    ensures ids { IfSome (V.told view.old) (λ tree. V.told view.new ≡ Some tree) }
    ensures cause { IfErr result (IsCause (V.held view.new)) }
{
    let tree = view.tree()?;
    list_in(alloc, view, &tree, path)
}

// What a listing of a path answers, where the ids are those of this tree.
fn list_in<V: View>(
    alloc: Global,
    view: &mut V,
    tree: &SnapTree,
    path: &Path,
) -> Result<Reply, Hold>
    ensures reply { IfOk result (λ reply. (keys : KeyMap) (read : Read)
        → IsSeen keys (V.made view.new) tree.now → DoLeavesMatch keys → AreNamesJoined keys
        → reply ≡ reply_or (listed path.now (forest_in keys read))) }
    ensures unfailed { IfOk result (λ reply. is_failure reply ≡ false) }
    ensures unsynced { IfOk result (λ reply. synced_count reply ≡ None) }
    ensures looks { GoesOn (V.made view.old) (V.made view.new) }
    ensures ids { V.told view.new ≡ V.told view.old }
    ensures cause { IfErr result (IsCause (V.held view.new)) }
{
    sound_ids_are_apart();
    match directory_along(view, tree, path, path.names.as_slice())? {
        Ok(spot) => Ok(Reply::List(names_of(alloc, view, tree, spot.sub.id, spot.number)?)),
        Err(cause) => Ok(Reply::Refused(cause)),
    }
}

// The names of a directory in an id, rising by their bytes, each with its kind.
fn names_of<V: View>(
    alloc: Global,
    view: &mut V,
    tree: &SnapTree,
    id: u32,
    directory: u64,
) -> Result<FlagList, Hold>
    ensures names { IfOk result (λ names. (keys : KeyMap) (read : Read) (sub : ASub)
        → IsSeen keys (V.made view.new) tree.now → AreNamesJoined keys → IsLiveLeaf keys id
        → sub.id ≡ id
        → names ≡ map (flagged (tree_of keys read sub)) (names_in keys id directory)) }
    ensures looks { GoesOn (V.made view.old) (V.made view.new) }
    ensures ids { V.told view.new ≡ V.told view.old }
    ensures cause { IfErr result (IsCause (V.held view.new)) }
{
    let flags = flags_in(alloc, view, tree, id, directory)?;
    Ok(list_of(alloc, flags)?)
}

// The names of a map with their flags, as a list.
fn list_of(alloc: Global, flags: BTreeMap<Bytes, u8>) -> Result<FlagList, AllocError>
    ensures list { IfOk result (λ list. list ≡ map flagged_name flags.entries) }
    ensures rises { IsMap name_cmp flags.entries }
{
    let mut list = FlagList::new(alloc);
    for (name, flag) in flags {
        list.push(FlaggedName { name, flag })?;
    }
    Ok(list)
}
