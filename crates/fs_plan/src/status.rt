ghost use Rattle.std.specs.Prelude.{◌≡◌, IfErr, IfOk, IfSome, None, Some, false};
ghost use Rattle.forest_ops.specs.Acknowledged.{synced_count};
ghost use Rattle.forest_ops.specs.Steps.{reply_or, status};
ghost use Rattle.fs_plan.specs.Plans.{is_failure};
ghost use Rattle.fs_plan.specs.Statuses.{status_in, told_of};
ghost use Rattle.path_plan.specs.Given.{IsGiven};
ghost use Rattle.key_meaning.specs.Checks.{AreLinksCounted, AreNamesJoined, DoLeavesMatch, IsLiveLeaf};
ghost use Rattle.key_meaning.specs.Forest.{Read, forest_in, inode_in};
ghost use Rattle.key_meaning.specs.Tidy.{AreKeysDrawn};
ghost use Rattle.key_view.specs.Holds.{IsCause};
ghost use Rattle.key_view.specs.Seen.{GoesOn, IsSeen};
ghost use Rattle.vol_types.specs.KeyMaps.{KeyMap};

use dirent_keys::count;
use forest_ops::{Cause, Reply};
use key_meaning::sound_ids_are_apart;
use key_view::{Hold, View};
use path_plan::{inode_of, reached_along};
use plain_forest::Path;
use snap_tree::SnapTree;
use vol_types::{FileKind, Inode};

/// What is told of what stands at a path. Of a directory its names are counted, by the looks of `count`, and no list is made.
pub(crate) fn stat<V: View>(view: &mut V, path: &Path) -> Result<Reply, Hold>
    ensures reply { IfOk result (λ reply. (keys : KeyMap) (read : Read)
        → IsGiven keys (V.made view.new) (V.told view.new) → DoLeavesMatch keys → AreNamesJoined keys
        → AreLinksCounted keys → AreKeysDrawn keys
        → reply ≡ reply_or (status path.now (forest_in keys read))) }
    ensures unfailed { IfOk result (λ reply. is_failure reply ≡ false) }
    ensures unsynced { IfOk result (λ reply. synced_count reply ≡ None) }
    ensures looks { GoesOn (V.made view.old) (V.made view.new) }
    ensures ids { IfSome (V.told view.old) (λ tree. V.told view.new ≡ Some tree) }
    ensures cause { IfErr result (IsCause (V.held view.new)) }
{
    let tree = view.tree()?;
    stat_in(view, &tree, path)
}

// What is told of what stands at a path, where the ids are those of this tree.
#[tactic(auto, using(path_plan::specs::LookLaws::looks_then))]
fn stat_in<V: View>(view: &mut V, tree: &SnapTree, path: &Path) -> Result<Reply, Hold>
    ensures reply { IfOk result (λ reply. (keys : KeyMap) (read : Read)
        → IsSeen keys (V.made view.new) tree.now → DoLeavesMatch keys → AreNamesJoined keys
        → AreLinksCounted keys → AreKeysDrawn keys
        → reply ≡ reply_or (status path.now (forest_in keys read))) }
    ensures unfailed { IfOk result (λ reply. is_failure reply ≡ false) }
    ensures unsynced { IfOk result (λ reply. synced_count reply ≡ None) }
    ensures looks { GoesOn (V.made view.old) (V.made view.new) }
    ensures ids { V.told view.new ≡ V.told view.old }
    ensures cause { IfErr result (IsCause (V.held view.new)) }
{
    sound_ids_are_apart();
    match reached_along(view, tree, path, path.names.as_slice())? {
        Ok(spot) => status_at(view, tree, spot.sub.id, spot.number),
        Err(cause) => Ok(Reply::Refused(cause)),
    }
}

// What is told of the inode of a number in an id.
#[tactic(auto, using(path_plan::specs::LookLaws::looks_then))]
fn status_at<V: View>(view: &mut V, tree: &SnapTree, id: u32, number: u64) -> Result<Reply, Hold>
    ensures reply { IfOk result (λ reply. (keys : KeyMap) → IsSeen keys (V.made view.new) tree.now
        → AreKeysDrawn keys → AreNamesJoined keys → IsLiveLeaf keys id
        → reply ≡ status_in keys id number (inode_in keys id number)) }
    ensures unfailed { IfOk result (λ reply. is_failure reply ≡ false) }
    ensures unsynced { IfOk result (λ reply. synced_count reply ≡ None) }
    ensures looks { GoesOn (V.made view.old) (V.made view.new) }
    ensures ids { V.told view.new ≡ V.told view.old }
    ensures cause { IfErr result (IsCause (V.held view.new)) }
{
    match inode_of(view, tree, id, number)? {
        Some(inode) => told_of(view, tree, id, number, inode),
        None => Ok(Reply::Refused(Cause::NotFound)),
    }
}

// What is told of an inode that shows in an id.
fn told_of<V: View>(
    view: &mut V,
    tree: &SnapTree,
    id: u32,
    number: u64,
    inode: Inode,
) -> Result<Reply, Hold>
    ensures reply { IfOk result (λ reply. (keys : KeyMap) → IsSeen keys (V.made view.new) tree.now
        → AreKeysDrawn keys → AreNamesJoined keys → IsLiveLeaf keys id
        → reply ≡ told_of keys id number inode) }
    ensures unfailed { IfOk result (λ reply. is_failure reply ≡ false) }
    ensures unsynced { IfOk result (λ reply. synced_count reply ≡ None) }
    ensures looks { GoesOn (V.made view.old) (V.made view.new) }
    ensures ids { V.told view.new ≡ V.told view.old }
    ensures cause { IfErr result (IsCause (V.held view.new)) }
{
    match inode.kind {
        FileKind::File => Ok(Reply::File {
            number,
            size: inode.size,
            links: inode.links,
        }),
        FileKind::Directory => {
            let entries = count(view, tree, id, number)?;
            Ok(Reply::Dir { number, entries })
        }
    }
}
