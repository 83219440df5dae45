ghost use Rattle.std.specs.Prelude.{◌≡◌, IfErr, IfOk, IfSome, Some, false};
ghost use Rattle.forest_ops.specs.Steps.{fsynced, reply_or};
ghost use Rattle.fs_plan.specs.Plans.{is_failure};
ghost use Rattle.fs_plan.specs.Statuses.{sync_reply};
ghost use Rattle.path_plan.specs.Given.{IsGiven};
ghost use Rattle.key_meaning.specs.Forest.{Read, forest_in};
ghost use Rattle.key_view.specs.Holds.{IsCause};
ghost use Rattle.key_view.specs.Seen.{GoesOn, IsSeen};
ghost use Rattle.vol_types.specs.KeyMaps.{KeyMap};

use forest_ops::{Cause, Reply};
use key_view::{Hold, View};
use path_plan::{Spot, reached_along};
use plain_forest::Path;
use snap_tree::SnapTree;

/// What the forest answers where commits are to be made durable if something stands at a path: 0 for their number, or why nothing
/// stands there.
pub(crate) fn sync_at<V: View>(view: &mut V, path: &Path) -> Result<Reply, Hold>
    ensures reply { IfOk result (λ reply. (keys : KeyMap) (read : Read)
        → IsGiven keys (V.made view.new) (V.told view.new)
        → reply ≡ reply_or (fsynced path.now (forest_in keys read))) }
    ensures unfailed { IfOk result (λ reply. is_failure reply ≡ false) }
    ensures looks { GoesOn (V.made view.old) (V.made view.new) }
    ensures ids { IfSome (V.told view.old) (λ tree. V.told view.new ≡ Some tree) }
    ensures cause { IfErr result (IsCause (V.held view.new)) }
{
    let tree = view.tree()?;
    sync_in(view, &tree, path)
}

// What the forest answers, where the ids are those of this tree.
fn sync_in<V: View>(view: &mut V, tree: &SnapTree, path: &Path) -> Result<Reply, Hold>
    ensures reply { IfOk result (λ reply. (keys : KeyMap) (read : Read)
        → IsSeen keys (V.made view.new) tree.now
        → reply ≡ reply_or (fsynced path.now (forest_in keys read))) }
    ensures unfailed { IfOk result (λ reply. is_failure reply ≡ false) }
    ensures looks { GoesOn (V.made view.old) (V.made view.new) }
    ensures ids { V.told view.new ≡ V.told view.old }
    ensures cause { IfErr result (V.held view.new) }
{
    let reached = reached_along(view, tree, path, path.names.as_slice())?;
    Ok(sync_reply(reached))
}

// What is answered by what stands at the path: the number of commits is told later.
fn sync_reply(reached: Result<Spot, Cause>) -> Reply
    ensures { result ≡ sync_reply reached }
{
    match reached {
        Ok(spot) => {
            drop(spot);
            Reply::Synced(0)
        }
        Err(cause) => Reply::Refused(cause),
    }
}
