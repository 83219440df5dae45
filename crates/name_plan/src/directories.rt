ghost use Rattle.std.specs.Prelude.{◌≡◌, IfErr, IfOk, option_map};
ghost use Rattle.key_meaning.specs.Forest.{is_directory};
ghost use Rattle.key_view.specs.Seen.{GoesOn, IsSeen};
ghost use Rattle.name_plan.specs.Directories.{directory_under};
ghost use Rattle.vol_types.specs.KeyMaps.{KeyMap};

use forest_ops::Cause;
use key_view::{Hold, View};
use path_plan::{inode_of, walk};
use snap_tree::SnapTree;
use vol_types::{Bytes, FileKind, Inode, Sub};

/// The directory to which some names lead from the root of a subvolume, or why they lead to none. It makes the looks of `walk`, and
/// those of `nearest` at the inode.
#[tactic(auto, using(path_plan::specs::LookLaws::looks_then))]
pub fn directory_under<V: View>(
    view: &mut V,
    tree: &SnapTree,
    sub: &Sub,
    names: &[Bytes],
) -> Result<Result<u64, Cause>, Hold>
    ensures found { IfOk result (λ found. (keys : KeyMap) → IsSeen keys (V.made view.new) tree.now
        → found ≡ directory_under keys sub.now names.now) }
    ensures looks { GoesOn (V.made view.old) (V.made view.new) }
    ensures ids { V.told view.new ≡ V.told view.old }
    ensures cause { IfErr result (V.held view.new) }
{
    let number = match walk(view, tree, sub, names)? {
        Ok(number) => number,
        Err(cause) => return Ok(Err(cause)),
    };
    let inode = inode_of(view, tree, sub.id, number)?;
    if !is_of_directory(inode) {
        return Ok(Err(Cause::NotDir));
    }
    Ok(Ok(number))
}

// Whether an inode is that of a directory.
fn is_of_directory(inode: Option<Inode>) -> bool
    ensures { result ≡ is_directory (option_map (λ inode. inode.kind) inode) }
{
    match inode {
        None => false,
        Some(inode) => matches!(inode.kind, FileKind::Directory),
    }
}
