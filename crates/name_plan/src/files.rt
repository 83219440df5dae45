ghost use Rattle.std.specs.Prelude.{◌≡◌, IfErr, IfOk, option_and_then};
ghost use Rattle.key_view.specs.Seen.{GoesOn, IsSeen};
ghost use Rattle.name_plan.specs.Files.{file_shown, if_file};
ghost use Rattle.vol_types.specs.KeyMaps.{KeyMap};

use key_view::{Hold, View};
use path_plan::inode_of;
use snap_tree::SnapTree;
use vol_types::{FileKind, Inode};

/// The inode of a number that shows in an id of the tree, where it is a file's. It makes the looks of `nearest` at the inode.
pub fn file_shown<V: View>(
    view: &mut V,
    tree: &SnapTree,
    id: u32,
    number: u64,
) -> Result<Option<Inode>, Hold>
    ensures inode { IfOk result (λ inode. (keys : KeyMap) → IsSeen keys (V.made view.new) tree.now
        → inode ≡ file_shown keys id number) }
    ensures looks { GoesOn (V.made view.old) (V.made view.new) }
    ensures ids { V.told view.new ≡ V.told view.old }
    ensures cause { IfErr result (V.held view.new) }
{
    let inode = inode_of(view, tree, id, number)?;
    Ok(if_file(inode))
}

// An inode, where it is a file's.
fn if_file(inode: Option<Inode>) -> Option<Inode>
    ensures { result ≡ option_and_then if_file inode }
{
    match inode {
        None => None,
        Some(inode) => match inode.kind {
            FileKind::File => Some(inode),
            FileKind::Directory => None,
        },
    }
}
