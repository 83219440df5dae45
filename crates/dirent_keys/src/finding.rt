ghost use Rattle.std.specs.Prelude.{◌≡◌, IfErr, IfOk};
ghost use Rattle.dirent_keys.specs.Names.{target_in, target_of};
ghost use Rattle.key_meaning.specs.Forest.{links_of};
ghost use Rattle.key_view.specs.Seen.{GoesOn, IsSeen};
ghost use Rattle.vol_types.specs.KeyMaps.{KeyMap};

use crate::links::is_named;
use key_view::{Hold, View, nearest};
use snap_tree::SnapTree;
use vol_digest::slot;
use vol_types::{Btree, Bytes, FileKind, Link, Value};

/// Where a name of a directory leads in an id of the tree, if it shows there: the number of an inode, and its kind. It makes
/// the looks that `nearest` makes at the slot, and takes no memory of its own.
pub fn find<V: View>(
    view: &mut V,
    tree: &SnapTree,
    id: u32,
    dir: u64,
    name: &Bytes,
) -> Result<Option<(u64, FileKind)>, Hold>
    ensures target { IfOk result (λ target. (keys : KeyMap) → IsSeen keys (V.made view.new) tree.now
        → target ≡ target_in keys id dir name.now) }
    ensures looks { GoesOn (V.made view.old) (V.made view.new) }
    ensures ids { V.told view.new ≡ V.told view.old }
    ensures cause { IfErr result (V.held view.new) }
{
    let place = slot(name.as_slice());
    let value = nearest(view, tree, Btree::Dirents, dir, place, id)?;
    Ok(target_in_value(value, name.as_slice()))
}

// Where a name leads among those that a value holds, if it is one of them.
fn target_in_value(value: Option<Value>, name: &[u8]) -> Option<(u64, FileKind)>
    ensures { result ≡ target_of name.now (links_of value) }
{
    match value {
        Some(Value::Names(links)) => target_among(links.as_slice(), name),
        _ => None,
    }
}

// Where a name leads among these, if it is one of them.
fn target_among(links: &[Link], name: &[u8]) -> Option<(u64, FileKind)>
    ensures { result ≡ target_of name.now links.now }
{
    let link = links.iter().find(|link| is_named(link, name))?;
    Some((link.number, link.kind))
}
