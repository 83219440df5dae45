ghost use Rattle.std.specs.Prelude.{◌≡◌, IfErr, IfOk, option_map};
ghost use Rattle.key_meaning.specs.Forest.{inode_in, inode_of, is_directory, kind_in, number_in};
ghost use Rattle.key_view.specs.Seen.{GoesOn, IsSeen};
ghost use Rattle.path_plan.specs.Looking.{lead_to, leads_to, reached_along, spot_along};
ghost use Rattle.vol_types.specs.KeyMaps.{KeyMap};

use crate::subvolumes::subvolume_of;
use dirent_keys::find;
use forest_ops::Cause;
use key_view::{Hold, View, nearest};
use plain_forest::Path;
use snap_tree::SnapTree;
use vol_types::{Btree, Bytes, FileKind, Inode, Sub, Value};

/// An inode, with the subvolume in whose tree it is.
#[derive(PartialEq, Eq, Drop)]
pub struct Spot {
    pub sub: Sub,
    pub number: u64,
}

/// The directory to which some names lead from the root of a path's subvolume, or why the forest has none there. It makes a
/// look for the subvolume, those of `nearest` at the inode and at the slot for each name, and at the inode of the last one.
#[tactic(auto, using(crate::specs::LookLaws::looks_then))]
pub fn directory_along<V: View>(
    view: &mut V,
    tree: &SnapTree,
    path: &Path,
    names: &[Bytes],
) -> Result<Result<Spot, Cause>, Hold>
    ensures found { IfOk result (λ found. (keys : KeyMap)
        → IsSeen keys (V.made view.new) tree.now
        → found ≡ spot_along keys path.now names.now) }
    ensures looks { GoesOn (V.made view.old) (V.made view.new) }
    ensures ids { V.told view.new ≡ V.told view.old }
    ensures cause { IfErr result (V.held view.new) }
{
    let spot = match reached_along(view, tree, path, names)? {
        Ok(spot) => spot,
        Err(cause) => return Ok(Err(cause)),
    };
    if !is_directory(view, tree, spot.sub.id, spot.number)? {
        drop(spot);
        return Ok(Err(Cause::NotDir));
    }
    Ok(Ok(spot))
}

/// The inode to which some names lead from the root of a path's subvolume, of whatever kind, or why they lead nowhere. It makes a
/// look for the subvolume, and those of `nearest` at the inode and at the slot for each name.
#[tactic(auto, using(crate::specs::LookLaws::looks_then))]
pub fn reached_along<V: View>(
    view: &mut V,
    tree: &SnapTree,
    path: &Path,
    names: &[Bytes],
) -> Result<Result<Spot, Cause>, Hold>
    ensures found { IfOk result (λ found. (keys : KeyMap)
        → IsSeen keys (V.made view.new) tree.now
        → found ≡ reached_along keys path.now names.now) }
    ensures looks { GoesOn (V.made view.old) (V.made view.new) }
    ensures ids { V.told view.new ≡ V.told view.old }
    ensures cause { IfErr result (V.held view.new) }
{
    let sub = match subvolume_of(view, path)? {
        Ok(sub) => sub,
        Err(cause) => return Ok(Err(cause)),
    };
    match walk(view, tree, &sub, names)? {
        Ok(number) => Ok(Ok(Spot { sub, number })),
        Err(cause) => {
            drop(sub);
            Ok(Err(cause))
        }
    }
}

/// Where some names lead from the root of a subvolume, or why they lead nowhere. It makes the looks of `nearest` at the inode and
/// at the slot for each name.
pub fn walk<V: View>(
    view: &mut V,
    tree: &SnapTree,
    sub: &Sub,
    names: &[Bytes],
) -> Result<Result<u64, Cause>, Hold>
    ensures found { IfOk result (λ found. (keys : KeyMap)
        → IsSeen keys (V.made view.new) tree.now
        → found ≡ lead_to keys sub.now.id names.now sub.now.root) }
    ensures looks { GoesOn (V.made view.old) (V.made view.new) }
    ensures ids { V.told view.new ≡ V.told view.old }
    ensures cause { IfErr result (V.held view.new) }
{
    let mut number = sub.root;
    for name in names {
        match named(view, tree, sub.id, number, name)? {
            Ok(next) => number = next,
            Err(cause) => return Ok(Err(cause)),
        }
    }
    Ok(Ok(number))
}

// Where a name of an inode leads.
fn named<V: View>(
    view: &mut V,
    tree: &SnapTree,
    id: u32,
    number: u64,
    name: &Bytes,
) -> Result<Result<u64, Cause>, Hold>
    ensures found { IfOk result (λ found. (keys : KeyMap)
        → IsSeen keys (V.made view.new) tree.now
        → found ≡ leads_to keys id number name.now) }
    ensures looks { GoesOn (V.made view.old) (V.made view.new) }
    ensures ids { V.told view.new ≡ V.told view.old }
    ensures cause { IfErr result (V.held view.new) }
{
    if !is_directory(view, tree, id, number)? {
        return Ok(Err(Cause::NotDir));
    }
    let leads = number_of(view, tree, id, number, name)?;
    Ok(leads.ok_or(Cause::NotFound))
}

/// The inode of a number that shows in an id of the tree, if there is one. It makes the looks of `nearest` at the inode.
pub fn inode_of<V: View>(
    view: &mut V,
    tree: &SnapTree,
    id: u32,
    number: u64,
) -> Result<Option<Inode>, Hold>
    ensures inode { IfOk result (λ inode. (keys : KeyMap) → IsSeen keys (V.made view.new) tree.now
        → inode ≡ inode_in keys id number) }
    ensures looks { GoesOn (V.made view.old) (V.made view.new) }
    ensures ids { V.told view.new ≡ V.told view.old }
    ensures cause { IfErr result (V.held view.new) }
{
    let value = nearest(view, tree, Btree::Inodes, 0, number, id)?;
    Ok(inode_of_value(value))
}

// The inode that a value is, if it is one.
fn inode_of_value(value: Option<Value>) -> Option<Inode>
    ensures { result ≡ inode_of value }
{
    match value {
        Some(Value::Inode(inode)) => Some(inode),
        _ => None,
    }
}

// Whether a number stands for a directory in an id.
fn is_directory<V: View>(view: &mut V, tree: &SnapTree, id: u32, number: u64) -> Result<bool, Hold>
    ensures is { IfOk result (λ is. (keys : KeyMap) → IsSeen keys (V.made view.new) tree.now
        → is ≡ is_directory (kind_in keys id number)) }
    ensures looks { GoesOn (V.made view.old) (V.made view.new) }
    ensures ids { V.told view.new ≡ V.told view.old }
    ensures cause { IfErr result (V.held view.new) }
{
    let inode = inode_of(view, tree, id, number)?;
    Ok(is_of_directory(inode))
}

// Whether an inode is that of a directory.
fn is_of_directory(inode: Option<Inode>) -> bool
    ensures { result ≡ is_directory (option_map (λ inode. inode.kind) inode) }
{
    match inode {
        None => false,
        Some(inode) => matches!(inode.kind, FileKind::Directory),
    }
}

// Where a name of a directory leads in an id, if it shows there.
fn number_of<V: View>(
    view: &mut V,
    tree: &SnapTree,
    id: u32,
    directory: u64,
    name: &Bytes,
) -> Result<Option<u64>, Hold>
    ensures leads { IfOk result (λ leads. (keys : KeyMap) → IsSeen keys (V.made view.new) tree.now
        → leads ≡ number_in keys id directory name.now) }
    ensures looks { GoesOn (V.made view.old) (V.made view.new) }
    ensures ids { V.told view.new ≡ V.told view.old }
    ensures cause { IfErr result (V.held view.new) }
{
    let target = find(view, tree, id, directory, name)?;
    Ok(number_at(target))
}

// The number to which a name leads.
fn number_at(target: Option<(u64, FileKind)>) -> Option<u64>
    ensures { result ≡ option_map (λ t. t.0) target }
{
    match target {
        None => None,
        Some((number, _)) => Some(number),
    }
}
