ghost use Rattle.std.specs.Ordering.{nat_cmp};
ghost use Rattle.std.specs.Prelude.{◌≡◌, All, IfErr, IfOk, IfSome, IsSome, option_map};
ghost use Rattle.key_view.specs.Changes.{SeesThere, updates_to_see};
ghost use Rattle.key_view.specs.Holds.{IsCause};
ghost use Rattle.key_view.specs.Seen.{GoesOn, IsSeen};
ghost use Rattle.vol_types.specs.KeyMaps.{KeyMap, with_updates};
ghost use Rattle.vol_types.specs.Maps.{value_at};
ghost use Rattle.vol_types.specs.Ranges.{IsInode};
ghost use Rattle.vol_types.specs.Standing.{IsUpdate};
ghost use Rattle.vol_types.specs.declared.positions.Btree.TheVariants.{Inodes};
ghost use Rattle.vol_types.specs.declared.values.Value.TheVariants.{Inode as inode_value};

use key_view::{Hold, View, changes_are_seen, updates_to_see};
use snap_tree::SnapTree;
use std::alloc::Global;
use vol_types::{Btree, Inode, Pos, Updates, Value};

/// The updates after which the inode of a number is this one in an id of the tree, or none, and nothing else that is seen
/// changes. To have none, a whiteout hides that of an ancestor; where there is none to hide, the id's own key goes, if it has
/// one. It makes the looks that `nearest` makes, and one more, and takes memory for one update.
pub fn set<V: View>(
    alloc: Global,
    view: &mut V,
    tree: &SnapTree,
    id: u32,
    number: u64,
    inode: Option<Inode>,
) -> Result<Updates, Hold>
    ensures updates { IfOk result (λ updates. (keys : KeyMap) → IsSeen keys (V.made view.new) tree.now
        → updates ≡ updates_to_see keys Inodes 0 number id (option_map inode_value inode)) }
    ensures seen { IfOk result (λ updates. (keys : KeyMap) → IsSeen keys (V.made view.new) tree.now
        → IsSome (value_at nat_cmp id tree.now)
        → SeesThere keys (with_updates updates keys) Inodes 0 number id (option_map inode_value inode)) }
    ensures fits { IfSome inode IsInode → IfOk result (All IsUpdate) }
    ensures looks { GoesOn (V.made view.old) (V.made view.new) }
    ensures ids { V.told view.new ≡ V.told view.old }
    ensures cause { IfErr result (IsCause (V.held view.new)) }
{
    tree.ids_fit();
    changes_are_seen();
    let own = Pos {
        inode: 0,
        offset: number,
        snapshot: id,
    };
    updates_to_see(alloc, view, tree, Btree::Inodes, own, value_of(inode))
}

// The value that an inode is kept as.
fn value_of(inode: Option<Inode>) -> Option<Value>
    ensures { result ≡ option_map inode_value inode }
{
    match inode {
        None => None,
        Some(inode) => Some(Value::Inode(inode)),
    }
}
