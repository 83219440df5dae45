//! Records of ids and their trees, for the tests beside it.

ghost use Rattle.std.specs.Prelude.{IfOk, All};
ghost use Rattle.snap_tree.specs.Snaps.{IsSnapKey};

use snap_tree::SnapTree;
use std::alloc::{AllocError, Global};
use std::sync::Arc;
use std::test::Fail;
use vol_types::{Key, Keys, Pos, Snap, SnapState, Value};

/// The key of an id with its record.
pub(crate) fn key_of_snap(id: u32, snap: Snap) -> Key
    ensures { IsSnapKey result }
{
    Key {
        pos: Pos {
            inode: 0,
            offset: u64::from(id),
            snapshot: 0,
        },
        value: Some(Value::Snap(snap)),
    }
}

/// The record of an id under this parent; 0 stands for none.
pub(crate) fn snap_key(id: u32, parent: u32) -> Key
    ensures { IsSnapKey result }
{
    key_of_snap(
        id,
        Snap {
            parent,
            first_child: 0,
            second_child: 0,
            state: SnapState::Interior,
        },
    )
}

/// The keys of some ids, each given with its parent.
pub(crate) fn snap_keys(alloc: Global, ids: &[(u32, u32)]) -> Result<Keys, AllocError>
    ensures { IfOk result (All IsSnapKey) }
{
    let mut keys = Keys::new(alloc);
    for (id, parent) in ids {
        keys.push(snap_key(*id, *parent))?;
    }
    Ok(keys)
}

/// The trees of some ids.
pub(crate) fn tree_of(alloc: Global, ids: &[(u32, u32)]) -> Result<SnapTree, Fail> {
    let keys = snap_keys(alloc, ids)?;
    let tree = SnapTree::of(alloc, &keys);
    drop(keys);
    Ok(tree?)
}

/// The same, to be shared.
pub(crate) fn shared_tree(alloc: Global, ids: &[(u32, u32)]) -> Result<Arc<SnapTree>, Fail> {
    let tree = tree_of(alloc, ids)?;
    Ok(Arc::new(alloc, tree)?)
}
