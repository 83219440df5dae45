ghost use Rattle.std.specs.Prelude.{◌≡◌};
ghost use Rattle.snap_tree.specs.Splits.{snap_update, leaf_under, interior_over};

use vol_types::{Btree, Pos, Snap, SnapState, Update, Updates, Value};

/// The two ids that a snapshot draws, and what it does to the records of ids.
#[derive(Drop)]
pub struct Split {
    /// The id in which the source goes on.
    pub source: u32,
    /// The id of the copy.
    pub copy: u32,
    /// The records of the split leaf, of the source and of the copy, in this order.
    pub updates: Updates,
}

/// The update that gives an id its record.
pub(crate) fn snap_update(id: u32, snap: Snap) -> Update
    ensures { result ≡ snap_update id snap }
{
    Update {
        btree: Btree::Snapshots,
        level: 0,
        pos: Pos {
            inode: 0,
            offset: id as u64,
            snapshot: 0,
        },
        value: Some(Value::Snap(snap)),
    }
}

/// The record of a live leaf.
pub(crate) fn leaf_under(parent: u32) -> Snap
    ensures { result ≡ leaf_under parent }
{
    Snap {
        parent,
        first_child: 0,
        second_child: 0,
        state: SnapState::LiveLeaf,
    }
}

/// The record of a leaf that becomes interior.
pub(crate) fn interior_over(first: u32, second: u32, leaf: Snap) -> Snap
    ensures { result ≡ interior_over first second leaf }
{
    Snap {
        parent: leaf.parent,
        first_child: first,
        second_child: second,
        state: SnapState::Interior,
    }
}
