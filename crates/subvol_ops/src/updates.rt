ghost use Rattle.std.specs.Prelude.{◌≡◌, ◌-◌, ◌≤◌, ◌++◌, ◌∷◌, [], IfOk};
ghost use Rattle.id_steps.specs.Entries.{counter_update, subs_update};
ghost use Rattle.id_steps.specs.Ids.{dead, split_updates};
ghost use Rattle.id_steps.specs.Steps.{empty_directory};
ghost use Rattle.key_meaning.specs.Numbers.{own_inode};
ghost use Rattle.key_steps.specs.Steps.{inode_value};
ghost use Rattle.snap_tree.specs.Splits.{interior_over, leaf_under, snap_update};
ghost use Rattle.vol_digest.specs.Digests.{slot_of};

use crate::counters::counter_pos;
use crate::slots::subs_value;
use std::alloc::{AllocError, Global};
use vol_digest::slot;
use vol_types::{
    Btree, Bytes, FileKind, Inode, Pos, Snap, SnapState, SubList, Update, Updates, Value,
};

/// The update that gives the slot of a name these subvolumes, or none.
pub(crate) fn subs_update(name: &Bytes, subs: SubList) -> Update
    ensures { result ≡ subs_update (slot_of name.now) subs }
{
    Update {
        btree: Btree::Subvols,
        level: 0,
        pos: Pos {
            inode: 0,
            offset: slot(name.as_slice()),
            snapshot: 0,
        },
        value: subs_value(subs),
    }
}

/// The update that sets a counter.
pub(crate) fn counter_update(counter: u8, next: u64) -> Update
    ensures { result ≡ counter_update counter next }
{
    Update {
        btree: Btree::Counters,
        level: 0,
        pos: counter_pos(counter),
        value: Some(Value::Counter { next }),
    }
}

/// The update that gives an id its record.
pub(crate) fn snap_update(id: u32, snap: Snap) -> Update
    ensures { result ≡ snap_update id snap }
{
    Update {
        btree: Btree::Snapshots,
        level: 0,
        pos: Pos {
            inode: 0,
            offset: u64::from(id),
            snapshot: 0,
        },
        value: Some(Value::Snap(snap)),
    }
}

/// The update that puts an empty directory of a number into an id.
pub(crate) fn root_update(id: u32, number: u64) -> Update
    ensures { result ≡ own_inode id number (Some (inode_value empty_directory)) }
{
    Update {
        btree: Btree::Inodes,
        level: 0,
        pos: Pos {
            inode: 0,
            offset: number,
            snapshot: id,
        },
        value: Some(Value::Inode(Inode {
            kind: FileKind::Directory,
            links: 1,
            size: 0,
        })),
    }
}

/// The record of a live leaf.
pub(crate) fn leaf_under(parent: u32) -> Snap
    ensures { result ≡ leaf_under parent }
{
    Snap {
        parent,
        first_child: 0,
        second_child: 0,
        state: SnapState::LiveLeaf,
    }
}

/// The record of a leaf that has died.
pub(crate) fn dead(leaf: Snap) -> Snap
    ensures { result ≡ dead leaf }
{
    Snap {
        state: SnapState::DeadLeaf,
        ..leaf
    }
}

// The record of a leaf that has become interior, over two children.
fn interior_over(first: u32, second: u32, leaf: Snap) -> Snap
    ensures { result ≡ interior_over first second leaf }
{
    Snap {
        parent: leaf.parent,
        first_child: first,
        second_child: second,
        state: SnapState::Interior,
    }
}

/// The updates that split a leaf, where the next id is the greater one of the new ids.
pub(crate) fn split_updates(
    alloc: Global,
    id: u32,
    next: u32,
    leaf: Snap,
) -> Result<Updates, AllocError>
    requires { 2 ≤ next }
    ensures { IfOk result (λ updates. updates ≡ split_updates id next (next - 1) leaf) }
{
    let mut updates = Updates::new(alloc);
    updates.push(snap_update(id, interior_over(next, next - 1, leaf)))?;
    updates.push(snap_update(next, leaf_under(id)))?;
    updates.push(snap_update(next - 1, leaf_under(id)))?;
    Ok(updates)
}

/// A list of one update.
pub(crate) fn one(alloc: Global, update: Update) -> Result<Updates, AllocError>
    ensures { IfOk result (λ updates. updates ≡ update ∷ []) }
{
    let mut updates = Updates::new(alloc);
    updates.push(update)?;
    Ok(updates)
}

/// The updates one after the other.
pub(crate) fn joined(first: Updates, second: Updates) -> Result<Updates, AllocError>
    ensures { IfOk result (λ all. all ≡ first ++ second) }
{
    let mut all = first;
    let mut last = second;
    all.append(&mut last)?;
    Ok(all)
}
