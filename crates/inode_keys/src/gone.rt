ghost use Rattle.std.specs.Prelude.{◌≡◌, ◌∷◌, [], All, IfOk};
ghost use Rattle.inode_keys.specs.Inodes.{note_gone};
ghost use Rattle.vol_types.specs.Standing.{IsUpdate};

use std::alloc::{AllocError, Global};
use vol_types::{Btree, Pos, Update, Updates, Value};

/// The update that notes a number as that of a file that is gone in an id: its blocks are swept later.
pub fn put_gone(alloc: Global, id: u32, number: u64) -> Result<Updates, AllocError>
    ensures updates { IfOk result (λ updates. updates ≡ note_gone id number ∷ []) }
    ensures fits { IfOk result (All IsUpdate) }
{
    let mut updates = Updates::new(alloc);
    updates.push(Update {
        btree: Btree::Deleted,
        level: 0,
        pos: Pos {
            inode: 0,
            offset: number,
            snapshot: id,
        },
        value: Some(Value::Gone),
    })?;
    Ok(updates)
}
