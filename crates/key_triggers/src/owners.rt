ghost use Rattle.std.specs.Prelude.{◌≡◌, IfOk, OnOk, map};
ghost use Rattle.key_triggers.specs.Owners.{held_by, left_by, owned, owner_update};

use crate::values::{block_pos, pointers_in};
use std::alloc::{AllocError, Global};
use std::collections::BTreeMap;
use vol_types::{Btree, Pointer, Pos, Update, Updates, Value};

// The blocks at which pointers begin have this owner.
fn own(
    owners: &mut BTreeMap<Pos, Option<Pos>>,
    owner: Option<Pos>,
    pointers: &[Pointer],
) -> Result<(), AllocError>
    ensures { OnOk result (owners.new.entries ≡ owned owner pointers.now owners.old.entries) }
{
    for pointer in pointers.iter() {
        owners.insert(block_pos(pointer.place), owner)?;
    }
    Ok(())
}

/// The blocks at which pointers of values begin have no owner.
pub fn leave(
    owners: &mut BTreeMap<Pos, Option<Pos>>,
    values: &BTreeMap<Pos, Option<Value>>,
) -> Result<(), AllocError>
    ensures { OnOk result (owners.new.entries ≡ left_by values.now.entries owners.old.entries) }
{
    for (_, value) in values.iter() {
        own(owners, None, pointers_in(value.as_ref()))?;
    }
    Ok(())
}

/// The blocks at which pointers of values begin belong to the extents at their positions.
pub fn hold(
    owners: &mut BTreeMap<Pos, Option<Pos>>,
    values: &BTreeMap<Pos, Option<Value>>,
) -> Result<(), AllocError>
    ensures { OnOk result (owners.new.entries ≡ held_by values.now.entries owners.old.entries) }
{
    for (pos, value) in values.iter() {
        own(owners, Some(*pos), pointers_in(value.as_ref()))?;
    }
    Ok(())
}

/// The updates after which blocks have these owners.
pub fn owner_updates(
    alloc: Global,
    owners: &BTreeMap<Pos, Option<Pos>>,
) -> Result<Updates, AllocError>
    ensures { IfOk result (λ updates. updates ≡ map owner_update owners.now.entries) }
{
    let mut updates = Updates::new(alloc);
    for (block, owner) in owners.iter() {
        updates.push(owner_update(*block, *owner))?;
    }
    Ok(updates)
}

// The update after which a block has this owner.
fn owner_update(block: Pos, owner: Option<Pos>) -> Update
    ensures { result ≡ owner_update (block, owner) }
{
    Update {
        btree: Btree::Backptrs,
        level: 0,
        pos: block,
        value: match owner {
            None => None,
            Some(extent) => Some(Value::Back { extent }),
        },
    }
}
