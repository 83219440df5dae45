ghost use Rattle.std.specs.Prelude.{◌≡◌, [], IfErr, IfOk, OnOk};
ghost use Rattle.key_triggers.specs.Changes.{noted, values_after, values_before};
ghost use Rattle.key_view.specs.Holds.{IsCause};
ghost use Rattle.key_view.specs.Seen.{GoesOn};
ghost use Rattle.vol_types.specs.KeyMaps.{GivesLooks, KeyMap, is_update_of, value_in};
ghost use Rattle.vol_types.specs.declared.positions.Btree.TheVariants.{Extents};

use crate::looks::value_at;
use key_view::{Hold, View};
use std::alloc::{AllocError, Global};
use std::collections::BTreeMap;
use vol_types::{Btree, Duplicate, Pos, Update, Value};

/// At each position at which updates change an extent or a hole, the value before them.
pub fn values_before<V: View>(
    alloc: Global,
    view: &mut V,
    updates: &[Update],
) -> Result<BTreeMap<Pos, Option<Value>>, Hold>
    ensures values { IfOk result (λ values. (keys : KeyMap) → GivesLooks keys (V.made view.new)
        → values.entries ≡ values_before keys updates.now []) }
    ensures looks { GoesOn (V.made view.old) (V.made view.new) }
    ensures ids { V.told view.new ≡ V.told view.old }
    ensures cause { IfErr result (IsCause (V.held view.new)) }
{
    let mut values = BTreeMap::new(alloc);
    for update in updates.iter() {
        note_before(view, &mut values, update)?;
    }
    Ok(values)
}

/// At each such position the value after them.
pub fn values_after(
    alloc: Global,
    updates: &[Update],
) -> Result<BTreeMap<Pos, Option<Value>>, AllocError>
    ensures { IfOk result (λ values. values.entries ≡ values_after updates.now []) }
{
    let mut values = BTreeMap::new(alloc);
    for update in updates.iter() {
        note_after(alloc, &mut values, update)?;
    }
    Ok(values)
}

// Notes what stands before an update, if it is one of an extent or a hole.
fn note_before<V: View>(
    view: &mut V,
    values: &mut BTreeMap<Pos, Option<Value>>,
    update: &Update,
) -> Result<(), Hold>
    ensures noted { OnOk result ((keys : KeyMap) → GivesLooks keys (V.made view.new)
        → values.new.entries ≡ noted update.now (value_in keys Extents update.now.pos)
        values.old.entries) }
    ensures looks { GoesOn (V.made view.old) (V.made view.new) }
    ensures ids { V.told view.new ≡ V.told view.old }
    ensures cause { IfErr result (IsCause (V.held view.new)) }
{
    if !is_of_extents(update) {
        return Ok(());
    }
    let value = value_at(view, Btree::Extents, update.pos)?;
    values.insert(update.pos, value)?;
    Ok(())
}

// Notes what it puts or removes.
fn note_after(
    alloc: Global,
    values: &mut BTreeMap<Pos, Option<Value>>,
    update: &Update,
) -> Result<(), AllocError>
    ensures { OnOk result (values.new.entries ≡ noted update.now update.now.value
        values.old.entries) }
{
    if !is_of_extents(update) {
        return Ok(());
    }
    let value = update.value.copy(alloc)?;
    values.insert(update.pos, value)?;
    Ok(())
}

// Whether it is an update of an extent or a hole. Their btree has the number 0.
fn is_of_extents(update: &Update) -> bool
    ensures { result ≡ is_update_of Extents update.now }
{
    update.level == 0 && update.btree.code() == 0
}
