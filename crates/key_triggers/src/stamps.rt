ghost use Rattle.std.specs.Prelude.{◌≡◌, IfErr, IfOk, map, option_copied, option_map};
ghost use Rattle.key_triggers.specs.Stamps.{generation_at, stamped, stamped_pointer, stamped_value};
ghost use Rattle.key_view.specs.Holds.{IsCause};
ghost use Rattle.key_view.specs.Seen.{GoesOn};
ghost use Rattle.vol_types.specs.KeyMaps.{GivesLooks, KeyMap};

use crate::tallies::live_at;
use crate::values::bucket_pos;
use key_view::{Hold, View};
use std::alloc::Global;
use vol_types::{Duplicate, Extent, Place, Pointer, Pointers, Update, Updates, Value};

/// The updates, in which each pointer of an extent has the present generation of its bucket. It makes one look for each pointer.
pub fn stamp_all<V: View>(alloc: Global, view: &mut V, updates: &[Update]) -> Result<Updates, Hold>
    ensures updates { IfOk result (λ stamps. (keys : KeyMap) → GivesLooks keys (V.made view.new)
        → stamps ≡ map (stamped keys) updates.now) }
    ensures looks { GoesOn (V.made view.old) (V.made view.new) }
    ensures ids { V.told view.new ≡ V.told view.old }
    ensures cause { IfErr result (IsCause (V.held view.new)) }
{
    let mut stamps = Updates::new(alloc);
    for update in updates.iter() {
        let value = stamp_value(alloc, view, update.value.as_ref())?;
        stamps.push(Update {
            btree: update.btree,
            level: update.level,
            pos: update.pos,
            value,
        })?;
    }
    Ok(stamps)
}

// The value with the present generations.
fn stamp_value<V: View>(
    alloc: Global,
    view: &mut V,
    value: Option<&Value>,
) -> Result<Option<Value>, Hold>
    ensures value { IfOk result (λ stamp. (keys : KeyMap) → GivesLooks keys (V.made view.new)
        → stamp ≡ option_map (stamped_value keys) (option_copied value.entry)) }
    ensures looks { GoesOn (V.made view.old) (V.made view.new) }
    ensures ids { V.told view.new ≡ V.told view.old }
    ensures cause { IfErr result (IsCause (V.held view.new)) }
{
    match value {
        None => Ok(None),
        Some(Value::Extent(extent)) => Ok(Some(Value::Extent(stamp_extent(alloc, view, extent)?))),
        Some(other) => Ok(Some(other.copy(alloc)?)),
    }
}

// The extent with the present generations.
fn stamp_extent<V: View>(alloc: Global, view: &mut V, extent: &Extent) -> Result<Extent, Hold>
    ensures extent { IfOk result (λ stamp. (keys : KeyMap) → GivesLooks keys (V.made view.new)
        → stamp.pointers ≡ map (stamped_pointer keys) extent.now.pointers) }
    ensures digests { IfOk result (λ stamp. stamp.digests ≡ extent.now.digests) }
    ensures looks { GoesOn (V.made view.old) (V.made view.new) }
    ensures ids { V.told view.new ≡ V.told view.old }
    ensures cause { IfErr result (IsCause (V.held view.new)) }
{
    let pointers = stamp_pointers(alloc, view, extent.pointers.as_slice())?;
    Ok(Extent {
        pointers,
        digests: extent.digests.copy(alloc)?,
    })
}

// The pointers with the present generations.
fn stamp_pointers<V: View>(
    alloc: Global,
    view: &mut V,
    pointers: &[Pointer],
) -> Result<Pointers, Hold>
    ensures pointers { IfOk result (λ stamps. (keys : KeyMap) → GivesLooks keys (V.made view.new)
        → stamps ≡ map (stamped_pointer keys) pointers.now) }
    ensures looks { GoesOn (V.made view.old) (V.made view.new) }
    ensures ids { V.told view.new ≡ V.told view.old }
    ensures cause { IfErr result (IsCause (V.held view.new)) }
{
    let mut stamps = Pointers::new(alloc);
    for pointer in pointers.iter() {
        let generation = generation_at(view, pointer.place)?;
        stamps.push(Pointer {
            place: pointer.place,
            generation,
        })?;
    }
    Ok(stamps)
}

// The present generation of a place's bucket, which is 0 where it has no key.
fn generation_at<V: View>(view: &mut V, place: Place) -> Result<u32, Hold>
    ensures generation { IfOk result (λ generation. (keys : KeyMap)
        → GivesLooks keys (V.made view.new) → generation ≡ generation_at keys place) }
    ensures looks { GoesOn (V.made view.old) (V.made view.new) }
    ensures ids { V.told view.new ≡ V.told view.old }
    ensures cause { IfErr result (V.held view.new) }
{
    match live_at(view, bucket_pos(place))? {
        None => Ok(0),
        Some(live) => Ok(live.generation),
    }
}
