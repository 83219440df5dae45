ghost use Rattle.std.specs.Prelude.{◌≡◌, IfErr, IfOk, find, option_and_then};
ghost use Rattle.std.specs.Ordering.{is_eq};
ghost use Rattle.forest_ops.specs.Walking.{same_name};
ghost use Rattle.path_plan.specs.Looking.{shared_sub, sub_of, value_in_key};
ghost use Rattle.key_meaning.specs.Forest.{sub_named, subs_of};
ghost use Rattle.key_view.specs.Seen.{GoesOn};
ghost use Rattle.vol_digest.specs.Digests.{slot_of};
ghost use Rattle.vol_types.specs.KeyMaps.{GivesLooks, KeyMap, value_in};
ghost use Rattle.vol_types.specs.Ranges.{name_cmp};
ghost use Rattle.vol_types.specs.declared.positions.Btree.TheVariants.{Subvols};

use forest_ops::Cause;
use key_view::{Hold, View};
use plain_forest::Path;
use vol_digest::slot;
use vol_types::{Btree, Bytes, Key, Pos, Query, Sub, Value};

/// The subvolume of a path, or why the forest has none there. It makes one look.
pub fn subvolume_of<V: View>(view: &mut V, path: &Path) -> Result<Result<Sub, Cause>, Hold>
    ensures found { IfOk result (λ found. (keys : KeyMap) → GivesLooks keys (V.made view.new)
        → found ≡ sub_of keys path.now) }
    ensures looks { GoesOn (V.made view.old) (V.made view.new) }
    ensures ids { V.told view.new ≡ V.told view.old }
    ensures cause { IfErr result (V.held view.new) }
{
    if !path.is_good() {
        return Ok(Err(Cause::BadPath));
    }
    let found = subvolume(view, &path.sub)?;
    Ok(found.ok_or(Cause::NoSubvolume))
}

/// The subvolume in which two paths lie, or why the forest has none of both. It makes one look.
pub fn shared_subvolume<V: View>(
    view: &mut V,
    from: &Path,
    to: &Path,
) -> Result<Result<Sub, Cause>, Hold>
    ensures found { IfOk result (λ found. (keys : KeyMap) → GivesLooks keys (V.made view.new)
        → found ≡ shared_sub keys from.now to.now) }
    ensures looks { GoesOn (V.made view.old) (V.made view.new) }
    ensures ids { V.told view.new ≡ V.told view.old }
    ensures cause { IfErr result (V.held view.new) }
{
    if !from.is_good() {
        return Ok(Err(Cause::BadPath));
    }
    if !to.is_good() {
        return Ok(Err(Cause::BadPath));
    }
    if !is_same_name(&from.sub, &to.sub) {
        return Ok(Err(Cause::Cross));
    }
    let found = subvolume(view, &from.sub)?;
    Ok(found.ok_or(Cause::NoSubvolume))
}

// Whether two names are equal.
fn is_same_name(one: &Bytes, other: &Bytes) -> bool
    ensures { result ≡ same_name one.now other.now }
{
    one == other
}

// The subvolume of a name, if there is one. It makes one look, at the subvolumes whose names share the slot.
fn subvolume<V: View>(view: &mut V, name: &Bytes) -> Result<Option<Sub>, Hold>
    ensures found { IfOk result (λ found. (keys : KeyMap) → GivesLooks keys (V.made view.new)
        → found ≡ sub_named keys name.now) }
    ensures looks { GoesOn (V.made view.old) (V.made view.new) }
    ensures ids { V.told view.new ≡ V.told view.old }
    ensures cause { IfErr result (V.held view.new) }
{
    let value = subvolumes_at(view, slot(name.as_slice()))?;
    Ok(sub_among(value, name))
}

// The value that holds the subvolumes of a slot.
fn subvolumes_at<V: View>(view: &mut V, slot: u64) -> Result<Option<Value>, Hold>
    ensures value { IfOk result (λ value. (keys : KeyMap) → GivesLooks keys (V.made view.new)
        → value ≡ value_in keys Subvols (record { inode = 0; offset = slot; snapshot = 0 })) }
    ensures looks { GoesOn (V.made view.old) (V.made view.new) }
    ensures ids { V.told view.new ≡ V.told view.old }
    ensures cause { IfErr result (V.held view.new) }
{
    let pos = Pos {
        inode: 0,
        offset: slot,
        snapshot: 0,
    };
    let mut answer = view.look(&Query::At {
        btree: Btree::Subvols,
        pos,
    })?;
    Ok(value_in_key(answer.pop()))
}

// The value of a key, if there is one.
fn value_in_key(key: Option<Key>) -> Option<Value>
    ensures { result ≡ value_in_key key }
{
    match key {
        None => None,
        Some(key) => key.value,
    }
}

// The subvolume of a name among those that a value holds.
fn sub_among(value: Option<Value>, name: &Bytes) -> Option<Sub>
    ensures { result ≡ find (λ sub. is_eq (name_cmp name.now sub.name)) (subs_of value) }
{
    match value {
        Some(Value::Subs(subs)) => Vec::from(subs).into_iter().find(|sub| is_named(sub, name)),
        _ => None,
    }
}

// Whether a subvolume has the name.
fn is_named(sub: &Sub, name: &Bytes) -> bool
    ensures { result ≡ is_eq (name_cmp name.now sub.now.name) }
{
    name.as_slice().cmp(sub.name.as_slice()).is_eq()
}
