ghost use Rattle.std.specs.Prelude.{◌≡◌, ◌<◌, ◌≤◌, List, Some, false, IfErr, IfOk, IfSome};
ghost use Rattle.forest_ops.specs.Steps.{with_subvolume};
ghost use Rattle.id_steps.specs.Entries.{subs_update};
ghost use Rattle.id_steps.specs.SlotLists.{with_sub};
ghost use Rattle.key_meaning.specs.Checks.{IsSound};
ghost use Rattle.key_meaning.specs.Forest.{next_in};
ghost use Rattle.key_meaning.specs.Tidy.{IsTidy, id_counter};
ghost use Rattle.key_view.specs.Holds.{IsCause};
ghost use Rattle.key_view.specs.Seen.{GoesOn, IsSeen};
ghost use Rattle.path_plan.specs.Given.{IsGiven};
ghost use Rattle.path_plan.specs.Made.{IsStepMade};
ghost use Rattle.plain_forest.specs.Steps.{numbers_per_client};
ghost use Rattle.subvol_ops.specs.Plans.{made_drawn, subvolume_made, updates_to_make};
ghost use Rattle.vol_digest.specs.Digests.{slot_of};
ghost use Rattle.vol_types.specs.KeyMaps.{GivesLooks, KeyMap};
ghost use Rattle.vol_types.specs.declared.layout.Layout.{Layout};
ghost use Rattle.vol_types.specs.declared.pointers.Place.{Place};

use crate::counters::{ID_COUNTER, counter, next_id};
use crate::names::is_subvolume_name_good;
use crate::slots::{room_among, subs_at, with_sub};
use crate::updates::{counter_update, leaf_under, root_update, snap_update, subs_update};
use forest_ops::Cause;
use id_steps::{
    live_leaves_are_subvolumes, slots_are_counted, slots_take_subvolumes, subvolumes_are_made,
};
use key_view::{Hold, View};
use snap_tree::SnapTree;
use std::alloc::{AllocError, Global};
use vol_types::{Bytes, Duplicate, Sub, SubList, Update, Updates};

// How many numbers a client has.
const NUMBERS_PER_CLIENT: u64 = 1 << 48;

/// The updates after which there is an empty subvolume of a name, which a client makes, or why the forest refuses it. It makes one look
/// at the slot of the name, one at the client's counter and one at that of ids, whatever the trees hold, and takes memory for the
/// subvolumes of the slot and for five updates.
pub fn make_subvolume<V: View>(
    alloc: Global,
    view: &mut V,
    client: u8,
    name: &Bytes,
) -> Result<Result<Updates, Cause>, Hold>
    requires { client < 16 }
    ensures is { IfOk result (λ planned. (keys : KeyMap)
        → IsGiven keys (V.made view.new) (V.told view.new)
        → planned ≡ subvolume_made keys client name.now) }
    ensures made { IfOk result (λ planned. (keys : KeyMap) (nodes : List Place) (layout : Layout)
        → IsGiven keys (V.made view.new) (V.told view.new) → IsSound keys nodes layout → IsTidy keys
        → IsStepMade keys nodes layout (with_subvolume client name.now) planned) }
    ensures looks { GoesOn (V.made view.old) (V.made view.new) }
    ensures ids { IfSome (V.told view.old) (λ tree. V.told view.new ≡ Some tree) }
    ensures cause { IfErr result (IsCause (V.held view.new)) }
{
    live_leaves_are_subvolumes();
    slots_are_counted();
    slots_take_subvolumes();
    subvolumes_are_made();
    let tree = view.tree()?;
    make_in(alloc, view, &tree, client, name)
}

// The updates after which there is an empty subvolume of a name, where the ids are those of this tree.
#[tactic(auto, using(path_plan::specs::LookLaws::looks_then))]
fn make_in<V: View>(
    alloc: Global,
    view: &mut V,
    tree: &SnapTree,
    client: u8,
    name: &Bytes,
) -> Result<Result<Updates, Cause>, Hold>
    requires { client < 16 }
    ensures is { IfOk result (λ planned. (keys : KeyMap) → IsSeen keys (V.made view.new) tree.now
        → planned ≡ subvolume_made keys client name.now) }
    ensures looks { GoesOn (V.made view.old) (V.made view.new) }
    ensures ids { V.told view.new ≡ V.told view.old }
    ensures cause { IfErr result (IsCause (V.held view.new)) }
{
    if !is_subvolume_name_good(name.as_slice()) {
        return Ok(Err(Cause::BadPath));
    }
    let subs = subs_at(alloc, view, name)?;
    if let Err(cause) = room_among(name.as_slice(), subs.as_slice(), tree.live_leaves()) {
        drop(subs);
        return Ok(Err(cause));
    }
    let (number, next) = match counters(view, client) {
        Ok(both) => both,
        Err(hold) => {
            drop(subs);
            return Err(hold);
        }
    };
    Ok(make_drawn(alloc, client, name, subs, number, next)?)
}

// What the counter of a client and that of ids stand at.
#[tactic(auto, using(path_plan::specs::LookLaws::looks_then))]
fn counters<V: View>(view: &mut V, client: u8) -> Result<(u64, u64), Hold>
    ensures both { IfOk result (λ both. (keys : KeyMap) → GivesLooks keys (V.made view.new)
        → both ≡ (next_in keys client, next_in keys id_counter)) }
    ensures looks { GoesOn (V.made view.old) (V.made view.new) }
    ensures ids { V.told view.new ≡ V.told view.old }
    ensures cause { IfErr result (V.held view.new) }
{
    let number = counter(view, client)?;
    let next = counter(view, ID_COUNTER)?;
    Ok((number, next))
}

// The updates by which a client makes a subvolume whose slot has these others, where the counters stand so, or why not.
fn make_drawn(
    alloc: Global,
    client: u8,
    name: &Bytes,
    subs: SubList,
    number: u64,
    next: u64,
) -> Result<Result<Updates, Cause>, AllocError>
    requires { client < 16 }
    ensures { IfOk result (λ planned. (keys : KeyMap) → next_in keys client ≡ number
        → next_in keys id_counter ≡ next → planned ≡ made_drawn keys client name.now subs) }
{
    if number >= NUMBERS_PER_CLIENT {
        drop(subs);
        return Ok(Err(Cause::IdsSpent));
    }
    let Some(id) = next_id(1, next) else {
        drop(subs);
        return Ok(Err(Cause::IdsSpent));
    };
    Ok(Ok(updates_to_make(alloc, client, name, subs, number, id)?))
}

// The updates by which a client makes a subvolume whose slot has these others, of this number in its range and in this id.
fn updates_to_make(
    alloc: Global,
    client: u8,
    name: &Bytes,
    subs: SubList,
    number: u64,
    id: u32,
) -> Result<Updates, AllocError>
    requires client { client < 16 }
    requires number { number < numbers_per_client }
    requires id { 1 ≤ id }
    ensures { IfOk result (λ updates. (keys : KeyMap) → next_in keys client ≡ number
        → next_in keys id_counter ≡ id → updates ≡ updates_to_make keys client name.now subs) }
{
    let root = u64::from(client) * NUMBERS_PER_CLIENT + number;
    let entry = new_entry(alloc, name, subs, id, root)?;
    let mut updates = Updates::new(alloc);
    updates.push(counter_update(client, number + 1))?;
    updates.push(snap_update(id, leaf_under(0)))?;
    updates.push(entry)?;
    updates.push(counter_update(ID_COUNTER, u64::from(id - 1)))?;
    updates.push(root_update(id, root))?;
    Ok(updates)
}

// The update that gives a slot a further subvolume.
fn new_entry(
    alloc: Global,
    name: &Bytes,
    subs: SubList,
    id: u32,
    root: u64,
) -> Result<Update, AllocError>
    ensures { IfOk result (λ update. update ≡ subs_update (slot_of name.now)
        (with_sub (record { id = id; root = root; read_only = false; name = name.now }) subs)) }
{
    let sub = match new_sub(alloc, name, id, root) {
        Ok(sub) => sub,
        Err(e) => {
            drop(subs);
            return Err(e);
        }
    };
    Ok(subs_update(name, with_sub(subs, sub)?))
}

// A subvolume that may be written to.
fn new_sub(alloc: Global, name: &Bytes, id: u32, root: u64) -> Result<Sub, AllocError>
    ensures { IfOk result (λ sub.
        sub ≡ record { id = id; root = root; read_only = false; name = name.now }) }
{
    Ok(Sub {
        id,
        root,
        read_only: false,
        name: name.copy(alloc)?,
    })
}
