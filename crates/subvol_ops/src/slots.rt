ghost use Rattle.std.specs.Prelude.{◌≡◌, ◌≤◌, IfErr, IfOk, length, option_copied, if◌then◌else◌};
ghost use Rattle.std.specs.List.{position, position_or_len};
ghost use Rattle.std.specs.Ordering.{is_eq, is_lt};
ghost use Rattle.id_steps.specs.Entries.{sub_of, subs_value};
ghost use Rattle.id_steps.specs.SlotLists.{with_sub, without_sub};
ghost use Rattle.id_steps.specs.Steps.{copied_to, moved_to};
ghost use Rattle.key_meaning.specs.Forest.{subs_in, subs_of};
ghost use Rattle.key_view.specs.Seen.{GoesOn};
ghost use Rattle.path_plan.specs.Looking.{value_in_key};
ghost use Rattle.subvol_ops.specs.Plans.{room_among};
ghost use Rattle.subvol_ops.specs.Slots.{leaf_among, with_moved};
ghost use Rattle.vol_digest.specs.Digests.{slot_of};
ghost use Rattle.vol_types.specs.KeyMaps.{GivesLooks, KeyMap, value_in};
ghost use Rattle.vol_types.specs.Ranges.{name_cmp};
ghost use Rattle.vol_types.specs.declared.positions.Btree.TheVariants.{Subvols};
ghost use Rattle.vol_types.specs.declared.values.Sub.{Sub as ASub};

use forest_ops::Cause;
use key_view::{Hold, View};
use snap_tree::SnapTree;
use std::alloc::{AllocError, Global};
use vol_digest::slot;
use vol_types::{Btree, Bytes, Duplicate, Key, Pos, Query, Snap, Sub, SubList, Value};

// How many subvolumes may share a slot.
const NAMES_PER_SLOT: usize = 8;

// How many subvolumes there may be.
const MAX_SUBVOLUMES: usize = 4096;

/// The current id of a subvolume with its record, and the subvolume's root.
#[derive(Clone, Copy)]
pub(crate) struct Leaf {
    pub id: u32,
    pub root: u64,
    pub snap: Snap,
}

/// The subvolumes whose names share the slot of this one. It makes one look.
pub(crate) fn subs_at<V: View>(alloc: Global, view: &mut V, name: &Bytes) -> Result<SubList, Hold>
    ensures subs { IfOk result (λ subs. (keys : KeyMap) → GivesLooks keys (V.made view.new)
        → subs ≡ subs_in keys (slot_of name.now)) }
    ensures looks { GoesOn (V.made view.old) (V.made view.new) }
    ensures ids { V.told view.new ≡ V.told view.old }
    ensures cause { IfErr result (V.held view.new) }
{
    let value = value_at_slot(view, slot(name.as_slice()))?;
    Ok(subs_of(alloc, value))
}

// The value that holds the subvolumes of a slot.
fn value_at_slot<V: View>(view: &mut V, slot: u64) -> Result<Option<Value>, Hold>
    ensures value { IfOk result (λ value. (keys : KeyMap) → GivesLooks keys (V.made view.new)
        → value ≡ value_in keys Subvols (record { inode = 0; offset = slot; snapshot = 0 })) }
    ensures looks { GoesOn (V.made view.old) (V.made view.new) }
    ensures ids { V.told view.new ≡ V.told view.old }
    ensures cause { IfErr result (V.held view.new) }
{
    let pos = Pos {
        inode: 0,
        offset: slot,
        snapshot: 0,
    };
    let mut answer = view.look(&Query::At {
        btree: Btree::Subvols,
        pos,
    })?;
    Ok(value_in_key(answer.pop()))
}

// The value of a key, if there is one.
fn value_in_key(key: Option<Key>) -> Option<Value>
    ensures { result ≡ value_in_key key }
{
    match key {
        None => None,
        Some(key) => key.value,
    }
}

/// The subvolumes that a value holds.
pub(crate) fn subs_of(alloc: Global, value: Option<Value>) -> SubList
    ensures { result ≡ subs_of value }
{
    match value {
        Some(Value::Subs(subs)) => subs,
        _ => SubList::new(alloc),
    }
}

/// The value that holds some subvolumes; none where there is none.
pub(crate) fn subs_value(subs: SubList) -> Option<Value>
    ensures { result ≡ subs_value subs }
{
    if subs.is_empty() {
        return None;
    }
    Some(Value::Subs(subs))
}

/// The leaf of the subvolume of a name among those of a slot, where the name has one and its id has a record.
pub(crate) fn leaf_among(tree: &SnapTree, subs: &[Sub], name: &[u8]) -> Option<Leaf>
    ensures { result ≡ leaf_among tree.now name.now subs.now }
{
    let sub = sub_among(subs, name)?;
    let snap = tree.get(sub.id)?;
    Some(Leaf {
        id: sub.id,
        root: sub.root,
        snap,
    })
}

// The subvolume of a name among those of a slot.
fn sub_among<'a>(subs: &'a [Sub], name: &[u8]) -> Option<&'a Sub>
    ensures { option_copied result ≡ sub_of name.now subs.now }
{
    subs.iter().find(|sub| is_named(sub, name))
}

/// Whether a slot takes a new subvolume of a name where there are so many live leaves, or why not.
pub(crate) fn room_among(name: &[u8], subs: &[Sub], leaves: usize) -> Result<(), Cause>
    ensures { result ≡ room_among name.now subs.now leaves }
{
    if sub_among(subs, name).is_some() {
        return Err(Cause::Exists);
    }
    if subs.len() >= NAMES_PER_SLOT {
        return Err(Cause::Crowded);
    }
    if leaves >= MAX_SUBVOLUMES {
        return Err(Cause::TooMany);
    }
    Ok(())
}

/// The subvolumes of a slot with a further one, in the order of their names.
pub(crate) fn with_sub(subs: SubList, sub: Sub) -> Result<SubList, AllocError>
    ensures { IfOk result (λ all. all ≡ with_sub sub subs) }
{
    let place = place_among(sub.name.as_slice(), subs.as_slice());
    let mut members = Vec::from(subs);
    members.insert(place, sub)?;
    Ok(SubList::from(members))
}

// The place of the first subvolume whose name is above this one, or behind all.
#[tactic(auto, using(crate::proofs::Listed::place_or_end, crate::proofs::Listed::place_within))]
fn place_among(name: &[u8], subs: &[Sub]) -> usize
    ensures place { result ≡ position_or_len (λ sub. is_lt (name_cmp name.now sub.name)) subs.now }
    ensures within { result ≤ length subs.now }
{
    first_above(name, subs).unwrap_or(subs.len())
}

fn first_above(name: &[u8], subs: &[Sub]) -> Option<usize>
    ensures { result ≡ position (λ sub. is_lt (name_cmp name.now sub.name)) subs.now }
{
    subs.iter().position(|sub| is_below(name, sub))
}

/// The subvolumes of a slot but that of a name.
pub(crate) fn without_sub(subs: SubList, name: &[u8]) -> SubList
    ensures { result ≡ without_sub name.now subs }
{
    let mut members = Vec::from(subs);
    members.retain(|sub| !is_named(sub, name));
    SubList::from(members)
}

/// The subvolumes of a slot, where that of a name goes on in another id.
pub(crate) fn with_moved(
    alloc: Global,
    subs: SubList,
    name: &[u8],
    id: u32,
) -> Result<SubList, AllocError>
    ensures { IfOk result (λ all. all ≡ with_moved name.now id subs) }
{
    let members: Vec<Sub> = Vec::from(subs)
        .into_iter()
        .map(|sub| moved_if(sub, name, id))
        .collect(alloc)?;
    Ok(SubList::from(members))
}

// A subvolume, which goes on in another id if it has the name.
fn moved_if(sub: Sub, name: &[u8], id: u32) -> Sub
    ensures { result ≡ (if is_eq (name_cmp name.now sub.name) then moved_to id sub else sub) }
{
    if is_named(&sub, name) {
        return Sub { id, ..sub };
    }
    sub
}

/// The copy of a subvolume under a name of its own, in an id and with a lock of its own.
pub(crate) fn copied_to(
    alloc: Global,
    leaf: Leaf,
    id: u32,
    name: &Bytes,
    locked: bool,
) -> Result<Sub, AllocError>
    ensures { IfOk result (λ copy. (sub : ASub) → sub.root ≡ leaf.root
        → copy ≡ copied_to id name.now locked sub) }
{
    Ok(Sub {
        id,
        root: leaf.root,
        read_only: locked,
        name: name.copy(alloc)?,
    })
}

// Whether a subvolume has the name.
fn is_named(sub: &Sub, name: &[u8]) -> bool
    ensures { result ≡ is_eq (name_cmp name.now sub.now.name) }
{
    name.cmp(sub.name.as_slice()).is_eq()
}

// Whether a name is below that of a subvolume.
fn is_below(name: &[u8], sub: &Sub) -> bool
    ensures { result ≡ is_lt (name_cmp name.now sub.now.name) }
{
    name.cmp(sub.name.as_slice()).is_lt()
}
