ghost use Rattle.std.specs.Prelude.{◌≡◌, ◌≤◌, ◌∷◌, [], ℕ, List, OnOk, IfErr, IfOk, IfSome, map, option_map, if◌then◌else◌};
ghost use Rattle.forest_ops.specs.Steps.{flagged_subvolume};
ghost use Rattle.key_meaning.specs.Forest.{Read, forest_in, sub_named};
ghost use Rattle.key_meaning.specs.Tidy.{AreKeysDrawn, AreNamesGood, IsTidy};
ghost use Rattle.key_view.specs.Holds.{IsCause};
ghost use Rattle.key_view.specs.Seen.{GoesOn};
ghost use Rattle.subvol_ops.specs.Listing.{HasNext, flag_of, flagged_name, slot_of_key, with_subs};
ghost use Rattle.vol_types.specs.KeyMaps.{GivesLooks, IsKeyMap, KeyMap};
ghost use Rattle.vol_types.specs.Maps.{IsMap, value_at};
ghost use Rattle.vol_types.specs.Ranges.{name_cmp};
ghost use Rattle.vol_types.specs.declared.values.Sub.{Sub as ASub};

use crate::slots::subs_of;
use key_view::{Hold, View};
use std::alloc::{AllocError, Global};
use std::collections::BTreeMap;
use vol_types::{Btree, Bytes, FlagList, FlaggedName, Key, Pos, Query, Sub, SubList};

/// A slot, and its subvolumes.
#[derive(Drop)]
pub(crate) struct Entry {
    pub slot: u64,
    pub subs: SubList,
}

/// The subvolumes, rising by the bytes of their names, each with 1 where it may only be read, and else 0. It makes a look for each slot
/// that has some, and one more, and takes memory for the names.
pub fn list_subvolumes<V: View>(alloc: Global, view: &mut V) -> Result<FlagList, Hold>
    ensures names { IfOk result (λ names. (keys : KeyMap) (read : Read)
        → GivesLooks keys (V.made view.new) → IsKeyMap keys → IsTidy keys
        → names ≡ map flagged_subvolume (forest_in keys read).subvolumes) }
    ensures looks { GoesOn (V.made view.old) (V.made view.new) }
    ensures ids { V.told view.new ≡ V.told view.old }
    ensures cause { IfErr result (IsCause (V.held view.new)) }
{
    let flags = flags_in(alloc, view)?;
    Ok(list_of(alloc, flags)?)
}

// The names of a map with their flags, as a list.
fn list_of(alloc: Global, flags: BTreeMap<Bytes, u8>) -> Result<FlagList, AllocError>
    ensures list { IfOk result (λ list. list ≡ map flagged_name flags.entries) }
    ensures rises { IsMap name_cmp flags.entries }
{
    let mut list = FlagList::new(alloc);
    for (name, flag) in flags {
        list.push(FlaggedName { name, flag })?;
    }
    Ok(list)
}

// The subvolumes with their flags.
#[tactic(auto, using(path_plan::specs::LookLaws::looks_then))]
fn flags_in<V: View>(alloc: Global, view: &mut V) -> Result<BTreeMap<Bytes, u8>, Hold>
    ensures flags { IfOk result (λ flags. (keys : KeyMap)
        → GivesLooks keys (V.made view.new) → IsKeyMap keys → AreKeysDrawn keys → AreNamesGood keys
        → (name : List ℕ) → value_at name_cmp name flags.entries
        ≡ option_map flag_of (sub_named keys name)) }
    ensures looks { GoesOn (V.made view.old) (V.made view.new) }
    ensures ids { V.told view.new ≡ V.told view.old }
    ensures cause { IfErr result (IsCause (V.held view.new)) }
{
    let mut flags = BTreeMap::new(alloc);
    let mut from = 0;
    loop {
        let Some(entry) = next_subs(alloc, view, from)? else {
            return Ok(flags);
        };
        let Entry { slot, subs } = entry;
        put_subs(&mut flags, subs)?;
        if slot == u64::MAX {
            return Ok(flags);
        }
        from = slot + 1;
    }
}

// The first slot from a number on that has subvolumes, with these. It makes one look.
fn next_subs<V: View>(alloc: Global, view: &mut V, from: u64) -> Result<Option<Entry>, Hold>
    ensures next { IfOk result (λ next. (keys : KeyMap) → GivesLooks keys (V.made view.new)
        → IsKeyMap keys → AreKeysDrawn keys → HasNext keys from next) }
    ensures above { IfOk result (λ next. IfSome next (λ entry. from ≤ entry.slot)) }
    ensures looks { GoesOn (V.made view.old) (V.made view.new) }
    ensures ids { V.told view.new ≡ V.told view.old }
    ensures cause { IfErr result (V.held view.new) }
{
    let pos = Pos {
        inode: 0,
        offset: from,
        snapshot: 0,
    };
    let mut answer = view.look(&Query::Starting {
        btree: Btree::Subvols,
        pos,
    })?;
    Ok(slot_of_key(alloc, from, answer.pop()))
}

// The slot of a key with the subvolumes that it holds, where it isn't before a slot.
fn slot_of_key(alloc: Global, from: u64, key: Option<Key>) -> Option<Entry>
    ensures { result ≡ slot_of_key from key }
{
    let Some(Key { pos, value }) = key else {
        return None;
    };
    if pos.offset < from {
        return None;
    }
    Some(Entry {
        slot: pos.offset,
        subs: subs_of(alloc, value),
    })
}

// Puts subvolumes among others; of two that are equal the first stays.
fn put_subs(flags: &mut BTreeMap<Bytes, u8>, subs: SubList) -> Result<(), AllocError>
    ensures { OnOk result (flags.new.entries ≡ with_subs subs flags.old.entries) }
{
    let mut left = subs;
    while let Some(sub) = left.pop() {
        put_sub(flags, sub)?;
    }
    Ok(())
}

// Puts a subvolume among others.
fn put_sub(flags: &mut BTreeMap<Bytes, u8>, sub: Sub) -> Result<(), AllocError>
    ensures { OnOk result (flags.new.entries ≡ with_subs (sub ∷ []) flags.old.entries) }
{
    let Sub {
        id: _,
        root: _,
        read_only,
        name,
    } = sub;
    flags.insert(name, flag_of(read_only))?;
    Ok(())
}

// The flag of a subvolume: 1 where it may only be read, and else 0.
fn flag_of(read_only: bool) -> u8
    ensures { result ≡ (if read_only then 1 else 0) }
{
    if read_only {
        return 1;
    }
    0
}
