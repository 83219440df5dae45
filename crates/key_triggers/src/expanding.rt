ghost use Rattle.std.specs.Prelude.{◌≡◌, ◌≤◌, [], All, List, IfErr, IfOk, length, map};
ghost use Rattle.key_triggers.specs.Bounds.{most_expanded};
ghost use Rattle.key_triggers.specs.Owners.{held_by, left_by, owner_update};
ghost use Rattle.key_triggers.specs.Expanding.{expanded};
ghost use Rattle.key_triggers.specs.Follows.{Follows, IsExpanded, MayFollow};
ghost use Rattle.key_view.specs.Holds.{IsCause};
ghost use Rattle.key_view.specs.Seen.{GoesOn};
ghost use Rattle.vol_types.specs.KeyMaps.{GivesLooks, KeyMap, with_updates};
ghost use Rattle.vol_types.specs.Standing.{IsUpdate};
ghost use Rattle.vol_types.specs.declared.layout.Layout.{Layout};
ghost use Rattle.vol_types.specs.declared.pointers.Place.{Place as APlace};

use crate::changes::{values_after, values_before};
use crate::laws::expanded_keys_follow;
use crate::owners::{hold, leave, owner_updates};
use crate::stamps::stamp_all;
use crate::tallies::{count_values, live_updates};
use key_view::{Hold, View};
use std::alloc::{AllocError, Global};
use std::collections::BTreeMap;
use vol_types::{Pos, Update, Updates, Value};

/// The updates of a plan, with those of the keys on space that follow from them. Each pointer of an extent that is put gets the
/// present generation of its bucket. The key of a bucket in use says how many of its blocks are, and where that falls to 0 the
/// bucket gets the next generation, if there is one; the key of a block at which a copy of an extent begins leads to the extent.
/// There are at most two more for each pointer of an extent that goes or comes, one of its bucket and one of its block.
///
/// It makes one look for each update of an extent, one for each pointer that is put, and one for each bucket whose blocks come
/// or go; no look costs more than a logarithm. It takes memory for the updates and for what they change.
pub fn expand<V: View>(alloc: Global, view: &mut V, updates: &Updates) -> Result<Updates, Hold>
    ensures are { IfOk result (λ all. (keys : KeyMap) → GivesLooks keys (V.made view.new)
        → all ≡ expanded keys updates.now) }
    ensures expanded { IfOk result (λ all. (keys : KeyMap) → GivesLooks keys (V.made view.new)
        → IsExpanded keys updates.now all) }
    ensures follows { IfOk result (λ all. (keys : KeyMap) (nodes : List APlace) (layout : Layout)
        → GivesLooks keys (V.made view.new) → MayFollow keys updates.now nodes layout
        → Follows keys (with_updates all keys) updates.now nodes layout) }
    // Those that may be made stay so, where a key map gives the looks.
    ensures fits { IfOk result (λ all. (keys : KeyMap) → GivesLooks keys (V.made view.new)
        → All IsUpdate updates.now → All IsUpdate all) }
    ensures few { IfOk result (λ all. (keys : KeyMap) → GivesLooks keys (V.made view.new)
        → length all ≤ most_expanded keys updates.now) }
    ensures looks { GoesOn (V.made view.old) (V.made view.new) }
    ensures ids { V.told view.new ≡ V.told view.old }
    ensures cause { IfErr result (IsCause (V.held view.new)) }
{
    expanded_keys_follow();
    expanded(alloc, view, updates.as_slice())
}

// The updates with what follows from them.
fn expanded<V: View>(alloc: Global, view: &mut V, updates: &[Update]) -> Result<Updates, Hold>
    ensures updates { IfOk result (λ all. (keys : KeyMap) → GivesLooks keys (V.made view.new)
        → all ≡ expanded keys updates.now) }
    ensures looks { GoesOn (V.made view.old) (V.made view.new) }
    ensures ids { V.told view.new ≡ V.told view.old }
    ensures cause { IfErr result (IsCause (V.held view.new)) }
{
    let before = values_before(alloc, view, updates)?;
    let after = values_after(alloc, updates)?;
    let mut tallies = BTreeMap::new(alloc);
    count_values(&mut tallies, false, &before)?;
    count_values(&mut tallies, true, &after)?;
    let mut all = stamp_all(alloc, view, updates)?;
    let mut lives = live_updates(alloc, view, &tallies)?;
    let mut owners = owners_of(alloc, &before, &after)?;
    all.append(&mut lives)?;
    all.append(&mut owners)?;
    Ok(all)
}

// The updates of the keys of blocks.
fn owners_of(
    alloc: Global,
    before: &BTreeMap<Pos, Option<Value>>,
    after: &BTreeMap<Pos, Option<Value>>,
) -> Result<Updates, AllocError>
    ensures { IfOk result (λ updates. updates ≡ map owner_update (held_by after.now.entries
        (left_by before.now.entries []))) }
{
    let mut owners = BTreeMap::new(alloc);
    leave(&mut owners, before)?;
    hold(&mut owners, after)?;
    owner_updates(alloc, &owners)
}
