ghost use Rattle.std.specs.Prelude.{◌≡◌, IfErr, IfOk, OnOk, map};
ghost use Rattle.key_triggers.specs.Positions.{bucket_pos};
ghost use Rattle.key_triggers.specs.Tallies.{counted, counted_values, live_after, live_update, state_update, tally_at, tally_more};
ghost use Rattle.key_meaning.specs.Checks.{live_of};
ghost use Rattle.key_view.specs.Holds.{IsCause};
ghost use Rattle.key_view.specs.Seen.{GoesOn};
ghost use Rattle.vol_types.specs.KeyMaps.{GivesLooks, KeyMap, value_in};
ghost use Rattle.vol_types.specs.declared.positions.Btree.TheVariants.{Alloc};

use crate::looks::value_at;
use crate::values::{blocks_in, bucket_pos, pointers_in};
use key_view::{Hold, View};
use std::alloc::{AllocError, Global};
use std::collections::BTreeMap;
use vol_types::{Btree, Live, Pointer, Pos, Update, Updates, Value};

/// How many blocks of a bucket some values no longer use, and how many others come to use.
#[derive(Clone, Copy, PartialEq, Eq)]
pub struct Tally {
    pub taken: u64,
    pub given: u64,
}

// So many blocks more.
fn tally_more(gives: bool, blocks: u64, tally: Tally) -> Tally
    ensures { result ≡ tally_more gives blocks tally }
{
    if gives {
        return Tally {
            taken: tally.taken,
            given: tally.given.saturating_add(blocks),
        };
    }
    Tally {
        taken: tally.taken.saturating_add(blocks),
        given: tally.given,
    }
}

// Counts the blocks behind pointers, each in its bucket.
fn count(
    tallies: &mut BTreeMap<Pos, Tally>,
    gives: bool,
    blocks: u64,
    pointers: &[Pointer],
) -> Result<(), AllocError>
    ensures { OnOk result (tallies.new.entries ≡ counted gives blocks pointers.now
        tallies.old.entries) }
{
    for pointer in pointers.iter() {
        let bucket = bucket_pos(pointer.place);
        let tally = tally_at(tallies, &bucket);
        tallies.insert(bucket, tally_more(gives, blocks, tally))?;
    }
    Ok(())
}

// What was counted for a bucket.
fn tally_at(tallies: &BTreeMap<Pos, Tally>, bucket: &Pos) -> Tally
    ensures { result ≡ tally_at bucket.now tallies.now.entries }
{
    match tallies.get(bucket) {
        None => Tally { taken: 0, given: 0 },
        Some(tally) => *tally,
    }
}

/// Counts the blocks that values use, as taken or as given.
pub fn count_values(
    tallies: &mut BTreeMap<Pos, Tally>,
    gives: bool,
    values: &BTreeMap<Pos, Option<Value>>,
) -> Result<(), AllocError>
    ensures { OnOk result (tallies.new.entries ≡ counted_values gives values.now.entries
        tallies.old.entries) }
{
    for (_, value) in values.iter() {
        let blocks = blocks_in(value.as_ref());
        count(tallies, gives, blocks, pointers_in(value.as_ref()))?;
    }
    Ok(())
}

// A bucket's state after so many of its blocks were taken and given.
fn live_after(live: Option<Live>, tally: Tally) -> Live
    ensures { result ≡ live_after live tally }
{
    let before = live.unwrap_or(Live {
        generation: 0,
        blocks: 0,
    });
    let blocks = u64::from(before.blocks)
        .saturating_add(tally.given)
        .saturating_sub(tally.taken)
        .min(16) as u8;
    let emptied = before.blocks > 0 && blocks == 0;
    Live {
        generation: if emptied {
            before.generation.saturating_add(1)
        } else {
            before.generation
        },
        blocks,
    }
}

// The state of a bucket that a value holds.
fn live_of(value: Option<Value>) -> Option<Live>
    ensures { result ≡ live_of value }
{
    match value {
        Some(Value::Live(live)) => Some(live),
        _ => None,
    }
}

/// The state of a bucket. It makes one look.
pub fn live_at<V: View>(view: &mut V, bucket: Pos) -> Result<Option<Live>, Hold>
    ensures live { IfOk result (λ live. (keys : KeyMap) → GivesLooks keys (V.made view.new)
        → live ≡ live_of (value_in keys Alloc bucket)) }
    ensures looks { GoesOn (V.made view.old) (V.made view.new) }
    ensures ids { V.told view.new ≡ V.told view.old }
    ensures cause { IfErr result (V.held view.new) }
{
    Ok(live_of(value_at(view, Btree::Alloc, bucket)?))
}

/// The updates after which each bucket that was counted has its new state. It makes one look for each.
pub fn live_updates<V: View>(
    alloc: Global,
    view: &mut V,
    tallies: &BTreeMap<Pos, Tally>,
) -> Result<Updates, Hold>
    ensures updates { IfOk result (λ updates. (keys : KeyMap) → GivesLooks keys (V.made view.new)
        → updates ≡ map (live_update keys) tallies.now.entries) }
    ensures looks { GoesOn (V.made view.old) (V.made view.new) }
    ensures ids { V.told view.new ≡ V.told view.old }
    ensures cause { IfErr result (IsCause (V.held view.new)) }
{
    let mut updates = Updates::new(alloc);
    for (bucket, tally) in tallies.iter() {
        let live = live_at(view, *bucket)?;
        updates.push(live_update(*bucket, live_after(live, *tally)))?;
    }
    Ok(updates)
}

// The update after which a bucket has this state.
fn live_update(bucket: Pos, live: Live) -> Update
    ensures { result ≡ state_update bucket live }
{
    Update {
        btree: Btree::Alloc,
        level: 0,
        pos: bucket,
        value: Some(Value::Live(live)),
    }
}
