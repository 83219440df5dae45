ghost use Rattle.std.specs.Prelude.{◌≡◌, ℕ, ◌<◌, ◌≤◌, [], None, All, IfOk, IsSome, OnErr, OnOk, Some, length, map, option_copied, slice_index_or, slice_set, unwrap_or};
ghost use Rattle.btree_map.specs.Applied.{AreMade, ArePlanned, noted, value_noted, values_before};
ghost use Rattle.btree_map.specs.Trees.{AreCuts, cut_of, keys_of_cuts, no_cut};
ghost use Rattle.node_mem.specs.Nodes.{with_keys};
ghost use Rattle.tree_keys.specs.Changes.{fresh_positions, keys_with, made, placed};
ghost use Rattle.tree_keys.specs.Cuts.{IsCut, with_entries};
ghost use Rattle.vol_types.specs.KeyMaps.{with_updates};
ghost use Rattle.vol_types.specs.Maps.{value_at};
ghost use Rattle.vol_types.specs.Positions.{pos_cmp};
ghost use Rattle.vol_types.specs.Ranges.{IsKeyValue};
ghost use Rattle.vol_types.specs.declared.positions.Btree.{Btree as ABtree};
ghost use Rattle.vol_types.specs.declared.positions.Pos.{Pos as APos};
ghost use Rattle.vol_types.specs.declared.values.Value.{Value as AValue};

use std::alloc::{AllocError, Global};
use tree_keys::{LastValues, TreeKeys, changes_are_made};
use vol_types::{Listing, Pos, Update, Value};

/// What updates come to in each btree, and the value that each one's position had before it.
#[derive(Drop)]
struct Planned {
    last: Vec<LastValues>,
    before: Listing<Option<Value>>,
}

/// Makes updates to the keys of btrees, all of them or none, and gives for each the value that its position had before
/// it. Those of levels above the leaves are passed over. The leaves stay.
pub(crate) fn apply(
    alloc: Global,
    keys: &mut Vec<TreeKeys>,
    updates: &[Update],
) -> Result<Listing<Option<Value>>, AllocError>
    requires cuts { AreCuts keys.old.items }
    requires in_range { All (λ update. IsKeyValue update.value) updates.now }
    ensures keys { OnOk result (keys_of_cuts keys.new.items ≡ with_updates updates.now
        (keys_of_cuts keys.old.items)) }
    ensures leaves { OnOk result ((btree : ABtree) → (cut_of keys.new.items btree).ends
        ≡ (cut_of keys.old.items btree).ends) }
    ensures sound { OnOk result (AreCuts keys.new.items) }
    ensures before { IfOk result (λ before. before ≡ values_before updates.now
        (keys_of_cuts keys.old.items)) }
    ensures err { OnErr result (keys.new.items ≡ keys.old.items) }
{
    let Planned { last, before } = plan(alloc, keys.as_slice(), updates)?;
    make_all(alloc, keys, last)?;
    Ok(before)
}

// Works out what updates come to, without making them.
fn plan(alloc: Global, keys: &[TreeKeys], updates: &[Update]) -> Result<Planned, AllocError>
    requires cuts { AreCuts keys.now }
    requires in_range { All (λ update. IsKeyValue update.value) updates.now }
    ensures { IfOk result (λ planned. ArePlanned (keys_of_cuts keys.now) updates.now
        planned.last.items planned.before) }
{
    let mut last = no_values(alloc, keys)?;
    let mut before = Listing::new(alloc);
    for update in updates {
        let value = note(alloc, keys, &mut last, update)?;
        before.push(value)?;
    }
    Ok(Planned { last, before })
}

// For each btree no positions.
fn no_values(alloc: Global, keys: &[TreeKeys]) -> Result<Vec<LastValues>, AllocError>
    ensures { IfOk result (λ last. last.items ≡ map (λ _. []) keys.now) }
{
    let mut last = Vec::new(alloc);
    for _ in keys {
        last.push(LastValues::new(alloc))?;
    }
    Ok(last)
}

// Notes an update in its btree, where it isn't of a level above the leaves, and gives the value that its position had
// before it.
fn note(
    alloc: Global,
    keys: &[TreeKeys],
    last: &mut Vec<LastValues>,
    update: &Update,
) -> Result<Option<Value>, AllocError>
    requires count { length keys.now ≡ 9 }
    requires last_count { length last.old.items ≡ 9 }
    requires in_range { IsKeyValue update.now.value }
    ensures ok { OnOk result (last.new.items ≡ noted update.now last.old.items) }
    ensures before { IfOk result (λ before. before ≡ value_noted update.now last.old.items
        (keys_of_cuts keys.now)) }
{
    if update.level > 0 {
        return Ok(None);
    }
    let code = usize::from(update.btree.code());
    let values = &mut last[code];
    values.note(alloc, &keys[code], &update.pos, update.value.as_ref())
}

// Gives each position of the first btrees its last value, in all of them or in none.
fn make_all(
    alloc: Global,
    keys: &mut Vec<TreeKeys>,
    last: Vec<LastValues>,
) -> Result<(), AllocError>
    requires count { length last.items ≤ length keys.old.items }
    requires cuts { (code : ℕ) → code < length last.items
        → IsCut (slice_index_or keys.old.items code no_cut) }
    ensures ok { OnOk result (AreMade last.items keys.old.items keys.new.items) }
    ensures sound { OnOk result ((code : ℕ) → code < length last.items
        → IsCut (slice_index_or keys.new.items code no_cut)) }
    ensures err { OnErr result (keys.new.items ≡ keys.old.items) }
{
    let mut last = last;
    let Some(values) = last.pop() else {
        return Ok(());
    };
    let code = last.len();
    let fresh = take_room(alloc, keys, code, &values)?;
    match make_all(alloc, keys, last) {
        Err(error) => {
            give_room_back(keys, code, fresh.as_slice());
            Err(error)
        }
        Ok(()) => {
            make(keys, code, values);
            Ok(())
        }
    }
}

// Takes the memory for the last values of a btree, and gives the positions that have none so far.
fn take_room(
    alloc: Global,
    keys: &mut Vec<TreeKeys>,
    code: usize,
    values: &LastValues,
) -> Result<Vec<Pos>, AllocError>
    requires { code < length keys.old.items }
    ensures ok { OnOk result (keys.new.items ≡ slice_set keys.old.items code
        (placed values.now (slice_index_or keys.old.items code no_cut))) }
    ensures positions { IfOk result (λ fresh. fresh.items ≡ fresh_positions values.now
        (slice_index_or keys.old.items code no_cut).entries) }
    ensures err { OnErr result (keys.new.items ≡ keys.old.items) }
{
    let tree = &mut keys[code];
    tree.take_room(alloc, values)
}

// Takes away what is at each of the positions of a btree.
fn give_room_back(keys: &mut Vec<TreeKeys>, code: usize, positions: &[Pos])
    requires { code < length keys.old.items }
    ensures { keys.new.items ≡ slice_set keys.old.items code
        (with_entries (slice_index_or keys.old.items code no_cut)
        (with_keys (keys_with None positions.now)
        (slice_index_or keys.old.items code no_cut).entries)) }
{
    let tree = &mut keys[code];
    tree.give_room_back(positions);
}

// Gives each position of a btree its last value. The memory for it was taken.
fn make(keys: &mut Vec<TreeKeys>, code: usize, values: LastValues)
    requires there { code < length keys.old.items }
    requires placed { (pos : APos) (value : AValue) → value_at pos_cmp pos values ≡ Some
        (Some value) → IsSome (value_at pos_cmp pos
        (slice_index_or keys.old.items code no_cut).entries) }
    ensures made { keys.new.items ≡ slice_set keys.old.items code
        (made values (slice_index_or keys.old.items code no_cut)) }
    ensures sound { IsCut (slice_index_or keys.new.items code no_cut) }
{
    let tree = &mut keys[code];
    tree.make(values);
}
