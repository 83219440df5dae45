ghost use Rattle.std.specs.Prelude.{◌≡◌, [], All, IfOk, OnOk};
ghost use Rattle.std.specs.Map.{values_of};
ghost use Rattle.image_view.specs.Found.{updates_of};
ghost use Rattle.node_mem.specs.Nodes.{Node};
ghost use Rattle.image_reader.specs.Changes.{all_noted, changes_within, is_of_level, noted, with_changes};
ghost use Rattle.record_codec.specs.Entries.{IsEntryInRange};
ghost use Rattle.vol_types.specs.Maps.{put_at};
ghost use Rattle.vol_types.specs.Positions.{IsWithin, pos_cmp};
ghost use Rattle.vol_types.specs.Ranges.{IsKeyValue};
ghost use Rattle.vol_types.specs.Standing.{IsUpdate};

use journal_ring::FoundEntry;
use node_mem::NodeMem;
use std::alloc::{AllocError, Global};
use std::collections::{BTreeMap, btree_map};
use std::ops::Bound;
use vol_types::{Btree, Duplicate, Pos, Update, Value};

/// The last value that the updates of one level of a btree put at each position, or none where they take it away.
pub(crate) type Changes = BTreeMap<Pos, Option<Value>>;

fn is_of_level(btree: Btree, level: u8, update: &Update) -> bool
    ensures { result ≡ is_of_level btree level update.now }
{
    update.btree.code() == btree.code() && update.level == level
}

// Notes an update, if it is one of the level.
fn note(
    alloc: Global,
    changes: &mut Changes,
    btree: Btree,
    level: u8,
    update: &Update,
) -> Result<(), AllocError>
    requires update { IsUpdate update.now }
    requires before { All IsKeyValue (values_of changes.old.entries) }
    ensures ok { OnOk result (changes.new.entries ≡ noted btree level update.now
        changes.old.entries) }
    ensures in_range { OnOk result (All IsKeyValue (values_of changes.new.entries)) }
{
    if !is_of_level(btree, level, update) {
        return Ok(());
    }
    let value = update.value.copy(alloc)?;
    changes.insert(update.pos, value)?;
    Ok(())
}

// Notes updates in their order.
fn note_all(
    alloc: Global,
    changes: &mut Changes,
    btree: Btree,
    level: u8,
    updates: &[Update],
) -> Result<(), AllocError>
    requires updates { All IsUpdate updates.now }
    requires before { All IsKeyValue (values_of changes.old.entries) }
    ensures ok { OnOk result (changes.new.entries ≡ all_noted btree level updates.now
        changes.old.entries) }
    ensures in_range { OnOk result (All IsKeyValue (values_of changes.new.entries)) }
{
    for update in updates {
        note(alloc, changes, btree, level, update)?;
    }
    Ok(())
}

/// What the updates of the entries do to a level of a btree. It goes over all updates once, and copies those of the level.
pub(crate) fn changes_of(
    alloc: Global,
    entries: &[FoundEntry],
    btree: Btree,
    level: u8,
) -> Result<Changes, AllocError>
    requires in_range { All (λ found. IsEntryInRange found.entry) entries.now }
    ensures noted { IfOk result (λ changes. changes.entries ≡ all_noted btree level
        (updates_of entries.now) []) }
    ensures in_range { IfOk result (λ changes. All IsKeyValue (values_of changes.entries)) }
{
    let mut changes = BTreeMap::new(alloc);
    for found in entries {
        let updates = found.entry.updates.as_slice();
        note_all(alloc, &mut changes, btree, level, updates)?;
    }
    Ok(changes)
}

// The changes in the range from the least to the greatest position. There are none where the least is after the greatest.
fn changes_within<'a>(
    changes: &'a Changes,
    least: &Pos,
    greatest: &Pos,
) -> btree_map::Range<'a, Pos, Option<Value>>
    ensures { result ≡ changes_within least.now greatest.now changes.now.entries }
{
    if least > greatest {
        return changes.range(*least..*least);
    }
    changes.range((Bound::Included(*least), Bound::Included(*greatest)))
}

// Makes one change of a node.
fn make_change(
    alloc: Global,
    node: &mut NodeMem,
    pos: &Pos,
    value: &Option<Value>,
) -> Result<(), AllocError>
    requires covered { IsWithin node.old.least node.old.greatest pos.now }
    requires in_range { IsKeyValue value.now }
    ensures { OnOk result (node.new ≡ record {
      least = node.old.least;
      greatest = node.old.greatest;
      entries = put_at pos_cmp pos.now value.now node.old.entries;
    }) }
{
    node.put(pos, value.copy(alloc)?)?;
    Ok(())
}

/// The node with those changes made that are in its range. It takes a logarithm for each, and memory for its value.
pub(crate) fn with_changes(
    alloc: Global,
    mut node: NodeMem,
    changes: &Changes,
) -> Result<NodeMem, AllocError>
    requires in_range { All IsKeyValue (values_of changes.now.entries) }
    ensures { IfOk result (λ made. made ≡ record {
      least = node.least;
      greatest = node.greatest;
      entries = with_changes (changes_within node.least node.greatest changes.now.entries) node.entries;
    }) }
{
    for (pos, value) in changes_within(changes, &node.least(), &node.greatest()) {
        make_change(alloc, &mut node, pos, value)?;
    }
    Ok(node)
}
