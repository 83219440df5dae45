ghost use Rattle.std.specs.Prelude.{◌≡◌, ◌-◌, ◌++◌, ◌∷◌, [], IfOk, OnOk, map};
ghost use Rattle.extent_ops.specs.Content.{AreOfContent};
ghost use Rattle.extent_ops.specs.Cutting.{change_of, collected, cut_all, cut_key, does_reach, has_whole, is_kept, is_whole, left_parts, put_part, removed, stretch_of, update_at, updates_of};
ghost use Rattle.key_meaning.specs.Blocks.{blocks_of};
ghost use Rattle.extent_ops.specs.Stretches.{RiseFrom, outside};

use crate::parts::{blocks_of, part_of};
use crate::stretches::{Stretch, Stretches, outside, place_behind};
use std::alloc::{AllocError, Global};
use std::collections::BTreeMap;
use vol_types::{Btree, Duplicate, Key, Listing, Pos, Update, Updates, Value};

/// What the position with this end gets in an id: a value, or none where what stands there goes.
#[derive(Drop)]
pub(crate) struct Change {
    pub end: u64,
    pub value: Option<Value>,
}

/// A list of changes.
pub(crate) type Changes = Listing<Change>;

/// The changes that leave of the keys of an id what lies outside of some stretches, which rise. Keys of which nothing lies in
/// them get none. Each key of the id costs a logarithm of the number of stretches, and what is cut of it.
pub(crate) fn cut_all(
    alloc: Global,
    keys: &[Key],
    id: u32,
    stretches: &[Stretch],
) -> Result<Changes, AllocError>
    ensures { RiseFrom 0 stretches.now
        → IfOk result (λ changes. changes ≡ cut_all id stretches.now keys.now) }
{
    let mut changes = Changes::new(alloc);
    for key in keys {
        cut_key(alloc, &mut changes, key, id, stretches)?;
    }
    Ok(changes)
}

fn cut_key(
    alloc: Global,
    changes: &mut Changes,
    key: &Key,
    id: u32,
    stretches: &[Stretch],
) -> Result<(), AllocError>
    ensures { RiseFrom 0 stretches.now
        → OnOk result (changes.new ≡ changes.old ++ cut_key id stretches.now key.now) }
{
    if key.pos.snapshot != id {
        return Ok(());
    }
    let Some(value) = &key.value else {
        return Ok(());
    };
    let parts = parts_left(alloc, key.pos.offset, value, stretches)?;
    push_parts(alloc, changes, key.pos.offset, value, parts.as_slice())
}

// What of a value lies outside of some stretches.
fn parts_left(
    alloc: Global,
    end: u64,
    value: &Value,
    stretches: &[Stretch],
) -> Result<Stretches, AllocError>
    ensures { RiseFrom 0 stretches.now → IfOk result (λ parts.
        parts ≡ outside (end - blocks_of value.now) end stretches.now) }
{
    let first = end.saturating_sub(blocks_of(value));
    let (_, behind) = stretches.split_at(place_behind(stretches, first));
    outside(alloc, first, end, behind)
}

// Adds the changes that leave some parts of a value.
fn push_parts(
    alloc: Global,
    changes: &mut Changes,
    end: u64,
    value: &Value,
    parts: &[Stretch],
) -> Result<(), AllocError>
    ensures { OnOk result (changes.new ≡ changes.old
        ++ left_parts (end - blocks_of value.now) end value.now parts.now) }
{
    let first = end.saturating_sub(blocks_of(value));
    if is_kept(first, end, parts) {
        return Ok(());
    }
    push_cuts(alloc, changes, first, end, value, parts)
}

// Whether a value that covers the blocks from one up to an end stays as it is, where these parts of it are left.
fn is_kept(first: u64, end: u64, parts: &[Stretch]) -> bool
    ensures { result ≡ is_kept first end parts.now }
{
    if end <= first {
        return true;
    }
    has_whole(first, end, parts)
}

// Whether one of some parts is the whole.
fn has_whole(first: u64, end: u64, parts: &[Stretch]) -> bool
    ensures { result ≡ has_whole first end parts.now }
{
    parts.iter().any(|part| is_whole(first, end, part))
}

// Adds the changes that put some parts of a value, and the one that removes its end.
fn push_cuts(
    alloc: Global,
    changes: &mut Changes,
    first: u64,
    end: u64,
    value: &Value,
    parts: &[Stretch],
) -> Result<(), AllocError>
    ensures { OnOk result (changes.new ≡ changes.old
        ++ (map (put_part first value.now) parts.now ++ removed end parts.now)) }
{
    push_puts(alloc, changes, first, value, parts)?;
    push_removal(changes, end, parts)
}

// Adds the changes that put some parts of a value.
fn push_puts(
    alloc: Global,
    changes: &mut Changes,
    first: u64,
    value: &Value,
    parts: &[Stretch],
) -> Result<(), AllocError>
    ensures { OnOk result (changes.new ≡ changes.old ++ map (put_part first value.now) parts.now) }
{
    for part in parts {
        changes.push(put_part(alloc, first, value, part)?)?;
    }
    Ok(())
}

// Adds the change that removes what stands at an end, where no part has the same end.
fn push_removal(changes: &mut Changes, end: u64, parts: &[Stretch]) -> Result<(), AllocError>
    ensures { OnOk result (changes.new ≡ changes.old ++ removed end parts.now) }
{
    if does_reach(end, parts) {
        return Ok(());
    }
    changes.push(Change { end, value: None })?;
    Ok(())
}

// Whether a part has this end.
fn does_reach(end: u64, parts: &[Stretch]) -> bool
    ensures { result ≡ does_reach end parts.now }
{
    parts.iter().any(|part| part.end == end)
}

// Whether a part is the whole from one block up to an end.
fn is_whole(first: u64, end: u64, part: &Stretch) -> bool
    ensures { result ≡ is_whole first end part.now }
{
    part.first == first && part.end == end
}

// The change that puts a part of a value whose range begins at a block.
fn put_part(alloc: Global, first: u64, value: &Value, part: &Stretch) -> Result<Change, AllocError>
    ensures { IfOk result (λ change. change ≡ put_part first value.now part.now) }
{
    let skip = part.first.saturating_sub(first);
    let count = part.end.saturating_sub(part.first);
    Ok(Change {
        end: part.end,
        value: Some(part_of(alloc, skip, count, value)?),
    })
}

/// The stretches that keys cover.
pub(crate) fn stretches_of(alloc: Global, keys: &[Key]) -> Result<Stretches, AllocError>
    ensures { IfOk result (λ stretches. stretches ≡ map stretch_of keys.now) }
{
    let mut stretches = Stretches::new(alloc);
    for key in keys {
        stretches.push(stretch_of(key))?;
    }
    Ok(stretches)
}

fn stretch_of(key: &Key) -> Stretch
    ensures { result ≡ stretch_of key.now }
{
    let end = key.pos.offset;
    match &key.value {
        None => Stretch { first: end, end },
        Some(value) => Stretch {
            first: end.saturating_sub(blocks_of(value)),
            end,
        },
    }
}

/// The changes that put keys.
pub(crate) fn changes_of(alloc: Global, keys: &[Key]) -> Result<Changes, AllocError>
    ensures { IfOk result (λ changes. changes ≡ map change_of keys.now) }
{
    let mut changes = Changes::new(alloc);
    for key in keys {
        changes.push(Change {
            end: key.pos.offset,
            value: key.value.copy(alloc)?,
        })?;
    }
    Ok(changes)
}

/// The updates that make changes to a file in an id, in the order of their ends; of those with one end the last one counts.
pub(crate) fn updates_of(
    alloc: Global,
    file: u64,
    id: u32,
    changes: Changes,
) -> Result<Updates, AllocError>
    ensures are { IfOk result (λ updates. updates ≡ updates_of file id changes) }
    ensures own { IfOk result (AreOfContent id) }
{
    let entries = collected(alloc, changes)?;
    listed(alloc, file, id, entries)
}

// The updates that make changes at their ends.
fn listed(
    alloc: Global,
    file: u64,
    id: u32,
    mut entries: BTreeMap<u64, Option<Value>>,
) -> Result<Updates, AllocError>
    ensures { IfOk result (λ updates. updates ≡ map (update_at file id) entries.entries) }
{
    let mut updates = Updates::new(alloc);
    while let Some((end, value)) = entries.pop_first() {
        updates.push(Update {
            btree: Btree::Extents,
            level: 0,
            pos: Pos {
                inode: file,
                offset: end,
                snapshot: id,
            },
            value,
        })?;
    }
    Ok(updates)
}

fn collected(alloc: Global, changes: Changes) -> Result<BTreeMap<u64, Option<Value>>, AllocError>
    ensures { IfOk result (λ entries. entries.entries ≡ collected [] changes) }
{
    let mut entries = BTreeMap::new(alloc);
    for change in Vec::from(changes) {
        put(&mut entries, change)?;
    }
    Ok(entries)
}

fn put(entries: &mut BTreeMap<u64, Option<Value>>, change: Change) -> Result<(), AllocError>
    ensures { OnOk result (entries.new.entries ≡ collected entries.old.entries (change ∷ [])) }
{
    entries.insert(change.end, change.value)?;
    Ok(())
}
