ghost use Rattle.std.specs.Prelude.{◌≡◌, ◌+◌, ◌≤◌, ◌↔◌, IfOk, IsTrue, List};
ghost use Rattle.core_volume.specs.Commits.{AreIntended};
ghost use Rattle.core_actors.specs.declared.answer.Refusal.TheVariants as refusals;
ghost use Rattle.core_volume.specs.Rulings.{HasCommitNumbers, IsRuling, MayDraw, MayJoin, MayStay, no_space};
ghost use Rattle.core_volume.specs.Volumes.{blocks_left, is_idle};
ghost use Rattle.core_volume.specs.declared.ruling.Ruling.TheVariants.{Refused};
ghost use Rattle.journal_writer.specs.Queues.{HasNumbers, IsSizeOf, readied};
ghost use Rattle.vol_types.specs.declared.keys.Update.{Update};

use crate::space::{is_short_of_nodes, no_space};
use crate::volume::Volume;
use core_actors::Refusal;
use dirty_nodes::{Paths, paths_of, split_needed};
use journal_ring::RingFull;
use journal_writer::{EntryQueue, EntrySize};
use std::alloc::{AllocError, Global};
use vol_types::Update;

/// How many blocks of the journal a commit leaves for the entries of a checkpoint.
const KEPT_BLOCKS: u32 = 64;

/// What becomes of a commit.
#[derive(Drop)]
pub(crate) enum Ruling {
    /// It is refused.
    Refused(Refusal),
    /// It may be made, makes these nodes dirty, and its updates come to this size in the journal.
    Allowed(Paths, EntrySize),
}

/// Whether a commit of updates may be made, or why not: the first of five causes that holds. It takes some logarithms for each
/// update.
pub(crate) fn rule(
    alloc: Global,
    volume: &Volume,
    updates: &[Update],
    counted: bool,
) -> Result<Ruling, AllocError>
    requires { AreIntended volume.now.layout.metadata_replicas updates.now }
    ensures { IfOk result (IsRuling volume.now updates.now counted) }
{
    if let Some(halt) = volume.halted {
        return Ok(Ruling::Refused(Refusal::Halted(halt)));
    }
    match split_needed(alloc, volume.keys.map(), updates)? {
        Some(need) => Ok(Ruling::Refused(Refusal::NeedSplit(need))),
        None => rule_numbers(alloc, volume, updates, counted),
    }
}

// What becomes of a commit that makes no leaf too large.
fn rule_numbers(
    alloc: Global,
    volume: &Volume,
    updates: &[Update],
    counted: bool,
) -> Result<Ruling, AllocError>
    requires intended { AreIntended volume.now.layout.metadata_replicas updates.now }
    requires stays { MayStay volume.now updates.now }
    ensures { IfOk result (IsRuling volume.now updates.now counted) }
{
    let size = volume.queue.size_of(updates);
    if !has_numbers(volume, size, counted) {
        return Ok(Ruling::Refused(Refusal::Spent));
    }
    rule_room(alloc, volume, updates, size, counted)
}

// What becomes of a commit for which the numbers are left too.
fn rule_room(
    alloc: Global,
    volume: &Volume,
    updates: &[Update],
    size: EntrySize,
    counted: bool,
) -> Result<Ruling, AllocError>
    requires intended { AreIntended volume.now.layout.metadata_replicas updates.now }
    requires size { IsSizeOf volume.now.queue updates.now size }
    requires draws { MayDraw volume.now updates.now counted }
    ensures { IfOk result (IsRuling volume.now updates.now counted) }
{
    let left = blocks_left(volume);
    let need = size.blocks;
    if left < need + KEPT_BLOCKS {
        let full = RingFull { left, need };
        return Ok(Ruling::Refused(Refusal::RingFull(full)));
    }
    rule_space(alloc, volume, updates, size, counted)
}

// What becomes of a commit for which the journal has room too.
fn rule_space(
    alloc: Global,
    volume: &Volume,
    updates: &[Update],
    size: EntrySize,
    counted: bool,
) -> Result<Ruling, AllocError>
    requires intended { AreIntended volume.now.layout.metadata_replicas updates.now }
    requires size { IsSizeOf volume.now.queue updates.now size }
    requires joins { MayJoin volume.now updates.now counted }
    ensures { IfOk result (IsRuling volume.now updates.now counted) }
{
    let paths = paths_of(alloc, volume.keys.map(), updates)?;
    let seq = entry_of(&volume.queue, updates, size, counted);
    let Ok(marked) = volume.dirty.marked_with(alloc, &paths, seq) else {
        drop(paths);
        return Err(AllocError);
    };
    if is_short_of_nodes(&volume.pool, volume.mirrors(), marked) {
        drop(paths);
        return refused_for_space(alloc, volume);
    }
    Ok(Ruling::Allowed(paths, size))
}

// A commit is refused, since there are too few free buckets for nodes.
fn refused_for_space(alloc: Global, volume: &Volume) -> Result<Ruling, AllocError>
    ensures { IfOk result (λ ruling. ruling
        ≡ Refused (refusals.NoSpace (no_space (is_idle volume.now) volume.now))) }
{
    let none = no_space(alloc, volume.is_idle(), volume)?;
    Ok(Ruling::Refused(Refusal::NoSpace(none)))
}

// Whether the numbers are left that a commit of updates of this size draws.
fn has_numbers(volume: &Volume, size: EntrySize, counted: bool) -> bool
    ensures { (updates : List Update) → IsSizeOf volume.now.queue updates size
        → IsTrue result ↔ HasCommitNumbers volume.now updates counted }
{
    if volume.changes == u64::MAX {
        return false;
    }
    volume.queue.has_numbers(size, counted)
}

// How many blocks of the journal area are left.
fn blocks_left(volume: &Volume) -> u32
    ensures { result ≡ blocks_left volume.now }
{
    let end = u128::from(volume.queue.last_block()) + 1;
    let used = end.saturating_sub(u128::from(volume.durable().first));
    u128::from(volume.layout.journal).saturating_sub(used) as u32
}

/// The sequence of the entry that updates of this size join.
pub(crate) fn entry_of(
    queue: &EntryQueue,
    updates: &[Update],
    size: EntrySize,
    counted: bool,
) -> u64
    requires size { IsSizeOf queue.now.queue updates.now size }
    requires numbers { HasNumbers updates.now counted queue.now.queue }
    ensures { result ≡ (readied updates.now queue.now.queue).open_entry.after + 1 }
{
    let _ = updates;
    let _ = counted;
    if size.new_entry {
        queue.after() + 2
    } else {
        queue.after() + 1
    }
}
