ghost use Rattle.std.specs.Prelude.{◌≡◌, ◌+◌, ◌≤◌, All, IfErr, OnErr, OnOk, length};
ghost use Rattle.btree_map.specs.Trees.{keys_in};
ghost use Rattle.dirty_nodes.specs.Dirty.{changed_nodes, paths_of, with_pins};
ghost use Rattle.core_volume.specs.Commits.{AreIntended, IsCommitted};
ghost use Rattle.core_volume.specs.Rulings.{IsAllowed};
ghost use Rattle.core_volume.specs.Volumes.{IsVolume};
ghost use Rattle.core_volume.specs.Uncommitted.{IsCommitFault};
ghost use Rattle.core_volume.specs.declared.commit.VolumeFault.TheVariants.{NoMemory};
ghost use Rattle.journal_writer.specs.Changes.{changes_of};
ghost use Rattle.journal_writer.specs.Queues.{HasNumbers, HasRoom, IsSizeOf, blocks_with, joined, readied};
ghost use Rattle.vol_types.specs.KeyMaps.{with_updates};
ghost use Rattle.vol_types.specs.Standing.{IsUpdate};

use crate::ruling::{Ruling, entry_of, rule};
use crate::volume::{Volume, see_widths};
use core_actors::{Refusal, VolumeKeys};
use dirty_nodes::{DirtyNodes, Paths, changed_pins_are_known, dirty_nodes_are_marked};
use journal_writer::{
    EntryQueue, EntrySize, KeyChanges, commits_are_undone, commits_leave_queues,
    waiting_changes_lead_from_durable_keys,
};
use std::alloc::{AllocError, Global};
use vol_types::{Btree, Update, Updates};

/// Why updates weren't committed.
#[derive(Drop)]
pub enum VolumeFault {
    Refused(Refusal),
    NoMemory,
}

/// Updates that weren't committed, and why.
#[derive(Drop)]
pub struct Uncommitted {
    pub updates: Updates,
    pub why: VolumeFault,
}

impl Volume {
    /// Makes updates, all or none: they come into the keys, and into the journal's open entry, which is closed first where it
    /// would pass 64 blocks with them. All memory is taken first; an `Err` changes nothing, and hands the updates back. It costs
    /// some logarithms for each update, and for each id whose record they change, unless somebody shares the trees of ids: then these
    /// are made anew when they are asked for. Each node that becomes dirty costs a logarithm of the dirty nodes.
    pub fn commit(
        &mut self,
        alloc: Global,
        updates: Updates,
        counted: bool,
    ) -> Result<(), Uncommitted>
        requires { AreIntended self.old.layout.metadata_replicas updates }
        ensures allowed { OnOk result (IsAllowed self.old updates counted) }
        ensures made { OnOk result (IsCommitted updates counted self.old self.new) }
        ensures sound { OnOk result (IsVolume self.new) }
        ensures err { OnErr result (self.new ≡ self.old) }
        ensures kept { IfErr result (λ un. un.updates ≡ updates) }
        ensures why { IfErr result (λ un. IsCommitFault self.old updates counted un.why) }
    {
        match rule(alloc, self, updates.as_slice(), counted) {
            Err(_) => Err(unmade(updates)),
            Ok(Ruling::Refused(refusal)) => Err(Uncommitted {
                updates,
                why: VolumeFault::Refused(refusal),
            }),
            Ok(Ruling::Allowed(paths, size)) => self.make(alloc, updates, size, counted, &paths),
        }
    }

    // Makes updates that nothing refuses.
    fn make(
        &mut self,
        alloc: Global,
        updates: Updates,
        size: EntrySize,
        counted: bool,
        paths: &Paths,
    ) -> Result<(), Uncommitted>
        requires intended { AreIntended self.old.layout.metadata_replicas updates }
        requires size { IsSizeOf self.old.queue updates size }
        requires allowed { IsAllowed self.old updates counted }
        requires changed { paths.now.changed.items ≡ changed_nodes self.old.trees.nodes updates }
        requires over { paths.now.over.items ≡ paths_of self.old.trees.nodes updates }
        ensures made { OnOk result (IsCommitted updates counted self.old self.new) }
        ensures sound { OnOk result (IsVolume self.new) }
        ensures err { OnErr result (self.new ≡ self.old) }
        ensures kept { IfErr result (λ un. un.updates ≡ updates) }
        ensures why { IfErr result (λ un. un.why ≡ NoMemory) }
    {
        // The keys and nodes are those of btrees, so that what stood before is in range, and what a commit makes of the
        // queue, which is one, and of the dirty nodes is known.
        see_widths(updates.as_slice());
        let _ = self.queue.commits();
        let _ = self.keys.map().node_of(0);
        let _ = self.keys.map().height(Btree::Extents);
        commits_leave_queues();
        waiting_changes_lead_from_durable_keys();
        dirty_nodes_are_marked();
        changed_pins_are_known();
        match join(
            alloc,
            updates,
            size,
            counted,
            paths,
            &mut self.keys,
            &mut self.queue,
            &mut self.dirty,
        ) {
            Err(uncommitted) => Err(uncommitted),
            Ok(()) => {
                self.changes += 1;
                Ok(())
            }
        }
    }
}

// Makes updates in the keys, and has them join the entries that wait; the nodes that they change become dirty.
fn join(
    alloc: Global,
    updates: Updates,
    size: EntrySize,
    counted: bool,
    paths: &Paths,
    keys: &mut VolumeKeys,
    queue: &mut EntryQueue,
    dirty: &mut DirtyNodes,
) -> Result<(), Uncommitted>
    requires updates { All IsUpdate updates }
    requires few { blocks_with queue.old.queue.mirrors updates ≤ 64 }
    requires size { IsSizeOf queue.old.queue updates size }
    requires numbers { HasNumbers updates counted queue.old.queue }
    ensures keys { OnOk result (keys_in keys.new ≡ with_updates updates (keys_in keys.old)) }
    ensures nodes { OnOk result (keys.new.nodes ≡ keys.old.nodes) }
    ensures queue { OnOk result (queue.new.queue ≡ joined (changes_of updates (keys_in keys.old)) counted
        queue.old.queue) }
    ensures pins { OnOk result (dirty.new.pins.numbers ≡ with_pins ((readied updates
        queue.old.queue).open_entry.after + 1) paths.now.changed.items dirty.old.pins.numbers) }
    ensures marks { OnOk result (dirty.new.marks.numbers ≡ with_pins ((readied updates
        queue.old.queue).open_entry.after + 1) paths.now.over.items dirty.old.marks.numbers) }
    ensures later { OnOk result (dirty.new.later.numbers ≡ with_pins ((readied updates
        queue.old.queue).open_entry.after + 1) paths.now.changed.items dirty.old.later.numbers) }
    ensures keys_kept { OnErr result (keys.new ≡ keys.old) }
    ensures queue_kept { OnErr result (queue.new.queue ≡ queue.old.queue) }
    ensures pins_kept { OnErr result (dirty.new.pins.numbers ≡ dirty.old.pins.numbers) }
    ensures marks_kept { OnErr result (dirty.new.marks.numbers ≡ dirty.old.marks.numbers) }
    ensures later_kept { OnErr result (dirty.new.later.numbers ≡ dirty.old.later.numbers) }
    ensures kept { IfErr result (λ un. un.updates ≡ updates) }
    ensures why { IfErr result (λ un. un.why ≡ NoMemory) }
{
    // What stood before is in range.
    let _ = keys.map().height(Btree::Extents);
    commits_are_undone();
    let seq = entry_of(queue, updates.as_slice(), size, counted);
    let Ok(()) = reserve(queue, dirty, updates.as_slice(), size, paths) else {
        return Err(unmade(updates));
    };
    match keys.apply(alloc, &updates) {
        Err(_) => Err(unmade(updates)),
        Ok(before) => {
            queue.join(KeyChanges { updates, before }, size, counted);
            dirty.dirty(paths, seq);
            Ok(())
        }
    }
}

// Updates for which there was no memory.
fn unmade(updates: Updates) -> Uncommitted
    ensures updates { result.updates ≡ updates }
    ensures why { result.why ≡ NoMemory }
{
    Uncommitted {
        updates,
        why: VolumeFault::NoMemory,
    }
}

// Takes the memory to queue updates and to make nodes dirty. What is queued and dirty stays, after an `Err` too.
fn reserve(
    queue: &mut EntryQueue,
    dirty: &mut DirtyNodes,
    updates: &[Update],
    size: EntrySize,
    paths: &Paths,
) -> Result<(), AllocError>
    requires { IsSizeOf queue.old.queue updates.now size }
    ensures queue { queue.new.queue ≡ queue.old.queue }
    ensures pins { dirty.new.pins.numbers ≡ dirty.old.pins.numbers }
    ensures marks { dirty.new.marks.numbers ≡ dirty.old.marks.numbers }
    ensures later { dirty.new.later.numbers ≡ dirty.old.later.numbers }
    ensures room { OnOk result (HasRoom updates.now queue.new) }
    ensures pin_room { OnOk result (length paths.now.changed.items ≤ dirty.new.pins.spare) }
    ensures mark_room { OnOk result (length paths.now.over.items ≤ dirty.new.marks.spare) }
    ensures later_room { OnOk result (length paths.now.changed.items ≤ dirty.new.later.spare) }
{
    queue.reserve(updates, size)?;
    dirty.reserve(paths)
}
