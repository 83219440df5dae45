ghost use Rattle.std.specs.Arc.{arc_value};
ghost use Rattle.std.specs.List.{list_all};
ghost use Rattle.std.specs.Option.{option_to_list};
ghost use Rattle.std.specs.Prelude.{◌≡◌, ◌↔◌, ◌+◌, ◌<◌, ◌^◌, ◌≤◌, All, IfOk, IfSome, IsTrue, length, option_copied};
ghost use Rattle.btree_map.specs.Trees.{IsTrees, keys_in};
ghost use Rattle.dirty_nodes.specs.Ids.{id_trees};
ghost use Rattle.core_volume.specs.Commits.{AreIntended};
ghost use Rattle.core_volume.specs.Volumes.{KeepParts, are_durable, can_let_go, commits_of, halted_at, has_no_updates, in_flight, is_below, is_exhausted, is_idle, needs_entry, none_waits, stage_of};
ghost use Rattle.journal_writer.specs.Queues.{AreChanges, waiting_entries};
ghost use Rattle.vol_types.specs.KeyMaps.{answer_of};
ghost use Rattle.vol_types.specs.Standing.{IsUpdate};
ghost use Rattle.vol_types.specs.Widths.{PosFits};

use bucket_pool::Pool;
use core_actors::{VolumeKeys, find_keys};
use dirty_nodes::DirtyNodes;
use journal_writer::{Durable, EntryQueue, EntryWriter, Pending, Stage};
use node_writeback::NodeWriter;
use snap_tree::SnapTree;
use std::alloc::{AllocError, Global};
use std::marker::Model;
use std::sync::Arc;
use vol_types::{Btree, Halt, Keys, Layout, Query, Update, layouts_are_tested, wide};

/// What is kept of a volume in memory, but for what actors have under way.
#[derive(Drop)]
pub struct Volume {
    pub(crate) layout: Layout,
    pub(crate) session: u64,
    pub(crate) keys: VolumeKeys,
    pub(crate) queue: EntryQueue,
    pub(crate) dirty: DirtyNodes,
    pub(crate) pool: Pool,
    pub(crate) writer: EntryWriter,
    pub(crate) nodes: NodeWriter,
    pub(crate) emptied: u64,
    pub(crate) halted: Option<Halt>,
    pub(crate) changes: u64,
}

impl Model for Volume {
    ghost use Rattle.std.specs.Arc.{arc_value};
    ghost use Rattle.core_volume.specs.Commits.{AreIntended};
    ghost use Rattle.core_volume.specs.Volumes.{IsVolume, Volume as AVolume};

    ghost Value = { AVolume };

    ghost view = { λ v. record { layout = v.layout; session = v.session; trees = v.keys; queue = v.queue.queue; pins = v.dirty.pins.numbers; marks = v.dirty.marks.numbers; later = v.dirty.later.numbers; space = v.pool; writer = v.writer; work = v.nodes; emptied = v.emptied; halted = v.halted; changes = v.changes } };

    ghost invariant = { λ v. IsVolume (record { layout = v.layout; session = v.session; trees = v.keys; queue = v.queue.queue; pins = v.dirty.pins.numbers; marks = v.dirty.marks.numbers; later = v.dirty.later.numbers; space = v.pool; writer = v.writer; work = v.nodes; emptied = v.emptied; halted = v.halted; changes = v.changes }) };
}

impl Volume {
    /// How many commits there were since format.
    pub fn commits(&self) -> u64
        ensures { result ≡ commits_of self.now }
    {
        self.queue.commits()
    }

    /// What its parts keep by themselves holds.
    pub fn see_parts(&self)
        ensures { KeepParts self.now }
    {
        let _ = self.queue.commits();
        let _ = self.nodes.unfinished();
        let _ = self.dirty.pin_of(0);
    }

    /// Its btrees are such.
    pub fn see_trees(&self)
        ensures { IsTrees self.now.trees }
    {
        let _ = self.keys.map().height(Btree::Extents);
    }

    /// How many devices the volume has.
    pub fn devices(&self) -> u8
        ensures { result ≡ length self.now.space }
    {
        // There are at most eight.
        layouts_are_tested();
        self.layout.blocks.len() as u8
    }

    /// How many of its devices, the first ones, keep the metadata.
    pub(crate) fn mirrors(&self) -> u8
        ensures exact { result ≡ self.now.layout.metadata_replicas }
        ensures few { result ≤ length self.now.space }
    {
        layouts_are_tested();
        self.layout.metadata_replicas
    }

    /// The keys that a query asks for.
    pub fn answer(&self, alloc: Global, query: &Query) -> Result<Keys, AllocError>
        ensures { IfOk result (λ keys. keys ≡ answer_of query.now (keys_in self.now.trees)) }
    {
        find_keys(alloc, self.keys.map(), query)
    }

    /// The trees of snapshot ids, which are shared.
    pub fn ids(&mut self, alloc: Global) -> Result<Arc<SnapTree>, AllocError>
        ensures same { self.new ≡ self.old }
        ensures ids { IfOk result (λ ids. arc_value ids ≡ id_trees (keys_in self.old.trees)) }
    {
        self.keys.ids(alloc)
    }

    /// Whether updates may be intended. It looks at each of them.
    pub fn may_intend(&self, updates: &[Update]) -> bool
        ensures { IsTrue result ↔ AreIntended self.now.layout.metadata_replicas updates.now }
    {
        if !are_of_leaves(updates) {
            return false;
        }
        if !may_stand(updates) {
            return false;
        }
        self.queue.fits(updates)
    }

    /// The next event that the journal needs.
    pub fn stage(&self) -> Stage
        ensures { result ≡ stage_of self.now }
    {
        self.writer.stage(self.needs_entry())
    }

    /// The last durable entry.
    pub(crate) fn durable(&self) -> &Durable
        ensures { result.now ≡ self.now.writer.durable }
    {
        self.writer.durable()
    }

    // Whether an entry of the journal is to be written.
    fn needs_entry(&self) -> bool
        ensures { result ≡ needs_entry self.now }
    {
        if self.queue.has_closed() {
            return true;
        }
        if self.queue.has_keys() {
            return true;
        }
        if self.queue.commits() != self.durable().commits {
            return true;
        }
        if self.queue.after() < self.emptied {
            return true;
        }
        can_let_go(self.durable(), &self.dirty)
    }

    /// Whether no node is dirty, no bucket waits for an entry, and no node is frozen.
    pub(crate) fn is_idle(&self) -> bool
        ensures { result ≡ is_idle self.now }
    {
        if !self.dirty.is_clean() {
            return false;
        }
        if !self.none_waits() {
            return false;
        }
        self.nodes.is_idle()
    }

    // Whether no bucket waits for an entry.
    fn none_waits(&self) -> bool
        ensures { result ≡ none_waits self.now }
    {
        self.emptied <= self.durable().sequence
    }

    /// Whether no bucket waits for an entry, and all that was committed is durable, but for commits without keys.
    pub(crate) fn is_exhausted(&self) -> bool
        ensures { result ≡ is_exhausted self.now }
    {
        if !self.none_waits() {
            return false;
        }
        if !flies_without_updates(&self.writer) {
            return false;
        }
        waits_without_updates(&self.queue)
    }

    /// Where the session stopped writing, if it did.
    pub fn halted(&self) -> Option<Halt>
        ensures { result ≡ self.now.halted }
    {
        self.halted
    }

    /// Says where the session stops writing. What it was told first stays.
    pub fn halt(&mut self, halt: Halt)
        ensures { self.new ≡ halted_at halt self.old }
    {
        if self.halted.is_none() {
            self.halted = Some(halt);
        }
    }

    /// Whether so many commits are durable, or all of them where no number is given.
    pub fn are_durable(&self, commits: Option<u64>) -> bool
        ensures { result ≡ are_durable commits self.now }
    {
        match commits {
            None => self.queue.commits() <= self.durable().commits,
            Some(count) => count <= self.durable().commits,
        }
    }
}

/// The entry in flight, if there is one. Its changes fit an entry, and it has a sequence of its own.
pub(crate) fn in_flight(writer: &EntryWriter) -> Option<&Pending>
    ensures entry { option_copied result ≡ in_flight writer.now.flight }
    ensures changes { IfSome result (λ entry. AreChanges writer.now.ring.mirrors entry.now.changes) }
    ensures numbered { IfSome result (λ entry. entry.now.after + 1 < 2 ^ 64) }
{
    match writer.flight() {
        None => None,
        Some(flight) => Some(&flight.entry),
    }
}

/// The parts of the position of each update have the widths of their types.
pub(crate) fn see_widths(updates: &[Update])
    ensures { All (λ update. PosFits update.pos) updates.now }
{
    for update in updates {
        let _ = wide(&update.pos);
    }
}

// Whether no entry with updates is in flight.
fn flies_without_updates(writer: &EntryWriter) -> bool
    ensures { result ≡ list_all has_no_updates (option_to_list (in_flight writer.now.flight)) }
{
    match in_flight(writer) {
        None => true,
        Some(entry) => has_no_updates(entry),
    }
}

// Whether no entry with updates waits.
fn waits_without_updates(queue: &EntryQueue) -> bool
    ensures { result ≡ list_all has_no_updates (waiting_entries queue.now.queue) }
{
    if queue.has_keys() {
        return false;
    }
    are_without_updates(queue.closed())
}

// Whether none of the entries has updates.
fn are_without_updates(entries: &[Pending]) -> bool
    ensures { result ≡ list_all has_no_updates entries.now }
{
    entries.iter().all(has_no_updates)
}

// Whether an entry has no updates.
fn has_no_updates(entry: &Pending) -> bool
    ensures { result ≡ has_no_updates entry.now }
{
    entry.changes.updates.is_empty()
}

// Whether all updates are of leaves.
fn are_of_leaves(updates: &[Update]) -> bool
    ensures { IsTrue result ↔ All (λ update. update.level ≡ 0) updates.now }
{
    updates.iter().all(|update| update.level == 0)
}

// Whether all updates may be made.
fn may_stand(updates: &[Update]) -> bool
    ensures { IsTrue result ↔ All IsUpdate updates.now }
{
    updates.iter().all(|update| update.may_stand())
}

// Whether the last durable entry needs an older one that nothing pins any more.
fn can_let_go(durable: &Durable, dirty: &DirtyNodes) -> bool
    ensures { result ≡ can_let_go durable.now dirty.now.pins.numbers }
{
    if durable.oldest >= durable.sequence {
        return false;
    }
    is_below(durable.oldest, dirty.oldest())
}

// Whether a number is below the least one that is pinned, which it is where none is.
fn is_below(number: u64, pin: Option<u64>) -> bool
    ensures { result ≡ is_below number pin }
{
    match pin {
        None => true,
        Some(pin) => number < pin,
    }
}
