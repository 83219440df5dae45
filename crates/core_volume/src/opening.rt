ghost use Rattle.std.specs.Prelude.{◌≡◌, ◌-◌, ◌<◌, [], IfOk, OnOk, Some, length, slice_get, true};
ghost use Rattle.btree_map.specs.Trees.{keys_in};
ghost use Rattle.bucket_pool.specs.Opening.{space_of};
ghost use Rattle.dirty_nodes.specs.Dirty.{AreMarked, changed_nodes, paths_of, with_pins};
ghost use Rattle.core_volume.specs.Opening.{IsVolumeOpened, keys_of_buckets, updates_in};
ghost use Rattle.core_volume.specs.Volumes.{IsVolume};
ghost use Rattle.journal_writer.specs.Writers.{IsWriterOpened};
ghost use Rattle.vol_types.specs.Layouts.{is_layout};

use crate::volume::{Volume, see_widths};
use btree_map::{KeyMap, btrees_hold_a_key_map};
use bucket_pool::{Pool, nodes_keep_their_buckets};
use core_actors::{VolumeKeys, find_keys};
use dirty_nodes::{DirtyNodes, dirty_nodes_are_marked, paths_of};
use journal_ring::FoundEntry;
use journal_writer::{EntryQueue, EntryWriter, waiting_changes_lead_from_durable_keys};
use node_writeback::{NodeWriter, frozen_leaves_are_kept};
use std::alloc::{AllocError, Global};
use vol_types::{Btree, Keys, Layout, Places, Pos, Query, Update, layouts_are_tested};

/// What is made of a volume that was loaded: its dirty nodes, its buckets, and the writing side of its journal.
#[derive(Drop)]
struct Parts {
    dirty: DirtyNodes,
    pool: Pool,
    writer: EntryWriter,
}

impl Volume {
    /// What is kept of a volume that was loaded: how it lies on its devices, its session, its keys and nodes, the entries of the
    /// journal that are needed, the oldest first, of which the last one is the newest, and the places of its nodes. It costs some
    /// logarithms for each update of the entries, and goes over all buckets.
    pub fn of(
        alloc: Global,
        layout: Layout,
        session: u64,
        map: KeyMap,
        needed: &[FoundEntry],
        nodes: &Places,
    ) -> Result<Volume, AllocError>
        requires layout { is_layout layout ≡ true }
        requires needed { 0 < length needed.now }
        ensures opened { IfOk result (IsVolumeOpened layout session map needed.now nodes.now) }
        ensures sound { IfOk result IsVolume }
    {
        let newest = &needed[needed.len() - 1];
        match parts_of(alloc, &layout, &map, needed, newest, nodes) {
            Ok(parts) => Ok(with_parts(alloc, layout, session, map, needed, newest, nodes, parts)),
            Err(error) => {
                drop(map);
                drop(layout);
                Err(error)
            }
        }
    }
}

// A volume that was loaded, with the parts that were made of it.
fn with_parts(
    alloc: Global,
    layout: Layout,
    session: u64,
    map: KeyMap,
    needed: &[FoundEntry],
    newest: &FoundEntry,
    nodes: &Places,
    parts: Parts,
) -> Volume
    requires layout { is_layout layout ≡ true }
    requires newest { slice_get needed.now (length needed.now - 1) ≡ Some newest.now }
    requires pins { parts.dirty.pins.numbers ≡ with_pins newest.now.entry.oldest
        (changed_nodes map.nodes (updates_in needed.now)) [] }
    requires marks { parts.dirty.marks.numbers ≡ with_pins newest.now.entry.oldest
        (paths_of map.nodes (updates_in needed.now)) [] }
    requires later { parts.dirty.later.numbers ≡ [] }
    requires marked { AreMarked map.nodes parts.dirty.pins.numbers parts.dirty.marks.numbers }
    requires pool { parts.pool ≡ space_of layout (keys_of_buckets (keys_in map)) nodes.now }
    requires writer { IsWriterOpened layout needed.now parts.writer }
    ensures opened { IsVolumeOpened layout session map needed.now nodes.now result }
    ensures sound { IsVolume result }
{
    // A layout has one to three metadata devices, and the keys are a key map.
    layouts_are_tested();
    btrees_hold_a_key_map();
    nodes_keep_their_buckets();
    frozen_leaves_are_kept();
    waiting_changes_lead_from_durable_keys();
    let _ = map.height(Btree::Extents);
    let _ = needed;
    let _ = nodes;
    let entry = &newest.entry;
    let mirrors = layout.metadata_replicas;
    let behind = newest.end.saturating_sub(1);
    let Parts {
        dirty,
        pool,
        writer,
    } = parts;
    Volume {
        session,
        queue: EntryQueue::new(alloc, mirrors, entry.sequence, behind, entry.commits),
        dirty,
        pool,
        writer,
        nodes: NodeWriter::new(alloc),
        emptied: 0,
        halted: None,
        changes: 0,
        layout,
        keys: VolumeKeys::new(map),
    }
}

// What is made of a volume that was loaded, of whose needed entries this one is the newest.
fn parts_of(
    alloc: Global,
    layout: &Layout,
    map: &KeyMap,
    needed: &[FoundEntry],
    newest: &FoundEntry,
    nodes: &Places,
) -> Result<Parts, AllocError>
    requires layout { is_layout layout.now ≡ true }
    requires needed { 0 < length needed.now }
    ensures pins { IfOk result (λ parts. parts.dirty.pins.numbers ≡ with_pins
        newest.now.entry.oldest (changed_nodes map.now.nodes (updates_in needed.now)) []) }
    ensures marks { IfOk result (λ parts. parts.dirty.marks.numbers ≡ with_pins
        newest.now.entry.oldest (paths_of map.now.nodes (updates_in needed.now)) []) }
    ensures later { IfOk result (λ parts. parts.dirty.later.numbers ≡ []) }
    ensures marked { IfOk result (λ parts. AreMarked map.now.nodes parts.dirty.pins.numbers
        parts.dirty.marks.numbers) }
    ensures pool { IfOk result (λ parts. parts.pool ≡ space_of layout.now
        (keys_of_buckets (keys_in map.now)) nodes.now) }
    ensures writer { IfOk result (λ parts. IsWriterOpened layout.now needed.now parts.writer) }
{
    let pool = pool_of(alloc, layout, map, nodes)?;
    let Ok(dirty) = dirty_nodes(alloc, map, needed, newest.entry.oldest) else {
        drop(pool);
        return Err(AllocError);
    };
    match EntryWriter::of(alloc, layout, needed) {
        Ok(writer) => Ok(Parts {
            dirty,
            pool,
            writer,
        }),
        Err(error) => {
            drop(dirty);
            drop(pool);
            Err(error)
        }
    }
}

// The buckets of a volume, as its keys and the places of its nodes say.
fn pool_of(alloc: Global, layout: &Layout, map: &KeyMap, nodes: &Places) -> Result<Pool, AllocError>
    requires { is_layout layout.now ≡ true }
    ensures { IfOk result (λ pool. pool ≡ space_of layout.now (keys_of_buckets (keys_in map.now))
        nodes.now) }
{
    let live = live_keys(alloc, map)?;
    let pool = Pool::of(alloc, layout, &live, nodes);
    drop(live);
    pool
}

// The keys of buckets.
fn live_keys(alloc: Global, map: &KeyMap) -> Result<Keys, AllocError>
    ensures { IfOk result (λ keys. keys ≡ keys_of_buckets (keys_in map.now)) }
{
    let all = Query::Span {
        btree: Btree::Alloc,
        first: Pos::LEAST,
        last: Pos::GREATEST,
    };
    find_keys(alloc, map, &all)
}

// The nodes that the updates of entries change, and those above them, of which each pins the entry of this number.
fn dirty_nodes(
    alloc: Global,
    map: &KeyMap,
    needed: &[FoundEntry],
    seq: u64,
) -> Result<DirtyNodes, AllocError>
    ensures pins { IfOk result (λ dirty. dirty.pins.numbers ≡ with_pins seq
        (changed_nodes map.now.nodes (updates_in needed.now)) []) }
    ensures marks { IfOk result (λ dirty. dirty.marks.numbers ≡ with_pins seq
        (paths_of map.now.nodes (updates_in needed.now)) []) }
    ensures later { IfOk result (λ dirty. dirty.later.numbers ≡ []) }
    ensures marked { IfOk result (λ dirty. AreMarked map.now.nodes dirty.pins.numbers
        dirty.marks.numbers) }
{
    // No node is marked where none is dirty.
    dirty_nodes_are_marked();
    let mut dirty = DirtyNodes::new(alloc)?;
    match make_all_dirty(alloc, map, &mut dirty, needed, seq) {
        Ok(()) => {
            dirty.forget_later();
            Ok(dirty)
        }
        Err(error) => {
            drop(dirty);
            Err(error)
        }
    }
}

// Makes the nodes dirty that the updates of entries change.
fn make_all_dirty(
    alloc: Global,
    map: &KeyMap,
    dirty: &mut DirtyNodes,
    needed: &[FoundEntry],
    seq: u64,
) -> Result<(), AllocError>
    requires marked { AreMarked map.now.nodes dirty.old.pins.numbers dirty.old.marks.numbers }
    ensures marked { OnOk result (AreMarked map.now.nodes dirty.new.pins.numbers
        dirty.new.marks.numbers) }
    ensures pins { OnOk result (dirty.new.pins.numbers ≡ with_pins seq
        (changed_nodes map.now.nodes (updates_in needed.now)) dirty.old.pins.numbers) }
    ensures marks { OnOk result (dirty.new.marks.numbers ≡ with_pins seq
        (paths_of map.now.nodes (updates_in needed.now)) dirty.old.marks.numbers) }
{
    for found in needed {
        make_dirty(alloc, map, dirty, found.entry.updates.as_slice(), seq)?;
    }
    Ok(())
}

// Makes the nodes dirty that updates change.
fn make_dirty(
    alloc: Global,
    map: &KeyMap,
    dirty: &mut DirtyNodes,
    updates: &[Update],
    seq: u64,
) -> Result<(), AllocError>
    requires marked { AreMarked map.now.nodes dirty.old.pins.numbers dirty.old.marks.numbers }
    ensures marked { OnOk result (AreMarked map.now.nodes dirty.new.pins.numbers
        dirty.new.marks.numbers) }
    ensures pins { OnOk result (dirty.new.pins.numbers ≡ with_pins seq
        (changed_nodes map.now.nodes updates.now) dirty.old.pins.numbers) }
    ensures marks { OnOk result (dirty.new.marks.numbers ≡ with_pins seq
        (paths_of map.now.nodes updates.now) dirty.old.marks.numbers) }
{
    let _ = map.node_of(0);
    let _ = map.height(Btree::Extents);
    see_widths(updates);
    dirty_nodes_are_marked();
    let paths = paths_of(alloc, map, updates)?;
    if dirty.reserve(&paths).is_err() {
        drop(paths);
        return Err(AllocError);
    }
    dirty.dirty(&paths, seq);
    drop(paths);
    Ok(())
}
