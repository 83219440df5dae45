ghost use Rattle.std.specs.Ordering.{nat_cmp};
ghost use Rattle.std.specs.Map.{values_of};
ghost use Rattle.std.specs.Prelude.{◌≡◌, ◌+◌, ◌/◌, ◌^◌, ◌≤◌, ◌<◌, ℕ, All, IfErr, IfOk, IfSome, IsNone, IsSome, IsTrue, List, None, OnErr, OnOk, length, option_copied, true};
ghost use Rattle.bucket_pool.specs.Space.{have_free, node_places, noded};
ghost use Rattle.journal_writer.specs.Queues.{AreChanges, first_with};
ghost use Rattle.node_mem.specs.Nodes.{size_of};
ghost use Rattle.node_writeback.specs.Due.{root_in};
ghost use Rattle.node_writeback.specs.Durable.{IsOneNode, durable_entries, undurable};
ghost use Rattle.node_writeback.specs.Freezing.{HasBirth, IsFreezeFault, IsTooLarge, fresh_leaf, leaf_set, next_birth};
ghost use Rattle.node_writeback.specs.NodeWork.{IsFrozen};
ghost use Rattle.record_codec.specs.Sets.{IsSetInRange};
ghost use Rattle.tree_nodes.specs.Levels.{Levels};
ghost use Rattle.vol_types.specs.KeyMaps.{Entries};
ghost use Rattle.vol_types.specs.Layouts.{is_layout};
ghost use Rattle.vol_types.specs.Limits.{node_limit};
ghost use Rattle.vol_types.specs.Maps.{put_at};
ghost use Rattle.vol_types.specs.Positions.{greatest_pos, least_pos};
ghost use Rattle.vol_types.specs.Sets.{set_length_of};
ghost use Rattle.vol_types.specs.Standing.{MayStand};

use crate::NodeWriter;
use crate::durable::{durable_leaf, first_undurable};
use btree_map::KeyMap;
use bucket_pool::{Pool, PoolFault};
use dirty_nodes::{DirtyNodes, NeedSplit};
use journal_writer::{EntryQueue, Pending};
use node_mem::{NodeMem, middles_halve, nodes_are_sets};
use record_codec::SetRecord;
use std::alloc::{AllocError, Global};
use vol_types::{Btree, Layout, NODE_LIMIT, NodePtr, Places};

/// How many births a session has.
const SESSION_BIRTHS: u64 = 1 << 32;

/// Why a leaf isn't frozen.
#[derive(PartialEq, Eq, Drop)]
pub enum FreezeFault {
    /// No birth is left in the session, or a node that another program wrote has the next one.
    Spent,
    /// By durable entries alone the leaf is larger than nodes may be. No leaf gets so by commits of this program.
    NeedSplit(NeedSplit),
    /// A metadata device has no free bucket.
    NoSpace,
    /// Out of memory.
    NoMemory,
}

impl From<AllocError> for FreezeFault {
    ghost use Rattle.node_writeback.specs.declared.freezing.FreezeFault.TheVariants.{NoMemory};

    ghost from_gives = { λ _ fault. fault ≡ NoMemory };

    fn from(_: AllocError) -> FreezeFault {
        FreezeFault::NoMemory
    }
}

/// Freezes the only leaf of a btree: what it has by durable entries alone is what is written of it, into the first free bucket of each
/// metadata device, under the next birth of the session. `durable` is the sequence of the last durable entry, and stands in the head of the set. What
/// changes the leaf from now on is noted, beginning with the entries that aren't durable yet.
///
/// It goes over the updates of these entries, and takes memory for a copy of the leaf and its bytes, and the time of two digests of them.
/// An `Err` changes nothing.
pub fn freeze_leaf(
    alloc: Global,
    layout: &Layout,
    session: u64,
    durable: u64,
    map: &KeyMap,
    queue: &EntryQueue,
    flight: Option<&Pending>,
    btree: Btree,
    dirty: &mut DirtyNodes,
    pool: &mut Pool,
    nodes: &mut NodeWriter,
) -> Result<(), FreezeFault>
    requires layout { is_layout layout.now ≡ true }
    requires mirrors { layout.now.metadata_replicas ≤ length pool.old }
    requires idle { nodes.old.unfinished ≡ None }
    requires alone { IsOneNode map.now.nodes btree }
    requires flight { IfSome flight (λ entry. AreChanges queue.now.queue.mirrors entry.now.changes) }
    requires numbered { IfSome flight (λ entry. entry.now.after + 1 < 2 ^ 64) }
    requires stand { All (MayStand btree 0) (values_of
        (durable_entries (option_copied flight) queue.now.queue map.now btree)) }
    ensures birth { OnOk result (HasBirth session nodes.old.born map.now.nodes) }
    ensures fits { OnOk result (size_of (durable_entries (option_copied flight.entry) queue.now.queue map.now btree)
        ≤ node_limit) }
    ensures free { OnOk result (have_free layout.now.metadata_replicas pool.old ≡ true) }
    ensures frozen { OnOk result (IsFrozen layout.now.id durable (root_in map.now.nodes btree).birth
        (fresh_leaf session nodes.old.born layout.now.metadata_replicas pool.old)
        (leaf_set (next_birth session nodes.old.born) btree
        (durable_entries (option_copied flight.entry) queue.now.queue map.now btree)) nodes.old nodes.new) }
    ensures pool { OnOk result (pool.new ≡ noded layout.now.metadata_replicas pool.old) }
    ensures later { OnOk result (dirty.new.later.numbers ≡ put_at nat_cmp
        (root_in map.now.nodes btree).birth
        (first_with btree (undurable (option_copied flight.entry) queue.now.queue))
        dirty.old.later.numbers) }
    ensures pins { dirty.new.pins.numbers ≡ dirty.old.pins.numbers }
    ensures marks { dirty.new.marks.numbers ≡ dirty.old.marks.numbers }
    ensures later_kept { OnErr result (dirty.new.later.numbers ≡ dirty.old.later.numbers) }
    ensures pool_kept { OnErr result (pool.new ≡ pool.old) }
    ensures nodes_kept { OnErr result (nodes.new ≡ nodes.old) }
    ensures why { IfErr result (IsFreezeFault session nodes.old.born (root_in map.now.nodes btree).birth
        layout.now.metadata_replicas map.now.nodes
        (durable_entries (option_copied flight.entry) queue.now.queue map.now btree) pool.old) }
{
    let Some(birth) = next_birth(map, session, nodes.born()) else {
        return Err(FreezeFault::Spent);
    };
    let root = map.root(btree).birth;
    let leaf = durable_leaf(alloc, map, queue, flight, btree)?;
    let frozen = freeze_as(
        alloc, layout, session, birth, durable, root, map, queue, flight, btree, &leaf, dirty,
        pool, nodes,
    );
    drop(leaf);
    frozen
}

// Freezes the only leaf of a btree, the node of the birth `root`, as `leaf`, which is what the btree has by durable entries alone.
fn freeze_as(
    alloc: Global,
    layout: &Layout,
    session: u64,
    birth: u64,
    durable: u64,
    root: u64,
    map: &KeyMap,
    queue: &EntryQueue,
    flight: Option<&Pending>,
    btree: Btree,
    leaf: &NodeMem,
    dirty: &mut DirtyNodes,
    pool: &mut Pool,
    nodes: &mut NodeWriter,
) -> Result<(), FreezeFault>
    requires layout { is_layout layout.now ≡ true }
    requires mirrors { layout.now.metadata_replicas ≤ length pool.old }
    requires idle { nodes.old.unfinished ≡ None }
    requires has { HasBirth session nodes.old.born map.now.nodes }
    requires birth { birth ≡ next_birth session nodes.old.born }
    requires numbered { IfSome flight (λ entry. entry.now.after + 1 < 2 ^ 64) }
    requires least { leaf.now.least ≡ least_pos }
    requires greatest { leaf.now.greatest ≡ greatest_pos }
    requires stand { All (MayStand btree 0) (values_of leaf.now.entries) }
    ensures fits { OnOk result (size_of leaf.now.entries ≤ node_limit) }
    ensures free { OnOk result (have_free layout.now.metadata_replicas pool.old ≡ true) }
    ensures frozen { OnOk result (IsFrozen layout.now.id durable root
        (fresh_leaf session nodes.old.born layout.now.metadata_replicas pool.old)
        (leaf_set (next_birth session nodes.old.born) btree leaf.now.entries) nodes.old nodes.new) }
    ensures pool { OnOk result (pool.new ≡ noded layout.now.metadata_replicas pool.old) }
    ensures later { OnOk result (dirty.new.later.numbers ≡ put_at nat_cmp root
        (first_with btree (undurable (option_copied flight.entry) queue.now.queue))
        dirty.old.later.numbers) }
    ensures pins { dirty.new.pins.numbers ≡ dirty.old.pins.numbers }
    ensures marks { dirty.new.marks.numbers ≡ dirty.old.marks.numbers }
    ensures later_kept { OnErr result (dirty.new.later.numbers ≡ dirty.old.later.numbers) }
    ensures pool_kept { OnErr result (pool.new ≡ pool.old) }
    ensures nodes_kept { OnErr result (nodes.new ≡ nodes.old) }
    ensures why { IfErr result (IsFreezeFault session nodes.old.born root
        layout.now.metadata_replicas map.now.nodes leaf.now.entries pool.old) }
{
    let _ = session;
    let _ = map;
    if leaf.size() > NODE_LIMIT {
        return Err(FreezeFault::NeedSplit(split_of(root, leaf)));
    }
    let later = first_undurable(queue, flight, btree);
    let places = free_places(alloc, layout, pool)?;
    if dirty.reserve_freeze().is_err() {
        drop(places);
        return Err(FreezeFault::NoMemory);
    }
    let fresh = NodePtr {
        birth,
        level: 0,
        places,
    };
    write_leaf(alloc, layout, durable, root, fresh, btree, leaf, nodes)?;
    dirty.freeze(root, later);
    pool.take_nodes(layout.metadata_replicas);
    Ok(())
}

// The next birth of a session in which so many nodes were born, if one is left and no node has it.
fn next_birth(map: &KeyMap, session: u64, born: u64) -> Option<u64>
    ensures some { IfSome result (λ birth. (birth ≡ next_birth session born)
        × HasBirth session born map.now.nodes) }
    ensures none { IsNone result → ¬ HasBirth session born map.now.nodes }
{
    if session >= SESSION_BIRTHS {
        return None;
    }
    if born >= SESSION_BIRTHS {
        return None;
    }
    let birth = session * SESSION_BIRTHS + born;
    match map.node_of(birth) {
        None => Some(birth),
        Some(_) => None,
    }
}

// Where a split halves a leaf that is larger than nodes may be.
fn split_of(birth: u64, leaf: &NodeMem) -> NeedSplit
    requires { node_limit < size_of leaf.now.entries }
    ensures { IsTooLarge birth leaf.now.entries result }
{
    // So large a leaf has two values or more.
    let size = leaf.size();
    middles_halve();
    let Some(at) = leaf.middle() else {
        unreachable!()
    };
    NeedSplit {
        node: birth,
        size,
        at,
    }
}

// The first places of free buckets, one on each metadata device.
fn free_places(alloc: Global, layout: &Layout, pool: &Pool) -> Result<Places, FreezeFault>
    requires layout { is_layout layout.now ≡ true }
    requires mirrors { layout.now.metadata_replicas ≤ length pool.now }
    ensures places { IfOk result (λ places. places ≡ node_places layout.now.metadata_replicas pool.now) }
    ensures some { IfOk result (λ places. 0 < length places) }
    ensures free { OnOk result (have_free layout.now.metadata_replicas pool.now ≡ true) }
    ensures why { (session born birth : ℕ) (nodes : List Levels) (entries : Entries)
        → HasBirth session born nodes → size_of entries ≤ node_limit → IfErr result
        (IsFreezeFault session born birth layout.now.metadata_replicas nodes entries pool.now) }
{
    match pool.free_places(alloc, layout.metadata_replicas) {
        Ok(places) => Ok(places),
        Err(PoolFault::NoSpace(short)) => {
            drop(short);
            Err(FreezeFault::NoSpace)
        }
        Err(PoolFault::NoMemory) => Err(FreezeFault::NoMemory),
    }
}

// Freezes a leaf, which is written as `fresh` in the place of the node of this birth.
fn write_leaf(
    alloc: Global,
    layout: &Layout,
    durable: u64,
    birth: u64,
    fresh: NodePtr,
    btree: Btree,
    leaf: &NodeMem,
    nodes: &mut NodeWriter,
) -> Result<(), AllocError>
    requires idle { nodes.old.unfinished ≡ None }
    requires born { nodes.old.born < 2 ^ 32 }
    requires level { fresh.level ≡ 0 }
    requires places { 0 < length fresh.places }
    requires least { leaf.now.least ≡ least_pos }
    requires greatest { leaf.now.greatest ≡ greatest_pos }
    requires fits { size_of leaf.now.entries ≤ node_limit }
    requires stand { All (MayStand btree 0) (values_of leaf.now.entries) }
    ensures ok { OnOk result (IsFrozen layout.now.id durable birth fresh
        (leaf_set fresh.birth btree leaf.now.entries) nodes.old nodes.new) }
    ensures err { OnErr result (nodes.new ≡ nodes.old) }
{
    let set = leaf_set(alloc, fresh.birth, btree, leaf)?;
    nodes.freeze(alloc, layout, durable, birth, fresh, &set)
}

// The set of the only leaf of a btree.
fn leaf_set(
    alloc: Global,
    birth: u64,
    btree: Btree,
    leaf: &NodeMem,
) -> Result<SetRecord, AllocError>
    requires least { leaf.now.least ≡ least_pos }
    requires greatest { leaf.now.greatest ≡ greatest_pos }
    requires fits { size_of leaf.now.entries ≤ node_limit }
    requires stand { All (MayStand btree 0) (values_of leaf.now.entries) }
    ensures exact { IfOk result (λ set. set ≡ leaf_set birth btree leaf.now.entries) }
    ensures in_range { IfOk result IsSetInRange }
    ensures few { IfOk result (λ set. (set_length_of set.keys + 3967) / 3968 ≤ 16) }
    ensures values { IfOk result (λ set. All (λ key. IsSome key.value) set.keys) }
{
    // A node is a set.
    let _ = leaf.size();
    nodes_are_sets();
    Ok(SetRecord {
        birth,
        btree,
        level: 0,
        least: leaf.least(),
        greatest: leaf.greatest(),
        keys: leaf.keys(alloc)?,
    })
}
