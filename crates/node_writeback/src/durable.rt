ghost use Rattle.std.specs.Map.{keys_of};
ghost use Rattle.std.specs.Prelude.{◌≡◌, ◌+◌, ◌<◌, ◌^◌, All, IfOk, IfSome, option_copied};
ghost use Rattle.btree_map.specs.Trees.{keys_in};
ghost use Rattle.journal_writer.specs.Changes.{IsPartOf};
ghost use Rattle.journal_writer.specs.Queues.{AreChanges, durable_keys, first_with};
ghost use Rattle.node_writeback.specs.Durable.{IsOneNode, changes_in_flight, durable_leaf, undurable};
ghost use Rattle.vol_types.specs.KeyMaps.{IsKeyMap, KeyMap as AKeyMap, entries_of};
ghost use Rattle.vol_types.specs.Positions.{greatest_pos, least_pos};
ghost use Rattle.vol_types.specs.Widths.{PosFits};

use crate::positions::see_widths;
use btree_map::KeyMap;
use journal_writer::{EntryQueue, Pending};
use node_mem::NodeMem;
use std::alloc::{AllocError, Global};
use vol_types::{Btree, Pos};

/// A copy of the only leaf of a btree, with what it has by durable entries alone: what waits, and what the entry in flight changes, is
/// taken back, the newest first. It goes over the updates of all these entries, and costs a logarithm of the leaf's values for each
/// that is of the btree, and memory for the leaf.
pub fn durable_leaf(
    alloc: Global,
    map: &KeyMap,
    queue: &EntryQueue,
    flight: Option<&Pending>,
    btree: Btree,
) -> Result<NodeMem, AllocError>
    requires alone { IsOneNode map.now.nodes btree }
    requires flight { IfSome flight (λ entry. AreChanges queue.now.queue.mirrors entry.now.changes) }
    ensures { IfOk result (λ leaf. leaf ≡ durable_leaf (option_copied flight.entry) queue.now.queue map.now
        btree) }
{
    see_widths(queue, flight, btree);
    let leaf = only_leaf(alloc, map, btree)?;
    taken_back(alloc, queue, flight, btree, leaf)
}

// A copy of the only leaf of a btree.
fn only_leaf(alloc: Global, map: &KeyMap, btree: Btree) -> Result<NodeMem, AllocError>
    requires { IsOneNode map.now.nodes btree }
    ensures least { IfOk result (λ leaf. leaf.least ≡ least_pos) }
    ensures greatest { IfOk result (λ leaf. leaf.greatest ≡ greatest_pos) }
    ensures part { IfOk result (IsPartOf (keys_in map.now) btree) }
    ensures keys { IsKeyMap (keys_in map.now) }
    ensures fit { All PosFits (keys_of (entries_of (keys_in map.now) btree)) }
{
    // The leaves of the keys are the nodes of level 0.
    let _ = map.height(btree);
    map.leaf(alloc, btree, &Pos::GREATEST)
}

// A node of level 0 of a btree with what isn't durable taken back, the newest first.
fn taken_back(
    alloc: Global,
    queue: &EntryQueue,
    flight: Option<&Pending>,
    btree: Btree,
    node: NodeMem,
) -> Result<NodeMem, AllocError>
    requires { IfSome flight (λ entry. AreChanges queue.now.queue.mirrors entry.now.changes) }
    ensures least { IfOk result (λ taken. taken.least ≡ node.least) }
    ensures greatest { IfOk result (λ taken. taken.greatest ≡ node.greatest) }
    ensures keys { (keys : AKeyMap) → IsKeyMap keys → IsPartOf keys btree node → IfOk result (IsPartOf
        (durable_keys (changes_in_flight (option_copied flight.entry)) queue.now.queue keys) btree) }
{
    let node = queue.taken_back(alloc, btree, node)?;
    match flight {
        None => Ok(node),
        Some(entry) => entry.taken_back(alloc, btree, node),
    }
}

/// The sequence of the oldest entry that isn't durable and changes the keys of a btree, or none. It goes over the updates of these
/// entries, up to the first of such a key.
pub fn first_undurable(queue: &EntryQueue, flight: Option<&Pending>, btree: Btree) -> Option<u64>
    requires { IfSome flight (λ entry. entry.now.after + 1 < 2 ^ 64) }
    ensures { result ≡ first_with btree (undurable (option_copied flight.entry) queue.now.queue) }
{
    match flight {
        None => queue.first_with(btree),
        Some(entry) => {
            if entry.has_keys_of(btree) {
                return Some(entry.after + 1);
            }
            queue.first_with(btree)
        }
    }
}
