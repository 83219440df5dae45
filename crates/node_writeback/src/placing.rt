ghost use Rattle.std.specs.Ordering.{nat_cmp};
ghost use Rattle.std.specs.Prelude.{◌≡◌, [], IfOk, IsSome};
ghost use Rattle.bucket_pool.specs.Space.{emptied_all, settled_space};
ghost use Rattle.dirty_nodes.specs.Dirty.{moved_pin};
ghost use Rattle.node_writeback.specs.Placing.{MayMove, exchange_of, exchanges_of, fresh_places, moved_pins, places_of};
ghost use Rattle.vol_types.specs.Maps.{IsMap, value_at};

use crate::FrozenNode;
use birth_index::Exchange;
use btree_map::NodeName;
use bucket_pool::Pool;
use dirty_nodes::DirtyNodes;
use std::alloc::{AllocError, Global};
use vol_types::{Duplicate, NodePtr, Pos};

/// The pointers that frozen leaves are exchanged for. It takes memory for each.
pub fn exchanges_of(alloc: Global, frozen: &[FrozenNode]) -> Result<Vec<Exchange>, AllocError>
    ensures { IfOk result (λ changes. changes.items ≡ exchanges_of frozen.now) }
{
    let mut changes = Vec::new(alloc);
    for node in frozen {
        changes.push(exchange_of(alloc, node)?)?;
    }
    Ok(changes)
}

/// Puts pins and buckets right once frozen leaves are in place: each pins the oldest entry that changed it and whose keys it lacks, or none,
/// and the buckets of the leaves that they came in place of wait for the entry of this sequence. It takes no memory, and costs a
/// logarithm of the marked nodes for each, and a step for each node that was changed since leaves were put in place before.
pub fn put_in_place(
    frozen: &[FrozenNode],
    replaced: &[Exchange],
    dirty: &mut DirtyNodes,
    pool: &mut Pool,
    sequence: u64,
)
    requires { MayMove dirty.old.pins.numbers dirty.old.marks.numbers frozen.now }
    ensures pins { dirty.new.pins.numbers ≡ moved_pins frozen.now dirty.old.later.numbers
        dirty.old.pins.numbers }
    ensures marks { dirty.new.marks.numbers ≡ moved_pins frozen.now dirty.old.later.numbers
        dirty.old.marks.numbers }
    ensures later { dirty.new.later.numbers ≡ [] }
    ensures pool { pool.new ≡ emptied_all (places_of replaced.now) sequence pool.old }
{
    move_all(frozen, dirty);
    dirty.forget_later();
    empty_replaced(replaced, pool, sequence);
}

/// Gives frozen leaves up, which no entry names: what was noted of changed nodes is forgotten, and their buckets are free again.
/// `durable` is the sequence of the last durable entry. It takes no memory. It costs a step for each node that was changed, and goes over the
/// buckets of the groups in which one waits or is open.
pub fn give_up(frozen: &[FrozenNode], dirty: &mut DirtyNodes, pool: &mut Pool, durable: u64)
    ensures pins { dirty.new.pins ≡ dirty.old.pins }
    ensures marks { dirty.new.marks ≡ dirty.old.marks }
    ensures later { dirty.new.later.numbers ≡ [] }
    ensures pool { pool.new ≡ settled_space durable (emptied_all (fresh_places frozen.now) durable
        pool.old) }
{
    dirty.forget_later();
    empty_fresh(frozen, pool, durable);
    pool.settle(durable);
}

// The pointer that a frozen leaf is exchanged for.
fn exchange_of(alloc: Global, node: &FrozenNode) -> Result<Exchange, AllocError>
    ensures { IfOk result (λ change. change ≡ exchange_of node.now) }
{
    Ok(Exchange {
        name: NodeName {
            btree: node.btree,
            level: 0,
            greatest: Pos::GREATEST,
        },
        pointer: node.fresh.copy(alloc)?,
    })
}

// Gives frozen nodes the births that they were written with.
fn move_all(frozen: &[FrozenNode], dirty: &mut DirtyNodes)
    requires { MayMove dirty.old.pins.numbers dirty.old.marks.numbers frozen.now }
    ensures pins { dirty.new.pins.numbers ≡ moved_pins frozen.now dirty.old.later.numbers
        dirty.old.pins.numbers }
    ensures marks { dirty.new.marks.numbers ≡ moved_pins frozen.now dirty.old.later.numbers
        dirty.old.marks.numbers }
{
    for node in frozen {
        move_node(node, dirty);
    }
}

// Gives one frozen node the birth that it was written with.
fn move_node(node: &FrozenNode, dirty: &mut DirtyNodes)
    requires pinned { IsSome (value_at nat_cmp node.now.birth dirty.old.pins.numbers) }
    requires marked { IsSome (value_at nat_cmp node.now.birth dirty.old.marks.numbers) }
    ensures pins { dirty.new.pins.numbers ≡ moved_pin node.now.birth node.now.fresh.birth
        (value_at nat_cmp node.now.birth dirty.old.later.numbers) dirty.old.pins.numbers }
    ensures marks { dirty.new.marks.numbers ≡ moved_pin node.now.birth node.now.fresh.birth
        (value_at nat_cmp node.now.birth dirty.old.later.numbers) dirty.old.marks.numbers }
    ensures later { dirty.new.later.numbers ≡ dirty.old.later.numbers }
    ensures pins_rise { IsMap nat_cmp dirty.old.pins.numbers }
    ensures marks_rise { IsMap nat_cmp dirty.old.marks.numbers }
{
    // Pins and marks are finite maps.
    let _ = dirty.pin_of(node.birth);
    dirty.move_to(node.birth, node.fresh.birth);
}

// The buckets of replaced leaves wait for the entry of this sequence.
fn empty_replaced(replaced: &[Exchange], pool: &mut Pool, sequence: u64)
    ensures { pool.new ≡ emptied_all (places_of replaced.now) sequence pool.old }
{
    for change in replaced {
        empty_node(pool, &change.pointer, sequence);
    }
}

// So do those of frozen leaves that are given up.
fn empty_fresh(frozen: &[FrozenNode], pool: &mut Pool, sequence: u64)
    ensures { pool.new ≡ emptied_all (fresh_places frozen.now) sequence pool.old }
{
    for node in frozen {
        empty_node(pool, &node.fresh, sequence);
    }
}

// The buckets of a node wait for the entry of this sequence.
fn empty_node(pool: &mut Pool, node: &NodePtr, sequence: u64)
    ensures { pool.new ≡ emptied_all node.now.places sequence pool.old }
{
    for place in node.places.as_slice() {
        pool.wait(place, sequence);
    }
}
