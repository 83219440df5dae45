ghost use Rattle.std.specs.Prelude.{◌≡◌, ◌<◌, ◌-◌, All, IfOk, OnOk, length, true};
ghost use Rattle.node_mem.specs.Nodes.{with_entries};
ghost use Rattle.vol_types.specs.KeyMaps.{IsKeyMap, KeyMap, is_update_of, with_update};
ghost use Rattle.vol_types.specs.Maps.{put_at};
ghost use Rattle.vol_types.specs.Positions.{is_within, pos_cmp};
ghost use Rattle.vol_types.specs.Ranges.{IsKeyValue};
ghost use Rattle.journal_writer.specs.Changes.{IsPartOf, changes_btree, giving, taken_back};

use node_mem::NodeMem;
use std::alloc::{AllocError, Global};
use vol_types::{Btree, Duplicate, Listing, Pos, Update, Updates, Value, positions_are_ordered};

/// Updates in the order in which they were made and, beside each, the value that its position had before it, or none.
#[derive(PartialEq, Eq, Drop)]
pub struct KeyChanges {
    pub updates: Updates,
    pub before: Listing<Option<Value>>,
}

/// An entry of the journal that isn't written yet.
#[derive(PartialEq, Eq, Drop)]
pub struct Pending {
    /// The sequence of the entry before it: its own is the next one.
    pub after: u64,
    /// The last block of the journal that the entry before it takes: its own begin with the next one.
    pub behind: u64,
    /// How many commits there were since format, those of this entry included.
    pub commits: u64,
    /// What its commits changed.
    pub changes: KeyChanges,
}

impl Pending {
    /// Whether the entry changes the keys of a btree. It goes over its updates, up to the first of such a key.
    pub fn has_keys_of(&self, btree: Btree) -> bool
        ensures { result ≡ changes_btree btree self.now.changes.updates }
    {
        has_keys_of(self.changes.updates.as_slice(), btree)
    }

    /// A node of level 0 of a btree with the changes of this entry taken back, the last one first. It costs what the function
    /// `taken_back` does.
    pub fn taken_back(
        &self,
        alloc: Global,
        btree: Btree,
        node: NodeMem,
    ) -> Result<NodeMem, AllocError>
        requires pairs { length self.now.changes.before ≡ length self.now.changes.updates }
        requires in_range { All IsKeyValue self.now.changes.before }
        ensures least { IfOk result (λ taken. taken.least ≡ node.least) }
        ensures greatest { IfOk result (λ taken. taken.greatest ≡ node.greatest) }
        ensures keys { (keys : KeyMap) → IsKeyMap keys → IsPartOf keys btree node
            → IfOk result (IsPartOf (taken_back self.now.changes.updates self.now.changes.before keys)
            btree) }
    {
        let updates = self.changes.updates.as_slice();
        let before = self.changes.before.as_slice();
        taken_back(alloc, updates, before, btree, node)
    }
}

/// Whether updates change the keys of a btree; those of pointers to its nodes don't. It goes over the updates, up to the first
/// of such a key.
pub fn has_keys_of(updates: &[Update], btree: Btree) -> bool
    ensures { result ≡ changes_btree btree updates.now }
{
    updates.iter().any(|update| is_leaf_update(btree, update))
}

/// A node of level 0 of a btree with updates taken back, the last one first, each by the value beside it from before, so that
/// the node has what the btree had in its range before them. It goes over all the updates, and costs a logarithm of the
/// node's values, and memory for a copy of the value from before, for each that lies in it.
pub fn taken_back(
    alloc: Global,
    updates: &[Update],
    before: &[Option<Value>],
    btree: Btree,
    node: NodeMem,
) -> Result<NodeMem, AllocError>
    requires pairs { length before.now ≡ length updates.now }
    requires in_range { All IsKeyValue before.now }
    ensures least { IfOk result (λ taken. taken.least ≡ node.least) }
    ensures greatest { IfOk result (λ taken. taken.greatest ≡ node.greatest) }
    ensures keys { (keys : KeyMap) → IsKeyMap keys → IsPartOf keys btree node
        → IfOk result (IsPartOf (taken_back updates.now before.now keys) btree) }
{
    let mut node = node;
    let count = updates.len();
    for done in 0..count {
        let at = last_left(count, done);
        node = take_back(alloc, &updates[at], &before[at], btree, node)?;
    }
    Ok(node)
}

// The node with one update taken back, if that lies in it.
fn take_back(
    alloc: Global,
    update: &Update,
    value: &Option<Value>,
    btree: Btree,
    node: NodeMem,
) -> Result<NodeMem, AllocError>
    requires in_range { IsKeyValue value.now }
    ensures least { IfOk result (λ taken. taken.least ≡ node.least) }
    ensures greatest { IfOk result (λ taken. taken.greatest ≡ node.greatest) }
    ensures keys { (keys : KeyMap) → IsKeyMap keys → IsPartOf keys btree node
        → IfOk result (IsPartOf (with_update (giving value.now update.now) keys) btree) }
{
    if !is_leaf_update(btree, update) {
        return Ok(node);
    }
    if !covers(&node, &update.pos) {
        return Ok(node);
    }
    put_back(alloc, update, value, node)
}

// Whether an update is of the leaves of a btree.
fn is_leaf_update(btree: Btree, update: &Update) -> bool
    ensures { result ≡ is_update_of btree update.now }
{
    update.level == 0 && update.btree.code() == btree.code()
}

// Whether a node covers a position.
pub(crate) fn covers(node: &NodeMem, pos: &Pos) -> bool
    ensures { result ≡ is_within node.now.least node.now.greatest pos.now }
{
    node.least() <= *pos && *pos <= node.greatest()
}

// The node with the value from before an update at its position, or none.
fn put_back(
    alloc: Global,
    update: &Update,
    value: &Option<Value>,
    node: NodeMem,
) -> Result<NodeMem, AllocError>
    requires covered { is_within node.least node.greatest update.now.pos ≡ true }
    requires in_range { IsKeyValue value.now }
    ensures { IfOk result (λ put. put ≡ with_entries node (put_at pos_cmp update.now.pos value.now
        node.entries)) }
{
    let mut node = node;
    match put_copy(alloc, &mut node, &update.pos, value) {
        Ok(()) => Ok(node),
        Err(error) => {
            drop(node);
            Err(error)
        }
    }
}

// Puts a copy of a value into a node, or takes the value at this position away.
fn put_copy(
    alloc: Global,
    node: &mut NodeMem,
    pos: &Pos,
    value: &Option<Value>,
) -> Result<(), AllocError>
    requires covered { is_within node.old.least node.old.greatest pos.now ≡ true }
    requires in_range { IsKeyValue value.now }
    ensures { OnOk result (node.new ≡ with_entries node.old (put_at pos_cmp pos.now value.now
        node.old.entries)) }
{
    positions_are_ordered();
    let copy = value.copy(alloc)?;
    let before = node.put(pos, copy)?;
    drop(before);
    Ok(())
}

// The place of the last of so many that isn't taken back.
pub(crate) fn last_left(count: usize, done: usize) -> usize
    requires { done < count }
    ensures { result ≡ count - 1 - done }
{
    count - 1 - done
}
