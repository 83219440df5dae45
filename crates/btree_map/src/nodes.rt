ghost use Rattle.std.specs.Prelude.{◌≡◌, ◌+◌, ◌-◌, ◌<◌, ◌∷◌, [], false, true, All, None, Some, IfOk, OnErr, OnOk, if◌then◌else◌, length, map, option_copied, slice_index_or, slice_set};
ghost use Rattle.birth_index.specs.Births.{ForHalves, ForRoots, IsFree, levels_of, root_named};
ghost use Rattle.birth_index.specs.Exchanges.{AreBefore, AreExchanges};
ghost use Rattle.btree_map.specs.Trees.{cut_of, cut_in, cuts_divided, cuts_joined, levels_in, no_cut, with_divided, with_exchanged, with_levels, with_root};
ghost use Rattle.tree_keys.specs.Counts.{leaf_size};
ghost use Rattle.tree_keys.specs.Cuts.{is_end, leaf_entries, start_of};
ghost use Rattle.tree_keys.specs.Sizes.{sizes_after};
ghost use Rattle.tree_nodes.specs.Levels.{Covers, EndsAt, IsNodeOf, children_of, divided, least_of, level_of, with_node};
ghost use Rattle.vol_types.specs.Btrees.{btree_code};
ghost use Rattle.vol_types.specs.Maps.{value_at};
ghost use Rattle.vol_types.specs.Positions.{IsBefore, greatest_pos, pos_cmp};
ghost use Rattle.vol_types.specs.Ranges.{IsKeyValue};

use crate::KeyMap;
use birth_index::{Exchange, IndexedNodes, NodeName};
use node_mem::{Change, NodeMem};
use std::alloc::{AllocError, Global};
use std::collections::btree_map;
use tree_keys::{LeafSize, TreeKeys};
use tree_nodes::{TreeNodes, changes_leave_trees};
use vol_types::{Btree, Listing, NodePtr, Pos, wide};

impl KeyMap {
    /// The node with this name, or none where there is no such node.
    pub fn node(&self, name: &NodeName) -> Option<&NodePtr>
        ensures { option_copied result ≡ value_at pos_cmp name.now.greatest
            (level_of (levels_in self.now name.now.btree) name.now.level) }
    {
        self.nodes(name.btree).get(name.level, &name.greatest)
    }

    /// The least position that the node with this name covers, or would cover.
    pub fn least(&self, name: &NodeName) -> Pos
        ensures { result ≡ least_of name.now.greatest
            (level_of (levels_in self.now name.now.btree) name.now.level) }
    {
        self.nodes(name.btree).least(name.level, &name.greatest)
    }

    /// The nodes of the level below that lie in the range of a node above the leaves, in order.
    pub fn children(&self, name: &NodeName) -> btree_map::Range<'_, Pos, NodePtr>
        requires above { 0 < name.now.level }
        requires there { name.now.level < length (levels_in self.now name.now.btree) }
        ensures { result ≡ children_of name.now.greatest
            (level_of (levels_in self.now name.now.btree) name.now.level)
            (level_of (levels_in self.now name.now.btree) (name.now.level - 1)) }
    {
        self.nodes(name.btree).children(name.level, &name.greatest)
    }

    /// A copy of the leaf of a btree that ends at a position, with its values. It takes memory for each.
    pub fn leaf(&self, alloc: Global, btree: Btree, greatest: &Pos) -> Result<NodeMem, AllocError>
        ensures { IfOk result (λ node. node ≡ record {
          least = start_of greatest.now (cut_in self.now btree).ends;
          greatest = greatest.now;
          entries = leaf_entries greatest.now (cut_in self.now btree);
        }) }
    {
        self.keys(btree).leaf(alloc, greatest)
    }

    /// How many bytes the leaf of a btree that ends at a position takes on disk as one set, or 2^32 - 1 where they are
    /// more, or none where no leaf ends there.
    pub fn leaf_size(&self, btree: Btree, greatest: &Pos) -> Option<u32>
        ensures { result ≡ (if is_end greatest.now (cut_in self.now btree).ends then Some
            (leaf_size greatest.now (cut_in self.now btree)) else None) }
    {
        self.keys(btree).size(greatest)
    }

    /// How many bytes each leaf of a btree that one of its changes touches would take on disk as one set after all of
    /// them, or 2^32 - 1 where they would be more, in the order of the leaves. It makes none of them, and takes memory for
    /// each position that is changed.
    pub fn sizes_after<C: Change>(
        &self,
        alloc: Global,
        btree: Btree,
        changes: &[C],
    ) -> Result<Listing<LeafSize>, AllocError>
        requires { All (λ change. IsKeyValue (C.key change).value) changes.now }
        ensures { IfOk result (λ sizes. sizes ≡ sizes_after (map C.key changes.now)
            (cut_in self.now btree)) }
    {
        self.keys(btree).sizes_after(alloc, changes)
    }

    /// Puts a pointer in the place of that of a node, and gives that one. Its birth is that of the node, or one that no
    /// node has. The keys stay. An `Err` is out of memory, and changes nothing.
    pub fn replace(&mut self, name: &NodeName, fresh: NodePtr) -> Result<NodePtr, AllocError>
        requires there { EndsAt (level_of (levels_in self.old name.now.btree) name.now.level)
            name.now.greatest }
        requires node { IsNodeOf name.now.level fresh }
        requires free { IsFree self.old.nodes name.now fresh.birth }
        ensures before { IfOk result (λ before. value_at pos_cmp name.now.greatest
            (level_of (levels_in self.old name.now.btree) name.now.level) ≡ Some before) }
        ensures ok { OnOk result (self.new ≡ with_levels name.now.btree
            (with_node name.now.level name.now.greatest fresh (levels_in self.old name.now.btree))
            self.old) }
        ensures err { OnErr result (self.new ≡ self.old) }
    {
        let _ = &self.keys;
        self.nodes.replace(name, fresh)
    }

    /// Exchanges the pointers of changes for those of their nodes, all or none: each change gets the one that its node had.
    /// Each node is there and named once; no node has the birth of one of the pointers, and no two of these have one birth.
    /// The keys stay. An `Err` is out of memory, and changes nothing.
    pub fn exchange(&mut self, alloc: Global, changes: &mut [Exchange]) -> Result<(), AllocError>
        requires { AreExchanges self.old.nodes changes.old }
        ensures ok { OnOk result (self.new ≡ with_exchanged changes.old self.old) }
        ensures before { OnOk result (AreBefore self.old.nodes changes.old changes.new) }
        ensures err { OnErr result (self.new ≡ self.old) }
        ensures kept { OnErr result (changes.new ≡ changes.old) }
    {
        let _ = &self.keys;
        self.nodes.exchange(alloc, changes)
    }

    /// Puts two nodes in the place of one that isn't the root: the first covers its positions up to `at`, and the second
    /// those after it. It gives the pointer that was there. Above the leaves a node below ends at `at`. A leaf is cut there,
    /// and no value moves. The births of both differ, and each is that of the node or one that no node has. An `Err` is out
    /// of memory, and changes nothing.
    pub fn divide(
        &mut self,
        name: &NodeName,
        at: &Pos,
        first: NodePtr,
        second: NodePtr,
    ) -> Result<NodePtr, AllocError>
        requires below { name.now.level + 1 < length (levels_in self.old name.now.btree) }
        requires covered { Covers
            (level_of (levels_in self.old name.now.btree) name.now.level) name.now.greatest at.now }
        requires before { IsBefore at.now name.now.greatest }
        requires child { 0 < name.now.level → EndsAt (level_of (levels_in self.old name.now.btree)
            (name.now.level - 1)) at.now }
        requires first { IsNodeOf name.now.level first }
        requires second { IsNodeOf name.now.level second }
        requires births { ForHalves self.old.nodes name.now first.birth second.birth }
        ensures before { IfOk result (λ before. value_at pos_cmp name.now.greatest
            (level_of (levels_in self.old name.now.btree) name.now.level) ≡ Some before) }
        ensures ok { OnOk result (self.new ≡ with_divided name.now.btree name.now.level at.now
            (divided name.now.level name.now.greatest at.now first second
            (levels_in self.old name.now.btree)) self.old) }
        ensures err { OnErr result (self.new ≡ self.old) }
    {
        let at = wide(at);
        divide_node(&mut self.keys, &mut self.nodes, name, &at, first, second)
    }

    /// Puts two nodes in the place of the root, as `divide` does, under a new root. It gives the pointer of the old one.
    /// The births of all three differ, and each is that of the old root or one that no node has. An `Err` is out of memory,
    /// and changes nothing.
    pub fn divide_root(
        &mut self,
        alloc: Global,
        btree: Btree,
        at: &Pos,
        first: NodePtr,
        second: NodePtr,
        root: NodePtr,
    ) -> Result<NodePtr, AllocError>
        requires before { IsBefore at.now greatest_pos }
        requires child { 1 < length (levels_in self.old btree) → EndsAt
            (level_of (levels_in self.old btree) (length (levels_in self.old btree) - 2)) at.now }
        requires first { IsNodeOf (length (levels_in self.old btree) - 1) first }
        requires second { IsNodeOf (length (levels_in self.old btree) - 1) second }
        requires root { IsNodeOf (length (levels_in self.old btree)) root }
        requires births { ForRoots self.old.nodes (root_named self.old.nodes btree) first.birth second.birth root.birth }
        ensures before { IfOk result (λ before. level_of (levels_in self.old btree)
            (length (levels_in self.old btree) - 1) ≡ (greatest_pos, before) ∷ []) }
        ensures ok { OnOk result (self.new ≡ with_divided btree
            (length (levels_in self.old btree) - 1) at.now
            (with_root root at.now first second (levels_in self.old btree)) self.old) }
        ensures err { OnErr result (self.new ≡ self.old) }
    {
        let at = wide(at);
        divide_top(
            alloc,
            &mut self.keys,
            &mut self.nodes,
            btree,
            &at,
            first,
            second,
            root,
        )
    }
}

// Puts two nodes in the place of a btree's root, under a new one.
fn divide_top(
    alloc: Global,
    keys: &mut Vec<TreeKeys>,
    nodes: &mut IndexedNodes,
    btree: Btree,
    at: &Pos,
    first: NodePtr,
    second: NodePtr,
    root: NodePtr,
) -> Result<NodePtr, AllocError>
    requires cuts { btree_code btree < length keys.old.items }
    requires nodes { btree_code btree < length nodes.old }
    requires before { IsBefore at.now greatest_pos }
    requires apart { length (levels_of nodes.old btree) ≡ 1 → is_end at.now
        (cut_of keys.old.items btree).ends ≡ false }
    requires child { 1 < length (levels_of nodes.old btree) → EndsAt
        (level_of (levels_of nodes.old btree) (length (levels_of nodes.old btree) - 2)) at.now }
    requires first { IsNodeOf (length (levels_of nodes.old btree) - 1) first }
    requires second { IsNodeOf (length (levels_of nodes.old btree) - 1) second }
    requires root { IsNodeOf (length (levels_of nodes.old btree)) root }
    requires births { ForRoots nodes.old (root_named nodes.old btree) first.birth second.birth root.birth }
    ensures before { IfOk result (λ before. level_of (levels_of nodes.old btree)
        (length (levels_of nodes.old btree) - 1) ≡ (greatest_pos, before) ∷ []) }
    ensures keys { OnOk result (keys.new.items ≡ cuts_divided (btree_code btree)
        (length (levels_of nodes.old btree) - 1) at.now keys.old.items) }
    ensures nodes { OnOk result (nodes.new ≡ slice_set nodes.old (btree_code btree)
        (with_root root at.now first second (levels_of nodes.old btree))) }
    ensures err_keys { OnErr result (keys.new.items ≡ keys.old.items) }
    ensures err_nodes { OnErr result (nodes.new ≡ nodes.old) }
{
    let code = usize::from(btree.code());
    let level = top_level(nodes, btree);
    cut_leaf(keys, code, level, at)?;
    match nodes.divide_root(alloc, btree, at, first, second, root) {
        Ok(before) => Ok(before),
        Err(error) => {
            join_leaf(keys, code, level, at);
            Err(error)
        }
    }
}

// The number of a btree's last level.
fn top_level(nodes: &IndexedNodes, btree: Btree) -> u8
    requires { btree_code btree < length nodes.now }
    ensures exact { result ≡ length (levels_of nodes.now btree) - 1 }
    ensures some { 0 < length (levels_of nodes.now btree) }
{
    let Some(tree) = nodes.get(btree) else {
        unreachable!()
    };
    let height = tree.height();
    changes_leave_trees();
    height - 1
}

// Puts two nodes in the place of one of a btree that isn't the root.
fn divide_node(
    keys: &mut Vec<TreeKeys>,
    nodes: &mut IndexedNodes,
    name: &NodeName,
    at: &Pos,
    first: NodePtr,
    second: NodePtr,
) -> Result<NodePtr, AllocError>
    requires cuts { btree_code name.now.btree < length keys.old.items }
    requires below { name.now.level + 1 < length (levels_of nodes.old name.now.btree) }
    requires covered { Covers (level_of (levels_of nodes.old name.now.btree) name.now.level)
        name.now.greatest at.now }
    requires before { IsBefore at.now name.now.greatest }
    requires inner { IsBefore at.now greatest_pos }
    requires apart { name.now.level ≡ 0 → is_end at.now
        (cut_of keys.old.items name.now.btree).ends ≡ false }
    requires child { 0 < name.now.level → EndsAt
        (level_of (levels_of nodes.old name.now.btree) (name.now.level - 1)) at.now }
    requires first { IsNodeOf name.now.level first }
    requires second { IsNodeOf name.now.level second }
    requires births { ForHalves nodes.old name.now first.birth second.birth }
    ensures before { IfOk result (λ before. value_at pos_cmp name.now.greatest
        (level_of (levels_of nodes.old name.now.btree) name.now.level) ≡ Some before) }
    ensures keys { OnOk result (keys.new.items ≡ cuts_divided (btree_code name.now.btree)
        name.now.level at.now keys.old.items) }
    ensures nodes { OnOk result (nodes.new ≡ slice_set nodes.old (btree_code name.now.btree)
        (divided name.now.level name.now.greatest at.now first second
        (levels_of nodes.old name.now.btree))) }
    ensures err_keys { OnErr result (keys.new.items ≡ keys.old.items) }
    ensures err_nodes { OnErr result (nodes.new ≡ nodes.old) }
{
    let code = usize::from(name.btree.code());
    let level = name.level;
    cut_leaf(keys, code, level, at)?;
    match nodes.divide(name, at, first, second) {
        Ok(before) => Ok(before),
        Err(error) => {
            join_leaf(keys, code, level, at);
            Err(error)
        }
    }
}

// Cuts the keys of a btree at a position, where the level is that of the leaves.
fn cut_leaf(keys: &mut Vec<TreeKeys>, code: usize, level: u8, at: &Pos) -> Result<(), AllocError>
    requires code { code < length keys.old.items }
    requires apart { level ≡ 0 → is_end at.now (slice_index_or keys.old.items code no_cut).ends
        ≡ false }
    ensures ok { OnOk result (keys.new.items ≡ cuts_divided code level at.now keys.old.items) }
    ensures err { OnErr result (keys.new.items ≡ keys.old.items) }
{
    if level > 0 {
        return Ok(());
    }
    let tree = &mut keys[code];
    tree.cut(at)
}

// Joins the leaves of a btree that meet at a position, where the level is theirs.
fn join_leaf(keys: &mut Vec<TreeKeys>, code: usize, level: u8, at: &Pos)
    requires code { code < length keys.old.items }
    requires end { level ≡ 0 → is_end at.now (slice_index_or keys.old.items code no_cut).ends
        ≡ true }
    requires inner { IsBefore at.now greatest_pos }
    ensures { keys.new.items ≡ cuts_joined code level at.now keys.old.items }
{
    if level == 0 {
        let tree = &mut keys[code];
        tree.join(at);
    }
}
