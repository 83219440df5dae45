ghost use Rattle.std.specs.Prelude.{◌≡◌, ◌≢◌, ◌↔◌, ◌+◌, ◌-◌, ◌<◌, ◌≤◌, ◌∷◌, [], Some, IsSome, IfSome, IfOk, OnOk, OnErr, length, option_copied, option_map, slice_get, vec_capacity};
ghost use Rattle.std.specs.Map.Iter.{deref_pair};
ghost use Rattle.std.specs.declared.cmp.Ordering.TheVariants.{Greater};
ghost use Rattle.vol_types.specs.Maps.{value_at};
ghost use Rattle.vol_types.specs.Positions.{pos_cmp, greatest_pos, least_pos, IsBefore};
ghost use Rattle.tree_nodes.specs.Levels.{Covers, EndsAt, IsLevel, IsNodeOf, IsTree, children_of, divided, least_of, level_of, node_at, under_root, with_node};

use crate::LevelNodes;
use crate::shape::is_tree;
use std::alloc::{AllocError, Global};
use std::collections::btree_map;
use std::marker::Model;
use vol_types::{Duplicate, Listing, NodePtr, Pos, wide};

/// Levels that aren't those of a btree.
#[derive(Clone, Copy, PartialEq, Eq)]
pub struct NotATree;

/// The nodes of a btree, level by level, of which level 0 has the leaves. There are at most 8 levels. Each look costs a
/// logarithm of the number of a level's nodes, and so does each change.
#[derive(Drop)]
pub struct TreeNodes {
    levels: Vec<LevelNodes>,
}

impl Model for TreeNodes {
    ghost use Rattle.tree_nodes.specs.Levels.{Levels, IsTree};

    ghost Value = { Levels };

    ghost view = { λ tree. tree.levels.items };

    ghost invariant = { λ tree. IsTree tree.levels.items };
}

impl TreeNodes {
    /// The tree of one node, which is a leaf and the root.
    pub fn leaf(alloc: Global, root: NodePtr) -> Result<TreeNodes, AllocError>
        requires { IsNodeOf 0 root }
        ensures { IfOk result (λ tree. tree ≡ under_root root []) }
    {
        let mut levels = Vec::new(alloc);
        levels.push(root_level(alloc, root)?)?;
        Ok(TreeNodes { levels })
    }

    /// The tree of levels, from the leaves up, where they make one. It looks at each node, and takes no memory.
    pub fn of(levels: Listing<LevelNodes>) -> Result<TreeNodes, NotATree>
        ensures ok { IfOk result (λ tree. tree ≡ levels) }
        ensures sound { OnOk result (IsTree levels) }
        ensures err { OnErr result (¬ IsTree levels) }
    {
        if !is_tree(levels.as_slice()) {
            return Err(NotATree);
        }
        Ok(TreeNodes {
            levels: Vec::from(levels),
        })
    }

    /// How many levels there are, from 1 to 8.
    pub fn height(&self) -> u8
        ensures exact { result ≡ length self.now }
        ensures sound { IsTree self.now }
    {
        self.levels.len() as u8
    }

    /// The node of the last level, which covers all positions.
    pub fn root(&self) -> &NodePtr
        ensures { level_of self.now (length self.now - 1) ≡ (greatest_pos, result.now) ∷ [] }
    {
        match self.levels.as_slice().last() {
            Some(top) => only_node(top),
            None => unreachable!(),
        }
    }

    /// The nodes of a level, or none where there is no such level.
    pub fn level(&self, level: u8) -> Option<&LevelNodes>
        ensures found { option_copied result ≡ slice_get self.now level }
        ensures sound { IfSome result (λ nodes. IsLevel level nodes.now) }
    {
        self.levels.get(usize::from(level))
    }

    /// The node of a level that covers a position, with the greatest position that it covers.
    pub fn node_at(&self, level: u8, pos: &Pos) -> Option<(&Pos, &NodePtr)>
        ensures found { option_map deref_pair result ≡ node_at pos.now (level_of self.now level) }
        ensures there { IsSome result ↔ (level < length self.now) }
        ensures covers { IfSome result (λ node. Covers (level_of self.now level) node.0.now pos.now) }
    {
        let pos = wide(pos);
        match self.level(level) {
            None => None,
            Some(nodes) => nodes.node_at(&pos),
        }
    }

    /// The node of a level whose greatest position this is.
    pub fn get(&self, level: u8, greatest: &Pos) -> Option<&NodePtr>
        ensures { option_copied result ≡ value_at pos_cmp greatest.now (level_of self.now level) }
    {
        match self.level(level) {
            None => None,
            Some(nodes) => nodes.get(greatest),
        }
    }

    /// The least position that the node of a level covers whose greatest position this is, or which such a node would
    /// cover: the one that follows the node before.
    pub fn least(&self, level: u8, greatest: &Pos) -> Pos
        ensures exact { result ≡ least_of greatest.now (level_of self.now level) }
        ensures within { pos_cmp result greatest.now ≢ Greater }
    {
        match self.level(level) {
            None => first_up_to(greatest),
            Some(nodes) => nodes.least(greatest),
        }
    }

    /// The nodes of the level below that lie in the range of a node above the leaves, whose greatest position this is, in
    /// order.
    pub fn children(&self, level: u8, greatest: &Pos) -> btree_map::Range<'_, Pos, NodePtr>
        requires above { 0 < level }
        requires there { level < length self.now }
        ensures { result ≡ children_of greatest.now (level_of self.now level)
            (level_of self.now (level - 1)) }
    {
        let Some(nodes) = self.level(level) else {
            unreachable!()
        };
        let Some(below) = self.level(level - 1) else {
            unreachable!()
        };
        below.children_in(nodes, greatest)
    }

    /// Puts a pointer in the place of that of a node, and gives that one. It takes no memory.
    pub fn replace(&mut self, level: u8, greatest: &Pos, fresh: NodePtr) -> NodePtr
        requires there { EndsAt (level_of self.old level) greatest.now }
        requires node { IsNodeOf level fresh }
        ensures before { value_at pos_cmp greatest.now (level_of self.old level) ≡ Some result }
        ensures after { self.new ≡ with_node level greatest.now fresh self.old }
    {
        replace_node(&mut self.levels, level, greatest, fresh)
    }

    /// Puts two nodes in the place of one that isn't the root: the first covers its positions up to `at`, and the second
    /// those after it. It gives the pointer that was there. An `Err` is out of memory, and changes nothing.
    pub fn divide(
        &mut self,
        level: u8,
        greatest: &Pos,
        at: &Pos,
        first: NodePtr,
        second: NodePtr,
    ) -> Result<NodePtr, AllocError>
        requires below { level + 1 < length self.old }
        requires covered { Covers (level_of self.old level) greatest.now at.now }
        requires before { IsBefore at.now greatest.now }
        requires child { 0 < level → EndsAt (level_of self.old (level - 1)) at.now }
        requires first { IsNodeOf level first }
        requires second { IsNodeOf level second }
        ensures before { IfOk result (λ before. value_at pos_cmp greatest.now
            (level_of self.old level) ≡ Some before) }
        ensures ok { OnOk result (self.new ≡ divided level greatest.now at.now first second
            self.old) }
        ensures err { OnErr result (self.new ≡ self.old) }
    {
        let at = wide(at);
        divide_node(&mut self.levels, level, greatest, &at, first, second)
    }

    /// Puts two nodes in the place of the root, as `divide` does, under a new root. It gives the pointer of the old one.
    /// An `Err` is out of memory, and changes nothing.
    pub fn divide_root(
        &mut self,
        alloc: Global,
        at: &Pos,
        first: NodePtr,
        second: NodePtr,
        root: NodePtr,
    ) -> Result<NodePtr, AllocError>
        requires before { IsBefore at.now greatest_pos }
        requires child { 1 < length self.old → EndsAt (level_of self.old (length self.old - 2))
            at.now }
        requires first { IsNodeOf (length self.old - 1) first }
        requires second { IsNodeOf (length self.old - 1) second }
        requires root { IsNodeOf (length self.old) root }
        ensures before { IfOk result (λ before. level_of self.old (length self.old - 1)
            ≡ (greatest_pos, before) ∷ []) }
        ensures ok { OnOk result (self.new
            ≡ under_root root (divided (length self.old - 1) greatest_pos at.now first second self.old)) }
        ensures err { OnErr result (self.new ≡ self.old) }
    {
        let at = wide(at);
        divide_top(alloc, &mut self.levels, &at, first, second, root)
    }
}

impl Duplicate for TreeNodes {
    /// It costs as many steps as there are nodes.
    fn copy(&self, alloc: Global) -> Result<Self, AllocError> {
        let levels = LevelNodes::copy_all(alloc, self.levels.as_slice())?;
        Ok(TreeNodes {
            levels: Vec::from(levels),
        })
    }
}

// The least position, which none is before.
fn first_up_to(pos: &Pos) -> Pos
    ensures exact { result ≡ least_pos }
    ensures within { pos_cmp result pos.now ≢ Greater }
{
    let _ = wide(pos);
    Pos::LEAST
}

// A level of one node, which covers all positions.
fn root_level(alloc: Global, root: NodePtr) -> Result<LevelNodes, AllocError>
    ensures { IfOk result (λ top. top ≡ (greatest_pos, root) ∷ []) }
{
    let mut top = LevelNodes::new(alloc);
    top.put(&Pos::GREATEST, root)?;
    Ok(top)
}

// The node of a level that has one, which covers all positions.
fn only_node(top: &LevelNodes) -> &NodePtr
    requires one { length top.now ≡ 1 }
    requires ends { EndsAt top.now greatest_pos }
    ensures { top.now ≡ (greatest_pos, result.now) ∷ [] }
{
    match top.get(&Pos::GREATEST) {
        Some(root) => root,
        None => unreachable!(),
    }
}

// Puts a pointer in the place of that of a node.
fn replace_node(levels: &mut Vec<LevelNodes>, level: u8, greatest: &Pos, fresh: NodePtr) -> NodePtr
    requires { EndsAt (level_of levels.old.items level) greatest.now }
    ensures before { value_at pos_cmp greatest.now (level_of levels.old.items level) ≡ Some result }
    ensures after { levels.new.items ≡ with_node level greatest.now fresh levels.old.items }
{
    let nodes = &mut levels[usize::from(level)];
    nodes.replace(greatest, fresh)
}

// Puts two nodes in the place of one.
fn divide_node(
    levels: &mut Vec<LevelNodes>,
    level: u8,
    greatest: &Pos,
    at: &Pos,
    first: NodePtr,
    second: NodePtr,
) -> Result<NodePtr, AllocError>
    requires there { EndsAt (level_of levels.old.items level) greatest.now }
    requires before { IsBefore at.now greatest.now }
    ensures before { IfOk result (λ before. value_at pos_cmp greatest.now
        (level_of levels.old.items level) ≡ Some before) }
    ensures ok { OnOk result (levels.new.items ≡ divided level greatest.now at.now first second
        levels.old.items) }
    ensures err { OnErr result (levels.new.items ≡ levels.old.items) }
    ensures room { vec_capacity levels.new ≡ vec_capacity levels.old }
{
    let nodes = &mut levels[usize::from(level)];
    nodes.divide(greatest, at, first, second)
}

// Puts two nodes in the place of the root, under a new one.
fn divide_top(
    alloc: Global,
    levels: &mut Vec<LevelNodes>,
    at: &Pos,
    first: NodePtr,
    second: NodePtr,
    root: NodePtr,
) -> Result<NodePtr, AllocError>
    requires few { length levels.old.items ≤ 8 }
    requires there { EndsAt (level_of levels.old.items (length levels.old.items - 1)) greatest_pos }
    requires before { IsBefore at.now greatest_pos }
    ensures before { IfOk result (λ before.
        value_at pos_cmp greatest_pos (level_of levels.old.items (length levels.old.items - 1)) ≡ Some before) }
    ensures ok { OnOk result (levels.new.items
        ≡ under_root root (divided (length levels.old.items - 1) greatest_pos at.now first second levels.old.items)) }
    ensures err { OnErr result (levels.new.items ≡ levels.old.items) }
{
    let top = root_level(alloc, root)?;
    levels.reserve(1)?;
    let level = levels.len() as u8 - 1;
    let before = divide_node(levels, level, &Pos::GREATEST, at, first, second)?;
    if levels.push(top).is_err() {
        unreachable!()
    }
    Ok(before)
}
