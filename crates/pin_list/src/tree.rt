//! A balanced tree of pins, in forks that were made beforehand.

ghost use Rattle.std.specs.Prelude.{ℕ, ◌≡◌, ◌<◌, ◌≤◌, ◌+◌, ◌∷◌, ◌++◌, ◌^◌, max, length, [], Option};
ghost use Rattle.std.specs.Ordering.{nat_cmp};
ghost use Rattle.vol_types.specs.Maps.{IsMap, value_at};
ghost use Rattle.pin_list.specs.Pins.{least_pin, smaller};
ghost use Rattle.pin_list.specs.Trees.{pins_of, shape_of, AreSides, IsTree, IsMended, fewest};

use std::marker::Model;

/// Pins as a search tree by node, seen as the list of them in the order of their nodes, and as its height. The heights of a
/// fork's sides differ by at most one, so that a tree of n pins has at most about 1.44 times log2(n) levels (`fewest`).
#[cycle(tree)]
#[derive(Drop)]
pub(crate) struct Tree {
    top: Option<Box<Fork>>,
}

/// A pin between the trees of smaller and of greater nodes. At the top of a tree it knows the tree's height and least number;
/// by itself it may not, since its pin or its sides were changed.
#[cycle(tree)]
#[derive(Drop)]
pub(crate) struct Fork {
    pub left: Tree,
    pub node: u64,
    pub seq: u64,
    pub right: Tree,
    least: u64,
    height: u64,
}

impl Model for Tree {
    ghost use Rattle.std.specs.Prelude.{ℕ, List, length};

    ghost Value = { List (ℕ × ℕ) × ℕ };

    ghost use Rattle.pin_list.specs.Trees.{shape_of, IsTree};

    ghost view = { λ tree. shape_of tree.top };

    ghost invariant = { λ tree. IsTree tree.top };

    ghost size = { λ shape. length shape.0 };

    ghost use Rattle.std.proofs.Common.{arith, length-append};

    ghost size_decreases = { λ a h. Prim.grind (arith, length-append) };
}

impl Fork {
    /// A fork without pins at its sides.
    #[tactic(auto, using(crate::proofs::Levels::fewest_none))]
    pub fn blank(node: u64, seq: u64) -> Fork
        ensures pins { pins_of result ≡ (node, seq) ∷ [] }
        ensures sides { AreSides 0 result }
    {
        Fork {
            left: Tree::new(),
            node,
            seq,
            right: Tree::new(),
            least: seq,
            height: 1,
        }
    }
}

impl Tree {
    pub fn new() -> Tree
        ensures { result ≡ ([], 0) }
    {
        Tree { top: None }
    }

    /// The tree, in whose place an empty one is left.
    pub fn take(&mut self) -> Tree
        ensures value { result ≡ self.old }
        ensures after { self.new ≡ ([], 0) }
    {
        Tree {
            top: self.top.take(),
        }
    }

    /// How many levels the tree has.
    pub fn height(&self) -> u64
        ensures { result ≡ self.now.1 }
    {
        match &self.top {
            None => 0,
            Some(fork) => fork.height,
        }
    }

    /// The least number that is pinned.
    pub fn least(&self) -> Option<u64>
        ensures { result ≡ least_pin self.now.0 }
    {
        match &self.top {
            None => None,
            Some(fork) => Some(fork.least),
        }
    }

    /// The number that a node pins.
    pub fn get(&self, node: u64) -> Option<u64>
        requires { IsMap nat_cmp self.now.0 }
        ensures { result ≡ value_at nat_cmp node self.now.0 }
    {
        match &self.top {
            None => None,
            Some(fork) => {
                if node < fork.node {
                    return fork.left.get(node);
                }
                if fork.node < node {
                    return fork.right.get(node);
                }
                Some(fork.seq)
            }
        }
    }

    /// The fork at the top.
    pub fn open(self) -> Option<Box<Fork>>
        ensures same { shape_of result ≡ self }
        ensures balanced { IsTree result }
    {
        self.top
    }

    /// The tree with this fork at its top, whose height and least number are worked out from its sides.
    pub fn close(mut fork: Box<Fork>) -> Tree
        requires sides { AreSides 1 fork.value }
        requires fits { length (pins_of fork.value) < 2 ^ 64 }
        ensures pins { result.0 ≡ pins_of fork.value }
        ensures height { result.1 ≡ max fork.value.left.1 fork.value.right.1 + 1 }
        ensures low { fewest result.1 ≤ length result.0 }
    {
        fork.height = fork.left.height().max(fork.right.height()) + 1;
        fork.least = least_of(fork.left.least(), fork.seq, fork.right.least());
        Tree { top: Some(fork) }
    }

    /// The tree of the fork's pins, whose sides may differ by two in height: then it is turned.
    pub fn balanced(fork: Box<Fork>) -> Tree
        requires sides { AreSides 2 fork.value }
        requires fits { length (pins_of fork.value) < 2 ^ 64 }
        ensures pins { result.0 ≡ pins_of fork.value }
        ensures height { IsMended fork.value.left.1 fork.value.right.1 result.1 }
        ensures low { fewest result.1 ≤ length result.0 }
    {
        let left = fork.left.height();
        let right = fork.right.height();
        if left > right && left - right > 1 {
            return lean_left(fork);
        }
        if right > left && right - left > 1 {
            return lean_right(fork);
        }
        Tree::close(fork)
    }
}

// The least of the numbers at both sides and of a pin between them.
fn least_of(left: Option<u64>, seq: u64, right: Option<u64>) -> u64
    ensures { result ≡ smaller (smaller seq left) right }
{
    smaller_of(smaller_of(seq, left), right)
}

// The smaller of a number and another, if there is another.
fn smaller_of(seq: u64, other: Option<u64>) -> u64
    ensures { result ≡ smaller seq other }
{
    match other {
        None => seq,
        Some(other) => seq.min(other),
    }
}

// The tree of a fork whose left side is two levels higher than its right one.
fn lean_left(mut fork: Box<Fork>) -> Tree
    requires sides { AreSides 2 fork.value }
    requires higher { fork.value.left.1 ≡ fork.value.right.1 + 2 }
    requires fits { length (pins_of fork.value) < 2 ^ 64 }
    ensures pins { result.0 ≡ pins_of fork.value }
    ensures least { fork.value.left.1 ≤ result.1 }
    ensures most { result.1 ≤ fork.value.left.1 + 1 }
    ensures low { fewest result.1 ≤ length result.0 }
{
    let Some(mut up) = fork.left.take().open() else {
        unreachable!()
    };
    if up.left.height() >= up.right.height() {
        fork.left = up.right.take();
        up.right = Tree::close(fork);
        return Tree::close(up);
    }
    let Some(mut top) = up.right.take().open() else {
        unreachable!()
    };
    up.right = top.left.take();
    fork.left = top.right.take();
    top.left = Tree::close(up);
    top.right = Tree::close(fork);
    Tree::close(top)
}

// The tree of a fork whose right side is two levels higher than its left one.
fn lean_right(mut fork: Box<Fork>) -> Tree
    requires sides { AreSides 2 fork.value }
    requires higher { fork.value.right.1 ≡ fork.value.left.1 + 2 }
    requires fits { length (pins_of fork.value) < 2 ^ 64 }
    ensures pins { result.0 ≡ pins_of fork.value }
    ensures least { fork.value.right.1 ≤ result.1 }
    ensures most { result.1 ≤ fork.value.right.1 + 1 }
    ensures low { fewest result.1 ≤ length result.0 }
{
    let Some(mut up) = fork.right.take().open() else {
        unreachable!()
    };
    if up.right.height() >= up.left.height() {
        fork.right = up.left.take();
        up.left = Tree::close(fork);
        return Tree::close(up);
    }
    let Some(mut top) = up.left.take().open() else {
        unreachable!()
    };
    up.left = top.right.take();
    fork.right = top.left.take();
    top.right = Tree::close(up);
    top.left = Tree::close(fork);
    Tree::close(top)
}
