//! How a tree of pins changes. Each call costs a logarithm of the number of pins, and takes no memory.

ghost use Rattle.std.specs.Prelude.{ℕ, ◌≡◌, ◌<◌, ◌≤◌, ◌+◌, ◌-◌, ◌⊎◌, ◌∷◌, ◌++◌, ◌^◌, max, length, [], IsSome, IfSome, IfNone, is_some, if◌then◌else◌, vec_len, vec_capacity};
ghost use Rattle.std.specs.Ordering.{nat_cmp};
ghost use Rattle.vol_types.specs.Maps.{IsMap, value_at, without};
ghost use Rattle.pin_list.specs.Pins.{with_pin};
ghost use Rattle.pin_list.specs.Trees.{IsCut, IsMended, fewest};

use crate::tree::{Fork, Tree};

impl Tree {
    /// The tree with a number pinned for a node. A node that is pinned keeps the smaller number, and another takes a spare
    /// fork.
    pub fn pinned(self, spares: &mut Vec<Box<Fork>>, node: u64, seq: u64) -> Tree
        requires rises { IsMap nat_cmp self.0 }
        requires fits { length self.0 + 1 < 2 ^ 64 }
        requires spare { IsSome (value_at nat_cmp node self.0) ⊎ (0 < vec_len spares.old) }
        ensures pins { result.0 ≡ with_pin node seq self.0 }
        ensures least { self.1 ≤ result.1 }
        ensures most { result.1 ≤ self.1 + 1 }
        ensures low { fewest result.1 ≤ length result.0 }
        ensures spares { vec_len spares.new ≡ (if is_some (value_at nat_cmp node self.0) then vec_len
            spares.old else vec_len spares.old - 1) }
        ensures capacity { vec_capacity spares.new ≡ vec_capacity spares.old }
    {
        let Some(mut fork) = self.open() else {
            return first_pin(spares, node, seq);
        };
        if node < fork.node {
            fork.left = fork.left.take().pinned(spares, node, seq);
            return Tree::balanced(fork);
        }
        if fork.node < node {
            fork.right = fork.right.take().pinned(spares, node, seq);
            return Tree::balanced(fork);
        }
        fork.seq = seq.min(fork.seq);
        Tree::close(fork)
    }

    /// The tree without a node's pin, if it has one, whose fork is spare again.
    #[tactic(auto, using(crate::proofs::Levels::fewest_none))]
    pub fn released(self, spares: &mut Vec<Box<Fork>>, node: u64) -> Tree
        requires rises { IsMap nat_cmp self.0 }
        requires fits { length self.0 < 2 ^ 64 }
        requires room { IsSome (value_at nat_cmp node self.0) → vec_len spares.old < vec_capacity
            spares.old }
        ensures pins { result.0 ≡ without nat_cmp node self.0 }
        ensures least { self.1 ≤ result.1 + 1 }
        ensures most { result.1 ≤ self.1 }
        ensures low { fewest result.1 ≤ length result.0 }
        ensures spares { vec_len spares.new ≡ (if is_some (value_at nat_cmp node self.0) then vec_len
            spares.old + 1 else vec_len spares.old) }
        ensures capacity { vec_capacity spares.new ≡ vec_capacity spares.old }
    {
        let Some(mut fork) = self.open() else {
            return Tree::new();
        };
        if node < fork.node {
            fork.left = fork.left.take().released(spares, node);
            return Tree::balanced(fork);
        }
        if fork.node < node {
            fork.right = fork.right.take().released(spares, node);
            return Tree::balanced(fork);
        }
        let left = fork.left.take();
        let right = fork.right.take();
        spares.push_reserved(fork);
        joined(left, right)
    }

    // The first pin's fork, and the tree of the others.
    fn cut(self) -> Option<(Box<Fork>, Tree)>
        requires { length self.0 < 2 ^ 64 }
        ensures none { IfNone result (self ≡ ([], 0)) }
        ensures some { IfSome result (λ cut. IsCut self cut.0.value cut.1) }
    {
        let mut fork = self.open()?;
        match fork.left.take().cut() {
            None => {
                let rest = fork.right.take();
                Some((fork, rest))
            }
            Some((first, rest)) => {
                fork.left = rest;
                Some((first, Tree::balanced(fork)))
            }
        }
    }
}

// The tree of a node's pin alone, with a spare fork.
fn first_pin(spares: &mut Vec<Box<Fork>>, node: u64, seq: u64) -> Tree
    requires { 0 < vec_len spares.old }
    ensures pins { result.0 ≡ (node, seq) ∷ [] }
    ensures height { result.1 ≡ 1 }
    ensures low { fewest result.1 ≤ length result.0 }
    ensures spares { vec_len spares.new ≡ vec_len spares.old - 1 }
    ensures capacity { vec_capacity spares.new ≡ vec_capacity spares.old }
{
    let Some(mut fork) = spares.pop() else {
        unreachable!()
    };
    *fork = Fork::blank(node, seq);
    Tree::close(fork)
}

// One tree's pins and another's, whose heights differ by at most one.
fn joined(left: Tree, right: Tree) -> Tree
    requires lower { left.1 ≤ right.1 + 1 }
    requires higher { right.1 ≤ left.1 + 1 }
    requires left { fewest left.1 ≤ length left.0 }
    requires right { fewest right.1 ≤ length right.0 }
    requires fits { length (left.0 ++ right.0) < 2 ^ 64 }
    ensures pins { result.0 ≡ left.0 ++ right.0 }
    ensures least { max left.1 right.1 ≤ result.1 }
    ensures most { result.1 ≤ max left.1 right.1 + 1 }
    ensures low { fewest result.1 ≤ length result.0 }
{
    match right.cut() {
        None => left,
        Some((mut fork, rest)) => {
            fork.left = left;
            fork.right = rest;
            Tree::balanced(fork)
        }
    }
}
