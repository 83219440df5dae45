//! The pins of a journal: which nodes hold back entries, and the oldest entry that is held back.
//!
//! A node that has keys of entries which aren't written with it yet pins the oldest of these entries. The journal may
//! give up the entries before the oldest pin.
#![tactic(auto)]

ghost use Rattle.std.specs.Prelude.{ℕ, ◌≡◌, ◌<◌, ◌≤◌, ◌+◌, ◌-◌, ◌⊎◌, ◌==◌, IsSome, IfSome, IfNone, is_some, length, [], take, OnOk, OnErr, IfOk, if◌then◌else◌, vec_len, vec_capacity};
ghost use Rattle.std.specs.Ordering.{nat_cmp};
ghost use Rattle.vol_types.specs.Maps.{value_at, without};
ghost use Rattle.pin_list.specs.Pins.{Pins, IsOldest, with_pin, least_pin};

use std::alloc::{AllocError, Global};
use std::marker::Model;
use tree::{Fork, Tree};

mod changes;
mod tree;

/// Nodes with the sequence number that each pins.
///
/// It is a balanced search tree by node, in which each subtree knows the least number in it, beside spare places for further
/// nodes. So `get`, `pin` and `release` cost a logarithm of the number of pinned nodes, and `oldest` and `len` one look. A
/// place, taken or spare, is an allocation of 48 bytes, beside 8 in a list.
#[derive(Drop)]
pub struct PinList {
    alloc: Global,
    tree: Tree,
    len: usize,
    // made beforehand; the list has room for the forks of the tree too, so that each can come back
    spares: Vec<Box<Fork>>,
}

impl Model for PinList {
    ghost use Rattle.std.specs.Prelude.{vec_len, vec_capacity};
    ghost use Rattle.pin_list.specs.Pins.{Pins, IsKept};

    ghost Value = { Pins };

    ghost view = { λ list. record { numbers = list.tree.0; spare = vec_len list.spares } };

    ghost invariant = { λ list. IsKept list.tree.0 list.len (vec_len list.spares) (vec_capacity
        list.spares) };
}

impl PinList {
    /// No pins, and no room for any. It takes no memory.
    pub fn new(alloc: Global) -> Result<PinList, AllocError>
        ensures { IfOk result (λ list. list.numbers ≡ []) }
    {
        Ok(PinList {
            alloc,
            tree: Tree::new(),
            len: 0,
            spares: Vec::new(alloc),
        })
    }

    /// Makes room for at least so many nodes more than are pinned. It takes memory once for each place that isn't there yet,
    /// and for the list of them where that is too short. An `Err` changes nothing.
    pub fn reserve(&mut self, more: usize) -> Result<(), AllocError>
        ensures numbers { self.new.numbers ≡ self.old.numbers }
        ensures room { self.old.spare ≤ self.new.spare }
        ensures ok { OnOk result (more ≤ self.new.spare) }
        ensures err { OnErr result (self.new ≡ self.old) }
    {
        let spare = self.spares.len();
        if more <= spare {
            return Ok(());
        }
        let room = self.len.checked_add(more - spare).ok_or(AllocError)?;
        self.spares.reserve(room)?;
        let made = make(self.alloc, &mut self.spares, more);
        if made.is_err() {
            self.spares.truncate(spare);
        }
        made
    }

    /// Pins a number for a node. A node that is pinned keeps the smaller number, and else takes up room for one node. It takes
    /// no memory.
    pub fn pin(&mut self, node: u64, seq: u64)
        requires { IsSome (value_at nat_cmp node self.old.numbers) ⊎ (0 < self.old.spare) }
        ensures numbers { self.new.numbers ≡ with_pin node seq self.old.numbers }
        ensures spare { (if is_some (value_at nat_cmp node self.old.numbers) then self.old.spare
            else self.old.spare - 1) ≤ self.new.spare }
    {
        let spare = self.spares.len();
        self.tree = self.tree.take().pinned(&mut self.spares, node, seq);
        self.len += spare - self.spares.len();
    }

    /// The number that a node pins.
    pub fn get(&self, node: u64) -> Option<u64>
        ensures { result ≡ value_at nat_cmp node self.now.numbers }
    {
        self.tree.get(node)
    }

    /// How many nodes are pinned.
    pub fn len(&self) -> usize
        ensures { result ≡ length self.now.numbers }
    {
        self.len
    }

    /// Whether no node is pinned.
    pub fn is_empty(&self) -> bool
        ensures { result ≡ (length self.now.numbers == 0) }
    {
        self.len == 0
    }

    /// The least number that a node pins.
    pub fn oldest(&self) -> Option<u64>
        ensures some { IfSome result (IsOldest self.now.numbers) }
        ensures none { IfNone result (self.now.numbers ≡ []) }
        ensures value { result ≡ least_pin self.now.numbers }
    {
        self.tree.least()
    }

    /// Takes the pin of a node away, if it has one, and its room is spare again. It takes no memory, and gives none back.
    pub fn release(&mut self, node: u64)
        ensures numbers { self.new.numbers ≡ without nat_cmp node self.old.numbers }
        ensures spare { self.new.spare ≡ (if is_some (value_at nat_cmp node self.old.numbers) then
            self.old.spare + 1 else self.old.spare) }
    {
        let spare = self.spares.len();
        self.tree = self.tree.take().released(&mut self.spares, node);
        self.len -= self.spares.len() - spare;
    }

    /// Takes all pins away, and gives their memory back. Room that was spare stays.
    pub fn clear(&mut self)
        ensures numbers { self.new.numbers ≡ [] }
        ensures spare { self.new.spare ≡ self.old.spare }
    {
        self.tree = Tree::new();
        self.len = 0;
    }
}

// Makes spare forks until there are so many, for which the list has room.
fn make(alloc: Global, spares: &mut Vec<Box<Fork>>, wanted: usize) -> Result<(), AllocError>
    requires within { vec_len spares.old ≤ wanted }
    requires room { wanted ≤ vec_capacity spares.old }
    ensures more { vec_len spares.old ≤ vec_len spares.new }
    ensures most { vec_len spares.new ≤ wanted }
    ensures ok { OnOk result (vec_len spares.new ≡ wanted) }
    ensures capacity { vec_capacity spares.new ≡ vec_capacity spares.old }
{
    while spares.len() < wanted {
        let fork = Box::new(alloc, Fork::blank(0, 0))?;
        spares.push_reserved(fork);
    }
    Ok(())
}
