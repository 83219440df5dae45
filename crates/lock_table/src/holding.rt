ghost use Rattle.std.specs.Prelude.{ℕ, ◌≡◌, ◌<◌, ◌+◌, ◌↔◌, ◌++◌, ◌∷◌, [], IfOk, OnOk, OnErr, IsTrue, if◌then◌else◌, vec_len, vec_capacity, length};
ghost use Rattle.std.specs.List.{All};
ghost use Rattle.six_lock.specs.Modes.{Mode as SixMode};
ghost use Rattle.lock_table.specs.Tables.{HoldsOf, node_at};
ghost use Rattle.lock_table.specs.Nodes.{EachInUse, AsksNode, ReleasesAll};
ghost use Rattle.lock_table.specs.Holdings.{IsListed, IsOver, IsHolding, IsKept, highest_with, raised_by};
ghost use Rattle.lock_table.specs.Calls.{mode_of};

use crate::node::{Node, ask_node, called, is_held, release_node};
use crate::{Mode, NodeName};
use six_lock::Ask;
use std::alloc::{AllocError, Global};
use std::collections::BTreeMap;

/// What is kept of an actor: the births of the nodes that it holds, and the name of the highest of them.
#[derive(Drop)]
pub struct Holding {
    pub births: Vec<u64>,
    pub highest: Option<NodeName>,
}

impl Holding {
    // Nothing is held.
    pub(crate) fn new(alloc: Global) -> Self
        ensures births { result.births.items ≡ [] }
        ensures highest { result.highest ≡ None }
    {
        Holding {
            births: Vec::new(alloc),
            highest: None,
        }
    }

    // Whether the node stands above all that is held.
    pub(crate) fn is_below(&self, name: &NodeName) -> bool
        ensures { IsTrue result ↔ IsOver self.now.highest name.now }
    {
        match &self.highest {
            Some(top) => name.is_above(top),
            None => true,
        }
    }

    // Notes a node that is held from now on, and that wasn't held before where it is new.
    fn add(&mut self, birth: u64, name: &NodeName, is_new: bool)
        requires { vec_len self.old.births < vec_capacity self.old.births }
        ensures births { self.new.births.items ≡ (if is_new then self.old.births.items ++ birth ∷ []
            else self.old.births.items) }
        ensures highest { self.new.highest ≡ highest_with self.old.highest name.now }
    {
        if self.is_below(name) {
            self.highest = Some(*name);
        }
        if is_new && self.births.push(birth).is_err() {
            unreachable!();
        }
    }
}

// Asks for a mode of a node, and notes what the actor holds. An `Err` changes nothing.
fn ask_noted(
    alloc: Global,
    nodes: &mut BTreeMap<u64, Node>,
    holding: &mut Holding,
    sequence: u64,
    count: u8,
    actor: u8,
    name: &NodeName,
    mode: Mode,
) -> Result<Ask, AllocError>
    requires actor { actor < count }
    requires in_use { EachInUse count nodes.old.entries }
    requires holding { IsHolding nodes.old.entries actor holding.old }
    ensures ok { IfOk result (λ answer. AsksNode sequence nodes.old.entries actor name.now
        (mode_of mode) answer nodes.new.entries) }
    ensures in_use { EachInUse count nodes.new.entries }
    ensures holding { IsHolding nodes.new.entries actor holding.new }
    ensures err { OnErr result (nodes.new.entries ≡ nodes.old.entries) }
{
    let called = called(nodes, name);
    let is_new = !is_held(nodes, name.birth, actor);
    holding.births.reserve(1)?;
    match ask_node(alloc, nodes, sequence, count, actor, name, mode)? {
        Ask::Granted => {
            holding.add(name.birth, &called, is_new);
            Ok(Ask::Granted)
        }
        Ask::Held(holder) => Ok(Ask::Held(holder)),
    }
}

// Lets go of all that the actor holds.
pub(crate) fn release_noted(
    nodes: &mut BTreeMap<u64, Node>,
    holding: &mut Holding,
    sequence: &mut u64,
    count: u8,
    actor: u8,
)
    requires actor { actor < count }
    requires in_use { EachInUse count nodes.old.entries }
    requires holding { IsHolding nodes.old.entries actor holding.old }
    ensures releases { ReleasesAll sequence.old nodes.old.entries actor sequence.new
        nodes.new.entries }
    ensures in_use { EachInUse count nodes.new.entries }
    ensures holding { IsHolding nodes.new.entries actor holding.new }
{
    release_all(nodes, &holding.births, sequence, count, actor);
    holding.births.clear();
    holding.highest = None;
}

// Lets go of these nodes, among which is each that the actor holds.
fn release_all(
    nodes: &mut BTreeMap<u64, Node>,
    births: &[u64],
    sequence: &mut u64,
    count: u8,
    actor: u8,
)
    requires actor { actor < count }
    requires in_use { EachInUse count nodes.old.entries }
    requires listed { (b : ℕ) (m : SixMode) → HoldsOf (node_at nodes.old.entries b) actor m
        → IsListed births.now b }
    ensures releases { ReleasesAll sequence.old nodes.old.entries actor sequence.new
        nodes.new.entries }
    ensures in_use { EachInUse count nodes.new.entries }
{
    for birth in births {
        let gone = release_node(nodes, *birth, actor);
        *sequence = raised(*sequence, gone);
    }
}

// The sequence, or the one with which a node is gone where that is greater.
fn raised(sequence: u64, gone: Option<u64>) -> u64
    ensures { result ≡ raised_by sequence gone }
{
    match gone {
        Some(last) => last.max(sequence),
        None => sequence,
    }
}

// Asks for a mode of a node, and notes what the actor holds. An `Err` changes nothing.
pub(crate) fn ask_kept(
    alloc: Global,
    nodes: &mut BTreeMap<u64, Node>,
    holdings: &mut Vec<Holding>,
    sequence: u64,
    count: u8,
    actor: u8,
    name: &NodeName,
    mode: Mode,
) -> Result<Ask, AllocError>
    requires actor { actor < count }
    requires kept { IsKept nodes.old.entries holdings.old.items count }
    ensures ok { IfOk result (λ answer. AsksNode sequence nodes.old.entries actor name.now
        (mode_of mode) answer nodes.new.entries) }
    ensures kept { IsKept nodes.new.entries holdings.new.items count }
    ensures err { OnErr result (nodes.new.entries ≡ nodes.old.entries) }
{
    let holding = &mut holdings[actor as usize];
    ask_noted(alloc, nodes, holding, sequence, count, actor, name, mode)
}

// Lets go of all that the actor holds, which is all that is kept of it.
pub(crate) fn release_kept(
    nodes: &mut BTreeMap<u64, Node>,
    holdings: &mut Vec<Holding>,
    sequence: &mut u64,
    count: u8,
    actor: u8,
)
    requires actor { actor < count }
    requires kept { IsKept nodes.old.entries holdings.old.items count }
    ensures releases { ReleasesAll sequence.old nodes.old.entries actor sequence.new
        nodes.new.entries }
    ensures kept { IsKept nodes.new.entries holdings.new.items count }
{
    let holding = &mut holdings[actor as usize];
    release_noted(nodes, holding, sequence, count, actor);
}

// What is kept of so many actors before any ask.
pub(crate) fn no_holdings(alloc: Global, count: u8) -> Result<Vec<Holding>, AllocError>
    ensures count { IfOk result (λ holdings. length holdings.items ≡ count) }
    ensures free { IfOk result (λ holdings. All (λ holding. holding.highest ≡ None) holdings.items) }
{
    let mut holdings = Vec::new(alloc);
    for _ in 0..count {
        holdings.push(Holding::new(alloc))?;
    }
    Ok(holdings)
}
