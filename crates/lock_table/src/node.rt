ghost use Rattle.std.specs.Prelude.{ℕ, false, ◌≡◌, ◌≢◌, ◌<◌, ◌↔◌, IfOk, OnOk, OnErr, IfSome, IfNone, IsSome, IsTrue, is_some};
ghost use Rattle.std.specs.Option.{unwrap_or};
ghost use Rattle.six_lock.specs.Modes.{Mode as SixMode};
ghost use Rattle.six_lock.specs.Modes.Mode.{Intent, Exclusive};
ghost use Rattle.six_lock.specs.Locks.{Asks, HoldsSome, IsFree, Releases, actors};
ghost use Rattle.lock_table.specs.Tables.{HoldsOf, node_at};
ghost use Rattle.lock_table.specs.Nodes.{EachInUse, AsksNode, UpgradesNode, LowersNode, ReleasesNode, name_of};
ghost use Rattle.lock_table.specs.Calls.{mode_of};

use crate::{Mode, NodeName};
use six_lock::{Ask, Six};
use std::alloc::{AllocError, Global};
use std::collections::BTreeMap;

/// A node that somebody holds.
#[derive(Drop)]
pub struct Node {
    pub name: NodeName,
    pub lock: Six,
}

// The name by which a node is held; the one that it is asked for by where nobody holds it.
pub(crate) fn called(nodes: &BTreeMap<u64, Node>, name: &NodeName) -> NodeName
    ensures { result ≡ unwrap_or (name_of (node_at nodes.now.entries name.now.birth)) name.now }
{
    match nodes.get(&name.birth) {
        Some(node) => node.name,
        None => *name,
    }
}

// Whether the actor holds the node.
pub(crate) fn is_held(nodes: &BTreeMap<u64, Node>, birth: u64, actor: u8) -> bool
    requires { (node : Node) → node_at nodes.now.entries birth ≡ Some node
        → actor < actors node.lock }
    ensures yes { IsTrue result → (mode : SixMode) × HoldsOf (node_at nodes.now.entries birth) actor
        mode }
    ensures no { result ≡ false → (mode : SixMode) → HoldsOf (node_at nodes.now.entries birth) actor
        mode → ⊥ }
{
    match nodes.get(&birth) {
        Some(node) => node.lock.is_held_by(actor),
        None => false,
    }
}

// Asks for a mode of a node's lock, which is made where nobody holds the node, and goes on from the sequence. An `Err`
// changes nothing.
pub(crate) fn ask_node(
    alloc: Global,
    nodes: &mut BTreeMap<u64, Node>,
    sequence: u64,
    count: u8,
    actor: u8,
    name: &NodeName,
    mode: Mode,
) -> Result<Ask, AllocError>
    requires actor { actor < count }
    requires in_use { EachInUse count nodes.old.entries }
    ensures ok { IfOk result (λ answer. AsksNode sequence nodes.old.entries actor name.now
        (mode_of mode) answer nodes.new.entries) }
    ensures in_use { EachInUse count nodes.new.entries }
    ensures err { OnErr result (nodes.new.entries ≡ nodes.old.entries) }
{
    if let Some(node) = nodes.get_mut(&name.birth) {
        return Ok(ask_lock(&mut node.lock, actor, mode));
    }
    let mut lock = Six::from_sequence(alloc, count, sequence)?;
    let answer = ask_lock(&mut lock, actor, mode);
    nodes.insert(name.birth, Node { name: *name, lock })?;
    Ok(answer)
}

// Asks for a mode of a lock.
fn ask_lock(lock: &mut Six, actor: u8, mode: Mode) -> Ask
    requires { actor < actors lock.old }
    ensures { Asks lock.old actor (mode_of mode) result lock.new }
{
    match mode {
        Mode::Shared => lock.shared(actor),
        Mode::Intent => lock.intent(actor),
    }
}

// Asks for exclusive, of the holder of intent.
pub(crate) fn upgrade_node(nodes: &mut BTreeMap<u64, Node>, birth: u64, actor: u8) -> Ask
    requires { HoldsOf (node_at nodes.old.entries birth) actor Intent }
    ensures answer { UpgradesNode nodes.old.entries birth actor result nodes.new.entries }
    ensures in_use { (count : ℕ) → EachInUse count nodes.old.entries
        → EachInUse count nodes.new.entries }
{
    match nodes.get_mut(&birth) {
        Some(node) => node.lock.exclusive(actor),
        None => unreachable!(),
    }
}

// Ends the exclusive use of a node.
pub(crate) fn lower_node(nodes: &mut BTreeMap<u64, Node>, birth: u64, actor: u8)
    requires { HoldsOf (node_at nodes.old.entries birth) actor Exclusive }
    ensures lowers { LowersNode nodes.old.entries birth nodes.new.entries }
    ensures in_use { (count : ℕ) → EachInUse count nodes.old.entries
        → EachInUse count nodes.new.entries }
{
    match nodes.get_mut(&birth) {
        Some(node) => node.lock.lower(actor),
        None => unreachable!(),
    }
}

// Lets go of a lock. It gives the lock's sequence where nobody holds it any more.
fn release_lock(lock: &mut Six, actor: u8) -> Option<u64>
    requires { actor < actors lock.old }
    ensures releases { Releases lock.old actor lock.new }
    ensures free { IfSome result (λ sequence. IsFree lock.new × (sequence ≡ lock.new.sequence)) }
    ensures held { IfNone result ((holder : ℕ) × HoldsSome lock.new holder) }
{
    lock.release(actor);
    if lock.is_free() {
        return Some(lock.seq());
    }
    None
}

// Lets go of a node. Where nobody holds it any more, it is forgotten, and its sequence is given.
pub(crate) fn release_node(nodes: &mut BTreeMap<u64, Node>, birth: u64, actor: u8) -> Option<u64>
    requires { (node : Node) → node_at nodes.old.entries birth ≡ Some node
        → actor < actors node.lock }
    ensures releases { ReleasesNode nodes.old.entries birth actor result nodes.new.entries }
    ensures in_use { (count : ℕ) → EachInUse count nodes.old.entries
        → EachInUse count nodes.new.entries }
    ensures was_held { IfSome result (λ _. IsSome (node_at nodes.old.entries birth)) }
{
    let gone = match nodes.get_mut(&birth) {
        Some(node) => release_lock(&mut node.lock, actor),
        None => return None,
    };
    match gone {
        Some(sequence) => {
            let _ = nodes.remove(&birth);
            Some(sequence)
        }
        None => None,
    }
}

// Whether anybody holds the node.
pub(crate) fn is_in_use(nodes: &BTreeMap<u64, Node>, birth: u64) -> bool
    ensures { result ≡ is_some (node_at nodes.now.entries birth) }
{
    nodes.contains_key(&birth)
}
