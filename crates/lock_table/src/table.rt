ghost use Rattle.std.specs.Prelude.{ℕ, false, ◌≡◌, ◌≢◌, ◌<◌, ◌↔◌, IfOk, IfSome, IfNone, IsTrue, OnErr, length, replicate};
ghost use Rattle.six_lock.specs.Modes.{Mode as SixMode};
ghost use Rattle.six_lock.specs.Modes.Mode.{Shared, Intent, Exclusive};
ghost use Rattle.lock_table.specs.Tables.{actors, HoldsAt, HasNoCycle, IsHeld, IsSound, sequence_at};
ghost use Rattle.lock_table.specs.Calls.{Asks, Upgrades, Lowers, Drops, mode_of};
ghost use Rattle.lock_table.specs.Holdings.{Rules, restart_unless_granted};
ghost use Rattle.lock_table.specs.Runs.{fresh};

use crate::NodeName;
use crate::holding::{Holding, ask_kept, no_holdings, release_kept};
use crate::laws::sound_has_no_cycle;
use crate::node::{Node, called, is_in_use, lower_node, upgrade_node};
use crate::wait::Waiting;
use six_lock::Ask;
use std::alloc::{AllocError, Global};
use std::collections::BTreeMap;
use std::marker::Model;

/// The mode that an actor asks for.
#[derive(Clone, Copy, PartialEq, Eq)]
pub enum Mode {
    /// To read, beside others that read and one that holds intent.
    Shared,
    /// To write later, beside others that read.
    Intent,
}

/// The answer to an ask or an upgrade.
#[derive(Clone, Copy, PartialEq, Eq)]
pub enum Ruling {
    /// The actor holds what it asked for from now on.
    Granted,
    /// The holder of the node is in the way. The actor keeps what it holds, and may ask again.
    Wait { node: u64, holder: u8 },
    /// The holder of the node is in the way, and waiting for it might never end: the actor drops all that it holds and
    /// begins again.
    Restart { node: u64, holder: u8 },
}

/// The locks on the nodes that somebody holds, by their births, for a fixed number of actors.
#[derive(Drop)]
pub struct LockTable {
    nodes: BTreeMap<u64, Node>,
    // for each actor what it holds
    holdings: Vec<Holding>,
    // for each actor what its last ask waits for
    waits: Vec<Option<Waiting>>,
    // the sequence of each node that nobody holds: the greatest with which one was let go
    sequence: u64,
    alloc: Global,
}

impl Model for LockTable {
    ghost use Rattle.lock_table.specs.Tables.{Table};
    ghost use Rattle.lock_table.specs.Holdings.{IsTable};

    ghost Value = { Table };

    ghost view = { λ table. record { nodes = table.nodes.entries; waits = table.waits.items; sequence = table.sequence } };

    ghost invariant = { λ table. IsTable table.nodes.entries table.holdings.items table.waits.items table.sequence };
}

impl LockTable {
    /// A table of which nobody holds anything, for the actors below a number. It keeps the allocator.
    pub fn new(alloc: Global, count: u8) -> Result<Self, AllocError>
        ensures { IfOk result (λ table. table ≡ fresh count) }
    {
        Ok(LockTable {
            nodes: BTreeMap::new(alloc),
            holdings: no_holdings(alloc, count)?,
            waits: no_waits(alloc, count)?,
            sequence: 0,
            alloc,
        })
    }

    /// Asks for a mode of a node. It takes memory where nobody held the node, and for each node more that an actor holds;
    /// an `Err` changes nothing. A node that somebody holds goes by the name by which it was asked for first. Its cost
    /// grows with the logarithm of the number of nodes that are held, and a node's first lock takes a byte for each actor.
    pub fn ask(&mut self, actor: u8, node: &NodeName, mode: Mode) -> Result<Ruling, AllocError>
        requires { actor < actors self.old }
        ensures ok { IfOk result (λ ruling. Asks self.old actor node.now (mode_of mode) ruling
            self.new) }
        ensures err { OnErr result (self.new ≡ self.old) }
    {
        let count = self.waits.len() as u8;
        let name = called(&self.nodes, node);
        let is_above = self.holdings[actor as usize].is_below(&name);
        let answer = ask_kept(
            self.alloc,
            &mut self.nodes,
            &mut self.holdings,
            self.sequence,
            count,
            actor,
            node,
            mode,
        )?;
        Ok(rule(&mut self.waits, is_above, actor, &name, answer))
    }

    /// A law of every table, whatever was called before. Modes of one node that different actors hold go together, and
    /// exclusive is held by the holder of intent alone; and each actor that waits does so for a node above all that it
    /// holds.
    pub fn is_sound(&self)
        ensures { IsSound self.now }
    {
        let _ = &self.waits;
    }

    /// A law of every table: nobody waits for itself, over no matter how many others.
    pub fn has_no_cycle(&self)
        ensures { HasNoCycle self.now }
    {
        self.is_sound();
        sound_has_no_cycle();
    }

    /// For how many actors it is.
    pub fn count(&self) -> u8
        ensures { result ≡ actors self.now }
    {
        self.waits.len() as u8
    }

    /// Whether the actor holds intent on a node.
    pub fn has_intent(&self, actor: u8, birth: u64) -> bool
        ensures { IsTrue result ↔ HoldsAt self.now birth actor Intent }
    {
        match self.nodes.get(&birth) {
            Some(node) => node.lock.has_intent(actor),
            None => false,
        }
    }

    /// Whether the actor holds exclusive on a node.
    pub fn has_exclusive(&self, actor: u8, birth: u64) -> bool
        ensures { IsTrue result ↔ HoldsAt self.now birth actor Exclusive }
    {
        match self.nodes.get(&birth) {
            Some(node) => node.lock.has_exclusive(actor),
            None => false,
        }
    }

    /// Another actor that holds any mode of a node, if there is one. Its cost grows with the number of actors and with the
    /// logarithm of the number of nodes that are held.
    pub fn other_holder(&self, actor: u8, birth: u64) -> Option<u8>
        ensures some { IfSome result (λ holder. (holder ≢ actor)
            × ((mode : SixMode) × HoldsAt self.now birth holder mode)) }
        ensures none { IfNone result ((holder : ℕ) (mode : SixMode) → holder ≢ actor
            → HoldsAt self.now birth holder mode → ⊥) }
    {
        match self.nodes.get(&birth) {
            Some(node) => node.lock.other_holder(actor),
            None => None,
        }
    }

    /// Another actor that holds shared of a node, if there is one. Its cost is that of [`LockTable::other_holder`].
    pub fn other_reader(&self, actor: u8, birth: u64) -> Option<u8>
        ensures some { IfSome result (λ holder. (holder ≢ actor) × HoldsAt self.now birth holder
            Shared) }
        ensures none { IfNone result ((holder : ℕ) → holder ≢ actor → HoldsAt self.now birth holder
            Shared → ⊥) }
    {
        match self.nodes.get(&birth) {
            Some(node) => node.lock.other_reader(actor),
            None => None,
        }
    }

    /// Whether anybody holds a node. Its cost grows with the logarithm of the number of nodes that are held.
    pub fn is_held(&self, birth: u64) -> bool
        ensures yes { IsTrue result → IsHeld self.now birth }
        ensures no { result ≡ false → IsHeld self.now birth → ⊥ }
    {
        is_in_use(&self.nodes, birth)
    }

    /// A number that rises as an exclusive use of the node ends, and never falls, whether anybody holds the node or not.
    /// So who finds it as it was before knows that what it read of the node then still holds. It may rise without such a
    /// use: the table has one number for all nodes that nobody holds, the greatest with which one was let go.
    /// [`sequences_rise`] says so of every list of calls.
    pub fn seq(&self, birth: u64) -> u64
        ensures { result ≡ sequence_at self.now birth }
    {
        match self.nodes.get(&birth) {
            Some(node) => node.lock.seq(),
            None => self.sequence,
        }
    }

    /// Raises the actor's intent on a node to exclusive, before it writes. Its cost grows with the number of actors and
    /// with the logarithm of the number of nodes that are held.
    pub fn upgrade(&mut self, actor: u8, birth: u64) -> Ruling
        requires { HoldsAt self.old birth actor Intent }
        ensures { Upgrades self.old actor birth result self.new }
    {
        restart_unless(birth, upgrade_node(&mut self.nodes, birth, actor))
    }

    /// Ends the actor's exclusive use of a node: it holds intent again. Its cost grows with the logarithm of the number of
    /// nodes that are held.
    pub fn lower(&mut self, actor: u8, birth: u64)
        requires { HoldsAt self.old birth actor Exclusive }
        ensures { Lowers self.old birth self.new }
    {
        lower_node(&mut self.nodes, birth, actor);
    }

    /// Drops all that the actor holds, and what it waits for. Its cost is that of an upgrade for each node that it holds.
    pub fn drop_all(&mut self, actor: u8)
        requires { actor < actors self.old }
        ensures { Drops self.old actor self.new }
    {
        let place = actor as usize;
        let count = self.waits.len() as u8;
        release_kept(
            &mut self.nodes,
            &mut self.holdings,
            &mut self.sequence,
            count,
            actor,
        );
        self.waits[place] = None;
    }
}

// What so many actors wait for before any ask.
fn no_waits(alloc: Global, count: u8) -> Result<Vec<Option<Waiting>>, AllocError>
    ensures { IfOk result (λ waits. waits.items ≡ replicate count None) }
{
    let waits = vec![in alloc; None; count as usize]?;
    Ok(waits)
}

// Rules on the answer of a lock to an upgrade.
fn restart_unless(node: u64, answer: Ask) -> Ruling
    ensures { result ≡ restart_unless_granted node answer }
{
    match answer {
        Ask::Granted => Ruling::Granted,
        Ask::Held(holder) => Ruling::Restart { node, holder },
    }
}

// Rules on the answer of a lock, and notes what the actor waits for.
fn rule(
    waits: &mut Vec<Option<Waiting>>,
    is_above: bool,
    actor: u8,
    name: &NodeName,
    answer: Ask,
) -> Ruling
    requires { actor < length waits.old.items }
    ensures { Rules is_above actor name.now answer result waits.old.items waits.new.items }
{
    let place = actor as usize;
    let node = name.birth;
    let holder = match answer {
        Ask::Granted => {
            waits[place] = None;
            return Ruling::Granted;
        }
        Ask::Held(holder) => holder,
    };
    if is_above {
        waits[place] = Some(Waiting {
            node: *name,
            holder,
        });
        return Ruling::Wait { node, holder };
    }
    waits[place] = None;
    Ruling::Restart { node, holder }
}
