// What a pass knows, as plain data, and the rule that the cell keeps.
use crate::machine::Machine;
use atomic_table::{Seat, Shared, Table, TableRule};
use std::alloc::Global;
use std::collections::LinkedList;
use std::snapshot::Snapshot;

/// What the first pass knows of one actor.
pub enum Standing<N> {
    /// No pass has had it.
    Unused,
    /// A pass has it.
    InUse,
    /// Its pass was joined. The machine keeps this of it.
    Joined(N),
}

/// What the first pass knows of all actors. No value of it is made.
pub struct Ledger<M, N> {
    /// The machine with which the cell was made.
    pub opening: M,
    /// By actor, of those that passes may have.
    pub standings: LinkedList<Standing<N>>,
}

/// What a pass knows. No value of it is made.
pub struct View<M, E, N> {
    pub actor: u8,
    /// The prefix of the machine's trace that it has seen.
    pub prefix: LinkedList<E>,
    /// What the machine keeps of its actor. None where the pass was joined.
    pub mine: Option<N>,
    /// The machine that it found or left, while it has the turn.
    pub turn: Option<M>,
    /// Of the first pass alone.
    pub ledger: Option<Ledger<M, N>>,
}

/// What a cell is told when it is made.
#[derive(Drop)]
pub struct Opening<M> {
    pub(crate) machine: Snapshot<M>,
    pub(crate) passes: u8,
}

pub struct Turns;

impl<M: Machine> TableRule<Option<M>, View<M, M::Entry, M::Mine>, Opening<M>> for Turns {
    ghost use Rattle.turn_cell.specs.Passes.{first_view};
    ghost use Rattle.turn_cell.specs.Rule.{IsKept};

    ghost holds = { λ _. IsKept M.actors M.trace M.mine };

    ghost first = { λ about. first_view M.trace M.mine about.machine.value about.passes };
}

pub(crate) type Board<M> = Table<
    Option<M>,
    View<M, <M as Machine>::Entry, <M as Machine>::Mine>,
    Opening<M>,
    Turns,
    Global,
>;

pub(crate) type Top<M> = Shared<
    Option<M>,
    View<M, <M as Machine>::Entry, <M as Machine>::Mine>,
    Opening<M>,
    Turns,
>;

pub(crate) type Place<M> = Seat<Option<M>, View<M, <M as Machine>::Entry, <M as Machine>::Mine>>;
