// What a thread steps with.
ghost use Rattle.turn_cell.specs.Rule.{IsIdle, IsLive, IsActorOf};

use crate::machine::Machine;
use crate::view::View;
use atomic_table::Seat;

// The seat of a pass, and its actor. It names no bound, so that closures may return it at any machine.
#[derive(Drop)]
pub(crate) struct Ticket<M, E, N> {
    pub(crate) seat: Seat<Option<M>, View<M, E, N>>,
    pub(crate) actor: u8,
    ghost idle: { IsIdle seat },
    ghost live: { IsLive seat },
    ghost named: { IsActorOf seat actor },
}

/// The right to make the events of one actor, with what is known of the machine. It may go to another thread.
#[derive(Drop)]
pub struct Pass<M: Machine> {
    pub(crate) ticket: Ticket<M, M::Entry, M::Mine>,
}
