// How the first pass gives passes, and takes them in.
ghost use Rattle.std.specs.Prelude.{◌≡◌, [], None, IsSome};
ghost use Rattle.turn_cell.specs.Passes.{MayGive, gave, given, joined};
ghost use Rattle.turn_cell.specs.Handles.{view, IsPassOf};

use super::TurnCell;
use crate::machine::Machine;
use crate::pass::{Pass, Ticket};
use crate::plays::{Give, Merge, Named};
use crate::view::Place;
use std::marker::Brand;

impl<M: Machine> TurnCell<M> {
    /// A pass for another actor, which has seen as much as the first one. It takes no memory.
    pub fn split(&self, pass: &mut Pass<M>, actor: u8) -> Pass<M>
        requires cell { IsPassOf self.now pass.old }
        requires actor { MayGive (view pass.old) actor }
        ensures cell { IsPassOf self.now pass.new × IsPassOf self.now result }
        ensures old { view pass.new ≡ gave actor (view pass.old) }
        ensures new { view result ≡ given M.mine actor (view pass.old) }
    {
        let seat = self.split_as::<Brand>(&mut pass.ticket.seat, actor);
        let ticket = Ticket { seat, actor };
        Pass { ticket }
    }

    // A `Split` takes no argument, so a type names the actor.
    fn split_as<A: Named>(&self, seat: &mut Place<M>, actor: u8) -> Place<M>
        requires named { A.actor ≡ actor }
        requires cell { seat.old.table_id ≡ self.now.table.shared.table_id }
        requires actor { MayGive seat.old.me.0 A.actor }
        requires idle { (seat.old.me.0.turn ≡ None) × IsSome seat.old.me.0.mine }
        ensures cell { (seat.new.table_id ≡ seat.old.table_id)
            × (result.table_id ≡ seat.old.table_id) }
        ensures old { seat.new.me ≡ (gave A.actor seat.old.me.0, seat.old.me.1) }
        ensures new { result.me ≡ (given M.mine A.actor seat.old.me.0, []) }
    {
        let _ = actor;
        self.table.shared.split_seat::<Give<A>>(seat)
    }

    /// Takes another pass into the first one, which has then seen the longer of their two prefixes. The other's actor is
    /// given to nobody again.
    pub fn join(&self, pass: &mut Pass<M>, other: Pass<M>)
        requires cell { IsPassOf self.now pass.old × IsPassOf self.now other }
        requires first { IsSome (view pass.old).ledger }
        ensures cell { IsPassOf self.now pass.new }
        ensures view { view pass.new ≡ joined (view pass.old) (view other) }
    {
        let Ticket { seat, actor: _ } = other.ticket;
        self.table
            .shared
            .join_seat::<Merge>(&mut pass.ticket.seat, seat);
    }
}
