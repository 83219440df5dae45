// How a cell is made, and how the machine comes back.
ghost use Rattle.std.specs.Prelude.{◌≡◌, ◌≤◌, [], ◌∷◌, MatchResult, Some};
ghost use Rattle.turn_cell.specs.Passes.{IsAlone, Closes, first_view};
ghost use Rattle.turn_cell.specs.Handles.{view, IsPassOf};

use super::{SLOT, TurnCell};
use crate::machine::Machine;
use crate::pass::{Pass, Ticket};
use crate::view::Opening;
use atomic_table::{Refused, Table};
use std::alloc::Global;
use std::snapshot::Snapshot;

impl<M: Machine> TurnCell<M> {
    /// Puts the machine into a cell. The pass is the first one: it has actor 0, and may give a pass for each other actor below
    /// `passes`. Where there is no memory the machine comes back.
    pub fn new(alloc: Global, machine: M, passes: u8) -> Result<(TurnCell<M>, Pass<M>), M>
        requires { (1 ≤ passes) × (passes ≤ M.actors) }
        ensures { MatchResult result (λ r. IsPassOf r.0 r.1
            × (view r.1 ≡ first_view M.trace M.mine machine passes)) (λ m. m ≡ machine) }
    {
        let words = [0, machine.length()];
        let about = Opening {
            machine: Snapshot::of(&machine),
            passes,
        };
        let mut slots = Vec::new(alloc);
        if slots.reserve(1).is_err() {
            slots.destroy_empty();
            return Err(machine);
        }
        slots.push_reserved(Some(machine));
        match Table::new(alloc, &words, slots, &about) {
            Ok((table, seat)) => {
                let ticket = Ticket { seat, actor: 0 };
                Ok((TurnCell { table }, Pass { ticket }))
            }
            Err(Refused { slots }) => Err(only(slots, &about.machine)),
        }
    }

    /// Takes the machine out of the cell. Every pass that the first one gave was joined, so no thread has the turn.
    pub fn close(self, pass: Pass<M>) -> M
        requires cell { IsPassOf self pass }
        requires alone { IsAlone (view pass) }
        ensures { Closes M.trace M.mine (view pass) result }
    {
        let Ticket { seat, actor: _ } = pass.ticket;
        let TurnCell { table } = self;
        let mut closed = table.close_with(seat);
        let slot = closed.take(SLOT);
        closed.free();
        let Some(machine) = slot else { unreachable!() };
        machine
    }
}

// The machine of a vector that has only it.
fn only<M>(mut slots: Vec<Option<M>>, machine: &Snapshot<M>) -> M
    requires { slots.items ≡ Some machine.now.value ∷ [] }
    ensures { result ≡ machine.now.value }
{
    let Some(Some(machine)) = slots.pop() else {
        unreachable!()
    };
    slots.destroy_empty();
    machine
}
