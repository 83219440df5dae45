// How a pass makes an event.
ghost use Rattle.std.specs.Prelude.{◌≡◌, ◌≢◌, ℕ, [], ◌∷◌, Some, None, IsSome, IfSome};
ghost use mathlib.Core.List.{IsPrefix};
ghost use Rattle.turn_cell.specs.Passes.{Steps, caught_up};
ghost use Rattle.turn_cell.specs.Rule.{Takes};
ghost use Rattle.turn_cell.specs.Handles.{view, IsPassOf};

use super::{COUNT, SLOT, TURN, TurnCell};
use crate::machine::Machine;
use crate::pass::Pass;
use crate::plays::{Count, Free, Take};
use crate::view::Place;
use std::sync::Wait;

impl<M: Machine> TurnCell<M> {
    /// Waits for the turn, and makes one event of the pass's actor. It costs the event and a few atomic steps, and wakes one
    /// thread that waits.
    pub fn step<R: Wait>(&self, rt: &R, pass: &mut Pass<M>, event: M::Event) -> M::Answer
        requires cell { IsPassOf self.now pass.old }
        requires event { IfSome (view pass.old).mine (λ kept. M.fits kept event) }
        ensures cell { IsPassOf self.now pass.new }
        ensures step { Steps M.trace M.mine M.gives (view pass.old) event result (view pass.new) }
    {
        let actor = pass.ticket.actor;
        self.step_at(rt, &mut pass.ticket.seat, actor, event)
    }

    fn step_at<R: Wait>(&self, rt: &R, seat: &mut Place<M>, actor: u8, event: M::Event) -> M::Answer
        requires cell { seat.old.table_id ≡ self.now.table.shared.table_id }
        requires actor { seat.old.me.0.actor ≡ actor }
        requires idle { (seat.old.me.1 ≡ []) × (seat.old.me.0.turn ≡ None) }
        requires live { IsSome seat.old.me.0.mine }
        requires event { IfSome seat.old.me.0.mine (λ kept. M.fits kept event) }
        ensures cell { seat.new.table_id ≡ seat.old.table_id }
        ensures step { Steps M.trace M.mine M.gives seat.old.me.0 event result seat.new.me.0 }
        ensures idle { seat.new.me.1 ≡ [] }
    {
        self.take(rt, seat);
        let Some(mut machine) = self.table.shared.exchange(seat, SLOT, None) else {
            unreachable!()
        };
        let answer = machine.step(actor, event);
        self.put(seat, machine);
        answer
    }

    // Waits until the turn is free, and takes it with the slot.
    fn take<R: Wait>(&self, rt: &R, seat: &mut Place<M>)
        requires cell { seat.old.table_id ≡ self.now.table.shared.table_id }
        requires live { IsSome seat.old.me.0.mine }
        ensures cell { seat.new.table_id ≡ seat.old.table_id }
        ensures taken { Takes M.actors M.trace M.mine seat.old.me seat.new.me }
    {
        let shared = &self.table.shared;
        for _ in rt.forever() {
            if shared.compare_exchange::<Take>(seat, TURN, 0, 1) == 0 {
                return;
            }
            shared.park(rt, TURN, 1);
        }
        unreachable!()
    }

    // Puts the machine into the slot after its event, counts the trace, and frees the turn.
    fn put(&self, seat: &mut Place<M>, machine: M)
        requires cell { seat.old.table_id ≡ self.now.table.shared.table_id }
        requires slot { seat.old.me.1 ≡ (0, None) ∷ [] }
        requires turn { IfSome seat.old.me.0.turn (λ m. IsPrefix (M.trace m) (M.trace machine)
            × ((other : ℕ) → other ≢ seat.old.me.0.actor → M.mine machine other ≡ M.mine m other)) }
        requires live { IsSome seat.old.me.0.turn × IsSome seat.old.me.0.mine }
        ensures cell { seat.new.table_id ≡ seat.old.table_id }
        ensures view { seat.new.me ≡ (
          record (caught_up M.trace M.mine machine seat.old.me.0)
              { turn = None },
          [],
        ) }
    {
        let length = machine.length();
        let shared = &self.table.shared;
        let nothing = shared.exchange(seat, SLOT, Some(machine));
        let None = nothing else { unreachable!() };
        shared.store::<Count>(seat, COUNT, length);
        shared.store::<Free>(seat, TURN, 0);
        shared.wake_one(TURN);
    }
}
