// The cell that threads share.
ghost use Rattle.std.specs.Prelude.{◌≡◌};

use crate::machine::Machine;
use crate::view::Board;

mod open;
mod passes;
mod steps;

// Indexes of the words and of the slot in the table.
const TURN: usize = 0;

const COUNT: usize = 1;

const SLOT: usize = 0;

/// A machine that threads share by turns. In memory it is a word for the turn, one for the length of the trace, and the
/// machine.
#[derive(Drop)]
pub struct TurnCell<M: Machine> {
    table: Board<M>,
    ghost sized: { (table.shared.table_id.words ≡ 2) × (table.shared.table_id.slots ≡ 1) },
}
