// What each atomic step tells the pass that makes it.
ghost use Rattle.std.specs.Prelude.{ℕ};

use crate::machine::Machine;
use crate::view::View;
use atomic_table::{Join, Play, Split};
use std::marker::{Brand, PhantomData};

pub(crate) struct Take;

impl<M: Machine> Play<Option<M>, View<M, M::Entry, M::Mine>> for Take {
    ghost use Rattle.turn_cell.specs.Rule.{takes};

    ghost then = { takes M.actors M.trace M.mine };
}

pub(crate) struct Count;

impl<M: Machine> Play<Option<M>, View<M, M::Entry, M::Mine>> for Count {
    ghost use Rattle.turn_cell.specs.Rule.{counts};

    ghost then = { counts M.trace M.mine };
}

pub(crate) struct Free;

impl<M: Machine> Play<Option<M>, View<M, M::Entry, M::Mine>> for Free {
    ghost use Rattle.turn_cell.specs.Rule.{frees};

    ghost then = { frees };
}

/// Names an actor for a split, which takes no argument.
pub(crate) trait Named {
    ghost actor: { ℕ };
}

impl Named for Brand {
    ghost actor = { 0 };
}

pub(crate) struct Give<A> {
    actor: PhantomData<A>,
}

impl<M: Machine, A: Named> Split<View<M, M::Entry, M::Mine>> for Give<A> {
    ghost use Rattle.turn_cell.specs.Passes.{gave, given};

    ghost left = { gave A.actor };

    ghost right = { given M.mine A.actor };
}

pub(crate) struct Merge;

impl<M: Machine> Join<View<M, M::Entry, M::Mine>> for Merge {
    ghost use Rattle.turn_cell.specs.Passes.{joined};
    ghost use Rattle.turn_cell.specs.Rule.{spent};

    ghost both = { joined };

    ghost spent = { spent };
}
