//! Lists of events that are drawn, mostly as the stage of the journal and what each actor has under way ask for, and a core that they are
//! given to beside its model.

use crate::draws::Draw;
use crate::images::Shape;
use crate::model::Model;
use crate::moves::{Change, Move, make};
use crate::sessions::Run;
use dev_model::MemDevices;
use std::alloc::Global;
use vol_core::{Core, Opening};

/// How many events a list has.
const EVENTS: u32 = 60;

fn drawn_change(draw: &mut Draw) -> Change {
    let key = draw.byte(4);
    let is_long = draw.below(5) == 0;
    let value = if draw.below(5) == 0 {
        0
    } else {
        draw.below(1000).saturating_add(1)
    };
    Change {
        key,
        value,
        is_long,
        is_wide: false,
    }
}

// What an actor does next that has an operation or not, and intends something or not.
fn of_actor(draw: &mut Draw, has: (bool, bool)) -> Move {
    match has {
        (false, _) => Move::Begin { first: true },
        (true, true) if draw.below(8) > 0 => Move::Commit,
        _ => {
            if draw.below(4) == 0 {
                Move::Look(draw.byte(5))
            } else {
                Move::Intend(drawn_change(draw))
            }
        }
    }
}

// An event that may come at any time.
fn of_any_time(draw: &mut Draw, shape: Shape) -> Move {
    match draw.below(8) {
        0 => Move::Seal,
        1 => Move::WriteEntry,
        2 => Move::Settle,
        3 => Move::Flush(draw.byte(u64::from(shape.devices).saturating_add(1))),
        4 => Move::Drop,
        5 => Move::Finish,
        6 => Move::Begin { first: false },
        _ => Move::Look(draw.byte(5)),
    }
}

// The next actor: mostly the one that has the turn.
fn actor(draw: &mut Draw, turn: Option<u8>) -> u8 {
    let other = draw.byte(4);
    match turn {
        Some(holder) if draw.below(4) > 0 => holder,
        _ => other,
    }
}

// The next event of an actor.
fn drawn(draw: &mut Draw, model: &Model, shape: Shape, actor: u8) -> Move {
    match draw.below(16) {
        0..=6 => of_actor(draw, model.has(actor)),
        7..=13 => model.due(),
        _ => of_any_time(draw, shape),
    }
}

// Whether an event is answered as the model says, with as many device calls.
fn agrees<O: Opening>(
    alloc: Global,
    core: &mut Core<MemDevices, O>,
    model: &mut Model,
    actor: u8,
    wanted: Move,
) -> bool {
    let before = core.devices().calls();
    let model_before = model.calls();
    let expected = model.answer(actor, wanted);
    let seen = make(alloc, core, actor, wanted);
    let made = core.devices().calls().wrapping_sub(before);
    seen == expected && made == model.calls().wrapping_sub(model_before)
}

// Whether all events of the list are answered so, and what is told after each.
fn follows_drawn<O: Opening>(
    alloc: Global,
    core: &mut Core<MemDevices, O>,
    model: &mut Model,
    draw: &mut Draw,
    shape: Shape,
) -> bool {
    for _ in 0..EVENTS {
        let actor = actor(draw, model.turn());
        let wanted = drawn(draw, model, shape, actor);
        let other = draw.byte(4);
        if !agrees(alloc, core, model, actor, wanted)
            || !agrees(alloc, core, model, other, Move::Next)
        {
            return false;
        }
    }
    true
}

/// How a list ends: all actors drop what they have under way, and one looks at all keys.
static LAST: [(u8, Move); 10] = [
    (0, Move::Drop),
    (1, Move::Drop),
    (2, Move::Drop),
    (3, Move::Drop),
    (0, Move::Begin { first: true }),
    (0, Move::Look(0)),
    (0, Move::Look(1)),
    (0, Move::Look(2)),
    (0, Move::Look(3)),
    (0, Move::Look(4)),
];

/// What a session that has stopped writing refuses.
static REFUSED: [(u8, Move); 5] = [
    (1, Move::Seal),
    (1, Move::WriteEntry),
    (1, Move::Flush(0)),
    (1, Move::Settle),
    (1, Move::Next),
];

// Whether these events are answered as the model says.
fn follows_these<O: Opening>(
    alloc: Global,
    core: &mut Core<MemDevices, O>,
    model: &mut Model,
    events: &[(u8, Move)],
) -> bool {
    for (actor, wanted) in events {
        if !agrees(alloc, core, model, *actor, *wanted) {
            return false;
        }
    }
    true
}

// Whether what comes last is answered as the model says.
fn follows_last<O: Opening>(
    alloc: Global,
    core: &mut Core<MemDevices, O>,
    model: &mut Model,
) -> bool {
    follows_these(alloc, core, model, &LAST)
        && (model.halted().is_none() || follows_these(alloc, core, model, &REFUSED))
}

/// Whether a list that the run draws, and what comes last, are answered as the model says, which tells what then is durable.
pub fn follows_list<O: Opening>(
    alloc: Global,
    core: &mut Core<MemDevices, O>,
    run: &mut Run,
) -> bool {
    let mut model = Model::new(run.shape, run.failing);
    let follows = follows_drawn(alloc, core, &mut model, &mut run.draw, run.shape)
        && follows_last(alloc, core, &mut model);
    run.story.now = model.now();
    run.story.sealed = model.newest();
    run.story.durable = model.durable();
    follows
}
