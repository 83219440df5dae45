ghost use Rattle.std.specs.Prelude.{◌≡◌, ◌≢◌, ◌<◌, IfErr, None, OnOk, false, true};
ghost use Rattle.core_state.specs.Events.{Fits, stage_for};
ghost use Rattle.core_state.specs.States.{actor_count, mine};
ghost use Rattle.core_volume.specs.Volumes.{are_durable, stage_of};
ghost use Rattle.journal_writer.specs.declared.stage.Stage.TheVariants.{Rest};
ghost use Rattle.vol_session.specs.Left.{works_left};
ghost use Rattle.vol_session.specs.Writeback.{MayStopSync};
ghost use Rattle.vol_session.specs.Rounds.{Goes, GoesWell, IsDue, IsNext, IsOfDue, IsOfJournal, IsSeen, event_of, outcome_of, stop_of};

use crate::{Session, WritebackEnd};
use dev_model::Devices;
use vol_core::{Answer, Event, Opening, Refusal, Stage, Work};

/// What is kept of what is in memory holds.
pub(crate) fn see<D: Devices, O: Opening>(session: &Session<D, O>)
    ensures { IsSeen session.now.core.memory }
{
    session.memory().see_kept();
}

/// Asks what a work needs next, and whether the commits are durable that the client asks for: all of them, where it has no operation.
pub(crate) fn ask<D: Devices, O: Opening>(
    session: &mut Session<D, O>,
    client: u8,
    work: Work,
) -> (Stage, bool)
    requires { client < actor_count }
    ensures stage { result.0 ≡ stage_for work session.old.core.memory.volume }
    ensures durable { result.1 ≡ are_durable (mine session.old.core.memory client).operation
        session.old.core.memory.volume }
    ensures volume { session.new.core.memory.volume ≡ session.old.core.memory.volume }
    ensures goes { GoesWell client D.state session.old session.new }
{
    see(session);
    let answer = session.step(client, Event::Next(work));
    match answer {
        Answer::At { stage, durable } => {
            drop(answer);
            (stage, durable)
        }
        _ => unreachable!(),
    }
}

/// Whether all commits are durable, where the client was told so, or the journal rests.
pub(crate) fn is_synced<D: Devices, O: Opening>(
    session: &Session<D, O>,
    client: u8,
    stage: Stage,
    durable: bool,
) -> bool
    requires there { client < actor_count }
    requires stage { stage ≡ stage_of session.now.core.memory.volume }
    requires durable { durable ≡ are_durable (mine session.now.core.memory client).operation
        session.now.core.memory.volume }
    ensures synced { result ≡ true → are_durable None session.now.core.memory.volume ≡ true }
    ensures more { result ≡ false → stage ≢ Rest }
{
    if stage == Stage::Rest {
        return true;
    }
    durable && session.memory().actor(client).operation.is_none()
}

/// Asks what is next: for the journal, and where this rests for the nodes.
pub(crate) fn next_stage<D: Devices, O: Opening>(session: &mut Session<D, O>, client: u8) -> Stage
    requires { client < actor_count }
    ensures next { IsNext result session.new.core.memory.volume }
    ensures volume { session.new.core.memory.volume ≡ session.old.core.memory.volume }
    ensures goes { GoesWell client D.state session.old session.new }
{
    let (stage, _) = ask(session, client, Work::Journal);
    if stage != Stage::Rest {
        return stage;
    }
    let (stage, _) = ask(session, client, Work::Nodes);
    stage
}

/// Makes the event of the next stage, which leaves less to be done. That of the journal's stage is not refused for lack of buckets.
pub(crate) fn make<D: Devices, O: Opening>(
    session: &mut Session<D, O>,
    client: u8,
    stage: Stage,
) -> Result<(), WritebackEnd>
    requires there { client < actor_count }
    requires next { IsNext stage session.old.core.memory.volume }
    requires some { stage ≢ Rest }
    ensures goes { Goes client D.state result session.old session.new }
    ensures journal { stage ≡ stage_of session.old.core.memory.volume → IfErr result MayStopSync }
    ensures left { OnOk result (works_left session.new.core.memory.volume
        < works_left session.old.core.memory.volume) }
{
    see(session);
    match event_of(stage) {
        Some(event) => make_event(session, client, event),
        None => unreachable!(),
    }
}

// Makes an event that is due.
fn make_event<D: Devices, O: Opening>(
    session: &mut Session<D, O>,
    client: u8,
    event: Event,
) -> Result<(), WritebackEnd>
    requires fits { Fits session.old.core.memory client event }
    requires due { IsDue event session.old.core.memory.volume }
    ensures goes { Goes client D.state result session.old session.new }
    ensures journal { IsOfJournal event → IfErr result MayStopSync }
    ensures left { OnOk result (works_left session.new.core.memory.volume
        < works_left session.old.core.memory.volume) }
{
    see(session);
    let answer = session.step(client, event);
    see(session);
    outcome_of(answer)
}

// The event of a stage; at rest there is none.
fn event_of(stage: Stage) -> Option<Event>
    ensures { result ≡ event_of stage }
{
    match stage {
        Stage::Rest => None,
        Stage::Seal => Some(Event::Seal),
        Stage::WriteEntry => Some(Event::WriteEntry),
        Stage::Flush(dev) => Some(Event::Flush(dev)),
        Stage::Settle => Some(Event::Settle),
        Stage::Freeze(node) => Some(Event::Freeze(node)),
        Stage::WriteSet(node) => Some(Event::WriteSet(node)),
        Stage::CommitNodes => Some(Event::CommitNodes),
    }
}

// What the answer of an event comes to that is due.
fn outcome_of(answer: Answer) -> Result<(), WritebackEnd>
    requires { IsOfDue answer }
    ensures { result ≡ outcome_of answer }
{
    match answer {
        Answer::Done => {
            drop(answer);
            Ok(())
        }
        Answer::Refused(refusal) => Err(stop_of(refusal)),
        Answer::DeviceFault(dev) => {
            drop(answer);
            Err(WritebackEnd::DeviceFault(dev))
        }
        Answer::NoMemory => {
            drop(answer);
            Err(WritebackEnd::NoMemory)
        }
        Answer::Found(_) | Answer::Ids(_) | Answer::At { .. } | Answer::Wait { .. } => {
            unreachable!()
        }
    }
}

// Why a work ends early that is refused.
fn stop_of(refusal: Refusal) -> WritebackEnd
    ensures { result ≡ stop_of refusal }
{
    match refusal {
        Refusal::Halted(halt) => {
            drop(refusal);
            WritebackEnd::Halted(halt)
        }
        Refusal::Spent => {
            drop(refusal);
            WritebackEnd::Spent
        }
        Refusal::NoSpace(none) => WritebackEnd::NoSpace(none),
        Refusal::RingFull(full) => WritebackEnd::Foreign(Refusal::RingFull(full)),
        Refusal::NeedSplit(need) => WritebackEnd::Foreign(Refusal::NeedSplit(need)),
    }
}
