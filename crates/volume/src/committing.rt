ghost use Rattle.std.specs.Prelude.{◌≡◌, ◌<◌, true, false, IfOk, Err, None, OnErr, Some};
ghost use Rattle.core_volume.specs.Commits.{AreIntended};
ghost use Rattle.core_state.specs.Events.{intended_by};
ghost use Rattle.core_volume.specs.Rulings.{IsRefused};
ghost use Rattle.core_state.specs.States.{mine};
ghost use Rattle.forest_ops.specs.Classes.{class_of, is_changing};
ghost use Rattle.forest_ops.specs.History.{is_done};
ghost use Rattle.fs_plan.specs.Plans.{IsOfItsClass, is_planned};
ghost use Rattle.vol_core.specs.Rested.{IsRested};
ghost use Rattle.vol_session.specs.Sessions.{IsPlanNow};
ghost use Rattle.vol_session.specs.Shortages.{IsHelped, lacks_room, may_be_helped};
ghost use Rattle.vol_session.specs.Writeback.{stopped_by};
ghost use Rattle.volume.specs.Serving.{HasIntent, IsDoneNow, IsEntered, IsHelpless, IsIntended, IsServed, IsStepped, IsHelpedStill, IsUnderWay, IsUnmade, IsUnserved, TellsStop};
ghost use Rattle.volume.specs.States.{IsAtRest};

use crate::serving::{end, fail, lack, nothing_short};
use dev_model::Devices;
use forest_ops::{Op, Reply};
use fs_plan::Plan;
use std::alloc::{AllocError, Global};
use vol_core::{Answer, Event, Opening, Refusal};
use vol_session::{Session, Uncommitted, WritebackEnd, checkpoint, may_be_helped};
use vol_types::{Halt, Updates};

/// Makes the commit that a plan of a client's operation says. Where the journal or the buckets are short, a checkpoint is made first.
pub(crate) fn make<D: Devices, O: Opening>(
    alloc: Global,
    session: &mut Session<D, O>,
    client: u8,
    plan: Plan,
) -> Result<Reply, AllocError>
    requires spare { 0 < session.old.spare }
    requires under { IsUnderWay session.old.core.memory client }
    requires planned { is_planned plan.op ≡ true }
    requires class { IsOfItsClass plan }
    requires commits { plan.commits ≡ true }
    requires now { IsPlanNow session.old.core.memory client plan }
    ensures served { IfOk result (λ reply. IsServed O.found D.state client plan.op reply session.old
        session.new) }
    ensures unserved { OnErr result (IsUnserved D.state session.old session.new) }
    ensures helped { IsHelpedStill session.old session.new }
{
    // What isn't handed on is dropped by name, here and below: that spares the proof the drop of each variant on each way out.
    let Plan {
        op,
        updates,
        reply,
        commits: _,
    } = plan;
    if !intend(session, client, updates) {
        drop(reply);
        return lack(alloc, session, client, op, nothing_short(alloc));
    }
    commit(alloc, session, client, op, reply)
}

// A client intends these updates, if they may be intended.
fn intend<D: Devices, O: Opening>(session: &mut Session<D, O>, client: u8, updates: Updates) -> bool
    requires { IsUnderWay session.old.core.memory client }
    ensures stepped { IsStepped session.old session.new }
    ensures under { IsUnderWay session.new.core.memory client }
    ensures intended { result ≡ true
        → (mine session.new.core.memory client).intended ≡ Some updates }
    ensures fit { result ≡ true
        → AreIntended session.new.core.memory.volume.layout.metadata_replicas updates }
    ensures unfit { result ≡ false
        → ¬ AreIntended session.new.core.memory.volume.layout.metadata_replicas updates }
{
    session.memory().see_kept();
    let intent = Event::Intend(updates);
    if !session.memory().may(client, &intent) {
        return false;
    }
    drop(session.step(client, intent));
    true
}

// Commits the change that a client intends.
fn commit<D: Devices, O: Opening>(
    alloc: Global,
    session: &mut Session<D, O>,
    client: u8,
    op: Op,
    reply: Reply,
) -> Result<Reply, AllocError>
    requires spare { 0 < session.old.spare }
    requires intended { IsIntended session.old.core.memory client op reply }
    ensures served { IfOk result (λ reply. IsServed O.found D.state client op reply session.old
        session.new) }
    ensures unserved { OnErr result (IsUnserved D.state session.old session.new) }
    ensures helped { IsHelpedStill session.old session.new }
{
    session.memory().see_kept();
    let told = done_reply(&reply);
    let committed = session.commit(client, op, reply);
    match committed {
        Ok(()) => {
            drop(committed);
            Ok(told)
        }
        Err(not) => {
            drop(told);
            settle(alloc, session, client, not)
        }
    }
}

// The same reply, which says that a change was done. It takes no memory.
fn done_reply(reply: &Reply) -> Reply
    requires { is_done reply.now ≡ true }
    ensures { result ≡ reply.now }
{
    match reply {
        Reply::Okay => Reply::Okay,
        Reply::More(size) => Reply::More(*size),
        _ => unreachable!(),
    }
}

// A change wasn't committed: it is tried again after a checkpoint, where that may help, or fails.
fn settle<D: Devices, O: Opening>(
    alloc: Global,
    session: &mut Session<D, O>,
    client: u8,
    not: Uncommitted,
) -> Result<Reply, AllocError>
    requires spare { 0 < session.old.spare }
    requires intended { IsIntended session.old.core.memory client not.op not.reply }
    requires unmade { IsUnmade session.old.core.memory client not.answer }
    ensures served { IfOk result (λ reply. IsServed O.found D.state client not.op reply session.old
        session.new) }
    ensures unserved { OnErr result (IsUnserved D.state session.old session.new) }
    ensures helped { (may_be_helped not.answer ≡ false → IsHelped session.old.shortages)
        → IsHelped session.new.shortages }
{
    let Uncommitted { answer, op, reply } = not;
    if may_be_helped(&answer) {
        drop(answer);
        return try_again(alloc, session, client, op, reply);
    }
    drop(reply);
    fail_uncommitted(alloc, session, client, op, answer)
}

// A change that wasn't committed fails, since a checkpoint doesn't help, or both works rest.
fn fail_uncommitted<D: Devices, O: Opening>(
    alloc: Global,
    session: &mut Session<D, O>,
    client: u8,
    op: Op,
    answer: Answer,
) -> Result<Reply, AllocError>
    requires spare { 0 < session.old.spare }
    requires intended { HasIntent session.old.core.memory client op }
    requires unmade { IsUnmade session.old.core.memory client answer }
    requires helpless { IsHelpless session.old.core.memory.volume (may_be_helped answer) }
    ensures served { IfOk result (λ reply. IsServed O.found D.state client op reply session.old
        session.new) }
    ensures unserved { OnErr result (IsUnserved D.state session.old session.new) }
    ensures shortages { session.new.shortages ≡ session.old.shortages }
{
    match answer {
        Answer::Refused(refusal) => refuse(alloc, session, client, op, refusal),
        Answer::NoMemory => {
            end(session, client);
            drop(answer);
            drop(op);
            Err(AllocError)
        }
        _ => unreachable!(),
    }
}

// The commit of a change is refused, and a checkpoint doesn't help, or both works rest.
fn refuse<D: Devices, O: Opening>(
    alloc: Global,
    session: &mut Session<D, O>,
    client: u8,
    op: Op,
    refusal: Refusal,
) -> Result<Reply, AllocError>
    requires spare { 0 < session.old.spare }
    requires intended { HasIntent session.old.core.memory client op }
    requires refused { IsRefused session.old.core.memory.volume
        (intended_by session.old.core.memory client) true refusal }
    requires helpless { IsHelpless session.old.core.memory.volume (lacks_room refusal) }
    ensures served { IfOk result (λ reply. IsServed O.found D.state client op reply session.old
        session.new) }
    ensures unserved { OnErr result (IsUnserved D.state session.old session.new) }
    ensures shortages { session.new.shortages ≡ session.old.shortages }
{
    // At rest the ring has room, where it may be kept of what was found.
    let _ = session.memory();
    match refusal {
        Refusal::Halted(halt) => {
            drop(refusal);
            Ok(fail_halted(session, client, op, halt))
        }
        Refusal::Spent => {
            drop(refusal);
            Ok(fail_spent(session, client, op))
        }
        Refusal::NeedSplit(_) => {
            drop(refusal);
            lack(alloc, session, client, op, nothing_short(alloc))
        }
        Refusal::RingFull(_) => {
            drop(refusal);
            lack(alloc, session, client, op, nothing_short(alloc))
        }
        Refusal::NoSpace(none) => lack(alloc, session, client, op, none.short),
    }
}

// Commits the change that a client intends, after a checkpoint.
fn try_again<D: Devices, O: Opening>(
    alloc: Global,
    session: &mut Session<D, O>,
    client: u8,
    op: Op,
    reply: Reply,
) -> Result<Reply, AllocError>
    requires spare { 0 < session.old.spare }
    requires intended { IsIntended session.old.core.memory client op reply }
    ensures served { IfOk result (λ reply. IsServed O.found D.state client op reply session.old
        session.new) }
    ensures unserved { OnErr result (IsUnserved D.state session.old session.new) }
    ensures helped { IsHelped session.new.shortages }
{
    match checkpoint(session, client) {
        Ok(()) => commit_at_rest(alloc, session, client, op, reply),
        Err(stop) => {
            drop(reply);
            give_up(alloc, session, client, op, stop)
        }
    }
}

// Commits the change that a client intends, as both works rest.
fn commit_at_rest<D: Devices, O: Opening>(
    alloc: Global,
    session: &mut Session<D, O>,
    client: u8,
    op: Op,
    reply: Reply,
) -> Result<Reply, AllocError>
    requires spare { 0 < session.old.spare }
    requires intended { IsIntended session.old.core.memory client op reply }
    requires rested { IsRested session.old.core.memory.volume }
    requires met { session.old.shortages.unmet ≡ false }
    ensures served { IfOk result (λ reply. IsServed O.found D.state client op reply session.old
        session.new) }
    ensures unserved { OnErr result (IsUnserved D.state session.old session.new) }
    ensures helped { IsHelped session.new.shortages }
{
    session.memory().see_kept();
    let told = done_reply(&reply);
    let committed = session.commit(client, op, reply);
    match committed {
        Ok(()) => {
            drop(committed);
            Ok(told)
        }
        Err(not) => {
            drop(told);
            session.meet_at_rest();
            let Uncommitted { answer, op, reply } = not;
            drop(reply);
            fail_uncommitted(alloc, session, client, op, answer)
        }
    }
}

// A change fails, as the checkpoint before it ended early.
fn give_up<D: Devices, O: Opening>(
    alloc: Global,
    session: &mut Session<D, O>,
    client: u8,
    op: Op,
    stop: WritebackEnd,
) -> Result<Reply, AllocError>
    requires spare { 0 < session.old.spare }
    requires intended { HasIntent session.old.core.memory client op }
    ensures tells { IfOk result (TellsStop stop) }
    ensures entered { IfOk result (λ reply. IsEntered client op reply session.old session.new) }
    ensures unfailed { OnErr result (stopped_by {T = Unit {0}} (Err stop) ≡ None) }
    ensures stepped { OnErr result (IsStepped session.old session.new) }
    ensures rest { OnErr result (IsAtRest session.new.core.memory) }
{
    match stop {
        WritebackEnd::DeviceFault(dev) => {
            drop(stop);
            fail(session, client, op, Reply::DeviceFault(dev));
            Ok(Reply::DeviceFault(dev))
        }
        WritebackEnd::Halted(halt) => {
            drop(stop);
            Ok(fail_halted(session, client, op, halt))
        }
        WritebackEnd::Spent => {
            drop(stop);
            Ok(fail_spent(session, client, op))
        }
        WritebackEnd::NoSpace(none) => lack(alloc, session, client, op, none.short),
        WritebackEnd::Foreign(_) => {
            drop(stop);
            lack(alloc, session, client, op, nothing_short(alloc))
        }
        WritebackEnd::NoMemory => {
            end(session, client);
            drop(stop);
            drop(op);
            Err(AllocError)
        }
    }
}

/// A change fails, as the session has stopped writing.
pub(crate) fn fail_halted<D: Devices, O: Opening>(
    session: &mut Session<D, O>,
    client: u8,
    op: Op,
    halt: Halt,
) -> Reply
    requires spare { 0 < session.old.spare }
    requires under { IsUnderWay session.old.core.memory client }
    requires planned { is_planned op ≡ true }
    requires changes { is_changing (class_of op) ≡ true }
    requires done { IsDoneNow session.old.core.memory client op }
    ensures entered { IsEntered client op result session.old session.new }
    ensures reply { result ≡ Reply.Halted halt.dev halt.tick }
{
    fail(
        session,
        client,
        op,
        Reply::Halted {
            dev: halt.dev,
            tick: halt.tick,
        },
    );
    Reply::Halted {
        dev: halt.dev,
        tick: halt.tick,
    }
}

// A change fails, as a number isn't left.
fn fail_spent<D: Devices, O: Opening>(session: &mut Session<D, O>, client: u8, op: Op) -> Reply
    requires spare { 0 < session.old.spare }
    requires under { IsUnderWay session.old.core.memory client }
    requires planned { is_planned op ≡ true }
    requires changes { is_changing (class_of op) ≡ true }
    requires done { IsDoneNow session.old.core.memory client op }
    ensures entered { IsEntered client op result session.old session.new }
    ensures reply { result ≡ Reply.Spent }
{
    fail(session, client, op, Reply::Spent);
    Reply::Spent
}
