ghost use Rattle.std.specs.Prelude.{◌≡◌, ◌<◌, true, false, IfOk, None, OnErr, Some};
ghost use Rattle.forest_ops.specs.Classes.{class_of, is_changing};
ghost use Rattle.forest_ops.specs.declared.operation.Class.TheVariants.{Syncs};
ghost use Rattle.fs_plan.specs.Plans.{IsBounded, IsOfItsClass, is_planned};
ghost use Rattle.vol_session.specs.Sessions.{IsFailureNow, IsPlanNow, IsSyncedNow};
ghost use Rattle.vol_session.specs.Writeback.{MayStopSync};
ghost use Rattle.volume.specs.Answers.{nothing_short};
ghost use Rattle.volume.specs.Serving.{IsDoneNow, IsEntered, IsHelpedStill, IsServed, IsStepped, IsUnderWay, IsUnserved, TellsSync, halt_told, is_synced};
ghost use Rattle.volume.specs.States.{IsAtRest};

use crate::committing::{fail_halted, make};
use crate::planner::planned;
use dev_model::Devices;
use forest_ops::{Class, Op, Reply};
use fs_plan::Plan;
use std::alloc::{AllocError, Global};
use vol_core::{Event, Opening};
use vol_session::{Session, WritebackEnd, sync_all};
use vol_types::{Counts, Duplicate, Halt, Short};

/// Answers an operation of a client, where the history has room for its entry: it is planned, and then committed, or told, or all commits are made durable.
pub(crate) fn answer<D: Devices, O: Opening>(
    alloc: Global,
    session: &mut Session<D, O>,
    client: u8,
    op: Op,
) -> Result<Reply, AllocError>
    requires client { client < 16 }
    requires spare { 0 < session.old.spare }
    requires rest { IsAtRest session.old.core.memory }
    requires planned { is_planned op ≡ true }
    requires bounded { IsBounded op }
    ensures served { IfOk result (λ reply. IsServed O.found D.state client op reply session.old
        session.new) }
    ensures unserved { OnErr result (IsUnserved D.state session.old session.new) }
    ensures helped { IsHelpedStill session.old session.new }
{
    begin(session, client);
    match planned(alloc, session, client, op) {
        Ok(plan) => carry_out(alloc, session, client, plan),
        Err(error) => {
            end(session, client);
            Err(error)
        }
    }
}

// Carries a plan out: a commit is made, an operation that syncs makes all commits durable, and the forest's reply to anything else is told;
// but where the session has stopped writing, a change that would be done fails, even one that would change nothing.
fn carry_out<D: Devices, O: Opening>(
    alloc: Global,
    session: &mut Session<D, O>,
    client: u8,
    plan: Plan,
) -> Result<Reply, AllocError>
    requires spare { 0 < session.old.spare }
    requires under { IsUnderWay session.old.core.memory client }
    requires planned { is_planned plan.op ≡ true }
    requires now { IsPlanNow session.old.core.memory client plan }
    requires class { IsOfItsClass plan }
    ensures served { IfOk result (λ reply. IsServed O.found D.state client plan.op reply session.old
        session.new) }
    ensures unserved { OnErr result (IsUnserved D.state session.old session.new) }
    ensures helped { IsHelpedStill session.old session.new }
{
    if plan.commits {
        return make(alloc, session, client, plan);
    }
    if is_synced(&plan.reply) {
        return sync_after(session, client, plan);
    }
    match halt_told(session.memory().halted(), &plan) {
        Some(halt) => Ok(stop_change(session, client, plan, halt)),
        None => tell_copied(alloc, session, client, plan),
    }
}

// The halt that is told in the place of a plan's reply: the session's, where a change would be done, if it would change nothing.
fn halt_told(halted: Option<Halt>, plan: &Plan) -> Option<Halt>
    ensures { result ≡ halt_told plan.now.op plan.now.reply halted }
{
    if plan.op.class() != Class::Changes {
        return None;
    }
    if !plan.reply.is_done() {
        return None;
    }
    halted
}

// A change that would change nothing fails, as the session has stopped writing.
fn stop_change<D: Devices, O: Opening>(
    session: &mut Session<D, O>,
    client: u8,
    plan: Plan,
    halt: Halt,
) -> Reply
    requires spare { 0 < session.old.spare }
    requires under { IsUnderWay session.old.core.memory client }
    requires planned { is_planned plan.op ≡ true }
    requires now { IsPlanNow session.old.core.memory client plan }
    requires told { halt_told plan.op plan.reply session.old.core.memory.volume.halted ≡ Some halt }
    ensures served { IsServed O.found D.state client plan.op result session.old session.new }
    ensures helped { IsHelpedStill session.old session.new }
{
    let Plan {
        op,
        updates,
        reply,
        commits: _,
    } = plan;
    drop(updates);
    drop(reply);
    fail_halted(session, client, op, halt)
}

// Tells the forest's reply to an operation that is no commit, and hands a copy of it back.
fn tell_copied<D: Devices, O: Opening>(
    alloc: Global,
    session: &mut Session<D, O>,
    client: u8,
    plan: Plan,
) -> Result<Reply, AllocError>
    requires spare { 0 < session.old.spare }
    requires under { IsUnderWay session.old.core.memory client }
    requires planned { is_planned plan.op ≡ true }
    requires now { IsPlanNow session.old.core.memory client plan }
    requires class { IsOfItsClass plan }
    requires no_commit { plan.commits ≡ false }
    requires unsynced { is_synced plan.reply ≡ false }
    requires told { halt_told plan.op plan.reply session.old.core.memory.volume.halted ≡ None }
    ensures served { IfOk result (λ reply. IsServed O.found D.state client plan.op reply session.old
        session.new) }
    ensures unserved { OnErr result (IsUnserved D.state session.old session.new) }
    ensures helped { IsHelpedStill session.old session.new }
{
    match plan.reply.copy(alloc) {
        Ok(reply) => {
            tell(session, client, plan);
            Ok(reply)
        }
        Err(error) => {
            end(session, client);
            drop(plan);
            Err(error)
        }
    }
}

// Whether a reply says how many commits are durable.
fn is_synced(reply: &Reply) -> bool
    ensures { result ≡ is_synced reply.now }
{
    matches!(reply, Reply::Synced(_))
}

// Answers an operation that the forest answers with a number of commits, as its plan says.
fn sync_after<D: Devices, O: Opening>(
    session: &mut Session<D, O>,
    client: u8,
    plan: Plan,
) -> Result<Reply, AllocError>
    requires spare { 0 < session.old.spare }
    requires under { IsUnderWay session.old.core.memory client }
    requires planned { is_planned plan.op ≡ true }
    requires now { IsPlanNow session.old.core.memory client plan }
    requires class { IsOfItsClass plan }
    requires synced { is_synced plan.reply ≡ true }
    ensures served { IfOk result (λ reply. IsServed O.found D.state client plan.op reply session.old
        session.new) }
    ensures unserved { OnErr result (IsUnserved D.state session.old session.new) }
    ensures helped { IsHelpedStill session.old session.new }
{
    let Plan {
        op,
        updates,
        reply,
        commits: _,
    } = plan;
    drop(updates);
    drop(reply);
    end(session, client);
    sync(session, client, op)
}

// Answers an operation that syncs: all commits are made durable.
fn sync<D: Devices, O: Opening>(
    session: &mut Session<D, O>,
    client: u8,
    op: Op,
) -> Result<Reply, AllocError>
    requires client { client < 16 }
    requires spare { 0 < session.old.spare }
    requires rest { IsAtRest session.old.core.memory }
    requires planned { is_planned op ≡ true }
    requires syncs { class_of op ≡ Syncs }
    requires synced { IsSyncedNow session.old.core.memory client op }
    ensures served { IfOk result (λ reply. IsServed O.found D.state client op reply session.old
        session.new) }
    ensures unserved { OnErr result (IsUnserved D.state session.old session.new) }
    ensures helped { IsHelpedStill session.old session.new }
{
    match sync_all(session, client) {
        Ok(()) => Ok(Reply::Synced(session.acknowledge(client, op))),
        Err(stop) => stop_sync(session, client, op, stop),
    }
}

// An operation that syncs fails, as the work on the journal ended early.
fn stop_sync<D: Devices, O: Opening>(
    session: &mut Session<D, O>,
    client: u8,
    op: Op,
    stop: WritebackEnd,
) -> Result<Reply, AllocError>
    requires client { client < 16 }
    requires spare { 0 < session.old.spare }
    requires rest { IsAtRest session.old.core.memory }
    requires planned { is_planned op ≡ true }
    requires syncs { class_of op ≡ Syncs }
    requires journal { MayStopSync stop }
    ensures tells { IfOk result (TellsSync stop) }
    ensures entered { IfOk result (λ reply. IsEntered client op reply session.old session.new) }
    ensures none { OnErr result (stop ≡ WritebackEnd.NoMemory) }
    ensures same { OnErr result (session.new ≡ session.old) }
{
    match stop {
        WritebackEnd::DeviceFault(dev) => {
            drop(stop);
            session.tell(client, op, Reply::DeviceFault(dev));
            Ok(Reply::DeviceFault(dev))
        }
        WritebackEnd::Halted(halt) => {
            drop(stop);
            session.tell(
                client,
                op,
                Reply::Halted {
                    dev: halt.dev,
                    tick: halt.tick,
                },
            );
            Ok(Reply::Halted {
                dev: halt.dev,
                tick: halt.tick,
            })
        }
        WritebackEnd::Spent => {
            drop(stop);
            session.tell(client, op, Reply::Spent);
            Ok(Reply::Spent)
        }
        WritebackEnd::Foreign(_) => {
            drop(stop);
            session.tell(client, op, Reply::Spent);
            Ok(Reply::Spent)
        }
        WritebackEnd::NoMemory => {
            drop(stop);
            drop(op);
            Err(AllocError)
        }
        WritebackEnd::NoSpace(_) => unreachable!(),
    }
}

// Tells the forest's reply to an operation that is no commit, and has ended then.
fn tell<D: Devices, O: Opening>(session: &mut Session<D, O>, client: u8, plan: Plan)
    requires spare { 0 < session.old.spare }
    requires under { IsUnderWay session.old.core.memory client }
    requires planned { is_planned plan.op ≡ true }
    requires class { IsOfItsClass plan }
    requires no_commit { plan.commits ≡ false }
    requires unsynced { is_synced plan.reply ≡ false }
    requires now { IsPlanNow session.old.core.memory client plan }
    ensures { IsEntered client plan.op plan.reply session.old session.new }
{
    let Plan {
        op,
        updates,
        reply,
        commits: _,
    } = plan;
    drop(updates);
    session.tell(client, op, reply);
    end(session, client);
}

// A client begins an operation.
fn begin<D: Devices, O: Opening>(session: &mut Session<D, O>, client: u8)
    requires client { client < 16 }
    requires rest { IsAtRest session.old.core.memory }
    ensures stepped { IsStepped session.old session.new }
    ensures under { IsUnderWay session.new.core.memory client }
{
    session.memory().see_kept();
    drop(session.step(client, Event::Begin { first: true }));
}

/// A client ends its operation.
pub(crate) fn end<D: Devices, O: Opening>(session: &mut Session<D, O>, client: u8)
    requires { IsUnderWay session.old.core.memory client }
    ensures stepped { IsStepped session.old session.new }
    ensures rest { IsAtRest session.new.core.memory }
{
    session.memory().see_kept();
    drop(session.step(client, Event::Finish));
}

/// The operation of a client fails: its reply joins the history, and it has ended. It takes no memory.
pub(crate) fn fail<D: Devices, O: Opening>(
    session: &mut Session<D, O>,
    client: u8,
    op: Op,
    reply: Reply,
)
    requires spare { 0 < session.old.spare }
    requires under { IsUnderWay session.old.core.memory client }
    requires planned { is_planned op ≡ true }
    requires failure { IsFailureNow session.old.core.memory client op reply }
    ensures { IsEntered client op reply session.old session.new }
{
    session.tell(client, op, reply);
    end(session, client);
}

/// The change of a client fails for want of space. An `Err` is out of memory; it has ended then too.
pub(crate) fn lack<D: Devices, O: Opening>(
    alloc: Global,
    session: &mut Session<D, O>,
    client: u8,
    op: Op,
    short: Short,
) -> Result<Reply, AllocError>
    requires spare { 0 < session.old.spare }
    requires under { IsUnderWay session.old.core.memory client }
    requires planned { is_planned op ≡ true }
    requires changes { is_changing (class_of op) ≡ true }
    requires done { IsDoneNow session.old.core.memory client op }
    ensures entered { IfOk result (λ reply. IsEntered client op reply session.old session.new) }
    ensures reply { IfOk result (λ reply. reply ≡ Reply.NoSpace short) }
    ensures stepped { OnErr result (IsStepped session.old session.new) }
    ensures rest { OnErr result (IsAtRest session.new.core.memory) }
{
    let reply = Reply::NoSpace(short);
    match reply.copy(alloc) {
        Ok(told) => {
            fail(session, client, op, told);
            Ok(reply)
        }
        Err(error) => {
            end(session, client);
            drop(reply);
            drop(op);
            Err(error)
        }
    }
}

/// What is told of the buckets where it isn't buckets that lack. It takes no memory.
pub(crate) fn nothing_short(alloc: Global) -> Short
    ensures { result ≡ nothing_short }
{
    Short {
        need: 0,
        free: Counts::new(alloc),
        held: Counts::new(alloc),
    }
}
