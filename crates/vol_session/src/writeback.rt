ghost use Rattle.std.specs.Prelude.{◌≡◌, ◌<◌, IfErr, IfSome, None, OnOk, is_ok, length, true};
ghost use Rattle.core_state.specs.States.{actor_count};
ghost use Rattle.core_volume.specs.Volumes.{are_durable};
ghost use Rattle.dev_model.specs.Frames.{GoOn, after_writes};
ghost use Rattle.vol_core.specs.Rested.{IsRested};
ghost use Rattle.vol_session.specs.Rounds.{Goes};
ghost use Rattle.vol_session.specs.Shortages.{after_checkpoint};
ghost use Rattle.vol_session.specs.Writeback.{IsWorked, MayStopSync, StopsWith, stopped_by};

use crate::rounds::{ask, is_synced, make, next_stage};
use crate::{Session, WritebackEnd};
use dev_model::Devices;
use vol_core::{Opening, Stage, Work};

/// Makes all commits durable: entries are written and flushed until they are. It costs what is written, and a flush of each device that has something
/// unsettled. Where the client that asks for it has no operation and all commits are durable already, no device is called, also where the session has stopped writing.
/// Where it has one, entries are written until the journal rests. It doesn't end for lack of buckets.
pub fn sync_all<D: Devices, O: Opening>(
    session: &mut Session<D, O>,
    client: u8,
) -> Result<(), WritebackEnd>
    requires { client < actor_count }
    ensures worked { IsWorked client session.old session.new }
    ensures shortages { session.new.shortages ≡ session.old.shortages }
    ensures durable { OnOk result (are_durable None session.new.core.memory.volume ≡ true) }
    ensures stops { StopsWith result (D.state session.old.core.devices).moment
        (D.state session.new.core.devices).moment session.old.core.memory.volume
        session.new.core.memory.volume }
    ensures journal { IfErr result MayStopSync }
    ensures cause { (D.state session.new.core.devices).faults ≡ after_writes (stopped_by result)
        (D.state session.old.core.devices).faults }
    ensures device { IfSome (stopped_by result)
        (λ dev. dev < length (D.state session.old.core.devices).sizes) }
    ensures goes_on { GoOn (D.state session.old.core.devices) (D.state session.new.core.devices) }
{
    loop {
        let (stage, durable) = ask(session, client, Work::Journal);
        if is_synced(session, client, stage, durable) {
            return Ok(());
        }
        if let Err(end) = make(session, client, stage) {
            return Err(end);
        }
    }
}

/// Makes a checkpoint: entries are written until the journal rests, each leaf that pins one is written anew and put in place, and so on until both rest.
/// It costs what the dirty leaves hold, and some flushes. Where it ends early too, it meets each commit that was refused for want of room; where it comes to its end, one is
/// to be tried again then (`shortages_met`).
pub fn checkpoint<D: Devices, O: Opening>(
    session: &mut Session<D, O>,
    client: u8,
) -> Result<(), WritebackEnd>
    requires { client < actor_count }
    ensures worked { IsWorked client session.old session.new }
    ensures shortages_met { session.new.shortages
        ≡ after_checkpoint (is_ok result) session.old.shortages }
    ensures rested { OnOk result (IsRested session.new.core.memory.volume) }
    ensures stops { StopsWith result (D.state session.old.core.devices).moment
        (D.state session.new.core.devices).moment session.old.core.memory.volume
        session.new.core.memory.volume }
    ensures cause { (D.state session.new.core.devices).faults ≡ after_writes (stopped_by result)
        (D.state session.old.core.devices).faults }
    ensures device { IfSome (stopped_by result)
        (λ dev. dev < length (D.state session.old.core.devices).sizes) }
    ensures goes_on { GoOn (D.state session.old.core.devices) (D.state session.new.core.devices) }
{
    let result = work_until_rest(session, client);
    session.meet(result.is_ok());
    result
}

// Writes entries and leaves until both works rest.
fn work_until_rest<D: Devices, O: Opening>(
    session: &mut Session<D, O>,
    client: u8,
) -> Result<(), WritebackEnd>
    requires { client < actor_count }
    ensures goes { Goes client D.state result session.old session.new }
    ensures rested { OnOk result (IsRested session.new.core.memory.volume) }
{
    loop {
        let stage = next_stage(session, client);
        if stage == Stage::Rest {
            return Ok(());
        }
        if let Err(end) = make(session, client, stage) {
            return Err(end);
        }
    }
}
