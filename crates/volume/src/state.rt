ghost use Rattle.std.specs.Prelude.{◌≡◌, ◌<◌, [], IfErr, IfOk, OnErr, is_some, true};
ghost use Rattle.core_actors.specs.Actors.{one_more};
ghost use Rattle.core_state.specs.Opening.{IsOpened};
ghost use Rattle.dev_model.specs.Frames.{GoOn, after_writes};
ghost use Rattle.forest_ops.specs.History.{EachEntry, IsLegal, commit_count};
ghost use Rattle.fs_plan.specs.Plans.{IsBounded, is_planned};
ghost use Rattle.geometry.specs.Layouts.{is_layout_of};
ghost use Rattle.image_view.specs.Found.{node_places};
ghost use Rattle.replay.specs.Mending.{KeepsPast};
ghost use Rattle.replay.specs.Volumes.{found_in};
ghost use Rattle.forest_ops.specs.Acknowledged.{AreAcks};
ghost use Rattle.forest_ops.specs.Failures.{Halts, HaveCauses, NoCommitAfterHalt, has_failed};
ghost use Rattle.vol_core.specs.Rested.{MayKeepRing};
ghost use Rattle.vol_session.specs.Marks.{forest_found};
ghost use Rattle.vol_session.specs.Sessions.{IsExact};
ghost use Rattle.vol_session.specs.Shortages.{IsHelped};
ghost use Rattle.vol_session.specs.Survivors.{BeginsWell, Survive};
ghost use Rattle.volume.specs.Answers.{AcknowledgesAll, HasCause, IsAnswered};
ghost use Rattle.volume.specs.Serving.{IsWriting};
ghost use Rattle.volume.specs.States.{AreUnspent, halted_device, session_in};

use crate::calls::Calls;
use crate::serving::answer;
use dev_model::Devices;
use forest_ops::{Acks, Op, Reply, Trace};
use replay::Loaded;
use std::alloc::{AllocError, Global};
use std::marker::Model;
use vol_core::{Opening, Unopened};
use vol_session::Session;
use vol_types::Halt;

/// A volume that is open, with the history of its session. It may be sent to another thread.
#[derive(Drop)]
pub struct VolState<D: Devices, O: Opening> {
    alloc: Global,
    session: Session<D, O>,
    calls: Calls,
}

/// What a session leaves.
#[derive(Drop)]
pub struct Finished<D> {
    pub devices: D,
    pub trace: Trace,
    pub acks: Acks,
    /// How it stopped writing, if it did.
    pub halted: Option<Halt>,
    pub calls: Calls,
}

impl<D: Devices, O: Opening> Model for VolState<D, O> {
    ghost use Rattle.volume.specs.States.{IsBetween, VolumeState};

    ghost Value = { VolumeState D };

    ghost view = { λ v. record {
      core = v.session.core;
      trace = v.session.trace;
      acks = v.session.acks;
      commits = v.session.commits;
      spare = v.session.spare;
      shortages = v.session.shortages;
      calls = v.calls;
    } };

    ghost invariant = { λ v. IsBetween D.tells O.found O.start (D.state v.session.core.devices) v.session.core.memory v.session.trace v.session.shortages };
}

impl<D: Devices, O: Opening> VolState<D, O> {
    /// A volume that was loaded from devices, before any operation. No device is called. It costs what `Core::of` does. An `Err` is out of memory.
    pub fn start(alloc: Global, loaded: Loaded, devices: D) -> Result<VolState<D, O>, Unopened<D>>
        requires layout { is_layout_of (D.state devices).sizes loaded.layout ≡ true }
        requires opening { found_in loaded ≡ O.found }
        requires start { D.state devices ≡ O.start }
        ensures opened { IfOk result (λ volume. IsOpened loaded.layout loaded.session loaded.map
            loaded.needed (node_places (found_in loaded)) volume.core.memory) }
        ensures devices { IfOk result (λ volume. volume.core.devices ≡ devices) }
        ensures trace { IfOk result (λ volume. volume.trace ≡ []) }
        ensures acks { IfOk result (λ volume. volume.acks ≡ []) }
        ensures calls { IfOk result (λ volume. volume.calls ≡ 0) }
        ensures helped { IfOk result (λ volume. IsHelped volume.shortages) }
        ensures err { IfErr result (λ unopened. unopened.devices ≡ devices) }
    {
        Ok(VolState {
            alloc,
            session: Session::of(alloc, loaded, devices)?,
            calls: Calls::none(),
        })
    }

    /// The devices on which it lies.
    pub fn devices(&self) -> &D
        ensures { result.now ≡ self.now.core.devices }
    {
        self.session.devices()
    }

    /// How many commits the session has made.
    pub fn commits(&self) -> u64
        ensures { result ≡ commit_count (forest_found O.found O.start) self.now.trace }
    {
        self.session.commits()
    }

    /// Answers an operation of a client: its entry joins the history, and its reply is handed back. An `Err` says that it is out of memory, which no reply says, and
    /// leaves the history and the acknowledgements as they were. Whatever it answers, also that it is out of memory, each commit that was refused for want of room was met by a
    /// checkpoint, and tried again where this came to its end, or both works rested, so that a checkpoint would do nothing (`helped`). It counts as one call in any case (`called`). A sync acknowledges all commits before it. Once the session has stopped writing, no change is done (`writes`),
    /// not even one that would change nothing. No commit meets a full ring after a checkpoint where the ring may be kept of what was found (`IsFullAtRest` in `cause`), whether the devices
    /// tell what they hold or not; where they do, and the session began well, it may (`ring`).
    ///
    /// An operation costs the looks of its plan; a change calls devices only where the journal or the buckets are short, and then makes a checkpoint. A sync writes and
    /// flushes what isn't durable. A listing is copied once, for the history.
    pub fn call(&mut self, client: u8, op: Op) -> Result<Reply, AllocError>
        requires client { client < 16 }
        requires planned { is_planned op ≡ true }
        requires bounded { IsBounded op }
        ensures answers { IfOk result (λ reply. IsAnswered D.state client op reply
            (session_in self.old) (session_in self.new)) }
        ensures cause { IfOk result (λ reply. HasCause O.found client op reply
            self.new.core.memory.volume (D.state self.old.core.devices).faults (D.state self.new.core.devices).faults) }
        ensures synced { IfOk result (AcknowledgesAll (commit_count
            (forest_found O.found O.start) self.old.trace)) }
        ensures writes { IfOk result (λ reply. IsWriting op reply
            self.old.core.memory.volume.halted) }
        ensures err { OnErr result (self.new ≡ record self.old
            { core = self.new.core; spare = self.new.spare; calls = self.new.calls }) }
        ensures called { self.new.calls ≡ one_more self.old.calls }
        ensures ring { D.tells → BeginsWell O.found O.start → MayKeepRing O.found }
        ensures helped { IsHelped self.new.shortages }
        ensures unfailed { OnErr result ((D.state self.new.core.devices).faults
            ≡ (D.state self.old.core.devices).faults) }
        ensures goes_on { GoOn (D.state self.old.core.devices) (D.state self.new.core.devices) }
    {
        self.session.see_history();
        self.session.see_room();
        let _count = self.session.devices().count();
        self.calls.count_one();
        if let Err(error) = self.session.reserve() {
            drop(op);
            return Err(error);
        }
        let result = answer(self.alloc, &mut self.session, client, op);
        self.session.see_numbers();
        self.session.see_room();
        result
    }

    /// Ends the session: its devices, its history, its acknowledgements, how it stopped writing, if it did, and how many operations it was called with.
    ///
    /// It has stopped writing exactly where an entry says that a device failed (`failed`), and then one write or flush has failed since the opening, and no other call (`only`). What
    /// its entries say of failures agrees (`halts`, `no_commit`, `causes`). None says that a number is used up, where what was found is far from that, it left room in the journal, and the session is short (`unspent`). Where the devices tell what they hold, and it began with a sound and tidy volume, its history
    /// is legal (`legal`), an operation that would change the forest fails only where this wouldn't refuse it (`exact`), and whatever a crash has left at a moment since mounts as the volume
    /// after a prefix of its commits, with all that was acknowledged by then (`survives`).
    pub fn finish(self) -> Finished<D>
        ensures devices { result.devices ≡ self.core.devices }
        ensures trace { result.trace ≡ self.trace }
        ensures acks { result.acks ≡ self.acks }
        ensures halted { result.halted ≡ self.core.memory.volume.halted }
        ensures calls { result.calls ≡ self.calls }
        ensures failed { is_some result.halted ≡ has_failed result.trace }
        ensures only { (D.state result.devices).faults ≡ after_writes
            (halted_device self.core.memory.volume.halted) O.start.faults }
        ensures halts { Halts result.halted O.start (D.state result.devices) result.trace }
        ensures no_commit { NoCommitAfterHalt (forest_found O.found O.start) result.trace }
        ensures causes { HaveCauses O.start.faults (D.state result.devices).faults result.trace }
        ensures unspent { AreUnspent D.tells O.found O.start (D.state result.devices) result.trace }
        ensures acknowledged { AreAcks O.start.moment (D.state result.devices).moment result.trace
            result.acks }
        ensures legal { D.tells → BeginsWell O.found O.start
            → IsLegal (forest_found O.found O.start) result.trace }
        ensures exact { D.tells → BeginsWell O.found O.start
            → EachEntry (IsExact (forest_found O.found O.start)) result.trace }
        ensures survives { D.tells → BeginsWell O.found O.start → Survive O.found O.start
            (D.state result.devices) result.trace result.acks }
        ensures goes_on { GoOn O.start (D.state result.devices) }
        ensures past { D.tells → KeepsPast O.start (D.state result.devices) }
    {
        let VolState {
            alloc: _,
            session,
            calls,
        } = self;
        session.see_history();
        let halted = session.memory().halted();
        let (devices, trace, acks) = session.into_parts();
        Finished {
            devices,
            trace,
            acks,
            halted,
            calls,
        }
    }
}
