ghost use Rattle.std.specs.Prelude.{◌≡◌, ◌≢◌, ◌++◌, ◌∷◌, ◌+◌, ◌<◌, ◌^◌, [], ℕ, All, IfErr, IfOk, IfSome, None, OnOk, length, true, false};
ghost use Rattle.core_state.specs.Events.{Fits, IsMade, intended_by};
ghost use Rattle.core_state.specs.Opening.{IsOpened};
ghost use Rattle.core_volume.specs.Volumes.{are_durable};
ghost use Rattle.core_actors.specs.declared.event.Event.TheVariants.{Commit};
ghost use Rattle.dev_model.specs.Frames.{GoOn, after_writes};
ghost use Rattle.forest_ops.specs.Classes.{class_of, may_fail};
ghost use Rattle.forest_ops.specs.History.{EachEntry, IsLegal, commit_count, commits};
ghost use Rattle.fs_plan.specs.Plans.{is_planned};
ghost use Rattle.geometry.specs.Layouts.{is_layout_of};
ghost use Rattle.image_view.specs.Found.{node_places};
ghost use Rattle.forest_ops.specs.declared.operation.Class.TheVariants.{Syncs};
ghost use Rattle.plain_forest.specs.Forest.{Forest};
ghost use Rattle.replay.specs.Mending.{KeepsPast};
ghost use Rattle.replay.specs.Volumes.{found_in};
ghost use Rattle.forest_ops.specs.Acknowledged.{AreAcks, synced_count};
ghost use Rattle.vol_core.specs.Cores.{StepGives};
ghost use Rattle.vol_core.specs.Left.{failed_by};
ghost use Rattle.vol_core.specs.Rested.{HasRoomAfterCheckpoint, IsRested, MayKeepRing};
ghost use Rattle.vol_core.specs.Room.{HasRoomForNext, LeavesRoom, MayKeepRoom};
ghost use Rattle.vol_session.specs.Marks.{commits_found, forest_found};
ghost use Rattle.vol_session.specs.Sessions.{IsCounted, IsExact, IsNoCommit, IsPlanNow, IsSyncedNow, IsToldNow, IsUncommitted};
ghost use Rattle.vol_session.specs.Numbers.{HasNumbersLeft, IsFarFromSpent};
ghost use Rattle.vol_session.specs.Shortages.{after_checkpoint, after_commit, lacked_room, met_at_rest, no_shortage};
ghost use Rattle.vol_session.specs.Survivors.{BeginsWell, Survive};
ghost use Rattle.vol_types.specs.declared.positions.Btree.TheVariants.{Extents};

use crate::shortages::{Shortages, may_be_helped};
use dev_model::Devices;
use forest_ops::{Ack, Acks, Entry, Op, Reply, Trace};
use journal_writer::waiting_changes_lead_from_durable_keys;
use node_writeback::leaves_are_put_in_place;
use replay::{Loaded, found_btrees_are_a_key_map};
use std::alloc::{AllocError, Global};
use std::marker::Model;
use vol_core::{Answer, Core, Event, Memory, Opening, Unopened};
use vol_types::SpareList;

/// A session over an open volume, in which clients run operations. It may be sent to another thread.
///
/// Each event is made by `step`, but a commit, which `commit` makes together with its entry in the history.
#[derive(Drop)]
pub struct Session<D: Devices, O: Opening> {
    core: Core<D, O>,
    trace: SpareList<Entry>,
    acks: SpareList<Ack>,
    commits: u64,
    shortages: Shortages,
}

/// An operation that wasn't committed, with its reply, and what was answered in place of the commit.
#[derive(Drop)]
pub struct Uncommitted {
    pub answer: Answer,
    pub op: Op,
    pub reply: Reply,
}

impl<D: Devices, O: Opening> Model for Session<D, O> {
    ghost use Rattle.std.specs.Prelude.{min};
    ghost use Rattle.vol_session.specs.Sessions.{IsSession, SessionState};

    ghost Value = { SessionState D };

    ghost view = { λ s. record { core = s.core; trace = s.trace.members; acks = s.acks.members; commits = s.commits; spare = min s.trace.spare s.acks.spare; shortages = s.shortages } };

    ghost invariant = { λ s. IsSession D.tells O.found O.start (D.state s.core.devices) s.core.memory s.trace.members s.acks.members s.commits };
}

impl<D: Devices, O: Opening> Session<D, O> {
    /// A session over a volume that was loaded from devices, with an empty history. No device is called. It costs what `Core::of` does.
    /// An `Err` is out of memory.
    pub fn of(alloc: Global, loaded: Loaded, devices: D) -> Result<Session<D, O>, Unopened<D>>
        requires layout { is_layout_of (D.state devices).sizes loaded.layout ≡ true }
        requires opening { found_in loaded ≡ O.found }
        requires start { D.state devices ≡ O.start }
        ensures opened { IfOk result (λ session. IsOpened loaded.layout loaded.session loaded.map
            loaded.needed (node_places (found_in loaded)) session.core.memory) }
        ensures devices { IfOk result (λ session. session.core.devices ≡ devices) }
        ensures trace { IfOk result (λ session. session.trace ≡ []) }
        ensures acks { IfOk result (λ session. session.acks ≡ []) }
        ensures commits { IfOk result (λ session. session.commits ≡ 0) }
        ensures shortages { IfOk result (λ session. session.shortages ≡ no_shortage) }
        ensures err { IfErr result (λ unopened. unopened.devices ≡ devices) }
    {
        found_btrees_are_a_key_map();
        let core = Core::of(alloc, loaded, devices)?;
        core.memory().see_kept();
        let _ = core.devices();
        Ok(Session {
            core,
            trace: SpareList::new(alloc),
            acks: SpareList::new(alloc),
            commits: 0,
            shortages: Shortages::none(),
        })
    }

    /// What is in memory. A volume at rest has room where the ring may be kept of what was found, as `Core::memory` says.
    pub fn memory(&self) -> &Memory
        ensures memory { result.now ≡ self.now.core.memory }
        ensures counted { IsCounted O.found O.start (D.state self.now.core.devices)
            self.now.core.memory.volume self.now.trace self.now.acks self.now.commits }
        ensures rested { MayKeepRing O.found → IsRested self.now.core.memory.volume
            → HasRoomAfterCheckpoint self.now.core.memory.volume }
    {
        self.core.memory()
    }

    /// Where the room in the ring of the journal may be kept of what was found, the next entry finds room. The ring may be kept where the devices tell what they hold, and the session
    /// began well (`ring`), and the room in it where what was found left some (`may`).
    pub fn see_room(&self)
        ensures ring { D.tells → BeginsWell O.found O.start → MayKeepRing O.found }
        ensures may { D.tells → BeginsWell O.found O.start → LeavesRoom O.found → MayKeepRoom O.found }
        ensures room { MayKeepRoom O.found → HasRoomForNext self.now.core.memory.volume }
    {
        let _ = self.core.memory();
    }

    /// The devices on which the volume lies.
    pub fn devices(&self) -> &D
        ensures { result.now ≡ self.now.core.devices }
    {
        self.core.devices()
    }

    /// How many commits the session has made.
    pub fn commits(&self) -> u64
        ensures is { result ≡ self.now.commits }
        ensures counted { result ≡ commit_count (forest_found O.found O.start) self.now.trace }
    {
        self.commits
    }

    /// Makes room for one more entry of the history, and one more acknowledgement. An `Err` changes nothing but that room.
    pub fn reserve(&mut self) -> Result<(), AllocError>
        ensures ok { OnOk result (0 < self.new.spare) }
        ensures rest { self.new ≡ record self.old { spare = self.new.spare } }
    {
        self.trace.reserve(1)?;
        self.acks.reserve(1)
    }

    /// Makes an event of a client that commits nothing, and answers it, as `Core::step` does and at its cost.
    pub fn step(&mut self, client: u8, event: Event) -> Answer
        requires fits { Fits self.old.core.memory client event }
        requires no_commit { IsNoCommit event }
        ensures gives { StepGives D.tells D.state self.old.core client event result self.new.core }
        ensures rest { self.new ≡ record self.old { core = self.new.core } }
        ensures goes_on { GoOn (D.state self.old.core.devices) (D.state self.new.core.devices) }
        ensures past { D.tells → KeepsPast (D.state self.old.core.devices)
            (D.state self.new.core.devices) }
        ensures cause { (D.state self.new.core.devices).faults ≡ after_writes (failed_by result)
            (D.state self.old.core.devices).faults }
        ensures device { IfSome (failed_by result)
            (λ dev. dev < length (D.state self.old.core.devices).sizes) }
    {
        found_btrees_are_a_key_map();
        leaves_are_put_in_place();
        self.core.memory().see_kept();
        self.core.step(client, event)
    }

    /// Commits the updates that a client intends, and puts the entry of its operation into the history. No device is called. It costs what a
    /// `Commit` does, and takes no memory for the entry. An `Err` says why it isn't committed, and gives the operation and its reply back. Where it is refused for want of
    /// room, this is kept until a checkpoint meets it; any commit is a further try (`commit_counted`).
    pub fn commit(&mut self, client: u8, op: Op, reply: Reply) -> Result<(), Uncommitted>
        requires client { client < 16 }
        requires spare { 0 < self.old.spare }
        requires fits { Fits self.old.core.memory client (Commit true) }
        requires planned { is_planned op ≡ true }
        requires commits { (forest : Forest) → commits op reply forest ≡ true }
        requires plan { IsPlanNow self.old.core.memory client (record {
          op = op;
          updates = intended_by self.old.core.memory client;
          reply = reply;
          commits = true;
        }) }
        ensures made { OnOk result (IsMade self.old.core.memory client true self.new.core.memory) }
        ensures entry { OnOk result (self.new ≡ record self.old {
          core = self.new.core;
          trace = self.old.trace ++ record { client = client; op = op; reply = reply } ∷ [];
          commits = self.old.commits + 1;
          spare = self.new.spare;
          shortages = self.new.shortages;
        }) }
        ensures err { IfErr result (λ not. IsUncommitted self.old.core.memory client not.answer
            self.new.core.memory × (not.op ≡ op) × (not.reply ≡ reply)
            × (self.new ≡ record self.old
            { core = self.new.core; shortages = self.new.shortages })) }
        ensures commit_counted { self.new.shortages
            ≡ after_commit (lacked_room result) self.old.shortages }
        ensures devices { self.new.core.devices ≡ self.old.core.devices }
    {
        waiting_changes_lead_from_durable_keys();
        self.core.memory().see_kept();
        let given = self.core.step(client, Event::Commit { counted: true });
        match given {
            Answer::Done => {
                drop(given);
                self.shortages.count_commit(false);
                // The count of commits since format is one of 64 bits, and no less.
                self.core.memory().see_kept();
                self.commits += 1;
                self.trace.push(Entry { client, op, reply });
                Ok(())
            }
            answer => {
                self.shortages.count_commit(may_be_helped(&answer));
                Err(Uncommitted { answer, op, reply })
            }
        }
    }

    /// Each commit that was refused for want of room was met, where both works rest: a checkpoint would do nothing. What is still to be tried again behind an earlier
    /// checkpoint is so still.
    pub fn meet_at_rest(&mut self)
        requires { IsRested self.old.core.memory.volume }
        ensures { self.new ≡ record self.old { shortages = met_at_rest self.old.shortages } }
    {
        self.shortages.count_rest();
    }

    /// Each commit that was refused for want of room was met by a checkpoint, which came to its end, or ended early.
    pub(crate) fn meet(&mut self, ended: bool)
        ensures { self.new ≡ record self.old
            { shortages = after_checkpoint ended self.old.shortages } }
    {
        self.shortages.count_checkpoint(ended);
    }

    /// Puts the entry of an operation of a client into the history that changes nothing: its reply is the forest's, or a failure that it may have.
    /// It takes no memory.
    pub fn tell(&mut self, client: u8, op: Op, reply: Reply)
        requires client { client < 16 }
        requires spare { 0 < self.old.spare }
        requires planned { is_planned op ≡ true }
        requires no_commit { (forest : Forest) → commits op reply forest ≡ false }
        requires unsynced { synced_count reply ≡ None }
        requires told { IsToldNow self.old.core.memory client op reply }
        ensures { self.new ≡ record self.old {
          trace = self.old.trace ++ record { client = client; op = op; reply = reply } ∷ [];
          spare = self.new.spare;
        } }
    {
        self.trace.push(Entry { client, op, reply });
    }

    /// Acknowledges all commits as durable, in the entry of an operation of a client that syncs, and answers how many the session has made. It takes no memory.
    pub fn acknowledge(&mut self, client: u8, op: Op) -> u64
        requires client { client < 16 }
        requires spare { 0 < self.old.spare }
        requires planned { is_planned op ≡ true }
        requires class { class_of op ≡ Syncs }
        requires synced { IsSyncedNow self.old.core.memory client op }
        requires durable { are_durable None self.old.core.memory.volume ≡ true }
        ensures count { result ≡ self.old.commits }
        ensures entry { self.new ≡ record self.old {
          trace = self.old.trace ++ record {
            client = client;
            op = op;
            reply = Reply.Synced self.old.commits;
          } ∷ [];
          acks = self.old.acks ++ record {
            moment = (D.state self.old.core.devices).moment;
            commits = self.old.commits;
          } ∷ [];
          spare = self.new.spare;
        } }
    {
        found_btrees_are_a_key_map();
        let moment = self.core.devices().moment();
        let commits = self.commits;
        self.acks.push(Ack { moment, commits });
        self.trace.push(Entry {
            client,
            op,
            reply: Reply::Synced(commits),
        });
        commits
    }

    /// What the type keeps of the history. Where the devices tell what they hold, and the session began with a sound and tidy volume, its
    /// history is legal from the forest that was found, and whatever a crash has left at a moment since then has survived: it mounts as the volume after a
    /// prefix of its commits, with all that was acknowledged by that moment; and so does what is left of it on each metadata device alone, whatever
    /// blocks of the journal and of nodes the others lose.
    pub fn see_history(&self)
        ensures counted { IsCounted O.found O.start (D.state self.now.core.devices)
            self.now.core.memory.volume self.now.trace self.now.acks self.now.commits }
        ensures past { D.tells → KeepsPast O.start (D.state self.now.core.devices) }
        ensures legal { D.tells → BeginsWell O.found O.start
            → IsLegal (forest_found O.found O.start) self.now.trace }
        ensures exact { D.tells → BeginsWell O.found O.start
            → EachEntry (IsExact (forest_found O.found O.start)) self.now.trace }
        ensures survive { D.tells → BeginsWell O.found O.start → Survive O.found O.start
            (D.state self.now.core.devices) self.now.trace self.now.acks }
    {
        let _ = &self.commits;
    }

    /// No number is used up where what was found is far from that and the session is short: each is left that may be drawn next.
    pub fn see_numbers(&self)
        ensures { IsFarFromSpent O.found O.start (D.state self.now.core.devices)
            → length self.now.trace < 2 ^ 31 → HasNumbersLeft self.now.core.memory.volume }
    {
        self.core.memory().see_kept();
        let _ = &self.commits;
    }

    /// Ends the session: its devices, its history, and its acknowledgements.
    pub fn into_parts(self) -> (D, Trace, Acks)
        ensures devices { result.0 ≡ self.core.devices }
        ensures trace { result.1 ≡ self.trace }
        ensures acks { result.2 ≡ self.acks }
    {
        (
            self.core.into_devices(),
            Trace::from(self.trace),
            Acks::from(self.acks),
        )
    }
}
