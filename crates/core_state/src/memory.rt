ghost use Rattle.std.specs.Prelude.{◌≡◌, ◌<◌, ◌↔◌, IsTrue, None, OnErr, OnOk};
ghost use Rattle.btree_map.specs.Trees.{IsTrees, keys_in};
ghost use Rattle.core_actors.specs.Actors.{with_ids, with_look};
ghost use Rattle.core_state.specs.Events.{CommitGives, CommitNodesGives, EventGives, Fits, FitsActor, FreezeGives, IsNoted, IsOfMemory, IsTold, IsToldNodes, IsToldOf, MayBegin, SealGives, SettleGives, failed_by, taken};
ghost use Rattle.core_state.specs.States.{IsState, actor_count, mine, other_holder, with_halt};
ghost use Rattle.core_volume.specs.Volumes.{KeepParts};
ghost use Rattle.core_state.specs.Events.{answer_of_fault, noted_fault};
ghost use Rattle.core_actors.specs.declared.event.Event.TheVariants.{Begin, Commit, CommitNodes, Drop, Finish, Freeze, Intend, Look, LookIds, Seal, Settle};
ghost use Rattle.core_actors.specs.declared.answer.Answer.TheVariants as Answer;
ghost use Rattle.vol_types.specs.KeyMaps.{answer_of};

use core_actors::{Actor, Answer, Event, Refusal, Work};
use core_volume::{Uncommitted, Volume, VolumeFault};
use journal_writer::Stage;
use std::alloc::{AllocError, Global};
use std::marker::Model;
use vol_types::{Halt, Keys, Query, Updates};

/// How many actors there are.
pub(crate) const ACTORS: usize = 17;

/// What a volume keeps in memory, with what each of its 17 actors has under way: 16 clients, and the reclaimer, which is number 16.
#[derive(Drop)]
pub struct Memory {
    pub(crate) alloc: Global,
    pub(crate) volume: Volume,
    pub(crate) actors: Vec<Actor>,
    pub(crate) turn: Option<u8>,
}

impl Model for Memory {
    ghost use Rattle.core_state.specs.States.{IsState, State};

    ghost Value = { State };

    ghost view = { λ m. record { volume = m.volume; actors = m.actors.items; turn = m.turn } };

    ghost invariant = { λ m. IsState (record { volume = m.volume; actors = m.actors.items; turn = m.turn }) };
}

impl Memory {
    /// What is kept of a volume and its actors holds, after any events.
    pub fn see_kept(&self)
        ensures kept { IsState self.now }
        ensures parts { KeepParts self.now.volume }
        ensures trees { IsTrees self.now.volume.trees }
    {
        let _ = self.volume.commits();
        self.volume.see_parts();
        self.volume.see_trees();
    }

    /// What an actor has under way.
    pub fn actor(&self, actor: u8) -> &Actor
        requires { actor < actor_count }
        ensures { result.now ≡ mine self.now actor }
    {
        &self.actors[usize::from(actor)]
    }

    /// Whether an actor may make the event. It takes no memory, and looks at each update of an `Intend`.
    pub fn may(&self, actor: u8, event: &Event) -> bool
        ensures { IsTrue result ↔ Fits self.now actor event.now }
    {
        if usize::from(actor) >= ACTORS {
            return false;
        }
        self.fits(&self.actors[usize::from(actor)], event)
    }

    // Whether the event fits what an actor has under way.
    fn fits(&self, actor: &Actor, event: &Event) -> bool
        ensures { IsTrue result ↔ FitsActor self.now.volume actor.now event.now }
    {
        match event {
            Event::Begin { first } => may_begin(*first, actor),
            Event::Look(_) | Event::LookIds | Event::Finish => actor.operation.is_some(),
            Event::Intend(updates) => {
                if actor.operation.is_none() {
                    return false;
                }
                self.volume.may_intend(updates.as_slice())
            }
            Event::Commit { .. } => {
                if actor.operation.is_none() {
                    return false;
                }
                actor.intended.is_some()
            }
            Event::Flush(dev) => *dev < self.volume.devices(),
            Event::Drop
            | Event::Next(_)
            | Event::Seal
            | Event::WriteEntry
            | Event::Settle
            | Event::Freeze(_)
            | Event::WriteSet(_)
            | Event::CommitNodes => true,
        }
    }

    /// How the session has stopped writing, if it has.
    pub fn halted(&self) -> Option<Halt>
        ensures { result ≡ self.now.volume.halted }
    {
        self.volume.halted()
    }

    /// Says that the session stops writing, since a write or a flush failed. What it was told first stays.
    pub fn halt(&mut self, halt: Halt)
        ensures { self.new ≡ with_halt halt self.old }
    {
        self.volume.halt(halt);
    }

    /// Makes an event of an actor. Looks take a logarithm, and what they find, twice; a commit some logarithms for each update, and
    /// a logarithm of the dirty nodes for each node that it makes dirty. A `LookIds` shares the trees of ids, which it makes anew,
    /// going over all ids, at first and where a commit couldn't change them in place.
    ///
    /// A `Freeze` goes over the updates that aren't durable, and costs what the bytes of its leaf do; a `CommitNodes` costs a few logarithms for
    /// each of at most nine leaves, and a step for each node that was changed since the one before. A `Settle`, and a `Freeze` that finds no
    /// bucket, go over the groups of buckets in which one waits.
    ///
    /// `Begin`, `Intend`, `Finish`, `Drop`, `Next` and `Settle` take no memory; a `Seal` and a `Freeze` take that of the bytes.
    pub fn step(&mut self, actor: u8, event: Event) -> Answer
        requires fits { Fits self.old actor event }
        requires of_memory { IsOfMemory event }
        ensures { EventGives self.old actor event result self.new }
    {
        match event {
            Event::Begin { first } => self.begin(actor, first),
            Event::Look(query) => self.look(actor, &query),
            Event::LookIds => self.look_ids(actor),
            Event::Intend(updates) => self.intend(actor, updates),
            Event::Commit { counted } => self.commit(actor, counted),
            Event::Finish => self.finish(actor),
            Event::Drop => self.drop_transaction(actor),
            Event::Next(Work::Journal) => self.tell(actor),
            Event::Next(Work::Nodes) => self.tell_nodes(actor),
            Event::Seal => self.seal(actor),
            Event::Settle => self.settle(actor),
            Event::Freeze(node) => self.freeze(actor, node),
            Event::CommitNodes => self.commit_nodes(actor),
            Event::WriteEntry | Event::Flush(_) | Event::WriteSet(_) => unreachable!(),
        }
    }

    fn begin(&mut self, actor: u8, first: bool) -> Answer
        requires { Fits self.old actor (Begin first) }
        ensures { EventGives self.old actor (Begin first) result self.new }
    {
        let commits = self.volume.commits();
        let mine = &mut self.actors[usize::from(actor)];
        mine.begin(first, commits);
        Answer::Done
    }

    fn look(&mut self, actor: u8, query: &Query) -> Answer
        requires { Fits self.old actor (Look query.now) }
        ensures { EventGives self.old actor (Look query.now) result self.new }
    {
        if let Some(holder) = other_holder(actor, self.turn) {
            return Answer::Wait { holder };
        }
        let Ok(keys) = self.volume.answer(self.alloc, query) else {
            return Answer::NoMemory;
        };
        if self.note_look(actor, query, &keys).is_err() {
            drop(keys);
            return Answer::NoMemory;
        }
        Answer::Found(keys)
    }

    // Notes a look of an actor and what it found, and gives it the turn. An `Err` changes nothing.
    fn note_look(&mut self, actor: u8, query: &Query, found: &Keys) -> Result<(), AllocError>
        requires there { actor < actor_count }
        requires free { other_holder actor self.old.turn ≡ None }
        requires found { found.now ≡ answer_of query.now (keys_in self.old.volume.trees) }
        ensures ok { OnOk result (self.new ≡ taken actor (with_look query.now found.now) self.old) }
        ensures err { OnErr result (self.new ≡ self.old) }
    {
        let mine = &mut self.actors[usize::from(actor)];
        mine.look(self.alloc, query, found)?;
        self.turn = Some(actor);
        Ok(())
    }

    fn look_ids(&mut self, actor: u8) -> Answer
        requires { Fits self.old actor LookIds }
        ensures { EventGives self.old actor LookIds result self.new }
    {
        if let Some(holder) = other_holder(actor, self.turn) {
            return Answer::Wait { holder };
        }
        let Ok(ids) = self.volume.ids(self.alloc) else {
            return Answer::NoMemory;
        };
        self.note_ids(actor);
        Answer::Ids(ids)
    }

    // Notes that an actor has looked at the trees of ids, and gives it the turn.
    fn note_ids(&mut self, actor: u8)
        requires there { actor < actor_count }
        requires free { other_holder actor self.old.turn ≡ None }
        ensures { self.new ≡ taken actor with_ids self.old }
    {
        let mine = &mut self.actors[usize::from(actor)];
        mine.has_ids = true;
        self.turn = Some(actor);
    }

    fn intend(&mut self, actor: u8, updates: Updates) -> Answer
        requires { Fits self.old actor (Intend updates) }
        ensures { EventGives self.old actor (Intend updates) result self.new }
    {
        if let Some(holder) = other_holder(actor, self.turn) {
            return Answer::Wait { holder };
        }
        let mine = &mut self.actors[usize::from(actor)];
        mine.intend(updates);
        self.turn = Some(actor);
        Answer::Done
    }

    fn commit(&mut self, actor: u8, counted: bool) -> Answer
        requires { Fits self.old actor (Commit counted) }
        ensures { CommitGives self.old actor counted result self.new }
    {
        let mine = &mut self.actors[usize::from(actor)];
        let Some(updates) = mine.intended.take() else {
            unreachable!()
        };
        match self.volume.commit(self.alloc, updates, counted) {
            Ok(()) => {
                mine.commit(self.alloc, counted);
                self.turn = other_holder(actor, self.turn);
                Answer::Done
            }
            Err(Uncommitted { updates, why }) => {
                mine.intended = Some(updates);
                refuse(mine, why)
            }
        }
    }

    fn finish(&mut self, actor: u8) -> Answer
        requires { Fits self.old actor Finish }
        ensures { EventGives self.old actor Finish result self.new }
    {
        let mine = &mut self.actors[usize::from(actor)];
        mine.end(self.alloc);
        self.turn = other_holder(actor, self.turn);
        Answer::Done
    }

    fn drop_transaction(&mut self, actor: u8) -> Answer
        requires { Fits self.old actor Drop }
        ensures { EventGives self.old actor Drop result self.new }
    {
        let mine = &mut self.actors[usize::from(actor)];
        mine.drop_all(self.alloc);
        self.turn = other_holder(actor, self.turn);
        Answer::Done
    }

    // Tells an actor the stage of the journal, and whether its commits are durable.
    pub(crate) fn tell(&mut self, actor: u8) -> Answer
        requires { actor < actor_count }
        ensures told { IsTold self.old actor result self.new }
    {
        let stage = self.volume.stage();
        self.tell_stage(actor, stage)
    }

    // Tells an actor the stage of the nodes, and whether its commits are durable.
    pub(crate) fn tell_nodes(&mut self, actor: u8) -> Answer
        requires { actor < actor_count }
        ensures told { IsToldNodes self.old actor result self.new }
    {
        let stage = self.volume.node_stage();
        self.tell_stage(actor, stage)
    }

    // Tells an actor this stage, and whether its commits are durable.
    fn tell_stage(&mut self, actor: u8, stage: Stage) -> Answer
        requires { actor < actor_count }
        ensures told { IsToldOf stage self.old actor result self.new }
    {
        let mine = &mut self.actors[usize::from(actor)];
        let durable = self.volume.are_durable(mine.operation);
        mine.tell(stage, durable);
        Answer::At { stage, durable }
    }

    fn seal(&mut self, actor: u8) -> Answer
        requires { Fits self.old actor Seal }
        ensures { SealGives self.old actor result self.new }
    {
        if let Some(halt) = self.volume.halted() {
            return self.refused(actor, Refusal::Halted(halt));
        }
        if !is_stage(self.volume.stage(), Stage::Seal) {
            return self.tell(actor);
        }
        match self.volume.seal(self.alloc) {
            Ok(()) => Answer::Done,
            Err(VolumeFault::NoMemory) => Answer::NoMemory,
            Err(VolumeFault::Refused(refusal)) => self.refused(actor, refusal),
        }
    }

    fn settle(&mut self, actor: u8) -> Answer
        requires { Fits self.old actor Settle }
        ensures { SettleGives self.old actor result self.new }
    {
        if let Some(halt) = self.volume.halted() {
            return self.refused(actor, Refusal::Halted(halt));
        }
        if !is_stage(self.volume.stage(), Stage::Settle) {
            return self.tell(actor);
        }
        self.volume.settle();
        Answer::Done
    }

    fn freeze(&mut self, actor: u8, node: u64) -> Answer
        requires { Fits self.old actor (Freeze node) }
        ensures { FreezeGives node self.old actor result self.new }
    {
        if let Some(halt) = self.volume.halted() {
            return self.refused(actor, Refusal::Halted(halt));
        }
        if !is_stage(self.volume.node_stage(), Stage::Freeze(node)) {
            return self.tell_nodes(actor);
        }
        match self.volume.freeze(self.alloc, node) {
            Ok(()) => Answer::Done,
            Err(VolumeFault::NoMemory) => Answer::NoMemory,
            Err(VolumeFault::Refused(refusal)) => self.refused(actor, refusal),
        }
    }

    fn commit_nodes(&mut self, actor: u8) -> Answer
        requires { Fits self.old actor CommitNodes }
        ensures { CommitNodesGives self.old actor result self.new }
    {
        if let Some(halt) = self.volume.halted() {
            return self.refused(actor, Refusal::Halted(halt));
        }
        if !is_stage(self.volume.node_stage(), Stage::CommitNodes) {
            return self.tell_nodes(actor);
        }
        match self.volume.commit_nodes(self.alloc) {
            Ok(()) => Answer::Done,
            Err(VolumeFault::NoMemory) => Answer::NoMemory,
            Err(VolumeFault::Refused(refusal)) => self.refused(actor, refusal),
        }
    }

    // Refuses an event of an actor, and notes why.
    pub(crate) fn refused(&mut self, actor: u8, refusal: Refusal) -> Answer
        requires { actor < actor_count }
        ensures answer { result ≡ Answer.Refused refusal }
        ensures noted { IsNoted refusal self.old actor self.new }
    {
        let mine = &mut self.actors[usize::from(actor)];
        mine.note(&refusal);
        Answer::Refused(refusal)
    }

    // Notes that a device failed an actor: the session stops writing.
    pub(crate) fn fail(&mut self, actor: u8, dev: u8, tick: u64) -> Answer
        requires { actor < actor_count }
        ensures answer { result ≡ Answer.DeviceFault dev }
        ensures failed { self.old.volume.halted ≡ None
            → self.new ≡ failed_by dev tick actor self.old.volume.writer self.old }
    {
        let mine = &mut self.actors[usize::from(actor)];
        mine.note_fault(dev);
        self.volume.halt(Halt { dev, tick });
        Answer::DeviceFault(dev)
    }
}

// Whether an actor may begin a transaction.
fn may_begin(first: bool, actor: &Actor) -> bool
    ensures { IsTrue result ↔ MayBegin first actor.now }
{
    if actor.holds() {
        return false;
    }
    if first {
        return true;
    }
    actor.operation.is_some()
}

// Whether two stages are the same.
pub(crate) fn is_stage(one: Stage, other: Stage) -> bool
    ensures { IsTrue result ↔ (one ≡ other) }
{
    one == other
}

// The actor that has the turn, if it is another one.
fn other_holder(actor: u8, turn: Option<u8>) -> Option<u8>
    ensures { result ≡ other_holder actor turn }
{
    match turn {
        None => None,
        Some(holder) => { if holder == actor { None } else { Some(holder) } }
    }
}

// Notes why updates weren't committed, and answers so.
fn refuse(mine: &mut Actor, why: VolumeFault) -> Answer
    ensures noted { mine.new ≡ noted_fault why mine.old }
    ensures answer { result ≡ answer_of_fault why }
{
    match why {
        VolumeFault::NoMemory => Answer::NoMemory,
        VolumeFault::Refused(refusal) => {
            mine.note(&refusal);
            Answer::Refused(refusal)
        }
    }
}
