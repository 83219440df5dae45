//! What a core should answer, by a plain model of it: how many commits there were, with the values that they left; which of them are
//! in the entry in flight, and which are durable; how far that entry is; and which device calls fail.

use crate::failing::Failing;
use crate::images::Shape;
use crate::moves::{ACTORS, Change, Move, NO_VALUES, Seen, Version, changed, count_of, number_of};
use vol_core::Stage;

// What an actor has under way.
#[derive(Clone, Copy)]
struct Client {
    // How many commits there were when its transaction began.
    begun: Option<u64>,
    has_looked: bool,
    intended: Option<Change>,
}

const IDLE: Client = Client {
    begun: None,
    has_looked: false,
    intended: None,
};

// An entry in flight: what it leads to, how many of its parts aren't written, and whether some are.
#[derive(Clone, Copy)]
struct Flight {
    to: Version,
    parts: u64,
    begun: bool,
}

/// The model.
#[derive(Clone, Copy)]
pub struct Model {
    shape: Shape,
    clients: [Client; ACTORS],
    // The actor that has the turn.
    turn: Option<u8>,
    now: Version,
    // How many bytes the updates take that wait for an entry.
    waiting: u64,
    flight: Option<Flight>,
    durable: Version,
    // Which devices have something that isn't settled.
    unsettled: [bool; 4],
    halted: Option<u8>,
    // How many device calls there were since the opening.
    calls: u64,
    failing: Failing,
}

// How many parts an entry has with updates of so many bytes.
fn parts_of(mirrors: u8, bytes: u64) -> u64 {
    let head = 36 + 9 * (10 + 5 * u64::from(mirrors));
    bytes.saturating_add(head).saturating_add(3967) / 3968
}

// How many bytes the updates of a change take: 31 for a value, and 23 for a key that is removed or has no value.
fn bytes_of(change: Change) -> u64 {
    let each = if change.value == 0 { 23 } else { 31 };
    let more = if change.is_wide { 23 } else { 0 };
    count_of(change).wrapping_mul(each).saturating_add(more)
}

impl Model {
    /// A volume of this shape that was opened without commits.
    pub fn new(shape: Shape, failing: Failing) -> Model {
        let empty = Version {
            commits: 0,
            values: NO_VALUES,
        };
        Model {
            shape,
            clients: [IDLE; ACTORS],
            turn: None,
            now: empty,
            waiting: 0,
            flight: None,
            durable: empty,
            unsettled: [true; 4],
            halted: None,
            calls: 0,
            failing,
        }
    }

    /// How many device calls there were since the opening.
    pub fn calls(&self) -> u64 {
        self.calls
    }

    /// The actor that has the turn.
    pub fn turn(&self) -> Option<u8> {
        self.turn
    }

    /// The device that failed, if the session has stopped writing.
    pub fn halted(&self) -> Option<u8> {
        self.halted
    }

    /// What all commits lead to.
    pub fn now(&self) -> Version {
        self.now
    }

    /// What is durable.
    pub fn durable(&self) -> Version {
        self.durable
    }

    /// What the entry in flight leads to, or else what is durable.
    pub fn newest(&self) -> Version {
        match self.flight {
            None => self.durable,
            Some(flight) => flight.to,
        }
    }

    fn client(&self, actor: u8) -> Client {
        match self.clients.get(usize::from(actor)) {
            None => IDLE,
            Some(client) => *client,
        }
    }

    fn set_client(&mut self, actor: u8, client: Client) {
        if let Some(mine) = self.clients.get_mut(usize::from(actor)) {
            *mine = client;
        }
    }

    /// Whether an actor has an operation, and whether it intends something.
    pub fn has(&self, actor: u8) -> (bool, bool) {
        let client = self.client(actor);
        (client.begun.is_some(), client.intended.is_some())
    }

    // The first of so many devices on which something isn't settled.
    fn first_unsettled(&self, count: u8) -> Option<u8> {
        let mut dev: u8 = 0;
        for is_unsettled in self.unsettled.iter() {
            if *is_unsettled && dev < count {
                return Some(dev);
            }
            dev = dev.saturating_add(1);
        }
        None
    }

    fn set_unsettled(&mut self, dev: u8, is_unsettled: bool) {
        if let Some(flag) = self.unsettled.get_mut(usize::from(dev)) {
            *flag = is_unsettled;
        }
    }

    // The next step of an entry in flight.
    fn step_of(&self, flight: Flight) -> Stage {
        if !flight.begun {
            return match self.first_unsettled(self.shape.devices) {
                Some(dev) => Stage::Flush(dev),
                None => Stage::WriteEntry,
            };
        }
        if flight.parts > 0 {
            return Stage::WriteEntry;
        }
        match self.first_unsettled(self.shape.mirrors) {
            Some(dev) => Stage::Flush(dev),
            None => Stage::Settle,
        }
    }

    /// The next step that the journal needs.
    pub fn stage(&self) -> Stage {
        match self.flight {
            Some(flight) => self.step_of(flight),
            None if self.now.commits != self.durable.commits => Stage::Seal,
            None => Stage::Rest,
        }
    }

    /// The event that the stage names.
    pub fn due(&self) -> Move {
        match self.stage() {
            Stage::Rest | Stage::Freeze(_) | Stage::WriteSet(_) | Stage::CommitNodes => Move::Next,
            Stage::Seal => Move::Seal,
            Stage::WriteEntry => Move::WriteEntry,
            Stage::Flush(dev) => Move::Flush(dev),
            Stage::Settle => Move::Settle,
        }
    }

    // What an actor is told.
    fn told(&self, actor: u8) -> Seen {
        let count = match self.client(actor).begun {
            None => self.now.commits,
            Some(commits) => commits,
        };
        Seen::At(self.stage(), count <= self.durable.commits)
    }

    // Whether the next device call fails. It counts the call.
    fn next_fails(&mut self) -> bool {
        let call = self.calls;
        self.calls = call.wrapping_add(1);
        call == self.failing.call || (self.failing.stays && call > self.failing.call)
    }

    /// What an event of an actor is answered. The model changes as the core does.
    pub fn answer(&mut self, actor: u8, wanted: Move) -> Seen {
        match wanted {
            Move::Begin { first } => self.begin(actor, first),
            Move::Look(key) => self.look(actor, key),
            Move::Intend(change) => self.intend(actor, change),
            Move::Commit => self.commit(actor),
            Move::Finish => self.finish(actor),
            Move::Drop => self.drop_all(actor),
            Move::Next => self.told(actor),
            Move::Seal => self.seal(actor),
            Move::WriteEntry => self.write_entry(actor),
            Move::Flush(dev) => self.flush(dev),
            Move::Settle => self.settle(actor),
        }
    }

    fn begin(&mut self, actor: u8, first: bool) -> Seen {
        let client = self.client(actor);
        if client.has_looked || client.intended.is_some() {
            return Seen::Unfit;
        }
        if !first && client.begun.is_none() {
            return Seen::Unfit;
        }
        self.set_client(
            actor,
            Client {
                begun: Some(self.now.commits),
                ..client
            },
        );
        Seen::Done
    }

    // Why an actor may not look or intend now, if it may not. Else it takes the turn.
    fn refused_turn(&mut self, actor: u8) -> Option<Seen> {
        if self.client(actor).begun.is_none() {
            return Some(Seen::Unfit);
        }
        match self.turn {
            Some(holder) if holder != actor => Some(Seen::Wait(number_of(holder))),
            _ => {
                self.turn = Some(actor);
                None
            }
        }
    }

    fn look(&mut self, actor: u8, key: u8) -> Seen {
        if let Some(seen) = self.refused_turn(actor) {
            return seen;
        }
        let client = self.client(actor);
        self.set_client(
            actor,
            Client {
                has_looked: true,
                ..client
            },
        );
        match self.now.values.few.get(usize::from(key)) {
            Some(value) => Seen::Value(*value),
            None => Seen::Value(self.now.values.many),
        }
    }

    fn intend(&mut self, actor: u8, change: Change) -> Seen {
        if let Some(seen) = self.refused_turn(actor) {
            return seen;
        }
        let client = self.client(actor);
        self.set_client(
            actor,
            Client {
                intended: Some(change),
                ..client
            },
        );
        Seen::Done
    }

    // Ends what an actor has under way, and gives its turn back.
    fn leave(&mut self, actor: u8, client: Client) {
        self.set_client(actor, client);
        if self.turn == Some(actor) {
            self.turn = None;
        }
    }

    fn commit(&mut self, actor: u8) -> Seen {
        let client = self.client(actor);
        let Some(change) = client.intended else {
            return Seen::Unfit;
        };
        if let Some(dev) = self.halted {
            return Seen::Halted(dev);
        }
        self.leave(actor, IDLE);
        self.waiting = self.waiting.wrapping_add(bytes_of(change));
        self.now = Version {
            commits: self.now.commits.wrapping_add(1),
            values: changed(self.now.values, change),
        };
        Seen::Done
    }

    fn finish(&mut self, actor: u8) -> Seen {
        if self.client(actor).begun.is_none() {
            return Seen::Unfit;
        }
        self.leave(actor, IDLE);
        Seen::Done
    }

    fn drop_all(&mut self, actor: u8) -> Seen {
        let begun = self.client(actor).begun;
        self.leave(actor, Client { begun, ..IDLE });
        Seen::Done
    }

    // What an actor is told of an event that writes, where it doesn't happen.
    fn withheld(&self, actor: u8, stage: Stage) -> Option<Seen> {
        if let Some(dev) = self.halted {
            return Some(Seen::Halted(dev));
        }
        if self.stage() != stage {
            return Some(self.told(actor));
        }
        None
    }

    fn seal(&mut self, actor: u8) -> Seen {
        if let Some(seen) = self.withheld(actor, Stage::Seal) {
            return seen;
        }
        self.flight = Some(Flight {
            to: self.now,
            parts: parts_of(self.shape.mirrors, self.waiting),
            begun: false,
        });
        self.waiting = 0;
        Seen::Done
    }

    // Writes a part on each metadata device, up to the first that fails.
    fn write_part(&mut self) -> Option<u8> {
        for dev in 0..self.shape.mirrors {
            self.set_unsettled(dev, true);
        }
        for dev in 0..self.shape.mirrors {
            if self.next_fails() {
                self.halted = Some(dev);
                return Some(dev);
            }
        }
        None
    }

    fn write_entry(&mut self, actor: u8) -> Seen {
        if let Some(seen) = self.withheld(actor, Stage::WriteEntry) {
            return seen;
        }
        if let Some(dev) = self.write_part() {
            return Seen::DeviceFault(dev);
        }
        if let Some(flight) = self.flight {
            self.flight = Some(Flight {
                parts: flight.parts.saturating_sub(1),
                begun: true,
                ..flight
            });
        }
        Seen::Done
    }

    fn flush(&mut self, dev: u8) -> Seen {
        if dev >= self.shape.devices {
            return Seen::Unfit;
        }
        if let Some(dev) = self.halted {
            return Seen::Halted(dev);
        }
        if self.next_fails() {
            self.halted = Some(dev);
            return Seen::DeviceFault(dev);
        }
        self.set_unsettled(dev, false);
        Seen::Done
    }

    fn settle(&mut self, actor: u8) -> Seen {
        if let Some(seen) = self.withheld(actor, Stage::Settle) {
            return seen;
        }
        self.durable = self.newest();
        self.flight = None;
        Seen::Done
    }
}
