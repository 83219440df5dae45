ghost use Rattle.std.specs.Prelude.{◌≡◌, ◌≢◌, ◌↔◌, ◌<◌, ℕ, true, length, IfErr, IfOk, IfSome, IsTrue};
ghost use Rattle.core_state.specs.Events.{Fits};
ghost use Rattle.core_state.specs.Opening.{IsOpened};
ghost use Rattle.core_state.specs.States.{mine};
ghost use Rattle.geometry.specs.Layouts.{is_layout_of};
ghost use Rattle.image_view.specs.Found.{node_places};
ghost use Rattle.replay.specs.Mending.{KeepsPast};
ghost use Rattle.replay.specs.Volumes.{found_in};
ghost use Rattle.dev_model.specs.Devices.{now};
ghost use Rattle.dev_model.specs.Frames.{GoOn, after_writes};
ghost use Rattle.vol_core.specs.Cores.{StepGives};
ghost use Rattle.vol_core.specs.Left.{KeepsLeft, failed_by};
ghost use Rattle.vol_core.specs.Rested.{HasRoomAfterCheckpoint, IsRested, MayKeepRing};
ghost use Rattle.vol_core.specs.Room.{HasRoomForNext, MayKeepIf, MayKeepRoom};
ghost use Rattle.vol_core.specs.Safety.{KeepsDurable, KeepsSafe, MayBegin, Survives};
ghost use Rattle.vol_types.specs.Layouts.{is_layout};

use crate::laws::{found_volumes_have_laws, open_volumes_have_laws};
use crate::opening::Opening;
use core_state::{Answer, Event, Memory, node_places};
use crash_safety::entries_are_written_safely;
use dev_model::Devices;
use replay::Loaded;
use std::alloc::{AllocError, Global};
use std::marker::{Model, PhantomData};

/// An open volume. It may be sent to another thread.
///
/// Its type keeps what the session promises, where the devices tell and the volume was found in order, each btree one leaf: whatever a crash
/// has left of the devices since it was opened means what some entry of the journal led to, and none before the last that was durable by then
/// (`survives`, and inside an event `keeps`), as far as no torn block opens by chance. What it leaves now is told by what is in memory, and can be
/// opened again (`left`); and where what was found is sound, the blocks of its files are as they were.
#[derive(Drop)]
pub struct Core<D: Devices, O: Opening> {
    memory: Memory,
    devices: D,
    opening: PhantomData<O>,
}

/// The devices of a volume that isn't open, since there was no memory.
#[derive(Drop)]
pub struct Unopened<D> {
    pub devices: D,
}

impl<D: Devices, O: Opening> Model for Core<D, O> {
    ghost use Rattle.vol_core.specs.Cores.{CoreState, IsCore};

    ghost Value = { CoreState D };

    ghost view = { λ c. record { memory = c.memory; devices = c.devices } };

    ghost invariant = { λ c. IsCore D.tells O.found O.start (D.state c.devices) c.memory };
}

impl<D: Devices, O: Opening> Core<D, O> {
    /// A volume that was loaded from devices, before any event. No device is called. It costs a logarithm for each node, some for
    /// each update of the needed entries, and goes over all buckets. An `Err` is out of memory.
    pub fn of(alloc: Global, loaded: Loaded, devices: D) -> Result<Core<D, O>, Unopened<D>>
        requires layout { is_layout_of (D.state devices).sizes loaded.layout ≡ true }
        requires opening { found_in loaded ≡ O.found }
        requires start { D.state devices ≡ O.start }
        ensures opened { IfOk result (λ core. IsOpened loaded.layout loaded.session loaded.map
            loaded.needed (node_places (found_in loaded)) core.memory) }
        ensures devices { IfOk result (λ core. core.devices ≡ devices) }
        ensures err { IfErr result (λ unopened. unopened.devices ≡ devices) }
    {
        open_volumes_have_laws();
        found_volumes_have_laws();
        match memory_of(alloc, loaded) {
            Ok(memory) => Ok(Core {
                memory,
                devices,
                opening: PhantomData,
            }),
            Err(_) => Err(Unopened { devices }),
        }
    }

    /// What is in memory. Where the ring may be kept of what was found (`MayKeepRing`), as of all that this program leaves, a volume at rest has room: where neither the
    /// journal nor the nodes have a next step, as once a checkpoint is done, no node is dirty, neither the last durable entry nor the next one needs an older
    /// one, and no commit that may be intended meets a full ring. Where what was found left room in the ring too (`MayKeepRoom`), the next entry finds room at any time.
    /// Both are so whether the devices tell what they hold or not; where they do, and the session may begin with what was found, they may be kept (`may`).
    pub fn memory(&self) -> &Memory
        ensures memory { result.now ≡ self.now.memory }
        ensures may { MayKeepIf D.tells O.found O.start }
        ensures rested { MayKeepRing O.found → IsRested self.now.memory.volume
            → HasRoomAfterCheckpoint self.now.memory.volume }
        ensures room { MayKeepRoom O.found → HasRoomForNext self.now.memory.volume }
    {
        self.memory.see_kept();
        &self.memory
    }

    /// The devices on which it lies. Where they tell what they hold, and the volume was found in order with its journal mended and each btree
    /// one leaf, whatever a crash has left of them since then means what some entry led to, and none before the last that was durable
    /// by that moment, as far as no torn block opens by chance; and so does what is left of that on each metadata device alone, whatever blocks of the
    /// journal and of nodes the others lose. What a crash leaves now is what the last durable entry led to, by whose keys and the
    /// changes that aren't durable the keys in memory come, or what the entry in flight leads to; each btree of it is one leaf, and each entry that the
    /// last durable one needs stands whole on every metadata device. Where what was found left room in the ring, so does what a crash leaves. Where what was
    /// found is sound, no node lies among the blocks of its files, and these are as they were.
    pub fn devices(&self) -> &D
        ensures devices { result.now ≡ self.now.devices }
        ensures safe { KeepsSafe D.tells O.found O.start (D.state result.now) self.now.memory.volume }
        ensures survives { D.tells → MayBegin O.found (now O.start)
            → Survives O.found O.start (D.state result.now) self.now.memory.volume }
        ensures left { D.tells → MayBegin O.found (now O.start)
            → KeepsLeft O.found O.start (D.state result.now) (D.state result.now) self.now.memory.volume }
    {
        entries_are_written_safely();
        &self.devices
    }

    /// The devices, of a volume that is open no longer.
    pub fn into_devices(self) -> D
        ensures { result ≡ self.devices }
    {
        let Core {
            memory,
            devices,
            opening: _,
        } = self;
        drop(memory);
        devices
    }

    /// Whether an actor may make an event. It takes no memory, and looks at each update of an `Intend`.
    pub fn may(&self, actor: u8, event: &Event) -> bool
        ensures { IsTrue result ↔ Fits self.now.memory actor event.now }
    {
        self.memory.may(actor, event)
    }

    /// Makes an event of an actor, and answers it. What other actors have under way stays. Where the session may begin with what
    /// was found, and no torn block of the journal areas opens by chance, whatever a crash leaves at a moment of the event means
    /// what an entry led to that is no earlier than the last one that was durable when the event began, and has no fewer commits; it is
    /// told by what was in memory then, and can be opened again, with room in the ring if there was room (`left`), as `devices` says it of the
    /// present moment.
    /// Devices are only written and flushed, and a failure that is answered names the device whose count rose; no other count did.
    /// It costs what `Memory::step` does. `Begin`, `Intend`, `Finish`, `Drop` and `Next` take no memory.
    pub fn step(&mut self, actor: u8, event: Event) -> Answer
        requires { Fits self.old.memory actor event }
        ensures gives { StepGives D.tells D.state self.old actor event result self.new }
        ensures others { (other : ℕ) → other ≢ actor → mine self.new.memory other
            ≡ mine self.old.memory other }
        ensures keeps { D.tells → MayBegin O.found (now O.start) → KeepsDurable O.start
            (D.state self.old.devices) (D.state self.new.devices) self.old.memory.volume }
        ensures left { D.tells → MayBegin O.found (now O.start) → KeepsLeft O.found O.start
            (D.state self.old.devices) (D.state self.new.devices) self.old.memory.volume }
        ensures goes_on { GoOn (D.state self.old.devices) (D.state self.new.devices) }
        ensures past { D.tells → KeepsPast (D.state self.old.devices) (D.state self.new.devices) }
        ensures cause { (D.state self.new.devices).faults ≡ after_writes (failed_by result)
            (D.state self.old.devices).faults }
        ensures device { IfSome (failed_by result)
            (λ dev. dev < length (D.state self.old.devices).sizes) }
    {
        open_volumes_have_laws();
        self.memory.see_kept();
        make(&mut self.memory, &mut self.devices, actor, event)
    }
}

// Makes an event of an actor, and answers it.
fn make<D: Devices>(memory: &mut Memory, devices: &mut D, actor: u8, event: Event) -> Answer
    requires fits { Fits memory.old actor event }
    requires layout { is_layout_of (D.state devices.old).sizes memory.old.volume.layout ≡ true }
    ensures gives { StepGives D.tells D.state (record { memory = memory.old; devices = devices.old })
        actor event result (record { memory = memory.new; devices = devices.new }) }
    ensures layout { is_layout_of (D.state devices.new).sizes memory.new.volume.layout ≡ true }
    ensures goes_on { GoOn (D.state devices.old) (D.state devices.new) }
    ensures others { (other : ℕ) → other ≢ actor → mine memory.new other ≡ mine memory.old other }
{
    match event {
        Event::WriteEntry => memory.write_entry(devices, actor),
        Event::Flush(dev) => memory.flush_device(devices, actor, dev),
        Event::WriteSet(node) => memory.write_set(devices, actor, node),
        event => memory.step(actor, event),
    }
}

// What is in memory of a volume that was loaded.
fn memory_of(alloc: Global, loaded: Loaded) -> Result<Memory, AllocError>
    requires { is_layout loaded.layout ≡ true }
    ensures { IfOk result (IsOpened loaded.layout loaded.session loaded.map loaded.needed
        (node_places (found_in loaded))) }
{
    let Ok(nodes) = node_places(alloc, &loaded.map) else {
        drop(loaded);
        return Err(AllocError);
    };
    let memory = Memory::of(
        alloc,
        loaded.layout,
        loaded.session,
        loaded.map,
        loaded.needed.as_slice(),
        &nodes,
    );
    drop(nodes);
    memory
}
