ghost use Rattle.std.specs.Prelude.{◌≡◌, ◌<◌, true};
ghost use Rattle.core_state.specs.Devices.{FlushesDevice, WritesEntry, WritesNode};
ghost use Rattle.core_state.specs.Events.{Fits, FlushGives, WriteGives, WriteSetGives};
ghost use Rattle.core_actors.specs.declared.event.Event.TheVariants.{Flush, WriteEntry, WriteSet};
ghost use Rattle.geometry.specs.Layouts.{is_layout_of};

use crate::memory::{Memory, is_stage};
use core_actors::{Answer, Refusal};
use dev_model::Devices;
use geometry::DiskFault;
use journal_writer::Stage;
use node_store::NodeFault;

impl Memory {
    /// Writes the next part of the entry in flight on every metadata device, if that is the stage of the journal: for each of them
    /// a write. It takes no memory. Where a device fails, the session stops writing.
    pub fn write_entry<D: Devices>(&mut self, devices: &mut D, actor: u8) -> Answer
        requires fits { Fits self.old actor WriteEntry }
        requires layout { is_layout_of (D.state devices.old).sizes self.old.volume.layout ≡ true }
        ensures gives { WriteGives (D.state devices.new).moment self.old actor result self.new }
        ensures devices { WritesEntry D.tells self.old.volume.writer.ring result
            (D.state devices.old) (D.state devices.new) }
    {
        if let Some(halt) = self.volume.halted() {
            return self.refused(actor, Refusal::Halted(halt));
        }
        if !is_stage(self.volume.stage(), Stage::WriteEntry) {
            return self.tell(actor);
        }
        match self.volume.write_part(devices) {
            Ok(()) => Answer::Done,
            Err(DiskFault::DeviceFault(dev)) => self.fail(actor, dev, devices.moment()),
            Err(DiskFault::NoMemory) => unreachable!(),
        }
    }

    /// Writes the next block of what is frozen of a leaf on every metadata device, if that is the stage of the nodes: for each of them a
    /// write. It takes no memory. Where a device fails, the session stops writing.
    pub fn write_set<D: Devices>(&mut self, devices: &mut D, actor: u8, node: u64) -> Answer
        requires fits { Fits self.old actor (WriteSet node) }
        requires layout { is_layout_of (D.state devices.old).sizes self.old.volume.layout ≡ true }
        ensures gives { WriteSetGives node (D.state devices.new).moment self.old actor result self.new }
        ensures devices { WritesNode D.tells self.old.volume.work.unfinished result
            (D.state devices.old) (D.state devices.new) }
    {
        if let Some(halt) = self.volume.halted() {
            return self.refused(actor, Refusal::Halted(halt));
        }
        if !is_stage(self.volume.node_stage(), Stage::WriteSet(node)) {
            return self.tell_nodes(actor);
        }
        match self.volume.write_node(devices) {
            Ok(()) => Answer::Done,
            Err(NodeFault::DeviceFault(dev)) => self.fail(actor, dev, devices.moment()),
            Err(NodeFault::BadNode(_)) => unreachable!(),
            Err(NodeFault::NoMemory) => unreachable!(),
        }
    }

    /// Flushes a device. It takes no memory. Where it fails, the session stops writing.
    pub fn flush_device<D: Devices>(&mut self, devices: &mut D, actor: u8, dev: u8) -> Answer
        requires fits { Fits self.old actor (Flush dev) }
        requires layout { is_layout_of (D.state devices.old).sizes self.old.volume.layout ≡ true }
        ensures gives { FlushGives dev (D.state devices.new).moment self.old actor result self.new }
        ensures devices { FlushesDevice D.tells dev result (D.state devices.old)
            (D.state devices.new) }
        ensures sizes { (D.state devices.new).sizes ≡ (D.state devices.old).sizes }
    {
        if let Some(halt) = self.volume.halted() {
            return self.refused(actor, Refusal::Halted(halt));
        }
        match self.volume.flush(devices, dev) {
            Ok(()) => Answer::Done,
            Err(_) => self.fail(actor, dev, devices.moment()),
        }
    }
}
