ghost use Rattle.std.specs.Prelude.{◌≡◌, ◌↔◌, IfErr, IfSome, IsSome, IsTrue, None, OnErr, OnOk, Some, true};
ghost use Rattle.core_volume.specs.Checkpoints.{AreInPlace, HasPlacingNumbers, IsLeafFrozen, IsNodeStage, IsSpaceless, IsUnfrozen, IsUnplaced, due_in, durable_in, with_block};
ghost use Rattle.core_volume.specs.Sealing.{with_writer};
ghost use Rattle.core_volume.specs.Volumes.{IsVolume, birth_due, node_stage_of};
ghost use Rattle.journal_writer.specs.Writers.{unsettled_by};
ghost use Rattle.journal_writer.specs.declared.stage.Stage.TheVariants.{CommitNodes, Freeze};
ghost use Rattle.geometry.specs.Layouts.{is_layout_of};
ghost use Rattle.node_store.specs.Faults.{failed_node_device};
ghost use Rattle.node_store.specs.Writes.{NamesDeviceOf};
ghost use Rattle.node_writeback.specs.Freezing.{IsFreezeFault};
ghost use Rattle.node_writeback.specs.NodeWrites.{WritesNodePart};

use crate::commit::VolumeFault;
use crate::space::no_space;
use crate::volume::{Volume, in_flight};
use bucket_pool::nodes_keep_their_buckets;
use core_actors::Refusal;
use dev_model::Devices;
use journal_writer::{Stage, btrees_change_from_their_first_entry, commits_are_undone};
use node_store::NodeFault;
use node_writeback::{
    FreezeFault, exchanges_of, freeze_leaf, frozen_leaves_are_kept, give_up, leaf_due,
    leaves_are_put_in_place, put_in_place,
};
use std::alloc::Global;
use vol_types::{Btree, layouts_are_tested};

impl Volume {
    /// The next event that the work on nodes needs.
    pub fn node_stage(&self) -> Stage
        ensures { result ≡ node_stage_of self.now }
    {
        if let Some(birth) = self.nodes.unfinished() {
            return Stage::WriteSet(birth);
        }
        if let Some(birth) = self.birth_due() {
            return Stage::Freeze(birth);
        }
        if self.nodes.finished().is_empty() {
            return Stage::Rest;
        }
        match self.writer.first_unsettled() {
            None => Stage::CommitNodes,
            Some(dev) => Stage::Flush(dev),
        }
    }

    // The birth of the leaf that is to be frozen next, if there is one.
    fn birth_due(&self) -> Option<u64>
        ensures { result ≡ birth_due self.now }
    {
        match self.leaf_due() {
            None => None,
            Some(btree) => Some(self.keys.map().root(btree).birth),
        }
    }

    // The btree whose leaf is to be frozen next, if there is one.
    fn leaf_due(&self) -> Option<Btree>
        ensures { result ≡ due_in self.now }
    {
        let durable = self.durable().sequence;
        let frozen = self.nodes.finished();
        leaf_due(self.keys.map(), &self.dirty, frozen, durable)
    }

    /// Freezes the leaf of this birth. It goes over the updates that aren't durable, and takes memory for a copy of the leaf and its bytes. An
    /// `Err` says that no birth is left, that the leaf is too large, that a metadata device has no free bucket, which ends the work on nodes, or
    /// that there is no memory. But for the third it changes nothing.
    pub fn freeze(&mut self, alloc: Global, node: u64) -> Result<(), VolumeFault>
        requires { IsNodeStage (Freeze node) self.old }
        ensures frozen { OnOk result (IsLeafFrozen node self.old self.new) }
        ensures sound { IsVolume self.new }
        ensures why { IfErr result (IsUnfrozen node self.old self.new) }
    {
        let Some(btree) = self.leaf_due() else {
            unreachable!()
        };
        match self.freeze_leaf(alloc, node, btree) {
            Ok(()) => Ok(()),
            Err(FreezeFault::Spent) => Err(VolumeFault::Refused(Refusal::Spent)),
            Err(FreezeFault::NeedSplit(need)) => Err(VolumeFault::Refused(Refusal::NeedSplit(
                need,
            ))),
            Err(FreezeFault::NoMemory) => Err(VolumeFault::NoMemory),
            Err(FreezeFault::NoSpace) => Err(self.end_without_space(alloc)),
        }
    }

    // Freezes the leaf of this birth, which is that of a btree.
    fn freeze_leaf(&mut self, alloc: Global, node: u64, btree: Btree) -> Result<(), FreezeFault>
        requires stage { IsNodeStage (Freeze node) self.old }
        requires due { due_in self.old ≡ Some btree }
        ensures frozen { OnOk result (IsLeafFrozen node self.old self.new) }
        ensures sound { IsVolume self.new }
        ensures err { OnErr result (self.new ≡ self.old) }
        ensures why { IfErr result (IsFreezeFault self.old.session self.old.work.born node
            self.old.layout.metadata_replicas self.old.trees.nodes (durable_in self.old btree)
            self.old.space) }
    {
        frozen_leaves_are_kept();
        nodes_keep_their_buckets();
        btrees_change_from_their_first_entry();
        layouts_are_tested();
        let _ = self.queue.commits();
        let _ = self.keys.map().node_of(0);
        let _ = self.keys.map().height(btree);
        commits_are_undone();
        let _ = self.dirty.pin_of(0);
        let durable = self.writer.durable().sequence;
        if let Err(fault) = freeze_leaf(
            alloc,
            &self.layout,
            self.session,
            durable,
            self.keys.map(),
            &self.queue,
            in_flight(&self.writer),
            btree,
            &mut self.dirty,
            &mut self.pool,
            &mut self.nodes,
        ) {
            return Err(fault);
        }
        Ok(())
    }

    // Ends the work on nodes, since a metadata device has no free bucket, and says so.
    fn end_without_space(&mut self, alloc: Global) -> VolumeFault
        requires { self.old.work.unfinished ≡ None }
        ensures sound { IsVolume self.new }
        ensures why { IsSpaceless self.old self.new result }
    {
        frozen_leaves_are_kept();
        nodes_keep_their_buckets();
        let Ok(none) = no_space(alloc, self.is_exhausted(), self) else {
            return VolumeFault::NoMemory;
        };
        let durable = self.writer.durable().sequence;
        give_up(
            self.nodes.finished(),
            &mut self.dirty,
            &mut self.pool,
            durable,
        );
        let ended = self.nodes.end(alloc);
        drop(ended);
        VolumeFault::Refused(Refusal::NoSpace(none))
    }

    /// Writes the next block of the leaf that isn't finished on every metadata device. It takes no memory. An `Err` names a device that failed: the
    /// block is still the next one, and the metadata devices are to be flushed.
    pub fn write_node<D: Devices>(&mut self, devices: &mut D) -> Result<(), NodeFault>
        requires some { IsSome self.old.work.unfinished }
        requires layout { is_layout_of (D.state devices.old).sizes self.old.layout ≡ true }
        ensures sound { IsVolume self.new }
        ensures ok { OnOk result (self.new ≡ with_block self.old) }
        ensures err { OnErr result (self.new ≡ with_writer (unsettled_by self.old.writer) self.old) }
        ensures writes { IfSome self.old.work.unfinished (λ node. WritesNodePart D.tells
            node.node.blocked node.written (failed_node_device result) (D.state devices.old)
            (D.state devices.new)) }
        ensures named { IfSome self.old.work.unfinished (λ node. NamesDeviceOf
            node.node.blocked.places result) }
    {
        // Blocks are left of a node that isn't finished.
        let _ = self.nodes.unfinished();
        self.writer.unsettle();
        self.nodes.write_part(devices)?;
        Ok(())
    }

    /// Puts all frozen leaves in place, all or none: the leaves that they replace wait for the open entry. It takes memory for their pointers,
    /// and costs a few logarithms for each. An `Err` says that a number isn't left, or that there is no memory, and changes nothing.
    pub fn commit_nodes(&mut self, alloc: Global) -> Result<(), VolumeFault>
        requires { IsNodeStage CommitNodes self.old }
        ensures placed { OnOk result (AreInPlace self.old self.new) }
        ensures sound { IsVolume self.new }
        ensures err { OnErr result (self.new ≡ self.old) }
        ensures why { IfErr result (IsUnplaced self.old) }
    {
        if !self.has_placing_numbers() {
            return Err(VolumeFault::Refused(Refusal::Spent));
        }
        frozen_leaves_are_kept();
        leaves_are_put_in_place();
        nodes_keep_their_buckets();
        let _ = self.keys.map().node_of(0);
        let _ = self.keys.map().height(Btree::Extents);
        let _ = self.dirty.pin_of(0);
        let Ok(mut exchanges) = exchanges_of(alloc, self.nodes.finished()) else {
            return Err(VolumeFault::NoMemory);
        };
        let changes = exchanges.as_mut_slice();
        match self.keys.exchange(alloc, changes) {
            Err(_) => Err(VolumeFault::NoMemory),
            Ok(()) => {
                let sequence = self.queue.after() + 1;
                put_in_place(
                    self.nodes.finished(),
                    changes,
                    &mut self.dirty,
                    &mut self.pool,
                    sequence,
                );
                let ended = self.nodes.end(alloc);
                drop(ended);
                self.emptied = sequence;
                self.changes += 1;
                Ok(())
            }
        }
    }

    // Whether the numbers are left that it takes to put leaves in place.
    fn has_placing_numbers(&self) -> bool
        ensures { IsTrue result ↔ HasPlacingNumbers self.now }
    {
        if self.changes == u64::MAX {
            return false;
        }
        self.queue.after() < u64::MAX
    }
}
