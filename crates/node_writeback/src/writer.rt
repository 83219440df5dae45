ghost use Rattle.std.specs.Prelude.{◌≡◌, ◌+◌, ◌/◌, ◌<◌, ◌≤◌, ◌^◌, ◌==◌, ◌++◌, ◌∷◌, ◌*◌, [], All, None, Some, IsSome, IfSome, OnErr, OnOk, if◌then◌else◌, length, vec_capacity, vec_len, ℕ};
ghost use Rattle.node_store.specs.Faults.{failed_node_device};
ghost use Rattle.node_store.specs.Writes.{NamesDeviceOf};
ghost use Rattle.node_writeback.specs.NodeWork.{IsFrozen, IsKept, IsWork, first_left, frozen_nodes, no_work, with_part};
ghost use Rattle.node_writeback.specs.NodeWrites.{HaveBuckets, WritesNodePart};
ghost use Rattle.record_codec.specs.Sets.{IsSetInRange};
ghost use Rattle.vol_types.specs.Limits.{bucket_blocks};
ghost use Rattle.vol_types.specs.Sets.{set_length_of};

use crate::{FrozenNode, UnfinishedNode};
use dev_model::Devices;
use node_store::{NodeFault, plan_set, write_part};
use record_codec::SetRecord;
use std::alloc::{AllocError, Global};
use std::marker::Model;
use std::mem;
use vol_types::{BUCKET_BLOCKS, Layout, NodePtr};

/// The writing side of nodes: those that are frozen, in the order in which they were, and how many were born in the session.
#[derive(Drop)]
pub struct NodeWriter {
    // with room for the node that isn't finished
    finished: Vec<FrozenNode>,
    unfinished: Option<UnfinishedNode>,
    born: u64,
}

impl Model for NodeWriter {
    ghost use Rattle.std.specs.Prelude.{vec_len, vec_capacity};
    ghost use Rattle.node_writeback.specs.NodeWork.{IsKept, NodeWork};

    ghost Value = { NodeWork };

    ghost view = { λ w. record { finished = w.finished.items; unfinished = w.unfinished; born = w.born } };

    ghost invariant = { λ w. IsKept (vec_len w.finished) (vec_capacity w.finished) (record { finished = w.finished.items; unfinished = w.unfinished; born = w.born }) };
}

impl NodeWriter {
    /// No node is frozen, and none was born. It takes no memory.
    pub fn new(alloc: Global) -> NodeWriter
        ensures { result ≡ no_work 0 }
    {
        NodeWriter {
            finished: Vec::new(alloc),
            unfinished: None,
            born: 0,
        }
    }

    /// How many nodes were born in the session.
    pub fn born(&self) -> u64
        ensures exact { result ≡ self.now.born }
        ensures few { result ≤ 2 ^ 32 }
    {
        self.born
    }

    /// The nodes that are written, in the order in which they were frozen.
    pub fn finished(&self) -> &[FrozenNode]
        ensures { result.now ≡ self.now.finished }
    {
        self.finished.as_slice()
    }

    /// The birth of the node of which blocks are left to be written, if there is one: of the node in whose place it comes.
    pub fn unfinished(&self) -> Option<u64>
        ensures exact { result ≡ first_left self.now }
        ensures sound { IsWork self.now }
    {
        match &self.unfinished {
            None => None,
            Some(unfinished) => Some(unfinished.node.birth),
        }
    }

    /// Whether no node is frozen.
    pub fn is_idle(&self) -> bool
        ensures { result ≡ (length (frozen_nodes self.now) == 0) }
    {
        if !self.finished.is_empty() {
            return false;
        }
        self.unfinished.is_none()
    }

    /// Freezes a node, in whose place `fresh` comes: the set is what is written of it, with this sequence in its head. It takes the bytes'
    /// memory and the time of two digests of them. An `Err` changes nothing.
    pub fn freeze(
        &mut self,
        alloc: Global,
        layout: &Layout,
        sequence: u64,
        birth: u64,
        fresh: NodePtr,
        set: &SetRecord,
    ) -> Result<(), AllocError>
        requires idle { self.old.unfinished ≡ None }
        requires born { self.old.born < 2 ^ 32 }
        requires set { IsSetInRange set.now }
        requires own_birth { set.now.birth ≡ fresh.birth }
        requires level { set.now.level ≡ fresh.level }
        requires places { 0 < length fresh.places }
        requires fits { (set_length_of set.now.keys + 3967) / 3968 ≤ 16 }
        requires values { All (λ key. IsSome key.value) set.now.keys }
        ensures ok { OnOk result (IsFrozen layout.now.id sequence birth fresh set.now self.old self.new) }
        ensures err { OnErr result (self.new ≡ self.old) }
    {
        if self.finished.reserve(1).is_err() {
            drop(fresh);
            return Err(AllocError);
        }
        let Ok(blocked) = plan_set(alloc, layout, &fresh, 0, sequence, set) else {
            drop(fresh);
            return Err(AllocError);
        };
        self.unfinished = Some(UnfinishedNode {
            node: FrozenNode {
                btree: set.btree,
                birth,
                fresh,
                blocked,
            },
            written: 0,
        });
        self.born += 1;
        Ok(())
    }

    /// Writes the next block of the node that isn't finished, on each of its places. It costs that many writes and takes no memory.
    /// Until the devices are flushed, a crash may leave any bytes there. After an `Err` the block is still the next one.
    pub fn write_part<D: Devices>(&mut self, devices: &mut D) -> Result<(), NodeFault>
        requires some { IsSome self.old.unfinished }
        requires there { IfSome self.old.unfinished (λ unfinished. HaveBuckets
            (D.state devices.old).sizes unfinished.node.blocked.places) }
        ensures ok { OnOk result (self.new ≡ with_part self.old) }
        ensures err { OnErr result (self.new ≡ self.old) }
        ensures writes { IfSome self.old.unfinished (λ unfinished. WritesNodePart D.tells
            unfinished.node.blocked unfinished.written (failed_node_device result)
            (D.state devices.old) (D.state devices.new)) }
        ensures named { IfSome self.old.unfinished (λ unfinished. NamesDeviceOf
            unfinished.node.blocked.places result) }
    {
        self.write_next(devices)?;
        self.advance();
        Ok(())
    }

    // Writes the next block of the node that isn't finished, on each of its places.
    fn write_next<D: Devices>(&self, devices: &mut D) -> Result<(), NodeFault>
        requires some { IsSome self.now.unfinished }
        requires there { IfSome self.now.unfinished (λ unfinished. HaveBuckets
            (D.state devices.old).sizes unfinished.node.blocked.places) }
        ensures writes { IfSome self.now.unfinished (λ unfinished. WritesNodePart D.tells
            unfinished.node.blocked unfinished.written (failed_node_device result)
            (D.state devices.old) (D.state devices.new)) }
        ensures named { IfSome self.now.unfinished (λ unfinished. NamesDeviceOf
            unfinished.node.blocked.places result) }
    {
        match &self.unfinished {
            None => unreachable!(),
            Some(unfinished) => {
                write_part(devices, &unfinished.node.blocked, unfinished.written)
            }
        }
    }

    // Takes the next block of the node that isn't finished as written.
    fn advance(&mut self)
        requires { IsSome self.old.unfinished }
        ensures { self.new ≡ with_part self.old }
    {
        let Some(unfinished) = self.unfinished.take() else {
            unreachable!()
        };
        self.unfinished = advanced(&mut self.finished, unfinished);
    }

    /// Ends the work on the nodes that are written, and gives these. It takes no memory.
    pub fn end(&mut self, alloc: Global) -> Vec<FrozenNode>
        requires { self.old.unfinished ≡ None }
        ensures nodes { result.items ≡ self.old.finished }
        ensures ended { self.new ≡ no_work self.old.born }
    {
        mem::replace(&mut self.finished, Vec::new(alloc))
    }
}

// The node with one more of its blocks written, or none where that was its last one: then it joins those that are finished.
fn advanced(finished: &mut Vec<FrozenNode>, unfinished: UnfinishedNode) -> Option<UnfinishedNode>
    requires room { vec_len finished.old < vec_capacity finished.old }
    requires left { unfinished.written < bucket_blocks }
    ensures finished { finished.new.items ≡ (if unfinished.written + 1 == bucket_blocks
        then finished.old.items ++ unfinished.node ∷ [] else finished.old.items) }
    ensures unfinished { result ≡ (if unfinished.written + 1 == bucket_blocks then None
        else Some (record { node = unfinished.node; written = unfinished.written + 1 })) }
    ensures kept { (born : ℕ) → IsWork (record { finished = finished.old.items; unfinished = Some unfinished; born = born })
        → IsKept (vec_len finished.new) (vec_capacity finished.new)
        (record { finished = finished.new.items; unfinished = result; born = born }) }
{
    let UnfinishedNode { node, written } = unfinished;
    if u32::from(written) + 1 == BUCKET_BLOCKS {
        finished.push_reserved(node);
        None
    } else {
        Some(UnfinishedNode {
            node,
            written: written + 1,
        })
    }
}
