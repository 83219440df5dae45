ghost use Rattle.std.specs.Prelude.{◌≡◌, ◌<◌, length, slice_index, IfOk, IfSome};
ghost use Rattle.dev_model.specs.Devices.{now};
ghost use Rattle.dev_model.specs.Disk.{as_read, blocks_of};
ghost use Rattle.dev_model.specs.Frames.{AreOnlyRead, after_reads};
ghost use Rattle.geometry.specs.Faults.{failed_device};
ghost use Rattle.geometry.specs.Superblocks.{copy_at, copy_in, counting, has_form, is_copy_head, is_same_layout, later, named_layout, numbers_in};

use crate::fault::DiskFault;
use crate::reading::read_block;
use dev_model::Devices;
use sealed_block::{Head, SUPERBLOCK, payload, unseal};
use std::alloc::{AllocError, Global};
use vol_digest::digest;
use vol_types::{Blocks, Bytes, Layout};

/// A copy of a superblock: its head and its payload.
#[derive(PartialEq, Eq, Drop)]
pub struct SuperCopy {
    pub head: Head,
    pub payload: Bytes,
}

// Whether it is the head of a copy in this block, with this payload.
fn is_copy_head(block: u32, payload: &[u8], head: &Head) -> bool
    ensures { result ≡ is_copy_head block payload.now head.now }
{
    head.kind == SUPERBLOCK
        && head.part == 0
        && head.parts == 1
        && head.number == u64::from(block)
        && head.sequence < 1 << 63
        && head.whole == digest(payload)
}

// The copy that a block's bytes hold, if they hold one.
#[tactic(auto, unfolding(crate::specs::Superblocks::copy_in))]
fn copy_in(alloc: Global, block: u32, bytes: &[u8]) -> Result<Option<SuperCopy>, AllocError>
    ensures { IfOk result (λ copy. copy ≡ copy_in block bytes.now) }
{
    let Some(head) = unseal(bytes) else {
        return Ok(None);
    };
    let payload = payload(bytes, &head);
    if !is_copy_head(block, payload, &head) {
        return Ok(None);
    }
    Ok(Some(SuperCopy {
        head,
        payload: Bytes::from_slice(alloc, payload)?,
    }))
}

// The later of two copies: the one with the greater sequence, the first where they have the same.
fn later(first: Option<SuperCopy>, second: Option<SuperCopy>) -> Option<SuperCopy>
    ensures { result ≡ later first second }
{
    let Some(one) = first else {
        return second;
    };
    let Some(other) = second else {
        return Some(one);
    };
    if one.head.sequence < other.head.sequence {
        Some(other)
    } else {
        Some(one)
    }
}

// The copy in this block of a device. A device that is too short for the block has none.
fn read_copy<D: Devices>(
    alloc: Global,
    devices: &mut D,
    dev: u8,
    block: u32,
) -> Result<Option<SuperCopy>, DiskFault>
    requires { dev < length (D.state devices.old).sizes }
    ensures found { D.tells → IfOk result (λ copy. copy ≡ copy_at block
        (blocks_of (as_read (now (D.state devices.old))) dev)) }
    ensures read { AreOnlyRead D.tells (D.state devices.old) (D.state devices.new) }
    ensures cause { (D.state devices.new).faults ≡ after_reads (failed_device result)
        (D.state devices.old).faults }
    ensures device { IfSome (failed_device result) (λ failed. failed ≡ dev) }
{
    if devices.blocks(dev) <= block {
        return Ok(None);
    }
    let bytes = read_block(alloc, devices, dev, block)?;
    Ok(copy_in(alloc, block, bytes.as_slice())?)
}

/// The copy that counts on a device, if there is one. It costs two reads.
pub fn read_counting<D: Devices>(
    alloc: Global,
    devices: &mut D,
    dev: u8,
) -> Result<Option<SuperCopy>, DiskFault>
    requires { dev < length (D.state devices.old).sizes }
    ensures found { D.tells → IfOk result (λ copy. copy ≡ counting
        (blocks_of (as_read (now (D.state devices.old))) dev)) }
    ensures read { AreOnlyRead D.tells (D.state devices.old) (D.state devices.new) }
    ensures cause { (D.state devices.new).faults ≡ after_reads (failed_device result)
        (D.state devices.old).faults }
    ensures device { IfSome (failed_device result) (λ failed. failed ≡ dev) }
{
    let first = read_copy(alloc, devices, dev, 0)?;
    let second = read_copy(alloc, devices, dev, 8)?;
    Ok(later(first, second))
}
