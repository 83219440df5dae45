ghost use Rattle.std.specs.Prelude.{◌≡◌, ◌<◌, ◌≤◌, ◌^◌, ◌+◌, ◌*◌, ◌++◌, true, Some, None, length, take, map, IfOk, IfSome, MatchOption};
ghost use Rattle.std.specs.Int.{w32, to_le_bytes};
ghost use Rattle.std.specs.List.{flat_map};
ghost use Rattle.sha2.specs.Sha256.{sha256};
ghost use Rattle.dev_model.specs.Devices.{now};
ghost use Rattle.dev_model.specs.Disk.{as_read};
ghost use Rattle.dev_model.specs.Frames.{AreOnlyRead, after_reads};
ghost use Rattle.sealed_block.specs.Blocks.{IsInRanges};
ghost use Rattle.geometry.specs.Faults.{failed_device, failed_super_device};
ghost use Rattle.vol_types.specs.Layouts.{is_layout};
ghost use Rattle.geometry.specs.Layouts.{is_layout_of};
ghost use Rattle.geometry.specs.Superblocks.{IsSuperAnswer};
ghost use Rattle.geometry.specs.Superblocks.{all_there, copy_in, counting, layout_in, super_block, super_copy, super_head, super_payload};

use crate::copies::{SuperCopy, read_counting};
use crate::fault::{DiskFault, SuperFault};
use crate::judging::judge;
use crate::reading::sizes_of;
use dev_model::Devices;
use sealed_block::{Head, SUPERBLOCK, seal, sealed_blocks_open};
use std::alloc::Global;
use vol_digest::digest;
use vol_types::Layout;

/// The bytes of the longest payload of a superblock: that of eight devices.
const LONGEST_PAYLOAD: usize = 40;

// Writes the bytes after the first `at` ones.
fn put(into: &mut [u8], at: usize, bytes: &[u8])
    requires { at + length bytes.now ≤ length into.old }
    ensures { take (at + length bytes.now) into.new ≡ take at into.old ++ bytes.now }
{
    into[at..at + bytes.len()].copy_from_slice(bytes);
}

// Writes the number of blocks of each device after the first eight bytes.
fn put_blocks(blocks: &[u32], into: &mut [u8; 40])
    requires { length blocks.now ≤ 8 }
    ensures { take (8 + 4 * length blocks.now) into.new ≡ take 8 into.old ++ flat_map
        (to_le_bytes w32) blocks.now }
{
    for dev in 0..blocks.len() {
        put(into, 8 + 4 * dev, &blocks[dev].to_le_bytes());
    }
}

// The payload of a device's superblock, with zeros after it.
fn super_payload(layout: &Layout, dev: u8) -> [u8; 40]
    requires layout { is_layout layout.now ≡ true }
    ensures bytes { take (8 + 4 * length layout.now.blocks) result ≡ super_payload layout.now dev }
    ensures size { length result ≡ 40 }
{
    let blocks = layout.blocks.as_slice();
    let mut payload = [0; 40];
    let [a, b, c, d] = layout.journal.to_le_bytes();
    put(
        &mut payload,
        0,
        &[
            blocks.len() as u8,
            dev,
            layout.metadata_replicas,
            layout.data_replicas,
            a,
            b,
            c,
            d,
        ],
    );
    put_blocks(blocks, &mut payload);
    payload
}

// The head of the copy in this block, with this sequence.
fn super_head(id: &[u8; 16], dev: u8, block: u32, sequence: u64, payload: &[u8]) -> Head
    requires { length payload.now ≤ 40 }
    ensures head { result ≡ record {
      kind = 1;
      version = 1;
      part = 0;
      parts = 1;
      id = id.now;
      owner
          = dev;
      number = block;
      sequence = sequence;
      length = length payload.now;
      whole = sha256
          payload.now;
    } }
    ensures ranges { IsInRanges result }
{
    Head {
        kind: SUPERBLOCK,
        version: 1,
        part: 0,
        parts: 1,
        id: *id,
        owner: u64::from(dev),
        number: u64::from(block),
        sequence,
        length: payload.len() as u32,
        whole: digest(payload),
    }
}

/// Writes over `into` the copy of a device's superblock for block 0 or 8. It takes no memory.
pub fn write_super(layout: &Layout, dev: u8, block: u32, sequence: u64, into: &mut [u8])
    requires layout { is_layout layout.now ≡ true }
    requires device { dev < length layout.now.blocks }
    requires room { length into.old ≡ 4096 }
    ensures bytes { into.new ≡ super_block layout.now dev block sequence }
    ensures copy { sequence < 2 ^ 63 → copy_in block into.new ≡ Some
        (super_copy layout.now dev block sequence) }
{
    let bytes = super_payload(layout, dev);
    let (payload, _) = bytes.split_at(8 + 4 * layout.blocks.len());
    seal(
        &super_head(&layout.id, dev, block, sequence, payload),
        payload,
        into,
    );
    sealed_blocks_open();
}

// The copy that counts on each device, where each has one.
fn read_copies<D: Devices>(
    alloc: Global,
    devices: &mut D,
) -> Result<Option<Vec<SuperCopy>>, DiskFault>
    ensures found { D.tells → let there = all_there (map counting (as_read (now (D.state devices.old)))) in
        IfOk result (λ copies. MatchOption copies (there ≡ None) (λ list. there ≡ Some list.items)) }
    ensures few { IfOk result (λ copies. IfSome copies (λ list. length list.items ≤ 8)) }
    ensures read { AreOnlyRead D.tells (D.state devices.old) (D.state devices.new) }
    ensures cause { (D.state devices.new).faults ≡ after_reads (failed_device result)
        (D.state devices.old).faults }
    ensures device { IfSome (failed_device result) (λ dev. dev < length (D.state devices.old).sizes) }
    ensures few_devices { length (D.state devices.old).sizes ≤ 8 }
{
    let count = devices.count();
    let mut copies = Vec::new(alloc);
    for dev in 0..count {
        match read_counting(alloc, devices, dev)? {
            Some(copy) => copies.push(copy)?,
            None => return Ok(None),
        }
    }
    Ok(Some(copies))
}

/// The layout of the volume on the devices. It costs two reads a device, and any that fails ends it.
pub fn read_super<D: Devices>(alloc: Global, devices: &mut D) -> Result<Layout, SuperFault>
    ensures found { D.tells → IsSuperAnswer result (layout_in (as_read (now (D.state devices.old)))) }
    ensures fits { IfOk result (λ layout. is_layout_of (D.state devices.new).sizes layout ≡ true) }
    ensures read { AreOnlyRead D.tells (D.state devices.old) (D.state devices.new) }
    ensures cause { (D.state devices.new).faults ≡ after_reads (failed_super_device result)
        (D.state devices.old).faults }
    ensures device { IfSome (failed_super_device result)
        (λ dev. dev < length (D.state devices.old).sizes) }
    ensures few_devices { length (D.state devices.old).sizes ≤ 8 }
{
    let sizes = sizes_of(alloc, devices)?;
    let Some(copies) = read_copies(alloc, devices)? else {
        return Err(SuperFault::NoSuper);
    };
    judge(alloc, &sizes, &copies)
}
