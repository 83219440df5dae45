ghost use Rattle.std.specs.Prelude.{◌≡◌, ◌<◌, ◌≤◌, ◌-◌, ℕ, true, Some, length, slice_index, IfOk, IfSome};
ghost use Rattle.dev_model.specs.Devices.{now};
ghost use Rattle.dev_model.specs.Disk.{as_read, blocks_of, zeros};
ghost use Rattle.dev_model.specs.Frames.{AreOnlyRead, after_reads};
ghost use Rattle.geometry.specs.Faults.{failed_device};
ghost use Rattle.vol_types.specs.Layouts.{is_layout};
ghost use Rattle.geometry.specs.Sessions.{session_block, session_named};
ghost use Rattle.geometry.specs.Superblocks.{copy_in, super_block, super_copy};
ghost use Rattle.vol_format.specs.Formatting.{spare_beside, spare_block};
ghost use Rattle.vol_format.specs.Steps.{AreSupers};

use dev_model::Devices;
use geometry::{DiskFault, SuperCopy, read_counting, session_bytes, write_super};
use std::alloc::{AllocError, Global};
use vol_types::{Bytes, Layout};

/// A block of zeros.
pub(crate) fn zero_block(alloc: Global) -> Result<Bytes, AllocError>
    ensures zeros { IfOk result (λ bytes. bytes ≡ zeros) }
    ensures size { IfOk result (λ bytes. length bytes ≡ 4096) }
{
    Ok(Bytes::from(vec![in alloc; 0; 4096]?))
}

// A block to be written over.
fn blank_block(alloc: Global) -> Result<Vec<u8>, AllocError>
    ensures { IfOk result (λ bytes. length bytes.items ≡ 4096) }
{
    vec![in alloc; 0; 4096]
}

/// The block that names session 1 of the volume.
pub(crate) fn first_session(alloc: Global, layout: &Layout) -> Result<Bytes, AllocError>
    ensures bytes { IfOk result (λ bytes. bytes ≡ session_block layout.now.id 1) }
    ensures named { IfOk result (λ bytes. session_named layout.now.id 5
        (session_block layout.now.id 1) ≡ Some 1) }
    ensures size { IfOk result (λ bytes. length bytes ≡ 4096) }
{
    let mut bytes = blank_block(alloc)?;
    session_bytes(&layout.id, 1, &mut bytes);
    Ok(Bytes::from(bytes))
}

// The bytes of a device's superblock copy with sequence 1, for block 0 or 8.
fn super_bytes(alloc: Global, layout: &Layout, dev: u8, block: u32) -> Result<Bytes, AllocError>
    requires layout { is_layout layout.now ≡ true }
    requires device { dev < length layout.now.blocks }
    ensures bytes { IfOk result (λ bytes. bytes ≡ super_block layout.now dev block 1) }
    ensures copy { IfOk result (λ bytes. copy_in block (super_block layout.now dev block 1) ≡ Some
        (super_copy layout.now dev block 1)) }
    ensures size { IfOk result (λ bytes. length bytes ≡ 4096) }
{
    let mut bytes = blank_block(alloc)?;
    write_super(layout, dev, block, 1, &mut bytes);
    Ok(Bytes::from(bytes))
}

/// The superblock copies of all devices, for block 0 or 8.
pub(crate) fn super_blocks(
    alloc: Global,
    layout: &Layout,
    block: u32,
) -> Result<Vec<Bytes>, AllocError>
    requires layout { is_layout layout.now ≡ true }
    ensures made { IfOk result (λ supers. AreSupers layout.now block supers.items) }
{
    let mut supers = Vec::new(alloc);
    for dev in 0..layout.blocks.len() as u8 {
        supers.push(super_bytes(alloc, layout, dev, block)?)?;
    }
    Ok(supers)
}

// The block of the other copy beside this one.
fn spare_beside(copy: &SuperCopy) -> u32
    ensures { result ≡ spare_beside (Some copy.now) }
{
    if copy.head.number == 0 { 8 } else { 0 }
}

/// The block of a device's superblock copy that doesn't count.
pub(crate) fn find_spare<D: Devices>(
    alloc: Global,
    devices: &mut D,
    dev: u8,
) -> Result<u32, DiskFault>
    requires { dev < length (D.state devices.old).sizes }
    ensures found { D.tells → IfOk result (λ block. block ≡ spare_block
        (blocks_of (as_read (now (D.state devices.old))) dev)) }
    ensures range { IfOk result (λ block. block ≤ 8) }
    ensures read { AreOnlyRead D.tells (D.state devices.old) (D.state devices.new) }
    ensures cause { (D.state devices.new).faults ≡ after_reads (failed_device result)
        (D.state devices.old).faults }
    ensures device { IfSome (failed_device result) (λ failed. failed ≡ dev) }
{
    match read_counting(alloc, devices, dev)? {
        None => Ok(8),
        Some(copy) => Ok(spare_beside(&copy)),
    }
}

/// The blocks of the devices' superblock copies that don't count, in order. It costs two reads a device.
pub(crate) fn find_spares<D: Devices>(alloc: Global, devices: &mut D) -> Result<Vec<u32>, DiskFault>
    ensures count { IfOk result (λ spares. length spares.items ≡ length (D.state devices.old).sizes) }
    ensures found { D.tells → IfOk result (λ spares. (dev : ℕ)
        → dev < length (D.state devices.old).sizes → slice_index spares.items dev ≡ spare_block
        (blocks_of (as_read (now (D.state devices.old))) dev)) }
    ensures range { IfOk result (λ spares. (dev : ℕ) → slice_index spares.items dev ≤ 8) }
    ensures read { AreOnlyRead D.tells (D.state devices.old) (D.state devices.new) }
    ensures cause { (D.state devices.new).faults ≡ after_reads (failed_device result)
        (D.state devices.old).faults }
    ensures device { IfSome (failed_device result) (λ dev. dev < length (D.state devices.old).sizes) }
{
    let count = devices.count();
    let mut spares = Vec::new(alloc);
    for dev in 0..count {
        let spare = find_spare(alloc, devices, dev)?;
        spares.push(spare)?;
    }
    Ok(spares)
}

/// The blocks of the other copies.
pub(crate) fn other_blocks(alloc: Global, spares: &[u32]) -> Result<Vec<u32>, AllocError>
    requires { (dev : ℕ) → slice_index spares.now dev ≤ 8 }
    ensures count { IfOk result (λ others. length others.items ≡ length spares.now) }
    ensures others { IfOk result (λ others. (dev : ℕ) → dev < length spares.now
        → slice_index others.items dev ≡ 8 - slice_index spares.now dev) }
{
    let mut others = Vec::new(alloc);
    for dev in 0..spares.len() {
        others.push(8 - spares[dev])?;
    }
    Ok(others)
}
