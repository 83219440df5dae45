ghost use Rattle.std.specs.Prelude.{◌≡◌, ◌≤◌, Some, length, IfOk, IfSome};
ghost use Rattle.dev_model.specs.Devices.{IsPlace, now};
ghost use Rattle.dev_model.specs.Disk.{as_read, block_at};
ghost use Rattle.dev_model.specs.Frames.{AreOnlyRead, after_reads};
ghost use Rattle.geometry.specs.Faults.{failed_device};

use crate::fault::DiskFault;
use dev_model::Devices;
use std::alloc::{AllocError, Global};
use vol_types::{BLOCK_SIZE, Bytes};

/// A block of zeros.
pub(crate) fn zero_block(alloc: Global) -> Result<Vec<u8>, AllocError>
    ensures { IfOk result (λ bytes. length bytes.items ≡ 4096) }
{
    vec![in alloc; 0; BLOCK_SIZE]
}

/// A block's bytes. It costs one read, and takes memory for the block.
pub fn read_block<D: Devices>(
    alloc: Global,
    devices: &mut D,
    dev: u8,
    block: u32,
) -> Result<Bytes, DiskFault>
    requires { IsPlace (D.state devices.old).sizes dev block }
    ensures bytes { D.tells → IfOk result (λ bytes. block_at (as_read (now (D.state devices.old)))
        dev block ≡ Some bytes) }
    ensures length { IfOk result (λ bytes. length bytes ≡ 4096) }
    ensures read { AreOnlyRead D.tells (D.state devices.old) (D.state devices.new) }
    ensures cause { (D.state devices.new).faults ≡ after_reads (failed_device result)
        (D.state devices.old).faults }
    ensures device { IfSome (failed_device result) (λ failed. failed ≡ dev) }
{
    let mut bytes = zero_block(alloc)?;
    match devices.read(dev, block, &mut bytes) {
        Ok(()) => Ok(Bytes::from(bytes)),
        Err(_) => Err(DiskFault::DeviceFault(dev)),
    }
}

/// The number of blocks of each device.
pub(crate) fn sizes_of<D: Devices>(alloc: Global, devices: &D) -> Result<Vec<u32>, AllocError>
    ensures sizes { IfOk result (λ sizes. sizes.items ≡ (D.state devices.now).sizes) }
    ensures few_devices { length (D.state devices.now).sizes ≤ 8 }
{
    let count = devices.count();
    let mut sizes = Vec::new(alloc);
    for dev in 0..count {
        sizes.push(devices.blocks(dev))?;
    }
    Ok(sizes)
}
