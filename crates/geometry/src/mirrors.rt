ghost use Rattle.std.specs.Prelude.{◌≡◌, ◌<◌, ◌≤◌, ℕ, Bool, List, length, IfErr, OnOk};
ghost use Rattle.dev_model.specs.Disk.{IsCrashImage, as_read, block_at};
ghost use Rattle.dev_model.specs.Devices.{IsFlush, IsPlace, IsWrite, now};
ghost use Rattle.dev_model.specs.Frames.{GoOn, after_writes};
ghost use Rattle.dev_model.specs.PlaceLaws.{IsSettled};
ghost use Rattle.dev_model.specs.Crashes.{EachCrash, EachCrashNow, IsCrashImageBut, SameBut};
ghost use Rattle.dev_model.specs.HeldBlocks.{HoldOnly};
ghost use Rattle.geometry.specs.Faults.{failed_device};
ghost use Rattle.geometry.specs.Mirrors.{AreAtRest, HaveBlock, HoldMirrors, IsMirror, IsMirrorBlock, NamesOneOf, NoBlock};

use crate::fault::DiskFault;
use dev_model::Devices;

/// Flushes a device, and says which it was if that fails.
pub fn flush_device<D: Devices>(devices: &mut D, dev: u8) -> Result<(), DiskFault>
    requires { dev < length (D.state devices.old).sizes }
    ensures call { IsFlush D.tells dev result (D.state devices.old) (D.state devices.new) }
    ensures device { IfErr result (λ fault. fault ≡ DiskFault.DeviceFault dev) }
    ensures sizes { (D.state devices.new).sizes ≡ (D.state devices.old).sizes }
{
    match devices.flush(dev) {
        Ok(()) => Ok(()),
        Err(_) => Err(DiskFault::DeviceFault(dev)),
    }
}

/// Writes a block of a device, and says which device it was if that fails.
pub fn write_device<D: Devices>(
    devices: &mut D,
    dev: u8,
    block: u32,
    bytes: &[u8],
) -> Result<(), DiskFault>
    requires place { IsPlace (D.state devices.old).sizes dev block }
    requires size { length bytes.now ≡ 4096 }
    ensures call { IsWrite D.tells dev block bytes.now result (D.state devices.old)
        (D.state devices.new) }
    ensures device { IfErr result (λ fault. fault ≡ DiskFault.DeviceFault dev) }
    ensures sizes { (D.state devices.new).sizes ≡ (D.state devices.old).sizes }
{
    match devices.write(dev, block, bytes) {
        Ok(()) => Ok(()),
        Err(_) => Err(DiskFault::DeviceFault(dev)),
    }
}

/// Flushes the first so many devices, one after the other. A crash leaves nothing that it might not have left before.
pub fn flush_devices<D: Devices>(devices: &mut D, count: u8) -> Result<(), DiskFault>
    requires { count ≤ length (D.state devices.old).sizes }
    ensures crashes { D.tells → EachCrash (λ _ _ image. IsCrashImage (now (D.state devices.old))
        image) (D.state devices.old) (D.state devices.new) }
    ensures reads { D.tells → (dev block : ℕ) → block_at (as_read (now (D.state devices.new))) dev
        block ≡ block_at (as_read (now (D.state devices.old))) dev block }
    ensures settled { D.tells → OnOk result ((dev : ℕ) → dev < count
        → IsSettled (now (D.state devices.new)) dev) }
    ensures rest { D.tells → OnOk result (AreAtRest count (now (D.state devices.new))) }
    ensures asks { D.tells → (opens : List ℕ → Bool) → HoldOnly opens NoBlock (D.state devices.old)
        (D.state devices.new) }
    ensures goes_on { GoOn (D.state devices.old) (D.state devices.new) }
    ensures cause { (D.state devices.new).faults ≡ after_writes (failed_device result)
        (D.state devices.old).faults }
    ensures device { NamesOneOf count result }
{
    for dev in 0..count {
        flush_device(devices, dev)?;
    }
    Ok(())
}

/// Writes a block on each of the first so many devices. It costs that many writes. Until the devices are flushed, a crash may
/// leave any bytes there.
pub fn write_mirrors<D: Devices>(
    devices: &mut D,
    mirrors: u8,
    block: u32,
    bytes: &[u8],
) -> Result<(), DiskFault>
    requires mirrors { mirrors ≤ length (D.state devices.old).sizes }
    requires places { HaveBlock (D.state devices.old).sizes mirrors block }
    requires size { length bytes.now ≡ 4096 }
    ensures crashes { D.tells → EachCrash (λ _ _ image. IsCrashImageBut (IsMirror mirrors block)
        (now (D.state devices.old)) image) (D.state devices.old) (D.state devices.new) }
    ensures written { D.tells → OnOk result (HoldMirrors mirrors block bytes.now
        (as_read (now (D.state devices.new)))) }
    ensures elsewhere { D.tells → SameBut (IsMirror mirrors block)
        (as_read (now (D.state devices.old))) (as_read (now (D.state devices.new))) }
    ensures asks { D.tells → (opens : List ℕ → Bool)
        → HoldOnly opens (IsMirrorBlock mirrors block bytes.now) (D.state devices.old)
        (D.state devices.new) }
    ensures goes_on { GoOn (D.state devices.old) (D.state devices.new) }
    ensures cause { (D.state devices.new).faults ≡ after_writes (failed_device result)
        (D.state devices.old).faults }
    ensures device { NamesOneOf mirrors result }
{
    for dev in 0..mirrors {
        write_device(devices, dev, block, bytes)?;
    }
    Ok(())
}

/// Writes a block on each of the first so many devices, and flushes these. It costs that many writes and flushes.
pub fn settle_mirrors<D: Devices>(
    devices: &mut D,
    mirrors: u8,
    block: u32,
    bytes: &[u8],
) -> Result<(), DiskFault>
    requires mirrors { mirrors ≤ length (D.state devices.old).sizes }
    requires places { HaveBlock (D.state devices.old).sizes mirrors block }
    requires size { length bytes.now ≡ 4096 }
    ensures crashes { D.tells → EachCrash (λ _ _ image. IsCrashImageBut (IsMirror mirrors block)
        (now (D.state devices.old)) image) (D.state devices.old) (D.state devices.new) }
    ensures held { D.tells → OnOk result (EachCrashNow (HoldMirrors mirrors block bytes.now)
        (D.state devices.new)) }
    ensures rest { D.tells → OnOk result (AreAtRest mirrors (now (D.state devices.new))) }
    ensures elsewhere { D.tells → SameBut (IsMirror mirrors block)
        (as_read (now (D.state devices.old))) (as_read (now (D.state devices.new))) }
    ensures asks { D.tells → (opens : List ℕ → Bool)
        → HoldOnly opens (IsMirrorBlock mirrors block bytes.now) (D.state devices.old)
        (D.state devices.new) }
    ensures goes_on { GoOn (D.state devices.old) (D.state devices.new) }
    ensures cause { (D.state devices.new).faults ≡ after_writes (failed_device result)
        (D.state devices.old).faults }
    ensures device { NamesOneOf mirrors result }
{
    write_mirrors(devices, mirrors, block, bytes)?;
    flush_devices(devices, mirrors)
}
