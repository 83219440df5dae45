ghost use Rattle.std.specs.Prelude.{◌≡◌, ◌≢◌, ◌+◌, ◌*◌, ◌<◌, ◌≤◌, ◌==◌, ℕ, true, Err, Some, if◌then◌else◌, length, slice_index, slice_index_or, IfSome, OnOk};
ghost use Rattle.dev_model.specs.Devices.{IsPlace};
ghost use Rattle.dev_model.specs.Frames.{GoOn, after_reads, after_writes};
ghost use Rattle.geometry.specs.Faults.{failed_device};
ghost use Rattle.geometry.specs.Layouts.{is_layout_of};
ghost use Rattle.geometry.specs.Sessions.{session_block};
ghost use Rattle.dev_model.specs.Disk.{zeros};
ghost use Rattle.node_store.specs.Plans.{block_of_bytes};
ghost use Rattle.vol_types.specs.Layouts.{is_layout};
ghost use Rattle.vol_format.specs.Fresh.{AreFreshBlocks, no_bucket};
ghost use Rattle.vol_format.specs.Formatting.{in_roots, prepared};
ghost use Rattle.vol_format.specs.Steps.{IsSuper, Writes, extension, if_there, in_block, on_device, super_copies};

use crate::FreshBlocks;
use dev_model::Devices;
use geometry::{DiskFault, write_device};
use vol_types::Layout;

/// Writes one block of a device, if the device is long enough to have it.
pub(crate) fn write_if_there<D: Devices>(
    devices: &mut D,
    dev: u8,
    place: u32,
    bytes: &[u8],
) -> Result<(), DiskFault>
    requires device { dev < length (D.state devices.old).sizes }
    requires size { length bytes.now ≡ 4096 }
    ensures writes { D.tells → Writes result (on_device dev
        (if_there (slice_index (D.state devices.old).sizes dev) place bytes.now))
        (D.state devices.old) (D.state devices.new) }
    ensures goes_on { GoOn (D.state devices.old) (D.state devices.new) }
    ensures cause { (D.state devices.new).faults ≡ after_writes (failed_device result)
        (D.state devices.old).faults }
    ensures device { IfSome (failed_device result) (λ failed. failed ≡ dev) }
    ensures memory { result ≢ Err DiskFault.NoMemory }
{
    if devices.blocks(dev) <= place {
        return Ok(());
    }
    write_device(devices, dev, place, bytes)
}

/// Makes a device as long as its number of blocks, if it is shorter.
pub(crate) fn extend_device<D: Devices>(
    devices: &mut D,
    dev: u8,
    blocks: u32,
) -> Result<(), DiskFault>
    requires device { dev < length (D.state devices.old).sizes }
    ensures writes { D.tells → Writes result (on_device dev
        (extension (slice_index (D.state devices.old).sizes dev) blocks)) (D.state devices.old)
        (D.state devices.new) }
    ensures cause { (D.state devices.new).faults ≡ after_reads (failed_device result)
        (D.state devices.old).faults }
    ensures device { IfSome (failed_device result) (λ failed. failed ≡ dev) }
    ensures memory { result ≢ Err DiskFault.NoMemory }
    ensures count { length (D.state devices.new).sizes ≡ length (D.state devices.old).sizes }
    ensures room { OnOk result (blocks ≤ slice_index (D.state devices.new).sizes dev) }
    ensures others { (other : ℕ) → other ≢ dev → slice_index (D.state devices.new).sizes other
        ≡ slice_index (D.state devices.old).sizes other }
    ensures moment { (D.state devices.old).moment ≤ (D.state devices.new).moment }
{
    if blocks <= devices.blocks(dev) {
        return Ok(());
    }
    match devices.extend(dev, blocks) {
        Ok(()) => Ok(()),
        Err(_) => Err(DiskFault::DeviceFault(dev)),
    }
}

// What a metadata device gets in a block of its first bucket or journal area, but for its superblocks.
fn area_bytes<'a>(
    blank: &'a [u8],
    session: &'a [u8],
    fresh: &'a FreshBlocks,
    block: u32,
) -> &'a [u8]
    requires size { length blank.now ≡ 4096 }
    requires session_size { length session.now ≡ 4096 }
    requires entry_size { length fresh.now.entry ≡ 4096 }
    ensures bytes { result.now ≡ (if block == 5 then session.now else if block
        == 16 then fresh.now.entry else blank.now) }
    ensures size { length result.now ≡ 4096 }
{
    match block {
        5 => session,
        16 => fresh.entry.as_slice(),
        _ => blank,
    }
}

// What it gets in a block of the buckets of the roots.
fn root_bytes(fresh: &FreshBlocks, n: u32) -> &[u8]
    requires within { n < 144 }
    requires count { length fresh.now.roots ≡ 9 }
    requires sizes { (number : ℕ) → number < 9 → length
        (slice_index_or fresh.now.roots number no_bucket).parts ≡ 65536 }
    ensures bytes { Some result.now ≡ in_roots fresh.now n }
    ensures size { length result.now ≡ 4096 }
{
    let bucket = &fresh.roots.as_slice()[(n / 16) as usize];
    part_of(bucket.parts.as_slice(), n % 16)
}

// One of the blocks that stand one behind the other.
fn part_of(parts: &[u8], part: u32) -> &[u8]
    requires { 4096 * part + 4096 ≤ length parts.now }
    ensures bytes { result.now ≡ block_of_bytes parts.now part }
    ensures size { length result.now ≡ 4096 }
{
    let (_, rest) = parts.split_at(4096 * part as usize);
    let (block, _) = rest.split_at(4096);
    block
}

// What a metadata device gets in a block after the first, but for its superblocks.
fn prepared_bytes<'a>(
    layout: &Layout,
    blank: &'a [u8],
    session: &'a [u8],
    fresh: &'a FreshBlocks,
    block: u32,
) -> &'a [u8]
    requires layout { is_layout layout.now ≡ true }
    requires first { 1 ≤ block }
    requires eight { block ≢ 8 }
    requires last { block < 160 + layout.now.journal }
    requires size { length blank.now ≡ 4096 }
    requires blank { blank.now ≡ zeros }
    requires session_size { length session.now ≡ 4096 }
    requires session { session.now ≡ session_block layout.now.id 1 }
    requires fresh { AreFreshBlocks layout.now fresh.now }
    ensures bytes { Some result.now ≡ prepared layout.now fresh.now block }
    ensures size { length result.now ≡ 4096 }
{
    let behind = 16 + layout.journal;
    if block < behind {
        return area_bytes(blank, session, fresh, block);
    }
    root_bytes(fresh, block - behind)
}

// Writes what a metadata device gets into one block after the first: into block 8 nothing.
fn prepare_block<D: Devices>(
    devices: &mut D,
    layout: &Layout,
    dev: u8,
    block: u32,
    blank: &[u8],
    session: &[u8],
    fresh: &FreshBlocks,
) -> Result<(), DiskFault>
    requires fits { is_layout_of (D.state devices.old).sizes layout.now ≡ true }
    requires device { dev < length (D.state devices.old).sizes }
    requires first { 1 ≤ block }
    requires last { block < 160 + layout.now.journal }
    requires size { length blank.now ≡ 4096 }
    requires blank { blank.now ≡ zeros }
    requires session_size { length session.now ≡ 4096 }
    requires session { session.now ≡ session_block layout.now.id 1 }
    requires fresh { AreFreshBlocks layout.now fresh.now }
    ensures writes { D.tells → Writes result (on_device dev
        (in_block block (prepared layout.now fresh.now block))) (D.state devices.old)
        (D.state devices.new) }
    ensures goes_on { GoOn (D.state devices.old) (D.state devices.new) }
    ensures cause { (D.state devices.new).faults ≡ after_writes (failed_device result)
        (D.state devices.old).faults }
    ensures device { IfSome (failed_device result) (λ failed. failed ≡ dev) }
    ensures memory { result ≢ Err DiskFault.NoMemory }
{
    if block == 8 {
        return Ok(());
    }
    let bytes = prepared_bytes(layout, blank, session, fresh, block);
    write_device(devices, dev, block, bytes)
}

/// Writes what a metadata device gets before its superblocks. It costs a write for each block of the journal area, and 158 more.
pub(crate) fn prepare_device<D: Devices>(
    devices: &mut D,
    layout: &Layout,
    dev: u8,
    blank: &[u8],
    session: &[u8],
    fresh: &FreshBlocks,
) -> Result<(), DiskFault>
    requires fits { is_layout_of (D.state devices.old).sizes layout.now ≡ true }
    requires device { dev < length (D.state devices.old).sizes }
    requires size { length blank.now ≡ 4096 }
    requires blank { blank.now ≡ zeros }
    requires session_size { length session.now ≡ 4096 }
    requires session { session.now ≡ session_block layout.now.id 1 }
    requires fresh { AreFreshBlocks layout.now fresh.now }
    ensures writes { D.tells → Writes result (on_device dev (prepared layout.now fresh.now))
        (D.state devices.old) (D.state devices.new) }
    ensures goes_on { GoOn (D.state devices.old) (D.state devices.new) }
    ensures cause { (D.state devices.new).faults ≡ after_writes (failed_device result)
        (D.state devices.old).faults }
    ensures device { IfSome (failed_device result) (λ failed. failed ≡ dev) }
    ensures memory { result ≢ Err DiskFault.NoMemory }
{
    for block in 1..160 + layout.journal {
        prepare_block(devices, layout, dev, block, blank, session, fresh)?;
    }
    Ok(())
}

/// Writes both superblock copies of a device.
pub(crate) fn seal_device<D: Devices>(
    devices: &mut D,
    layout: &Layout,
    dev: u8,
    first: &[u8],
    second: &[u8],
) -> Result<(), DiskFault>
    requires fits { is_layout_of (D.state devices.old).sizes layout.now ≡ true }
    requires device { dev < length (D.state devices.old).sizes }
    requires first { IsSuper layout.now dev 0 first.now }
    requires second { IsSuper layout.now dev 8 second.now }
    ensures writes { D.tells → Writes result (on_device dev (super_copies layout.now dev))
        (D.state devices.old) (D.state devices.new) }
    ensures goes_on { GoOn (D.state devices.old) (D.state devices.new) }
    ensures cause { (D.state devices.new).faults ≡ after_writes (failed_device result)
        (D.state devices.old).faults }
    ensures device { IfSome (failed_device result) (λ failed. failed ≡ dev) }
    ensures memory { result ≢ Err DiskFault.NoMemory }
{
    let _ = layout.metadata_replicas;
    write_device(devices, dev, 0, first)?;
    write_device(devices, dev, 8, second)
}
