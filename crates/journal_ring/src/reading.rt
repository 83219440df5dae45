ghost use Rattle.std.specs.Prelude.{◌≡◌, ◌<◌, ℕ, true, slice_get, IfOk, IfSome};
ghost use Rattle.dev_model.specs.Devices.{now};
ghost use Rattle.dev_model.specs.Disk.{as_read};
ghost use Rattle.dev_model.specs.Frames.{AreOnlyRead, after_reads};
ghost use Rattle.geometry.specs.Faults.{failed_device};
ghost use Rattle.geometry.specs.Layouts.{is_layout_of};
ghost use Rattle.journal_ring.specs.Counting.{AreInRange, IsJournalOf, journal_in};
ghost use Rattle.journal_ring.specs.Parts.{AreSame, area_in, area_of};

use crate::counting::journal_of;
use crate::parts::AreaBlocks;
use crate::{Journal, leading_entries_are_needed, same_areas_hold_one_journal};
use dev_model::Devices;
use geometry::{DiskFault, read_block};
use record_codec::{entries_are_exact, entry_lengths};
use sealed_block::opened_blocks_are_sealed;
use std::alloc::Global;
use vol_types::{Layout, Listing};

// The journal area of a metadata device.
fn read_area<D: Devices>(
    alloc: Global,
    devices: &mut D,
    layout: &Layout,
    dev: u8,
) -> Result<AreaBlocks, DiskFault>
    requires layout { is_layout_of (D.state devices.old).sizes layout.now ≡ true }
    requires mirror { dev < layout.now.metadata_replicas }
    ensures blocks { D.tells → IfOk result (λ blocks. (place : ℕ) → place < layout.now.journal
        → slice_get blocks place ≡ area_of (as_read (now (D.state devices.old))) dev place) }
    ensures read { AreOnlyRead D.tells (D.state devices.old) (D.state devices.new) }
    ensures cause { (D.state devices.new).faults ≡ after_reads (failed_device result)
        (D.state devices.old).faults }
    ensures device { IfSome (failed_device result) (λ failed. failed ≡ dev) }
{
    let mut blocks = Listing::new(alloc);
    for place in 0..layout.journal {
        blocks.push(read_block(alloc, devices, dev, 16 + place)?)?;
    }
    Ok(blocks)
}

// The journal area of each metadata device.
fn read_areas<D: Devices>(
    alloc: Global,
    devices: &mut D,
    layout: &Layout,
) -> Result<Listing<AreaBlocks>, DiskFault>
    requires layout { is_layout_of (D.state devices.old).sizes layout.now ≡ true }
    ensures areas { D.tells → IfOk result (λ areas. AreSame layout.now (area_in areas)
        (area_of (as_read (now (D.state devices.old))))) }
    ensures read { AreOnlyRead D.tells (D.state devices.old) (D.state devices.new) }
    ensures cause { (D.state devices.new).faults ≡ after_reads (failed_device result)
        (D.state devices.old).faults }
    ensures device { IfSome (failed_device result) (λ dev. dev < layout.now.metadata_replicas) }
{
    let mut areas = Listing::new(alloc);
    for dev in 0..layout.metadata_replicas {
        areas.push(read_area(alloc, devices, layout, dev)?)?;
    }
    Ok(areas)
}

/// What the journal of a volume holds. It reads each block of the journal area of each metadata device once, and takes memory
/// for these blocks, which are at most 48 MiB, and for the entries that are whole, a few times their bytes. Each block is
/// opened, and the parts of an entry once more for each device that has its part 0; an entry costs a logarithm of their number.
pub fn read_journal<D: Devices>(
    alloc: Global,
    devices: &mut D,
    layout: &Layout,
) -> Result<Journal, DiskFault>
    requires layout { is_layout_of (D.state devices.old).sizes layout.now ≡ true }
    ensures journal { D.tells → IfOk result (λ journal. journal ≡ journal_in layout.now
        (area_of (as_read (now (D.state devices.old))))) }
    // What was read is the journal of some areas, also where the devices don't tell what they hold.
    ensures seen { IfOk result (IsJournalOf layout.now) }
    ensures in_range { IfOk result AreInRange }
    ensures read { AreOnlyRead D.tells (D.state devices.old) (D.state devices.new) }
    ensures cause { (D.state devices.new).faults ≡ after_reads (failed_device result)
        (D.state devices.old).faults }
    ensures device { IfSome (failed_device result) (λ dev. dev < layout.now.metadata_replicas) }
{
    let areas = read_areas(alloc, devices, layout)?;
    same_areas_hold_one_journal();
    leading_entries_are_needed();
    opened_blocks_are_sealed();
    entries_are_exact();
    entry_lengths();
    Ok(journal_of(alloc, layout, areas.as_slice())?)
}
