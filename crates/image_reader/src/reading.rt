ghost use Rattle.std.specs.Prelude.{◌≡◌, ◌<◌, ◌≤◌, ℕ, true, Ok, Err, All, IfErr, IfOk, IfSome, length, map};
ghost use Rattle.std.specs.Option.{ok_or};
ghost use Rattle.std.specs.List.{flat_map};
ghost use Rattle.std.specs.Map.{values_of};
ghost use Rattle.dev_model.specs.Devices.{now};
ghost use Rattle.dev_model.specs.Disk.{as_read};
ghost use Rattle.dev_model.specs.Frames.{AreOnlyRead, after_reads};
ghost use Rattle.geometry.specs.Faults.{DeviceFailed, SomeFailed};
ghost use Rattle.geometry.specs.Layouts.{is_layout_of};
ghost use Rattle.geometry.specs.Sessions.{session_in};
ghost use Rattle.geometry.specs.Superblocks.{layout_in};
ghost use Rattle.image_view.specs.Found.{Found, NodesAgree, found, sets_in, super_fault, updates_of};
ghost use Rattle.image_view.specs.Trees.{joined, nodes_of, trees_of};
ghost use Rattle.image_view.specs.declared.fault.MountFault.{MountFault as AFault};
ghost use Rattle.journal_ring.specs.Parts.{area_of};
ghost use Rattle.key_codec.specs.Formats.{carried};
ghost use Rattle.image_reader.specs.Answers.{AreRagged, AreSureTrees, IsAnswer, IsEarly, IsFront, IsNotLate, IsRead, Finds, Tells, WasWhole};
ghost use Rattle.image_reader.specs.Faults.{failed_mount_device, failed_tree_device};
ghost use Rattle.image_reader.specs.Volumes.{btree_in, entries_in, found_of, last_of, ragged_of, with_last};
ghost use Rattle.record_codec.specs.Entries.{IsEntryInRange};

use crate::fault::{TreeFault, disk_fault, layout_fault, mount_fault};
use crate::found::{FoundBtree, FoundVolume};
use crate::trees::read_btrees;
use crate::twins::with_own_births;
use dev_model::Devices;
use geometry::{read_session, read_super};
use image_view::MountFault;
use journal_ring::{FoundEntry, Journal, leading_entries_are_needed, read_journal};
use std::alloc::Global;
use vol_types::{Layout, Listing};

// The layout that the superblocks name.
fn layout_of<D: Devices>(alloc: Global, devices: &mut D) -> Result<Layout, MountFault>
    ensures found { D.tells → Finds (λ layout. layout) (carried super_fault
        (layout_in (as_read (now (D.state devices.old))))) result }
    ensures fits { IfOk result (λ layout. is_layout_of (D.state devices.new).sizes layout ≡ true) }
    ensures few_devices { length (D.state devices.old).sizes ≤ 8 }
    ensures early { IfErr result IsNotLate }
    ensures read { AreOnlyRead D.tells (D.state devices.old) (D.state devices.new) }
    ensures cause { (D.state devices.new).faults ≡ after_reads (failed_mount_device result)
        (D.state devices.old).faults }
    ensures device { IfSome (failed_mount_device result)
        (λ dev. dev < length (D.state devices.old).sizes) }
{
    match read_super(alloc, devices) {
        Ok(layout) => Ok(layout),
        Err(fault) => Err(layout_fault(fault)),
    }
}

// The session that is named last.
fn session_of<D: Devices>(
    alloc: Global,
    devices: &mut D,
    layout: &Layout,
) -> Result<u64, MountFault>
    requires layout { is_layout_of (D.state devices.old).sizes layout.now ≡ true }
    ensures found { D.tells → Finds (λ session. session) (ok_or
        (session_in layout.now (as_read (now (D.state devices.old)))) MountFault.NoEntry) result }
    ensures early { IfErr result IsNotLate }
    ensures read { AreOnlyRead D.tells (D.state devices.old) (D.state devices.new) }
    ensures cause { (D.state devices.new).faults ≡ after_reads (failed_mount_device result)
        (D.state devices.old).faults }
    ensures device { IfSome (failed_mount_device result)
        (λ dev. dev < length (D.state devices.old).sizes) }
{
    match read_session(alloc, devices, layout) {
        Ok(Some(session)) => Ok(session),
        Ok(None) => Err(MountFault::NoEntry),
        Err(fault) => Err(disk_fault(fault)),
    }
}

// The entries, if there is one.
fn some_entry(entries: Listing<FoundEntry>) -> Result<Listing<FoundEntry>, MountFault>
    ensures some { IfOk result (λ some. 0 < length some) }
    ensures same { IfOk result (λ some. some ≡ entries) }
    ensures none { IfErr result (λ fault. (fault ≡ MountFault.NoEntry) × (length entries ≡ 0)) }
{
    if entries.is_empty() {
        return Err(MountFault::NoEntry);
    }
    Ok(entries)
}

// The entries that are needed, the last one being the newest.
fn needed_of<D: Devices>(
    alloc: Global,
    devices: &mut D,
    layout: &Layout,
) -> Result<Listing<FoundEntry>, MountFault>
    requires layout { is_layout_of (D.state devices.old).sizes layout.now ≡ true }
    ensures found { D.tells → Finds with_last (entries_in layout.now
        (area_of (as_read (now (D.state devices.old))))) result }
    ensures in_range { IfOk result (All (λ found. IsEntryInRange found.entry)) }
    ensures whole { IfOk result (All (WasWhole layout.now)) }
    ensures some { IfOk result (λ entries. 0 < length entries) }
    ensures early { IfErr result IsNotLate }
    ensures read { AreOnlyRead D.tells (D.state devices.old) (D.state devices.new) }
    ensures cause { (D.state devices.new).faults ≡ after_reads (failed_mount_device result)
        (D.state devices.old).faults }
    ensures device { IfSome (failed_mount_device result)
        (λ dev. dev < length (D.state devices.old).sizes) }
{
    leading_entries_are_needed();
    match read_journal(alloc, devices, layout) {
        Ok(Journal::Needed(entries)) => some_entry(entries),
        Ok(Journal::NoEntry) => Err(MountFault::NoEntry),
        Ok(Journal::Missing(sequence)) => Err(MountFault::MissingEntry(sequence)),
        Err(fault) => Err(disk_fault(fault)),
    }
}

// The btrees that the entries and the nodes make.
fn btrees_of<D: Devices>(
    alloc: Global,
    devices: &mut D,
    layout: &Layout,
    entries: &[FoundEntry],
) -> Result<Listing<FoundBtree>, TreeFault>
    requires in_range { All (λ found. IsEntryInRange found.entry) entries.now }
    requires some { 0 < length entries.now }
    ensures found { D.tells → (SomeFailed (D.state devices.old).faults (D.state devices.new).faults
        → AreSureTrees layout.now.id (as_read (now (D.state devices.old)))
        (trees_of (sets_in layout.now (as_read (now (D.state devices.old)))) (updates_of entries.now) (last_of entries.now).entry.roots))
        → Tells (λ btrees. joined (map btree_in btrees))
        (trees_of (sets_in layout.now (as_read (now (D.state devices.old)))) (updates_of entries.now) (last_of entries.now).entry.roots) result }
    ensures ragged { D.tells → ¬ SomeFailed (D.state devices.old).faults (D.state devices.new).faults
        → IfOk result (All (λ btree. AreRagged layout.now.id (as_read (now (D.state devices.old)))
        (flat_map values_of btree.levels) btree.ragged)) }
    ensures cause { IfSome (failed_tree_device result) (λ dev. DeviceFailed dev
        (D.state devices.old).faults (D.state devices.new).faults) }
    ensures read { AreOnlyRead D.tells (D.state devices.old) (D.state devices.new) }
{
    let newest = &entries[entries.len() - 1];
    let roots = newest.entry.roots.as_slice();
    let btrees = read_btrees(alloc, devices, layout, entries, roots)?;
    with_own_births(alloc, btrees)
}

/// What is found in the image that the devices hold, or the first fault. It reads two blocks of every device and two of every
/// metadata device, each block of the journal area of each metadata device once, and the 16 blocks of each node once on each of
/// its places. For each level of a btree it goes over the updates of the needed entries once, and takes a logarithm for each
/// that is one of the level. It takes memory for all keys, and twice that while it reads the leaves of a btree.
///
/// A read of a superblock, a session or the journal that fails is a device fault, and ends it. One of a node is made up by
/// another place of it: then what is found is sure where the places of each node agree.
pub fn read_plain<D: Devices>(alloc: Global, devices: &mut D) -> Result<FoundVolume, MountFault>
    // Where no call failed, it is what the image means. (A count of faults that stands at its end counts as risen.)
    ensures found { D.tells → ¬ SomeFailed (D.state devices.old).faults (D.state devices.new).faults
        → IsAnswer (found (as_read (now (D.state devices.old)))) result }
    // Also where reads of nodes failed, what is found in an image on whose nodes their places agree is read as it is.
    ensures made_up { D.tells → (f : Found) → found (as_read (now (D.state devices.old))) ≡ Ok f
        → NodesAgree (as_read (now (D.state devices.old))) f → IsRead f result }
    // The faults that show before the nodes are those of the image, and come only where no call failed.
    ensures early { D.tells → (fault : AFault) → result ≡ Err fault → IsEarly fault
        → found (as_read (now (D.state devices.old))) ≡ Err fault }
    ensures unfailed { (fault : AFault) → result ≡ Err fault → IsEarly fault
        → (D.state devices.new).faults ≡ (D.state devices.old).faults }
    // Which nodes lack a set on some place.
    ensures ragged { D.tells → ¬ SomeFailed (D.state devices.old).faults (D.state devices.new).faults
        → IfOk result (λ read. AreRagged read.layout.id (as_read (now (D.state devices.old)))
        (nodes_of (found_of read).trees.nodes) (ragged_of read)) }
    // The layout is one of these devices, and the needed entries were whole where they were read, also where the devices don't
    // tell what they hold.
    ensures fits { IfOk result (λ read. is_layout_of (D.state devices.new).sizes read.layout ≡ true) }
    ensures whole { IfOk result (λ read. All (WasWhole read.layout) read.needed) }
    // Also where reads of nodes failed, the layout, the session and the needed entries are the image's.
    ensures front { D.tells → IfOk result (λ read. IsFront (as_read (now (D.state devices.old)))
        read.layout read.session read.needed) }
    // A device that is named has failed.
    ensures cause { IfSome (failed_mount_device result) (λ dev. DeviceFailed dev
        (D.state devices.old).faults (D.state devices.new).faults) }
    // Whether the keys are sound isn't tested.
    ensures untested { (check : ℕ) → result ≡ Err (MountFault.Unsound check) → ⊥ }
    ensures read { AreOnlyRead D.tells (D.state devices.old) (D.state devices.new) }
{
    let layout = layout_of(alloc, devices)?;
    let session = session_of(alloc, devices, &layout)?;
    let needed = needed_of(alloc, devices, &layout)?;
    match btrees_of(alloc, devices, &layout, needed.as_slice()) {
        Ok(btrees) => Ok(FoundVolume {
            layout,
            session,
            needed,
            btrees,
        }),
        Err(fault) => Err(mount_fault(fault)),
    }
}
