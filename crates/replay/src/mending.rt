ghost use Rattle.std.specs.Prelude.{◌≡◌, ◌<◌, All, IfSome, OnOk, length, true};
ghost use Rattle.dev_model.specs.Crashes.{IsQuiet};
ghost use Rattle.dev_model.specs.Devices.{now};
ghost use Rattle.dev_model.specs.Disk.{as_read};
ghost use Rattle.dev_model.specs.Frames.{AreAfterCalls, GoOn};
ghost use Rattle.geometry.specs.Faults.{failed_device};
ghost use Rattle.geometry.specs.Layouts.{is_layout_of};
ghost use Rattle.image_view.specs.Found.{Found};
ghost use Rattle.image_reader.specs.Answers.{WasWhole};
ghost use Rattle.replay.specs.Mending.{BringsNoBlock, ChangesJournal, HasMended, IsInOrderOn, KeepsFound, KeepsMeaning};

use dev_model::Devices;
use geometry::DiskFault;
use image_view::mending_changes_nothing;
use journal_ring::{
    FoundEntry, mend_entry, mended_entries_stay_whole, parts_have_own_places,
    whole_entries_are_made_of_blocks,
};
use sealed_block::opened_blocks_are_sealed;
use std::alloc::Global;
use vol_types::Layout;

/// Mends the journal of a volume: writes each part of its needed entries on each metadata device that has something else at its
/// place, and flushes these devices after each entry of which one lacked. It reads each part once on each of them.
///
/// A crash may have left the newest entry on one mirror alone; what is acknowledged later would hang on that copy. Whatever a crash
/// leaves meanwhile means the same, and then each needed entry stands on every metadata device. No block stands in the journal
/// areas then that stood on none of them.
pub fn mend_journal<D: Devices>(
    alloc: Global,
    devices: &mut D,
    layout: &Layout,
    needed: &[FoundEntry],
) -> Result<(), DiskFault>
    requires layout { is_layout_of (D.state devices.old).sizes layout.now ≡ true }
    requires whole { All (WasWhole layout.now) needed.now }
    ensures keeps { D.tells → (f : Found) → IsInOrderOn f (now (D.state devices.old))
        → f.layout ≡ layout.now → f.needed ≡ needed.now
        → KeepsFound f (D.state devices.old) (D.state devices.new) }
    // It mounts as the same volume, if it does.
    ensures means { D.tells → (f : Found) → IsInOrderOn f (now (D.state devices.old))
        → f.layout ≡ layout.now → f.needed ≡ needed.now
        → KeepsMeaning f (D.state devices.old) (D.state devices.new) }
    ensures elsewhere { D.tells → IsQuiet (now (D.state devices.old))
        → ChangesJournal layout.now (D.state devices.old) (D.state devices.new) }
    ensures mended { D.tells → (f : Found) → IsInOrderOn f (now (D.state devices.old))
        → f.layout ≡ layout.now → f.needed ≡ needed.now
        → OnOk result (HasMended f (length needed.now) (now (D.state devices.new))) }
    // Each block of the journal areas stood in them before, if on another device.
    ensures no_block { D.tells → (f : Found) → IsInOrderOn f (now (D.state devices.old))
        → f.layout ≡ layout.now → f.needed ≡ needed.now
        → OnOk result (BringsNoBlock layout.now (as_read (now (D.state devices.old)))
        (as_read (now (D.state devices.new)))) }
    ensures goes_on { GoOn (D.state devices.old) (D.state devices.new) }
    ensures cause { AreAfterCalls (failed_device result) (D.state devices.old).faults
        (D.state devices.new).faults }
    ensures device { IfSome (failed_device result) (λ dev. dev < layout.now.metadata_replicas) }
{
    mending_changes_nothing();
    whole_entries_are_made_of_blocks();
    mended_entries_stay_whole();
    parts_have_own_places();
    opened_blocks_are_sealed();
    for index in 0..needed.len() {
        mend_entry(alloc, devices, layout, &needed[index])?;
    }
    Ok(())
}
