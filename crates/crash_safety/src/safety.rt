ghost use Rattle.std.specs.Prelude.{◌+◌, ◌<◌, ℕ, All, List, Option};
ghost use Rattle.dev_model.specs.Devices.{DevicesState, now};
ghost use Rattle.dev_model.specs.Disk.{Image, IsDisk};
ghost use Rattle.image_view.specs.Found.{Found};
ghost use Rattle.crash_safety.specs.Safety.{IsJournalSafe};
ghost use Rattle.crash_safety.specs.Writings.{Writing};
ghost use Rattle.node_store.specs.declared.planning.Blocked.{Blocked as ABlocked};
ghost use Rattle.vol_types.specs.Limits.{bucket_blocks};
ghost use Rattle.crash_safety.specs.NodeParts.{AreElsewhere, IsNodePartWritten};

use crate::entries_are_written_safely;

/// A journal stays safe while a block of a node is written into buckets in which nothing counts.
pub fn node_parts_are_written_safely()
    ensures { (f : Found) (image : Image) (writing : Option Writing) (asked written : ℕ)
        (bases : List Found) (durable : List ℕ) (first : ℕ) (old new : DevicesState)
        (blocked : ABlocked) (part : ℕ) (failed : Option ℕ)
        → IsJournalSafe f image writing asked written bases durable first old
        → AreElsewhere f writing blocked.places → blocked.block + part < bucket_blocks
        → IsNodePartWritten blocked part failed old new → All IsDisk (now new)
        → IsJournalSafe f image writing asked written bases durable first new }
{
    entries_are_written_safely();
}
