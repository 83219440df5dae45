ghost use Rattle.std.specs.Prelude.{◌⊎◌, ℕ};
ghost use Rattle.dev_model.specs.Disk.{Image};
ghost use Rattle.image_view.specs.Found.{Found};
ghost use Rattle.crash_safety.specs.Writings.{Writing, after};
ghost use Rattle.mirror_laws.specs.Degraded.{IsDegradedTo};
ghost use Rattle.crash_safety.specs.Flight.{AreJournalsLost, IsFoundIn, IsLeftWriting, PartsStand, PartsStandOn, StandsWriting};

use image_view::crashes_leave_new_nodes;
use journal_ring::{leading_entries_are_needed, mended_entries_stay_whole, parts_have_own_places};
use record_codec::{entries_are_exact, entry_lengths};
use sealed_block::sealed_blocks_open;

/// While an entry is written, of which some devices have parts and others none, an image that is left means what was found before or
/// that with the entry, also when it is degraded then to a device on which what was found, and the nodes of the entry, stand whole. It means the
/// entry exactly where each part of it stands on some metadata device: so it does where that device has all parts, and where all other
/// journals are lost only then.
pub fn entries_in_flight_are_found_or_not()
    ensures either { (f : Found) (w : Writing) (mirror : ℕ) (image other alone : Image)
        → IsLeftWriting f w image other → StandsWriting f w mirror image
        → IsDegradedTo f.layout mirror other alone
        → IsFoundIn f alone ⊎ IsFoundIn (after w f) alone }
    ensures with_it { (f : Found) (w : Writing) (mirror : ℕ) (image other alone : Image)
        → IsLeftWriting f w image other → StandsWriting f w mirror image
        → IsDegradedTo f.layout mirror other alone
        → PartsStand f.layout alone w.next.number w.blocks → IsFoundIn (after w f) alone }
    ensures without_it { (f : Found) (w : Writing) (mirror : ℕ) (image other alone : Image)
        → IsLeftWriting f w image other → StandsWriting f w mirror image
        → IsDegradedTo f.layout mirror other alone
        → ¬ PartsStand f.layout alone w.next.number w.blocks → IsFoundIn f alone }
    ensures all_parts { (f : Found) (w : Writing) (mirror : ℕ) (image other alone : Image)
        → IsLeftWriting f w image other → StandsWriting f w mirror image
        → IsDegradedTo f.layout mirror other alone
        → PartsStandOn f.layout mirror other w.next.number w.blocks
        → IsFoundIn (after w f) alone }
    ensures a_part_lacks { (f : Found) (w : Writing) (mirror : ℕ) (image other alone : Image)
        → IsLeftWriting f w image other → StandsWriting f w mirror image
        → IsDegradedTo f.layout mirror other alone → AreJournalsLost f.layout mirror alone
        → ¬ PartsStandOn f.layout mirror other w.next.number w.blocks → IsFoundIn f alone }
{
    crashes_leave_new_nodes();
    leading_entries_are_needed();
    mended_entries_stay_whole();
    parts_have_own_places();
    entries_are_exact();
    entry_lengths();
    sealed_blocks_open();
}
