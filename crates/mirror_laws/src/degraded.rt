ghost use Rattle.std.specs.Prelude.{◌≡◌, ◌<◌, ℕ, All, List, Ok};
ghost use Rattle.dev_model.specs.Disk.{Image};
ghost use Rattle.image_view.specs.Bases.{AgreeOnContent, IsNewest};
ghost use Rattle.image_view.specs.Found.{Found, IsInOrder, NodesAgree, found};
ghost use Rattle.journal_ring.specs.Entries.{IsMadeOf, IsWholeOn};
ghost use Rattle.journal_ring.specs.Parts.{area_of};
ghost use Rattle.journal_ring.specs.declared.found.FoundEntry.{FoundEntry as AFound};
ghost use Rattle.replay.specs.Beginning.{MeansTheSame};
ghost use Rattle.vol_types.specs.declared.layout.Layout.{Layout as ALayout};
ghost use Rattle.mirror_laws.specs.Degraded.{HasPlainFiles, IsDegradedTo};
ghost use Rattle.mirror_laws.specs.Standing.{EntryStandsOn, NonePassed, StandsWholeOn};

use journal_ring::{leading_entries_are_needed, mended_entries_stay_whole};

/// What the blocks of a degraded image make up, those of the image did: so no entry that passes those that were found comes to be. An entry
/// that stands whole on the device that is left is whole there, with part 0 of it on that device, and stands so still. So where each needed
/// entry does, the newest one and the needed ones are the same. It is asked that no entry passes them that blocks of the image make up: a part is
/// taken from the first device that has one, so that an entry might come to be whole once a block that was taken for a part of it is lost.
pub fn degraded_journals_are_read_the_same()
    ensures made { (layout : ALayout) (mirror : ℕ) (one other : Image) (entry : AFound)
        (blocks : List (List ℕ)) → IsDegradedTo layout mirror one other
        → IsMadeOf layout (area_of other) entry blocks → IsMadeOf layout (area_of one) entry blocks }
    ensures whole { (layout : ALayout) (mirror : ℕ) (one other : Image) (entry : AFound)
        → mirror < layout.metadata_replicas → IsDegradedTo layout mirror one other
        → EntryStandsOn layout mirror (area_of one) entry
        → IsWholeOn layout (area_of other) mirror entry }
    ensures newest { (f : Found) (mirror : ℕ) (one other : Image)
        → mirror < f.layout.metadata_replicas → IsDegradedTo f.layout mirror one other
        → found one ≡ Ok f → NonePassed f one
        → All (EntryStandsOn f.layout mirror (area_of one)) f.needed → IsNewest f other }
{
    leading_entries_are_needed();
    mended_entries_stay_whole();
}

/// Where what was found stands whole on a metadata device, an image that is degraded to that device has the same found, in order where
/// it was, and mounts as the same volume, or is refused for the same check, if the blocks of files are the same. These are where none
/// of them looks like a block of the journal or of a node.
pub fn degraded_images_mean_the_same()
    ensures found { (f : Found) (mirror : ℕ) (one other : Image)
        → IsDegradedTo f.layout mirror one other → found one ≡ Ok f → NonePassed f one
        → NodesAgree one f → StandsWholeOn f mirror one → found other ≡ Ok f }
    ensures in_order { (f : Found) (mirror : ℕ) (one other : Image)
        → mirror < f.layout.metadata_replicas → IsDegradedTo f.layout mirror one other
        → IsInOrder f one → IsInOrder f other }
    ensures means { (f : Found) (mirror : ℕ) (one other : Image)
        → IsDegradedTo f.layout mirror one other → found one ≡ Ok f → IsInOrder f one
        → StandsWholeOn f mirror one → AgreeOnContent f one other → MeansTheSame f one other }
    ensures content { (f : Found) (mirror : ℕ) (one other : Image)
        → IsDegradedTo f.layout mirror one other → HasPlainFiles f one
        → AgreeOnContent f one other }
    // It stands whole there still.
    ensures stands { (f : Found) (mirror : ℕ) (one other : Image)
        → IsDegradedTo f.layout mirror one other → StandsWholeOn f mirror one
        → StandsWholeOn f mirror other }
{
    leading_entries_are_needed();
    mended_entries_stay_whole();
}
