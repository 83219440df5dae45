ghost use Rattle.std.specs.Prelude.{◌≡◌, ◌<◌, ◌≤◌, ℕ, List, All, Ok, Some, length, slice_get, slice_index_or};
ghost use Rattle.dev_model.specs.Devices.{DevicesState};
ghost use Rattle.dev_model.specs.Disk.{Disk, Image};
ghost use Rattle.dev_model.specs.HeldBlocks.{HasNoCollision, WasHeld};
ghost use Rattle.geometry.specs.Sessions.{session_in};
ghost use Rattle.key_meaning.specs.Checks.{AreNodesPlaced};
ghost use Rattle.journal_ring.specs.Entries.{IsMadeOf, IsWhole, IsWholeOn};
ghost use Rattle.journal_ring.specs.Mending.{DoNotOverlap};
ghost use Rattle.journal_ring.specs.Parts.{Area, area_of};
ghost use Rattle.journal_ring.specs.declared.found.FoundEntry.{FoundEntry as AFound};
ghost use Rattle.vol_types.specs.declared.layout.Layout.{Layout as ALayout};
ghost use Rattle.image_view.specs.Bases.{AgreeOnBase, AgreeOnContent, AgreeOnNodes, DifferInSessions, IsNewest};
ghost use Rattle.image_view.specs.CrashEntries.{IsHeldEntry, IsRecordOf, NonePasses, OnlyHeldEntriesOpen, digest_of};
ghost use Rattle.image_view.specs.Mends.{HasNoEqualDigest, IsMending};
ghost use Rattle.image_view.specs.Found.{Found, IsInOrder, IsUnsound, MountsAs, Volume, found, node_places, sets_in, updates_of, with_session};
ghost use Rattle.image_view.specs.Trees.{trees_of};

use journal_ring::{
    leading_entries_are_needed, mended_entries_stay_whole, whole_entries_are_made_of_blocks,
    whole_entries_stay,
};
use sealed_block::sealed_blocks_open;

/// The law over images. What is found in an image has its newest entry, and the btrees that the needed entries and the sets of
/// their nodes mean. It is found in each one of equal lengths that agrees with it on the base of its newest entry, where that entry is the newest too and its needed entries are the ones that count. Where it agrees also on
/// the blocks of its extents, it mounts as the same volume.
pub fn images_mean_their_bases()
    ensures newest { (image : Image) (f : Found) → found image ≡ Ok f → IsNewest f image }
    ensures trees { (image : Image) (f : Found) → found image ≡ Ok f
        → trees_of (sets_in f.layout image) (updates_of f.needed) f.last.entry.roots ≡ Ok f.trees }
    ensures found { (one other : Image) (f : Found) → found one ≡ Ok f → AgreeOnBase f one other
        → IsNewest f other → found other ≡ Ok f }
    ensures mounts { (one other : Image) (f : Found) (volume : Volume) → found one ≡ Ok f
        → AgreeOnBase f one other → AgreeOnContent f one other → IsNewest f other
        → MountsAs one volume → MountsAs other volume }
    // Neither the places of the entries nor the session need be the same.
    ensures again { (one other : Image) (f : Found) (session : ℕ) → found one ≡ Ok f
        → AgreeOnNodes f one other → session_in f.layout other ≡ Some session → IsNewest f other
        → found other ≡ Ok (with_session session f) }
{}

/// Sessions are sealed in blocks 4 and 5, and nothing but the session of what is found hangs on these, where the nodes lie where
/// nodes may. So an image that differs in these blocks alone, and names a session, mounts as the same volume or is refused for the
/// same check, and is orderly where its session isn't smaller.
pub fn sessions_change_nothing_else()
    ensures found { (one other : Image) (f : Found) (session : ℕ) → found one ≡ Ok f
        → AreNodesPlaced (node_places f) f.layout → DifferInSessions one other
        → session_in f.layout other ≡ Some session → found other ≡ Ok (with_session session f) }
    ensures mounts { (one other : Image) (volume : Volume) (session : ℕ) → MountsAs one volume
        → DifferInSessions one other → session_in volume.layout other ≡ Some session
        → MountsAs other volume }
    ensures unsound { (one other : Image) (f : Found) (session check : ℕ) → found one ≡ Ok f
        → AreNodesPlaced (node_places f) f.layout → DifferInSessions one other
        → session_in f.layout other ≡ Some session → IsUnsound one check → IsUnsound other check }
    ensures orderly { (one other : Image) (f : Found) (session : ℕ) → found one ≡ Ok f
        → AreNodesPlaced (node_places f) f.layout → DifferInSessions one other
        → session_in f.layout other ≡ Some session → f.session ≤ session → IsInOrder f one
        → IsInOrder (with_session session f) other }
{}

/// In an image in whose journal areas no block opens by chance, each whole entry is made of blocks that were last settled at the
/// places of their numbers, or were asked since to be written there.
pub fn whole_entries_are_held()
    ensures { (layout : ALayout) (disks : List Disk) (image : Image) (dev : ℕ) (found : AFound)
        → 0 < layout.journal → OnlyHeldEntriesOpen layout disks image
        → IsWholeOn layout (area_of image) dev found
        → (blocks : List (List ℕ)) × IsHeldEntry layout disks image found blocks }
{}

/// What was found in an image is found in whatever a crash leaves, where that agrees with it on the base of its newest entry, no
/// block of its journal areas opens by chance, and no whole entry made of held blocks passes those that were found. Then its newest entry is the
/// newest again, and its needed entries are those that count. Two entries whose blocks were held, and that name one record
/// digest, are the same where no two records have one.
pub fn crashes_keep_what_was_found()
    ensures newest { (one other : Image) (f : Found) (disks : List Disk) → found one ≡ Ok f
        → AgreeOnBase f one other → OnlyHeldEntriesOpen f.layout disks other → NonePasses f disks other
        → IsNewest f other }
    ensures found { (one other : Image) (f : Found) (disks : List Disk) → found one ≡ Ok f
        → AgreeOnBase f one other → OnlyHeldEntriesOpen f.layout disks other → NonePasses f disks other
        → found other ≡ Ok f }
    ensures digests { (layout : ALayout) (area place : Area) (one another : AFound)
        (blocks others : List (List ℕ)) (first last : ℕ) (state : DevicesState)
        → HasNoCollision IsRecordOf first last state → (made : IsMadeOf layout area one blocks)
        → (again : IsMadeOf layout place another others) → All (WasHeld first last state) blocks
        → All (WasHeld first last state) others → digest_of made ≡ digest_of again
        → one.entry ≡ another.entry }
{
    leading_entries_are_needed();
    whole_entries_stay();
}

/// While a needed entry is mended, on the metadata devices that lack a part of it, the image means the same and stays in order,
/// whatever is torn but opens by no chance: where what was found is in order, the nodes lie where nodes may, and no two records
/// of the journal have one digest.
pub fn mending_changes_nothing()
    ensures found { (one other : Image) (f : Found) → found one ≡ Ok f → IsInOrder f one
        → AreNodesPlaced (node_places f) f.layout → (index : ℕ) (entry : AFound)
        → slice_get f.needed index ≡ Some entry → (blocks : List (List ℕ))
        → IsMending f.layout entry blocks one other → HasNoEqualDigest f.layout (area_of one)
        → found other ≡ Ok f }
    ensures in_order { (one other : Image) (f : Found) → found one ≡ Ok f → IsInOrder f one
        → AreNodesPlaced (node_places f) f.layout → (index : ℕ) (entry : AFound)
        → slice_get f.needed index ≡ Some entry → (blocks : List (List ℕ))
        → IsMending f.layout entry blocks one other → HasNoEqualDigest f.layout (area_of one)
        → IsInOrder f other }
    // Needed entries that stand in order are whole, and apart from each other.
    ensures whole { (one : Image) (f : Found) → found one ≡ Ok f → (index : ℕ)
        → index < length f.needed
        → IsWhole f.layout (area_of one) (slice_index_or f.needed index f.last) }
    ensures apart { (one : Image) (f : Found) → found one ≡ Ok f → IsInOrder f one
        → (index other : ℕ) → index < length f.needed → other < length f.needed
        → ¬ (other ≡ index) → DoNotOverlap f.layout.journal (slice_index_or f.needed index f.last)
        (slice_index_or f.needed other f.last) }
{
    leading_entries_are_needed();
    whole_entries_are_made_of_blocks();
    mended_entries_stay_whole();
    sealed_blocks_open();
}
