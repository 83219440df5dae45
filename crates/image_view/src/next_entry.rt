ghost use Rattle.std.specs.Prelude.{Some, slice_get, ◌≡◌, ◌⊎◌, ◌<◌, ◌≤◌, ◌++◌, ◌∷◌, [], ℕ, List, Ok, drop, length, map};
ghost use Rattle.dev_model.specs.Crashes.{SameBut};
ghost use Rattle.dev_model.specs.Disk.{Disk, Image};
ghost use Rattle.key_meaning.specs.Checks.{AreNodesPlaced};
ghost use Rattle.journal_ring.specs.EntryBlocks.{AreEntryBlocks, parts_of};
ghost use Rattle.journal_ring.specs.Parts.{Area, AreSame, area_of};
ghost use Rattle.journal_ring.specs.declared.found.FoundEntry.{FoundEntry as AFound};
ghost use Rattle.vol_types.specs.declared.layout.Layout.{Layout as ALayout};
ghost use Rattle.image_view.specs.Bases.{AgreeOnBase, IsNewest};
ghost use Rattle.image_view.specs.CrashEntries.{OnlyHeldEntriesOpen};
ghost use Rattle.image_view.specs.Found.{AreOwned, Found, IsInOrder, found, node_places, sets_in, updates_of};
ghost use Rattle.image_view.specs.Mends.{IsMending, IsPlaceOf};
ghost use Rattle.image_view.specs.NextEntries.{AreNumberedBelow, HoldOldOrNext, IsNext, IsToldApart, IsWritten, NonePassesBut, with_entry};
ghost use Rattle.image_view.specs.Trees.{TreesRead, trees_of};

use journal_ring::{
    leading_entries_are_needed, mended_entries_stay_whole, one_entry_counts, whole_entries_stay,
};
use record_codec::{entries_are_exact, entry_lengths};
use sealed_block::{opened_blocks_are_sealed, sealed_blocks_open};

/// While the next entry is written behind those that were found, an image that a crash leaves has these, or these with the next
/// one. So it is where the image is the one before but at the entry's places, no block of its journal areas opens by chance,
/// and of what the disks have held there each block stood there or is one of the entry's: then each whole entry passes none that
/// was found, or is the next one. What is found doesn't change until the entry is whole.
pub fn crashes_leave_the_next_entry_or_not()
    // The places of the first so many parts of the next entry are none that what was found hangs on.
    ensures base { (one other : Image) (f : Found) (passed : ℕ) (next : AFound) (count : ℕ)
        → found one ≡ Ok f → IsInOrder f one → AreNodesPlaced (node_places f) f.layout
        → IsNext f passed next → count ≤ parts_of next.entry
        → map (λ blocks. length blocks) one ≡ map (λ blocks. length blocks) other
        → SameBut (IsPlaceOf f.layout next count) one other → AgreeOnBase f one other }
    ensures held { (one other : Image) (f : Found) (disks : List Disk) (passed : ℕ) (next : AFound)
        (blocks : List (List ℕ)) → found one ≡ Ok f → IsInOrder f one → IsNext f passed next
        → AreEntryBlocks f.layout.id next.number next.entry blocks
        → HoldOldOrNext f.layout one next blocks disks → IsToldApart f (area_of one) blocks
        → NonePassesBut f next disks other }
    ensures newest { (one other : Image) (f : Found) (disks : List Disk) (passed : ℕ)
        (next : AFound) (trees : TreesRead) → found one ≡ Ok f → IsNext f passed next
        → AgreeOnBase f one other → OnlyHeldEntriesOpen f.layout disks other
        → NonePassesBut f next disks other
        → IsNewest f other ⊎ IsNewest (with_entry passed next trees f) other }
    ensures found { (one other : Image) (f : Found) (disks : List Disk) (passed : ℕ)
        (next : AFound) (trees : TreesRead) → found one ≡ Ok f → IsNext f passed next
        → AgreeOnBase f one other → OnlyHeldEntriesOpen f.layout disks other
        → NonePassesBut f next disks other
        → trees_of (sets_in f.layout one) (updates_of (drop passed f.needed ++ next ∷ []))
        next.entry.roots ≡ Ok trees → trees.nodes ≡ f.trees.nodes
        → (found other ≡ Ok f) ⊎ (found other ≡ Ok (with_entry passed next trees f)) }
    // It is in order as well, so that it can be loaded and mended again, where the blocks are told apart by their numbers.
    ensures in_order { (one other : Image) (f : Found) (disks : List Disk) (passed : ℕ)
        (next : AFound) (blocks : List (List ℕ)) (trees : TreesRead) → found one ≡ Ok f
        → IsInOrder f one → IsNext f passed next
        → AreEntryBlocks f.layout.id next.number next.entry blocks
        → AreNumberedBelow f.layout f.session f.last.end (area_of one)
        → HoldOldOrNext f.layout one next blocks disks → AgreeOnBase f one other
        → OnlyHeldEntriesOpen f.layout disks other
        → trees_of (sets_in f.layout one) (updates_of (drop passed f.needed ++ next ∷ []))
        next.entry.roots ≡ Ok trees → trees.nodes ≡ f.trees.nodes → trees.ends ≡ f.trees.ends
        → ((found other ≡ Ok f) × IsInOrder f other)
        ⊎ ((found other ≡ Ok (with_entry passed next trees f))
        × IsInOrder (with_entry passed next trees f) other) }
{
    leading_entries_are_needed();
    whole_entries_stay();
    one_entry_counts();
    mended_entries_stay_whole();
    entries_are_exact();
    entry_lengths();
    opened_blocks_are_sealed();
    sealed_blocks_open();
}

/// The blocks that a session wrote into the journal areas have numbers below the one that it writes next, and are told apart by that from
/// those of the next entry. None of a session stands there when it begins, mending needed entries writes none that didn't stand there,
/// and each entry is written behind the one before it.
pub fn blocks_of_a_session_are_numbered_below()
    ensures begins { (layout : ALayout) (one other : Area) (before session number : ℕ)
        → AreSame layout one other → AreOwned layout before one → before < session
        → AreNumberedBelow layout session number other }
    ensures mended { (one other : Image) (f : Found) → found one ≡ Ok f → (index : ℕ)
        (entry : AFound) → slice_get f.needed index ≡ Some entry → (blocks : List (List ℕ))
        → IsMending f.layout entry blocks one other → (session number : ℕ)
        → AreNumberedBelow f.layout session number (area_of one)
        → AreNumberedBelow f.layout session number (area_of other) }
    ensures written { (one other : Image) (f : Found) (passed : ℕ) (next : AFound)
        (blocks : List (List ℕ)) → found one ≡ Ok f → IsNext f passed next
        → IsWritten f.layout next blocks one other
        → AreNumberedBelow f.layout f.session f.last.end (area_of one)
        → AreNumberedBelow f.layout f.session next.end (area_of other) }
{
    leading_entries_are_needed();
    whole_entries_stay();
    one_entry_counts();
    mended_entries_stay_whole();
    entries_are_exact();
    entry_lengths();
    opened_blocks_are_sealed();
    sealed_blocks_open();
}
