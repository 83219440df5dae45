ghost use Rattle.std.specs.Prelude.{ℕ, List, [], ◌∷◌, ◌++◌, ◌≡◌, ◌+◌, ◌-◌, ◌^◌, ◌<◌, ◌≤◌, true, length, All, Some, IsSome, Ok};
ghost use Rattle.dev_model.specs.Disk.{Image};
ghost use Rattle.geometry.specs.Layouts.{is_layout_of};
ghost use Rattle.record_codec.specs.declared.entries.EntryRecord.{EntryRecord as AnEntry};
ghost use Rattle.record_codec.specs.Entries.{IsEntry};
ghost use Rattle.vol_types.specs.declared.layout.Layout.{Layout as ALayout};
ghost use Rattle.journal_ring.specs.declared.found.FoundEntry.{FoundEntry as AFound};
ghost use Rattle.journal_ring.specs.Counting.{Counts, counting, journal_in, needed_by, newest};
ghost use Rattle.journal_ring.specs.Entries.{AgreeFrom, IsMadeOf, IsWhole, IsWholeOn, entry_on};
ghost use Rattle.journal_ring.specs.EntryBlocks.{AreEntryBlocks, HoldBlocks, parts_of, ring_block};
ghost use Rattle.journal_ring.specs.Leading.{AreFrom, IsGreatest, Leads};
ghost use Rattle.journal_ring.specs.Mending.{DoNotOverlap, IsMended};
ghost use Rattle.journal_ring.specs.Parts.{Area, AreSame, area_of};
ghost use Rattle.journal_ring.specs.Rings.{HaveArea};

use record_codec::{entries_are_exact, entry_lengths};
use sealed_block::{opened_blocks_are_sealed, sealed_blocks_open};

/// Devices that have room for a layout have its journal area.
pub fn areas_have_places()
    ensures { (sizes : List ℕ) (layout : ALayout) → is_layout_of sizes layout ≡ true
        → HaveArea sizes layout.metadata_replicas layout.journal }
{}

/// An entry whose blocks stand on every metadata device is whole, from whichever of them its part 0 is taken.
pub fn written_entries_are_whole()
    ensures { (layout : ALayout) (image : Image) (number : ℕ) (entry : AnEntry)
        (blocks : List (List ℕ)) → IsEntry entry → number + parts_of entry < 2 ^ 64
        → AreEntryBlocks layout.id number entry blocks
        → HoldBlocks layout.metadata_replicas layout.journal number blocks (length blocks) image
        → (dev : ℕ) → dev < layout.metadata_replicas → entry_on layout (area_of image) dev number
        ≡ Some (record { number = number; end = number + parts_of entry; entry = entry }) }
{
    sealed_blocks_open();
    entries_are_exact();
    entry_lengths();
}

/// An entry that is whole stays so while the places of its parts do, on every metadata device.
pub fn whole_entries_stay()
    ensures { (layout : ALayout) (one other : Area) (dev : ℕ) (found : AFound)
        → IsWholeOn layout one dev found → AgreeFrom layout one other found.number found.end
        → IsWholeOn layout other dev found }
{}

/// A whole entry is made of blocks that stand on the metadata devices.
pub fn whole_entries_are_made_of_blocks()
    ensures { (layout : ALayout) (area : Area) (dev : ℕ) (found : AFound)
        → IsWholeOn layout area dev found
        → (blocks : List (List ℕ)) × IsMadeOf layout area found blocks }
{}

/// Of all whole entries with a sequence one counts, and no more than one.
pub fn one_entry_counts()
    ensures one { (layout : ALayout) (area : Area) (dev other : ℕ) (found another : AFound)
        → Counts layout area dev found → Counts layout area other another
        → found.entry.sequence ≡ another.entry.sequence → (dev ≡ other) × (found ≡ another) }
    ensures counting { (layout : ALayout) (area : Area) (sequence : ℕ) (found : AFound)
        → 0 < layout.journal → counting layout area sequence ≡ Some found
        → (found.entry.sequence ≡ sequence) × (dev : ℕ) × Counts layout area dev found }
    ensures some { (layout : ALayout) (area : Area) (dev : ℕ) (found : AFound) → 0 < layout.journal
        → IsWholeOn layout area dev found
        → IsSome (counting layout area found.entry.sequence) }
{}

/// An entry that leads those of its sequence counts. The greatest one is the newest; the ones that lead from its oldest sequence
/// up to it, and it, are needed. So the needed entries of an area stay the needed ones in each other area in which they lead,
/// and no whole entry has a greater sequence. Needed entries are whole.
pub fn leading_entries_are_needed()
    ensures counts { (layout : ALayout) (area : Area) (one : AFound) → 0 < layout.journal
        → Leads layout area one → counting layout area one.entry.sequence ≡ Some one }
    ensures newest { (layout : ALayout) (area : Area) (last : AFound) → 0 < layout.journal
        → Leads layout area last → IsGreatest layout area last.entry.sequence
        → newest layout area ≡ Some last }
    ensures needed { (layout : ALayout) (area : Area) (last : AFound) (entries : List AFound)
        → 0 < layout.journal → AreFrom last.entry.oldest entries
        → length entries ≡ last.entry.sequence - last.entry.oldest → All (Leads layout area) entries
        → needed_by layout area last ≡ Ok (entries ++ last ∷ []) }
    ensures again { (layout : ALayout) (one other : Area) (last : AFound) (needed : List AFound)
        → 0 < layout.journal → newest layout one ≡ Some last
        → needed_by layout one last ≡ Ok needed → All (Leads layout other) needed
        → IsGreatest layout other last.entry.sequence
        → (newest layout other ≡ Some last) × (needed_by layout other last ≡ Ok needed) }
    ensures whole { (layout : ALayout) (area : Area) (last : AFound) (needed : List AFound)
        → 0 < layout.journal → newest layout area ≡ Some last
        → needed_by layout area last ≡ Ok needed → All (IsWhole layout area) needed }
{}

/// The parts of an entry have places of their own.
pub fn parts_have_own_places()
    ensures { (journal number p q : ℕ) → 256 ≤ journal → p < 64 → q < 64
        → ring_block journal (number + p) ≡ ring_block journal (number + q) → p ≡ q }
{}

/// What makes an entry are its sealed blocks, of which there is one list. An entry that is whole stays so while it is mended: where
/// a device lacks a part, this is written, and may be torn. So does each other entry that is apart from it.
pub fn mended_entries_stay_whole()
    ensures sealed { (layout : ALayout) (area : Area) (found : AFound) (blocks : List (List ℕ))
        → IsMadeOf layout area found blocks
        → AreEntryBlocks layout.id found.number found.entry blocks }
    ensures one { (id : List ℕ) (number : ℕ) (entry : AnEntry) (one other : List (List ℕ))
        → AreEntryBlocks id number entry one → AreEntryBlocks id number entry other → one ≡ other }
    ensures stays { (layout : ALayout) (one other : Area) (dev : ℕ) (found : AFound)
        (blocks : List (List ℕ)) → IsWholeOn layout one dev found
        → AreEntryBlocks layout.id found.number found.entry blocks
        → IsMended layout found.number blocks one other → IsWholeOn layout other dev found }
    // Other entries of the ring have other places.
    ensures places { (layout : ALayout) (one other : Area) (found another : AFound)
        (blocks : List (List ℕ)) → 0 < layout.journal → found.end ≡ found.number + length blocks
        → DoNotOverlap layout.journal found another → IsMended layout found.number blocks one other
        → AgreeFrom layout one other another.number another.end }
    ensures others { (layout : ALayout) (one other : Area) (dev : ℕ) (found another : AFound)
        (blocks : List (List ℕ)) → IsWholeOn layout one dev another → 0 < layout.journal
        → found.end ≡ found.number + length blocks → DoNotOverlap layout.journal found another
        → IsMended layout found.number blocks one other → IsWholeOn layout other dev another }
{
    sealed_blocks_open();
    opened_blocks_are_sealed();
    entries_are_exact();
    entry_lengths();
}

/// Areas that are the same on the metadata devices have the same newest entry, the same needed ones and the same journal, and
/// their entries are made of the same blocks.
pub fn same_areas_hold_one_journal()
    ensures newest { (layout : ALayout) (one other : Area) → AreSame layout one other
        → newest layout one ≡ newest layout other }
    ensures needed { (layout : ALayout) (one other : Area) (last : AFound)
        → AreSame layout one other → needed_by layout one last ≡ needed_by layout other last }
    ensures journal { (layout : ALayout) (one other : Area) → AreSame layout one other
        → journal_in layout one ≡ journal_in layout other }
    ensures made { (layout : ALayout) (one other : Area) (found : AFound)
        (blocks : List (List ℕ)) → 0 < layout.journal → AreSame layout one other
        → IsMadeOf layout one found blocks → IsMadeOf layout other found blocks }
{}
