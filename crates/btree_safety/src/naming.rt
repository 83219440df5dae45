ghost use Rattle.std.specs.Prelude.{◌≡◌, ◌+◌, ◌++◌, ◌∷◌, [], ℕ, All, List, None, Some, drop};
ghost use Rattle.dev_model.specs.Devices.{DevicesState, now};
ghost use Rattle.dev_model.specs.Disk.{Image, as_read};
ghost use Rattle.image_view.specs.Found.{Found, updates_of};
ghost use Rattle.image_view.specs.NextEntries.{IsNext};
ghost use Rattle.image_view.specs.UpdatedTrees.{IsOfLeaf};
ghost use Rattle.journal_ring.specs.EntryBlocks.{AreEntryBlocks};
ghost use Rattle.journal_ring.specs.declared.found.FoundEntry.{FoundEntry as AFound};
ghost use Rattle.tree_nodes.specs.Levels.{Levels};
ghost use Rattle.vol_types.specs.KeyMaps.{IsKeyMap, KeyMap, with_updates};
ghost use Rattle.vol_types.specs.declared.pointers.NodePtr.{NodePtr as ANode};
ghost use Rattle.vol_types.specs.declared.positions.Btree.{Btree as ABtree};
ghost use Rattle.btree_laws.specs.Standing.{Contents, HaveWidths, keys_in_leaves};
ghost use Rattle.crash_safety.specs.Safety.{IsJournalSafe};
ghost use Rattle.crash_safety.specs.Writings.{after};
ghost use Rattle.btree_safety.specs.KeptKeys.{ArePinsFrom, HoldUpTo, Pins};
ghost use Rattle.btree_safety.specs.NextBtrees.{writing_of_btrees};
ghost use Rattle.btree_safety.specs.StandingNodes.{BtreesStand};

use crate::leaves_hold_keys_up_to_entries;
use btree_laws::standing_btrees_are_read;
use crash_safety::entries_are_written_safely;

/// An entry may be put in flight that names the roots of btrees which stand on the devices, of however many levels, and passes needed entries: where
/// the leaves, with the updates of the entries that it still needs, have the keys that were found. So it is where they hold the keys up to entries,
/// and no leaf pins one that is passed.
pub fn standing_btrees_are_named()
    ensures by_keys { (f : Found) (image : Image) (bases : List Found) (durable : List ℕ) (first : ℕ)
        (state : DevicesState) (roots : List ANode) (trees : List Levels)
        (content : ABtree → Contents) (passed : ℕ) (next : AFound) (blocks : List (List ℕ))
        → IsJournalSafe f image None 0 0 bases durable first state
        → BtreesStand f.layout f.session roots trees content state → IsNext f passed next
        → AreEntryBlocks f.layout.id next.number next.entry blocks → next.entry.roots ≡ roots
        → All IsOfLeaf (updates_of f.needed) → All IsOfLeaf next.entry.updates
        → with_updates (updates_of (drop passed f.needed)) (keys_in_leaves content trees)
        ≡ f.trees.keys → IsJournalSafe f (as_read (now state))
        (Some (writing_of_btrees f trees content passed next blocks)) 0 0
        (bases ++ after (writing_of_btrees f trees content passed next blocks) f ∷ []) durable first
        state }
    ensures by_pins { (f : Found) (image : Image) (bases : List Found) (durable : List ℕ)
        (first : ℕ) (state : DevicesState) (roots : List ANode) (trees : List Levels)
        (content : ABtree → Contents) (passed : ℕ) (next : AFound) (blocks : List (List ℕ))
        (before : KeyMap) (pin : Pins) → IsJournalSafe f image None 0 0 bases durable first state
        → BtreesStand f.layout f.session roots trees content state → IsNext f passed next
        → AreEntryBlocks f.layout.id next.number next.entry blocks → next.entry.roots ≡ roots
        → All IsOfLeaf (updates_of f.needed) → All IsOfLeaf next.entry.updates → IsKeyMap before
        → HaveWidths before
        → f.trees.keys ≡ with_updates (updates_of f.needed) before
        → HoldUpTo f.needed before f.last.entry.oldest trees pin content
        → ArePinsFrom trees pin (f.last.entry.oldest + passed)
        → IsJournalSafe f (as_read (now state))
        (Some (writing_of_btrees f trees content passed next blocks)) 0 0
        (bases ++ after (writing_of_btrees f trees content passed next blocks) f ∷ []) durable first
        state }
{
    standing_btrees_are_read();
    leaves_hold_keys_up_to_entries();
    entries_are_written_safely();
}
