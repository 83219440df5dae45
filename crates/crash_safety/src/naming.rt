ghost use Rattle.std.specs.Prelude.{◌≡◌, ◌++◌, ◌∷◌, [], ℕ, All, List, None, Some, drop, length};
ghost use Rattle.dev_model.specs.Devices.{DevicesState, now};
ghost use Rattle.dev_model.specs.Disk.{Image, as_read};
ghost use Rattle.image_view.specs.Found.{Found, updates_of};
ghost use Rattle.image_view.specs.NextEntries.{IsNext};
ghost use Rattle.image_view.specs.UpdatedTrees.{IsOfLeaf};
ghost use Rattle.journal_ring.specs.EntryBlocks.{AreEntryBlocks};
ghost use Rattle.journal_ring.specs.declared.found.FoundEntry.{FoundEntry as AFound};
ghost use Rattle.crash_safety.specs.Safety.{IsJournalSafe};
ghost use Rattle.crash_safety.specs.Writings.{after};
ghost use Rattle.node_store.specs.NodeContents.{NodeContent};
ghost use Rattle.replay.specs.Mending.{HasMended};
ghost use Rattle.replay.specs.NodeUpdates.{EachUpdate, IsBelowRoot};
ghost use Rattle.replay.specs.Roots.{AreRootsAlike};
ghost use Rattle.vol_types.specs.KeyMaps.{entries_of, with_updates};
ghost use Rattle.vol_types.specs.declared.pointers.NodePtr.{NodePtr as ANode};
ghost use Rattle.vol_types.specs.declared.positions.Btree.{Btree as ABtree};
ghost use Rattle.crash_safety.specs.Leaves.{StandAsLeaves, leaf_keys};
ghost use Rattle.crash_safety.specs.Naming.{LeadsToLeaves, leaf_writing};

use crate::entries_are_written_safely;
use image_view::{new_nodes_hold_the_keys, updates_of_leaves_join_the_keys};
use replay::found_btrees_are_a_key_map;

/// A volume that was opened and mended, whose roots are leaves with the same sets on every metadata device, stands on nine leaves: its keys are
/// what the updates of the needed entries make of theirs, where none of these is above its root.
pub fn found_roots_are_leaves()
    ensures { (f : Found) (state : DevicesState) → HasMended f (length f.needed) (now state)
        → AreRootsAlike f (as_read (now state))
        → All (λ root. root.level ≡ 0) f.last.entry.roots
        → EachUpdate f (IsBelowRoot f.last.entry.roots) → LeadsToLeaves f state }
{
    new_nodes_hold_the_keys();
    updates_of_leaves_join_the_keys();
    found_btrees_are_a_key_map();
}

/// An entry may be put in flight that names roots which stand as leaves, and passes needed entries: where the leaves, with the updates of
/// the entries that it still needs, have the keys that were found.
pub fn leaf_roots_are_named()
    ensures { (f : Found) (image : Image) (bases : List Found) (durable : List ℕ) (first : ℕ)
        (state : DevicesState) (roots : List ANode) (content : ABtree → NodeContent) (passed : ℕ)
        (next : AFound) (blocks : List (List ℕ))
        → IsJournalSafe f image None 0 0 bases durable first state
        → StandAsLeaves f.layout f.session roots content state → IsNext f passed next
        → AreEntryBlocks f.layout.id next.number next.entry blocks → next.entry.roots ≡ roots
        → All IsOfLeaf (updates_of f.needed) → All IsOfLeaf next.entry.updates
        → ((btree : ABtree)
        → entries_of (with_updates (updates_of (drop passed f.needed)) (leaf_keys content)) btree
        ≡ entries_of f.trees.keys btree)
        → IsJournalSafe f (as_read (now state))
        (Some (leaf_writing f roots content passed next blocks)) 0 0
        (bases ++ after (leaf_writing f roots content passed next blocks) f ∷ []) durable first state }
{
    new_nodes_hold_the_keys();
    updates_of_leaves_join_the_keys();
    entries_are_written_safely();
}
