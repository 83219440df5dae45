ghost use Rattle.std.specs.Prelude.{◌≡◌, ◌⊎◌, ◌≤◌, ◌++◌, ◌∷◌, [], ℕ, List, All, Contains, Ok, drop, false, length, map, take};
ghost use Rattle.dev_model.specs.Crashes.{SameBut};
ghost use Rattle.dev_model.specs.Disk.{Disk, Image};
ghost use Rattle.journal_ring.specs.EntryBlocks.{AreEntryBlocks, parts_of};
ghost use Rattle.journal_ring.specs.Parts.{area_of};
ghost use Rattle.journal_ring.specs.declared.found.FoundEntry.{FoundEntry as AFound};
ghost use Rattle.key_meaning.specs.Checks.{AreNodesPlaced};
ghost use Rattle.node_store.specs.NodeContents.{NodeContent};
ghost use Rattle.vol_types.specs.KeyMaps.{IsKeyMap, KeyMap, entries_of, is_update_of, with_updates};
ghost use Rattle.vol_types.specs.declared.keys.Update.{Update as AnUpdate};
ghost use Rattle.vol_types.specs.declared.layout.Layout.{Layout as ALayout};
ghost use Rattle.vol_types.specs.declared.pointers.NodePtr.{NodePtr as ANode};
ghost use Rattle.vol_types.specs.declared.positions.Btree.{Btree as ABtree};
ghost use Rattle.image_view.specs.Bases.{AgreeOnBase, AgreeOnNode, AgreeOnNodes, IsNewest};
ghost use Rattle.image_view.specs.CrashEntries.{OnlyHeldEntriesOpen};
ghost use Rattle.image_view.specs.Found.{Found, IsInOrder, found, node_places, sets_in, updates_of};
ghost use Rattle.image_view.specs.Mends.{IsPlaceOf};
ghost use Rattle.image_view.specs.NewNodes.{AreLeafRoots, AreNodesInOrder, HoldsPassed, IsKeptNode, IsNewNode, leaf_trees, over_nodes};
ghost use Rattle.image_view.specs.NextEntries.{AreNumberedBelow, HoldOldOrNext, IsNext, IsToldApart, IsWritten, NonePassesBut, with_entry};
ghost use Rattle.image_view.specs.Trees.{TreesRead, nodes_of, trees_of};
ghost use Rattle.image_view.specs.UpdatedTrees.{IsOfLeaf, with_key_updates};

use journal_ring::{
    leading_entries_are_needed, mended_entries_stay_whole, one_entry_counts,
    whole_entries_are_made_of_blocks, whole_entries_stay, written_entries_are_whole,
};
use record_codec::{entries_are_exact, entry_lengths};
use sealed_block::{opened_blocks_are_sealed, sealed_blocks_open};

/// The next entry may lead to other nodes than those that were found: nodes that were written whole into buckets of their own, and
/// settled, before its first part is written. While it is written, an image that a crash leaves has what was found, or this
/// with the entry, where it agrees with the one before also on the buckets of the new nodes.
pub fn crashes_leave_new_nodes()
    // The places of the first so many parts of the entry are in no bucket in which nodes may lie.
    ensures nodes { (one other : Image) (f : Found) (passed : ℕ) (next : AFound) (trees : TreesRead)
        (count : ℕ) → found one ≡ Ok f → IsInOrder f one → IsNext f passed next
        → AreNodesPlaced (node_places (with_entry passed next trees f)) f.layout
        → count ≤ parts_of next.entry
        → map (λ blocks. length blocks) one ≡ map (λ blocks. length blocks) other
        → SameBut (IsPlaceOf f.layout next count) one other
        → AgreeOnNodes (with_entry passed next trees f) one other }
    ensures found { (one other : Image) (f : Found) (disks : List Disk) (passed : ℕ)
        (next : AFound) (trees : TreesRead) → found one ≡ Ok f → IsNext f passed next
        → AgreeOnBase f one other → AgreeOnNodes (with_entry passed next trees f) one other
        → OnlyHeldEntriesOpen f.layout disks other → NonePassesBut f next disks other
        → trees_of (sets_in f.layout one) (updates_of (drop passed f.needed ++ next ∷ []))
        next.entry.roots ≡ Ok trees
        → (found other ≡ Ok f) ⊎ (found other ≡ Ok (with_entry passed next trees f)) }
    ensures in_order { (one other : Image) (f : Found) (disks : List Disk) (passed : ℕ)
        (next : AFound) (blocks : List (List ℕ)) (trees : TreesRead) → found one ≡ Ok f
        → IsInOrder f one → IsNext f passed next
        → AreEntryBlocks f.layout.id next.number next.entry blocks
        → AreNumberedBelow f.layout f.session f.last.end (area_of one)
        → HoldOldOrNext f.layout one next blocks disks → AgreeOnBase f one other
        → AgreeOnNodes (with_entry passed next trees f) one other
        → AreNodesInOrder (with_entry passed next trees f) one
        → OnlyHeldEntriesOpen f.layout disks other
        → trees_of (sets_in f.layout one) (updates_of (drop passed f.needed ++ next ∷ []))
        next.entry.roots ≡ Ok trees
        → ((found other ≡ Ok f) × IsInOrder f other)
        ⊎ ((found other ≡ Ok (with_entry passed next trees f))
        × IsInOrder (with_entry passed next trees f) other) }
    // The nodes that were found, with the same ends, are such nodes.
    ensures old_nodes { (one other : Image) (f : Found) (passed : ℕ) (next : AFound)
        (trees : TreesRead) → AgreeOnBase f one other → trees.nodes ≡ f.trees.nodes
        → AgreeOnNodes (with_entry passed next trees f) one other }
    ensures old_order { (one : Image) (f : Found) (passed : ℕ) (next : AFound)
        (trees : TreesRead) → found one ≡ Ok f → IsInOrder f one → trees.nodes ≡ f.trees.nodes
        → trees.ends ≡ f.trees.ends → AreNodesInOrder (with_entry passed next trees f) one }
    // Some of the nodes may be those that were found, and the others written whole.
    ensures each_agrees { (one other : Image) (f : Found) (passed : ℕ) (next : AFound)
        (trees : TreesRead) → AgreeOnBase f one other
        → All (λ node. Contains (nodes_of f.trees.nodes) node ⊎ AgreeOnNode one other node)
        (nodes_of trees.nodes) → AgreeOnNodes (with_entry passed next trees f) one other }
    ensures each_order { (one : Image) (f : Found) (passed : ℕ) (next : AFound)
        (trees : TreesRead) → found one ≡ Ok f → IsInOrder f one
        → All (λ node. IsKeptNode f trees node ⊎ IsNewNode f one node) (nodes_of trees.nodes)
        → AreNodesInOrder (with_entry passed next trees f) one }
{
    leading_entries_are_needed();
    whole_entries_stay();
    one_entry_counts();
    mended_entries_stay_whole();
    entries_are_exact();
    entry_lengths();
    opened_blocks_are_sealed();
    sealed_blocks_open();
}

/// Once such an entry stands on every metadata device, it is found with what was found before, over its new nodes, and in order.
pub fn new_nodes_are_found()
    ensures agreeing { (one other : Image) (f : Found) (passed : ℕ) (next : AFound)
        (trees : TreesRead) → found one ≡ Ok f → AgreeOnBase f one other
        → AgreeOnNodes (with_entry passed next trees f) one other
        → trees_of (sets_in f.layout one) (updates_of (drop passed f.needed ++ next ∷ []))
        next.entry.roots ≡ Ok trees → IsNewest (with_entry passed next trees f) other
        → found other ≡ Ok (with_entry passed next trees f) }
    ensures found { (one other : Image) (f : Found) (passed : ℕ) (next : AFound)
        (blocks : List (List ℕ)) (trees : TreesRead) → found one ≡ Ok f → IsInOrder f one
        → IsNext f passed next → AgreeOnBase f one other
        → AgreeOnNodes (with_entry passed next trees f) one other
        → IsWritten f.layout next blocks one other → IsToldApart f (area_of one) blocks
        → trees_of (sets_in f.layout one) (updates_of (drop passed f.needed ++ next ∷ []))
        next.entry.roots ≡ Ok trees → found other ≡ Ok (with_entry passed next trees f) }
    ensures in_order { (one other : Image) (f : Found) (passed : ℕ) (next : AFound)
        (blocks : List (List ℕ)) (trees : TreesRead) → found one ≡ Ok f → IsInOrder f one
        → IsNext f passed next → AgreeOnBase f one other
        → AgreeOnNodes (with_entry passed next trees f) one other
        → AreNodesInOrder (with_entry passed next trees f) one
        → IsWritten f.layout next blocks one other → IsToldApart f (area_of one) blocks
        → IsInOrder (with_entry passed next trees f) other }
{
    leading_entries_are_needed();
    whole_entries_stay();
    one_entry_counts();
    mended_entries_stay_whole();
    entries_are_exact();
    entry_lengths();
    opened_blocks_are_sealed();
    sealed_blocks_open();
    written_entries_are_whole();
}

/// What the roots of an entry with new nodes mean. Roots that are leaves mean what their sets come to; and updates that are made again,
/// over keys that have them, change nothing. So the new nodes may hold the keys up to any entry, and the next one needs none of
/// those whose updates they have.
pub fn new_nodes_hold_the_keys()
    ensures leaves { (layout : ALayout) (image : Image) (roots : List ANode)
        (content : ABtree → NodeContent)
        → AreLeafRoots (sets_in layout image) roots content
        → trees_of (sets_in layout image) [] roots ≡ Ok (leaf_trees roots content) }
    ensures rises { (layout : ALayout) (image : Image) (roots : List ANode)
        (content : ABtree → NodeContent)
        → AreLeafRoots (sets_in layout image) roots content
        → IsKeyMap (leaf_trees roots content).keys }
    ensures again { (updates more : List AnUpdate) (keys : KeyMap) → IsKeyMap keys
        → with_updates more (with_updates (updates ++ more) keys)
        ≡ with_updates (updates ++ more) keys }
    // A btree may keep its nodes where the entries that are passed have no updates of it.
    ensures kept { (needed : List AFound) (passed : ℕ) (old new : KeyMap) (btree : ABtree)
        → entries_of new btree ≡ entries_of old btree
        → All (λ update. is_update_of btree update ≡ false) (updates_of (take passed needed))
        → HoldsPassed needed passed old new btree }
    // The old roots and the new ones mean btrees by their sets alone, without updates.
    ensures means { (image : Image) (f : Found) (passed : ℕ) (next : AFound)
        (old new : TreesRead) → found image ≡ Ok f
        → trees_of (sets_in f.layout image) [] f.last.entry.roots ≡ Ok old → IsKeyMap old.keys
        → length next.entry.roots ≡ 9
        → trees_of (sets_in f.layout image) [] next.entry.roots ≡ Ok new
        → All IsOfLeaf (updates_of f.needed) → All IsOfLeaf next.entry.updates
        → ((btree : ABtree) → HoldsPassed f.needed passed old.keys new.keys btree)
        → trees_of (sets_in f.layout image) (updates_of (drop passed f.needed ++ next ∷ []))
        next.entry.roots
        ≡ Ok (with_key_updates next.entry.updates (over_nodes f.trees new)) }
{
    one_entry_counts();
    whole_entries_are_made_of_blocks();
}
