ghost use Rattle.std.specs.Prelude.{◌≡◌, ◌≤◌, ◌++◌, ◌∷◌, [], ℕ, List, All, Ok, drop};
ghost use Rattle.dev_model.specs.Disk.{Image};
ghost use Rattle.image_view.specs.Found.{Found, found, sets_in, updates_of};
ghost use Rattle.image_view.specs.NewNodes.{over_nodes};
ghost use Rattle.image_view.specs.Trees.{trees_of};
ghost use Rattle.image_view.specs.UpdatedTrees.{IsOfLeaf, with_key_updates};
ghost use Rattle.journal_ring.specs.declared.found.FoundEntry.{FoundEntry as AFound};
ghost use Rattle.tree_nodes.specs.Levels.{Levels};
ghost use Rattle.vol_types.specs.KeyMaps.{IsKeyMap, KeyMap, with_updates};
ghost use Rattle.vol_types.specs.declared.positions.Btree.{Btree as ABtree};
ghost use Rattle.vol_types.specs.declared.positions.Pos.{Pos as APos};
ghost use Rattle.btree_laws.specs.Counts.{Counts, HaveUpTo};
ghost use Rattle.btree_laws.specs.Standing.{Contents, StandAsBtrees, keys_in_leaves, reads_of};

use crate::standing_btrees_are_read;
use image_view::images_mean_their_bases;

/// What the roots of an entry mean under which btrees stand. What was found is the btrees under its newest entry's roots, with the updates
/// of the needed entries. A next entry may name the roots of other btrees, which hold at each position the keys up to some entry, and
/// pass entries that each position has: it means the keys that were found with its own updates, over the nodes of these btrees.
pub fn entries_name_standing_btrees()
    ensures found { (image : Image) (f : Found) (trees : List Levels) (content : ABtree → Contents)
        → found image ≡ Ok f
        → StandAsBtrees (sets_in f.layout image) f.last.entry.roots trees content
        → All IsOfLeaf (updates_of f.needed)
        → f.trees ≡ with_key_updates (updates_of f.needed) (reads_of content trees) }
    ensures names { (image : Image) (f : Found) (passed : ℕ) (next : AFound) (trees : List Levels)
        (content : ABtree → Contents) (before : KeyMap) (count : Counts)
        → StandAsBtrees (sets_in f.layout image) next.entry.roots trees content
        → IsKeyMap before → f.trees.keys ≡ with_updates (updates_of f.needed) before
        → All IsOfLeaf (updates_of f.needed) → All IsOfLeaf next.entry.updates
        → HaveUpTo f.needed before count (keys_in_leaves content trees)
        → ((btree : ABtree) (pos : APos) → passed ≤ count btree pos)
        → trees_of (sets_in f.layout image) (updates_of (drop passed f.needed ++ next ∷ []))
        next.entry.roots
        ≡ Ok (with_key_updates next.entry.updates (over_nodes f.trees (reads_of content trees))) }
    // The keys may be counted from those that the sets of the old btrees hold.
    ensures means { (image : Image) (f : Found) (passed : ℕ) (next : AFound)
        (old new : List Levels) (before after : ABtree → Contents) (count : Counts)
        → found image ≡ Ok f
        → StandAsBtrees (sets_in f.layout image) f.last.entry.roots old before
        → StandAsBtrees (sets_in f.layout image) next.entry.roots new after
        → All IsOfLeaf (updates_of f.needed) → All IsOfLeaf next.entry.updates
        → HaveUpTo f.needed (keys_in_leaves before old) count (keys_in_leaves after new)
        → ((btree : ABtree) (pos : APos) → passed ≤ count btree pos)
        → trees_of (sets_in f.layout image) (updates_of (drop passed f.needed ++ next ∷ []))
        next.entry.roots
        ≡ Ok (with_key_updates next.entry.updates (over_nodes f.trees (reads_of after new))) }
{
    standing_btrees_are_read();
    images_mean_their_bases();
}
