ghost use Rattle.std.specs.Prelude.{◌≡◌, ◌++◌, ◌∷◌, [], ℕ, List, All, Ok, drop, length, take};
ghost use Rattle.dev_model.specs.Disk.{Image};
ghost use Rattle.journal_ring.specs.declared.found.FoundEntry.{FoundEntry as AFound};
ghost use Rattle.vol_types.specs.declared.keys.Update.{Update as AnUpdate};
ghost use Rattle.vol_types.specs.declared.layout.Layout.{Layout as ALayout};
ghost use Rattle.vol_types.specs.declared.pointers.NodePtr.{NodePtr as ANode};
ghost use Rattle.image_view.specs.EntryUpdates.{IsIdle};
ghost use Rattle.image_view.specs.Found.{Found, found, sets_in, updates_of};
ghost use Rattle.image_view.specs.Trees.{TreesRead, trees_of};
ghost use Rattle.image_view.specs.UpdatedTrees.{IsOfLeaf, with_key_updates};

use journal_ring::{one_entry_counts, whole_entries_are_made_of_blocks};

/// With more updates behind the others, of leaves alone, roots mean the same nodes, and the keys with these updates. So it is with
/// the updates of a next entry behind those that were found, which names the same roots, also where it doesn't need the first
/// `passed` of them, which have none. What was found has a root for each btree.
pub fn updates_of_leaves_join_the_keys()
    ensures trees { (layout : ALayout) (image : Image) (updates more : List AnUpdate)
        (roots : List ANode) (read : TreesRead)
        → trees_of (sets_in layout image) updates roots ≡ Ok read → length roots ≡ 9
        → All IsOfLeaf more
        → trees_of (sets_in layout image) (updates ++ more) roots ≡ Ok (with_key_updates more read) }
    ensures found { (image : Image) (f : Found) (passed : ℕ) (next : AFound) → found image ≡ Ok f
        → All IsIdle (take passed f.needed) → next.entry.roots ≡ f.last.entry.roots
        → All IsOfLeaf next.entry.updates
        → trees_of (sets_in f.layout image) (updates_of (drop passed f.needed ++ next ∷ [])) next.entry.roots
        ≡ Ok (with_key_updates next.entry.updates f.trees) }
    ensures roots { (image : Image) (f : Found) → found image ≡ Ok f → length f.last.entry.roots ≡ 9 }
{
    one_entry_counts();
    whole_entries_are_made_of_blocks();
}
