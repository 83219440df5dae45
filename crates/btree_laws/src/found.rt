ghost use Rattle.std.specs.Prelude.{◌≡◌, [], List, All, Ok, length};
ghost use Rattle.dev_model.specs.Disk.{Image};
ghost use Rattle.image_view.specs.Found.{Found, found, sets_in, updates_of};
ghost use Rattle.image_view.specs.Trees.{BtreeRead, SetsOf, TreesRead, btree_of, trees_of};
ghost use Rattle.image_view.specs.UpdatedTrees.{IsOfLeaf, with_key_updates};
ghost use Rattle.vol_types.specs.Ranges.{IsNode};
ghost use Rattle.vol_types.specs.declared.keys.Update.{Update as AnUpdate};
ghost use Rattle.vol_types.specs.declared.layout.Layout.{Layout as ALayout};
ghost use Rattle.vol_types.specs.declared.pointers.NodePtr.{NodePtr as ANode};
ghost use Rattle.vol_types.specs.declared.positions.Btree.{Btree as ABtree};
ghost use Rattle.btree_laws.specs.HeldContents.{ComeTo, held_in};
ghost use Rattle.btree_laws.specs.Standing.{Contents, StandAsBtrees, StandsAsBtree, read_of, reads_of};

use crate::entries_name_standing_btrees;
use journal_ring::{leading_entries_are_needed, whole_entries_are_made_of_blocks};
use record_codec::{entries_are_exact, sets_are_exact};
use sealed_block::opened_blocks_are_sealed;

/// Btrees that are found stand: where a btree, or all nine, can be read from a root whose pointer is in range, it stands with the levels that were
/// read, and what was read is what is read of it. So what was found in an image, where the updates of its needed entries are of leaves, is
/// standing btrees with these updates. The content of each node is what its sets come to.
pub fn found_btrees_stand()
    ensures btree { (sets : SetsOf) (content : ABtree → Contents) (btree : ABtree) (root : ANode)
        (read : BtreeRead) → ComeTo sets content → IsNode root
        → btree_of sets [] (btree, root) ≡ Ok read
        → StandsAsBtree sets btree root read.levels (content btree)
        × (read ≡ read_of (content btree) read.levels) }
    // Updates of leaves lead to the same nodes.
    ensures updated { (sets : SetsOf) (content : ABtree → Contents) (btree : ABtree) (root : ANode)
        (updates : List AnUpdate) (read : BtreeRead) → ComeTo sets content → IsNode root
        → All IsOfLeaf updates → btree_of sets updates (btree, root) ≡ Ok read
        → StandsAsBtree sets btree root read.levels (content btree) }
    ensures btrees { (sets : SetsOf) (content : ABtree → Contents) (roots : List ANode)
        (updates : List AnUpdate) (read : TreesRead) → ComeTo sets content → length roots ≡ 9
        → All IsNode roots → All IsOfLeaf updates → trees_of sets updates roots ≡ Ok read
        → StandAsBtrees sets roots read.nodes content }
    // An image holds one content of each node.
    ensures images { (layout : ALayout) (image : Image)
        → ComeTo (sets_in layout image) (λ btree. held_in layout image) }
    ensures roots { (image : Image) (f : Found) → found image ≡ Ok f → All IsNode f.last.entry.roots }
    ensures found { (image : Image) (f : Found) → found image ≡ Ok f
        → All IsOfLeaf (updates_of f.needed)
        → StandAsBtrees (sets_in f.layout image) f.last.entry.roots f.trees.nodes
        (λ btree. held_in f.layout image)
        × (f.trees ≡ with_key_updates (updates_of f.needed)
        (reads_of (λ btree. held_in f.layout image) f.trees.nodes)) }
{
    entries_name_standing_btrees();
    leading_entries_are_needed();
    whole_entries_are_made_of_blocks();
    entries_are_exact();
    sets_are_exact();
    opened_blocks_are_sealed();
}
