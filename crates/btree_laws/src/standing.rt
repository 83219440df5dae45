ghost use Rattle.std.specs.Prelude.{◌≡◌, [], ◌∷◌, List, All, Ok, Some};
ghost use Rattle.dev_model.specs.Disk.{Image};
ghost use Rattle.image_view.specs.Found.{sets_in};
ghost use Rattle.image_view.specs.NewNodes.{AreLeafRoots, leaf_trees, wanted_root};
ghost use Rattle.image_view.specs.Trees.{BtreeRead, SetsOf, btree_of, trees_of};
ghost use Rattle.image_view.specs.UpdatedTrees.{IsOfLeaf, with_key_updates};
ghost use Rattle.node_store.specs.NodeContents.{NodeContent};
ghost use Rattle.tree_nodes.specs.Levels.{IsNodeOf, Levels, level_of, node_at, under_root};
ghost use Rattle.vol_types.specs.KeyMaps.{IsKeyMap};
ghost use Rattle.vol_types.specs.Maps.{value_at};
ghost use Rattle.vol_types.specs.Positions.{greatest_pos, least_pos, pos_cmp};
ghost use Rattle.vol_types.specs.Widths.{PosFits};
ghost use Rattle.vol_types.specs.declared.keys.Update.{Update as AnUpdate};
ghost use Rattle.vol_types.specs.declared.layout.Layout.{Layout as ALayout};
ghost use Rattle.vol_types.specs.declared.pointers.NodePtr.{NodePtr as ANode};
ghost use Rattle.vol_types.specs.declared.positions.Btree.{Btree as ABtree};
ghost use Rattle.vol_types.specs.declared.positions.Pos.{Pos as APos};
ghost use Rattle.btree_laws.specs.Standing.{AreLeafKeys, Contents, HaveWidths, StandAsBtrees, StandsAsBtree, keys_in_leaves, leaf_entries, read_of, reads_of};

use image_view::updates_of_leaves_join_the_keys;

/// Where btrees stand, what is read from their roots is the keys of their leaves, these nodes, and where their sets end, of however many
/// levels each btree is; and updates of leaves join the keys. A btree of one leaf stands so.
pub fn standing_btrees_are_read()
    ensures btree { (sets : SetsOf) (btree : ABtree) (root : ANode) (levels : Levels) (content : Contents)
        → StandsAsBtree sets btree root levels content
        → btree_of sets [] (btree, root) ≡ Ok (read_of content levels) }
    ensures read { (sets : SetsOf) (roots : List ANode) (trees : List Levels)
        (content : ABtree → Contents) → StandAsBtrees sets roots trees content
        → trees_of sets [] roots ≡ Ok (reads_of content trees) }
    ensures updated { (layout : ALayout) (image : Image) (roots : List ANode) (trees : List Levels)
        (content : ABtree → Contents) (updates : List AnUpdate)
        → StandAsBtrees (sets_in layout image) roots trees content → All IsOfLeaf updates
        → trees_of (sets_in layout image) updates roots
        ≡ Ok (with_key_updates updates (reads_of content trees)) }
    // The keys are a key map, and at each position stands what the leaf has that covers it.
    ensures maps { (sets : SetsOf) (roots : List ANode) (trees : List Levels)
        (content : ABtree → Contents) → StandAsBtrees sets roots trees content
        → IsKeyMap (keys_in_leaves content trees) }
    ensures widths { (sets : SetsOf) (roots : List ANode) (trees : List Levels)
        (content : ABtree → Contents) → StandAsBtrees sets roots trees content
        → HaveWidths (keys_in_leaves content trees) }
    ensures values { (sets : SetsOf) (btree : ABtree) (root : ANode) (levels : Levels)
        (content : Contents) → StandsAsBtree sets btree root levels content → (pos : APos)
        (leaf : APos × ANode) → PosFits pos → node_at pos (level_of levels 0) ≡ Some leaf
        → value_at pos_cmp pos (leaf_entries content levels)
        ≡ value_at pos_cmp pos (content leaf.1).entries }
    ensures leaf { (sets : SetsOf) (btree : ABtree) (root : ANode) (content : Contents)
        → IsNodeOf 0 root → sets (wanted_root btree root) ≡ Ok (content root)
        → AreLeafKeys least_pos greatest_pos (content root).entries
        → StandsAsBtree sets btree root (under_root root []) content }
    ensures leaves { (sets : SetsOf) (roots : List ANode) (content : ABtree → NodeContent)
        → AreLeafRoots sets roots content → All (IsNodeOf 0) roots
        → ((btree : ABtree) → AreLeafKeys least_pos greatest_pos (content btree).entries)
        → StandAsBtrees sets roots (leaf_trees roots content).nodes (λ btree root. content btree)
        × (reads_of (λ btree root. content btree) (leaf_trees roots content).nodes
        ≡ leaf_trees roots content) }
{
    updates_of_leaves_join_the_keys();
}
