ghost use Rattle.std.specs.Prelude.{◌≡◌, ℕ};
ghost use Rattle.btree_map.specs.Trees.{IsTrees, Trees, entries_in, keys_in, with_divided};
ghost use Rattle.tree_nodes.specs.Levels.{Levels};
ghost use Rattle.vol_types.specs.KeyMaps.{IsKeyMap, entries_of};
ghost use Rattle.vol_types.specs.declared.positions.Btree.{Btree as ABtree};
ghost use Rattle.vol_types.specs.declared.positions.Pos.{Pos as APos};

/// The key map of a volume has in each btree what the btree has, and stays where a node is divided.
pub fn btrees_hold_a_key_map()
    ensures rises { (trees : Trees) → IsTrees trees → IsKeyMap (keys_in trees) }
    ensures entries { (trees : Trees) (btree : ABtree) → entries_of (keys_in trees) btree
        ≡ entries_in trees btree }
    ensures divided { (trees : Trees) → IsTrees trees → (btree : ABtree) (level : ℕ) (at : APos)
        (levels : Levels)
        → keys_in (with_divided btree level at levels trees) ≡ keys_in trees }
{}
