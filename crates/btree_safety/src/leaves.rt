ghost use Rattle.std.specs.Prelude.{◌≡◌, ◌⊎◌, All, List};
ghost use Rattle.tree_nodes.specs.Levels.{IsNodeOf};
ghost use Rattle.vol_types.specs.declared.pointers.NodePtr.{NodePtr as ANode};
ghost use Rattle.vol_types.specs.declared.positions.Btree.{Btree as ABtree};
ghost use Rattle.crash_safety.specs.Leaves.{leaf_nodes};
ghost use Rattle.btree_safety.specs.CheckpointBtrees.{Btrees, MayBePut};
ghost use Rattle.btree_safety.specs.KeptKeys.{Pins};
ghost use Rattle.btree_safety.specs.LeafVolumes.{IsReplaced, IsRootKept, IsRootWritten, in_order};

/// Where each btree is one leaf, leaves that were written may be put in place of roots: each root stays, or is one of these.
pub fn written_leaves_may_be_put_in_place()
    ensures { (b : Btrees) (root fresh : ABtree → ANode) (pin : Pins) (gone : List ANode)
        → b.trees ≡ leaf_nodes (in_order root) → ((btree : ABtree) → IsNodeOf 0 (fresh btree))
        → ((btree : ABtree) → IsRootKept b root fresh pin btree ⊎ IsRootWritten b root fresh pin btree)
        → All (IsReplaced root fresh) gone
        → MayBePut b (in_order fresh) (leaf_nodes (in_order fresh)) pin gone }
{}
