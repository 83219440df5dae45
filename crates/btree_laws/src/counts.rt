ghost use Rattle.std.specs.Prelude.{◌≡◌, ◌-◌, ◌≤◌, ◌++◌, ◌∷◌, [], ℕ, List, All, Some, drop, length, take};
ghost use Rattle.image_view.specs.Found.{updates_of};
ghost use Rattle.image_view.specs.Trees.{SetsOf};
ghost use Rattle.image_view.specs.UpdatedTrees.{IsOfLeaf};
ghost use Rattle.journal_ring.specs.declared.found.FoundEntry.{FoundEntry as AFound};
ghost use Rattle.tree_nodes.specs.Levels.{Levels, level_of, node_at};
ghost use Rattle.birth_index.specs.Births.{levels_of};
ghost use Rattle.vol_types.specs.KeyMaps.{IsKeyMap, KeyMap, entries_of, entries_within, value_in, with_updates};
ghost use Rattle.vol_types.specs.Maps.{value_at};
ghost use Rattle.vol_types.specs.Positions.{IsWithin, pos_cmp};
ghost use Rattle.vol_types.specs.Widths.{PosFits};
ghost use Rattle.vol_types.specs.declared.pointers.NodePtr.{NodePtr as ANode};
ghost use Rattle.vol_types.specs.declared.positions.Btree.{Btree as ABtree};
ghost use Rattle.vol_types.specs.declared.positions.Pos.{Pos as APos};
ghost use Rattle.btree_laws.specs.Counts.{Counts, HasUpTo, HaveUpTo, NoneChanges};
ghost use Rattle.btree_laws.specs.Standing.{Contents, HaveWidths, StandAsBtrees, keys_in_leaves};

/// What sets hold up to an entry at each position. Updates that are made again, over keys that have them, change nothing: so with those of the
/// needed entries the keys are the current ones, from whichever entry on each position needs them, also where entries are passed that
/// each position has.
pub fn keys_have_entries_by_position()
    ensures again { (needed : List AFound) (before keys : KeyMap) (count : Counts) → IsKeyMap before
        → IsKeyMap keys → HaveUpTo needed before count keys
        → with_updates (updates_of needed) keys ≡ with_updates (updates_of needed) before }
    ensures passed { (needed : List AFound) (before keys : KeyMap) (count : Counts) (passed : ℕ)
        → IsKeyMap before → IsKeyMap keys → HaveUpTo needed before count keys
        → ((btree : ABtree) (pos : APos) → passed ≤ count btree pos)
        → with_updates (updates_of (drop passed needed)) keys
        ≡ with_updates (updates_of needed) before }
    // The entries that are left then count from the keys on that have the passed ones.
    ensures dropped { (needed : List AFound) (before keys : KeyMap) (btree : ABtree) (pos : APos)
        (count passed : ℕ) → HasUpTo needed before keys btree pos count → passed ≤ count
        → HasUpTo (drop passed needed) (with_updates (updates_of (take passed needed)) before) keys
        btree pos (count - passed) }
    ensures more { (needed : List AFound) (next : AFound) (before keys : KeyMap) (btree : ABtree)
        (pos : APos) (count : ℕ) → HasUpTo needed before keys btree pos count
        → HasUpTo (needed ++ next ∷ []) before keys btree pos count }
    // Entries that don't change a position may be counted there, or not.
    ensures raised { (needed : List AFound) (before keys : KeyMap) (btree : ABtree) (pos : APos)
        (count more : ℕ) → IsKeyMap before → HasUpTo needed before keys btree pos count
        → count ≤ more → more ≤ length needed → NoneChanges needed count more btree pos
        → HasUpTo needed before keys btree pos more }
    // What a position has hangs on its value alone, in whichever leaf that stands.
    ensures moved { (needed : List AFound) (before keys others : KeyMap) (btree : ABtree)
        (pos : APos) (count : ℕ) → HasUpTo needed before keys btree pos count
        → value_in others btree pos ≡ value_in keys btree pos
        → HasUpTo needed before others btree pos count }
    // A btree may have one count, and so may the range of a leaf.
    ensures btree { (needed : List AFound) (before keys : KeyMap) (btree : ABtree) (count : ℕ)
        → count ≤ length needed → entries_of keys btree
        ≡ entries_of (with_updates (updates_of (take count needed)) before) btree
        → (pos : APos) → HasUpTo needed before keys btree pos count }
    ensures range { (needed : List AFound) (before keys : KeyMap) (btree : ABtree)
        (first last : APos) (count : ℕ) → count ≤ length needed
        → entries_within first last (entries_of keys btree) ≡ entries_within first last
        (entries_of (with_updates (updates_of (take count needed)) before) btree)
        → (pos : APos) → IsWithin first last pos → HasUpTo needed before keys btree pos count }
    ensures leaf { (sets : SetsOf) (roots : List ANode) (trees : List Levels)
        (content : ABtree → Contents) (needed : List AFound) (before : KeyMap) (btree : ABtree)
        (count : ℕ) (pos : APos) (leaf : APos × ANode) → StandAsBtrees sets roots trees content
        → count ≤ length needed → PosFits pos
        → node_at pos (level_of (levels_of trees btree) 0) ≡ Some leaf
        → value_at pos_cmp pos (content btree leaf.1).entries
        ≡ value_in (with_updates (updates_of (take count needed)) before) btree pos
        → HasUpTo needed before (keys_in_leaves content trees) btree pos count }
    // Only positions with their widths have values.
    ensures widths { (needed : List AFound) (before keys : KeyMap) (count : Counts)
        → IsKeyMap before → HaveWidths before → HaveWidths keys → All IsOfLeaf (updates_of needed)
        → ((btree : ABtree) (pos : APos) → count btree pos ≤ length needed)
        → ((btree : ABtree) (pos : APos) → PosFits pos
        → HasUpTo needed before keys btree pos (count btree pos))
        → HaveUpTo needed before count keys }
{}
