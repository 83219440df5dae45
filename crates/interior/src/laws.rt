ghost use Rattle.std.specs.Prelude.{◌≡◌, ◌≢◌, ◌+◌, ◌<◌, ℕ, []};
ghost use Rattle.vol_types.specs.Positions.{IsBefore};
ghost use Rattle.vol_types.specs.Widths.{PosFits};
ghost use Rattle.vol_types.specs.declared.pointers.NodePtr.{NodePtr as ANodePtr};
ghost use Rattle.vol_types.specs.declared.positions.Btree.{Btree as ABtree};
ghost use Rattle.vol_types.specs.declared.positions.Pos.{Pos as APos};
ghost use Rattle.tree_nodes.specs.Levels.{Levels, Covers, EndsAt, IsTree, divided, level_of, with_node};
ghost use Rattle.interior.specs.Contents.{content_of, entries_past, entries_up_to, rewrite_updates, split_updates, updates_within};

/// Where a node is divided, both updates that follow are in the range of the node above it, and of no other. The halves
/// share what the node held, and each further node of the other levels holds what it held.
pub fn contents_are_divided()
    ensures parent { (levels : Levels) (level : ℕ) (greatest at parent : APos) (first second : ANodePtr) (btree : ABtree)
        → IsTree levels → PosFits at → Covers (level_of levels level) greatest at → IsBefore at greatest
        → Covers (level_of levels (level + 1)) parent greatest
        → updates_within parent (level_of levels (level + 1)) (split_updates btree levels level greatest at first second)
        ≡ split_updates btree levels level greatest at first second }
    ensures away { (levels : Levels) (level : ℕ) (greatest at parent q : APos) (first second : ANodePtr) (btree : ABtree)
        → IsTree levels → PosFits at → Covers (level_of levels level) greatest at → IsBefore at greatest
        → Covers (level_of levels (level + 1)) parent greatest → EndsAt (level_of levels (level + 1)) q → q ≢ parent
        → updates_within q (level_of levels (level + 1)) (split_updates btree levels level greatest at first second)
        ≡ [] }
    ensures first { (levels : Levels) (level : ℕ) (greatest at : APos) (first second : ANodePtr) → IsTree levels
        → PosFits at → Covers (level_of levels level) greatest at → IsBefore at greatest → 0 < level
        → content_of (divided level greatest at first second levels) level at
        ≡ entries_up_to at (content_of levels level greatest) }
    ensures second { (levels : Levels) (level : ℕ) (greatest at : APos) (first second : ANodePtr) → IsTree levels
        → PosFits at → Covers (level_of levels level) greatest at → IsBefore at greatest → 0 < level
        → content_of (divided level greatest at first second levels) level greatest
        ≡ entries_past at (content_of levels level greatest) }
    ensures others { (levels : Levels) (level other : ℕ) (greatest at q : APos) (first second : ANodePtr) → IsTree levels
        → PosFits at → Covers (level_of levels level) greatest at → IsBefore at greatest → 0 < other
        → other ≢ level + 1 → EndsAt (level_of levels other) q → (other ≡ level → q ≢ greatest)
        → content_of (divided level greatest at first second levels) other q ≡ content_of levels other q }
{}

/// Where a node gets another pointer, the update that follows is in the range of the node above it, and of no other. Each
/// node of the other levels holds what it held.
pub fn contents_stay()
    ensures parent { (levels : Levels) (level : ℕ) (greatest parent : APos) (fresh : ANodePtr) (btree : ABtree)
        → IsTree levels → Covers (level_of levels (level + 1)) parent greatest
        → updates_within parent (level_of levels (level + 1)) (rewrite_updates btree levels level greatest fresh)
        ≡ rewrite_updates btree levels level greatest fresh }
    ensures away { (levels : Levels) (level : ℕ) (greatest parent q : APos) (fresh : ANodePtr) (btree : ABtree)
        → IsTree levels → PosFits greatest → Covers (level_of levels (level + 1)) parent greatest
        → EndsAt (level_of levels (level + 1)) q → q ≢ parent
        → updates_within q (level_of levels (level + 1)) (rewrite_updates btree levels level greatest fresh) ≡ [] }
    ensures others { (levels : Levels) (level other : ℕ) (greatest at : APos) (fresh : ANodePtr) → IsTree levels
        → EndsAt (level_of levels level) greatest → 0 < other → other ≢ level + 1
        → content_of (with_node level greatest fresh levels) other at ≡ content_of levels other at }
{}
