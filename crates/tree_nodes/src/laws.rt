ghost use Rattle.std.specs.Prelude.{◌≡◌, ◌≢◌, ◌+◌, ◌-◌, ◌<◌, ◌≤◌, ℕ, Some, IsSome, length, slice_set};
ghost use Rattle.std.specs.Int.{IsInRange};
ghost use Rattle.vol_types.specs.Maps.{value_at, with_value};
ghost use Rattle.vol_types.specs.Positions.{pos_cmp, greatest_pos, next_pos, IsBefore, IsWithin};
ghost use Rattle.vol_types.specs.Widths.{PosFits};
ghost use Rattle.vol_types.specs.declared.pointers.NodePtr.{NodePtr as ANodePtr};
ghost use Rattle.vol_types.specs.declared.positions.Pos.{Pos as APos};
ghost use Rattle.tree_nodes.specs.Levels.{Level, Levels, Covers, EndsAt, IsNested, IsNodeOf, IsRow, IsTree, Tile, children_of, divided, halved, least_of, level_of, node_at, under_root, with_node};

/// Each position is covered by exactly one node of a level, which is the one that is found for it.
pub fn positions_are_covered()
    ensures some { (nodes : Level) (pos : APos) → EndsAt nodes greatest_pos → PosFits pos
        → IsSome (node_at pos nodes) }
    ensures covers { (nodes : Level) (pos : APos) (node : APos × ANodePtr) → IsRow nodes → PosFits pos
        → node_at pos nodes ≡ Some node
        → Covers nodes node.0 pos × (value_at pos_cmp node.0 nodes ≡ Some node.1) }
    ensures once { (nodes : Level) (pos at : APos) (node : ANodePtr) → IsRow nodes → PosFits pos
        → value_at pos_cmp at nodes ≡ Some node → Covers nodes at pos → node_at pos nodes ≡ Some (at, node) }
{}

/// The children of a node cover its range without a gap, and the node above that covers the end of a node covers all of it.
/// A look for a position of a range among the children finds the node of their level.
pub fn children_tile()
    ensures tile { (above below : Level) (at : APos) → IsRow above → IsRow below → IsNested above below
        → EndsAt above at → Tile below (least_of at above) at (children_of at above below) }
    ensures parent { (above below : Level) (parent at pos : APos) → IsRow above → IsRow below → IsNested above below
        → PosFits pos → Covers above parent at → Covers below at pos → Covers above parent pos }
    ensures found { (above below : Level) (at pos : APos) → IsRow below → EndsAt below at
        → IsWithin (least_of at above) at pos → node_at pos (children_of at above below) ≡ node_at pos below }
{}

/// The nodes of a level keep their ranges where one gets another pointer. Where one is divided, the first half begins where
/// it began, the second half after the first, and each other node keeps its range.
pub fn ranges_are_divided()
    ensures replaced { (nodes : Level) (other at : APos) (fresh : ANodePtr) → IsRow nodes → EndsAt nodes at
        → least_of other (with_value pos_cmp at fresh nodes) ≡ least_of other nodes }
    ensures first { (nodes : Level) (greatest at : APos) (first second : ANodePtr) → IsRow nodes → PosFits at
        → Covers nodes greatest at → IsBefore at greatest
        → least_of at (halved greatest at first second nodes) ≡ least_of greatest nodes }
    ensures second { (nodes : Level) (greatest at : APos) (first second : ANodePtr) → IsRow nodes → PosFits at
        → Covers nodes greatest at → IsBefore at greatest
        → next_pos at ≡ Some (least_of greatest (halved greatest at first second nodes)) }
    ensures others { (nodes : Level) (greatest at other : APos) (first second : ANodePtr) → IsRow nodes → PosFits at
        → Covers nodes greatest at → IsBefore at greatest → EndsAt nodes other → other ≢ greatest
        → least_of other (halved greatest at first second nodes) ≡ least_of other nodes }
{}

/// A tree has 1 to 8 levels, and its changes leave a tree, in which each other level is as it was.
pub fn changes_leave_trees()
    ensures height { (levels : Levels) → IsTree levels → IsInRange 1 8 (length levels) }
    ensures replaced { (levels : Levels) (level : ℕ) (at : APos) (fresh : ANodePtr) → IsTree levels
        → EndsAt (level_of levels level) at → IsNodeOf level fresh
        → IsTree (with_node level at fresh levels) }
    ensures divided { (levels : Levels) (level : ℕ) (greatest at : APos) (first second : ANodePtr) → IsTree levels
        → level + 1 < length levels → EndsAt (level_of levels level) greatest → PosFits at → (0 < level
        → EndsAt (level_of levels (level - 1)) at) → IsNodeOf level first → IsNodeOf level second
        → IsTree (divided level greatest at first second levels) }
    ensures grown { (levels : Levels) (at : APos) (first second root : ANodePtr) → IsTree levels → PosFits at
        → (1 < length levels → EndsAt (level_of levels (length levels - 2)) at)
        → IsNodeOf (length levels - 1) first → IsNodeOf (length levels - 1) second
        → IsNodeOf (length levels) root
        → IsTree (under_root root (divided (length levels - 1) greatest_pos at first second levels)) }
    ensures here { (levels : Levels) (level : ℕ) (nodes : Level) → level < length levels
        → level_of (slice_set levels level nodes) level ≡ nodes }
    ensures elsewhere { (levels : Levels) (level other : ℕ) (nodes : Level) → level < length levels → other ≢ level
        → level_of (slice_set levels level nodes) other ≡ level_of levels other }
{}
