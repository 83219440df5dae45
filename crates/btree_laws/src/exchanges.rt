ghost use Rattle.std.specs.Prelude.{◌≡◌, ◌⊎◌, ◌↔◌, ◌-◌, ◌<◌, ◌≤◌, ℕ, List, All, Some, length};
ghost use Rattle.birth_index.specs.Births.{BirthsDiffer, node_of};
ghost use Rattle.birth_index.specs.declared.name.NodeName.{NodeName as AName};
ghost use Rattle.dev_model.specs.Disk.{Image};
ghost use Rattle.image_view.specs.Bases.{AgreeOnNode};
ghost use Rattle.image_view.specs.Found.{sets_in};
ghost use Rattle.image_view.specs.TreeLaws.{HasSameSets};
ghost use Rattle.image_view.specs.Trees.{SetsOf, nodes_of};
ghost use Rattle.tree_nodes.specs.Levels.{Covers, EndsAt, IsRow, IsTree, Level, Levels, halved, least_of, level_of, node_at};
ghost use Rattle.vol_types.specs.Maps.{value_at, with_value, without};
ghost use Rattle.vol_types.specs.Positions.{IsBefore, IsWithin, next_pos, pos_cmp};
ghost use Rattle.vol_types.specs.Widths.{PosFits};
ghost use Rattle.vol_types.specs.declared.layout.Layout.{Layout as ALayout};
ghost use Rattle.vol_types.specs.declared.pointers.NodePtr.{NodePtr as ANode};
ghost use Rattle.vol_types.specs.declared.positions.Btree.{Btree as ABtree};
ghost use Rattle.vol_types.specs.declared.positions.Pos.{Pos as APos};
ghost use Rattle.btree_laws.specs.Exchanges.{AreExchanged, IsBornApart, IsExchange, IsKept, IsRewritten, Stays};
ghost use Rattle.btree_laws.specs.Standing.{Contents, IsNodeIn, IsUnderRoot, StandAsBtrees, StandsAsBtree, StandsAsNode, leaf_entries};

/// Btrees stand in each image that agrees on the buckets of their nodes. Where nodes give place to others, a btree stands again: each of its
/// nodes then is a new one that stands, or one that is kept. Its keys are in the range of the new leaves those of these leaves, and
/// everywhere else what they were.
pub fn standing_btrees_change_by_exchanges()
    ensures stays { (one other : SetsOf) (btree : ABtree) (root : ANode) (levels : Levels)
        (content : Contents) → StandsAsBtree one btree root levels content
        → ((level : ℕ) (at : APos) (node : ANode) → IsNodeIn levels level at node
        → HasSameSets one other node) → StandsAsBtree other btree root levels content }
    ensures stay { (layout : ALayout) (one other : Image) (roots : List ANode)
        (trees : List Levels) (content : ABtree → Contents)
        → StandAsBtrees (sets_in layout one) roots trees content
        → All (AgreeOnNode one other) (nodes_of trees)
        → StandAsBtrees (sets_in layout other) roots trees content }
    // However many exchanges are made at once: each node is new or kept.
    ensures changed { (one other : SetsOf) (btree : ABtree) (root fresh : ANode) (old new : Levels)
        (before after : Contents) → StandsAsBtree one btree root old before → IsTree new
        → IsUnderRoot fresh new → ((level : ℕ) (at : APos) (node : ANode)
        → IsNodeIn new level at node → StandsAsNode other btree new after level at node
        ⊎ (IsKept old new level at node × Stays one other before after node))
        → StandsAsBtree other btree fresh new after }
    // One exchange of leaves, under upper nodes that are exchanged with them.
    ensures exchanged { (one other : SetsOf) (btree : ABtree) (root fresh : ANode)
        (old new : Levels) (before after : Contents) (first last : ℕ → APos)
        → StandsAsBtree one btree root old before → AreExchanged first last old new → IsTree new
        → IsUnderRoot fresh new → ((level : ℕ) (at : APos) (node : ANode)
        → IsNodeIn old level at node → ¬ IsWithin (first level) (last level) at
        → Stays one other before after node)
        → ((level : ℕ) (at : APos) (node : ANode) → IsNodeIn new level at node
        → IsWithin (first level) (last level) at ⊎ (length old ≤ level)
        → StandsAsNode other btree new after level at node)
        → StandsAsBtree other btree fresh new after }
    ensures others { (one other : SetsOf) (btree : ABtree) (root fresh : ANode) (old new : Levels)
        (before after : Contents) (first last : APos) → StandsAsBtree one btree root old before
        → StandsAsBtree other btree fresh new after
        → IsExchange first last (level_of old 0) (level_of new 0)
        → ((at : APos) (node : ANode) → IsNodeIn old 0 at node → ¬ IsWithin first last at
        → after node ≡ before node) → (pos : APos) → PosFits pos → ¬ IsWithin first last pos
        → value_at pos_cmp pos (leaf_entries after new)
        ≡ value_at pos_cmp pos (leaf_entries before old) }
    ensures same { (one other : SetsOf) (btree : ABtree) (root fresh : ANode) (old new : Levels)
        (before after : Contents) → StandsAsBtree one btree root old before
        → StandsAsBtree other btree fresh new after → ((pos : APos) (leaf node : APos × ANode)
        → PosFits pos → node_at pos (level_of old 0) ≡ Some leaf
        → node_at pos (level_of new 0) ≡ Some node
        → value_at pos_cmp pos (after node.1).entries ≡ value_at pos_cmp pos (before leaf.1).entries)
        → leaf_entries after new ≡ leaf_entries before old }
    // A leaf or an upper node that is rewritten whole, with those above it, leaves the keys.
    ensures rewritten { (one other : SetsOf) (btree : ABtree) (root : ANode) (old new : Levels)
        (before after : Contents) (from : ℕ) (pos : APos) (fresh : ℕ → ANode)
        → StandsAsBtree one btree root old before → from < length old → PosFits pos
        → IsRewritten from pos fresh old new → ((level : ℕ) (at : APos) (node : ANode)
        → IsNodeIn old level at node → (level < from) ⊎ (¬ Covers (level_of old level) at pos)
        → Stays one other before after node)
        → ((level : ℕ) (at : APos) → from ≤ level → level < length old
        → Covers (level_of old level) at pos
        → StandsAsNode other btree new after level at (fresh level))
        → ((at : APos) (node : ANode) → from ≡ 0 → IsNodeIn old 0 at node
        → Covers (level_of old 0) at pos → (after (fresh 0)).entries ≡ (before node).entries)
        → StandsAsBtree other btree (fresh (length old - 1)) new after
        × (leaf_entries after new ≡ leaf_entries before old) }
    ensures births { (old new : List Levels) → BirthsDiffer old → ((name : AName) (node : ANode)
        → node_of new name ≡ Some node
        → (node_of old name ≡ Some node) ⊎ IsBornApart old new name node) → BirthsDiffer new }
{}

/// Another pointer in the place of a node's, two nodes in the place of one, and one in the place of two neighbours are exchanges in their ranges.
/// Outside of the range of an exchange each node is the one that stood there, and begins where it began; those in it cover just its positions.
pub fn exchanges_have_forms()
    ensures rewriting { (nodes : Level) (at : APos) (fresh : ANode) → IsRow nodes → EndsAt nodes at
        → IsExchange (least_of at nodes) at nodes (with_value pos_cmp at fresh nodes) }
    ensures splitting { (nodes : Level) (greatest at : APos) (first second : ANode) → IsRow nodes
        → Covers nodes greatest at → IsBefore at greatest
        → IsExchange (least_of greatest nodes) greatest nodes (halved greatest at first second nodes) }
    ensures joining { (nodes : Level) (one other : APos) (fresh : ANode) → IsRow nodes
        → EndsAt nodes one → EndsAt nodes other → next_pos one ≡ Some (least_of other nodes)
        → IsExchange (least_of one nodes) other nodes
        (with_value pos_cmp other fresh (without pos_cmp one nodes)) }
    ensures outside { (old new : Level) (first last at : APos) (node : ANode) → IsRow old
        → IsRow new → IsExchange first last old new → value_at pos_cmp at new ≡ Some node
        → ¬ IsWithin first last at → (value_at pos_cmp at old ≡ Some node)
        × (least_of at new ≡ least_of at old) }
    // The old nodes and the new ones that end in the range cover just its positions.
    ensures range { (old new : Level) (first last at pos : APos) → IsRow old → IsRow new
        → IsExchange first last old new → PosFits pos → Covers old at pos ⊎ Covers new at pos
        → IsWithin first last pos ↔ IsWithin first last at }
{}
