ghost use Rattle.std.specs.Ordering.{nat_cmp};
ghost use Rattle.std.specs.Prelude.{◌≡◌, ◌≢◌, ◌≤◌, ◌++◌, ◌∷◌, [], ℕ, All, IfSome, IsSome, List, Some, true};
ghost use Rattle.birth_index.specs.Births.{BirthsDiffer, birth_of, levels_of};
ghost use Rattle.birth_index.specs.Exchanges.{AreExchanges, IsOfRoot, exchanged, one_node};
ghost use Rattle.birth_index.specs.declared.name.NodeName.{NodeName as ANodeName};
ghost use Rattle.dirty_nodes.specs.Dirty.{AreMarked};
ghost use Rattle.node_writeback.specs.Due.{is_due, root_in};
ghost use Rattle.node_writeback.specs.Placing.{AreFrozenLeaves, MayMove, exchanges_of, moved_pins};
ghost use Rattle.node_writeback.specs.declared.node.FrozenNode.{FrozenNode as AFrozen};
ghost use Rattle.pin_list.specs.Pins.{least_pin};
ghost use Rattle.tree_nodes.specs.Levels.{IsNodeOf, IsTree, Levels};
ghost use Rattle.vol_types.specs.Maps.{IsMap, value_at};
ghost use Rattle.vol_types.specs.declared.positions.Btree.{Btree as ABtree};

use dirty_nodes::moved_roots_are_marked;

/// Frozen leaves stay such ones where nodes are pinned more, and where a leaf that is due is frozen besides, under a birth that neither a
/// node has nor any of them. A leaf that is due is the only one of its btree.
pub fn frozen_leaves_are_kept()
    ensures none { (nodes : List Levels) (pins : List (ℕ × ℕ)) → AreFrozenLeaves nodes pins [] }
    ensures pinned { (nodes : List Levels) (old new : List (ℕ × ℕ)) (frozen : List AFrozen)
        → AreFrozenLeaves nodes old frozen
        → ((birth : ℕ) → IsSome (value_at nat_cmp birth old) → IsSome (value_at nat_cmp birth new))
        → AreFrozenLeaves nodes new frozen }
    ensures alone { (durable : ℕ) (nodes : List Levels) (pins : List (ℕ × ℕ)) (frozen : List AFrozen)
        (btree : ABtree) → IsTree (levels_of nodes btree) → is_due durable nodes pins frozen btree ≡ true
        → levels_of nodes btree ≡ one_node (root_in nodes btree) }
    ensures more { (durable : ℕ) (nodes : List Levels) (pins : List (ℕ × ℕ)) (frozen : List AFrozen)
        (node : AFrozen) → AreFrozenLeaves nodes pins frozen → IsTree (levels_of nodes node.btree)
        → is_due durable nodes pins frozen node.btree ≡ true
        → node.birth ≡ (root_in nodes node.btree).birth → IsNodeOf 0 node.fresh
        → ((name : ANodeName) → birth_of nodes name ≢ Some node.fresh.birth)
        → All (λ other. other.fresh.birth ≢ node.fresh.birth) frozen
        → AreFrozenLeaves nodes pins (frozen ++ node ∷ []) }
{}

/// Frozen leaves may be put in place, and what is so then: each btree of theirs is the leaf that was written, and any other is as it was; such a leaf pins the
/// oldest entry that changed it and whose keys it lacks, or none, and any other node what it did; exactly those nodes are marked that are
/// dirty or have a dirty node under them; and no node pins an older entry than one, where none did.
pub fn leaves_are_put_in_place()
    ensures exchanges { (nodes : List Levels) (pins : List (ℕ × ℕ)) (frozen : List AFrozen)
        → AreFrozenLeaves nodes pins frozen → AreExchanges nodes (exchanges_of frozen) }
    ensures of_roots { (frozen : List AFrozen) → All IsOfRoot (exchanges_of frozen) }
    ensures may_move { (nodes : List Levels) (pins marks : List (ℕ × ℕ)) (frozen : List AFrozen)
        → BirthsDiffer nodes → ((btree : ABtree) → IsTree (levels_of nodes btree))
        → AreMarked nodes pins marks → AreFrozenLeaves nodes pins frozen → MayMove pins marks frozen }
    ensures marked { (nodes : List Levels) (pins marks later : List (ℕ × ℕ)) (frozen : List AFrozen)
        → BirthsDiffer nodes → ((btree : ABtree) → IsTree (levels_of nodes btree))
        → IsMap nat_cmp pins → IsMap nat_cmp marks → AreMarked nodes pins marks
        → AreFrozenLeaves nodes pins frozen → AreMarked (exchanged (exchanges_of frozen) nodes)
        (moved_pins frozen later pins) (moved_pins frozen later marks) }
    ensures leaves { (nodes : List Levels) (pins : List (ℕ × ℕ)) (frozen : List AFrozen)
        → AreFrozenLeaves nodes pins frozen
        → All (λ node. levels_of (exchanged (exchanges_of frozen) nodes) node.btree ≡ one_node node.fresh)
        frozen }
    ensures others { (nodes : List Levels) (frozen : List AFrozen) (btree : ABtree)
        → All (λ node. node.btree ≢ btree) frozen
        → levels_of (exchanged (exchanges_of frozen) nodes) btree ≡ levels_of nodes btree }
    ensures pins { (nodes : List Levels) (pins later : List (ℕ × ℕ)) (frozen : List AFrozen)
        → IsMap nat_cmp pins → BirthsDiffer nodes → AreFrozenLeaves nodes pins frozen
        → All (λ node. value_at nat_cmp node.fresh.birth (moved_pins frozen later pins)
        ≡ value_at nat_cmp node.birth later) frozen }
    ensures other_pins { (pins later : List (ℕ × ℕ)) (frozen : List AFrozen) (birth : ℕ)
        → IsMap nat_cmp pins → All (λ node. (node.birth ≢ birth) × (node.fresh.birth ≢ birth)) frozen
        → value_at nat_cmp birth (moved_pins frozen later pins) ≡ value_at nat_cmp birth pins }
    ensures least { (first : ℕ) (pins later : List (ℕ × ℕ)) (frozen : List AFrozen)
        → All (λ node. IfSome (value_at nat_cmp node.birth later) (λ pin. first ≤ pin)) frozen
        → IfSome (least_pin pins) (λ pin. first ≤ pin)
        → IfSome (least_pin (moved_pins frozen later pins)) (λ pin. first ≤ pin) }
{
    moved_roots_are_marked();
}
