ghost use Rattle.std.specs.Prelude.{◌≡◌, ◌≢◌, ◌≤◌, ◌==◌, ◌↔◌, ℕ, [], List, All, IfSome, IsSome, None, Option, Some, false, if◌then◌else◌, slice_set};
ghost use Rattle.std.specs.List.{list_any};
ghost use Rattle.std.specs.Ordering.{nat_cmp};
ghost use Rattle.birth_index.specs.Births.{BirthsDiffer, IsFree, levels_of};
ghost use Rattle.dirty_nodes.specs.Dirty.{AreMarked, changed_nodes, leaf_root, moved_pin, paths_of, root_alone, with_pins};
ghost use Rattle.dirty_nodes.specs.Ids.{changes_ids, id_trees};
ghost use Rattle.pin_list.specs.Pins.{least_pin, smaller};
ghost use Rattle.tree_nodes.specs.Levels.{IsTree, Levels};
ghost use Rattle.vol_types.specs.Btrees.{btree_code};
ghost use Rattle.vol_types.specs.KeyMaps.{KeyMap, is_update_of, with_updates};
ghost use Rattle.vol_types.specs.Maps.{IsMap, value_at};
ghost use Rattle.vol_types.specs.Widths.{PosFits};
ghost use Rattle.vol_types.specs.declared.keys.Update.{Update as AnUpdate};
ghost use Rattle.vol_types.specs.declared.pointers.NodePtr.{NodePtr as ANodePtr};
ghost use Rattle.vol_types.specs.declared.positions.Btree.{Btree as ABtree};

/// Where exactly those nodes are marked that are dirty or have a dirty node under them, they are so once the nodes that updates
/// change are dirty too, and these are marked with those above them. And they are so where no node is dirty or marked.
pub fn dirty_nodes_are_marked()
    ensures more { (nodes : List Levels) (pins marks : List (ℕ × ℕ)) (updates : List AnUpdate) (seq : ℕ)
        → BirthsDiffer nodes → ((btree : ABtree) → IsTree (levels_of nodes btree))
        → All (λ update. PosFits update.pos) updates → AreMarked nodes pins marks
        → AreMarked nodes (with_pins seq (changed_nodes nodes updates) pins)
        (with_pins seq (paths_of nodes updates) marks) }
    ensures none { (nodes : List Levels) → AreMarked nodes [] [] }
{}

/// The root of a btree that has no other node is marked exactly where it is dirty. And where exactly those nodes are marked that
/// are dirty or have a dirty node under them, they are so once such a root stands under another birth, which no other node has,
/// and pins an entry or none there.
pub fn moved_roots_are_marked()
    ensures alone { (nodes : List Levels) (btree : ABtree) (root : ANodePtr) (pins marks : List (ℕ × ℕ))
        → BirthsDiffer nodes → ((b : ABtree) → IsTree (levels_of nodes b)) → AreMarked nodes pins marks
        → levels_of nodes btree ≡ root_alone root
        → IsSome (value_at nat_cmp root.birth marks) ↔ IsSome (value_at nat_cmp root.birth pins) }
    ensures moved { (nodes : List Levels) (btree : ABtree) (root pointer : ANodePtr) (later : Option ℕ)
        (pins marks : List (ℕ × ℕ)) → BirthsDiffer nodes → ((b : ABtree) → IsTree (levels_of nodes b))
        → IsMap nat_cmp pins → IsMap nat_cmp marks → AreMarked nodes pins marks
        → levels_of nodes btree ≡ root_alone root → IsFree nodes (leaf_root btree) pointer.birth
        → AreMarked (slice_set nodes (btree_code btree) (root_alone pointer))
        (moved_pin root.birth pointer.birth later pins) (moved_pin root.birth pointer.birth later marks) }
{}

/// A node that was moved pins under its new birth what it is said to, and nothing under its old one; any other node pins what it
/// did; and no node pins an entry before one, where none did before and this one doesn't.
pub fn moved_pins_are_known()
    ensures fresh { (old fresh : ℕ) (later : Option ℕ) (numbers : List (ℕ × ℕ)) → IsMap nat_cmp numbers
        → value_at nat_cmp fresh (moved_pin old fresh later numbers) ≡ later }
    ensures old { (old fresh : ℕ) (later : Option ℕ) (numbers : List (ℕ × ℕ)) → IsMap nat_cmp numbers
        → old ≢ fresh → value_at nat_cmp old (moved_pin old fresh later numbers) ≡ None }
    ensures others { (old fresh : ℕ) (later : Option ℕ) (birth : ℕ) (numbers : List (ℕ × ℕ))
        → IsMap nat_cmp numbers → birth ≢ old → birth ≢ fresh
        → value_at nat_cmp birth (moved_pin old fresh later numbers) ≡ value_at nat_cmp birth numbers }
    ensures rise { (old fresh : ℕ) (later : Option ℕ) (numbers : List (ℕ × ℕ)) → IsMap nat_cmp numbers
        → IsMap nat_cmp (moved_pin old fresh later numbers) }
    ensures least { (first old fresh : ℕ) (later : Option ℕ) (numbers : List (ℕ × ℕ))
        → IfSome later (λ pin. first ≤ pin) → IfSome (least_pin numbers) (λ pin. first ≤ pin)
        → IfSome (least_pin (moved_pin old fresh later numbers)) (λ pin. first ≤ pin) }
{}

/// Once an entry changes nodes, each of them pins it, or what it did where that is older; any other node pins what it did. The
/// root of a btree that has no other node is changed by the updates of the btree's keys.
pub fn changed_pins_are_known()
    ensures each { (seq birth : ℕ) (births : List ℕ) (numbers : List (ℕ × ℕ))
        → value_at nat_cmp birth (with_pins seq births numbers) ≡ (if list_any (λ b. b == birth) births
        then Some (smaller seq (value_at nat_cmp birth numbers)) else value_at nat_cmp birth numbers) }
    ensures root { (nodes : List Levels) (btree : ABtree) (root : ANodePtr) (updates : List AnUpdate)
        (seq : ℕ) (numbers : List (ℕ × ℕ)) → BirthsDiffer nodes
        → ((b : ABtree) → IsTree (levels_of nodes b)) → levels_of nodes btree ≡ root_alone root
        → All (λ update. PosFits update.pos) updates
        → value_at nat_cmp root.birth (with_pins seq (changed_nodes nodes updates) numbers)
        ≡ (if list_any (is_update_of btree) updates
        then Some (smaller seq (value_at nat_cmp root.birth numbers))
        else value_at nat_cmp root.birth numbers) }
{}

/// Updates that change no record of a snapshot id leave the ids as they are.
pub fn other_updates_leave_ids()
    ensures { (updates : List AnUpdate) (keys : KeyMap) → changes_ids updates ≡ false
        → id_trees (with_updates updates keys) ≡ id_trees keys }
{}
