ghost use Rattle.std.specs.Prelude.{◌≡◌, ◌+◌, ◌<◌, ◌==◌, false, ℕ, IsSome, None, Some, Ok, List, [], if◌then◌else◌};
ghost use Rattle.std.specs.Ordering.{nat_cmp};
ghost use Rattle.forest_ops.specs.Names.{links_max};
ghost use Rattle.forest_ops.specs.Steps.{link_place, move_of, new_place, next_number, rmdir_place, unlink_place};
ghost use Rattle.forest_ops.specs.Trees.{Place, moved, unlinked, with_bytes, with_directory, with_file, with_name, without_directory};
ghost use Rattle.forest_ops.specs.Walking.{shared_tree, tree_of};
ghost use Rattle.key_meaning.specs.Checks.{count_names};
ghost use Rattle.plain_forest.specs.Forest.{Forest, Tree};
ghost use Rattle.plain_forest.specs.declared.path.Path.{Path};
ghost use Rattle.tree_changes.specs.Trees.{IsFreeName, IsNameAt, IsNewNumber, IsWellFormed, MayMove};
ghost use Rattle.vol_types.specs.Maps.{value_at};

/// How many names lead to a number after a change: to the number of a name that came or went one more or one less, and to all
/// others as many as before.
pub fn names_are_counted()
    ensures file { (place : Place) (tree : Tree) → IsFreeName place tree → (number : ℕ)
        → count_names (with_file place tree).directories number
        ≡ count_names tree.directories number + (if place.number == number then 1 else 0) }
    ensures directory { (place : Place) (tree : Tree) → IsFreeName place tree
        → value_at nat_cmp place.number tree.directories ≡ None → (number : ℕ)
        → count_names (with_directory place tree).directories number
        ≡ count_names tree.directories number + (if place.number == number then 1 else 0) }
    ensures name { (place : Place) (tree : Tree) → IsFreeName place tree → (number : ℕ)
        → count_names (with_name place tree).directories number
        ≡ count_names tree.directories number + (if place.number == number then 1 else 0) }
    ensures unlinked { (place : Place) (tree : Tree) → IsNameAt place tree → (number : ℕ)
        → count_names (unlinked place tree).directories number + (if place.number == number then 1 else 0)
        ≡ count_names tree.directories number }
    ensures removed { (place : Place) (tree : Tree) → IsWellFormed tree → IsNameAt place tree
        → value_at nat_cmp place.number tree.directories ≡ Some [] → (number : ℕ)
        → count_names (without_directory place tree).directories number
        + (if place.number == number then 1 else 0) ≡ count_names tree.directories number }
    ensures moved { (old new : Place) (tree : Tree) → IsWellFormed tree → MayMove old new tree → (number : ℕ)
        → count_names (moved old new tree).directories number ≡ count_names tree.directories number }
{}

/// A tree that is well formed is so after each change, where the refusals of the change's operation were passed.
pub fn changed_trees_are_well_formed()
    ensures file { (place : Place) (tree : Tree) → IsWellFormed tree → IsFreeName place tree
        → IsNewNumber tree place.number → IsWellFormed (with_file place tree) }
    ensures directory { (place : Place) (tree : Tree) → IsWellFormed tree → IsFreeName place tree
        → IsNewNumber tree place.number → IsWellFormed (with_directory place tree) }
    ensures name { (place : Place) (tree : Tree) → IsWellFormed tree → IsFreeName place tree
        → value_at nat_cmp place.number tree.directories ≡ None
        → IsWellFormed (with_name place tree) }
    ensures unlinked { (place : Place) (tree : Tree) → IsWellFormed tree → IsNameAt place tree
        → value_at nat_cmp place.number tree.directories ≡ None
        → IsWellFormed (unlinked place tree) }
    ensures removed { (place : Place) (tree : Tree) → IsWellFormed tree → IsNameAt place tree
        → value_at nat_cmp place.number tree.directories ≡ Some []
        → IsWellFormed (without_directory place tree) }
    ensures moved { (old new : Place) (tree : Tree) → IsWellFormed tree → MayMove old new tree
        → IsWellFormed (moved old new tree) }
    ensures bytes { (number : ℕ) (change : List ℕ → List ℕ) (tree : Tree) → IsWellFormed tree
        → IsWellFormed (with_bytes number change tree) }
{}

/// What an operation knows of the place of its change, once its refusals are passed.
pub fn refusals_that_are_passed()
    ensures made { (client : ℕ) (path : Path) (forest : Forest) (place : Place)
        → new_place client path forest ≡ Ok place → (tree : Tree)
        × (tree_of path forest ≡ Ok tree) × (tree.locked ≡ false) × IsFreeName place tree
        × (place.number ≡ next_number client forest) }
    ensures linked { (from to : Path) (forest : Forest) (place : Place)
        → link_place from to forest ≡ Ok place → (tree : Tree)
        × (shared_tree from to forest ≡ Ok tree) × (tree.locked ≡ false) × IsFreeName place tree
        × IsSome (value_at nat_cmp place.number tree.files)
        × (count_names tree.directories place.number < links_max) }
    ensures unlinked { (path : Path) (forest : Forest) (place : Place)
        → unlink_place path forest ≡ Ok place → (tree : Tree)
        × (tree_of path forest ≡ Ok tree) × (tree.locked ≡ false) × IsNameAt place tree
        × IsSome (value_at nat_cmp place.number tree.files) }
    ensures removed { (path : Path) (forest : Forest) (place : Place)
        → rmdir_place path forest ≡ Ok place → (tree : Tree)
        × (tree_of path forest ≡ Ok tree) × (tree.locked ≡ false) × IsNameAt place tree
        × (value_at nat_cmp place.number tree.directories ≡ Some []) }
    ensures moved { (from to : Path) (forest : Forest) (old new : Place)
        → move_of from to forest ≡ Ok (Some (old, new)) → (tree : Tree)
        × (shared_tree from to forest ≡ Ok tree) × (tree.locked ≡ false) × MayMove old new tree }
{}
