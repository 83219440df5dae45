ghost use Rattle.std.specs.Prelude.{◌≡◌, ◌-◌, ◌<◌, ◌≤◌, ◌∷◌, ℕ, true, Some, [], List, IsSome, length, slice_index, drop};
ghost use Rattle.std.specs.List.Sorted.{IsStrictlySortedBy};
ghost use Rattle.std.specs.Ordering.{nat_cmp};
ghost use Rattle.vol_types.specs.Maps.{IsMap, value_at};
ghost use Rattle.vol_types.specs.declared.values.Snap.{Snap as ASnap};
ghost use Rattle.snap_tree.specs.declared.split.Split.{Split as ASplit};
ghost use Rattle.snap_tree.specs.Snaps.{Snaps, IsSnapTree, chain_of, is_ancestor_of};
ghost use Rattle.snap_tree.specs.ChainLaws.{AllAbove};
ghost use Rattle.snap_tree.specs.Splits.{IsSplit, split_snaps};
ghost use Rattle.snap_tree.specs.Updates.{snaps_after};
ghost use Rattle.snap_tree.specs.Removals.{HasOneChild, removed_snaps, but};
ghost use Rattle.snap_tree.specs.Nearest.{first_that, is_among};

/// A chain rises, begins with its id, and goes on from each member as that member's own chain does.
pub fn chains_rise()
    ensures rises { (snaps : Snaps) (id : ℕ) → IsMap nat_cmp snaps
        → IsStrictlySortedBy nat_cmp (chain_of snaps id) }
    ensures begins { (snaps : Snaps) (id : ℕ) → IsSome (value_at nat_cmp id snaps)
        → (0 < length (chain_of snaps id)) × (slice_index (chain_of snaps id) 0 ≡ id) }
    ensures goes_on { (snaps : Snaps) (id place : ℕ) → IsMap nat_cmp snaps
        → place < length (chain_of snaps id)
        → chain_of snaps (slice_index (chain_of snaps id) place) ≡ drop place (chain_of snaps id) }
    ensures members { (snaps : Snaps) (id place : ℕ) → IsMap nat_cmp snaps
        → place < length (chain_of snaps id)
        → IsSome (value_at nat_cmp (slice_index (chain_of snaps id) place) snaps) }
    ensures above { (snaps : Snaps) (ancestor id : ℕ) → IsMap nat_cmp snaps
        → is_ancestor_of snaps ancestor id ≡ true → id ≤ ancestor }
{}

/// A tree that was split is a tree, where all ids are above the new ones. Its updates give its records. Each new leaf goes
/// on with the chain of the old one, and all other chains stay.
pub fn splits_make_trees()
    ensures tree { (snaps : Snaps) (id next : ℕ) (leaf : ASnap) → IsSnapTree snaps
        → value_at nat_cmp id snaps ≡ Some leaf → 2 ≤ next → AllAbove next snaps
        → IsSnapTree (split_snaps snaps id next leaf) }
    ensures updates { (snaps : Snaps) (id next : ℕ) (split : ASplit)
        (is : IsSplit snaps id next split) → snaps_after snaps split.updates ≡ split_snaps snaps
        id next is.leaf }
    ensures source { (snaps : Snaps) (id next : ℕ) (leaf : ASnap) → IsSnapTree snaps
        → value_at nat_cmp id snaps ≡ Some leaf → 2 ≤ next → AllAbove next snaps
        → chain_of (split_snaps snaps id next leaf) next ≡ next ∷ chain_of snaps id }
    ensures copy { (snaps : Snaps) (id next : ℕ) (leaf : ASnap) → IsSnapTree snaps
        → value_at nat_cmp id snaps ≡ Some leaf → 2 ≤ next → AllAbove next snaps
        → chain_of (split_snaps snaps id next leaf) (next - 1) ≡ (next - 1) ∷ chain_of snaps id }
    ensures others { (snaps : Snaps) (id next : ℕ) (leaf : ASnap) → IsSnapTree snaps
        → value_at nat_cmp id snaps ≡ Some leaf → 2 ≤ next → AllAbove next snaps → (other : ℕ)
        → next < other → chain_of (split_snaps snaps id next leaf) other ≡ chain_of snaps other }
{}

/// The removal of an interior id with one child only drops it from chains.
pub fn removals_drop_one_id()
    ensures others { (snaps : Snaps) (id child : ℕ) (interior below : ASnap) → IsSnapTree snaps
        → HasOneChild snaps id child interior below → (other : ℕ) → ¬ (other ≡ id)
        → chain_of (removed_snaps snaps id child interior below) other ≡ but id
        (chain_of snaps other) }
    ensures gone { (snaps : Snaps) (id child : ℕ) (interior below : ASnap) → IsSnapTree snaps
        → HasOneChild snaps id child interior below
        → chain_of (removed_snaps snaps id child interior below) id ≡ [] }
{}

/// Going upwards over some ids, the first that is an ancestor is the first id of the chain that is one of them.
pub fn nearest_ancestor_is_first()
    ensures { (snaps : Snaps) (id : ℕ) (ids : List ℕ) → IsMap nat_cmp snaps
        → IsStrictlySortedBy nat_cmp ids → first_that
        (λ ancestor. is_ancestor_of snaps ancestor id) ids ≡ first_that (is_among ids)
        (chain_of snaps id) }
{}
