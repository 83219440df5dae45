ghost use Rattle.std.specs.Prelude.{◌≡◌, ◌≢◌, ◌-◌, ◌≤◌, ◌∷◌, [], ℕ, Some};
ghost use Rattle.std.specs.Ordering.{nat_cmp};
ghost use Rattle.id_steps.specs.Ids.{AreJoined, split_updates, with_dead, with_root};
ghost use Rattle.key_meaning.specs.Tidy.{AreKeysDrawn};
ghost use Rattle.key_meaning.specs.Visible.{snaps_of};
ghost use Rattle.snap_tree.specs.ChainLaws.{AllAbove};
ghost use Rattle.snap_tree.specs.Snaps.{Snaps, chain_of};
ghost use Rattle.snap_tree.specs.Splits.{snap_update, split_snaps};
ghost use Rattle.vol_types.specs.KeyMaps.{IsKeyMap, KeyMap, with_update, with_updates};
ghost use Rattle.vol_types.specs.Maps.{IsMap, value_at, with_value};
ghost use Rattle.vol_types.specs.declared.values.Snap.{Snap};
ghost use Rattle.vol_types.specs.declared.values.SnapState.TheVariants.{LiveLeaf};

/// A further root below all ids is in a tree by itself, and all other chains stay.
pub fn roots_stand_alone()
    ensures joined { (snaps : Snaps) (id : ℕ) → AreJoined snaps → id ≢ 0 → AllAbove id snaps
        → AreJoined (with_root id snaps) }
    ensures chain { (snaps : Snaps) (id : ℕ) → id ≢ 0 → AllAbove id snaps
        → chain_of (with_root id snaps) id ≡ id ∷ [] }
    ensures others { (snaps : Snaps) (id other : ℕ) → id ≢ 0 → AllAbove id snaps → other ≢ id
        → chain_of (with_root id snaps) other ≡ chain_of snaps other }
{}

/// Where a live leaf is split, ids stay joined, the chain of each new leaf goes on with that of the old one, and all others stay.
pub fn splits_stay_joined()
    ensures joined { (snaps : Snaps) (id next : ℕ) (leaf : Snap) → AreJoined snaps
        → value_at nat_cmp id snaps ≡ Some leaf → leaf.state ≡ LiveLeaf → 2 ≤ next
        → AllAbove next snaps → AreJoined (split_snaps snaps id next leaf) }
    ensures source { (snaps : Snaps) (id next : ℕ) (leaf : Snap) → IsMap nat_cmp snaps
        → value_at nat_cmp id snaps ≡ Some leaf → 2 ≤ next → AllAbove next snaps
        → chain_of (split_snaps snaps id next leaf) next ≡ next ∷ chain_of snaps id }
    ensures copy { (snaps : Snaps) (id next : ℕ) (leaf : Snap) → IsMap nat_cmp snaps
        → value_at nat_cmp id snaps ≡ Some leaf → 2 ≤ next → AllAbove next snaps
        → chain_of (split_snaps snaps id next leaf) (next - 1) ≡ (next - 1) ∷ chain_of snaps id }
    ensures others { (snaps : Snaps) (id next other : ℕ) (leaf : Snap) → IsMap nat_cmp snaps
        → value_at nat_cmp id snaps ≡ Some leaf → 2 ≤ next → AllAbove next snaps
        → other ≢ next → other ≢ next - 1
        → chain_of (split_snaps snaps id next leaf) other ≡ chain_of snaps other }
{}

/// Where a live leaf dies, ids stay joined, and all chains stay.
pub fn dead_leaves_stay()
    ensures joined { (snaps : Snaps) (id : ℕ) (leaf : Snap) → AreJoined snaps
        → value_at nat_cmp id snaps ≡ Some leaf → leaf.state ≡ LiveLeaf
        → AreJoined (with_dead id leaf snaps) }
    ensures chains { (snaps : Snaps) (id other : ℕ) (leaf : Snap) → IsMap nat_cmp snaps
        → value_at nat_cmp id snaps ≡ Some leaf
        → chain_of (with_dead id leaf snaps) other ≡ chain_of snaps other }
{}

/// The records of ids follow the updates of their keys: one that is put, and those of a split.
pub fn records_follow_updates()
    ensures put { (keys : KeyMap) (id : ℕ) (snap : Snap) → IsKeyMap keys → AreKeysDrawn keys
        → snaps_of (with_update (snap_update id snap) keys)
        ≡ with_value nat_cmp id snap (snaps_of keys) }
    ensures split { (keys : KeyMap) (id next : ℕ) (leaf : Snap) → IsKeyMap keys → AreKeysDrawn keys
        → snaps_of (with_updates (split_updates id next (next - 1) leaf) keys)
        ≡ split_snaps (snaps_of keys) id next leaf }
{}
