ghost use Rattle.std.specs.Prelude.{◌≡◌, ◌≢◌, ◌-◌, ◌≤◌, ℕ, None, Some};
ghost use Rattle.std.specs.Ordering.{nat_cmp};
ghost use Rattle.id_steps.specs.Changes.{ShowsNothing};
ghost use Rattle.id_steps.specs.Ids.{with_dead, with_root};
ghost use Rattle.key_meaning.specs.Alike.{HasNoKeys, HaveSameFiles, ShowAlike};
ghost use Rattle.key_meaning.specs.Checks.{AreExtentsApart};
ghost use Rattle.key_meaning.specs.Forest.{next_in};
ghost use Rattle.key_meaning.specs.Tidy.{AreKeysDrawn, id_counter};
ghost use Rattle.key_meaning.specs.Visible.{snaps_of};
ghost use Rattle.snap_tree.specs.ChainLaws.{AllAbove};
ghost use Rattle.snap_tree.specs.Splits.{split_snaps};
ghost use Rattle.vol_types.specs.KeyMaps.{KeyMap};
ghost use Rattle.vol_types.specs.Maps.{value_at};
ghost use Rattle.vol_types.specs.declared.values.Snap.{Snap};

/// All ids are above the counter of ids: one up to it isn't there, has no keys of files, and shows nothing.
pub fn fresh_ids_have_no_keys()
    ensures above { (keys : KeyMap) → AreKeysDrawn keys
        → AllAbove (next_in keys id_counter) (snaps_of keys) }
    ensures none { (keys : KeyMap) (id : ℕ) → AreKeysDrawn keys → id ≤ next_in keys id_counter
        → value_at nat_cmp id (snaps_of keys) ≡ None }
    ensures keyless { (keys : KeyMap) (id : ℕ) → AreKeysDrawn keys → AreExtentsApart keys
        → id ≤ next_in keys id_counter → HasNoKeys keys id }
    ensures nothing { (keys : KeyMap) (id : ℕ) → AreKeysDrawn keys → id ≤ next_in keys id_counter
        → ShowsNothing keys id }
{}

/// Where a leaf is split and no key of a file changes, both new leaves show what the old one showed, and all other ids, the old one
/// among them, what they showed.
pub fn split_leaves_show_alike()
    ensures source { (keys new : KeyMap) (id : ℕ) (leaf : Snap) → AreKeysDrawn keys
        → AreExtentsApart keys → value_at nat_cmp id (snaps_of keys) ≡ Some leaf
        → 2 ≤ next_in keys id_counter → HaveSameFiles new keys
        → snaps_of new ≡ split_snaps (snaps_of keys) id (next_in keys id_counter) leaf
        → ShowAlike new (next_in keys id_counter) keys id }
    ensures copy { (keys new : KeyMap) (id : ℕ) (leaf : Snap) → AreKeysDrawn keys
        → AreExtentsApart keys → value_at nat_cmp id (snaps_of keys) ≡ Some leaf
        → 2 ≤ next_in keys id_counter → HaveSameFiles new keys
        → snaps_of new ≡ split_snaps (snaps_of keys) id (next_in keys id_counter) leaf
        → ShowAlike new (next_in keys id_counter - 1) keys id }
    ensures others { (keys new : KeyMap) (id other : ℕ) (leaf : Snap) → AreKeysDrawn keys
        → AreExtentsApart keys → value_at nat_cmp id (snaps_of keys) ≡ Some leaf
        → 2 ≤ next_in keys id_counter → HaveSameFiles new keys
        → snaps_of new ≡ split_snaps (snaps_of keys) id (next_in keys id_counter) leaf
        → other ≢ next_in keys id_counter → other ≢ next_in keys id_counter - 1
        → ShowAlike new other keys other }
{}

/// Where there is a new root, or a leaf has died, and no key of a file changes, all ids show what they showed: the new root nothing.
pub fn other_ids_show_alike()
    ensures root { (keys new : KeyMap) → AreKeysDrawn keys → AreExtentsApart keys
        → 1 ≤ next_in keys id_counter → HaveSameFiles new keys
        → snaps_of new ≡ with_root (next_in keys id_counter) (snaps_of keys)
        → (id : ℕ) → ShowAlike new id keys id }
    ensures dead { (keys new : KeyMap) (id : ℕ) (leaf : Snap) → AreExtentsApart keys
        → value_at nat_cmp id (snaps_of keys) ≡ Some leaf → HaveSameFiles new keys
        → snaps_of new ≡ with_dead id leaf (snaps_of keys)
        → (other : ℕ) → ShowAlike new other keys other }
{}
