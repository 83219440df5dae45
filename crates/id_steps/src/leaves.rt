ghost use Rattle.std.specs.Prelude.{◌≡◌, ◌+◌, ◌≤◌, ℕ, List, Some, length};
ghost use Rattle.std.specs.Ordering.{nat_cmp};
ghost use Rattle.forest_ops.specs.Names.{count_in_slot};
ghost use Rattle.id_steps.specs.Ids.{with_dead, with_root};
ghost use Rattle.key_meaning.specs.Checks.{IsSound};
ghost use Rattle.key_meaning.specs.Forest.{Read, all_subs, forest_in, subs_in};
ghost use Rattle.key_meaning.specs.Tidy.{IsTidy};
ghost use Rattle.key_meaning.specs.Visible.{snaps_of};
ghost use Rattle.snap_tree.specs.ChainLaws.{AllAbove};
ghost use Rattle.snap_tree.specs.Snaps.{Snaps, live_leaves};
ghost use Rattle.snap_tree.specs.Splits.{split_snaps};
ghost use Rattle.vol_types.specs.KeyMaps.{IsKeyMap, KeyMap};
ghost use Rattle.vol_types.specs.Maps.{IsMap, value_at};
ghost use Rattle.vol_types.specs.declared.layout.Layout.{Layout};
ghost use Rattle.vol_types.specs.declared.pointers.Place.{Place};
ghost use Rattle.vol_types.specs.declared.values.Snap.{Snap};
ghost use Rattle.vol_types.specs.declared.values.SnapState.TheVariants.{LiveLeaf};

/// In sound and tidy keys there are as many live leaves as subvolumes, in the keys and in the forest that they mean.
pub fn live_leaves_are_subvolumes()
    ensures keys { (keys : KeyMap) (nodes : List Place) (layout : Layout) → IsSound keys nodes layout
        → live_leaves (snaps_of keys) ≡ length (all_subs keys) }
    ensures forest { (keys : KeyMap) (nodes : List Place) (layout : Layout) (read : Read)
        → IsKeyMap keys → IsSound keys nodes layout → IsTidy keys
        → live_leaves (snaps_of keys) ≡ length (forest_in keys read).subvolumes }
{}

/// In sound and tidy keys as many names of the forest's subvolumes have a slot as the slot's entry holds.
pub fn slots_are_counted()
    ensures { (keys : KeyMap) (nodes : List Place) (layout : Layout) (read : Read) (slot : ℕ)
        → IsKeyMap keys → IsSound keys nodes layout → IsTidy keys
        → count_in_slot slot (forest_in keys read).subvolumes ≡ length (subs_in keys slot) }
{}

/// There is one live leaf more with a new root and after a split, and one less after a live leaf has died.
pub fn live_leaves_are_counted()
    ensures root { (snaps : Snaps) (id : ℕ) → IsMap nat_cmp snaps → AllAbove id snaps
        → live_leaves (with_root id snaps) ≡ live_leaves snaps + 1 }
    ensures split { (snaps : Snaps) (id next : ℕ) (leaf : Snap) → IsMap nat_cmp snaps
        → value_at nat_cmp id snaps ≡ Some leaf → leaf.state ≡ LiveLeaf → 2 ≤ next
        → AllAbove next snaps
        → live_leaves (split_snaps snaps id next leaf) ≡ live_leaves snaps + 1 }
    ensures dead { (snaps : Snaps) (id : ℕ) (leaf : Snap) → IsMap nat_cmp snaps
        → value_at nat_cmp id snaps ≡ Some leaf → leaf.state ≡ LiveLeaf
        → live_leaves (with_dead id leaf snaps) + 1 ≡ live_leaves snaps }
{}
