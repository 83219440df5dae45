ghost use Rattle.std.specs.Prelude.{◌≡◌, ℕ, List, None, Some};
ghost use Rattle.std.specs.Ordering.{nat_cmp};
ghost use Rattle.id_steps.specs.Entries.{PutsSub};
ghost use Rattle.id_steps.specs.Steps.{removal_updates};
ghost use Rattle.key_meaning.specs.Checks.{IsSound};
ghost use Rattle.key_meaning.specs.Forest.{Read, forest_in, sub_named, subs_in};
ghost use Rattle.key_meaning.specs.Tidy.{IsTidy};
ghost use Rattle.key_meaning.specs.Visible.{snaps_of};
ghost use Rattle.vol_digest.specs.Digests.{slot_of};
ghost use Rattle.vol_types.specs.KeyMaps.{IsKeyMap, KeyMap, with_updates};
ghost use Rattle.vol_types.specs.Maps.{value_at, without};
ghost use Rattle.vol_types.specs.Ranges.{name_cmp};
ghost use Rattle.vol_types.specs.declared.layout.Layout.{Layout};
ghost use Rattle.vol_types.specs.declared.pointers.Place.{Place};
ghost use Rattle.vol_types.specs.declared.values.Snap.{Snap};
ghost use Rattle.vol_types.specs.declared.values.Sub.{Sub};

use key_steps::{shown_numbers_are_drawn, sound_keys_are_kept_and_good};

/// A subvolume that is removed: its leaf dies, its slot has the others, and no other key changes. Sound and tidy keys stay so, and
/// mean the forest without it.
pub fn subvolumes_are_removed()
    ensures sound { (keys : KeyMap) (nodes : List Place) (layout : Layout) (name : List ℕ)
        (sub : Sub) (leaf : Snap) (left : List Sub) → IsKeyMap keys → IsSound keys nodes layout
        → IsTidy keys → sub_named keys name ≡ Some sub
        → value_at nat_cmp sub.id (snaps_of keys) ≡ Some leaf
        → PutsSub name None (subs_in keys (slot_of name)) left
        → IsSound (with_updates (removal_updates name sub leaf left) keys) nodes layout
        × IsTidy (with_updates (removal_updates name sub leaf left) keys) }
    ensures means { (keys : KeyMap) (nodes : List Place) (layout : Layout) (name : List ℕ)
        (sub : Sub) (leaf : Snap) (left : List Sub) (read : Read) → IsKeyMap keys
        → IsSound keys nodes layout → IsTidy keys → sub_named keys name ≡ Some sub
        → value_at nat_cmp sub.id (snaps_of keys) ≡ Some leaf
        → PutsSub name None (subs_in keys (slot_of name)) left
        → forest_in (with_updates (removal_updates name sub leaf left) keys) read
        ≡ record (forest_in keys read) {
          subvolumes = without name_cmp name (forest_in keys read).subvolumes;
        } }
{
    shown_numbers_are_drawn();
    sound_keys_are_kept_and_good();
}
