ghost use Rattle.std.specs.Prelude.{◌≡◌, ◌-◌, ◌≤◌, Bool, true, ℕ, List, None, Some};
ghost use Rattle.std.specs.Ordering.{nat_cmp};
ghost use Rattle.id_steps.specs.Entries.{PutsSub};
ghost use Rattle.id_steps.specs.Steps.{copied_to, moved_to, slot_then, snapshot_updates};
ghost use Rattle.key_meaning.specs.Checks.{IsSound};
ghost use Rattle.key_meaning.specs.Forest.{Read, forest_in, next_in, sub_named, subs_in, tree_of};
ghost use Rattle.key_meaning.specs.Tidy.{IsTidy, id_counter};
ghost use Rattle.key_meaning.specs.Visible.{snaps_of};
ghost use Rattle.plain_forest.specs.Names.{is_good_subvolume_name};
ghost use Rattle.vol_digest.specs.Digests.{slot_of};
ghost use Rattle.vol_types.specs.KeyMaps.{IsKeyMap, KeyMap, with_updates};
ghost use Rattle.vol_types.specs.Maps.{value_at, with_value};
ghost use Rattle.vol_types.specs.Ranges.{name_cmp};
ghost use Rattle.vol_types.specs.declared.layout.Layout.{Layout};
ghost use Rattle.vol_types.specs.declared.pointers.Place.{Place};
ghost use Rattle.vol_types.specs.declared.values.Snap.{Snap};
ghost use Rattle.vol_types.specs.declared.values.Sub.{Sub};

use key_steps::{shown_numbers_are_drawn, sound_keys_are_kept_and_good};

/// A snapshot of a subvolume: its leaf is split, it goes on in the greater new id, and the copy has the smaller one, the same root,
/// and a lock of its own; two ids are drawn, and no other key changes, whatever the tree holds. Sound and tidy keys stay so, and
/// mean the forest with the copy, whose tree is the source's.
pub fn snapshots_are_made()
    ensures sound { (keys : KeyMap) (nodes : List Place) (layout : Layout) (source copy : List ℕ)
        (sub : Sub) (leaf : Snap) (locked : Bool) (sources copies : List Sub) → IsKeyMap keys
        → IsSound keys nodes layout → IsTidy keys → sub_named keys source ≡ Some sub
        → value_at nat_cmp sub.id (snaps_of keys) ≡ Some leaf → 2 ≤ next_in keys id_counter
        → is_good_subvolume_name copy ≡ true → sub_named keys copy ≡ None
        → PutsSub source (Some (moved_to (next_in keys id_counter) sub))
        (subs_in keys (slot_of source)) sources
        → PutsSub copy (Some (copied_to (next_in keys id_counter - 1) copy locked sub))
        (slot_then keys source copy sources) copies
        → IsSound (with_updates (snapshot_updates keys sub leaf source copy sources copies) keys)
        nodes layout
        × IsTidy (with_updates (snapshot_updates keys sub leaf source copy sources copies) keys) }
    ensures means { (keys : KeyMap) (nodes : List Place) (layout : Layout) (source copy : List ℕ)
        (sub : Sub) (leaf : Snap) (locked : Bool) (sources copies : List Sub) (read : Read)
        → IsKeyMap keys → IsSound keys nodes layout → IsTidy keys
        → sub_named keys source ≡ Some sub
        → value_at nat_cmp sub.id (snaps_of keys) ≡ Some leaf → 2 ≤ next_in keys id_counter
        → is_good_subvolume_name copy ≡ true → sub_named keys copy ≡ None
        → PutsSub source (Some (moved_to (next_in keys id_counter) sub))
        (subs_in keys (slot_of source)) sources
        → PutsSub copy (Some (copied_to (next_in keys id_counter - 1) copy locked sub))
        (slot_then keys source copy sources) copies
        → forest_in (with_updates (snapshot_updates keys sub leaf source copy sources copies) keys)
        read ≡ record (forest_in keys read) {
          subvolumes = with_value name_cmp copy (record (tree_of keys read sub) { locked = locked })
              (forest_in keys read).subvolumes;
          ids_left = (forest_in keys read).ids_left - 2;
        } }
{
    shown_numbers_are_drawn();
    sound_keys_are_kept_and_good();
}
