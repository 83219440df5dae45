ghost use Rattle.std.specs.Prelude.{◌≡◌, ◌-◌, ◌<◌, ◌≤◌, true, ℕ, List, None, Some};
ghost use Rattle.forest_ops.specs.Steps.{drawn, next_number};
ghost use Rattle.forest_ops.specs.Trees.{empty_tree};
ghost use Rattle.id_steps.specs.Entries.{PutsSub};
ghost use Rattle.id_steps.specs.Steps.{made_sub, made_updates};
ghost use Rattle.key_meaning.specs.Checks.{IsSound};
ghost use Rattle.key_meaning.specs.Forest.{Read, forest_in, next_in, sub_named, subs_in};
ghost use Rattle.key_meaning.specs.Tidy.{IsTidy, id_counter};
ghost use Rattle.plain_forest.specs.Names.{is_good_subvolume_name};
ghost use Rattle.plain_forest.specs.Steps.{numbers_per_client};
ghost use Rattle.vol_digest.specs.Digests.{slot_of};
ghost use Rattle.vol_types.specs.KeyMaps.{IsKeyMap, KeyMap, with_updates};
ghost use Rattle.vol_types.specs.Maps.{with_value};
ghost use Rattle.vol_types.specs.Ranges.{name_cmp};
ghost use Rattle.vol_types.specs.declared.layout.Layout.{Layout};
ghost use Rattle.vol_types.specs.declared.pointers.Place.{Place};
ghost use Rattle.vol_types.specs.declared.values.Sub.{Sub};

use key_steps::{shown_keys_mean_trees, sound_keys_are_kept_and_good};

/// A subvolume that a client makes: a new id is a root by itself, in which an empty directory of the client's next number is put, and
/// its entry leads to both; the number and the id are drawn. Sound and tidy keys stay so, and mean the forest with an empty tree.
pub fn subvolumes_are_made()
    ensures sound { (keys : KeyMap) (nodes : List Place) (layout : Layout) (client : ℕ)
        (name : List ℕ) (subs : List Sub) → IsKeyMap keys → IsSound keys nodes layout
        → IsTidy keys → client < 16 → next_in keys client < numbers_per_client
        → 1 ≤ next_in keys id_counter → is_good_subvolume_name name ≡ true
        → sub_named keys name ≡ None
        → PutsSub name (Some (made_sub keys client name)) (subs_in keys (slot_of name)) subs
        → IsSound (with_updates (made_updates keys client name subs) keys) nodes layout
        × IsTidy (with_updates (made_updates keys client name subs) keys) }
    ensures means { (keys : KeyMap) (nodes : List Place) (layout : Layout) (client : ℕ)
        (name : List ℕ) (subs : List Sub) (read : Read) → IsKeyMap keys
        → IsSound keys nodes layout → IsTidy keys → client < 16
        → next_in keys client < numbers_per_client → 1 ≤ next_in keys id_counter
        → is_good_subvolume_name name ≡ true → sub_named keys name ≡ None
        → PutsSub name (Some (made_sub keys client name)) (subs_in keys (slot_of name)) subs
        → forest_in (with_updates (made_updates keys client name subs) keys) read
        ≡ record (drawn client (forest_in keys read)) {
          subvolumes = with_value name_cmp name
              (empty_tree (next_number client (forest_in keys read))) (forest_in keys read).subvolumes;
          ids_left = (forest_in keys read).ids_left - 1;
        } }
{
    shown_keys_mean_trees();
    sound_keys_are_kept_and_good();
}
