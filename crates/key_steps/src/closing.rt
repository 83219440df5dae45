ghost use Rattle.std.specs.Prelude.{◌≡◌, ◌+◌, ◌<◌, ◌==◌, ℕ, List, Option, Some, if◌then◌else◌, map, slice_index, slice_set, unwrap_or};
ghost use Rattle.std.specs.List.{range_with_len};
ghost use Rattle.key_meaning.specs.Checks.{IsSound};
ghost use Rattle.key_meaning.specs.Forest.{Read, counter_in, forest_in, next_in, sub_named, tree_of};
ghost use Rattle.key_meaning.specs.Tidy.{IsTidy};
ghost use Rattle.key_steps.specs.Good.{IsGoodShown};
ghost use Rattle.key_steps.specs.Shown.{AreDirectoriesOf, IsTreeOf, Shown};
ghost use Rattle.key_steps.specs.Steps.{Steps};
ghost use Rattle.plain_forest.specs.Forest.{Names, Tree};
ghost use Rattle.plain_forest.specs.Maps.{changed_at};
ghost use Rattle.vol_types.specs.KeyMaps.{IsKeyMap, KeyMap};
ghost use Rattle.vol_types.specs.Ranges.{name_cmp};
ghost use Rattle.vol_types.specs.declared.layout.Layout.{Layout};
ghost use Rattle.vol_types.specs.declared.pointers.Place.{Place};
ghost use Rattle.vol_types.specs.declared.values.Sub.{Sub};

/// Steps from sound and tidy keys to what is good in the id of a subvolume end in sound and tidy keys, which mean the forest
/// with the tree of this subvolume changed: where no counter was raised, all else of the forest stands, and where a client's was by
/// one, the forest's next number of this client is one more.
pub fn steps_end_in_good_trees()
    ensures sound { (keys new : KeyMap) (nodes : List Place) (layout : Layout) (name : List ℕ)
        (sub : Sub) (shown : Shown) (counters : ℕ → Option ℕ) (directories : List (ℕ × Names))
        → IsKeyMap keys → IsSound keys nodes layout → IsTidy keys
        → sub_named keys name ≡ Some sub → Steps keys new nodes layout sub.id shown counters
        → AreDirectoriesOf shown directories → IsGoodShown sub.root shown directories
        → IsSound new nodes layout × IsTidy new }
    ensures means { (keys new : KeyMap) (nodes : List Place) (layout : Layout) (name : List ℕ)
        (sub : Sub) (shown : Shown) (counters : ℕ → Option ℕ) (read : Read) (change : Tree → Tree)
        → IsSound keys nodes layout → sub_named keys name ≡ Some sub
        → Steps keys new nodes layout sub.id shown counters
        → IsTreeOf read sub shown (change (tree_of keys read sub))
        → forest_in new read ≡ record {
          subvolumes = changed_at name_cmp name change (forest_in keys read).subvolumes;
          next = map (λ client. unwrap_or (counters client) 0) (range_with_len 0 16);
          ids_left = unwrap_or (counters 16) 0;
        } }
    ensures uncounted { (keys new : KeyMap) (nodes : List Place) (layout : Layout) (name : List ℕ)
        (sub : Sub) (shown : Shown) (read : Read) (change : Tree → Tree)
        → IsSound keys nodes layout → sub_named keys name ≡ Some sub
        → Steps keys new nodes layout sub.id shown (counter_in keys)
        → IsTreeOf read sub shown (change (tree_of keys read sub))
        → forest_in new read ≡ record (forest_in keys read) {
          subvolumes = changed_at name_cmp name change (forest_in keys read).subvolumes;
        } }
    ensures counted { (keys new : KeyMap) (nodes : List Place) (layout : Layout) (name : List ℕ)
        (sub : Sub) (shown : Shown) (client : ℕ) (read : Read) (change : Tree → Tree) → client < 16
        → IsSound keys nodes layout → sub_named keys name ≡ Some sub
        → Steps keys new nodes layout sub.id shown
        (λ counter. if client == counter then Some (next_in keys client + 1) else counter_in keys counter)
        → IsTreeOf read sub shown (change (tree_of keys read sub))
        → forest_in new read ≡ record (forest_in keys read) {
          subvolumes = changed_at name_cmp name change (forest_in keys read).subvolumes;
          next = slice_set (forest_in keys read).next client (slice_index (forest_in keys read).next client + 1);
        } }
{}
