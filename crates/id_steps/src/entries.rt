ghost use Rattle.std.specs.Prelude.{◌≡◌, ◌+◌, ◌<◌, Bool, false, ℕ, IsSome, List, None, Option, Some, count_by, if◌then◌else◌, length};
ghost use Rattle.std.specs.Option.{option_to_list};
ghost use Rattle.std.specs.Ordering.{is_eq};
ghost use Rattle.id_steps.specs.Entries.{PutsSub, sub_of, subs_update, subs_value};
ghost use Rattle.id_steps.specs.SlotLists.{with_other_sub, with_sub, without_sub};
ghost use Rattle.key_meaning.specs.Forest.{Read, all_subs, forest_in, sub_named, subs_in, tree_named};
ghost use Rattle.key_meaning.specs.SoundLaws.{IsIn};
ghost use Rattle.key_meaning.specs.Tidy.{AreKeysDrawn, AreNamesGood};
ghost use Rattle.vol_digest.specs.Digests.{slot_of};
ghost use Rattle.vol_types.specs.KeyMaps.{IsKeyMap, KeyMap, with_update};
ghost use Rattle.vol_types.specs.Maps.{put_at};
ghost use Rattle.vol_types.specs.Ranges.{IsKeyValue, IsName, name_cmp};
ghost use Rattle.vol_types.specs.declared.values.Sub.{Sub};

/// Where the slot of a name gets other subvolumes, the name has the one that was put, or none, and each other name what it had. As
/// many subvolumes pass a test as did, without the one that the name had and with the one that it has. There is one list that the
/// slot may get, at most.
pub fn entries_put_subvolumes()
    ensures found { (keys : KeyMap) (name : List ℕ) (sub : Option Sub) (subs : List Sub)
        → IsKeyMap keys → PutsSub name sub (subs_in keys (slot_of name)) subs → (other : List ℕ)
        → sub_named (with_update (subs_update (slot_of name) subs) keys) other
        ≡ (if is_eq (name_cmp name other) then sub else sub_named keys other) }
    ensures counted { (keys : KeyMap) (name : List ℕ) (sub : Option Sub) (subs : List Sub)
        → IsKeyMap keys → AreKeysDrawn keys → PutsSub name sub (subs_in keys (slot_of name)) subs
        → (test : Sub → Bool)
        → count_by test (all_subs (with_update (subs_update (slot_of name) subs) keys))
        + count_by test (option_to_list (sub_named keys name))
        ≡ count_by test (all_subs keys) + count_by test (option_to_list sub) }
    ensures only { (name : List ℕ) (sub : Option Sub) (old one other : List Sub)
        → PutsSub name sub old one → PutsSub name sub old other → one ≡ other }
{}

/// Each subvolume is found by its name, and where all other names have the trees that they had, the forest has the one of a name put,
/// or taken away where it has none.
pub fn each_subvolume_is_named()
    ensures found { (keys : KeyMap) (sub : Sub) → IsKeyMap keys → AreKeysDrawn keys
        → AreNamesGood keys → IsIn sub (all_subs keys) → sub_named keys sub.name ≡ Some sub }
    ensures forest { (keys new : KeyMap) (read : Read) (name : List ℕ)
        → ((other : List ℕ) → is_eq (name_cmp name other) ≡ false
        → tree_named new read other ≡ tree_named keys read other)
        → (forest_in new read).subvolumes
        ≡ put_at name_cmp name (tree_named new read name) (forest_in keys read).subvolumes }
{}

/// The lists that a slot gets where a further subvolume is put in the order of names, where another one of its name is put in its
/// place, and where one is taken away, are those that its names come to have.
pub fn slots_take_subvolumes()
    ensures added { (sub : Sub) (subs : List Sub) → IsKeyValue (subs_value subs) → IsName sub.name
        → length subs < 8 → sub_of sub.name subs ≡ None
        → PutsSub sub.name (Some sub) subs (with_sub sub subs) }
    ensures changed { (sub : Sub) (subs : List Sub) → IsKeyValue (subs_value subs)
        → IsSome (sub_of sub.name subs)
        → PutsSub sub.name (Some sub) subs (with_other_sub sub subs) }
    ensures removed { (name : List ℕ) (subs : List Sub) → IsKeyValue (subs_value subs)
        → PutsSub name None subs (without_sub name subs) }
{}
