ghost use Rattle.std.specs.Ordering.{nat_cmp};
ghost use Rattle.std.specs.Prelude.{◌≡◌, ◌==◌, ◌↔◌, ◌++◌, [], false, true, ℕ, All, List, None, Option, Some, length, map, option_map};
ghost use Rattle.dirent_keys.specs.Links.{names_value, with_link, without_name};
ghost use Rattle.dirent_keys.specs.Moves.{IsMove, check_move, share_slot, shown_moved, step_to_move, updates_to_move};
ghost use Rattle.dirent_keys.specs.Names.{SeesName, Target, has_name, refusal_of, step_to_add, updates_to_add, updates_to_remove};
ghost use Rattle.dirent_keys.specs.Slots.{IsBare};
ghost use Rattle.dirent_keys.specs.declared.step.NameStep.TheVariants.{Done};
ghost use Rattle.key_meaning.specs.Changes.{ChangesName, ChangesOnly, StaysIn};
ghost use Rattle.key_meaning.specs.Checks.{AreNamesJoined, IsLiveLeaf};
ghost use Rattle.key_meaning.specs.Forest.{Read, counter_in, directories_in, files_in, kind_in, link_named, links_in, names_in, number_in};
ghost use Rattle.key_steps.specs.Kept.{IsKept};
ghost use Rattle.key_steps.specs.Names.{AddsName, TakesName};
ghost use Rattle.key_steps.specs.Steps.{IsNewLink, Steps};
ghost use Rattle.key_view.specs.Changes.{updates_to_see};
ghost use Rattle.key_meaning.specs.Tidy.{AreKeysDrawn};
ghost use Rattle.key_meaning.specs.Visible.{visible};
ghost use Rattle.plain_forest.specs.Maps.{changed_at};
ghost use Rattle.plain_forest.specs.Steps.{check_name, count_in_slot};
ghost use Rattle.vol_digest.specs.Digests.{slot_of};
ghost use Rattle.vol_types.specs.KeyMaps.{KeyMap, with_updates};
ghost use Rattle.vol_types.specs.Maps.{put_at};
ghost use Rattle.vol_types.specs.Ranges.{IsKeyValue, IsName, Rise, name_cmp};
ghost use Rattle.vol_types.specs.declared.keys.Update.{Update};
ghost use Rattle.vol_types.specs.declared.layout.Layout.{Layout};
ghost use Rattle.vol_types.specs.declared.pointers.Place.{Place};
ghost use Rattle.vol_types.specs.declared.positions.Btree.{Btree};
ghost use Rattle.vol_types.specs.declared.positions.Btree.TheVariants.{Dirents};
ghost use Rattle.vol_types.specs.declared.values.FileKind.TheVariants.{Directory};
ghost use Rattle.vol_types.specs.declared.values.Link.{Link};

use key_steps::{names_are_steps, steps_follow_each_other};

/// Where an id sees a name lead elsewhere, or nowhere, the directory of that number has it put or removed in the id's tree, and
/// nothing else in the tree changes. The updates that add or remove a name stay in their id.
pub fn directories_take_names()
    ensures only { (old new : KeyMap) (id directory : ℕ) (name : List ℕ) (target : Option Target)
        → SeesName old new id directory name target → ChangesOnly old new id }
    ensures name { (old new : KeyMap) (id directory : ℕ) (name : List ℕ) (target : Option Target)
        → SeesName old new id directory name target → ChangesName old new id directory name }
    ensures number { (old new : KeyMap) (id directory : ℕ) (name : List ℕ) (target : Option Target)
        → SeesName old new id directory name target
        → number_in new id directory name ≡ option_map (λ (leads : Target). leads.0) target }
    ensures names { (old new : KeyMap) (id directory : ℕ) (name : List ℕ) (target : Option Target)
        → SeesName old new id directory name target → names_in new id directory
        ≡ put_at name_cmp name (option_map (λ (leads : Target). leads.0) target)
        (names_in old id directory) }
    ensures directories { (old new : KeyMap) (id directory : ℕ) (name : List ℕ)
        (target : Option Target) → SeesName old new id directory name target
        → directories_in new id ≡ changed_at nat_cmp directory
        (put_at name_cmp name (option_map (λ (leads : Target). leads.0) target))
        (directories_in old id) }
    ensures files { (old new : KeyMap) (id directory : ℕ) (name : List ℕ) (target : Option Target)
        → SeesName old new id directory name target → (read : Read)
        → files_in new read id ≡ files_in old read id }
    ensures added { (keys : KeyMap) (id directory : ℕ) (link : Link)
        → All (StaysIn id) (updates_to_add keys id directory link) }
    ensures removed { (keys : KeyMap) (id directory : ℕ) (name : List ℕ)
        → All (StaysIn id) (updates_to_remove keys id directory name) }
{}

/// Adding a name is refused exactly where the forest refuses it, and as the forest does, where the names that show under the
/// slot rise and stand under theirs, as in a sound volume.
pub fn names_are_refused_alike()
    ensures counted { (keys : KeyMap) (id directory slot : ℕ)
        → Rise name_cmp (map (λ link. link.name) (links_in keys id directory slot))
        → All (λ link. slot_of link.name ≡ slot) (links_in keys id directory slot)
        → count_in_slot slot (names_in keys id directory) ≡ length
        (links_in keys id directory slot) }
    ensures refused { (keys : KeyMap) (id directory : ℕ) (link : Link)
        → Rise name_cmp (map (λ l. l.name) (links_in keys id directory (slot_of link.name)))
        → All (λ l. slot_of l.name ≡ slot_of link.name)
        (links_in keys id directory (slot_of link.name))
        → check_name link.name (names_in keys id directory) ≡ refusal_of
        (step_to_add keys id directory link) }
{}

/// So it is in each live leaf of a sound volume whose keys are in range; and what shows there is in range.
pub fn sound_names_are_refused_alike()
    ensures in_range { (keys : KeyMap) → AreKeysDrawn keys → (btree : Btree) (inode offset id : ℕ)
        → IsKeyValue (visible keys btree inode offset id) }
    ensures refused { (keys : KeyMap) (id directory : ℕ) (link : Link) → AreKeysDrawn keys
        → AreNamesJoined keys → IsLiveLeaf keys id
        → check_name link.name (names_in keys id directory) ≡ refusal_of
        (step_to_add keys id directory link) }
{}

/// A further name among those of a slot is added to them, and one that goes is taken from them.
pub fn links_are_added_and_taken()
    ensures added { (link : Link) (links : List Link) → link_named link.name links ≡ None
        → AddsName link links (with_link link links) }
    ensures taken { (name : List ℕ) (links : List Link) → TakesName name links (without_name name links) }
{}

/// A directory is bare in a live leaf of joined names exactly where it has no names there.
pub fn bare_directories_have_no_names()
    ensures { (keys : KeyMap) (id directory : ℕ) → AreNamesJoined keys → IsLiveLeaf keys id
        → IsBare keys id directory ↔ (names_in keys id directory ≡ []) }
{}

/// A name that moves to one that doesn't show is taken from the names of its slot, and the new one is added to those of its slot:
/// to what the first change left, by one update, where both stand under one slot, and else by the updates of each.
pub fn moved_names_are_taken_and_added()
    ensures within { (keys : KeyMap) (id from : ℕ) (name : List ℕ) (to : ℕ) (link : Link)
        → share_slot from name to link.name ≡ true → has_name keys id to link.name ≡ false
        → (updates_to_move keys id from name to link ≡ updates_to_see keys Dirents to (slot_of link.name) id
        (names_value (with_link link (without_name name (links_in keys id to (slot_of link.name))))))
        × TakesName name (links_in keys id to (slot_of link.name))
        (without_name name (links_in keys id to (slot_of link.name)))
        × AddsName link (without_name name (links_in keys id to (slot_of link.name)))
        (with_link link (without_name name (links_in keys id to (slot_of link.name)))) }
    ensures between { (keys : KeyMap) (id from : ℕ) (name : List ℕ) (to : ℕ) (link : Link)
        → share_slot from name to link.name ≡ false → has_name keys id to link.name ≡ false
        → (updates_to_move keys id from name to link
        ≡ updates_to_remove keys id from name ++ updates_to_add keys id to link)
        × TakesName name (links_in keys id from (slot_of name))
        (without_name name (links_in keys id from (slot_of name)))
        × AddsName link (links_in keys id to (slot_of link.name))
        (with_link link (links_in keys id to (slot_of link.name))) }
{}

/// A name that moves in a live leaf is a step, whether under one slot of one directory or between two. What shows then is what shows
/// once the new name was added, and then the old one taken from the names that show then, which are those of the same slot where
/// the slots of both are one: so trees are judged.
pub fn moves_are_steps()
    ensures { (keys : KeyMap) (nodes : List Place) (layout : Layout) (id from : ℕ) (name : List ℕ)
        (to : ℕ) (link : Link) (updates : List Update)
        → IsKept keys nodes layout → IsLiveLeaf keys id → kind_in keys id from ≡ Some Directory
        → kind_in keys id to ≡ Some Directory → IsNewLink keys link → IsName link.name
        → IsMove keys id from name to link.name
        → step_to_move keys id from name to link ≡ Done updates
        → Steps keys (with_updates updates keys) nodes layout id
        (shown_moved keys id from name to link) (counter_in keys) }
{
    names_are_steps();
    steps_follow_each_other();
}

/// A name that moves in a live leaf of a sound volume whose keys are in range is refused exactly where the forest refuses it, and as
/// the forest does.
pub fn moves_are_refused_alike()
    ensures { (keys : KeyMap) (id from : ℕ) (name : List ℕ) (to : ℕ) (link : Link)
        → AreKeysDrawn keys → AreNamesJoined keys → IsLiveLeaf keys id
        → check_move (from == to) name link.name (names_in keys id to) ≡ refusal_of
        (step_to_move keys id from name to link) }
{}
