ghost use Rattle.std.specs.Prelude.{◌≡◌, ℕ, List, Option, Some};
ghost use Rattle.content_steps.specs.Steps.{ChangesContent, with_size};
ghost use Rattle.forest_ops.specs.Trees.{with_bytes};
ghost use Rattle.key_meaning.specs.Blocks.{Block};
ghost use Rattle.key_meaning.specs.Checks.{IsSound};
ghost use Rattle.key_meaning.specs.Forest.{Read, forest_in, sub_named};
ghost use Rattle.key_meaning.specs.Tidy.{IsTidy};
ghost use Rattle.key_triggers.specs.Expanding.{expanded};
ghost use Rattle.plain_forest.specs.Maps.{changed_at};
ghost use Rattle.vol_types.specs.KeyMaps.{IsKeyMap, KeyMap, with_updates};
ghost use Rattle.vol_types.specs.Ranges.{IsInode, name_cmp};
ghost use Rattle.vol_types.specs.declared.keys.Update.{Update};
ghost use Rattle.vol_types.specs.declared.layout.Layout.{Layout};
ghost use Rattle.vol_types.specs.declared.pointers.Place.{Place};
ghost use Rattle.vol_types.specs.declared.values.Inode.{Inode};
ghost use Rattle.vol_types.specs.declared.values.Sub.{Sub};

use key_steps::{inodes_are_steps, shown_numbers_are_drawn, steps_end_in_good_trees};
use key_triggers::expanded_keys_follow;
use shown_changes::subvolumes_begin_good;

/// Updates that change the content of a file of a subvolume, with one of its inode where its size is another one, end in sound and
/// tidy keys once those of the keys on space are added, and these keys mean the forest with the file's bytes changed.
pub fn contents_end_in_good_trees()
    ensures sized { (keys : KeyMap) (updates : List Update) (nodes : List Place) (layout : Layout)
        (read : Read) (name : List ℕ) (sub : Sub) (file size : ℕ) (old : Inode)
        (given : ℕ → Option (Option Block)) (change : List ℕ → List ℕ) → IsKeyMap keys
        → IsSound keys nodes layout → IsTidy keys → sub_named keys name ≡ Some sub
        → IsInode (record old { size = size })
        → ChangesContent keys updates nodes layout read sub file size old given change
        → let all = with_size keys sub.id file (record old { size = size }) updates in
        IsSound (with_updates all keys) nodes layout × IsTidy (with_updates all keys)
        × (forest_in (with_updates all keys) read ≡ record (forest_in keys read) {
          subvolumes = changed_at name_cmp name (with_bytes file change)
              (forest_in keys read).subvolumes;
        }) }
    ensures within { (keys : KeyMap) (updates : List Update) (nodes : List Place) (layout : Layout)
        (read : Read) (name : List ℕ) (sub : Sub) (file : ℕ) (old : Inode)
        (given : ℕ → Option (Option Block)) (change : List ℕ → List ℕ) → IsKeyMap keys
        → IsSound keys nodes layout → IsTidy keys → sub_named keys name ≡ Some sub
        → ChangesContent keys updates nodes layout read sub file old.size old given change
        → IsSound (with_updates (expanded keys updates) keys) nodes layout
        × IsTidy (with_updates (expanded keys updates) keys)
        × (forest_in (with_updates (expanded keys updates) keys) read
        ≡ record (forest_in keys read) {
          subvolumes = changed_at name_cmp name (with_bytes file change)
              (forest_in keys read).subvolumes;
        }) }
{
    expanded_keys_follow();
    inodes_are_steps();
    shown_numbers_are_drawn();
    steps_end_in_good_trees();
    subvolumes_begin_good();
}
