ghost use Rattle.std.specs.Prelude.{◌≡◌, ℕ, List, None, Some};
ghost use Rattle.forest_ops.specs.Trees.{Place as NamePlace};
ghost use Rattle.key_meaning.specs.Checks.{IsLiveLeaf, IsSound};
ghost use Rattle.key_meaning.specs.Forest.{Read, kind_in, link_named, links_in, sub_named, tree_of};
ghost use Rattle.key_meaning.specs.Numbers.{IsUnused};
ghost use Rattle.key_meaning.specs.Tidy.{IsTidy};
ghost use Rattle.key_steps.specs.Kept.{IsKept};
ghost use Rattle.key_steps.specs.Shown.{AreNamesApart, shown_in};
ghost use Rattle.shown_changes.specs.Changes.{MeansGoodTree};
ghost use Rattle.tree_changes.specs.Trees.{IsFreeName, IsNameAt, IsNewNumber};
ghost use Rattle.vol_digest.specs.Digests.{slot_of};
ghost use Rattle.vol_types.specs.KeyMaps.{IsKeyMap, KeyMap};
ghost use Rattle.vol_types.specs.declared.layout.Layout.{Layout};
ghost use Rattle.vol_types.specs.declared.pointers.Place.{Place};
ghost use Rattle.vol_types.specs.declared.values.FileKind.TheVariants.{Directory};
ghost use Rattle.vol_types.specs.declared.values.Link.{Link};
ghost use Rattle.vol_types.specs.declared.values.Sub.{Sub};

use key_steps::{kept_names_are_apart, shown_keys_mean_trees, sound_keys_are_kept_and_good};

/// Where an operation begins: sound and tidy keys are kept, the id of a subvolume is a live leaf, what shows there is good and means
/// the subvolume's tree, and its names differ.
pub fn subvolumes_begin_good()
    ensures kept { (keys : KeyMap) (nodes : List Place) (layout : Layout) → IsKeyMap keys
        → IsSound keys nodes layout → IsTidy keys → IsKept keys nodes layout }
    ensures leaf { (keys : KeyMap) (nodes : List Place) (layout : Layout) (name : List ℕ) (sub : Sub)
        → IsSound keys nodes layout → sub_named keys name ≡ Some sub → IsLiveLeaf keys sub.id }
    ensures good { (keys : KeyMap) (nodes : List Place) (layout : Layout) (name : List ℕ) (sub : Sub)
        → IsKeyMap keys → IsSound keys nodes layout → IsTidy keys → sub_named keys name ≡ Some sub
        → (read : Read) → MeansGoodTree read sub (shown_in keys sub.id) (tree_of keys read sub) }
    ensures apart { (keys : KeyMap) (nodes : List Place) (layout : Layout) → IsKeyMap keys
        → IsSound keys nodes layout → IsTidy keys → (id : ℕ) → AreNamesApart (shown_in keys id) }
{
    kept_names_are_apart();
    shown_keys_mean_trees();
    sound_keys_are_kept_and_good();
}

/// A name that doesn't show in a directory is free in the tree, and one that shows stands there; of a number that no key names
/// nothing shows, and it is new in the tree.
pub fn places_stand_in_trees()
    ensures free { (keys : KeyMap) (read : Read) (sub : Sub) (place : NamePlace)
        → kind_in keys sub.id place.directory ≡ Some Directory
        → link_named place.name (links_in keys sub.id place.directory (slot_of place.name)) ≡ None
        → IsFreeName place (tree_of keys read sub) }
    ensures there { (keys : KeyMap) (read : Read) (sub : Sub) (place : NamePlace) (link : Link)
        → kind_in keys sub.id place.directory ≡ Some Directory
        → link_named place.name (links_in keys sub.id place.directory (slot_of place.name)) ≡ Some link
        → link.number ≡ place.number → IsNameAt place (tree_of keys read sub) }
    ensures unused { (keys : KeyMap) (read : Read) (sub : Sub) (number : ℕ) → IsUnused keys number
        → IsNewNumber (tree_of keys read sub) number
        × ((shown_in keys sub.id).inodes number ≡ None)
        × ((block : ℕ) → (shown_in keys sub.id).blocks number block ≡ None) }
{}
