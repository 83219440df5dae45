ghost use Rattle.std.specs.Prelude.{◌≡◌, ◌+◌, ◌-◌, ◌==◌, ℕ, List, None, Some, [], if◌then◌else◌};
ghost use Rattle.std.specs.Ordering.{nat_cmp};
ghost use Rattle.forest_ops.specs.Trees.{Place, moved, unlinked, with_directory, with_file, with_name, without_directory};
ghost use Rattle.key_meaning.specs.Forest.{Read};
ghost use Rattle.key_steps.specs.Shown.{AreNamesApart, Shown, kind_of, with_inode, with_links};
ghost use Rattle.plain_forest.specs.Forest.{Tree};
ghost use Rattle.key_steps.specs.Names.{AddsName, TakesName};
ghost use Rattle.shown_changes.specs.Changes.{MeansGoodTree};
ghost use Rattle.tree_changes.specs.Trees.{IsFreeName, IsNameAt, IsNewNumber, MayMove};
ghost use Rattle.vol_digest.specs.Digests.{slot_of};
ghost use Rattle.vol_types.specs.Maps.{value_at};
ghost use Rattle.vol_types.specs.declared.values.FileKind.{FileKind};
ghost use Rattle.vol_types.specs.declared.values.FileKind.TheVariants.{Directory, File};
ghost use Rattle.vol_types.specs.declared.values.Inode.{Inode};
ghost use Rattle.vol_types.specs.declared.values.Link.{Link};
ghost use Rattle.vol_types.specs.declared.values.Sub.{Sub};

use tree_changes::{changed_trees_are_well_formed, names_are_counted};

/// A new file or directory under a new name, a further name of a file, a name of a file less, and a directory less.
pub fn good_trees_are_changed()
    ensures file { (read : Read) (sub : Sub) (shown : Shown) (tree : Tree) (place : Place)
        (links : List Link) → MeansGoodTree read sub shown tree → IsFreeName place tree
        → IsNewNumber tree place.number → shown.inodes place.number ≡ None
        → ((block : ℕ) → shown.blocks place.number block ≡ None)
        → AddsName (record { number = place.number; kind = File; name = place.name })
        (shown.links place.directory (slot_of place.name)) links
        → MeansGoodTree read sub (with_links place.directory (slot_of place.name) links
        (with_inode place.number (Some (record { kind = File; links = 1; size = 0 })) shown))
        (with_file place tree) }
    ensures directory { (read : Read) (sub : Sub) (shown : Shown) (tree : Tree) (place : Place)
        (links : List Link) → MeansGoodTree read sub shown tree → IsFreeName place tree
        → IsNewNumber tree place.number → shown.inodes place.number ≡ None
        → ((block : ℕ) → shown.blocks place.number block ≡ None)
        → AddsName (record { number = place.number; kind = Directory; name = place.name })
        (shown.links place.directory (slot_of place.name)) links
        → MeansGoodTree read sub (with_links place.directory (slot_of place.name) links
        (with_inode place.number (Some (record { kind = Directory; links = 1; size = 0 })) shown))
        (with_directory place tree) }
    ensures linked { (read : Read) (sub : Sub) (shown : Shown) (tree : Tree) (place : Place)
        (links : List Link) (old : Inode) → MeansGoodTree read sub shown tree
        → IsFreeName place tree → shown.inodes place.number ≡ Some old → old.kind ≡ File
        → AddsName (record { number = place.number; kind = File; name = place.name })
        (shown.links place.directory (slot_of place.name)) links
        → MeansGoodTree read sub (with_links place.directory (slot_of place.name) links
        (with_inode place.number (Some (record old { links = old.links + 1 })) shown))
        (with_name place tree) }
    ensures unlinked { (read : Read) (sub : Sub) (shown : Shown) (tree : Tree) (place : Place)
        (links : List Link) (old : Inode) → MeansGoodTree read sub shown tree
        → AreNamesApart shown → IsNameAt place tree → shown.inodes place.number ≡ Some old
        → old.kind ≡ File
        → TakesName place.name (shown.links place.directory (slot_of place.name)) links
        → MeansGoodTree read sub (with_links place.directory (slot_of place.name) links
        (with_inode place.number
        (if old.links == 1 then None else Some (record old { links = old.links - 1 })) shown))
        (unlinked place tree) }
    ensures removed { (read : Read) (sub : Sub) (shown : Shown) (tree : Tree) (place : Place)
        (links : List Link) → MeansGoodTree read sub shown tree → AreNamesApart shown
        → IsNameAt place tree → value_at nat_cmp place.number tree.directories ≡ Some []
        → TakesName place.name (shown.links place.directory (slot_of place.name)) links
        → MeansGoodTree read sub (with_links place.directory (slot_of place.name) links
        (with_inode place.number None shown)) (without_directory place tree) }
{
    names_are_counted();
    changed_trees_are_well_formed();
}

/// A name at a new place, and not at the old one: it is added, and then taken from the names that show then, which are those of
/// the same slot where the slots of both are one.
pub fn moved_names_are_good()
    ensures { (read : Read) (sub : Sub) (shown : Shown) (tree : Tree) (old new : Place)
        (kind : FileKind) (added left : List Link) → MeansGoodTree read sub shown tree
        → MayMove old new tree → kind_of shown old.number ≡ Some kind
        → AddsName (record { number = new.number; kind = kind; name = new.name })
        (shown.links new.directory (slot_of new.name)) added
        → TakesName old.name ((with_links new.directory (slot_of new.name) added shown).links
        old.directory (slot_of old.name)) left
        → MeansGoodTree read sub (with_links old.directory (slot_of old.name) left
        (with_links new.directory (slot_of new.name) added shown)) (moved old new tree) }
{
    names_are_counted();
    changed_trees_are_well_formed();
}
