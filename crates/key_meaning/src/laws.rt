ghost use Rattle.std.specs.Prelude.{◌≡◌, ◌↔◌, false, true, ℕ, List, IsSome, Some, None};
ghost use Rattle.std.specs.Ordering.{nat_cmp};
ghost use Rattle.plain_forest.specs.Forest.{fresh};
ghost use Rattle.snap_tree.specs.Snaps.{IsSnapTree, is_ancestor_of};
ghost use Rattle.vol_types.specs.KeyMaps.{IsKeyMap, KeyMap, is_update_of, with_update};
ghost use Rattle.vol_types.specs.Maps.{IsMap, value_at};
ghost use Rattle.vol_types.specs.Ranges.{name_cmp};
ghost use Rattle.vol_types.specs.declared.keys.Update.{Update};
ghost use Rattle.vol_types.specs.declared.layout.Layout.{Layout};
ghost use Rattle.vol_types.specs.declared.pointers.Place.{Place};
ghost use Rattle.vol_types.specs.declared.positions.Btree.{Btree};
ghost use Rattle.vol_types.specs.declared.positions.Btree.TheVariants.{Dirents, Inodes, Snapshots};
ghost use Rattle.vol_types.specs.declared.values.Sub.{Sub};
ghost use Rattle.vol_types.specs.declared.values.Value.{Value};
ghost use Rattle.key_meaning.specs.Alike.{ShowAlike};
ghost use Rattle.key_meaning.specs.Blocks.{block_in};
ghost use Rattle.key_meaning.specs.Changes.{ChangesOnly};
ghost use Rattle.key_meaning.specs.Checks.{AreBlocksPlaced, AreNodesPlaced, AreTreesJoined, Check, DoLeavesMatch, IsLiveLeaf, IsSound, IsSpaceCounted, IsSubvolume};
ghost use Rattle.key_meaning.specs.Forest.{Read, directories_in, directory_in, file_in, files_in, forest_in, names_in, number_in, sub_named, tree_named, tree_of};
ghost use Rattle.key_meaning.specs.Fresh.{fresh_keys};
ghost use Rattle.key_meaning.specs.Kept.{AreLeavesSound, IsLeafSound};
ghost use Rattle.key_meaning.specs.Reads.{AgreeOnBlocks};
ghost use Rattle.key_meaning.specs.Tidy.{IsTidy};
ghost use Rattle.key_meaning.specs.Visible.{shown, snaps_of, visible, visible_above};
ghost use Rattle.key_meaning.specs.VisibleLaws.{is_put_at};

/// The keys of a fresh volume mean the fresh forest, and are sound and tidy, wherever nodes may be.
pub fn fresh_keys_mean_fresh()
    ensures means { (read : Read) → forest_in fresh_keys read ≡ fresh }
    ensures sound { (nodes : List Place) (layout : Layout) → AreNodesPlaced nodes layout
        → IsSound fresh_keys nodes layout }
    ensures tidy { IsTidy fresh_keys }
{}

/// A key map is sound exactly where all checks hold.
pub fn sound_is_all_checks()
    ensures { (keys : KeyMap) (nodes : List Place) (layout : Layout)
        → IsSound keys nodes layout ↔ ((number : ℕ) → Check number keys nodes layout) }
{}

/// What an id shows after one value was put or removed there: a value that was put, and where one was removed what the
/// parent shows. All else shows as before: other positions, and ids whose chain doesn't have the id of the update.
pub fn updates_show()
    ensures snaps { (update : Update) (keys : KeyMap) → IsKeyMap keys
        → is_update_of Snapshots update ≡ false → snaps_of (with_update update keys) ≡ snaps_of keys }
    ensures put { (update : Update) (keys : KeyMap) → IsKeyMap keys
        → is_update_of Snapshots update ≡ false → IsSnapTree (snaps_of keys)
        → IsSome (value_at nat_cmp update.pos.snapshot (snaps_of keys))
        → (btree : Btree) (inode offset : ℕ) (value : Value)
        → is_put_at update btree inode offset ≡ true → update.value ≡ Some value
        → visible (with_update update keys) btree inode offset update.pos.snapshot
        ≡ shown (Some value) }
    ensures removed { (update : Update) (keys : KeyMap) → IsKeyMap keys
        → is_update_of Snapshots update ≡ false → IsSnapTree (snaps_of keys)
        → IsSome (value_at nat_cmp update.pos.snapshot (snaps_of keys))
        → (btree : Btree) (inode offset : ℕ) → is_put_at update btree inode offset ≡ true
        → update.value ≡ None
        → visible (with_update update keys) btree inode offset update.pos.snapshot
        ≡ visible_above keys btree inode offset update.pos.snapshot }
    ensures other { (update : Update) (keys : KeyMap) → IsKeyMap keys
        → is_update_of Snapshots update ≡ false → (btree : Btree) (inode offset id : ℕ)
        → is_put_at update btree inode offset ≡ false
        → visible (with_update update keys) btree inode offset id
        ≡ visible keys btree inode offset id }
    ensures elsewhere { (update : Update) (keys : KeyMap) → IsKeyMap keys
        → is_update_of Snapshots update ≡ false → (btree : Btree) (inode offset id : ℕ)
        → is_ancestor_of (snaps_of keys) update.pos.snapshot id ≡ false
        → visible (with_update update keys) btree inode offset id
        ≡ visible keys btree inode offset id }
{}

/// Images that hold the same of the blocks of a key map give it the same forest.
pub fn forests_hang_on_their_blocks()
    ensures { (keys : KeyMap) (one other : Read) → AgreeOnBlocks keys one other
        → forest_in keys one ≡ forest_in keys other }
{}

/// The lists of a forest are maps, and what stands in them is what shows: a subvolume under its name, files and directories
/// under their numbers, and names in their directory.
pub fn forests_are_looked_up()
    ensures subvolume { (keys : KeyMap) (read : Read) (name : List ℕ)
        → value_at name_cmp name (forest_in keys read).subvolumes ≡ tree_named keys read name }
    ensures subvolumes { (keys : KeyMap) (read : Read)
        → IsMap name_cmp (forest_in keys read).subvolumes }
    ensures file { (keys : KeyMap) (id : ℕ) (read : Read) (number : ℕ)
        → value_at nat_cmp number (files_in keys read id) ≡ file_in keys read id number }
    ensures files { (keys : KeyMap) (id : ℕ) (read : Read) → IsMap nat_cmp (files_in keys read id) }
    ensures directory { (keys : KeyMap) (id number : ℕ)
        → value_at nat_cmp number (directories_in keys id) ≡ directory_in keys id number }
    ensures directories { (keys : KeyMap) (id : ℕ) → IsMap nat_cmp (directories_in keys id) }
    ensures name { (keys : KeyMap) (id directory : ℕ) (name : List ℕ)
        → value_at name_cmp name (names_in keys id directory) ≡ number_in keys id directory name }
    ensures names { (keys : KeyMap) (id directory : ℕ) → IsMap name_cmp (names_in keys id directory) }
{}

/// Ids that show the same inodes, names and blocks have the same tree, and they do where the same values are visible in them.
pub fn alike_ids_have_one_tree()
    ensures tree { (one other : KeyMap) (read : Read) (sub another : Sub)
        → ShowAlike one sub.id other another.id → sub.read_only ≡ another.read_only
        → sub.root ≡ another.root → tree_of one read sub ≡ tree_of other read another }
    ensures alike { (one other : KeyMap) (id another : ℕ)
        → ((number : ℕ) → visible one Inodes 0 number id ≡ visible other Inodes 0 number another)
        → ((directory slot : ℕ) → visible one Dirents directory slot id
        ≡ visible other Dirents directory slot another)
        → ((file block : ℕ) → block_in one id file block ≡ block_in other another file block)
        → ShowAlike one id other another }
{}

/// In a sound volume ids form trees, a live leaf is in no chain but its own, and so the id of a subvolume is in no chain of
/// another subvolume's.
pub fn sound_ids_are_apart()
    ensures trees { (keys : KeyMap) → AreTreesJoined keys → IsSnapTree (snaps_of keys) }
    ensures leaf { (keys : KeyMap) (id other : ℕ) → AreTreesJoined keys → IsLiveLeaf keys id
        → is_ancestor_of (snaps_of keys) id other ≡ true → other ≡ id }
    ensures subvolume { (keys : KeyMap) (name : List ℕ) (sub : Sub) → DoLeavesMatch keys
        → sub_named keys name ≡ Some sub → IsSubvolume keys sub }
    ensures apart { (keys : KeyMap) (name other : List ℕ) (sub another : Sub)
        → AreTreesJoined keys → DoLeavesMatch keys → sub_named keys name ≡ Some sub
        → sub_named keys other ≡ Some another → ¬ (name ≡ other)
        → is_ancestor_of (snaps_of keys) sub.id another.id ≡ false }
{}

/// After a change that stays in the id of one subvolume, of which what shows is sound, what shows in all live leaves is; and what
/// is said of extents, and of the keys on space, stays where these keys do.
pub fn soundness_stays()
    ensures leaves { (keys new : KeyMap) (name : List ℕ) (sub : Sub) → AreLeavesSound keys
        → ChangesOnly keys new sub.id → sub_named keys name ≡ Some sub → IsLeafSound new sub
        → AreLeavesSound new }
    ensures blocks { (keys new : KeyMap) (nodes : List Place) (layout : Layout)
        → new.extents ≡ keys.extents → AreBlocksPlaced keys nodes layout
        → AreBlocksPlaced new nodes layout }
    ensures space { (keys new : KeyMap) → new.extents ≡ keys.extents → new.alloc ≡ keys.alloc
        → new.backptrs ≡ keys.backptrs → IsSpaceCounted keys → IsSpaceCounted new }
{}
