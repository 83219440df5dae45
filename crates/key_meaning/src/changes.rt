ghost use Rattle.std.specs.Prelude.{◌≡◌, ◌<◌, ◌==◌, false, true, ℕ, All, List, IsSome, Some, None, if◌then◌else◌, option_map, slice_set};
ghost use Rattle.std.specs.Ordering.{nat_cmp};
ghost use Rattle.plain_forest.specs.Maps.{changed_at};
ghost use Rattle.snap_tree.specs.Snaps.{IsSnapTree};
ghost use Rattle.vol_digest.specs.Digests.{slot_of};
ghost use Rattle.vol_types.specs.KeyMaps.{IsKeyMap, KeyMap, is_update_of, with_update, with_updates};
ghost use Rattle.vol_types.specs.Maps.{put_at, value_at};
ghost use Rattle.vol_types.specs.Ranges.{name_cmp};
ghost use Rattle.vol_types.specs.declared.keys.Update.{Update};
ghost use Rattle.vol_types.specs.declared.positions.Btree.TheVariants.{Counters, Dirents, Extents, Inodes};
ghost use Rattle.vol_types.specs.declared.values.Link.{Link};
ghost use Rattle.vol_types.specs.declared.values.Sub.{Sub};
ghost use Rattle.vol_types.specs.declared.values.Value.{Value};
ghost use Rattle.vol_types.specs.declared.values.Value.TheVariants as values;
ghost use Rattle.key_meaning.specs.Changes.{ChangesBlocks, ChangesInode, ChangesName, ChangesOnly, KeepsOtherNames, StaysIn};
ghost use Rattle.key_meaning.specs.Checks.{AreTreesJoined, DoLeavesMatch};
ghost use Rattle.key_meaning.specs.Forest.{Read, counter_in, directories_in, directory_in, file_in, files_in, forest_in, inode_in, inode_of, link_named, links_in, links_of, names_in, number_in, sub_named, tree_of};
ghost use Rattle.key_meaning.specs.Visible.{snaps_of, visible_above};

/// Updates that stay in one id change only what this id and those below it show; in a sound volume, where it is the id of a
/// subvolume, they change the tree of this subvolume alone.
pub fn changes_stay_in_their_id()
    ensures only { (updates : List Update) (keys : KeyMap) (id : ℕ) → IsKeyMap keys
        → All (StaysIn id) updates → ChangesOnly keys (with_updates updates keys) id }
    ensures tree { (keys new : KeyMap) (read : Read) (name : List ℕ) (sub : Sub)
        → AreTreesJoined keys → DoLeavesMatch keys → ChangesOnly keys new sub.id
        → sub_named keys name ≡ Some sub → (forest_in new read).subvolumes
        ≡ changed_at name_cmp name (λ _. tree_of new read sub) (forest_in keys read).subvolumes }
{}

/// An update of an inode changes at most the inode of its number, which is what was put, or else what the parent shows.
pub fn inodes_are_updated()
    ensures only { (update : Update) (keys : KeyMap) → IsKeyMap keys
        → is_update_of Inodes update ≡ true → (id : ℕ)
        → ChangesInode keys (with_update update keys) id update.pos.offset }
    ensures put { (update : Update) (keys : KeyMap) → IsKeyMap keys → IsSnapTree (snaps_of keys)
        → IsSome (value_at nat_cmp update.pos.snapshot (snaps_of keys))
        → is_update_of Inodes update ≡ true → update.pos.inode ≡ 0 → (value : Value)
        → update.value ≡ Some value
        → inode_in (with_update update keys) update.pos.snapshot update.pos.offset
        ≡ inode_of (Some value) }
    ensures removed { (update : Update) (keys : KeyMap) → IsKeyMap keys → IsSnapTree (snaps_of keys)
        → IsSome (value_at nat_cmp update.pos.snapshot (snaps_of keys))
        → is_update_of Inodes update ≡ true → update.pos.inode ≡ 0 → update.value ≡ None
        → inode_in (with_update update keys) update.pos.snapshot update.pos.offset
        ≡ inode_of (visible_above keys Inodes 0 update.pos.offset update.pos.snapshot) }
{}

/// Where one inode changed, the tree has the file or directory of its number put or removed.
pub fn trees_take_an_inode()
    ensures files { (keys new : KeyMap) (id number : ℕ) → ChangesInode keys new id number
        → (read : Read) → files_in new read id
        ≡ put_at nat_cmp number (file_in new read id number) (files_in keys read id) }
    ensures directories { (keys new : KeyMap) (id number : ℕ) → ChangesInode keys new id number
        → directories_in new id
        ≡ put_at nat_cmp number (directory_in new id number) (directories_in keys id) }
    ensures names { (keys new : KeyMap) (id number : ℕ) → ChangesInode keys new id number
        → (directory : ℕ) → names_in new id directory ≡ names_in keys id directory }
{}

/// An update of the names under a slot, which keeps all of them but one, changes at most this name; the names there are what was
/// put, or else what the parent shows, and a name leads where the names under its slot lead it.
pub fn names_are_updated()
    ensures only { (update : Update) (keys : KeyMap) → IsKeyMap keys
        → is_update_of Dirents update ≡ true → (id : ℕ) (name : List ℕ)
        → KeepsOtherNames (links_in keys id update.pos.inode update.pos.offset)
        (links_in (with_update update keys) id update.pos.inode update.pos.offset) name
        → ChangesName keys (with_update update keys) id update.pos.inode name }
    ensures put { (update : Update) (keys : KeyMap) → IsKeyMap keys → IsSnapTree (snaps_of keys)
        → IsSome (value_at nat_cmp update.pos.snapshot (snaps_of keys))
        → is_update_of Dirents update ≡ true → (value : Value) → update.value ≡ Some value
        → links_in (with_update update keys) update.pos.snapshot update.pos.inode update.pos.offset
        ≡ links_of (Some value) }
    ensures removed { (update : Update) (keys : KeyMap) → IsKeyMap keys → IsSnapTree (snaps_of keys)
        → IsSome (value_at nat_cmp update.pos.snapshot (snaps_of keys))
        → is_update_of Dirents update ≡ true → update.value ≡ None
        → links_in (with_update update keys) update.pos.snapshot update.pos.inode update.pos.offset
        ≡ links_of (visible_above keys Dirents update.pos.inode update.pos.offset update.pos.snapshot) }
    ensures slot { (keys : KeyMap) (id directory slot : ℕ) (name : List ℕ) → slot_of name ≡ slot
        → number_in keys id directory name
        ≡ option_map (λ (link : Link). link.number) (link_named name (links_in keys id directory slot)) }
{}

/// Where one name changed, the tree has it put or removed in its directory.
pub fn trees_take_a_name()
    ensures names { (keys new : KeyMap) (id directory : ℕ) (name : List ℕ)
        → ChangesName keys new id directory name → names_in new id directory
        ≡ put_at name_cmp name (number_in new id directory name) (names_in keys id directory) }
    ensures directories { (keys new : KeyMap) (id directory : ℕ) (name : List ℕ)
        → ChangesName keys new id directory name → directories_in new id
        ≡ changed_at nat_cmp directory (put_at name_cmp name (number_in new id directory name))
        (directories_in keys id) }
    ensures files { (keys new : KeyMap) (id directory : ℕ) (name : List ℕ)
        → ChangesName keys new id directory name → (read : Read)
        → files_in new read id ≡ files_in keys read id }
{}

/// An update of an extent or hole changes at most the blocks of its file, and so the file of this number in a tree.
pub fn blocks_are_updated()
    ensures only { (update : Update) (keys : KeyMap) → IsKeyMap keys
        → is_update_of Extents update ≡ true → (id : ℕ)
        → ChangesBlocks keys (with_update update keys) id update.pos.inode }
    ensures files { (keys new : KeyMap) (id file : ℕ) → ChangesBlocks keys new id file
        → (read : Read) → files_in new read id
        ≡ put_at nat_cmp file (file_in new read id file) (files_in keys read id) }
    ensures directories { (keys new : KeyMap) (id file : ℕ) → ChangesBlocks keys new id file
        → directories_in new id ≡ directories_in keys id }
{}

/// An update of a counter sets it. In the forest it changes the next number of its client, or how many ids are left, and
/// nothing else; other updates leave the counters.
pub fn counters_are_updated()
    ensures other { (update : Update) (keys : KeyMap) → IsKeyMap keys
        → is_update_of Counters update ≡ false → (counter : ℕ)
        → counter_in (with_update update keys) counter ≡ counter_in keys counter }
    ensures put { (update : Update) (keys : KeyMap) → IsKeyMap keys
        → is_update_of Counters update ≡ true → (counter next : ℕ)
        → update.pos ≡ record { inode = 0; offset = counter; snapshot = 0 }
        → update.value ≡ Some (values.Counter next) → (other : ℕ)
        → counter_in (with_update update keys) other
        ≡ (if counter == other then Some next else counter_in keys other) }
    ensures client { (update : Update) (keys : KeyMap) → IsKeyMap keys
        → is_update_of Counters update ≡ true → (counter next : ℕ)
        → update.pos ≡ record { inode = 0; offset = counter; snapshot = 0 }
        → update.value ≡ Some (values.Counter next) → (read : Read) → counter < 16
        → forest_in (with_update update keys) read
        ≡ record (forest_in keys read) { next = slice_set (forest_in keys read).next counter next } }
    ensures ids { (update : Update) (keys : KeyMap) → IsKeyMap keys
        → is_update_of Counters update ≡ true → (counter next : ℕ)
        → update.pos ≡ record { inode = 0; offset = counter; snapshot = 0 }
        → update.value ≡ Some (values.Counter next) → (read : Read) → counter ≡ 16
        → forest_in (with_update update keys) read
        ≡ record (forest_in keys read) { ids_left = next } }
{}
