ghost use Rattle.std.specs.Prelude.{◌≡◌, ◌≢◌, ◌==◌, ◌++◌, ◌∷◌, [], false, ℕ, All, IfSome, List, None, Option, Some, if◌then◌else◌, option_map};
ghost use Rattle.key_meaning.specs.Checks.{IsLiveLeaf};
ghost use Rattle.key_meaning.specs.Forest.{counter_in, kind_in, links_of};
ghost use Rattle.key_meaning.specs.Numbers.{MayCountTo, SetsCounter};
ghost use Rattle.key_meaning.specs.Tidy.{IsDrawn};
ghost use Rattle.key_meaning.specs.Visible.{shown};
ghost use Rattle.key_meaning.specs.VisibleLaws.{is_put_at};
ghost use Rattle.key_steps.specs.Kept.{IsKept};
ghost use Rattle.key_steps.specs.Shown.{Shown, shown_in, with_inode, with_links};
ghost use Rattle.key_steps.specs.Steps.{MaySet, MayStandUnder, Steps, inode_value, note_gone};
ghost use Rattle.key_view.specs.Changes.{own_update, updates_to_see};
ghost use Rattle.vol_types.specs.KeyMaps.{IsKeyMap, KeyMap, is_update_of, with_update, with_updates};
ghost use Rattle.vol_types.specs.Ranges.{IsInode};
ghost use Rattle.vol_types.specs.Standing.{IsUpdate};
ghost use Rattle.vol_types.specs.declared.keys.Update.{Update};
ghost use Rattle.vol_types.specs.declared.layout.Layout.{Layout};
ghost use Rattle.vol_types.specs.declared.pointers.Place.{Place};
ghost use Rattle.vol_types.specs.declared.positions.Btree.{Btree};
ghost use Rattle.vol_types.specs.declared.positions.Btree.TheVariants.{Dirents, Inodes, Snapshots};
ghost use Rattle.vol_types.specs.declared.values.FileKind.TheVariants.{Directory, File};
ghost use Rattle.vol_types.specs.declared.values.Inode.{Inode};
ghost use Rattle.vol_types.specs.declared.values.Value.{Value};

use key_view::changes_are_seen;

/// Kept keys are where no step leads, steps follow each other, the second one as a change of what the first one shows, and a live
/// leaf stays one.
pub fn steps_follow_each_other()
    ensures none { (keys : KeyMap) (nodes : List Place) (layout : Layout) (id : ℕ)
        → IsKept keys nodes layout
        → Steps keys keys nodes layout id (shown_in keys id) (counter_in keys) }
    ensures next { (keys middle new : KeyMap) (nodes : List Place) (layout : Layout) (id : ℕ)
        (one other : Shown) (before after : ℕ → Option ℕ)
        → Steps keys middle nodes layout id one before
        → Steps middle new nodes layout id other after
        → Steps keys new nodes layout id other after }
    ensures then { (keys middle new : KeyMap) (nodes : List Place) (layout : Layout) (id : ℕ)
        (one : Shown) (counters : ℕ → Option ℕ) (change : Shown → Shown)
        → Steps keys middle nodes layout id one counters
        → Steps middle new nodes layout id (change (shown_in middle id)) (counter_in middle)
        → Steps keys new nodes layout id (change one) counters }
    ensures leaf { (keys new : KeyMap) (nodes : List Place) (layout : Layout) (id : ℕ)
        (shown : Shown) (counters : ℕ → Option ℕ)
        → Steps keys new nodes layout id shown counters → IsLiveLeaf keys id → IsLiveLeaf new id }
{}

/// An inode put, changed or removed in a live leaf is a step.
pub fn inodes_are_steps()
    ensures { (keys : KeyMap) (nodes : List Place) (layout : Layout) (id number : ℕ)
        (inode : Option Inode) → IsKept keys nodes layout → IsLiveLeaf keys id
        → IfSome inode IsInode → IsDrawn keys number → MaySet keys id number inode
        → Steps keys (with_updates (updates_to_see keys Inodes 0 number id
        (option_map inode_value inode)) keys) nodes layout id
        (with_inode number inode (shown_in keys id)) (counter_in keys) }
{
    changes_are_seen();
}

/// Other names under a slot of a directory in a live leaf, or none, are a step: one name more, one less, or one in place of another.
pub fn names_are_steps()
    ensures { (keys : KeyMap) (nodes : List Place) (layout : Layout) (id directory slot : ℕ)
        (value : Option Value) → IsKept keys nodes layout → IsLiveLeaf keys id
        → IsUpdate (own_update Dirents directory slot id value) → shown value ≡ value
        → kind_in keys id directory ≡ Some Directory
        → MayStandUnder keys id directory slot (links_of value)
        → Steps keys (with_updates (updates_to_see keys Dirents directory slot id value) keys)
        nodes layout id (with_links directory slot (links_of value) (shown_in keys id))
        (counter_in keys) }
{
    changes_are_seen();
}

/// A file that goes from a live leaf is a step together with the note that its number is gone there.
pub fn files_go_in_steps()
    ensures { (keys : KeyMap) (nodes : List Place) (layout : Layout) (id number : ℕ)
        → IsKept keys nodes layout → IsLiveLeaf keys id → kind_in keys id number ≡ Some File
        → Steps keys (with_updates (updates_to_see keys Inodes 0 number id None
        ++ note_gone id number ∷ []) keys) nodes layout id
        (with_inode number None (shown_in keys id)) (counter_in keys) }
{
    changes_are_seen();
}

/// A client's counter that is raised is a step.
pub fn counters_are_steps()
    ensures { (keys : KeyMap) (nodes : List Place) (layout : Layout) (id client next : ℕ)
        (update : Update) → IsKept keys nodes layout → SetsCounter update client next
        → MayCountTo keys client next
        → Steps keys (with_update update keys) nodes layout id (shown_in keys id)
        (λ counter. if client == counter then Some next else counter_in keys counter) }
{}

/// Updates of other places leave which updates show a value at a place, and those that show a value are of its place alone: so an
/// operation looks once, at the keys as they are.
pub fn updates_are_planned_once()
    ensures same { (keys : KeyMap) (updates : List Update) (btree : Btree) (inode offset id : ℕ)
        (value : Option Value) → IsKeyMap keys
        → All (λ (update : Update). is_update_of Snapshots update ≡ false) updates
        → All (λ (update : Update). is_put_at update btree inode offset ≡ false) updates
        → updates_to_see (with_updates updates keys) btree inode offset id value
        ≡ updates_to_see keys btree inode offset id value }
    ensures elsewhere { (keys : KeyMap) (btree other : Btree) (inode offset id i o : ℕ)
        (value : Option Value) → ¬ ((other ≡ btree) × (i ≡ inode) × (o ≡ offset))
        → All (λ (update : Update). is_put_at update other i o ≡ false)
        (updates_to_see keys btree inode offset id value) }
    ensures ids { (keys : KeyMap) (btree : Btree) (inode offset id : ℕ) (value : Option Value)
        → btree ≢ Snapshots → All (λ (update : Update). is_update_of Snapshots update ≡ false)
        (updates_to_see keys btree inode offset id value) }
{}
