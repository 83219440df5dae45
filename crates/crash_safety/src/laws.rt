ghost use Rattle.std.specs.Prelude.{◌≡◌, ◌+◌, ◌≤◌, ◌++◌, ◌∷◌, [], ℕ, List, Option, Contains, drop, length, take};
ghost use Rattle.image_view.specs.Found.{updates_of};
ghost use Rattle.image_view.specs.NewNodes.{HoldsPassed};
ghost use Rattle.journal_ring.specs.declared.found.FoundEntry.{FoundEntry as AFound};
ghost use Rattle.vol_types.specs.KeyMaps.{Entries, IsKeyMap, KeyMap, entries_of, with_updates};
ghost use Rattle.vol_types.specs.declared.keys.Update.{Update as AnUpdate};
ghost use Rattle.vol_types.specs.declared.positions.Btree.{Btree as ABtree};
ghost use Rattle.crash_safety.specs.Contents.{ChangesBtree, HoldsUpTo, IsFrom, IsPinnedUpTo};

use image_view::new_nodes_hold_the_keys;

/// The sets of a btree's node hold its keys up to one of the needed entries, the first of which has the sequence `oldest`, and the
/// node pins those from there on that change the btree. So the entries before the least of all pins may be passed: with those that
/// are left, each node leads to the keys to which all entries led.
pub fn nodes_hold_keys_up_to_an_entry()
    // What the node has of the entries that are left is made again, and none that it lacks is passed.
    ensures lacks { (needed : List AFound) (before : KeyMap) (oldest passed : ℕ) (btree : ABtree)
        (pin : Option ℕ) (entries : Entries) (content : KeyMap) → IsKeyMap before
        → HoldsUpTo needed before oldest btree pin entries → IsFrom pin (oldest + passed)
        → entries_of content btree ≡ entries
        → entries_of (with_updates (updates_of (drop passed needed)) content) btree
        ≡ entries_of (with_updates (updates_of needed) before) btree }
    // So where the next entry leads to nodes of which some are kept and the others were written again with the durable keys, it may
    // pass the first ones (`new_nodes_hold_the_keys` of `image_view`).
    ensures kept_passes { (needed : List AFound) (before : KeyMap) (oldest passed : ℕ)
        (btree : ABtree) (pin : Option ℕ) (old new : KeyMap) → IsKeyMap before
        → HoldsUpTo needed before oldest btree pin (entries_of old btree)
        → IsFrom pin (oldest + passed) → entries_of new btree ≡ entries_of old btree
        → HoldsPassed needed passed old new btree }
    ensures rewritten_passes { (needed : List AFound) (before : KeyMap) (oldest passed : ℕ)
        (btree : ABtree) (pin : Option ℕ) (old new : KeyMap) → IsKeyMap before
        → HoldsUpTo needed before oldest btree pin (entries_of old btree) → passed ≤ length needed
        → entries_of new btree ≡ entries_of (with_updates (updates_of needed) before) btree
        → HoldsPassed needed passed old new btree }
    // Once a next entry is durable that passes the first ones, the needed entries are those that are left and it.
    ensures shifts { (needed : List AFound) (before : KeyMap) (oldest passed : ℕ) (btree : ABtree)
        (pin : Option ℕ) (entries : Entries) (next : AFound)
        → HoldsUpTo needed before oldest btree pin entries → passed ≤ length needed
        → IsFrom pin (oldest + passed)
        → (ChangesBtree btree next.entry.updates → IsPinnedUpTo pin (oldest + length needed))
        → HoldsUpTo (drop passed needed ++ next ∷ [])
        (with_updates (updates_of (take passed needed)) before) (oldest + passed) btree pin entries }
    // They lead from the keys up to the first that is left to those with the next entry's updates.
    ensures shifted_keys { (needed : List AFound) (before : KeyMap) (passed : ℕ) (next : AFound)
        → with_updates next.entry.updates (with_updates (updates_of needed) before)
        ≡ with_updates (updates_of (drop passed needed ++ next ∷ []))
        (with_updates (updates_of (take passed needed)) before) }
    ensures shifted_map { (needed : List AFound) (before : KeyMap) (passed : ℕ) → IsKeyMap before
        → IsKeyMap (with_updates (updates_of (take passed needed)) before) }
    // Another pin that pins at least as much.
    ensures pins { (needed : List AFound) (before : KeyMap) (oldest : ℕ) (btree : ABtree)
        (pin other : Option ℕ) (entries : Entries)
        → ((sequence : ℕ) → IsPinnedUpTo pin sequence → IsPinnedUpTo other sequence)
        → HoldsUpTo needed before oldest btree pin entries
        → HoldsUpTo needed before oldest btree other entries }
    // A node with the durable keys needs no pin.
    ensures durable { (needed : List AFound) (before : KeyMap) (oldest : ℕ) (btree : ABtree)
        (pin : Option ℕ) (entries : Entries)
        → entries ≡ entries_of (with_updates (updates_of needed) before) btree
        → HoldsUpTo needed before oldest btree pin entries }
    // A node that has none of the needed entries pins the oldest, where one of them changes the btree.
    ensures begins { (needed : List AFound) (before : KeyMap) (oldest : ℕ) (btree : ABtree)
        (pin : Option ℕ) (entries : Entries) → entries ≡ entries_of before btree
        → ((found : AFound) → Contains needed found → ChangesBtree btree found.entry.updates
        → IsPinnedUpTo pin oldest)
        → HoldsUpTo needed before oldest btree pin entries }
    // Updates that are made again change nothing in a btree that has them, whatever the other btrees have.
    ensures again { (updates more : List AnUpdate) (keys content : KeyMap) (btree : ABtree)
        → IsKeyMap keys
        → entries_of content btree ≡ entries_of (with_updates (updates ++ more) keys) btree
        → entries_of (with_updates more content) btree
        ≡ entries_of (with_updates (updates ++ more) keys) btree }
{
    new_nodes_hold_the_keys();
}
