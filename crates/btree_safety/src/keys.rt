ghost use Rattle.std.specs.Prelude.{◌≡◌, ◌+◌, ◌≤◌, ◌++◌, ◌∷◌, [], ℕ, All, Contains, List, Option, Some, drop, length, take};
ghost use Rattle.image_view.specs.Found.{updates_of};
ghost use Rattle.image_view.specs.Trees.{SetsOf};
ghost use Rattle.image_view.specs.UpdatedTrees.{IsOfLeaf};
ghost use Rattle.journal_ring.specs.declared.found.FoundEntry.{FoundEntry as AFound};
ghost use Rattle.tree_nodes.specs.Levels.{IsRow, Level, Levels, node_at};
ghost use Rattle.vol_types.specs.KeyMaps.{Entries, IsKeyMap, KeyMap, entries_within, value_in, with_updates};
ghost use Rattle.vol_types.specs.Maps.{value_at};
ghost use Rattle.vol_types.specs.Positions.{IsWithin, pos_cmp};
ghost use Rattle.vol_types.specs.Widths.{PosFits};
ghost use Rattle.vol_types.specs.declared.keys.Update.{Update as AnUpdate};
ghost use Rattle.vol_types.specs.declared.pointers.NodePtr.{NodePtr as ANode};
ghost use Rattle.vol_types.specs.declared.positions.Btree.{Btree as ABtree};
ghost use Rattle.vol_types.specs.declared.positions.Pos.{Pos as APos};
ghost use Rattle.btree_laws.specs.Counts.{ChangeKey};
ghost use Rattle.btree_laws.specs.Exchanges.{IsExchange};
ghost use Rattle.btree_laws.specs.Standing.{Contents, HaveWidths, StandAsBtrees, keys_in_leaves};
ghost use Rattle.crash_safety.specs.Contents.{IsFrom, IsPinnedUpTo};
ghost use Rattle.crash_safety.specs.LeafSteps.{PinsAsMuch};
ghost use Rattle.btree_safety.specs.KeptKeys.{AreExchangedAt, ArePinned, ArePinsFrom, HoldUpTo, HoldsAt, IsLeafAt, PinNoLess, Pins};

use btree_laws::{exchanges_have_forms, keys_have_entries_by_position, standing_btrees_are_read};

/// Entries of a leaf hold at a position its value up to one of the needed entries, the first of which has the sequence `oldest`, and those from there
/// on that change it are pinned. So it stays while first ones are passed that aren't pinned, and a next one comes; where more is pinned; and in
/// another leaf that has the same value and pins as much, so in each half of a leaf that is split.
pub fn entries_hold_values_up_to_an_entry()
    ensures shifts { (needed : List AFound) (before : KeyMap) (oldest : ℕ) (btree : ABtree)
        (pin : Option ℕ) (entries : Entries) (pos : APos)
        → HoldsAt needed before oldest btree pin entries pos → (passed : ℕ) (next : AFound)
        → IsKeyMap before → passed ≤ length needed → IsFrom pin (oldest + passed)
        → (ChangeKey btree pos next.entry.updates → IsPinnedUpTo pin (oldest + length needed))
        → HoldsAt (drop passed needed ++ next ∷ [])
        (with_updates (updates_of (take passed needed)) before) (oldest + passed) btree pin entries
        pos }
    ensures moves { (needed : List AFound) (before : KeyMap) (oldest : ℕ) (btree : ABtree)
        (pin : Option ℕ) (entries : Entries) (pos : APos)
        → HoldsAt needed before oldest btree pin entries pos → (other : Option ℕ) (others : Entries)
        → PinsAsMuch pin other → value_at pos_cmp pos others ≡ value_at pos_cmp pos entries
        → HoldsAt needed before oldest btree other others pos }
    // Entries that have none of the needed ones pin the oldest where one of these changes the position.
    ensures begins { (needed : List AFound) (before : KeyMap) (oldest : ℕ) (btree : ABtree)
        (pin : Option ℕ) (entries : Entries) (pos : APos)
        → value_at pos_cmp pos entries ≡ value_in before btree pos
        → ((found : AFound) → Contains needed found → ChangeKey btree pos found.entry.updates
        → IsPinnedUpTo pin oldest) → HoldsAt needed before oldest btree pin entries pos }
    // A durable value needs no pin.
    ensures durable { (needed : List AFound) (before : KeyMap) (oldest : ℕ) (btree : ABtree)
        (pin : Option ℕ) (entries : Entries) (pos : APos) → value_at pos_cmp pos entries
        ≡ value_in (with_updates (updates_of needed) before) btree pos
        → HoldsAt needed before oldest btree pin entries pos }
    // Entries that are the same in a range have the same values there.
    ensures range { (first last pos : APos) (one other : Entries) → IsWithin first last pos
        → entries_within first last one ≡ entries_within first last other
        → value_at pos_cmp pos one ≡ value_at pos_cmp pos other }
{
    keys_have_entries_by_position();
}

/// The leaves of btrees hold at each position that they cover its value up to one of the needed entries, and pin those from there on that change it.
/// So the entries before the least of all pins may be passed: with those that are left the leaves lead to the keys to which all entries led.
pub fn leaves_hold_keys_up_to_entries()
    ensures leads { (sets : SetsOf) (roots : List ANode) (trees : List Levels)
        (content : ABtree → Contents) → StandAsBtrees sets roots trees content
        → (needed : List AFound) (before : KeyMap) (oldest : ℕ) (pin : Pins) → IsKeyMap before
        → HaveWidths before → All IsOfLeaf (updates_of needed)
        → HoldUpTo needed before oldest trees pin content → (passed : ℕ)
        → ArePinsFrom trees pin (oldest + passed)
        → with_updates (updates_of (drop passed needed)) (keys_in_leaves content trees)
        ≡ with_updates (updates_of needed) before }
    // Once a next entry is durable that passes the first ones, the needed entries are those that are left and it.
    ensures shifts { (needed : List AFound) (before : KeyMap) (oldest : ℕ) (trees : List Levels)
        (pin : Pins) (content : ABtree → Contents) (passed : ℕ) (next : AFound) → IsKeyMap before
        → HoldUpTo needed before oldest trees pin content → passed ≤ length needed
        → ArePinsFrom trees pin (oldest + passed)
        → ArePinned next trees pin (oldest + length needed)
        → HoldUpTo (drop passed needed ++ next ∷ [])
        (with_updates (updates_of (take passed needed)) before) (oldest + passed) trees pin content }
    ensures shifted_widths { (updates : List AnUpdate) (keys : KeyMap) → IsKeyMap keys
        → HaveWidths keys → All IsOfLeaf updates → HaveWidths (with_updates updates keys) }
    // Other pins that pin at least as much.
    ensures pins { (needed : List AFound) (before : KeyMap) (oldest : ℕ) (trees : List Levels)
        (pin : Pins) (content : ABtree → Contents) (other : Pins) → PinNoLess trees pin other
        → HoldUpTo needed before oldest trees pin content
        → HoldUpTo needed before oldest trees other content }
    // Leaves that have none of the needed entries pin the oldest where one of them changes a key.
    ensures begins { (sets : SetsOf) (roots : List ANode) (trees : List Levels)
        (content : ABtree → Contents) → StandAsBtrees sets roots trees content
        → (needed : List AFound) (oldest : ℕ) (pin : Pins)
        → ((found : AFound) → Contains needed found → ArePinned found trees pin oldest)
        → HoldUpTo needed (keys_in_leaves content trees) oldest trees pin content }
    // Leaves take the place of others, however many at once, where each inherits at its positions from the one that covered them, or holds up to an
    // entry of its own: so do leaves that are split, joined or written again.
    ensures exchanged { (one : SetsOf) (roots : List ANode) (old new : List Levels)
        (before after : ABtree → Contents) → StandAsBtrees one roots old before
        → (needed : List AFound) (begun : KeyMap) (oldest : ℕ) (pin other : Pins)
        → HoldUpTo needed begun oldest old pin before
        → AreExchangedAt needed begun oldest old new pin other before after
        → HoldUpTo needed begun oldest new other after }
    // Some leaf covers each position, and outside of the range of an exchange it is the same one.
    ensures covers { (sets : SetsOf) (roots : List ANode) (trees : List Levels)
        (content : ABtree → Contents) → StandAsBtrees sets roots trees content
        → (btree : ABtree) (pos : APos) → PosFits pos
        → (leaf : APos × ANode) × IsLeafAt trees btree pos leaf }
    ensures same_leaf { (old new : Level) (first last pos : APos) (leaf : APos × ANode) → IsRow old
        → IsRow new → IsExchange first last old new → PosFits pos → ¬ IsWithin first last pos
        → node_at pos old ≡ Some leaf → node_at pos new ≡ Some leaf }
{
    entries_hold_values_up_to_an_entry();
    keys_have_entries_by_position();
    standing_btrees_are_read();
    exchanges_have_forms();
}
