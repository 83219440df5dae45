ghost use Rattle.std.specs.Prelude.{◌≡◌, ◌≢◌, ◌↔◌, ◌+◌, ◌<◌, ℕ, suc, List, Ok, Option, length};
ghost use Rattle.dev_model.specs.Devices.{DevicesState, now};
ghost use Rattle.dev_model.specs.Disk.{as_read};
ghost use Rattle.image_view.specs.Found.{sets_in};
ghost use Rattle.image_view.specs.Trees.{Wanted};
ghost use Rattle.journal_ring.specs.declared.found.FoundEntry.{FoundEntry as AFound};
ghost use Rattle.node_store.specs.declared.planning.Blocked.{Blocked as ABlocked};
ghost use Rattle.record_codec.specs.declared.sets.SetRecord.{SetRecord as ASet};
ghost use Rattle.tree_nodes.specs.Levels.{EndsAt, IsRow, IsTree, Levels, least_of, level_of};
ghost use Rattle.vol_types.specs.KeyMaps.{KeyMap};
ghost use Rattle.vol_types.specs.Maps.{IsMap, value_at};
ghost use Rattle.vol_types.specs.Positions.{IsWithin, pos_cmp};
ghost use Rattle.vol_types.specs.Widths.{PosFits};
ghost use Rattle.vol_types.specs.Limits.{bucket_blocks};
ghost use Rattle.vol_types.specs.declared.layout.Layout.{Layout as ALayout};
ghost use Rattle.vol_types.specs.declared.pointers.NodePtr.{NodePtr as ANode};
ghost use Rattle.vol_types.specs.declared.positions.Btree.{Btree as ABtree};
ghost use Rattle.vol_types.specs.declared.positions.Pos.{Pos as APos};
ghost use Rattle.btree_laws.specs.Exchanges.{AreExchanged, IsExchange, IsKept};
ghost use Rattle.btree_laws.specs.Standing.{Contents, IsNodeIn};
ghost use Rattle.crash_safety.specs.Flushes.{AreSettled};
ghost use Rattle.crash_safety.specs.NodeParts.{IsNodePartWritten};
ghost use Rattle.crash_safety.specs.Parts.{standing_by};
ghost use Rattle.btree_safety.specs.FreshNodes.{AreLeavesPinned, AreNodesExchanged, IsNodePlanned, IsPartlyWritten, content_of_set};
ghost use Rattle.btree_safety.specs.KeptKeys.{HoldUpTo, Pins};
ghost use Rattle.btree_safety.specs.StandingNodes.{BtreesStand, StandsOnDevices};
ghost use Rattle.btree_safety.specs.StayingNodes.{StaysAsRead};

use crate::leaves_hold_keys_up_to_entries;
use btree_laws::{
    exchanges_have_forms, keys_have_entries_by_position, standing_btrees_change_by_exchanges,
};
use crash_safety::node_parts_stand;

/// A new node of any level and range is written block by block into buckets of its own: what stands of it goes on standing while the next block is
/// written, also where a device fails at it, and where its buckets stay. Once all blocks stand, its sets come to what the set holds that was
/// planned; and once the metadata devices are settled too, it stands on them.
pub fn written_nodes_stand()
    ensures begins { (layout : ALayout) (session : ℕ) (wanted : Wanted) (set : ASet)
        (blocked : ABlocked) (state : DevicesState)
        → IsNodePlanned layout session wanted set blocked
        → IsPartlyWritten layout session wanted set blocked 0 state }
    ensures writes { (layout : ALayout) (session : ℕ) (wanted : Wanted) (set : ASet)
        (blocked : ABlocked) (written : ℕ) (failed : Option ℕ) (old new : DevicesState)
        → IsPartlyWritten layout session wanted set blocked written old → written < bucket_blocks
        → IsNodePartWritten blocked written failed old new
        → IsPartlyWritten layout session wanted set blocked (standing_by failed written) new }
    ensures stays { (layout : ALayout) (session : ℕ) (wanted : Wanted) (set : ASet)
        (blocked : ABlocked) (written : ℕ) (old new : DevicesState)
        → StaysAsRead old new wanted.pointer
        → IsPartlyWritten layout session wanted set blocked written old
        → IsPartlyWritten layout session wanted set blocked written new }
    ensures comes { (layout : ALayout) (session : ℕ) (wanted : Wanted) (set : ASet)
        (blocked : ABlocked) (state : DevicesState)
        → IsPartlyWritten layout session wanted set blocked bucket_blocks state
        → sets_in layout (as_read (now state)) wanted ≡ Ok (content_of_set set) }
    ensures stands { (layout : ALayout) (session : ℕ) (wanted : Wanted) (set : ASet)
        (blocked : ABlocked) (state : DevicesState)
        → IsPartlyWritten layout session wanted set blocked bucket_blocks state
        → AreSettled layout.metadata_replicas (now state)
        → StandsOnDevices layout session (content_of_set set).end state wanted.pointer }
{
    node_parts_stand();
}

/// Where nodes of btrees that stand on the devices give place to nodes that were written whole, and the metadata devices are settled, the new btrees
/// stand there, however many nodes of however many levels are exchanged at once. Their leaves hold the keys up to entries, where leaves that are
/// kept pin as much as they did, and fresh ones inherit from those that they replace or hold them up to an entry of their own.
pub fn btrees_are_exchanged()
    ensures stand { (layout : ALayout) (session : ℕ) (roots fresh : List ANode)
        (old new : List Levels) (before after : ABtree → Contents) (state : DevicesState)
        → BtreesStand layout session roots old before state
        → AreSettled layout.metadata_replicas (now state)
        → AreNodesExchanged layout session old new fresh before after state
        → BtreesStand layout session fresh new after state }
    ensures hold { (layout : ALayout) (session : ℕ) (roots fresh : List ANode)
        (old new : List Levels) (before after : ABtree → Contents) (state : DevicesState)
        (needed : List AFound) (begun : KeyMap) (oldest : ℕ) (pin other : Pins)
        → BtreesStand layout session roots old before state
        → AreNodesExchanged layout session old new fresh before after state
        → AreLeavesPinned layout session needed begun oldest old new pin other before after state
        → HoldUpTo needed begun oldest old pin before
        → HoldUpTo needed begun oldest new other after }
    // Where nodes are exchanged in a range on each level, which contains that of the level below, each node that ends outside of it is kept.
    ensures kept { (first last : ℕ → APos) (old new : Levels) → IsTree old → IsTree new
        → AreExchanged first last old new → (level : ℕ) (at : APos) (node : ANode)
        → IsNodeIn new level at node → level < length old → ¬ IsWithin (first level) (last level) at
        → IsKept old new level at node }
    // Where one level is exchanged in a range and the others stay, a node of it is kept that ends outside of the range, and one of the level above
    // none of whose positions is in it; nodes of other levels are kept.
    ensures kept_beside { (old new : Levels) (level : ℕ) (first last : APos)
        → IsRow (level_of old level) → IsRow (level_of new level)
        → IsExchange first last (level_of old level) (level_of new level)
        → ((k : ℕ) → k ≢ level → level_of new k ≡ level_of old k) → (k : ℕ) (at : APos) (node : ANode)
        → IsNodeIn new k at node → (k ≡ level → ¬ IsWithin first last at)
        → (k ≡ level + 1 → (pos : APos) → IsWithin (least_of at (level_of old k)) at pos
        → ¬ IsWithin first last pos) → IsKept old new k at node }
    // Where the nodes of a level end where those of the old one did, as many of them as are written again, one that stays over the same nodes of the
    // level below is kept.
    ensures kept_in_place { (old new : Levels) (level : ℕ) → IsMap pos_cmp (level_of old level)
        → IsMap pos_cmp (level_of new level)
        → ((at : APos) → EndsAt (level_of new level) at ↔ EndsAt (level_of old level) at)
        → (at : APos) (node : ANode) → IsNodeIn old level at node
        → ((lower : ℕ) → level ≡ suc lower → (pos : APos) → PosFits pos
        → IsWithin (least_of at (level_of old level)) at pos
        → value_at pos_cmp pos (level_of new lower) ≡ value_at pos_cmp pos (level_of old lower))
        → IsKept old new level at node }
    // A node of levels that stay is kept, and so is one that is kept twice: so any number of exchanges keep what each of them keeps.
    ensures still_kept { (levels : Levels) (level : ℕ) (at : APos) (node : ANode)
        → IsNodeIn levels level at node → IsKept levels levels level at node }
    ensures kept_twice { (old mid new : Levels) (level : ℕ) (at : APos) (node : ANode)
        → IsKept old mid level at node → IsKept mid new level at node
        → IsKept old new level at node }
{
    exchanges_have_forms();
    standing_btrees_change_by_exchanges();
    keys_have_entries_by_position();
    leaves_hold_keys_up_to_entries();
}
