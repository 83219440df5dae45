ghost use Rattle.std.specs.Prelude.{◌≡◌, ◌+◌, ◌<◌, ℕ, All, Bool, List, Ok, Option};
ghost use Rattle.dev_model.specs.Devices.{DevicesState, now};
ghost use Rattle.dev_model.specs.Disk.{Image, IsDisk};
ghost use Rattle.dev_model.specs.Frames.{DisksStay};
ghost use Rattle.image_view.specs.Found.{Found, found};
ghost use Rattle.image_view.specs.Trees.{nodes_of};
ghost use Rattle.journal_ring.specs.Rings.{RingState};
ghost use Rattle.key_meaning.specs.Checks.{IsNodePlaced};
ghost use Rattle.node_store.specs.NodeContents.{NodeContent};
ghost use Rattle.node_store.specs.Writes.{IsCopyOf};
ghost use Rattle.node_store.specs.declared.planning.Blocked.{Blocked as ABlocked};
ghost use Rattle.tree_nodes.specs.Levels.{Levels};
ghost use Rattle.vol_types.specs.Limits.{bucket_blocks};
ghost use Rattle.vol_types.specs.Ranges.{IsNode};
ghost use Rattle.vol_types.specs.declared.layout.Layout.{Layout as ALayout};
ghost use Rattle.vol_types.specs.declared.pointers.NodePtr.{NodePtr as ANode};
ghost use Rattle.vol_types.specs.declared.pointers.Place.{Place as APlace};
ghost use Rattle.vol_types.specs.declared.positions.Btree.{Btree as ABtree};
ghost use Rattle.crash_safety.specs.Elsewhere.{IsAtOneOf, IsOneOf};
ghost use Rattle.crash_safety.specs.Flushes.{Flushes};
ghost use Rattle.crash_safety.specs.Leaves.{AreNodesApart, KeepsOff, StandAsLeaves, leaf_nodes};
ghost use Rattle.crash_safety.specs.NodeParts.{IsNodePartWritten};
ghost use Rattle.crash_safety.specs.Parts.{AsksAt, IsPartWritten, IsRingOf};
ghost use Rattle.crash_safety.specs.Writings.{Writing};
ghost use Rattle.btree_laws.specs.Standing.{Contents};
ghost use Rattle.btree_safety.specs.StandingNodes.{BtreesStand, StandsOnDevices};
ghost use Rattle.btree_safety.specs.StayingNodes.{StayAsRead, StaysAsRead};

use btree_laws::{
    found_btrees_stand, standing_btrees_are_read, standing_btrees_change_by_exchanges,
};
use crash_safety::nodes_lie_apart;

/// A node stands on the devices still where its buckets stay, and so do btrees where those of all their nodes do. Buckets stay where nothing
/// happens, after one thing and another, where devices are read or one is flushed, where a part of an entry of the journal is written, and
/// where a block of a node is written that keeps off them, or blocks at other places are. `stays_elsewhere` of `specs/NodeLaws` says so of
/// any calls that ask for none of their blocks.
pub fn nodes_stand()
    ensures stays { (layout : ALayout) (session end : ℕ) (old new : DevicesState) (node : ANode)
        → StaysAsRead old new node → StandsOnDevices layout session end old node
        → StandsOnDevices layout session end new node }
    ensures btrees_stay { (layout : ALayout) (session : ℕ) (roots : List ANode)
        (trees : List Levels) (content : ABtree → Contents) (old new : DevicesState)
        → StayAsRead old new trees → BtreesStand layout session roots trees content old
        → BtreesStand layout session roots trees content new }
    ensures all_stay { (layout : ALayout) (session : ℕ) (roots : List ANode)
        (trees : List Levels) (content : ABtree → Contents) (old new : DevicesState)
        → BtreesStand layout session roots trees content old
        → ((node : ANode) → All (IsNodePlaced layout) node.places → StaysAsRead old new node)
        → StayAsRead old new trees }
    ensures here { (state : DevicesState) (node : ANode) → StaysAsRead state state node }
    ensures then_on { (old mid new : DevicesState) (node : ANode) → StaysAsRead old mid node
        → StaysAsRead mid new node → StaysAsRead old new node }
    ensures reads { (old new : DevicesState) (node : ANode) → DisksStay old new
        → StaysAsRead old new node }
    ensures flushes { (dev : ℕ) (done : Bool) (old new : DevicesState) (node : ANode)
        → Flushes dev done old new → All IsDisk (now old) → StaysAsRead old new node }
    ensures entry_parts { (image : Image) (f : Found) (w : Writing) (written : ℕ)
        (ring : RingState) (failed : Option ℕ) (old new : DevicesState) (node : ANode)
        → found image ≡ Ok f → IsRingOf f.layout w written ring → IsPartWritten ring failed old new
        → All (IsNodePlaced f.layout) node.places → StaysAsRead old new node }
    ensures node_parts { (blocked : ABlocked) (part : ℕ) (failed : Option ℕ)
        (old new : DevicesState) (node : ANode) → IsNodePartWritten blocked part failed old new
        → KeepsOff (IsCopyOf blocked.places (blocked.block + part)) node
        → StaysAsRead old new node }
    ensures elsewhere { (places : List APlace) (old new : DevicesState) (node : ANode)
        → AsksAt (IsOneOf places) (IsAtOneOf places) old new → KeepsOff (IsOneOf places) node
        → StaysAsRead old new node }
    // So btrees stand while devices are called.
    ensures btrees_read { (layout : ALayout) (session : ℕ) (roots : List ANode)
        (trees : List Levels) (content : ABtree → Contents) (old new : DevicesState)
        → DisksStay old new → BtreesStand layout session roots trees content old
        → BtreesStand layout session roots trees content new }
    ensures btrees_flush { (dev : ℕ) (done : Bool) (layout : ALayout) (session : ℕ)
        (roots : List ANode) (trees : List Levels) (content : ABtree → Contents)
        (old new : DevicesState) → Flushes dev done old new → All IsDisk (now old)
        → BtreesStand layout session roots trees content old
        → BtreesStand layout session roots trees content new }
    ensures btrees_beside_entries { (image : Image) (f : Found) (w : Writing) (written : ℕ)
        (ring : RingState) (failed : Option ℕ) (session : ℕ) (roots : List ANode)
        (trees : List Levels) (content : ABtree → Contents) (old new : DevicesState)
        → found image ≡ Ok f → IsRingOf f.layout w written ring → IsPartWritten ring failed old new
        → BtreesStand f.layout session roots trees content old
        → BtreesStand f.layout session roots trees content new }
    ensures btrees_beside_nodes { (fresh : ANode) (blocked : ABlocked) (part : ℕ)
        (failed : Option ℕ) (layout : ALayout) (session : ℕ) (roots : List ANode)
        (trees : List Levels) (content : ABtree → Contents) (old new : DevicesState)
        → blocked.places ≡ fresh.places → blocked.block + part < bucket_blocks
        → All (AreNodesApart fresh) (nodes_of trees) → IsNodePartWritten blocked part failed old new
        → BtreesStand layout session roots trees content old
        → BtreesStand layout session roots trees content new }
    // Roots that stand as the leaves of their btrees are such btrees, of one level.
    ensures leaves { (layout : ALayout) (session : ℕ) (roots : List ANode)
        (content : ABtree → NodeContent) (state : DevicesState) → All IsNode roots
        → StandAsLeaves layout session roots content state
        → BtreesStand layout session roots (leaf_nodes roots) (λ btree root. content btree) state }
{
    found_btrees_stand();
    standing_btrees_are_read();
    standing_btrees_change_by_exchanges();
    nodes_lie_apart();
}
