ghost use Rattle.std.specs.Prelude.{◌≡◌, ◌+◌, ℕ, All, Bool, List, Ok, Option, Some, slice_get};
ghost use Rattle.dev_model.specs.Devices.{DevicesState, now};
ghost use Rattle.dev_model.specs.Disk.{Image, IsDisk};
ghost use Rattle.dev_model.specs.Frames.{DisksStay};
ghost use Rattle.image_view.specs.Found.{Found, found};
ghost use Rattle.journal_ring.specs.Rings.{RingState};
ghost use Rattle.crash_safety.specs.Flushes.{Flushes};
ghost use Rattle.crash_safety.specs.Parts.{IsPartWritten, IsRingOf};
ghost use Rattle.crash_safety.specs.Writings.{Writing};
ghost use Rattle.node_store.specs.NodeContents.{NodeContent};
ghost use Rattle.node_store.specs.Writes.{IsCopyOf};
ghost use Rattle.node_store.specs.declared.planning.Blocked.{Blocked as ABlocked};
ghost use Rattle.vol_types.specs.Btrees.{btree_code};
ghost use Rattle.vol_types.specs.declared.layout.Layout.{Layout as ALayout};
ghost use Rattle.vol_types.specs.declared.pointers.NodePtr.{NodePtr as ANode};
ghost use Rattle.vol_types.specs.declared.positions.Btree.{Btree as ABtree};
ghost use Rattle.crash_safety.specs.Leaves.{KeepsOff, StandAsLeaves, StandsAsLeaf};
ghost use Rattle.crash_safety.specs.NodeParts.{IsNodePartWritten};

/// A root that stands as the leaf of its btree stays so while devices are called: where a part of an entry of the journal is written, or a
/// block of a node in other buckets, and where a device is flushed or read. `leaf_elsewhere` of `specs/LeafLaws` says so of any calls that
/// ask for none of its blocks. So do all nine.
pub fn leaves_stand()
    ensures entry_parts { (image : Image) (f : Found) (w : Writing) (written : ℕ)
        (ring : RingState) (failed : Option ℕ) (session : ℕ) (btree : ABtree) (root : ANode)
        (content : NodeContent) (old new : DevicesState) → found image ≡ Ok f
        → IsRingOf f.layout w written ring → IsPartWritten ring failed old new
        → StandsAsLeaf f.layout session btree root content old
        → StandsAsLeaf f.layout session btree root content new }
    ensures node_parts { (blocked : ABlocked) (part : ℕ) (failed : Option ℕ) (layout : ALayout)
        (session : ℕ) (btree : ABtree) (root : ANode) (content : NodeContent)
        (old new : DevicesState) → IsNodePartWritten blocked part failed old new
        → KeepsOff (IsCopyOf blocked.places (blocked.block + part)) root
        → StandsAsLeaf layout session btree root content old
        → StandsAsLeaf layout session btree root content new }
    ensures flushes { (dev : ℕ) (done : Bool) (layout : ALayout) (session : ℕ) (btree : ABtree)
        (root : ANode) (content : NodeContent) (old new : DevicesState) → Flushes dev done old new
        → All IsDisk (now old) → StandsAsLeaf layout session btree root content old
        → StandsAsLeaf layout session btree root content new }
    ensures reads { (layout : ALayout) (session : ℕ) (btree : ABtree) (root : ANode)
        (content : NodeContent) (old new : DevicesState) → DisksStay old new
        → StandsAsLeaf layout session btree root content old
        → StandsAsLeaf layout session btree root content new }
    // All nine stand where each of them does.
    ensures all { (layout : ALayout) (session : ℕ) (roots : List ANode)
        (content : ABtree → NodeContent) (old new : DevicesState)
        → StandAsLeaves layout session roots content old
        → ((btree : ABtree) (root : ANode) → slice_get roots (btree_code btree) ≡ Some root
        → StandsAsLeaf layout session btree root (content btree) new)
        → StandAsLeaves layout session roots content new }
{}
