ghost use Rattle.std.specs.Prelude.{◌≡◌, ◌+◌, ◌≤◌, ℕ, All, Bool, None, Ok, Option};
ghost use Rattle.dev_model.specs.Devices.{DevicesState, now};
ghost use Rattle.dev_model.specs.Disk.{Image};
ghost use Rattle.dev_model.specs.Frames.{DisksStay};
ghost use Rattle.image_view.specs.Found.{Found, IsMirrored, found};
ghost use Rattle.journal_ring.specs.Rings.{RingState};
ghost use Rattle.crash_safety.specs.Flushes.{AreSettled, Flushes};
ghost use Rattle.crash_safety.specs.Parts.{IsPartWritten, IsRingOf};
ghost use Rattle.crash_safety.specs.Writings.{Writing};
ghost use Rattle.key_meaning.specs.Checks.{IsNodePlaced};
ghost use Rattle.node_store.specs.Writes.{IsCopyOf};
ghost use Rattle.node_store.specs.declared.planning.Blocked.{Blocked as ABlocked};
ghost use Rattle.record_codec.specs.declared.sets.SetRecord.{SetRecord as ASet};
ghost use Rattle.vol_types.specs.Limits.{bucket_blocks};
ghost use Rattle.vol_types.specs.declared.layout.Layout.{Layout as ALayout};
ghost use Rattle.vol_types.specs.declared.pointers.NodePtr.{NodePtr as ANode};
ghost use Rattle.vol_types.specs.declared.positions.Btree.{Btree as ABtree};
ghost use Rattle.crash_safety.specs.Leaves.{KeepsOff, StandsAsLeaf};
ghost use Rattle.crash_safety.specs.NodeParts.{IsLeafPlanned, IsNodePartWritten, StandParts, leaf_content};

/// The first blocks of a node stand on what is read while the next ones are written, also where a device fails at one of them, and while
/// devices are called otherwise. Once all of them stand and the metadata devices are settled, the node stands as a leaf with the keys of
/// its set.
pub fn node_parts_stand()
    ensures none { (blocked : ABlocked) (state : DevicesState) → StandParts blocked 0 state }
    ensures next { (layout : ALayout) (fresh : ANode) (blocked : ABlocked) (part : ℕ)
        (old new : DevicesState) → IsMirrored layout fresh → blocked.places ≡ fresh.places
        → IsNodePartWritten blocked part None old new → StandParts blocked part old
        → StandParts blocked (part + 1) new }
    ensures failed { (layout : ALayout) (fresh : ANode) (blocked : ABlocked) (part : ℕ)
        (failed : Option ℕ) (old new : DevicesState) → IsMirrored layout fresh
        → blocked.places ≡ fresh.places → IsNodePartWritten blocked part failed old new
        → StandParts blocked part old → StandParts blocked part new }
    ensures entry_parts { (image : Image) (f : Found) (w : Writing) (written : ℕ)
        (ring : RingState) (failed : Option ℕ) (blocked : ABlocked) (count : ℕ)
        (old new : DevicesState) → found image ≡ Ok f → IsRingOf f.layout w written ring
        → IsPartWritten ring failed old new → All (IsNodePlaced f.layout) blocked.places
        → StandParts blocked count old → StandParts blocked count new }
    // Blocks of another node are written.
    ensures node_parts { (other : ABlocked) (part : ℕ) (failed : Option ℕ) (fresh : ANode)
        (blocked : ABlocked) (count : ℕ) (old new : DevicesState)
        → IsNodePartWritten other part failed old new
        → KeepsOff (IsCopyOf other.places (other.block + part)) fresh
        → blocked.places ≡ fresh.places → blocked.block + count ≤ bucket_blocks
        → StandParts blocked count old → StandParts blocked count new }
    ensures flushes { (dev : ℕ) (done : Bool) (blocked : ABlocked) (count : ℕ)
        (old new : DevicesState) → Flushes dev done old new → StandParts blocked count old
        → StandParts blocked count new }
    ensures reads { (blocked : ABlocked) (count : ℕ) (old new : DevicesState) → DisksStay old new
        → StandParts blocked count old → StandParts blocked count new }
    ensures written { (layout : ALayout) (session : ℕ) (btree : ABtree) (fresh : ANode)
        (set : ASet) (blocked : ABlocked) (state : DevicesState)
        → IsLeafPlanned layout session btree fresh set blocked
        → StandParts blocked bucket_blocks state
        → AreSettled layout.metadata_replicas (now state)
        → StandsAsLeaf layout session btree fresh (leaf_content set) state }
{}
