ghost use Rattle.std.specs.Prelude.{◌≡◌, ◌+◌, ◌<◌, ℕ, All, Ok};
ghost use Rattle.dev_model.specs.Disk.{Image};
ghost use Rattle.image_view.specs.Found.{Found, found};
ghost use Rattle.journal_ring.specs.Rings.{IsPartPlace, RingState};
ghost use Rattle.crash_safety.specs.Elsewhere.{IsOutside};
ghost use Rattle.crash_safety.specs.Writings.{Writing};
ghost use Rattle.crash_safety.specs.Parts.{IsRingOf};
ghost use Rattle.key_meaning.specs.Checks.{IsNodePlaced};
ghost use Rattle.node_store.specs.Writes.{IsCopyOf};
ghost use Rattle.vol_types.specs.Limits.{bucket_blocks};
ghost use Rattle.vol_types.specs.declared.pointers.NodePtr.{NodePtr as ANode};
ghost use Rattle.vol_types.specs.declared.pointers.Place.{Place as APlace};
ghost use Rattle.crash_safety.specs.Leaves.{AreInOwnBuckets, AreNodesApart, IsFirstBlock, IsOfNode, KeepsOff};

/// Buckets that begin at different places have no block in common, so that what is written of a node keeps off each other node that lies in
/// other buckets. What is written of an entry keeps off all nodes.
pub fn nodes_lie_apart()
    ensures outside { (place bucket : APlace) (n : ℕ) → IsFirstBlock place → IsFirstBlock bucket
        → AreInOwnBuckets place bucket → n < bucket_blocks
        → IsOutside (record { dev = place.dev; block = place.block + n }) bucket }
    ensures nodes { (one other : ANode) → AreNodesApart one other → KeepsOff (IsOfNode one) other }
    ensures node_parts { (one other : ANode) (n : ℕ) → AreNodesApart one other → n < bucket_blocks
        → KeepsOff (IsCopyOf one.places n) other }
    ensures entry_parts { (image : Image) (f : Found) (w : Writing) (written : ℕ)
        (ring : RingState) (node : ANode) → found image ≡ Ok f → IsRingOf f.layout w written ring
        → All (IsNodePlaced f.layout) node.places → KeepsOff (IsPartPlace ring) node }
{}
