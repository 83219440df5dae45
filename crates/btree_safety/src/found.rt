ghost use Rattle.std.specs.Prelude.{◌≡◌, All};
ghost use Rattle.dev_model.specs.Devices.{DevicesState, now};
ghost use Rattle.dev_model.specs.Disk.{as_read};
ghost use Rattle.image_view.specs.Found.{Found, IsAlike, updates_of};
ghost use Rattle.image_view.specs.Trees.{nodes_of};
ghost use Rattle.image_view.specs.UpdatedTrees.{IsOfLeaf};
ghost use Rattle.replay.specs.Mending.{IsInOrderOn};
ghost use Rattle.vol_types.specs.KeyMaps.{with_updates};
ghost use Rattle.btree_laws.specs.HeldContents.{held_in};
ghost use Rattle.btree_laws.specs.Standing.{keys_in_leaves};
ghost use Rattle.btree_safety.specs.StandingNodes.{BtreesStand};

use btree_laws::found_btrees_stand;

/// Btrees that were found where nothing is pending stand on the devices, where all nodes that were found are alike and the updates of the needed
/// entries are of leaves: the content of each node is what its sets come to, and the keys that were found are those of the leaves with these updates.
pub fn found_btrees_stand_on_devices()
    ensures stand { (f : Found) (state : DevicesState) → IsInOrderOn f (now state)
        → All IsOfLeaf (updates_of f.needed)
        → All (IsAlike f (as_read (now state))) (nodes_of f.trees.nodes)
        → BtreesStand f.layout f.session f.last.entry.roots f.trees.nodes
        (λ btree. held_in f.layout (as_read (now state))) state }
    ensures keys { (f : Found) (state : DevicesState) → IsInOrderOn f (now state)
        → All IsOfLeaf (updates_of f.needed) → f.trees.keys ≡ with_updates (updates_of f.needed)
        (keys_in_leaves (λ btree. held_in f.layout (as_read (now state))) f.trees.nodes) }
{
    found_btrees_stand();
}
