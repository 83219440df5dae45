ghost use Rattle.std.specs.Prelude.{◌≡◌, ◌<◌, ℕ, All, Ok, length, slice_index_or};
ghost use Rattle.dev_model.specs.Disk.{Image};
ghost use Rattle.image_view.specs.Bases.{AgreeOnBase, AgreeOnNodes};
ghost use Rattle.image_view.specs.Found.{Found, IsAlike, found};
ghost use Rattle.image_view.specs.Trees.{nodes_of};
ghost use Rattle.journal_ring.specs.Entries.{IsWhole};
ghost use Rattle.journal_ring.specs.Parts.{area_of};
ghost use Rattle.journal_ring.specs.declared.found.FoundEntry.{FoundEntry as AFound};
ghost use Rattle.replay.specs.Mending.{StandsOnAll};
ghost use Rattle.vol_types.specs.declared.layout.Layout.{Layout as ALayout};
ghost use Rattle.vol_types.specs.declared.pointers.NodePtr.{NodePtr as ANode};
ghost use Rattle.mirror_laws.specs.Standing.{EntryStandsOn, NodeStandsOn, StandsWholeOn};

use journal_ring::{leading_entries_are_needed, mended_entries_stay_whole};

/// What stands on every metadata device stands whole on each of them: an entry of the journal whose blocks are on all of them, a node
/// whose copies are alike up to where its sets end, and so all that was found. In each image that agrees on the base it goes
/// on so, and so do nodes where it agrees on these.
pub fn what_stands_everywhere_stands_on_each_device()
    ensures entry { (layout : ALayout) (mirror : ℕ) (image : Image) (entry : AFound)
        → mirror < layout.metadata_replicas → IsWhole layout (area_of image) entry
        → StandsOnAll layout image entry → EntryStandsOn layout mirror (area_of image) entry }
    ensures node { (f : Found) (mirror : ℕ) (image : Image) (node : ANode) → IsAlike f image node
        → NodeStandsOn f mirror image node }
    ensures found { (f : Found) (mirror : ℕ) (image : Image) → mirror < f.layout.metadata_replicas
        → found image ≡ Ok f
        → ((index : ℕ) → index < length f.needed → StandsOnAll f.layout image (slice_index_or f.needed index f.last))
        → All (IsAlike f image) (nodes_of f.trees.nodes) → StandsWholeOn f mirror image }
    ensures nodes { (f : Found) (mirror : ℕ) (one other : Image) → AgreeOnNodes f one other
        → All (NodeStandsOn f mirror one) (nodes_of f.trees.nodes)
        → All (NodeStandsOn f mirror other) (nodes_of f.trees.nodes) }
    ensures stays { (f : Found) (mirror : ℕ) (one other : Image) → AgreeOnBase f one other
        → StandsWholeOn f mirror one → StandsWholeOn f mirror other }
{
    leading_entries_are_needed();
    mended_entries_stay_whole();
}
