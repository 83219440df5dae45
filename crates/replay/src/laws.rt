ghost use Rattle.std.specs.Prelude.{◌≡◌, ◌↔◌, ◌<◌, ℕ, All, List, Ok, length};
ghost use Rattle.birth_index.specs.Births.{BirthsDiffer};
ghost use Rattle.btree_map.specs.Trees.{IsTrees, keys_in};
ghost use Rattle.dev_model.specs.Disk.{Image};
ghost use Rattle.image_view.specs.Found.{Found, IsInOrder, NodesAgree, found, node_places};
ghost use Rattle.key_meaning.specs.Checks.{AreNodesPlaced};
ghost use Rattle.node_store.specs.Answers.{AgreeOn};
ghost use Rattle.node_store.specs.StoredSets.{Copies, sets_in};
ghost use Rattle.record_codec.specs.Entries.{IsEntry};
ghost use Rattle.replay.specs.Beginning.{MeansTheSame};
ghost use Rattle.replay.specs.NodeUpdates.{ChangesNode, EachUpdate, HaveRisen, IsBelowRoot};
ghost use Rattle.replay.specs.Roots.{DifferInRoots, ShowTheSame};
ghost use Rattle.replay.specs.Volumes.{trees_read};

use journal_ring::{
    leading_entries_are_needed, same_areas_hold_one_journal, whole_entries_are_made_of_blocks,
};
use record_codec::{entries_are_exact, sets_are_exact};
use sealed_block::opened_blocks_are_sealed;

/// What is found in an image is a key map: the nodes of each level of a btree rise and cover all positions, those of a level
/// above the leaves are made of nodes of the level below, under one root; the leaves cut the keys, which may stand in their
/// btree; and no two nodes have one birth. Its newest entry is one of those that are needed, each of which can be encoded.
pub fn found_btrees_are_a_key_map()
    ensures trees { (image : Image) (f : Found) → found image ≡ Ok f → IsTrees (trees_read f.trees) }
    ensures newest { (image : Image) (f : Found) → found image ≡ Ok f → 0 < length f.needed }
    ensures entries { (image : Image) (f : Found) → found image ≡ Ok f
        → All (λ needed. IsEntry needed.entry) f.needed }
    ensures births { (image : Image) (f : Found) → found image ≡ Ok f → BirthsDiffer f.trees.nodes }
    ensures keys { (image : Image) (f : Found) → found image ≡ Ok f
        → keys_in (trees_read f.trees) ≡ f.trees.keys }
{
    leading_entries_are_needed();
    whole_entries_are_made_of_blocks();
    entries_are_exact();
    sets_are_exact();
    opened_blocks_are_sealed();
}

/// Each update of the needed entries changes a node that was found, exactly where it isn't above the root that the newest entry
/// names. So those of keys in leaves do, and, of what is in order, all those of an entry that names no higher root than the newest
/// one. An older entry with a higher root may have updates of a level that there isn't any more, and these change none.
pub fn updates_change_nodes()
    ensures exact { (image : Image) (f : Found) → found image ≡ Ok f
        → EachUpdate f (λ update. ChangesNode f.trees.nodes update ↔ IsBelowRoot f.last.entry.roots update) }
    ensures leaves { (image : Image) (f : Found) → found image ≡ Ok f
        → EachUpdate f (λ update. update.level ≡ 0 → ChangesNode f.trees.nodes update) }
    ensures in_order { (image : Image) (f : Found) → found image ≡ Ok f → IsInOrder f image
        → All (λ needed. HaveRisen needed.entry.roots f.last.entry.roots → All (ChangesNode f.trees.nodes) needed.entry.updates) f.needed }
{
    leading_entries_are_needed();
    whole_entries_are_made_of_blocks();
    entries_are_exact();
    sets_are_exact();
    opened_blocks_are_sealed();
}

/// Copies of a node's bucket that show the same blocks of the node, on whichever places, hold the same sets of it, where its places
/// agree on it. So while a node is mended, and then, its sets are those that it had.
pub fn mended_copies_hold_the_same_sets()
    ensures { (id : List ℕ) (birth : ℕ) (one other : Copies) → AgreeOn id birth one
        → ShowTheSame id birth one other → sets_in other id birth ≡ sets_in one id birth }
{}

/// An image that differs from one in which something was found in blocks of the roots alone, and shows the same blocks of each root, on
/// whichever places, means the same: where the nodes lie where nodes may, and the places of each agree on it. So it is while roots are mended.
pub fn roots_that_show_the_same_mean_the_same()
    ensures found { (one other : Image) (f : Found) → found one ≡ Ok f
        → AreNodesPlaced (node_places f) f.layout → NodesAgree one f → DifferInRoots f one other
        → found other ≡ Ok f }
    ensures agree { (one other : Image) (f : Found) → found one ≡ Ok f
        → AreNodesPlaced (node_places f) f.layout → NodesAgree one f → DifferInRoots f one other
        → NodesAgree other f }
    ensures means { (one other : Image) (f : Found) → found one ≡ Ok f
        → AreNodesPlaced (node_places f) f.layout → NodesAgree one f → DifferInRoots f one other
        → MeansTheSame f one other }
{
    found_btrees_are_a_key_map();
    same_areas_hold_one_journal();
}
