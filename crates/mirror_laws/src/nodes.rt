ghost use Rattle.std.specs.Prelude.{◌≡◌, ◌⊎◌, ◌<◌, ℕ, All, Contains, List, Ok, Option, length, map};
ghost use Rattle.dev_model.specs.Disk.{Image};
ghost use Rattle.image_view.specs.Bases.{AgreeAt};
ghost use Rattle.image_view.specs.Found.{Found, NodesAgree, sets_in as node_sets_in, updates_of};
ghost use Rattle.image_view.specs.Trees.{nodes_of, trees_of};
ghost use Rattle.node_store.specs.Answers.{AgreeOn};
ghost use Rattle.node_store.specs.StoredSets.{Copies, sets_in};
ghost use Rattle.node_store.specs.declared.opening.OpenBlock.{OpenBlock as ABlock};
ghost use Rattle.node_store.specs.declared.sets.StoredSets.{StoredSets as Sets};
ghost use Rattle.vol_types.specs.declared.layout.Layout.{Layout as ALayout};
ghost use Rattle.mirror_laws.specs.Degraded.{AreLostOf, IsDegradedTo, IsWipedAt};
ghost use Rattle.mirror_laws.specs.Standing.{LacksNone, NodeStandsOn};

/// Copies of a node's bucket that agree on it hold the same sets of it when blocks are lost, as long as one copy lacks none before the
/// end of its sets. Behind that end fewer blocks begin no new set, and show no gap. So the btrees of an image are those of a degraded
/// one, where each of their nodes stands whole on the device that is left.
pub fn lost_blocks_hide_no_sets()
    ensures sets { (id : List ℕ) (birth : ℕ) (one other : Copies) (mine : List (Option ABlock))
        (found : Sets) → sets_in one id birth ≡ Ok found → AgreeOn id birth one
        → AreLostOf one other → Contains other mine → LacksNone id birth found.end one mine
        → sets_in other id birth ≡ Ok found }
    ensures copies { (id : List ℕ) (birth : ℕ) (one other : Copies) → AgreeOn id birth one
        → AreLostOf one other → AgreeOn id birth other }
    ensures trees { (f : Found) (mirror : ℕ) (one other : Image)
        → mirror < f.layout.metadata_replicas → IsDegradedTo f.layout mirror one other
        → trees_of (node_sets_in f.layout one) (updates_of f.needed) f.last.entry.roots ≡ Ok f.trees
        → NodesAgree one f → All (NodeStandsOn f mirror one) (nodes_of f.trees.nodes)
        → trees_of (node_sets_in f.layout other) (updates_of f.needed) f.last.entry.roots
        ≡ Ok f.trees }
    ensures agree { (f : Found) (mirror : ℕ) (one other : Image)
        → mirror < f.layout.metadata_replicas → IsDegradedTo f.layout mirror one other
        → NodesAgree one f → NodesAgree other f }
{}

/// Blocks of the journal and of nodes that are zeroed are lost. So an image of equal lengths in which all or some of them are zeroed on
/// the other metadata devices is a degraded one.
pub fn wiped_blocks_are_lost()
    ensures { (layout : ALayout) (mirror : ℕ) (one other : Image)
        → map (λ blocks. length blocks) one ≡ map (λ blocks. length blocks) other
        → ((dev block : ℕ) → AgreeAt one other dev block ⊎ IsWipedAt layout mirror one other dev block)
        → IsDegradedTo layout mirror one other }
{}
