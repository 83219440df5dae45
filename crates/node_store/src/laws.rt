ghost use Rattle.std.specs.Prelude.{◌≡◌, List, ℕ, Ok};
ghost use Rattle.dev_model.specs.Devices.{FaultCounts};
ghost use Rattle.record_codec.specs.declared.sets.SetHead.{SetHead};
ghost use Rattle.vol_types.specs.declared.pointers.NodePtr.{NodePtr as APtr};
ghost use Rattle.node_store.specs.declared.reading.ReadNode.{ReadNode as ARead};
ghost use Rattle.node_store.specs.declared.sets.StoredSets.{StoredSets as Sets};
ghost use Rattle.node_store.specs.Answers.{AgreeOn, AreSeenFrom, IsReadAs};
ghost use Rattle.node_store.specs.NodeContents.{content_in};
ghost use Rattle.node_store.specs.StoredSets.{Copies, sets_in};

/// Where the places of a node agree on it, reads that failed were made up: what was seen is what the node's blocks hold.
pub fn failed_reads_are_made_up()
    ensures sets { (id : List ℕ) (birth : ℕ) (copies seen : Copies) (found : Sets)
        → AgreeOn id birth copies → AreSeenFrom found.end copies seen → sets_in seen id birth
        ≡ Ok found → sets_in copies id birth ≡ Ok found }
    ensures node { (old new : FaultCounts) (id : List ℕ) (wanted : SetHead) (copies : Copies)
        (ptr : APtr) (read : ARead)
        → AgreeOn id wanted.birth copies → IsReadAs old new id wanted ptr copies read
        → content_in copies id wanted ≡ Ok
        (record { entries = read.node.entries; end = read.end }) }
{}
