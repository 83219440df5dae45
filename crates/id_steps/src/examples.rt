ghost use Rattle.std.specs.Prelude.{◌≡◌, false, true, [], ◌∷◌, None, Some, codes};
ghost use Rattle.id_steps.specs.Entries.{PutsSub};
ghost use Rattle.id_steps.specs.Examples.{copy_of, last_ids, plain, plain_then};
ghost use Rattle.id_steps.specs.Steps.{moved_to};
ghost use Rattle.snap_tree.specs.Snaps.{chain_of, live_leaves};

/// Two subvolumes, a snapshot, and a snapshot of this one that was removed: which chains the ids have, and how many are live leaves.
pub fn chains_of_snapshots()
    ensures source { chain_of last_ids 99 ≡ 99 ∷ 100 ∷ [] }
    ensures copy { chain_of last_ids 97 ≡ 97 ∷ 98 ∷ 100 ∷ [] }
    ensures removed { chain_of last_ids 96 ≡ 96 ∷ 98 ∷ 100 ∷ [] }
    ensures old { chain_of last_ids 98 ≡ 98 ∷ 100 ∷ [] }
    ensures another { chain_of last_ids 95 ≡ 95 ∷ [] }
    ensures live { live_leaves last_ids ≡ 3 }
{}

/// The entry of a snapshot whose names share a slot, and wrong ones: the source has the smaller id or stays where it is, the copy may
/// be written to, the source's entry is lost, and a subvolume that was removed is still there.
pub fn wrong_entries_are_refused()
    ensures right { PutsSub (codes "b") (Some (copy_of true)) (plain_then ∷ [])
        (plain_then ∷ copy_of true ∷ []) }
    ensures smaller { ¬ PutsSub (codes "a") (Some plain_then) (plain ∷ []) (moved_to 98 plain ∷ []) }
    ensures stays { ¬ PutsSub (codes "a") (Some plain_then) (plain ∷ []) (plain ∷ []) }
    ensures writable { ¬ PutsSub (codes "b") (Some (copy_of true)) (plain_then ∷ [])
        (plain_then ∷ copy_of false ∷ []) }
    ensures lost { ¬ PutsSub (codes "b") (Some (copy_of true)) (plain_then ∷ []) (copy_of true ∷ []) }
    ensures kept { ¬ PutsSub (codes "a") None (plain ∷ []) (plain ∷ []) }
{}
