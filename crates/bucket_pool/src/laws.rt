ghost use Rattle.std.specs.Prelude.{◌≡◌, ◌≤◌, ◌<◌, ℕ, List, Some, true, false, All, length, map};
ghost use Rattle.std.specs.List.{range_with_len};
ghost use Rattle.std.specs.Ordering.{nat_cmp};
ghost use Rattle.vol_types.specs.Layouts.{is_layout};
ghost use Rattle.vol_types.specs.Ranges.{Rise};
ghost use Rattle.vol_types.specs.declared.keys.Key.{Key as AKey};
ghost use Rattle.vol_types.specs.declared.layout.Layout.{Layout as ALayout};
ghost use Rattle.vol_types.specs.declared.pointers.Place.{Place as APlace};
ghost use Rattle.bucket_pool.specs.declared.bucket.Bucket.{Bucket as ABucket};
ghost use Rattle.bucket_pool.specs.declared.bucket.Run.{Run as ARun};
ghost use Rattle.bucket_pool.specs.declared.bucket.State.TheVariants.{Waiting};
ghost use Rattle.bucket_pool.specs.Buckets.{is_free};
ghost use Rattle.bucket_pool.specs.Given.{LiesUnused, bucket_at, is_due, is_open_state, is_shut_state, is_used_state};
ghost use Rattle.bucket_pool.specs.NodeBuckets.{AreInOtherBuckets, AreFixed, BeginsBucket, HoldsNode, IsHeldPast, KeepsNodes, MayHoldNode, state_at};
ghost use Rattle.bucket_pool.specs.Opening.{space_of};
ghost use Rattle.bucket_pool.specs.Space.{Space, emptied, givers, have_free, kept, node_places, noded, reserved, settled_space};

/// What a reservation gives lay on blocks that could be given: in a free bucket, or in the one that was open for the actor,
/// where none of them was reserved, used or spent. So nothing that is used is given, nor anything of a bucket that waits or is
/// retired.
pub fn reserved_blocks_are_unused()
    ensures { (count actor replicas : ℕ) (held : List ℕ) (space : Space) → count ≤ 16
        → All (LiesUnused count actor space) (reserved count actor replicas held space).given }
{}

/// A reservation on so many devices gives so many pointers, where so many can give, and their devices rise.
pub fn reservations_are_whole()
    ensures rises { (count actor replicas : ℕ) (held : List ℕ) (space : Space)
        → Rise nat_cmp (map (λ pointer. pointer.place.dev)
        (reserved count actor replicas held space).given) }
    ensures count { (count actor replicas : ℕ) (held : List ℕ) (space : Space)
        → replicas ≤ givers count actor held space
        → length (reserved count actor replicas held space).given ≡ replicas }
{}

/// Each call leaves a bucket as it is whose state isn't one that it changes. So a bucket that waits for an entry does so
/// until a call of `settle` with its number or a greater one, and a retired one stays so.
pub fn buckets_stay()
    ensures reserved { (count actor replicas : ℕ) (held : List ℕ) (space : Space) (dev at : ℕ)
        (bucket : ABucket) → bucket_at space dev at ≡ Some bucket
        → is_shut_state bucket.state ≡ true → bucket_at
        (reserved count actor replicas held space).left dev at ≡ Some bucket }
    ensures kept { (actor : ℕ) (runs : List ARun) (space : Space) (dev at : ℕ) (bucket : ABucket)
        → bucket_at space dev at ≡ Some bucket → is_open_state bucket.state ≡ false
        → bucket_at (kept actor runs space) dev at ≡ Some bucket }
    ensures emptied { (place : APlace) (seq : ℕ) (space : Space) (dev at : ℕ) (bucket : ABucket)
        → bucket_at space dev at ≡ Some bucket → is_used_state bucket.state ≡ false
        → bucket_at (emptied place seq space) dev at ≡ Some bucket }
    ensures settled { (seq : ℕ) (space : Space) (dev at : ℕ) (bucket : ABucket)
        → bucket_at space dev at ≡ Some bucket → is_due seq bucket.state ≡ false
        → bucket_at (settled_space seq space) dev at ≡ Some bucket }
    ensures noded { (count : ℕ) (space : Space) (dev at : ℕ) (bucket : ABucket)
        → bucket_at space dev at ≡ Some bucket → is_free bucket ≡ false
        → bucket_at (noded count space) dev at ≡ Some bucket }
{}

/// A bucket that holds a node, or waits for an entry that isn't settled, is given to no node: a node that is taken lies in
/// a bucket apart from all these, behind the superblocks and the journal area. So no node is written over one that a
/// durable entry leads to, or the entry that is being written.
///
/// Each call but `wait` keeps what holds a node and what is held past an entry, and `settle` does of the entries behind its
/// number. `wait` keeps all that lies apart, and what is held past an earlier entry.
pub fn nodes_keep_their_buckets()
    ensures taken_hold { (count : ℕ) (space : Space) → have_free count space ≡ true
        → All (HoldsNode (noded count space)) (node_places count space) }
    ensures taken_begin { (count : ℕ) (space : Space) → have_free count space ≡ true
        → All (BeginsBucket space) (node_places count space) }
    ensures taken_devices { (count : ℕ) (space : Space) → count ≤ length space
        → map (λ place. place.dev) (node_places count space) ≡ range_with_len 0 count }
    ensures taken_apart { (past count : ℕ) (space : Space) (other : APlace)
        → IsHeldPast past space other → All (AreInOtherBuckets other) (node_places count space) }
    ensures taken_past_journal { (layout : ALayout) (count : ℕ) (space : Space)
        → AreFixed layout space → have_free count space ≡ true → count ≤ layout.metadata_replicas
        → All (λ place. (place.dev < layout.metadata_replicas) × MayHoldNode layout place)
        (node_places count space) }
    ensures noded { (past count : ℕ) (space : Space)
        → KeepsNodes past space (noded count space) }
    ensures reserved { (past count actor replicas : ℕ) (held : List ℕ) (space : Space)
        → KeepsNodes past space (reserved count actor replicas held space).left }
    ensures kept { (past actor : ℕ) (runs : List ARun) (space : Space)
        → KeepsNodes past space (kept actor runs space) }
    ensures settled { (past seq : ℕ) (space : Space) → seq ≤ past
        → KeepsNodes past space (settled_space seq space) }
    ensures emptied_waits { (place : APlace) (seq : ℕ) (space : Space) → HoldsNode space place
        → state_at (emptied place seq space) place ≡ Some (Waiting seq) }
    ensures emptied_apart { (place : APlace) (seq : ℕ) (space : Space) (other : APlace)
        → AreInOtherBuckets place other → HoldsNode space other
        → HoldsNode (emptied place seq space) other }
    ensures emptied_held { (past : ℕ) (place : APlace) (seq : ℕ) (space : Space) (other : APlace)
        → past < seq → IsHeldPast past space other
        → IsHeldPast past (emptied place seq space) other }
    ensures emptied_held_apart { (past : ℕ) (place : APlace) (seq : ℕ) (space : Space)
        (other : APlace) → AreInOtherBuckets place other → IsHeldPast past space other
        → IsHeldPast past (emptied place seq space) other }
    ensures emptied_fixed { (layout : ALayout) (place : APlace) (seq : ℕ) (space : Space)
        → AreFixed layout space → AreFixed layout (emptied place seq space) }
    ensures opened_fixed { (layout : ALayout) (live : List AKey) (nodes : List APlace)
        → is_layout layout ≡ true → AreFixed layout (space_of layout live nodes) }
    ensures opened_hold { (layout : ALayout) (live : List AKey) (nodes : List APlace)
        → is_layout layout ≡ true
        → All (λ place. MayHoldNode layout place → HoldsNode (space_of layout live nodes) place)
        nodes }
{}
