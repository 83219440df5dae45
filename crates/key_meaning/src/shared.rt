ghost use Rattle.std.specs.Prelude.{◌≡◌, Bool, true, ℕ, All, IsSome, Option, Some, ◌∷◌};
ghost use Rattle.std.specs.Option.{option_or};
ghost use Rattle.std.specs.Ordering.{nat_cmp};
ghost use Rattle.snap_tree.specs.Snaps.{IsSnapTree, chain_of, chain_of_maybe, parent_of};
ghost use Rattle.vol_types.specs.KeyMaps.{IsKeyMap, KeyMap, entries_of, is_update_of, with_update};
ghost use Rattle.vol_types.specs.Maps.{value_at};
ghost use Rattle.vol_types.specs.declared.keys.Update.{Update};
ghost use Rattle.vol_types.specs.declared.positions.Btree.{Btree};
ghost use Rattle.vol_types.specs.declared.positions.Btree.TheVariants.{Extents};
ghost use Rattle.vol_types.specs.declared.positions.Pos.{Pos};
ghost use Rattle.vol_types.specs.declared.values.Value.{Value};
ghost use Rattle.key_meaning.specs.Alike.{HasNoKeys, HaveSameFiles, ShowAlike};
ghost use Rattle.key_meaning.specs.Blocks.{cover_in, covers, first_cover, own_cover};
ghost use Rattle.key_meaning.specs.Checks.{IsCoveredOnce};
ghost use Rattle.key_meaning.specs.CoverLaws.{pos_of};
ghost use Rattle.key_meaning.specs.Visible.{own_value, snaps_of};

/// What covers a block of a file in an id itself is one of the file's extents and holes there, and where these don't overlap it is
/// the one that covers the block. A block belongs to it, and else to what it belongs to in the parent.
pub fn blocks_are_covered()
    ensures found { (keys : KeyMap) (file block id : ℕ) (entry : Pos × Value) → IsKeyMap keys
        → own_cover keys file block id ≡ Some entry → (entry.0 ≡ pos_of file entry.0.offset id)
        × (own_value keys Extents file entry.0.offset id ≡ Some entry.1)
        × (covers entry.0.offset entry.1 block ≡ true) }
    ensures only { (keys : KeyMap) (file block id end : ℕ) (value : Value) → IsKeyMap keys
        → IsCoveredOnce keys file id → own_value keys Extents file end id ≡ Some value
        → covers end value block ≡ true
        → own_cover keys file block id ≡ Some (pos_of file end id, value) }
    ensures step { (keys : KeyMap) (id file block : ℕ) → IsSnapTree (snaps_of keys)
        → IsSome (value_at nat_cmp id (snaps_of keys)) → cover_in keys id file block
        ≡ option_or (own_cover keys file block id) (first_cover keys file block
        (chain_of_maybe (snaps_of keys) (parent_of (snaps_of keys) id))) }
{}

/// Ids of one chain show the same where the keys of files are the same, and a new id without keys of its own shows what that one
/// shows whose chain its own goes on with.
pub fn shared_keys_show_alike()
    ensures chain { (one other : KeyMap) → HaveSameFiles one other → (id another : ℕ)
        → chain_of (snaps_of one) id ≡ chain_of (snaps_of other) another
        → ShowAlike one id other another }
    ensures below { (one other : KeyMap) → HaveSameFiles one other → (id another : ℕ)
        → chain_of (snaps_of one) id ≡ id ∷ chain_of (snaps_of other) another
        → HasNoKeys one id → ShowAlike one id other another }
{}

/// A test that all entries of a btree pass, they pass after an update too, where the entry that it puts does.
pub fn entries_stay_as_they_are()
    ensures { (test : Pos × Value → Bool) (update : Update) (keys : KeyMap) (btree : Btree)
        → (is_update_of btree update ≡ true → (put : Value) → update.value ≡ Some put
        → test (update.pos, put) ≡ true)
        → All (λ entry. test entry ≡ true) (entries_of keys btree)
        → All (λ entry. test entry ≡ true) (entries_of (with_update update keys) btree) }
{}
