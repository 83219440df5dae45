ghost use Rattle.std.specs.Prelude.{◌≡◌, ◌≢◌, false, ℕ, All, List, Option};
ghost use Rattle.extent_ops.specs.Content.{AreOfContent};
ghost use Rattle.key_meaning.specs.VisibleLaws.{is_put_at};
ghost use Rattle.key_triggers.specs.Follows.{IsNoSpaceUpdate};
ghost use Rattle.key_view.specs.Changes.{updates_to_see};
ghost use Rattle.vol_types.specs.KeyMaps.{KeyMap, entries_of, is_update_of, with_updates};
ghost use Rattle.vol_types.specs.declared.keys.Update.{Update};
ghost use Rattle.vol_types.specs.declared.positions.Btree.{Btree};
ghost use Rattle.vol_types.specs.declared.positions.Btree.TheVariants.{Alloc, Backptrs, Extents};
ghost use Rattle.vol_types.specs.declared.values.Value.{Value};

/// Updates of content are of extents and holes alone: of no key on space, and of no other btree. Those to see a value are of their
/// btree alone, and of no key on space where it has none. Updates of other btrees leave a btree's entries.
pub fn plans_leave_space()
    ensures content { (id : ℕ) (updates : List Update) → AreOfContent id updates
        → All IsNoSpaceUpdate updates }
    ensures others { (id : ℕ) (updates : List Update) (btree : Btree) → AreOfContent id updates
        → btree ≢ Extents → All (λ (update : Update). is_update_of btree update ≡ false) updates }
    ensures places { (id : ℕ) (updates : List Update) (btree : Btree) (inode offset : ℕ)
        → AreOfContent id updates → btree ≢ Extents
        → All (λ (update : Update). is_put_at update btree inode offset ≡ false) updates }
    ensures seen_others { (keys : KeyMap) (btree other : Btree) (inode offset id : ℕ)
        (value : Option Value) → other ≢ btree
        → All (λ (update : Update). is_update_of other update ≡ false)
        (updates_to_see keys btree inode offset id value) }
    ensures seen { (keys : KeyMap) (btree : Btree) (inode offset id : ℕ) (value : Option Value)
        → btree ≢ Alloc → btree ≢ Backptrs
        → All IsNoSpaceUpdate (updates_to_see keys btree inode offset id value) }
    ensures stay { (keys : KeyMap) (updates : List Update) (btree : Btree)
        → All (λ (update : Update). is_update_of btree update ≡ false) updates
        → entries_of (with_updates updates keys) btree ≡ entries_of keys btree }
{}
