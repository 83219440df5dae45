ghost use Rattle.std.specs.Prelude.{◌≡◌, ◌+◌, ◌*◌, ◌/◌, ◌≤◌, ℕ, All, List, length};
ghost use Rattle.key_triggers.specs.Bounds.{bytes_in, extents_changed, pointers_changed};
ghost use Rattle.key_triggers.specs.Expanding.{expanded};
ghost use Rattle.key_triggers.specs.Follows.{Follows, IsExpanded, MayFollow};
ghost use Rattle.vol_types.specs.KeyMaps.{KeyMap, with_updates};
ghost use Rattle.vol_types.specs.Ranges.{IsValue};
ghost use Rattle.vol_types.specs.Standing.{IsUpdate};
ghost use Rattle.vol_types.specs.declared.keys.Update.{Update};
ghost use Rattle.vol_types.specs.declared.layout.Layout.{Layout};
ghost use Rattle.vol_types.specs.declared.pointers.Place.{Place};
ghost use Rattle.vol_types.specs.declared.positions.Btree.TheVariants.{Extents};

/// What is made of a plan's updates has the plan's and keys on space alone, and these follow the extents.
pub fn expanded_keys_follow()
    ensures expanded { (keys : KeyMap) (updates : List Update)
        → IsExpanded keys updates (expanded keys updates) }
    ensures fits { (keys : KeyMap) (updates : List Update) → All IsUpdate updates
        → All IsUpdate (expanded keys updates) }
    ensures follows { (keys : KeyMap) (updates : List Update) (nodes : List Place) (layout : Layout)
        → MayFollow keys updates nodes layout
        → Follows keys (with_updates (expanded keys updates) keys) updates nodes layout }
{}

/// What is made of a plan's updates takes few bytes. Where extents are in range, each update of one takes at most 180 bytes, and
/// takes and gives at most six pointers; each of these takes at most 71 bytes more, 28 for the key of its bucket and 43 for that
/// of its block. So up to 417 updates of extents and holes, with what follows from them, are in one entry of the journal.
pub fn expanded_updates_are_few()
    ensures pointers { (keys : KeyMap) (updates : List Update) → All IsUpdate updates
        → All (λ entry. IsValue entry.1) keys.extents
        → pointers_changed keys updates ≤ 6 * extents_changed updates }
    ensures bytes { (keys : KeyMap) (updates : List Update)
        → bytes_in (expanded keys updates) ≤ bytes_in updates + 71 * pointers_changed keys updates }
    ensures content { (updates : List Update) → All IsUpdate updates
        → All (λ update. (update.btree ≡ Extents) × (update.level ≡ 0)) updates
        → bytes_in updates ≤ 180 * length updates }
    // Its 64 blocks of 3,968 bytes hold them and the roots, which lie on so many metadata devices.
    ensures entry { (keys : KeyMap) (updates : List Update) → All IsUpdate updates
        → All (λ entry. IsValue entry.1) keys.extents
        → bytes_in updates + 426 * extents_changed updates ≤ 253000 → (mirrors : ℕ) → mirrors ≤ 3
        → (36 + 9 * (10 + 5 * mirrors) + bytes_in (expanded keys updates) + 3967) / 3968 ≤ 64 }
{}
