ghost use Rattle.std.specs.BTreeMap.{is_at};
ghost use Rattle.std.specs.List.{filter, flat_map};
ghost use Rattle.std.specs.Prelude.{◌≡◌, ◌++◌, List, Option, None, Some, IsSome, false, true, unwrap_or};
ghost use Rattle.node_mem.specs.Nodes.{entries_after, entries_up_to, with_keys};
ghost use Rattle.tree_keys.specs.Changes.{AreLast, fresh_positions, keys_with, made, placed};
ghost use Rattle.tree_keys.specs.Cuts.{AreEnds, Cut, IsCut, cut_at, end_of, is_end, joined_at, leaf_entries, start_of, with_entries};
ghost use Rattle.vol_types.specs.KeyMaps.{Entries};
ghost use Rattle.vol_types.specs.Maps.{IsMap, put_at, value_at};
ghost use Rattle.vol_types.specs.Positions.{IsBefore, greatest_pos, is_within, pos_cmp};
ghost use Rattle.vol_types.specs.Widths.{PosFits};
ghost use Rattle.vol_types.specs.declared.positions.Pos.{Pos as APos};
ghost use Rattle.vol_types.specs.declared.values.Value.{Value as AValue};

/// Each position is covered by one leaf, which is the one in whose range it lies.
pub fn leaves_cover_positions()
    ensures one { (pos : APos) (ends : List APos) → AreEnds ends → PosFits pos
        → is_end (end_of pos ends) ends ≡ true }
    ensures range { (pos end : APos) (ends : List APos) → AreEnds ends → PosFits pos
        → is_end end ends ≡ true → is_within (start_of end ends) end pos ≡ is_at (pos_cmp end)
        (end_of pos ends) }
    ensures entries { (end : APos) (cut : Cut) → IsCut cut → is_end end cut.ends ≡ true
        → leaf_entries end cut ≡ filter (λ entry. is_at (pos_cmp end) (end_of entry.0 cut.ends))
        cut.entries }
{}

/// A value that is put at a position or taken away changes the entries of the leaf that covers it, and of no other.
pub fn changes_stay_in_leaves()
    ensures here { (cut : Cut) → IsCut cut → (pos : APos) → PosFits pos
        → (value : Option AValue) (end : APos) → is_end end cut.ends ≡ true
        → end_of pos cut.ends ≡ end → leaf_entries end
        (with_entries cut (put_at pos_cmp pos value cut.entries)) ≡ put_at pos_cmp pos value
        (leaf_entries end cut) }
    ensures elsewhere { (cut : Cut) → IsCut cut → (pos : APos) → PosFits pos
        → (value : Option AValue) (end : APos) → is_end end cut.ends ≡ true
        → is_at (pos_cmp end) (end_of pos cut.ends) ≡ false
        → leaf_entries end (with_entries cut (put_at pos_cmp pos value cut.entries))
        ≡ leaf_entries end cut }
{}

/// After a leaf was cut in two at a position that is no end, the first one has what it had up to the position, the second
/// what it had after it, and each other leaf what it had.
pub fn cuts_part_leaves()
    ensures keys { (cut : Cut) → IsCut cut → (at : APos) → PosFits at → is_end at cut.ends ≡ false
        → IsCut (cut_at at cut) }
    ensures first { (cut : Cut) → IsCut cut → (at : APos) → PosFits at → is_end at cut.ends ≡ false
        → leaf_entries at (cut_at at cut) ≡ entries_up_to at
        (leaf_entries (end_of at cut.ends) cut) }
    ensures second { (cut : Cut) → IsCut cut → (at : APos) → PosFits at → is_end at cut.ends ≡ false
        → leaf_entries (end_of at cut.ends) (cut_at at cut) ≡ entries_after at
        (leaf_entries (end_of at cut.ends) cut) }
    ensures others { (cut : Cut) → IsCut cut → (at : APos) → PosFits at → is_end at cut.ends ≡ false
        → (end : APos) → is_end end cut.ends ≡ true → is_at (pos_cmp end) (end_of at cut.ends)
        ≡ false → leaf_entries end (cut_at at cut) ≡ leaf_entries end cut }
{}

/// Joining a leaf with the next one undoes a cut, and a cut undoes joining. The leaf that is made of two has what both had, in
/// their order, and each other leaf what it had.
pub fn joins_undo_cuts()
    ensures undone { (cut : Cut) (at : APos) → is_end at cut.ends ≡ false
        → joined_at at (cut_at at cut) ≡ cut }
    ensures again { (cut : Cut) (at : APos) → IsCut cut → is_end at cut.ends ≡ true
        → cut_at at (joined_at at cut) ≡ cut }
    ensures keys { (cut : Cut) → IsCut cut → (at : APos) → is_end at cut.ends ≡ true
        → IsBefore at greatest_pos → IsCut (joined_at at cut) }
    ensures both { (cut : Cut) → IsCut cut → (at : APos) → is_end at cut.ends ≡ true
        → IsBefore at greatest_pos
        → leaf_entries (end_of at (joined_at at cut).ends) (joined_at at cut)
        ≡ leaf_entries at cut ++ leaf_entries (end_of at (joined_at at cut).ends) cut }
    ensures others { (cut : Cut) → IsCut cut → (at : APos) → is_end at cut.ends ≡ true
        → IsBefore at greatest_pos
        → (end : APos) → is_end end (joined_at at cut).ends ≡ true
        → is_at (pos_cmp end) (end_of at (joined_at at cut).ends) ≡ false
        → leaf_entries end (joined_at at cut) ≡ leaf_entries end cut }
{}

/// Where the room for changes was taken, each position that gets a value has one. Making them then gives each position its
/// last value, and giving the room back leaves what was there before.
pub fn changes_are_made()
    ensures placed { (last : List (APos × Option AValue)) (cut : Cut) → IsCut cut
        → (pos : APos) (value : AValue) → value_at pos_cmp pos last ≡ Some (Some value)
        → IsSome (value_at pos_cmp pos (placed last cut).entries) }
    ensures made { (last : List (APos × Option AValue)) (cut : Cut) (after : Entries) → IsCut cut
        → AreLast last → IsMap pos_cmp after
        → ((pos : APos) → unwrap_or (value_at pos_cmp pos last) (value_at pos_cmp pos cut.entries)
        ≡ value_at pos_cmp pos after) → made last (placed last cut) ≡ with_entries cut after }
    ensures undone { (last : List (APos × Option AValue)) (cut : Cut) → IsCut cut
        → with_entries cut (with_keys (keys_with None (fresh_positions last cut.entries))
        (placed last cut).entries) ≡ cut }
{}

/// The entries of all leaves, joined in the order of their ends, are the entries.
pub fn leaves_are_joined()
    ensures { (cut : Cut) → IsCut cut → flat_map (λ end. leaf_entries end cut) cut.ends
        ≡ cut.entries }
{}
