ghost use Rattle.std.specs.Prelude.{◌≡◌, ◌+◌, ◌/◌, ◌<◌, ◌≤◌, ◌^◌, ◌++◌, ℕ, List, [], Option, length, All, IsSome, IfSome};
ghost use Rattle.std.specs.Map.{values_of};
ghost use Rattle.vol_types.specs.KeyMaps.{Entries, keys_in};
ghost use Rattle.vol_types.specs.Maps.{IsMap, put_at, value_at};
ghost use Rattle.vol_types.specs.Positions.{pos_cmp, IsWithin};
ghost use Rattle.vol_types.specs.Ranges.{IsKeyValue};
ghost use Rattle.vol_types.specs.Sets.{set_length_of};
ghost use Rattle.vol_types.specs.Standing.{MayStand};
ghost use Rattle.vol_types.specs.declared.keys.Key.{Key as AKey};
ghost use Rattle.vol_types.specs.declared.positions.Btree.{Btree as ABtree};
ghost use Rattle.vol_types.specs.declared.positions.Pos.{Pos as APos};
ghost use Rattle.vol_types.specs.declared.values.Value.{Value as AValue};
ghost use Rattle.node_mem.specs.Counts.{length_of, lengths_of};
ghost use Rattle.node_mem.specs.Nodes.{Node, IsNode, with_entries, with_keys, entries_after, entries_up_to, middle_of};
ghost use Rattle.node_mem.specs.Sets.{AreSetKeys};

/// A node whose values may stand in a btree at its level, and whose size fits 32 bits, gives a set that has an encoding,
/// and none of its keys is removed.
pub fn nodes_are_sets()
    ensures keys { (btree : ABtree) (level : ℕ) (node : Node) → IsNode node
        → set_length_of (keys_in node.entries) < 2 ^ 32
        → All (MayStand btree level) (values_of node.entries) → AreSetKeys btree level node.least
        node.greatest (keys_in node.entries) }
    ensures present { (entries : Entries) → All (λ key. IsSome key.value) (keys_in entries) }
{}

/// What keys make of a node: those of a node make it from nothing, keys one after another are put as joined ones, and a
/// node stays one where its range covers the keys and their values are in range.
pub fn keys_are_merged()
    ensures whole { (entries : Entries) → IsMap pos_cmp entries → with_keys (keys_in entries) []
        ≡ entries }
    ensures joined { (first second : List AKey) (entries : Entries) → with_keys (first ++ second)
        entries ≡ with_keys second (with_keys first entries) }
    ensures stays { (keys : List AKey) (node : Node) → IsNode node
        → All (λ key. IsWithin node.least node.greatest key.pos) keys
        → All (λ key. IsKeyValue key.value) keys
        → IsNode (with_entries node (with_keys keys node.entries)) }
{}

/// After a split at the middle position half of the entries stay, or half and one more, and the others leave.
pub fn middles_halve()
    ensures stay { (entries : Entries) → IsMap pos_cmp entries
        → IfSome (middle_of entries) (λ at. length (entries_up_to at entries)
        ≡ (length entries + 1) / 2) }
    ensures leave { (entries : Entries) → IsMap pos_cmp entries
        → IfSome (middle_of entries) (λ at. length (entries_after at entries) ≡ length entries /
        2) }
    ensures two { (entries : Entries) → 2 ≤ length entries → IsSome (middle_of entries) }
{}

/// What a set takes after a value is put at a position or taken away, with what was there, and what joined entries take.
pub fn puts_are_counted()
    ensures put { (pos : APos) (entries : Entries) → IsMap pos_cmp entries → (value : Option AValue)
        → set_length_of (keys_in (put_at pos_cmp pos value entries)) + length_of
        (value_at pos_cmp pos entries) ≡ set_length_of (keys_in entries) + length_of value }
    ensures joined { (first second : Entries) → lengths_of (first ++ second) ≡ lengths_of
        first + lengths_of second }
{}
