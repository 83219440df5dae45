ghost use Rattle.std.specs.Prelude.{◌≡◌, ◌≤◌, ◌↔◌, ◌++◌, ◌&&◌, List, Option, Some, None, All, MatchOption, if◌then◌else◌, true};
ghost use Rattle.std.specs.BTreeMap.{is_at};
ghost use Rattle.std.specs.Cmp.{IsTotalOrder};
ghost use Rattle.std.specs.List.Sorted.{IsStrictlySortedBy};
ghost use Rattle.std.specs.Option.{option_or};
ghost use Rattle.std.specs.Ordering.{nat_cmp};
ghost use Rattle.std.specs.declared.cmp.Ordering.TheVariants.{Equal};
ghost use Rattle.vol_types.specs.KeyMaps.{KeyMap, IsKeyMap, GivesLooks, entries_of, is_update_of, updated_entries, value_in, with_update, with_updates};
ghost use Rattle.vol_types.specs.Layouts.{IsLayout, is_layout};
ghost use Rattle.vol_types.specs.Lengths.{key_length_of};
ghost use Rattle.vol_types.specs.Limits.{block_size, bucket_blocks, node_limit};
ghost use Rattle.vol_types.specs.MapLaws.{AreKeysBelow};
ghost use Rattle.vol_types.specs.Maps.{IsMap, put_at, value_at, with_value, without};
ghost use Rattle.vol_types.specs.Positions.{IsNext, IsWithin, greatest_pos, is_within, least_pos, next_pos, pos_cmp, pos_number};
ghost use Rattle.vol_types.specs.Ranges.{IsKeyValue, Rise};
ghost use Rattle.vol_types.specs.Sets.{set_head_length};
ghost use Rattle.vol_types.specs.Widths.{PosFits};
ghost use Rattle.vol_types.specs.declared.keys.Update.{Update as AnUpdate};
ghost use Rattle.vol_types.specs.declared.layout.Layout.{Layout as ALayout};
ghost use Rattle.vol_types.specs.declared.positions.Btree.{Btree as ABtree};
ghost use Rattle.vol_types.specs.declared.positions.Pos.{Pos as APos};
ghost use Rattle.vol_types.specs.declared.queries.Look.{Look as ALook};
ghost use Rattle.vol_types.specs.declared.values.Value.{Value as AValue};

use crate::{BLOCK_SIZE, BUCKET_BLOCKS, NODE_LIMIT, Pos, SET_HEAD};

/// The constants of the code are those of the definitions.
pub fn constants_are_defined()
    ensures block { BLOCK_SIZE ≡ block_size }
    ensures bucket { BUCKET_BLOCKS ≡ bucket_blocks }
    ensures node { NODE_LIMIT ≡ node_limit }
    ensures set { SET_HEAD ≡ set_head_length }
    ensures least { Pos.LEAST ≡ least_pos }
    ensures greatest { Pos.GREATEST ≡ greatest_pos }
{}

/// Positions are in a total order, which tells any two apart, and which is that of their numbers.
pub fn positions_are_ordered()
    ensures total { IsTotalOrder pos_cmp }
    ensures exact { (p q : APos) → pos_cmp p q ≡ Equal → p ≡ q }
    ensures numbers { (p q : APos) → PosFits p → PosFits q → pos_cmp p q ≡ nat_cmp (pos_number p)
        (pos_number q) }
    ensures within { (first last p : APos) → (is_within first last p ≡ true) ↔ IsWithin first last p }
    ensures next { (p : APos) → PosFits p → MatchOption (next_pos p) (p ≡ greatest_pos) (IsNext p) }
{}

/// A list in which each member is above the one before it is one in which each is below all later ones.
pub fn rising_lists_are_sorted<T: Ord>()
    ensures { (members : List T) → Rise T.cmp members ↔ IsStrictlySortedBy T.cmp members }
{}

/// What is looked up in a map after it was changed, and that it is a map then.
pub fn maps_are_functions<K: Ord, X>()
    ensures put { (key : K) (value : X) (q : K) (entries : List (K × X))
        → value_at K.cmp q (with_value K.cmp key value entries)
        ≡ (if is_at (K.cmp key) q then Some value else value_at K.cmp q entries) }
    ensures removed { (key q : K) (entries : List (K × X)) → IsMap K.cmp entries
        → value_at K.cmp q (without K.cmp key entries)
        ≡ (if is_at (K.cmp key) q then None else value_at K.cmp q entries) }
    ensures joined { (key : K) (first second : List (K × X)) → value_at K.cmp key (first ++ second)
        ≡ option_or (value_at K.cmp key first) (value_at K.cmp key second) }
    ensures put_stays { (key : K) (value : Option X) (entries : List (K × X)) → IsMap K.cmp entries
        → IsMap K.cmp (put_at K.cmp key value entries) }
    ensures parts { (first second : List (K × X)) → IsMap K.cmp (first ++ second)
        → IsMap K.cmp first × IsMap K.cmp second × AreKeysBelow K.cmp first second }
    ensures whole { (first second : List (K × X)) → IsMap K.cmp first → IsMap K.cmp second
        → AreKeysBelow K.cmp first second → IsMap K.cmp (first ++ second) }
    ensures same { ((x y : K) → K.cmp x y ≡ Equal → x ≡ y) → (one other : List (K × X))
        → IsMap K.cmp one → IsMap K.cmp other
        → ((key : K) → value_at K.cmp key one ≡ value_at K.cmp key other) → one ≡ other }
{}

/// What a key map has in each btree after updates, and that it gives looks one by one.
pub fn key_maps_are_updated()
    ensures entries { (update : AnUpdate) (keys : KeyMap) (btree : ABtree)
        → entries_of (with_update update keys) btree ≡ updated_entries btree update
        (entries_of keys btree) }
    ensures value { (update : AnUpdate) (keys : KeyMap) (btree : ABtree) (pos : APos)
        → IsKeyMap keys → value_in (with_update update keys) btree pos
        ≡ (if is_update_of btree update && is_at (pos_cmp update.pos) pos then update.value else
        value_in keys btree pos) }
    ensures same { (one other : KeyMap) → ((btree : ABtree) → entries_of one btree ≡ entries_of
        other btree) → one ≡ other }
    ensures joined { (first second : List AnUpdate) (keys : KeyMap) → with_updates (first ++ second)
        keys ≡ with_updates second (with_updates first keys) }
    ensures stays { (updates : List AnUpdate) (keys : KeyMap) → IsKeyMap keys
        → IsKeyMap (with_updates updates keys) }
    ensures looks { (keys : KeyMap) (first second : List ALook) → GivesLooks keys first
        → GivesLooks keys second → GivesLooks keys (first ++ second) }
{}

/// The test of layouts passes exactly those that a volume may have.
pub fn layouts_are_tested()
    ensures { (layout : ALayout) → (is_layout layout ≡ true) ↔ IsLayout layout }
{}

/// No key takes more than 2,221 bytes.
pub fn keys_are_short()
    ensures { (value : Option AValue) → IsKeyValue value → key_length_of value ≤ 2221 }
{}
