ghost use Rattle.std.specs.Prelude.{◌≡◌, ◌↔◌, ◌++◌, ◌∷◌, [], All, IfOk, IsTrue, OnOk, Err, map};
ghost use Rattle.std.specs.List.{AllByRecursion, flat_map};
ghost use Rattle.std.specs.Map.{keys_of};
ghost use Rattle.replay.specs.Volumes.{AreBtrees, IsFoundBtree, cut_found, trees_found};
ghost use Rattle.tree_keys.specs.Cuts.{IsCut};
ghost use Rattle.tree_nodes.specs.Levels.{IsTree, level_of};
ghost use Rattle.vol_types.specs.Maps.{IsMap, with_value};
ghost use Rattle.vol_types.specs.Positions.{pos_cmp};
ghost use Rattle.vol_types.specs.Ranges.{IsAbove, Rise};

use btree_map::{KeyMap, NotAKeyMap};
use image_reader::FoundBtree;
use std::alloc::{AllocError, AllocFailed, Global};
use std::collections::BTreeMap;
use tree_keys::TreeKeys;
use tree_nodes::{LevelNodes, TreeNodes};
use vol_types::{Births, Ends, Listing, NodePtr, Pos, Value};

/// Why lists of what was found make no btrees.
#[derive(Clone, Copy, PartialEq, Eq)]
pub enum Unmade {
    /// They aren't those of a key map.
    NotBtrees,
    /// Out of memory.
    NoMemory,
}

impl From<AllocError> for Unmade {
    ghost use Rattle.std.specs.Prelude.{◌≡◌};
    ghost use Rattle.replay.specs.declared.btrees.Unmade.TheVariants.{NoMemory};

    ghost from_gives = { λ _ fault. fault ≡ NoMemory };

    fn from(_error: AllocError) -> Self {
        Unmade::NoMemory
    }
}

impl<T: Drop> From<AllocFailed<T>> for Unmade {
    ghost use Rattle.std.specs.Prelude.{◌≡◌};
    ghost use Rattle.replay.specs.declared.btrees.Unmade.TheVariants.{NoMemory};

    ghost from_gives = { λ _ fault. fault ≡ NoMemory };

    fn from(_error: AllocFailed<T>) -> Self {
        Unmade::NoMemory
    }
}

/// The key map of btrees that were found.
#[derive(Drop)]
pub struct MadeMap {
    pub map: KeyMap,
    /// Where the sets of their nodes end.
    pub ends: Ends,
    /// The births of the nodes of which some place lacks a set.
    pub ragged: Births,
}

// The keys and the nodes of btrees, as they are made one after the other, with what is said of their nodes besides.
#[derive(Drop)]
struct Parts {
    keys: Listing<TreeKeys>,
    nodes: Listing<TreeNodes>,
    ends: Ends,
    ragged: Births,
}

impl Parts {
    fn new(alloc: Global) -> Parts
        ensures keys { result.keys ≡ [] }
        ensures nodes { result.nodes ≡ [] }
        ensures ends { result.ends ≡ [] }
        ensures ragged { result.ragged ≡ [] }
    {
        Parts {
            keys: Listing::new(alloc),
            nodes: Listing::new(alloc),
            ends: Listing::new(alloc),
            ragged: Listing::new(alloc),
        }
    }

    // Adds those of one more btree.
    fn add(&mut self, alloc: Global, btree: FoundBtree) -> Result<(), Unmade>
        ensures keys { OnOk result (self.new.keys ≡ self.old.keys ++ cut_found btree ∷ []) }
        ensures nodes { OnOk result (self.new.nodes ≡ self.old.nodes ++ btree.levels ∷ []) }
        ensures ends { OnOk result (self.new.ends ≡ self.old.ends ++ btree.ends) }
        ensures ragged { OnOk result (self.new.ragged ≡ self.old.ragged ++ btree.ragged) }
        ensures err { result ≡ Err Unmade.NotBtrees → ¬ IsFoundBtree btree }
    {
        let FoundBtree {
            entries,
            levels,
            mut ends,
            mut ragged,
        } = btree;
        let leaf_ends = ends_of(alloc, &levels)?;
        let keys = tree_keys(alloc, entries, &leaf_ends)?;
        let nodes = tree_nodes(alloc, levels)?;
        self.keys.push(keys)?;
        self.nodes.push(nodes)?;
        self.ends.append(&mut ends)?;
        self.ragged.append(&mut ragged)?;
        Ok(())
    }
}

/// The key map of btrees that were found, which stand in the order of their numbers. It goes over all nodes and values, and
/// takes memory for each.
pub fn key_map(alloc: Global, btrees: Listing<FoundBtree>) -> Result<MadeMap, Unmade>
    ensures map { IfOk result (λ made. made.map ≡ trees_found btrees) }
    ensures ends { IfOk result (λ made. made.ends ≡ flat_map (λ btree. btree.ends) btrees) }
    ensures ragged { IfOk result (λ made. made.ragged ≡ flat_map (λ btree. btree.ragged) btrees) }
    ensures err { result ≡ Err Unmade.NotBtrees → ¬ AreBtrees btrees }
{
    let Parts {
        keys,
        nodes,
        ends,
        ragged,
    } = parts_of(alloc, btrees)?;
    match KeyMap::of(alloc, keys, nodes) {
        Ok(map) => Ok(MadeMap { map, ends, ragged }),
        Err(NotAKeyMap::NoMemory) => Err(Unmade::NoMemory),
        Err(_) => Err(Unmade::NotBtrees),
    }
}

// The parts of all btrees.
fn parts_of(alloc: Global, btrees: Listing<FoundBtree>) -> Result<Parts, Unmade>
    ensures keys { IfOk result (λ parts. parts.keys ≡ map cut_found btrees) }
    ensures nodes { IfOk result (λ parts. parts.nodes ≡ map (λ btree. btree.levels) btrees) }
    ensures ends { IfOk result (λ parts. parts.ends ≡ flat_map (λ btree. btree.ends) btrees) }
    ensures ragged { IfOk result (λ parts. parts.ragged ≡ flat_map (λ btree. btree.ragged) btrees) }
    ensures err { result ≡ Err Unmade.NotBtrees → ¬ AllByRecursion IsFoundBtree btrees }
{
    let mut parts = Parts::new(alloc);
    for btree in Vec::from(btrees) {
        parts.add(alloc, btree)?;
    }
    Ok(parts)
}

// The keys of a btree, cut at these ends.
fn tree_keys(
    alloc: Global,
    entries: Listing<(Pos, Value)>,
    ends: &[Pos],
) -> Result<TreeKeys, Unmade>
    ensures made { IfOk result (λ keys. keys ≡ record { entries = entries; ends = ends.now }) }
    ensures err { result ≡ Err Unmade.NotBtrees
        → ¬ IsCut (record { entries = entries; ends = ends.now }) }
{
    if !do_rise(entries.as_slice()) {
        return Err(Unmade::NotBtrees);
    }
    let keys = map_of(alloc, entries)?;
    match TreeKeys::of(alloc, keys, ends)? {
        Some(keys) => Ok(keys),
        None => Err(Unmade::NotBtrees),
    }
}

// The nodes of a btree, from the leaves up.
fn tree_nodes(alloc: Global, levels: Listing<Listing<(Pos, NodePtr)>>) -> Result<TreeNodes, Unmade>
    ensures made { IfOk result (λ nodes. nodes ≡ levels) }
    ensures err { result ≡ Err Unmade.NotBtrees → ¬ IsTree levels }
{
    let levels = all_levels(alloc, levels)?;
    match TreeNodes::of(levels) {
        Ok(nodes) => Ok(nodes),
        Err(_) => Err(Unmade::NotBtrees),
    }
}

// Each level of nodes.
fn all_levels(
    alloc: Global,
    levels: Listing<Listing<(Pos, NodePtr)>>,
) -> Result<Listing<LevelNodes>, Unmade>
    ensures made { IfOk result (λ all. all ≡ levels) }
    ensures err { result ≡ Err Unmade.NotBtrees → ¬ AllByRecursion (IsMap pos_cmp) levels }
{
    let mut all = Listing::new(alloc);
    for level in Vec::from(levels) {
        all.push(level_nodes(alloc, level)?)?;
    }
    Ok(all)
}

// The nodes of a level, where they rise.
fn level_nodes(alloc: Global, level: Listing<(Pos, NodePtr)>) -> Result<LevelNodes, Unmade>
    ensures made { IfOk result (λ nodes. nodes ≡ level) }
    ensures err { result ≡ Err Unmade.NotBtrees → ¬ IsMap pos_cmp level }
{
    if !do_rise(level.as_slice()) {
        return Err(Unmade::NotBtrees);
    }
    Ok(rising_level(alloc, level)?)
}

// The nodes of a level that rise.
fn rising_level(alloc: Global, level: Listing<(Pos, NodePtr)>) -> Result<LevelNodes, AllocError>
    requires { IsMap pos_cmp level }
    ensures { IfOk result (λ nodes. nodes ≡ level) }
{
    let mut nodes = LevelNodes::new(alloc);
    for (greatest, node) in Vec::from(level) {
        add_node(&mut nodes, &greatest, node)?;
    }
    Ok(nodes)
}

fn add_node(nodes: &mut LevelNodes, greatest: &Pos, node: NodePtr) -> Result<(), AllocError>
    ensures { OnOk result (nodes.new ≡ with_value pos_cmp greatest.now node nodes.old) }
{
    nodes.put(greatest, node)?;
    Ok(())
}

// The map of values that rise.
fn map_of(alloc: Global, entries: Listing<(Pos, Value)>) -> Result<BTreeMap<Pos, Value>, AllocError>
    requires { IsMap pos_cmp entries }
    ensures { IfOk result (λ map. map.entries ≡ entries) }
{
    let mut map = BTreeMap::new(alloc);
    for (pos, value) in Vec::from(entries) {
        add_value(&mut map, pos, value)?;
    }
    Ok(map)
}

fn add_value(map: &mut BTreeMap<Pos, Value>, pos: Pos, value: Value) -> Result<(), AllocError>
    ensures { OnOk result (map.new.entries ≡ with_value pos_cmp pos value map.old.entries) }
{
    map.insert(pos, value)?;
    Ok(())
}

// The ends of the leaves of a btree.
fn ends_of(alloc: Global, levels: &Listing<Listing<(Pos, NodePtr)>>) -> Result<Vec<Pos>, AllocError>
    ensures { IfOk result (λ ends. ends.items ≡ keys_of (level_of levels.now 0)) }
{
    match levels.get(0) {
        None => Ok(Vec::new(alloc)),
        Some(leaves) => positions(alloc, leaves.as_slice()),
    }
}

fn positions(alloc: Global, level: &[(Pos, NodePtr)]) -> Result<Vec<Pos>, AllocError>
    ensures { IfOk result (λ ends. ends.items ≡ keys_of level.now) }
{
    let mut ends = Vec::new(alloc);
    for node in level {
        ends.push(node.0)?;
    }
    Ok(ends)
}

// Whether each position is above the one before it.
fn do_rise<V>(pairs: &[(Pos, V)]) -> bool
    ensures { IsTrue result ↔ Rise pos_cmp (keys_of pairs.now) }
{
    let mut before = None;
    for pair in pairs {
        if !is_above(before, pair.0) {
            return false;
        }
        before = Some(pair.0);
    }
    true
}

fn is_above(before: Option<Pos>, pos: Pos) -> bool
    ensures { IsTrue result ↔ IsAbove pos_cmp before pos }
{
    match before {
        None => true,
        Some(before) => before < pos,
    }
}
