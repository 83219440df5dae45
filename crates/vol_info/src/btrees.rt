ghost use Rattle.std.specs.Prelude.{◌≡◌, ◌++◌, ◌∷◌, [], IfOk, OnOk, map};
ghost use Rattle.std.specs.List.{flat_map};
ghost use Rattle.std.specs.Map.{values_of};
ghost use Rattle.image_view.specs.Trees.{all_btrees};
ghost use Rattle.image_reader.specs.Volumes.{found_of};
ghost use Rattle.vol_types.specs.KeyMaps.{entries_of};
ghost use Rattle.vol_info.specs.Facts.{btree_facts, levels_in};

use crate::facts::BtreeFacts;
use image_reader::FoundVolume;
use std::alloc::{AllocError, Global};
use vol_types::{Btree, Duplicate, Listing, NodePtr, Pos, Value};

/// The nodes of a level, each behind the greatest position that it covers, in order.
type Level = Listing<(Pos, NodePtr)>;

/// The btrees, in the order of their numbers.
const BTREES: [Btree; 9] = [
    Btree::Extents,
    Btree::Inodes,
    Btree::Dirents,
    Btree::Subvols,
    Btree::Snapshots,
    Btree::Alloc,
    Btree::Backptrs,
    Btree::Deleted,
    Btree::Counters,
];

// What is told of each btree of a volume that was found.
pub fn facts_of_btrees(
    alloc: Global,
    found: &FoundVolume,
) -> Result<Listing<BtreeFacts>, AllocError>
    ensures { IfOk result (λ facts. facts ≡ map (btree_facts (found_of found.now).trees)
        all_btrees) }
{
    facts_of_these(alloc, found, &BTREES)
}

// What is told of each of these btrees.
fn facts_of_these(
    alloc: Global,
    found: &FoundVolume,
    btrees: &[Btree],
) -> Result<Listing<BtreeFacts>, AllocError>
    ensures { IfOk result (λ facts. facts ≡ map (btree_facts (found_of found.now).trees)
        btrees.now) }
{
    let mut facts = Listing::new(alloc);
    for btree in btrees {
        match add_btree(alloc, &mut facts, found, *btree) {
            Ok(()) => {}
            Err(error) => {
                drop(facts);
                return Err(error);
            }
        }
    }
    Ok(facts)
}

// Adds what is told of a btree.
fn add_btree(
    alloc: Global,
    facts: &mut Listing<BtreeFacts>,
    found: &FoundVolume,
    btree: Btree,
) -> Result<(), AllocError>
    ensures { OnOk result (facts.new ≡ facts.old ++ btree_facts (found_of found.now).trees btree ∷ []) }
{
    let one = facts_of_btree(alloc, found, btree)?;
    facts.push(one)?;
    Ok(())
}

// What is told of a btree.
fn facts_of_btree(
    alloc: Global,
    found: &FoundVolume,
    btree: Btree,
) -> Result<BtreeFacts, AllocError>
    ensures { IfOk result (λ facts. facts ≡ btree_facts (found_of found.now).trees btree) }
{
    let levels = levels_of(found, btree);
    let nodes = nodes_of(alloc, levels)?;
    Ok(BtreeFacts {
        btree,
        level: levels.len().saturating_sub(1) as u64,
        nodes: nodes.len() as u64,
        keys: entries_of(found, btree).len() as u64,
    })
}

// The nodes of a btree that was found, level by level from the leaves up.
pub fn levels_of(found: &FoundVolume, btree: Btree) -> &[Level]
    ensures { result.now ≡ levels_in (found_of found.now).trees btree }
{
    match found.btrees.get(usize::from(btree.code())) {
        Some(found) => found.levels.as_slice(),
        None => &[],
    }
}

// The keys of a btree that was found.
pub fn entries_of(found: &FoundVolume, btree: Btree) -> &[(Pos, Value)]
    ensures { result.now ≡ entries_of (found_of found.now).trees.keys btree }
{
    match found.btrees.get(usize::from(btree.code())) {
        Some(found) => found.entries.as_slice(),
        None => &[],
    }
}

// All nodes of levels.
pub fn nodes_of(alloc: Global, levels: &[Level]) -> Result<Listing<NodePtr>, AllocError>
    ensures { IfOk result (λ nodes. nodes ≡ flat_map values_of levels.now) }
{
    let mut nodes = Listing::new(alloc);
    for level in levels {
        add_level(alloc, &mut nodes, level.as_slice())?;
    }
    Ok(nodes)
}

// Adds the nodes of a level.
fn add_level(
    alloc: Global,
    nodes: &mut Listing<NodePtr>,
    level: &[(Pos, NodePtr)],
) -> Result<(), AllocError>
    ensures { OnOk result (nodes.new ≡ nodes.old ++ values_of level.now) }
{
    for (_, node) in level {
        nodes.push(node.copy(alloc)?)?;
    }
    Ok(())
}
