ghost use Rattle.std.specs.Map.{values_of};
ghost use Rattle.std.specs.Prelude.{◌≡◌, ◌++◌, ◌<◌, Some, IfOk, OnOk, length};
ghost use Rattle.btree_map.specs.Trees.{IsTrees, levels_in};
ghost use Rattle.core_actors.specs.Nodes.{nodes_left, nodes_of_levels, places_in, places_of};
ghost use Rattle.tree_nodes.specs.Levels.{IsLevel, level_of};

use btree_map::KeyMap;
use std::alloc::{AllocError, Global};
use vol_types::{Btree, Places, Pos, wide};

/// How many btrees there are.
const BTREES: u8 = 9;

/// The places of all nodes: btree by btree in the order of their numbers, level by level from the leaves up, and by position.
/// Each node costs a logarithm of the number of nodes of its level.
pub fn node_places(alloc: Global, map: &KeyMap) -> Result<Places, AllocError>
    ensures { IfOk result (λ places. places ≡ places_in map.now.nodes) }
{
    let mut places = Places::new(alloc);
    for code in 0..BTREES {
        let Some(btree) = Btree::from_code(code) else {
            unreachable!()
        };
        add_btree(map, btree, &mut places)?;
    }
    Ok(places)
}

// Adds the places of the nodes of a btree.
fn add_btree(map: &KeyMap, btree: Btree, places: &mut Places) -> Result<(), AllocError>
    ensures added { OnOk result (places.new ≡ places.old ++ places_of (nodes_of_levels
        (levels_in map.now btree))) }
    ensures sound { IsTrees map.now }
{
    for level in 0..map.height(btree) {
        add_level(map, btree, level, places)?;
    }
    Ok(())
}

// Adds the places of the nodes of a level.
fn add_level(map: &KeyMap, btree: Btree, level: u8, places: &mut Places) -> Result<(), AllocError>
    requires there { level < length (levels_in map.now btree) }
    requires sound { IsLevel level (level_of (levels_in map.now btree) level) }
    ensures { OnOk result (places.new ≡ places.old ++ places_of (values_of
        (level_of (levels_in map.now btree) level))) }
{
    let mut next = Some(Pos::LEAST);
    while let Some(pos) = next {
        next = add_node(map, btree, level, &pos, places)?;
    }
    Ok(())
}

// Adds the places of the node that covers a position, and gives the position that follows it, or none after the last node.
fn add_node(
    map: &KeyMap,
    btree: Btree,
    level: u8,
    pos: &Pos,
    places: &mut Places,
) -> Result<Option<Pos>, AllocError>
    requires there { level < length (levels_in map.now btree) }
    requires sound { IsLevel level (level_of (levels_in map.now btree) level) }
    ensures added { IfOk result (λ next. places.new ++ places_of (values_of
        (nodes_left next (level_of (levels_in map.now btree) level)))
        ≡ places.old ++ places_of (values_of
        (nodes_left (Some pos.now) (level_of (levels_in map.now btree) level)))) }
    ensures fewer { IfOk result (λ next.
        length (nodes_left next (level_of (levels_in map.now btree) level))
        < length (nodes_left (Some pos.now) (level_of (levels_in map.now btree) level))) }
{
    let pos = wide(pos);
    let Some((greatest, node)) = map.node_at(btree, level, &pos) else {
        unreachable!()
    };
    let greatest = wide(greatest);
    places.extend_from_slice(node.places.as_slice())?;
    Ok(greatest.next())
}
