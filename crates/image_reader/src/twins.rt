ghost use Rattle.std.specs.Prelude.{◌≡◌, ◌++◌, List, None, Some, if◌then◌else◌, IfOk, OnOk, map, option_map};
ghost use Rattle.std.specs.List.{flat_map};
ghost use Rattle.std.specs.Map.{values_of};
ghost use Rattle.image_view.specs.Trees.{first_place as place_of, first_twin as twin_of, joined, nodes_of, with_own_births};
ghost use Rattle.image_reader.specs.Answers.{Tells};
ghost use Rattle.image_reader.specs.Faults.{failed_tree_device};
ghost use Rattle.image_reader.specs.Twins.{born};
ghost use Rattle.image_reader.specs.Volumes.{btree_in};
ghost use Rattle.vol_types.specs.declared.pointers.NodePtr.{NodePtr as APointer};

use crate::fault::TreeFault;
use crate::found::{FoundBtree, FoundLevel};
use crate::levels::first_place;
use std::alloc::{AllocError, Global};
use std::collections::BTreeSet;
use vol_types::{Listing, NodePtr, Place, Pos};

// A node by its birth and its first place.
#[derive(Clone, Copy)]
struct Born {
    birth: u64,
    place: Place,
}

// Adds the nodes of a level.
fn add_level(into: &mut Listing<Born>, nodes: &[(Pos, NodePtr)]) -> Result<(), AllocError>
    ensures { OnOk result (into.new ≡ into.old ++ map born (values_of nodes.now)) }
{
    for (_, pointer) in nodes {
        into.push(Born {
            birth: pointer.birth,
            place: first_place(pointer),
        })?;
    }
    Ok(())
}

// Adds the nodes of levels.
fn add_levels(into: &mut Listing<Born>, levels: &[FoundLevel]) -> Result<(), AllocError>
    ensures { OnOk result (into.new ≡ into.old ++ map born (flat_map values_of levels.now)) }
{
    for level in levels {
        add_level(into, level.as_slice())?;
    }
    Ok(())
}

// The nodes of btrees, in the order in which their levels stand.
fn born_in(alloc: Global, btrees: &[FoundBtree]) -> Result<Listing<Born>, AllocError>
    ensures { IfOk result (λ nodes. nodes ≡ map born (nodes_of
        (map (λ btree. btree.levels) btrees.now))) }
{
    let mut nodes = Listing::new(alloc);
    for btree in btrees {
        add_levels(&mut nodes, btree.levels.as_slice())?;
    }
    Ok(nodes)
}

// The first twin, where a node is seen whose birth is new, or isn't.
fn earlier(is_new: bool, place: Place, twin: Option<Place>) -> Option<Place>
    ensures { result ≡ (if is_new then twin else Some place) }
{
    if is_new { twin } else { Some(place) }
}

// The place of the first node that has the birth of a later one, if there is one. It goes over the nodes from the back, with a
// logarithm of their number for each.
fn first_twin(alloc: Global, nodes: &[Born]) -> Result<Option<Place>, AllocError>
    ensures { IfOk result (λ twin. (pointers : List APointer) → nodes.now ≡ map born pointers
        → twin ≡ option_map place_of (twin_of pointers)) }
{
    let mut seen = BTreeSet::new(alloc);
    let mut twin = None;
    let mut rest = nodes;
    while let [front @ .., node] = rest {
        let is_new = seen.insert(node.birth)?;
        twin = earlier(is_new, node.place, twin);
        rest = front;
    }
    Ok(twin)
}

/// The btrees, if no two nodes of them have one birth.
pub(crate) fn with_own_births(
    alloc: Global,
    btrees: Listing<FoundBtree>,
) -> Result<Listing<FoundBtree>, TreeFault>
    ensures found { Tells (λ own. joined (map btree_in own)) (with_own_births
        (joined (map btree_in btrees))) result }
    ensures same { IfOk result (λ own. own ≡ btrees) }
    ensures none { failed_tree_device result ≡ None }
{
    let nodes = born_in(alloc, btrees.as_slice())?;
    match first_twin(alloc, nodes.as_slice())? {
        Some(place) => Err(TreeFault::BadNode(place)),
        None => Ok(btrees),
    }
}
