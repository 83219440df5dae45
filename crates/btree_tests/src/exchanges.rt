//! The pointers of two roots are exchanged for others.

ghost use Rattle.std.specs.Prelude.{◌≡◌, IfOk};
ghost use Rattle.birth_index.specs.Exchanges.{only_name};
ghost use Rattle.tree_nodes.specs.Levels.{IsNodeOf};

use crate::maps::{are_unused, fresh, has_node};
use crate::pointers::pointer;
use btree_map::{Exchange, KeyMap, NodeName};
use std::alloc::{AllocError, Global};
use std::test::Fail;
use vol_types::{Btree, Pos};

fn root_name(btree: Btree) -> NodeName
    ensures { result ≡ only_name btree }
{
    NodeName {
        btree,
        level: 0,
        greatest: Pos::GREATEST,
    }
}

fn root_change(alloc: Global, btree: Btree, birth: u64) -> Result<Exchange, AllocError>
    ensures name { IfOk result (λ change. change.name ≡ only_name btree) }
    ensures node { IfOk result (λ change. IsNodeOf 0 change.pointer) }
    ensures born { IfOk result (λ change. change.pointer.birth ≡ birth) }
{
    let name = root_name(btree);
    let pointer = pointer(alloc, birth, 0)?;
    Ok(Exchange { name, pointer })
}

// Exchanges the pointers of two btrees of one node each, and gives the births of those that were there.
fn exchange_two(
    alloc: Global,
    map: &mut KeyMap,
    birth: u64,
) -> Result<Option<[u64; 2]>, AllocError> {
    if !has_node(map, Btree::Dirents, 0, &Pos::GREATEST) {
        return Ok(None);
    }
    if !has_node(map, Btree::Counters, 0, &Pos::GREATEST) {
        return Ok(None);
    }
    if !are_unused(map, birth) {
        return Ok(None);
    }
    let first = root_change(alloc, Btree::Dirents, birth)?;
    let second = root_change(alloc, Btree::Counters, birth + 1)?;
    let mut changes = [first, second];
    map.exchange(alloc, &mut changes)?;
    Ok(Some([changes[0].pointer.birth, changes[1].pointer.birth]))
}

fn name_of(map: &KeyMap, birth: u64) -> Option<NodeName> {
    let (name, _) = map.node_of(birth)?;
    Some(name)
}

// Where four births lead.
fn births_found(map: &KeyMap) -> [Option<NodeName>; 4] {
    let first = name_of(map, 2);
    let second = name_of(map, 8);
    [first, second, name_of(map, 31), name_of(map, 32)]
}

#[test]
fn pointers_are_exchanged(rt: HostRuntime) -> Result<(), Fail> {
    let alloc = rt.alloc();
    match fresh(alloc)? {
        None => assert!(rt; false),
        Some(map) => {
            let mut map = map;
            assert!(rt; exchange_two(alloc, &mut map, 31)? == Some([2, 8]));
            let (dirents, counters) = (root_name(Btree::Dirents), root_name(Btree::Counters));
            assert!(rt; births_found(&map) == [None, None, Some(dirents), Some(counters)]);
        }
    }
    Ok(())
}
