//! The keys of a btree: what stands beside an offset, leaves and their sizes where they are cut and joined, several changes at
//! once, and keys that are made of a map.

ghost use Rattle.std.specs.Prelude.{All, IfOk};
ghost use Rattle.vol_types.specs.Ranges.{IsKeyValue};

use crate::looks::{at, count, offset_of};
use std::alloc::{AllocError, Global};
use std::collections::BTreeMap;
use std::test::Fail;
use tree_keys::{LeafSize, TreeKeys};
use vol_types::{Duplicate, Key, Keys, Pos, Value};

fn put_white(keys: &mut TreeKeys, offset: u64) -> Result<(), AllocError> {
    keys.put(&at(offset), Some(Value::White))?;
    Ok(())
}

// Puts whiteouts at 2, 5 and 9, and cuts after offset 5.
fn fill(keys: &mut TreeKeys) -> Result<(), AllocError> {
    put_white(keys, 2)?;
    put_white(keys, 5)?;
    put_white(keys, 9)?;
    if !keys.is_end(&at(5)) {
        keys.cut(&at(5))?;
    }
    Ok(())
}

// Whether what stands beside an offset and in a range is found.
fn finds_all(keys: &TreeKeys) -> bool {
    keys.len() == 3
        && offset_of(keys.next_from(&at(5))) == Some(5)
        && offset_of(keys.next_after(&at(5))) == Some(9)
        && offset_of(keys.last_up_to(&at(4))) == Some(2)
        && count(keys.range(&at(3), &at(9))) == 2
}

// Whether the leaves are those before the changes: 56 bytes, and 21 for each whiteout.
fn has_leaves(keys: &TreeKeys) -> bool {
    keys.leaf_of(&at(4)) == at(5)
        && keys.leaf_of(&at(6)) == Pos::GREATEST
        && Some(keys.start_of(&Pos::GREATEST)) == at(5).next()
        && keys.size(&at(5)) == Some(98)
        && keys.size(&Pos::GREATEST) == Some(77)
        && keys.size(&at(4)).is_none()
        && keys.middle(&at(5)) == Some(at(2))
}

// Whether the first leaf as a node has two keys.
fn has_node(alloc: Global, keys: &TreeKeys) -> Result<bool, AllocError> {
    let node = keys.leaf(alloc, &at(5))?;
    let good = node.len() == 2 && node.size() == 98 && node.greatest() == at(5);
    drop(node);
    Ok(good)
}

fn push_key(keys: &mut Keys, offset: u64, value: Option<Value>) -> Result<(), AllocError>
    requires value { IsKeyValue value }
    requires in_range { All (λ key. IsKeyValue key.value) keys.old }
    ensures { All (λ key. IsKeyValue key.value) keys.new }
{
    keys.push(Key {
        pos: at(offset),
        value,
    })?;
    Ok(())
}

// Two changes of one position, and one of another in the second leaf.
fn some_changes(alloc: Global) -> Result<Keys, AllocError>
    ensures { IfOk result (All (λ key. IsKeyValue key.value)) }
{
    let mut keys = Keys::new(alloc);
    push_key(&mut keys, 5, Some(Value::Counter { next: 4 }))?;
    push_key(&mut keys, 5, None)?;
    push_key(&mut keys, 7, Some(Value::White))?;
    Ok(keys)
}

fn is_of_size(leaf: Option<&LeafSize>, end: Pos, size: u32) -> bool {
    match leaf {
        None => false,
        Some(leaf) => leaf.end == end && leaf.size == size,
    }
}

// Whether the leaves would have these sizes after the changes.
fn sizes_fit(alloc: Global, keys: &TreeKeys, changes: &[Key]) -> Result<bool, AllocError>
    requires { All (λ key. IsKeyValue key.value) changes.now }
{
    let sizes = keys.sizes_after(alloc, changes)?;
    let fit = sizes.len() == 2
        && is_of_size(sizes.get(0), at(5), 77)
        && is_of_size(sizes.get(1), Pos::GREATEST, 98);
    drop(sizes);
    Ok(fit)
}

// Whether these are the values before each of the changes.
fn are_before(before: &[Option<Value>]) -> bool {
    matches!(
        before,
        [Some(Value::White), Some(Value::Counter { next: 4 }), None]
    )
}

// Makes the changes at once, and says whether their positions had what they had to have.
fn puts_all(alloc: Global, keys: &mut TreeKeys, changes: &[Key]) -> Result<bool, AllocError>
    requires { All (λ key. IsKeyValue key.value) changes.now }
{
    let before = keys.put_all(alloc, changes)?;
    let good = are_before(before.as_slice());
    drop(before);
    Ok(good)
}

fn changes_all(alloc: Global, keys: &mut TreeKeys) -> Result<bool, AllocError> {
    let changes = some_changes(alloc)?;
    let fit = sizes_fit(alloc, keys, changes.as_slice());
    let puts = puts_all(alloc, keys, changes.as_slice());
    drop(changes);
    Ok(fit? && puts?)
}

// Whether the keys, whose leaves are joined, have three whiteouts in one leaf, and a copy has them.
fn joins(alloc: Global, keys: &mut TreeKeys) -> Result<bool, AllocError> {
    let end = at(5);
    if !keys.is_end(&end) || end >= Pos::GREATEST {
        return Ok(false);
    }
    keys.join(&end);
    let copy = keys.copy(alloc)?;
    let good = copy.len() == 3 && copy.size(&Pos::GREATEST) == Some(119);
    drop(copy);
    Ok(good)
}

fn goes_all_steps(alloc: Global, keys: &mut TreeKeys) -> Result<bool, AllocError> {
    fill(keys)?;
    let finds = finds_all(keys) && has_leaves(keys) && has_node(alloc, keys)?;
    let changes = changes_all(alloc, keys)?;
    Ok(finds && changes && joins(alloc, keys)?)
}

#[test]
fn steps(rt: HostRuntime) -> Result<(), Fail> {
    let mut keys = TreeKeys::new(rt.alloc())?;
    let good = goes_all_steps(rt.alloc(), &mut keys);
    drop(keys);
    assert!(rt; good?);
    Ok(())
}

// Whether keys are made of one whiteout with leaves of these ends.
fn are_made(alloc: Global, ends: &[Pos]) -> Result<bool, AllocError> {
    let mut map = BTreeMap::new(alloc);
    map.insert(at(2), Value::White)?;
    let made = TreeKeys::of(alloc, map, ends)?;
    let good = made.is_some();
    drop(made);
    Ok(good)
}

// The last end is the greatest position.
#[test]
fn keys_of_a_map(rt: HostRuntime) -> Result<(), Fail> {
    let alloc = rt.alloc();
    let good = are_made(alloc, &[at(5), Pos::GREATEST])? && !are_made(alloc, &[at(5)])?;
    assert!(rt; good);
    Ok(())
}
