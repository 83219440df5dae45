//! A node step by step, with its size after each step as the lengths of its keys add up.

ghost use Rattle.std.specs.Prelude.{◌≡◌, All, IfOk};
ghost use Rattle.vol_types.specs.Positions.{IsWithin, greatest_pos, least_pos};
ghost use Rattle.vol_types.specs.Ranges.{IsKeyValue, IsValue};

use crate::looks::{at, count, offset_of};
use node_mem::NodeMem;
use std::alloc::{AllocError, Global};
use std::test::Fail;
use vol_types::{Duplicate, FileKind, Inode, Key, Keys, Live, Pos, Value};

// Puts a value at an offset, and gives the size of the node then.
fn size_with(node: &mut NodeMem, offset: u64, value: Value) -> Result<u32, AllocError>
    requires { IsValue value }
{
    let pos = at(offset);
    if node.least() > pos || pos > node.greatest() {
        return Ok(0);
    }
    node.put(&pos, Some(value))?;
    Ok(node.size())
}

fn directory() -> Value
    ensures { IsValue result }
{
    Value::Inode(Inode {
        kind: FileKind::Directory,
        links: 1,
        size: 0,
    })
}

fn bucket() -> Value
    ensures { IsValue result }
{
    Value::Live(Live {
        generation: 0,
        blocks: 16,
    })
}

// The sizes of a node after each of four puts.
fn sizes(node: &mut NodeMem) -> Result<[u32; 4], AllocError> {
    let first = size_with(node, 2, directory())?;
    let second = size_with(node, 5, Value::White)?;
    let third = size_with(node, 5, bucket())?;
    let fourth = size_with(node, 9, Value::White)?;
    Ok([first, second, third, fourth])
}

// Whether what is removed from an offset is an inode, if there is something, and the size of the node then.
fn size_without(node: &mut NodeMem, offset: u64) -> (Option<bool>, u32) {
    let was_inode = match node.remove(&at(offset)) {
        None => None,
        Some(Value::Inode(_)) => Some(true),
        Some(_) => Some(false),
    };
    (was_inode, node.size())
}

static SIZES: [u32; 4] = [90, 111, 116, 137];

// Whether a new node has these sizes: before and after the four puts, and after a removal that is made twice. An inode's key has 34
// bytes, that of a bucket 26, and a whiteout 21; 56 bytes come before them.
fn has_these_sizes(node: &mut NodeMem) -> Result<bool, AllocError> {
    let empty = node.size();
    let sizes = sizes(node)?;
    let removed = size_without(node, 2);
    let again = size_without(node, 2);
    Ok(empty == 56 && sizes == SIZES && removed == (Some(true), 103) && again == (None, 103))
}

#[test]
fn steps(rt: HostRuntime) -> Result<(), Fail> {
    let mut node = NodeMem::new(rt.alloc(), &Pos::LEAST, &Pos::GREATEST)?;
    assert!(rt; has_these_sizes(&mut node)?);
    Ok(())
}

fn key(offset: u64, value: Option<Value>) -> Key
    requires { IsKeyValue value }
    ensures place { result.pos ≡ record { inode = 0; offset = offset; snapshot = 7 } }
    ensures in_range { IsKeyValue result.value }
{
    Key {
        pos: at(offset),
        value,
    }
}

// Adds a key at an offset.
fn push_key(keys: &mut Keys, offset: u64, value: Option<Value>) -> Result<(), AllocError>
    requires value { IsKeyValue value }
    requires covered { All (λ key. IsWithin least_pos greatest_pos key.pos) keys.old }
    requires in_range { All (λ key. IsKeyValue key.value) keys.old }
    ensures covered { All (λ key. IsWithin least_pos greatest_pos key.pos) keys.new }
    ensures in_range { All (λ key. IsKeyValue key.value) keys.new }
{
    keys.push(key(offset, value))?;
    Ok(())
}

// A removal and a value at one position, the later of which counts, and the removal of another.
fn some_keys(alloc: Global) -> Result<Keys, AllocError>
    ensures covered { IfOk result (All (λ key. IsWithin least_pos greatest_pos key.pos)) }
    ensures in_range { IfOk result (All (λ key. IsKeyValue key.value)) }
{
    let mut keys = Keys::new(alloc);
    push_key(&mut keys, 3, None)?;
    push_key(&mut keys, 3, Some(Value::Counter { next: 4 }))?;
    push_key(&mut keys, 2, None)?;
    Ok(keys)
}

// Puts a value into a node that covers all positions.
fn put_at(node: &mut NodeMem, offset: u64, value: Value) -> Result<(), AllocError>
    requires value { IsValue value }
    requires least { node.old.least ≡ least_pos }
    requires greatest { node.old.greatest ≡ greatest_pos }
    ensures least { node.new.least ≡ least_pos }
    ensures greatest { node.new.greatest ≡ greatest_pos }
{
    node.put(&at(offset), Some(value))?;
    Ok(())
}

// A node of two keys that covers all positions.
fn two_keys(alloc: Global) -> Result<NodeMem, AllocError>
    ensures least { IfOk result (λ node. node.least ≡ least_pos) }
    ensures greatest { IfOk result (λ node. node.greatest ≡ greatest_pos) }
{
    let mut node = NodeMem::new(alloc, &Pos::LEAST, &Pos::GREATEST)?;
    put_at(&mut node, 2, Value::White)?;
    put_at(&mut node, 5, Value::Gone)?;
    Ok(node)
}

// The size of a node, and its size and its middle once keys are merged into it.
fn looks_before(
    alloc: Global,
    node: &NodeMem,
    keys: &[Key],
) -> Result<(u32, u32, Option<Pos>), AllocError>
    requires { All (λ key. IsKeyValue key.value) keys.now }
{
    let size = node.size_after(alloc, keys)?;
    let middle = node.middle_after(alloc, keys)?;
    Ok((node.size(), size, middle))
}

fn has_both(keys: &[Key]) -> bool {
    matches!(
        keys,
        [
            Key {
                value: Some(Value::Counter { next: 4 }),
                ..
            },
            Key {
                value: Some(Value::Gone),
                ..
            }
        ]
    )
}

// The size of a node with keys merged into it, and whether it has the two that are left then.
fn merge(alloc: Global, node: NodeMem, keys: Keys) -> Result<(u32, bool), AllocError>
    requires covered { All (λ key. IsWithin node.least node.greatest key.pos) keys }
    requires in_range { All (λ key. IsKeyValue key.value) keys }
{
    let merged = node.merged(keys)?;
    let keys = merged.keys(alloc)?;
    Ok((merged.size(), has_both(keys.as_slice())))
}

// The same, and the middle of a copy that was made before.
fn merge_beside_copy(
    alloc: Global,
    node: NodeMem,
    keys: Keys,
) -> Result<(u32, bool, Option<Pos>), AllocError>
    requires covered { All (λ key. IsWithin node.least node.greatest key.pos) keys }
    requires in_range { All (λ key. IsKeyValue key.value) keys }
{
    let copy = node.copy(alloc)?;
    let (size, both) = merge(alloc, node, keys)?;
    Ok((size, both, copy.middle()))
}

// What is seen of a node of two keys before others are merged into it, and then.
fn seen_around(
    alloc: Global,
) -> Result<((u32, u32, Option<Pos>), (u32, bool, Option<Pos>)), AllocError> {
    let keys = some_keys(alloc)?;
    let node = two_keys(alloc)?;
    let before = looks_before(alloc, &node, keys.as_slice())?;
    let after = merge_beside_copy(alloc, node, keys)?;
    Ok((before, after))
}

#[test]
fn merged_keys(rt: HostRuntime) -> Result<(), Fail> {
    let (before, after) = seen_around(rt.alloc())?;
    assert!(rt; before == (98, 106, Some(at(3))));
    assert!(rt; after == (106, true, Some(at(2))));
    Ok(())
}

// A node of whiteouts at 2, 5 and 9.
fn three_whites(alloc: Global) -> Result<NodeMem, AllocError> {
    let mut node = NodeMem::new(alloc, &Pos::LEAST, &Pos::GREATEST)?;
    put_at(&mut node, 2, Value::White)?;
    put_at(&mut node, 5, Value::White)?;
    put_at(&mut node, 9, Value::White)?;
    Ok(node)
}

// Whether it finds what stands beside an offset, and in a range.
fn finds_all(node: &NodeMem) -> bool {
    node.len() == 3
        && offset_of(node.next_from(&at(5))) == Some(5)
        && offset_of(node.next_after(&at(5))) == Some(9)
        && offset_of(node.last_up_to(&at(4))) == Some(2)
        && count(node.range(&at(3), &at(9))) == 2
}

// The sizes of both parts of a node that is split after offset 5.
fn part_sizes(node: &mut NodeMem) -> Result<(u32, u32), AllocError> {
    let pos = at(5);
    if node.least() > pos || pos >= node.greatest() {
        return Ok((0, 0));
    }
    let second = node.split_off(&pos)?;
    let sizes = (node.size(), second.size());
    drop(second);
    Ok(sizes)
}

#[test]
fn looks_and_parts(rt: HostRuntime) -> Result<(), Fail> {
    let mut node = three_whites(rt.alloc())?;
    let finds = finds_all(&node);
    let sizes = part_sizes(&mut node);
    drop(node);
    assert!(rt; finds && sizes? == (98, 77));
    Ok(())
}
