ghost use Rattle.std.specs.Prelude.{◌≡◌, ◌+◌, ◌-◌, ◌<◌, ◌∷◌, [], IfOk, OnErr, OnOk, Some, length, slice_set};
ghost use Rattle.birth_index.specs.Births.{ForHalves, ForRoots, IsFree, IsIndex, birth_of, grown, halves, levels_of, root_named};
ghost use Rattle.tree_nodes.specs.Levels.{Covers, EndsAt, IsNodeOf, IsTree, divided, level_of, under_root, with_node};
ghost use Rattle.vol_types.specs.Btrees.{btree_code};
ghost use Rattle.vol_types.specs.Maps.{value_at};
ghost use Rattle.vol_types.specs.Positions.{IsBefore, greatest_pos, pos_cmp};
ghost use Rattle.vol_types.specs.Widths.{PosFits};

use crate::{BirthIndex, Named, NodeName};
use std::alloc::{AllocError, Global};
use tree_nodes::{TreeNodes, changes_leave_trees};
use vol_types::{Btree, NodePtr, Pos};

/// Puts a pointer in the place of that of a node, in the nodes and in their index.
pub(crate) fn replace_node(
    trees: &mut Vec<TreeNodes>,
    births: &mut BirthIndex,
    name: &NodeName,
    fresh: NodePtr,
) -> Result<NodePtr, AllocError>
    requires index { IsIndex births.old trees.old.items }
    requires there { EndsAt (level_of (levels_of trees.old.items name.now.btree) name.now.level)
        name.now.greatest }
    requires node { IsNodeOf name.now.level fresh }
    requires free { IsFree trees.old.items name.now fresh.birth }
    ensures before { IfOk result (λ before. value_at pos_cmp name.now.greatest
        (level_of (levels_of trees.old.items name.now.btree) name.now.level) ≡ Some before) }
    ensures ok { OnOk result (trees.new.items ≡ slice_set trees.old.items
        (btree_code name.now.btree) (with_node name.now.level name.now.greatest fresh
        (levels_of trees.old.items name.now.btree))) }
    ensures err { OnErr result (trees.new.items ≡ trees.old.items) }
    ensures index { IsIndex births.new trees.new.items }
{
    let gone = birth_at(trees.as_slice(), name);
    let news = [Named {
        birth: fresh.birth,
        name: *name,
    }];
    births.take_room(gone, name, &news)?;
    let before = replace_in(trees, name, fresh);
    births.replace(gone, &news);
    Ok(before)
}

/// Puts two nodes in the place of one that isn't the root, in the nodes and in their index.
pub(crate) fn divide_node(
    trees: &mut Vec<TreeNodes>,
    births: &mut BirthIndex,
    name: &NodeName,
    at: &Pos,
    first: NodePtr,
    second: NodePtr,
) -> Result<NodePtr, AllocError>
    requires index { IsIndex births.old trees.old.items }
    requires fits { PosFits at.now }
    requires below { name.now.level + 1 < length (levels_of trees.old.items name.now.btree) }
    requires covered { Covers (level_of (levels_of trees.old.items name.now.btree) name.now.level)
        name.now.greatest at.now }
    requires before { IsBefore at.now name.now.greatest }
    requires child { 0 < name.now.level → EndsAt
        (level_of (levels_of trees.old.items name.now.btree) (name.now.level - 1)) at.now }
    requires first { IsNodeOf name.now.level first }
    requires second { IsNodeOf name.now.level second }
    requires births { ForHalves trees.old.items name.now first.birth second.birth }
    ensures before { IfOk result (λ before. value_at pos_cmp name.now.greatest
        (level_of (levels_of trees.old.items name.now.btree) name.now.level) ≡ Some before) }
    ensures ok { OnOk result (trees.new.items ≡ slice_set trees.old.items
        (btree_code name.now.btree) (divided name.now.level name.now.greatest at.now first second
        (levels_of trees.old.items name.now.btree))) }
    ensures err { OnErr result (trees.new.items ≡ trees.old.items) }
    ensures index { IsIndex births.new trees.new.items }
{
    let gone = birth_at(trees.as_slice(), name);
    let news = halves(name, at, first.birth, second.birth);
    see_tree(trees.as_slice(), name.btree);
    births.take_room(gone, name, &news)?;
    match divide_in(trees, name, at, first, second) {
        Ok(before) => {
            births.replace(gone, &news);
            Ok(before)
        }
        Err(error) => {
            births.give_room_back(gone, name, &news);
            Err(error)
        }
    }
}

/// Puts two nodes in the place of the root of a btree, under a new root, in the nodes and in their index.
pub(crate) fn divide_top(
    alloc: Global,
    trees: &mut Vec<TreeNodes>,
    births: &mut BirthIndex,
    btree: Btree,
    at: &Pos,
    first: NodePtr,
    second: NodePtr,
    root: NodePtr,
) -> Result<NodePtr, AllocError>
    requires index { IsIndex births.old trees.old.items }
    requires there { btree_code btree < length trees.old.items }
    requires fits { PosFits at.now }
    requires before { IsBefore at.now greatest_pos }
    requires child { 1 < length (levels_of trees.old.items btree) → EndsAt (level_of
        (levels_of trees.old.items btree) (length (levels_of trees.old.items btree) - 2)) at.now }
    requires first { IsNodeOf (length (levels_of trees.old.items btree) - 1) first }
    requires second { IsNodeOf (length (levels_of trees.old.items btree) - 1) second }
    requires root { IsNodeOf (length (levels_of trees.old.items btree)) root }
    requires births { ForRoots trees.old.items (root_named trees.old.items btree) first.birth second.birth root.birth }
    ensures before { IfOk result (λ before. level_of (levels_of trees.old.items btree)
        (length (levels_of trees.old.items btree) - 1) ≡ (greatest_pos, before) ∷ []) }
    ensures ok { OnOk result (trees.new.items ≡ slice_set trees.old.items (btree_code btree)
        (under_root root (divided (length (levels_of trees.old.items btree) - 1) greatest_pos at.now
        first second (levels_of trees.old.items btree)))) }
    ensures err { OnErr result (trees.new.items ≡ trees.old.items) }
    ensures index { IsIndex births.new trees.new.items }
{
    let name = root_name(trees.as_slice(), btree);
    let gone = birth_at(trees.as_slice(), &name);
    let news = grown(&name, at, first.birth, second.birth, root.birth);
    births.take_room(gone, &name, &news)?;
    match root_in(alloc, trees, btree, at, first, second, root) {
        Ok(before) => {
            births.replace(gone, &news);
            Ok(before)
        }
        Err(error) => {
            births.give_room_back(gone, &name, &news);
            Err(error)
        }
    }
}

// The birth of a node that is there.
fn birth_at(trees: &[TreeNodes], name: &NodeName) -> u64
    requires { EndsAt (level_of (levels_of trees.now name.now.btree) name.now.level)
        name.now.greatest }
    ensures { birth_of trees.now name.now ≡ Some result }
{
    let Some(tree) = trees.get(usize::from(name.btree.code())) else {
        unreachable!()
    };
    match tree.get(name.level, &name.greatest) {
        Some(node) => node.birth,
        None => unreachable!(),
    }
}

// The nodes of a btree that is there make a tree.
fn see_tree(trees: &[TreeNodes], btree: Btree)
    ensures { btree_code btree < length trees.now → IsTree (levels_of trees.now btree) }
{
    if let Some(tree) = trees.get(usize::from(btree.code())) {
        let _ = tree.height();
    }
}

// The name of the root of a btree that is there.
fn root_name(trees: &[TreeNodes], btree: Btree) -> NodeName
    requires { btree_code btree < length trees.now }
    ensures name { result ≡ root_named trees.now btree }
    ensures sound { IsTree (levels_of trees.now btree) }
{
    let height = trees[usize::from(btree.code())].height();
    changes_leave_trees();
    NodeName {
        btree,
        level: height - 1,
        greatest: Pos::GREATEST,
    }
}

// The births of the halves of a divided node, with their names.
fn halves(name: &NodeName, at: &Pos, first: u64, second: u64) -> [Named; 2]
    ensures { result ≡ halves name.now at.now first second }
{
    [
        Named {
            birth: second,
            name: *name,
        },
        Named {
            birth: first,
            name: NodeName {
                btree: name.btree,
                level: name.level,
                greatest: *at,
            },
        },
    ]
}

// The births of the halves of a divided root and of the new root, with their names.
fn grown(name: &NodeName, at: &Pos, first: u64, second: u64, root: u64) -> [Named; 3]
    requires { name.now.level < 8 }
    ensures { result ≡ grown name.now at.now first second root }
{
    let [lower, upper] = halves(name, at, first, second);
    [
        lower,
        upper,
        Named {
            birth: root,
            name: NodeName {
                btree: name.btree,
                level: name.level + 1,
                greatest: Pos::GREATEST,
            },
        },
    ]
}

/// Puts a pointer in the place of that of a node. It takes no memory.
pub(crate) fn replace_in(trees: &mut Vec<TreeNodes>, name: &NodeName, fresh: NodePtr) -> NodePtr
    requires code { btree_code name.now.btree < length trees.old.items }
    requires there { EndsAt (level_of (levels_of trees.old.items name.now.btree) name.now.level)
        name.now.greatest }
    requires node { IsNodeOf name.now.level fresh }
    ensures before { value_at pos_cmp name.now.greatest
        (level_of (levels_of trees.old.items name.now.btree) name.now.level) ≡ Some result }
    ensures after { trees.new.items ≡ slice_set trees.old.items (btree_code name.now.btree)
        (with_node name.now.level name.now.greatest fresh
        (levels_of trees.old.items name.now.btree)) }
{
    let tree = &mut trees[usize::from(name.btree.code())];
    tree.replace(name.level, &name.greatest, fresh)
}

// Puts two nodes in the place of one that isn't the root.
fn divide_in(
    trees: &mut Vec<TreeNodes>,
    name: &NodeName,
    at: &Pos,
    first: NodePtr,
    second: NodePtr,
) -> Result<NodePtr, AllocError>
    requires code { btree_code name.now.btree < length trees.old.items }
    requires below { name.now.level + 1 < length (levels_of trees.old.items name.now.btree) }
    requires covered { Covers (level_of (levels_of trees.old.items name.now.btree) name.now.level)
        name.now.greatest at.now }
    requires before { IsBefore at.now name.now.greatest }
    requires child { 0 < name.now.level → EndsAt
        (level_of (levels_of trees.old.items name.now.btree) (name.now.level - 1)) at.now }
    requires first { IsNodeOf name.now.level first }
    requires second { IsNodeOf name.now.level second }
    ensures before { IfOk result (λ before. value_at pos_cmp name.now.greatest
        (level_of (levels_of trees.old.items name.now.btree) name.now.level) ≡ Some before) }
    ensures ok { OnOk result (trees.new.items ≡ slice_set trees.old.items
        (btree_code name.now.btree) (divided name.now.level name.now.greatest at.now first second
        (levels_of trees.old.items name.now.btree))) }
    ensures err { OnErr result (trees.new.items ≡ trees.old.items) }
{
    let tree = &mut trees[usize::from(name.btree.code())];
    tree.divide(name.level, &name.greatest, at, first, second)
}

// Puts two nodes in the place of the root of a btree, under a new root.
fn root_in(
    alloc: Global,
    trees: &mut Vec<TreeNodes>,
    btree: Btree,
    at: &Pos,
    first: NodePtr,
    second: NodePtr,
    root: NodePtr,
) -> Result<NodePtr, AllocError>
    requires code { btree_code btree < length trees.old.items }
    requires before { IsBefore at.now greatest_pos }
    requires child { 1 < length (levels_of trees.old.items btree) → EndsAt (level_of
        (levels_of trees.old.items btree) (length (levels_of trees.old.items btree) - 2)) at.now }
    requires first { IsNodeOf (length (levels_of trees.old.items btree) - 1) first }
    requires second { IsNodeOf (length (levels_of trees.old.items btree) - 1) second }
    requires root { IsNodeOf (length (levels_of trees.old.items btree)) root }
    ensures before { IfOk result (λ before. level_of (levels_of trees.old.items btree)
        (length (levels_of trees.old.items btree) - 1) ≡ (greatest_pos, before) ∷ []) }
    ensures ok { OnOk result (trees.new.items ≡ slice_set trees.old.items (btree_code btree)
        (under_root root (divided (length (levels_of trees.old.items btree) - 1) greatest_pos at.now
        first second (levels_of trees.old.items btree)))) }
    ensures err { OnErr result (trees.new.items ≡ trees.old.items) }
{
    let tree = &mut trees[usize::from(btree.code())];
    tree.divide_root(alloc, at, first, second, root)
}
