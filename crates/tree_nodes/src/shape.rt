ghost use Rattle.std.specs.Prelude.{◌≡◌, ℕ, ◌+◌, ◌-◌, ◌<◌, ◌↔◌, IsTrue, All, length};
ghost use Rattle.tree_nodes.specs.Levels.{IsLevel, IsNested, IsNodeOf, IsTree, level_of};

use crate::LevelNodes;
use vol_types::NodePtr;

/// Whether levels are those of a btree. It looks at each node.
pub(crate) fn is_tree(levels: &[LevelNodes]) -> bool
    ensures { IsTrue result ↔ IsTree levels.now }
{
    if !has_one_root(levels) {
        return false;
    }
    if !are_levels(levels) {
        return false;
    }
    are_nested(levels)
}

// Whether the last level has one node.
fn has_one_root(levels: &[LevelNodes]) -> bool
    ensures { IsTrue result ↔ (length (level_of levels.now (length levels.now - 1)) ≡ 1) }
{
    match levels.last() {
        None => false,
        Some(top) => top.len() == 1,
    }
}

// Whether each level has the nodes of one with its number.
fn are_levels(levels: &[LevelNodes]) -> bool
    ensures { IsTrue result ↔ ((level : ℕ) → level < length levels.now
        → IsLevel level (level_of levels.now level)) }
{
    for level in 0..levels.len() {
        if !levels[level].is_level(level) {
            return false;
        }
    }
    true
}

// Whether each node ends where one of the level below does.
fn are_nested(levels: &[LevelNodes]) -> bool
    ensures { IsTrue result ↔ ((level : ℕ) → IsNested (level_of levels.now (level + 1))
        (level_of levels.now level)) }
{
    for level in 1..levels.len() {
        if !levels[level].is_nested_in(&levels[level - 1]) {
            return false;
        }
    }
    true
}

/// Whether a pointer is one of this level, and in range.
pub(crate) fn is_node_of(node: &NodePtr, level: usize) -> bool
    ensures { IsTrue result ↔ IsNodeOf level node.now }
{
    if usize::from(node.level) != level {
        return false;
    }
    node.is_in_range()
}
