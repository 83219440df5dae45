ghost use Rattle.std.specs.Prelude.{◌≡◌, ◌++◌, IfOk, OnOk, map, max, min};
ghost use Rattle.extent_ops.specs.Above.{hole_of, is_counted, lowest, low_of, piece_of, swept};
ghost use Rattle.extent_ops.specs.Stretches.{between};

use crate::cutting::{Change, Changes};
use crate::parts::{at_most, blocks_of};
use crate::stretches::{Stretch, Stretches, later, push_between};
use snap_tree::SnapTree;
use std::alloc::{AllocError, Global};
use vol_types::{Key, Value};

/// The stretches of a given one over which an ancestor has an extent, falling, where the keys rise. An ancestor is one of the
/// chain of this id. Each key costs a search in the tree.
pub(crate) fn covered_above(
    alloc: Global,
    keys: &[Key],
    tree: &SnapTree,
    parent: u32,
    stretch: Stretch,
) -> Result<Stretches, AllocError>
    ensures { IfOk result (λ parts. parts ≡ swept tree.now parent stretch keys.now) }
{
    let mut parts = Stretches::new(alloc);
    let mut lowest = stretch.end;
    let mut place = keys.len();
    while place > 0 {
        place -= 1;
        let key = &keys[place];
        if is_counted(tree, parent, key) {
            let piece = piece_of(stretch, lowest, key);
            push_between(&mut parts, piece.first, piece.end)?;
            lowest = low_of(piece, lowest);
        }
    }
    Ok(parts)
}

// Whether a key is an extent of an ancestor.
fn is_counted(tree: &SnapTree, parent: u32, key: &Key) -> bool
    ensures { result ≡ is_counted tree.now parent key.now }
{
    match &key.value {
        Some(Value::Extent(_)) => tree.is_ancestor(key.pos.snapshot, parent),
        _ => false,
    }
}

// What of an extent lies in a stretch, below what was met of it.
fn piece_of(stretch: Stretch, lowest: u64, key: &Key) -> Stretch
    ensures { result ≡ piece_of stretch lowest key.now }
{
    let end = key.pos.offset;
    let blocks = match &key.value {
        None => 0,
        Some(value) => blocks_of(value),
    };
    Stretch {
        first: later(stretch.first, end.saturating_sub(blocks)),
        end: earlier(end, lowest),
    }
}

// The lowest block that was met, with a further piece.
fn low_of(piece: Stretch, lowest: u64) -> u64
    ensures { result ≡ low_of piece lowest }
{
    if piece.first < piece.end {
        return piece.first;
    }
    lowest
}

// The smaller one of two blocks.
fn earlier(one: u64, other: u64) -> u64
    ensures { result ≡ min one other }
{
    if one < other { one } else { other }
}

/// The changes that put a hole over each of some stretches.
pub(crate) fn holes_of(alloc: Global, stretches: &[Stretch]) -> Result<Changes, AllocError>
    ensures { IfOk result (λ changes. changes ≡ map hole_of stretches.now) }
{
    let mut changes = Changes::new(alloc);
    for stretch in stretches {
        changes.push(hole_of(*stretch))?;
    }
    Ok(changes)
}

fn hole_of(stretch: Stretch) -> Change
    ensures { result ≡ hole_of stretch }
{
    Change {
        end: stretch.end,
        value: Some(Value::Hole {
            blocks: at_most(stretch.end.saturating_sub(stretch.first), u32::MAX),
        }),
    }
}
