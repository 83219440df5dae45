ghost use Rattle.std.specs.Prelude.{◌≡◌, IfOk, OnOk, map};
ghost use Rattle.std.specs.Map.{keys_of};
ghost use Rattle.vol_types.specs.Maps.{put_at};
ghost use Rattle.vol_types.specs.Positions.{pos_cmp};
ghost use Rattle.vol_types.specs.KeyMaps.{Entries};
ghost use Rattle.node_mem.specs.Nodes.{with_keys, middle_of};

use crate::Change;
use std::alloc::{AllocError, Global};
use std::collections::{BTreeMap, BTreeSet};
use vol_types::{Pos, Value};

/// The middle one of the positions that are taken after the changes. It goes over the entries, and takes memory for each.
pub(crate) fn middle_after<C: Change>(
    alloc: Global,
    entries: &BTreeMap<Pos, Value>,
    changes: &[C],
) -> Result<Option<Pos>, AllocError>
    ensures { IfOk result (λ at. at ≡ middle_of (with_keys (map C.key changes.now)
        entries.now.entries)) }
{
    let mut positions = positions_of(alloc, entries)?;
    for change in changes {
        change_one(&mut positions, change)?;
    }
    Ok(middle(&positions))
}

// The positions of the entries.
#[tactic(auto, using(vol_types::specs::CopyLaws::copy_key_more))]
fn positions_of(alloc: Global, entries: &BTreeMap<Pos, Value>) -> Result<BTreeSet<Pos>, AllocError>
    ensures { IfOk result (λ positions. positions.keys ≡ keys_of entries.now.entries) }
{
    let mut positions = BTreeSet::new(alloc);
    for pos in entries.keys() {
        positions.insert(*pos)?;
    }
    Ok(positions)
}

// Takes the changed position or frees it.
fn change_one<C: Change>(positions: &mut BTreeSet<Pos>, change: &C) -> Result<(), AllocError>
    ensures { OnOk result ((entries : Entries) → positions.old.keys ≡ keys_of entries
        → positions.new.keys ≡ keys_of (put_at pos_cmp (C.key change.now).pos
        (C.key change.now).value entries)) }
{
    match change.value() {
        None => {
            positions.remove(change.pos());
        }
        Some(_) => {
            positions.insert(*change.pos())?;
        }
    }
    Ok(())
}

// The middle one of the positions, if there are two or more.
fn middle(positions: &BTreeSet<Pos>) -> Option<Pos>
    ensures { (entries : Entries) → positions.now.keys ≡ keys_of entries
        → result ≡ middle_of entries }
{
    let count = positions.len();
    if count < 2 {
        return None;
    }
    positions.iter().nth((count - 1) / 2).copied()
}
