ghost use Rattle.std.specs.Prelude.{◌≡◌, [], IfOk, OnOk};
ghost use Rattle.btree_map.specs.Trees.{entries_in};
ghost use Rattle.forest_view.specs.Nearest.{nearest_with, noted};

use btree_map::KeyMap;
use std::alloc::{AllocError, Global};
use std::collections::btree_map::Range;
use std::collections::{BTreeMap, BTreeSet};
use vol_types::{Btree, Pos, Value};

/// For each place, which is an inode with an offset, an id.
pub(crate) type Nearest = BTreeMap<(u64, u64), u32>;

/// All keys of a btree, in order.
pub(crate) fn all_keys(map: &KeyMap, btree: Btree) -> Range<'_, Pos, Value>
    ensures { result ≡ entries_in map.now btree }
{
    // The positions have their widths.
    let _ = map.height(btree);
    map.span(btree, &Pos::LEAST, &Pos::GREATEST)
}

/// For each place of a btree at which an id of a chain has a key, the nearest such id. It goes over the keys once, with a
/// logarithm of the chain's length and one of the number of places for each.
pub(crate) fn nearest_ids(
    alloc: Global,
    map: &KeyMap,
    btree: Btree,
    chain: &BTreeSet<u32>,
) -> Result<Nearest, AllocError>
    ensures { IfOk result (λ nearest. nearest.entries ≡ nearest_with chain.now.keys
        (entries_in map.now btree) []) }
{
    let mut nearest = BTreeMap::new(alloc);
    for (pos, _) in all_keys(map, btree) {
        note(&mut nearest, chain, pos)?;
    }
    Ok(nearest)
}

// Notes the id of a key, if it is one of the chain, and the first one at its place.
fn note(nearest: &mut Nearest, chain: &BTreeSet<u32>, pos: &Pos) -> Result<(), AllocError>
    ensures { OnOk result (nearest.new.entries ≡ noted chain.now.keys pos.now nearest.old.entries) }
{
    if !chain.contains(&pos.snapshot) {
        return Ok(());
    }
    if nearest.contains_key(&(pos.inode, pos.offset)) {
        return Ok(());
    }
    nearest.insert((pos.inode, pos.offset), pos.snapshot)?;
    Ok(())
}
