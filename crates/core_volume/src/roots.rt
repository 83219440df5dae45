ghost use Rattle.std.specs.Prelude.{◌≡◌, ◌<◌, [], All, IfOk, length, slice_index_or};
ghost use Rattle.core_volume.specs.Sealing.{roots_in};
ghost use Rattle.node_writeback.specs.Due.{root_of};
ghost use Rattle.vol_types.specs.Ranges.{IsNode};

use btree_map::KeyMap;
use std::alloc::{AllocError, Global};
use vol_types::{Btree, Duplicate, NodePtr, Roots};

/// How many btrees there are.
const BTREES: u8 = 9;

/// The root of each btree, in the order of the btrees' numbers.
pub(crate) fn roots_of(alloc: Global, map: &KeyMap) -> Result<Roots, AllocError>
    ensures roots { IfOk result (λ roots. roots ≡ roots_in map.now.nodes) }
    ensures count { IfOk result (λ roots. length roots ≡ 9) }
    ensures in_range { IfOk result (All IsNode) }
{
    // There are nine btrees.
    let _ = map.height(Btree::Extents);
    let mut roots = Roots::new(alloc);
    for code in 0..BTREES {
        roots.push(root_of(alloc, map, code)?)?;
    }
    Ok(roots)
}

// The root of the btree with this number.
fn root_of(alloc: Global, map: &KeyMap, code: u8) -> Result<NodePtr, AllocError>
    requires { code < 9 }
    ensures root { IfOk result (λ root. root ≡ root_of (slice_index_or map.now.nodes code [])) }
    ensures in_range { IfOk result IsNode }
{
    match Btree::from_code(code) {
        None => unreachable!(),
        Some(btree) => {
            let _ = map.height(btree);
            map.root(btree).copy(alloc)
        }
    }
}
