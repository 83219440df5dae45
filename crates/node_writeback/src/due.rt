ghost use Rattle.std.specs.List.{filter};
ghost use Rattle.std.specs.Prelude.{◌≡◌, slice_get};
ghost use Rattle.node_writeback.specs.Due.{is_due, is_frozen, is_pinned_up_to, leaf_due};

use crate::FrozenNode;
use btree_map::KeyMap;
use dirty_nodes::DirtyNodes;
use vol_types::Btree;

/// The btrees in the order of their numbers.
const BTREES: [Btree; 9] = [
    Btree::Extents,
    Btree::Inodes,
    Btree::Dirents,
    Btree::Subvols,
    Btree::Snapshots,
    Btree::Alloc,
    Btree::Backptrs,
    Btree::Deleted,
    Btree::Counters,
];

/// The btree whose leaf is to be frozen next, where the last durable entry has this sequence: the first one, in the order of their
/// numbers, that is one leaf which isn't frozen, and has keys of durable entries that it hasn't written. It looks at the root of each btree,
/// which costs a logarithm of the dirty nodes.
pub fn leaf_due(
    map: &KeyMap,
    dirty: &DirtyNodes,
    frozen: &[FrozenNode],
    durable: u64,
) -> Option<Btree>
    ensures { result ≡ leaf_due durable map.now.nodes dirty.now.pins.numbers frozen.now }
{
    first_due(map, dirty, frozen, durable, &BTREES)
}

// The first of some btrees whose leaf is to be frozen, if there is one.
fn first_due(
    map: &KeyMap,
    dirty: &DirtyNodes,
    frozen: &[FrozenNode],
    durable: u64,
    btrees: &[Btree],
) -> Option<Btree>
    ensures { result ≡ slice_get
        (filter (is_due durable map.now.nodes dirty.now.pins.numbers frozen.now) btrees.now) 0 }
{
    for btree in btrees {
        if is_due(map, dirty, frozen, durable, *btree) {
            return Some(*btree);
        }
    }
    None
}

// Whether the leaf of a btree is to be frozen.
fn is_due(
    map: &KeyMap,
    dirty: &DirtyNodes,
    frozen: &[FrozenNode],
    durable: u64,
    btree: Btree,
) -> bool
    ensures { result ≡ is_due durable map.now.nodes dirty.now.pins.numbers frozen.now btree }
{
    if map.height(btree) != 1 {
        return false;
    }
    let birth = map.root(btree).birth;
    if is_frozen(frozen, birth) {
        return false;
    }
    is_pinned_up_to(durable, dirty.pin_of(birth))
}

// Whether the node of this birth is frozen.
fn is_frozen(frozen: &[FrozenNode], birth: u64) -> bool
    ensures { result ≡ is_frozen frozen.now birth }
{
    frozen.iter().any(|node| node.birth == birth)
}

// Whether an entry up to this one is pinned.
fn is_pinned_up_to(sequence: u64, pin: Option<u64>) -> bool
    ensures { result ≡ is_pinned_up_to sequence pin }
{
    match pin {
        None => false,
        Some(pin) => pin <= sequence,
    }
}
