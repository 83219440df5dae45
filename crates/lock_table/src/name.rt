ghost use Rattle.std.specs.Prelude.{◌≡◌, ◌↔◌, IsTrue};
ghost use Rattle.lock_table.specs.Names.{IsBelow};

use vol_types::{Btree, Pos};

/// What a node is called: its btree, its level, which is 0 for a leaf, the greatest position that it covers, and its
/// birth, which no other node has.
#[derive(Clone, Copy, PartialEq, Eq)]
pub struct NodeName {
    pub btree: Btree,
    pub level: u8,
    pub greatest: Pos,
    pub birth: u64,
}

impl NodeName {
    /// Whether it stands above another node, in the order of btrees, then of levels from the top, then of positions,
    /// then of births. A child stands above its parent, and a right neighbour above its left one.
    pub fn is_above(&self, other: &NodeName) -> bool
        ensures { IsTrue result ↔ IsBelow other.now self.now }
    {
        let btrees = other.btree.code().cmp(&self.btree.code());
        let levels = self.level.cmp(&other.level);
        let positions = other.greatest.cmp(&self.greatest);
        let births = other.birth.cmp(&self.birth);
        btrees.then(levels.then(positions.then(births))).is_lt()
    }
}
