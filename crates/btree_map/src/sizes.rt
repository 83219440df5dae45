ghost use Rattle.std.specs.Prelude.{◌≡◌, ◌++◌, All, IfOk, OnOk, map};
ghost use Rattle.btree_map.specs.Sizes.{change_of, changes_in, leaf_birth, node_sizes, sizes_in, sizes_of_updates};
ghost use Rattle.btree_map.specs.declared.sizes.Chosen.{Chosen as AChosen};
ghost use Rattle.vol_types.specs.KeyMaps.{is_update_of};
ghost use Rattle.vol_types.specs.Ranges.{IsKeyValue};

use crate::KeyMap;
use birth_index::NodeName;
use node_mem::Change;
use std::alloc::{AllocError, Global};
use tree_keys::LeafSize;
use vol_types::{Btree, Listing, Pos, Update, Value};

/// The birth of a node, and how many bytes it takes on disk as one set, or 2^32 - 1 where they are more.
#[derive(Clone, Copy, PartialEq, Eq)]
pub struct NodeSize {
    pub birth: u64,
    pub size: u32,
}

/// The btrees in the order of their numbers.
const BTREES: [Btree; 9] = [
    Btree::Extents,
    Btree::Inodes,
    Btree::Dirents,
    Btree::Subvols,
    Btree::Snapshots,
    Btree::Alloc,
    Btree::Backptrs,
    Btree::Deleted,
    Btree::Counters,
];

// An update of a leaf of a btree, as a change of the btree's keys.
#[derive(Clone, Copy)]
struct Chosen<'a> {
    update: &'a Update,
}

impl Change for Chosen<'_> {
    ghost key = { λ chosen. change_of chosen.update.now };

    fn pos(&self) -> &Pos {
        &self.update.pos
    }

    fn value(&self) -> Option<&Value> {
        self.update.value.as_ref()
    }
}

impl KeyMap {
    /// How many bytes each leaf that one of the updates touches would take on disk as one set after all of them, or 2^32 - 1
    /// where they would be more, by the leaf's birth: btree by btree, in the order of the leaves. Updates of levels above
    /// the leaves touch none. It makes none of them: it takes a few steps for each update, times a logarithm, and memory
    /// for each position that is changed.
    pub fn sizes_after_updates(
        &self,
        alloc: Global,
        updates: &[Update],
    ) -> Result<Listing<NodeSize>, AllocError>
        requires { All (λ update. IsKeyValue update.value) updates.now }
        ensures { IfOk result (λ sizes. sizes ≡ sizes_of_updates self.now updates.now) }
    {
        let mut sizes = Listing::new(alloc);
        for btree in &BTREES {
            self.add_sizes(alloc, &mut sizes, *btree, updates)?;
        }
        Ok(sizes)
    }

    // Adds the sizes of the leaves of a btree that updates touch.
    fn add_sizes(
        &self,
        alloc: Global,
        sizes: &mut Listing<NodeSize>,
        btree: Btree,
        updates: &[Update],
    ) -> Result<(), AllocError>
        requires { All (λ update. IsKeyValue update.value) updates.now }
        ensures { OnOk result (sizes.new ≡ sizes.old ++ sizes_in self.now updates.now btree) }
    {
        let changes = choose(alloc, btree, updates)?;
        let leaves = self.sizes_after(alloc, btree, changes.as_slice())?;
        self.add_named(sizes, btree, leaves.as_slice())
    }

    // Adds sizes of leaves of a btree, under their births.
    fn add_named(
        &self,
        sizes: &mut Listing<NodeSize>,
        btree: Btree,
        leaves: &[LeafSize],
    ) -> Result<(), AllocError>
        ensures { OnOk result (sizes.new ≡ sizes.old ++ node_sizes self.now btree leaves.now) }
    {
        for leaf in leaves {
            sizes.push(NodeSize {
                birth: self.leaf_birth(btree, leaf.end),
                size: leaf.size,
            })?;
        }
        Ok(())
    }

    // The birth of the leaf of a btree that ends at a position, or 0 where none does.
    fn leaf_birth(&self, btree: Btree, end: Pos) -> u64
        ensures { result ≡ leaf_birth self.now btree end }
    {
        let name = NodeName {
            btree,
            level: 0,
            greatest: end,
        };
        match self.node(&name) {
            None => 0,
            Some(leaf) => leaf.birth,
        }
    }
}

// The updates of the leaves of a btree, as changes of its keys.
fn choose<'a>(
    alloc: Global,
    btree: Btree,
    updates: &'a [Update],
) -> Result<Vec<Chosen<'a>>, AllocError>
    requires { All (λ update. IsKeyValue update.value) updates.now }
    ensures changes { IfOk result (λ chosen. map (λ (c : AChosen). change_of c.update.now) chosen.items
        ≡ changes_in btree updates.now) }
    ensures in_range { IfOk result (λ chosen. All (λ (c : AChosen). IsKeyValue c.update.now.value) chosen.items) }
{
    let mut chosen = Vec::new(alloc);
    for update in updates {
        if is_leaf_update(btree, update) {
            chosen.push(Chosen { update })?;
        }
    }
    Ok(chosen)
}

// Whether an update is one of a leaf of a btree.
fn is_leaf_update(btree: Btree, update: &Update) -> bool
    ensures { result ≡ is_update_of btree update.now }
{
    if update.level != 0 {
        return false;
    }
    update.btree.code() == btree.code()
}
