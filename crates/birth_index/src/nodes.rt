ghost use Rattle.std.specs.Prelude.{◌≡◌, ◌≢◌, ◌+◌, ◌-◌, ◌<◌, ◌∷◌, [], IfErr, IfNone, IfOk, IfSome, None, OnErr, OnOk, Some, length, option_copied, slice_get, slice_set};
ghost use Rattle.birth_index.specs.Births.{BirthsDiffer, HasCause, ForHalves, ForRoots, IsFree, IsIndex, birth_of, levels_of, root_named};
ghost use Rattle.birth_index.specs.Exchanges.{AreBefore, AreExchanges, exchanged};
ghost use Rattle.birth_index.specs.declared.name.NodeName.{NodeName as ANodeName};
ghost use Rattle.tree_nodes.specs.Levels.{Covers, EndsAt, IsNodeOf, divided, level_of, under_root, with_node};
ghost use Rattle.vol_types.specs.Btrees.{btree_code};
ghost use Rattle.vol_types.specs.Maps.{value_at};
ghost use Rattle.vol_types.specs.Positions.{IsBefore, greatest_pos, pos_cmp};

use crate::changing::{divide_node, divide_top, replace_node};
use crate::pointers::exchange_nodes;
use crate::{BirthIndex, Exchange, IndexFault, NodeName};
use std::alloc::{AllocError, Global};
use std::marker::Model;
use tree_nodes::TreeNodes;
use vol_types::{Btree, Listing, NodePtr, Pos, wide};

/// The nodes of btrees, which stand in the order of their numbers, with an index of their births. No two nodes of the
/// first nine have one birth. A look costs a logarithm of the number of nodes, and so does each change.
#[derive(Drop)]
pub struct IndexedNodes {
    trees: Vec<TreeNodes>,
    births: BirthIndex,
}

impl Model for IndexedNodes {
    ghost use Rattle.std.specs.Prelude.{List};
    ghost use Rattle.birth_index.specs.Births.{IsIndex};
    ghost use Rattle.tree_nodes.specs.Levels.{Levels};

    ghost Value = { List Levels };

    ghost view = { λ nodes. nodes.trees.items };

    ghost invariant = { λ nodes. IsIndex nodes.births nodes.trees.items };
}

impl IndexedNodes {
    /// The nodes of btrees, or a birth that two of them have. It goes over all nodes once, and takes memory for each.
    pub fn of(alloc: Global, trees: Listing<TreeNodes>) -> Result<IndexedNodes, IndexFault>
        ensures ok { IfOk result (λ nodes. nodes ≡ trees) }
        ensures differ { OnOk result (BirthsDiffer trees) }
        // It fails for two nodes of one birth alone, or for memory.
        ensures err { IfErr result (HasCause (birth_of trees)) }
    {
        let births = BirthIndex::of(alloc, trees.as_slice())?;
        Ok(IndexedNodes {
            trees: Vec::from(trees),
            births,
        })
    }

    /// How many btrees there are.
    pub fn len(&self) -> usize
        ensures { result ≡ length self.now }
    {
        self.trees.len()
    }

    /// The nodes of a btree, if it is there.
    pub fn get(&self, btree: Btree) -> Option<&TreeNodes>
        ensures { option_copied result ≡ slice_get self.now (btree_code btree) }
    {
        self.trees.get(usize::from(btree.code()))
    }

    /// The name of the node with this birth, or none where no node has it.
    pub fn find(&self, birth: u64) -> Option<&NodeName>
        ensures some { IfSome result (λ name. birth_of self.now name.now ≡ Some birth) }
        ensures none { IfNone result ((name : ANodeName) → birth_of self.now name ≢ Some birth) }
        ensures differ { BirthsDiffer self.now }
    {
        self.births.find(birth)
    }

    /// Puts a pointer in the place of that of a node, and gives that one. Its birth is that of the node, or one that no
    /// node has. An `Err` is out of memory, and changes nothing.
    pub fn replace(&mut self, name: &NodeName, fresh: NodePtr) -> Result<NodePtr, AllocError>
        requires there { EndsAt (level_of (levels_of self.old name.now.btree) name.now.level)
            name.now.greatest }
        requires node { IsNodeOf name.now.level fresh }
        requires free { IsFree self.old name.now fresh.birth }
        ensures before { IfOk result (λ before. value_at pos_cmp name.now.greatest
            (level_of (levels_of self.old name.now.btree) name.now.level) ≡ Some before) }
        ensures ok { OnOk result (self.new ≡ slice_set self.old (btree_code name.now.btree)
            (with_node name.now.level name.now.greatest fresh
            (levels_of self.old name.now.btree))) }
        ensures err { OnErr result (self.new ≡ self.old) }
    {
        replace_node(&mut self.trees, &mut self.births, name, fresh)
    }

    /// Exchanges the pointers of changes for those of their nodes, all or none: each change gets the one that its node had.
    /// Each node is there and named once; no node has the birth of one of the pointers, and no two of these have one birth.
    /// An `Err` is out of memory, and changes nothing.
    pub fn exchange(&mut self, alloc: Global, changes: &mut [Exchange]) -> Result<(), AllocError>
        requires { AreExchanges self.old changes.old }
        ensures ok { OnOk result (self.new ≡ exchanged changes.old self.old) }
        ensures before { OnOk result (AreBefore self.old changes.old changes.new) }
        ensures err { OnErr result (self.new ≡ self.old) }
        ensures kept { OnErr result (changes.new ≡ changes.old) }
    {
        exchange_nodes(alloc, &mut self.trees, &mut self.births, changes)
    }

    /// Puts two nodes in the place of one that isn't the root: the first covers its positions up to `at`, and the second
    /// those after it. Their births differ, and each is that of the node or one that no node has. It gives the pointer
    /// that was there. An `Err` is out of memory, and changes nothing.
    pub fn divide(
        &mut self,
        name: &NodeName,
        at: &Pos,
        first: NodePtr,
        second: NodePtr,
    ) -> Result<NodePtr, AllocError>
        requires below { name.now.level + 1 < length (levels_of self.old name.now.btree) }
        requires covered { Covers (level_of (levels_of self.old name.now.btree) name.now.level)
            name.now.greatest at.now }
        requires before { IsBefore at.now name.now.greatest }
        requires child { 0 < name.now.level → EndsAt
            (level_of (levels_of self.old name.now.btree) (name.now.level - 1)) at.now }
        requires first { IsNodeOf name.now.level first }
        requires second { IsNodeOf name.now.level second }
        requires births { ForHalves self.old name.now first.birth second.birth }
        ensures before { IfOk result (λ before. value_at pos_cmp name.now.greatest
            (level_of (levels_of self.old name.now.btree) name.now.level) ≡ Some before) }
        ensures ok { OnOk result (self.new ≡ slice_set self.old (btree_code name.now.btree)
            (divided name.now.level name.now.greatest at.now first second
            (levels_of self.old name.now.btree))) }
        ensures err { OnErr result (self.new ≡ self.old) }
    {
        let at = wide(at);
        divide_node(&mut self.trees, &mut self.births, name, &at, first, second)
    }

    /// Puts two nodes in the place of the root of a btree, as `divide` does, under a new root. The three births differ,
    /// and each is that of the old root or one that no node has. It gives the pointer of the old root. An `Err` is out of
    /// memory, and changes nothing.
    pub fn divide_root(
        &mut self,
        alloc: Global,
        btree: Btree,
        at: &Pos,
        first: NodePtr,
        second: NodePtr,
        root: NodePtr,
    ) -> Result<NodePtr, AllocError>
        requires there { btree_code btree < length self.old }
        requires before { IsBefore at.now greatest_pos }
        requires child { 1 < length (levels_of self.old btree) → EndsAt
            (level_of (levels_of self.old btree) (length (levels_of self.old btree) - 2)) at.now }
        requires first { IsNodeOf (length (levels_of self.old btree) - 1) first }
        requires second { IsNodeOf (length (levels_of self.old btree) - 1) second }
        requires root { IsNodeOf (length (levels_of self.old btree)) root }
        requires births { ForRoots self.old (root_named self.old btree) first.birth second.birth root.birth }
        ensures before { IfOk result (λ before. level_of (levels_of self.old btree)
            (length (levels_of self.old btree) - 1) ≡ (greatest_pos, before) ∷ []) }
        ensures ok { OnOk result (self.new ≡ slice_set self.old (btree_code btree) (under_root root
            (divided (length (levels_of self.old btree) - 1) greatest_pos at.now first second
            (levels_of self.old btree)))) }
        ensures err { OnErr result (self.new ≡ self.old) }
    {
        let at = wide(at);
        divide_top(
            alloc,
            &mut self.trees,
            &mut self.births,
            btree,
            &at,
            first,
            second,
            root,
        )
    }
}
