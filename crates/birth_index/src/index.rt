ghost use Rattle.std.specs.Prelude.{◌≡◌, ◌≢◌, [], All, IfErr, IfOk, IsSome, None, OnErr, OnOk, Some, map, option_copied};
ghost use Rattle.std.specs.Ordering.{nat_cmp};
ghost use Rattle.birth_index.specs.Births.{HasCause, Index as AnIndex, IsFreeIn, IsIndex, birth_of, replaced, with_named};
ghost use Rattle.birth_index.specs.Exchanges.{fresh_of};
ghost use Rattle.vol_types.specs.Maps.{IsMap, value_at, without};

use crate::making::{add_all, add_births, index_of, remove_all, reuses};
use crate::{Exchange, IndexFault, Named, NodeName};
use std::alloc::{AllocError, Global};
use std::collections::BTreeMap;
use std::marker::Model;
use tree_nodes::TreeNodes;

/// The names of nodes, each under the birth of its node. A look costs a logarithm of their number, and so does each
/// change.
#[derive(Drop)]
pub struct BirthIndex {
    names: BTreeMap<u64, NodeName>,
}

impl Model for BirthIndex {
    ghost use Rattle.birth_index.specs.Births.{Index};

    ghost Value = { Index };

    ghost view = { λ index. index.names.entries };
}

impl BirthIndex {
    /// The index of no nodes. It takes no memory.
    pub fn new(alloc: Global) -> BirthIndex
        ensures { result ≡ [] }
    {
        BirthIndex {
            names: BTreeMap::new(alloc),
        }
    }

    /// The index of the nodes of btrees, which stand in the order of their numbers, or a birth that two of them have. It
    /// goes over all nodes once, and takes memory for each.
    pub fn of(alloc: Global, nodes: &[TreeNodes]) -> Result<BirthIndex, IndexFault>
        ensures ok { IfOk result (λ index. IsIndex index nodes.now) }
        // It fails for two nodes of one birth alone, or for memory.
        ensures err { IfErr result (HasCause (birth_of nodes.now)) }
    {
        Ok(BirthIndex {
            names: index_of(alloc, nodes)?,
        })
    }

    /// The name of the node with this birth, or none where no node has it.
    pub fn find(&self, birth: u64) -> Option<&NodeName>
        ensures { option_copied result ≡ value_at nat_cmp birth self.now }
    {
        self.names.get(&birth)
    }

    /// Takes the memory for the births of new nodes, which come in the place of the one with the birth `gone`: one of them
    /// may have this birth again, and the others' are in use by no node. From then on the births lead to the new nodes.
    /// An `Err` is out of memory, and changes nothing.
    pub fn take_room(
        &mut self,
        gone: u64,
        name: &NodeName,
        news: &[Named],
    ) -> Result<(), AllocError>
        requires there { value_at nat_cmp gone self.old ≡ Some name.now }
        requires free { All (λ new. IsFreeIn self.old gone new.birth) news.now }
        ensures ok { OnOk result (self.new ≡ with_named news.now self.old) }
        ensures err { OnErr result (self.new ≡ self.old) }
    {
        add_all(&mut self.names, gone, name, news)
    }

    /// Gives the memory for the births of new nodes back, which was taken: the index is as it was before. It takes none.
    pub fn give_room_back(&mut self, gone: u64, name: &NodeName, news: &[Named])
        requires { IsSome (value_at nat_cmp gone self.old) }
        ensures { (before : AnIndex) → IsMap nat_cmp before → value_at nat_cmp gone before ≡ Some name.now
            → All (λ new. IsFreeIn before gone new.birth) news.now → self.old ≡ with_named news.now before
            → self.new ≡ before }
    {
        remove_all(&mut self.names, gone, name, news)
    }

    /// Puts new nodes in the place of the one with the birth `gone`, once the memory for their births was taken. It takes
    /// none.
    pub fn replace(&mut self, gone: u64, news: &[Named])
        ensures { (before : AnIndex) → IsMap nat_cmp before → self.old ≡ with_named news.now before
            → self.new ≡ replaced gone news.now before }
    {
        if !reuses(gone, news) {
            self.names.remove(&gone);
        }
    }
    /// Adds the births of the pointers of changes, which are in use by no node, with the names of the nodes that are to get
    /// them: all or none. An `Err` is out of memory, and changes nothing.
    pub fn add_fresh(&mut self, changes: &[Exchange]) -> Result<(), AllocError>
        requires { All (λ change. value_at nat_cmp change.pointer.birth self.old ≡ None) changes.now }
        ensures ok { OnOk result (self.new ≡ with_named (map fresh_of changes.now) self.old) }
        ensures err { OnErr result (self.new ≡ self.old) }
    {
        add_births(&mut self.names, changes)
    }

    /// Removes a birth, and leaves all others.
    pub fn remove(&mut self, gone: u64)
        ensures { self.new ≡ without nat_cmp gone self.old }
    {
        self.names.remove(&gone);
    }
}
