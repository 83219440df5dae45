ghost use Rattle.std.specs.Prelude.{ℕ, ◌≡◌, ◌==◌, All, IfErr, IfOk, IsSome, None, OnErr, OnOk, Option, Some, map};
ghost use Rattle.std.specs.List.{list_any};
ghost use Rattle.std.specs.Ordering.{nat_cmp};
ghost use Rattle.birth_index.specs.Births.{Finds, HasCause, IsFreeIn, IsIndex, birth_of, with_named};
ghost use Rattle.birth_index.specs.Exchanges.{fresh_of, without_births};
ghost use Rattle.birth_index.specs.Parts.{HasNoLevel, HasNoTree, IsRefused, with_level, with_tree};
ghost use Rattle.birth_index.specs.Rooms.{cleared};
ghost use Rattle.birth_index.specs.declared.name.NodeName.{NodeName as ANodeName};
ghost use Rattle.tree_nodes.specs.Levels.{IsRow};
ghost use Rattle.vol_types.specs.Maps.{value_at, with_value};

use crate::{Exchange, Named, NodeName};
use std::alloc::{AllocError, Global};
use std::collections::BTreeMap;
use tree_nodes::{LevelNodes, TreeNodes};
use vol_types::Btree;

/// Why nodes have no index of their births.
#[derive(Clone, Copy, PartialEq, Eq)]
pub enum IndexFault {
    /// Two nodes have this birth.
    SameBirth { birth: u64 },
    /// Out of memory.
    NoMemory,
}

impl From<AllocError> for IndexFault {
    ghost use Rattle.birth_index.specs.declared.making.IndexFault.TheVariants.{NoMemory};

    ghost from_gives = { λ _ fault. fault ≡ NoMemory };

    fn from(_error: AllocError) -> Self {
        IndexFault::NoMemory
    }
}

/// The names of the nodes of btrees, each under its birth.
pub(crate) fn index_of(
    alloc: Global,
    nodes: &[TreeNodes],
) -> Result<BTreeMap<u64, NodeName>, IndexFault>
    ensures ok { IfOk result (λ names. IsIndex names.entries nodes.now) }
    ensures err { IfErr result (HasCause (birth_of nodes.now)) }
{
    let mut names = BTreeMap::new(alloc);
    for code in 0..9u8 {
        let Some(btree) = Btree::from_code(code) else {
            unreachable!()
        };
        let Some(tree) = nodes.get(usize::from(code)) else {
            return Ok(names);
        };
        add_tree(&mut names, btree, tree)?;
    }
    Ok(names)
}

// Adds the births of the nodes of a btree of which none is there.
fn add_tree(
    names: &mut BTreeMap<u64, NodeName>,
    btree: Btree,
    tree: &TreeNodes,
) -> Result<(), IndexFault>
    ensures ok { OnOk result ((births : ANodeName → Option ℕ) → Finds names.old.entries births → HasNoTree btree births
        → Finds names.new.entries (with_tree btree tree.now births)) }
    ensures err { IfErr result (λ fault. (births : ANodeName → Option ℕ) → Finds names.old.entries births
        → HasNoTree btree births → HasCause (with_tree btree tree.now births) fault) }
{
    for level in 0..tree.height() {
        let Some(nodes) = tree.level(level) else {
            unreachable!()
        };
        add_level(names, btree, level, nodes)?;
    }
    Ok(())
}

// Adds the births of the nodes of a level of which none is there.
fn add_level(
    names: &mut BTreeMap<u64, NodeName>,
    btree: Btree,
    level: u8,
    nodes: &LevelNodes,
) -> Result<(), IndexFault>
    requires { IsRow nodes.now }
    ensures ok { OnOk result ((births : ANodeName → Option ℕ) → Finds names.old.entries births
        → HasNoLevel btree level births → Finds names.new.entries (with_level btree level nodes.now births)) }
    ensures err { IfErr result (λ fault. (births : ANodeName → Option ℕ) → Finds names.old.entries births
        → HasNoLevel btree level births → HasCause (with_level btree level nodes.now births) fault) }
{
    for (greatest, node) in nodes.iter() {
        let name = NodeName {
            btree,
            level,
            greatest: *greatest,
        };
        add(names, node.birth, name)?;
    }
    Ok(())
}

// Adds a birth that isn't there.
fn add(names: &mut BTreeMap<u64, NodeName>, birth: u64, name: NodeName) -> Result<(), IndexFault>
    ensures ok { OnOk result (names.new.entries ≡ with_value nat_cmp birth name names.old.entries) }
    ensures new { OnOk result (value_at nat_cmp birth names.old.entries ≡ None) }
    ensures err { IfErr result (λ fault. IsRefused fault birth names.old.entries) }
{
    if names.contains_key(&birth) {
        return Err(IndexFault::SameBirth { birth });
    }
    put(names, birth, name)?;
    Ok(())
}

// Puts a name under a birth, whether or not there was one. An `Err` changes nothing, and comes only where there was none.
fn put(names: &mut BTreeMap<u64, NodeName>, birth: u64, name: NodeName) -> Result<(), AllocError>
    ensures ok { OnOk result (names.new.entries ≡ with_value nat_cmp birth name names.old.entries) }
    ensures err { OnErr result (names.new.entries ≡ names.old.entries) }
    ensures absent { OnErr result (value_at nat_cmp birth names.old.entries ≡ None) }
{
    names.insert(birth, name)?;
    Ok(())
}

/// Puts the names of new nodes under their births, all or none. An `Err` is out of memory.
pub(crate) fn add_all(
    names: &mut BTreeMap<u64, NodeName>,
    gone: u64,
    name: &NodeName,
    news: &[Named],
) -> Result<(), AllocError>
    requires there { value_at nat_cmp gone names.old.entries ≡ Some name.now }
    requires free { All (λ new. IsFreeIn names.old.entries gone new.birth) news.now }
    ensures ok { OnOk result (names.new.entries ≡ with_named news.now names.old.entries) }
    ensures err { OnErr result (names.new.entries ≡ names.old.entries) }
{
    // The births rise, as those of each map do.
    let _ = names.len();
    for place in 0..news.len() {
        let new = news[place];
        if let Err(error) = put(names, new.birth, new.name) {
            remove_all(names, gone, name, &news[..place]);
            return Err(error);
        }
    }
    Ok(())
}

/// Removes the births of new nodes, and puts the name of the one that was to go back under its birth, which is there.
pub(crate) fn remove_all(
    names: &mut BTreeMap<u64, NodeName>,
    gone: u64,
    name: &NodeName,
    news: &[Named],
)
    requires { IsSome (value_at nat_cmp gone names.old.entries) }
    ensures { names.new.entries ≡ with_value nat_cmp gone name.now (cleared gone news.now names.old.entries) }
{
    clear(names, gone, news);
    if put(names, gone, *name).is_err() {
        unreachable!()
    }
}

// Removes the births of new nodes, but the one that was to go.
fn clear(names: &mut BTreeMap<u64, NodeName>, gone: u64, news: &[Named])
    ensures { names.new.entries ≡ cleared gone news.now names.old.entries }
{
    for new in news {
        if new.birth != gone {
            names.remove(&new.birth);
        }
    }
}

/// Whether one of the new nodes has this birth.
pub(crate) fn reuses(gone: u64, news: &[Named]) -> bool
    ensures { result ≡ list_any (λ new. new.birth == gone) news.now }
{
    news.iter().any(|new| new.birth == gone)
}

/// Puts the names of nodes under the births of the pointers that they are to get, all or none. An `Err` is out of memory.
pub(crate) fn add_births(
    names: &mut BTreeMap<u64, NodeName>,
    changes: &[Exchange],
) -> Result<(), AllocError>
    requires { All (λ change. value_at nat_cmp change.pointer.birth names.old.entries ≡ None) changes.now }
    ensures ok { OnOk result (names.new.entries ≡ with_named (map fresh_of changes.now) names.old.entries) }
    ensures err { OnErr result (names.new.entries ≡ names.old.entries) }
{
    // The births rise, as those of each map do.
    let _ = names.len();
    for place in 0..changes.len() {
        let change = &changes[place];
        if let Err(error) = put(names, change.pointer.birth, change.name) {
            remove_births(names, &changes[..place]);
            return Err(error);
        }
    }
    Ok(())
}

// Removes the births of the pointers of changes.
fn remove_births(names: &mut BTreeMap<u64, NodeName>, changes: &[Exchange])
    ensures { names.new.entries ≡ without_births changes.now names.old.entries }
{
    for change in changes {
        names.remove(&change.pointer.birth);
    }
}
