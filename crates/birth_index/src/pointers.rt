ghost use Rattle.std.specs.Prelude.{◌≡◌, ◌<◌, OnErr, OnOk, Some, length, map};
ghost use Rattle.std.specs.Ordering.{nat_cmp};
ghost use Rattle.birth_index.specs.Births.{IsIndex, levels_of};
ghost use Rattle.birth_index.specs.Exchanges.{AreBefore, AreExchanges, HasRoom, exchanged, fresh_of, with_pointer};
ghost use Rattle.tree_nodes.specs.Levels.{EndsAt, IsNodeOf, level_of};
ghost use Rattle.vol_types.specs.Btrees.{btree_code};
ghost use Rattle.vol_types.specs.Maps.{value_at, without};
ghost use Rattle.vol_types.specs.Positions.{pos_cmp};

use crate::changing::replace_in;
use crate::{BirthIndex, Exchange};
use std::alloc::{AllocError, Global};
use std::mem;
use tree_nodes::TreeNodes;
use vol_types::{NodePtr, Places};

/// Puts the pointers of changes in the place of those of their nodes, in the nodes and in their index, all or none. Each
/// change gets the pointer that its node had.
pub(crate) fn exchange_nodes(
    alloc: Global,
    trees: &mut Vec<TreeNodes>,
    births: &mut BirthIndex,
    changes: &mut [Exchange],
) -> Result<(), AllocError>
    requires index { IsIndex births.old trees.old.items }
    requires changes { AreExchanges trees.old.items changes.old }
    ensures ok { OnOk result (trees.new.items ≡ exchanged changes.old trees.old.items) }
    ensures before { OnOk result (AreBefore trees.old.items changes.old changes.new) }
    ensures err { OnErr result (trees.new.items ≡ trees.old.items) }
    ensures kept { OnErr result (changes.new ≡ changes.old) }
    ensures index { IsIndex births.new trees.new.items }
{
    births.add_fresh(changes)?;
    put_all(alloc, trees, births, changes);
    Ok(())
}

// Puts the pointers of changes in place, once their births were added to the index. It takes no memory.
fn put_all(
    alloc: Global,
    trees: &mut Vec<TreeNodes>,
    births: &mut BirthIndex,
    changes: &mut [Exchange],
)
    requires room { HasRoom trees.old.items (map fresh_of changes.old) births.old }
    requires changes { AreExchanges trees.old.items changes.old }
    ensures after { trees.new.items ≡ exchanged changes.old trees.old.items }
    ensures before { AreBefore trees.old.items changes.old changes.new }
    ensures index { IsIndex births.new trees.new.items }
{
    for place in 0..changes.len() {
        put_one(alloc, trees, births, &mut changes[place]);
    }
}

// Puts the pointer of a change in place, and removes the birth of the one that was there.
fn put_one(
    alloc: Global,
    trees: &mut Vec<TreeNodes>,
    births: &mut BirthIndex,
    change: &mut Exchange,
)
    requires code { btree_code change.old.name.btree < length trees.old.items }
    requires there { EndsAt (level_of (levels_of trees.old.items change.old.name.btree)
        change.old.name.level) change.old.name.greatest }
    requires node { IsNodeOf change.old.name.level change.old.pointer }
    ensures name { change.new.name ≡ change.old.name }
    ensures before { value_at pos_cmp change.old.name.greatest
        (level_of (levels_of trees.old.items change.old.name.btree) change.old.name.level)
        ≡ Some change.new.pointer }
    ensures after { trees.new.items ≡ with_pointer change.old trees.old.items }
    ensures births { births.new ≡ without nat_cmp change.new.pointer.birth births.old }
{
    let none = NodePtr {
        birth: 0,
        level: 0,
        places: Places::new(alloc),
    };
    let fresh = mem::replace(&mut change.pointer, none);
    let before = replace_in(trees, &change.name, fresh);
    births.remove(before.birth);
    change.pointer = before;
}
