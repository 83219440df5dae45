ghost use Rattle.std.specs.Prelude.{◌≡◌, IfOk, OnOk};
ghost use Rattle.btree_map.specs.Trees.{keys_in};
ghost use Rattle.forest_ops.specs.Parts.{bare_tree};
ghost use Rattle.key_meaning.specs.Forest.{inode_of, tree_of};
ghost use Rattle.key_meaning.specs.Visible.{own_value, snaps_of};
ghost use Rattle.vol_types.specs.declared.positions.Btree.TheVariants.{Inodes};
ghost use Rattle.forest_view.specs.Shown.{with_inode, with_inodes, with_link_in, with_links, with_names, with_names_at, with_number};
ghost use Rattle.forest_view.specs.Meant.{no_blocks};

use crate::chains::chain_of;
use crate::nearest::{Nearest, nearest_ids};
use btree_map::KeyMap;
use forest_ops::Subvolume;
use std::alloc::{AllocError, Global};
use std::collections::BTreeMap;
use vol_digest::slot;
use vol_types::{Btree, FileKind, Inode, Link, Pos, Snap, Sub, Value};

/// The tree of a subvolume, where the snapshot ids have these records and each file has zeros. It goes once over the keys of
/// inodes and once over those of names, with some logarithms for each, takes a digest of each name that shows, and writes the
/// zeros.
pub(crate) fn tree_of(
    alloc: Global,
    map: &KeyMap,
    snaps: &BTreeMap<u64, Snap>,
    sub: &Sub,
) -> Result<Subvolume, AllocError>
    requires { snaps.now.entries ≡ snaps_of (keys_in map.now) }
    ensures { IfOk result (λ tree. tree ≡ tree_of (keys_in map.now) no_blocks sub.now) }
{
    // The keys of each btree rise.
    let _ = map.height(Btree::Inodes);
    let chain = chain_of(alloc, snaps, sub.id)?;
    let inodes = nearest_ids(alloc, map, Btree::Inodes, &chain)?;
    let names = nearest_ids(alloc, map, Btree::Dirents, &chain)?;
    let mut tree = bare_of(alloc, sub);
    insert_inodes(alloc, map, &inodes, &mut tree)?;
    insert_names(alloc, map, &names, &mut tree)?;
    Ok(tree)
}

// The tree of a subvolume, without files and directories.
fn bare_of(alloc: Global, sub: &Sub) -> Subvolume
    ensures { result ≡ bare_tree sub.now.read_only sub.now.root }
{
    Subvolume::bare(alloc, sub.read_only, sub.root)
}

// Inserts the files and directories that show, where these are the nearest ids at their places.
fn insert_inodes(
    alloc: Global,
    map: &KeyMap,
    nearest: &Nearest,
    tree: &mut Subvolume,
) -> Result<(), AllocError>
    ensures { OnOk result (tree.new ≡ with_inodes (keys_in map.now) nearest.now.entries tree.old) }
{
    for (place, id) in nearest.iter() {
        let (inode, number) = *place;
        insert_number(alloc, map, inode, number, *id, tree)?;
    }
    Ok(())
}

// Inserts the file or directory that a number stands for in an id itself, where the place is one of inodes.
fn insert_number(
    alloc: Global,
    map: &KeyMap,
    inode: u64,
    number: u64,
    id: u32,
    tree: &mut Subvolume,
) -> Result<(), AllocError>
    ensures { OnOk result (tree.new ≡ with_number (keys_in map.now) inode number id tree.old) }
{
    if inode != 0 {
        return Ok(());
    }
    match own_inode(map, number, id) {
        Some(inode) => insert_inode(alloc, number, inode, tree),
        None => Ok(()),
    }
}

// The inode that a number has in an id itself.
fn own_inode(map: &KeyMap, number: u64, id: u32) -> Option<Inode>
    ensures { result ≡ inode_of (own_value (keys_in map.now) Inodes 0 number id) }
{
    let pos = Pos {
        inode: 0,
        offset: number,
        snapshot: id,
    };
    match map.get(Btree::Inodes, &pos) {
        Some(Value::Inode(inode)) => Some(*inode),
        _ => None,
    }
}

// Inserts a file or a directory.
fn insert_inode(
    alloc: Global,
    number: u64,
    inode: Inode,
    tree: &mut Subvolume,
) -> Result<(), AllocError>
    ensures { OnOk result (tree.new ≡ with_inode number inode tree.old) }
{
    match inode.kind {
        FileKind::File => tree.insert_file(alloc, number, inode.size),
        FileKind::Directory => tree.insert_directory(alloc, number),
    }
}

// Inserts the names that show, where these are the nearest ids at their places.
fn insert_names(
    alloc: Global,
    map: &KeyMap,
    nearest: &Nearest,
    tree: &mut Subvolume,
) -> Result<(), AllocError>
    ensures { OnOk result (tree.new ≡ with_names (keys_in map.now) nearest.now.entries tree.old) }
{
    for (place, id) in nearest.iter() {
        let (directory, slot) = *place;
        insert_names_at(alloc, map, directory, slot, *id, tree)?;
    }
    Ok(())
}

// Inserts the names that an id itself has under a slot of a directory.
fn insert_names_at(
    alloc: Global,
    map: &KeyMap,
    directory: u64,
    slot: u64,
    id: u32,
    tree: &mut Subvolume,
) -> Result<(), AllocError>
    ensures { OnOk result (tree.new ≡ with_names_at (keys_in map.now) directory slot id tree.old) }
{
    let pos = Pos {
        inode: directory,
        offset: slot,
        snapshot: id,
    };
    match map.get(Btree::Dirents, &pos) {
        Some(Value::Names(links)) => insert_links(alloc, directory, slot, links.as_slice(), tree),
        _ => Ok(()),
    }
}

// Inserts those of some names that stand under their slot.
fn insert_links(
    alloc: Global,
    directory: u64,
    slot: u64,
    links: &[Link],
    tree: &mut Subvolume,
) -> Result<(), AllocError>
    ensures { OnOk result (tree.new ≡ with_links directory slot links.now tree.old) }
{
    for link in links {
        insert_link(alloc, directory, slot, link, tree)?;
    }
    Ok(())
}

// Inserts a name, if it stands under its slot.
fn insert_link(
    alloc: Global,
    directory: u64,
    stands: u64,
    link: &Link,
    tree: &mut Subvolume,
) -> Result<(), AllocError>
    ensures { OnOk result (tree.new ≡ with_link_in directory stands link.now tree.old) }
{
    let slot = slot(link.name.as_slice());
    if slot != stands {
        return Ok(());
    }
    tree.insert_name(alloc, directory, &link.name, slot, link.number)
}
