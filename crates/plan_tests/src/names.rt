//! Names that are added and removed in a few ids, beside others that are put under the slot of `a` by hand.

use crate::ids::shared_tree;
use dirent_keys::{NameStep, add, remove};
use key_view::{Hold, PlainKeys, PlainView, View};
use snap_tree::SnapTree;
use std::alloc::{AllocError, Global};
use std::collections::BTreeMap;
use std::test::Fail;
use vol_types::{Btree, Bytes, FileKind, Link, LinkList, Pos, Update, Updates, Value};

/// The number of the directory.
const DIRECTORY: u64 = 1;

/// Half of the first eight bytes of the SHA-256 digest of `a`, as coreutils' sha256sum prints it.
const SLOT: u64 = 0x654b_c089_650d_dee5;

/// The number that `a` leads to.
const NUMBER: u64 = 77;

/// Ids, each with its parent: 10 is under 20, and 20 is under 30. 15 is under 20 too, and 40 is alone.
static IDS: [(u32, u32); 5] = [(10, 20), (15, 20), (20, 30), (30, 0), (40, 0)];

fn push_link(
    alloc: Global,
    links: &mut LinkList,
    number: u64,
    kind: FileKind,
    name: u8,
) -> Result<(), AllocError> {
    let name = Bytes::from_slice(alloc, &[name])?;
    links.push(Link { number, kind, name })?;
    Ok(())
}

// A file for each byte, whose name is that byte and whose number is its code; `a` is a directory of a number of its own.
fn links_of(alloc: Global, names: &[u8]) -> Result<LinkList, AllocError> {
    let mut links = LinkList::new(alloc);
    for name in names {
        let (number, kind) = if *name == b'a' {
            (NUMBER, FileKind::Directory)
        } else {
            (u64::from(*name), FileKind::File)
        };
        push_link(alloc, &mut links, number, kind, *name)?;
    }
    Ok(links)
}

/// What an id has of its own: nothing, a whiteout, or some names.
#[derive(Clone, Copy, PartialEq, Eq)]
enum Own {
    Nothing,
    Whiteout,
    Names(&'static [u8]),
}

use Own::{Names, Nothing, Whiteout};

fn value_of(alloc: Global, own: Own) -> Result<Option<Value>, AllocError> {
    match own {
        Own::Nothing => Ok(None),
        Own::Whiteout => Ok(Some(Value::White)),
        Own::Names(names) => Ok(Some(Value::Names(links_of(alloc, names)?))),
    }
}

fn place(id: u32) -> Pos {
    Pos {
        inode: DIRECTORY,
        offset: SLOT,
        snapshot: id,
    }
}

/// Keys of other ids, directories and slots.
static OTHERS: [(u64, u64, u32); 4] = [
    (DIRECTORY, SLOT, 15),
    (DIRECTORY, SLOT, 40),
    (DIRECTORY, SLOT + 1, 10),
    (DIRECTORY + 1, SLOT, 10),
];

// Puts what 10, 20 and 30 have.
fn put_held(
    alloc: Global,
    dirents: &mut BTreeMap<Pos, Value>,
    held: [Own; 3],
) -> Result<(), AllocError> {
    let [lowest, middle, root] = held;
    for (id, own) in [(10, lowest), (20, middle), (30, root)] {
        if let Some(value) = value_of(alloc, own)? {
            dirents.insert(place(id), value)?;
        }
    }
    Ok(())
}

fn put_others(alloc: Global, dirents: &mut BTreeMap<Pos, Value>) -> Result<(), AllocError> {
    for (inode, offset, snapshot) in OTHERS.iter() {
        let pos = Pos {
            inode: *inode,
            offset: *offset,
            snapshot: *snapshot,
        };
        dirents.insert(pos, Value::Names(links_of(alloc, b"aq")?))?;
    }
    Ok(())
}

// The names that 10, 20 and 30 have, among those of others.
fn put_all(
    alloc: Global,
    dirents: &mut BTreeMap<Pos, Value>,
    held: [Own; 3],
) -> Result<(), AllocError> {
    put_held(alloc, dirents, held)?;
    put_others(alloc, dirents)
}

// A view in which 10, 20 and 30 have these, among keys of other ids, directories and slots.
fn view_of(alloc: Global, held: [Own; 3]) -> Result<PlainView, Fail> {
    let mut keys = PlainKeys::new(alloc);
    if let Err(error) = put_all(alloc, &mut keys.dirents, held) {
        drop(keys);
        return Err(Fail::from(error));
    }
    match shared_tree(alloc, &IDS) {
        Ok(tree) => Ok(PlainView::new(alloc, keys, tree)),
        Err(fail) => {
            drop(keys);
            Err(fail)
        }
    }
}

// The one update of an id's own key there.
fn updates_of(alloc: Global, id: u32, own: Own) -> Result<Updates, AllocError> {
    let mut updates = Updates::new(alloc);
    updates.push(Update {
        btree: Btree::Dirents,
        level: 0,
        pos: place(id),
        value: value_of(alloc, own)?,
    })?;
    Ok(updates)
}

fn name_a(alloc: Global) -> Result<Bytes, AllocError> {
    Bytes::from_slice(alloc, b"a")
}

/// What adding `a` comes to: its names are put, or it isn't added.
#[derive(Clone, Copy, PartialEq, Eq)]
enum Added {
    Put(&'static [u8]),
    Exists,
    Crowded,
}

// Whether a step is this one.
fn is_step(alloc: Global, step: &NameStep, id: u32, added: Added) -> Result<bool, AllocError> {
    let wanted = step_of(alloc, id, added)?;
    let same = *step == wanted;
    drop(wanted);
    Ok(same)
}

fn step_in(
    alloc: Global,
    view: &mut PlainView,
    tree: &SnapTree,
    id: u32,
) -> Result<NameStep, Hold> {
    let name = name_a(alloc)?;
    let step = add(
        alloc,
        view,
        tree,
        id,
        DIRECTORY,
        &name,
        NUMBER,
        FileKind::Directory,
    );
    drop(name);
    step
}

fn adds_to(
    alloc: Global,
    view: &mut PlainView,
    tree: &SnapTree,
    id: u32,
    added: Added,
) -> Result<bool, Hold> {
    let step = step_in(alloc, view, tree, id)?;
    let same = is_step(alloc, &step, id, added);
    drop(step);
    Ok(same?)
}

fn adds(alloc: Global, view: &mut PlainView, id: u32, added: Added) -> Result<bool, Hold> {
    let tree = view.tree()?;
    let good = adds_to(alloc, view, &tree, id, added);
    drop(tree);
    good
}

fn is_added(alloc: Global, held: [Own; 3], id: u32, added: Added) -> Result<bool, Fail> {
    let mut view = view_of(alloc, held)?;
    let good = adds(alloc, &mut view, id, added);
    drop(view);
    Ok(good?)
}

fn step_of(alloc: Global, id: u32, added: Added) -> Result<NameStep, AllocError> {
    match added {
        Added::Put(names) => Ok(NameStep::Done(updates_of(alloc, id, Own::Names(names))?)),
        Added::Exists => Ok(NameStep::Exists),
        Added::Crowded => Ok(NameStep::Crowded),
    }
}

/// What 10, 20 and 30 have, an id, and what adding `a` to it comes to.
static ADDED: [(Own, Own, Own, u32, Added); 20] = [
    // alone, first, in the middle, last
    (Nothing, Nothing, Nothing, 10, Added::Put(b"a")),
    (Names(b"bc"), Nothing, Nothing, 10, Added::Put(b"abc")),
    (Names(b"AZbc"), Nothing, Nothing, 10, Added::Put(b"AZabc")),
    (Names(b"AZ"), Nothing, Nothing, 10, Added::Put(b"AZa")),
    // beside those of an ancestor, but not beside hidden ones
    (Nothing, Nothing, Names(b"Zb"), 10, Added::Put(b"Zab")),
    (Nothing, Names(b"c"), Names(b"Zb"), 10, Added::Put(b"ac")),
    (Names(b"a"), Nothing, Names(b"Zb"), 20, Added::Put(b"Zab")),
    (Whiteout, Nothing, Names(b"ab"), 10, Added::Put(b"a")),
    (Names(b"d"), Nothing, Names(b"ab"), 10, Added::Put(b"ad")),
    // seven others leave room, and eight don't
    (
        Nothing,
        Nothing,
        Names(b"ABCDbcd"),
        10,
        Added::Put(b"ABCDabcd"),
    ),
    (Nothing, Nothing, Names(b"ABCDbcde"), 10, Added::Crowded),
    (Names(b"bcdefghi"), Nothing, Nothing, 10, Added::Crowded),
    (Whiteout, Nothing, Names(b"ABCDbcde"), 10, Added::Put(b"a")),
    (Names(b"bcdefghi"), Nothing, Nothing, 30, Added::Put(b"a")),
    // the name is there, also where it is one of eight
    (Names(b"a"), Nothing, Nothing, 10, Added::Exists),
    (Nothing, Nothing, Names(b"Zab"), 10, Added::Exists),
    (Nothing, Nothing, Names(b"ABCDabcd"), 10, Added::Exists),
    // other ids have it
    (Nothing, Nothing, Nothing, 15, Added::Exists),
    (Nothing, Nothing, Nothing, 40, Added::Exists),
    (Nothing, Nothing, Nothing, 20, Added::Put(b"a")),
];

// The number of the first row to which adding `a` comes to something else.
fn first_other_added(alloc: Global) -> Result<Option<u32>, Fail> {
    let mut number: u32 = 0;
    for (lowest, middle, root, id, added) in ADDED.iter() {
        if !is_added(alloc, [*lowest, *middle, *root], *id, *added)? {
            return Ok(Some(number));
        }
        number = number.saturating_add(1);
    }
    Ok(None)
}

#[test]
fn names_are_added(rt: HostRuntime) -> Result<(), Fail> {
    assert!(rt; first_other_added(rt.alloc())? == None);
    Ok(())
}

// Whether a removal is this one.
fn is_removal(
    alloc: Global,
    removal: Option<&Updates>,
    id: u32,
    put: Option<Own>,
) -> Result<bool, AllocError> {
    match (removal, put) {
        (None, None) => Ok(true),
        (Some(removal), Some(own)) => {
            let wanted = updates_of(alloc, id, own)?;
            let same = *removal == wanted;
            drop(wanted);
            Ok(same)
        }
        _ => Ok(false),
    }
}

fn removal_in(
    alloc: Global,
    view: &mut PlainView,
    tree: &SnapTree,
    id: u32,
) -> Result<Option<Updates>, Hold> {
    let name = name_a(alloc)?;
    let removal = remove(alloc, view, tree, id, DIRECTORY, &name);
    drop(name);
    removal
}

fn removes_from(
    alloc: Global,
    view: &mut PlainView,
    tree: &SnapTree,
    id: u32,
    put: Option<Own>,
) -> Result<bool, Hold> {
    let removal = removal_in(alloc, view, tree, id)?;
    let same = is_removal(alloc, removal.as_ref(), id, put);
    drop(removal);
    Ok(same?)
}

fn removes(alloc: Global, view: &mut PlainView, id: u32, put: Option<Own>) -> Result<bool, Hold> {
    let tree = view.tree()?;
    let good = removes_from(alloc, view, &tree, id, put);
    drop(tree);
    good
}

fn is_removed(alloc: Global, held: [Own; 3], id: u32, put: Option<Own>) -> Result<bool, Fail> {
    let mut view = view_of(alloc, held)?;
    let good = removes(alloc, &mut view, id, put);
    drop(view);
    Ok(good?)
}

/// What 10, 20 and 30 have, an id, and what is put where it loses `a`, if it has it.
static REMOVED: [(Own, Own, Own, u32, Option<Own>); 14] = [
    // others are left, of its own or of an ancestor
    (Names(b"abc"), Nothing, Nothing, 10, Some(Names(b"bc"))),
    (Nothing, Nothing, Names(b"Zab"), 10, Some(Names(b"Zb"))),
    (Names(b"ad"), Nothing, Names(b"Zab"), 10, Some(Names(b"d"))),
    // the last one of an ancestor is hidden
    (Nothing, Nothing, Names(b"a"), 10, Some(Whiteout)),
    (Nothing, Names(b"a"), Nothing, 10, Some(Whiteout)),
    (Names(b"a"), Nothing, Names(b"Zb"), 10, Some(Whiteout)),
    // the last one of its own goes
    (Names(b"a"), Nothing, Nothing, 10, Some(Nothing)),
    (Names(b"a"), Whiteout, Names(b"a"), 10, Some(Nothing)),
    (Names(b"ab"), Names(b"b"), Names(b"a"), 30, Some(Nothing)),
    (Nothing, Nothing, Nothing, 40, Some(Names(b"q"))),
    // it isn't there
    (Nothing, Nothing, Nothing, 10, None),
    (Names(b"Zb"), Nothing, Names(b"a"), 10, None),
    (Whiteout, Nothing, Names(b"a"), 10, None),
    (Names(b"a"), Nothing, Nothing, 20, None),
];

// The number of the first row from which removing `a` comes to something else.
fn first_other_removed(alloc: Global) -> Result<Option<u32>, Fail> {
    let mut number: u32 = 0;
    for (lowest, middle, root, id, put) in REMOVED.iter() {
        if !is_removed(alloc, [*lowest, *middle, *root], *id, *put)? {
            return Ok(Some(number));
        }
        number = number.saturating_add(1);
    }
    Ok(None)
}

#[test]
fn names_are_removed(rt: HostRuntime) -> Result<(), Fail> {
    assert!(rt; first_other_removed(rt.alloc())? == None);
    Ok(())
}
