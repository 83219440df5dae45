//! Plans of the operations on names, each with its exact updates, over a volume of three ids: 20 is the id of the subvolume `main`,
//! and 10 that of `copy`, which may only be read; both are under 30. Some slots are filled by hand.

ghost use Rattle.std.specs.Prelude.{◌≡◌, true};
ghost use Rattle.fs_plan.specs.Plans.{IsBounded, is_planned};

use crate::ids::shared_tree;
use crate::plans::{
    Flagged, IDS, counter_pos, flags_of, has_reply, inode_pos, is_plan, name_pos, path_of, put_sub,
};
use FileKind::{Directory, File};
use forest_ops::{Cause, Op, Reply};
use fs_plan::{Plan, plan};
use key_view::{PlainKeys, PlainView};
use plain_forest::Path;
use std::alloc::{AllocError, Global};
use std::test::Fail;
use vol_types::{Btree, Bytes, FileKind, Inode, Link, LinkList, Pos, Update, Updates, Value};

/// The next number of client 0.
const NEXT: u64 = 20;

/// The number of the root of both subvolumes, and that of the directory `d` in it.
const ROOT: u64 = 1;

const LETTERS: u64 = 2;

/// Two names of one slot: half of the first eight bytes of the SHA-256 digest of each, as coreutils' sha256sum prints it, is
/// 0x0c52eb0023e4a389.
const TWIN: &[u8] = b"eblnjkdoidedckda";

const OTHER_TWIN: &[u8] = b"glnnmfdpllkpgcfg";

/// The numbers of two directories in `d`: `s`, where the first twin is alone in its slot, and `t`, where it is beside seven names.
const ALONE: u64 = 12;

const FULL: u64 = 16;

/// Ids with inodes, and the links of each.
static INODES: [(u32, u64, FileKind, u32); 15] = [
    (30, ROOT, Directory, 1),
    (30, LETTERS, Directory, 1),
    (20, 3, File, 2),
    (30, 5, File, 1),
    (20, 6, File, 1),
    (20, 7, Directory, 1),
    (30, 8, Directory, 1),
    (20, 9, File, 255),
    (30, 10, File, 1),
    (20, 11, File, 2),
    (20, 13, File, 254),
    (30, 14, Directory, 1),
    (30, 15, File, 1),
    (20, ALONE, Directory, 1),
    (20, FULL, Directory, 1),
];

/// Ids with inodes that they don't see.
static HIDDEN_INODES: [(u32, u64); 2] = [(20, 10), (20, 15)];

/// A name with the number that it leads to.
type Named = (u64, FileKind, &'static [u8]);

/// Ids with directories, each with a name, and those that stand under its slot.
type Slot = (u32, u64, &'static [u8], &'static [Named]);

static SLOTS: [Slot; 19] = [
    (30, ROOT, b"d", &[(LETTERS, Directory, b"d")]),
    // a file with two names
    (20, ROOT, b"a", &[(3, File, b"a")]),
    (20, LETTERS, b"b", &[(3, File, b"b")]),
    // a file of 30, and one of `main` alone
    (30, ROOT, b"o", &[(5, File, b"o")]),
    (20, ROOT, b"f", &[(6, File, b"f")]),
    // an empty directory of `main` alone, and one of 30
    (20, ROOT, b"e", &[(7, Directory, b"e")]),
    (30, ROOT, b"w", &[(8, Directory, b"w")]),
    // files with 255 and 254 links
    (20, ROOT, b"m", &[(9, File, b"m")]),
    (20, ROOT, b"l", &[(13, File, b"l")]),
    // a file that `main` doesn't see, and a directory whose only name it doesn't see
    (30, ROOT, b"v", &[(10, File, b"v")]),
    (30, ROOT, b"h", &[(14, Directory, b"h")]),
    (30, 14, b"k", &[(15, File, b"k")]),
    // the slot of `x`, without it, and that of `y`, with it, are full
    (
        20,
        ROOT,
        b"x",
        &[
            (3, File, b"A"),
            (3, File, b"B"),
            (3, File, b"C"),
            (3, File, b"D"),
            (3, File, b"E"),
            (3, File, b"F"),
            (3, File, b"G"),
            (3, File, b"H"),
        ],
    ),
    (
        20,
        ROOT,
        b"y",
        &[
            (3, File, b"I"),
            (3, File, b"J"),
            (3, File, b"K"),
            (3, File, b"L"),
            (3, File, b"M"),
            (3, File, b"N"),
            (3, File, b"O"),
            (11, File, b"y"),
        ],
    ),
    (20, LETTERS, b"y", &[(11, File, b"y")]),
    (20, LETTERS, b"s", &[(ALONE, Directory, b"s")]),
    (20, LETTERS, b"t", &[(FULL, Directory, b"t")]),
    (20, ALONE, TWIN, &[(3, File, TWIN)]),
    (
        20,
        FULL,
        TWIN,
        &[
            (3, File, b"A"),
            (3, File, b"B"),
            (3, File, b"C"),
            (3, File, b"D"),
            (3, File, b"E"),
            (3, File, b"F"),
            (3, File, b"G"),
            (11, File, TWIN),
        ],
    ),
];

/// Ids with directories and names that they don't see.
static HIDDEN_NAMES: [(u32, u64, &[u8]); 2] = [(20, ROOT, b"v"), (20, 14, b"k")];

fn inode_of(kind: FileKind, links: u32) -> Value {
    Value::Inode(Inode {
        kind,
        links,
        size: 0,
    })
}

fn put_inodes(keys: &mut PlainKeys) -> Result<(), AllocError> {
    for (id, number, kind, links) in INODES.iter() {
        keys.inodes
            .insert(inode_pos(*id, *number), inode_of(*kind, *links))?;
    }
    Ok(())
}

fn put_hidden_inodes(keys: &mut PlainKeys) -> Result<(), AllocError> {
    for (id, number) in HIDDEN_INODES.iter() {
        keys.inodes.insert(inode_pos(*id, *number), Value::White)?;
    }
    Ok(())
}

fn push_link(alloc: Global, links: &mut LinkList, named: Named) -> Result<(), AllocError> {
    let (number, kind, name) = named;
    let name = Bytes::from_slice(alloc, name)?;
    links.push(Link { number, kind, name })?;
    Ok(())
}

fn links_of(alloc: Global, rows: &[Named]) -> Result<Value, AllocError> {
    let mut links = LinkList::new(alloc);
    for named in rows {
        push_link(alloc, &mut links, *named)?;
    }
    Ok(Value::Names(links))
}

fn put_slot(alloc: Global, keys: &mut PlainKeys, slot: Slot) -> Result<(), AllocError> {
    let (id, directory, name, rows) = slot;
    let value = links_of(alloc, rows)?;
    keys.dirents.insert(name_pos(id, directory, name), value)?;
    Ok(())
}

fn put_slots(alloc: Global, keys: &mut PlainKeys) -> Result<(), AllocError> {
    for slot in SLOTS.iter() {
        put_slot(alloc, keys, *slot)?;
    }
    Ok(())
}

fn put_hidden_names(keys: &mut PlainKeys) -> Result<(), AllocError> {
    for (id, directory, name) in HIDDEN_NAMES.iter() {
        keys.dirents
            .insert(name_pos(*id, *directory, name), Value::White)?;
    }
    Ok(())
}

fn put_all(alloc: Global, keys: &mut PlainKeys) -> Result<(), AllocError> {
    put_sub(alloc, keys, b"main", 20)?;
    put_sub(alloc, keys, b"copy", 10)?;
    put_inodes(keys)?;
    put_hidden_inodes(keys)?;
    put_slots(alloc, keys)?;
    put_hidden_names(keys)?;
    keys.counters
        .insert(counter_pos(0), Value::Counter { next: NEXT })?;
    Ok(())
}

fn keys_of(alloc: Global) -> Result<PlainKeys, AllocError> {
    let mut keys = PlainKeys::new(alloc);
    if let Err(error) = put_all(alloc, &mut keys) {
        drop(keys);
        return Err(error);
    }
    Ok(keys)
}

fn view_of(alloc: Global) -> Result<PlainView, Fail> {
    let tree = shared_tree(alloc, &IDS)?;
    match keys_of(alloc) {
        Ok(keys) => Ok(PlainView::new(alloc, keys, tree)),
        Err(error) => {
            drop(tree);
            Err(Fail::from(error))
        }
    }
}

/// The operations on names.
#[derive(Clone, Copy, PartialEq, Eq)]
enum Verb {
    Mkdir,
    Mkfile,
    Link,
    Unlink,
    Rmdir,
    Rename,
    Ls,
    Stat,
    Fsync,
}

use Verb::{Fsync, Ls, Mkdir, Mkfile, Rename, Rmdir, Stat, Unlink};

// The operation at a path, and to another one where it has two.
fn op_of(verb: Verb, from: Path, to: Path) -> Op
    ensures planned { is_planned result ≡ true }
    ensures bounded { IsBounded result }
{
    match verb {
        Verb::Link => Op::Link { from, to },
        Rename => Op::Rename { from, to },
        _ => {
            drop(to);
            op_at(verb, from)
        }
    }
}

// The operation at a path.
fn op_at(verb: Verb, path: Path) -> Op
    ensures planned { is_planned result ≡ true }
    ensures bounded { IsBounded result }
{
    match verb {
        Mkdir => Op::Mkdir { path },
        Mkfile => Op::Mkfile { path },
        Unlink => Op::Unlink { path },
        Rmdir => Op::Rmdir { path },
        Ls => Op::Ls { path },
        Stat => Op::Stat { path },
        _ => Op::Fsync { path },
    }
}

/// A subvolume and names in it.
#[derive(Clone, Copy)]
struct At {
    sub: &'static [u8],
    names: &'static [&'static [u8]],
}

// Names in `main`.
fn main_at(names: &'static [&'static [u8]]) -> At {
    At {
        sub: b"main",
        names,
    }
}

// The plan of an operation of client 0, if there is one.
fn planned(alloc: Global, verb: Verb, from: At, to: At) -> Result<Option<Plan>, Fail> {
    let mut view = view_of(alloc)?;
    let plan = planned_in(alloc, &mut view, verb, from, to);
    drop(view);
    Ok(plan?)
}

fn planned_in(
    alloc: Global,
    view: &mut PlainView,
    verb: Verb,
    from: At,
    to: At,
) -> Result<Option<Plan>, AllocError> {
    let from = path_of(alloc, from.sub, from.names)?;
    let to = path_of(alloc, to.sub, to.names)?;
    Ok(plan(alloc, view, 0, op_of(verb, from, to)).ok())
}

/// A key of `main` that changes.
#[derive(Clone, Copy)]
enum Put {
    /// Client 0's next number.
    Next(u64),
    /// An inode with its links, none, or one that hides an ancestor's.
    Inode(u64, FileKind, u32),
    NoInode(u64),
    HiddenInode(u64),
    /// The note that a file is gone.
    Gone(u64),
    /// What stands in a directory under the slot of a name: names, nothing, or what hides an ancestor's.
    Names(u64, &'static [u8], &'static [Named]),
    NoNames(u64, &'static [u8]),
    HiddenNames(u64, &'static [u8]),
}

use Put::{Gone, HiddenInode, HiddenNames, Names, Next, NoInode, NoNames};

fn push_at(
    updates: &mut Updates,
    btree: Btree,
    pos: Pos,
    value: Option<Value>,
) -> Result<(), AllocError> {
    updates.push(Update {
        btree,
        level: 0,
        pos,
        value,
    })?;
    Ok(())
}

fn push_inode(
    updates: &mut Updates,
    btree: Btree,
    number: u64,
    value: Option<Value>,
) -> Result<(), AllocError> {
    push_at(updates, btree, inode_pos(20, number), value)
}

fn push_name(
    updates: &mut Updates,
    directory: u64,
    name: &[u8],
    value: Option<Value>,
) -> Result<(), AllocError> {
    push_at(
        updates,
        Btree::Dirents,
        name_pos(20, directory, name),
        value,
    )
}

fn push_put(alloc: Global, updates: &mut Updates, put: Put) -> Result<(), AllocError> {
    match put {
        Next(next) => push_at(
            updates,
            Btree::Counters,
            counter_pos(0),
            Some(Value::Counter { next }),
        ),
        Put::Inode(number, kind, links) => push_inode(
            updates,
            Btree::Inodes,
            number,
            Some(inode_of(kind, links)),
        ),
        NoInode(number) => push_inode(updates, Btree::Inodes, number, None),
        HiddenInode(number) => push_inode(updates, Btree::Inodes, number, Some(Value::White)),
        Gone(number) => push_inode(updates, Btree::Deleted, number, Some(Value::Gone)),
        Names(directory, name, rows) => {
            let value = links_of(alloc, rows)?;
            push_name(updates, directory, name, Some(value))
        }
        NoNames(directory, name) => push_name(updates, directory, name, None),
        HiddenNames(directory, name) => push_name(updates, directory, name, Some(Value::White)),
    }
}

fn push_all(alloc: Global, updates: &mut Updates, puts: &[Put]) -> Result<(), AllocError> {
    for put in puts {
        push_put(alloc, updates, *put)?;
    }
    Ok(())
}

/// An operation in `main`, its names, and those of its second path, and the keys that change.
type Done = (
    Verb,
    &'static [&'static [u8]],
    &'static [&'static [u8]],
    &'static [Put],
);

static DONE: [Done; 23] = [
    (
        Mkdir,
        &[b"d", b"n"],
        &[],
        &[
            Next(NEXT + 1),
            Put::Inode(NEXT, Directory, 1),
            Names(LETTERS, b"n", &[(NEXT, Directory, b"n")]),
        ],
    ),
    // where a name of an ancestor is hidden
    (
        Mkfile,
        &[b"v"],
        &[],
        &[
            Next(NEXT + 1),
            Put::Inode(NEXT, File, 1),
            Names(ROOT, b"v", &[(NEXT, File, b"v")]),
        ],
    ),
    (
        Mkdir,
        &[b"v"],
        &[],
        &[
            Next(NEXT + 1),
            Put::Inode(NEXT, Directory, 1),
            Names(ROOT, b"v", &[(NEXT, Directory, b"v")]),
        ],
    ),
    // an inode of its own, one of an ancestor, and one that gets its last link
    (
        Verb::Link,
        &[b"a"],
        &[b"d", b"c"],
        &[
            Put::Inode(3, File, 3),
            Names(LETTERS, b"c", &[(3, File, b"c")]),
        ],
    ),
    (
        Verb::Link,
        &[b"o"],
        &[b"v"],
        &[
            Put::Inode(5, File, 2),
            Names(ROOT, b"v", &[(5, File, b"v")]),
        ],
    ),
    (
        Verb::Link,
        &[b"l"],
        &[b"d", b"c"],
        &[
            Put::Inode(13, File, 255),
            Names(LETTERS, b"c", &[(13, File, b"c")]),
        ],
    ),
    // one link is left
    (
        Unlink,
        &[b"a"],
        &[],
        &[NoNames(ROOT, b"a"), Put::Inode(3, File, 1)],
    ),
    // none is left, of a file of its own and of an ancestor's
    (
        Unlink,
        &[b"f"],
        &[],
        &[NoNames(ROOT, b"f"), NoInode(6), Gone(6)],
    ),
    (
        Unlink,
        &[b"o"],
        &[],
        &[HiddenNames(ROOT, b"o"), HiddenInode(5), Gone(5)],
    ),
    // seven others are left in the slot
    (
        Unlink,
        &[b"y"],
        &[],
        &[
            Names(
                ROOT,
                b"y",
                &[
                    (3, File, b"I"),
                    (3, File, b"J"),
                    (3, File, b"K"),
                    (3, File, b"L"),
                    (3, File, b"M"),
                    (3, File, b"N"),
                    (3, File, b"O"),
                ],
            ),
            Put::Inode(11, File, 1),
        ],
    ),
    (Rmdir, &[b"e"], &[], &[NoNames(ROOT, b"e"), NoInode(7)]),
    (
        Rmdir,
        &[b"w"],
        &[],
        &[HiddenNames(ROOT, b"w"), HiddenInode(8)],
    ),
    // its only name is hidden
    (
        Rmdir,
        &[b"h"],
        &[],
        &[HiddenNames(ROOT, b"h"), HiddenInode(14)],
    ),
    // two slots
    (
        Rename,
        &[b"a"],
        &[b"d", b"c"],
        &[
            NoNames(ROOT, b"a"),
            Names(LETTERS, b"c", &[(3, File, b"c")]),
        ],
    ),
    // directories, whose inodes stay
    (
        Rename,
        &[b"w"],
        &[b"d", b"w"],
        &[
            HiddenNames(ROOT, b"w"),
            Names(LETTERS, b"w", &[(8, Directory, b"w")]),
        ],
    ),
    (
        Rename,
        &[b"d"],
        &[b"g"],
        &[
            HiddenNames(ROOT, b"d"),
            Names(ROOT, b"g", &[(LETTERS, Directory, b"g")]),
        ],
    ),
    // to where a name is hidden: what led there from an ancestor is hidden in its turn
    (
        Rename,
        &[b"o"],
        &[b"v"],
        &[
            HiddenNames(ROOT, b"o"),
            Names(ROOT, b"v", &[(5, File, b"v")]),
        ],
    ),
    (
        Rename,
        &[b"w"],
        &[b"h", b"k"],
        &[
            HiddenNames(ROOT, b"w"),
            Names(14, b"k", &[(8, Directory, b"k")]),
        ],
    ),
    // inside one slot: one update
    (
        Rename,
        &[b"d", b"s", TWIN],
        &[b"d", b"s", OTHER_TWIN],
        &[Names(ALONE, TWIN, &[(3, File, OTHER_TWIN)])],
    ),
    // inside a full one, which has room without the old name
    (
        Rename,
        &[b"d", b"t", TWIN],
        &[b"d", b"t", OTHER_TWIN],
        &[Names(
            FULL,
            TWIN,
            &[
                (3, File, b"A"),
                (3, File, b"B"),
                (3, File, b"C"),
                (3, File, b"D"),
                (3, File, b"E"),
                (3, File, b"F"),
                (3, File, b"G"),
                (11, File, OTHER_TWIN),
            ],
        )],
    ),
    // under that slot of another directory: two updates
    (
        Rename,
        &[b"d", b"t", TWIN],
        &[b"d", b"s", OTHER_TWIN],
        &[
            Names(
                FULL,
                TWIN,
                &[
                    (3, File, b"A"),
                    (3, File, b"B"),
                    (3, File, b"C"),
                    (3, File, b"D"),
                    (3, File, b"E"),
                    (3, File, b"F"),
                    (3, File, b"G"),
                ],
            ),
            Names(ALONE, TWIN, &[(3, File, TWIN), (11, File, OTHER_TWIN)]),
        ],
    ),
    // the other of the two stays
    (
        Verb::Link,
        &[b"a"],
        &[b"d", b"s", OTHER_TWIN],
        &[
            Put::Inode(3, File, 3),
            Names(ALONE, TWIN, &[(3, File, TWIN), (3, File, OTHER_TWIN)]),
        ],
    ),
    // out of a full slot
    (
        Rename,
        &[b"y"],
        &[b"d", b"c"],
        &[
            Names(
                ROOT,
                b"y",
                &[
                    (3, File, b"I"),
                    (3, File, b"J"),
                    (3, File, b"K"),
                    (3, File, b"L"),
                    (3, File, b"M"),
                    (3, File, b"N"),
                    (3, File, b"O"),
                ],
            ),
            Names(LETTERS, b"c", &[(11, File, b"c")]),
        ],
    ),
];

// Whether a plan is this one.
fn comes_to(
    alloc: Global,
    verb: Verb,
    from: At,
    to: At,
    updates: &Updates,
    reply: &Reply,
) -> Result<bool, Fail> {
    let plan = planned(alloc, verb, from, to)?;
    let good = is_plan(&plan, updates, reply);
    drop(plan);
    Ok(good)
}

fn makes(alloc: Global, row: Done, updates: &mut Updates) -> Result<bool, Fail> {
    let (verb, from, to, puts) = row;
    push_all(alloc, updates, puts)?;
    comes_to(
        alloc,
        verb,
        main_at(from),
        main_at(to),
        updates,
        &Reply::Okay,
    )
}

// Whether an operation is done by these updates.
fn is_done(alloc: Global, row: Done) -> Result<bool, Fail> {
    let mut updates = Updates::new(alloc);
    let good = makes(alloc, row, &mut updates);
    drop(updates);
    good
}

// The number of the first row that isn't so.
fn first_not_done(alloc: Global) -> Result<Option<u32>, Fail> {
    let mut number: u32 = 0;
    for row in DONE.iter() {
        if !is_done(alloc, *row)? {
            return Ok(Some(number));
        }
        number = number.saturating_add(1);
    }
    Ok(None)
}

#[test]
fn names_change_by_these_updates(rt: HostRuntime) -> Result<(), Fail> {
    assert!(rt; first_not_done(rt.alloc())? == None);
    Ok(())
}

/// An operation, its subvolume and names, those of its second path, and why it is refused.
type Refused = (
    Verb,
    &'static [u8],
    &'static [&'static [u8]],
    &'static [u8],
    &'static [&'static [u8]],
    Cause,
);

static REFUSED: [Refused; 42] = [
    // a full slot without the name
    (Mkdir, b"main", &[b"x"], b"main", &[], Cause::Crowded),
    (Mkfile, b"main", &[b"x"], b"main", &[], Cause::Crowded),
    (
        Verb::Link,
        b"main",
        &[b"a"],
        b"main",
        &[b"x"],
        Cause::Crowded,
    ),
    (Rename, b"main", &[b"a"], b"main", &[b"x"], Cause::Crowded),
    // a name of the slot that isn't there yet; only a move inside the directory leaves room
    (
        Mkfile,
        b"main",
        &[b"d", b"t", OTHER_TWIN],
        b"main",
        &[],
        Cause::Crowded,
    ),
    (
        Rename,
        b"main",
        &[b"d", b"s", TWIN],
        b"main",
        &[b"d", b"t", OTHER_TWIN],
        Cause::Crowded,
    ),
    (
        Stat,
        b"main",
        &[b"d", b"s", OTHER_TWIN],
        b"main",
        &[],
        Cause::NotFound,
    ),
    // a full slot with the name
    (Mkfile, b"main", &[b"y"], b"main", &[], Cause::Exists),
    (Rename, b"main", &[b"a"], b"main", &[b"y"], Cause::Exists),
    (
        Rename,
        b"main",
        &[b"d", b"y"],
        b"main",
        &[b"y"],
        Cause::Exists,
    ),
    // 255 links, judged last
    (
        Verb::Link,
        b"main",
        &[b"m"],
        b"main",
        &[b"d", b"c"],
        Cause::LinksFull,
    ),
    (
        Verb::Link,
        b"main",
        &[b"m"],
        b"main",
        &[b"x"],
        Cause::Crowded,
    ),
    (
        Verb::Link,
        b"main",
        &[b"m"],
        b"main",
        &[b"a"],
        Cause::Exists,
    ),
    // a subvolume that may only be read
    (Mkdir, b"copy", &[b"n"], b"main", &[], Cause::ReadOnly),
    (Mkfile, b"copy", &[b"n"], b"main", &[], Cause::ReadOnly),
    (
        Verb::Link,
        b"copy",
        &[b"o"],
        b"copy",
        &[b"n"],
        Cause::ReadOnly,
    ),
    (Unlink, b"copy", &[b"o"], b"main", &[], Cause::ReadOnly),
    (Rmdir, b"copy", &[b"w"], b"main", &[], Cause::ReadOnly),
    (Rename, b"copy", &[b"o"], b"copy", &[b"n"], Cause::ReadOnly),
    (Rename, b"copy", &[b"o"], b"copy", &[b"o"], Cause::ReadOnly),
    // roots
    (Mkdir, b"main", &[], b"main", &[], Cause::Exists),
    (Unlink, b"main", &[], b"main", &[], Cause::IsDir),
    (Unlink, b"copy", &[], b"main", &[], Cause::IsDir),
    (Rmdir, b"main", &[], b"main", &[], Cause::Loop),
    (Rmdir, b"copy", &[], b"main", &[], Cause::ReadOnly),
    (Rename, b"main", &[], b"main", &[b"n"], Cause::Loop),
    (Rename, b"main", &[b"a"], b"main", &[], Cause::Exists),
    (Verb::Link, b"main", &[b"a"], b"main", &[], Cause::Exists),
    // below itself, kinds, and names
    (
        Rename,
        b"main",
        &[b"d"],
        b"main",
        &[b"d", b"n"],
        Cause::Loop,
    ),
    (Verb::Link, b"main", &[b"d"], b"main", &[b"n"], Cause::IsDir),
    (Unlink, b"main", &[b"d"], b"main", &[], Cause::IsDir),
    (Rmdir, b"main", &[b"a"], b"main", &[], Cause::NotDir),
    (Rmdir, b"main", &[b"d"], b"main", &[], Cause::NotEmpty),
    (
        Rename,
        b"main",
        &[b"a"],
        b"main",
        &[b"f", b"n"],
        Cause::NotDir,
    ),
    (Unlink, b"main", &[b"v"], b"main", &[], Cause::NotFound),
    (Rename, b"main", &[b"z"], b"main", &[b"n"], Cause::NotFound),
    (
        Rename,
        b"main",
        &[b"a"],
        b"main",
        &[b"n", b"n"],
        Cause::NotFound,
    ),
    // two subvolumes
    (Verb::Link, b"main", &[b"a"], b"copy", &[b"n"], Cause::Cross),
    (Rename, b"copy", &[b"o"], b"main", &[b"n"], Cause::Cross),
    // what is only looked at
    (Stat, b"main", &[b"v"], b"main", &[], Cause::NotFound),
    (Fsync, b"main", &[b"v"], b"main", &[], Cause::NotFound),
    (Fsync, b"main", &[b"a", b"n"], b"main", &[], Cause::NotDir),
];

// Whether an operation is refused so, without updates.
fn is_refused(alloc: Global, row: Refused) -> Result<bool, Fail> {
    let (verb, sub, names, other, others, cause) = row;
    let (from, to) = (
        At { sub, names },
        At {
            sub: other,
            names: others,
        },
    );
    let (none, reply) = (Updates::new(alloc), Reply::Refused(cause));
    let good = comes_to(alloc, verb, from, to, &none, &reply);
    drop(none);
    drop(reply);
    good
}

// The number of the first row that isn't so.
fn first_not_refused(alloc: Global) -> Result<Option<u32>, Fail> {
    let mut number: u32 = 0;
    for row in REFUSED.iter() {
        if !is_refused(alloc, *row)? {
            return Ok(Some(number));
        }
        number = number.saturating_add(1);
    }
    Ok(None)
}

#[test]
fn names_are_refused(rt: HostRuntime) -> Result<(), Fail> {
    assert!(rt; first_not_refused(rt.alloc())? == None);
    Ok(())
}

// Whether a plan has this reply, and is no commit.
fn answers(alloc: Global, verb: Verb, at: At, reply: &Reply) -> Result<bool, Fail> {
    let plan = planned(alloc, verb, at, at)?;
    let good = has_reply(&plan, reply);
    drop(plan);
    Ok(good)
}

/// A subvolume, names in it, and what stands there: its kind, its number, and how many links it has, or names.
type Told = (&'static [u8], &'static [&'static [u8]], FileKind, u64, u32);

static TOLD: [Told; 12] = [
    // nine names with a slot of their own, and two full slots
    (b"main", &[], Directory, ROOT, 25),
    (b"copy", &[], Directory, ROOT, 5),
    (b"main", &[b"d"], Directory, LETTERS, 4),
    (b"main", &[b"d", b"s"], Directory, ALONE, 1),
    (b"main", &[b"d", b"t"], Directory, FULL, 8),
    (b"main", &[b"d", b"t", TWIN], File, 11, 2),
    (b"main", &[b"h"], Directory, 14, 0),
    (b"copy", &[b"h"], Directory, 14, 1),
    (b"main", &[b"d", b"b"], File, 3, 2),
    (b"main", &[b"m"], File, 9, 255),
    (b"main", &[b"y"], File, 11, 2),
    (b"copy", &[b"v"], File, 10, 1),
];

fn told_of(kind: FileKind, number: u64, count: u32) -> Reply {
    match kind {
        File => Reply::File {
            number,
            size: 0,
            links: count,
        },
        Directory => Reply::Dir {
            number,
            entries: u64::from(count),
        },
    }
}

fn is_told(alloc: Global, row: Told) -> Result<bool, Fail> {
    let (sub, names, kind, number, count) = row;
    let reply = told_of(kind, number, count);
    let good = answers(alloc, Stat, At { sub, names }, &reply);
    drop(reply);
    good
}

// The number of the first row that isn't so.
fn first_not_told(alloc: Global) -> Result<Option<u32>, Fail> {
    let mut number: u32 = 0;
    for row in TOLD.iter() {
        if !is_told(alloc, *row)? {
            return Ok(Some(number));
        }
        number = number.saturating_add(1);
    }
    Ok(None)
}

#[test]
fn what_stands_at_a_path_is_told(rt: HostRuntime) -> Result<(), Fail> {
    assert!(rt; first_not_told(rt.alloc())? == None);
    Ok(())
}

// The names of the root of `copy`, rising.
static LISTED: [Flagged; 5] = [(b"d", 2), (b"h", 2), (b"o", 1), (b"v", 1), (b"w", 2)];

fn is_listed(alloc: Global) -> Result<bool, Fail> {
    let reply = flags_of(alloc, &LISTED)?;
    let at = At {
        sub: b"copy",
        names: &[],
    };
    let good = answers(alloc, Ls, at, &reply);
    drop(reply);
    good
}

#[test]
fn names_are_listed_as_they_rise(rt: HostRuntime) -> Result<(), Fail> {
    assert!(rt; is_listed(rt.alloc())?);
    Ok(())
}

// Whether a rename of names in `main` onto themselves is done without a commit.
fn stays(alloc: Global, names: &'static [&'static [u8]]) -> Result<bool, Fail> {
    answers(alloc, Rename, main_at(names), &Reply::Okay)
}

#[test]
fn a_rename_onto_itself_is_no_commit(rt: HostRuntime) -> Result<(), Fail> {
    let alloc = rt.alloc();
    assert!(rt; stays(alloc, &[])?);
    assert!(rt; stays(alloc, &[b"d"])?);
    assert!(rt; stays(alloc, &[b"d", b"b"])?);
    Ok(())
}

#[test]
fn an_fsync_of_what_stands_is_a_sync(rt: HostRuntime) -> Result<(), Fail> {
    let alloc = rt.alloc();
    assert!(rt; answers(alloc, Fsync, main_at(&[b"d", b"b"]), &Reply::Synced(0))?);
    assert!(rt; answers(alloc, Fsync, main_at(&[]), &Reply::Synced(0))?);
    Ok(())
}
