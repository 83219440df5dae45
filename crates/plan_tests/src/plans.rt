//! Plans over a volume of three ids: 20 is the id of the subvolume `main`, and 10 that of `copy`, which may only be read; both
//! are under 30.

ghost use Rattle.std.specs.Prelude.{◌≡◌, ◌<◌, true};
ghost use Rattle.fs_plan.specs.Plans.{IsBounded, is_planned};

use crate::ids::shared_tree;
use forest_ops::{Cause, Op, Reply};
use fs_plan::{Plan, plan};
use key_view::{PlainKeys, PlainView, View};
use plain_forest::Path;
use std::alloc::{AllocError, Global};
use std::test::Fail;
use vol_digest::slot;
use vol_types::{
    Btree, Bytes, FileKind, FlagList, FlaggedName, Inode, Link, LinkList, NameList, Pos, Sub,
    SubList, Update, Updates, Value,
};

/// Ids, each with its parent.
pub(crate) static IDS: [(u32, u32); 3] = [(10, 30), (20, 30), (30, 0)];

/// The next number of client 0, and that of client 1, which has used all of its own.
const NEXT: u64 = 4;

const SPENT: u64 = 1 << 48;

/// The number of the root of both subvolumes.
const ROOT: u64 = 1;

/// A directory of the root in all ids, and a file in it in `main` alone.
const DIRECTORY: u64 = 2;

const FILE: u64 = 3;

fn sub_of(alloc: Global, name: &[u8], id: u32) -> Result<Value, AllocError> {
    let mut subs = SubList::new(alloc);
    let name = Bytes::from_slice(alloc, name)?;
    subs.push(Sub {
        id,
        root: ROOT,
        read_only: id == 10,
        name,
    })?;
    Ok(Value::Subs(subs))
}

pub(crate) fn put_sub(
    alloc: Global,
    keys: &mut PlainKeys,
    name: &[u8],
    id: u32,
) -> Result<(), AllocError> {
    let value = sub_of(alloc, name, id)?;
    let pos = Pos {
        inode: 0,
        offset: slot(name),
        snapshot: 0,
    };
    keys.subvols.insert(pos, value)?;
    Ok(())
}

pub(crate) fn counter_pos(client: u64) -> Pos {
    Pos {
        inode: 0,
        offset: client,
        snapshot: 0,
    }
}

pub(crate) fn inode_pos(id: u32, number: u64) -> Pos {
    Pos {
        inode: 0,
        offset: number,
        snapshot: id,
    }
}

pub(crate) fn name_pos(id: u32, directory: u64, name: &[u8]) -> Pos {
    Pos {
        inode: directory,
        offset: slot(name),
        snapshot: id,
    }
}

fn inode_of(kind: FileKind) -> Value {
    Value::Inode(Inode {
        kind,
        links: 1,
        size: 0,
    })
}

fn name_of(alloc: Global, name: &[u8], number: u64, kind: FileKind) -> Result<Value, AllocError> {
    let mut links = LinkList::new(alloc);
    let name = Bytes::from_slice(alloc, name)?;
    links.push(Link { number, kind, name })?;
    Ok(Value::Names(links))
}

/// Ids with inodes.
static INODES: [(u32, u64, FileKind); 3] = [
    (30, ROOT, FileKind::Directory),
    (30, DIRECTORY, FileKind::Directory),
    (20, FILE, FileKind::File),
];

fn put_inodes(keys: &mut PlainKeys) -> Result<(), AllocError> {
    for (id, number, kind) in INODES.iter() {
        keys.inodes
            .insert(inode_pos(*id, *number), inode_of(*kind))?;
    }
    Ok(())
}

/// Ids with directories, each with a name in it and the number that it leads to.
type Name = (u32, u64, &'static [u8], u64, FileKind);

static NAMES: [Name; 3] = [
    (30, ROOT, b"d", DIRECTORY, FileKind::Directory),
    (20, ROOT, b"a", FILE, FileKind::File),
    (20, DIRECTORY, b"b", FILE, FileKind::File),
];

fn put_name(alloc: Global, keys: &mut PlainKeys, row: Name) -> Result<(), AllocError> {
    let (id, directory, name, number, kind) = row;
    let value = name_of(alloc, name, number, kind)?;
    keys.dirents.insert(name_pos(id, directory, name), value)?;
    Ok(())
}

fn put_names(alloc: Global, keys: &mut PlainKeys) -> Result<(), AllocError> {
    for row in NAMES.iter() {
        put_name(alloc, keys, *row)?;
    }
    Ok(())
}

fn put_counters(keys: &mut PlainKeys) -> Result<(), AllocError> {
    for (client, next) in [(0, NEXT), (1, SPENT)] {
        keys.counters
            .insert(counter_pos(client), Value::Counter { next })?;
    }
    Ok(())
}

fn put_all(alloc: Global, keys: &mut PlainKeys) -> Result<(), AllocError> {
    put_sub(alloc, keys, b"main", 20)?;
    put_sub(alloc, keys, b"copy", 10)?;
    put_inodes(keys)?;
    put_names(alloc, keys)?;
    put_counters(keys)
}

fn keys_of(alloc: Global) -> Result<PlainKeys, AllocError> {
    let mut keys = PlainKeys::new(alloc);
    if let Err(error) = put_all(alloc, &mut keys) {
        drop(keys);
        return Err(error);
    }
    Ok(keys)
}

fn view_of(alloc: Global) -> Result<PlainView, Fail> {
    let tree = shared_tree(alloc, &IDS)?;
    match keys_of(alloc) {
        Ok(keys) => Ok(PlainView::new(alloc, keys, tree)),
        Err(error) => {
            drop(tree);
            Err(Fail::from(error))
        }
    }
}

// The plan of an operation of a client, if there is one.
fn planned(alloc: Global, client: u8, op: Op) -> Result<Option<Plan>, Fail>
    requires client { client < 16 }
    requires planned { is_planned op ≡ true }
    requires bounded { IsBounded op }
{
    let mut view = match view_of(alloc) {
        Ok(view) => view,
        Err(fail) => {
            drop(op);
            return Err(fail);
        }
    };
    let plan = plan(alloc, &mut view, client, op).ok();
    drop(view);
    Ok(plan)
}

fn push_name(alloc: Global, list: &mut NameList, name: &[u8]) -> Result<(), AllocError> {
    list.push(Bytes::from_slice(alloc, name)?)?;
    Ok(())
}

fn names_of(alloc: Global, names: &[&'static [u8]]) -> Result<NameList, AllocError> {
    let mut list = NameList::new(alloc);
    for name in names {
        push_name(alloc, &mut list, name)?;
    }
    Ok(list)
}

pub(crate) fn path_of(
    alloc: Global,
    sub: &[u8],
    names: &[&'static [u8]],
) -> Result<Path, AllocError> {
    let names = names_of(alloc, names)?;
    let sub = Bytes::from_slice(alloc, sub)?;
    Ok(Path { sub, names })
}

/// A name with its flag.
pub(crate) type Flagged = (&'static [u8], u8);

fn push_flag(alloc: Global, list: &mut FlagList, name: &[u8], flag: u8) -> Result<(), AllocError> {
    let name = Bytes::from_slice(alloc, name)?;
    list.push(FlaggedName { name, flag })?;
    Ok(())
}

pub(crate) fn flags_of(alloc: Global, rows: &[Flagged]) -> Result<Reply, AllocError> {
    let mut list = FlagList::new(alloc);
    for (name, flag) in rows {
        push_flag(alloc, &mut list, name, *flag)?;
    }
    Ok(Reply::List(list))
}

// Whether there is a plan of this reply that is no commit.
pub(crate) fn has_reply(plan: &Option<Plan>, reply: &Reply) -> bool {
    match plan {
        Some(plan) => !plan.commits && plan.reply == *reply,
        None => false,
    }
}

// Whether a listing answers this.
fn is_listed(
    alloc: Global,
    sub: &[u8],
    names: &[&'static [u8]],
    reply: &Reply,
) -> Result<bool, Fail> {
    let path = path_of(alloc, sub, names)?;
    let plan = planned(alloc, 0, Op::Ls { path })?;
    let good = has_reply(&plan, reply);
    drop(plan);
    Ok(good)
}

/// A subvolume, names in it, and what is listed there.
type Listed = (&'static [u8], &'static [&'static [u8]], &'static [Flagged]);

static LISTED: [Listed; 4] = [
    (b"main", &[], &[(b"a", 1), (b"d", 2)]),
    (b"copy", &[], &[(b"d", 2)]),
    (b"main", &[b"d"], &[(b"b", 1)]),
    (b"copy", &[b"d"], &[]),
];

fn lists(alloc: Global, row: Listed) -> Result<bool, Fail> {
    let (sub, names, flags) = row;
    let reply = flags_of(alloc, flags)?;
    let good = is_listed(alloc, sub, names, &reply);
    drop(reply);
    good
}

// The number of the first row that isn't so.
fn first_not_listed(alloc: Global) -> Result<Option<u32>, Fail> {
    let mut number: u32 = 0;
    for row in LISTED.iter() {
        if !lists(alloc, *row)? {
            return Ok(Some(number));
        }
        number = number.saturating_add(1);
    }
    Ok(None)
}

#[test]
fn directories_are_listed(rt: HostRuntime) -> Result<(), Fail> {
    assert!(rt; first_not_listed(rt.alloc())? == None);
    Ok(())
}

/// A client, a subvolume, names in it, and why a listing or a new file is refused there.
type Refused = (u8, &'static [u8], &'static [&'static [u8]], Cause);

static NOT_LISTED: [Refused; 6] = [
    (0, b"ma:in", &[], Cause::BadPath),
    (0, b"other", &[], Cause::NoSubvolume),
    (0, b"main", &[b"c"], Cause::NotFound),
    (0, b"copy", &[b"a"], Cause::NotFound),
    (0, b"main", &[b"a"], Cause::NotDir),
    (0, b"main", &[b"a", b"c"], Cause::NotDir),
];

fn is_not_listed(alloc: Global, row: Refused) -> Result<bool, Fail> {
    let (_, sub, names, cause) = row;
    let reply = Reply::Refused(cause);
    let good = is_listed(alloc, sub, names, &reply);
    drop(reply);
    good
}

// The number of the first row that isn't so.
fn first_listed(alloc: Global) -> Result<Option<u32>, Fail> {
    let mut number: u32 = 0;
    for row in NOT_LISTED.iter() {
        if !is_not_listed(alloc, *row)? {
            return Ok(Some(number));
        }
        number = number.saturating_add(1);
    }
    Ok(None)
}

#[test]
fn listings_are_refused(rt: HostRuntime) -> Result<(), Fail> {
    assert!(rt; first_listed(rt.alloc())? == None);
    Ok(())
}

// Whether there is a plan of these updates and this reply, which is a commit where it is done.
pub(crate) fn is_plan(plan: &Option<Plan>, updates: &Updates, reply: &Reply) -> bool {
    let done = matches!(reply, Reply::Okay);
    match plan {
        Some(plan) => { plan.commits == done && plan.updates == *updates && plan.reply == *reply }
        None => false,
    }
}

// Whether making a file comes to this.
fn comes_to(
    alloc: Global,
    client: u8,
    sub: &[u8],
    names: &[&'static [u8]],
    updates: &Updates,
    reply: &Reply,
) -> Result<bool, Fail> {
    let path = path_of(alloc, sub, names)?;
    let plan = planned(alloc, client % 16, Op::Mkfile { path })?;
    let good = is_plan(&plan, updates, reply);
    drop(plan);
    Ok(good)
}

fn push(updates: &mut Updates, btree: Btree, pos: Pos, value: Value) -> Result<(), AllocError> {
    updates.push(Update {
        btree,
        level: 0,
        pos,
        value: Some(value),
    })?;
    Ok(())
}

// Adds the updates that make the file `c` in the directory.
fn push_file(alloc: Global, updates: &mut Updates) -> Result<(), AllocError> {
    let next = Value::Counter { next: NEXT + 1 };
    push(updates, Btree::Counters, counter_pos(0), next)?;
    let inode = inode_of(FileKind::File);
    push(updates, Btree::Inodes, inode_pos(20, NEXT), inode)?;
    let name = name_of(alloc, b"c", NEXT, FileKind::File)?;
    push(updates, Btree::Dirents, name_pos(20, DIRECTORY, b"c"), name)
}

fn is_file_made(alloc: Global) -> Result<bool, Fail> {
    let mut updates = Updates::new(alloc);
    let good = makes_file(alloc, &mut updates);
    drop(updates);
    good
}

fn makes_file(alloc: Global, updates: &mut Updates) -> Result<bool, Fail> {
    push_file(alloc, updates)?;
    comes_to(alloc, 0, b"main", &[b"d", b"c"], updates, &Reply::Okay)
}

#[test]
fn files_are_made(rt: HostRuntime) -> Result<(), Fail> {
    assert!(rt; is_file_made(rt.alloc())?);
    Ok(())
}

static NOT_MADE: [Refused; 7] = [
    (0, b"other", &[b"c"], Cause::NoSubvolume),
    (0, b"main", &[b"a", b"c"], Cause::NotDir),
    (0, b"main", &[b"e", b"c"], Cause::NotFound),
    (0, b"copy", &[b"c"], Cause::ReadOnly),
    (0, b"main", &[], Cause::Exists),
    (1, b"main", &[b"d"], Cause::Exists),
    (1, b"main", &[b"c"], Cause::IdsSpent),
];

// Whether making a file is refused so, without updates.
fn is_refused(alloc: Global, row: Refused) -> Result<bool, Fail> {
    let (client, sub, names, cause) = row;
    let (none, reply) = (Updates::new(alloc), Reply::Refused(cause));
    let good = comes_to(alloc, client, sub, names, &none, &reply);
    drop(none);
    drop(reply);
    good
}

// The number of the first row that isn't so.
fn first_made(alloc: Global) -> Result<Option<u32>, Fail> {
    let mut number: u32 = 0;
    for row in NOT_MADE.iter() {
        if !is_refused(alloc, *row)? {
            return Ok(Some(number));
        }
        number = number.saturating_add(1);
    }
    Ok(None)
}

#[test]
fn files_are_refused(rt: HostRuntime) -> Result<(), Fail> {
    assert!(rt; first_made(rt.alloc())? == None);
    Ok(())
}

fn is_sync(plan: &Option<Plan>) -> bool {
    match plan {
        Some(plan) => {
            !plan.commits && plan.updates.is_empty() && matches!(&plan.reply, Reply::Synced(0))
        }
        None => false,
    }
}

// Whether a sync answers 0, and changes and looks at nothing.
fn syncs(alloc: Global, view: &mut PlainView) -> bool {
    let plan = plan(alloc, view, 3, Op::Sync).ok();
    let good = is_sync(&plan) && view.looks().is_empty();
    drop(plan);
    good
}

#[test]
fn syncs_look_at_nothing(rt: HostRuntime) -> Result<(), Fail> {
    let alloc = rt.alloc();
    let mut view = view_of(alloc)?;
    let good = syncs(alloc, &mut view);
    drop(view);
    assert!(rt; good);
    Ok(())
}
