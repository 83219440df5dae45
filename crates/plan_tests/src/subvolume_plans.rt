//! Plans of the operations on subvolumes, as scripts over a volume that begins without any: the reply of each plan is compared, and its
//! updates are made before the next one. Some slots and some ids are filled by hand.

ghost use Rattle.std.specs.Prelude.{◌≡◌, All, IfOk, IfSome, true};
ghost use Rattle.fs_plan.specs.Plans.{IsBounded, is_planned};
ghost use Rattle.snap_tree.specs.Snaps.{IsSnapKey};

use crate::ids::key_of_snap;
use crate::plans::{Flagged, counter_pos, flags_of, path_of};
use forest_ops::{Cause, Op, Reply};
use fs_plan::{Plan, plan};
use key_view::{PlainKeys, PlainView};
use plain_forest::Path;
use snap_tree::SnapTree;
use std::alloc::{AllocError, Global};
use std::collections::BTreeMap;
use std::sync::Arc;
use std::test::Fail;
use vol_digest::slot;
use vol_types::{
    Btree, Bytes, Duplicate, Key, Keys, Pos, Snap, SnapState, Sub, SubList, Update, Updates, Value,
};

/// Where the counter of the ids stands, behind those of the clients.
const ID_COUNTER: u64 = 16;

/// Where a client's counter stands once it has used all its numbers.
const SPENT: u64 = 1 << 48;

/// Two names of one slot: half of the first eight bytes of the SHA-256 digest of each, as coreutils' sha256sum prints it, is
/// 0x0c52eb0023e4a389.
pub(crate) const TWIN: &[u8] = b"eblnjkdoidedckda";

pub(crate) const OTHER_TWIN: &[u8] = b"glnnmfdpllkpgcfg";

/// The operations that scripts have. `Locked` is a snapshot that may only be read.
#[derive(Clone, Copy, PartialEq, Eq)]
pub(crate) enum Verb {
    Subvol,
    Snap,
    Locked,
    Delsub,
    Subs,
    Mkdir,
    Mkfile,
    Unlink,
    Ls,
}

use Verb::{Delsub, Locked, Ls, Mkdir, Mkfile, Subs, Subvol, Unlink};

/// What an operation answers.
#[derive(Clone, Copy)]
enum Said {
    Okay,
    No(Cause),
    Names(&'static [Flagged]),
}

use Said::{Names, No, Okay};

/// An operation, a subvolume, names in it or that of its copy, and the answer.
type Line = (Verb, &'static [u8], &'static [&'static [u8]], Said);

/// With what a volume begins: the next number of client 0, the next id, and how many live leaves it has; and whether two slots are full,
/// that of `x`, without it, and that of `y`, with it.
#[derive(Clone, Copy)]
struct Begin {
    number: u64,
    id: u64,
    leaves: u32,
    is_full: bool,
}

const FRESH: Begin = Begin {
    number: 1,
    id: 100,
    leaves: 0,
    is_full: false,
};

// ---- a volume as the updates that made it

pub(crate) fn push(
    history: &mut Updates,
    btree: Btree,
    pos: Pos,
    value: Value,
) -> Result<(), AllocError> {
    history.push(Update {
        btree,
        level: 0,
        pos,
        value: Some(value),
    })?;
    Ok(())
}

/// Adds the record of an id, which has no children here.
pub(crate) fn push_snap(
    history: &mut Updates,
    id: u32,
    parent: u32,
    state: SnapState,
) -> Result<(), AllocError> {
    let pos = Pos {
        inode: 0,
        offset: u64::from(id),
        snapshot: 0,
    };
    push(
        history,
        Btree::Snapshots,
        pos,
        Value::Snap(Snap {
            parent,
            first_child: 0,
            second_child: 0,
            state,
        }),
    )
}

/// Adds where the counters of client 0 and of the ids stand.
pub(crate) fn push_counters(history: &mut Updates, number: u64, id: u64) -> Result<(), AllocError> {
    for (counter, next) in [(0, number), (ID_COUNTER, id)] {
        push(
            history,
            Btree::Counters,
            counter_pos(counter),
            Value::Counter { next },
        )?;
    }
    Ok(())
}

fn push_sub(alloc: Global, subs: &mut SubList, name: &[u8], id: u32) -> Result<(), AllocError> {
    let name = Bytes::from_slice(alloc, name)?;
    subs.push(Sub {
        id,
        root: 1,
        read_only: false,
        name,
    })?;
    Ok(())
}

/// Adds what stands under the slot of a name: subvolumes, each with its id.
pub(crate) fn push_subs(
    alloc: Global,
    history: &mut Updates,
    name: &[u8],
    rows: &[(&[u8], u32)],
) -> Result<(), AllocError> {
    let mut subs = SubList::new(alloc);
    for (name, id) in rows {
        push_sub(alloc, &mut subs, name, *id)?;
    }
    let pos = Pos {
        inode: 0,
        offset: slot(name),
        snapshot: 0,
    };
    push(history, Btree::Subvols, pos, Value::Subs(subs))
}

static X_SLOT: [(&[u8], u32); 8] = [
    (b"A", 1001),
    (b"B", 1002),
    (b"C", 1003),
    (b"D", 1004),
    (b"E", 1005),
    (b"F", 1006),
    (b"G", 1007),
    (b"H", 1008),
];

static Y_SLOT: [(&[u8], u32); 8] = [
    (b"I", 1009),
    (b"J", 1010),
    (b"K", 1011),
    (b"L", 1012),
    (b"M", 1013),
    (b"N", 1014),
    (b"O", 1015),
    (b"y", 1016),
];

fn push_begin(alloc: Global, history: &mut Updates, begin: Begin) -> Result<(), AllocError> {
    push_counters(history, begin.number, begin.id)?;
    for leaf in 0..begin.leaves {
        push_snap(history, leaf.saturating_add(1001), 0, SnapState::LiveLeaf)?;
    }
    if begin.is_full {
        push_subs(alloc, history, b"x", &X_SLOT)?;
        push_subs(alloc, history, b"y", &Y_SLOT)?;
    }
    Ok(())
}

// Gives a position the value of an update, or none.
fn put(
    alloc: Global,
    values: &mut BTreeMap<Pos, Value>,
    update: &Update,
) -> Result<(), AllocError> {
    match &update.value {
        Some(value) => {
            let value = value.copy(alloc)?;
            values.insert(update.pos, value)?;
        }
        None => {
            values.remove(&update.pos);
        }
    }
    Ok(())
}

fn make(alloc: Global, keys: &mut PlainKeys, update: &Update) -> Result<(), AllocError> {
    match update.btree {
        Btree::Inodes => put(alloc, &mut keys.inodes, update),
        Btree::Dirents => put(alloc, &mut keys.dirents, update),
        Btree::Subvols => put(alloc, &mut keys.subvols, update),
        Btree::Counters => put(alloc, &mut keys.counters, update),
        _ => Ok(()),
    }
}

fn make_all(alloc: Global, keys: &mut PlainKeys, history: &Updates) -> Result<(), AllocError> {
    for update in history.as_slice() {
        make(alloc, keys, update)?;
    }
    Ok(())
}

fn keys_after(alloc: Global, history: &Updates) -> Result<PlainKeys, AllocError> {
    let mut keys = PlainKeys::new(alloc);
    if let Err(error) = make_all(alloc, &mut keys, history) {
        drop(keys);
        return Err(error);
    }
    Ok(keys)
}

// The key of an id, where an update gives it a record.
fn snap_key_of(update: &Update) -> Option<Key>
    ensures { IfSome result IsSnapKey }
{
    let Ok(id) = u32::try_from(update.pos.offset) else {
        return None;
    };
    match &update.value {
        Some(Value::Snap(snap)) => Some(key_of_snap(id, *snap)),
        _ => None,
    }
}

// The keys of the ids that some updates give records.
fn snaps_among(alloc: Global, history: &Updates) -> Result<Keys, AllocError>
    ensures { IfOk result (All IsSnapKey) }
{
    let mut keys = Keys::new(alloc);
    for update in history.as_slice() {
        if let Some(key) = snap_key_of(update) {
            keys.push(key)?;
        }
    }
    Ok(keys)
}

fn tree_after(alloc: Global, history: &Updates) -> Result<Arc<SnapTree>, Fail> {
    let keys = snaps_among(alloc, history)?;
    let tree = SnapTree::of(alloc, &keys);
    drop(keys);
    Ok(Arc::new(alloc, tree?)?)
}

/// A view of the volume after some updates.
pub(crate) fn view_after(alloc: Global, history: &Updates) -> Result<PlainView, Fail> {
    let tree = tree_after(alloc, history)?;
    match keys_after(alloc, history) {
        Ok(keys) => Ok(PlainView::new(alloc, keys, tree)),
        Err(error) => {
            drop(tree);
            Err(Fail::from(error))
        }
    }
}

// ---- operations

fn op_at(verb: Verb, path: Path) -> Op
    ensures planned { is_planned result ≡ true }
    ensures bounded { IsBounded result }
{
    match verb {
        Mkdir => Op::Mkdir { path },
        Mkfile => Op::Mkfile { path },
        Unlink => Op::Unlink { path },
        _ => Op::Ls { path },
    }
}

fn op_on(verb: Verb, name: Bytes) -> Op
    ensures planned { is_planned result ≡ true }
    ensures bounded { IsBounded result }
{
    match verb {
        Subvol => Op::Subvol { name },
        Delsub => Op::Delsub { name },
        _ => {
            drop(name);
            Op::Subs
        }
    }
}

fn first_of(names: &[&'static [u8]]) -> &'static [u8] {
    match names.first() {
        Some(name) => name,
        None => b"",
    }
}

fn snap_of(
    alloc: Global,
    source: &[u8],
    names: &[&'static [u8]],
    locked: bool,
) -> Result<Op, AllocError>
    ensures planned { IfOk result (λ op. is_planned op ≡ true) }
    ensures bounded { IfOk result IsBounded }
{
    let source = Bytes::from_slice(alloc, source)?;
    let copy = Bytes::from_slice(alloc, first_of(names))?;
    Ok(Op::Snap {
        source,
        copy,
        locked,
    })
}

/// The operation on a subvolume, with names in it or that of its copy.
pub(crate) fn op_of(
    alloc: Global,
    verb: Verb,
    sub: &[u8],
    names: &[&'static [u8]],
) -> Result<Op, AllocError>
    ensures planned { IfOk result (λ op. is_planned op ≡ true) }
    ensures bounded { IfOk result IsBounded }
{
    match verb {
        Verb::Snap => snap_of(alloc, sub, names, false),
        Locked => snap_of(alloc, sub, names, true),
        Mkdir | Mkfile | Unlink | Ls => Ok(op_at(verb, path_of(alloc, sub, names)?)),
        _ => Ok(op_on(verb, Bytes::from_slice(alloc, sub)?)),
    }
}

// The plan of an operation of client 0 after some updates, if there is one.
fn planned(
    alloc: Global,
    history: &Updates,
    verb: Verb,
    sub: &[u8],
    names: &[&'static [u8]],
) -> Result<Option<Plan>, Fail> {
    let op = op_of(alloc, verb, sub, names)?;
    let mut view = match view_after(alloc, history) {
        Ok(view) => view,
        Err(fail) => {
            drop(op);
            return Err(fail);
        }
    };
    let plan = plan(alloc, &mut view, 0, op).ok();
    drop(view);
    Ok(plan)
}

fn reply_of(alloc: Global, verb: Verb, said: Said) -> Result<Reply, AllocError> {
    match said {
        Okay => Ok(Reply::Okay),
        No(cause) => Ok(Reply::Refused(cause)),
        Names(rows) => match flags_of(alloc, rows)? {
            Reply::List(list) if verb == Subs => Ok(Reply::SubNames(list)),
            reply => Ok(reply),
        },
    }
}

// Whether a plan has this reply, and updates where it is done and nowhere else; they are made.
fn takes(history: &mut Updates, plan: Option<Plan>, reply: &Reply) -> Result<bool, AllocError> {
    let Some(plan) = plan else {
        return Ok(false);
    };
    let good = plan.reply == *reply && plan.commits != plan.updates.is_empty();
    let Plan {
        op,
        updates,
        reply: answered,
        commits: _,
    } = plan;
    drop(op);
    drop(answered);
    let mut made = updates;
    history.append(&mut made)?;
    Ok(good)
}

fn says(alloc: Global, history: &mut Updates, line: Line) -> Result<bool, Fail> {
    let (verb, sub, names, said) = line;
    let reply = reply_of(alloc, verb, said)?;
    let plan = match planned(alloc, history, verb, sub, names) {
        Ok(plan) => plan,
        Err(fail) => {
            drop(reply);
            return Err(fail);
        }
    };
    let good = takes(history, plan, &reply);
    drop(reply);
    Ok(good?)
}

fn other_line_in(
    alloc: Global,
    history: &mut Updates,
    start: Begin,
    lines: &[Line],
) -> Result<Option<u32>, Fail> {
    push_begin(alloc, history, start)?;
    let mut number: u32 = 0;
    for line in lines {
        if !says(alloc, history, *line)? {
            return Ok(Some(number));
        }
        number = number.saturating_add(1);
    }
    Ok(None)
}

// The number of the first line of a script that answers otherwise.
fn other_line(alloc: Global, start: Begin, lines: &[Line]) -> Result<Option<u32>, Fail> {
    let mut history = Updates::new(alloc);
    let other = other_line_in(alloc, &mut history, start, lines);
    drop(history);
    other
}

// The numbers of the first script, and of its first line, that answers otherwise.
fn other_script(
    alloc: Global,
    scripts: &[(Begin, &'static [Line])],
) -> Result<Option<(u32, u32)>, Fail> {
    let mut number: u32 = 0;
    for (start, lines) in scripts {
        if let Some(line) = other_line(alloc, *start, lines)? {
            return Ok(Some((number, line)));
        }
        number = number.saturating_add(1);
    }
    Ok(None)
}

// ---- scripts

/// A volume without a number, an id, room for a subvolume and room in two slots.
const FULL: Begin = Begin {
    number: SPENT,
    id: 0,
    leaves: 4096,
    is_full: true,
};

const NUMBERLESS: Begin = Begin {
    number: SPENT,
    ..FRESH
};

const ONE_ID: Begin = Begin { id: 1, ..FRESH };

const TWO_IDS: Begin = Begin { id: 2, ..FRESH };

const THREE_IDS: Begin = Begin { id: 3, ..FRESH };

static MADE: [(Begin, &[Line]); 4] = [
    (
        FRESH,
        &[
            (Subs, b"", &[], Names(&[])),
            (Subvol, b"", &[], No(Cause::BadPath)),
            (Subvol, b"..", &[], No(Cause::BadPath)),
            (Subvol, b"a:b", &[], No(Cause::BadPath)),
            (Subvol, b"a/b", &[], No(Cause::BadPath)),
            (Subvol, b"main", &[], Okay),
            (Subvol, b"main", &[], No(Cause::Exists)),
            (Subvol, TWIN, &[], Okay),
            (Subvol, OTHER_TWIN, &[], Okay),
            (Mkfile, TWIN, &[b"a"], Okay),
            (Ls, OTHER_TWIN, &[], Names(&[])),
            (Ls, b"main", &[], Names(&[])),
            (Ls, TWIN, &[], Names(&[(b"a", 1)])),
            (
                Subs,
                b"",
                &[],
                Names(&[(TWIN, 0), (OTHER_TWIN, 0), (b"main", 0)]),
            ),
        ],
    ),
    // each of these has the refusals behind it too
    (
        FULL,
        &[
            (Subvol, b"y", &[], No(Cause::Exists)),
            (Subvol, b"x", &[], No(Cause::Crowded)),
            (Subvol, b"z", &[], No(Cause::TooMany)),
        ],
    ),
    (NUMBERLESS, &[(Subvol, b"main", &[], No(Cause::IdsSpent))]),
    (
        ONE_ID,
        &[
            (Subvol, b"main", &[], Okay),
            (Subvol, b"s", &[], No(Cause::IdsSpent)),
            (Subvol, b"main", &[], No(Cause::Exists)),
        ],
    ),
];

static COPIED: [(Begin, &[Line]); 5] = [
    (
        FRESH,
        &[
            (Subvol, b"main", &[], Okay),
            (Verb::Snap, b"a:b", &[b"s"], No(Cause::BadPath)),
            (Verb::Snap, b"no", &[b"a:b"], No(Cause::BadPath)),
            (Verb::Snap, b"no", &[b"main"], No(Cause::NoSubvolume)),
            (Verb::Snap, b"main", &[b"main"], No(Cause::Exists)),
            (Locked, b"main", &[b"r"], Okay),
            (Verb::Snap, b"main", &[b"r"], No(Cause::Exists)),
            (Verb::Snap, b"r", &[b"s"], Okay),
            (Locked, b"r", &[b"q"], Okay),
            (
                Subs,
                b"",
                &[],
                Names(&[(b"main", 0), (b"q", 1), (b"r", 1), (b"s", 0)]),
            ),
            (Mkfile, b"r", &[b"n"], No(Cause::ReadOnly)),
            (Mkfile, b"q", &[b"n"], No(Cause::ReadOnly)),
            (Mkfile, b"s", &[b"n"], Okay),
            (Ls, b"r", &[], Names(&[])),
            (Ls, b"s", &[], Names(&[(b"n", 1)])),
        ],
    ),
    // under one slot
    (
        FRESH,
        &[
            (Subvol, TWIN, &[], Okay),
            (Mkfile, TWIN, &[b"a"], Okay),
            (Locked, TWIN, &[OTHER_TWIN], Okay),
            (Unlink, TWIN, &[b"a"], Okay),
            (Ls, TWIN, &[], Names(&[])),
            (Ls, OTHER_TWIN, &[], Names(&[(b"a", 1)])),
            (Unlink, OTHER_TWIN, &[b"a"], No(Cause::ReadOnly)),
            (Subs, b"", &[], Names(&[(TWIN, 0), (OTHER_TWIN, 1)])),
            (Delsub, TWIN, &[], Okay),
            (Subs, b"", &[], Names(&[(OTHER_TWIN, 1)])),
            (Ls, OTHER_TWIN, &[], Names(&[(b"a", 1)])),
            (Ls, TWIN, &[], No(Cause::NoSubvolume)),
        ],
    ),
    // each of these has the refusals behind it too
    (
        FULL,
        &[
            (Verb::Snap, b"y", &[b"y"], No(Cause::Exists)),
            (Verb::Snap, b"y", &[b"x"], No(Cause::Crowded)),
            (Verb::Snap, b"y", &[b"z"], No(Cause::TooMany)),
        ],
    ),
    (
        TWO_IDS,
        &[
            (Subvol, b"main", &[], Okay),
            (Verb::Snap, b"main", &[b"s"], No(Cause::IdsSpent)),
            (Subvol, b"t", &[], Okay),
        ],
    ),
    (
        THREE_IDS,
        &[
            (Subvol, b"main", &[], Okay),
            (Verb::Snap, b"main", &[b"s"], Okay),
            (Verb::Snap, b"main", &[b"t"], No(Cause::IdsSpent)),
            (Subvol, b"t", &[], No(Cause::IdsSpent)),
        ],
    ),
];

static REMOVED: [(Begin, &[Line]); 1] = [(
    FRESH,
    &[
        (Delsub, b"a:b", &[], No(Cause::BadPath)),
        (Delsub, b"main", &[], No(Cause::NoSubvolume)),
        (Subvol, b"main", &[], Okay),
        (Mkfile, b"main", &[b"a"], Okay),
        (Locked, b"main", &[b"r"], Okay),
        (Delsub, b"main", &[], Okay),
        (Delsub, b"main", &[], No(Cause::NoSubvolume)),
        // into one that is gone, and a copy of it
        (Ls, b"main", &[], No(Cause::NoSubvolume)),
        (Mkfile, b"main", &[b"b"], No(Cause::NoSubvolume)),
        (Verb::Snap, b"main", &[b"s"], No(Cause::NoSubvolume)),
        (Ls, b"r", &[], Names(&[(b"a", 1)])),
        (Subs, b"", &[], Names(&[(b"r", 1)])),
        // the last one
        (Delsub, b"r", &[], Okay),
        (Subs, b"", &[], Names(&[])),
        (Ls, b"r", &[], No(Cause::NoSubvolume)),
        (Subvol, b"main", &[], Okay),
        (Ls, b"main", &[], Names(&[])),
    ],
)];

/// A tree with two copies, one of which may only be read: what changes in one of them shows in no other.
static APART: [(Begin, &[Line]); 1] = [(
    FRESH,
    &[
        (Subvol, b"main", &[], Okay),
        (Mkfile, b"main", &[b"a"], Okay),
        (Mkfile, b"main", &[b"b"], Okay),
        (Mkdir, b"main", &[b"d"], Okay),
        (Mkfile, b"main", &[b"d", b"e"], Okay),
        (Locked, b"main", &[b"r"], Okay),
        (Verb::Snap, b"main", &[b"s"], Okay),
        // names that are hidden in one alone
        (Unlink, b"main", &[b"a"], Okay),
        (Unlink, b"s", &[b"b"], Okay),
        (Unlink, b"r", &[b"a"], No(Cause::ReadOnly)),
        (Ls, b"main", &[], Names(&[(b"b", 1), (b"d", 2)])),
        (Ls, b"s", &[], Names(&[(b"a", 1), (b"d", 2)])),
        (Ls, b"r", &[], Names(&[(b"a", 1), (b"b", 1), (b"d", 2)])),
        // names that are made in one alone
        (Mkfile, b"main", &[b"n"], Okay),
        (Mkfile, b"s", &[b"m"], Okay),
        (Mkfile, b"main", &[b"a"], Okay),
        (
            Ls,
            b"main",
            &[],
            Names(&[(b"a", 1), (b"b", 1), (b"d", 2), (b"n", 1)]),
        ),
        (Ls, b"s", &[], Names(&[(b"a", 1), (b"d", 2), (b"m", 1)])),
        (Ls, b"r", &[], Names(&[(b"a", 1), (b"b", 1), (b"d", 2)])),
        // in a directory of both
        (Unlink, b"s", &[b"d", b"e"], Okay),
        (Ls, b"s", &[b"d"], Names(&[])),
        (Ls, b"main", &[b"d"], Names(&[(b"e", 1)])),
        (Ls, b"r", &[b"d"], Names(&[(b"e", 1)])),
        // a copy of a copy
        (Verb::Snap, b"s", &[b"t"], Okay),
        (Unlink, b"t", &[b"m"], Okay),
        (Ls, b"t", &[], Names(&[(b"a", 1), (b"d", 2)])),
        (Ls, b"t", &[b"d"], Names(&[])),
        (Ls, b"s", &[], Names(&[(b"a", 1), (b"d", 2), (b"m", 1)])),
        // what is made where another has gone stays its own
        (Delsub, b"main", &[], Okay),
        (Ls, b"r", &[], Names(&[(b"a", 1), (b"b", 1), (b"d", 2)])),
    ],
)];

#[test]
fn subvolumes_are_made(rt: HostRuntime) -> Result<(), Fail> {
    assert!(rt; other_script(rt.alloc(), &MADE)? == None);
    Ok(())
}

#[test]
fn snapshots_are_made(rt: HostRuntime) -> Result<(), Fail> {
    assert!(rt; other_script(rt.alloc(), &COPIED)? == None);
    Ok(())
}

#[test]
fn subvolumes_are_removed(rt: HostRuntime) -> Result<(), Fail> {
    assert!(rt; other_script(rt.alloc(), &REMOVED)? == None);
    Ok(())
}

#[test]
fn copies_go_their_own_way(rt: HostRuntime) -> Result<(), Fail> {
    assert!(rt; other_script(rt.alloc(), &APART)? == None);
    Ok(())
}
