//! Forests at their limits, by scripts: files at their most names, a forest at its most subvolumes, clients and snapshot ids that are
//! spent, a hundred thousand operations, and a forest beside its copy.

use crate::examples::{Session, is_answered_in, is_done};
use forest_ops::{Class, Entry, Forest, Op, Reply, Subvolume, Trace};
use std::alloc::{AllocError, Global};
use vol_digest::slot;
use vol_types::{Bytes, Duplicate};

// Behind the last number that a client may draw.
const LAST: u64 = 281_474_976_710_656;

// With what a forest begins.
#[derive(Clone, Copy)]
enum Start {
    // As `Forest::fresh` has it.
    Fresh,
    // The same, but clients 3 and 9 have no numbers left, and there are so many snapshot ids.
    Spent(u64),
}

// What is done many times by client 0.
#[derive(Clone, Copy)]
enum Many {
    Nothing,
    Links,
    Subvolumes,
    Rounds(u32),
}

// A forest, a script whose lines are not looked at, what is done many times after it and how often that is done, a script with its
// replies, and the next numbers of clients 0 and 1 then.
struct Row {
    start: Start,
    before: &'static str,
    many: Many,
    count: u32,
    script: &'static str,
    replies: &'static str,
    next: [u64; 2],
}

static ROWS: [Row; 10] = [
    // Files are made, or refused.
    Row {
        start: Start::Fresh,
        before: "",
        many: Many::Nothing,
        count: 0,
        script: "\
mkfile main:/
mkfile main:/a
mkfile main:/a
mkfile main:/a/a
mkfile main:/a/a/a
mkfile main:/b/a
mkfile main:/a/
mkfile main:/.
mkfile main:/../a
mkfile main:/a%2Fb
mkfile main:/a%00
mkfile main:/...
mkfile main:/a:
mkfile main:/nnnnnnnnnnnnnnnnnnnnnnnnnnnnnnnnnnnnnnnnnnnnnnnnnnnnnnnnnnnnnnnnnnnnnnnnnnnnnnnnnnnnnnnnnnnnnnnnnnnnnnnnnnnnnnnnnnnnnnnnnnnnnnnnnnnnnnnnnnnnnnnnnnnnnnnnnnnnnnnnnnnnnnnnnnnnnnnnnnnnnnnnnnnnnnnnnnnnnnnnnnnnnnnnnnnnnnnnnnnnnnnnnnnnnnnnnnnnnnnnnnnnnnnnnnnnnnn
mkfile main:/nnnnnnnnnnnnnnnnnnnnnnnnnnnnnnnnnnnnnnnnnnnnnnnnnnnnnnnnnnnnnnnnnnnnnnnnnnnnnnnnnnnnnnnnnnnnnnnnnnnnnnnnnnnnnnnnnnnnnnnnnnnnnnnnnnnnnnnnnnnnnnnnnnnnnnnnnnnnnnnnnnnnnnnnnnnnnnnnnnnnnnnnnnnnnnnnnnnnnnnnnnnnnnnnnnnnnnnnnnnnnnnnnnnnnnnnnnnnnnnnnnnnnnnnnnnnnnnn
mkfile main:/a/a/a/a/a/a/a/a/a/a/a/a/a/a/a/a/a/a/a/a/a/a/a/a/a/a/a/a/a/a/a/a
mkfile main:/a/a/a/a/a/a/a/a/a/a/a/a/a/a/a/a/a/a/a/a/a/a/a/a/a/a/a/a/a/a/a/a/a
mkfile other:/a
mkfile :/a
mkfile a%3Ab:/a
mkfile ..:/a
sync
",
        replies: "\
@0 1 err exists
@0 2 ok
@0 3 err exists
@0 4 err not-dir
@0 5 err not-dir
@0 6 err not-found
@0 7 err bad-path
@0 8 err bad-path
@0 9 err bad-path
@0 10 err bad-path
@0 11 err bad-path
@0 12 ok
@0 13 ok
@0 14 ok
@0 15 err bad-path
@0 16 err not-dir
@0 17 err bad-path
@0 18 err no-subvolume
@0 19 err bad-path
@0 20 err bad-path
@0 21 err bad-path
@0 22 ok 4
",
        next: [6, 281_474_976_710_657],
    },
    // Names rise by their bytes. Bytes above 127 come after all others, and a name after each name that begins it.
    Row {
        start: Start::Fresh,
        before: "",
        many: Many::Nothing,
        count: 0,
        script: "\
ls main:/
@15 mkfile main:/b
@15 mkfile main:/%FF
@15 mkfile main:/ab
@15 mkfile main:/%80
@15 mkfile main:/a
@15 mkfile main:/%7F
@15 mkfile main:/B
ls main:/
ls main:/a
ls main:/c
ls main://
ls Main:/
sync
",
        replies: "\
@0 1 list
@15 2 ok
@15 3 ok
@15 4 ok
@15 5 ok
@15 6 ok
@15 7 ok
@15 8 ok
@0 9 list B a ab b %7F %80 %FF
@0 10 err not-dir
@0 11 err not-found
@0 12 err bad-path
@0 13 err no-subvolume
@0 14 ok 7
",
        next: [2, 281_474_976_710_657],
    },
    // Numbers are drawn for each client.
    Row {
        start: Start::Fresh,
        before: "",
        many: Many::Nothing,
        count: 0,
        script: "\
@1 sync
@1 mkfile main:/a
mkfile main:/a
stat main:/a
@1 mkdir main:/b
stat main:/b
sync
",
        replies: "\
@1 1 ok 0
@1 2 ok
@0 3 err exists
@0 4 file 281474976710657 0 1
@1 5 ok
@0 6 dir 281474976710658 0
@0 7 ok 2
",
        next: [2, 281_474_976_710_659],
    },
    // A file has 255 names.
    Row {
        start: Start::Fresh,
        before: "\
mkfile main:/f
",
        many: Many::Links,
        count: 254,
        script: "\
stat main:/f
sync
",
        replies: "\
@0 1 file 2 0 255
@0 2 ok 255
",
        next: [3, 281_474_976_710_657],
    },
    // Names come back.
    Row {
        start: Start::Fresh,
        before: "\
mkfile main:/f
",
        many: Many::Links,
        count: 254,
        script: "\
link main:/f main:/zz
link main:/f main:/aa
unlink main:/aa
link main:/f main:/zz
sync
",
        replies: "\
@0 1 err links-full
@0 2 err exists
@0 3 ok
@0 4 ok
@0 5 ok 257
",
        next: [3, 281_474_976_710_657],
    },
    // There are 4,096 subvolumes. `too-many` goes behind a name that is there, and before numbers and snapshot ids that are spent. One id is
    // left behind 4,095 subvolumes.
    Row {
        start: Start::Spent(4096),
        before: "",
        many: Many::Subvolumes,
        count: 4095,
        script: "\
@3 subvol aaa
@3 snap main aaa ro
@3 subvol new
snap main new ro
@3 delsub aaa
@3 subvol new
sync
",
        replies: "\
@3 1 err exists
@3 2 err exists
@3 3 err too-many
@0 4 err too-many
@3 5 ok
@3 6 err ids-spent
@0 7 ok 4096
",
        next: [4097, 281_474_976_710_657],
    },
    // Numbers are spent: `exists` goes before it, and a name that is there still moves.
    Row {
        start: Start::Spent(1),
        before: "\
mkdir main:/d
mkfile main:/f
",
        many: Many::Nothing,
        count: 0,
        script: "\
@9 mkdir main:/f
@9 mkdir main:/e
@9 mkfile main:/d/e
@9 subvol main
@9 subvol s
@9 rename main:/f main:/g
sync
",
        replies: "\
@9 1 err exists
@9 2 err ids-spent
@9 3 err ids-spent
@9 4 err exists
@9 5 err ids-spent
@9 6 ok
@0 7 ok 3
",
        next: [4, 281_474_976_710_657],
    },
    // One snapshot id is enough for a subvolume and not for a snapshot.
    Row {
        start: Start::Spent(1),
        before: "\
mkdir main:/d
mkfile main:/f
",
        many: Many::Nothing,
        count: 0,
        script: "\
@9 snap main s ro
@1 snap main s ro
@1 subvol s
@1 subvol t
sync
",
        replies: "\
@9 1 err ids-spent
@1 2 err ids-spent
@1 3 ok
@1 4 err ids-spent
@0 5 ok 3
",
        next: [4, 281_474_976_710_658],
    },
    // What is read behind the end is empty.
    Row {
        start: Start::Fresh,
        before: "\
mkfile main:/f
",
        many: Many::Nothing,
        count: 0,
        script: "\
read main:/f 18446744073709551615 65536
",
        replies: "\
@0 1 data
",
        next: [3, 281_474_976_710_657],
    },
    // A hundred thousand operations.
    Row {
        start: Start::Fresh,
        before: "",
        many: Many::Rounds(33_334),
        count: 33_334,
        script: "\
stat main:/f
sync
",
        replies: "\
@0 1 err not-found
@0 2 ok 100002
",
        next: [33_336, 281_474_976_710_657],
    },
];

// Two letters from `a` to `p`.
fn letters(number: u8) -> [u8; 2] {
    [
        b'a'.saturating_add(number / 16),
        b'a'.saturating_add(number % 16),
    ]
}

// How many further names `f` gets before one is refused.
fn links_made(session: &mut Session, alloc: Global) -> u32 {
    let mut line = *b"link main:/f main:/aa";
    for number in 0..=255_u8 {
        let [first, second] = letters(number);
        line[19] = first;
        line[20] = second;
        if !is_done(session, alloc, &line) {
            return u32::from(number);
        }
    }
    256
}

// How many subvolumes of 256 with this first letter are made before one is refused.
fn row_made(session: &mut Session, alloc: Global, letter: u8) -> u32 {
    let mut line = *b"subvol aaa";
    line[7] = letter;
    for number in 0..=255_u8 {
        let [first, second] = letters(number);
        line[8] = first;
        line[9] = second;
        if !is_done(session, alloc, &line) {
            return u32::from(number);
        }
    }
    256
}

// How many subvolumes are made in 17 rows of 256.
fn subvolumes_made(session: &mut Session, alloc: Global) -> u32 {
    let mut count: u32 = 0;
    for letter in b'a'..=b'q' {
        count = count.saturating_add(row_made(session, alloc, letter));
    }
    count
}

// Makes a file, writes it and takes it away, so many times; how often each was done.
fn rounds(session: &mut Session, alloc: Global, count: u32) -> u32 {
    let mut good: u32 = 0;
    for _ in 0..count {
        if is_done(session, alloc, b"mkfile main:/f")
            && is_done(session, alloc, b"write main:/f 3 6279746573")
            && is_done(session, alloc, b"unlink main:/f")
        {
            good = good.saturating_add(1);
        }
    }
    good
}

fn made(session: &mut Session, alloc: Global, many: Many) -> u32 {
    match many {
        Many::Nothing => 0,
        Many::Links => links_made(session, alloc),
        Many::Subvolumes => subvolumes_made(session, alloc),
        Many::Rounds(count) => rounds(session, alloc, count),
    }
}

fn put_main(forest: &mut Forest, alloc: Global) -> Result<(), AllocError> {
    let tree = Subvolume::empty(alloc, 1)?;
    match Bytes::from_slice(alloc, b"main") {
        Ok(name) => {
            let put = forest.insert_subvolume(&name, slot(b"main"), tree);
            drop(name);
            put
        }
        Err(failed) => {
            drop(tree);
            Err(failed)
        }
    }
}

fn begun(alloc: Global, start: Start) -> Result<Forest, AllocError> {
    match start {
        Start::Fresh => Forest::fresh(alloc),
        Start::Spent(ids_left) => {
            let next = [2, 1, 1, LAST, 1, 1, 1, 1, 1, LAST, 1, 1, 1, 1, 1, 1];
            let mut forest = Forest::bare(alloc, next, ids_left);
            match put_main(&mut forest, alloc) {
                Ok(()) => Ok(forest),
                Err(failed) => {
                    drop(forest);
                    Err(failed)
                }
            }
        }
    }
}

fn is_met_in(session: &mut Session, alloc: Global, row: &Row) -> bool {
    let begun = session.run_all(alloc, row.before).is_ok();
    let count = made(session, alloc, row.many);
    let answered = is_answered_in(session, alloc, row.script, row.replies);
    let next = [session.forest.next_number(0), session.forest.next_number(1)];
    begun && count == row.count && answered && next == row.next
}

// Whether all is so in a forest of the row's own.
fn is_met(alloc: Global, row: &Row) -> bool {
    match begun(alloc, row.start) {
        Ok(forest) => {
            let mut session = Session::over(alloc, forest);
            let met = is_met_in(&mut session, alloc, row);
            drop(session);
            met
        }
        Err(_) => false,
    }
}

#[test]
fn forests_at_their_limits(rt: HostRuntime) {
    let alloc = rt.alloc();
    for row in ROWS.iter() {
        assert!(rt; is_met(alloc, row), "at {:?}", row.script);
    }
}

/// What the copy of a forest with two files is asked.
static OF_COPY: (&str, &str) = (
    "\
mkfile main:/f
@3 mkfile main:/g
stat main:/g
ls main:/
delsub main
",
    "\
@0 1 ok
@3 2 ok
@0 3 file 844424930131969 0 1
@0 4 list a b f g
@0 5 ok
",
);

/// What the forest is asked after it.
static OF_FOREST: (&str, &str) = (
    "\
stat main:/f
ls main:/
mkdir main:/f
ls main:/
",
    "\
@0 1 err not-found
@0 2 list a b
@0 3 ok
@0 4 list a b f/
",
);

// Whether a forest and its copy go their own ways.
fn go_apart(session: &mut Session, copy: &mut Session, alloc: Global) -> bool {
    is_answered_in(copy, alloc, OF_COPY.0, OF_COPY.1)
        && is_answered_in(session, alloc, OF_FOREST.0, OF_FOREST.1)
}

fn goes_apart(session: &mut Session, alloc: Global) -> bool {
    let begun = is_done(session, alloc, b"mkfile main:/b")
        && is_done(session, alloc, b"mkfile main:/a");
    match session.forest.copy() {
        Ok(forest) => {
            let mut copy = Session::over(alloc, forest);
            let apart = go_apart(session, &mut copy, alloc);
            drop(copy);
            begun && apart
        }
        Err(_) => false,
    }
}

fn fresh_goes_apart(alloc: Global) -> bool {
    match Forest::fresh(alloc) {
        Ok(forest) => {
            let mut session = Session::over(alloc, forest);
            let apart = goes_apart(&mut session, alloc);
            drop(session);
            apart
        }
        Err(_) => false,
    }
}

#[test]
fn copies_go_their_own_ways(rt: HostRuntime) {
    assert!(rt; fresh_goes_apart(rt.alloc()));
}

fn is_copied(trace: &Trace, alloc: Global) -> bool {
    match trace.copy(alloc) {
        Ok(copy) => {
            let same = copy == *trace;
            drop(copy);
            same
        }
        Err(_) => false,
    }
}

// Whether a trace of one entry is copied.
fn is_trace_copied(alloc: Global) -> bool {
    let mut trace = Trace::new(alloc);
    let entry = Entry {
        client: 15,
        op: Op::Sync,
        reply: Reply::Synced(1),
    };
    let copied = trace.push(entry).is_ok() && is_copied(&trace, alloc);
    drop(trace);
    copied
}

#[test]
fn traces_are_copied(rt: HostRuntime) {
    assert!(rt; is_trace_copied(rt.alloc()));
    assert!(rt; Op::Subs.class() == Class::Reads);
}
