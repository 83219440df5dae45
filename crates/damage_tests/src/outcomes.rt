//! What is found in an image, as numbers that another program can compute; and whether it was loaded as it was read.

use image_reader::{FoundBtree, FoundVolume};
use image_view::MountFault;
use replay::Loaded;
use vol_types::{Btree, Pos, Value};

/// What was found. The first number is that of the fault, or 0.
#[derive(Clone, Copy, PartialEq, Eq)]
pub struct Outcome(pub u64, pub u64, pub u64);

/// A number that hangs on all before it.
pub fn mixed(one: u64, other: u64) -> u64 {
    one.wrapping_mul(1_000_003).wrapping_add(other)
}

fn refused(fault: &MountFault) -> Outcome {
    match fault {
        MountFault::NoSuper => Outcome(1, 0, 0),
        MountFault::Version => Outcome(2, 0, 0),
        MountFault::Mixed => Outcome(3, 0, 0),
        MountFault::BadLayout => Outcome(4, 0, 0),
        MountFault::NoEntry => Outcome(5, 0, 0),
        MountFault::MissingEntry(sequence) => Outcome(6, *sequence, 0),
        MountFault::BadNode(place) => Outcome(7, u64::from(place.dev), u64::from(place.block)),
        MountFault::Unsound(_) => Outcome(8, 0, 0),
        MountFault::DeviceFault(_) => Outcome(9, 0, 0),
        MountFault::NoMemory => Outcome(10, 0, 0),
    }
}

// The session, and the number and the commits of each needed entry.
fn entries_of(read: &FoundVolume) -> u64 {
    let mut all = read.session;
    for found in read.needed.as_slice() {
        all = mixed(mixed(all, found.number), found.entry.commits);
    }
    all
}

fn counter_of(value: &Value) -> u64 {
    match value {
        Value::Counter { next } => *next,
        _ => 0,
    }
}

// The values of a btree, mixed into a number.
fn values_of(btree: &FoundBtree, number: u64, before: u64) -> u64 {
    let mut all = before;
    for (pos, value) in btree.entries.as_slice() {
        all = mixed(mixed(mixed(all, number), pos.offset), counter_of(value));
    }
    all
}

fn ends_of(btree: &FoundBtree, before: u64) -> u64 {
    let mut all = before;
    for end in btree.ends.as_slice() {
        all = mixed(all, u64::from(end.block));
    }
    all
}

// How many nodes lack a set on some place, all values, and where the sets of each node end.
fn btrees_of(read: &FoundVolume) -> u64 {
    let mut all: u64 = 0;
    for btree in read.btrees.as_slice() {
        all = all.wrapping_add(btree.ragged.len() as u64);
    }
    let mut number: u64 = 0;
    for btree in read.btrees.as_slice() {
        all = values_of(btree, number, all);
        number = number.wrapping_add(1);
    }
    for btree in read.btrees.as_slice() {
        all = ends_of(btree, all);
    }
    all
}

/// What was read, as numbers.
pub fn outcome_of(read: &Result<FoundVolume, MountFault>) -> Outcome {
    match read {
        Ok(read) => Outcome(0, entries_of(read), btrees_of(read)),
        Err(fault) => refused(fault),
    }
}

// Whether a btree was loaded with the values that were read, and no others.
fn has_values(loaded: &Loaded, btree: Btree, read: &FoundBtree) -> bool {
    let mut span = loaded.map.span(btree, &Pos::LEAST, &Pos::GREATEST);
    for (pos, value) in read.entries.as_slice() {
        match span.next() {
            None => return false,
            Some((other, loaded)) => {
                if *other != *pos || *loaded != *value {
                    return false;
                }
            }
        }
    }
    span.next().is_none()
}

fn have_values(loaded: &Loaded, read: &FoundVolume) -> bool {
    let mut code: u8 = 0;
    for found in read.btrees.as_slice() {
        let Some(btree) = Btree::from_code(code) else {
            return false;
        };
        if !has_values(loaded, btree, found) {
            return false;
        }
        code = code.saturating_add(1);
    }
    code == 9
}

// Whether a volume was loaded as it was read.
fn is_loaded(loaded: &Loaded, read: &FoundVolume) -> bool {
    if loaded.layout != read.layout || loaded.session != read.session {
        return false;
    }
    loaded.needed == read.needed && have_values(loaded, read)
}

/// Whether loading and reading agree.
pub fn do_agree(
    loaded: &Result<Loaded, MountFault>,
    read: &Result<FoundVolume, MountFault>,
) -> bool {
    match (loaded, read) {
        (Ok(loaded), Ok(read)) => is_loaded(loaded, read),
        (Err(one), Err(other)) => *one == *other,
        _ => false,
    }
}
