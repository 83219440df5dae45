//! Which entries of a journal are whole and needed, and which one is the newest. What is expected was worked out by hand, and
//! by a second reader in Python that was written by the tables of the format.

use crate::bytes::{Change, EntryOf};
use crate::found::{Found, is_found};
use crate::images::{EVERYWHERE, Stands, formatted, put_entry};
use dev_model::MemDevices;
use image_view::MountFault;
use std::alloc::Global;
use std::test::Fail;

// An entry that stands from this journal block number on. It sets the counter 0 to its number of commits, and the one that has
// its sequence to its session. A long one sets 130 others too, and so takes two blocks.
#[derive(Clone, Copy)]
struct Written {
    number: u64,
    sequence: u64,
    oldest: u64,
    session: u64,
    commits: u64,
    is_long: bool,
    stands: Stands,
}

// A short entry of session 1 that stands everywhere, behind the first one of a format.
const SHORT: Written = Written {
    number: 1,
    sequence: 2,
    oldest: 1,
    session: 1,
    commits: 101,
    is_long: false,
    stands: EVERYWHERE,
};

// One that stands nowhere.
const NONE: Written = Written {
    stands: Stands {
        devices: 0,
        parts: 0,
    },
    ..SHORT
};

const LONG: Written = Written {
    is_long: true,
    ..SHORT
};

// The same behind it.
const NEXT: Written = Written {
    number: 2,
    commits: 102,
    ..SHORT
};

// The entry after that one, which needs it.
const THIRD: Written = Written {
    sequence: 3,
    ..NEXT
};

const AROUND: Written = Written {
    number: 255,
    commits: 355,
    ..LONG
};

// Long entries with 5 commits, of which the first or the second part stands on a device.
const FIRST_PART: Written = Written {
    commits: 5,
    stands: Stands {
        devices: 0b01,
        parts: 0b01,
    },
    ..LONG
};

const SECOND_PART: Written = Written {
    stands: Stands {
        devices: 0b01,
        parts: 0b10,
    },
    ..FIRST_PART
};

const FIRST_BESIDE: Written = Written {
    stands: Stands {
        devices: 0b10,
        parts: 0b01,
    },
    ..FIRST_PART
};

const SECOND_BESIDE: Written = Written {
    stands: Stands {
        devices: 0b10,
        parts: 0b10,
    },
    ..FIRST_PART
};

// A short entry that stands on the first device, with 5 commits, and one on the second, with 7.
const ON_FIRST: Written = Written {
    commits: 5,
    stands: Stands {
        devices: 0b01,
        parts: 0b01,
    },
    ..SHORT
};

const ON_SECOND: Written = Written {
    commits: 7,
    stands: Stands {
        devices: 0b10,
        parts: 0b01,
    },
    ..SHORT
};

// Two entries behind the first one of a format, under number 0, and what is found then: the journal block numbers of the needed
// entries and the counters 0 to 4, or that the entry of this sequence is missing, if it isn't 0.
#[derive(Clone, Copy)]
struct Case {
    first: Written,
    second: Written,
    needed: [u64; 3],
    counters: [u64; 5],
    missing: u64,
}

// No journal block number.
const NO: u64 = u64::MAX;

// The first entry is found alone.
const CASE: Case = Case {
    first: NONE,
    second: NONE,
    needed: [0, NO, NO],
    counters: [0; 5],
    missing: 0,
};

// The entry behind it is needed too.
const BOTH: Case = Case {
    first: SHORT,
    needed: [0, 1, NO],
    counters: [101, 0, 1, 0, 0],
    ..CASE
};

// So is the one at number 2.
const BOTH_APART: Case = Case {
    second: NEXT,
    needed: [0, 2, NO],
    counters: [102, 0, 1, 0, 0],
    ..BOTH
};

static ON_ONE_DEVICE: [Case; 17] = [
    CASE,
    // three entries, all of them needed, the last one or the last two
    Case {
        second: THIRD,
        needed: [0, 1, 2],
        counters: [102, 0, 1, 1, 0],
        ..BOTH
    },
    Case {
        second: Written { oldest: 3, ..THIRD },
        needed: [2, NO, NO],
        counters: [102, 0, 0, 1, 0],
        ..BOTH
    },
    Case {
        second: Written { oldest: 2, ..THIRD },
        needed: [1, 2, NO],
        counters: [102, 0, 1, 1, 0],
        ..BOTH
    },
    // their order is that of their sequences
    Case {
        first: Written { oldest: 2, ..NEXT },
        second: Written {
            number: 1,
            commits: 101,
            oldest: 2,
            ..THIRD
        },
        needed: [2, 1, NO],
        counters: [101, 0, 1, 1, 0],
        ..CASE
    },
    // two blocks, and either without the other
    Case {
        first: LONG,
        ..BOTH
    },
    Case {
        first: FIRST_PART,
        ..CASE
    },
    Case {
        first: SECOND_PART,
        ..CASE
    },
    // number 256 lies where number 0 does
    Case {
        first: Written {
            oldest: 2,
            ..AROUND
        },
        second: Written {
            number: 257,
            commits: 357,
            oldest: 2,
            ..THIRD
        },
        needed: [255, 257, NO],
        counters: [357, 0, 1, 1, 0],
        ..CASE
    },
    Case {
        first: AROUND,
        missing: 1,
        ..CASE
    },
    Case {
        first: Written {
            number: 256,
            sequence: 1,
            commits: 356,
            ..SHORT
        },
        needed: [256, NO, NO],
        counters: [356, 1, 0, 0, 0],
        ..CASE
    },
    Case {
        first: Written {
            number: 300,
            commits: 400,
            ..SHORT
        },
        needed: [0, 300, NO],
        counters: [400, 0, 1, 0, 0],
        ..CASE
    },
    // of one sequence the greater session counts, then the greater number
    Case {
        second: Written { session: 2, ..NEXT },
        counters: [102, 0, 2, 0, 0],
        ..BOTH_APART
    },
    Case {
        first: Written {
            session: 2,
            ..SHORT
        },
        second: NEXT,
        counters: [101, 0, 2, 0, 0],
        ..BOTH
    },
    BOTH_APART,
    // a sequence that is needed and isn't there
    Case {
        first: Written {
            sequence: 5,
            oldest: 3,
            ..SHORT
        },
        missing: 3,
        ..CASE
    },
    Case {
        first: Written {
            sequence: 4,
            oldest: 2,
            ..SHORT
        },
        second: Written { oldest: 2, ..NEXT },
        missing: 3,
        ..CASE
    },
];

// The entry behind the first one is found, with 5 commits, or with 7.
const WITH_FIVE: Case = Case {
    counters: [5, 0, 1, 0, 0],
    ..BOTH
};

const WITH_SEVEN: Case = Case {
    counters: [7, 0, 1, 0, 0],
    ..BOTH
};

static ON_TWO_MIRRORS: [Case; 11] = [
    // a part on each
    Case {
        first: FIRST_PART,
        second: SECOND_BESIDE,
        ..WITH_FIVE
    },
    Case {
        first: FIRST_BESIDE,
        second: SECOND_PART,
        ..WITH_FIVE
    },
    Case {
        first: FIRST_PART,
        second: FIRST_BESIDE,
        ..CASE
    },
    // parts of two records
    Case {
        first: FIRST_PART,
        second: Written {
            commits: 7,
            ..SECOND_BESIDE
        },
        ..CASE
    },
    Case {
        first: Written {
            stands: Stands {
                devices: 0b01,
                parts: 0b11,
            },
            ..FIRST_PART
        },
        second: Written {
            commits: 7,
            ..FIRST_BESIDE
        },
        ..WITH_FIVE
    },
    Case {
        first: FIRST_PART,
        second: Written {
            commits: 7,
            stands: Stands {
                devices: 0b10,
                parts: 0b11,
            },
            ..FIRST_PART
        },
        ..WITH_SEVEN
    },
    // on one of them alone
    Case {
        first: ON_FIRST,
        ..WITH_FIVE
    },
    Case {
        first: NONE,
        second: Written {
            commits: 5,
            ..ON_SECOND
        },
        ..WITH_FIVE
    },
    // others in one place: the lower device counts, but for the greater session
    Case {
        first: ON_FIRST,
        second: ON_SECOND,
        ..WITH_FIVE
    },
    Case {
        first: ON_FIRST,
        second: Written {
            session: 2,
            ..ON_SECOND
        },
        counters: [7, 0, 2, 0, 0],
        ..BOTH
    },
    Case {
        first: Written {
            session: 2,
            ..ON_FIRST
        },
        second: ON_SECOND,
        counters: [5, 0, 2, 0, 0],
        ..BOTH
    },
];

fn number_of(number: u64) -> Option<u64> {
    if number == NO {
        return None;
    }
    Some(number)
}

// What a case has to be found as.
fn wanted_of(case: &Case) -> Result<Found, MountFault> {
    if case.missing != 0 {
        return Err(MountFault::MissingEntry(case.missing));
    }
    Ok(Found {
        session: 1,
        needed: [
            number_of(case.needed[0]),
            number_of(case.needed[1]),
            number_of(case.needed[2]),
        ],
        counters: case.counters,
        ends: [1, 0, 0],
        ragged: 0,
    })
}

fn put(alloc: Global, devices: &mut MemDevices, written: &Written) -> Result<(), Fail> {
    let updates = [
        (0, Change::Counter(0, written.commits)),
        (0, Change::Counter(written.sequence, written.session)),
    ];
    let entry = EntryOf {
        sequence: written.sequence,
        oldest: written.oldest,
        session: written.session,
        commits: written.commits,
        level: 0,
        root: (8, 400),
        is_long: written.is_long,
        updates: &updates,
    };
    put_entry(alloc, devices, written.number, &entry, written.stands)
}

fn is_found_with(alloc: Global, devices: &mut MemDevices, case: &Case) -> Result<bool, Fail> {
    put(alloc, devices, &case.first)?;
    put(alloc, devices, &case.second)?;
    Ok(is_found(alloc, devices, &[0, 1, 2, 3, 4], &wanted_of(case)))
}

// Whether so many devices with the entries of a case are found so.
fn is_so(alloc: Global, count: u8, case: &Case) -> Result<bool, Fail> {
    let mut devices = formatted(alloc, count)?;
    let is_found = is_found_with(alloc, &mut devices, case);
    drop(devices);
    is_found
}

// The number of the first case that is found otherwise.
fn first_other(alloc: Global, count: u8, cases: &[Case]) -> Result<Option<u32>, Fail> {
    let mut number: u32 = 0;
    for case in cases {
        if !is_so(alloc, count, case)? {
            return Ok(Some(number));
        }
        number = number.saturating_add(1);
    }
    Ok(None)
}

#[test]
fn entries_of_one_device(rt: HostRuntime) -> Result<(), Fail> {
    assert!(rt; first_other(rt.alloc(), 1, &ON_ONE_DEVICE)? == None);
    Ok(())
}

#[test]
fn entries_of_two_mirrors(rt: HostRuntime) -> Result<(), Fail> {
    assert!(rt; first_other(rt.alloc(), 2, &ON_TWO_MIRRORS)? == None);
    Ok(())
}
