//! The lines of replies, the last line, and the words for faults.

use forest_ops::{Cause, Reply};
use script_text::{LineFault, end_line, fault_word, reply_line};
use std::alloc::{AllocError, Global};
use std::test::Fail;
use vol_types::{Bytes, Counts, Duplicate, FlagList, FlaggedName, Lost, Places, Reads, Short};

// A reply. A list has three names with a flag each, or none.
#[derive(Clone, Copy)]
enum Sample {
    Okay,
    More(u64),
    Synced(u64),
    Content(&'static [u8]),
    Empty,
    List([u8; 3]),
    // Of 16 MiB, with 255 names.
    File(u64),
    // Without names.
    Dir(u64),
    SubNames([u8; 3]),
    Used(u64),
    Refused(Cause),
    // For 16 blocks.
    NoSpace,
    DeviceFault(u8),
    DataLost(u64),
    // At the moment 90.
    Halted(u8),
    Spent,
    NoMemory,
}

// Three names, which a list gives a flag each.
static NAMES: [&[u8]; 3] = [b"!~", b"\x00a b%\xff", b"d/\x7f"];

// Adds a name with a flag.
fn push_name(alloc: Global, names: &mut FlagList, name: &[u8], flag: u8) -> Result<(), AllocError> {
    let name = Bytes::from_slice(alloc, name)?;
    Ok(names.push(FlaggedName { name, flag })?)
}

// Adds the three names with a flag each.
fn push_names(alloc: Global, names: &mut FlagList, flags: [u8; 3]) -> Result<(), AllocError> {
    for (name, flag) in NAMES.iter().zip(flags.iter()) {
        push_name(alloc, names, name, *flag)?;
    }
    Ok(())
}

// The three names with a flag each.
fn names(alloc: Global, flags: [u8; 3]) -> Result<FlagList, AllocError> {
    let mut names = FlagList::new(alloc);
    match push_names(alloc, &mut names, flags) {
        Ok(()) => Ok(names),
        Err(failed) => {
            drop(names);
            Err(failed)
        }
    }
}

// A reply with a list or bytes.
fn listing(alloc: Global, sample: Sample) -> Result<Reply, AllocError> {
    match sample {
        Sample::Content(bytes) => Ok(Reply::Content(Bytes::from_slice(alloc, bytes)?)),
        Sample::List(flags) => Ok(Reply::List(names(alloc, flags)?)),
        Sample::SubNames(flags) => Ok(Reply::SubNames(names(alloc, flags)?)),
        _ => Ok(Reply::List(FlagList::new(alloc))),
    }
}

// A reply without space, or without a block.
fn failure(alloc: Global, sample: Sample) -> Reply {
    match sample {
        Sample::DataLost(block) => Reply::DataLost(Lost {
            block,
            want: 7,
            places: Places::new(alloc),
            got: Reads::new(alloc),
        }),
        _ => Reply::NoSpace(Short {
            need: 16,
            free: Counts::new(alloc),
            held: Counts::new(alloc),
        }),
    }
}

fn reply_of(alloc: Global, sample: Sample) -> Result<Reply, AllocError> {
    match sample {
        Sample::Okay => Ok(Reply::Okay),
        Sample::More(size) => Ok(Reply::More(size)),
        Sample::Synced(count) => Ok(Reply::Synced(count)),
        Sample::File(number) => Ok(Reply::File {
            number,
            size: 16_777_216,
            links: 255,
        }),
        Sample::Dir(number) => Ok(Reply::Dir { number, entries: 0 }),
        Sample::Used(blocks) => Ok(Reply::Used(blocks)),
        Sample::Refused(cause) => Ok(Reply::Refused(cause)),
        Sample::DeviceFault(dev) => Ok(Reply::DeviceFault(dev)),
        Sample::Halted(dev) => Ok(Reply::Halted { dev, tick: 90 }),
        Sample::Spent => Ok(Reply::Spent),
        Sample::NoMemory => Ok(Reply::NoMemory),
        Sample::NoSpace | Sample::DataLost(_) => Ok(failure(alloc, sample)),
        Sample::Content(_) | Sample::Empty | Sample::List(_) | Sample::SubNames(_) => {
            listing(alloc, sample)
        }
    }
}

/// Replies to line 1 of client 0, each with its line.
static PRINTED: [(Sample, &str); 32] = [
    (Sample::Okay, ">@0 1 ok\n"),
    (Sample::More(1_048_576), ">@0 1 more 1048576\n"),
    (
        Sample::Synced(18_446_744_073_709_551_615),
        ">@0 1 ok 18446744073709551615\n",
    ),
    (
        Sample::File(281_474_976_710_656),
        ">@0 1 file 281474976710656 16777216 255\n",
    ),
    (Sample::Dir(1), ">@0 1 dir 1 0\n"),
    (Sample::Used(30), ">@0 1 usage 30\n"),
    (Sample::NoSpace, ">@0 1 err no-space need 16\n"),
    (Sample::DeviceFault(7), ">@0 1 err device 7\n"),
    (Sample::DataLost(4095), ">@0 1 err data-lost 4095\n"),
    (Sample::Halted(3), ">@0 1 err halted 3\n"),
    (Sample::Spent, ">@0 1 err spent\n"),
    (Sample::NoMemory, ">@0 1 err no-memory\n"),
    (Sample::Refused(Cause::BadPath), ">@0 1 err bad-path\n"),
    (Sample::Refused(Cause::Cross), ">@0 1 err cross\n"),
    (
        Sample::Refused(Cause::NoSubvolume),
        ">@0 1 err no-subvolume\n",
    ),
    (Sample::Refused(Cause::NotFound), ">@0 1 err not-found\n"),
    (Sample::Refused(Cause::NotDir), ">@0 1 err not-dir\n"),
    (Sample::Refused(Cause::IsDir), ">@0 1 err is-dir\n"),
    (Sample::Refused(Cause::ReadOnly), ">@0 1 err read-only\n"),
    (Sample::Refused(Cause::Exists), ">@0 1 err exists\n"),
    (Sample::Refused(Cause::NotEmpty), ">@0 1 err not-empty\n"),
    (Sample::Refused(Cause::Loop), ">@0 1 err loop\n"),
    (Sample::Refused(Cause::Crowded), ">@0 1 err crowded\n"),
    (Sample::Refused(Cause::LinksFull), ">@0 1 err links-full\n"),
    (Sample::Refused(Cause::TooBig), ">@0 1 err too-big\n"),
    (Sample::Refused(Cause::IdsSpent), ">@0 1 err ids-spent\n"),
    (Sample::Refused(Cause::TooMany), ">@0 1 err too-many\n"),
    (Sample::Empty, ">@0 1 list\n"),
    (
        Sample::List([1, 1, 2]),
        ">@0 1 list !~ %00a%20b%25%FF d/%7F/\n",
    ),
    (
        Sample::SubNames([0, 1, 0]),
        ">@0 1 subs rw:!~ ro:%00a%20b%25%FF rw:d/%7F\n",
    ),
    (Sample::Content(b""), ">@0 1 data\n"),
    (Sample::Content(b"hi\x00\xfe"), ">@0 1 data 686900fe\n"),
];

// Whether a reply is printed so after a byte that was there before.
fn is_line(alloc: Global, reply: &Reply, text: &str) -> bool {
    let mut into = Bytes::new(alloc);
    let put = into.push(b'>').is_ok() && reply_line(alloc, &mut into, 0, 1, reply).is_ok();
    let same = into.as_slice() == text.as_bytes();
    drop(into);
    put && same
}

// Whether a copy of a reply is printed so.
fn is_copy_printed(alloc: Global, reply: &Reply, text: &str) -> bool {
    match reply.copy(alloc) {
        Ok(copy) => {
            let printed = is_line(alloc, &copy, text);
            drop(copy);
            printed
        }
        Err(_) => false,
    }
}

fn is_printed(alloc: Global, sample: Sample, text: &str) -> bool {
    match reply_of(alloc, sample) {
        Ok(reply) => {
            let printed = is_copy_printed(alloc, &reply, text);
            drop(reply);
            printed
        }
        Err(_) => false,
    }
}

#[test]
fn replies_are_printed(rt: HostRuntime) {
    let alloc = rt.alloc();
    for (sample, text) in PRINTED.iter() {
        assert!(rt; is_printed(alloc, *sample, text), "at {text:?}");
    }
}

// Adds a reply and the last line.
fn add_lines(alloc: Global, into: &mut Bytes) -> Result<(), AllocError> {
    reply_line(alloc, into, 15, 4_294_967_295, &Reply::Okay)?;
    end_line(alloc, into, 20, 0)
}

#[test]
fn lines_are_added(rt: HostRuntime) -> Result<(), Fail> {
    let alloc = rt.alloc();
    let mut into = Bytes::new(alloc);
    add_lines(alloc, &mut into)?;
    let text = b"@15 4294967295 ok\nend commits 20 synced 0\n";
    assert!(rt; into.as_slice() == text.as_slice());
    Ok(())
}

static FAULTS: [(LineFault, &str); 4] = [
    (LineFault::BadVerb, "bad-verb"),
    (LineFault::BadArgs, "bad-args"),
    (LineFault::BadPath, "bad-path"),
    (LineFault::BadClient, "bad-client"),
];

#[test]
fn faults_have_words(rt: HostRuntime) {
    for (fault, word) in FAULTS.iter() {
        assert!(rt; fault_word(*fault) == *word);
    }
}
