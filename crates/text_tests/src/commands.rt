//! Arguments of the command line, and what they ask for.

use command_line::{FormatRequest, Request, WordsFault, id_text, read_number, read_words};
use std::alloc::Global;
use std::rc::RcStr;
use std::test::Fail;

/// The id that the arguments of these tests give.
const ID: [u8; 16] = [0, 0, 0, 0, 0, 0, 0x40, 0, 0x80, 0, 0, 0, 0, 0, 0, 1];

/// An id with letters in it: 67e55044-10b1-426f-9247-bb680e5fe0c8.
const LETTERS: [u8; 16] = [
    0x67, 0xe5, 0x50, 0x44, 0x10, 0xb1, 0x42, 0x6f, 0x92, 0x47, 0xbb, 0x68, 0x0e, 0x5f, 0xe0, 0xc8,
];

// What the arguments of the line ask for. One blank stands between two arguments, and an argument that is `.` stands for the id.
fn answer(alloc: Global, line: &str) -> Result<Result<Request, WordsFault>, Fail> {
    let mut words = Vec::new(alloc);
    for word in line.split(' ') {
        let text = if word == "." {
            "00000000-0000-4000-8000-000000000001"
        } else {
            word
        };
        words.push(RcStr::from_str(alloc, text)?)?;
    }
    Ok(read_words(alloc, &words))
}

// The request of the volume of these tests with these numbers: blocks, journal, copies of data and copies of nodes.
fn request(numbers: [u64; 4]) -> Result<Request, WordsFault> {
    let [blocks, journal, data_replicas, meta_replicas] = numbers;
    Ok(Request::Format(FormatRequest {
        id: ID,
        blocks,
        journal,
        data_replicas,
        meta_replicas,
    }))
}

#[test]
fn each_option_has_two_forms(rt: HostRuntime) -> Result<(), Fail> {
    let alloc = rt.alloc();
    let long_forms = "format --id=00000000-0000-4000-8000-000000000001 --blocks=4096";
    let last = "format --meta-replicas 5 --data-replicas=4 --journal 3 --blocks=2 --id .";
    for (line, numbers) in [
        ("format --id . --blocks 4096", [4096, 256, 1, 1]),
        (long_forms, [4096, 256, 1, 1]),
        ("format --blocks 4096 --id .", [4096, 256, 1, 1]),
        ("format --blocks=4096 --id .", [4096, 256, 1, 1]),
        (
            "format --id . --blocks 4096 --journal 496",
            [4096, 496, 1, 1],
        ),
        (
            "format --journal=496 --id . --blocks 4096",
            [4096, 496, 1, 1],
        ),
        (
            "format --id . --data-replicas 2 --blocks 4096",
            [4096, 256, 2, 1],
        ),
        (
            "format --id . --data-replicas=2 --blocks 4096",
            [4096, 256, 2, 1],
        ),
        (
            "format --id . --blocks 4096 --meta-replicas 3",
            [4096, 256, 1, 3],
        ),
        (
            "format --meta-replicas=3 --id . --blocks 4096",
            [4096, 256, 1, 3],
        ),
        (
            "format --id . --blocks 18446744073709551615",
            [u64::MAX, 256, 1, 1],
        ),
        ("format --id . --blocks=0 --journal=0", [0, 0, 1, 1]),
        (last, [2, 3, 4, 5]),
    ] {
        assert!(rt; answer(alloc, line)? == request(numbers), "{line}");
    }
    assert!(rt; answer(alloc, "run")? == Ok(Request::Run));
    assert!(rt; answer(alloc, "info")? == Ok(Request::Info));
    Ok(())
}

#[test]
fn an_id_has_five_forms(rt: HostRuntime) -> Result<(), Fail> {
    let alloc = rt.alloc();
    let cases = [
        "format --blocks 4096 --id 67e5504410b1426f9247bb680e5fe0c8",
        "format --blocks 4096 --id 67e55044-10b1-426f-9247-bb680e5fe0c8",
        "format --blocks 4096 --id 67E55044-10B1-426F-9247-BB680E5FE0C8",
        "format --blocks 4096 --id urn:uuid:67e55044-10b1-426f-9247-bb680e5fe0c8",
        "format --blocks 4096 --id={67e55044-10b1-426f-9247-bb680e5fe0c8}",
    ];
    for line in cases {
        let format = FormatRequest {
            id: LETTERS,
            blocks: 4096,
            journal: 256,
            data_replicas: 1,
            meta_replicas: 1,
        };
        assert!(rt;
            answer(alloc, line)? == Ok(Request::Format(format)),
            "{line}"
        );
    }
    Ok(())
}

// Whether each of the lines asks for nothing.
fn are_refused(alloc: Global, lines: &[&str]) -> Result<bool, Fail> {
    for line in lines {
        if answer(alloc, line)? != Err(WordsFault::Usage) {
            return Ok(false);
        }
    }
    Ok(true)
}

#[test]
fn other_commands_ask_for_nothing(rt: HostRuntime) -> Result<(), Fail> {
    let alloc = rt.alloc();
    let lines = [
        "",
        "help",
        "mount",
        "Run",
        "run run",
        "run ",
        "run --schedule 1",
        "run --id .",
        "Info",
        "info run",
        "info ",
        "info --id .",
        "info info",
        "--id . --blocks 4096 format",
    ];
    assert!(rt; are_refused(alloc, &lines)?);
    let none: [RcStr; 0] = [];
    assert!(rt; read_words(alloc, &none) == Err(WordsFault::Usage));
    Ok(())
}

#[test]
fn other_options_ask_for_nothing(rt: HostRuntime) -> Result<(), Fail> {
    let lines = [
        "format",
        "format --id .",
        "format --blocks 4096",
        "format --id . --blocks",
        "format --id . --blocks 4096 --journal",
        "format --id . --blocks 4096 --blocks 4096",
        "format --id . --blocks 4096 --journal 1 --journal=1",
        "format --id . --id . --blocks 4096",
        "format --id . --block 4096",
        "format --i . --blocks 4096",
        "format --id . --blocks 4096 --replicas 1",
        "format --id . --blocks 4096 --help",
        "format --help",
        "format -h",
        "format --version",
        "format --ID . --blocks 4096",
    ];
    assert!(rt; are_refused(rt.alloc(), &lines)?);
    Ok(())
}

#[test]
fn other_values_ask_for_nothing(rt: HostRuntime) -> Result<(), Fail> {
    let lines = [
        "format --id . --blocks -1",
        "format --id . --blocks --journal 1",
        "format --id . --blocks --",
        "format --id . --blocks -",
        "format --id . --blocks 4096 --",
        "format -- --id . --blocks 4096",
        "format --id . --blocks 4096 -- 1",
        "format --id . --blocks 4096 1",
        "format 4096 --id . --blocks 4096",
        "format --id . --blocks 4096 -b",
        "format --id . --blocks 4096 --=1",
        "format --id . -blocks 4096",
        "format --id . --blocks 01",
        "format --id . --blocks 00",
        "format --id . --blocks +1",
        "format --id . --blocks ",
        "format --id . --blocks=",
        "format --id . --blocks=-1",
        "format --id . --blocks==1",
        "format --id . --blocks 0x10",
        "format --id . --blocks 18446744073709551616",
        "format --id . --blocks 4096 --journal 18446744073709551616",
        "format --id . --blocks 4096 --data-replicas one",
        "format --id . --blocks 4096 --meta-replicas 1.0",
        "format --id= --blocks 4096",
        "format --id 1 --blocks 4096",
        "format --id 00000000-0000-4000-8000-00000000000g --blocks 4096",
    ];
    assert!(rt; are_refused(rt.alloc(), &lines)?);
    Ok(())
}

#[test]
fn a_number_is_plain_digits(rt: HostRuntime) {
    assert!(rt; read_number("0") == Some(0));
    assert!(rt; read_number("7") == Some(7));
    assert!(rt; read_number("1048576") == Some(1_048_576));
    assert!(rt; read_number("18446744073709551615") == Some(18_446_744_073_709_551_615));
    let refused = [
        "",
        "00",
        "01",
        "+1",
        "-1",
        " 1",
        "1 ",
        "1_000",
        "1e3",
        "18446744073709551616",
        "99999999999999999999",
    ];
    for text in refused {
        assert!(rt; read_number(text).is_none(), "{text}");
    }
}

#[test]
fn an_id_is_written_in_lower_case(rt: HostRuntime) {
    assert!(rt; &id_text(&ID) == b"00000000-0000-4000-8000-000000000001");
    assert!(rt; &id_text(&LETTERS) == b"67e55044-10b1-426f-9247-bb680e5fe0c8");
}
