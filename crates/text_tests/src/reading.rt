//! What a line says, of each verb, and why another one can't be read.

use forest_ops::Op;
use plain_forest::Path;
use script_text::{
    Line, LineFault, ReadFault, Script, ScriptFault, Verb, cut_at, read_bytes, read_operation,
    read_path, read_script,
};
use std::alloc::{AllocError, Global};
use std::test::Fail;
use vol_types::{Bytes, NameList};

// These names.
fn name_list(alloc: Global, names: &[&[u8]]) -> Result<NameList, AllocError> {
    let mut list = NameList::new(alloc);
    for name in names {
        list.push(Bytes::from_slice(alloc, name)?)?;
    }
    Ok(list)
}

// The path of these names from the root of a subvolume.
fn path_of(alloc: Global, sub: &[u8], names: &[&[u8]]) -> Result<Path, AllocError> {
    let sub = Bytes::from_slice(alloc, sub)?;
    let names = name_list(alloc, names)?;
    Ok(Path { sub, names })
}

/// The names of the path `m:/a`.
static A: [&[u8]; 1] = [b"a"];

/// The names of the path `m:/`.
static NONE: [&[u8]; 0] = [];

// The path of `a` in the root of `m`.
fn path_of_a(alloc: Global) -> Result<Path, AllocError> {
    path_of(alloc, b"m".as_slice(), &A)
}

// The root of `m`.
fn root_of_m(alloc: Global) -> Result<Path, AllocError> {
    path_of(alloc, b"m".as_slice(), &NONE)
}

// What a line without a client says, also where the program doesn't run its verb.
pub(crate) fn said(alloc: Global, line: &[u8]) -> Result<Option<Op>, ReadFault> {
    let (word, words) = cut_at(b' ', line);
    match Verb::among_all(word) {
        Some(verb) => read_operation(alloc, verb, words),
        None => Err(ReadFault::Faulty(LineFault::BadVerb)),
    }
}

// Whether a line says this.
fn is_said(alloc: Global, line: &str, op: Option<Op>) -> bool {
    let found = said(alloc, line.as_bytes());
    let wanted = Ok(op);
    let is_same = found == wanted;
    // By calls: at the end of the block they take a minute to prove.
    drop(found);
    drop(wanted);
    is_same
}

fn line(line: u32, client: u8, op: Option<Op>) -> Line {
    Line { line, client, op }
}

// Adds the lines 3 to 6 of the text in the first test.
fn push_four(alloc: Global, script: &mut Script) -> Result<(), AllocError> {
    let path = path_of_a(alloc)?;
    script.push(line(3, 0, Some(Op::Mkfile { path })))?;
    script.push(line(4, 15, Some(Op::Sync)))?;
    script.push(line(5, 3, None))?;
    let path = root_of_m(alloc)?;
    script.push(line(6, 0, Some(Op::Ls { path })))?;
    Ok(())
}

// The script of lines 3 to 6 of the text in the first test.
fn four_lines(alloc: Global) -> Result<Script, AllocError> {
    let mut script = Script::new(alloc);
    push_four(alloc, &mut script)?;
    Ok(script)
}

// Whether a short text has this script.
fn is_script(alloc: Global, text: &[u8], script: Script) -> bool {
    if text.len() > 100 {
        return false;
    }
    read_script(alloc, text) == Ok(script)
}

// Whether a short text has the four lines.
fn has_four_lines(alloc: Global, text: &[u8]) -> Result<bool, AllocError> {
    let script = four_lines(alloc)?;
    Ok(is_script(alloc, text, script))
}

// Whether a short text is a script without lines.
fn has_no_lines(alloc: Global, text: &[u8]) -> bool {
    is_script(alloc, text, Script::new(alloc))
}

/// Two texts of four lines.
static FOUR_LINES: [&[u8]; 2] = [
    b"# a comment\n\nmkfile m:/a\n@15 sync\n@3 barrier\n@0 ls m:/",
    b"#\n\nmkfile m:/a\n@15 sync\n@3 barrier\nls m:/\n",
];

#[test]
fn scripts_are_read(rt: HostRuntime) -> Result<(), Fail> {
    let alloc = rt.alloc();
    assert!(rt; has_no_lines(alloc, b"".as_slice()));
    assert!(rt; has_no_lines(alloc, b"\n# sync\n#\n\n".as_slice()));
    for text in FOUR_LINES.iter() {
        assert!(rt; has_four_lines(alloc, text)?, "at {text:?}");
    }
    Ok(())
}

// The fault of a short text.
fn fault_of(alloc: Global, text: &[u8]) -> Option<ScriptFault> {
    if text.len() > 100 {
        return None;
    }
    read_script(alloc, text).err()
}

/// Texts, each with the number of its first bad line, and why that can't be run.
static BAD_TEXTS: [(&[u8], u32, LineFault); 18] = [
    (b"@16 sync", 1, LineFault::BadClient),
    (b"@16 frob\n", 1, LineFault::BadClient),
    (b"@\n", 1, LineFault::BadClient),
    (b"@ sync\n", 1, LineFault::BadClient),
    (b"@01 sync\n", 1, LineFault::BadClient),
    (b"@18446744073709551616 sync\n", 1, LineFault::BadClient),
    (b"@\xff sync\n", 1, LineFault::BadClient),
    (b"@3\n", 1, LineFault::BadVerb),
    (b"@3 \n", 1, LineFault::BadVerb),
    (b"@1 @2 sync\n", 1, LineFault::BadVerb),
    (b" sync\n", 1, LineFault::BadVerb),
    (b"Sync\n", 1, LineFault::BadVerb),
    (b"sync\r\n", 1, LineFault::BadVerb),
    (b"frob main:/a\n", 1, LineFault::BadVerb),
    (b"sync \n", 1, LineFault::BadArgs),
    (b"#\n\n@3 ls main\n", 3, LineFault::BadPath),
    (b"sync\n\nls m:/ \nfrob", 3, LineFault::BadArgs),
    (b"sync\nbarrier\nls", 3, LineFault::BadArgs),
];

#[test]
fn bad_lines_are_named(rt: HostRuntime) {
    let alloc = rt.alloc();
    for (text, line, cause) in BAD_TEXTS.iter() {
        let fault = ScriptFault::Bad {
            line: *line,
            cause: *cause,
        };
        assert!(rt; fault_of(alloc, text) == Some(fault), "at {text:?}");
    }
}

static NOT_RUN: [&str; 5] = [
    "write m:/a 0 61",
    "trunc m:/a 0",
    "read m:/a 0 1",
    "sweep 1",
    "usage",
];

#[test]
fn verbs_that_are_not_run_are_bad(rt: HostRuntime) {
    let alloc = rt.alloc();
    let fault = ScriptFault::Bad {
        line: 1,
        cause: LineFault::BadVerb,
    };
    for text in NOT_RUN.iter() {
        assert!(rt;
            fault_of(alloc, text.as_bytes()) == Some(fault),
            "at {text:?}"
        );
    }
}

/// Lines, each with its first fault from the left.
static JUDGED: [(&str, LineFault); 27] = [
    ("ls", LineFault::BadArgs),
    ("ls m:/ m:/", LineFault::BadArgs),
    ("ls  m:/", LineFault::BadArgs),
    ("ls m", LineFault::BadPath),
    ("read main 0 1", LineFault::BadPath),
    ("read main:/a 01 1", LineFault::BadArgs),
    ("read main 0", LineFault::BadArgs),
    ("read main x 65537", LineFault::BadPath),
    ("read m:/a 0 65537", LineFault::BadArgs),
    ("write m:/a 0 ", LineFault::BadArgs),
    ("write m:/a 0 616", LineFault::BadArgs),
    ("write m:/a 0 6g", LineFault::BadArgs),
    ("write m:/a -1 61", LineFault::BadArgs),
    ("write ma 0 6g", LineFault::BadPath),
    ("trunc m:/a 18446744073709551616", LineFault::BadArgs),
    ("trunc m:/a +1", LineFault::BadArgs),
    ("trunc m:/a ", LineFault::BadArgs),
    ("link m:/a b", LineFault::BadPath),
    ("rename m:/a", LineFault::BadArgs),
    ("snap a", LineFault::BadArgs),
    ("snap a b rx", LineFault::BadArgs),
    ("snap a/b c rx", LineFault::BadPath),
    ("snap a b ro ro", LineFault::BadArgs),
    ("subvol a/b", LineFault::BadPath),
    ("delsub a%2", LineFault::BadPath),
    ("sweep", LineFault::BadArgs),
    ("sweep 1 2", LineFault::BadArgs),
];

// The fault of a line without a client.
fn fault_said(alloc: Global, line: &str) -> Option<ReadFault> {
    said(alloc, line.as_bytes()).err()
}

#[test]
fn words_are_judged_from_the_left(rt: HostRuntime) {
    let alloc = rt.alloc();
    for (line, fault) in JUDGED.iter() {
        assert!(rt;
            fault_said(alloc, line) == Some(ReadFault::Faulty(*fault)),
            "at {line:?}"
        );
    }
}

// What a line with a verb of one path says, or none for another verb.
fn op_of(verb: Verb, path: Path) -> Option<Op> {
    match verb {
        Verb::Mkdir => Some(Op::Mkdir { path }),
        Verb::Mkfile => Some(Op::Mkfile { path }),
        Verb::Unlink => Some(Op::Unlink { path }),
        Verb::Rmdir => Some(Op::Rmdir { path }),
        Verb::Ls => Some(Op::Ls { path }),
        Verb::Stat => Some(Op::Stat { path }),
        Verb::Fsync => Some(Op::Fsync { path }),
        _ => None,
    }
}

// Whether a line says the operation of a verb on `m:/a`.
fn is_of_a(alloc: Global, line: &str, verb: Verb) -> Result<bool, AllocError> {
    let path = path_of_a(alloc)?;
    Ok(is_said(alloc, line, op_of(verb, path)))
}

static OF_A_PATH: [(&str, Verb); 4] = [
    ("mkdir m:/a", Verb::Mkdir),
    ("mkfile m:/a", Verb::Mkfile),
    ("unlink m:/a", Verb::Unlink),
    ("rmdir m:/a", Verb::Rmdir),
];

#[test]
fn verbs_of_a_path_are_read(rt: HostRuntime) -> Result<(), Fail> {
    let alloc = rt.alloc();
    for (line, verb) in OF_A_PATH.iter() {
        assert!(rt; is_of_a(alloc, line, *verb)?, "at {line:?}");
    }
    Ok(())
}

static LOOKS: [(&str, Verb); 3] = [
    ("ls m:/a", Verb::Ls),
    ("stat m:/a", Verb::Stat),
    ("fsync m:/a", Verb::Fsync),
];

#[test]
fn verbs_that_look_are_read(rt: HostRuntime) -> Result<(), Fail> {
    let alloc = rt.alloc();
    for (line, verb) in LOOKS.iter() {
        assert!(rt; is_of_a(alloc, line, *verb)?, "at {line:?}");
    }
    Ok(())
}

// Whether a line says that these bytes are written at the greatest offset.
fn is_write(alloc: Global, line: &str, bytes: &[u8]) -> Result<bool, AllocError> {
    let bytes = Bytes::from_slice(alloc, bytes)?;
    let path = path_of_a(alloc)?;
    let write = Op::Write {
        path,
        offset: 18_446_744_073_709_551_615,
        bytes,
    };
    Ok(is_said(alloc, line, Some(write)))
}

fn is_trunc(alloc: Global, line: &str, size: u64) -> Result<bool, AllocError> {
    let path = path_of_a(alloc)?;
    Ok(is_said(alloc, line, Some(Op::Trunc { path, size })))
}

fn is_read(alloc: Global, line: &str, offset: u64, len: u64) -> Result<bool, AllocError> {
    let path = path_of_a(alloc)?;
    Ok(is_said(alloc, line, Some(Op::Read { path, offset, len })))
}

#[test]
fn verbs_of_content_are_read(rt: HostRuntime) -> Result<(), Fail> {
    let alloc = rt.alloc();
    let line = "write m:/a 18446744073709551615 006a4BFf";
    assert!(rt; is_write(alloc, line, b"\x00jK\xff")?);
    assert!(rt; is_trunc(alloc, "trunc m:/a 0", 0)?);
    assert!(rt; is_read(alloc, "read m:/a 10 65536", 10, 65_536)?);
    Ok(())
}

fn op_of_two(verb: Verb, from: Path, to: Path) -> Option<Op> {
    match verb {
        Verb::Link => Some(Op::Link { from, to }),
        Verb::Rename => Some(Op::Rename { from, to }),
        _ => None,
    }
}

// Whether a line says the operation of a verb from `m:/a` to `m:/`.
fn is_of_two(alloc: Global, line: &str, verb: Verb) -> Result<bool, AllocError> {
    let from = path_of_a(alloc)?;
    let to = root_of_m(alloc)?;
    Ok(is_said(alloc, line, op_of_two(verb, from, to)))
}

#[test]
fn verbs_of_two_paths_are_read(rt: HostRuntime) -> Result<(), Fail> {
    let alloc = rt.alloc();
    assert!(rt; is_of_two(alloc, "link m:/a m:/", Verb::Link)?);
    assert!(rt; is_of_two(alloc, "rename m:/a m:/", Verb::Rename)?);
    Ok(())
}

// Whether a line makes `b` of `a`.
fn is_copy(alloc: Global, line: &str, locked: bool) -> Result<bool, AllocError> {
    let source = Bytes::from_slice(alloc, b"a".as_slice())?;
    let copy = Bytes::from_slice(alloc, b"b".as_slice())?;
    let snap = Op::Snap {
        source,
        copy,
        locked,
    };
    Ok(is_said(alloc, line, Some(snap)))
}

// Whether a line says that a subvolume of this name is made, or goes.
fn is_subvol(alloc: Global, line: &str, name: &[u8]) -> Result<bool, AllocError> {
    let name = Bytes::from_slice(alloc, name)?;
    Ok(is_said(alloc, line, Some(Op::Subvol { name })))
}

fn is_delsub(alloc: Global, line: &str) -> bool {
    let name = Bytes::new(alloc);
    is_said(alloc, line, Some(Op::Delsub { name }))
}

#[test]
fn verbs_of_subvolumes_are_read(rt: HostRuntime) -> Result<(), Fail> {
    let alloc = rt.alloc();
    assert!(rt; is_subvol(alloc, "subvol a:", b"a:")?);
    assert!(rt; is_delsub(alloc, "delsub "));
    assert!(rt; is_copy(alloc, "snap a %62", false)?);
    assert!(rt; is_copy(alloc, "snap a b ro", true)?);
    Ok(())
}

#[test]
fn verbs_without_paths_are_read(rt: HostRuntime) {
    let alloc = rt.alloc();
    assert!(rt; is_said(alloc, "subs", Some(Op::Subs)));
    assert!(rt; is_said(alloc, "sync", Some(Op::Sync)));
    assert!(rt; is_said(alloc, "usage", Some(Op::Usage)));
    assert!(rt; is_said(alloc, "sweep 7", Some(Op::Sweep { steps: 7 })));
    assert!(rt; is_said(alloc, "barrier", None));
}

/// Words, each with its subvolume and its names.
static PATHS: [(&[u8], &[u8], &[&[u8]]); 7] = [
    (b"main:/", b"main", &[]),
    (b":/", b"", &[]),
    (b"a:/b/c", b"a", &[b"b", b"c"]),
    (b"a://", b"a", &[b"", b""]),
    (b"a:/b/", b"a", &[b"b", b""]),
    (b"a:/b:/c", b"a", &[b"b:", b"c"]),
    (
        b"%3a%00:/%2F\xc3%A9/%20~!%25",
        b":\x00",
        &[b"/\xc3\xa9", b" ~!%"],
    ),
];

// Whether a word is the path of these names.
fn is_path_of(alloc: Global, word: &[u8], sub: &[u8], names: &[&[u8]]) -> Result<bool, AllocError> {
    let path = path_of(alloc, sub, names)?;
    Ok(read_path(alloc, word) == Ok(path))
}

#[test]
fn paths_are_read(rt: HostRuntime) -> Result<(), Fail> {
    let alloc = rt.alloc();
    for (word, sub, names) in PATHS.iter() {
        assert!(rt; is_path_of(alloc, word, sub, names)?, "at {word:?}");
    }
    Ok(())
}

static BAD_PATHS: [&[u8]; 15] = [
    b"",
    b"main",
    b"main:",
    b"main:a/",
    b"a/b:/c",
    b"%3A/",
    b"ma%in:/",
    b"main:/a/%",
    b"main:/%4",
    b"main:/%4g",
    b"main:/%+4",
    b"main:/a\x7f",
    b"main:/\x1f",
    b"main:/\t",
    b"main:/\x00",
];

// Why a word is no path.
fn fault_of_path(alloc: Global, word: &[u8]) -> Option<ReadFault> {
    read_path(alloc, word).err()
}

#[test]
fn bad_paths_are_refused(rt: HostRuntime) {
    let alloc = rt.alloc();
    for word in BAD_PATHS.iter() {
        assert!(rt;
            fault_of_path(alloc, word) == Some(ReadFault::Faulty(LineFault::BadPath)),
            "at {word:?}"
        );
    }
}

// How many bytes so many zeros write.
fn zeros_write(alloc: Global, count: usize) -> Result<usize, ReadFault> {
    let digits = vec![in alloc; b'0'; count]?;
    let bytes = read_bytes(alloc, &digits)?;
    Ok(bytes.len())
}

#[test]
fn writes_have_up_to_65536_bytes(rt: HostRuntime) {
    let alloc = rt.alloc();
    let too_long = Err(ReadFault::Faulty(LineFault::BadArgs));
    assert!(rt; zeros_write(alloc, 131_072) == Ok(65_536));
    assert!(rt; zeros_write(alloc, 131_074) == too_long);
}
