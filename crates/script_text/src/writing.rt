ghost use Rattle.std.specs.Prelude.{◌≡◌, ◌++◌, codes, OnOk, OnErr, string_bytes};
ghost use Rattle.std.specs.List.{flat_map};
ghost use Rattle.script_text.specs.Replies.{escaped_byte, escaped, listed_name, sub_name, content_text, cause_word, reply_text, reply_line_of, end_line_of, word_of_fault};

use crate::names::is_byte_plain;
use crate::reading::LineFault;
use forest_ops::{Cause, Reply};
use std::alloc::{AllocError, Global};
use vol_types::{Bytes, FlaggedName};

/// Adds the line of a reply to what is printed: whose it is, which line of the script it answers, and its text. An `Err`
/// changes nothing. It costs time linear in the line.
#[tactic(auto, unfolding(crate::specs::Replies::reply_line_of))]
pub fn reply_line(
    alloc: Global,
    into: &mut Bytes,
    client: u8,
    line: u32,
    reply: &Reply,
) -> Result<(), AllocError>
    ensures ok { OnOk result (into.new ≡ into.old ++ reply_line_of client line reply.now) }
    ensures err { OnErr result (into.new ≡ into.old) }
{
    let mut text = format!(in alloc; "@{client} {line} ")?;
    push_reply(alloc, &mut text, reply)?;
    text.push_str("\n")?;
    into.extend_from_slice(text.as_bytes())
}

/// Adds the last line to what is printed: how many commits the session made, and the greatest number of them that was
/// acknowledged as durable. An `Err` changes nothing.
pub fn end_line(
    alloc: Global,
    into: &mut Bytes,
    commits: u64,
    synced: u64,
) -> Result<(), AllocError>
    ensures ok { OnOk result (into.new ≡ into.old ++ end_line_of commits synced) }
    ensures err { OnErr result (into.new ≡ into.old) }
{
    let text = format!(in alloc; "end commits {commits} synced {synced}\n")?;
    into.extend_from_slice(text.as_bytes())
}

/// The word for the fault of a line, as an error line has it.
pub fn fault_word(fault: LineFault) -> &'static str
    ensures { result.now ≡ word_of_fault fault }
{
    match fault {
        LineFault::BadVerb => "bad-verb",
        LineFault::BadArgs => "bad-args",
        LineFault::BadPath => "bad-path",
        LineFault::BadClient => "bad-client",
    }
}

// Adds the text of a reply.
fn push_reply(alloc: Global, text: &mut String, reply: &Reply) -> Result<(), AllocError>
    ensures { OnOk result (string_bytes text.new ≡ string_bytes text.old ++ reply_text reply.now) }
{
    match reply {
        Reply::Okay => text.push_str("ok"),
        Reply::More(size) => write!(text, "more {size}"),
        Reply::Synced(count) => write!(text, "ok {count}"),
        Reply::Content(bytes) => push_content(alloc, text, bytes.as_slice()),
        Reply::List(names) => push_listing(text, names.as_slice()),
        Reply::File {
            number,
            size,
            links,
        } => write!(text, "file {number} {size} {links}"),
        Reply::Dir { number, entries } => write!(text, "dir {number} {entries}"),
        Reply::SubNames(names) => push_subs(text, names.as_slice()),
        Reply::Used(blocks) => write!(text, "usage {blocks}"),
        Reply::Refused(cause) => push_refusal(text, *cause),
        Reply::NoSpace(short) => write!(text, "err no-space need {}", short.need),
        Reply::DeviceFault(dev) => write!(text, "err device {dev}"),
        Reply::DataLost(lost) => write!(text, "err data-lost {}", lost.block),
        Reply::Halted { dev, .. } => write!(text, "err halted {dev}"),
        Reply::Spent => text.push_str("err spent"),
        Reply::NoMemory => text.push_str("err no-memory"),
    }
}

// Adds that the forest refuses an operation, and why.
fn push_refusal(text: &mut String, cause: Cause) -> Result<(), AllocError>
    ensures { OnOk result (string_bytes text.new ≡ string_bytes text.old ++ codes "err " ++ cause_word
        cause) }
{
    text.push_str("err ")?;
    text.push_str(word_of(cause))
}

// The word for a cause.
fn word_of(cause: Cause) -> &'static str
    ensures { result.now ≡ cause_word cause }
{
    match cause {
        Cause::BadPath => "bad-path",
        Cause::Cross => "cross",
        Cause::NoSubvolume => "no-subvolume",
        Cause::NotFound => "not-found",
        Cause::NotDir => "not-dir",
        Cause::IsDir => "is-dir",
        Cause::ReadOnly => "read-only",
        Cause::Exists => "exists",
        Cause::NotEmpty => "not-empty",
        Cause::Loop => "loop",
        Cause::Crowded => "crowded",
        Cause::LinksFull => "links-full",
        Cause::TooBig => "too-big",
        Cause::IdsSpent => "ids-spent",
        Cause::TooMany => "too-many",
    }
}

// Adds bytes of a file.
fn push_content(alloc: Global, text: &mut String, bytes: &[u8]) -> Result<(), AllocError>
    ensures { OnOk result (string_bytes text.new ≡ string_bytes text.old ++ codes "data" ++ content_text
        bytes.now) }
{
    text.push_str("data")?;
    if bytes.is_empty() {
        return Ok(());
    }
    text.push_str(" ")?;
    let digits = hex::encode(alloc, bytes)?;
    text.push_str(digits.as_str())
}

// Adds a listing of a directory's names.
fn push_listing(text: &mut String, names: &[FlaggedName]) -> Result<(), AllocError>
    ensures { OnOk result (string_bytes text.new ≡ string_bytes text.old ++ codes "list" ++ flat_map
        listed_name names.now) }
{
    text.push_str("list")?;
    for entry in names {
        push_listed(text, entry)?;
    }
    Ok(())
}

// Adds a name of a listing.
fn push_listed(text: &mut String, entry: &FlaggedName) -> Result<(), AllocError>
    ensures { OnOk result (string_bytes text.new ≡ string_bytes text.old ++ listed_name entry.now) }
{
    text.push_str(" ")?;
    push_escaped(text, entry.name.as_slice())?;
    if entry.flag == 2 {
        text.push_str("/")?;
    }
    Ok(())
}

// Adds the names of the subvolumes.
fn push_subs(text: &mut String, names: &[FlaggedName]) -> Result<(), AllocError>
    ensures { OnOk result (string_bytes text.new ≡ string_bytes text.old ++ codes "subs" ++ flat_map
        sub_name names.now) }
{
    text.push_str("subs")?;
    for entry in names {
        push_sub(text, entry)?;
    }
    Ok(())
}

// Adds the name of a subvolume.
fn push_sub(text: &mut String, entry: &FlaggedName) -> Result<(), AllocError>
    ensures { OnOk result (string_bytes text.new ≡ string_bytes text.old ++ sub_name entry.now) }
{
    if entry.flag == 1 {
        text.push_str(" ro:")?;
    } else {
        text.push_str(" rw:")?;
    }
    push_escaped(text, entry.name.as_slice())
}

// Adds a name as it is printed.
fn push_escaped(text: &mut String, name: &[u8]) -> Result<(), AllocError>
    ensures { OnOk result (string_bytes text.new ≡ string_bytes text.old ++ escaped name.now) }
{
    for byte in name {
        push_escaped_byte(text, *byte)?;
    }
    Ok(())
}

// Adds a byte of a name as it is printed.
fn push_escaped_byte(text: &mut String, byte: u8) -> Result<(), AllocError>
    ensures { OnOk result (string_bytes text.new ≡ string_bytes text.old ++ escaped_byte byte) }
{
    if is_byte_plain(byte) {
        text.push(char::from(byte))
    } else {
        write!(text, "%{byte:02X}")
    }
}
