ghost use Rattle.std.specs.Prelude.{◌≡◌, IfErr, IfOk, Some, None, false, map, option_map};
ghost use Rattle.std.specs.List.{list_any};
ghost use Rattle.std.specs.Rc.{rc_str_bytes};
ghost use Rattle.clap.specs.Words.{app_of, first_value, found_of, rule_of};
ghost use Rattle.command_line.specs.Words.{is_stray};
ghost use Rattle.command_line.specs.Command.{format_app, option_named};
ghost use Rattle.command_line.specs.Requests.{format_of, format_with, number_or};

use crate::number::read_number;
use crate::request::{FormatRequest, WordsFault};
use clap::error::ErrorKind;
use clap::{Arg, ArgMatches, Command};
use std::alloc::{AllocError, Global};
use std::rc::RcStr;
use uuid::Uuid;

/// The number of blocks of the journal where none is given.
const DEFAULT_JOURNAL: u64 = 256;

/// The number of copies where none is given.
const DEFAULT_REPLICAS: u64 = 1;

// What the arguments after `format` ask for.
pub fn read_format<'a>(alloc: Global, words: &'a [RcStr]) -> Result<FormatRequest, WordsFault>
    ensures ok { IfOk result (λ format. format_of (map rc_str_bytes words.now) ≡ Some format) }
    ensures usage { IfErr result (λ fault. fault ≡ WordsFault.Usage
        → format_of (map rc_str_bytes words.now) ≡ None) }
{
    if has_stray(words) {
        return Err(WordsFault::Usage);
    }
    let command = format_command(alloc)?;
    match command.try_get_matches_from(words) {
        Ok(matches) => read_matches(&matches).ok_or(WordsFault::Usage),
        Err(error) if error.kind() == ErrorKind::OutOfMemory => Err(WordsFault::NoMemory),
        Err(_) => Err(WordsFault::Usage),
    }
}

// Whether one of the arguments begins with a hyphen, but not with two hyphens and a name.
fn has_stray(words: &[RcStr]) -> bool
    ensures { result ≡ list_any (λ word. is_stray (rc_str_bytes word)) words.now }
{
    words.iter().any(|word| is_stray(word.as_str().as_bytes()))
}

// Whether the argument is `-`, `--`, or a hyphen and something else: clap takes `-` for a value, and `--` for the end of the
// options.
fn is_stray(word: &[u8]) -> bool
    ensures { result ≡ is_stray word.now }
{
    match word {
        [b'-'] | [b'-', b'-'] => true,
        [b'-', second, ..] => *second != b'-',
        _ => false,
    }
}

// The command `format` with its five options.
fn format_command<'a>(alloc: Global) -> Result<Command<'a>, AllocError>
    ensures { IfOk result (λ command. app_of command ≡ format_app) }
{
    Command::new(alloc, "format")
        .no_binary_name(true)
        .disable_help_flag(true)
        .arg(option_named(alloc, "id").required(true))?
        .arg(option_named(alloc, "blocks").required(true))?
        .arg(option_named(alloc, "journal"))?
        .arg(option_named(alloc, "data-replicas"))?
        .arg(option_named(alloc, "meta-replicas"))
}

// An option with a value, under its long name alone.
fn option_named<'a>(alloc: Global, name: &'a str) -> Arg<'a>
    ensures rule { rule_of result ≡ option_named name.entry.now }
    ensures local { result.global ≡ false }
{
    Arg::new(alloc, name).long(name)
}

// The request that the values of the options make.
fn read_matches(matches: &ArgMatches) -> Option<FormatRequest>
    ensures { result ≡ format_with (first_value (found_of matches.now)) }
{
    let id = Uuid::parse_str(matches.get_str("id")?).ok()?;
    Some(FormatRequest {
        id: id.into_bytes(),
        blocks: read_number(matches.get_str("blocks")?)?,
        journal: number_or(DEFAULT_JOURNAL, matches.get_str("journal"))?,
        data_replicas: number_or(DEFAULT_REPLICAS, matches.get_str("data-replicas"))?,
        meta_replicas: number_or(DEFAULT_REPLICAS, matches.get_str("meta-replicas"))?,
    })
}

// The number of the text, or the other one where there is no text.
fn number_or(otherwise: u64, text: Option<&str>) -> Option<u64>
    ensures { result ≡ number_or otherwise (option_map (λ s. s.now) text.entry) }
{
    match text {
        None => Some(otherwise),
        Some(text) => read_number(text),
    }
}
