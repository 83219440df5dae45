ghost use Rattle.std.specs.Prelude.{◌≡◌, ◌<◌, ◌≤◌, [], ◌∷◌, is_some, length, map, option_map, IfSome};
ghost use Rattle.std.specs.Rc.{rc_str_bytes};
ghost use Rattle.bvol.specs.Arguments.{asks_help, first_dashes, has_help, is_dashes, is_help, is_help_word, words_and_files};

use crate::help::{FORMAT_HELP, HELP, INFO_HELP, RUN_HELP, VERSION};
use file_devices::MOST_DEVICES;
use std::rc::RcStr;

/// The text that the arguments ask for, where they ask for help or for the version.
pub fn help_for(args: &[RcStr]) -> Option<&'static str>
    ensures { is_some result ≡ asks_help (map rc_str_bytes args.now) }
{
    match args {
        [only] => help_alone(only),
        [first, second] => help_by(first, second),
        _ => None,
    }
}

// The text that an argument asks for alone.
fn help_alone(only: &RcStr) -> Option<&'static str>
    ensures { is_some result ≡ asks_help (rc_str_bytes only.now ∷ []) }
{
    if is_help_word(only) {
        return Some(HELP);
    }
    if only.as_str() == "--version" {
        return Some(VERSION);
    }
    None
}

// The text that two arguments ask for.
fn help_by(first: &RcStr, second: &RcStr) -> Option<&'static str>
    ensures { is_some result ≡ asks_help (rc_str_bytes first.now ∷ rc_str_bytes second.now ∷ []) }
{
    if is_help(second) {
        return help_of(first);
    }
    if is_help_word(first) {
        return help_of(second);
    }
    None
}

// Whether the argument asks for help, before a command, after it or alone.
fn is_help(arg: &RcStr) -> bool
    ensures { result ≡ is_help (rc_str_bytes arg.now) }
{
    arg.as_str() == "--help" || arg.as_str() == "-h"
}

// Whether it does so before a command or alone.
fn is_help_word(arg: &RcStr) -> bool
    ensures { result ≡ is_help_word (rc_str_bytes arg.now) }
{
    is_help(arg) || arg.as_str() == "help"
}

// The text on a command.
fn help_of(command: &RcStr) -> Option<&'static str>
    ensures { is_some result ≡ has_help (rc_str_bytes command.now) }
{
    match command.as_str() {
        "format" => Some(FORMAT_HELP),
        "run" => Some(RUN_HELP),
        "info" => Some(INFO_HELP),
        _ => None,
    }
}

/// The arguments before the first `--`, and the image files after it. None where there is no `--`, no file, or more files
/// than there can be devices.
pub fn words_and_paths(args: &[RcStr]) -> Option<(&[RcStr], &[RcStr])>
    ensures parts { option_map (λ parts. (
      map rc_str_bytes parts.0.now,
      map rc_str_bytes
          parts.1.now,
    )) result ≡ words_and_files (map rc_str_bytes args.now) }
    ensures files { IfSome result (λ parts. (1 ≤ length parts.1.now) × (length parts.1.now ≤ 8)) }
{
    let dashes = first_dashes(args)?;
    let paths = &args[dashes + 1..];
    if paths.is_empty() || paths.len() > MOST_DEVICES {
        return None;
    }
    Some((&args[..dashes], paths))
}

// The place of the first `--`.
fn first_dashes(args: &[RcStr]) -> Option<usize>
    ensures place { result ≡ first_dashes (map rc_str_bytes args.now) }
    ensures within { IfSome result (λ place. place < length args.now) }
{
    for place in 0..args.len() {
        if is_dashes(&args[place]) {
            return Some(place);
        }
    }
    None
}

// Whether the argument is `--`.
fn is_dashes(arg: &RcStr) -> bool
    ensures { result ≡ is_dashes (rc_str_bytes arg.now) }
{
    arg.as_str() == "--"
}
