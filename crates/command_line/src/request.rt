ghost use Rattle.std.specs.Prelude.{◌≡◌, IfErr, IfOk, Some, None, map};
ghost use Rattle.std.specs.Rc.{rc_str_bytes};
ghost use Rattle.command_line.specs.Requests.{request_of, without_options};

use crate::format::read_format;
use std::alloc::{AllocError, Global};
use std::rc::RcStr;

/// What the arguments ask for.
#[derive(Clone, Copy, PartialEq, Eq)]
pub enum Request {
    /// To run the script on standard input.
    Run,

    /// To make a new volume.
    Format(FormatRequest),

    /// To say what the images hold.
    Info,
}

/// A new volume, as it is asked for. No number is judged against the devices.
#[derive(Clone, Copy, PartialEq, Eq)]
pub struct FormatRequest {
    /// The volume's id.
    pub id: [u8; 16],

    /// The number of blocks of each device.
    pub blocks: u64,

    /// The number of blocks of the journal.
    pub journal: u64,

    /// The number of copies of each extent of data.
    pub data_replicas: u64,

    /// The number of copies of each node of a tree.
    pub meta_replicas: u64,
}

/// Why the arguments ask for nothing.
#[derive(Clone, Copy, PartialEq, Eq)]
pub enum WordsFault {
    /// The arguments are no request.
    Usage,

    /// Memory ran out before it was known what they ask for.
    NoMemory,
}

impl From<AllocError> for WordsFault {
    ghost use Rattle.std.specs.Prelude.{◌≡◌};
    ghost use Rattle.command_line.specs.declared.request.WordsFault.TheVariants.{NoMemory};

    ghost from_gives = { λ _ fault. fault ≡ NoMemory };

    fn from(_: AllocError) -> Self {
        WordsFault::NoMemory
    }
}

/// Reads the arguments before the first `--`: a command and its options.
pub fn read_words(alloc: Global, words: &[RcStr]) -> Result<Request, WordsFault>
    ensures ok { IfOk result (λ request. request_of (map rc_str_bytes words.now) ≡ Some request) }
    ensures usage { IfErr result (λ fault. fault ≡ WordsFault.Usage
        → request_of (map rc_str_bytes words.now) ≡ None) }
{
    let (command, options) = words.split_first().ok_or(WordsFault::Usage)?;
    match command.as_str() {
        "run" => without_options(options, Request::Run),
        "info" => without_options(options, Request::Info),
        "format" => Ok(Request::Format(read_format(alloc, options)?)),
        _ => Err(WordsFault::Usage),
    }
}

// What the arguments after a command ask for that has no options.
fn without_options(options: &[RcStr], request: Request) -> Result<Request, WordsFault>
    ensures ok { IfOk result (λ asked. without_options request (map rc_str_bytes options.now)
        ≡ Some asked) }
    ensures usage { IfErr result (λ fault. fault ≡ WordsFault.Usage
        → without_options request (map rc_str_bytes options.now) ≡ None) }
{
    if options.is_empty() {
        Ok(request)
    } else {
        Err(WordsFault::Usage)
    }
}
