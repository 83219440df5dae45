ghost use Rattle.std.specs.Prelude.{◌≡◌, ◌^◌, ◌<◌, length, IfOk, IfErr};
ghost use Rattle.script_text.specs.Grammar.{Says};
ghost use Rattle.script_text.specs.Lines.{lines_of};
ghost use Rattle.script_text.specs.Readings.{IsFaultOfLine, IsFaultOfText};
ghost use Rattle.script_text.specs.Scripts.{IsLine, IsScript, IsFaultOf};

use crate::client::read_client;
use crate::cuts::{cut_at, cut_line, is_line_skipped};
use crate::operations::read_operation;
use crate::verb::Verb;
use forest_ops::Op;
use std::alloc::{AllocError, AllocFailed, Global};
use vol_types::Listing;

/// A line of a script that is to be run.
#[derive(PartialEq, Eq, Drop)]
pub struct Line {
    /// Its number, counted from 1 over all lines of the text.
    pub line: u32,
    /// Whose operation it is, below 16. At a barrier it counts for nothing.
    pub client: u8,
    /// The operation; none for a barrier.
    pub op: Option<Op>,
}

/// The lines of a script in their order.
pub type Script = Listing<Line>;

/// Why a line can't be run.
#[derive(Clone, Copy, PartialEq, Eq)]
pub enum LineFault {
    /// It has no verb that the program runs.
    BadVerb,
    /// Its words are too few or too many, or an argument is no number, no length, no bytes, or not `ro`.
    BadArgs,
    /// An argument is no path or no name.
    BadPath,
    /// Its first word begins with `@` and is none of `@0` to `@15`.
    BadClient,
}

/// Why a text is no script.
#[derive(Clone, Copy, PartialEq, Eq)]
pub enum ScriptFault {
    /// The first line that can't be run, by its number, and why.
    Bad { line: u32, cause: LineFault },
    /// Out of memory.
    NoMemory,
}

/// Why a part of a line can't be read.
#[derive(Clone, Copy, PartialEq, Eq)]
pub enum ReadFault {
    /// The line has the fault.
    Faulty(LineFault),
    /// Out of memory.
    OutOfMemory,
}

/// Words that are too few or too many, or an argument that is not what it should be.
pub(crate) const BAD_ARGS: ReadFault = ReadFault::Faulty(LineFault::BadArgs);

/// An argument that is no path or no name.
pub(crate) const BAD_PATH: ReadFault = ReadFault::Faulty(LineFault::BadPath);

/// No verb that the program runs.
const BAD_VERB: ReadFault = ReadFault::Faulty(LineFault::BadVerb);

/// A first word that begins with `@` and names no client.
pub(crate) const BAD_CLIENT: ReadFault = ReadFault::Faulty(LineFault::BadClient);

impl From<AllocError> for ReadFault {
    ghost use Rattle.script_text.specs.declared.reading.ReadFault.TheVariants.{OutOfMemory};

    ghost from_gives = { λ _ fault. fault ≡ OutOfMemory };

    fn from(_error: AllocError) -> Self {
        ReadFault::OutOfMemory
    }
}

impl<T: Drop> From<AllocFailed<T>> for ReadFault {
    ghost use Rattle.script_text.specs.declared.reading.ReadFault.TheVariants.{OutOfMemory};

    ghost from_gives = { λ _ fault. fault ≡ OutOfMemory };

    fn from(_error: AllocFailed<T>) -> Self {
        ReadFault::OutOfMemory
    }
}

impl<T: Drop> From<AllocFailed<T>> for ScriptFault {
    ghost use Rattle.script_text.specs.declared.reading.ScriptFault.TheVariants.{NoMemory};

    ghost from_gives = { λ _ fault. fault ≡ NoMemory };

    fn from(_error: AllocFailed<T>) -> Self {
        ScriptFault::NoMemory
    }
}

/// The script that stands in a text. It costs time linear in the text, and copies each name, and each byte that is to be
/// written, once.
pub fn read_script(alloc: Global, text: &[u8]) -> Result<Script, ScriptFault>
    requires { length text.now < 2 ^ 32 }
    ensures ok { IfOk result (IsScript (lines_of text.now)) }
    ensures err { IfErr result (IsFaultOf (lines_of text.now)) }
{
    let mut script = Script::new(alloc);
    let mut rest = text;
    let mut number = 0;
    while !rest.is_empty() {
        let (line, later) = cut_line(rest);
        number += 1;
        if !is_line_skipped(line) {
            script.push(read_line(alloc, number, line)?)?;
        }
        rest = later;
    }
    Ok(script)
}

// The line of this number.
fn read_line(alloc: Global, number: u32, text: &[u8]) -> Result<Line, ScriptFault>
    ensures ok { IfOk result (IsLine number text.now) }
    ensures err { IfErr result (IsFaultOfLine number text.now) }
{
    match read_words(alloc, text) {
        Ok((client, op)) => Ok(Line {
            line: number,
            client,
            op,
        }),
        Err(ReadFault::Faulty(cause)) => Err(ScriptFault::Bad {
            line: number,
            cause,
        }),
        Err(ReadFault::OutOfMemory) => Err(ScriptFault::NoMemory),
    }
}

// Whom the line is for, and what it says to do.
fn read_words(alloc: Global, text: &[u8]) -> Result<(u8, Option<Op>), ReadFault>
    ensures ok { IfOk result (λ said. Says text.now said.0 said.1) }
    ensures err { IfErr result (IsFaultOfText text.now) }
{
    let (client, rest) = read_client(text)?;
    match rest {
        Some(rest) => {
            let (word, words) = cut_at(b' ', rest);
            match Verb::of_word(word) {
                Some(verb) => {
                    let op = read_operation(alloc, verb, words)?;
                    Ok((client, op))
                }
                None => Err(BAD_VERB),
            }
        }
        None => Err(BAD_VERB),
    }
}
