ghost use Rattle.std.specs.Prelude.{◌≡◌, ◌≢◌, ◌<◌, ℕ, option_copied, IfSome, IfNone, IfOk, IfErr};
ghost use Rattle.std.specs.Fmt.{decimal};
ghost use Rattle.script_text.specs.Grammar.{IsFor};
ghost use Rattle.script_text.specs.Lines.{words_in, words_of};
ghost use Rattle.script_text.specs.Readings.{IsFaultOfText};

use crate::cuts::{behind, cut_at};
use crate::reading::{BAD_CLIENT, ReadFault};
use crate::words::number_of;

/// How many clients there are.
const CLIENTS: u64 = 16;

/// Which client a line is for, and what stands behind its number; client 0 where none is named. An `Err` is a bad client: a first word
/// that begins with `@` and isn't the number of one of the 16. It takes no memory.
pub fn read_client(line: &[u8]) -> Result<(u8, Option<&[u8]>), ReadFault>
    ensures ok { IfOk result (λ said. IsFor (words_of line.now) said.0 (words_in (option_copied said.1))) }
    ensures err { IfErr result (IsFaultOfText line.now) }
{
    let (first, rest) = cut_at(b' ', line);
    match behind(b'@', first) {
        Some(number) => match client_of(number) {
            Some(client) => Ok((client, rest)),
            None => Err(BAD_CLIENT),
        },
        None => Ok((0, Some(line))),
    }
}

// The client of this number.
fn client_of(number: &[u8]) -> Option<u8>
    ensures found { IfSome result (λ client. (client < 16) × (number.now ≡ decimal client)) }
    ensures none { IfNone result ((client : ℕ) → client < 16 → number.now ≢ decimal client) }
{
    let client = number_of(number)?;
    if client < CLIENTS {
        Some(client as u8)
    } else {
        None
    }
}
