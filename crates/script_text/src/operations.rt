ghost use Rattle.std.specs.Prelude.{◌≡◌, option_copied, IfOk, IfErr};
ghost use Rattle.script_text.specs.Lines.{words_in};
ghost use Rattle.script_text.specs.Readings.{IsFaultOfWords, SaysBehind};
ghost use Rattle.script_text.specs.Verbs.{forms};

use crate::arguments::{
    read_a_name, read_a_number, read_a_path, read_content, read_copy, read_none, read_range,
    read_size, read_two_paths,
};
use crate::reading::ReadFault;
use crate::verb::Verb;
use forest_ops::Op;
use std::alloc::Global;

/// The operation that a verb with these words behind it asks for; none for a barrier. An `Err` is a fault of the words, as too many or too few
/// of them or one that isn't of the verb's form, or out of memory. It costs time linear in the words, and copies each once.
pub fn read_operation(
    alloc: Global,
    verb: Verb,
    words: Option<&[u8]>,
) -> Result<Option<Op>, ReadFault>
    ensures ok { IfOk result (SaysBehind verb (words_in (option_copied words.entry))) }
    ensures err { IfErr result (IsFaultOfWords (forms verb) (words_in (option_copied words.entry))) }
{
    match verb {
        Verb::Mkdir => {
            let path = read_a_path(alloc, words)?;
            Ok(Some(Op::Mkdir { path }))
        }
        Verb::Mkfile => {
            let path = read_a_path(alloc, words)?;
            Ok(Some(Op::Mkfile { path }))
        }
        Verb::Write => {
            let (path, offset, bytes) = read_content(alloc, words)?;
            Ok(Some(Op::Write {
                path,
                offset,
                bytes,
            }))
        }
        Verb::Trunc => {
            let (path, size) = read_size(alloc, words)?;
            Ok(Some(Op::Trunc { path, size }))
        }
        Verb::Read => {
            let (path, offset, len) = read_range(alloc, words)?;
            Ok(Some(Op::Read { path, offset, len }))
        }
        Verb::Ls => {
            let path = read_a_path(alloc, words)?;
            Ok(Some(Op::Ls { path }))
        }
        Verb::Stat => {
            let path = read_a_path(alloc, words)?;
            Ok(Some(Op::Stat { path }))
        }
        Verb::Link => {
            let (from, to) = read_two_paths(alloc, words)?;
            Ok(Some(Op::Link { from, to }))
        }
        Verb::Unlink => {
            let path = read_a_path(alloc, words)?;
            Ok(Some(Op::Unlink { path }))
        }
        Verb::Rmdir => {
            let path = read_a_path(alloc, words)?;
            Ok(Some(Op::Rmdir { path }))
        }
        Verb::Rename => {
            let (from, to) = read_two_paths(alloc, words)?;
            Ok(Some(Op::Rename { from, to }))
        }
        Verb::Subvol => {
            let name = read_a_name(alloc, words)?;
            Ok(Some(Op::Subvol { name }))
        }
        Verb::Snap => {
            let (source, copy, locked) = read_copy(alloc, words)?;
            Ok(Some(Op::Snap {
                source,
                copy,
                locked,
            }))
        }
        Verb::Delsub => {
            let name = read_a_name(alloc, words)?;
            Ok(Some(Op::Delsub { name }))
        }
        Verb::Subs => {
            read_none(words)?;
            Ok(Some(Op::Subs))
        }
        Verb::Sync => {
            read_none(words)?;
            Ok(Some(Op::Sync))
        }
        Verb::Fsync => {
            let path = read_a_path(alloc, words)?;
            Ok(Some(Op::Fsync { path }))
        }
        Verb::Sweep => {
            let steps = read_a_number(words)?;
            Ok(Some(Op::Sweep { steps }))
        }
        Verb::Usage => {
            read_none(words)?;
            Ok(Some(Op::Usage))
        }
        Verb::Barrier => {
            read_none(words)?;
            Ok(None)
        }
    }
}
