ghost use Rattle.std.specs.Prelude.{◌≡◌, ◌≢◌, [], ◌∷◌, length, option_copied, IfSome, IfNone, IfOk, IfErr};
ghost use Rattle.std.specs.List.{AllZip};
ghost use Rattle.script_text.specs.Arguments.{SaysArgument};
ghost use Rattle.script_text.specs.Arguments.Kind.{NameWord, BytesWord, LengthWord, LockedWord, NumberWord, PathWord};
ghost use Rattle.script_text.specs.Lines.{words_in};
ghost use Rattle.script_text.specs.Readings.{IsFaultOfWords};
ghost use Rattle.script_text.specs.Operations.{locked_word};

use crate::cuts::cut_at;
use crate::names::read_name;
use crate::reading::{BAD_ARGS, ReadFault};
use crate::words::{read_bytes, read_length, read_locked, read_number, read_path};
use plain_forest::Path;
use std::alloc::Global;
use vol_types::Bytes;

// The one word.
fn one(words: Option<&[u8]>) -> Option<&[u8]>
    ensures found { IfSome result (λ word. words_in (option_copied words.entry) ≡ word.now ∷ []) }
    ensures none { IfNone result (length (words_in (option_copied words.entry)) ≢ 1) }
{
    let (word, more) = cut_at(b' ', words?);
    match more {
        Some(_) => None,
        None => Some(word),
    }
}

// The two words.
fn two(words: Option<&[u8]>) -> Option<(&[u8], &[u8])>
    ensures found { IfSome result (λ pair. words_in (option_copied words.entry) ≡ pair.0.now ∷ pair.1.now ∷ []) }
    ensures none { IfNone result (length (words_in (option_copied words.entry)) ≢ 2) }
{
    let (first, more) = cut_at(b' ', words?);
    let second = one(more)?;
    Some((first, second))
}

// The three words.
fn three(words: Option<&[u8]>) -> Option<(&[u8], &[u8], &[u8])>
    ensures found { IfSome result (λ all. words_in (option_copied words.entry) ≡ all.0.now ∷ all.1.now ∷ all.2.now ∷ []) }
    ensures none { IfNone result (length (words_in (option_copied words.entry)) ≢ 3) }
{
    let (first, more) = cut_at(b' ', words?);
    let (second, third) = two(more)?;
    Some((first, second, third))
}

/// No words.
pub(crate) fn read_none(words: Option<&[u8]>) -> Result<(), ReadFault>
    ensures ok { IfOk result (λ _. AllZip SaysArgument (words_in (option_copied words.entry)) []) }
    ensures err { IfErr result (IsFaultOfWords ([] ∷ []) (words_in (option_copied words.entry))) }
{
    match words {
        None => Ok(()),
        Some(_) => Err(BAD_ARGS),
    }
}

/// A path.
pub(crate) fn read_a_path(alloc: Global, words: Option<&[u8]>) -> Result<Path, ReadFault>
    ensures ok { IfOk result (λ path. AllZip SaysArgument (words_in (option_copied words.entry))
        ((PathWord, path) ∷ [])) }
    ensures err { IfErr result (IsFaultOfWords ((PathWord ∷ []) ∷ [])
        (words_in (option_copied words.entry))) }
{
    match one(words) {
        Some(word) => read_path(alloc, word),
        None => Err(BAD_ARGS),
    }
}

/// A subvolume's name.
pub(crate) fn read_a_name(alloc: Global, words: Option<&[u8]>) -> Result<Bytes, ReadFault>
    ensures ok { IfOk result (λ name. AllZip SaysArgument (words_in (option_copied words.entry))
        ((NameWord, name) ∷ [])) }
    ensures err { IfErr result (IsFaultOfWords ((NameWord ∷ []) ∷ [])
        (words_in (option_copied words.entry))) }
{
    match one(words) {
        Some(word) => read_name(alloc, word),
        None => Err(BAD_ARGS),
    }
}

/// A number.
pub(crate) fn read_a_number(words: Option<&[u8]>) -> Result<u64, ReadFault>
    ensures ok { IfOk result (λ number. AllZip SaysArgument (words_in (option_copied words.entry))
        ((NumberWord, number) ∷ [])) }
    ensures err { IfErr result (IsFaultOfWords ((NumberWord ∷ []) ∷ [])
        (words_in (option_copied words.entry))) }
{
    match one(words) {
        Some(word) => read_number(word),
        None => Err(BAD_ARGS),
    }
}

/// Two paths.
pub(crate) fn read_two_paths(alloc: Global, words: Option<&[u8]>) -> Result<(Path, Path), ReadFault>
    ensures ok { IfOk result (λ paths. AllZip SaysArgument (words_in (option_copied words.entry))
        ((PathWord, paths.0) ∷ (PathWord, paths.1) ∷ [])) }
    ensures err { IfErr result (IsFaultOfWords ((PathWord ∷ PathWord ∷ []) ∷ [])
        (words_in (option_copied words.entry))) }
{
    match two(words) {
        Some((first, second)) => {
            let from = read_path(alloc, first)?;
            let to = read_path(alloc, second)?;
            Ok((from, to))
        }
        None => Err(BAD_ARGS),
    }
}

// Two names of subvolumes.
fn read_two_names(alloc: Global, words: Option<&[u8]>) -> Result<(Bytes, Bytes), ReadFault>
    ensures ok { IfOk result (λ names. AllZip SaysArgument (words_in (option_copied words.entry))
        ((NameWord, names.0) ∷ (NameWord, names.1) ∷ [])) }
    ensures err { IfErr result (IsFaultOfWords ((NameWord ∷ NameWord ∷ []) ∷ [])
        (words_in (option_copied words.entry))) }
{
    match two(words) {
        Some((first, second)) => {
            let source = read_name(alloc, first)?;
            let copy = read_name(alloc, second)?;
            Ok((source, copy))
        }
        None => Err(BAD_ARGS),
    }
}

/// A path and a size.
pub(crate) fn read_size(alloc: Global, words: Option<&[u8]>) -> Result<(Path, u64), ReadFault>
    ensures ok { IfOk result (λ said. AllZip SaysArgument (words_in (option_copied words.entry))
        ((PathWord, said.0) ∷ (NumberWord, said.1) ∷ [])) }
    ensures err { IfErr result (IsFaultOfWords ((PathWord ∷ NumberWord ∷ []) ∷ [])
        (words_in (option_copied words.entry))) }
{
    match two(words) {
        Some((word, digits)) => {
            let path = read_path(alloc, word)?;
            let size = read_number(digits)?;
            Ok((path, size))
        }
        None => Err(BAD_ARGS),
    }
}

/// A path, an offset and a number of bytes to be read.
pub(crate) fn read_range(alloc: Global, words: Option<&[u8]>) -> Result<(Path, u64, u64), ReadFault>
    ensures ok { IfOk result (λ said. AllZip SaysArgument (words_in (option_copied words.entry))
        ((PathWord, said.0) ∷ (NumberWord, said.1) ∷ (LengthWord, said.2) ∷ [])) }
    ensures err { IfErr result (IsFaultOfWords ((PathWord ∷ NumberWord ∷ LengthWord ∷ []) ∷ [])
        (words_in (option_copied words.entry))) }
{
    match three(words) {
        Some((first, second, third)) => {
            let path = read_path(alloc, first)?;
            let offset = read_number(second)?;
            let length = read_length(third)?;
            Ok((path, offset, length))
        }
        None => Err(BAD_ARGS),
    }
}

/// A path, an offset and bytes to be written.
pub(crate) fn read_content(
    alloc: Global,
    words: Option<&[u8]>,
) -> Result<(Path, u64, Bytes), ReadFault>
    ensures ok { IfOk result (λ said. AllZip SaysArgument (words_in (option_copied words.entry))
        ((PathWord, said.0) ∷ (NumberWord, said.1) ∷ (BytesWord, said.2) ∷ [])) }
    ensures err { IfErr result (IsFaultOfWords ((PathWord ∷ NumberWord ∷ BytesWord ∷ []) ∷ [])
        (words_in (option_copied words.entry))) }
{
    match three(words) {
        Some((first, second, third)) => {
            let path = read_path(alloc, first)?;
            let offset = read_number(second)?;
            let bytes = read_bytes(alloc, third)?;
            Ok((path, offset, bytes))
        }
        None => Err(BAD_ARGS),
    }
}

/// A subvolume's name, that of its copy, and whether the copy may only be read.
pub(crate) fn read_copy(
    alloc: Global,
    words: Option<&[u8]>,
) -> Result<(Bytes, Bytes, bool), ReadFault>
    ensures ok { IfOk result (λ said. AllZip SaysArgument (words_in (option_copied words.entry))
        ((NameWord, said.0) ∷ (NameWord, said.1) ∷ locked_word said.2)) }
    ensures err { IfErr result (IsFaultOfWords ((NameWord ∷ NameWord ∷ []) ∷ (NameWord ∷ NameWord ∷ LockedWord ∷ [])
        ∷ []) (words_in (option_copied words.entry))) }
{
    match three(words) {
        Some((first, second, third)) => {
            let source = read_name(alloc, first)?;
            let copy = read_name(alloc, second)?;
            read_locked(third)?;
            Ok((source, copy, true))
        }
        None => {
            let (source, copy) = read_two_names(alloc, words)?;
            Ok((source, copy, false))
        }
    }
}
