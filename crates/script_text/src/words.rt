ghost use Rattle.std.specs.Prelude.{◌≡◌, ℕ, List, IfSome, IfNone, IfOk, IfErr, codes};
ghost use Rattle.hex.specs.Hex.{decode_of};
ghost use Rattle.script_text.specs.Arguments.Kind.{BytesWord, LengthWord, LockedWord, NumberWord, PathWord};
ghost use Rattle.script_text.specs.Readings.{IsFaultOfHex, IsFaultOfNames, IsFaultOfWord};
ghost use Rattle.script_text.specs.Words.{IsPathCut, SaysBytes, SaysLength, SaysNames, SaysNumber, SaysPath};

use crate::cuts::{behind, cut_at};
use crate::names::read_name;
use crate::reading::{BAD_ARGS, BAD_PATH, ReadFault};
use hex::FromHexError;
use plain_forest::Path;
use std::alloc::Global;
use vol_types::{Bytes, NameList};

/// The most bytes that are read or written at once.
const MAX_BYTES: usize = 65_536;

/// The most hex digits that write so many bytes.
const MAX_DIGITS: usize = 131_072;

/// The path that a word stands for. An `Err` is a bad path, or out of memory. It costs time linear in the word.
pub fn read_path(alloc: Global, word: &[u8]) -> Result<Path, ReadFault>
    ensures ok { IfOk result (SaysPath word.now) }
    ensures err { IfErr result (IsFaultOfWord PathWord word.now) }
{
    match cut_path(word) {
        Some((sub, names)) => {
            let sub = read_name(alloc, sub)?;
            let names = read_names(alloc, names)?;
            Ok(Path { sub, names })
        }
        None => Err(BAD_PATH),
    }
}

// What stands before the first colon, and behind it and a slash.
fn cut_path(word: &[u8]) -> Option<(&[u8], &[u8])>
    ensures found { IfSome result (λ parts. IsPathCut word.now parts.0.now parts.1.now) }
    ensures none { IfNone result ((sub names : List ℕ) → ¬ IsPathCut word.now sub names) }
{
    let (sub, rest) = cut_at(b':', word);
    let names = behind(b'/', rest?)?;
    Some((sub, names))
}

// The names that a text with `/` between them stands for.
fn read_names(alloc: Global, text: &[u8]) -> Result<NameList, ReadFault>
    ensures ok { IfOk result (SaysNames text.now) }
    ensures err { IfErr result (IsFaultOfNames text.now) }
{
    let mut names = NameList::new(alloc);
    if text.is_empty() {
        return Ok(names);
    }
    let mut rest = text;
    loop {
        let (word, later) = cut_at(b'/', rest);
        names.push(read_name(alloc, word)?)?;
        match later {
            Some(later) => rest = later,
            None => return Ok(names),
        }
    }
}

/// The number that a word stands for. It takes no memory.
pub(crate) fn number_of(word: &[u8]) -> Option<u64>
    ensures found { IfSome result (SaysNumber word.now) }
    ensures none { IfNone result ((number : ℕ) → ¬ SaysNumber word.now number) }
{
    match std::str::from_utf8(word) {
        Ok(text) => command_line::read_number(text),
        Err(_) => None,
    }
}

// The number of bytes to be read that a word stands for.
fn length_of(word: &[u8]) -> Option<u64>
    ensures found { IfSome result (SaysLength word.now) }
    ensures none { IfNone result ((number : ℕ) → ¬ SaysLength word.now number) }
{
    let length = number_of(word)?;
    if length <= MAX_BYTES as u64 {
        Some(length)
    } else {
        None
    }
}

/// The number that a word stands for. It takes no memory.
pub(crate) fn read_number(word: &[u8]) -> Result<u64, ReadFault>
    ensures ok { IfOk result (SaysNumber word.now) }
    ensures err { IfErr result (IsFaultOfWord NumberWord word.now) }
{
    match number_of(word) {
        Some(number) => Ok(number),
        None => Err(BAD_ARGS),
    }
}

/// The number of bytes to be read that a word stands for. It takes no memory.
pub(crate) fn read_length(word: &[u8]) -> Result<u64, ReadFault>
    ensures ok { IfOk result (SaysLength word.now) }
    ensures err { IfErr result (IsFaultOfWord LengthWord word.now) }
{
    match length_of(word) {
        Some(length) => Ok(length),
        None => Err(BAD_ARGS),
    }
}

/// The bytes to be written that a word stands for, 65,536 at most. An `Err` is a bad argument: a word that isn't an even number of hex digits,
/// none or too many; or out of memory. It costs time linear in the word, and takes no memory where this is too long.
pub fn read_bytes(alloc: Global, word: &[u8]) -> Result<Bytes, ReadFault>
    ensures ok { IfOk result (SaysBytes word.now) }
    ensures err { IfErr result (IsFaultOfWord BytesWord word.now) }
{
    if word.is_empty() || word.len() > MAX_DIGITS {
        return Err(BAD_ARGS);
    }
    let bytes = decode(alloc, word)?;
    Ok(bytes)
}

// The bytes that a word writes in hex digits.
fn decode(alloc: Global, word: &[u8]) -> Result<Bytes, ReadFault>
    ensures ok { IfOk result (λ bytes. decode_of word.now ≡ Ok bytes) }
    ensures err { IfErr result (IsFaultOfHex word.now) }
{
    match hex::decode(alloc, word) {
        Ok(bytes) => Ok(Bytes::from(bytes)),
        Err(FromHexError::OutOfMemory) => Err(ReadFault::OutOfMemory),
        Err(_) => Err(BAD_ARGS),
    }
}

/// Nothing, where the word is `ro`.
pub(crate) fn read_locked(word: &[u8]) -> Result<(), ReadFault>
    ensures ok { IfOk result (λ _. word.now ≡ codes "ro") }
    ensures err { IfErr result (IsFaultOfWord LockedWord word.now) }
{
    if word == b"ro".as_slice() {
        Ok(())
    } else {
        Err(BAD_ARGS)
    }
}
