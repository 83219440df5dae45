ghost use Rattle.std.specs.Prelude.{◌≡◌, ◌≢◌, ◌∷◌, ℕ, List, IsTrue, IfSome, IfNone, IfOk, IfErr};
ghost use Rattle.script_text.specs.Arguments.Kind.{NameWord};
ghost use Rattle.script_text.specs.Bytes.{is_plain, is_itself};
ghost use Rattle.script_text.specs.Readings.{IsFaultOfWord};
ghost use Rattle.script_text.specs.Words.{AreDigitsOf, BeginsWith, IsEscape, SaysName};

use crate::cuts::behind;
use crate::reading::{BAD_PATH, ReadFault};
use std::alloc::Global;
use vol_types::Bytes;

/// Whether the byte is printed as itself in a name.
pub(crate) fn is_byte_plain(byte: u8) -> bool
    ensures { result ≡ is_plain byte }
{
    byte.is_ascii_graphic() && byte != b'%'
}

// Whether the byte is read as itself in a name.
fn is_byte_itself(byte: u8) -> bool
    ensures { result ≡ is_itself byte }
{
    byte > 127 || is_byte_plain(byte) && byte != b'/'
}

// The byte that two hex digits of either case write.
fn hex_byte(high: u8, low: u8) -> Option<u8>
    ensures found { IfSome result (λ byte. AreDigitsOf byte high low) }
    ensures none { IfNone result ((byte : ℕ) → ¬ AreDigitsOf byte high low) }
{
    let first = char::from(high).to_digit(16)?;
    let second = char::from(low).to_digit(16)?;
    Some((16 * first + second) as u8)
}

// The byte that the first two characters write in hex digits, and what is left.
fn escaped_byte(text: &[u8]) -> Option<(u8, &[u8])>
    ensures found { IfSome result (λ first. IsEscape text.now first.0 first.1.now) }
    ensures none { IfNone result ((byte : ℕ) (rest : List ℕ) → ¬ IsEscape text.now byte rest) }
{
    let (high, more) = text.split_first()?;
    let (low, rest) = more.split_first()?;
    let byte = hex_byte(*high, *low)?;
    Some((byte, rest))
}

// The first byte, where it stands for itself, and what is left.
fn plain_byte(word: &[u8]) -> Option<(u8, &[u8])>
    ensures found { IfSome result (λ first. BeginsWith word.now first.0 first.1.now) }
    ensures none { IfNone result ((byte : ℕ) (rest : List ℕ) → IsTrue (is_itself byte) → word.now ≢ byte
        ∷ rest) }
{
    let (first, rest) = word.split_first()?;
    if is_byte_itself(*first) {
        Some((*first, rest))
    } else {
        None
    }
}

// The byte of a name that the word begins with, and what is left of the word.
fn first_byte(word: &[u8]) -> Option<(u8, &[u8])>
    ensures found { IfSome result (λ first. BeginsWith word.now first.0 first.1.now) }
    ensures none { IfNone result ((byte : ℕ) (rest : List ℕ) → ¬ BeginsWith word.now byte rest) }
{
    match behind(b'%', word) {
        Some(text) => escaped_byte(text),
        None => plain_byte(word),
    }
}

/// The name that a word stands for. It costs time linear in the word.
pub(crate) fn read_name(alloc: Global, word: &[u8]) -> Result<Bytes, ReadFault>
    ensures ok { IfOk result (SaysName word.now) }
    ensures err { IfErr result (IsFaultOfWord NameWord word.now) }
{
    let mut name = Bytes::new(alloc);
    let mut rest = word;
    while !rest.is_empty() {
        match first_byte(rest) {
            Some((byte, later)) => {
                name.push(byte)?;
                rest = later;
            }
            None => return Err(BAD_PATH),
        }
    }
    Ok(name)
}
