ghost use Rattle.std.specs.Prelude.{◌≡◌, ◌≢◌, ◌<◌, ◌∷◌, ℕ, List, length, option_copied, IfSome, IfNone};
ghost use Rattle.script_text.specs.Lines.{IsCut, is_skipped, lines_of};

/// What stands before the first such byte, and what stands behind it; none where there is no such byte. It costs time
/// linear in what stands before it.
pub fn cut_at(byte: u8, text: &[u8]) -> (&[u8], Option<&[u8]>)
    ensures { IsCut byte text.now result.0.now (option_copied result.1) }
{
    for (at, found) in text.iter().enumerate() {
        if *found == byte {
            return (&text[..at], Some(&text[at + 1..]));
        }
    }
    (text, None)
}

/// The first line of a text, and what stands after it. It costs time linear in that line.
pub(crate) fn cut_line(text: &[u8]) -> (&[u8], &[u8])
    requires { 0 < length text.now }
    ensures lines { lines_of text.now ≡ result.0.now ∷ lines_of result.1.now }
    ensures shorter { length result.1.now < length text.now }
{
    let (line, rest) = cut_at(b'\n', text);
    match rest {
        Some(rest) => (line, rest),
        None => (line, b"".as_slice()),
    }
}

/// What stands behind a byte that the text begins with.
pub(crate) fn behind(byte: u8, text: &[u8]) -> Option<&[u8]>
    ensures found { IfSome result (λ rest. text.now ≡ byte ∷ rest.now) }
    ensures none { IfNone result ((rest : List ℕ) → text.now ≢ byte ∷ rest) }
{
    let (first, rest) = text.split_first()?;
    if *first == byte { Some(rest) } else { None }
}

/// Whether the line says nothing.
pub fn is_line_skipped(line: &[u8]) -> bool
    ensures { result ≡ is_skipped line.now }
{
    match line {
        [] => true,
        [first, ..] => *first == b'#',
    }
}
