ghost use Rattle.std.specs.Prelude.{◌≡◌, ◌↔◌, ◌<◌, ◌^◌, ℕ, Some};
ghost use Rattle.std.specs.Fmt.{decimal};
ghost use Rattle.std.specs.List.{list_all};
ghost use Rattle.std.specs.Char.{is_ascii_digit};
ghost use Rattle.command_line.specs.Numbers.{is_numeral, number};

/// The number of the text in decimal digits, without a sign or a leading zero.
pub fn read_number(text: &str) -> Option<u64>
    ensures value { result ≡ number text.now }
    ensures numeral { (n : ℕ) → n < 2 ^ 64 → result ≡ Some n ↔ text.now ≡ decimal n }
{
    if is_numeral(text.as_bytes()) {
        text.parse::<u64>().ok()
    } else {
        None
    }
}

// Whether the text is decimal digits that don't begin with a needless zero.
fn is_numeral(text: &[u8]) -> bool
    ensures { result ≡ is_numeral text.now }
{
    match text {
        [] => false,
        [first] => first.is_ascii_digit(),
        [first, ..] => *first != b'0' && are_digits(text),
    }
}

// Whether all of the text is decimal digits.
fn are_digits(text: &[u8]) -> bool
    ensures { result ≡ list_all is_ascii_digit text.now }
{
    text.iter().all(|byte| byte.is_ascii_digit())
}
