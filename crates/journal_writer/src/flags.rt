ghost use Rattle.std.specs.Prelude.{◌≡◌, ◌≤◌, ◌<◌, IfSome, length};
ghost use Rattle.journal_writer.specs.Writers.{first_flag, with_flags};

/// The number of the first flag that is set.
pub(crate) fn first_flag(flags: &[bool]) -> Option<u8>
    requires { length flags.now ≤ 8 }
    ensures first { result ≡ first_flag 0 flags.now }
    ensures within { IfSome result (λ flag. flag < length flags.now) }
{
    let mut first = None;
    let mut at = flags.len();
    while at > 0 {
        at -= 1;
        if flags[at] {
            first = Some(at as u8);
        }
    }
    first
}

/// Sets the first so many flags.
pub(crate) fn set_flags(flags: &mut [bool; 8], count: u8)
    requires { count ≤ 8 }
    ensures { flags.new ≡ with_flags count flags.old }
{
    for flag in 0..count {
        flags[usize::from(flag)] = true;
    }
}
