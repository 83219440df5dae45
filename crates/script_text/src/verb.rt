ghost use Rattle.std.specs.Prelude.{◌≡◌, ◌≢◌, ◌↔◌, IsTrue, IfSome, IfNone};
ghost use Rattle.script_text.specs.Verbs.{is_supported, verb_word};
ghost use Rattle.script_text.specs.declared.verb.Verb.{Verb as AVerb};

/// A verb of a script.
#[derive(Clone, Copy, PartialEq, Eq)]
pub enum Verb {
    Mkdir,
    Mkfile,
    Write,
    Trunc,
    Read,
    Ls,
    Stat,
    Link,
    Unlink,
    Rmdir,
    Rename,
    Subvol,
    Snap,
    Delsub,
    Subs,
    Sync,
    Fsync,
    Sweep,
    Usage,
    Barrier,
}

/// All verbs.
const VERBS: [Verb; 20] = [
    Verb::Mkdir,
    Verb::Mkfile,
    Verb::Write,
    Verb::Trunc,
    Verb::Read,
    Verb::Ls,
    Verb::Stat,
    Verb::Link,
    Verb::Unlink,
    Verb::Rmdir,
    Verb::Rename,
    Verb::Subvol,
    Verb::Snap,
    Verb::Delsub,
    Verb::Subs,
    Verb::Sync,
    Verb::Fsync,
    Verb::Sweep,
    Verb::Usage,
    Verb::Barrier,
];

impl Verb {
    // Its word in a script.
    fn word(self) -> &'static str
        ensures { result.now ≡ verb_word self }
    {
        match self {
            Verb::Mkdir => "mkdir",
            Verb::Mkfile => "mkfile",
            Verb::Write => "write",
            Verb::Trunc => "trunc",
            Verb::Read => "read",
            Verb::Ls => "ls",
            Verb::Stat => "stat",
            Verb::Link => "link",
            Verb::Unlink => "unlink",
            Verb::Rmdir => "rmdir",
            Verb::Rename => "rename",
            Verb::Subvol => "subvol",
            Verb::Snap => "snap",
            Verb::Delsub => "delsub",
            Verb::Subs => "subs",
            Verb::Sync => "sync",
            Verb::Fsync => "fsync",
            Verb::Sweep => "sweep",
            Verb::Usage => "usage",
            Verb::Barrier => "barrier",
        }
    }

    // Whether the program runs it.
    fn is_supported(self) -> bool
        ensures { result ≡ is_supported self }
    {
        match self {
            Verb::Write | Verb::Trunc | Verb::Read => false,
            Verb::Sweep | Verb::Usage => false,
            _ => true,
        }
    }

    // Whether it is what the word says.
    fn is_word(self, word: &[u8]) -> bool
        ensures { IsTrue result ↔ (word.now ≡ verb_word self) }
    {
        self.word().as_bytes() == word
    }

    /// The verb that a word is, among all verbs. It costs one comparison for each verb.
    pub fn among_all(word: &[u8]) -> Option<Self>
        ensures found { IfSome result (λ verb. word.now ≡ verb_word verb) }
        ensures none { IfNone result ((verb : AVerb) → word.now ≢ verb_word verb) }
    {
        for verb in VERBS {
            if verb.is_word(word) {
                return Some(verb);
            }
        }
        None
    }

    /// The verb that a word is, among those that the program runs.
    pub(crate) fn of_word(word: &[u8]) -> Option<Self>
        ensures found { IfSome result (λ verb. word.now ≡ verb_word verb) }
        ensures supported { IfSome result (λ verb. IsTrue (is_supported verb)) }
        ensures none { IfNone result ((verb : AVerb) → IsTrue (is_supported verb) → word.now ≢ verb_word verb) }
    {
        let verb = Verb::among_all(word)?;
        if verb.is_supported() {
            Some(verb)
        } else {
            None
        }
    }
}
