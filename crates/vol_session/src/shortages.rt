use std::marker::Model;
use vol_core::{Answer, Refusal};

/// Whether a commit was refused for want of room since the last checkpoint, and whether a checkpoint that met such a refusal is still without a further try. None
/// but a session says so.
#[derive(Drop)]
pub(crate) struct Shortages {
    unmet: bool,
    untried: bool,
}

impl Model for Shortages {
    ghost use Rattle.vol_session.specs.Shortages.{ShortageState};

    ghost Value = { ShortageState };

    ghost view = { λ shortages. record { unmet = shortages.unmet; untried = shortages.untried } };
}

impl Shortages {
    ghost use Rattle.std.specs.Prelude.{◌≡◌};
    ghost use Rattle.vol_session.specs.Shortages.{after_checkpoint, after_commit, met_at_rest, no_shortage};

    /// That of a session that has made no commit.
    pub(crate) fn none() -> Self
        ensures { result ≡ no_shortage }
    {
        Shortages {
            unmet: false,
            untried: false,
        }
    }

    /// A commit was tried, and was refused for want of room or not.
    pub(crate) fn count_commit(&mut self, lacked: bool)
        ensures { self.new ≡ after_commit lacked self.old }
    {
        self.unmet = self.unmet || lacked;
        self.untried = false;
    }

    /// A checkpoint came to its end, or ended early.
    pub(crate) fn count_checkpoint(&mut self, ended: bool)
        ensures { self.new ≡ after_checkpoint ended self.old }
    {
        self.untried = ended && (self.unmet || self.untried);
        self.unmet = false;
    }

    /// Both works rest, so that a checkpoint would do nothing.
    pub(crate) fn count_rest(&mut self)
        ensures { self.new ≡ met_at_rest self.old }
    {
        self.unmet = false;
    }
}

ghost use Rattle.std.specs.Prelude.{◌≡◌};
ghost use Rattle.vol_session.specs.Shortages.{lacks_room, may_be_helped};

/// Whether a commit that is answered so may be made after a checkpoint.
pub fn may_be_helped(answer: &Answer) -> bool
    ensures { result ≡ may_be_helped answer.now }
{
    match answer {
        Answer::Refused(refusal) => lacks_room(refusal),
        _ => false,
    }
}

// Whether a checkpoint may make the room that a refused commit lacks: in the ring, or in buckets, where it would free some.
fn lacks_room(refusal: &Refusal) -> bool
    ensures { result ≡ lacks_room refusal.now }
{
    match refusal {
        Refusal::RingFull(_) => true,
        Refusal::NoSpace(none) => !none.idle,
        _ => false,
    }
}
