ghost use Rattle.std.specs.Prelude.{◌≡◌, false};
ghost use Rattle.shell.specs.Outcome.{synced_by};
ghost use Rattle.shell.specs.Causes.{is_failure, is_no_memory};
ghost use Rattle.shell.specs.Phases.{tally_with};

use forest_ops::Reply;

/// What the replies of a run amount to.
#[derive(Clone, Copy)]
pub struct Tally {
    /// An operation was out of memory.
    pub lacks_memory: bool,
    /// A device failed, or the session had halted.
    pub has_failed: bool,
    /// The greatest number of commits that was acknowledged as durable.
    pub synced: u64,
}

impl Tally {
    /// That of no reply.
    pub fn new() -> Self
        ensures { result ≡ record { lacks_memory = false; has_failed = false; synced = 0 } }
    {
        Tally {
            lacks_memory: false,
            has_failed: false,
            synced: 0,
        }
    }

    /// That of one reply more.
    pub fn with(self, reply: &Reply) -> Self
        ensures { result ≡ tally_with self reply.now }
    {
        Tally {
            lacks_memory: self.lacks_memory || is_no_memory(reply),
            has_failed: self.has_failed || is_failure(reply),
            synced: self.synced.max(synced_by(reply)),
        }
    }
}

// Whether the reply says that it was out of memory.
fn is_no_memory(reply: &Reply) -> bool
    ensures { result ≡ is_no_memory reply.now }
{
    matches!(reply, Reply::NoMemory)
}

// Whether it says that a device failed, or that the session has halted since one did.
fn is_failure(reply: &Reply) -> bool
    ensures { result ≡ is_failure reply.now }
{
    matches!(reply, Reply::DeviceFault(_) | Reply::Halted { .. })
}

// How many commits it says are durable.
fn synced_by(reply: &Reply) -> u64
    ensures { result ≡ synced_by reply.now }
{
    match reply {
        Reply::Synced(count) => *count,
        _ => 0,
    }
}
