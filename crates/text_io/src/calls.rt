ghost use Rattle.std.specs.Prelude.{◌≡◌, ◌<◌, ◌≤◌, ◌↔◌, IsErr, IfOk};
ghost use Rattle.vol_types.specs.Faults.{RoseBy};
ghost use Rattle.text_io.specs.Memory.{IsToFail, CountsCall, no_calls};

use std::alloc::{AllocError, Global};
use std::marker::Model;
use vol_types::Failed;

/// The calls of a source or a sink in memory.
#[derive(Drop)]
pub struct Calls {
    failing: Vec<u64>,
    most: usize,
    made: u64,
    failed: u64,
}

impl Model for Calls {
    ghost use Rattle.std.specs.Prelude.{◌<◌};
    ghost use Rattle.text_io.specs.Memory.{CallCounts};

    ghost Value = { CallCounts };

    ghost view = { λ calls. record { failing = calls.failing.items; most = calls.most; made = calls.made; failed = calls.failed } };

    ghost invariant = { λ calls. 0 < calls.most };
}

impl Calls {
    /// No call yet.
    pub fn new(alloc: Global, failing: &[u64]) -> Result<Self, AllocError>
        ensures { IfOk result (λ calls. calls ≡ no_calls failing.now) }
    {
        Ok(Calls {
            failing: failing.to_vec(alloc)?,
            most: usize::MAX,
            made: 0,
            failed: 0,
        })
    }

    /// The same calls, each of which moves no more bytes than this.
    pub fn in_pieces(self, most: usize) -> Self
        requires { 0 < most }
        ensures { result ≡ record self { most = most } }
    {
        Calls { most, ..self }
    }

    /// The most bytes that one moves.
    pub fn most(&self) -> usize
        ensures most { result ≡ self.now.most }
        ensures some { 0 < result }
    {
        self.most
    }

    /// How many there were.
    pub fn made(&self) -> u64
        ensures { result ≡ self.now.made }
    {
        self.made
    }

    /// How many of them failed.
    pub fn failed(&self) -> u64
        ensures { result ≡ self.now.failed }
    {
        self.failed
    }

    /// Counts a call. It fails where it is to.
    pub fn begin(&mut self) -> Result<(), Failed>
        ensures planned { IsErr result ↔ IsToFail self.old }
        ensures call { CountsCall result self.old self.new }
    {
        let call = self.made;
        self.made = call.saturating_add(1);
        if self.failing.contains(&call) {
            return Err(self.fail());
        }
        Ok(())
    }

    /// Counts the last call as one that failed.
    pub fn fail(&mut self) -> Failed
        ensures rose { RoseBy 1 self.old.failed self.new.failed }
        ensures later { self.old.failed ≤ self.new.failed }
        ensures others { self.new ≡ record self.old { failed = self.new.failed } }
    {
        self.failed = self.failed.saturating_add(1);
        Failed
    }
}
