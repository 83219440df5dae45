ghost use Rattle.std.specs.Prelude.{◌≡◌, ◌↔◌, ◌++◌, Some, IfSome, IsSome, IsTrue, OnOk, OnErr};
ghost use Rattle.dev_model.specs.Plan.{no_faults, one_call_more, FailsAt};

use crate::disk::Pick;
use std::alloc::{AllocError, Global};
use std::marker::Model;

/// Which calls are to fail, and how many there were.
#[derive(Drop)]
pub struct FaultPlan {
    failing: Vec<u64>,
    failing_from: Option<u64>,
    leaves: Pick,
    calls: u64,
}

impl Model for FaultPlan {
    ghost use Rattle.dev_model.specs.Plan.{Plan};

    ghost Value = { Plan };

    ghost view = { λ p. record { failing = p.failing.items; failing_from = p.failing_from; leaves = p.leaves; calls = p.calls } };
}

impl FaultPlan {
    pub fn none(alloc: Global) -> Self
        ensures { result ≡ no_faults }
    {
        FaultPlan {
            failing: Vec::new(alloc),
            failing_from: None,
            leaves: Pick::NoneWritten,
            calls: 0,
        }
    }

    /// Forgets the calls that are to fail, and those that there were.
    pub fn clear(&mut self)
        ensures { self.new ≡ no_faults }
    {
        self.failing.clear();
        self.failing_from = None;
        self.leaves = Pick::NoneWritten;
        self.calls = 0;
    }

    /// How many calls there were.
    pub fn calls(&self) -> u64
        ensures { result ≡ self.now.calls }
    {
        self.calls
    }

    /// These calls are to fail too.
    pub fn fail_at(&mut self, calls: &[u64]) -> Result<(), AllocError>
        ensures ok { OnOk result (self.new ≡ record self.old
            { failing = self.old.failing ++ calls.now }) }
        ensures err { OnErr result (self.new ≡ self.old) }
    {
        self.failing.extend_from_slice(calls)
    }

    /// A write that is to fail leaves of its block what this says.
    pub fn failed_writes_leave(&mut self, leaves: Pick)
        ensures { self.new ≡ record self.old { leaves = leaves } }
    {
        self.leaves = leaves;
    }

    /// All calls from this one on are to fail, in place of those from an earlier such call on.
    pub fn fail_from(&mut self, first: u64)
        ensures { self.new ≡ record self.old { failing_from = Some first } }
    {
        self.failing_from = Some(first);
    }

    /// Whether the next call is to fail. It counts the call.
    pub fn next_fails(&mut self) -> bool
        ensures fails { IsTrue result ↔ FailsAt self.old self.old.calls }
        ensures counted { self.new ≡ one_call_more self.old }
    {
        let call = self.calls;
        self.calls = call.saturating_add(1);
        self.failing.contains(&call) || self.failing_from.is_some_and(|first| first <= call)
    }

    /// What the next call leaves of its block, if it is a write, where it is to fail. It counts the call.
    pub fn next_failing(&mut self) -> Option<Pick>
        ensures fails { IsSome result ↔ FailsAt self.old self.old.calls }
        ensures leaves { IfSome result (λ pick. pick ≡ self.old.leaves) }
        ensures counted { self.new ≡ one_call_more self.old }
    {
        if self.next_fails() {
            Some(self.leaves)
        } else {
            None
        }
    }
}
