ghost use Rattle.std.specs.Prelude.{◌≡◌, ℕ, ◌+◌, ◌-◌, ◌==◌, [], OnOk, OnErr, if◌then◌else◌};
ghost use Rattle.forest_ops.specs.Tallies.{counted};

use std::alloc::{AllocError, Global};
use std::collections::BTreeMap;
use std::marker::Model;
use vol_types::{Duplicate, copy_map};

/// How often each number was counted. Each call costs the logarithm of how many numbers there are.
#[derive(Drop)]
pub struct Tally {
    counts: BTreeMap<u64, u32>,
}

impl Model for Tally {
    ghost use Rattle.std.specs.Prelude.{ℕ, List};

    ghost Value = { List (ℕ × ℕ) };

    ghost view = { λ tally. tally.counts.entries };
}

impl Tally {
    /// Nothing counted. It takes no memory.
    pub fn new(alloc: Global) -> Self
        ensures { result ≡ [] }
    {
        Tally {
            counts: BTreeMap::new(alloc),
        }
    }

    /// How often a number was counted.
    pub fn count(&self, number: u64) -> u32
        ensures { result ≡ counted number self.now }
    {
        self.counts.get(&number).copied().unwrap_or(0)
    }

    /// Counts a number once more. An `Err` changes nothing. It also comes where the count is at the end of its type, which
    /// no count comes to: a file has at most 255 names, and at most eight names have one slot.
    pub fn add(&mut self, number: u64) -> Result<(), AllocError>
        ensures ok { OnOk result ((other : ℕ) → counted other self.new ≡ (if number == other then 1 else 0) + counted other self.old) }
        ensures err { OnErr result (self.new ≡ self.old) }
    {
        let count = self.count(number).checked_add(1).ok_or(AllocError)?;
        self.counts.insert(number, count)?;
        Ok(())
    }

    /// Counts a number once less, where it was counted.
    pub fn take(&mut self, number: u64)
        ensures { (other : ℕ) → counted other self.new ≡ counted other self.old - (if number == other then 1 else 0) }
    {
        if self.count(number) > 1 {
            lower(&mut self.counts, number);
        } else {
            let _ = self.counts.remove(&number);
        }
    }
}

impl Duplicate for Tally {
    fn copy(&self, alloc: Global) -> Result<Self, AllocError> {
        Ok(Tally {
            counts: copy_map(alloc, &self.counts)?,
        })
    }
}

// Lowers a count by one.
fn lower(counts: &mut BTreeMap<u64, u32>, number: u64)
    ensures { (other : ℕ) → counted other counts.new.entries ≡ counted other counts.old.entries - (if number == other then 1 else 0) }
{
    if let Some(count) = counts.get_mut(&number) {
        *count = count.saturating_sub(1);
    }
}
