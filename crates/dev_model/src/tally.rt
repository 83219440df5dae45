ghost use Rattle.std.specs.Prelude.{◌≡◌, ◌<◌, MatchResult, length};
ghost use Rattle.dev_model.specs.Devices.{no_fault_counts, risen, with_read_fault, with_write_fault};
ghost use Rattle.dev_model.specs.Disk.{changed};

use vol_types::Failed;

/// For each of eight devices how many of its calls have failed, and how many of its writes and flushes: what an implementation
/// of `Devices` counts. It takes no memory.
#[derive(Drop)]
pub struct FaultTally {
    pub calls: [u64; 8],
    pub writes: [u64; 8],
    ghost calls_counted: { length calls ≡ 8 },
    ghost writes_counted: { length writes ≡ 8 },
}

impl FaultTally {
    ghost use Rattle.dev_model.specs.Tallies.{faults_in};

    /// No call has failed.
    pub fn none() -> Self
        ensures { faults_in result ≡ no_fault_counts }
    {
        FaultTally {
            calls: [0; 8],
            writes: [0; 8],
        }
    }

    /// Counts a read or an extension of this device by its outcome.
    pub fn count(&mut self, dev: u8, outcome: &Result<(), Failed>)
        requires { dev < 8 }
        ensures { MatchResult outcome.now (λ _. faults_in self.new ≡ faults_in self.old)
            (λ _. faults_in self.new ≡ with_read_fault dev (faults_in self.old)) }
    {
        if outcome.is_err() {
            self.add_read_fault(dev);
        }
    }

    /// Counts a write or a flush of this device by its outcome.
    pub fn count_write(&mut self, dev: u8, outcome: &Result<(), Failed>)
        requires { dev < 8 }
        ensures { MatchResult outcome.now (λ _. faults_in self.new ≡ faults_in self.old)
            (λ _. faults_in self.new ≡ with_write_fault dev (faults_in self.old)) }
    {
        if outcome.is_err() {
            self.add_write_fault(dev);
        }
    }

    // A read or an extension has failed.
    fn add_read_fault(&mut self, dev: u8)
        requires { dev < 8 }
        ensures { faults_in self.new ≡ with_read_fault dev (faults_in self.old) }
    {
        raise(&mut self.calls, dev);
    }

    // A write or a flush has failed.
    fn add_write_fault(&mut self, dev: u8)
        requires { dev < 8 }
        ensures { faults_in self.new ≡ with_write_fault dev (faults_in self.old) }
    {
        raise(&mut self.calls, dev);
        raise(&mut self.writes, dev);
    }
}

// Counts one more of this device.
fn raise(counts: &mut [u64; 8], dev: u8)
    requires { dev < 8 }
    ensures count { length counts.new ≡ length counts.old }
    ensures raised { counts.new ≡ changed dev risen counts.old }
{
    let count = &mut counts[dev as usize];
    *count = count.saturating_add(1);
}
