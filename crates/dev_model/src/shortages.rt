ghost use Rattle.std.specs.Prelude.{◌≡◌, ◌⊎◌, IsTrue, IsErr, OnOk};
ghost use Rattle.vol_types.specs.Faults.{RoseBy};

use vol_types::Failed;

/// How many calls were out of memory. The count stands still at its end.
#[derive(Drop)]
pub struct Shortages {
    pub count: u64,
}

impl Shortages {
    /// Counts a call that has failed, but was not to fail.
    pub fn add_unplanned(&mut self, planned: bool, outcome: &Result<(), Failed>)
        ensures short { IsErr outcome.now → IsTrue planned ⊎ RoseBy 1 self.old.count self.new.count }
        ensures ample { OnOk outcome.now (self.new.count ≡ self.old.count) }
    {
        if outcome.is_err() && !planned {
            self.add();
        }
    }

    /// Counts a call that was out of memory.
    pub fn add(&mut self)
        ensures { RoseBy 1 self.old.count self.new.count }
    {
        self.count = self.count.saturating_add(1);
    }
}
