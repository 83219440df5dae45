ghost use Rattle.std.specs.Prelude.{◌≡◌, All, IfErr, OnOk, OnErr};
ghost use Rattle.snap_tree.specs.Snaps.{IsSnapTree};
ghost use Rattle.snap_tree.specs.Splits.{TreesFail};
ghost use Rattle.snap_tree.specs.Updates.{IsFitting, snaps_after};

use crate::change::{changes_of, will_stand};
use crate::links::link_stale;
use crate::settle::make_changes;
use crate::stale::stale_of;
use crate::{SnapFault, SnapTree};
use vol_types::Updates;

impl SnapTree {
    /// Makes the updates of a commit to the records of ids, and passes over those of other btrees. An `Err` changes
    /// nothing. `NoNode` means that the records would make no trees.
    ///
    /// Each update costs a few logarithms of the number of ids. Each id whose links are made anew costs 32 of them: those
    /// that are new or get another parent, and all that stood below them. So a snapshot makes the links of its two ids, and
    /// a root its own. An id that is taken away costs a logarithm for each id that names it, which has to be changed too.
    pub fn apply(&mut self, updates: &Updates) -> Result<(), SnapFault>
        requires { All IsFitting updates.now }
        ensures ok { OnOk result (self.new ≡ snaps_after self.old updates.now) }
        ensures sound { IsSnapTree self.new }
        ensures err { OnErr result (self.new ≡ self.old) }
        ensures fault { IfErr result (TreesFail (snaps_after self.old updates.now)) }
    {
        let changes = changes_of(self.alloc, &self.snaps, updates)?;
        if !will_stand(&self.snaps, &self.names, &changes) {
            return Err(SnapFault::NoNode);
        }
        let stale = stale_of(self.alloc, &self.snaps, &self.names, &changes)?;
        make_changes(
            &mut self.snaps,
            &mut self.links,
            &mut self.names,
            &mut self.live,
            &changes,
        )?;
        link_stale(&self.snaps, &mut self.links, &stale);
        Ok(())
    }
}
