ghost use Rattle.vol_session.specs.RunLaws.{FreshLeavesRoom, FreshMayRun, OpeningIsSafe, RunsAreSafe, SessionsBeginWell};

use key_meaning::fresh_keys_mean_fresh;

/// Whatever a crash has left since a run began is the volume after a prefix of its commits, with all that was acknowledged by then, and may be run again: where
/// the volume that was found may be run, and so where the run ends before its session begins.
pub fn runs_are_safe()
    ensures begins { SessionsBeginWell }
    ensures session { RunsAreSafe }
    ensures opening { OpeningIsSafe }
{}

/// What format makes may be run, and leaves room in the ring of the journal.
pub fn fresh_volumes_may_run()
    ensures may { FreshMayRun }
    ensures room { FreshLeavesRoom }
{
    fresh_keys_mean_fresh();
}
