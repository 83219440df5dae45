ghost use Rattle.std.specs.Prelude.{ℕ, List};
ghost use Rattle.lock_table.specs.Tables.{Table, HasNoCycle, IsSound, WaitsFor};
ghost use Rattle.lock_table.specs.Calls.{SequencesRise};
ghost use Rattle.lock_table.specs.Runs.{Call, May, Steps, Runs, HasOneName, WaitsByBirth, fresh};

/// In a sound table nobody waits for itself, over no matter how many others. Each that waits does so for a node above all
/// that it holds, and whoever holds that node waits, if at all, for one higher still: along waits the nodes only rise.
pub fn sound_has_no_cycle()
    ensures { (table : Table) → IsSound table → HasNoCycle table }
{}

/// Every call leaves a sound table, where it finds one.
pub fn calls_keep_sound()
    ensures { (old new : Table) (call : Call) → IsSound old → May old call → Steps old call new
        → IsSound new }
{}

/// After every list of calls by any actors the table is sound, and so nobody waits for itself.
pub fn runs_are_sound()
    ensures { (count : ℕ) (calls : List Call) (table : Table) → Runs (fresh count) calls table
        → IsSound table }
{}

/// After every list of calls by any actors in which each birth is asked for by one name, whoever was told to wait for a
/// node that its holder still holds waits for that holder: no other node came by that birth.
pub fn one_name_is_awaited()
    ensures { (count : ℕ) (calls : List Call) (table : Table) (actor holder : ℕ)
        → Runs (fresh count) calls table → HasOneName calls → WaitsByBirth table actor holder
        → WaitsFor table actor holder }
{}

/// Over every list of calls by any actors, from a sound table on, no node's sequence falls; and where an actor held
/// exclusive before, and doesn't in the end, it has risen.
pub fn sequences_rise()
    ensures { (old new : Table) (calls : List Call) → IsSound old → Runs old calls new
        → SequencesRise old new }
{}
