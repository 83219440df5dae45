ghost use Rattle.forest_ops.specs.Laws.{OnlyCommitsChange, AnswersAreSteps, FailuresLeave, HistoriesGoOn};

/// What is no commit leaves the forest as it is: a refusal, a look, a rename with equal paths, a truncation to the size
/// that the file has.
pub fn only_commits_change_forests()
    ensures { OnlyCommitsChange }
{}

/// An entry of a legal history leaves the forest that its operation makes of the one before it, where its reply is the
/// forest's, or the one before it, where it is a failure.
pub fn entries_are_steps()
    ensures answer { AnswersAreSteps }
    ensures failure { FailuresLeave }
{}

/// A legal history goes on by an entry that is legal after it.
pub fn histories_go_on()
    ensures { HistoriesGoOn }
{}
