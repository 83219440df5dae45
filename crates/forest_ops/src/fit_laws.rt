ghost use Rattle.std.specs.Prelude.{◌≡◌, ◌++◌, ℕ, List, All, Some};
ghost use Rattle.std.specs.List.{filter_map};
ghost use Rattle.plain_forest.specs.Forest.{Forest};
ghost use Rattle.forest_ops.specs.History.{History, commit_count};
ghost use Rattle.forest_ops.specs.declared.operation.Reply.{Reply};
ghost use Rattle.forest_ops.specs.Acknowledged.{synced_count};
ghost use Rattle.forest_ops.specs.Fits.{Fits, IsOperation, LineReply, entry_of, last_entry};

/// The replies to lines without a barrier fit the history of their entries in order, followed by that of the final sync,
/// where this one acknowledges all commits. So they do where one client runs one phase.
pub fn one_phase_fits()
    ensures { (opening : Forest) (lines : List LineReply) (last : Reply) (history : History)
        → All IsOperation lines → history ≡ filter_map entry_of lines ++ last_entry last
        → ((count : ℕ) → synced_count last ≡ Some count → count ≡ commit_count opening history)
        → Fits opening lines last history }
{}
