ghost use Rattle.std.specs.Prelude.{◌≡◌, ◌+◌, ◌*◌, ◌<◌, ◌≤◌, ℕ};
ghost use Rattle.plain_forest.specs.Steps.{numbers_per_client};
ghost use Rattle.vol_types.specs.KeyMaps.{IsKeyMap, KeyMap, with_update};
ghost use Rattle.vol_types.specs.declared.keys.Update.{Update};
ghost use Rattle.key_meaning.specs.Checks.{names_to};
ghost use Rattle.key_meaning.specs.Forest.{next_in};
ghost use Rattle.key_meaning.specs.Numbers.{IsUnused, MayCountTo, SetsCounter, ShowSame, ShowsNowhere};
ghost use Rattle.key_meaning.specs.Tidy.{AreKeysDrawn, IsDrawn};

/// The numbers of a client from its counter on are named by no key; nothing shows of a number that no key names, and no name leads
/// to it.
pub fn numbers_are_drawn_upwards()
    ensures unused { (keys : KeyMap) (client n : ℕ) → AreKeysDrawn keys → next_in keys client ≤ n
        → n < numbers_per_client → IsUnused keys (client * numbers_per_client + n) }
    ensures nowhere { (keys : KeyMap) (number : ℕ) → IsUnused keys number → ShowsNowhere keys number }
    ensures no_name { (keys : KeyMap) (id number : ℕ) → IsUnused keys number
        → names_to keys id number ≡ 0 }
{}

/// A counter that is set changes nothing that shows, and names no number. Where it is a client's that is raised within its range,
/// the numbers below it are drawn then, besides those that were, and the keys name drawn numbers alone still.
pub fn counters_are_raised()
    ensures shows { (update : Update) (keys : KeyMap) → IsKeyMap keys → (counter next : ℕ)
        → SetsCounter update counter next → ShowSame keys (with_update update keys) }
    ensures unused { (update : Update) (keys : KeyMap) → IsKeyMap keys → (counter next : ℕ)
        → SetsCounter update counter next → (number : ℕ)
        → IsUnused keys number → IsUnused (with_update update keys) number }
    ensures still { (update : Update) (keys : KeyMap) → IsKeyMap keys → (client next : ℕ)
        → SetsCounter update client next → MayCountTo keys client next → (number : ℕ)
        → IsDrawn keys number → IsDrawn (with_update update keys) number }
    ensures now { (update : Update) (keys : KeyMap) → IsKeyMap keys → (client next : ℕ)
        → SetsCounter update client next → MayCountTo keys client next → (n : ℕ)
        → n < next → IsDrawn (with_update update keys) (client * numbers_per_client + n) }
    ensures drawn { (update : Update) (keys : KeyMap) → IsKeyMap keys → (client next : ℕ)
        → SetsCounter update client next → MayCountTo keys client next
        → AreKeysDrawn keys → AreKeysDrawn (with_update update keys) }
{}
