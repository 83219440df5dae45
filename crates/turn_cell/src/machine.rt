// What threads share by turns.
ghost use Rattle.std.specs.Prelude.{◌≡◌, ◌≢◌, ℕ, ◌<◌, ◌≤◌, List, length};
ghost use mathlib.Core.List.{IsPrefix};

/// A machine that takes events of its actors, one at a time.
pub trait Machine {
    /// What an actor asks of the machine.
    type Event;

    /// What the machine answers.
    type Answer;

    /// One member of the trace.
    type Entry;

    /// What the machine keeps of one actor.
    type Mine;

    // There are so many actors, the numbers below.
    ghost actors: { ℕ };

    // What the machine keeps of an actor.
    ghost mine: { Self → ℕ → Self.Mine };

    // What has happened so far, oldest first.
    ghost trace: { Self → List Self.Entry };

    // An actor of whom the machine keeps this may make this event.
    ghost fits: { Self.Mine → Self.Event → Type 0 };

    // The actor's event takes the machine, with this answer, to a machine as the last one.
    ghost gives: { Self → ℕ → Self.Event → Self.Answer → Self → Type 0 };

    /// Makes one event.
    fn step(&mut self, actor: u8, event: Self::Event) -> Self::Answer
        requires actor { actor < actors }
        requires event { fits (mine self.old actor) event }
        ensures gives { gives self.old actor event result self.new }
        ensures trace { IsPrefix (trace self.old) (trace self.new) }
        ensures others { (other : ℕ) → other ≢ actor → mine self.new other ≡ mine self.old other };

    /// How many entries the trace has.
    fn length(&self) -> u64
        ensures { result ≡ length (trace self.now) };

    ghost few: { (1 ≤ actors) × (actors ≤ 256) };
}
