ghost use Rattle.std.specs.Prelude.{◌≡◌, ◌<◌, ◌≤◌, ◌+◌, ◌∷◌, [], ◌↔◌, ℕ, All, IfErr, IfOk, length, unwrap_or, option_copied};
ghost use Rattle.inode_keys.specs.Draws.{CountsOne, IfDrawn, IsNewNumber, IsNextOf, count_in_key, counter_pos, counter_update, draw_at, draw_in};
ghost use Rattle.inode_keys.specs.declared.numbers.Draw.TheVariants.{Spent};
ghost use Rattle.key_meaning.specs.Forest.{Read, counter_of, forest_in, next_in};
ghost use Rattle.key_meaning.specs.Tidy.{AreKeysDrawn, IsDrawn};
ghost use Rattle.key_view.specs.Holds.{IsCause};
ghost use Rattle.key_view.specs.Seen.{GoesOn};
ghost use Rattle.plain_forest.specs.Steps.{numbers_per_client};
ghost use Rattle.vol_types.specs.KeyMaps.{GivesLooks, IsKeyMap, KeyMap, with_updates};
ghost use Rattle.vol_types.specs.Standing.{IsUpdate};

use key_meaning::{counters_are_raised, counters_are_updated, numbers_are_drawn_upwards};
use key_view::{Hold, View};
use std::alloc::{AllocError, Global};
use vol_types::{Btree, Key, Pos, Query, Update, Updates, Value};

// How many numbers a client has.
const NUMBERS_PER_CLIENT: u64 = 1 << 48;

/// What a client draws for its next new inode.
#[derive(PartialEq, Eq, Drop)]
pub enum Draw {
    /// This number. After the updates it is drawn, and isn't drawn again.
    Drawn { number: u64, updates: Updates },
    /// The client has used all its numbers.
    Spent,
}

/// The number that the next new inode of a client gets, which no key names, with the update after which the client's counter
/// stands at one more; or that its numbers are spent, which they are exactly where the counter has passed the last of them. It
/// makes one look, which costs a logarithm, and takes memory for one update.
pub fn next_number<V: View>(alloc: Global, view: &mut V, client: u8) -> Result<Draw, Hold>
    requires { client < 16 }
    ensures draw { IfOk result (λ draw. (keys : KeyMap) → GivesLooks keys (V.made view.new)
        → draw ≡ draw_in keys client) }
    ensures forest { IfOk result (λ draw. (keys : KeyMap) (read : Read)
        → GivesLooks keys (V.made view.new) → IsNextOf (forest_in keys read) client draw) }
    ensures new { IfOk result (λ draw. (keys : KeyMap) → GivesLooks keys (V.made view.new)
        → AreKeysDrawn keys → IfDrawn draw (λ number _. IsNewNumber keys number)) }
    ensures counts { IfOk result (λ draw. (keys : KeyMap) → GivesLooks keys (V.made view.new)
        → IsKeyMap keys
        → IfDrawn draw (λ _ updates. CountsOne keys (with_updates updates keys) client)) }
    ensures fits { IfOk result (λ draw. IfDrawn draw (λ _ updates. All IsUpdate updates)) }
    ensures looks { GoesOn (V.made view.old) (V.made view.new) }
    ensures one_look { length (V.made view.new) ≤ length (V.made view.old) + 1 }
    ensures ids { V.told view.new ≡ V.told view.old }
    ensures cause { IfErr result (IsCause (V.held view.new)) }
{
    draws_are_new();
    draws_are_counted();
    let next = counter(view, client)?;
    Ok(draw_at(alloc, client, next)?)
}

// What a counter stands at, and 0 where it isn't there.
fn counter<V: View>(view: &mut V, counter: u8) -> Result<u64, Hold>
    ensures next { IfOk result (λ next. (keys : KeyMap) → GivesLooks keys (V.made view.new)
        → next ≡ next_in keys counter) }
    ensures looks { GoesOn (V.made view.old) (V.made view.new) }
    ensures one_look { length (V.made view.new) ≤ length (V.made view.old) + 1 }
    ensures ids { V.told view.new ≡ V.told view.old }
    ensures cause { IfErr result (V.held view.new) }
{
    let query = Query::At {
        btree: Btree::Counters,
        pos: counter_pos(counter),
    };
    let answer = view.look(&query)?;
    Ok(count_in_key(answer.last()))
}

// Where a counter stands.
fn counter_pos(counter: u8) -> Pos
    ensures { result ≡ counter_pos counter }
{
    Pos {
        inode: 0,
        offset: u64::from(counter),
        snapshot: 0,
    }
}

// What a key says that a counter stands at, which is 0 where there is no key.
fn count_in_key(key: Option<&Key>) -> u64
    ensures { result ≡ count_in_key (option_copied key.entry) }
{
    match key {
        None => 0,
        Some(key) => count_in(key.value.as_ref()),
    }
}

// The number that a counter's value holds, and 0 where there is none.
fn count_in(value: Option<&Value>) -> u64
    ensures { result ≡ unwrap_or (counter_of (option_copied value.entry)) 0 }
{
    match value {
        Some(Value::Counter { next }) => *next,
        _ => 0,
    }
}

// What a client draws whose counter stands at a number.
fn draw_at(alloc: Global, client: u8, next: u64) -> Result<Draw, AllocError>
    ensures { IfOk result (λ draw. draw ≡ draw_at client next) }
{
    if next >= NUMBERS_PER_CLIENT {
        return Ok(Draw::Spent);
    }
    Ok(Draw::Drawn {
        number: u64::from(client) * NUMBERS_PER_CLIENT + next,
        updates: counter_update(alloc, client, next + 1)?,
    })
}

// The update after which a counter stands at a number.
fn counter_update(alloc: Global, counter: u8, next: u64) -> Result<Updates, AllocError>
    ensures { IfOk result (λ updates. updates ≡ counter_update counter next ∷ []) }
{
    let mut updates = Updates::new(alloc);
    updates.push(Update {
        btree: Btree::Counters,
        level: 0,
        pos: counter_pos(counter),
        value: Some(Value::Counter { next }),
    })?;
    Ok(updates)
}

/// What a client draws is the forest's next number of the client, and new: no key names it, and nothing shows of it. Where the
/// keys are drawn, the client's numbers are spent exactly where its counter stands at 2^48.
pub fn draws_are_new()
    ensures forest { (keys : KeyMap) (client : ℕ) (read : Read) → client < 16
        → IsNextOf (forest_in keys read) client (draw_in keys client) }
    ensures at_end { (keys : KeyMap) (client : ℕ) → client < 16 → AreKeysDrawn keys
        → (draw_in keys client ≡ Spent) ↔ (next_in keys client ≡ numbers_per_client) }
    ensures new { (keys : KeyMap) (client : ℕ) → AreKeysDrawn keys
        → IfDrawn (draw_in keys client) (λ number _. IsNewNumber keys number) }
{
    numbers_are_drawn_upwards();
}

/// After a client drew a number its counter stands at one more and nothing else that is seen changes. The number is drawn then,
/// and is new still.
pub fn draws_are_counted()
    ensures counts { (keys : KeyMap) (client : ℕ) → client < 16 → IsKeyMap keys
        → IfDrawn (draw_in keys client) (λ _ updates. CountsOne keys (with_updates updates keys) client) }
    ensures drawn { (keys : KeyMap) (client : ℕ) → client < 16 → IsKeyMap keys
        → IfDrawn (draw_in keys client) (λ number updates. IsDrawn (with_updates updates keys) number) }
    ensures new { (keys : KeyMap) (client : ℕ) → client < 16 → IsKeyMap keys → AreKeysDrawn keys
        → IfDrawn (draw_in keys client) (λ number updates. IsNewNumber (with_updates updates keys) number) }
{
    numbers_are_drawn_upwards();
    counters_are_raised();
    counters_are_updated();
}
