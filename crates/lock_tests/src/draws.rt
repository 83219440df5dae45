//! Threads share a counter, and each number is drawn by one of them.

ghost use Rattle.std.specs.Prelude.{◌≡◌, ◌+◌, ◌==◌, ◌<◌, ◌≤◌, ◌++◌, ◌∷◌, [], length, filter, MatchOption, IfSome};
ghost use Rattle.std.proofs.Common.{rules};
ghost use Rattle.std.specs.Thread.{IsSync};
ghost use Rattle.lock_tests.specs.Drawing.{IsReady, IsBack};
ghost use Rattle.turn_cell.specs.Handles.{view, IsPassOf};

use std::alloc::{AllocError, Global};
use std::collections::LinkedList;
use std::sync::Wait;
use std::test::Fail;
use std::thread::{Threads, join};
use turn_cell::{Machine, Pass, TurnCell};

/// Who drew which number.
#[derive(Clone, Copy)]
pub struct Entry {
    pub actor: u8,
    pub number: u64,
}

/// Gives numbers out, each once, and keeps who drew them.
#[derive(Drop)]
pub struct Counter {
    pub entries: Vec<Entry>,
}

impl Machine for Counter {
    type Event = ();

    // None where there is no memory.
    type Answer = Option<u64>;

    type Entry = Entry;

    // What the actor drew.
    type Mine = LinkedList<Entry>;

    ghost actors = { 16 };

    ghost mine = { λ c actor. filter (λ e. e.actor == actor) c.entries.items };

    ghost trace = { λ c. c.entries.items };

    ghost fits = { λ _ _. Unit {0} };

    ghost gives = { λ c actor event answer d. MatchOption answer (d.entries.items ≡ c.entries.items) (λ n. (n ≡ length c.entries.items) × (d.entries.items ≡ c.entries.items ++ (record { actor = actor; number = n }) ∷ [])) };

    fn step(&mut self, actor: u8, event: ()) -> Option<u64> {
        let () = event;
        let number = self.entries.len() as u64;
        if self.entries.push(Entry { actor, number }).is_err() {
            return None;
        }
        Some(number)
    }

    fn length(&self) -> u64 {
        self.entries.len() as u64
    }

    ghost few = { Prim.search rules };
}

// What a thread brings back: its pass, and the numbers that it drew, or none where there was no memory.
#[derive(Drop)]
struct Done {
    pass: Pass<Counter>,
    numbers: Option<Vec<u64>>,
}

// Draws so many numbers.
fn draw<R: Wait>(
    rt: &R,
    alloc: Global,
    cell: &TurnCell<Counter>,
    mut pass: Pass<Counter>,
    count: u64,
) -> Done
    requires { IsPassOf cell.now pass }
    ensures cell { IsPassOf cell.now result.pass }
    ensures same { ((view result.pass).actor ≡ (view pass).actor)
        × ((view result.pass).ledger ≡ (view pass).ledger) }
{
    let mut numbers = Vec::new(alloc);
    for _ in 0..count {
        let Some(number) = cell.step(rt, &mut pass, ()) else {
            return Done {
                pass,
                numbers: None,
            };
        };
        if numbers.push(number).is_err() {
            return Done {
                pass,
                numbers: None,
            };
        }
    }
    Done {
        pass,
        numbers: Some(numbers),
    }
}

// Gives a pass to a thread for each actor from `next` on, and draws beside them. Afterwards no actor is in use that wasn't
// before. The numbers come back by actor, the last one's first.
fn draw_beside<R: Threads + Wait + Sync>(
    rt: &R,
    alloc: Global,
    cell: &TurnCell<Counter>,
    mut first: Pass<Counter>,
    next: u8,
    actors: u8,
    count: u64,
) -> (Pass<Counter>, Option<Vec<Vec<u64>>>)
    requires cell { IsPassOf cell.now first }
    requires actor { (view first).actor ≡ 0 }
    requires few { actors ≤ 16 }
    requires rest { IsReady next actors (view first) }
    ensures cell { IsPassOf cell.now result.0 }
    ensures actor { (view result.0).actor ≡ 0 }
    ensures ledger { IsBack (view first) (view result.0) }
{
    if next >= actors {
        let done = draw(rt, alloc, cell, first, count);
        return (done.pass, with_row(Some(Vec::new(alloc)), done.numbers));
    }
    let other = cell.split(&mut first, next);
    let (done, (mut first, rows)) = join(
        rt,
        || -> Done
            requires { IsSync R.row × IsPassOf cell.now other }
            ensures { IsPassOf cell.entry.now result.pass
                × ((view result.pass).actor ≡ (view other).actor) }
        { draw(rt, alloc, cell, other, count) },
        || -> (Pass<Counter>, Option<Vec<Vec<u64>>>)
            requires { IsSync R.row × IsPassOf cell.now first × ((view first).actor ≡ 0)
                × IsReady (next + 1) actors (view first) × (next < actors) × (actors ≤ 16) }
            ensures { IsPassOf cell.entry.now result.0 × ((view result.0).actor ≡ 0)
                × IsBack (view first) (view result.0) }
        { draw_beside(rt, alloc, cell, first, next + 1, actors, count) },
    );
    cell.join(&mut first, done.pass);
    (first, with_row(rows, done.numbers))
}

// The rows with one more, or none where one is missing or there is no memory.
fn with_row(rows: Option<Vec<Vec<u64>>>, row: Option<Vec<u64>>) -> Option<Vec<Vec<u64>>> {
    let mut rows = rows?;
    rows.push(row?).ok()?;
    Some(rows)
}

// The actor's entries have just these numbers, in this order.
fn drew(entries: &[Entry], actor: u8, numbers: &[u64]) -> bool {
    let mut rest = numbers.iter();
    for entry in entries {
        if entry.actor == actor && rest.next() != Some(&entry.number) {
            return false;
        }
    }
    rest.next().is_none()
}

// The trace has each number once, in order.
fn counts_up(entries: &[Entry]) -> bool {
    for (i, entry) in entries.iter().enumerate() {
        if entry.number != i as u64 {
            return false;
        }
    }
    true
}

// The trace has `count` entries of each actor, and they are what its thread was answered. The row of actor 0 comes first, and
// then those of the others, the last actor's first.
fn adds_up(entries: &[Entry], rows: &[Vec<u64>], count: usize) -> bool {
    let mut actor: u8 = 0;
    for (i, row) in rows.iter().enumerate() {
        if row.len() != count || !drew(entries, actor, row.as_slice()) {
            return false;
        }
        let Ok(next) = u8::try_from(rows.len() - 1 - i) else {
            return false;
        };
        actor = next;
    }
    counts_up(entries)
}

// So many threads draw `count` numbers each, and what they were answered adds up to the trace.
fn draws_add_up<R: Threads + Wait + Sync>(rt: &R, alloc: Global, actors: u8, count: usize) -> bool
    requires { (1 ≤ actors) × (actors ≤ 16) }
{
    let machine = Counter {
        entries: Vec::new(alloc),
    };
    let Ok((cell, first)) = TurnCell::new(alloc, machine, actors) else {
        return false;
    };
    let (first, rows) = draw_beside(rt, alloc, &cell, first, 1, actors, count as u64);
    let machine = cell.close(first);
    let Some(rows) = rows else { return false };
    rows.len() == actors as usize
        && rows.len().checked_mul(count) == Some(machine.entries.len())
        && adds_up(machine.entries.as_slice(), rows.as_slice(), count)
}

#[test]
fn two_threads_draw_each_number_once(rt: HostRuntime) -> Result<(), Fail> {
    assert!(rt; draws_add_up(&rt, rt.alloc(), 2, 10_000));
    Ok(())
}

#[test]
fn sixteen_threads_draw_each_number_once(rt: HostRuntime) -> Result<(), Fail> {
    assert!(rt; draws_add_up(&rt, rt.alloc(), 16, 10_000));
    Ok(())
}
