//! Calls on one lock in turn, with ample memory.

use six_lock::{Ask, Six};
use std::test::Fail;

#[derive(Clone, Copy)]
enum Call {
    Shared,
    Intent,
    Exclusive,
    Lower,
    Release,
}

// Makes the call where its condition holds. None where it doesn't, or where the call answers nothing.
fn make(lock: &mut Six, actor: u8, call: Call) -> Option<Ask> {
    if actor >= lock.count() {
        return None;
    }
    match call {
        Call::Shared => Some(lock.shared(actor)),
        Call::Intent => Some(lock.intent(actor)),
        Call::Exclusive if lock.has_intent(actor) => Some(lock.exclusive(actor)),
        Call::Lower if lock.has_exclusive(actor) => {
            lock.lower(actor);
            None
        }
        Call::Release => {
            lock.release(actor);
            None
        }
        _ => None,
    }
}

// Who calls what, what is answered, and the sequence after it.
type Row = (u8, Call, Option<Ask>, u64);

static ROWS: [Row; 20] = [
    (0, Call::Shared, Some(Ask::Granted), 0),
    (1, Call::Shared, Some(Ask::Granted), 0),
    (0, Call::Exclusive, None, 0),
    (0, Call::Intent, Some(Ask::Granted), 0),
    (0, Call::Intent, Some(Ask::Granted), 0),
    (1, Call::Intent, Some(Ask::Held(0)), 0),
    (0, Call::Exclusive, Some(Ask::Held(1)), 0),
    (1, Call::Release, None, 0),
    (0, Call::Exclusive, Some(Ask::Granted), 0),
    (0, Call::Shared, Some(Ask::Granted), 0),
    (1, Call::Shared, Some(Ask::Held(0)), 0),
    (1, Call::Intent, Some(Ask::Held(0)), 0),
    (1, Call::Release, None, 0),
    (0, Call::Lower, None, 1),
    (1, Call::Shared, Some(Ask::Granted), 1),
    (0, Call::Release, None, 1),
    (1, Call::Intent, Some(Ask::Granted), 1),
    (1, Call::Exclusive, Some(Ask::Granted), 1),
    (1, Call::Release, None, 2),
    (0, Call::Shared, Some(Ask::Granted), 2),
];

// How many of the rows go as they say, up to the first that doesn't.
fn right_rows(lock: &mut Six, rows: &[Row]) -> usize {
    for at in 0..rows.len() {
        let (actor, call, answer, sequence) = rows[at];
        if make(lock, actor, call) != answer || lock.seq() != sequence {
            return at;
        }
    }
    rows.len()
}

// Whether the calls are answered as the rows say, and who else holds the lock then.
fn is_right(lock: &mut Six) -> bool {
    lock.is_free()
        && right_rows(lock, &ROWS) == 20
        && !lock.is_free()
        && lock.other_reader(1) == Some(0)
        && lock.other_holder(1) == Some(0)
        && lock.other_holder(0) == None
        && lock.seq() == 2
}

#[test]
fn calls_in_turn(rt: HostRuntime) -> Result<(), Fail> {
    let mut lock = Six::new(rt.alloc(), 2)?;
    let good = is_right(&mut lock);
    drop(lock);
    assert!(rt; good);
    Ok(())
}

#[test]
fn goes_on_from_a_sequence(rt: HostRuntime) -> Result<(), Fail> {
    let lock = Six::from_sequence(rt.alloc(), 2, 2)?;
    let sequence = lock.seq();
    drop(lock);
    assert!(rt; sequence == 2);
    Ok(())
}
