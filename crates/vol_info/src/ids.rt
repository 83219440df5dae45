ghost use Rattle.std.specs.Prelude.{◌≡◌, count_by};
ghost use Rattle.vol_info.specs.Facts.{id_facts, is_id_in};

use crate::facts::IdFacts;
use vol_types::{Pos, SnapState, Value};

// What is told of the snapshot ids of a volume, given their records. It goes over these twice.
pub fn id_facts(records: &[(Pos, Value)]) -> IdFacts
    ensures { result ≡ id_facts records.now }
{
    IdFacts {
        subvolumes: count_in(records, SnapState::LiveLeaf),
        ids: records.len() as u64,
        dead: count_in(records, SnapState::DeadLeaf),
    }
}

// How many ids are in this state.
fn count_in(records: &[(Pos, Value)], state: SnapState) -> u64
    ensures { result ≡ count_by (is_id_in state) records.now }
{
    let mut count = 0;
    for entry in records {
        if is_id_in(entry, state) {
            count += 1;
        }
    }
    count
}

// Whether it is the record of an id in this state.
fn is_id_in(entry: &(Pos, Value), state: SnapState) -> bool
    ensures { result ≡ is_id_in state entry.now }
{
    match &entry.1 {
        Value::Snap(snap) => snap.state.code() == state.code(),
        _ => false,
    }
}
