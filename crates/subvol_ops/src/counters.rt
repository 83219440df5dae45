ghost use Rattle.std.specs.Prelude.{◌≡◌, ◌≤◌, IfErr, IfOk, IfSome, option_copied, unwrap_or};
ghost use Rattle.key_meaning.specs.Forest.{counter_of, next_in};
ghost use Rattle.key_view.specs.Seen.{GoesOn};
ghost use Rattle.subvol_ops.specs.Slots.{count_in_key, next_id};
ghost use Rattle.vol_types.specs.KeyMaps.{GivesLooks, KeyMap};

use key_view::{Hold, View};
use vol_types::{Btree, Key, Pos, Query, Value};

/// The counter of the snapshot ids, behind those of the 16 clients.
pub(crate) const ID_COUNTER: u8 = 16;

/// What a counter stands at, and 0 where it isn't there. It makes one look.
pub(crate) fn counter<V: View>(view: &mut V, counter: u8) -> Result<u64, Hold>
    ensures next { IfOk result (λ next. (keys : KeyMap) → GivesLooks keys (V.made view.new)
        → next ≡ next_in keys counter) }
    ensures looks { GoesOn (V.made view.old) (V.made view.new) }
    ensures ids { V.told view.new ≡ V.told view.old }
    ensures cause { IfErr result (V.held view.new) }
{
    let query = Query::At {
        btree: Btree::Counters,
        pos: counter_pos(counter),
    };
    let answer = view.look(&query)?;
    Ok(count_in_key(answer.last()))
}

/// Where a counter stands.
pub(crate) fn counter_pos(counter: u8) -> Pos
    ensures { result ≡ record { inode = 0; offset = counter; snapshot = 0 } }
{
    Pos {
        inode: 0,
        offset: u64::from(counter),
        snapshot: 0,
    }
}

// What a key says that a counter stands at, which is 0 where there is no key.
fn count_in_key(key: Option<&Key>) -> u64
    ensures { result ≡ count_in_key (option_copied key.entry) }
{
    match key {
        None => 0,
        Some(key) => count_in(key.value.as_ref()),
    }
}

// The number that a counter's value holds, and 0 where there is none.
fn count_in(value: Option<&Value>) -> u64
    ensures { result ≡ unwrap_or (counter_of (option_copied value.entry)) 0 }
{
    match value {
        Some(Value::Counter { next }) => *next,
        _ => 0,
    }
}

/// The next id, where the counter stands at an id and as many are left as are drawn.
pub(crate) fn next_id(drawn: u32, next: u64) -> Option<u32>
    ensures is { result ≡ next_id drawn next }
    ensures left { IfSome result (λ id. drawn ≤ id) }
    ensures stands { IfSome result (λ id. id ≡ next) }
{
    let Ok(id) = u32::try_from(next) else {
        return None;
    };
    if id < drawn {
        return None;
    }
    Some(id)
}
