ghost use Rattle.std.specs.Prelude.{◌≡◌, ◌-◌, IfErr, IfOk, length, slice_get};
ghost use Rattle.key_triggers.specs.Changes.{value_in_key};
ghost use Rattle.key_view.specs.Seen.{GoesOn};
ghost use Rattle.vol_types.specs.KeyMaps.{GivesLooks, KeyMap, value_in};

use key_view::{Hold, View};
use vol_types::{Btree, Keys, Pos, Query, Value};

/// The value at a position of a btree. It makes one look, which costs a logarithm.
pub fn value_at<V: View>(view: &mut V, btree: Btree, pos: Pos) -> Result<Option<Value>, Hold>
    ensures value { IfOk result (λ value. (keys : KeyMap) → GivesLooks keys (V.made view.new)
        → value ≡ value_in keys btree pos) }
    ensures looks { GoesOn (V.made view.old) (V.made view.new) }
    ensures ids { V.told view.new ≡ V.told view.old }
    ensures cause { IfErr result (V.held view.new) }
{
    let answer = view.look(&Query::At { btree, pos })?;
    Ok(last_value(answer))
}

// The value of the last key, if there is one.
fn last_value(answer: Keys) -> Option<Value>
    ensures { result ≡ value_in_key (slice_get answer (length answer - 1)) }
{
    let mut answer = answer;
    match answer.pop() {
        None => None,
        Some(key) => key.value,
    }
}
