ghost use Rattle.std.specs.Prelude.{◌≡◌, map, min};
ghost use Rattle.std.specs.List.{range_with_len};
ghost use Rattle.btree_map.specs.Trees.{keys_in};
ghost use Rattle.forest_ops.specs.Steps.{numbers_per_client};
ghost use Rattle.key_meaning.specs.Forest.{next_in};

use btree_map::KeyMap;
use vol_types::{Btree, Pos, Value};

// How many inode numbers a client has.
const NUMBERS_PER_CLIENT: u64 = 1 << 48;

/// The next numbers of the 16 clients, and that behind their last one where a counter stands higher.
pub(crate) fn client_counters(keys: &KeyMap) -> [u64; 16]
    ensures { result ≡ map (λ client. min (next_in (keys_in keys.now) client) numbers_per_client)
        (range_with_len 0 16) }
{
    let mut next = [0; 16];
    for client in 0..16 {
        next[client] = counter(keys, client as u64).min(NUMBERS_PER_CLIENT);
    }
    next
}

/// How many snapshot ids are left, which is what the counter behind those of the clients stands at.
pub(crate) fn ids_left(keys: &KeyMap) -> u64
    ensures { result ≡ next_in (keys_in keys.now) 16 }
{
    counter(keys, 16)
}

// What a counter stands at, or 0 where it isn't there.
fn counter(keys: &KeyMap, number: u64) -> u64
    ensures { result ≡ next_in (keys_in keys.now) number }
{
    let pos = Pos {
        inode: 0,
        offset: number,
        snapshot: 0,
    };
    match keys.get(Btree::Counters, &pos) {
        Some(Value::Counter { next }) => *next,
        _ => 0,
    }
}
