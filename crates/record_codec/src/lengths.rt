ghost use Rattle.std.specs.Prelude.{◌≡◌, ◌≤◌, ◌<◌, ◌*◌, ◌^◌, All, length, sum_by};
ghost use Rattle.vol_types.specs.Ranges.{IsKeyValue, IsNode};
ghost use Rattle.vol_types.specs.Standing.{IsUpdate};
ghost use Rattle.record_codec.specs.Entries.{entry_length_of, root_length_of, update_length_of};

use vol_types::{NodePtr, Update, key_length};

/// How many bytes an update takes in an entry. It goes over the names of its value.
#[tactic(auto, using(vol_types::specs::LengthLaws::short_key))]
pub fn update_length(update: &Update) -> u32
    requires { IsKeyValue update.now.value }
    ensures exact { result ≡ update_length_of update.now }
    ensures bounded { result ≤ 2223 }
{
    2 + key_length(update.value.as_ref())
}

/// How many bytes an entry takes with these roots and updates, in one pass over them.
pub fn entry_length(roots: &[NodePtr], updates: &[Update]) -> u64
    requires all_roots { length roots.now ≡ 9 }
    requires roots { All IsNode roots.now }
    requires few { length updates.now < 2 ^ 32 }
    requires updates { All IsUpdate updates.now }
    ensures { result ≡ entry_length_of roots.now updates.now }
{
    36 + roots_length(roots) + updates_length(updates)
}

fn roots_length(roots: &[NodePtr]) -> u64
    requires all_roots { length roots.now ≡ 9 }
    requires roots { All IsNode roots.now }
    ensures exact { result ≡ sum_by root_length_of roots.now }
    ensures bounded { result ≤ 25 * 9 }
{
    let mut total = 0;
    for root in roots {
        total += 10 + 5 * root.places.len() as u64;
    }
    total
}

fn updates_length(updates: &[Update]) -> u64
    requires few { length updates.now < 2 ^ 32 }
    requires updates { All IsUpdate updates.now }
    ensures exact { result ≡ sum_by update_length_of updates.now }
    ensures bounded { result ≤ 2223 * 2 ^ 32 }
{
    let mut total = 0;
    for update in updates {
        total += u64::from(update_length(update));
    }
    total
}
