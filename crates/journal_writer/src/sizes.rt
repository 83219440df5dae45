ghost use Rattle.std.specs.Prelude.{◌≡◌, ◌+◌, ◌*◌, ◌≤◌, ◌<◌, ◌^◌, ◌↔◌, All, IsTrue, sum_by};
ghost use Rattle.journal_ring.specs.EntryBlocks.{part_count};
ghost use Rattle.record_codec.specs.Entries.{update_length_of};
ghost use Rattle.vol_types.specs.Standing.{IsUpdate};
ghost use Rattle.journal_writer.specs.Queues.{blocks_with, head_length};

use journal_ring::part_count;
use record_codec::update_length;
use vol_types::Update;

/// The most blocks of an entry.
pub(crate) const MOST_BLOCKS: u64 = 64;

/// How many bytes updates take in an entry. It goes over their names.
pub(crate) fn updates_length(updates: &[Update]) -> u64
    requires updates { All IsUpdate updates.now }
    requires few { sum_by update_length_of updates.now ≤ 64 * 3968 }
    ensures { result ≡ sum_by update_length_of updates.now }
{
    let mut total = 0;
    for update in updates {
        total += u64::from(update_length(update));
    }
    total
}

/// How many blocks an entry takes with updates of so many bytes.
pub(crate) fn blocks_for(mirrors: u8, bytes: u64) -> u64
    requires { bytes < 2 ^ 62 }
    ensures { result ≡ part_count (head_length mirrors + bytes) }
{
    part_count(36 + 9 * (10 + 5 * u64::from(mirrors)) + bytes)
}

/// Whether an entry with these updates alone takes at most 64 blocks, where there are so many metadata devices. It goes over
/// the updates, and stops where they take more.
pub(crate) fn fits_one_entry(mirrors: u8, updates: &[Update]) -> bool
    requires { All IsUpdate updates.now }
    ensures { IsTrue result ↔ (blocks_with mirrors updates.now ≤ 64) }
{
    let most = 64 * 3968 - (36 + 9 * (10 + 5 * u64::from(mirrors)));
    let mut total = 0;
    for update in updates {
        total += u64::from(update_length(update));
        if total > most {
            return false;
        }
    }
    true
}
