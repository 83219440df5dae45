ghost use Rattle.std.specs.Map.{keys_of};
ghost use Rattle.std.specs.Prelude.{All, option_copied};
ghost use Rattle.journal_writer.specs.Changes.{undone};
ghost use Rattle.journal_writer.specs.Queues.{durable_keys, waiting};
ghost use Rattle.node_writeback.specs.Durable.{changes_in_flight};
ghost use Rattle.vol_types.specs.KeyMaps.{KeyMap, entries_of};
ghost use Rattle.vol_types.specs.Widths.{PosFits};

use journal_writer::{EntryQueue, Pending};
use vol_types::{Btree, Update, wide};

/// Where the positions of a btree's keys have the widths of their types, they have them once what isn't durable is taken back. It
/// goes over the updates of all these entries.
pub(crate) fn see_widths(queue: &EntryQueue, flight: Option<&Pending>, btree: Btree)
    ensures { (keys : KeyMap) → All PosFits (keys_of (entries_of keys btree)) → All PosFits
        (keys_of (entries_of (durable_keys (changes_in_flight (option_copied flight.entry)) queue.now.queue keys)
        btree)) }
{
    see_queue(queue, btree);
    match flight {
        None => {}
        Some(entry) => see_updates(entry.changes.updates.as_slice()),
    }
}

// The same where what waits is taken back.
fn see_queue(queue: &EntryQueue, btree: Btree)
    ensures { (keys : KeyMap) → All PosFits (keys_of (entries_of keys btree)) → All PosFits
        (keys_of (entries_of (undone (waiting queue.now.queue) keys) btree)) }
{
    see_updates(queue.updates());
    see_entries(queue.closed());
}

// The positions of the updates of entries have the widths of their types.
fn see_entries(entries: &[Pending])
    ensures { All (λ entry. All (λ update. PosFits update.pos) entry.changes.updates) entries.now }
{
    for entry in entries {
        see_updates(entry.changes.updates.as_slice());
    }
}

// The positions of updates have the widths of their types.
fn see_updates(updates: &[Update])
    ensures { All (λ update. PosFits update.pos) updates.now }
{
    for update in updates {
        let _ = wide(&update.pos);
    }
}
