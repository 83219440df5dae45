ghost use Rattle.std.specs.Prelude.{◌≡◌, ◌+◌, ◌*◌, ◌<◌, ◌≤◌, ◌^◌, ◌++◌, All, List, OnOk, length, sum_by};
ghost use Rattle.record_codec.specs.Entries.{update_length_of};
ghost use Rattle.vol_types.specs.Standing.{IsUpdate};
ghost use Rattle.vol_types.specs.declared.keys.Update.{Update};
ghost use Rattle.journal_writer.specs.Changes.{no_changes};
ghost use Rattle.journal_writer.specs.Queues.{blocks_with, count_of, with_commit};

use crate::changes::{KeyChanges, Pending};
use crate::sizes::{blocks_for, updates_length};
use std::alloc::{AllocError, Global};
use std::marker::Model;
use vol_types::{Listing, SpareList, Update, Value};

/// An entry that commits join. The bytes of its updates are kept as a sum, so that what a commit costs doesn't grow with
/// the entry.
#[derive(Drop)]
pub(crate) struct OpenEntry {
    after: u64,
    behind: u64,
    commits: u64,
    updates: SpareList<Update>,
    before: SpareList<Option<Value>>,
    bytes: u64,
}

impl Model for OpenEntry {
    ghost use Rattle.std.specs.Prelude.{◌≡◌, ◌*◌, ◌≤◌, min, sum_by};
    ghost use Rattle.record_codec.specs.Entries.{update_length_of};
    ghost use Rattle.journal_writer.specs.Queues.{EntryRoom};

    ghost Value = { EntryRoom };

    ghost view = { λ entry. record { entry = record { after = entry.after; behind = entry.behind; commits = entry.commits; changes = record { updates = entry.updates.members; before = entry.before.members } }; room = min entry.updates.spare entry.before.spare } };

    ghost invariant = { λ entry. (entry.bytes ≡ sum_by update_length_of entry.updates.members) × (entry.bytes ≤ 64 * 3968) };
}

impl OpenEntry {
    /// An entry without changes. It takes no memory.
    pub(crate) fn new(alloc: Global, after: u64, behind: u64, commits: u64) -> OpenEntry
        ensures { result.entry ≡ record
            { after = after; behind = behind; commits = commits; changes = no_changes } }
    {
        OpenEntry {
            after,
            behind,
            commits,
            updates: SpareList::new(alloc),
            before: SpareList::new(alloc),
            bytes: 0,
        }
    }

    /// An entry of the changes of one commit, whose updates take so many bytes. It takes no memory.
    pub(crate) fn of(
        after: u64,
        behind: u64,
        commits: u64,
        changes: KeyChanges,
        bytes: u64,
    ) -> OpenEntry
        requires few { bytes ≤ 64 * 3968 }
        requires bytes { bytes ≡ sum_by update_length_of changes.updates }
        ensures { result.entry ≡ record
            { after = after; behind = behind; commits = commits; changes = changes } }
    {
        OpenEntry {
            after,
            behind,
            commits,
            updates: SpareList::from(changes.updates),
            before: SpareList::from(changes.before),
            bytes,
        }
    }

    /// An entry that was closed, opened again. It goes over its updates, and takes no memory.
    pub(crate) fn reopened(entry: Pending) -> OpenEntry
        requires updates { All IsUpdate entry.changes.updates }
        requires few { sum_by update_length_of entry.changes.updates ≤ 64 * 3968 }
        ensures { result.entry ≡ entry }
    {
        let bytes = updates_length(entry.changes.updates.as_slice());
        OpenEntry::of(
            entry.after,
            entry.behind,
            entry.commits,
            entry.changes,
            bytes,
        )
    }

    pub(crate) fn after(&self) -> u64
        ensures { result ≡ self.now.entry.after }
    {
        self.after
    }

    pub(crate) fn behind(&self) -> u64
        ensures { result ≡ self.now.entry.behind }
    {
        self.behind
    }

    pub(crate) fn commits(&self) -> u64
        ensures { result ≡ self.now.entry.commits }
    {
        self.commits
    }

    pub(crate) fn updates(&self) -> &[Update]
        ensures { result.now ≡ self.now.entry.changes.updates }
    {
        self.updates.as_slice()
    }

    pub(crate) fn before(&self) -> &[Option<Value>]
        ensures { result.now ≡ self.now.entry.changes.before }
    {
        self.before.as_slice()
    }

    /// How many blocks the entry takes.
    pub(crate) fn blocks(&self, mirrors: u8) -> u64
        ensures { result ≡ blocks_with mirrors self.now.entry.changes.updates }
    {
        blocks_for(mirrors, self.bytes)
    }

    /// How many blocks the entry takes with further updates of so many bytes.
    pub(crate) fn blocks_after(&self, mirrors: u8, bytes: u64) -> u64
        requires { bytes ≤ 64 * 3968 }
        ensures { (updates : List Update) → bytes ≡ sum_by update_length_of updates
            → result ≡ blocks_with mirrors (self.now.entry.changes.updates ++ updates) }
    {
        blocks_for(mirrors, self.bytes + bytes)
    }

    /// Makes room for so many more updates with their values from before.
    pub(crate) fn reserve(&mut self, count: usize) -> Result<(), AllocError>
        ensures entry { self.new.entry ≡ self.old.entry }
        ensures ok { OnOk result (count ≤ self.new.room) }
        ensures room { self.old.room ≤ self.new.room }
    {
        self.updates.reserve(count)?;
        self.before.reserve(count)
    }

    /// Adds the changes of a commit, whose updates take so many bytes. It takes no memory where there is room.
    pub(crate) fn add(&mut self, changes: KeyChanges, bytes: u64, counted: bool)
        requires bytes { bytes ≡ sum_by update_length_of changes.updates }
        requires pairs { length changes.before ≡ length changes.updates }
        requires few { sum_by update_length_of (self.old.entry.changes.updates ++ changes.updates)
            ≤ 64 * 3968 }
        requires room { length changes.updates ≤ self.old.room }
        requires numbers { self.old.entry.commits + count_of counted < 2 ^ 64 }
        ensures { self.new.entry ≡ with_commit changes counted self.old.entry }
    {
        self.bytes += bytes;
        add_all(&mut self.updates, changes.updates);
        add_all(&mut self.before, changes.before);
        if counted {
            self.commits += 1;
        }
    }

    /// The entry that the next commit doesn't join any more.
    pub(crate) fn close(self) -> Pending
        ensures { result ≡ self.entry }
    {
        Pending {
            after: self.after,
            behind: self.behind,
            commits: self.commits,
            changes: KeyChanges {
                updates: Listing::from(self.updates),
                before: Listing::from(self.before),
            },
        }
    }
}

// Adds members to a list that has room for them.
fn add_all<T: Drop>(list: &mut SpareList<T>, members: Listing<T>)
    requires { length members ≤ list.old.spare }
    ensures { list.new.members ≡ list.old.members ++ members }
{
    for member in Vec::from(members) {
        list.push(member);
    }
}
