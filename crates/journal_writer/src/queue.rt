ghost use Rattle.std.specs.Prelude.{◌≡◌, ◌↔◌, ◌+◌, ◌*◌, ◌-◌, ◌<◌, ◌≤◌, ◌^◌, ◌++◌, ◌∷◌, [], All, IfOk, IsTrue, List, OnOk, false, true, length, not, sum_by, ◌==◌, vec_len, vec_capacity};
ghost use Rattle.record_codec.specs.Entries.{update_length_of};
ghost use Rattle.vol_types.specs.KeyMaps.{IsKeyMap, KeyMap};
ghost use Rattle.vol_types.specs.Standing.{IsUpdate};
ghost use Rattle.vol_types.specs.declared.keys.Update.{Update};
ghost use Rattle.journal_writer.specs.Changes.{IsPartOf, undone};
ghost use Rattle.journal_writer.specs.Queues.{AreChanges, HasNumbers, HasRoom, IsQueue, IsSizeOf, blocks_with, closed_changes, closes, count_of, empty_queue, first_with, follower_of, growth, joined, last_block, last_of, oldest, waiting, waiting_entries, with_commit, without_oldest, IsTakenOut, Queue};

use crate::changes::{KeyChanges, Pending, has_keys_of, last_left, taken_back};
use crate::entry_size::EntrySize;
use crate::open_entry::OpenEntry;
use crate::sizes::{MOST_BLOCKS, blocks_for, fits_one_entry, updates_length};
use node_mem::NodeMem;
use std::alloc::{AllocError, Global};
use std::marker::Model;
use std::mem;
use vol_types::{Btree, Update, Value};

/// The entries of a volume's journal that aren't written yet. What a call costs grows with the changes that it is given,
/// and not with those that are there, but for a few words of each closed entry where the first is taken out or put back.
#[derive(Drop)]
pub struct EntryQueue {
    mirrors: u8,
    // the oldest first
    closed: Vec<Pending>,
    open_entry: OpenEntry,
}

impl Model for EntryQueue {
    ghost use Rattle.std.specs.Prelude.{◌-◌, vec_len, vec_capacity};
    ghost use Rattle.journal_writer.specs.Queues.{IsQueue, QueueRoom};

    ghost Value = { QueueRoom };

    ghost view = { λ q. record { queue = record { mirrors = q.mirrors; closed = q.closed.items; open_entry = q.open_entry.entry }; room = q.open_entry.room; places = vec_capacity q.closed - vec_len q.closed } };

    ghost invariant = { λ q. IsQueue (record { mirrors = q.mirrors; closed = q.closed.items; open_entry = q.open_entry.entry }) };
}

impl EntryQueue {
    /// The queue of a volume with so many metadata devices, behind an entry of this sequence whose last block has this
    /// number, after so many commits. It takes no memory.
    pub fn new(alloc: Global, mirrors: u8, after: u64, behind: u64, commits: u64) -> EntryQueue
        requires mirrored { 1 ≤ mirrors }
        requires mirrors_few { mirrors ≤ 3 }
        requires number { behind + 1 < 2 ^ 64 }
        ensures { result.queue ≡ empty_queue mirrors after behind commits }
    {
        EntryQueue {
            mirrors,
            closed: Vec::new(alloc),
            open_entry: OpenEntry::new(alloc, after, behind, commits),
        }
    }

    /// How many commits there were since format, those of all entries included.
    pub fn commits(&self) -> u64
        ensures exact { result ≡ self.now.queue.open_entry.commits }
        ensures sound { IsQueue self.now.queue }
    {
        self.open_entry.commits()
    }

    /// The sequence of the entry before the open one: that of the open one is the next.
    pub fn after(&self) -> u64
        ensures { result ≡ self.now.queue.open_entry.after }
    {
        self.open_entry.after()
    }

    /// Whether a closed entry waits.
    pub fn has_closed(&self) -> bool
        ensures { result ≡ not (length self.now.queue.closed == 0) }
    {
        !self.closed.is_empty()
    }

    /// Whether the open entry has keys.
    pub fn has_keys(&self) -> bool
        ensures { result ≡ not (length self.now.queue.open_entry.changes.updates == 0) }
    {
        !self.open_entry.updates().is_empty()
    }

    /// The closed entries, the oldest first.
    pub fn closed(&self) -> &[Pending]
        ensures exact { result.now ≡ self.now.queue.closed }
        ensures numbers { All (λ entry. entry.after + 1 < 2 ^ 64) result.now }
    {
        self.closed.as_slice()
    }

    /// The updates of the open entry, in their order.
    pub fn updates(&self) -> &[Update]
        ensures exact { result.now ≡ self.now.queue.open_entry.changes.updates }
        ensures sound { IsQueue self.now.queue }
    {
        self.open_entry.updates()
    }

    /// For each update of the open entry the value that its position had before it.
    pub fn before(&self) -> &[Option<Value>]
        ensures { result.now ≡ self.now.queue.open_entry.changes.before }
    {
        self.open_entry.before()
    }

    /// The last block of the journal that the entries take.
    pub fn last_block(&self) -> u64
        ensures { result ≡ last_block self.now.queue }
    {
        self.open_entry.behind() + self.open_entry.blocks(self.mirrors)
    }

    /// Whether an entry with these updates alone takes at most 64 blocks. It stops where they take more.
    pub fn fits(&self, updates: &[Update]) -> bool
        requires { All IsUpdate updates.now }
        ensures { IsTrue result ↔ (blocks_with self.now.queue.mirrors updates.now ≤ 64) }
    {
        fits_one_entry(self.mirrors, updates)
    }

    /// What these updates come to in the entries. It goes over their names.
    pub fn size_of(&self, updates: &[Update]) -> EntrySize
        requires updates { All IsUpdate updates.now }
        requires few { blocks_with self.now.queue.mirrors updates.now ≤ 64 }
        ensures { IsSizeOf self.now.queue updates.now result }
    {
        let bytes = updates_length(updates);
        let joined = self.open_entry.blocks_after(self.mirrors, bytes);
        if joined > MOST_BLOCKS {
            return EntrySize {
                bytes,
                new_entry: true,
                blocks: blocks_for(self.mirrors, bytes) as u32,
            };
        }
        EntrySize {
            bytes,
            new_entry: false,
            blocks: (joined - self.open_entry.blocks(self.mirrors)) as u32,
        }
    }

    /// Whether the numbers of sequences, blocks and commits are left that the entries take with updates of this size, in a
    /// commit that counts or in one that doesn't.
    pub fn has_numbers(&self, size: EntrySize, counted: bool) -> bool
        ensures { (updates : List Update) → IsSizeOf self.now.queue updates size
            → IsTrue result ↔ HasNumbers updates counted self.now.queue }
    {
        if !is_left(self.open_entry.after(), 1 + number_of(size.new_entry)) {
            return false;
        }
        if !is_left(self.last_block(), 1 + u64::from(size.blocks)) {
            return false;
        }
        is_left(self.open_entry.commits(), number_of(counted))
    }

    /// Whether the numbers that the open entry takes are left, so that it can be written as it is.
    pub fn has_entry_numbers(&self) -> bool
        ensures { IsTrue result ↔ HasNumbers [] false self.now.queue }
    {
        let _ = &self.mirrors;
        self.has_numbers(self.size_of(&[]), false)
    }

    /// The sequence of the oldest entry that changes the keys of a btree, or none. It goes over the updates of the entries, up to
    /// the first of such a key.
    #[tactic(auto, using(crate::specs::FirstLaws::first_append))]
    pub fn first_with(&self, btree: Btree) -> Option<u64>
        ensures { result ≡ first_with btree (waiting_entries self.now.queue) }
    {
        match first_with(self.closed(), btree) {
            None => self.open_with(btree),
            Some(first) => Some(first),
        }
    }

    // The sequence of the open entry, if it changes the keys of a btree.
    #[tactic(auto, using(crate::proofs::Numbers::open_number))]
    fn open_with(&self, btree: Btree) -> Option<u64>
        ensures { result ≡ first_with btree (self.now.queue.open_entry ∷ []) }
    {
        if has_keys_of(self.updates(), btree) {
            return Some(self.after() + 1);
        }
        None
    }

    /// A node of level 0 of a btree with what waits taken back, the newest first. It goes over the updates of all entries,
    /// and costs a logarithm of the node's values, and memory for a value, for each that lies in it.
    pub fn taken_back(
        &self,
        alloc: Global,
        btree: Btree,
        node: NodeMem,
    ) -> Result<NodeMem, AllocError>
        ensures least { IfOk result (λ taken. taken.least ≡ node.least) }
        ensures greatest { IfOk result (λ taken. taken.greatest ≡ node.greatest) }
        ensures keys { (keys : KeyMap) → IsKeyMap keys → IsPartOf keys btree node
            → IfOk result (IsPartOf (undone (waiting self.now.queue) keys) btree) }
    {
        let node = taken_back(alloc, self.updates(), self.before(), btree, node)?;
        self.closed_back(alloc, btree, node)
    }

    // The node with the changes of the closed entries taken back, the newest first.
    fn closed_back(&self, alloc: Global, btree: Btree, node: NodeMem) -> Result<NodeMem, AllocError>
        ensures least { IfOk result (λ taken. taken.least ≡ node.least) }
        ensures greatest { IfOk result (λ taken. taken.greatest ≡ node.greatest) }
        ensures keys { (keys : KeyMap) → IsKeyMap keys → IsPartOf keys btree node
            → IfOk result (IsPartOf (undone (closed_changes self.now.queue.closed) keys) btree) }
    {
        let mut node = node;
        let count = self.closed.len();
        for done in 0..count {
            let at = last_left(count, done);
            node = self.closed[at].taken_back(alloc, btree, node)?;
        }
        Ok(node)
    }

    /// Takes all memory that `join` needs for changes with these updates, which come to this size. What is queued stays, after
    /// an `Err` too, which is out of memory. It costs what the updates do, on the average of many commits, but for their names.
    pub fn reserve(&mut self, updates: &[Update], size: EntrySize) -> Result<(), AllocError>
        requires { IsSizeOf self.old.queue updates.now size }
        ensures queue { self.new.queue ≡ self.old.queue }
        ensures ok { OnOk result (HasRoom updates.now self.new) }
        ensures room { self.old.room ≤ self.new.room }
        ensures places { self.old.places ≤ self.new.places }
    {
        if size.new_entry {
            return self.closed.reserve(1);
        }
        self.open_entry.reserve(updates.len())
    }

    /// Adds the changes of a commit, whose updates come to this size, to the open entry, which is closed before where it would
    /// pass 64 blocks with them, and waits behind those that are closed already. A commit without changes counts in the open
    /// entry too. It takes no memory, which `reserve` took, and costs what the changes do, but for their names.
    pub fn join(&mut self, changes: KeyChanges, size: EntrySize, counted: bool)
        requires size { IsSizeOf self.old.queue changes.updates size }
        requires changes { AreChanges self.old.queue.mirrors changes }
        requires numbers { HasNumbers changes.updates counted self.old.queue }
        requires room { HasRoom changes.updates self.old }
        ensures joined { self.new.queue ≡ joined changes counted self.old.queue }
        ensures grows { last_block self.new.queue ≡ last_block self.old.queue
            + growth changes.updates self.old.queue }
    {
        if size.new_entry {
            let next = self.follower(changes, size.bytes, counted);
            let full = mem::replace(&mut self.open_entry, next);
            push(&mut self.closed, full.close());
        } else {
            self.open_entry.add(changes, size.bytes, counted);
        }
    }

    // The entry that follows the open one, of the changes of a commit, whose updates take so many bytes.
    fn follower(&self, changes: KeyChanges, bytes: u64, counted: bool) -> OpenEntry
        requires bytes { bytes ≡ sum_by update_length_of changes.updates }
        requires few { blocks_with self.now.queue.mirrors changes.updates ≤ 64 }
        requires numbers { HasNumbers changes.updates counted self.now.queue }
        requires closes { closes changes.updates self.now.queue ≡ true }
        ensures { result.entry ≡ with_commit changes counted
            (follower_of self.now.queue.mirrors self.now.queue.open_entry) }
    {
        OpenEntry::of(
            self.open_entry.after() + 1,
            self.last_block(),
            self.open_entry.commits() + number_of(counted),
            changes,
            bytes,
        )
    }

    /// Takes out the entry that is written next: the first of the closed ones, or the open one where none is closed, after
    /// which a new one is open. It takes no memory, and moves the closed entries behind it by one place: they are few, since
    /// two of them that follow one another take more than 64 blocks of the journal.
    pub fn take_oldest(&mut self, alloc: Global) -> Pending
        requires { self.old.queue.closed ≡ [] → HasNumbers [] false self.old.queue }
        ensures taken { result ≡ oldest self.old.queue }
        ensures left { self.new.queue ≡ without_oldest self.old.queue }
        ensures out { IsTakenOut result self.new }
        ensures numbers { result.after + 1 < 2 ^ 64 }
        ensures blocks { last_of self.old.queue.mirrors result + 1 < 2 ^ 64 }
    {
        if self.closed.is_empty() {
            let next = self.new_entry(alloc);
            return close_open(&mut self.open_entry, next);
        }
        take_first(&mut self.closed)
    }

    // The entry that follows the open one, without changes.
    fn new_entry(&self, alloc: Global) -> OpenEntry
        requires { HasNumbers [] false self.now.queue }
        ensures { result.entry ≡ follower_of self.now.queue.mirrors self.now.queue.open_entry }
    {
        OpenEntry::new(
            alloc,
            self.open_entry.after() + 1,
            self.last_block(),
            self.open_entry.commits(),
        )
    }

    /// Puts an entry back that was taken out, before any commit joined. It goes over the updates of the entry or moves the
    /// closed entries by one place, and takes no memory.
    pub fn put_back(&mut self, entry: Pending)
        requires { IsTakenOut entry self.old }
        // All is as before it was taken out.
        ensures { (queue : Queue) → IsQueue queue → entry ≡ oldest queue
            → self.old.queue ≡ without_oldest queue → self.new.queue ≡ queue }
    {
        if self.oldest_has_keys() {
            put_first(&mut self.closed, entry);
            return;
        }
        reopen(&mut self.open_entry, entry);
    }

    // Whether the entry that is written next has keys.
    fn oldest_has_keys(&self) -> bool
        ensures { result ≡ not (length (oldest self.now.queue).changes.updates == 0) }
    {
        match self.closed.first() {
            None => self.has_keys(),
            Some(entry) => !entry.changes.updates.is_empty(),
        }
    }
}

// The sequence of the first of some entries that changes the keys of a btree, if one does.
fn first_with(entries: &[Pending], btree: Btree) -> Option<u64>
    requires { All (λ entry. entry.after + 1 < 2 ^ 64) entries.now }
    ensures { result ≡ first_with btree entries.now }
{
    for entry in entries {
        if entry.has_keys_of(btree) {
            return Some(entry.after + 1);
        }
    }
    None
}

// Adds an entry behind others, where there is a place for it.
fn push(entries: &mut Vec<Pending>, entry: Pending)
    requires { 0 < vec_capacity entries.old - vec_len entries.old }
    ensures { entries.new.items ≡ entries.old.items ++ entry ∷ [] }
{
    if entries.push(entry).is_err() {
        unreachable!()
    }
}

// Takes out the first of some entries, after which there is a place for it.
fn take_first(entries: &mut Vec<Pending>) -> Pending
    requires { 0 < length entries.old.items }
    ensures taken { entries.old.items ≡ result ∷ entries.new.items }
    ensures place { 0 < vec_capacity entries.new - vec_len entries.new }
{
    entries.remove(0)
}

// Closes the open entry, and opens this one in its place.
fn close_open(current: &mut OpenEntry, next: OpenEntry) -> Pending
    ensures closed { result ≡ current.old.entry }
    ensures next { current.new ≡ next }
{
    mem::replace(current, next).close()
}

// Opens an entry again that was closed, in the place of the open one.
fn reopen(current: &mut OpenEntry, entry: Pending)
    requires updates { All IsUpdate entry.changes.updates }
    requires few { sum_by update_length_of entry.changes.updates ≤ 64 * 3968 }
    ensures { current.new.entry ≡ entry }
{
    *current = OpenEntry::reopened(entry);
}

// Puts an entry before others, where there is a place for it.
fn put_first(entries: &mut Vec<Pending>, entry: Pending)
    requires { 0 < vec_capacity entries.old - vec_len entries.old }
    ensures { entries.new.items ≡ entry ∷ entries.old.items }
{
    if entries.insert(0, entry).is_err() {
        unreachable!()
    }
}

// Whether so many numbers follow this one below 2^64.
fn is_left(number: u64, count: u64) -> bool
    ensures { IsTrue result ↔ (number + count < 2 ^ 64) }
{
    number.checked_add(count).is_some()
}

// One for what counts.
fn number_of(counted: bool) -> u64
    ensures exact { result ≡ count_of counted }
    ensures most { result ≤ 1 }
{
    if counted { 1 } else { 0 }
}
