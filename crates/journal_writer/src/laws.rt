ghost use Rattle.std.specs.Prelude.{ℕ, ◌≡◌, ◌+◌, ◌<◌, ◌≤◌, ◌++◌, ◌∷◌, [], Bool, false, true, List, Option, None, Some, All, Contains, length};
ghost use Rattle.std.specs.Option.{option_or};
ghost use Rattle.btree_map.specs.Applied.{values_before};
ghost use Rattle.btree_map.specs.Trees.{IsTrees, Trees, keys_in};
ghost use Rattle.journal_ring.specs.EntryBlocks.{parts_of};
ghost use Rattle.record_codec.specs.Entries.{IsEntryInRange};
ghost use Rattle.vol_types.specs.KeyMaps.{IsKeyMap, KeyMap, entries_of, with_updates};
ghost use Rattle.vol_types.specs.Ranges.{IsKeyValue, IsNode};
ghost use Rattle.vol_types.specs.Standing.{IsUpdate};
ghost use Rattle.vol_types.specs.declared.keys.Update.{Update as AnUpdate};
ghost use Rattle.vol_types.specs.declared.pointers.NodePtr.{NodePtr as ANode};
ghost use Rattle.vol_types.specs.declared.positions.Btree.{Btree as ABtree};
ghost use Rattle.journal_writer.specs.Changes.{LeadTo, changes_btree, changes_of, undone};
ghost use Rattle.journal_writer.specs.Queues.{AreBehind, AreChanges, HasNumbers, IsQueue, Queue, blocks_with, closed_changes, count_of, first_with, growth, last_block, last_of, durable_keys, empty_queue, joined, oldest, record_of, waiting, waiting_entries, without_oldest};
ghost use Rattle.journal_writer.specs.declared.changes.KeyChanges.{KeyChanges as SomeChanges};
ghost use Rattle.journal_writer.specs.declared.changes.Pending.{Pending as APending};

/// An entry of the queue can be written: with a root for each btree, of as many places as there are metadata devices, it
/// takes the blocks that the queue counts, at most 64.
pub fn entries_fit()
    ensures { (mirrors oldest_needed session : ℕ) (roots : List ANode) (entry : APending)
        → AreChanges mirrors entry.changes → oldest_needed ≤ entry.after + 1 → length roots ≡ 9
        → All IsNode roots → All (λ root. length root.places ≡ mirrors) roots
        → IsEntryInRange (record_of oldest_needed session roots entry)
        × (parts_of (record_of oldest_needed session roots entry)
        ≡ blocks_with mirrors entry.changes.updates)
        × (parts_of (record_of oldest_needed session roots entry) ≤ 64) }
{}

/// Updates that are made and taken back leave the key map as it was, and what they are taken back with is in range and as
/// many values as there are updates.
pub fn commits_are_undone()
    ensures one { (updates : List AnUpdate) (keys : KeyMap) → IsKeyMap keys
        → undone (changes_of updates keys ∷ []) (with_updates updates keys) ≡ keys }
    ensures all { (changes : List SomeChanges) (first last : KeyMap) → IsKeyMap first
        → LeadTo changes first last → undone changes last ≡ first }
    ensures in_range { (updates : List AnUpdate) (trees : Trees) → IsTrees trees
        → All IsUpdate updates → All IsKeyValue (values_before updates (keys_in trees)) }
    ensures pairs { (updates : List AnUpdate) (keys : KeyMap) → length (values_before updates keys)
        ≡ length updates }
{}

/// The changes that wait lead from the key map that durable entries mean to the one in memory: at first, after a commit, after
/// an entry was taken out to be written, and once that is durable. So taking them back gives the durable one, and a commit
/// leaves that as it was.
pub fn waiting_changes_lead_from_durable_keys()
    ensures empty { (mirrors after behind commits : ℕ) (keys : KeyMap)
        → LeadTo (waiting (empty_queue mirrors after behind commits)) keys keys }
    ensures joined { (in_flight : List SomeChanges) (queue : Queue) (updates : List AnUpdate)
        (counted : Bool) (durable keys : KeyMap)
        → LeadTo (in_flight ++ waiting queue) durable keys
        → LeadTo (in_flight ++ waiting (joined (changes_of updates keys) counted queue)) durable
        (with_updates updates keys) }
    ensures taken { (queue : Queue) (durable keys : KeyMap) → LeadTo (waiting queue) durable keys
        → LeadTo ((oldest queue).changes ∷ waiting (without_oldest queue)) durable keys }
    ensures settled { (changes : SomeChanges) (later : List SomeChanges) (durable keys : KeyMap)
        → LeadTo (changes ∷ later) durable keys
        → LeadTo later (with_updates changes.updates durable) keys }
    ensures durable { (in_flight : List SomeChanges) (queue : Queue) (durable keys : KeyMap)
        → IsKeyMap durable → LeadTo (in_flight ++ waiting queue) durable keys
        → durable_keys in_flight queue keys ≡ durable }
{}

/// Of entries under rising sequences the first one that changes a btree is the oldest one, and is behind what the entries follow.
/// Where none does, what the btree has is the same without their changes. The entries of a queue are such ones, with the
/// changes that wait.
pub fn btrees_change_from_their_first_entry()
    ensures oldest { (btree : ABtree) (sequence : ℕ) (entries : List APending) (entry : APending)
        → AreBehind sequence entries → Contains entries entry
        → changes_btree btree entry.changes.updates ≡ true → (first : ℕ)
        × (first_with btree entries ≡ Some first) × (first ≤ entry.after + 1) }
    ensures there { (btree : ABtree) (entries : List APending) (first : ℕ)
        → first_with btree entries ≡ Some first → (entry : APending) × Contains entries entry
        × (changes_btree btree entry.changes.updates ≡ true) × (first ≡ entry.after + 1) }
    ensures none { (btree : ABtree) (entries : List APending) (entry : APending)
        → first_with btree entries ≡ None → Contains entries entry
        → changes_btree btree entry.changes.updates ≡ false }
    ensures later { (btree : ABtree) (sequence : ℕ) (entries : List APending) (first : ℕ)
        → AreBehind sequence entries → first_with btree entries ≡ Some first → sequence < first }
    ensures appended { (btree : ABtree) (entries others : List APending)
        → first_with btree (entries ++ others) ≡ option_or (first_with btree entries)
        (first_with btree others) }
    ensures unchanged { (btree : ABtree) (entries : List APending) (keys : KeyMap)
        → first_with btree entries ≡ None
        → entries_of (undone (closed_changes entries) keys) btree ≡ entries_of keys btree }
    ensures in_turn { (sequence : ℕ) (queue : Queue) → IsQueue queue
        → sequence ≤ (oldest queue).after → AreBehind sequence (waiting_entries queue) }
    ensures changes { (queue : Queue) → closed_changes (waiting_entries queue) ≡ waiting queue }
{}

/// A queue stays one after a commit, with the same metadata devices, and counts the commit, if that counts. The entry that is
/// written next follows the same one as before, and the last block is as many blocks later as the entries grow by.
pub fn commits_leave_queues()
    ensures sound { (changes : SomeChanges) (counted : Bool) (queue : Queue) → IsQueue queue
        → AreChanges queue.mirrors changes → HasNumbers changes.updates counted queue
        → IsQueue (joined changes counted queue) }
    ensures mirrors { (changes : SomeChanges) (counted : Bool) (queue : Queue)
        → (joined changes counted queue).mirrors ≡ queue.mirrors }
    ensures commits { (changes : SomeChanges) (counted : Bool) (queue : Queue)
        → (joined changes counted queue).open_entry.commits ≡ queue.open_entry.commits + count_of
        counted }
    ensures oldest { (changes : SomeChanges) (counted : Bool) (queue : Queue)
        → ((oldest (joined changes counted queue)).after ≡ (oldest queue).after)
        × ((oldest (joined changes counted queue)).behind ≡ (oldest queue).behind) }
    ensures last { (changes : SomeChanges) (counted : Bool) (queue : Queue)
        → last_block (joined changes counted queue) ≡ last_block queue + growth changes.updates
        queue }
{}

/// A queue stays one after its oldest entry was taken out, with the same metadata devices and the same commits. What is
/// written next follows that entry, whose blocks end at the last one of all or before it.
pub fn entries_leave_in_turn()
    ensures sound { (queue : Queue) → IsQueue queue
        → (queue.closed ≡ [] → HasNumbers [] false queue) → IsQueue (without_oldest queue) }
    ensures mirrors { (queue : Queue) → (without_oldest queue).mirrors ≡ queue.mirrors }
    ensures commits { (queue : Queue) → (without_oldest queue).open_entry.commits
        ≡ queue.open_entry.commits }
    ensures sequence { (queue : Queue) → IsQueue queue → (oldest (without_oldest queue)).after
        ≡ (oldest queue).after + 1 }
    ensures blocks { (queue : Queue) → IsQueue queue → (oldest (without_oldest queue)).behind
        ≡ last_of queue.mirrors (oldest queue) }
    ensures last { (queue : Queue) → IsQueue queue → last_of queue.mirrors (oldest queue)
        ≤ last_block queue }
{}
