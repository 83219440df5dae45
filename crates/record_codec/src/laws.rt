ghost use Rattle.std.specs.Prelude.{◌≡◌, ◌+◌, ◌++◌, ℕ, List, length, sum_by};
ghost use Rattle.vol_types.specs.Lengths.{key_length_of};
ghost use Rattle.vol_types.specs.declared.keys.Key.{Key};
ghost use Rattle.vol_types.specs.declared.keys.Update.{Update};
ghost use Rattle.vol_types.specs.declared.pointers.NodePtr.{NodePtr};
ghost use Rattle.vol_types.specs.Sets.{set_length_of};
ghost use Rattle.key_codec.specs.Exact.{IsExactBut};
ghost use Rattle.record_codec.specs.Entries.{IsEntry, entry_format, entry_length_of, update_length_of};
ghost use Rattle.record_codec.specs.Sets.{IsSet, set_format};
ghost use Rattle.record_codec.specs.declared.entries.EntryRecord.{EntryRecord};
ghost use Rattle.record_codec.specs.declared.fault.RecordFault.TheVariants.{Short};
ghost use Rattle.record_codec.specs.declared.sets.SetRecord.{SetRecord};

/// What is read is a set and is encoded so. What is encoded so is read, whatever follows it. A encoding that is cut is
/// too short. A fault but `Short` stays the first one, whatever follows the bytes.
pub fn sets_are_exact()
    ensures { IsExactBut Short IsSet set_format }
{}

/// No set's encoding is another one's, nor the beginning of another one.
pub fn one_set_encoding()
    ensures { (set other : SetRecord) (rest other_rest : List ℕ) → IsSet set → IsSet other
        → set_format.encode set ++ rest ≡ set_format.encode other ++ other_rest → (set ≡ other)
        × (rest ≡ other_rest) }
{}

/// A set takes as many bytes as `vol_types` says of its keys.
pub fn set_lengths()
    ensures { (set : SetRecord) → length (set_format.encode set) ≡ set_length_of set.keys }
{}

/// What is read is an entry and is encoded so. What is encoded so is read, whatever follows it. A encoding that is cut
/// is too short. A fault but `Short` stays the first one, whatever follows the bytes.
pub fn entries_are_exact()
    ensures { IsExactBut Short IsEntry entry_format }
{}

/// No entry's encoding is another one's, nor the beginning of another one.
pub fn one_entry_encoding()
    ensures { (entry other : EntryRecord) (rest other_rest : List ℕ) → IsEntry entry → IsEntry other
        → entry_format.encode entry ++ rest ≡ entry_format.encode other ++ other_rest
        → (entry ≡ other) × (rest ≡ other_rest) }
{}

/// How many bytes an entry takes.
pub fn entry_lengths()
    ensures { (entry : EntryRecord) → length (entry_format.encode entry) ≡ entry_length_of
        entry.roots entry.updates }
{}

/// An entry with more updates is longer by theirs, and a set with more keys by theirs.
pub fn lengths_add()
    ensures entries { (roots : List NodePtr) (first second : List Update)
        → entry_length_of roots (first ++ second) ≡ entry_length_of roots first + sum_by
        update_length_of second }
    ensures sets { (first second : List Key) → set_length_of (first ++ second) ≡ set_length_of
        first + sum_by (λ key. key_length_of key.value) second }
{}
