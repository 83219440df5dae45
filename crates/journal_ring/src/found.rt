use record_codec::EntryRecord;

/// A whole entry of the journal, and where it stands.
#[derive(PartialEq, Eq, Drop)]
pub struct FoundEntry {
    /// The journal block number of its part 0.
    pub number: u64,
    /// The number behind its last part.
    pub end: u64,
    pub entry: EntryRecord,
}
