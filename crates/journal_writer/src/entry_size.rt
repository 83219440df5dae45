/// What updates come to in a queue of entries.
#[derive(Clone, Copy)]
pub struct EntrySize {
    /// How many bytes they take in an entry.
    pub bytes: u64,
    /// Whether they begin a new entry: the open one is closed before them, since it would pass 64 blocks with them.
    pub new_entry: bool,
    /// By how many blocks the entries grow with them: by what the open entry grows, or by those of the new one.
    pub blocks: u32,
}
