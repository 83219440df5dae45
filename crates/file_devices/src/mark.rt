/// A call of a file in memory: at which moment of the file, and its device's own moments before and behind it.
#[derive(Clone, Copy)]
pub struct Mark {
    pub at: u64,
    pub before: u64,
    pub behind: u64,
}
