/// The last entry of the journal that is durable.
#[derive(Clone, Copy, PartialEq, Eq)]
pub struct Durable {
    pub sequence: u64,
    /// How many commits there were up to it since format.
    pub commits: u64,
    /// The sequence of the oldest entry that it needs.
    pub oldest: u64,
    /// The journal block number of the oldest needed entry's part 0.
    pub first: u64,
}
