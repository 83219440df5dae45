use crate::FoundEntry;
use vol_types::Listing;

/// What the journal areas of a volume hold.
#[derive(PartialEq, Eq, Drop)]
pub enum Journal {
    /// No entry is whole.
    NoEntry,
    /// The newest entry needs the one of this sequence, and that isn't whole. No other missing one has a smaller sequence.
    Missing(u64),
    /// The needed entries in their order; the last one is the newest.
    Needed(Listing<FoundEntry>),
}
