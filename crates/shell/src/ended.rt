use crate::early_end::EarlyEnd;
use crate::shorts::Shorts;
use forest_ops::{Acks, Trace};
use volume::Calls;

/// How a run ended.
#[derive(Drop)]
pub struct Ended<D> {
    /// 0 where all went well; the program ends with it.
    pub status: u8,
    /// Why nothing was run, told or formatted, if so. The sink has its line.
    pub early_end: Option<EarlyEnd>,
    /// The devices as the run left them.
    pub devices: D,
    /// The history: each operation that was answered, with its reply.
    pub trace: Trace,
    /// The acknowledgements, in order: one for each sync that succeeded.
    pub acks: Acks,
    /// The answers that there was no space, in order. Free space isn't counted yet, so the list is empty.
    pub shorts: Shorts,
    /// How many operations a volume was called with, as only it counts them: each line's, and the last sync.
    pub calls: Calls,
}
