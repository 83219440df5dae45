//! A session over an open volume: its history and what it acknowledged, beside the core; the works on what is durable; and what a run
//! leaves of a volume.
//!
//! The type keeps what a session promises. Where the devices tell what they hold, and it began with a volume that is sound and tidy, its history is
//! legal from the forest that was found then; the keys in memory mean the forest after it; and whatever a crash has left at a moment since
//! mounts as the volume after a prefix of its commits, with all that was acknowledged by then, as far as no torn block opens by chance.
//!
//! Two works are driven by a client: a sync, which makes all commits durable, and a checkpoint, which writes nodes anew so that the journal
//! can let its entries go. It keeps whether a commit was refused for want of room that no checkpoint has met, or that wasn't tried again behind one. What a run leaves, from the first read of its devices on, are laws over what a session keeps, over the opening of
//! a volume, and over format.
#![tactic(auto)]

mod rounds;
mod run_laws;
mod session;
mod shortages;
mod writeback;
mod writeback_end;

pub use run_laws::{fresh_volumes_may_run, runs_are_safe};
pub use session::{Session, Uncommitted};
pub use shortages::may_be_helped;
pub use writeback::{checkpoint, sync_all};
pub use writeback_end::WritebackEnd;
