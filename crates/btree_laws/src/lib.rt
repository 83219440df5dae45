//! Btrees of any number of levels, as they stand on the devices: what is read of them, how they change where nodes give place to others, what
//! their sets hold while entries of the journal are needed, and what an entry means that names them. The functions do nothing; each carries
//! a few laws to its caller.
#![tactic(auto)]

mod bases;
mod counts;
mod exchanges;
mod found;
mod naming;
mod standing;

pub use bases::bases_are_places;
pub use counts::keys_have_entries_by_position;
pub use exchanges::{exchanges_have_forms, standing_btrees_change_by_exchanges};
pub use found::found_btrees_stand;
pub use naming::entries_name_standing_btrees;
pub use standing::standing_btrees_are_read;
