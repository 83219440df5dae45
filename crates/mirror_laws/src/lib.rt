//! What a volume means where of its metadata devices one alone is left whole, and the others may have lost blocks of the journal and
//! of nodes: definitions and laws. The functions do nothing; each carries a few laws to its caller.
//!
//! What stands whole on one device, each needed entry of the journal and each node, is found there whatever the others have lost: a
//! block that is lost begins no set of a node and makes up no entry. So an image that is degraded to that device means what it did.
#![tactic(auto)]

mod degraded;
mod nodes;
mod standing;

pub use degraded::{degraded_images_mean_the_same, degraded_journals_are_read_the_same};
pub use nodes::{lost_blocks_hide_no_sets, wiped_blocks_are_lost};
pub use standing::what_stands_everywhere_stands_on_each_device;
