ghost use Rattle.vol_format.specs.Laws.{FoundLaws};

use image_view::new_nodes_hold_the_keys;
use journal_ring::{leading_entries_are_needed, written_entries_are_whole};
use key_meaning::fresh_keys_mean_fresh;
use record_codec::{entry_lengths, set_lengths};
use sealed_block::sealed_blocks_open;

/// The laws on which it hangs that what format writes is the fresh volume.
pub(crate) fn found_laws()
    ensures { FoundLaws }
{
    sealed_blocks_open();
    entry_lengths();
    written_entries_are_whole();
    leading_entries_are_needed();
    set_lengths();
    new_nodes_hold_the_keys();
    fresh_keys_mean_fresh();
}
