ghost use Rattle.vol_core.specs.CoreLaws.{CoreLaws, FoundLaws};

use birth_index::exchanges_are_kept;
use bucket_pool::nodes_keep_their_buckets;
use crash_safety::{
    entries_are_written_safely, entries_of_leaves_are_safe, flushed_devices_are_settled,
    leaves_are_written_safely,
};
use dirty_nodes::changed_pins_are_known;
use image_view::{
    crashes_leave_the_next_entry_or_not, mending_changes_nothing, needed_entries_are_counted,
    updates_of_leaves_join_the_keys,
};
use journal_ring::{
    leading_entries_are_needed, mended_entries_stay_whole, whole_entries_are_made_of_blocks,
};
use journal_writer::waiting_changes_lead_from_durable_keys;
use node_mem::keys_are_merged;
use node_writeback::leaves_are_put_in_place;
use replay::{found_btrees_are_a_key_map, updates_change_nodes};

/// All that the events of an open volume hang on: the clauses of the laws of crates below, in one place.
pub(crate) fn open_volumes_have_laws()
    ensures { CoreLaws }
{
    entries_are_written_safely();
    crashes_leave_the_next_entry_or_not();
    mending_changes_nothing();
    whole_entries_are_made_of_blocks();
    mended_entries_stay_whole();
    flushed_devices_are_settled();
    waiting_changes_lead_from_durable_keys();
    entries_of_leaves_are_safe();
    leaves_are_written_safely();
    changed_pins_are_known();
    leaves_are_put_in_place();
    nodes_keep_their_buckets();
    exchanges_are_kept();
    keys_are_merged();
}

/// What is known of what was found on devices.
pub(crate) fn found_volumes_have_laws()
    ensures { FoundLaws }
{
    needed_entries_are_counted();
    updates_of_leaves_join_the_keys();
    updates_change_nodes();
    found_btrees_are_a_key_map();
    leading_entries_are_needed();
}
