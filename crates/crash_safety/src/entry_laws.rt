ghost use Rattle.crash_safety.specs.JournalLaws.{FlagLaws, JournalLaws};

use image_view::{
    blocks_of_a_session_are_numbered_below, crashes_leave_new_nodes,
    crashes_leave_the_next_entry_or_not, mending_changes_nothing, new_nodes_are_found,
};
use journal_ring::{
    leading_entries_are_needed, mended_entries_stay_whole, parts_have_own_places,
    same_areas_hold_one_journal, whole_entries_are_made_of_blocks,
};
use record_codec::{entries_are_exact, entry_lengths};
use sealed_block::sealed_blocks_open;

/// A journal is safe from where a volume was opened, and stays so while its entries are written, which may lead to new nodes: these are
/// written elsewhere while no entry is, and settled; then an entry is put in flight, its parts are written one after the other, devices are
/// read and flushed in between, and it is taken as the last durable one once all of it stands and a crash leaves the metadata devices as they
/// are read. So whatever a crash left at a moment means what some entry led to that was put in flight by then, in order, and no earlier one
/// than the last that was durable, where no torn block of the journal areas opens by chance. So it is too on each metadata device alone, whatever
/// blocks of the journal and of nodes are lost on the others. And whatever a crash leaves holds each entry that the last durable one needs on
/// every metadata device.
pub fn entries_are_written_safely()
    ensures { JournalLaws }
{
    crashes_leave_the_next_entry_or_not();
    crashes_leave_new_nodes();
    new_nodes_are_found();
    blocks_of_a_session_are_numbered_below();
    same_areas_hold_one_journal();
    parts_have_own_places();
    mending_changes_nothing();
    whole_entries_are_made_of_blocks();
    mended_entries_stay_whole();
    leading_entries_are_needed();
    entries_are_exact();
    entry_lengths();
    sealed_blocks_open();
}

/// A crash leaves a metadata device that was flushed since its last write as it is read. That is kept by flags: each is set when its device is
/// written to, and cleared by a flush that succeeds; where those of all metadata devices are clear, all of these are settled.
pub fn flushed_devices_are_settled()
    ensures { FlagLaws }
{}
