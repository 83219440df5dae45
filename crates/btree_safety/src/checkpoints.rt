ghost use Rattle.btree_safety.specs.CheckpointLaws.{EntryLaws, NodeLaws};

use crate::{
    entries_hold_values_up_to_an_entry, leaves_hold_keys_up_to_entries, nodes_stand,
    standing_btrees_are_named,
};
use btree_laws::{
    found_btrees_stand, keys_have_entries_by_position, standing_btrees_are_read,
    standing_btrees_change_by_exchanges,
};
use crash_safety::{
    node_parts_are_written_safely, node_parts_stand, nodes_hold_keys_up_to_an_entry,
    nodes_lie_apart,
};

/// Entries of the journal are written over btrees of any number of levels: what is kept of these is so at the opening, and stays so where commits pin
/// more, where an entry is put in flight that names the roots as they are, while its parts are written and devices are read and flushed, and where it
/// becomes the last durable one.
pub fn entries_of_btrees_are_safe()
    ensures { EntryLaws }
{
    nodes_stand();
    standing_btrees_are_named();
    entries_hold_values_up_to_an_entry();
    leaves_hold_keys_up_to_entries();
    found_btrees_stand();
    keys_have_entries_by_position();
    standing_btrees_are_read();
    standing_btrees_change_by_exchanges();
    nodes_hold_keys_up_to_an_entry();
}

/// Nodes of btrees are written while all that an entry leads to stays: free buckets are taken for them, one node after the other is frozen for these,
/// a leaf with the durable keys of its positions, and written block by block; once all are written and the metadata devices are settled, they take
/// the place of others, and the buckets of these wait for an entry that is to come.
pub fn nodes_of_btrees_are_written_safely()
    ensures { NodeLaws }
{
    found_btrees_stand();
    keys_have_entries_by_position();
    standing_btrees_change_by_exchanges();
    nodes_lie_apart();
    node_parts_stand();
    node_parts_are_written_safely();
}
