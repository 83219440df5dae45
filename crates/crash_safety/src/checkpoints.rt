ghost use Rattle.crash_safety.specs.CheckpointLaws.{EntryLaws, LeafLaws};

use crate::{
    entries_are_written_safely, found_roots_are_leaves, leaf_roots_are_named, leaves_stand,
    node_parts_are_written_safely, node_parts_stand, nodes_hold_keys_up_to_an_entry,
    nodes_lie_apart,
};
use bucket_pool::nodes_keep_their_buckets;

/// Entries of the journal are written over leaves: what is kept of these is so at the opening, and stays so where commits pin more, where an
/// entry is put in flight that names the roots as they are, while its parts are written and devices are read and flushed, and where it
/// becomes the last durable one.
pub fn entries_of_leaves_are_safe()
    ensures { EntryLaws }
{
    nodes_keep_their_buckets();
    entries_are_written_safely();
    nodes_hold_keys_up_to_an_entry();
    found_roots_are_leaves();
    leaf_roots_are_named();
    leaves_stand();
    node_parts_stand();
}

/// Leaves are written while all that an entry leads to stays: one is frozen with the durable keys of its btree, gets buckets that are free, and is written
/// block by block; once all are written and the metadata devices are settled, they are put in place of the roots, and the old buckets wait for an entry
/// that is to come.
pub fn leaves_are_written_safely()
    ensures { LeafLaws }
{
    nodes_hold_keys_up_to_an_entry();
    nodes_lie_apart();
    leaves_stand();
    node_parts_stand();
    node_parts_are_written_safely();
}
