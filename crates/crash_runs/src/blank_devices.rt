//! Formats of devices without a block.

use crate::format_stages::{Before, NOTHING, Stage, other_call};
use dev_model::Pick;
use std::test::Fail;

// Devices without a block have no superblock to zero, so that both are only flushed, twice. They are extended and flushed. Then
// 414 blocks of each are written: the first bucket but for its superblocks, the journal area, and nine roots. Both are flushed.
static STAGES: [Stage; 12] = [
    NOTHING,
    Stage { dev: 1, ..NOTHING },
    NOTHING,
    Stage { dev: 1, ..NOTHING },
    NOTHING,
    Stage { dev: 1, ..NOTHING },
    NOTHING,
    Stage { dev: 1, ..NOTHING },
    Stage {
        calls: 414,
        ..NOTHING
    },
    Stage {
        calls: 414,
        dev: 1,
        ..NOTHING
    },
    NOTHING,
    Stage { dev: 1, ..NOTHING },
];

#[test]
fn it_crashes_at_each_call_and_what_was_flushed_is_left(rt: HostRuntime) -> Result<(), Fail> {
    let alloc = rt.alloc();
    let other = other_call(alloc, Before::Blank, &STAGES, true, Pick::NoneWritten)?;
    assert!(rt; other == None);
    Ok(())
}

#[test]
fn each_call_fails_and_blocks_are_torn(rt: HostRuntime) -> Result<(), Fail> {
    let alloc = rt.alloc();
    let other = other_call(alloc, Before::Blank, &STAGES, false, Pick::Torn)?;
    assert!(rt; other == None);
    Ok(())
}
