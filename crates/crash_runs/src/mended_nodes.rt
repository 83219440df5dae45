//! Runs on volumes of which one mirror has lost a block of a node: they mend it, and then any mirror alone has the volume. No call that
//! fails meanwhile, and no crash, loses anything.

use crate::steps::{ALL_WRITTEN, NONE_WRITTEN, Start, Step, other_step};
use crate::trials::{EMPTY_RUN, Trial};
use dev_model::Pick;
use std::alloc::{AllocError, Global};
use std::test::Fail;

// The first block of the nodes of a fresh volume, and the last one.
const FIRST: u32 = 272;

const LAST: u32 = 415;

// How many calls read a volume of two devices, and how many more there are, at most, in a run that mends one of its nodes.
const READING: u64 = 808;

const MENDING: u64 = 60;

const MAKE: Step = Step::Run(Trial {
    script: b"mkfile main:/a\nsync\nmkfile main:/b\nsync\n",
    status: Some(0),
    ..EMPTY_RUN
});

const MEND: Step = Step::Run(Trial {
    status: Some(0),
    ..EMPTY_RUN
});

const LIST: Step = Step::Run(Trial {
    script: b"ls main:/\n",
    status: Some(0),
    printed: Some(b"@0 1 list a b\nend commits 0 synced 0\n"),
    ..EMPTY_RUN
});

// A mirror loses the block of this root, which has one.
const fn lose(dev: u8, root: u32) -> Step<'static> {
    let block = FIRST.wrapping_add(root.wrapping_mul(16));
    Step::Wipe(dev, block, block)
}

// A mirror loses its journal and all nodes.
const fn lose_all(dev: u8) -> Step<'static> {
    Step::Wipe(dev, 16, LAST)
}

// Whether a root that one of two mirrors has lost is mended, so that this mirror alone has the volume.
fn is_mended(alloc: Global, dev: u8, root: u32) -> Result<bool, AllocError> {
    let steps = [
        MAKE,
        lose(dev, root),
        ALL_WRITTEN,
        MEND,
        NONE_WRITTEN,
        lose_all(1u8.wrapping_sub(dev)),
        ALL_WRITTEN,
        LIST,
    ];
    Ok(other_step(alloc, Start::Two, &steps)?.is_none())
}

// The same of three mirrors.
fn is_mended_of_three(alloc: Global, dev: u8, root: u32) -> Result<bool, AllocError> {
    let steps = [
        MAKE,
        lose(dev, root),
        ALL_WRITTEN,
        MEND,
        NONE_WRITTEN,
        lose_all(dev.wrapping_add(1) % 3),
        lose_all(dev.wrapping_add(2) % 3),
        ALL_WRITTEN,
        LIST,
    ];
    Ok(other_step(alloc, Start::Three, &steps)?.is_none())
}

// The first root that isn't mended on some mirror, where there are two of them or three.
fn first_unmended(alloc: Global) -> Result<Option<u32>, AllocError> {
    for root in 0..9u32 {
        if !is_mended(alloc, 0, root)? || !is_mended(alloc, 1, root)? {
            return Ok(Some(root));
        }
    }
    Ok(None)
}

fn first_unmended_of_three(alloc: Global) -> Result<Option<u32>, AllocError> {
    for root in 0..9u32 {
        if !is_mended_of_three(alloc, 0, root)? || !is_mended_of_three(alloc, 2, root)? {
            return Ok(Some(root));
        }
    }
    Ok(None)
}

#[test]
fn a_node_is_mended(rt: HostRuntime) -> Result<(), Fail> {
    assert!(rt; first_unmended(rt.alloc())? == None);
    Ok(())
}

#[test]
fn a_node_is_mended_on_one_of_three_mirrors(rt: HostRuntime) -> Result<(), Fail> {
    assert!(rt; first_unmended_of_three(rt.alloc())? == None);
    Ok(())
}

// Whether nothing is lost where a call of a run that mends a root fails, alone or with all later ones, and the devices are restarted by this
// pick: the next run finds the volume and mends it.
fn is_kept(alloc: Global, call: u64, stays: bool, pick: Pick) -> Result<bool, AllocError> {
    let steps = [
        MAKE,
        lose(0, 1),
        ALL_WRITTEN,
        Step::Fail { call, stays },
        Step::Run(EMPTY_RUN),
        Step::Restart(pick),
        MEND,
        NONE_WRITTEN,
        lose_all(1),
        ALL_WRITTEN,
        LIST,
    ];
    Ok(other_step(alloc, Start::Two, &steps)?.is_none())
}

// The first call behind the reading after whose failure something is lost.
fn other_call(alloc: Global, pick: Pick) -> Result<Option<u64>, AllocError> {
    for call in READING..READING + MENDING {
        if !is_kept(alloc, call, true, pick)? || !is_kept(alloc, call, false, pick)? {
            return Ok(Some(call));
        }
    }
    Ok(None)
}

#[test]
fn a_failure_loses_nothing_where_all_is_left(rt: HostRuntime) -> Result<(), Fail> {
    assert!(rt; other_call(rt.alloc(), Pick::AllWritten)? == None);
    Ok(())
}

#[test]
fn a_failure_loses_nothing_where_what_was_flushed_is_left(rt: HostRuntime) -> Result<(), Fail> {
    assert!(rt; other_call(rt.alloc(), Pick::NoneWritten)? == None);
    Ok(())
}

#[test]
fn a_failure_loses_nothing_where_blocks_are_torn(rt: HostRuntime) -> Result<(), Fail> {
    assert!(rt; other_call(rt.alloc(), Pick::Torn)? == None);
    Ok(())
}
