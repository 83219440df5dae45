//! Formats of devices that hold a volume.

use crate::format_stages::{Before, Left, NOTHING, Stage, ends_after, other_call};
use dev_model::Pick;
use std::test::Fail;

// A call to device 0 at which the earlier volume is left.
const EARLIER: Stage = Stage {
    calls: 1,
    dev: 0,
    all: Left::Earlier,
    flushed: Left::Earlier,
    torn: Left::Earlier,
};

// Both superblock copies of each device are read. Those that don't count are zeroed and flushed, and then the others, without
// which the volume doesn't mount. No device is extended, but both are flushed. Then 414 blocks of each are written, and both
// are flushed.
static STAGES: [Stage; 16] = [
    Stage {
        calls: 2,
        ..EARLIER
    },
    Stage {
        calls: 2,
        dev: 1,
        ..EARLIER
    },
    EARLIER,
    Stage { dev: 1, ..EARLIER },
    EARLIER,
    Stage { dev: 1, ..EARLIER },
    EARLIER,
    Stage {
        dev: 1,
        flushed: Left::Earlier,
        ..NOTHING
    },
    Stage {
        flushed: Left::Earlier,
        ..NOTHING
    },
    Stage { dev: 1, ..NOTHING },
    NOTHING,
    Stage { dev: 1, ..NOTHING },
    Stage {
        calls: 414,
        ..NOTHING
    },
    Stage {
        calls: 414,
        dev: 1,
        ..NOTHING
    },
    NOTHING,
    Stage { dev: 1, ..NOTHING },
];

#[test]
fn each_call_fails_and_all_is_left(rt: HostRuntime) -> Result<(), Fail> {
    let alloc = rt.alloc();
    let other = other_call(alloc, Before::Volume, &STAGES, false, Pick::AllWritten)?;
    assert!(rt; other == None);
    Ok(())
}

#[test]
fn it_crashes_at_each_call_and_blocks_are_torn(rt: HostRuntime) -> Result<(), Fail> {
    let alloc = rt.alloc();
    let other = other_call(alloc, Before::Volume, &STAGES, true, Pick::Torn)?;
    assert!(rt; other == None);
    Ok(())
}

static PICKS: [Pick; 3] = [Pick::AllWritten, Pick::NoneWritten, Pick::Torn];

#[test]
fn after_the_last_call_the_fresh_volume_is_left(rt: HostRuntime) -> Result<(), Fail> {
    for pick in PICKS.iter() {
        assert!(rt; ends_after(rt.alloc(), Before::Volume, &STAGES, *pick)?);
    }
    Ok(())
}
