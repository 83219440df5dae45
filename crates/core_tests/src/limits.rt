//! A root at its limit of 47,616 bytes: no further name fits, and the forest stays.

use crate::deeds::{Deed, devices_behind};
use crate::volumes::Names;
use std::test::Fail;

/// How many names of 255 bytes a root holds: 56 bytes stand before its keys, and each key takes 20 for its position, 1 for its kind, 1 for the count of
/// its names, and 10 and 255 for its name; 56 and 165 times 287 are 47,411.
const NAMES: u64 = 165;

/// Beside these a key of 205 bytes fits, of a name of 173, and no larger one.
const LAST: usize = 173;

// As many names of 255 bytes are taken as fit. No further one is taken, nor one of a byte more than fits, and then the last that fits, and none behind it.
static FILLING: [Deed; 6] = [
    Deed::Make(Names::Long(255), NAMES),
    Deed::Full(Names::Long(255), NAMES),
    Deed::Full(Names::Long(LAST + 1), NAMES),
    Deed::Make(Names::Long(LAST), 1),
    Deed::Full(Names::Long(3), NAMES + 1),
    Deed::Sync(NAMES + 1),
];

#[test]
fn a_full_root_takes_no_name(rt: HostRuntime) -> Result<(), Fail> {
    drop(devices_behind(rt.alloc(), 1, &FILLING)?);
    Ok(())
}
