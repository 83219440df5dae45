//! Six hundred files, each with a sync, by which the journal's ring goes round.

use crate::deeds::{Deed, devices_behind};
use crate::moves::{NO_VALUES, Version};
use crate::remains::{Newest, found_on};
use crate::volumes::Names;
use dev_model::Pick;
use std::alloc::Global;
use std::test::Fail;

/// How many files are made.
const FILES: u64 = 600;

static ROUNDS: [Deed; 2] = [Deed::MakeEach(Names::Numbered, FILES), Deed::Count(FILES)];

// No version is looked for.
const NO_VERSION: Version = Version {
    commits: 0,
    values: NO_VALUES,
};

// What the newest entry says behind them, and a restart.
fn newest_behind(alloc: Global) -> Result<Option<Newest>, Fail> {
    let devices = devices_behind(alloc, 1, &ROUNDS)?;
    let mut devices = devices.restart(Pick::NoneWritten)?;
    let found = found_on(alloc, &mut devices, NO_VERSION, NO_VERSION);
    drop(devices);
    Ok(found.newest)
}

// 192 files fill the ring as far as it is filled, so there is a checkpoint before the files 193, 385 and 577, each with an entry of its own. The first
// entry is format's, of the sequence 1 and in block 0 of the ring; each takes one block.
fn is_expected(newest: Option<Newest>) -> bool {
    match newest {
        Some(newest) => {
            newest.commits == FILES
                && newest.sequence == 604
                && newest.oldest == 581
                && newest.number == 603
        }
        None => false,
    }
}

#[test]
fn six_hundred_files_go_round_the_ring(rt: HostRuntime) -> Result<(), Fail> {
    assert!(rt; is_expected(newest_behind(rt.alloc())?));
    Ok(())
}
