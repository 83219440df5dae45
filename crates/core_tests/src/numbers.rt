//! Sessions of two clients on one volume: the inodes of their files have the numbers of their clients; and what either makes durable
//! by an fsync, and is told once a flush has failed.

use crate::deeds::{Deed, UNPLAYED, devices_behind, file_session};
use crate::failing::{Failing, NEVER, loaded_from};
use crate::volumes::{Ask, Told, formatted_by};
use btree_map::KeyMap;
use dev_model::Pick;
use forest_ops::Cause;
use std::alloc::Global;
use std::test::Fail;
use vol_types::{Btree, Pos};

// Client 5 makes two files, and then client 0.
static MAKING: [Deed; 3] = [Deed::MakeBy(5, 0), Deed::MakeBy(0, 2), Deed::Sync(4)];

/// The inodes that there are: the root, 1; those of client 0, whose next number is 2 in a fresh volume; and those of client 5, whose n is 1 there, so that its
/// numbers are 5 * 2^48 + 1 and the next.
static USED: [u64; 5] = [1, 2, 3, 1_407_374_883_553_281, 1_407_374_883_553_282];

/// Some that there aren't: the next numbers of both clients, and the first ones of clients 1, 4 and 6.
static UNUSED: [u64; 5] = [
    4,
    1_407_374_883_553_283,
    281_474_976_710_657,
    1_125_899_906_842_625,
    1_688_849_860_263_937,
];

// Whether an inode of this number is in the id of `main`.
fn has_inode(map: &KeyMap, number: u64) -> bool {
    let pos = Pos {
        inode: 0,
        offset: number,
        snapshot: u32::MAX,
    };
    map.get(Btree::Inodes, &pos).is_some()
}

// The first of the numbers of which there is an inode, or isn't.
fn first_where(map: &KeyMap, numbers: &[u64], is_there: bool) -> Option<u64> {
    for number in numbers {
        if has_inode(map, *number) == is_there {
            return Some(*number);
        }
    }
    None
}

// Whether there are just these inodes behind the files.
fn are_numbered(alloc: Global) -> Result<bool, Fail> {
    let mut devices = devices_behind(alloc, 1, &MAKING)?;
    match loaded_from(alloc, &mut devices, NEVER) {
        Ok(loaded) => {
            let are = first_where(&loaded.map, &USED, false).is_none()
                && first_where(&loaded.map, &UNUSED, true).is_none();
            drop(loaded);
            drop(devices);
            Ok(are)
        }
        Err(fail) => {
            drop(devices);
            Err(fail)
        }
    }
}

#[test]
fn files_have_their_clients_numbers(rt: HostRuntime) -> Result<(), Fail> {
    assert!(rt; are_numbered(rt.alloc())?);
    Ok(())
}

use Ask::{Fsync, Make, Sync};
use Deed::Tell;
use Told::{Done, Failed, Halted, Refused, Synced};

// Each client makes a file and asks for that of the other to be durable, by which all that was made is. Then one is made that nobody asks for.
static SYNCED: [Deed; 9] = [
    Tell(0, Fsync(0), Refused(Cause::NotFound)),
    Tell(5, Make(0), Done),
    Tell(0, Fsync(1), Refused(Cause::NotFound)),
    Tell(0, Fsync(0), Synced(1)),
    Tell(0, Make(1), Done),
    Tell(5, Make(2), Done),
    Tell(5, Fsync(1), Synced(3)),
    Tell(0, Sync, Synced(3)),
    Tell(0, Make(3), Done),
];

// The second fsync fails. Then come a new file of either client, files that are there, one that isn't, and what syncs.
static FAILED: [Deed; 14] = [
    Tell(5, Make(0), Done),
    Tell(0, Fsync(0), Synced(1)),
    Tell(0, Make(1), Done),
    Tell(5, Fsync(0), Failed(0)),
    Tell(0, Make(2), Halted(0)),
    Tell(5, Make(2), Halted(0)),
    Tell(0, Make(0), Refused(Cause::Exists)),
    Tell(5, Make(1), Refused(Cause::Exists)),
    Tell(0, Fsync(2), Refused(Cause::NotFound)),
    Tell(0, Fsync(0), Halted(0)),
    Tell(5, Fsync(1), Halted(0)),
    Tell(0, Sync, Halted(0)),
    Tell(5, Sync, Halted(0)),
    Deed::Count(2),
];

// The last call of the second sync, which is a flush: the first one makes three calls, and the second one two.
const SECOND_FLUSH: Failing = Failing {
    call: 4,
    stays: false,
    leaves: Pick::NoneWritten,
};

// Whether a session on one device, of which calls fail so, goes as its deeds say, and leaves so many files where nothing is left that wasn't flushed.
fn leaves(alloc: Global, failing: Failing, deeds: &[Deed], files: u64) -> Result<bool, Fail> {
    let mut played = UNPLAYED;
    let devices = file_session(alloc, formatted_by(alloc, 1)?, failing, deeds, &mut played)?;
    let left = devices.restart(failing.leaves)?;
    let mut next = UNPLAYED;
    drop(file_session(alloc, left, NEVER, &[Deed::Count(files)], &mut next)?);
    Ok(played.is_right && next.is_right)
}

#[test]
fn an_fsync_is_a_sync_of_both_clients(rt: HostRuntime) -> Result<(), Fail> {
    assert!(rt; leaves(rt.alloc(), NEVER, &SYNCED, 3)?);
    Ok(())
}

#[test]
fn a_halted_session_tells_both_clients(rt: HostRuntime) -> Result<(), Fail> {
    assert!(rt; leaves(rt.alloc(), SECOND_FLUSH, &FAILED, 1)?);
    Ok(())
}
