ghost use Rattle.std.specs.Prelude.{◌≡◌, ◌≤◌, ◌-◌, ℕ, Err, IfErr, IfOk, IfSome, length, true};
ghost use Rattle.dev_model.specs.Devices.{now};
ghost use Rattle.dev_model.specs.Disk.{as_read};
ghost use Rattle.dev_model.specs.Frames.{AreOnlyRead};
ghost use Rattle.geometry.specs.Faults.{DeviceFailed, SomeFailed};
ghost use Rattle.image_view.specs.Found.{found};
ghost use Rattle.image_view.specs.declared.fault.MountFault.{MountFault as AFault};
ghost use Rattle.image_reader.specs.Answers.{IsEarly};
ghost use Rattle.image_reader.specs.Faults.{failed_mount_device};
ghost use Rattle.image_reader.specs.Volumes.{found_of, last_of};
ghost use Rattle.vol_types.specs.Layouts.{is_layout};
ghost use Rattle.vol_info.specs.Facts.{facts_of, first_of};
ghost use Rattle.vol_info.specs.Readings.{AreFacts, IsFaultOf};

use crate::btrees::{entries_of, facts_of_btrees};
use crate::facts::{Facts, JournalFacts};
use crate::ids::id_facts;
use crate::space::facts_of_devices;
use dev_model::Devices;
use image_reader::{FoundVolume, read_plain};
use image_view::MountFault;
use journal_ring::FoundEntry;
use std::alloc::{AllocError, Global};
use vol_types::Btree;

/// What is told of the volume in the image that the devices hold, or the first fault of that. It reads what `read_plain` does, writes
/// nothing, and takes memory for each key, each node and each bucket.
///
/// A read of a superblock, a session or the journal that fails is a device fault, and ends it. One of a node is made up by
/// another place of it.
pub fn read_facts<D: Devices>(alloc: Global, devices: &mut D) -> Result<Facts, MountFault>
    ensures facts { IfOk result (λ facts. AreFacts D.tells facts (D.state devices.old)
        (D.state devices.new)) }
    ensures some { IfOk result (λ facts. 1 ≤ length facts.layout.blocks) }
    // Where no call failed, the fault is the image's.
    ensures fault { D.tells → ¬ SomeFailed (D.state devices.old).faults (D.state devices.new).faults
        → IfErr result (IsFaultOf (found (as_read (now (D.state devices.old))))) }
    // So are those that show before the nodes, and they come only where no call failed.
    ensures early { D.tells → (fault : AFault) → result ≡ Err fault → IsEarly fault
        → found (as_read (now (D.state devices.old))) ≡ Err fault }
    ensures unfailed { (fault : AFault) → result ≡ Err fault → IsEarly fault
        → (D.state devices.new).faults ≡ (D.state devices.old).faults }
    // A device that is named has failed.
    ensures cause { IfSome (failed_mount_device result) (λ dev. DeviceFailed dev
        (D.state devices.old).faults (D.state devices.new).faults) }
    // Whether the keys are sound isn't tested.
    ensures untested { (check : ℕ) → result ≡ Err (MountFault.Unsound check) → ⊥ }
    ensures read { AreOnlyRead D.tells (D.state devices.old) (D.state devices.new) }
{
    let found = read_plain(alloc, devices)?;
    match facts_of(alloc, found) {
        Ok(facts) => Ok(facts),
        Err(_) => Err(MountFault::NoMemory),
    }
}

// What is told of a volume that was found.
#[tactic(auto, unfolding(crate::specs::Facts::facts_of))]
fn facts_of(alloc: Global, found: FoundVolume) -> Result<Facts, AllocError>
    requires { is_layout found.layout ≡ true }
    ensures { IfOk result (λ facts. facts ≡ facts_of (found_of found)) }
{
    let btrees = match facts_of_btrees(alloc, &found) {
        Ok(btrees) => btrees,
        Err(error) => {
            drop(found);
            return Err(error);
        }
    };
    let devices = match facts_of_devices(alloc, &found) {
        Ok(devices) => devices,
        Err(error) => {
            drop(btrees);
            drop(found);
            return Err(error);
        }
    };
    let journal = journal_facts(found.needed.as_slice());
    let ids = id_facts(entries_of(&found, Btree::Snapshots));
    let commits = commits_of(found.needed.as_slice());
    let session = found.session;
    let FoundVolume {
        layout,
        session: _,
        needed,
        btrees: read,
    } = found;
    drop(needed);
    drop(read);
    Ok(Facts {
        layout,
        session,
        commits,
        journal,
        ids,
        btrees,
        devices,
    })
}

// What is told of the journal.
fn journal_facts(needed: &[FoundEntry]) -> JournalFacts
    ensures { result ≡ record {
      sequence = (last_of needed.now).entry.sequence;
      oldest = (first_of needed.now).entry.sequence;
      entries = length needed.now;
      blocks = (last_of needed.now).end - (first_of needed.now).number;
    } }
{
    match (needed.first(), needed.last()) {
        (Some(first), Some(last)) => JournalFacts {
            sequence: last.entry.sequence,
            oldest: first.entry.sequence,
            entries: needed.len() as u64,
            blocks: last.end.saturating_sub(first.number),
        },
        _ => JournalFacts {
            sequence: 0,
            oldest: 0,
            entries: 0,
            blocks: 0,
        },
    }
}

// The number of commits up to the newest entry.
fn commits_of(needed: &[FoundEntry]) -> u64
    ensures { result ≡ (last_of needed.now).entry.commits }
{
    match needed.last() {
        Some(last) => last.entry.commits,
        None => 0,
    }
}
