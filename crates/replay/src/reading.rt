ghost use Rattle.std.specs.Prelude.{◌≡◌, ℕ, true, All, Ok, Err, IfErr, IfOk, IfSome};
ghost use Rattle.dev_model.specs.Devices.{now};
ghost use Rattle.dev_model.specs.Disk.{as_read};
ghost use Rattle.dev_model.specs.Frames.{AreOnlyRead};
ghost use Rattle.geometry.specs.Faults.{DeviceFailed, SomeFailed};
ghost use Rattle.geometry.specs.Layouts.{is_layout_of};
ghost use Rattle.image_view.specs.Found.{Found, NodesAgree, found};
ghost use Rattle.image_view.specs.Trees.{nodes_of};
ghost use Rattle.image_view.specs.declared.fault.MountFault.{MountFault as AFault};
ghost use Rattle.image_reader.specs.Answers.{AreRagged, Finds, IsEarly, IsFront, WasWhole};
ghost use Rattle.image_reader.specs.Faults.{failed_mount_device};
ghost use Rattle.image_reader.specs.Volumes.{found_of, ragged_of};
ghost use Rattle.replay.specs.Answers.{IsLoaded, IsUnmade};
ghost use Rattle.replay.specs.Volumes.{found_in};

use crate::btrees::{Unmade, key_map};
use crate::{Loaded, found_btrees_are_a_key_map};
use dev_model::Devices;
use image_reader::{FoundVolume, read_plain};
use image_view::MountFault;
use journal_ring::FoundEntry;
use std::alloc::Global;
use vol_types::{Listing, Place};

/// The volume that is found in the image that the devices hold, with its keys in memory, or the first fault. It reads what
/// `read_plain` reads, and takes memory for each node and each value; a value costs a logarithm of their number.
///
/// No call mounts besides. An image that is found mounts as its volume where its keys are sound (`Mounts`), which isn't tested; one
/// that isn't found is refused with the fault that this answers.
///
/// A read of a superblock, a session or the journal that fails is a device fault, and ends it. One of a node is made up by
/// another place of it. Where the places of a node disagree, and one that counts couldn't be read, other nodes may be read than
/// the image has, and a node is told as bad that isn't.
pub fn load<D: Devices>(alloc: Global, devices: &mut D) -> Result<Loaded, MountFault>
    // Where no call failed, it is what the image means. (A count of faults that stands at its end counts as risen.)
    ensures found { D.tells → ¬ SomeFailed (D.state devices.old).faults (D.state devices.new).faults
        → Finds found_in (found (as_read (now (D.state devices.old)))) result }
    // Also where reads of nodes failed, what is found in an image on whose nodes their places agree is loaded as it is.
    ensures made_up { D.tells → (f : Found) → found (as_read (now (D.state devices.old))) ≡ Ok f
        → NodesAgree (as_read (now (D.state devices.old))) f → IsLoaded f result }
    // The faults before the nodes are those of the image, and come only where no call failed.
    ensures early { D.tells → (fault : AFault) → result ≡ Err fault → IsEarly fault
        → found (as_read (now (D.state devices.old))) ≡ Err fault }
    ensures unfailed { (fault : AFault) → result ≡ Err fault → IsEarly fault
        → (D.state devices.new).faults ≡ (D.state devices.old).faults }
    ensures ragged { D.tells → ¬ SomeFailed (D.state devices.old).faults (D.state devices.new).faults
        → IfOk result (λ loaded. AreRagged loaded.layout.id (as_read (now (D.state devices.old)))
        (nodes_of loaded.map.nodes) loaded.ragged) }
    // The layout is one of these devices, and the needed entries were whole where they were read, also where the devices don't
    // tell what they hold.
    ensures fits { IfOk result (λ loaded. is_layout_of (D.state devices.new).sizes loaded.layout
        ≡ true) }
    ensures whole { IfOk result (λ loaded. All (WasWhole loaded.layout) loaded.needed) }
    // Also where reads of nodes failed, the layout, the session and the needed entries are the image's.
    ensures front { D.tells → IfOk result (λ loaded. IsFront (as_read (now (D.state devices.old)))
        loaded.layout loaded.session loaded.needed) }
    ensures cause { IfSome (failed_mount_device result) (λ dev. DeviceFailed dev
        (D.state devices.old).faults (D.state devices.new).faults) }
    // Whether the keys are sound isn't tested.
    ensures untested { (check : ℕ) → result ≡ Err (MountFault.Unsound check) → ⊥ }
    ensures read { AreOnlyRead D.tells (D.state devices.old) (D.state devices.new) }
{
    found_btrees_are_a_key_map();
    let read = read_plain(alloc, devices)?;
    with_map(alloc, read)
}

// A volume that was found, with its btrees as a key map. Where it has none it is told as a bad node.
fn with_map(alloc: Global, read: FoundVolume) -> Result<Loaded, MountFault>
    ensures found { IfOk result (λ loaded. found_in loaded ≡ found_of read) }
    ensures ragged { IfOk result (λ loaded. loaded.ragged ≡ ragged_of read) }
    ensures err { IfErr result (IsUnmade read) }
{
    let bad = MountFault::BadNode(root_place(read.needed.as_slice()));
    if read.needed.is_empty() {
        return Err(bad);
    }
    let FoundVolume {
        layout,
        session,
        needed,
        btrees,
    } = read;
    match key_map(alloc, btrees) {
        Ok(made) => Ok(Loaded {
            layout,
            session,
            needed,
            map: made.map,
            ends: made.ends,
            ragged: made.ragged,
        }),
        Err(Unmade::NoMemory) => Err(MountFault::NoMemory),
        Err(Unmade::NotBtrees) => Err(bad),
    }
}

// The place of the first root that the newest entry has.
fn root_place(needed: &[FoundEntry]) -> Place {
    let none = Place { dev: 0, block: 0 };
    let Some(newest) = needed.last() else {
        return none;
    };
    let Some(root) = newest.entry.roots.get(0) else {
        return none;
    };
    match root.places.get(0) {
        None => none,
        Some(place) => *place,
    }
}
