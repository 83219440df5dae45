ghost use Rattle.std.specs.Prelude.{◌≡◌, ◌+◌, ◌<◌, ◌≤◌, ◌↔◌, ◌⊎◌, ℕ, All, Ok, Err, IfOk, IfSome, OnOk, length, true};
ghost use Rattle.dev_model.specs.Devices.{now};
ghost use Rattle.dev_model.specs.Disk.{as_read};
ghost use Rattle.dev_model.specs.Frames.{AreOnlyRead, GoOn};
ghost use Rattle.geometry.specs.Faults.{DeviceFailed, SomeFailed};
ghost use Rattle.geometry.specs.Layouts.{is_layout_of};
ghost use Rattle.image_view.specs.Found.{Found, NodesAgree, found, with_session};
ghost use Rattle.image_view.specs.Trees.{nodes_of};
ghost use Rattle.image_view.specs.declared.fault.MountFault.{MountFault as AFault};
ghost use Rattle.image_reader.specs.Answers.{AreRagged, Finds, IsEarly, WasWhole};
ghost use Rattle.image_reader.specs.Faults.{failed_mount_device};
ghost use Rattle.image_reader.specs.Volumes.{last_of};
ghost use Rattle.node_store.specs.Mending.{AtMostOneWriteFailed};
ghost use Rattle.replay.specs.Beginning.{IsFoundOn, failed_begin_device};
ghost use Rattle.replay.specs.Mending.{IsInOrderOn, IsReady, KeepsMeaning, KeepsPast};
ghost use Rattle.replay.specs.Opening.{IsRefusal, IsSpent, in_next_session, opening_fault};
ghost use Rattle.replay.specs.Roots.{AreRootsAlike};
ghost use Rattle.replay.specs.Volumes.{found_in};

use crate::{
    BeginFault, Loaded, begin_session, found_btrees_are_a_key_map, load, mend_journal, mend_roots,
    roots_that_show_the_same_mean_the_same,
};
use dev_model::Devices;
use image_view::MountFault;
use journal_ring::FoundEntry;
use std::alloc::Global;
use vol_types::{Layout, NodeEnd, NodePtr};

/// Opens the volume on devices for writing: loads it, begins its next session, and mends its journal and its roots, in this order. Where no
/// number of a session is left it answers `NoEntry`, as where no session is named. It costs what `load` and `begin_and_mend` do.
///
/// Where the devices showed an orderly volume, whatever a crash leaves meanwhile means the same volume, in the session that was
/// found or a later one, as far as no torn block opens by chance. After `Ok` the devices hold it in the next session, nothing of
/// the metadata devices is pending, each needed entry stands on all of them, the roots have the same sets on all of them, and no block of
/// that session stands in their journal areas. Both hold also where reads of nodes failed.
pub fn open_volume<D: Devices>(alloc: Global, devices: &mut D) -> Result<Loaded, MountFault>
    // Where no call failed, it is what the image means, in its next session.
    ensures found { D.tells → ¬ SomeFailed (D.state devices.old).faults (D.state devices.new).faults
        → Finds found_in (in_next_session (found (as_read (now (D.state devices.old))))) result }
    // So it is where reads of nodes failed, in an image on whose nodes their places agree.
    ensures made_up { D.tells → (f : Found) → found (as_read (now (D.state devices.old))) ≡ Ok f
        → NodesAgree (as_read (now (D.state devices.old))) f
        → Finds found_in (in_next_session (Ok f)) result }
    ensures crashes { D.tells → (f : Found) → IsInOrderOn f (now (D.state devices.old))
        → KeepsMeaning f (D.state devices.old) (D.state devices.new) }
    ensures ready { D.tells → (f : Found) → IsInOrderOn f (now (D.state devices.old))
        → OnOk result (IsReady (with_session (f.session + 1) f) (now (D.state devices.new))) }
    // Each root has the same sets on every metadata device then, if its places agreed on it: also where they didn't have the same
    // before, and whichever reads failed.
    ensures alike { D.tells → (f : Found) → IsFoundOn f (now (D.state devices.old))
        → NodesAgree (as_read (now (D.state devices.old))) f
        → OnOk result (AreRootsAlike f (as_read (now (D.state devices.new)))) }
    // A fault before the nodes is the image's, and comes only where no call failed, or no number of a session is left.
    ensures early { D.tells → (fault : AFault) → result ≡ Err fault → IsEarly fault
        → (found (as_read (now (D.state devices.old))) ≡ Err fault)
        ⊎ ((fault ≡ MountFault.NoEntry) × IsSpent (as_read (now (D.state devices.old)))) }
    ensures unfailed { (fault : AFault) → result ≡ Err fault → IsEarly fault
        → ¬ (fault ≡ MountFault.NoEntry)
        → (D.state devices.new).faults ≡ (D.state devices.old).faults }
    // Nothing is written where what the devices hold is refused.
    ensures refused { (fault : AFault) → result ≡ Err fault → IsRefusal fault
        → AreOnlyRead D.tells (D.state devices.old) (D.state devices.new) }
    // The layout is one of these devices, also where they don't tell what they hold.
    ensures fits { IfOk result (λ opened. is_layout_of (D.state devices.new).sizes opened.layout
        ≡ true) }
    ensures ragged { D.tells → ¬ SomeFailed (D.state devices.old).faults (D.state devices.new).faults
        → IfOk result (λ opened. AreRagged opened.layout.id (as_read (now (D.state devices.old)))
        (nodes_of opened.map.nodes) opened.ragged) }
    ensures cause { IfSome (failed_mount_device result) (λ dev. DeviceFailed dev
        (D.state devices.old).faults (D.state devices.new).faults) }
    // Whether the keys are sound isn't tested.
    ensures untested { (check : ℕ) → result ≡ Err (MountFault.Unsound check) → ⊥ }
    ensures goes_on { GoOn (D.state devices.old) (D.state devices.new) }
{
    match load(alloc, devices) {
        Ok(loaded) => begin_loaded(alloc, devices, loaded),
        Err(fault) => Err(fault),
    }
}

// Makes a volume that was loaded ready for writing.
fn begin_loaded<D: Devices>(
    alloc: Global,
    devices: &mut D,
    loaded: Loaded,
) -> Result<Loaded, MountFault>
    requires layout { is_layout_of (D.state devices.old).sizes loaded.layout ≡ true }
    requires whole { All (WasWhole loaded.layout) loaded.needed }
    ensures found { Finds found_in (in_next_session (Ok (found_in loaded))) result }
    ensures layout { IfOk result (λ opened. opened.layout ≡ loaded.layout) }
    ensures nodes { IfOk result (λ opened. opened.map.nodes ≡ loaded.map.nodes) }
    ensures ragged { IfOk result (λ opened. opened.ragged ≡ loaded.ragged) }
    ensures past { D.tells → (f : Found) → IsInOrderOn f (now (D.state devices.old))
        → f.layout ≡ loaded.layout → f.session ≡ loaded.session → f.needed ≡ loaded.needed
        → KeepsPast (D.state devices.old) (D.state devices.new) }
    ensures crashes { D.tells → (f : Found) → IsInOrderOn f (now (D.state devices.old))
        → f.layout ≡ loaded.layout → f.session ≡ loaded.session → f.needed ≡ loaded.needed
        → f.trees.ends ≡ loaded.ends → KeepsMeaning f (D.state devices.old) (D.state devices.new) }
    ensures ready { D.tells → (f : Found) → IsInOrderOn f (now (D.state devices.old))
        → f.layout ≡ loaded.layout → f.session ≡ loaded.session → f.needed ≡ loaded.needed
        → f.trees.ends ≡ loaded.ends → OnOk result (IsReady (with_session (loaded.session + 1) f) (now (D.state devices.new))) }
    ensures alike { D.tells → (f : Found) → IsFoundOn f (now (D.state devices.old))
        → NodesAgree (as_read (now (D.state devices.old))) f
        → f.layout ≡ loaded.layout → f.session ≡ loaded.session → f.needed ≡ loaded.needed
        → f.trees.ends ≡ loaded.ends
        → OnOk result (AreRootsAlike f (as_read (now (D.state devices.new)))) }
    ensures refused { (fault : AFault) → result ≡ Err fault → IsRefusal fault
        → devices.new ≡ devices.old }
    ensures spent { (fault : AFault) → result ≡ Err fault → IsRefusal fault
        → (fault ≡ MountFault.NoEntry) × (4294967295 ≤ loaded.session) }
    ensures untested { (check : ℕ) → result ≡ Err (MountFault.Unsound check) → ⊥ }
    ensures goes_on { GoOn (D.state devices.old) (D.state devices.new) }
    ensures cause { IfSome (failed_mount_device result) (λ dev. DeviceFailed dev
        (D.state devices.old).faults (D.state devices.new).faults) }
{
    match begin_and_mend(
        alloc,
        devices,
        &loaded.layout,
        loaded.session,
        loaded.needed.as_slice(),
        loaded.ends.as_slice(),
    ) {
        Ok(session) => Ok(in_session(loaded, session)),
        Err(fault) => Err(opening_fault(fault)),
    }
}

// A volume that was loaded, in another session.
fn in_session(loaded: Loaded, session: u64) -> Loaded
    ensures found { found_in result ≡ with_session session (found_in loaded) }
    ensures layout { result.layout ≡ loaded.layout }
    ensures nodes { result.map.nodes ≡ loaded.map.nodes }
    ensures ragged { result.ragged ≡ loaded.ragged }
{
    let mut opened = loaded;
    opened.session = session;
    opened
}

// The fault of a beginning as one of opening.
fn opening_fault(fault: BeginFault) -> MountFault
    ensures { result ≡ opening_fault fault }
{
    match fault {
        BeginFault::Spent => MountFault::NoEntry,
        BeginFault::DeviceFault(dev) => MountFault::DeviceFault(dev),
        BeginFault::NoMemory => MountFault::NoMemory,
    }
}

/// Makes a volume that was loaded ready for writing: begins its next session, whose number it gives, and then mends the journal, and the
/// nodes that the newest entry names, up to where these ends say that their sets end. Where no number is left it answers
/// `Spent`, and nothing is written. It costs what `begin_session`, `mend_journal` and `mend_roots` do.
///
/// Where the devices showed an orderly volume, whatever a crash leaves meanwhile means the same volume, in this session or a later
/// one, as far as no torn block opens by chance. After `Ok` the devices hold it in the next session, nothing of the metadata
/// devices is pending, each needed entry stands on all of them, the roots have the same sets on all of them, and no block of that session
/// stands in their journal areas.
pub fn begin_and_mend<D: Devices>(
    alloc: Global,
    devices: &mut D,
    layout: &Layout,
    session: u64,
    needed: &[FoundEntry],
    ends: &[NodeEnd],
) -> Result<u64, BeginFault>
    requires layout { is_layout_of (D.state devices.old).sizes layout.now ≡ true }
    requires whole { All (WasWhole layout.now) needed.now }
    ensures spent { (result ≡ Err BeginFault.Spent) ↔ (4294967295 ≤ session) }
    ensures nothing { result ≡ Err BeginFault.Spent → devices.new ≡ devices.old }
    ensures next { IfOk result (λ next. next ≡ session + 1) }
    ensures crashes { D.tells → (f : Found) → IsInOrderOn f (now (D.state devices.old))
        → f.layout ≡ layout.now → f.session ≡ session → f.needed ≡ needed.now
        → f.trees.ends ≡ ends.now → KeepsMeaning f (D.state devices.old) (D.state devices.new) }
    ensures past { D.tells → (f : Found) → IsInOrderOn f (now (D.state devices.old))
        → f.layout ≡ layout.now → f.session ≡ session → f.needed ≡ needed.now
        → KeepsPast (D.state devices.old) (D.state devices.new) }
    ensures ready { D.tells → (f : Found) → IsInOrderOn f (now (D.state devices.old))
        → f.layout ≡ layout.now → f.session ≡ session → f.needed ≡ needed.now
        → f.trees.ends ≡ ends.now → OnOk result (IsReady (with_session (session + 1) f) (now (D.state devices.new))) }
    // Each root has the same sets on every metadata device then, if its places agreed on it, whichever reads failed.
    ensures alike { D.tells → (f : Found) → IsFoundOn f (now (D.state devices.old))
        → NodesAgree (as_read (now (D.state devices.old))) f
        → f.layout ≡ layout.now → f.session ≡ session → f.needed ≡ needed.now
        → f.trees.ends ≡ ends.now
        → OnOk result (AreRootsAlike f (as_read (now (D.state devices.new)))) }
    ensures goes_on { GoOn (D.state devices.old) (D.state devices.new) }
    // A read of a node that fails is no fault where another place makes it up.
    ensures cause { AtMostOneWriteFailed (failed_begin_device result) (D.state devices.old).faults
        (D.state devices.new).faults }
    ensures device { IfSome (failed_begin_device result) (λ dev. dev < layout.now.metadata_replicas) }
{
    found_btrees_are_a_key_map();
    roots_that_show_the_same_mean_the_same();
    let next = begin_session(alloc, devices, layout, session)?;
    mend_journal(alloc, devices, layout, needed)?;
    mend_roots(alloc, devices, layout, newest_roots(needed), ends)?;
    Ok(next)
}

// The roots that the newest of some entries names; none where there is no entry.
fn newest_roots(needed: &[FoundEntry]) -> &[NodePtr]
    ensures { result.now ≡ (last_of needed.now).entry.roots }
{
    match needed.last() {
        Some(newest) => newest.entry.roots.as_slice(),
        None => &[],
    }
}
