ghost use Rattle.std.specs.Prelude.{◌≡◌, ◌↔◌, ◌<◌, All, IfSome, IsTrue, OnOk, length};
ghost use Rattle.dev_model.specs.Crashes.{EachCrash, IsQuiet};
ghost use Rattle.dev_model.specs.Devices.{now};
ghost use Rattle.dev_model.specs.Disk.{as_read};
ghost use Rattle.dev_model.specs.Frames.{AreOnlyRead, GoOn};
ghost use Rattle.geometry.specs.Faults.{DeviceFailed, SomeFailed, failed_device};
ghost use Rattle.node_store.specs.Mending.{AtMostOneWriteFailed, KeepsRest, WritesOnly};
ghost use Rattle.replay.specs.Roots.{IsMendedIn, IsOnMirror, IsToMendIn, IsToMendOf, IsWantedIn, IsWantedOf, IsWholeUpTo, ShareNoBlock, StaysShownUpTo, listed_end};

use dev_model::Devices;
use geometry::DiskFault;
use node_store::mend_node;
use std::alloc::Global;
use vol_types::{Layout, NodeEnd, NodePtr, Place};

// Whether each place is on a metadata device.
fn are_on_mirrors(layout: &Layout, places: &[Place]) -> bool
    ensures { IsTrue result ↔ All (IsOnMirror layout.now) places.now }
{
    for place in places {
        if place.dev >= layout.metadata_replicas {
            return false;
        }
    }
    true
}

// Where the sets of a node of this birth end, by the first end that names it.
fn listed_end(ends: &[NodeEnd], birth: u64) -> Option<u8>
    ensures { result ≡ listed_end ends.now birth }
{
    for end in ends {
        if end.birth == birth {
            return Some(end.block);
        }
    }
    None
}

// Mends a node up to its listed end, if each of its places is on a metadata device.
fn mend_root<D: Devices>(
    alloc: Global,
    devices: &mut D,
    layout: &Layout,
    root: &NodePtr,
    ends: &[NodeEnd],
) -> Result<(), DiskFault>
    ensures writes { D.tells → WritesOnly (IsToMendIn layout.now.id ends.now root.now
        (as_read (now (D.state devices.old))) (λ dev. DeviceFailed dev (D.state devices.old).faults
        (D.state devices.new).faults)) (IsWantedIn layout.now.id ends.now root.now
        (as_read (now (D.state devices.old)))) (D.state devices.old) (D.state devices.new) }
    ensures kept { D.tells → IsQuiet (now (D.state devices.old)) → EachCrash (λ _ _ image.
        StaysShownUpTo layout.now.id ends.now (as_read (now (D.state devices.old))) image root.now)
        (D.state devices.old) (D.state devices.new) }
    ensures idle { D.tells → ¬ SomeFailed (D.state devices.old).faults (D.state devices.new).faults
        → IsWholeUpTo ends.now (as_read (now (D.state devices.old))) root.now
        → AreOnlyRead D.tells (D.state devices.old) (D.state devices.new) }
    ensures mended { D.tells → OnOk result (IsMendedIn layout.now ends.now
        (D.state devices.old).sizes (as_read (now (D.state devices.old)))
        (as_read (now (D.state devices.new))) root.now) }
    ensures rest { D.tells → OnOk result (KeepsRest (D.state devices.old) (D.state devices.new)) }
    ensures goes_on { GoOn (D.state devices.old) (D.state devices.new) }
    ensures cause { AtMostOneWriteFailed (failed_device result) (D.state devices.old).faults
        (D.state devices.new).faults }
    ensures device { IfSome (failed_device result) (λ dev. dev < layout.now.metadata_replicas) }
{
    let Some(end) = listed_end(ends, root.birth) else {
        devices.count();
        return Ok(());
    };
    if !are_on_mirrors(layout, root.places.as_slice()) {
        devices.count();
        return Ok(());
    }
    mend_node(alloc, devices, layout, root, end)
}

/// Mends the nodes that a volume's newest entry names as the roots of its btrees, each up to where its sets end, as `mend_node` does: each
/// block of such a node that one of its places shows is written on each other place that shows no block of the node there, or
/// that can't be read, and flushed. A node that no end names is left, and so is one of which a place isn't on a metadata device.
///
/// A node that stands whole on each of its places costs no write where no read of it fails. It reads each block of the nodes' sets at
/// most twice at each place.
pub fn mend_roots<D: Devices>(
    alloc: Global,
    devices: &mut D,
    layout: &Layout,
    roots: &[NodePtr],
    ends: &[NodeEnd],
) -> Result<(), DiskFault>
    // Whatever a crash leaves meanwhile is the same but at places that lacked a block of their node or couldn't be read, and there
    // nothing opens but what a place of it showed, as far as no torn block opens by chance.
    ensures writes { D.tells → ShareNoBlock roots.now → WritesOnly (IsToMendOf layout.now.id ends.now
        roots.now (length roots.now) (as_read (now (D.state devices.old))) (λ dev. DeviceFailed dev
        (D.state devices.old).faults (D.state devices.new).faults)) (IsWantedOf layout.now.id ends.now
        roots.now (length roots.now) (as_read (now (D.state devices.old)))) (D.state devices.old)
        (D.state devices.new) }
    // What was shown somewhere is shown somewhere still.
    ensures kept { D.tells → ShareNoBlock roots.now → IsQuiet (now (D.state devices.old))
        → EachCrash (λ _ _ image. All (StaysShownUpTo layout.now.id ends.now
        (as_read (now (D.state devices.old))) image) roots.now) (D.state devices.old)
        (D.state devices.new) }
    // Nodes that stand whole cost no write, where no read fails.
    ensures idle { D.tells → ¬ SomeFailed (D.state devices.old).faults (D.state devices.new).faults
        → All (IsWholeUpTo ends.now (as_read (now (D.state devices.old)))) roots.now
        → AreOnlyRead D.tells (D.state devices.old) (D.state devices.new) }
    // They stand whole then, whichever reads failed.
    ensures mended { D.tells → ShareNoBlock roots.now → OnOk result (All (IsMendedIn layout.now ends.now
        (D.state devices.old).sizes (as_read (now (D.state devices.old)))
        (as_read (now (D.state devices.new)))) roots.now) }
    ensures rest { D.tells → OnOk result (KeepsRest (D.state devices.old) (D.state devices.new)) }
    ensures goes_on { GoOn (D.state devices.old) (D.state devices.new) }
    ensures cause { AtMostOneWriteFailed (failed_device result) (D.state devices.old).faults
        (D.state devices.new).faults }
    ensures device { IfSome (failed_device result) (λ dev. dev < layout.now.metadata_replicas) }
{
    for root in roots {
        mend_root(alloc, devices, layout, root, ends)?;
    }
    Ok(())
}
