ghost use Rattle.std.specs.Prelude.{◌≡◌, true, IfErr, IfOk};
ghost use Rattle.dev_model.specs.Frames.{GoOn};
ghost use Rattle.geometry.specs.Layouts.{is_layout_of};
ghost use Rattle.replay.specs.Volumes.{found_in};
ghost use Rattle.shell.specs.Mounts.{IsOpenedFrom, MountCause, OnlyReadUnmounted, OpeningKeeps};
ghost use Rattle.shell.specs.EarlyEnds.{end_of_begin};

use crate::early_end::{EarlyEnd, MountRefusal};
use dev_model::Devices;
use replay::{BeginFault, Loaded, begin_and_mend, load};
use std::alloc::Global;

/// Opens the volume on the devices for its next session: loads it, seals the session's number on every metadata device, and writes each needed
/// entry of the journal, and each node that the newest entry names, anew where a mirror lacks a part of it. Where nothing is found, nothing is
/// written. It costs what `load` and `begin_and_mend` do.
pub fn mount<D: Devices>(alloc: Global, devices: &mut D) -> Result<Loaded, EarlyEnd>
    ensures opened { IfOk result (λ opened. IsOpenedFrom D.tells (found_in opened) (D.state devices.old)
        (D.state devices.new)) }
    ensures keeps { OpeningKeeps D.tells (D.state devices.old) (D.state devices.new) }
    ensures fits { IfOk result (λ opened. is_layout_of (D.state devices.new).sizes opened.layout
        ≡ true) }
    ensures cause { IfErr result (MountCause D.tells (D.state devices.old) (D.state devices.new)) }
    ensures unmounted { OnlyReadUnmounted D.tells (D.state devices.old) (D.state devices.new) }
    ensures goes_on { GoOn (D.state devices.old) (D.state devices.new) }
{
    let mut loaded = load(alloc, devices)?;
    devices.count();
    match begin_and_mend(
        alloc,
        devices,
        &loaded.layout,
        loaded.session,
        loaded.needed.as_slice(),
        loaded.ends.as_slice(),
    ) {
        Ok(session) => {
            loaded.session = session;
            Ok(loaded)
        }
        Err(fault) => {
            drop(loaded);
            Err(unbegun(fault))
        }
    }
}

// Why no session was begun: the last one was, or a device failed, or it was out of memory.
fn unbegun(fault: BeginFault) -> EarlyEnd
    ensures { result ≡ end_of_begin fault }
{
    match fault {
        BeginFault::Spent => EarlyEnd::Refused(MountRefusal::NoEntry),
        BeginFault::DeviceFault(dev) => EarlyEnd::Device(dev),
        BeginFault::NoMemory => EarlyEnd::OutOfMemory,
    }
}
