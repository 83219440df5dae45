ghost use Rattle.std.specs.Prelude.{◌≡◌, ◌+◌, ◌<◌, ◌≤◌, ◌↔◌, Bool, List, ℕ, true, Err, Some, OnOk, IfOk, IfSome, length};
ghost use Rattle.dev_model.specs.Devices.{now};
ghost use Rattle.dev_model.specs.Disk.{as_read};
ghost use Rattle.dev_model.specs.Frames.{GoOn, after_writes};
ghost use Rattle.dev_model.specs.Crashes.{EachCrash, EachCrashNow, IsCrashImageBut, SameBut};
ghost use Rattle.dev_model.specs.HeldBlocks.{HoldOnly};
ghost use Rattle.geometry.specs.Layouts.{is_layout_of};
ghost use Rattle.geometry.specs.Faults.{failed_device};
ghost use Rattle.geometry.specs.Mirrors.{AreAtRest, HoldMirrors};
ghost use Rattle.geometry.specs.Sessions.{IsSessionBlock, IsSessionPlace, session_block, session_named, session_place};
ghost use Rattle.image_view.specs.Found.{Found, with_session};
ghost use Rattle.replay.specs.Beginning.{IsFoundOn, MeansTheSame, failed_begin_device};
ghost use Rattle.replay.specs.Mending.{IsInOrderOn, KeepsSession};

use dev_model::Devices;
use geometry::{DiskFault, sealed_session, session_place, settle_mirrors};
use image_view::sessions_change_nothing_else;
use std::alloc::Global;
use vol_types::Layout;

/// The greatest number of a session. After it none is left.
const LAST_SESSION: u64 = 4_294_967_295;

/// Why no session was begun.
#[derive(Clone, Copy, PartialEq, Eq)]
pub enum BeginFault {
    /// The volume has had its last session: no number is left.
    Spent,
    /// A write or a flush of this device failed.
    DeviceFault(u8),
    /// Out of memory.
    NoMemory,
}

impl From<DiskFault> for BeginFault {
    ghost use Rattle.std.specs.Prelude.{◌≡◌};
    ghost use Rattle.replay.specs.Beginning.{begin_fault};

    ghost from_gives = { λ fault e. e ≡ begin_fault fault };

    fn from(fault: DiskFault) -> Self {
        match fault {
            DiskFault::DeviceFault(dev) => BeginFault::DeviceFault(dev),
            DiskFault::NoMemory => BeginFault::NoMemory,
        }
    }
}

// Seals a session in its block on every metadata device, and flushes these.
fn settle_session<D: Devices>(
    alloc: Global,
    devices: &mut D,
    layout: &Layout,
    session: u64,
) -> Result<(), DiskFault>
    requires layout { is_layout_of (D.state devices.old).sizes layout.now ≡ true }
    ensures crashes { D.tells → EachCrash (λ _ _ image. IsCrashImageBut
        (IsSessionPlace layout.now session) (now (D.state devices.old)) image)
        (D.state devices.old) (D.state devices.new) }
    ensures held { D.tells → OnOk result (EachCrashNow (HoldMirrors layout.now.metadata_replicas
        (session_place session) (session_block layout.now.id session)) (D.state devices.new)) }
    ensures rest { D.tells → OnOk result (AreAtRest layout.now.metadata_replicas
        (now (D.state devices.new))) }
    ensures named { OnOk result (session_named layout.now.id (session_place session)
        (session_block layout.now.id session) ≡ Some session) }
    ensures elsewhere { D.tells → SameBut (IsSessionPlace layout.now session)
        (as_read (now (D.state devices.old))) (as_read (now (D.state devices.new))) }
    ensures asks { D.tells → (opens : List ℕ → Bool)
        → HoldOnly opens (IsSessionBlock layout.now session) (D.state devices.old)
        (D.state devices.new) }
    // Whatever a crash leaves names the session that was found or this one, the next.
    ensures session { D.tells → (f : Found) → IsInOrderOn f (now (D.state devices.old))
        → f.layout ≡ layout.now → f.session + 1 ≡ session
        → KeepsSession f (D.state devices.old) (D.state devices.new) }
    ensures goes_on { GoOn (D.state devices.old) (D.state devices.new) }
    ensures cause { (D.state devices.new).faults ≡ after_writes (failed_device result)
        (D.state devices.old).faults }
    ensures device { IfSome (failed_device result) (λ dev. dev < layout.now.metadata_replicas) }
{
    let block = sealed_session(alloc, &layout.id, session)?;
    settle_mirrors(
        devices,
        layout.metadata_replicas,
        session_place(session),
        block.as_slice(),
    )
}

/// Takes the next session's number for a volume whose session is this one: seals it on every metadata device, before any other
/// write, and gives it. Where no number is left it answers `Spent`, and nothing is written. It costs a write and a flush of
/// every metadata device.
///
/// Whatever a crash leaves meanwhile means what the devices did, in the same session or a later one: at most the next one, where no torn block of
/// a session opens by chance.
pub fn begin_session<D: Devices>(
    alloc: Global,
    devices: &mut D,
    layout: &Layout,
    session: u64,
) -> Result<u64, BeginFault>
    requires { is_layout_of (D.state devices.old).sizes layout.now ≡ true }
    ensures spent { (result ≡ Err BeginFault.Spent) ↔ (4294967295 ≤ session) }
    ensures nothing { result ≡ Err BeginFault.Spent → devices.new ≡ devices.old }
    ensures next { IfOk result (λ next. next ≡ session + 1) }
    ensures crashes { D.tells → (f : Found) → IsFoundOn f (now (D.state devices.old))
        → f.layout ≡ layout.now → f.session ≡ session
        → EachCrash (λ _ _ image. MeansTheSame f (as_read (now (D.state devices.old))) image)
        (D.state devices.old) (D.state devices.new) }
    ensures begun { D.tells → (f : Found) → IsFoundOn f (now (D.state devices.old))
        → f.layout ≡ layout.now → f.session ≡ session
        → OnOk result (IsFoundOn (with_session (session + 1) f) (now (D.state devices.new))) }
    ensures rest { D.tells → OnOk result (AreAtRest layout.now.metadata_replicas
        (now (D.state devices.new))) }
    ensures elsewhere { D.tells → SameBut (IsSessionPlace layout.now (session + 1))
        (as_read (now (D.state devices.old))) (as_read (now (D.state devices.new))) }
    ensures asks { D.tells → (opens : List ℕ → Bool)
        → HoldOnly opens (IsSessionBlock layout.now (session + 1)) (D.state devices.old)
        (D.state devices.new) }
    ensures session { D.tells → (f : Found) → IsInOrderOn f (now (D.state devices.old))
        → f.layout ≡ layout.now → f.session ≡ session
        → KeepsSession f (D.state devices.old) (D.state devices.new) }
    ensures goes_on { GoOn (D.state devices.old) (D.state devices.new) }
    ensures cause { (D.state devices.new).faults ≡ after_writes (failed_begin_device result)
        (D.state devices.old).faults }
    ensures device { IfSome (failed_begin_device result) (λ dev. dev < layout.now.metadata_replicas) }
{
    sessions_change_nothing_else();
    if session >= LAST_SESSION {
        devices.count();
        return Err(BeginFault::Spent);
    }
    settle_session(alloc, devices, layout, session + 1)?;
    Ok(session + 1)
}
