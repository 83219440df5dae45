//! Which device calls fail while a volume is open, and the opening before them.

ghost use Rattle.std.specs.Prelude.{◌≡◌, true, IfOk};
ghost use Rattle.geometry.specs.Layouts.{is_layout_of};

use dev_model::{Devices, MemDevices, Pick};
use replay::{Loaded, open_volume};
use std::alloc::Global;
use std::test::Fail;

/// Which device calls fail, counted from the first one behind the opening of a volume, and what a write that fails leaves of its block, and a restart of
/// what isn't settled.
#[derive(Clone, Copy, PartialEq)]
pub struct Failing {
    pub call: u64,
    /// Whether all later ones fail too.
    pub stays: bool,
    pub leaves: Pick,
}

/// No call fails.
pub const NEVER: Failing = Failing {
    call: u64::MAX,
    stays: false,
    leaves: Pick::NoneWritten,
};

/// Whether all calls behind the one that fails do so too, and what is left of what isn't settled.
pub static WAYS: [(bool, Pick); 6] = [
    (false, Pick::AllWritten),
    (true, Pick::AllWritten),
    (false, Pick::NoneWritten),
    (true, Pick::NoneWritten),
    (false, Pick::Torn),
    (true, Pick::Torn),
];

/// What is loaded of the volume on the devices, of which calls to come fail so.
pub fn loaded_from(
    alloc: Global,
    devices: &mut MemDevices,
    failing: Failing,
) -> Result<Loaded, Fail>
    ensures { IfOk result (λ loaded. is_layout_of (⟦<MemDevices as Devices>⟧.state devices.new).sizes loaded.layout ≡ true) }
{
    devices.failed_writes_leave(failing.leaves);
    let Ok(loaded) = open_volume(alloc, devices) else {
        return Err(Fail::from("the volume isn't opened"));
    };
    let call = devices.calls().saturating_add(failing.call);
    if failing.stays {
        devices.fail_from(call);
        return Ok(loaded);
    }
    match devices.fail_at(&[call]) {
        Ok(()) => Ok(loaded),
        Err(error) => {
            drop(loaded);
            Err(Fail::from(error))
        }
    }
}
