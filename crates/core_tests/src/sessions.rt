//! Sessions of an open volume, each a list of acts, and how a run of them goes. One function alone has the volume.

ghost use Rattle.std.specs.Prelude.{◌≡◌, true};
ghost use Rattle.geometry.specs.Layouts.{is_layout_of};
ghost use Rattle.replay.specs.Volumes.{found_in};

use crate::acts::{Act, do_all};
use crate::draws::Draw;
use crate::failing::{Failing, loaded_from};
use crate::images::{Shape, formatted_on};
use crate::works::{BEGINNING, Story};
use dev_model::{Devices, MemDevices, Pick};
use replay::Loaded;
use std::alloc::Global;
use std::marker::Brand;
use std::test::Fail;
use vol_core::{Core, Opening, Unopened};

/// A run: the volume, which calls of its session fail, what is drawn from, and what its commits led to.
#[derive(Clone, Copy)]
pub struct Run {
    pub shape: Shape,
    pub failing: Failing,
    pub draw: Draw,
    pub story: Story,
    /// Whether each act of the last session was answered as it should be.
    pub is_right: bool,
    /// The checkpoints that commits asked for.
    pub checkpoints: u64,
    /// How many device calls there were up to the opening of the session, then up to `Act::Mark`, and then up to its end.
    pub opened: u64,
    pub before: u64,
    pub calls: u64,
}

impl Run {
    /// A run of which nothing is done.
    pub fn new(shape: Shape, failing: Failing, seed: u64) -> Run {
        Run {
            shape,
            failing,
            draw: Draw::new(seed),
            story: BEGINNING,
            is_right: false,
            checkpoints: 0,
            opened: 0,
            before: 0,
            calls: 0,
        }
    }
}

// The devices of an open volume to which all of this is done.
fn done_on<O: Opening>(
    alloc: Global,
    core: Core<MemDevices, O>,
    acts: &[Act],
    run: &mut Run,
) -> MemDevices {
    let mut core = core;
    do_all(alloc, &mut core, acts, run);
    core.into_devices()
}

// The same of a volume that was loaded.
fn done_from<O: Opening>(
    alloc: Global,
    devices: MemDevices,
    loaded: Loaded,
    acts: &[Act],
    run: &mut Run,
) -> MemDevices
    requires layout { is_layout_of (⟦<MemDevices as Devices>⟧.state devices).sizes loaded.layout ≡ true }
    requires opening { found_in loaded ≡ O.found }
    requires start { ⟦<MemDevices as Devices>⟧.state devices ≡ O.start }
{
    match Core::<MemDevices, O>::of(alloc, loaded, devices) {
        Ok(core) => done_on(alloc, core, acts, run),
        Err(unopened) => {
            let Unopened { devices } = unopened;
            run.is_right = false;
            devices
        }
    }
}

// The devices that a restart leaves.
fn restarted(devices: MemDevices, pick: Pick) -> Result<MemDevices, Fail> {
    Ok(devices.restart(pick)?)
}

/// The devices behind a session, of which calls fail as the run says, and a restart.
pub fn session(
    alloc: Global,
    devices: MemDevices,
    acts: &[Act],
    run: &mut Run,
) -> Result<MemDevices, Fail> {
    let mut devices = devices;
    match loaded_from(alloc, &mut devices, run.failing) {
        Ok(loaded) => restarted(
            done_from::<Brand>(alloc, devices, loaded, acts, run),
            run.failing.leaves,
        ),
        Err(fail) => {
            drop(devices);
            Err(fail)
        }
    }
}

/// The devices of a formatted volume behind such a session.
pub fn left_behind(alloc: Global, acts: &[Act], run: &mut Run) -> Result<MemDevices, Fail> {
    session(alloc, formatted_on(alloc, run.shape)?, acts, run)
}
