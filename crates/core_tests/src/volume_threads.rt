//! A volume goes to another thread, which makes a file, and comes back.

ghost use Rattle.std.specs.Prelude.{◌≡◌, true};
ghost use Rattle.geometry.specs.Layouts.{is_layout_of};
ghost use Rattle.replay.specs.Volumes.{found_in};

use crate::failing::{NEVER, loaded_from};
use crate::volumes::{Names, count_numbered, ended, formatted_by, is_made};
use dev_model::{Devices, MemDevices};
use replay::Loaded;
use std::alloc::Global;
use std::marker::Brand;
use std::test::Fail;
use std::thread::{JoinHandle, Threads, spawn};
use vol_core::Opening;
use volume::VolState;

/// A volume, and whether the thread that had it could make a file.
#[derive(Drop)]
struct Returned<D: Devices, O: Opening> {
    volume: VolState<D, O>,
    made: bool,
}

fn make_on<D: Devices + Drop, O: Opening>(alloc: Global, volume: VolState<D, O>) -> Returned<D, O> {
    let mut volume = volume;
    let made = is_made(alloc, &mut volume, Names::Numbered, 0);
    Returned { volume, made }
}

// Sends a volume to a thread that makes a file, if there is one.
fn send<R: Threads, D: Devices + Drop + Send + 'static, O: Opening + Send + 'static>(
    rt: &R,
    alloc: Global,
    volume: VolState<D, O>,
) -> Option<JoinHandle<Returned<D, O>>> {
    match spawn(rt, move || make_on(alloc, volume)) {
        Ok(thread) => Some(thread),
        Err(error) => {
            drop(error);
            None
        }
    }
}

// Whether a thread made a file which is listed here.
fn is_seen<D: Devices + Drop, O: Opening>(alloc: Global, returned: Returned<D, O>) -> bool {
    let Returned { mut volume, made } = returned;
    let is_listed = count_numbered(alloc, &mut volume) == Some(1);
    drop(ended(volume));
    made && is_listed
}

// Whether a thread makes a file in a volume, which is then listed here.
fn is_made_there<R: Threads, D: Devices + Drop + Send + 'static, O: Opening + Send + 'static>(
    rt: &R,
    alloc: Global,
    volume: VolState<D, O>,
) -> bool {
    match send(rt, alloc, volume) {
        None => false,
        Some(thread) => is_seen(alloc, thread.join(rt)),
    }
}

// The same of a volume that was loaded.
fn is_made_on_a_thread<R: Threads, D: Devices + Drop + Send + 'static, O: Opening + Send + 'static>(
    rt: &R,
    alloc: Global,
    devices: D,
    loaded: Loaded,
) -> bool
    requires layout { is_layout_of (D.state devices).sizes loaded.layout ≡ true }
    requires opening { found_in loaded ≡ O.found }
    requires start { D.state devices ≡ O.start }
{
    match VolState::<D, O>::start(alloc, loaded, devices) {
        Ok(volume) => is_made_there(rt, alloc, volume),
        Err(unopened) => {
            drop(unopened);
            false
        }
    }
}

#[test]
fn a_thread_makes_a_file(rt: HostRuntime) -> Result<(), Fail> {
    let alloc = rt.alloc();
    let mut devices = formatted_by(alloc, 1)?;
    match loaded_from(alloc, &mut devices, NEVER) {
        Ok(loaded) => {
            let is_made = is_made_on_a_thread::<HostRuntime, MemDevices, Brand>(
                &rt, alloc, devices, loaded,
            );
            assert!(rt; is_made);
            Ok(())
        }
        Err(fail) => {
            drop(devices);
            Err(fail)
        }
    }
}
