//! An open volume goes to another thread, which commits to it, and comes back.

ghost use Rattle.std.specs.Prelude.{◌≡◌, true};
ghost use Rattle.geometry.specs.Layouts.{is_layout_of};
ghost use Rattle.replay.specs.Volumes.{found_in};

use crate::failing::{NEVER, loaded_from};
use crate::images::{ONE, formatted_on};
use crate::moves::{Seen, step};
use dev_model::{Devices, MemDevices};
use replay::Loaded;
use std::alloc::{AllocError, Global};
use std::marker::Brand;
use std::test::Fail;
use std::thread::{JoinHandle, Threads, spawn};
use vol_core::{Answer, Core, Event, Opening, Stage, Work};
use vol_types::{Btree, Pos, Snap, SnapState, Update, Updates, Value};

// Puts snapshot id 7, by itself in its tree.
fn push_id(updates: &mut Updates) -> Result<(), AllocError> {
    updates.push(Update {
        btree: Btree::Snapshots,
        level: 0,
        pos: Pos {
            inode: 0,
            offset: 7,
            snapshot: 0,
        },
        value: Some(Value::Snap(Snap {
            parent: 0,
            first_child: 0,
            second_child: 0,
            state: SnapState::LiveLeaf,
        })),
    })?;
    Ok(())
}

// The updates of the commit.
fn updates_of(alloc: Global) -> Result<Updates, AllocError> {
    let mut updates = Updates::new(alloc);
    match push_id(&mut updates) {
        Ok(()) => Ok(updates),
        Err(error) => {
            drop(updates);
            Err(error)
        }
    }
}

// Whether actor 1 sees no snapshot ids, and makes these updates.
fn commits<O: Opening>(core: &mut Core<MemDevices, O>, updates: Updates) -> bool {
    step(core, 1, Event::Begin { first: true });
    let ids = step(core, 1, Event::LookIds);
    step(core, 1, Event::Intend(updates));
    ids == Seen::Ids(0) && step(core, 1, Event::Commit { counted: true }) == Seen::Done
}

// Whether actor 1 makes a commit that puts a snapshot id.
fn is_committed<O: Opening>(alloc: Global, core: &mut Core<MemDevices, O>) -> bool {
    match updates_of(alloc) {
        Ok(updates) => commits(core, updates),
        Err(_) => false,
    }
}

// Whether actor 0 sees the one commit, which no entry of the journal holds yet.
fn sees_commit<O: Opening>(core: &mut Core<MemDevices, O>) -> bool {
    step(core, 0, Event::Begin { first: true });
    core.memory().actor(0).operation == Some(1)
        && step(core, 0, Event::LookIds) == Seen::Ids(1)
        && step(core, 0, Event::Next(Work::Journal)) == Seen::At(Stage::Seal, false)
}

// An open volume, and whether the thread that had it could commit to it.
#[derive(Drop)]
struct Returned<D: Devices, O: Opening> {
    core: Core<D, O>,
    committed: bool,
}

fn commit_on<O: Opening>(alloc: Global, core: Core<MemDevices, O>) -> Returned<MemDevices, O> {
    let mut core = core;
    let committed = is_committed(alloc, &mut core);
    Returned { core, committed }
}

// Sends a volume to a thread that commits to it, if there is one.
fn send<R: Threads, O: Opening + Send + 'static>(
    rt: &R,
    alloc: Global,
    core: Core<MemDevices, O>,
) -> Option<JoinHandle<Returned<MemDevices, O>>> {
    match spawn(rt, move || commit_on(alloc, core)) {
        Ok(thread) => Some(thread),
        Err(error) => {
            drop(error);
            None
        }
    }
}

// Whether a thread made a commit which is seen here.
fn is_seen<O: Opening>(returned: Returned<MemDevices, O>) -> bool {
    let Returned {
        mut core,
        committed,
    } = returned;
    let is_seen = sees_commit(&mut core);
    drop(core.into_devices());
    committed && is_seen
}

// Whether a thread makes a commit which is then seen here.
fn is_made_there<R: Threads, O: Opening + Send + 'static>(
    rt: &R,
    alloc: Global,
    core: Core<MemDevices, O>,
) -> bool {
    match send(rt, alloc, core) {
        None => false,
        Some(thread) => is_seen(thread.join(rt)),
    }
}

// What a look of actor 0 at the trees of snapshot ids is answered.
fn looked<O: Opening>(core: &mut Core<MemDevices, O>) -> Option<Answer> {
    step(core, 0, Event::Begin { first: true });
    let event = Event::LookIds;
    if !core.may(0, &event) {
        drop(event);
        return None;
    }
    let answer = core.step(0, event);
    step(core, 0, Event::Finish);
    Some(answer)
}

// Whether a thread commits to the volume, and the commit is seen here afterwards. The trees of snapshot ids that were looked at
// before are shared with the volume meanwhile, and stay as they were.
fn is_made_meanwhile<R: Threads, O: Opening + Send + 'static>(
    rt: &R,
    alloc: Global,
    core: Core<MemDevices, O>,
) -> bool {
    let mut core = core;
    let looked = looked(&mut core);
    let is_made = is_made_there(rt, alloc, core);
    let is_empty = match &looked {
        Some(Answer::Ids(ids)) => ids.is_empty(),
        _ => false,
    };
    drop(looked);
    is_made && is_empty
}

// The same of a volume that was loaded.
fn is_made_on_a_thread<R: Threads, O: Opening + Send + 'static>(
    rt: &R,
    alloc: Global,
    loaded: Loaded,
    devices: MemDevices,
) -> bool
    requires layout { is_layout_of (⟦<MemDevices as Devices>⟧.state devices).sizes loaded.layout
        ≡ true }
    requires opening { found_in loaded ≡ O.found }
    requires start { ⟦<MemDevices as Devices>⟧.state devices ≡ O.start }
{
    match Core::<MemDevices, O>::of(alloc, loaded, devices) {
        Ok(core) => is_made_meanwhile(rt, alloc, core),
        Err(unopened) => {
            drop(unopened);
            false
        }
    }
}

#[test]
fn a_thread_commits(rt: HostRuntime) -> Result<(), Fail> {
    let alloc = rt.alloc();
    let mut devices = formatted_on(alloc, ONE)?;
    match loaded_from(alloc, &mut devices, NEVER) {
        Ok(loaded) => {
            let is_made = is_made_on_a_thread::<HostRuntime, Brand>(&rt, alloc, loaded, devices);
            assert!(rt; is_made);
            Ok(())
        }
        Err(fail) => {
            drop(devices);
            Err(fail)
        }
    }
}
