ghost use Rattle.std.specs.Prelude.{◌≡◌, ◌<◌, IfOk, length, replicate, true};
ghost use Rattle.core_actors.specs.Actors.{idle_actor};
ghost use Rattle.core_state.specs.Opening.{IsOpened};
ghost use Rattle.core_state.specs.States.{actor_count};
ghost use Rattle.vol_types.specs.Layouts.{is_layout};

use crate::memory::{ACTORS, Memory};
use btree_map::KeyMap;
use core_actors::Actor;
use core_volume::Volume;
use journal_ring::FoundEntry;
use std::alloc::{AllocError, Global};
use vol_types::{Layout, Places};

impl Memory {
    /// What is kept of a volume that was loaded: how it lies on its devices, its session, its keys and nodes, the entries of the
    /// journal that are needed, the oldest first, of which the last one is the newest, and the places of its nodes. It costs some
    /// logarithms for each update of the entries, and goes over all buckets.
    pub fn of(
        alloc: Global,
        layout: Layout,
        session: u64,
        map: KeyMap,
        needed: &[FoundEntry],
        nodes: &Places,
    ) -> Result<Memory, AllocError>
        requires layout { is_layout layout ≡ true }
        requires needed { 0 < length needed.now }
        ensures { IfOk result (IsOpened layout session map needed.now nodes.now) }
    {
        let volume = Volume::of(alloc, layout, session, map, needed, nodes)?;
        match idle_actors(alloc) {
            Ok(actors) => Ok(Memory {
                alloc,
                volume,
                actors,
                turn: None,
            }),
            Err(error) => {
                drop(volume);
                Err(error)
            }
        }
    }
}

// The actors, none of which has an operation.
fn idle_actors(alloc: Global) -> Result<Vec<Actor>, AllocError>
    ensures { IfOk result (λ actors. actors.items ≡ replicate actor_count idle_actor) }
{
    let mut actors = Vec::new(alloc);
    for _ in 0..ACTORS {
        actors.push(Actor::new(alloc))?;
    }
    Ok(actors)
}
