ghost use Rattle.std.specs.Prelude.{◌≡◌, ◌<◌, ◌≤◌, ◌++◌, ◌∷◌, [], Some, true, false, IfOk, OnOk, count_by, length, map, option_and_then, slice_get, slice_index_or};
ghost use Rattle.std.specs.List.{flat_map, range_with_len};
ghost use Rattle.std.specs.Option.{option_map_or};
ghost use Rattle.bucket_pool.specs.NodeBuckets.{AreFixed};
ghost use Rattle.bucket_pool.specs.Given.{is_used_state};
ghost use Rattle.image_reader.specs.Volumes.{found_of};
ghost use Rattle.vol_types.specs.KeyMaps.{keys_in};
ghost use Rattle.vol_types.specs.Layouts.{is_layout};
ghost use Rattle.vol_types.specs.declared.pointers.NodePtr.{NodePtr as ANode};
ghost use Rattle.vol_info.specs.Facts.{device_facts, is_used, places_in, space_in};

use crate::btrees::{entries_of, nodes_of};
use crate::facts::DeviceFacts;
use bucket_pool::{Pool, State, nodes_keep_their_buckets};
use image_reader::{FoundBtree, FoundVolume};
use std::alloc::{AllocError, Global};
use vol_types::{
    BUCKET_BLOCKS, Btree, Duplicate, Key, Keys, Layout, Listing, NodePtr, Places, Pos, Value,
};

// What is told of each device of a volume that was found. It takes memory for each bucket.
pub fn facts_of_devices(
    alloc: Global,
    found: &FoundVolume,
) -> Result<Listing<DeviceFacts>, AllocError>
    requires { is_layout found.now.layout ≡ true }
    ensures { IfOk result (λ facts. facts ≡ map (device_facts (space_in (found_of found.now)))
        (range_with_len 0 (length found.now.layout.blocks))) }
{
    nodes_keep_their_buckets();
    let live = live_keys(alloc, entries_of(found, Btree::Alloc))?;
    let nodes = places_of(alloc, found.btrees.as_slice())?;
    let pool = Pool::of(alloc, &found.layout, &live, &nodes)?;
    facts_of_space(alloc, &found.layout, &pool)
}

// What is told of each device of a space.
fn facts_of_space(
    alloc: Global,
    layout: &Layout,
    pool: &Pool,
) -> Result<Listing<DeviceFacts>, AllocError>
    requires layout { is_layout layout.now ≡ true }
    requires fixed { AreFixed layout.now pool.now }
    ensures { IfOk result (λ facts. facts ≡ map (device_facts pool.now)
        (range_with_len 0 (length layout.now.blocks))) }
{
    let mut facts = Listing::new(alloc);
    for dev in 0..count_of(layout) {
        facts.push(facts_of_device(layout, pool, dev))?;
    }
    Ok(facts)
}

// How many devices a layout has.
fn count_of(layout: &Layout) -> u8
    requires { length layout.now.blocks ≤ 8 }
    ensures { result ≡ length layout.now.blocks }
{
    layout.blocks.len() as u8
}

// What is told of a device.
fn facts_of_device(layout: &Layout, pool: &Pool, dev: u8) -> DeviceFacts
    requires there { dev < length layout.now.blocks }
    requires fixed { AreFixed layout.now pool.now }
    ensures { result ≡ device_facts pool.now dev }
{
    let buckets = layout.blocks.as_slice()[usize::from(dev)] / BUCKET_BLOCKS;
    DeviceFacts {
        dev: u64::from(dev),
        buckets: u64::from(buckets),
        free: u64::from(pool.free(dev)),
        used: u64::from(used_on(pool, dev, buckets)),
    }
}

// In how many buckets of a device nodes or blocks of files lie. It goes over all its buckets.
fn used_on(pool: &Pool, dev: u8, buckets: u32) -> u32
    requires there { dev < length pool.now }
    requires all { length (slice_index_or pool.now dev []) ≡ buckets }
    ensures { result ≡ count_by is_used (slice_index_or pool.now dev []) }
{
    let mut used = 0;
    for at in 0..buckets {
        if is_used(pool, dev, at) {
            used += 1;
        }
    }
    used
}

// Whether a node or blocks of files lie in a bucket.
fn is_used(pool: &Pool, dev: u8, at: u32) -> bool
    ensures { result ≡ option_map_or is_used (option_and_then (λ buckets. slice_get buckets at)
        (slice_get pool.now dev)) false }
{
    match pool.bucket(dev, at) {
        Some(bucket) => is_used_state(bucket.state),
        None => false,
    }
}

// Whether a node or blocks of files lie in a bucket in this state.
fn is_used_state(state: State) -> bool
    ensures { result ≡ is_used_state state }
{
    matches!(state, State::Node | State::User | State::Opened(_))
}

// The keys of entries.
fn live_keys(alloc: Global, entries: &[(Pos, Value)]) -> Result<Keys, AllocError>
    ensures { IfOk result (λ keys. keys ≡ keys_in entries.now) }
{
    let mut keys = Keys::new(alloc);
    for (pos, value) in entries {
        match add_key(alloc, &mut keys, *pos, value) {
            Ok(()) => {}
            Err(error) => {
                drop(keys);
                return Err(error);
            }
        }
    }
    Ok(keys)
}

// Adds a key that has a value.
fn add_key(alloc: Global, keys: &mut Keys, pos: Pos, value: &Value) -> Result<(), AllocError>
    ensures { OnOk result (keys.new ≡ keys.old ++ record { pos = pos; value = Some value.now } ∷ []) }
{
    let value = Some(value.copy(alloc)?);
    keys.push(Key { pos, value })?;
    Ok(())
}

// The places of all nodes of btrees.
fn places_of(alloc: Global, btrees: &[FoundBtree]) -> Result<Places, AllocError>
    ensures { IfOk result (λ places. places ≡ flat_map places_in btrees.now) }
{
    let mut places = Places::new(alloc);
    for btree in btrees {
        let nodes = nodes_of(alloc, btree.levels.as_slice())?;
        add_places(&mut places, nodes.as_slice())?;
    }
    Ok(places)
}

// Adds the places of nodes.
fn add_places(places: &mut Places, nodes: &[NodePtr]) -> Result<(), AllocError>
    ensures { OnOk result (places.new ≡ places.old ++ flat_map (λ (node : ANode). node.places) nodes.now) }
{
    for node in nodes {
        places.extend_from_slice(node.places.as_slice())?;
    }
    Ok(())
}
