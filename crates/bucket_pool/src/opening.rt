ghost use Rattle.std.specs.Prelude.{◌≡◌, ◌≤◌, ◌<◌, ◌+◌, ◌/◌, true, length, map, fold, ◌++◌, All, IfOk, OnOk, if◌then◌else◌, ◌==◌};
ghost use Rattle.std.specs.List.{range_with_len};
ghost use Rattle.vol_types.specs.Layouts.{is_layout};
ghost use Rattle.bucket_pool.specs.Opening.{as_live, blank_bucket, blank_device, holds_node, live_state, node_state, space_of, with_key, with_place};
ghost use Rattle.bucket_pool.specs.Buckets.{released};
ghost use Rattle.bucket_pool.specs.Places.{changed};

use crate::bucket::{Bucket, State, released};
use crate::device::Device;
use std::alloc::{AllocError, Global};
use vol_types::{BUCKET_BLOCKS, Key, Layout, Live, Place, Value};

// The devices of a volume whose keys and nodes say what their buckets are.
pub(crate) fn devices_of(
    alloc: Global,
    layout: &Layout,
    live: &[Key],
    nodes: &[Place],
) -> Result<Vec<Device>, AllocError>
    requires { is_layout layout.now ≡ true }
    ensures space { IfOk result (λ devices. devices.items ≡ space_of layout.now live.now nodes.now) }
    ensures few { IfOk result (λ devices. length devices.items ≤ 8) }
{
    let (metadata, others) = layout
        .blocks
        .as_slice()
        .split_at(layout.metadata_replicas as usize);
    let mut devices = Vec::new(alloc);
    add_devices(
        alloc,
        &mut devices,
        metadata,
        1 + layout.journal / BUCKET_BLOCKS,
    )?;
    add_devices(alloc, &mut devices, others, 1)?;
    put_keys(&mut devices, live);
    put_places(&mut devices, nodes);
    Ok(devices)
}

// Adds devices of so many blocks, of which the buckets before the first one have the superblocks and the journal.
fn add_devices(
    alloc: Global,
    devices: &mut Vec<Device>,
    blocks: &[u32],
    first: u32,
) -> Result<(), AllocError>
    requires { All (λ size. size ≤ 1048576) blocks.now }
    ensures { OnOk result (devices.new.items ≡ devices.old.items ++ map (blank_device first)
        blocks.now) }
{
    for size in blocks {
        let buckets = blank_buckets(alloc, *size / BUCKET_BLOCKS, first)?;
        devices.push(Device::new(alloc, buckets)?)?;
    }
    Ok(())
}

// So many buckets, of which those before the first one have the superblocks and the journal.
fn blank_buckets(alloc: Global, count: u32, first: u32) -> Result<Vec<Bucket>, AllocError>
    requires { count ≤ 65536 }
    ensures { IfOk result (λ buckets. buckets.items ≡ map (blank_bucket first)
        (range_with_len 0 count)) }
{
    let mut buckets = Vec::new(alloc);
    for at in 0..count {
        buckets.push(blank_bucket(at, first))?;
    }
    Ok(buckets)
}

fn blank_bucket(at: u32, first: u32) -> Bucket
    ensures { result ≡ blank_bucket first at }
{
    Bucket {
        generation: 0,
        state: blank_state(at, first),
    }
}

fn blank_state(at: u32, first: u32) -> State
    ensures { result ≡ (blank_bucket first at).state }
{
    if at == 0 {
        return State::Super;
    }
    if at < first {
        return State::Journal;
    }
    State::Free
}

// Each key says what its bucket is.
fn put_keys(devices: &mut [Device], live: &[Key])
    ensures { devices.new ≡ fold with_key devices.old live.now }
{
    for key in live {
        put_key(devices, key);
    }
}

fn put_key(devices: &mut [Device], key: &Key)
    ensures { devices.new ≡ with_key devices.old key.now }
{
    match &key.value {
        Some(Value::Live(live)) if key.pos.snapshot == 0 => {
            put_live(devices, key.pos.inode, key.pos.offset, *live);
        }
        _ => {}
    }
}

fn put_live(devices: &mut [Device], dev: u64, at: u64, live: Live)
    ensures { devices.new ≡ changed (changed (as_live live) at) dev devices.old }
{
    if dev >= devices.len() as u64 {
        return;
    }
    let device = &mut devices[dev as usize];
    device.put_live(at, live);
}

// At each place lies a node.
fn put_places(devices: &mut [Device], nodes: &[Place])
    ensures { devices.new ≡ fold with_place devices.old nodes.now }
{
    for place in nodes {
        put_place(devices, *place);
    }
}

fn put_place(devices: &mut [Device], place: Place)
    ensures { devices.new ≡ with_place devices.old place }
{
    if place.block % BUCKET_BLOCKS != 0 {
        return;
    }
    put_node(
        devices,
        place.dev as usize,
        (place.block / BUCKET_BLOCKS) as usize,
    );
}

fn put_node(devices: &mut [Device], dev: usize, at: usize)
    ensures { devices.new ≡ changed (changed holds_node at) dev devices.old }
{
    if dev >= devices.len() {
        return;
    }
    let device = &mut devices[dev];
    device.put_node(at);
}

/// A bucket whose key says this.
pub(crate) fn as_live(bucket: Bucket, live: Live) -> Bucket
    ensures { result ≡ as_live live bucket }
{
    Bucket {
        generation: live.generation,
        state: live_state(bucket.state, live),
    }
}

fn live_state(state: State, live: Live) -> State
    ensures { result ≡ live_state live state }
{
    match state {
        State::Super => State::Super,
        State::Journal => State::Journal,
        _ => used_state(live),
    }
}

fn used_state(live: Live) -> State
    ensures { result ≡ (if live.blocks == 0 then released live.generation else State.User) }
{
    if live.blocks == 0 {
        return released(live.generation);
    }
    State::User
}

/// A bucket in which a node lies.
pub(crate) fn holds_node(bucket: Bucket) -> Bucket
    ensures { result ≡ holds_node bucket }
{
    Bucket {
        generation: bucket.generation,
        state: node_state(bucket.state),
    }
}

fn node_state(state: State) -> State
    ensures { result ≡ node_state state }
{
    match state {
        State::Super => State::Super,
        State::Journal => State::Journal,
        _ => State::Node,
    }
}
