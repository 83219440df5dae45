ghost use Rattle.std.specs.Prelude.{◌≡◌, ◌≤◌, ◌<◌, ◌+◌, IsTrue, true, false, length, map, if◌then◌else◌, slice_get, slice_index_or, [], option_and_then, IfErr, OnErr, OnOk, IfOk};
ghost use Rattle.std.specs.Int.{IsInRange};
ghost use Rattle.std.specs.List.{list_any};
ghost use Rattle.bucket_pool.specs.Buckets.{is_free, settled, waited};
ghost use Rattle.vol_types.specs.Layouts.{is_layout};
ghost use Rattle.bucket_pool.specs.Opening.{space_of};
ghost use Rattle.bucket_pool.specs.Places.{each_place, changed};
ghost use Rattle.bucket_pool.specs.Space.{IsFaultOf, IsShort, IsShortOfNodes, emptied, free_count, givers, have_free, kept, node_places, noded, reserved, settled_space};

use crate::bucket::{Bucket, Run};
use crate::device::Device;
use crate::fault::PoolFault;
use crate::opening;
use std::alloc::{AllocError, Global};
use std::marker::Model;
use vol_types::{
    BUCKET_BLOCKS, Counts, Duplicate, Keys, Layout, Place, Places, Pointer, Pointers, Short,
    SpareList,
};

/// The space of a volume: for each device the state of each of its buckets.
#[derive(Drop)]
pub struct Pool {
    devices: Vec<Device>,
}

impl Model for Pool {
    ghost use Rattle.std.specs.Prelude.{List, ◌≤◌, length};
    ghost use Rattle.bucket_pool.specs.declared.bucket.Bucket.{Bucket as TheBucket};

    ghost Value = { List (List TheBucket) };

    ghost view = { λ pool. pool.devices.items };

    ghost invariant = { λ pool. length pool.devices.items ≤ 8 };
}

impl Pool {
    /// The space of a volume. By the layout bucket 0 of each device has the superblocks, and on metadata devices the next
    /// ones have the journal. A node lies in each bucket whose first block is one of `nodes`. Of the others those are in use
    /// for which a key of `live`, the btree of buckets, names blocks, those are retired whose key names none and the last
    /// generation, and all else are free. A bucket's key stands under its device, by its number, in snapshot 0.
    ///
    /// It takes memory for each bucket, and goes once over the buckets, the keys and the nodes.
    pub fn of(
        alloc: Global,
        layout: &Layout,
        live: &Keys,
        nodes: &Places,
    ) -> Result<Pool, AllocError>
        requires { is_layout layout.now ≡ true }
        ensures { IfOk result (λ pool. pool ≡ space_of layout.now live.now nodes.now) }
    {
        let devices = opening::devices_of(alloc, layout, live.as_slice(), nodes.as_slice())?;
        Ok(Pool { devices })
    }

    /// The number of devices.
    pub fn devices(&self) -> usize
        ensures { result ≡ length self.now }
    {
        self.devices.len()
    }

    /// How many buckets of a device are free. It is counted already.
    pub fn free(&self, dev: u8) -> u32
        requires { dev < length self.now }
        ensures { result ≡ free_count (slice_index_or self.now dev []) }
    {
        let device = &self.devices[dev as usize];
        device.free()
    }

    /// A bucket of a device, or none where there is no such bucket.
    pub fn bucket(&self, dev: u8, at: u32) -> Option<Bucket>
        ensures { result ≡ option_and_then (λ buckets. slice_get buckets at)
            (slice_get self.now dev) }
    {
        let dev = dev as usize;
        if dev >= self.devices.len() {
            return None;
        }
        let device = &self.devices[dev];
        device.get(at as usize)
    }

    /// Reserves 1 to 16 blocks in a row for an actor on each of so many devices, and gives a pointer for each, devices rising:
    /// on the first ones that can give them. A device can where the actor's open bucket there has so many blocks in a row
    /// that may be reserved, or where more buckets are free than are held back. `held` has a number for each device.
    ///
    /// The blocks are the first that are found in the actor's open bucket; where that doesn't have them, the first free
    /// bucket is opened in its place. `NoSpace` says that fewer devices can give the blocks. An `Err` changes nothing.
    ///
    /// It looks at the counts of the devices that it asks, which are kept by groups of 256 buckets, and at the buckets of the
    /// groups in which one waits or is open.
    pub fn reserve(
        &mut self,
        alloc: Global,
        actor: u8,
        blocks: u8,
        replicas: u8,
        held: &Counts,
    ) -> Result<Pointers, PoolFault>
        requires blocks { IsInRange 1 16 blocks }
        requires replicas { IsInRange 1 (length self.old) replicas }
        requires held { length held.now ≡ length self.old }
        ensures ok { IfOk result (λ pointers. pointers
            ≡ (reserved blocks actor replicas held.now self.old).given) }
        ensures after { OnOk result (self.new ≡ (reserved blocks actor replicas held.now
            self.old).left) }
        ensures can { OnOk result (replicas ≤ givers blocks actor held.now self.old) }
        ensures short { IfErr result (IsFaultOf (IsShort blocks actor replicas held.now self.old)) }
        ensures err { OnErr result (self.new ≡ self.old) }
    {
        let mut pointers = SpareList::new(alloc);
        pointers.reserve(replicas as usize)?;
        let want = Want {
            actor,
            blocks: blocks as usize,
        };
        if count_givers(&self.devices, want, held.as_slice()) < replicas as usize {
            let short = short_of(alloc, &self.devices, blocks, held.copy(alloc)?)?;
            return Err(PoolFault::NoSpace(short));
        }
        reserve_all(
            &mut self.devices,
            want,
            replicas,
            held.as_slice(),
            &mut pointers,
        );
        Ok(Pointers::from(pointers))
    }

    /// The places that the next nodes get: on each of the first so many devices the first block of the first free bucket.
    /// `NoSpace` says that one of them has none. It changes nothing: `take_nodes` takes these buckets, without memory.
    ///
    /// It looks at the counts of these devices' groups, and at the buckets of one group of each.
    pub fn free_places(&self, alloc: Global, replicas: u8) -> Result<Places, PoolFault>
        requires { replicas ≤ length self.now }
        ensures ok { IfOk result (λ places. places ≡ node_places replicas self.now) }
        ensures can { OnOk result (have_free replicas self.now ≡ true) }
        ensures short { IfErr result (IsFaultOf (IsShortOfNodes replicas self.now)) }
    {
        if !have_free(&self.devices, replicas as usize) {
            let short = short_of(alloc, &self.devices, 0, zeros(alloc, &self.devices)?)?;
            return Err(PoolFault::NoSpace(short));
        }
        Ok(node_places(alloc, &self.devices, replicas)?)
    }

    /// Takes the first free bucket of each of the first so many devices for a node, where each of them has one: those whose
    /// first blocks `free_places` gives.
    ///
    /// It takes no memory. It looks at the counts of these devices' groups, and at the buckets of one group of each.
    pub fn take_nodes(&mut self, replicas: u8)
        requires within { replicas ≤ length self.old }
        requires can { have_free replicas self.old ≡ true }
        ensures { self.new ≡ noded replicas self.old }
    {
        take_nodes(&mut self.devices, replicas);
    }

    /// Makes of the places that an actor reserved exactly those used that the runs name, and gives the others back. A
    /// bucket in which the actor reserves no more is closed: it is in use where a block of it is used, and else free, at
    /// once if nothing in it was kept since it was opened, or once the entry is durable that emptied it.
    ///
    /// It takes no memory. It looks at the counts of all groups of 256 buckets, goes over the buckets of those in which one
    /// waits or is open, and for each block that was reserved over the runs.
    pub fn keep(&mut self, actor: u8, runs: &[Run])
        ensures { self.new ≡ kept actor runs.now self.old }
    {
        keep_all(&mut self.devices, actor, runs);
    }

    /// Gives all places back that an actor reserved, as `keep` does where no run is named.
    pub fn give_back(&mut self, actor: u8)
        ensures { self.new ≡ kept actor [] self.old }
    {
        self.keep(actor, &[]);
    }

    /// Says that the entry of this number empties the bucket of a place. A bucket in use waits for it, and an open one
    /// stays open. Where it held blocks of files its generation rises by one, up to 4,294,967,295. A bucket in another
    /// state stays as it is, and so does all where there is no such bucket.
    ///
    /// It takes no memory, and looks at this bucket alone.
    pub fn wait(&mut self, place: &Place, seq: u64)
        ensures { self.new ≡ emptied place.now seq self.old }
    {
        wait_at(
            &mut self.devices,
            place.dev as usize,
            (place.block / BUCKET_BLOCKS) as usize,
            seq,
        );
    }

    /// Says that all entries up to this number are durable: a bucket that waits for one of them is free, or is retired
    /// where its generation is 4,294,967,295.
    ///
    /// It takes no memory. It looks at the counts of all groups of 256 buckets, and goes over the buckets of those in which
    /// one waits or is open.
    pub fn settle(&mut self, seq: u64)
        ensures { self.new ≡ settled_space seq self.old }
    {
        settle_all(&mut self.devices, seq);
    }
}

/// Who wants how many blocks in a row.
#[derive(Clone, Copy)]
struct Want {
    actor: u8,
    blocks: usize,
}

// How many devices can give the blocks.
fn count_givers(devices: &[Device], want: Want, held: &[u32]) -> usize
    requires { length held.now ≡ length devices.now }
    ensures { result ≡ givers want.blocks want.actor held.now devices.now }
{
    let mut count = 0;
    for dev in 0..devices.len() {
        let device = &devices[dev];
        count += one_if(device.can_give(want.blocks, want.actor, held[dev]));
    }
    count
}

fn one_if(test: bool) -> usize
    ensures { result ≡ (if test then 1 else 0) }
{
    if test { 1 } else { 0 }
}

// Reserves the blocks on the first so many devices that can give them.
fn reserve_all(
    devices: &mut [Device],
    want: Want,
    replicas: u8,
    held: &[u32],
    pointers: &mut SpareList<Pointer>,
)
    requires few { length devices.old ≤ 8 }
    requires range { want.blocks ≤ 16 }
    requires held { length held.now ≡ length devices.old }
    requires empty { pointers.old.members ≡ [] }
    requires room { replicas ≤ pointers.old.spare }
    ensures given { pointers.new.members ≡ (reserved want.blocks want.actor replicas held.now
        devices.old).given }
    ensures after { devices.new ≡ (reserved want.blocks want.actor replicas held.now
        devices.old).left }
{
    let mut left = replicas;
    for dev in 0..devices.len() {
        if left == 0 {
            return;
        }
        let device = &mut devices[dev];
        if device.can_give(want.blocks, want.actor, held[dev]) {
            pointers.push(device.reserve(want.blocks, want.actor, dev as u8));
            left -= 1;
        }
    }
}

// Whether each of the first so many devices has a free bucket.
fn have_free(devices: &[Device], count: usize) -> bool
    requires { count ≤ length devices.now }
    ensures { result ≡ have_free count devices.now }
{
    let (first, _) = devices.split_at(count);
    first.iter().all(Device::has_free)
}

// The places that nodes get on the first so many devices.
fn node_places(alloc: Global, devices: &[Device], replicas: u8) -> Result<Places, AllocError>
    requires within { replicas ≤ length devices.now }
    requires can { have_free replicas devices.now ≡ true }
    ensures { IfOk result (λ places. places ≡ node_places replicas devices.now) }
{
    let mut places = Places::new(alloc);
    for dev in 0..replicas {
        let device = &devices[dev as usize];
        places.push(device.node_place(dev))?;
    }
    Ok(places)
}

// Takes the first free bucket of each of the first so many devices for a node.
fn take_nodes(devices: &mut [Device], replicas: u8)
    requires within { replicas ≤ length devices.old }
    requires can { have_free replicas devices.old ≡ true }
    ensures { devices.new ≡ noded replicas devices.old }
{
    for dev in 0..replicas {
        let device = &mut devices[dev as usize];
        device.take_node();
    }
}

// What is short: how many blocks were asked for, and for each device its free buckets and those that are held back.
fn short_of(alloc: Global, devices: &[Device], need: u8, held: Counts) -> Result<Short, AllocError>
    ensures { IfOk result (λ short. short ≡ record
        { need = need; free = map free_count devices.now; held = held }) }
{
    let mut free = Counts::new(alloc);
    for device in devices {
        free.push(device.free())?;
    }
    Ok(Short { need, free, held })
}

// 0 for each device.
fn zeros(alloc: Global, devices: &[Device]) -> Result<Counts, AllocError>
    ensures { IfOk result (λ counts. counts ≡ map (λ _. 0) devices.now) }
{
    let mut counts = Counts::new(alloc);
    for _device in devices {
        counts.push(0)?;
    }
    Ok(counts)
}

fn keep_all(devices: &mut [Device], actor: u8, runs: &[Run])
    requires { length devices.old ≤ 8 }
    ensures { devices.new ≡ kept actor runs.now devices.old }
{
    for dev in 0..devices.len() {
        let device = &mut devices[dev];
        device.keep(actor, runs, dev as u8);
    }
}

fn settle_all(devices: &mut [Device], seq: u64)
    ensures { devices.new ≡ settled_space seq devices.old }
{
    for dev in 0..devices.len() {
        let device = &mut devices[dev];
        device.settle(seq);
    }
}

fn wait_at(devices: &mut [Device], dev: usize, at: usize, seq: u64)
    ensures { devices.new ≡ changed (changed (waited seq) at) dev devices.old }
{
    if dev >= devices.len() {
        return;
    }
    let device = &mut devices[dev];
    device.wait(at, seq);
}
