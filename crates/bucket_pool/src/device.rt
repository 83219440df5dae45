ghost use Rattle.std.specs.Prelude.{◌≡◌, ◌≤◌, ◌<◌, ◌+◌, ◌*◌, ◌^◌, IsTrue, true, ◌||◌, Some, IfSome, IfNone, length, slice_get, slice_index_or, slice_set, map, false, IfOk, List};
ghost use Rattle.std.specs.List.{list_any, position_or_len, position};
ghost use Rattle.vol_types.specs.declared.pointers.Pointer.{Pointer as APointer};
ghost use Rattle.bucket_pool.specs.declared.bucket.Bucket.{Bucket as ABucket};
ghost use Rattle.bucket_pool.specs.Buckets.{is_free, has_room, kept_at, settled, waited, is_current_of, let_go};
ghost use Rattle.bucket_pool.specs.Groups.{IsIdle};
ghost use Rattle.bucket_pool.specs.Opening.{as_live, holds_node};
ghost use Rattle.bucket_pool.specs.Places.{changed, each_place, partly};
ghost use Rattle.bucket_pool.specs.Space.{can_give, first_free, free_count, has_open_room, node_place, readied, reopened, reserved_at, spot, with_node};

use crate::bucket::{self, Bucket, Run};
use crate::groups::{self, GROUP, Group, Want};
use crate::opening;
use std::alloc::{AllocError, Global};
use std::marker::Model;
use vol_types::{BUCKET_BLOCKS, Live, Place, Pointer};

/// The buckets of a device. How many are free is counted, and for each group how many are free, and how many wait or are
/// open.
#[derive(Drop)]
pub struct Device {
    buckets: Vec<Bucket>,
    groups: Vec<Group>,
    free: u32,
}

impl Model for Device {
    ghost use Rattle.std.specs.Prelude.{List};
    ghost use Rattle.bucket_pool.specs.declared.bucket.Bucket.{Bucket as TheBucket};
    ghost use Rattle.bucket_pool.specs.Groups.{IsCounted};

    ghost Value = { List TheBucket };

    ghost view = { λ device. device.buckets.items };

    ghost invariant = { λ device. IsCounted device.buckets.items device.groups.items device.free };
}

impl Device {
    /// A device with these buckets. It goes once over them.
    pub fn new(alloc: Global, buckets: Vec<Bucket>) -> Result<Device, AllocError>
        requires { length buckets.items ≤ 65536 }
        ensures { IfOk result (λ device. device ≡ buckets.items) }
    {
        let free = groups::count_free(&buckets);
        let groups = groups::groups_of(alloc, &buckets)?;
        Ok(Device {
            buckets,
            groups,
            free,
        })
    }

    /// Gives a bucket the generation and the state that its key says, where there is one of this number.
    #[tactic(auto, using(crate::proofs::Changed::changed_at, crate::proofs::Changed::changed_past))]
    pub fn put_live(&mut self, at: u64, live: Live)
        ensures { self.new ≡ changed (as_live live) at self.old }
    {
        if at >= self.len() as u64 {
            return;
        }
        let bucket = self.at(at as usize);
        self.put(at as usize, opening::as_live(bucket, live));
    }

    /// Says that a node lies in a bucket, where there is one of this number.
    #[tactic(auto, using(crate::proofs::Changed::changed_at, crate::proofs::Changed::changed_past))]
    pub fn put_node(&mut self, at: usize)
        ensures { self.new ≡ changed holds_node at self.old }
    {
        if at >= self.len() {
            return;
        }
        let bucket = self.at(at);
        self.put(at, opening::holds_node(bucket));
    }

    /// How many buckets are free.
    pub fn free(&self) -> u32
        ensures { result ≡ free_count self.now }
    {
        self.free
    }

    /// Whether a bucket is free.
    pub fn has_free(&self) -> bool
        ensures { result ≡ list_any is_free self.now }
    {
        self.free > 0
    }

    pub fn len(&self) -> usize
        ensures count { result ≡ length self.now }
        ensures few { result ≤ 65536 }
    {
        self.buckets.len()
    }

    pub fn get(&self, at: usize) -> Option<Bucket>
        ensures { result ≡ slice_get self.now at }
    {
        self.buckets.get(at).copied()
    }

    fn at(&self, at: usize) -> Bucket
        requires { at < length self.now }
        ensures { result ≡ slice_index_or self.now at result }
    {
        self.buckets[at]
    }

    /// Gives a bucket another state.
    pub fn put(&mut self, at: usize, bucket: Bucket)
        requires { at < length self.old }
        ensures { self.new ≡ slice_set self.old at bucket }
    {
        let old = self.buckets[at];
        self.free = groups::recounted(self.free, bucket::is_free(&old), bucket::is_free(&bucket));
        let group = at / GROUP;
        let counts = self.groups[group];
        self.groups[group] = groups::recount(counts, &old, &bucket);
        self.buckets[at] = bucket;
    }

    /// The number of groups.
    fn groups(&self) -> usize
        ensures covers { length self.now ≤ 256 * result }
        ensures few { result ≤ 256 }
    {
        self.groups.len()
    }

    /// Whether a bucket of the group may wait or be open.
    fn is_busy(&self, group: usize) -> bool
        ensures { result ≡ false → IsIdle group self.now }
    {
        groups::has_busy(&self.buckets, &self.groups, group)
    }

    /// Makes what waits for entries up to this number free, or retires it. It goes over the buckets of the groups in which
    /// one waits or is open.
    pub fn settle(&mut self, seq: u64)
        ensures { self.new ≡ map (settled seq) self.old }
    {
        for group in 0..self.groups() {
            self.settle_group(group, seq);
        }
    }

    // Settles the buckets of a group, where those before it are settled.
    fn settle_group(&mut self, group: usize, seq: u64)
        requires { group < 256 }
        ensures after { (whole : List ABucket) → self.old ≡ partly (λ _. settled seq) (256 * group)
            whole → self.new ≡ partly (λ _. settled seq) (256 * (group + 1)) whole }
        ensures size { length self.new ≡ length self.old }
    {
        if !self.is_busy(group) {
            return;
        }
        let end = self.len().min(GROUP * (group + 1));
        for at in GROUP * group..end {
            let bucket = self.at(at);
            self.put(at, bucket::settled(bucket, seq));
        }
    }

    /// Keeps of what an actor reserved the blocks that the runs name. It goes over the buckets of the groups in which one
    /// waits or is open.
    pub fn keep(&mut self, actor: u8, runs: &[Run], dev: u8)
        ensures { self.new ≡ each_place (kept_at actor runs.now dev) self.old }
    {
        for group in 0..self.groups() {
            self.keep_group(group, actor, runs, dev);
        }
    }

    // Keeps what is reserved in the buckets of a group, where it is kept in those before it.
    fn keep_group(&mut self, group: usize, actor: u8, runs: &[Run], dev: u8)
        requires { group < 256 }
        ensures after { (whole : List ABucket) → self.old ≡ partly (kept_at actor runs.now dev)
            (256 * group) whole → self.new ≡ partly (kept_at actor runs.now dev)
            (256 * (group + 1)) whole }
        ensures size { length self.new ≡ length self.old }
    {
        if !self.is_busy(group) {
            return;
        }
        let end = self.len().min(GROUP * (group + 1));
        for at in GROUP * group..end {
            let bucket = self.at(at);
            self.put(at, bucket::kept(bucket, actor, runs, dev, at as u32));
        }
    }

    /// Empties a bucket, where there is one of this number.
    #[tactic(auto, using(crate::proofs::Changed::changed_at, crate::proofs::Changed::changed_past))]
    pub fn wait(&mut self, at: usize, seq: u64)
        ensures { self.new ≡ changed (waited seq) at self.old }
    {
        if at >= self.len() {
            return;
        }
        let bucket = self.at(at);
        self.put(at, bucket::waited(bucket, seq));
    }

    /// The number of the first bucket that is free.
    pub fn first_free(&self) -> Option<usize>
        ensures { result ≡ position is_free self.now }
    {
        groups::search(&self.buckets, &self.groups, Want::FreeOne)
    }

    /// The number of the first bucket in which the actor reserves.
    pub fn current(&self, actor: u8) -> Option<usize>
        ensures { result ≡ position (is_current_of actor) self.now }
    {
        groups::search(&self.buckets, &self.groups, Want::CurrentOf(actor))
    }

    /// The number of the first bucket in which the actor reserves, if it has so many blocks in a row.
    pub fn open_room(&self, count: usize, actor: u8) -> Option<usize>
        ensures { result ≡ position (has_room count actor) self.now }
    {
        groups::search(&self.buckets, &self.groups, Want::RoomOf(actor, count))
    }

    /// Whether the actor's open bucket has so many blocks in a row.
    pub fn has_open_room(&self, count: usize, actor: u8) -> bool
        ensures { result ≡ has_open_room count actor self.now }
    {
        self.open_room(count, actor).is_some()
    }

    /// Whether so many blocks in a row can be given to the actor, where so many free buckets are held back.
    pub fn can_give(&self, count: usize, actor: u8, held: u32) -> bool
        ensures value { result ≡ can_give count actor held self.now }
        ensures room { result ≡ true → IsTrue (has_open_room count actor self.now || list_any
            is_free self.now) }
    {
        if self.has_open_room(count, actor) {
            return true;
        }
        held < self.free
    }

    /// Opens the first free bucket for an actor, in place of the one that is open for it.
    fn reopen(&mut self, actor: u8) -> usize
        requires { IsTrue (list_any is_free self.old) }
        ensures at { result ≡ first_free self.old }
        ensures within { result < length self.new }
        ensures after { self.new ≡ reopened actor self.old }
    {
        let Some(at) = self.first_free() else {
            unreachable!()
        };
        self.let_go(actor);
        let bucket = self.at(at);
        self.put(at, bucket::opened_for(bucket, actor));
        at
    }

    // Lets the bucket go that is open for an actor, if there is one.
    fn let_go(&mut self, actor: u8)
        ensures after { self.new ≡ changed let_go (position_or_len (is_current_of actor) self.old)
            self.old }
        ensures size { length self.new ≡ length self.old }
    {
        let Some(at) = self.current(actor) else {
            return;
        };
        let bucket = self.at(at);
        self.put(at, bucket::let_go(bucket));
    }

    /// Reserves so many blocks in a row for an actor: in its open bucket if it has them, else in the first free one.
    pub fn reserve(&mut self, count: usize, actor: u8, dev: u8) -> Pointer
        requires range { count ≤ 16 }
        requires can { IsTrue (has_open_room count actor self.old || list_any is_free self.old) }
        ensures { reserved_at count dev (spot count actor self.old) (readied count actor self.old)
            ≡ Some (result, self.new) }
    {
        let at = self.ready(count, actor);
        // So the number of a block fits.
        let buckets = self.len();
        prove!(at < buckets);
        let bucket = self.at(at);
        let first = bucket::run_of(&bucket, count);
        self.put(at, bucket::marked(bucket, first, count));
        Pointer {
            place: Place {
                dev,
                block: BUCKET_BLOCKS * at as u32 + first as u32,
            },
            generation: bucket.generation,
        }
    }

    // Opens a bucket for an actor if its open one doesn't have so many blocks in a row, and says where they are.
    fn ready(&mut self, count: usize, actor: u8) -> usize
        requires { IsTrue (has_open_room count actor self.old || list_any is_free self.old) }
        ensures after { self.new ≡ readied count actor self.old }
        ensures at { result ≡ spot count actor self.old }
        ensures within { result < length self.new }
    {
        match self.open_room(count, actor) {
            Some(at) => at,
            None => self.reopen(actor),
        }
    }

    /// The place that the next node on this device gets, whose number is given: the first block of its first free bucket.
    pub fn node_place(&self, dev: u8) -> Place
        requires { IsTrue (list_any is_free self.now) }
        ensures { result ≡ node_place dev self.now }
    {
        let Some(at) = self.first_free() else {
            unreachable!()
        };
        // So the number of a block fits.
        let buckets = self.len();
        prove!(at < buckets);
        Place {
            dev,
            block: BUCKET_BLOCKS * at as u32,
        }
    }

    /// Makes the first free bucket one that holds a node.
    pub fn take_node(&mut self)
        requires { IsTrue (list_any is_free self.old) }
        ensures { self.new ≡ with_node self.old }
    {
        let Some(at) = self.first_free() else {
            unreachable!()
        };
        let bucket = self.at(at);
        self.put(at, bucket::as_node(bucket));
    }
}
