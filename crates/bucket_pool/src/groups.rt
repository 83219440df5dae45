ghost use Rattle.std.specs.Prelude.{◌≡◌, ◌≤◌, ◌<◌, ◌+◌, ◌*◌, true, false, length, if◌then◌else◌, count_by, IfOk, IfSome};
ghost use Rattle.std.specs.List.{position};
ghost use Rattle.bucket_pool.specs.Buckets.{is_free};
ghost use Rattle.bucket_pool.specs.Groups.{AreCounted, IsIdle, count_for, fits, group_of, is_busy, may_fit};

use crate::bucket::{self, Bucket, State};
use std::alloc::{AllocError, Global};

/// The buckets of a group.
pub const GROUP: usize = 256;

/// How many buckets of a group are free, and how many wait or are open.
#[derive(Clone, Copy)]
pub struct Group {
    pub free: u32,
    pub busy: u32,
}

/// Which bucket is wanted.
#[derive(Clone, Copy)]
pub enum Want {
    /// A free one.
    FreeOne,
    /// One in which the actor reserves.
    CurrentOf(u8),
    /// One in which the actor reserves, and which has so many blocks in a row that may be reserved.
    RoomOf(u8, usize),
}

pub fn is_busy(bucket: &Bucket) -> bool
    ensures { result ≡ is_busy bucket.now }
{
    matches!(bucket.state, State::Waiting(_) | State::Opened(_))
}

fn fits(bucket: &Bucket, want: Want) -> bool
    ensures { result ≡ fits want bucket.now }
{
    match want {
        Want::FreeOne => bucket::is_free(bucket),
        Want::CurrentOf(actor) => bucket::is_current_of(bucket, actor),
        Want::RoomOf(actor, count) => bucket::has_room(bucket, count, actor),
    }
}

fn count_for(group: Group, want: Want) -> u32
    ensures { result ≡ count_for want group }
{
    match want {
        Want::FreeOne => group.free,
        _ => group.busy,
    }
}

/// A count after one bucket was changed: whether it was counted before, and whether it is now.
pub fn recounted(count: u32, before: bool, after: bool) -> u32
    requires positive { before ≡ true → 0 < count }
    requires few { count ≤ 65536 }
    ensures { result + (if before then 1 else 0) ≡ count + (if after then 1 else 0) }
{
    if before && !after {
        return count - 1;
    }
    if !before && after {
        return count + 1;
    }
    count
}

/// A group's counts after one of its buckets was changed.
pub fn recount(group: Group, before: &Bucket, after: &Bucket) -> Group
    requires free { is_free before.now ≡ true → 0 < group.free }
    requires busy { is_busy before.now ≡ true → 0 < group.busy }
    requires few_free { group.free ≤ 65536 }
    requires few_busy { group.busy ≤ 65536 }
    ensures free { result.free + (if is_free before.now then 1 else 0)
        ≡ group.free + (if is_free after.now then 1 else 0) }
    ensures busy { result.busy + (if is_busy before.now then 1 else 0)
        ≡ group.busy + (if is_busy after.now then 1 else 0) }
{
    Group {
        free: recounted(group.free, bucket::is_free(before), bucket::is_free(after)),
        busy: recounted(group.busy, is_busy(before), is_busy(after)),
    }
}

// The buckets of a group.
fn group_of(buckets: &[Bucket], group: usize) -> &[Bucket]
    requires { group ≤ 65536 }
    ensures members { result.now ≡ group_of group buckets.now }
    ensures few { length result.now ≤ 256 }
{
    let (_, rest) = buckets.split_at(buckets.len().min(GROUP * group));
    let (first, _) = rest.split_at(rest.len().min(GROUP));
    first
}

fn first_in(buckets: &[Bucket], want: Want) -> Option<usize>
    ensures { result ≡ position (fits want) buckets.now }
{
    buckets.iter().position(|bucket| fits(bucket, want))
}

// The first bucket of a group that is wanted, by its place in the group.
fn search_group(buckets: &[Bucket], group: usize, counts: Group, want: Want) -> Option<usize>
    requires few { group ≤ 65536 }
    requires counted { count_for want counts ≡ count_by (may_fit want) (group_of group buckets.now) }
    ensures found { result ≡ position (fits want) (group_of group buckets.now) }
    ensures few { IfSome result (λ at. at < 256) }
{
    if count_for(counts, want) == 0 {
        return None;
    }
    first_in(group_of(buckets, group), want)
}

/// The number of the first bucket that is wanted. It looks at the counts of the groups, and at the buckets of those that may
/// have one.
pub fn search(buckets: &[Bucket], groups: &[Group], want: Want) -> Option<usize>
    requires counted { AreCounted buckets.now groups.now }
    requires few { length groups.now ≤ 256 }
    ensures { result ≡ position (fits want) buckets.now }
{
    for group in 0..groups.len() {
        if let Some(at) = search_group(buckets, group, groups[group], want) {
            return Some(GROUP * group + at);
        }
    }
    None
}

/// Whether a bucket of the group may wait or be open.
pub fn has_busy(buckets: &[Bucket], groups: &[Group], group: usize) -> bool
    requires { AreCounted buckets.now groups.now }
    ensures { result ≡ false → IsIdle group buckets.now }
{
    if group >= groups.len() {
        return false;
    }
    groups[group].busy > 0
}

/// The counts of all groups. It goes once over the buckets.
pub fn groups_of(alloc: Global, buckets: &[Bucket]) -> Result<Vec<Group>, AllocError>
    requires { length buckets.now ≤ 65536 }
    ensures counted { IfOk result (λ groups. AreCounted buckets.now groups.items) }
    ensures few { IfOk result (λ groups. length groups.items ≤ 256) }
{
    let mut groups = Vec::new(alloc);
    let count = (buckets.len() + GROUP - 1) / GROUP;
    for group in 0..count {
        let members = group_of(buckets, group);
        groups.push(Group {
            free: count_free(members),
            busy: count_busy(members),
        })?;
    }
    Ok(groups)
}

/// How many buckets are free.
pub fn count_free(buckets: &[Bucket]) -> u32
    requires { length buckets.now ≤ 65536 }
    ensures { result ≡ count_by is_free buckets.now }
{
    buckets
        .iter()
        .filter(|bucket| bucket::is_free(bucket))
        .count() as u32
}

fn count_busy(buckets: &[Bucket]) -> u32
    requires { length buckets.now ≤ 65536 }
    ensures { result ≡ count_by is_busy buckets.now }
{
    buckets.iter().filter(|bucket| is_busy(bucket)).count() as u32
}
