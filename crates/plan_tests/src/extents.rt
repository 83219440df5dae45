//! Extents whose digests are numbers that rise, for the tests beside it.

use std::alloc::{AllocError, Global};
use std::collections::BTreeMap;
use vol_types::{Digests, Extent, Key, Place, Pointer, Pointers, Pos, Update, Updates, Value};

/// The next number of a generator, below a bound.
pub(crate) fn draw(seed: &mut u64, bound: u64) -> u64 {
    *seed = seed
        .wrapping_mul(6_364_136_223_846_793_005)
        .wrapping_add(1_442_695_040_888_963_407);
    (*seed >> 33).checked_rem(bound).unwrap_or(0)
}

// The block at which a copy begins whose first digest is this number.
fn block_for(digest: u64) -> u32 {
    u32::try_from(digest).unwrap_or(0)
}

// Digests that rise from this one.
fn digests_from(alloc: Global, blocks: u64, digest: u64) -> Result<Digests, AllocError> {
    let mut digests = Digests::new(alloc);
    for index in 0..blocks {
        digests.push(digest.wrapping_add(index))?;
    }
    Ok(digests)
}

/// An extent from a block on, whose digests are numbers that rise from this one.
pub(crate) fn extent(
    alloc: Global,
    id: u32,
    first: u64,
    blocks: u64,
    digest: u64,
) -> Result<Key, AllocError> {
    let block = block_for(digest);
    let pointer = Pointer {
        place: Place { dev: 1, block },
        generation: 3,
    };
    let digests = digests_from(alloc, blocks, digest)?;
    let pointers = Pointers::from_slice(alloc, &[pointer])?;
    Ok(Key {
        pos: Pos {
            inode: 7,
            offset: first.wrapping_add(blocks),
            snapshot: id,
        },
        value: Some(Value::Extent(Extent { pointers, digests })),
    })
}

// Makes an update of the extents and holes of a map.
fn apply(map: &mut BTreeMap<Pos, Value>, update: Update) -> Result<(), AllocError> {
    let Update { pos, value, .. } = update;
    match value {
        None => {
            map.remove(&pos);
        }
        Some(value) => {
            map.insert(pos, value)?;
        }
    }
    Ok(())
}

/// Makes updates of the extents and holes of a map.
pub(crate) fn apply_all(
    map: &mut BTreeMap<Pos, Value>,
    updates: Updates,
) -> Result<(), AllocError> {
    for update in Vec::from(updates) {
        apply(map, update)?;
    }
    Ok(())
}

/// The digest of a block that is found, or 0 for none, or the greatest number where its copy isn't where that of the digest is.
pub(crate) fn digest_in(found: Option<&(Pointers, u64)>) -> u64 {
    match found {
        None => 0,
        Some((pointers, digest)) => if is_at(pointers.as_slice(), block_for(*digest)) {
            *digest
        } else {
            u64::MAX
        },
    }
}

fn is_at(pointers: &[Pointer], block: u32) -> bool {
    let [pointer] = pointers else {
        return false;
    };
    pointer.place == Place { dev: 1, block } && pointer.generation == 3
}
