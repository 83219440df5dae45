ghost use Rattle.std.specs.Prelude.{◌≡◌, ◌+◌, ◌-◌, ◌^◌, map, min, take, drop, IfOk};
ghost use Rattle.extent_ops.specs.Cutting.{part_of, pointer_behind};
ghost use Rattle.key_meaning.specs.Blocks.{blocks_of};

use std::alloc::{AllocError, Global};
use vol_types::{Digests, Duplicate, Extent, Place, Pointer, Pointers, Value};

/// How many blocks a value covers: those of an extent or of a hole.
pub(crate) fn blocks_of(value: &Value) -> u64
    ensures { result ≡ blocks_of value.now }
{
    match value {
        Value::Extent(extent) => extent.digests.len() as u64,
        Value::Hole { blocks } => u64::from(*blocks),
        _ => 0,
    }
}

/// So many blocks of a value, from one of them on. It costs as many steps as it has pointers and blocks.
pub(crate) fn part_of(
    alloc: Global,
    skip: u64,
    count: u64,
    value: &Value,
) -> Result<Value, AllocError>
    ensures { IfOk result (λ part. part ≡ part_of skip count value.now) }
{
    match value {
        Value::Extent(extent) => Ok(Value::Extent(Extent {
            pointers: pointers_behind(alloc, skip, extent.pointers.as_slice())?,
            digests: digests_from(alloc, skip, count, extent.digests.as_slice())?,
        })),
        Value::Hole { blocks } => Ok(Value::Hole {
            blocks: at_most(count, *blocks),
        }),
        other => other.copy(alloc),
    }
}

/// The pointers so many blocks further on.
pub(crate) fn pointers_behind(
    alloc: Global,
    skip: u64,
    pointers: &[Pointer],
) -> Result<Pointers, AllocError>
    ensures { IfOk result (λ moved. moved ≡ map (pointer_behind skip) pointers.now) }
{
    let mut moved = Pointers::new(alloc);
    for pointer in pointers {
        moved.push(pointer_behind(*pointer, skip))?;
    }
    Ok(moved)
}

fn pointer_behind(pointer: Pointer, skip: u64) -> Pointer
    ensures { result ≡ pointer_behind skip pointer }
{
    Pointer {
        place: Place {
            dev: pointer.place.dev,
            block: block_behind(pointer.place.block, skip),
        },
        generation: pointer.generation,
    }
}

// The block so many further on, of those that have a number.
fn block_behind(block: u32, skip: u64) -> u32
    ensures { result ≡ min (block + skip) (2 ^ 32 - 1) }
{
    match u32::try_from(skip) {
        Ok(skip) => block.saturating_add(skip),
        Err(_) => u32::MAX,
    }
}

/// A number of blocks, or the greatest one.
pub(crate) fn at_most(count: u64, greatest: u32) -> u32
    ensures { result ≡ min count greatest }
{
    match u32::try_from(count) {
        Ok(count) => { if count < greatest { count } else { greatest } }
        Err(_) => greatest,
    }
}

// So many digests, from one of them on.
fn digests_from(
    alloc: Global,
    skip: u64,
    count: u64,
    digests: &[u64],
) -> Result<Digests, AllocError>
    ensures { IfOk result (λ part. part ≡ take count (drop skip digests.now)) }
{
    let (_, rest) = digests.split_at(digests.len().min(skip as usize));
    let (part, _) = rest.split_at(rest.len().min(count as usize));
    Digests::from_slice(alloc, part)
}
