ghost use Rattle.std.specs.Prelude.{◌≡◌, ◌≤◌, ◌++◌, length, take, max, All, IfOk, OnOk};
ghost use Rattle.extent_ops.specs.Stretches.{RiseFrom, between, outside};

use std::alloc::{AllocError, Global};
use vol_types::{Duplicate, Listing};

/// Blocks of a file, from the first one up to the end, which isn't one of them.
#[derive(Clone, Copy, PartialEq, Eq)]
pub(crate) struct Stretch {
    pub first: u64,
    pub end: u64,
}

/// A list of stretches.
pub(crate) type Stretches = Listing<Stretch>;

impl Duplicate for Stretch {
    fn copy(&self, _alloc: Global) -> Result<Self, AllocError> {
        Ok(*self)
    }
}

/// What of the blocks from one up to an end lies outside of some stretches, which rise.
pub(crate) fn outside(
    alloc: Global,
    first: u64,
    end: u64,
    stretches: &[Stretch],
) -> Result<Stretches, AllocError>
    ensures { IfOk result (λ parts. parts ≡ outside first end stretches.now) }
{
    let mut parts = Stretches::new(alloc);
    let mut from = first;
    for stretch in stretches {
        if end <= stretch.first {
            return ended(parts, from, end);
        }
        push_between(&mut parts, from, stretch.first)?;
        from = later(from, stretch.end);
    }
    ended(parts, from, end)
}

// The stretches with the last one of all.
fn ended(mut parts: Stretches, first: u64, end: u64) -> Result<Stretches, AllocError>
    ensures { IfOk result (λ all. all ≡ parts ++ between first end) }
{
    push_between(&mut parts, first, end)?;
    Ok(parts)
}

/// The greater one of two blocks.
pub(crate) fn later(one: u64, other: u64) -> u64
    ensures { result ≡ max one other }
{
    if one < other { other } else { one }
}

/// Adds the stretch from one block up to another, if there is a block in it.
pub(crate) fn push_between(parts: &mut Stretches, first: u64, end: u64) -> Result<(), AllocError>
    ensures { OnOk result (parts.new ≡ parts.old ++ between first end) }
{
    if first < end {
        parts.push(Stretch { first, end })?;
    }
    Ok(())
}

/// The place of the first stretch that ends behind a block, or how many there are, where they rise.
pub(crate) fn place_behind(stretches: &[Stretch], block: u64) -> usize
    ensures within { result ≤ length stretches.now }
    ensures before { RiseFrom 0 stretches.now
        → All (λ stretch. stretch.end ≤ block) (take result stretches.now) }
{
    stretches.partition_point(|stretch| stretch.end <= block)
}
