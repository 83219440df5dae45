ghost use Rattle.std.specs.Prelude.{◌≡◌, ◌<◌, ◌≤◌, ◌+◌, ◌⊎◌};
ghost use Rattle.file_plan.specs.Sizes.{blocks_up_to, cut_size, most_cut};
ghost use Rattle.vol_types.specs.Limits.{block_size};

/// The bytes of a block.
pub(crate) const BLOCK: u64 = 4096;

// How many blocks one truncation cuts at most.
const MOST_CUT: u64 = 256;

/// The size that a file of one size has after one truncation to another: this one, where at most 256 blocks are cut for it; else
/// the least one for which no more are cut. A truncation is whole where the two are equal.
pub fn cut_size(size: u64, new: u64) -> u64
    ensures is { result ≡ cut_size size new }
    ensures few { blocks_up_to size ≤ blocks_up_to result + most_cut }
    ensures on_the_way { (result ≡ new) ⊎ ((new < result) × (result < size)) }
{
    let blocks = blocks_up_to(size);
    if blocks <= blocks_up_to(new) + MOST_CUT {
        return new;
    }
    (blocks - MOST_CUT) * BLOCK
}

/// How many blocks a file of a size has.
pub(crate) fn blocks_up_to(size: u64) -> u64
    ensures is { result ≡ blocks_up_to size }
{
    size.div_ceil(BLOCK)
}
