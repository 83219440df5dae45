ghost use Rattle.std.specs.Prelude.{◌≡◌};
ghost use Rattle.geometry.specs.Layouts.{have_room, is_layout_of};

use vol_types::Layout;

/// Whether there are as many sizes as numbers of blocks, and none is smaller.
pub fn have_room(blocks: &[u32], sizes: &[u32]) -> bool
    ensures { result ≡ have_room blocks.now sizes.now }
{
    if blocks.len() != sizes.len() {
        return false;
    }
    for dev in 0..blocks.len() {
        if sizes[dev] < blocks[dev] {
            return false;
        }
    }
    true
}

/// Whether a volume may lie so on devices of these sizes, which are numbers of blocks.
pub fn is_layout_of(sizes: &[u32], layout: &Layout) -> bool
    ensures { result ≡ is_layout_of sizes.now layout.now }
{
    if !layout.is_valid() {
        return false;
    }
    have_room(layout.blocks.as_slice(), sizes)
}
