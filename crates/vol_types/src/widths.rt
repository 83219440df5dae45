ghost use Rattle.std.specs.Prelude.{◌≡◌, Some};
ghost use Rattle.vol_types.specs.Positions.{IsBefore, next_pos};
ghost use Rattle.vol_types.specs.Widths.{PosFits};

use crate::Pos;

// A position of numbers of these widths.
fn position(inode: u64, offset: u64, snapshot: u32) -> Pos
    ensures parts { result ≡ record { inode = inode; offset = offset; snapshot = snapshot } }
    ensures fits { PosFits result }
{
    Pos {
        inode,
        offset,
        snapshot,
    }
}

/// The same position, whose parts have the widths of their types.
pub fn wide(pos: &Pos) -> Pos
    ensures same { result ≡ pos.now }
    ensures fits { PosFits pos.now }
{
    position(pos.inode, pos.offset, pos.snapshot)
}

/// The position that follows one that is before another.
pub fn follower(pos: &Pos, later: &Pos) -> Pos
    requires { IsBefore pos.now later.now }
    ensures next { next_pos pos.now ≡ Some result }
    ensures fits { PosFits pos.now }
{
    let _ = wide(later);
    let pos = wide(pos);
    match pos.next() {
        Some(next) => next,
        None => unreachable!(),
    }
}
