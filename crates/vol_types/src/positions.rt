ghost use Rattle.std.specs.Prelude.{◌≡◌, ◌≤◌, IfSome, IfNone};

use crate::Duplicate;
use std::alloc::{AllocError, Global};

/// Where a key stands in its btree. Positions are in the order of their inodes, then of their offsets, then of their
/// snapshots.
#[derive(Clone, Copy, PartialEq, Eq, PartialOrd, Ord)]
pub struct Pos {
    pub inode: u64,
    pub offset: u64,
    pub snapshot: u32,
}

impl Pos {
    ghost use Rattle.vol_types.specs.Positions.{next_pos};

    /// The least position.
    pub const LEAST: Pos = Pos {
        inode: 0,
        offset: 0,
        snapshot: 0,
    };

    /// The greatest position.
    pub const GREATEST: Pos = Pos {
        inode: u64::MAX,
        offset: u64::MAX,
        snapshot: u32::MAX,
    };

    /// The position that follows, or none after the greatest one.
    pub fn next(self) -> Option<Pos>
        ensures { result ≡ next_pos self }
    {
        if self.snapshot < u32::MAX {
            return Some(Pos {
                inode: self.inode,
                offset: self.offset,
                snapshot: self.snapshot + 1,
            });
        }
        if self.offset < u64::MAX {
            return Some(Pos {
                inode: self.inode,
                offset: self.offset + 1,
                snapshot: 0,
            });
        }
        if self.inode < u64::MAX {
            return Some(Pos {
                inode: self.inode + 1,
                offset: 0,
                snapshot: 0,
            });
        }
        None
    }
}

impl Duplicate for Pos {
    fn copy(&self, _alloc: Global) -> Result<Self, AllocError> {
        Ok(*self)
    }
}

/// The btrees of a volume.
#[derive(Clone, Copy, PartialEq, Eq)]
pub enum Btree {
    /// What the blocks of files hold, under the file's number and the end of the extent.
    Extents,
    /// Files and directories, by their number.
    Inodes,
    /// Names, under their directory's number and their slot.
    Dirents,
    /// Subvolumes, by the slot of their name.
    Subvols,
    /// The snapshot ids, by their number.
    Snapshots,
    /// The buckets, under their device.
    Alloc,
    /// The extents that own blocks, under the device and its block.
    Backptrs,
    /// The files whose last name is gone.
    Deleted,
    /// The numbers that are drawn next.
    Counters,
}

impl Btree {
    ghost use Rattle.vol_types.specs.Btrees.{btree_code};

    /// The btree's number on disk.
    pub fn code(self) -> u8
        ensures { result ≡ btree_code self }
    {
        self as u8
    }

    /// The btree with this number on disk.
    pub fn from_code(code: u8) -> Option<Btree>
        ensures found { IfSome result (λ btree. btree_code btree ≡ code) }
        ensures none { IfNone result (9 ≤ code) }
    {
        match code {
            0 => Some(Btree::Extents),
            1 => Some(Btree::Inodes),
            2 => Some(Btree::Dirents),
            3 => Some(Btree::Subvols),
            4 => Some(Btree::Snapshots),
            5 => Some(Btree::Alloc),
            6 => Some(Btree::Backptrs),
            7 => Some(Btree::Deleted),
            8 => Some(Btree::Counters),
            _ => None,
        }
    }
}
