ghost use Rattle.std.specs.Prelude.{◌≡◌, ◌≤◌};
ghost use Rattle.std.specs.Int.{IsInRange};
ghost use Rattle.inode_keys.specs.Inodes.{new_inode, with_links, with_size};
ghost use Rattle.vol_types.specs.Ranges.{IsInode, most_bytes, most_links};

use vol_types::{FileKind, Inode};

/// A new inode of a kind: it has one name, and no bytes.
pub fn new_inode(kind: FileKind) -> Inode
    ensures inode { result ≡ new_inode kind }
    ensures in_range { IsInode result }
{
    Inode {
        kind,
        links: 1,
        size: 0,
    }
}

/// An inode with another count of links, which is in range where its kind may have so many.
pub fn with_links(inode: Inode, links: u32) -> Inode
    ensures inode { result ≡ with_links inode links }
    ensures in_range { IsInode inode → IsInRange 1 (most_links inode.kind) links → IsInode result }
{
    Inode { links, ..inode }
}

/// An inode with another size, which is in range where its kind may have so many bytes.
pub fn with_size(inode: Inode, size: u64) -> Inode
    ensures inode { result ≡ with_size inode size }
    ensures in_range { IsInode inode → size ≤ most_bytes inode.kind → IsInode result }
{
    Inode { size, ..inode }
}
