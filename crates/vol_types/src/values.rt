ghost use Rattle.std.specs.Prelude.{◌≡◌, IsTrue, ◌↔◌, IfSome, IfNone};
ghost use Rattle.std.specs.Int.{IsInRange};
ghost use Rattle.vol_types.specs.Standing.{MayStand};
ghost use Rattle.vol_types.specs.Values.{file_kind_code, snap_state_code, kind_of, IsKindOf};

use crate::{Btree, Bytes, Digests, Duplicate, LinkList, NodePtr, Pointers, Pos, SubList};
use std::alloc::{AllocError, Global};

/// What a number of an inode stands for.
#[derive(Clone, Copy, PartialEq, Eq)]
pub enum FileKind {
    File,
    Directory,
}

impl FileKind {
    /// The kind's number on disk.
    pub fn code(self) -> u8
        ensures { result ≡ file_kind_code self }
    {
        match self {
            FileKind::File => 1,
            FileKind::Directory => 2,
        }
    }

    /// The kind with this number on disk.
    pub fn from_code(code: u8) -> Option<FileKind>
        ensures found { IfSome result (λ kind. file_kind_code kind ≡ code) }
        ensures none { IfNone result (¬ IsInRange 1 2 code) }
    {
        match code {
            1 => Some(FileKind::File),
            2 => Some(FileKind::Directory),
            _ => None,
        }
    }
}

/// What a snapshot id is in its tree.
#[derive(Clone, Copy, PartialEq, Eq)]
pub enum SnapState {
    /// A subvolume's current id.
    LiveLeaf,
    /// An id with snapshots under it.
    Interior,
    /// The id of a subvolume that was deleted.
    DeadLeaf,
}

impl SnapState {
    /// The state's number on disk.
    pub fn code(self) -> u8
        ensures { result ≡ snap_state_code self }
    {
        match self {
            SnapState::LiveLeaf => 1,
            SnapState::Interior => 2,
            SnapState::DeadLeaf => 3,
        }
    }

    /// The state with this number on disk.
    pub fn from_code(code: u8) -> Option<SnapState>
        ensures found { IfSome result (λ state. snap_state_code state ≡ code) }
        ensures none { IfNone result (¬ IsInRange 1 3 code) }
    {
        match code {
            1 => Some(SnapState::LiveLeaf),
            2 => Some(SnapState::Interior),
            3 => Some(SnapState::DeadLeaf),
            _ => None,
        }
    }
}

/// A file or a directory. A directory has one link and the size 0.
#[derive(Clone, Copy, PartialEq, Eq)]
pub struct Inode {
    pub kind: FileKind,
    pub links: u32,
    /// In bytes.
    pub size: u64,
}

/// A name of a directory, and the inode that it leads to.
#[derive(PartialEq, Eq, Drop)]
pub struct Link {
    pub number: u64,
    pub kind: FileKind,
    pub name: Bytes,
}

impl Duplicate for Link {
    fn copy(&self, alloc: Global) -> Result<Self, AllocError> {
        Ok(Link {
            number: self.number,
            kind: self.kind,
            name: self.name.copy(alloc)?,
        })
    }
}

/// Blocks of a file that are written: where their copies lie, and the digest of each block.
#[derive(PartialEq, Eq, Drop)]
pub struct Extent {
    pub pointers: Pointers,
    pub digests: Digests,
}

impl Duplicate for Extent {
    fn copy(&self, alloc: Global) -> Result<Self, AllocError> {
        let pointers = self.pointers.copy(alloc)?;
        match self.digests.copy(alloc) {
            Ok(digests) => Ok(Extent { pointers, digests }),
            Err(failed) => {
                drop(pointers);
                Err(failed)
            }
        }
    }
}

/// A subvolume: its current snapshot id, the number of its root directory, and its name.
#[derive(PartialEq, Eq, Drop)]
pub struct Sub {
    pub id: u32,
    pub root: u64,
    pub read_only: bool,
    pub name: Bytes,
}

impl Duplicate for Sub {
    fn copy(&self, alloc: Global) -> Result<Self, AllocError> {
        Ok(Sub {
            id: self.id,
            root: self.root,
            read_only: self.read_only,
            name: self.name.copy(alloc)?,
        })
    }
}

/// A snapshot id in its tree. 0 stands for no parent and for no child.
#[derive(Clone, Copy, PartialEq, Eq)]
pub struct Snap {
    pub parent: u32,
    pub first_child: u32,
    pub second_child: u32,
    pub state: SnapState,
}

/// A bucket that was used: its generation, and how many of its blocks are.
#[derive(Clone, Copy, PartialEq, Eq)]
pub struct Live {
    pub generation: u32,
    pub blocks: u8,
}

/// What stands at a position.
#[derive(PartialEq, Eq, Drop)]
pub enum Value {
    Inode(Inode),
    /// The names of a directory that share a slot, rising by their bytes.
    Names(LinkList),
    /// Blocks of a file. The key stands at the end of their range.
    Extent(Extent),
    /// Blocks of a file that show nothing. The key stands at the end of their range.
    Hole { blocks: u32 },
    /// Nothing, which hides the keys of the snapshot's ancestors.
    White,
    /// The subvolumes whose names share a slot, rising by the bytes of their names.
    Subs(SubList),
    Snap(Snap),
    Live(Live),
    /// The position of the extent that a block of a device belongs to.
    Back { extent: Pos },
    /// A file whose last name is gone, and whose keys are still to be removed.
    Gone,
    /// The next number to be drawn.
    Counter { next: u64 },
    /// A node of the level below.
    Node(NodePtr),
}

impl Value {
    /// The number of the value's kind on disk.
    pub fn kind(&self) -> u8
        ensures { result ≡ kind_of self.now }
    {
        match self {
            Value::Inode(_) => 1,
            Value::Names(_) => 2,
            Value::Extent(_) => 3,
            Value::Hole { .. } => 4,
            Value::White => 5,
            Value::Subs(_) => 6,
            Value::Snap(_) => 7,
            Value::Live(_) => 8,
            Value::Back { .. } => 9,
            Value::Gone => 10,
            Value::Counter { .. } => 11,
            Value::Node(_) => 12,
        }
    }

    /// Whether values of this kind stand in the leaves of a btree.
    pub fn fits(&self, btree: Btree) -> bool
        ensures { IsTrue result ↔ IsKindOf btree (kind_of self.now) }
    {
        match btree {
            Btree::Extents => matches!(self, Value::Extent(_) | Value::Hole { .. }),
            Btree::Inodes => matches!(self, Value::Inode(_) | Value::White),
            Btree::Dirents => matches!(self, Value::Names(_) | Value::White),
            Btree::Subvols => matches!(self, Value::Subs(_)),
            Btree::Snapshots => matches!(self, Value::Snap(_)),
            Btree::Alloc => matches!(self, Value::Live(_)),
            Btree::Backptrs => matches!(self, Value::Back { .. }),
            Btree::Deleted => matches!(self, Value::Gone),
            Btree::Counters => matches!(self, Value::Counter { .. }),
        }
    }

    /// Whether it may stand at this level of a btree: in a leaf, which is level 0, as the btree says, and above it as a
    /// pointer to a node.
    pub fn may_stand(&self, btree: Btree, level: u8) -> bool
        ensures { IsTrue result ↔ MayStand btree level self.now }
    {
        if level == 0 {
            return self.fits(btree);
        }
        self.kind() == 12
    }
}

impl Duplicate for Value {
    fn copy(&self, alloc: Global) -> Result<Self, AllocError> {
        match self {
            Value::Inode(inode) => Ok(Value::Inode(*inode)),
            Value::Names(links) => Ok(Value::Names(links.copy(alloc)?)),
            Value::Extent(extent) => Ok(Value::Extent(extent.copy(alloc)?)),
            Value::Hole { blocks } => Ok(Value::Hole { blocks: *blocks }),
            Value::White => Ok(Value::White),
            Value::Subs(subs) => Ok(Value::Subs(subs.copy(alloc)?)),
            Value::Snap(snap) => Ok(Value::Snap(*snap)),
            Value::Live(live) => Ok(Value::Live(*live)),
            Value::Back { extent } => Ok(Value::Back { extent: *extent }),
            Value::Gone => Ok(Value::Gone),
            Value::Counter { next } => Ok(Value::Counter { next: *next }),
            Value::Node(node) => Ok(Value::Node(node.copy(alloc)?)),
        }
    }
}
