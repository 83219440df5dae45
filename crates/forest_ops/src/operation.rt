ghost use Rattle.std.specs.Prelude.{◌≡◌, IfOk};
ghost use Rattle.forest_ops.specs.Classes.{class_of};
ghost use Rattle.forest_ops.specs.History.{is_done};

use plain_forest::Path;
use std::alloc::{AllocError, Global};
use vol_types::{Bytes, Duplicate, FlagList, Listing, Lost, Short};

/// An operation on the forest.
#[derive(PartialEq, Eq, Drop)]
pub enum Op {
    /// Makes an empty directory.
    Mkdir {
        path: Path,
    },
    /// Makes an empty file.
    Mkfile {
        path: Path,
    },
    /// Puts bytes into a file, from an offset in bytes; zeros stand between its old end and the offset.
    Write {
        path: Path,
        offset: u64,
        bytes: Bytes,
    },
    /// Cuts a file to a size in bytes, or makes it longer with zeros. One truncation cuts at most 256 blocks.
    Trunc {
        path: Path,
        size: u64,
    },
    /// Reads at most so many bytes of a file, from an offset in bytes.
    Read {
        path: Path,
        offset: u64,
        len: u64,
    },
    /// Lists the names of a directory.
    Ls {
        path: Path,
    },
    /// Tells what stands at a path.
    Stat {
        path: Path,
    },
    /// Gives the file at `from` one more name.
    Link {
        from: Path,
        to: Path,
    },
    /// Takes a name of a file away, and the file with its last name.
    Unlink {
        path: Path,
    },
    /// Removes an empty directory.
    Rmdir {
        path: Path,
    },
    /// Moves a name of a file or a directory. No name is replaced.
    Rename {
        from: Path,
        to: Path,
    },
    /// Makes an empty subvolume.
    Subvol {
        name: Bytes,
    },
    /// Makes a subvolume whose tree is a copy of another's; `locked` where it may only be read.
    Snap {
        source: Bytes,
        copy: Bytes,
        locked: bool,
    },
    /// Removes a subvolume with its tree.
    Delsub {
        name: Bytes,
    },
    /// Lists the subvolumes.
    Subs,
    /// Makes every commit before it durable.
    Sync,
    /// Makes every commit before it durable, where something stands at the path.
    Fsync {
        path: Path,
    },
    /// Makes at most so many steps of the work that removed files and subvolumes leave behind.
    Sweep {
        steps: u64,
    },
    /// Tells how many blocks the files use on the devices.
    Usage,
}

impl Duplicate for Op {
    fn copy(&self, alloc: Global) -> Result<Self, AllocError> {
        match self {
            Op::Mkdir { path } => Ok(Op::Mkdir {
                path: path.copy(alloc)?,
            }),
            Op::Mkfile { path } => Ok(Op::Mkfile {
                path: path.copy(alloc)?,
            }),
            Op::Write {
                path,
                offset,
                bytes,
            } => {
                let (path, bytes) = copy_both(alloc, path, bytes)?;
                Ok(Op::Write {
                    path,
                    offset: *offset,
                    bytes,
                })
            }
            Op::Trunc { path, size } => Ok(Op::Trunc {
                path: path.copy(alloc)?,
                size: *size,
            }),
            Op::Read { path, offset, len } => Ok(Op::Read {
                path: path.copy(alloc)?,
                offset: *offset,
                len: *len,
            }),
            Op::Ls { path } => Ok(Op::Ls {
                path: path.copy(alloc)?,
            }),
            Op::Stat { path } => Ok(Op::Stat {
                path: path.copy(alloc)?,
            }),
            Op::Link { from, to } => {
                let (from, to) = copy_both(alloc, from, to)?;
                Ok(Op::Link { from, to })
            }
            Op::Unlink { path } => Ok(Op::Unlink {
                path: path.copy(alloc)?,
            }),
            Op::Rmdir { path } => Ok(Op::Rmdir {
                path: path.copy(alloc)?,
            }),
            Op::Rename { from, to } => {
                let (from, to) = copy_both(alloc, from, to)?;
                Ok(Op::Rename { from, to })
            }
            Op::Subvol { name } => Ok(Op::Subvol {
                name: name.copy(alloc)?,
            }),
            Op::Snap {
                source,
                copy,
                locked,
            } => {
                let (source, copy) = copy_both(alloc, source, copy)?;
                Ok(Op::Snap {
                    source,
                    copy,
                    locked: *locked,
                })
            }
            Op::Delsub { name } => Ok(Op::Delsub {
                name: name.copy(alloc)?,
            }),
            Op::Subs => Ok(Op::Subs),
            Op::Sync => Ok(Op::Sync),
            Op::Fsync { path } => Ok(Op::Fsync {
                path: path.copy(alloc)?,
            }),
            Op::Sweep { steps } => Ok(Op::Sweep { steps: *steps }),
            Op::Usage => Ok(Op::Usage),
        }
    }
}

/// The classes of operations.
#[derive(Clone, Copy, PartialEq, Eq)]
pub enum Class {
    /// It changes the forest.
    Changes,
    /// It makes changes durable.
    Syncs,
    /// It sweeps up what changes left behind.
    Sweeps,
    /// It only reads.
    Reads,
}

impl Op {
    /// Its class.
    pub fn class(&self) -> Class
        ensures { result ≡ class_of self.now }
    {
        match self {
            Op::Mkdir { .. }
            | Op::Mkfile { .. }
            | Op::Write { .. }
            | Op::Trunc { .. }
            | Op::Link { .. }
            | Op::Unlink { .. }
            | Op::Rmdir { .. }
            | Op::Rename { .. }
            | Op::Subvol { .. }
            | Op::Snap { .. }
            | Op::Delsub { .. } => Class::Changes,
            Op::Sync | Op::Fsync { .. } => Class::Syncs,
            Op::Sweep { .. } => Class::Sweeps,
            Op::Read { .. } | Op::Ls { .. } | Op::Stat { .. } | Op::Subs | Op::Usage => {
                Class::Reads
            }
        }
    }
}

/// Why the forest refuses an operation.
#[derive(Clone, Copy, PartialEq, Eq)]
pub enum Cause {
    /// A name of the path, or its subvolume's name, is none that a volume keeps, or there are too many names.
    BadPath,
    /// The two paths name different subvolumes.
    Cross,
    /// No subvolume has the name.
    NoSubvolume,
    /// A name of the path isn't in its directory.
    NotFound,
    /// What should be a directory is a file.
    NotDir,
    /// What should be a file is a directory.
    IsDir,
    /// The subvolume may only be read.
    ReadOnly,
    /// The name is taken.
    Exists,
    /// The directory has names.
    NotEmpty,
    /// A root can't be removed, and a directory can't be moved under itself.
    Loop,
    /// Eight names of the directory, or eight subvolumes, have the new name's slot.
    Crowded,
    /// The file has 255 names.
    LinksFull,
    /// The file would be longer than 16 MiB.
    TooBig,
    /// The client has used all its inode numbers, or too few snapshot ids are left.
    IdsSpent,
    /// There are 4,096 subvolumes.
    TooMany,
}

/// What an operation answers.
#[derive(PartialEq, Eq, Drop)]
pub enum Reply {
    /// It is done.
    Okay,
    /// A truncation has come to this size in bytes, and isn't at its end.
    More(u64),
    /// So many commits are durable.
    Synced(u64),
    /// Bytes of a file.
    Content(Bytes),
    /// The names of a directory, rising by their bytes, with 1 for a file and 2 for a directory.
    List(FlagList),
    /// A file with its inode number, its size in bytes and the number of its names.
    File { number: u64, size: u64, links: u32 },
    /// A directory with its inode number and the number of its names.
    Dir { number: u64, entries: u64 },
    /// The names of the subvolumes, rising by their bytes, with 1 for one that may only be read and else 0.
    SubNames(FlagList),
    /// So many blocks are used.
    Used(u64),
    /// The forest refuses the operation.
    Refused(Cause),
    /// There is no space.
    NoSpace(Short),
    /// A call to this device failed.
    DeviceFault(u8),
    /// A block of the file is on none of its places.
    DataLost(Lost),
    /// The session has stopped writing: at this moment a write or a flush of this device had failed.
    Halted { dev: u8, tick: u64 },
    /// One of the volume's numbers is used up.
    Spent,
    /// Out of memory. The operation has no place in the history.
    NoMemory,
}

impl Reply {
    /// Whether it says that a change was done, in whole or in part.
    pub fn is_done(&self) -> bool
        ensures { result ≡ is_done self.now }
    {
        matches!(self, Reply::Okay | Reply::More(_))
    }
}

impl Duplicate for Reply {
    fn copy(&self, alloc: Global) -> Result<Self, AllocError> {
        match self {
            Reply::Okay => Ok(Reply::Okay),
            Reply::More(size) => Ok(Reply::More(*size)),
            Reply::Synced(count) => Ok(Reply::Synced(*count)),
            Reply::Content(bytes) => Ok(Reply::Content(bytes.copy(alloc)?)),
            Reply::List(names) => Ok(Reply::List(names.copy(alloc)?)),
            Reply::File {
                number,
                size,
                links,
            } => Ok(Reply::File {
                number: *number,
                size: *size,
                links: *links,
            }),
            Reply::Dir { number, entries } => Ok(Reply::Dir {
                number: *number,
                entries: *entries,
            }),
            Reply::SubNames(names) => Ok(Reply::SubNames(names.copy(alloc)?)),
            Reply::Used(blocks) => Ok(Reply::Used(*blocks)),
            Reply::Refused(cause) => Ok(Reply::Refused(*cause)),
            Reply::NoSpace(short) => Ok(Reply::NoSpace(short.copy(alloc)?)),
            Reply::DeviceFault(dev) => Ok(Reply::DeviceFault(*dev)),
            Reply::DataLost(lost) => Ok(Reply::DataLost(lost.copy(alloc)?)),
            Reply::Halted { dev, tick } => Ok(Reply::Halted {
                dev: *dev,
                tick: *tick,
            }),
            Reply::Spent => Ok(Reply::Spent),
            Reply::NoMemory => Ok(Reply::NoMemory),
        }
    }
}

/// An operation of a client, below 16, in a history, with its reply.
#[derive(PartialEq, Eq, Drop)]
pub struct Entry {
    pub client: u8,
    pub op: Op,
    pub reply: Reply,
}

impl Duplicate for Entry {
    fn copy(&self, alloc: Global) -> Result<Self, AllocError> {
        let (op, reply) = copy_both(alloc, &self.op, &self.reply)?;
        Ok(Entry {
            client: self.client,
            op,
            reply,
        })
    }
}

/// The entries of a session, in their order.
pub type Trace = Listing<Entry>;

// Equal values of both.
fn copy_both<One: Duplicate, Other: Duplicate>(
    alloc: Global,
    one: &One,
    other: &Other,
) -> Result<(One, Other), AllocError>
    ensures one { IfOk result (λ both. both.0 ≡ one.now) }
    ensures other { IfOk result (λ both. both.1 ≡ other.now) }
{
    let one = one.copy(alloc)?;
    let other = other.copy(alloc)?;
    Ok((one, other))
}
