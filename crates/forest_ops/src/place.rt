ghost use Rattle.std.specs.Prelude.{◌≡◌};
ghost use Rattle.vol_digest.specs.Digests.{slot_of};

use vol_types::Bytes;

/// Where a name is: the number of its directory, the name there with its slot, and the number to which it leads.
#[derive(Clone, Copy)]
pub struct NamePlace<'a> {
    pub directory: u64,
    pub name: &'a Bytes,
    pub slot: u64,
    pub number: u64,
    ghost slotted: { slot ≡ slot_of name.now },
}

/// A change of one file tree.
#[derive(Clone, Copy)]
pub enum Change<'a> {
    /// An empty file comes under a new name.
    MakeFile(NamePlace<'a>),
    /// An empty directory comes under a new name.
    MakeDirectory(NamePlace<'a>),
    /// A file gets a new name.
    AddName(NamePlace<'a>),
    /// A name of a file goes, and the file with its last name.
    Unlink(NamePlace<'a>),
    /// An empty directory goes with its name.
    RemoveDirectory(NamePlace<'a>),
    /// A name moves from its old place to a new one.
    Move {
        old: NamePlace<'a>,
        new: NamePlace<'a>,
    },
    /// Bytes are put into a file at an offset.
    Put {
        number: u64,
        offset: u64,
        bytes: &'a Bytes,
    },
    /// A file is cut to a size, or made longer with zeros.
    Resize {
        number: u64,
        size: u64,
    },
}
