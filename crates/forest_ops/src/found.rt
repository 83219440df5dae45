use crate::content::Content;
use crate::name_table::NameTable;
use crate::subvolume::Subvolume;

/// An inode at the end of a path: the tree in which it is, and its number.
#[derive(Clone, Copy)]
pub struct FoundInode<'a> {
    pub tree: &'a Subvolume,
    pub number: u64,
}

/// A directory at the end of a path, with its names.
#[derive(Clone, Copy)]
pub struct FoundDirectory<'a> {
    pub tree: &'a Subvolume,
    pub number: u64,
    pub names: &'a NameTable,
}

/// A file at the end of a path, with its bytes.
#[derive(Clone, Copy)]
pub struct FoundFile<'a> {
    pub tree: &'a Subvolume,
    pub number: u64,
    pub content: &'a Content,
}

/// What a rename finds at its two paths: the tree, the number to which the old name leads, and the directory of the new
/// one.
#[derive(Clone, Copy)]
pub struct FoundMove<'a> {
    pub tree: &'a Subvolume,
    pub number: u64,
    pub directory: u64,
    pub names: &'a NameTable,
}
