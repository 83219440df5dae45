/// Why the forest refuses an operation.
#[derive(Clone, Copy, PartialEq, Eq)]
pub enum Cause {
    /// A name of the path, or its subvolume's name, is none that a volume keeps, or there are too many names.
    BadPath,
    /// No subvolume has the name.
    NoSubvolume,
    /// A name of the path isn't in its directory.
    NotFound,
    /// What should be a directory is a file.
    NotDir,
    /// The subvolume may only be read.
    ReadOnly,
    /// The name is taken.
    Exists,
    /// Eight names of the directory have the new name's slot.
    Crowded,
    /// The client has used all its inode numbers.
    IdsSpent,
}
