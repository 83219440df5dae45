use vol_types::Updates;

/// What adding a name to a directory comes to.
#[derive(PartialEq, Eq, Drop)]
pub enum NameStep {
    /// The updates that add it.
    Done(Updates),
    /// The directory has the name.
    Exists,
    /// Eight other names of the directory share its slot.
    Crowded,
}
