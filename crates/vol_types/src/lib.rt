//! The small types that all layers of the volume share.
//!
//! A list of this crate is a `Vec` under a name of its own. Contracts see it as a list, so that a value of the code
//! can be compared with a value of a definition.
#![tactic(auto)]

mod failure;
mod keys;
mod laws;
mod layout;
mod limits;
mod lists;
mod maps;
mod pointers;
mod positions;
mod queries;
mod ranges;
mod space;
mod spare;
mod values;
mod widths;

pub use failure::{Failed, Halt};
pub use keys::{Key, Update, key_length};
pub use laws::{
    constants_are_defined, key_maps_are_updated, keys_are_short, layouts_are_tested,
    maps_are_functions, positions_are_ordered, rising_lists_are_sorted,
};
pub use layout::{Layout, Lost};
pub use limits::{BLOCK_SIZE, BUCKET_BLOCKS, NODE_LIMIT, SET_HEAD};
pub use lists::{Duplicate, Listing};
pub use maps::copy_map;
pub use pointers::{NodeEnd, NodePtr, Place, Pointer};
pub use positions::{Btree, Pos};
pub use queries::{Look, Query};
pub use space::Short;
pub use spare::SpareList;
pub use values::{Extent, FileKind, Inode, Link, Live, Snap, SnapState, Sub, Value};
pub use widths::{follower, wide};

/// A list of bytes.
pub type Bytes = Listing<u8>;

/// A list of names, each a list of bytes.
pub type NameList = Listing<Bytes>;

/// A list of names with a flag each.
pub type FlagList = Listing<FlaggedName>;

/// The names of a directory that share a slot.
pub type LinkList = Listing<Link>;

/// The subvolumes whose names share a slot.
pub type SubList = Listing<Sub>;

/// A list of places, one for each copy.
pub type Places = Listing<Place>;

/// A list of pointers, one for each copy.
pub type Pointers = Listing<Pointer>;

/// A digest for each block.
pub type Digests = Listing<u64>;

/// For each place the digest of what it gave, or none where reading it failed.
pub type Reads = Listing<Option<u64>>;

/// A list of keys.
pub type Keys = Listing<Key>;

/// A list of updates, in their order.
pub type Updates = Listing<Update>;

/// A list of queries with their answers.
pub type Looks = Listing<Look>;

/// A list of snapshot ids.
pub type Ids = Listing<u32>;

/// A number of blocks for each device.
pub type Blocks = Listing<u32>;

/// A number for each device.
pub type Counts = Listing<u32>;

/// The root of each btree, in the order of their numbers.
pub type Roots = Listing<NodePtr>;

/// For each node up to where its bucket is written.
pub type Ends = Listing<NodeEnd>;

/// A list of births of nodes.
pub type Births = Listing<u64>;

/// A name with a flag. What the flag means depends on the list that it stands in.
#[derive(PartialEq, Eq, Drop)]
pub struct FlaggedName {
    pub name: Bytes,
    pub flag: u8,
}

impl Duplicate for FlaggedName {
    fn copy(&self, alloc: std::alloc::Global) -> Result<Self, std::alloc::AllocError> {
        Ok(FlaggedName {
            name: self.name.copy(alloc)?,
            flag: self.flag,
        })
    }
}
