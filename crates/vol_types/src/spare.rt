ghost use Rattle.std.specs.Prelude.{◌≡◌, ◌+◌, ◌<◌, ◌≤◌, ◌++◌, ◌∷◌, [], ◌==◌, length, OnOk, OnErr, IsOk};

use crate::Listing;
use std::alloc::{AllocError, Global};
use std::marker::Model;

/// A list that shows how many more members it takes without memory. Where room is reserved, a push can't fail, so that
/// what follows the reserving is done whole.
#[derive(Drop)]
pub struct SpareList<T> {
    members: Vec<T>,
}

impl<T> Model for SpareList<T> {
    ghost use Rattle.std.specs.Prelude.{◌-◌};
    ghost use Rattle.std.specs.Vec.{vec_len, vec_capacity};
    ghost use Rattle.vol_types.specs.Spare.{Spare};

    ghost Value = { Spare T };

    ghost view = { λ list. record { members = list.members.items; spare = vec_capacity list.members - vec_len list.members } };
}

impl<T> SpareList<T> {
    /// The empty list. It takes no memory.
    pub fn new(alloc: Global) -> Self
        ensures { result.members ≡ [] }
    {
        SpareList {
            members: Vec::new(alloc),
        }
    }

    pub fn len(&self) -> usize
        ensures { result ≡ length self.now.members }
    {
        self.members.len()
    }

    pub fn is_empty(&self) -> bool
        ensures { result ≡ (length self.now.members == 0) }
    {
        self.members.is_empty()
    }

    pub fn as_slice(&self) -> &[T]
        ensures { result.now ≡ self.now.members }
    {
        self.members.as_slice()
    }

    /// Makes room for so many more members. An `Err` changes nothing.
    pub fn reserve(&mut self, additional: usize) -> Result<(), AllocError>
        ensures members { self.new.members ≡ self.old.members }
        ensures ok { OnOk result (additional ≤ self.new.spare) }
        ensures room { self.old.spare ≤ self.new.spare }
        ensures err { OnErr result (self.new ≡ self.old) }
        // It takes no memory where there is room.
        ensures succeeds { additional ≤ self.old.spare → IsOk result }
    {
        self.members.reserve(additional)
    }

    /// Adds a member at the end, where there is room for it.
    pub fn push(&mut self, member: T)
    where
        T: Drop,
        requires { 0 < self.old.spare }
        ensures members { self.new.members ≡ self.old.members ++ member ∷ [] }
        ensures room { self.old.spare ≤ self.new.spare + 1 }
    {
        if self.members.push(member).is_err() {
            unreachable!()
        }
    }
}

impl<T> From<Listing<T>> for SpareList<T> {
    ghost from_gives = { λ listing list. list.members ≡ listing };

    fn from(listing: Listing<T>) -> Self {
        SpareList {
            members: Vec::from(listing),
        }
    }
}

impl<T> From<SpareList<T>> for Listing<T> {
    ghost from_gives = { λ list listing. listing ≡ list.members };

    fn from(list: SpareList<T>) -> Self {
        Listing::from(list.members)
    }
}
