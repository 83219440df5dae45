ghost use Rattle.std.specs.Prelude.{◌≡◌, ◌<◌, ◌≤◌, ◌-◌, ◌++◌, ◌∷◌, [], ◌==◌, length, take, IfOk, IfErr, IfNone, OnOk, OnErr, slice_get, option_copied};
ghost use Rattle.std.specs.Option.{option_to_list};
ghost use Rattle.std.specs.Slice.Iter.{iter_rest};
ghost use Rattle.std.specs.Iterator.Adapters.{IterYieldsInOrder, IterYieldsInReverse};

use crate::SpareList;
use std::alloc::{AllocError, AllocFailed, Global};
use std::cmp::Ordering;
use std::marker::Model;
use std::slice::Iter;

/// A value that can be copied. The copy may take memory.
pub trait Duplicate: Drop {
    /// An equal value.
    fn copy(&self, alloc: Global) -> Result<Self, AllocError>
        ensures { IfOk result (λ copy. copy ≡ self.now) };

    /// Equal values of all members, in their order. Where a member is plain data, they are copied in one piece.
    fn copy_all(alloc: Global, members: &[Self]) -> Result<Listing<Self>, AllocError>
        ensures { IfOk result (λ list. list ≡ members.now) }
    {
        let mut list = Listing::new(alloc);
        for member in members {
            list.push(member.copy(alloc)?)?;
        }
        Ok(list)
    }
}

/// A list, which contracts see as one. It is a `Vec` under a name that says no more than what it holds, and turns into
/// one and back without taking memory.
#[derive(Debug, Drop)]
pub struct Listing<T> {
    members: Vec<T>,
}

impl<T> Model for Listing<T> {
    ghost use Rattle.std.specs.Prelude.{List};

    ghost Value = { List T };

    ghost view = { λ list. list.members.items };
}

impl<T> Listing<T> {
    /// The empty list. It takes no memory.
    pub fn new(alloc: Global) -> Self
        ensures { result ≡ [] }
    {
        Listing {
            members: Vec::new(alloc),
        }
    }

    pub fn len(&self) -> usize
        ensures { result ≡ length self.now }
    {
        self.members.len()
    }

    pub fn is_empty(&self) -> bool
        ensures { result ≡ (length self.now == 0) }
    {
        self.members.is_empty()
    }

    pub fn as_slice(&self) -> &[T]
        ensures { result.now ≡ self.now }
    {
        self.members.as_slice()
    }

    pub fn get(&self, at: usize) -> Option<&T>
        ensures { option_copied result ≡ slice_get self.now at }
    {
        self.members.get(at)
    }

    /// Adds a member at the end. An `Err` changes nothing, and hands the member back.
    pub fn push(&mut self, member: T) -> Result<(), AllocFailed<T>>
        ensures ok { OnOk result (self.new ≡ self.old ++ member ∷ []) }
        ensures err { OnErr result (self.new ≡ self.old) }
    {
        self.members.push(member)
    }

    /// Makes room for so many more members, of which each push then succeeds. An `Err` hands the list back.
    pub fn reserve(self, additional: usize) -> Result<SpareList<T>, AllocFailed<Listing<T>>>
    where
        T: Drop,
        ensures members { IfOk result (λ list. list.members ≡ self) }
        ensures room { IfOk result (λ list. additional ≤ list.spare) }
        ensures err { IfErr result (λ failed. failed.value ≡ self) }
    {
        let mut list = SpareList::from(self);
        match list.reserve(additional) {
            Ok(()) => Ok(list),
            Err(_) => Err(AllocFailed {
                value: Listing::from(list),
            }),
        }
    }

    /// Takes the last member out.
    pub fn pop(&mut self) -> Option<T>
        ensures last { self.old ≡ self.new ++ option_to_list result }
        ensures none { IfNone result (self.old ≡ []) }
    {
        self.members.pop()
    }

    /// The last member.
    pub fn last(&self) -> Option<&T>
        ensures { option_copied result ≡ slice_get self.now (length self.now - 1) }
    {
        self.members.as_slice().last()
    }

    /// The members in their order, or from the back.
    pub fn iter(&self) -> Iter<'_, T>
        ensures rest { iter_rest result ≡ self.now }
        ensures runs { IterYieldsInOrder T }
        ensures runs_back { IterYieldsInReverse T }
    {
        self.members.as_slice().iter()
    }

    /// Moves the members of another list to the end. An `Err` changes neither list.
    pub fn append(&mut self, other: &mut Listing<T>) -> Result<(), AllocError>
        ensures ok { OnOk result (self.new ≡ self.old ++ other.old) }
        ensures emptied { OnOk result (other.new ≡ []) }
        ensures err { OnErr result (self.new ≡ self.old) }
        ensures kept { OnErr result (other.new ≡ other.old) }
    {
        self.members.append(&mut other.members)
    }

    /// Drops the members from this place on. It takes no memory.
    pub fn truncate(&mut self, count: usize)
    where
        T: Drop,
        ensures { self.new ≡ take count self.old }
    {
        self.members.truncate(count);
    }
}

impl<T: Copy> Listing<T> {
    /// The members of a slice.
    pub fn from_slice(alloc: Global, members: &[T]) -> Result<Self, AllocError>
        ensures { IfOk result (λ list. list ≡ members.now) }
    {
        let mut list = Listing::new(alloc);
        list.extend_from_slice(members)?;
        Ok(list)
    }

    /// Adds the members of a slice at the end. An `Err` changes nothing.
    pub fn extend_from_slice(&mut self, members: &[T]) -> Result<(), AllocError>
        ensures ok { OnOk result (self.new ≡ self.old ++ members.now) }
        ensures err { OnErr result (self.new ≡ self.old) }
    {
        self.members.extend_from_slice(members)
    }
}

impl<T: PartialEq> PartialEq for Listing<T> {
    ghost use Rattle.std.specs.Cmp.Lexicographic.{pointwise, lists_per};

    ghost eq = { pointwise T.eq };

    ghost laws = { lists_per T.laws };

    fn eq(&self, other: &Self) -> bool {
        self.members == other.members
    }
}

impl<T: Eq> Eq for Listing<T> {
    ghost use Rattle.std.proofs.lemmas.Cmp.{lists_equiv};

    ghost laws = { lists_equiv T.Eq.laws };
}

impl<T: PartialOrd> PartialOrd for Listing<T> {
    ghost use Rattle.std.specs.Cmp.Lexicographic.{slice_partial_cmp, lists_po};

    ghost partial_cmp = { slice_partial_cmp T.partial_cmp };

    ghost laws = { lists_po T.PartialOrd.laws };

    fn partial_cmp(&self, other: &Self) -> Option<Ordering> {
        self.members.partial_cmp(&other.members)
    }
}

impl<T: Ord> Ord for Listing<T> {
    ghost use Rattle.std.specs.Cmp.Lexicographic.{slice_cmp, lists_total, lists_agrees, lists_ties};

    ghost cmp = { slice_cmp T.cmp };

    ghost total = { lists_total T.total };

    ghost matches_partial_cmp = { lists_agrees T.matches_partial_cmp };

    ghost matches_eq = { lists_ties T.cmp T.matches_eq };

    fn cmp(&self, other: &Self) -> Ordering {
        self.members.cmp(&other.members)
    }
}

impl<T> From<Vec<T>> for Listing<T> {
    ghost from_gives = { λ v list. list ≡ v.items };

    fn from(members: Vec<T>) -> Self {
        Listing { members }
    }
}

impl<T> From<Listing<T>> for Vec<T> {
    ghost from_gives = { λ list v. v.items ≡ list };

    fn from(list: Listing<T>) -> Self {
        list.members
    }
}

impl Duplicate for u8 {
    fn copy(&self, _alloc: Global) -> Result<Self, AllocError> {
        Ok(*self)
    }

    fn copy_all(alloc: Global, members: &[Self]) -> Result<Listing<Self>, AllocError> {
        Listing::from_slice(alloc, members)
    }
}

impl Duplicate for u32 {
    fn copy(&self, _alloc: Global) -> Result<Self, AllocError> {
        Ok(*self)
    }

    fn copy_all(alloc: Global, members: &[Self]) -> Result<Listing<Self>, AllocError> {
        Listing::from_slice(alloc, members)
    }
}

impl Duplicate for u64 {
    fn copy(&self, _alloc: Global) -> Result<Self, AllocError> {
        Ok(*self)
    }

    fn copy_all(alloc: Global, members: &[Self]) -> Result<Listing<Self>, AllocError> {
        Listing::from_slice(alloc, members)
    }
}

impl<T: Duplicate> Duplicate for Option<T> {
    fn copy(&self, alloc: Global) -> Result<Self, AllocError> {
        match self {
            None => Ok(None),
            Some(member) => Ok(Some(member.copy(alloc)?)),
        }
    }
}

impl<T: Duplicate> Duplicate for Listing<T> {
    fn copy(&self, alloc: Global) -> Result<Self, AllocError> {
        T::copy_all(alloc, self.members.as_slice())
    }
}
