ghost use Rattle.std.specs.Prelude.{◌≡◌, ◌≤◌, ◌*◌, IsTrue, ◌↔◌, option_copied, sum_by};
ghost use Rattle.vol_types.specs.Ranges.{IsValue, IsKeyValue, AreLinks, AreSubs};
ghost use Rattle.vol_types.specs.Standing.{IsUpdate, Stands};
ghost use Rattle.vol_types.specs.Lengths.{key_length_of, fields_length_of, link_length, sub_length};

use crate::{Btree, Duplicate, LinkList, Pos, SubList, Value};
use std::alloc::{AllocError, Global};

/// A position with its value, or with none where it is removed.
#[derive(PartialEq, Eq, Drop)]
pub struct Key {
    pub pos: Pos,
    pub value: Option<Value>,
}

impl Duplicate for Key {
    fn copy(&self, alloc: Global) -> Result<Self, AllocError> {
        Ok(Key {
            pos: self.pos,
            value: self.value.copy(alloc)?,
        })
    }
}

/// What a commit does to one position of a btree. Level 0 is that of the leaves.
#[derive(PartialEq, Eq, Drop)]
pub struct Update {
    pub btree: Btree,
    pub level: u8,
    pub pos: Pos,
    pub value: Option<Value>,
}

impl Update {
    /// Whether its key may stand where it is put, and its value is in range. It looks at each name of the value.
    pub fn may_stand(&self) -> bool
        ensures { IsTrue result ↔ IsUpdate self.now }
    {
        stands(self.btree, self.level, self.value.as_ref()) && is_in_range(self.value.as_ref())
    }
}

// Whether a key with this value, or one that is removed, may stand at this level of the btree.
fn stands(btree: Btree, level: u8, value: Option<&Value>) -> bool
    ensures { IsTrue result ↔ Stands btree level (option_copied value.entry) }
{
    match value {
        None => true,
        Some(value) => value.may_stand(btree, level),
    }
}

fn is_in_range(value: Option<&Value>) -> bool
    ensures { IsTrue result ↔ IsKeyValue (option_copied value.entry) }
{
    match value {
        None => true,
        Some(value) => value.is_in_range(),
    }
}

/// How many bytes a key with this value takes on disk, or one that is removed. It goes over the names of the value.
pub fn key_length(value: Option<&Value>) -> u32
    requires { IsKeyValue (option_copied value) }
    ensures { result ≡ key_length_of (option_copied value.entry) }
{
    match value {
        None => 21,
        Some(value) => 21 + fields_length(value),
    }
}

fn fields_length(value: &Value) -> u32
    requires { IsValue value.now }
    ensures exact { result ≡ fields_length_of value.now }
    ensures bounded { result ≤ 2200 }
{
    match value {
        Value::Inode(_) => 13,
        Value::Names(links) => 1 + links_length(links),
        Value::Extent(extent) => {
            2 + 9 * extent.pointers.len() as u32 + 8 * extent.digests.len() as u32
        }
        Value::Hole { .. } => 4,
        Value::White => 0,
        Value::Subs(subs) => 1 + subs_length(subs),
        Value::Snap(_) => 13,
        Value::Live(_) => 5,
        Value::Back { .. } => 20,
        Value::Gone => 0,
        Value::Counter { .. } => 8,
        Value::Node(node) => 10 + 5 * node.places.len() as u32,
    }
}

fn links_length(links: &LinkList) -> u32
    requires { AreLinks links.now }
    ensures exact { result ≡ sum_by link_length links.now }
    ensures bounded { result ≤ 8 * 265 }
{
    let mut total = 0;
    for link in links.as_slice() {
        total += 10 + link.name.len() as u32;
    }
    total
}

fn subs_length(subs: &SubList) -> u32
    requires { AreSubs subs.now }
    ensures exact { result ≡ sum_by sub_length subs.now }
    ensures bounded { result ≤ 8 * 269 }
{
    let mut total = 0;
    for sub in subs.as_slice() {
        total += 14 + sub.name.len() as u32;
    }
    total
}
