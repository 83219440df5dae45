ghost use Rattle.std.specs.Prelude.{◌≡◌, ◌++◌, All, Option, None, Ok, OnOk, IfOk, option_copied, option_map, ◌&&◌};
ghost use Rattle.std.specs.Ordering.{is_le};
ghost use Rattle.key_codec.specs.Formats.{is_above};
ghost use Rattle.key_codec.specs.Keys.{encoding};
ghost use Rattle.vol_types.specs.Positions.{pos_cmp};
ghost use Rattle.vol_types.specs.Ranges.{IsKeyValue};
ghost use Rattle.record_codec.specs.Reading.{Gives};
ghost use Rattle.record_codec.specs.Sets.{IsSet, IsSetInRange, KeyFits, HeadFits, set_head, is_next, key_item, head_of, lent_key, lent_set, set_format, set_in};
ghost use Rattle.record_codec.specs.declared.sets.SetRecord.{SetRecord as ASet};

use crate::RecordFault;
use crate::fields::{btree_at, byte_at, long_number_at, pos_at, value_at, zeros_at};
use crate::members::{Member, Written, listing_at, put_members};
use key_codec::{put_key, put_position, put_u8, put_u32, put_u64};
use std::alloc::{AllocError, Global};
use vol_types::{Btree, Bytes, Key, Keys, Pos, Value};

/// A set of keys of a node, which its bucket holds.
#[derive(PartialEq, Eq, Drop)]
pub struct SetRecord {
    /// The birth of the node.
    pub birth: u64,
    pub btree: Btree,
    /// 0 for a leaf.
    pub level: u8,
    /// The least position that the node covers.
    pub least: Pos,
    /// The greatest position that the node covers.
    pub greatest: Pos,
    pub keys: Keys,
}

/// What a set says of its node, before its keys.
#[derive(Clone, Copy, PartialEq, Eq)]
pub struct SetHead {
    /// The birth of the node.
    pub birth: u64,
    pub btree: Btree,
    /// 0 for a leaf.
    pub level: u8,
    /// The least position that the node covers.
    pub least: Pos,
    /// The greatest position that the node covers.
    pub greatest: Pos,
}

/// A key that is lent, so that it can be written without a copy of its value.
#[derive(Clone, Copy)]
pub struct KeyRef<'a> {
    pub pos: &'a Pos,
    /// `None` in a key that is removed.
    pub value: Option<&'a Value>,
}

/// The one encoding of the set, in one pass over its keys.
pub fn put_set(alloc: Global, set: &SetRecord) -> Result<Bytes, AllocError>
    requires { IsSetInRange set.now }
    ensures ok { IfOk result (λ payload. payload ≡ set_format.encode set.now) }
    // What is written is read again, since it is a set.
    ensures set { OnOk result (IsSet set.now) }
{
    let mut into = Bytes::new(alloc);
    put_set_head(&mut into, &set.head())?;
    put_u32(&mut into, set.keys.len() as u32)?;
    put_members(alloc, &mut into, set.keys.as_slice())?;
    Ok(into)
}

/// The one encoding of the set of keys that are lent, as those of a node in memory, in one pass over them and without a
/// copy of a value.
pub fn put_lent_set(alloc: Global, head: &SetHead, keys: &[KeyRef<'_>]) -> Result<Bytes, AllocError>
    requires { IsSetInRange (lent_set head.now keys.now) }
    ensures ok { IfOk result (λ payload. payload ≡ set_format.encode (lent_set head.now keys.now)) }
    // What is written is read again, since it is a set.
    ensures set { OnOk result (IsSet (lent_set head.now keys.now)) }
{
    let mut into = Bytes::new(alloc);
    put_set_head(&mut into, head)?;
    put_u32(&mut into, keys.len() as u32)?;
    put_members(alloc, &mut into, keys)?;
    Ok(into)
}

impl SetRecord {
    /// What it says of its node.
    pub fn head(&self) -> SetHead
        ensures { result ≡ head_of self.now }
    {
        SetHead {
            birth: self.birth,
            btree: self.btree,
            level: self.level,
            least: self.least,
            greatest: self.greatest,
        }
    }
}

/// The set that the payload is, or the first fault from the left. It takes memory for the keys, and one pass over the
/// bytes.
pub fn get_set(alloc: Global, payload: &[u8]) -> Result<SetRecord, RecordFault>
    // What is read is a set, and the payload is its encoding.
    ensures found { IfOk result (λ set. IsSet set × (payload.now ≡ set_format.encode set)) }
    // What is encoded so is read, unless out of memory.
    ensures only { (set : ASet) → IsSet set → payload.now ≡ set_format.encode set
        → Gives (λ read. read) result (Ok set) }
    // Which fault it is, unless out of memory.
    ensures exact { Gives (λ read. read) result (set_in payload.now) }
{
    read_set(alloc, payload)
}

#[tactic(auto, unfolding(crate::specs::Sets::set_in))]
fn read_set(alloc: Global, payload: &[u8]) -> Result<SetRecord, RecordFault>
    ensures { Gives (λ read. read) result (set_in payload.now) }
{
    let (set, rest) = set_at(alloc, payload)?;
    match rest {
        [] => Ok(set),
        _ => Err(RecordFault::Long),
    }
}

// The set at the start, and the rest.
#[tactic(auto, unfolding(crate::specs::Sets::set_format))]
fn set_at(alloc: Global, bytes: &[u8]) -> Result<(SetRecord, &[u8]), RecordFault>
    ensures { Gives (λ x. (x.0, x.1.now)) result (set_format.read bytes.now) }
{
    let (head, rest) = set_head_at(bytes)?;
    let (keys, rest) = listing_at(alloc, &head, rest)?;
    Ok((
        SetRecord {
            birth: head.birth,
            btree: head.btree,
            level: head.level,
            least: head.least,
            greatest: head.greatest,
            keys,
        },
        rest,
    ))
}

// What stands before the number of keys, and the rest.
#[tactic(auto, unfolding(crate::specs::Sets::set_head))]
fn set_head_at(bytes: &[u8]) -> Result<(SetHead, &[u8]), RecordFault>
    ensures { Gives (λ x. (x.0, x.1.now)) result (set_head.read bytes.now) }
{
    let (birth, rest) = long_number_at(bytes)?;
    let (btree, rest) = btree_at(rest)?;
    let (level, rest) = byte_at(rest)?;
    let rest = zeros_at(rest)?;
    let (least, rest) = pos_at(rest)?;
    let (greatest, rest) = pos_at(rest)?;
    Ok((
        SetHead {
            birth,
            btree,
            level,
            least,
            greatest,
        },
        rest,
    ))
}

// Appends what stands before the number of keys.
#[tactic(auto, using(key_codec::specs::Appending::appending), unfolding(crate::specs::Sets::set_head, crate::specs::Fields::u64_field, crate::specs::Fields::btree, crate::specs::Fields::byte, crate::specs::Fields::zeros, crate::specs::Fields::position))]
fn put_set_head(into: &mut Bytes, head: &SetHead) -> Result<(), AllocError>
    ensures ok { OnOk result (into.new ≡ into.old ++ set_head.encode head.now) }
    ensures width { OnOk result (HeadFits head.now) }
{
    put_u64(into, head.birth)?;
    put_u8(into, head.btree.code())?;
    put_u8(into, head.level)?;
    put_u8(into, 0)?;
    put_u8(into, 0)?;
    put_position(into, &head.least)?;
    put_position(into, &head.greatest)
}

impl Written for Key {
    ghost encode = { λ key. encoding key.pos key.value };

    ghost Writable = { λ key. IsKeyValue key.value };

    ghost Fits = { KeyFits };

    fn put(&self, alloc: Global, into: &mut Bytes) -> Result<(), AllocError> {
        put_key(alloc, into, &self.pos, self.value.as_ref())
    }
}

impl Written for KeyRef<'_> {
    ghost encode = { λ key. encoding key.pos.now (option_copied key.value) };

    ghost Writable = { λ key. IsKeyValue (option_copied key.value) };

    ghost Fits = { λ key. KeyFits (lent_key key) };

    fn put(&self, alloc: Global, into: &mut Bytes) -> Result<(), AllocError> {
        put_key(alloc, into, self.pos, self.value)
    }
}

impl Member<SetHead> for Key {
    ghost format = { key_item };

    #[tactic(auto, unfolding(crate::specs::Sets::key_item))]
    fn read<'a>(
        alloc: Global,
        head: &SetHead,
        before: Option<&Self>,
        bytes: &'a [u8],
    ) -> Result<(Self, &'a [u8]), RecordFault> {
        let (pos, rest) = pos_at(bytes)?;
        if !is_next(head, before, &pos) {
            return Err(RecordFault::Order);
        }
        let (value, rest) = value_at(alloc, head.btree, head.level, rest)?;
        Ok((Key { pos, value }, rest))
    }
}

// Whether the position is above that of the key before it, and is covered by the node.
fn is_next(head: &SetHead, before: Option<&Key>, pos: &Pos) -> bool
    ensures { result ≡ is_next head.now (option_copied before.entry) pos.now }
{
    is_key_after(before, pos) && is_covered(head, pos)
}

// Whether the position is above that of the key before it.
fn is_key_after(before: Option<&Key>, pos: &Pos) -> bool
    ensures { result ≡ is_above pos_cmp (option_map (λ key. key.pos) (option_copied before.entry))
        pos.now }
{
    match before {
        None => true,
        Some(before) => before.pos.cmp(pos).is_lt(),
    }
}

// Whether the node covers the position.
fn is_covered(head: &SetHead, pos: &Pos) -> bool
    ensures { result ≡ (is_le (pos_cmp head.now.least pos.now) && is_le
        (pos_cmp pos.now head.now.greatest)) }
{
    head.least.cmp(pos).is_le() && pos.cmp(&head.greatest).is_le()
}
