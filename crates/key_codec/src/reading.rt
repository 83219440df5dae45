ghost use Rattle.std.specs.Prelude.{◌≡◌, ◌≤◌, ◌++◌, ℕ, List, Option, Ok, length, take, IfOk};
ghost use Rattle.vol_types.specs.Lengths.{key_length_of};
ghost use Rattle.vol_types.specs.declared.positions.Pos.{Pos as APos};
ghost use Rattle.vol_types.specs.declared.values.Value.{Value as AValue};
ghost use Rattle.key_codec.specs.Keys.{IsKey, encoding, read_fields, key_format, key_in};
ghost use Rattle.key_codec.specs.Reading.{Gives};

use crate::KeyFault;
use crate::fields::{u8_at, u32_within, u64_at};
use crate::items::counted_at;
use crate::kinds::{extent_at, inode_at, live_at, node_at, position_at, snap_at};
use std::alloc::Global;
use vol_types::{Key, Pos, Value};

/// A key that was read off the start of bytes.
#[derive(PartialEq, Eq, Drop)]
pub struct KeyRead {
    pub pos: Pos,
    /// `None` in a key that is removed.
    pub value: Option<Value>,
    /// How many bytes the key takes.
    pub used: usize,
}

/// The key at the start of the bytes, whatever follows it, or the first fault from the left. It takes memory for the
/// lists and names of the value, and one pass over the bytes that it uses.
pub fn get_key(alloc: Global, from: &[u8]) -> Result<KeyRead, KeyFault>
    // What is read is a key, and the bytes that it takes are its encoding.
    ensures found { IfOk result (λ read. IsKey read.pos read.value × (read.used ≤ length from.now)
        × (take read.used from.now ≡ encoding read.pos read.value)) }
    // What is encoded so is read, whatever follows it, unless out of memory.
    ensures only { (pos : APos) (value : Option AValue) (rest : List ℕ) → IsKey pos value
        → from.now ≡ encoding pos value ++ rest
        → Gives (λ read. read) result
        (Ok (record { pos = pos; value = value; used = key_length_of value })) }
    // Which fault it is, unless out of memory.
    ensures exact { Gives (λ read. read) result (key_in from.now) }
{
    read_key(alloc, from)
}

#[tactic(auto, unfolding(crate::specs::Keys::key_in))]
fn read_key(alloc: Global, from: &[u8]) -> Result<KeyRead, KeyFault>
    ensures { Gives (λ read. read) result (key_in from.now) }
{
    let (key, rest) = key_at(alloc, from)?;
    Ok(KeyRead {
        pos: key.pos,
        value: key.value,
        used: from.len() - rest.len(),
    })
}

// The key at the start, and the rest.
#[tactic(auto, unfolding(crate::specs::Keys::key_format))]
fn key_at(alloc: Global, bytes: &[u8]) -> Result<(Key, &[u8]), KeyFault>
    ensures { Gives (λ x. (x.0, x.1.now)) result (key_format.read bytes.now) }
{
    let (pos, rest) = position_at(bytes)?;
    let (kind, rest) = u8_at(rest)?;
    let (value, rest) = fields_at(alloc, kind, rest)?;
    Ok((Key { pos, value }, rest))
}

/// The value of this kind whose fields are at the start, and the rest. Kind 0 has none.
#[tactic(auto, unfolding(crate::specs::Keys::read_fields, crate::specs::Kinds::names_fields, crate::specs::Kinds::subs_fields, crate::specs::Kinds::hole_fields))]
pub fn fields_at(alloc: Global, kind: u8, bytes: &[u8]) -> Result<(Option<Value>, &[u8]), KeyFault>
    ensures { Gives (λ x. (x.0, x.1.now)) result (read_fields kind bytes.now) }
{
    match kind {
        0 => Ok((None, bytes)),
        1 => {
            let (inode, rest) = inode_at(bytes)?;
            Ok((Some(Value::Inode(inode)), rest))
        }
        2 => {
            let (links, rest) = counted_at(alloc, 1, 8, bytes)?;
            Ok((Some(Value::Names(links)), rest))
        }
        3 => {
            let (extent, rest) = extent_at(alloc, bytes)?;
            Ok((Some(Value::Extent(extent)), rest))
        }
        4 => {
            let (blocks, rest) = u32_within(1, 1, 4096, bytes)?;
            Ok((Some(Value::Hole { blocks }), rest))
        }
        5 => Ok((Some(Value::White), bytes)),
        6 => {
            let (subs, rest) = counted_at(alloc, 1, 8, bytes)?;
            Ok((Some(Value::Subs(subs)), rest))
        }
        7 => {
            let (snap, rest) = snap_at(bytes)?;
            Ok((Some(Value::Snap(snap)), rest))
        }
        8 => {
            let (live, rest) = live_at(bytes)?;
            Ok((Some(Value::Live(live)), rest))
        }
        9 => {
            let (extent, rest) = position_at(bytes)?;
            Ok((Some(Value::Back { extent }), rest))
        }
        10 => Ok((Some(Value::Gone), bytes)),
        11 => {
            let (next, rest) = u64_at(bytes)?;
            Ok((Some(Value::Counter { next }), rest))
        }
        12 => {
            let (node, rest) = node_at(alloc, bytes)?;
            Ok((Some(Value::Node(node)), rest))
        }
        _ => Err(KeyFault::Kind(kind)),
    }
}
