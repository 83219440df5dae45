ghost use Rattle.std.specs.Prelude.{◌≡◌, ◌++◌, nat_eq, OnOk};
ghost use Rattle.std.specs.List.{list_any};
ghost use Rattle.vol_types.specs.Values.{kinds_in};
ghost use Rattle.key_codec.specs.Formats.{carried};
ghost use Rattle.key_codec.specs.Keys.{read_fields};
ghost use Rattle.record_codec.specs.Fields.{byte, u32_field, u64_field, position, root, zeros, btree, value_in};
ghost use Rattle.record_codec.specs.Reading.{Gives, key_fault, root_fault};
ghost use Rattle.vol_types.specs.Standing.{stands};

use crate::RecordFault;
use crate::fault::{key_fault, root_fault};
use key_codec::{KeyFault, fields_at, node_at, position_at, u8_at, u32_at, u64_at};
use std::alloc::Global;
use vol_types::{Btree, NodePtr, Pos, Value};

// A part of a key, with its fault as a record names it.
fn key_part<T>(read: Result<T, KeyFault>) -> Result<T, RecordFault>
    ensures { result ≡ carried key_fault read }
{
    match read {
        Ok(part) => Ok(part),
        Err(fault) => Err(key_fault(fault)),
    }
}

/// The byte at the start, and the rest.
#[tactic(auto, using(crate::proofs::Carried::carried_by), unfolding(crate::specs::Fields::byte))]
pub(crate) fn byte_at(bytes: &[u8]) -> Result<(u8, &[u8]), RecordFault>
    ensures { Gives (λ x. (x.0, x.1.now)) result (byte.read bytes.now) }
{
    key_part(u8_at(bytes))
}

/// The number in the first four bytes, and the rest.
#[tactic(auto, using(crate::proofs::Carried::carried_by), unfolding(crate::specs::Fields::u32_field))]
pub(crate) fn number_at(bytes: &[u8]) -> Result<(u32, &[u8]), RecordFault>
    ensures { Gives (λ x. (x.0, x.1.now)) result (u32_field.read bytes.now) }
{
    key_part(u32_at(bytes))
}

/// The number in the first eight bytes, and the rest.
#[tactic(auto, using(crate::proofs::Carried::carried_by), unfolding(crate::specs::Fields::u64_field))]
pub(crate) fn long_number_at(bytes: &[u8]) -> Result<(u64, &[u8]), RecordFault>
    ensures { Gives (λ x. (x.0, x.1.now)) result (u64_field.read bytes.now) }
{
    key_part(u64_at(bytes))
}

/// The position at the start, and the rest.
#[tactic(auto, using(crate::proofs::Carried::carried_by), unfolding(crate::specs::Fields::position))]
pub(crate) fn pos_at(bytes: &[u8]) -> Result<(Pos, &[u8]), RecordFault>
    ensures { Gives (λ x. (x.0, x.1.now)) result (position.read bytes.now) }
{
    key_part(position_at(bytes))
}

/// The pointer to a root at the start, and the rest.
#[tactic(auto, using(crate::proofs::Carried::carried_by), unfolding(crate::specs::Fields::root))]
pub(crate) fn root_at(alloc: Global, bytes: &[u8]) -> Result<(NodePtr, &[u8]), RecordFault>
    ensures { Gives (λ x. (x.0, x.1.now)) result (root.read bytes.now) }
{
    match node_at(alloc, bytes) {
        Ok(root) => Ok(root),
        Err(fault) => Err(root_fault(fault)),
    }
}

/// What stands after two bytes that are zero.
#[tactic(auto, unfolding(crate::specs::Fields::zeros))]
pub(crate) fn zeros_at(bytes: &[u8]) -> Result<&[u8], RecordFault>
    ensures { Gives (λ rest. (tt, rest.now)) result (zeros.read bytes.now) }
{
    let (first, rest) = byte_at(bytes)?;
    let (second, rest) = byte_at(rest)?;
    if first != 0 || second != 0 {
        return Err(RecordFault::Field);
    }
    Ok(rest)
}

/// The btree at the start, and the rest.
#[tactic(auto, using(crate::proofs::Carried::btrees_by), unfolding(crate::specs::Fields::btree))]
pub(crate) fn btree_at(bytes: &[u8]) -> Result<(Btree, &[u8]), RecordFault>
    ensures { Gives (λ x. (x.0, x.1.now)) result (btree.read bytes.now) }
{
    let (code, rest) = byte_at(bytes)?;
    match Btree::from_code(code) {
        None => Err(RecordFault::Field),
        Some(btree) => Ok((btree, rest)),
    }
}

/// The value at the start, of a key at this level of the btree, and the rest.
#[tactic(auto, unfolding(crate::specs::Fields::value_in))]
pub(crate) fn value_at(
    alloc: Global,
    btree: Btree,
    level: u8,
    bytes: &[u8],
) -> Result<(Option<Value>, &[u8]), RecordFault>
    ensures { Gives (λ x. (x.0, x.1.now)) result ((value_in btree level).read bytes.now) }
{
    let (kind, rest) = byte_at(bytes)?;
    if !stands(btree, level, kind) {
        return Err(RecordFault::Key(KeyFault::Kind(kind)));
    }
    fields_of_kind_at(alloc, kind, rest)
}

// The value of this kind whose fields are at the start, and the rest.
#[tactic(auto, using(crate::proofs::Carried::carried_by))]
fn fields_of_kind_at(
    alloc: Global,
    kind: u8,
    bytes: &[u8],
) -> Result<(Option<Value>, &[u8]), RecordFault>
    ensures { Gives (λ x. (x.0, x.1.now)) result (carried key_fault (read_fields kind bytes.now)) }
{
    key_part(fields_at(alloc, kind, bytes))
}

// Whether a key of this kind may stand at this level of the btree.
#[tactic(auto, unfolding(vol_types::specs::Standing::stands))]
fn stands(btree: Btree, level: u8, kind: u8) -> bool
    ensures { result ≡ stands btree level kind }
{
    if kind == 0 {
        return true;
    }
    if level > 0 {
        return kind == 12;
    }
    stands_in_leaf(btree, kind)
}

// Whether values of this kind stand in the leaves of the btree.
fn stands_in_leaf(btree: Btree, kind: u8) -> bool
    ensures { result ≡ list_any (nat_eq kind) (kinds_in btree) }
{
    match btree {
        Btree::Extents => kind == 3 || kind == 4,
        Btree::Inodes => kind == 1 || kind == 5,
        Btree::Dirents => kind == 2 || kind == 5,
        Btree::Subvols => kind == 6,
        Btree::Snapshots => kind == 7,
        Btree::Alloc => kind == 8,
        Btree::Backptrs => kind == 9,
        Btree::Deleted => kind == 10,
        Btree::Counters => kind == 11,
    }
}
