ghost use Rattle.std.specs.Prelude.{◌≡◌, ◌++◌, length, drop, OnOk, OnErr, Some, option_copied};
ghost use Rattle.vol_types.specs.Ranges.{IsKeyValue, IsValue};
ghost use Rattle.vol_types.specs.Widths.{ValueFits};
ghost use Rattle.key_codec.specs.Keys.{IsKey, encoding, HasList, IsRecord, fields_of, kind_number};
ghost use Rattle.key_codec.specs.Kinds.{names_fields, subs_fields, hole_fields};

use crate::fields::{put_u8, put_u32, put_u64};
use crate::items::put_counted;
use crate::kinds::{put_extent, put_inode, put_live, put_node, put_position, put_snap};
use std::alloc::{AllocError, Global};
use vol_types::{Bytes, Pos, Value};

/// Appends the one encoding of the key, in one pass over its value. The bytes grow in their own memory. An `Err` changes
/// nothing.
pub fn put_key(
    _alloc: Global,
    into: &mut Bytes,
    pos: &Pos,
    value: Option<&Value>,
) -> Result<(), AllocError>
    requires { IsKeyValue (option_copied value) }
    ensures ok { OnOk result (into.new ≡ into.old ++ encoding pos.now (option_copied value.entry)) }
    ensures err { OnErr result (into.new ≡ into.old) }
    // What is written is read again, since it is a key.
    ensures key { OnOk result (IsKey pos.now (option_copied value.entry)) }
{
    let before = into.len();
    let put = put_parts(into, pos, value);
    if put.is_err() {
        into.truncate(before);
    }
    put
}

#[tactic(auto, using(crate::specs::Appending::appending), unfolding(crate::specs::Keys::key_format, crate::specs::Keys::fields_of))]
fn put_parts(into: &mut Bytes, pos: &Pos, value: Option<&Value>) -> Result<(), AllocError>
    requires { IsKeyValue (option_copied value) }
    ensures ok { OnOk result (into.new ≡ into.old ++ encoding pos.now (option_copied value.entry)) }
    ensures key { OnOk result (IsKey pos.now (option_copied value.entry)) }
    ensures kept { into.new ≡ into.old ++ drop (length into.old) into.new }
{
    put_position(into, pos)?;
    match value {
        None => put_u8(into, 0),
        Some(value) => {
            put_u8(into, value.kind())?;
            put_fields(into, value)
        }
    }
}

// Appends the fields of the value.
#[tactic(auto, using(crate::specs::Appending::appending), unfolding(crate::specs::Keys::fields_of))]
fn put_fields(into: &mut Bytes, value: &Value) -> Result<(), AllocError>
    requires { IsValue value.now }
    ensures ok { OnOk result (into.new ≡ into.old ++ fields_of (Some value.now)) }
    ensures width { OnOk result (ValueFits value.now) }
    ensures kept { into.new ≡ into.old ++ drop (length into.old) into.new }
{
    match value {
        Value::Names(_) | Value::Extent(_) | Value::Subs(_) | Value::Node(_) => {
            put_lists(into, value)
        }
        Value::Inode(_) | Value::Hole { .. } | Value::Snap(_) => put_records(into, value),
        Value::White | Value::Gone => Ok(()),
        Value::Live(live) => put_live(into, live),
        Value::Back { extent } => put_position(into, extent),
        Value::Counter { next } => put_u64(into, *next),
    }
}

// Appends the fields of a value that has a list.
#[tactic(auto, using(crate::specs::Appending::appending), unfolding(crate::specs::Keys::fields_of, crate::specs::Kinds::names_fields, crate::specs::Kinds::subs_fields))]
fn put_lists(into: &mut Bytes, value: &Value) -> Result<(), AllocError>
    requires value { IsValue value.now }
    requires list { HasList value.now }
    ensures ok { OnOk result (into.new ≡ into.old ++ fields_of (Some value.now)) }
    ensures width { OnOk result (ValueFits value.now) }
    ensures kept { into.new ≡ into.old ++ drop (length into.old) into.new }
{
    match value {
        Value::Names(links) => put_counted(into, links.as_slice()),
        Value::Extent(extent) => put_extent(into, extent),
        Value::Subs(subs) => put_counted(into, subs.as_slice()),
        Value::Node(node) => put_node(into, node),
        Value::Inode(_)
        | Value::Hole { .. }
        | Value::White
        | Value::Snap(_)
        | Value::Live(_)
        | Value::Back { .. }
        | Value::Gone
        | Value::Counter { .. } => unreachable!(),
    }
}

// Appends the fields of an inode, a hole or a snapshot id.
#[tactic(auto, using(crate::specs::Appending::appending), unfolding(crate::specs::Keys::fields_of, crate::specs::Kinds::hole_fields, crate::specs::Formats::ranged))]
fn put_records(into: &mut Bytes, value: &Value) -> Result<(), AllocError>
    requires value { IsValue value.now }
    requires record { IsRecord value.now }
    ensures ok { OnOk result (into.new ≡ into.old ++ fields_of (Some value.now)) }
    ensures width { OnOk result (ValueFits value.now) }
    ensures kept { into.new ≡ into.old ++ drop (length into.old) into.new }
{
    match value {
        Value::Inode(inode) => put_inode(into, inode),
        Value::Hole { blocks } => put_u32(into, *blocks),
        Value::Snap(snap) => put_snap(into, snap),
        Value::Names(_)
        | Value::Extent(_)
        | Value::White
        | Value::Subs(_)
        | Value::Live(_)
        | Value::Back { .. }
        | Value::Gone
        | Value::Counter { .. }
        | Value::Node(_) => unreachable!(),
    }
}
