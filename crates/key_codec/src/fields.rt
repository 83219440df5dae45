ghost use Rattle.std.specs.Prelude.{◌≡◌, ◌<◌, ◌^◌, ◌++◌, length, drop, OnOk};
ghost use Rattle.vol_types.specs.Widths.{AreBytes};
ghost use Rattle.key_codec.specs.Formats.{u8_byte, u32_le, u64_le, raw, ranged};
ghost use Rattle.key_codec.specs.Kinds.{file_kind, snap_state, flag, name};
ghost use Rattle.key_codec.specs.Reading.{Gives};

use crate::KeyFault;
use std::alloc::AllocError;
use vol_types::{Bytes, FileKind, SnapState};

/// The byte at the start, and the rest.
#[tactic(auto, unfolding(crate::specs::Formats::u8_byte))]
pub fn u8_at(bytes: &[u8]) -> Result<(u8, &[u8]), KeyFault>
    ensures { Gives (λ x. (x.0, x.1.now)) result (u8_byte.read bytes.now) }
{
    match bytes {
        [] => Err(KeyFault::Short),
        [first, rest @ ..] => Ok((*first, rest)),
    }
}

/// The number in the first four bytes, and the rest.
#[tactic(auto, unfolding(crate::specs::Formats::u32_le))]
pub fn u32_at(bytes: &[u8]) -> Result<(u32, &[u8]), KeyFault>
    ensures { Gives (λ x. (x.0, x.1.now)) result (u32_le.read bytes.now) }
{
    if bytes.len() < 4 {
        return Err(KeyFault::Short);
    }
    let (prefix, rest) = bytes.split_at(4);
    let number = u32::from_le_bytes([prefix[0], prefix[1], prefix[2], prefix[3]]);
    Ok((number, rest))
}

/// The number in the first eight bytes, and the rest.
#[tactic(auto, unfolding(crate::specs::Formats::u64_le))]
pub fn u64_at(bytes: &[u8]) -> Result<(u64, &[u8]), KeyFault>
    ensures { Gives (λ x. (x.0, x.1.now)) result (u64_le.read bytes.now) }
{
    if bytes.len() < 8 {
        return Err(KeyFault::Short);
    }
    let (prefix, rest) = bytes.split_at(8);
    let number = u64::from_le_bytes([
        prefix[0], prefix[1], prefix[2], prefix[3], prefix[4], prefix[5], prefix[6], prefix[7],
    ]);
    Ok((number, rest))
}

/// So many bytes, and the rest.
#[tactic(auto, unfolding(crate::specs::Formats::raw))]
fn raw_at(count: u8, bytes: &[u8]) -> Result<(&[u8], &[u8]), KeyFault>
    ensures { Gives (λ x. (x.0.now, x.1.now)) result ((raw count).read bytes.now) }
{
    let count = count as usize;
    if bytes.len() < count {
        return Err(KeyFault::Short);
    }
    Ok(bytes.split_at(count))
}

/// A byte from `least` to `most`, as field number `field`, and the rest.
#[tactic(auto, unfolding(crate::specs::Formats::ranged))]
pub(crate) fn u8_within(
    field: u8,
    least: u8,
    most: u8,
    bytes: &[u8],
) -> Result<(u8, &[u8]), KeyFault>
    ensures { Gives (λ x. (x.0, x.1.now)) result ((ranged field u8_byte least most).read bytes.now) }
{
    let (number, rest) = u8_at(bytes)?;
    if number < least || most < number {
        return Err(KeyFault::Range(field));
    }
    Ok((number, rest))
}

/// A number of four bytes from `least` to `most`, as field number `field`, and the rest.
#[tactic(auto, unfolding(crate::specs::Formats::ranged))]
pub(crate) fn u32_within(
    field: u8,
    least: u32,
    most: u32,
    bytes: &[u8],
) -> Result<(u32, &[u8]), KeyFault>
    ensures { Gives (λ x. (x.0, x.1.now)) result ((ranged field u32_le least most).read bytes.now) }
{
    let (number, rest) = u32_at(bytes)?;
    if number < least || most < number {
        return Err(KeyFault::Range(field));
    }
    Ok((number, rest))
}

/// A number of eight bytes up to `most`, as field number `field`, and the rest.
#[tactic(auto, unfolding(crate::specs::Formats::ranged))]
pub(crate) fn u64_up_to(field: u8, most: u64, bytes: &[u8]) -> Result<(u64, &[u8]), KeyFault>
    ensures { Gives (λ x. (x.0, x.1.now)) result ((ranged field u64_le 0 most).read bytes.now) }
{
    let (number, rest) = u64_at(bytes)?;
    if most < number {
        return Err(KeyFault::Range(field));
    }
    Ok((number, rest))
}

/// The kind of an inode, as field number `field`, and the rest.
#[tactic(auto, unfolding(crate::specs::Kinds::file_kind))]
pub(crate) fn file_kind_at(field: u8, bytes: &[u8]) -> Result<(FileKind, &[u8]), KeyFault>
    ensures { Gives (λ x. (x.0, x.1.now)) result ((file_kind field).read bytes.now) }
{
    let (code, rest) = u8_within(field, 1, 2, bytes)?;
    if code == 1 {
        return Ok((FileKind::File, rest));
    }
    Ok((FileKind::Directory, rest))
}

/// The state of a snapshot id, as field number `field`, and the rest.
#[tactic(auto, unfolding(crate::specs::Kinds::snap_state))]
pub(crate) fn snap_state_at(field: u8, bytes: &[u8]) -> Result<(SnapState, &[u8]), KeyFault>
    ensures { Gives (λ x. (x.0, x.1.now)) result ((snap_state field).read bytes.now) }
{
    let (code, rest) = u8_within(field, 1, 3, bytes)?;
    if code == 1 {
        return Ok((SnapState::LiveLeaf, rest));
    }
    if code == 2 {
        return Ok((SnapState::Interior, rest));
    }
    Ok((SnapState::DeadLeaf, rest))
}

/// A flag, as field number `field`, and the rest.
#[tactic(auto, unfolding(crate::specs::Kinds::flag))]
pub(crate) fn flag_at(field: u8, bytes: &[u8]) -> Result<(bool, &[u8]), KeyFault>
    ensures { Gives (λ x. (x.0, x.1.now)) result ((flag field).read bytes.now) }
{
    let (code, rest) = u8_within(field, 0, 1, bytes)?;
    Ok((code == 1, rest))
}

/// The bytes of a name after their length, which is field number `field`, and the rest.
#[tactic(auto, unfolding(crate::specs::Kinds::name))]
pub(crate) fn name_at(field: u8, bytes: &[u8]) -> Result<(&[u8], &[u8]), KeyFault>
    ensures { Gives (λ x. (x.0.now, x.1.now)) result ((name field).read bytes.now) }
{
    let (length, rest) = u8_within(field, 1, 255, bytes)?;
    raw_at(length, rest)
}

/// Appends a byte. What stood in `into` before stands there still, whatever comes; so with all calls that append.
#[tactic(auto, using(crate::specs::Appending::appending), unfolding(crate::specs::Formats::u8_byte))]
pub fn put_u8(into: &mut Bytes, number: u8) -> Result<(), AllocError>
    ensures ok { OnOk result (into.new ≡ into.old ++ u8_byte.encode number) }
    ensures kept { into.new ≡ into.old ++ drop (length into.old) into.new }
{
    into.push(number)?;
    Ok(())
}

/// Appends a number in four bytes.
#[tactic(auto, using(crate::specs::Appending::appending), unfolding(crate::specs::Formats::u32_le))]
pub fn put_u32(into: &mut Bytes, number: u32) -> Result<(), AllocError>
    ensures ok { OnOk result (into.new ≡ into.old ++ u32_le.encode number) }
    ensures width { number < 2 ^ 32 }
    ensures kept { into.new ≡ into.old ++ drop (length into.old) into.new }
{
    into.extend_from_slice(&number.to_le_bytes())
}

/// Appends a number in eight bytes.
#[tactic(auto, using(crate::specs::Appending::appending), unfolding(crate::specs::Formats::u64_le))]
pub fn put_u64(into: &mut Bytes, number: u64) -> Result<(), AllocError>
    ensures ok { OnOk result (into.new ≡ into.old ++ u64_le.encode number) }
    ensures width { number < 2 ^ 64 }
    ensures kept { into.new ≡ into.old ++ drop (length into.old) into.new }
{
    into.extend_from_slice(&number.to_le_bytes())
}

/// Appends the bytes.
#[tactic(auto, using(crate::specs::Appending::appending))]
pub(crate) fn put_bytes(into: &mut Bytes, bytes: &[u8]) -> Result<(), AllocError>
    ensures ok { OnOk result (into.new ≡ into.old ++ bytes.now) }
    ensures width { AreBytes bytes.now }
    ensures kept { into.new ≡ into.old ++ drop (length into.old) into.new }
{
    into.extend_from_slice(bytes)
}
