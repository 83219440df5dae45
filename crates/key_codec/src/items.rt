ghost use Rattle.std.specs.Prelude.{◌≡◌, ◌≤◌, ◌++◌, length, drop, All, Option, None, OnOk, option_copied};
ghost use Rattle.std.specs.List.{flat_map};
ghost use Rattle.key_codec.specs.Formats.{Format, u8_byte, items, counted};
ghost use Rattle.key_codec.specs.Reading.{Gives};

use crate::KeyFault;
use crate::fields::{put_u8, u8_within};
use std::alloc::{AllocError, Global};
use vol_types::{Bytes, Listing};

/// A member of a list in a key. How it is read may depend on the one before it.
pub(crate) trait Item: Drop {
    ghost format: { Option Self → Format Self };

    /// What the member must be to be written.
    ghost Writable: { Self → Type 0 };

    /// That its fields have their widths, as those of each in the code have.
    ghost Fits: { Self → Type 0 };

    /// The member at the start, and the rest.
    fn read<'a>(
        alloc: Global,
        before: Option<&Self>,
        bytes: &'a [u8],
    ) -> Result<(Self, &'a [u8]), KeyFault>
        ensures { Gives (λ x. (x.0, x.1.now)) result
            ((format (option_copied before.entry)).read bytes.now) };

    /// Appends the member.
    fn put(&self, into: &mut Bytes) -> Result<(), AllocError>
        requires { Writable self.now }
        ensures ok { OnOk result (into.new ≡ into.old ++ (format None).encode self.now) }
        ensures width { OnOk result (Fits self.now) }
        ensures kept { into.new ≡ into.old ++ drop (length into.old) into.new };
}

/// So many members, and the rest.
pub(crate) fn items_at<T: Item>(
    alloc: Global,
    count: u8,
    bytes: &[u8],
) -> Result<(Listing<T>, &[u8]), KeyFault>
    ensures { Gives (λ x. (x.0, x.1.now)) result ((items T.format count).read bytes.now) }
{
    let mut members = Listing::new(alloc);
    let mut rest = bytes;
    for _ in 0..count {
        let (member, after) = T::read(alloc, members.as_slice().last(), rest)?;
        members.push(member)?;
        rest = after;
    }
    Ok((members, rest))
}

/// A count from 1 to `most`, as field number `field`, so many members, and the rest.
#[tactic(auto, unfolding(crate::specs::Formats::counted))]
pub(crate) fn counted_at<T: Item>(
    alloc: Global,
    field: u8,
    most: u8,
    bytes: &[u8],
) -> Result<(Listing<T>, &[u8]), KeyFault>
    ensures { Gives (λ x. (x.0, x.1.now)) result ((counted field most T.format).read bytes.now) }
{
    let (count, rest) = u8_within(field, 1, most, bytes)?;
    items_at(alloc, count, rest)
}

/// Appends the members.
#[tactic(auto, using(crate::specs::Appending::appending), unfolding(crate::specs::Formats::items))]
pub(crate) fn put_items<T: Item>(into: &mut Bytes, members: &[T]) -> Result<(), AllocError>
    requires { All T.Writable members.now }
    ensures ok { OnOk result (into.new ≡ into.old ++ (items T.format (length members.now)).encode
        members.now) }
    ensures width { OnOk result (All T.Fits members.now) }
    ensures kept { into.new ≡ into.old ++ drop (length into.old) into.new }
{
    for member in members {
        member.put(into)?;
    }
    Ok(())
}

/// Appends the count of the members, and the members. It is encoded alike under each field number and greatest count.
#[tactic(auto, using(crate::specs::Appending::appending), unfolding(crate::specs::Formats::counted, crate::specs::Formats::ranged))]
pub(crate) fn put_counted<T: Item>(into: &mut Bytes, members: &[T]) -> Result<(), AllocError>
    requires few { length members.now ≤ 255 }
    requires each { All T.Writable members.now }
    ensures ok { OnOk result (into.new ≡ into.old ++ (counted 1 8 T.format).encode members.now) }
    ensures width { OnOk result (All T.Fits members.now) }
    ensures kept { into.new ≡ into.old ++ drop (length into.old) into.new }
{
    put_u8(into, members.len() as u8)?;
    put_items(into, members)
}
