ghost use Rattle.std.specs.Prelude.{◌≡◌, ◌<◌, ◌^◌, ◌++◌, ℕ, List, length, drop, All, Option, None, OnOk, option_copied};
ghost use Rattle.std.specs.List.{flat_map};
ghost use Rattle.key_codec.specs.Formats.{FormatOf, items};
ghost use Rattle.record_codec.specs.Reading.{Gives};
ghost use Rattle.record_codec.specs.Fields.{listing};
ghost use Rattle.record_codec.specs.declared.fault.RecordFault.{RecordFault as AFault};

use crate::RecordFault;
use crate::fields::number_at;
use key_codec::put_u32;
use std::alloc::{AllocError, Global};
use vol_types::{Bytes, Listing};

/// A member of a record's list, as it is written.
pub(crate) trait Written {
    ghost encode: { Self → List ℕ };

    /// What the member must be to be written.
    ghost Writable: { Self → Type 0 };

    /// That its parts have their widths, as those of each in the code have.
    ghost Fits: { Self → Type 0 };

    /// Appends the member.
    fn put(&self, alloc: Global, into: &mut Bytes) -> Result<(), AllocError>
        requires { Writable self.now }
        ensures ok { OnOk result (into.new ≡ into.old ++ encode self.now) }
        ensures width { OnOk result (Fits self.now) };
}

/// A member of a record's list, as it is read. How it is read depends on the record's head, of type `H`, and may depend
/// on the member before it.
pub(crate) trait Member<H>: Drop {
    ghost format: { H → Option Self → FormatOf AFault Self };

    /// The member at the start, and the rest.
    fn read<'a>(
        alloc: Global,
        head: &H,
        before: Option<&Self>,
        bytes: &'a [u8],
    ) -> Result<(Self, &'a [u8]), RecordFault>
        ensures { Gives (λ x. (x.0, x.1.now)) result
            ((format head.now (option_copied before.entry)).read bytes.now) };
}

/// So many members, and the rest. It takes memory as members come, whatever the count says.
pub(crate) fn members_at<'a, H, T: Member<H>>(
    alloc: Global,
    head: &H,
    count: u32,
    bytes: &'a [u8],
) -> Result<(Listing<T>, &'a [u8]), RecordFault>
    ensures { Gives (λ x. (x.0, x.1.now)) result ((items (T.format head.now) count).read bytes.now) }
{
    let mut members = Listing::new(alloc);
    let mut rest = bytes;
    for _ in 0..count {
        let (member, after) = T::read(alloc, head, members.as_slice().last(), rest)?;
        members.push(member)?;
        rest = after;
    }
    Ok((members, rest))
}

/// A count in four bytes, so many members, and the rest.
#[tactic(auto, unfolding(crate::specs::Fields::listing))]
pub(crate) fn listing_at<'a, H, T: Member<H>>(
    alloc: Global,
    head: &H,
    bytes: &'a [u8],
) -> Result<(Listing<T>, &'a [u8]), RecordFault>
    ensures { Gives (λ x. (x.0, x.1.now)) result ((listing (T.format head.now)).read bytes.now) }
{
    let (count, rest) = number_at(bytes)?;
    members_at(alloc, head, count, rest)
}

/// Appends the members.
pub(crate) fn put_members<T: Written>(
    alloc: Global,
    into: &mut Bytes,
    members: &[T],
) -> Result<(), AllocError>
    requires { All T.Writable members.now }
    ensures ok { OnOk result (into.new ≡ into.old ++ flat_map T.encode members.now) }
    ensures width { OnOk result (All T.Fits members.now) }
{
    for member in members {
        member.put(alloc, into)?;
    }
    Ok(())
}
