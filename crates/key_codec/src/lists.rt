ghost use Rattle.std.specs.Prelude.{◌≡◌, ◌<◌, ◌^◌, ◌++◌, length, drop, ⊤, Option, None, OnOk, option_copied, option_map};
ghost use Rattle.std.specs.Ordering.{nat_cmp, is_lt};
ghost use Rattle.vol_types.specs.Ranges.{name_cmp, IsName};
ghost use Rattle.vol_types.specs.Widths.{LinkFits, SubFits, PointerFits};
ghost use Rattle.key_codec.specs.Formats.{is_above};
ghost use Rattle.key_codec.specs.Kinds.{link_item, sub_item, pointer_item, place_item, digest_item};

use crate::KeyFault;
use crate::fields::{
    file_kind_at, flag_at, name_at, put_bytes, put_u8, put_u32, put_u64, u8_within, u32_at, u64_at,
};
use crate::items::Item;
use std::alloc::{AllocError, Global};
use vol_types::{Bytes, Link, Place, Pointer, Sub};

impl Item for Link {
    ghost format = { link_item };

    ghost Writable = { λ link. IsName link.name };

    ghost Fits = { LinkFits };

    #[tactic(auto, unfolding(crate::specs::Kinds::link_item))]
    fn read<'a>(
        alloc: Global,
        before: Option<&Self>,
        bytes: &'a [u8],
    ) -> Result<(Self, &'a [u8]), KeyFault> {
        let (number, rest) = u64_at(bytes)?;
        let (kind, rest) = file_kind_at(3, rest)?;
        let (name, rest) = name_at(4, rest)?;
        if !is_link_after(before, name) {
            return Err(KeyFault::Order);
        }
        let name = Bytes::from_slice(alloc, name)?;
        Ok((Link { number, kind, name }, rest))
    }

    #[tactic(auto, using(crate::specs::Appending::appending), unfolding(crate::specs::Kinds::link_item, crate::specs::Kinds::name, crate::specs::Kinds::file_kind, crate::specs::Formats::ranged, crate::specs::Formats::raw))]
    fn put(&self, into: &mut Bytes) -> Result<(), AllocError> {
        put_u64(into, self.number)?;
        put_u8(into, self.kind.code())?;
        put_u8(into, self.name.len() as u8)?;
        put_bytes(into, self.name.as_slice())
    }
}

// Whether the name is above that of the link before it.
fn is_link_after(before: Option<&Link>, name: &[u8]) -> bool
    ensures { result ≡ is_above name_cmp (option_map (λ l. l.name) (option_copied before.entry))
        name.now }
{
    match before {
        None => true,
        Some(before) => is_before(before.name.as_slice(), name),
    }
}

impl Item for Sub {
    ghost format = { sub_item };

    ghost Writable = { λ sub. IsName sub.name };

    ghost Fits = { SubFits };

    #[tactic(auto, unfolding(crate::specs::Kinds::sub_item))]
    fn read<'a>(
        alloc: Global,
        before: Option<&Self>,
        bytes: &'a [u8],
    ) -> Result<(Self, &'a [u8]), KeyFault> {
        let (id, rest) = u32_at(bytes)?;
        let (root, rest) = u64_at(rest)?;
        let (read_only, rest) = flag_at(4, rest)?;
        let (name, rest) = name_at(5, rest)?;
        if !is_sub_after(before, name) {
            return Err(KeyFault::Order);
        }
        let name = Bytes::from_slice(alloc, name)?;
        Ok((
            Sub {
                id,
                root,
                read_only,
                name,
            },
            rest,
        ))
    }

    #[tactic(auto, using(crate::specs::Appending::appending), unfolding(crate::specs::Kinds::sub_item, crate::specs::Kinds::name, crate::specs::Kinds::flag, crate::specs::Formats::ranged, crate::specs::Formats::raw))]
    fn put(&self, into: &mut Bytes) -> Result<(), AllocError> {
        put_u32(into, self.id)?;
        put_u64(into, self.root)?;
        put_u8(into, self.read_only as u8)?;
        put_u8(into, self.name.len() as u8)?;
        put_bytes(into, self.name.as_slice())
    }
}

// Whether the name is above that of the subvolume before it.
fn is_sub_after(before: Option<&Sub>, name: &[u8]) -> bool
    ensures { result ≡ is_above name_cmp (option_map (λ s. s.name) (option_copied before.entry))
        name.now }
{
    match before {
        None => true,
        Some(before) => is_before(before.name.as_slice(), name),
    }
}

impl Item for Pointer {
    ghost format = { pointer_item };

    ghost Writable = { λ _. ⊤ };

    ghost Fits = { PointerFits };

    #[tactic(auto, unfolding(crate::specs::Kinds::pointer_item))]
    fn read<'a>(
        _alloc: Global,
        before: Option<&Self>,
        bytes: &'a [u8],
    ) -> Result<(Self, &'a [u8]), KeyFault> {
        let (dev, rest) = u8_within(3, 0, 7, bytes)?;
        if !is_pointer_after(before, dev) {
            return Err(KeyFault::Order);
        }
        let (block, rest) = u32_at(rest)?;
        let (generation, rest) = u32_at(rest)?;
        let place = Place { dev, block };
        Ok((Pointer { place, generation }, rest))
    }

    #[tactic(auto, using(crate::specs::Appending::appending), unfolding(crate::specs::Kinds::pointer_item, crate::specs::Formats::ranged))]
    fn put(&self, into: &mut Bytes) -> Result<(), AllocError> {
        put_u8(into, self.place.dev)?;
        put_u32(into, self.place.block)?;
        put_u32(into, self.generation)
    }
}

// Whether the device is above that of the pointer before it.
fn is_pointer_after(before: Option<&Pointer>, dev: u8) -> bool
    ensures { result ≡ is_above nat_cmp (option_map (λ p. p.place.dev) (option_copied before.entry))
        dev }
{
    match before {
        None => true,
        Some(before) => before.place.dev < dev,
    }
}

impl Item for Place {
    ghost format = { place_item };

    ghost Writable = { λ _. ⊤ };

    ghost Fits = { λ place. place.block < 2 ^ 32 };

    #[tactic(auto, unfolding(crate::specs::Kinds::place_item))]
    fn read<'a>(
        _alloc: Global,
        _before: Option<&Self>,
        bytes: &'a [u8],
    ) -> Result<(Self, &'a [u8]), KeyFault> {
        let (dev, rest) = u8_within(4, 0, 7, bytes)?;
        let (block, rest) = u32_at(rest)?;
        if block % 16 != 0 {
            return Err(KeyFault::Range(5));
        }
        Ok((Place { dev, block }, rest))
    }

    #[tactic(auto, using(crate::specs::Appending::appending), unfolding(crate::specs::Kinds::place_item, crate::specs::Formats::ranged))]
    fn put(&self, into: &mut Bytes) -> Result<(), AllocError> {
        put_u8(into, self.dev)?;
        put_u32(into, self.block)
    }
}

impl Item for u64 {
    ghost format = { digest_item };

    ghost Writable = { λ _. ⊤ };

    ghost Fits = { λ digest. digest < 2 ^ 64 };

    fn read<'a>(
        _alloc: Global,
        _before: Option<&Self>,
        bytes: &'a [u8],
    ) -> Result<(Self, &'a [u8]), KeyFault> {
        u64_at(bytes)
    }

    fn put(&self, into: &mut Bytes) -> Result<(), AllocError> {
        put_u64(into, *self)
    }
}

// Whether the first name is before the second.
fn is_before(first: &[u8], second: &[u8]) -> bool
    ensures { result ≡ is_lt (name_cmp first.now second.now) }
{
    first.cmp(second).is_lt()
}
