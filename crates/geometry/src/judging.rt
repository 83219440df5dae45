ghost use Rattle.std.specs.Prelude.{◌≡◌, ◌≤◌, ◌==◌, ◌&&◌, true, length, slice_index, find, IfOk, ℕ, Err};
ghost use Rattle.std.specs.List.{list_all};
ghost use Rattle.std.specs.Option.{unwrap_or};
ghost use Rattle.geometry.specs.Layouts.{is_layout_of};
ghost use Rattle.geometry.specs.Superblocks.{IsSuperAnswer};
ghost use Rattle.geometry.specs.Superblocks.{belong_from, belongs, has_form, is_same_layout, judged, named_layout};

use crate::copies::SuperCopy;
use crate::fault::SuperFault;
use crate::layouts::is_layout_of;
use crate::naming::{byte_at, has_form, is_same_layout, named_layout};
use std::alloc::{AllocError, Global};
use vol_types::Layout;

// Whether the payload of a copy is that of this device's superblock in this layout, on so many devices.
fn says_same(
    alloc: Global,
    devices: usize,
    layout: &Layout,
    dev: u8,
    copy: &SuperCopy,
) -> Result<bool, AllocError>
    ensures { IfOk result (λ same. same ≡ (slice_index copy.now.payload 0 == devices && slice_index
        copy.now.payload 1 == dev && is_same_layout (named_layout copy.now) layout.now)) }
{
    let payload = copy.payload.as_slice();
    if byte_at(payload, 0) as usize != devices {
        return Ok(false);
    }
    if byte_at(payload, 1) != dev {
        return Ok(false);
    }
    let named = named_layout(alloc, copy)?;
    Ok(is_same_layout(&named, layout))
}

// Whether a copy belongs to this device. Of a payload of another form the head alone is judged.
fn belongs(
    alloc: Global,
    devices: usize,
    layout: &Layout,
    dev: u8,
    copy: &SuperCopy,
) -> Result<bool, AllocError>
    ensures { IfOk result (λ does. does ≡ belongs devices layout.now dev copy.now) }
{
    if copy.head.id != layout.id {
        return Ok(false);
    }
    if copy.head.owner != u64::from(dev) {
        return Ok(false);
    }
    if !has_form(copy.payload.as_slice()) {
        return Ok(true);
    }
    says_same(alloc, devices, layout, dev, copy)
}

// Whether each copy belongs to its device.
fn belong(
    alloc: Global,
    devices: usize,
    layout: &Layout,
    copies: &[SuperCopy],
) -> Result<bool, AllocError>
    requires { length copies.now ≤ 8 }
    ensures { IfOk result (λ all. all ≡ belong_from devices layout.now 0 copies.now) }
{
    for dev in 0..copies.len() {
        if !belongs(alloc, devices, layout, dev as u8, &copies[dev])? {
            return Ok(false);
        }
    }
    Ok(true)
}

fn are_of_version_one(copies: &[SuperCopy]) -> bool
    ensures { result ≡ list_all (λ copy. copy.head.version == 1) copies.now }
{
    copies.iter().all(|copy| copy.head.version == 1)
}

fn have_form(copies: &[SuperCopy]) -> bool
    ensures { result ≡ list_all (λ copy. has_form copy.payload) copies.now }
{
    copies.iter().all(|copy| has_form(copy.payload.as_slice()))
}

// The first copy with a payload of the form, or the first copy where none has one.
fn model_copy<'a>(first: &'a SuperCopy, copies: &'a [SuperCopy]) -> &'a SuperCopy
    ensures { result.now ≡ unwrap_or (find (λ copy. has_form copy.payload) copies.now) first.now }
{
    for copy in copies {
        if has_form(copy.payload.as_slice()) {
            return copy;
        }
    }
    first
}

/// What the copies that count say together, on devices of these sizes: the first fault, or the layout.
pub(crate) fn judge(
    alloc: Global,
    sizes: &[u32],
    copies: &[SuperCopy],
) -> Result<Layout, SuperFault>
    requires { length copies.now ≤ 8 }
    ensures answer { IsSuperAnswer result (judged sizes.now copies.now) }
    ensures fits { IfOk result (λ layout. is_layout_of sizes.now layout ≡ true) }
    ensures no_device { (dev : ℕ) → result ≡ Err (SuperFault.DeviceFault dev) → ⊥ }
{
    let Some(first) = copies.first() else {
        return Err(SuperFault::NoSuper);
    };
    if !are_of_version_one(copies) {
        return Err(SuperFault::Version);
    }
    let layout = named_layout(alloc, model_copy(first, copies))?;
    let Ok(are_its_own) = belong(alloc, sizes.len(), &layout, copies) else {
        drop(layout);
        return Err(SuperFault::NoMemory);
    };
    if !are_its_own {
        drop(layout);
        return Err(SuperFault::Mixed);
    }
    if !have_form(copies) {
        drop(layout);
        return Err(SuperFault::BadLayout);
    }
    if !is_layout_of(sizes, &layout) {
        drop(layout);
        return Err(SuperFault::BadLayout);
    }
    Ok(layout)
}
