//! Pins step by step, and a thousand of them.

use pin_list::PinList;
use std::alloc::{AllocError, Global};
use std::test::Fail;

#[derive(Clone, Copy)]
enum Step {
    Pin(u64, u64),
    Release(u64),
}

/// Each step with the oldest pin after it, by a table of pins that another program kept.
static STEPS: [(Step, Option<u64>); 26] = [
    (Step::Pin(3, 35), Some(35)),
    (Step::Release(3), None),
    (Step::Pin(6, 47), Some(47)),
    (Step::Pin(4, 12), Some(12)),
    (Step::Pin(7, 14), Some(12)),
    (Step::Pin(7, 13), Some(12)),
    (Step::Release(4), Some(13)),
    (Step::Pin(1, 46), Some(13)),
    (Step::Pin(1, 24), Some(13)),
    (Step::Pin(3, 28), Some(13)),
    (Step::Pin(2, 46), Some(13)),
    (Step::Pin(3, 16), Some(13)),
    (Step::Pin(4, 33), Some(13)),
    (Step::Pin(2, 46), Some(13)),
    (Step::Pin(4, 41), Some(13)),
    (Step::Release(7), Some(16)),
    (Step::Pin(8, 33), Some(16)),
    (Step::Pin(3, 54), Some(16)),
    (Step::Release(3), Some(24)),
    (Step::Pin(8, 31), Some(24)),
    (Step::Release(1), Some(31)),
    (Step::Release(8), Some(33)),
    (Step::Pin(6, 19), Some(19)),
    (Step::Release(6), Some(33)),
    (Step::Release(2), Some(33)),
    (Step::Release(4), None),
];

// Takes a step, and gives the oldest pin after it.
fn oldest_after(list: &mut PinList, step: Step) -> Result<Option<u64>, AllocError> {
    match step {
        Step::Pin(node, seq) => pin(list, node, seq)?,
        Step::Release(node) => list.release(node),
    }
    Ok(list.oldest())
}

fn pin(list: &mut PinList, node: u64, seq: u64) -> Result<(), AllocError> {
    list.reserve(1)?;
    list.pin(node, seq);
    Ok(())
}

// The number of the first step after which another pin is the oldest.
fn first_other(list: &mut PinList) -> Result<Option<u32>, AllocError> {
    let mut number: u32 = 0;
    for (step, oldest) in STEPS.iter() {
        if oldest_after(list, *step)? != *oldest {
            return Ok(Some(number));
        }
        number = number.saturating_add(1);
    }
    Ok(None)
}

#[test]
fn steps(rt: HostRuntime) -> Result<(), Fail> {
    let mut list = PinList::new(rt.alloc())?;
    assert!(rt; list.oldest().is_none());
    assert!(rt; first_other(&mut list)? == None);
    Ok(())
}

// A list of a thousand nodes, which rise with what they pin or fall.
fn many_pins(alloc: Global, falls: bool) -> Result<PinList, AllocError> {
    let mut list = PinList::new(alloc)?;
    for node in 0..1_000 {
        pin(&mut list, if falls { 1_000 - node } else { node }, node)?;
    }
    Ok(list)
}

// Releases most nodes of both lists, and gives the first after which the rising one's oldest pin is another one than it should be.
fn first_wrong(rising: &mut PinList, falling: &mut PinList) -> Option<u64> {
    for node in 0..937 {
        rising.release(node);
        falling.release(node + 1);
        if rising.oldest() != Some(node + 1) {
            return Some(node);
        }
    }
    None
}

// Releases most nodes of both lists, and says whether they had a thousand of them, and have those that are left then.
fn release_most(rising: &mut PinList, falling: &mut PinList) -> bool {
    rising.len() == 1_000
        && falling.get(1_000) == Some(0)
        && first_wrong(rising, falling).is_none()
        && falling.oldest() == Some(0)
        && falling.get(1).is_none()
}

fn release_most_of_many(alloc: Global) -> Result<bool, AllocError> {
    let mut rising = many_pins(alloc, false)?;
    let mut falling = many_pins(alloc, true)?;
    Ok(release_most(&mut rising, &mut falling))
}

// A thousand nodes, which rise in one list and fall in the other.
#[test]
fn many(rt: HostRuntime) -> Result<(), Fail> {
    assert!(rt; release_most_of_many(rt.alloc())?);
    Ok(())
}
