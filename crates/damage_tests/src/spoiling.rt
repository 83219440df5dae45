//! What is done to the blocks of a volume: they are lost, a bit of them changes, or they hold another block of the volume. What is
//! done hangs on the number of the case alone.

use crate::blocks::{block_of, put};
use crate::tables::{GROUPS, STOCK, TARGETS};
use dev_model::MemDevices;
use std::alloc::{AllocError, Global};
use std::test::Fail;
use vol_types::Listing;

/// Numbers that follow one from another, by the linear congruence of Knuth's MMIX.
#[derive(Drop)]
pub struct Draw {
    state: u64,
}

impl Draw {
    pub fn new(seed: u64) -> Draw {
        let mut draw = Draw { state: seed };
        let _ = draw.below(1);
        draw
    }

    /// The next number, below this one.
    pub fn below(&mut self, count: u64) -> u64 {
        self.state = self
            .state
            .wrapping_mul(6_364_136_223_846_793_005)
            .wrapping_add(1_442_695_040_888_963_407);
        if count == 0 {
            return 0;
        }
        (self.state >> 33) % count
    }
}

// One of these blocks.
fn target(draw: &mut Draw) -> u32 {
    match TARGETS.get(draw.below(18) as usize) {
        Some(block) => *block,
        None => 0,
    }
}

// One of these pairs of blocks.
fn pair(draw: &mut Draw, pairs: &[(u32, u32)]) -> (u32, u32) {
    match pairs.get(draw.below(pairs.len() as u64) as usize) {
        Some(blocks) => *blocks,
        None => (0, 0),
    }
}

/// The places that a case touches, the device and the block.
pub type Touched = Listing<(u8, u32)>;

// Puts these bytes into a block of the devices that a number from 0 to 2 stands for: the first, the second, or both.
fn put_on(
    devices: &mut MemDevices,
    on: u64,
    block: u32,
    bytes: &[u8],
    touched: &mut Touched,
) -> Result<(), Fail> {
    for dev in 0..2u8 {
        if on == 2 || on == u64::from(dev) {
            put(devices, dev, block, bytes)?;
            touched.push((dev, block))?;
        }
    }
    Ok(())
}

// Changes a bit of a byte.
fn flip(bytes: &mut [u8], at: usize) {
    if at < bytes.len() {
        bytes[at] ^= 1;
    }
}

// Changes a bit of a block on each of these devices.
fn flip_on(
    alloc: Global,
    devices: &mut MemDevices,
    on: u64,
    block: u32,
    at: u64,
    touched: &mut Touched,
) -> Result<(), Fail> {
    for dev in 0..2u8 {
        let mut bytes = block_of(alloc, devices, dev, block)?;
        flip(&mut bytes, at as usize);
        if on == 2 || on == u64::from(dev) {
            put_on(devices, u64::from(dev), block, &bytes, touched)?;
        }
    }
    Ok(())
}

// Puts a block of the stock where it is right.
fn stock_on(
    alloc: Global,
    devices: &mut MemDevices,
    on: u64,
    from: u32,
    to: u32,
    touched: &mut Touched,
) -> Result<(), Fail> {
    for dev in 0..2u8 {
        let bytes = block_of(alloc, devices, dev, from)?;
        if on == 2 || on == u64::from(dev) {
            put_on(devices, u64::from(dev), to, &bytes, touched)?;
        }
    }
    Ok(())
}

// Loses blocks from one to another.
fn lose(
    alloc: Global,
    devices: &mut MemDevices,
    on: u64,
    blocks: (u32, u32),
    touched: &mut Touched,
) -> Result<(), Fail> {
    let zeros = vec![in alloc; 0; 4096]?;
    for block in blocks.0..blocks.1 {
        put_on(devices, on, block, &zeros, touched)?;
    }
    Ok(())
}

// Spoils one block or one group.
fn spoil_one(
    alloc: Global,
    devices: &mut MemDevices,
    draw: &mut Draw,
    touched: &mut Touched,
) -> Result<(), Fail> {
    let on = draw.below(3);
    let manner = draw.below(9);
    if manner < 4 {
        let (from, to) = pair(draw, &STOCK);
        return stock_on(alloc, devices, on, from, to, touched);
    }
    if manner < 5 {
        let blocks = pair(draw, &GROUPS);
        return lose(alloc, devices, on, blocks, touched);
    }
    let block = target(draw);
    if manner < 7 {
        return lose(
            alloc,
            devices,
            on,
            (block, block.saturating_add(1)),
            touched,
        );
    }
    if manner < 8 {
        let at = draw.below(4096);
        return flip_on(alloc, devices, on, block, at, touched);
    }
    let from = if draw.below(2) == 0 { 0 } else { 1 };
    let other = target(draw);
    let bytes = block_of(alloc, devices, from, other)?;
    put_on(devices, on, block, &bytes, touched)
}

/// Spoils one to five times, as the number of the case says, and tells which blocks were touched.
pub fn spoil(alloc: Global, devices: &mut MemDevices, case: u64) -> Result<Touched, Fail> {
    let mut draw = Draw::new(case);
    let mut touched = Touched::new(alloc);
    for _ in 0..draw.below(5).saturating_add(1) {
        spoil_one(alloc, devices, &mut draw, &mut touched)?;
    }
    Ok(touched)
}

/// Puts back what was touched.
pub fn restore(
    alloc: Global,
    devices: &mut MemDevices,
    volume: &mut MemDevices,
    touched: &Touched,
) -> Result<(), Fail> {
    for (dev, block) in touched.as_slice() {
        let bytes = block_of(alloc, volume, *dev, *block)?;
        put(devices, *dev, *block, &bytes)?;
    }
    Ok(())
}
