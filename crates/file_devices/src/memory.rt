ghost use Rattle.std.specs.Prelude.{◌≡◌, ◌+◌, ◌*◌, ◌<◌, ◌≤◌, ◌^◌, All, IfOk, OnOk, ℕ, length, slice_index};
ghost use Rattle.std.proofs.Props.{props};
ghost use Rattle.dev_model.specs.Devices.{now};
ghost use Rattle.dev_model.specs.Memory.{mem_state};
ghost use Rattle.file_devices.specs.Files.{IsStill};
ghost use Rattle.file_devices.specs.Recalled.{disk_in, own_end};

use crate::file::ImageFile;
use crate::mark::Mark;
use dev_model::{Devices, MemDevices};
use std::alloc::Global;
use vol_types::{BLOCK_SIZE, Failed, SpareList};

/// A file in memory, for tests: the blocks of one device of `MemDevices`, and a few bytes behind them. It tells what it holds, and its
/// calls fail as the device's plan says. A write that is to fail leaves of its block what the plan says, so a short one its first half.
///
/// It takes some memory for each call, besides what its device does.
#[derive(Drop)]
pub struct MemFile {
    devices: MemDevices,
    marks: SpareList<Mark>,
    start: u64,
    rest: u16,
    free: bool,
    locked: bool,
    ghost one: { length (mem_state devices).sizes ≡ 1 },
    ghost few: { rest < 4096 },
    ghost start_past: { start ≤ (mem_state devices).moment },
    ghost past: { All (λ mark. mark.behind ≤ (mem_state devices).moment) marks.members } by { Prim.hlevel props },
    ghost ends: { own_end marks.members start ≡ (mem_state devices).moment },
}

impl MemFile {
    ghost use Rattle.file_devices.specs.MemFiles.{file_state};

    /// A file that holds the blocks of this device, and so many bytes behind them, whose lock is free or not.
    pub fn new(alloc: Global, devices: MemDevices, rest: u16, free: bool) -> Self
        requires one { length (mem_state devices).sizes ≡ 1 }
        requires few { rest < 4096 }
        ensures story { (moment : ℕ) → (file_state result).story moment ≡ disk_in
            (now (mem_state devices)) }
        ensures fresh { IsStill (file_state result).story 0 }
        ensures rest { (file_state result).rest ≡ rest }
        ensures free { (file_state result).free ≡ free }
    {
        let start = devices.moment();
        MemFile {
            devices,
            marks: SpareList::new(alloc),
            start,
            rest,
            free,
            locked: false,
        }
    }
}

impl ImageFile for MemFile {
    ghost use Rattle.file_devices.specs.MemDisks.{mem_are_disks, mem_sizes_agree};
    ghost use Rattle.file_devices.specs.MemFiles.{file_state};
    ghost use Rattle.file_devices.specs.RecallLaws.{mem_is_disk};

    ghost tells = { Unit {0} };

    ghost state = { file_state };

    ghost sound = { λ _ file moment still. mem_is_disk file.devices file.marks.members file.start moment file.ends file.one still };

    fn take_lock(&mut self) -> bool {
        if self.free {
            self.locked = true;
        }
        self.free
    }

    fn length(&mut self) -> Result<u64, Failed> {
        Ok(u64::from(self.devices.blocks(0)) * BLOCK_SIZE as u64 + u64::from(self.rest))
    }

    fn read_block(&mut self, into: &mut [u8], offset: u64, moment: u64) -> Result<(), Failed> {
        let block = block_at(&self.devices, offset)?;
        make_room(&mut self.marks, moment)?;
        let before = self.devices.moment();
        let result = self.devices.read(0, block, into);
        let behind = self.devices.moment();
        self.marks.push(Mark {
            at: moment,
            before,
            behind,
        });
        result
    }

    fn write_block(&mut self, from: &[u8], offset: u64, moment: u64) -> Result<(), Failed> {
        let block = block_at(&self.devices, offset)?;
        make_room(&mut self.marks, moment)?;
        let before = self.devices.moment();
        let result = self.devices.write(0, block, from);
        let behind = self.devices.moment();
        self.marks.push(Mark {
            at: moment,
            before,
            behind,
        });
        result
    }

    fn flush_blocks(&mut self, moment: u64) -> Result<(), Failed> {
        make_room(&mut self.marks, moment)?;
        let before = self.devices.moment();
        let result = self.devices.flush(0);
        let behind = self.devices.moment();
        self.marks.push(Mark {
            at: moment,
            before,
            behind,
        });
        result
    }

    fn cut(&mut self, _bytes: u64, _moment: u64) -> Result<(), Failed> {
        self.rest = 0;
        Ok(())
    }

    fn lengthen(&mut self, bytes: u64, moment: u64) -> Result<(), Failed> {
        let blocks = blocks_for(&self.devices, bytes)?;
        make_room(&mut self.marks, moment)?;
        let before = self.devices.moment();
        let result = self.devices.extend(0, blocks);
        let behind = self.devices.moment();
        self.marks.push(Mark {
            at: moment,
            before,
            behind,
        });
        result
    }
}

// The block at an offset, if it is there.
fn block_at(devices: &MemDevices, offset: u64) -> Result<u32, Failed>
    requires { length (mem_state devices.now).sizes ≡ 1 }
    ensures place { IfOk result (λ block. block < slice_index (mem_state devices.now).sizes 0) }
    ensures block { IfOk result (λ n. (block : ℕ) → offset ≡ block * 4096 → n ≡ block) }
{
    let block = offset / BLOCK_SIZE as u64;
    if block >= u64::from(devices.blocks(0)) {
        return Err(Failed);
    }
    Ok(block as u32)
}

// The number of blocks in so many bytes, if they aren't fewer than there are.
fn blocks_for(devices: &MemDevices, bytes: u64) -> Result<u32, Failed>
    requires { length (mem_state devices.now).sizes ≡ 1 }
    ensures longer { IfOk result (λ blocks. slice_index (mem_state devices.now).sizes 0 ≤ blocks) }
    ensures blocks { IfOk result (λ n. (blocks : ℕ) → bytes ≡ blocks * 4096 → n ≡ blocks) }
{
    let blocks = bytes / BLOCK_SIZE as u64;
    if blocks > u64::from(u32::MAX) || blocks < u64::from(devices.blocks(0)) {
        return Err(Failed);
    }
    Ok(blocks as u32)
}

// Memory for the mark of a call, and a moment for it.
fn make_room(marks: &mut SpareList<Mark>, moment: u64) -> Result<(), Failed>
    ensures room { OnOk result (1 ≤ marks.new.spare) }
    ensures soon { OnOk result (moment + 3 < 2 ^ 64) }
    ensures marks { marks.new.members ≡ marks.old.members }
{
    if moment >= u64::MAX - 2 {
        return Err(Failed);
    }
    match marks.reserve(1) {
        Ok(()) => Ok(()),
        Err(_) => Err(Failed),
    }
}
