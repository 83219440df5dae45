ghost use Rattle.std.specs.Prelude.{◌≡◌, ◌*◌, ◌/◌, ◌^◌, ◌-◌, ◌≤◌, ◌<◌, Some, min, max, length, slice_get, IfOk, OnOk, OnErr, MatchResult, IsErrOf, false};
ghost use Rattle.std.proofs.Props.{props};
ghost use Rattle.dev_model.specs.Disk.{extended, flushed, written};
ghost use Rattle.file_devices.specs.Files.{IsDiskNow, IsReady, IsStill, MayHold, MayReach};
ghost use Rattle.file_devices.specs.Images.{ChangesImage, IsMomentAfter, TakesTime};

use crate::file::ImageFile;
use crate::trouble::Trouble;
use vol_types::{BLOCK_SIZE, Failed};

/// A file that holds a device's blocks, with their number, and the moment since which it was left alone.
#[derive(Drop)]
pub struct Image<F: ImageFile + Drop> {
    pub file: F,
    pub blocks: u32,
    pub last: u64,
    ghost size: { F.tells → blocks ≡ length ((F.state file).story last).blocks } by { Prim.hlevel props },
    ghost ready: { F.tells → IsReady (F.state file) last } by { Prim.hlevel props },
    ghost counted: { F.tells → last < 2 ^ 64 - 1 } by { Prim.hlevel props },
}

impl<F: ImageFile + Drop> Image<F> {
    /// Takes the lock on a file that was just opened, and then its length: the image that it holds. `InUse` where its lock can't be
    /// had, and `Other` where its length can't be told.
    pub fn locked(file: F) -> Result<Self, Trouble>
        requires fresh { F.tells → IsStill (F.state file).story 0 }
        ensures last { IfOk result (λ image. image.last ≡ 0) }
        ensures held { F.tells → IfOk result (λ image. (F.state image.file).story ≡ (F.state
            file).story) }
        ensures in_use { F.tells → IsErrOf result Trouble.InUse → (F.state file).free ≡ false }
    {
        let mut file = file;
        if !file.take_lock() {
            drop(file);
            return Err(Trouble::InUse);
        }
        match file.length() {
            Ok(bytes) => Ok(Image {
                file,
                blocks: whole_blocks(bytes),
                last: 0,
            }),
            Err(_) => {
                drop(file);
                Err(Trouble::Other)
            }
        }
    }

    /// Reads a block.
    pub fn read(&mut self, block: u32, into: &mut [u8], moment: u64) -> Result<(), Failed>
        requires later { self.old.last ≤ moment }
        requires counted { F.tells → moment < 2 ^ 64 - 1 }
        requires place { block < self.old.blocks }
        requires room { length into.old ≡ 4096 }
        ensures bytes { F.tells → OnOk result (slice_get ((F.state
            self.old.file).story moment).blocks block ≡ Some into.new) }
        ensures changes { F.tells → let disk = (F.state self.old.file).story moment in
            ChangesImage result (IsDiskNow disk) (IsDiskNow disk) moment self.new.last (F.state self.old.file).story (F.state self.new.file).story }
        ensures time { TakesTime result moment self.new.last }
        ensures blocks { self.new.blocks ≡ self.old.blocks }
    {
        let result = self.file.read_block(into, offset_of(block), moment);
        self.last = moment_after(moment, &result);
        result
    }

    /// Writes a block.
    pub fn write(&mut self, block: u32, from: &[u8], moment: u64) -> Result<(), Failed>
        requires later { self.old.last ≤ moment }
        requires counted { F.tells → moment < 2 ^ 64 - 1 }
        requires place { block < self.old.blocks }
        requires size { length from.now ≡ 4096 }
        ensures changes { F.tells → let disk = (F.state self.old.file).story moment in
            ChangesImage result (MayHold block from.now disk) (IsDiskNow (written block from.now disk)) moment self.new.last (F.state self.old.file).story (F.state self.new.file).story }
        ensures time { TakesTime result moment self.new.last }
        ensures blocks { self.new.blocks ≡ self.old.blocks }
    {
        let result = self.file.write_block(from, offset_of(block), moment);
        self.last = moment_after(moment, &result);
        result
    }

    /// Waits until what was written is on the disk.
    pub fn flush(&mut self, moment: u64) -> Result<(), Failed>
        requires later { self.old.last ≤ moment }
        requires counted { F.tells → moment < 2 ^ 64 - 1 }
        ensures changes { F.tells → let disk = (F.state self.old.file).story moment in
            ChangesImage result (IsDiskNow disk) (IsDiskNow (flushed disk)) moment self.new.last (F.state self.old.file).story (F.state self.new.file).story }
        ensures time { TakesTime result moment self.new.last }
        ensures blocks { self.new.blocks ≡ self.old.blocks }
    {
        let result = self.file.flush_blocks(moment);
        self.last = moment_after(moment, &result);
        result
    }

    /// Makes the file longer, by zero blocks in place of the bytes behind its blocks.
    pub fn extend(&mut self, blocks: u32, moment: u64) -> Result<(), Failed>
        requires later { self.old.last ≤ moment }
        requires counted { F.tells → moment < 2 ^ 64 - 1 }
        requires longer { self.old.blocks ≤ blocks }
        ensures changes { F.tells → let disk = (F.state self.old.file).story moment in
            ChangesImage result (MayReach blocks disk) (IsDiskNow (extended blocks disk)) moment self.new.last (F.state self.old.file).story (F.state self.new.file).story }
        ensures time { TakesTime result moment self.new.last }
        ensures longer { OnOk result (self.new.blocks ≡ blocks) }
        ensures failed { OnErr result (self.new.blocks ≡ self.old.blocks) }
    {
        self.cut(moment)?;
        let result = self.file.lengthen(offset_of(blocks), moment);
        self.blocks = blocks_after(&result, self.blocks, blocks);
        self.last = moment_after(moment, &result);
        result
    }

    // Cuts off the bytes behind its blocks. It takes no time.
    fn cut(&mut self, moment: u64) -> Result<(), Failed>
        requires later { self.old.last ≤ moment }
        requires counted { F.tells → moment < 2 ^ 64 - 1 }
        ensures story { F.tells → (F.state self.new.file).story ≡ (F.state self.old.file).story }
        ensures none { F.tells → OnOk result ((F.state self.new.file).rest ≡ 0) }
        ensures others { self.new.blocks ≡ self.old.blocks }
        ensures last { self.new.last ≡ moment }
    {
        self.last = moment;
        self.file.cut(offset_of(self.blocks), moment)
    }
}

// The number of blocks after an extension.
fn blocks_after(outcome: &Result<(), Failed>, before: u32, asked: u32) -> u32
    ensures { MatchResult outcome.now (λ _. result ≡ asked) (λ _. result ≡ before) }
{
    if outcome.is_ok() { asked } else { before }
}

// The moment after a call that began at this one.
fn moment_after(moment: u64, outcome: &Result<(), Failed>) -> u64
    ensures { IsMomentAfter outcome.now moment result }
{
    if moment < u64::MAX - 2 {
        return moment + 2;
    }
    if outcome.is_ok() { u64::MAX } else { moment }
}

// The blocks in so many bytes, up to what a device can have.
fn whole_blocks(bytes: u64) -> u32
    ensures { result ≡ min (bytes / 4096) (2 ^ 32 - 1) }
{
    u32::try_from(bytes / BLOCK_SIZE as u64).unwrap_or(u32::MAX)
}

// Where a block begins.
fn offset_of(block: u32) -> u64
    ensures { result ≡ block * 4096 }
{
    u64::from(block) * BLOCK_SIZE as u64
}
