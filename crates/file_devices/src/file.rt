ghost use Rattle.std.specs.Prelude.{◌≡◌, ◌+◌, ◌*◌, ◌/◌, ◌<◌, ◌≤◌, ◌↔◌, ℕ, true, IfOk, OnOk, OnErr, IsTrue, Some, length, slice_get};
ghost use Rattle.dev_model.specs.Disk.{IsDisk, extended, flushed, written};
ghost use Rattle.file_devices.specs.Files.{FileState, IsDiskNow, IsFileCall, IsReady, IsStill, IsWhole, MayHold, MayReach};
ghost use Rattle.file_devices.specs.Opening.{with_lock};

use vol_types::Failed;

/// An image file that is open for reading and writing.
///
/// Who calls it says at which moment the call begins, so that a file that tells knows what it held at each moment. It tells its blocks,
/// the whole pieces of 4,096 bytes: how they are read, how they were last settled, and what was asked for since.
pub trait ImageFile {
    /// It tells what it holds, or not. It is the same for all values of the type.
    ghost tells: { Type 0 };

    /// What it tells.
    ghost state: { Self → FileState };

    /// Takes the lock on the file, which goes with its last handle. Whether nobody else had it. It changes nothing that the file holds.
    fn take_lock(&mut self) -> bool
        ensures taken { tells → IsTrue result ↔ (state self.old).free ≡ true }
        ensures locked { tells → IsTrue result → state self.new ≡ with_lock (state self.old) };

    /// How many bytes it has.
    fn length(&mut self) -> Result<u64, Failed>
        requires locked { tells → (state self.old).locked ≡ true }
        ensures length { tells → IfOk result (λ bytes. (moment : ℕ) → IsStill (state
            self.old).story moment → length ((state self.old).story moment).blocks ≡ bytes / 4096) }
        ensures state { tells → state self.new ≡ state self.old };

    /// Reads the block at this offset in bytes. If it fails, the bytes in `into` are unknown.
    fn read_block(&mut self, into: &mut [u8], offset: u64, moment: u64) -> Result<(), Failed>
        requires whole { IsWhole offset (length into.old) }
        requires ready { tells → IsReady (state self.old) moment }
        requires place { tells → offset < length ((state self.old).story moment).blocks * 4096 }
        ensures bytes { tells → OnOk result ((block : ℕ) → offset ≡ block * 4096 → slice_get ((state
            self.old).story moment).blocks block ≡ Some into.new) }
        ensures call { tells → IsFileCall result (IsDiskNow ((state self.old).story moment))
            (IsDiskNow ((state self.old).story moment)) moment (state self.old) (state self.new) };

    /// Writes the block at this offset in bytes. Until the file is flushed a crash may leave any bytes there. If it fails, the block is
    /// as it was, or pending and read as unknown bytes.
    fn write_block(&mut self, from: &[u8], offset: u64, moment: u64) -> Result<(), Failed>
        requires whole { IsWhole offset (length from.now) }
        requires ready { tells → IsReady (state self.old) moment }
        requires place { tells → offset < length ((state self.old).story moment).blocks * 4096 }
        ensures call { tells → (block : ℕ) → offset ≡ block * 4096 → IsFileCall result (MayHold
            block from.now ((state self.old).story moment)) (IsDiskNow (written block from.now ((state
            self.old).story moment))) moment (state self.old) (state self.new) };

    /// Waits until what was written is on the disk, and the length too. If it fails, it has settled nothing.
    fn flush_blocks(&mut self, moment: u64) -> Result<(), Failed>
        requires ready { tells → IsReady (state self.old) moment }
        ensures call { tells → IsFileCall result (IsDiskNow ((state self.old).story moment))
            (IsDiskNow (flushed ((state self.old).story moment))) moment (state self.old) (state
            self.new) };

    /// Cuts off the bytes behind its blocks, given the length that is left.
    fn cut(&mut self, bytes: u64, moment: u64) -> Result<(), Failed>
        requires ready { tells → IsReady (state self.old) moment }
        requires length { tells → bytes ≡ length ((state self.old).story moment).blocks * 4096 }
        ensures story { tells → (state self.new).story ≡ (state self.old).story }
        ensures locked { tells → (state self.new).locked ≡ (state self.old).locked }
        ensures none { tells → OnOk result ((state self.new).rest ≡ 0) };

    /// Makes it that many bytes long, by zeros behind its last block. Until it is flushed, a crash may leave any length between. If it
    /// fails, it is as long as it was.
    fn lengthen(&mut self, bytes: u64, moment: u64) -> Result<(), Failed>
        requires ready { tells → IsReady (state self.old) moment }
        requires rest { tells → (state self.old).rest ≡ 0 }
        ensures call { tells → (blocks : ℕ) → bytes ≡ blocks * 4096 → IsFileCall result (MayReach
            blocks ((state self.old).story moment)) (IsDiskNow (extended blocks ((state
            self.old).story moment))) moment (state self.old) (state self.new) }
        ensures failed { tells → OnErr result (length ((state self.new).story (moment + 2)).blocks
            ≡ length ((state self.old).story moment).blocks) };

    /// What it holds is a disk, so a crash may leave what is read.
    ghost sound: { tells → (file : Self) → (moment : ℕ) → IsStill (state file).story moment → IsDisk ((state file).story moment) };
}
