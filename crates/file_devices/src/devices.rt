ghost use Rattle.std.specs.Prelude.{◌≡◌, ◌<◌, ◌≤◌, ◌^◌, ◌-◌, ℕ, All, Err, IfOk, length, map};
ghost use Rattle.file_devices.specs.Files.{IsStill};
ghost use Rattle.file_devices.specs.Opening.{IsInUse};
ghost use Rattle.file_devices.specs.declared.trouble.OpenFault.TheVariants.{Device};
ghost use Rattle.file_devices.specs.declared.trouble.Trouble.TheVariants.{InUse};
ghost use Rattle.std.proofs.Props.{props};

use crate::file::ImageFile;
use crate::image::Image;
use crate::trouble::OpenFault;
use dev_model::{Devices, FaultTally};
use std::alloc::Global;
use vol_types::Failed;

/// The greatest number of devices.
pub const MOST_DEVICES: usize = 8;

/// Devices over image files, each of which is locked. They tell what the files tell.
#[derive(Drop)]
pub struct FileDevices<F: ImageFile + Drop> {
    images: Vec<Image<F>>,
    moment: u64,
    faults: FaultTally,
    ghost count: { (1 ≤ length images.items) × (length images.items ≤ 8) },
    ghost past: { All (λ image. image.last ≤ moment) images.items } by { Prim.hlevel props },
    ghost counted: { F.tells → moment < 2 ^ 64 - 1 } by { Prim.hlevel props },
}

impl<F: ImageFile + Drop> FileDevices<F> {
    ghost use Rattle.file_devices.specs.Images.{disks_at};

    /// Devices over one to eight files that were just opened, in this order. Each is locked before it is read or written. What they held is
    /// still there. A fault names the first file that is in use, or whose length can't be told.
    pub fn of(alloc: Global, files: Vec<F>) -> Result<Self, OpenFault>
        requires count { (1 ≤ length files.items) × (length files.items ≤ 8) }
        requires fresh { F.tells → All (λ file. IsStill (F.state file).story 0) files.items }
        ensures count { IfOk result (λ d. length d.images.items ≡ length files.items) }
        ensures held { F.tells → IfOk result (λ d. disks_at (λ image. (F.state image.file).story)
            d.images.items d.moment ≡ map (λ file. (F.state file).story 0) files.items) }
        ensures in_use { (dev : ℕ) → result ≡ Err (Device dev InUse) → IsInUse F.tells
            (map F.state files.items) dev }
    {
        let images = images_of(alloc, files)?;
        Ok(FileDevices {
            images,
            moment: 0,
            faults: FaultTally::none(),
        })
    }
}

// Locks files, and takes their lengths.
#[tactic(auto, using(crate::proofs::OpenedFiles::opening_none, crate::proofs::OpenedFiles::opening_next, crate::proofs::OpenedFiles::opening_count, crate::proofs::OpenedFiles::opening_held))]
fn images_of<F: ImageFile + Drop>(alloc: Global, files: Vec<F>) -> Result<Vec<Image<F>>, OpenFault>
    requires count { length files.items ≤ 8 }
    requires fresh { F.tells → All (λ file. IsStill (F.state file).story 0) files.items }
    ensures count { IfOk result (λ images. length images.items ≡ length files.items) }
    ensures last { IfOk result (λ images. All (λ image. image.last ≡ 0) images.items) }
    ensures held { F.tells → IfOk result (λ images. map (λ image. (F.state image.file).story)
        images.items ≡ map (λ file. (F.state file).story) files.items) }
    ensures in_use { (dev : ℕ) → result ≡ Err (Device dev InUse) → IsInUse F.tells
        (map F.state files.items) dev }
{
    let mut images = Vec::new(alloc);
    for file in files {
        match Image::locked(file) {
            Ok(image) => images.push(image)?,
            Err(trouble) => return Err(OpenFault::Device(images.len() as u8, trouble)),
        }
    }
    Ok(images)
}

impl<F: ImageFile + Drop> Devices for FileDevices<F> {
    ghost use Rattle.dev_model.specs.Tallies.{faults_in};
    ghost use Rattle.file_devices.specs.Images.{disks_at};
    ghost use Rattle.file_devices.specs.ImageLaws.{are_disks, sizes_agree};
    ghost use Rattle.std.proofs.lemmas.List.{length-map};
    ghost use Rattle.std.proofs.Common.{sym, ◌∙◌};

    ghost tells = { F.tells };

    ghost state = { λ d. record { sizes = map (λ image. image.blocks) d.images.items; moment = d.moment; disks = disks_at (λ image. (F.state image.file).story) d.images.items; faults = faults_in d.faults } };

    ghost agree = { λ told d. sizes_agree (λ image. (F.state image.file).story) (λ image. image.last) (λ image. (image.ready told).still) d.moment (λ image. image.blocks) (λ image. image.size told) d.images.items d.past };

    ghost sound = { λ told d. are_disks (λ image. (F.state image.file).story) (λ image. image.last) (λ image. (image.ready told).still) d.moment (λ image m still. F.sound told image.file m still) d.images.items d.past };

    ghost steady = { λ told d m le. length-map d.images.items (λ image. (F.state image.file).story m) ∙ sym (length-map d.images.items (λ image. image.blocks)) };

    ghost counted = { λ d. record { calls = d.faults.calls_counted; writes = d.faults.writes_counted } };

    fn count(&self) -> u8 {
        self.images.len() as u8
    }

    fn blocks(&self, dev: u8) -> u32 {
        self.images[dev as usize].blocks
    }

    fn moment(&self) -> u64 {
        self.moment
    }

    fn extend(&mut self, dev: u8, blocks: u32) -> Result<(), Failed> {
        let extended = &mut self.images[dev as usize];
        let outcome = extended.extend(blocks, self.moment);
        self.moment = extended.last;
        self.faults.count(dev, &outcome);
        outcome
    }

    fn read(&mut self, dev: u8, block: u32, into: &mut [u8]) -> Result<(), Failed> {
        let image = &mut self.images[dev as usize];
        let result = image.read(block, into, self.moment);
        self.moment = image.last;
        self.faults.count(dev, &result);
        result
    }

    fn write(&mut self, dev: u8, block: u32, from: &[u8]) -> Result<(), Failed> {
        let written = &mut self.images[dev as usize];
        let result = written.write(block, from, self.moment);
        self.moment = written.last;
        self.faults.count_write(dev, &result);
        result
    }

    fn flush(&mut self, dev: u8) -> Result<(), Failed> {
        let flushed = &mut self.images[dev as usize];
        let outcome = flushed.flush(self.moment);
        self.moment = flushed.last;
        self.faults.count_write(dev, &outcome);
        outcome
    }
}
