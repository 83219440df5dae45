ghost use Rattle.std.specs.Prelude.{◌<◌, length};
ghost use Rattle.dev_model.specs.Frames.{AreOnlyRead};

use command_line::id_text;
use dev_model::Devices;
use sealed_block::{SUPERBLOCK, unseal};
use shell::Task;
use std::io::Eprint;
use std::rc::RcStr;
use std::{fmt, str};
use vol_types::BLOCK_SIZE;

// A sentence for people on what a format writes over: the volume of which this image holds a part.
#[derive(Drop)]
struct Overwritten<'a> {
    image: &'a str,
    volume: [u8; 16],
}

impl fmt::Display for Overwritten<'_> {
    fn fmt<W: fmt::Write>(&self, f: &mut fmt::Formatter<W>) -> fmt::Result {
        let image = self.image;
        let text = id_text(&self.volume);
        let volume = str::from_utf8(&text).unwrap_or("");
        write!(
            f,
            "bvol: {image}: it held a part of the volume {volume}, which is written over"
        )
    }
}

/// Says on standard error of which volumes the images hold parts that a format writes over. It reads two blocks of each at most, and
/// none where the task is another; nothing is written.
pub fn say_what_is_lost<R: Eprint, D: Devices>(
    rt: &R,
    task: &Task,
    devices: &mut D,
    images: &[RcStr],
)
    ensures { AreOnlyRead D.tells (D.state devices.old) (D.state devices.new) }
{
    let Task::Format(_) = task else {
        return;
    };
    for (dev, image) in images.iter().enumerate() {
        if dev >= devices.count() as usize {
            return;
        }
        if let Some(volume) = volume_on(devices, dev as u8) {
            let image = image.as_str();
            drop(rt.eprintln(Overwritten { image, volume }));
        }
    }
}

// The id of the volume of which a device holds a part, as one of its two superblocks names it. It reads two blocks at most.
fn volume_on<D: Devices>(devices: &mut D, dev: u8) -> Option<[u8; 16]>
    requires { dev < length (D.state devices.old).sizes }
    ensures { AreOnlyRead D.tells (D.state devices.old) (D.state devices.new) }
{
    match volume_in(devices, dev, 0) {
        Some(id) => Some(id),
        None => volume_in(devices, dev, 8),
    }
}

// The id that a block names, where it is a superblock.
fn volume_in<D: Devices>(devices: &mut D, dev: u8, block: u32) -> Option<[u8; 16]>
    requires { dev < length (D.state devices.old).sizes }
    ensures { AreOnlyRead D.tells (D.state devices.old) (D.state devices.new) }
{
    if block >= devices.blocks(dev) {
        return None;
    }
    let mut bytes = [0; BLOCK_SIZE];
    if devices.read(dev, block, &mut bytes).is_err() {
        return None;
    }
    match unseal(&bytes) {
        Some(head) if head.kind == SUPERBLOCK => Some(head.id),
        _ => None,
    }
}
