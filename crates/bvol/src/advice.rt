use crate::refusal::NotBegun;
use file_devices::Trouble;
use script_text::LineFault;
use shell::{EarlyEnd, MountRefusal};
use std::fmt;
use std::rc::RcStr;

/// A sentence for people, beside the line for programs, on why a command did nothing: what happened, to which image, and
/// what to do.
#[derive(Drop)]
pub struct Advice<'a> {
    pub end: EarlyEnd,
    pub arguments: &'a [RcStr],
    pub images: &'a [RcStr],
}

/// The same for a command that wasn't begun.
#[derive(Drop)]
pub struct RefusalAdvice<'a> {
    pub refusal: NotBegun,
    pub arguments: &'a [RcStr],
    pub images: &'a [RcStr],
}

// The name of an image, or its number where it has none.
fn name_of(images: &[RcStr], dev: u8) -> &str {
    match images.get(dev as usize) {
        Some(image) => image.as_str(),
        None => "an image",
    }
}

// What is wrong with an image that can't be opened.
fn trouble_text(trouble: Trouble) -> &'static str {
    match trouble {
        Trouble::Missing => {
            "there is no such file; `touch` makes an empty one for `bvol format`"
        }
        Trouble::NotPermitted => "it may not be read and written; check its permissions",
        Trouble::Directory => "it is a directory, and an image is a file",
        Trouble::InUse => {
            "it is in use by another bvol, or stands twice among the images; wait, or name it once"
        }
        Trouble::Other => "the system can't open or lock it for reading and writing",
    }
}

// What is wrong with a line of a script.
fn line_text(fault: LineFault) -> &'static str {
    match fault {
        LineFault::BadVerb => "has no verb that `run` knows",
        LineFault::BadArgs => {
            "has too few or too many words, or behind the names of `snap` another one than `ro`"
        }
        LineFault::BadPath => {
            "has no path like main:/NAME, or no subvolume's name, where one is wanted, or a bad escape in a name"
        }
        LineFault::BadClient => "begins with `@`, but not with one of `@0` to `@15` and a space",
    }
}

// What is wrong with images that aren't mounted, and what to do, where there is nothing more to say.
fn mount_text(refusal: MountRefusal) -> &'static str {
    match refusal {
        MountRefusal::NoSuper => {
            "an image has no superblock: it isn't part of a volume; `bvol format` makes one"
        }
        MountRefusal::Version => {
            "a superblock has another version: the volume was made by another bvol"
        }
        MountRefusal::Mixed => {
            "these aren't the images of one volume in its order; name all of them, as they were formatted"
        }
        MountRefusal::BadLayout => {
            "a superblock is damaged, or an image is shorter than it says; restore the image's length"
        }
        MountRefusal::NoEntry => {
            "no entry of the journal is whole, no session is named, or no number is left for another one; restore the images from a copy, or format them anew"
        }
        MountRefusal::BadNode(_) => {
            "nothing was written; look at the system's log of the disks, or restore the images from a copy"
        }
        MountRefusal::MissingEntry(_) | MountRefusal::Unsound(_) => {
            "nothing was written; restore the images from a copy"
        }
    }
}

// Says why images aren't mounted.
fn write_mount<W: fmt::Write>(
    f: &mut fmt::Formatter<W>,
    refusal: MountRefusal,
    images: &[RcStr],
) -> fmt::Result {
    let text = mount_text(refusal);
    match refusal {
        MountRefusal::MissingEntry(sequence) => write!(
            f,
            "bvol: entry {sequence} of the journal is damaged on every image that keeps it; {text}"
        ),
        MountRefusal::BadNode(place) => {
            let name = name_of(images, place.dev);
            let block = place.block;
            write!(
                f,
                "bvol: {name}: the btree node at block {block} is damaged, or a read of it failed, and no other image makes it up; {text}"
            )
        }
        MountRefusal::Unsound(check) => write!(
            f,
            "bvol: the keys of the volume fail check {check} of eight; {text}"
        ),
        _ => write!(f, "bvol: {text}"),
    }
}

/// The first argument that is none of the command's, if one is, and the help that says more.
fn odd_argument(arguments: &[RcStr]) -> (Option<&str>, &'static str) {
    let Some(command) = arguments.first() else {
        return (None, "bvol --help");
    };
    match command.as_str() {
        "format" => (odd_option(arguments), "bvol help format"),
        "run" => (arguments.get(1).map(|odd| odd.as_str()), "bvol help run"),
        "info" => (arguments.get(1).map(|odd| odd.as_str()), "bvol help info"),
        odd => (Some(odd), "bvol --help"),
    }
}

// The first argument of `format` that begins as an option does and is none.
fn odd_option(arguments: &[RcStr]) -> Option<&str> {
    for argument in arguments {
        let text = argument.as_str();
        if text.starts_with("-") && !is_option(text) {
            return Some(text);
        }
    }
    None
}

fn is_option(text: &str) -> bool {
    let name = match text.split_once("=") {
        Some((name, _)) => name,
        None => text,
    };
    matches!(
        name,
        "--id" | "--blocks" | "--journal" | "--data-replicas" | "--meta-replicas"
    )
}

// Says that the arguments are no command, or that a number doesn't fit.
fn write_usage<W: fmt::Write>(
    f: &mut fmt::Formatter<W>,
    arguments: &[RcStr],
    images: &[RcStr],
) -> fmt::Result {
    let (odd, help) = odd_argument(arguments);
    if images.is_empty() {
        return write!(
            f,
            "bvol: a command, `--` and one to eight images are wanted; see `{help}`"
        );
    }
    if let Some(odd) = odd {
        return write!(f, "bvol: `{odd}` is no argument here; see `{help}`");
    }
    write!(
        f,
        "bvol: an option is missing, stands twice, or has a value out of its range; see `{help}`"
    )
}

impl fmt::Display for RefusalAdvice<'_> {
    fn fmt<W: fmt::Write>(&self, f: &mut fmt::Formatter<W>) -> fmt::Result {
        match self.refusal {
            NotBegun::Usage => write_usage(f, self.arguments, self.images),
            NotBegun::NotText => {
                f.write_str("bvol: an argument isn't UTF-8; give the image a name that is")
            }
            NotBegun::Device(dev, trouble) => {
                let name = name_of(self.images, dev);
                let text = trouble_text(trouble);
                write!(f, "bvol: {name}: {text}")
            }
            NotBegun::Memory => f.write_str("bvol: out of memory; nothing was done"),
        }
    }
}

impl fmt::Display for Advice<'_> {
    fn fmt<W: fmt::Write>(&self, f: &mut fmt::Formatter<W>) -> fmt::Result {
        match self.end {
            EarlyEnd::Usage => write_usage(f, self.arguments, self.images),
            EarlyEnd::BadLine(line, fault) => {
                let text = line_text(fault);
                write!(
                    f,
                    "bvol: line {line} of the script {text}; nothing was run; see `bvol help run`"
                )
            }
            EarlyEnd::TooLong => {
                f.write_str("bvol: the script has more than 16 MiB; nothing was run")
            }
            EarlyEnd::Source => {
                f.write_str("bvol: standard input couldn't be read; nothing was run")
            }
            EarlyEnd::Refused(refusal) => write_mount(f, refusal, self.images),
            EarlyEnd::Device(dev) => {
                let name = name_of(self.images, dev);
                write!(
                    f,
                    "bvol: {name}: a read, a write or a flush of it failed; look at the system's log of that disk"
                )
            }
            EarlyEnd::OutOfMemory => f.write_str("bvol: out of memory; nothing was run"),
        }
    }
}
