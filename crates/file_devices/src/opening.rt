ghost use Rattle.std.specs.Prelude.{◌≡◌, ◌<◌, ◌≤◌, All, Err, IfOk, length, map, true, ℕ};
ghost use Rattle.std.specs.Fs.{new_options, with_read, with_write};
ghost use Rattle.file_devices.specs.Files.{IsStill};
ghost use Rattle.file_devices.specs.Opening.{IsInUse};

use crate::devices::FileDevices;
use crate::file::ImageFile;
use crate::image::Image;
use crate::trouble::{OpenFault, Trouble, trouble_of};
use std::alloc::Global;
use std::fs::{File, OpenFile, OpenOptions};
use std::io::{self, Seek, SeekFrom};
use std::rc::RcStr;
use std::rt::Files;

/// Opens one to eight files, in this order, and locks them. A fault names the first that can't be opened, or else the first that is in
/// use or whose length can't be told.
pub fn open_devices<R: Files<File = File>>(
    files: &R,
    alloc: Global,
    paths: &[RcStr],
) -> Result<FileDevices<File>, OpenFault>
    requires { (1 ≤ length paths.now) × (length paths.now ≤ 8) }
    ensures { IfOk result (λ d. length d.images.items ≡ length paths.now) }
{
    let opened = open_files(files, alloc, paths)?;
    FileDevices::of(alloc, opened)
}

// Opens the files.
fn open_files<R: Files<File = File>>(
    files: &R,
    alloc: Global,
    paths: &[RcStr],
) -> Result<Vec<File>, OpenFault>
    requires { length paths.now ≤ 8 }
    ensures { IfOk result (λ opened. length opened.items ≡ length paths.now) }
{
    let mut opened = Vec::new(alloc);
    for path in paths {
        match open_file(files, path.as_str()) {
            Ok(file) => opened.push(file)?,
            Err(trouble) => return Err(OpenFault::Device(opened.len() as u8, trouble)),
        }
    }
    Ok(opened)
}

/// Opens a file for reading and writing, as it is: nothing is cut off, and none is made.
pub fn open_file<R: Files>(files: &R, path: &str) -> Result<R::File, Trouble> {
    match try_open(files, path) {
        Ok(file) => Ok(file),
        Err(error) => Err(trouble_of(error)),
    }
}

// A file whose length can't be told isn't opened.
fn try_open<R: Files>(files: &R, path: &str) -> io::Result<R::File> {
    let opened = image_options().open(files, path)?;

    // Where a standard stream is closed the system gives its number to a file that is opened. The copy never has it,
    // so no reply is written over a block.
    let mut file = opened.try_clone()?;
    file.seek(SeekFrom::End(0))?;
    Ok(file)
}

// For reading and writing what is there.
fn image_options() -> OpenOptions
    ensures { result ≡ with_write (with_read new_options true) true }
{
    let mut options = OpenOptions::new();
    options.read(true);
    options.write(true);
    options
}
