use crate::{FileDevices, ImageFile, MemFile, OpenFault, Trouble, open_devices};
use dev_model::{Devices, MemDevices, Pick};
use std::alloc::{AllocError, Global};
use std::fs::{self, File};
use std::rc::RcStr;
use std::test::Fail;
use std::{env, io, process};

// A name for a file of this test.
fn file_name(rt: &HostRuntime, alloc: Global, test: &str) -> io::Result<RcStr> {
    let folder = env::temp_dir(rt)?;
    let id = process::id(rt.process());
    let name = format!(in alloc; "{}/bvol-{test}-{id}", folder.as_str())?;
    Ok(RcStr::from_string(name)?)
}

// Devices over a file of two blocks and a few bytes, whose name is gone once it is open.
fn opened(rt: &HostRuntime, alloc: Global) -> Result<FileDevices<File>, Fail> {
    let path = file_name(rt, alloc, "blocks")?;
    fs::write(rt, path.as_str(), [7u8; 8200])?;
    let devices = open_devices(rt, alloc, &[path.clone()?]);
    fs::remove_file(rt, path.as_str())?;
    Ok(devices?)
}

// The first and the last byte of a block, if it is there and can be read.
fn ends<F: ImageFile + Drop>(devices: &mut FileDevices<F>, block: u32) -> Option<(u8, u8)> {
    if block >= devices.blocks(0) {
        return None;
    }
    let mut bytes = [0; 4096];
    if devices.read(0, block, &mut bytes).is_err() {
        return None;
    }
    bytes.first().copied().zip(bytes.last().copied())
}

#[test]
fn written_blocks_are_read_back(rt: HostRuntime) -> Result<(), Fail> {
    let alloc = rt.alloc();
    let mut devices = opened(&rt, alloc)?;
    assert!(rt; devices.count() == 1);
    assert!(rt; devices.blocks(0) == 2);
    let mut block = vec![in alloc; 2; 4096]?;
    block[0] = 1;
    devices.write(0, 1, &block)?;
    devices.flush(0)?;
    devices.extend(0, 4)?;
    assert!(rt; devices.blocks(0) == 4);
    devices.write(0, 3, &block)?;
    for (at, expected) in [(0, (7, 7)), (1, (1, 2)), (2, (0, 0)), (3, (1, 2))] {
        assert!(rt; ends(&mut devices, at) == Some(expected), "block {at}");
    }
    assert!(rt; devices.moment() == 16);
    Ok(())
}

// Whether these files are opened, and if not, the device that is in use.
fn in_use(rt: &HostRuntime, alloc: Global, paths: &[RcStr]) -> Option<u8> {
    if paths.is_empty() || paths.len() > 8 {
        return None;
    }
    match open_devices(rt, alloc, paths) {
        Ok(devices) => {
            drop(devices);
            None
        }
        Err(OpenFault::Device(dev, Trouble::InUse)) => Some(dev),
        Err(_) => None,
    }
}

// A file that is open is locked, so it is in use, for another open of it too, and for a second device. Once it is closed it isn't.
#[test]
fn a_file_is_no_two_devices(rt: HostRuntime) -> Result<(), Fail> {
    let alloc = rt.alloc();
    let path = file_name(&rt, alloc, "locked")?;
    fs::write(&rt, path.as_str(), [0u8; 4096])?;
    assert!(rt; in_use(&rt, alloc, &[path.clone()?, path.clone()?]) == Some(1));
    let first = open_devices(&rt, alloc, &[path.clone()?])?;
    assert!(rt; in_use(&rt, alloc, &[path.clone()?]) == Some(0));
    drop(first);
    assert!(rt; in_use(&rt, alloc, &[path.clone()?]).is_none());
    let second = open_devices(&rt, alloc, &[path.clone()?])?;
    assert!(rt; second.blocks(0) == 1);
    fs::remove_file(&rt, path.as_str())?;
    Ok(())
}

// A device over a file in memory of three zero blocks and 100 bytes. Of its calls, from 0, the second and the fourth are to fail, and a write
// that fails is short: it leaves the first half of its block.
fn in_memory(alloc: Global) -> Result<FileDevices<MemFile>, OpenFault> {
    let mut devices = match MemDevices::blank(alloc, &[3]) {
        Ok(devices) => devices,
        Err(_) => return Err(OpenFault::NoMemory),
    };
    devices.failed_writes_leave(Pick::Torn);
    if devices.fail_at(&[1, 3]).is_err() {
        drop(devices);
        return Err(OpenFault::NoMemory);
    }
    let mut files = Vec::new(alloc);
    files.push(MemFile::new(alloc, devices, 100, true))?;
    FileDevices::of(alloc, files)
}

// Writes a block of one byte, if it is there.
fn put(devices: &mut FileDevices<MemFile>, block: u32, byte: u8) -> bool {
    if block >= devices.blocks(0) {
        return false;
    }
    devices.write(0, block, &[byte; 4096]).is_ok()
}

#[test]
fn calls_of_a_file_in_memory_fail_and_are_short(rt: HostRuntime) -> Result<(), Fail> {
    let mut devices = in_memory(rt.alloc())?;
    assert!(rt; devices.blocks(0) == 3);
    assert!(rt; put(&mut devices, 2, 9));
    assert!(rt; !put(&mut devices, 2, 5));
    assert!(rt; ends(&mut devices, 2) == Some((5, 9)));
    assert!(rt; devices.flush(0).is_err());
    assert!(rt; devices.flush(0).is_ok());
    assert!(rt; ends(&mut devices, 1) == Some((0, 0)));
    assert!(rt; devices.moment() == 12);
    Ok(())
}
