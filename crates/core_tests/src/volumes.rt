//! A formatted volume on devices of 1,024 blocks in memory, with a journal area of 256 on each metadata device, and operations on it.

ghost use Rattle.std.specs.Prelude.{◌≡◌, ◌<◌, true};

use dev_model::{Devices, MemDevices};
use forest_ops::{Cause, Op, Reply};
use plain_forest::Path;
use std::alloc::{AllocError, Global};
use std::test::Fail;
use vol_core::Opening;
use vol_format::format;
use vol_types::{Blocks, Bytes, FlaggedName, Layout, NameList};
use volume::{Finished, VolState};

const ID: [u8; 16] = [0, 0, 0, 0, 0, 0, 0x40, 0, 0x80, 0, 0, 0, 0, 0, 0, 0x25];

// The sizes of so many devices.
fn sizes_of(count: u8) -> &'static [u32] {
    match count {
        1 => &[1024],
        2 => &[1024, 1024],
        _ => &[1024, 1024, 1024],
    }
}

// Formats a volume with a copy of the metadata on each of so many devices.
fn format_on(alloc: Global, devices: &mut MemDevices, count: u8) -> Result<(), Fail> {
    let layout = Layout {
        id: ID,
        blocks: Blocks::from_slice(alloc, sizes_of(count))?,
        journal: 256,
        metadata_replicas: count,
        data_replicas: 1,
    };
    if !layout.is_valid() || layout.blocks.len() != devices.count() as usize {
        drop(layout);
        return Err(Fail::from("the devices can't have the layout"));
    }
    let is_formatted = format(alloc, devices, &layout).is_ok();
    drop(layout);
    if is_formatted {
        return Ok(());
    }
    Err(Fail::from("the devices aren't formatted"))
}

/// A fresh volume on one, two or three devices, each with a copy of the metadata.
pub fn formatted_by(alloc: Global, count: u8) -> Result<MemDevices, Fail> {
    let sizes = sizes_of(count);
    if sizes.is_empty() || sizes.len() > 8 {
        return Err(Fail::from("there are no such devices"));
    }
    let mut devices = MemDevices::blank(alloc, sizes)?;
    match format_on(alloc, &mut devices, count) {
        Ok(()) => Ok(devices),
        Err(fail) => {
            drop(devices);
            Err(fail)
        }
    }
}

/// The devices of a volume, closed.
pub fn ended<D: Devices, O: Opening>(volume: VolState<D, O>) -> D {
    let Finished {
        devices,
        trace,
        acks,
        halted: _,
        calls,
    } = volume.finish();
    drop(trace);
    drop(acks);
    drop(calls);
    devices
}

// The digits of a number below 1,000.
fn digits(number: u64) -> [u8; 3] {
    [digit(number / 100), digit(number / 10), digit(number)]
}

// The last digit of a number.
fn digit(number: u64) -> u8 {
    b'0'.wrapping_add((number % 10) as u8)
}

/// How files are named, by their numbers below 1,000.
#[derive(Clone, Copy)]
pub enum Names {
    /// n00 for 0.
    Short,
    /// f000 for 0.
    Numbered,
    /// So many bytes, three at least, and 000 in the end for 0.
    Long(usize),
}

// A name of so many bytes.
fn long_name(alloc: Global, length: usize, number: u64) -> Result<Bytes, AllocError> {
    let mut name = vec![in alloc; b'x'; length.saturating_sub(3)]?;
    if name.extend_from_slice(&digits(number)).is_err() {
        drop(name);
        return Err(AllocError);
    }
    let bytes = Bytes::from_slice(alloc, &name);
    drop(name);
    bytes
}

// The name of the file of this number: f000 for 0.
fn numbered(number: u64) -> [u8; 4] {
    let [hundreds, tens, ones] = digits(number);
    [b'f', hundreds, tens, ones]
}

// The name with two digits: n00 for 0.
fn short(number: u64) -> [u8; 3] {
    let [_, tens, ones] = digits(number);
    [b'n', tens, ones]
}

fn name_of(alloc: Global, names: Names, number: u64) -> Result<Bytes, AllocError> {
    match names {
        Names::Short => Bytes::from_slice(alloc, &short(number)),
        Names::Numbered => Bytes::from_slice(alloc, &numbered(number)),
        Names::Long(length) => long_name(alloc, length, number),
    }
}

// The path of these names in the subvolume `main`.
fn path_to(alloc: Global, names: NameList) -> Result<Path, AllocError> {
    match Bytes::from_slice(alloc, b"main") {
        Ok(sub) => Ok(Path { sub, names }),
        Err(error) => {
            drop(names);
            Err(error)
        }
    }
}

// The list of one name.
fn list_of(alloc: Global, name: Bytes) -> Result<NameList, AllocError> {
    let mut names = NameList::new(alloc);
    if names.push(name).is_err() {
        drop(names);
        return Err(AllocError);
    }
    Ok(names)
}

// The path of a file in the root of `main`.
fn path_of(alloc: Global, names: Names, number: u64) -> Result<Path, AllocError> {
    path_to(alloc, list_of(alloc, name_of(alloc, names, number)?)?)
}

/// Makes the file of this number in the root of `main`, for a client: the reply.
pub fn make_file_by<D: Devices, O: Opening>(
    alloc: Global,
    volume: &mut VolState<D, O>,
    client: u8,
    names: Names,
    number: u64,
) -> Result<Reply, AllocError>
    requires { client < 16 }
{
    let path = path_of(alloc, names, number)?;
    volume.call(client, Op::Mkfile { path })
}

/// The same for client 0.
pub fn make_file<D: Devices, O: Opening>(
    alloc: Global,
    volume: &mut VolState<D, O>,
    names: Names,
    number: u64,
) -> Result<Reply, AllocError> {
    make_file_by(alloc, volume, 0, names, number)
}

/// Whether the file of this number is made for a client.
pub fn is_made_by<D: Devices, O: Opening>(
    alloc: Global,
    volume: &mut VolState<D, O>,
    client: u8,
    names: Names,
    number: u64,
) -> bool
    requires { client < 16 }
{
    let reply = make_file_by(alloc, volume, client, names, number);
    let is_made = matches!(&reply, Ok(Reply::Okay));
    drop(reply);
    is_made
}

/// Whether the file of this number is made.
pub fn is_made<D: Devices, O: Opening>(
    alloc: Global,
    volume: &mut VolState<D, O>,
    names: Names,
    number: u64,
) -> bool {
    is_made_by(alloc, volume, 0, names, number)
}

/// What a client asks for: that the file of this number is made, that it is made durable, or that all is.
#[derive(Clone, Copy)]
pub enum Ask {
    Make(u64),
    Fsync(u64),
    Sync,
}

/// What it is told, of a device where one fails now or has failed before.
#[derive(Clone, Copy)]
pub enum Told {
    Done,
    Synced(u64),
    Refused(Cause),
    Failed(u8),
    Halted(u8),
}

// The reply to what a client asks for, of files named by `Names::Numbered`.
fn reply_to<D: Devices, O: Opening>(
    alloc: Global,
    volume: &mut VolState<D, O>,
    client: u8,
    ask: Ask,
) -> Result<Reply, AllocError>
    requires { client < 16 }
{
    match ask {
        Ask::Make(number) => make_file_by(alloc, volume, client, Names::Numbered, number),
        Ask::Fsync(number) => {
            let path = path_of(alloc, Names::Numbered, number)?;
            volume.call(client, Op::Fsync { path })
        }
        Ask::Sync => volume.call(client, Op::Sync),
    }
}

// Whether a reply says this.
fn says(reply: &Reply, told: Told) -> bool {
    match told {
        Told::Done => matches!(reply, Reply::Okay),
        Told::Synced(count) => matches!(reply, Reply::Synced(commits) if *commits == count),
        Told::Refused(why) => matches!(reply, Reply::Refused(cause) if *cause == why),
        Told::Failed(device) => matches!(reply, Reply::DeviceFault(dev) if *dev == device),
        Told::Halted(device) => matches!(reply, Reply::Halted { dev, .. } if *dev == device),
    }
}

/// Whether a client that asks for this is told so.
pub fn is_told<D: Devices, O: Opening>(
    alloc: Global,
    volume: &mut VolState<D, O>,
    client: u8,
    ask: Ask,
    told: Told,
) -> bool
    requires { client < 16 }
{
    match reply_to(alloc, volume, client, ask) {
        Ok(reply) => {
            let is_told = says(&reply, told);
            drop(reply);
            is_told
        }
        Err(_) => false,
    }
}

/// Whether all commits are made durable, so many in all.
pub fn is_synced<D: Devices, O: Opening>(volume: &mut VolState<D, O>, commits: u64) -> bool {
    let reply = volume.call(0, Op::Sync);
    let is_synced = matches!(&reply, Ok(Reply::Synced(count)) if *count == commits);
    drop(reply);
    is_synced
}

/// The reply to a listing of the root of `main`.
pub fn list<D: Devices, O: Opening>(
    alloc: Global,
    volume: &mut VolState<D, O>,
) -> Result<Reply, AllocError> {
    let path = path_to(alloc, NameList::new(alloc))?;
    volume.call(0, Op::Ls { path })
}

// Whether it is the file of this number.
fn is_numbered(listed: &FlaggedName, number: u64) -> bool {
    listed.flag == 1 && listed.name.as_slice() == numbered(number).as_slice()
}

// How many files are listed, if they are those of the first numbers.
fn count_of(names: &[FlaggedName]) -> Option<u64> {
    let mut count: u64 = 0;
    for listed in names {
        if !is_numbered(listed, count) {
            return None;
        }
        count = count.saturating_add(1);
    }
    Some(count)
}

/// How many files are listed, if they are those of the first numbers.
pub fn count_numbered<D: Devices, O: Opening>(
    alloc: Global,
    volume: &mut VolState<D, O>,
) -> Option<u64> {
    let reply = list(alloc, volume);
    let count = match &reply {
        Ok(Reply::List(names)) => count_of(names.as_slice()),
        _ => None,
    };
    drop(reply);
    count
}
