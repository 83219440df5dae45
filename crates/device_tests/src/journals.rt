ghost use Rattle.std.specs.Prelude.{◌≡◌, ◌∷◌, [], length, IfOk};
ghost use Rattle.dev_model.specs.Devices.{now};
ghost use Rattle.dev_model.specs.Disk.{NothingPending};

use crate::layouts::put;
use dev_model::{Devices, MemDevices};
use geometry::{DiskFault, is_layout_of};
use journal_ring::{
    AreaBlocks, FoundEntry, Journal, journal_of, part_count, read_journal, sealed_parts,
};
use record_codec::{EntryRecord, get_entry};
use std::alloc::{AllocError, Global};
use std::test::Fail;
use vol_types::{BLOCK_SIZE, Blocks, Bytes, Layout, Listing};

const ID: [u8; 16] = *b"journal of tests";

// A letter, and the part of an entry that it stands for: the entry's sequence, the oldest one that it needs and its session, the
// number of its part 0, its bytes, and which of its parts.
type Row = (u8, [u8; 3], u64, u16, u16);

static PARTS: [Row; 17] = [
    (b'a', [1, 1, 1], 0, 216, 0),
    // the second entry, in two parts
    (b'B', [2, 1, 1], 1, 6456, 0),
    (b'C', [2, 1, 1], 1, 6456, 1),
    // the same with another payload, and so with another record digest
    (b'R', [2, 2, 1], 1, 6456, 1),
    // more entries of sequence 2
    (b'd', [2, 1, 2], 3, 216, 0),
    (b'e', [2, 1, 1], 4, 216, 0),
    (b'f', [2, 1, 1], 5, 216, 0),
    (b'g', [2, 2, 1], 3, 216, 0),
    (b'h', [2, 1, 1], 3, 216, 0),
    // entries behind it
    (b'j', [3, 2, 1], 4, 216, 0),
    (b'i', [4, 2, 1], 5, 216, 0),
    (b'k', [4, 4, 1], 5, 216, 0),
    (b'l', [4, 4, 1], 13, 216, 0),
    // an entry around the end of an area of 8 blocks
    (b'P', [3, 3, 1], 7, 6456, 0),
    (b'Q', [3, 3, 1], 7, 6456, 1),
    // the same a round later
    (b'S', [3, 3, 1], 15, 6456, 0),
    (b'T', [3, 3, 1], 15, 6456, 1),
];

// An update that removes counter 0, and one that sets it to 7: the btree, the level, the position, and the value.
static REMOVED: [u8; 23] = [
    8, 0, 0, 0, 0, 0, 0, 0, 0, 0, 0, 0, 0, 0, 0, 0, 0, 0, 0, 0, 0, 0, 0,
];

static SET: [u8; 31] = [
    8, 0, 0, 0, 0, 0, 0, 0, 0, 0, 0, 0, 0, 0, 0, 0, 0, 0, 0, 0, 0, 0, 11, 7, 0, 0, 0, 0, 0, 0, 0,
];

// Appends so many updates that set the number which counter 0 comes to next, 31 bytes each, or that remove it, 23 bytes each.
fn put_updates(payload: &mut Vec<u8>, count: u8, removes: bool) -> Result<(), AllocError> {
    for _ in 0..count {
        if removes {
            payload.extend_from_slice(&REMOVED)?;
        } else {
            payload.extend_from_slice(&SET)?;
        }
    }
    Ok(())
}

// Appends nine roots, each on two devices.
fn put_roots(payload: &mut Vec<u8>) -> Result<(), AllocError> {
    for btree in 0..9 {
        payload.extend_from_slice(&[btree, 0, 0, 0, 1, 0, 0, 0, 0, 2])?;
        payload.extend_from_slice(&[0, 16, 1, 0, 0, 1, 16, 1, 0, 0])?;
    }
    Ok(())
}

// Appends the head of an entry and its roots.
fn put_head(payload: &mut Vec<u8>, numbers: [u8; 3]) -> Result<(), AllocError> {
    for number in numbers {
        payload.extend_from_slice(&[number, 0, 0, 0, 0, 0, 0, 0])?;
    }
    payload.extend_from_slice(&[0; 8])?;
    put_roots(payload)
}

// Appends the updates of an entry: none in 216 bytes, and in a long one 208 of 6,240 bytes.
fn put_rest(payload: &mut Vec<u8>, bytes: u16) -> Result<(), AllocError> {
    if bytes == 216 {
        return payload.extend_from_slice(&[0; 4]);
    }
    payload.extend_from_slice(&[208, 0, 0, 0])?;
    put_updates(payload, 182, false)?;
    put_updates(payload, 26, true)
}

// The payload of an entry: 216 bytes with nine roots on two devices, and in a long one 208 updates of 6,240 bytes.
fn payload_of(alloc: Global, numbers: [u8; 3], bytes: u16) -> Result<Vec<u8>, AllocError> {
    let mut payload = Vec::new(alloc);
    put_head(&mut payload, numbers)?;
    put_rest(&mut payload, bytes)?;
    Ok(payload)
}

// One of the blocks.
fn one_of(alloc: Global, blocks: &[[u8; BLOCK_SIZE]], part: u16) -> Result<Bytes, Fail>
    ensures { IfOk result (λ block. length block ≡ 4096) }
{
    let block = blocks
        .get(part as usize)
        .ok_or("the entry has no such part")?;
    Ok(Bytes::from_slice(alloc, block)?)
}

// The block of a part of an entry with this payload.
fn block_of_entry(
    alloc: Global,
    number: u64,
    entry: &EntryRecord,
    payload: &[u8],
    part: u16,
) -> Result<Bytes, Fail>
    ensures { IfOk result (λ block. length block ≡ 4096) }
{
    if part_count(payload.len() as u64) > 64 || number > 1000 {
        return Err(Fail::from("the entry is too long"));
    }
    let blocks = sealed_parts(alloc, &ID, number, entry, payload)?;
    one_of(alloc, &blocks, part)
}

// The block of a part of the entry with this payload.
fn block_of_part(alloc: Global, number: u64, payload: &[u8], part: u16) -> Result<Bytes, Fail>
    ensures { IfOk result (λ block. length block ≡ 4096) }
{
    let entry = get_entry(alloc, payload)
        .ok()
        .ok_or("the payload is an entry")?;
    block_of_entry(alloc, number, &entry, payload, part)
}

// The row of a letter.
fn row_of(letter: u8) -> Option<Row> {
    for row in PARTS.iter() {
        if row.0 == letter {
            return Some(*row);
        }
    }
    None
}

// The block of a row.
fn block_of_row(alloc: Global, row: Row) -> Result<Bytes, Fail>
    ensures { IfOk result (λ block. length block ≡ 4096) }
{
    let (_, numbers, number, bytes, part) = row;
    let payload = payload_of(alloc, numbers, bytes)?;
    if payload.len() != bytes as usize {
        return Err(Fail::from("the payload has other bytes"));
    }
    block_of_part(alloc, number, &payload, part)
}

// The block that a letter stands for: a part, or zeros.
fn block_of_letter(alloc: Global, letter: u8) -> Result<Bytes, Fail>
    ensures { IfOk result (λ block. length block ≡ 4096) }
{
    if let Some(row) = row_of(letter) {
        return block_of_row(alloc, row);
    }
    Ok(Bytes::from(vec![in alloc; 0; BLOCK_SIZE]?))
}

// The blocks that letters stand for.
fn area_of(alloc: Global, letters: &str) -> Result<AreaBlocks, Fail> {
    let mut blocks = Listing::new(alloc);
    for letter in letters.bytes() {
        blocks.push(block_of_letter(alloc, letter)?)?;
    }
    Ok(blocks)
}

// A layout on two devices with a journal area of so many blocks.
fn layout_with(alloc: Global, journal: u32) -> Result<Layout, AllocError>
    ensures { IfOk result (λ layout. layout.journal ≡ journal) }
{
    Ok(Layout {
        id: ID,
        blocks: Blocks::from_slice(alloc, &[1024, 1024])?,
        journal,
        metadata_replicas: 2,
        data_replicas: 1,
    })
}

// The sequence of each entry that is found, its number and the one behind its end.
fn put_entries(letters: &mut Vec<u8>, entries: &[FoundEntry]) -> Result<(), AllocError> {
    for found in entries {
        letters.extend_from_slice(&[
            digit(found.entry.sequence),
            digit(found.number),
            digit(found.end),
        ])?;
    }
    Ok(())
}

// What is needed, as the sequence of each entry, its number and the one behind its end; a question mark with the sequence that
// is missing; or a dash.
fn letters_of(alloc: Global, journal: &Journal) -> Result<Vec<u8>, AllocError> {
    let mut letters = Vec::new(alloc);
    match journal {
        Journal::NoEntry => letters.extend_from_slice(b"-")?,
        Journal::Missing(sequence) => letters.extend_from_slice(&[b'?', digit(*sequence)])?,
        Journal::Needed(entries) => put_entries(&mut letters, entries.as_slice())?,
    }
    Ok(letters)
}

// A number below 36 as a digit or a letter, and any other one as a star.
fn digit(number: u64) -> u8 {
    if number < 10 {
        return b'0' + number as u8;
    }
    if number < 36 {
        return b'a' + (number - 10) as u8;
    }
    b'*'
}

// What two devices with these areas of 8 blocks say.
fn said_of(alloc: Global, areas: &[AreaBlocks]) -> Result<Vec<u8>, AllocError> {
    let layout = layout_with(alloc, 8)?;
    let journal = journal_of(alloc, &layout, areas)?;
    letters_of(alloc, &journal)
}

// What two devices say that have areas of 8 blocks, of which the first ones are these.
fn said(alloc: Global, first: &str, second: &str) -> Result<Vec<u8>, Fail> {
    let mut areas = Listing::new(alloc);
    areas.push(area_of(alloc, first)?)?;
    areas.push(area_of(alloc, second)?)?;
    Ok(said_of(alloc, areas.as_slice())?)
}

// The blocks of two devices, and what they say.
type Said = (&'static str, &'static str, &'static str);

// Whether the devices of a row say what stands there.
fn is_said(alloc: Global, row: &Said) -> Result<bool, Fail> {
    let (first, second, wanted) = *row;
    let letters = said(alloc, first, second)?;
    Ok(letters.as_slice() == wanted.as_bytes())
}

// The first row whose devices don't say what stands there.
fn first_other(alloc: Global, rows: &[Said]) -> Result<Option<&'static str>, Fail> {
    for row in rows {
        if !is_said(alloc, row)? {
            return Ok(Some(row.0));
        }
    }
    Ok(None)
}

// Each part of the second entry is whole or torn on each device: it is whole where each part is on some device.
static TORN: [Said; 16] = [
    ("a..", "a..", "101"),
    ("aB.", "a..", "101"),
    ("a..", "aB.", "101"),
    ("aB.", "aB.", "101"),
    ("a.C", "a..", "101"),
    ("aBC", "a..", "101213"),
    ("a.C", "aB.", "101213"),
    ("aBC", "aB.", "101213"),
    ("a..", "a.C", "101"),
    ("aB.", "a.C", "101213"),
    ("a..", "aBC", "101213"),
    ("aB.", "aBC", "101213"),
    ("a.C", "a.C", "101"),
    ("aBC", "a.C", "101213"),
    ("a.C", "aBC", "101213"),
    ("aBC", "aBC", "101213"),
];

#[test]
fn torn_parts(rt: HostRuntime) -> Result<(), Fail> {
    assert!(rt; first_other(rt.alloc(), &TORN)? == None);
    Ok(())
}

static COUNTING: [Said; 25] = [
    // nothing is whole
    ("", "", "-"),
    (".B", ".B", "-"),
    ("..C", "..C", "-"),
    // the greater session, then the greater number, then the lower device
    ("a..de", "", "101234"),
    ("a...e", "a..d", "101234"),
    ("a...ef", "a", "101256"),
    ("a....f", "a...e", "101256"),
    ("a..g", "a..h", "234"),
    ("a..h", "a..g", "101234"),
    // around the end of the area, and a round later
    ("Q......P", "", "379"),
    ("Q", ".......P", "379"),
    ("T......S", "Q......P", "3fh"),
    ("Q......S", "T......P", "3fh"),
    ("Q......S", "Q......P", "379"),
    // a number that isn't its place
    (".a", "", "-"),
    ("da", "", "-"),
    // a part of another record
    ("aBR", "a", "101"),
    ("aBR", "a.C", "101213"),
    ("aBC", "a.R", "101213"),
    // what is needed besides the newest one
    ("....ji", "", "?2"),
    ("...d.i", "", "?3"),
    ("...dji", "", "234345456"),
    ("...d.i", "....j", "234345456"),
    ("...djk", "", "456"),
    (".....k", ".....l", "4de"),
];

#[test]
fn which_entries_count(rt: HostRuntime) -> Result<(), Fail> {
    assert!(rt; first_other(rt.alloc(), &COUNTING)? == None);
    Ok(())
}

// Sets a block to the part that a letter stands for.
fn put_letter(
    alloc: Global,
    devices: &mut MemDevices,
    dev: u8,
    block: u32,
    letter: u8,
) -> Result<(), Fail>
    requires { NothingPending (now (⟦<MemDevices as Devices>⟧.state devices.old)) }
    ensures quiet { NothingPending (now (⟦<MemDevices as Devices>⟧.state devices.new)) }
    ensures sizes { (⟦<MemDevices as Devices>⟧.state devices.new).sizes
        ≡ (⟦<MemDevices as Devices>⟧.state devices.old).sizes }
{
    let bytes = block_of_letter(alloc, letter)?;
    put(devices, dev, block, bytes.as_slice())
}

// Sets the parts of the first two entries.
fn put_parts(alloc: Global, devices: &mut MemDevices) -> Result<(), Fail>
    requires { NothingPending (now (⟦<MemDevices as Devices>⟧.state devices.old)) }
    ensures { (⟦<MemDevices as Devices>⟧.state devices.new).sizes
        ≡ (⟦<MemDevices as Devices>⟧.state devices.old).sizes }
{
    put_letter(alloc, devices, 0, 17, b'B')?;
    put_letter(alloc, devices, 1, 18, b'C')?;
    put_letter(alloc, devices, 1, 16, b'a')
}

// Two devices with areas of 256 blocks. The second entry has its first part on the first one and the other part on the second,
// which has the first entry too.
fn two_devices(alloc: Global) -> Result<MemDevices, Fail>
    ensures { IfOk result (λ devices. (⟦<MemDevices as Devices>⟧.state devices).sizes
        ≡ 1024 ∷ 1024 ∷ []) }
{
    let mut devices = MemDevices::blank(alloc, &[1024, 1024])?;
    put_parts(alloc, &mut devices)?;
    Ok(devices)
}

// What the journal of two devices holds, where they have room for the layout.
fn read_from(alloc: Global, devices: &mut MemDevices, layout: &Layout) -> Result<Journal, DiskFault>
    requires { (⟦<MemDevices as Devices>⟧.state devices.old).sizes ≡ 1024 ∷ 1024 ∷ [] }
{
    if !is_layout_of(&[1024, 1024], layout) {
        return Err(DiskFault::NoMemory);
    }
    read_journal(alloc, devices, layout)
}

// Whether devices hold the first two entries, and how many calls it took to read them.
fn holds_both_on(
    alloc: Global,
    devices: &mut MemDevices,
    layout: &Layout,
) -> Result<(bool, u64), Fail>
    requires { (⟦<MemDevices as Devices>⟧.state devices.old).sizes ≡ 1024 ∷ 1024 ∷ [] }
{
    let journal = read_from(alloc, devices, layout)?;
    let letters = letters_of(alloc, &journal);
    drop(journal);
    let letters = letters?;
    let holds = letters.as_slice() == b"101213".as_slice();
    drop(letters);
    Ok((holds, devices.calls()))
}

fn holds_both(alloc: Global, layout: &Layout) -> Result<(bool, u64), Fail> {
    let mut devices = two_devices(alloc)?;
    let holds = holds_both_on(alloc, &mut devices, layout);
    drop(devices);
    holds
}

fn are_read(alloc: Global) -> Result<(bool, u64), Fail> {
    let layout = layout_with(alloc, 256)?;
    let holds = holds_both(alloc, &layout);
    drop(layout);
    holds
}

// There are two areas of 256 blocks, each of which is read once.
#[test]
fn each_block_is_read_once(rt: HostRuntime) -> Result<(), Fail> {
    assert!(rt; are_read(rt.alloc())? == (true, 512));
    Ok(())
}
