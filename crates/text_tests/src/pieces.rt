//! Bytes that are taken and given in pieces, and calls that fail in between.

use dev_model::{Devices, MemDevices};
use std::alloc::{AllocError, Global};
use std::io::{Cursor, Write};
use std::test::Fail;
use text_io::{MemSink, MemSource, Source, StdSink, StdSource, TakeFault, give_all, take_all};
use vol_types::Failed;

const TEXT: &[u8] = b"0123456789";

// Takes up to so many bytes, and says whether they are the text.
fn take_text<S: Source>(alloc: Global, source: &mut S, limit: usize) -> Result<bool, TakeFault> {
    let bytes = take_all(alloc, source, limit)?;
    Ok(bytes.as_slice() == TEXT)
}

// What taking the text in pieces of three bytes gives, and how many bytes are left.
fn taken(alloc: Global, limit: usize) -> Result<(Result<bool, TakeFault>, usize), AllocError> {
    let mut source = MemSource::new(alloc, TEXT, &[])?.in_pieces(3);
    let taken = take_text(alloc, &mut source, limit);
    Ok((taken, source.left().len()))
}

#[test]
fn short_pieces_are_taken_up_to_the_limit(rt: HostRuntime) -> Result<(), Fail> {
    let alloc = rt.alloc();
    for (limit, given, left) in [
        (11, Ok(true), 0),
        (10, Ok(true), 0),
        (9, Err(TakeFault::TooLong), 0),
        (4, Err(TakeFault::TooLong), 5),
        (0, Err(TakeFault::TooLong), 9),
    ] {
        assert!(rt; taken(alloc, limit)? == (given, left));
    }
    Ok(())
}

// How a read that fails ends, what the source counts then, and how many bytes are taken after it.
#[derive(Clone, Copy, PartialEq, Eq)]
struct FailedRead {
    fault: Option<TakeFault>,
    left: usize,
    calls: u64,
    faults: u64,
    rest: Option<usize>,
}

// Reads in pieces of three bytes, of which the call with this number fails.
fn failed_read(alloc: Global, call: u64) -> Result<FailedRead, AllocError> {
    let mut source = MemSource::new(alloc, TEXT, &[call, 9])?.in_pieces(3);
    Ok(read_twice(alloc, &mut source))
}

fn read_twice(alloc: Global, source: &mut MemSource) -> FailedRead {
    let fault = take_text(alloc, source, 10).err();
    let (left, calls, faults) = (source.left().len(), source.calls(), source.faults());
    FailedRead {
        fault,
        left,
        calls,
        faults,
        rest: count_taken(alloc, source),
    }
}

fn count_taken(alloc: Global, source: &mut MemSource) -> Option<usize> {
    let bytes = take_all(alloc, source, 10).ok()?;
    Some(bytes.len())
}

#[test]
fn a_failed_read_is_told(rt: HostRuntime) -> Result<(), Fail> {
    let alloc = rt.alloc();
    for (call, left) in [(0, 10), (2, 4), (4, 0)] {
        let read = FailedRead {
            fault: Some(TakeFault::ReadFault),
            left,
            calls: call + 1,
            faults: 1,
            rest: Some(left),
        };
        assert!(rt; failed_read(alloc, call)? == read, "at {call}");
    }
    Ok(())
}

// How many bytes these are, if the text begins with them.
fn count_of(bytes: &[u8]) -> Option<usize> {
    if TEXT.get(..bytes.len()) == Some(bytes) {
        Some(bytes.len())
    } else {
        None
    }
}

// Whether the text is given, how much of it is held, and what the sink counts.
#[derive(Clone, Copy, PartialEq, Eq)]
struct Given {
    is_all: bool,
    held: Option<usize>,
    moments: usize,
    faults: u64,
    calls: u64,
}

// Gives the text in pieces of three bytes, of which the call with this number fails.
fn give_in_pieces(alloc: Global, devices: &MemDevices, call: u64) -> Result<Given, AllocError> {
    let mut sink = MemSink::new(alloc, &[call])?.in_pieces(3);
    sink.reserve(10)?;
    Ok(give_to(&mut sink, devices))
}

fn give_to(sink: &mut MemSink, devices: &MemDevices) -> Given {
    let is_all = give_all(sink, TEXT, devices).is_ok();
    Given {
        is_all,
        held: count_of(sink.held()),
        moments: sink.given_at().len(),
        faults: sink.faults(),
        calls: sink.calls(),
    }
}

#[test]
fn a_failed_write_leaves_what_was_given_before(rt: HostRuntime) -> Result<(), Fail> {
    let alloc = rt.alloc();
    let devices = MemDevices::blank(alloc, &[16])?;
    for (call, held) in [(0, 0), (1, 3), (2, 6), (3, 9), (4, 10)] {
        let expected = Given {
            is_all: call == 4,
            held: Some(held),
            moments: held,
            faults: if call == 4 { 0 } else { 1 },
            calls: if call == 4 { 4 } else { call + 1 },
        };
        assert!(rt; give_in_pieces(alloc, &devices, call)? == expected);
    }
    Ok(())
}

// Gives two bytes before a flush and one after it, and says at which moments; none where a call fails.
fn give_around_a_flush(sink: &mut MemSink, devices: &mut MemDevices) -> Option<[u64; 2]> {
    give_all(sink, b"ab", devices).ok()?;
    let before = devices.moment();
    if devices.count() == 0 {
        return None;
    }
    devices.flush(0).ok()?;
    give_all(sink, b"c", devices).ok()?;
    Some([before, devices.moment()])
}

// The moments of bytes around a flush, if these are the bytes and these their moments.
fn moments(alloc: Global) -> Result<Option<[u64; 2]>, AllocError> {
    let mut devices = MemDevices::blank(alloc, &[16])?;
    let mut sink = MemSink::new(alloc, &[])?;
    let given = give_around_a_flush(&mut sink, &mut devices);
    Ok(if_held_at(&sink, given))
}

fn if_held_at(sink: &MemSink, given: Option<[u64; 2]>) -> Option<[u64; 2]> {
    let [before, after] = given?;
    let moments = [before, before, after];
    if sink.held() == b"abc".as_slice() && sink.given_at() == moments.as_slice() {
        given
    } else {
        None
    }
}

#[test]
fn what_is_given_after_a_call_of_a_device_has_a_later_moment(rt: HostRuntime) -> Result<(), Fail> {
    let [before, after] = moments(rt.alloc())?.ok_or("the bytes have their moments")?;
    assert!(rt; before < after);
    Ok(())
}

#[test]
fn a_reader_is_a_source(rt: HostRuntime) {
    let mut source = StdSource::new(Cursor::new(TEXT));
    assert!(rt; take_text(rt.alloc(), &mut source, 10) == Ok(true));
    assert!(rt; source.into_inner().position() == 10);
}

/// Takes up to so many bytes in all, three a call, and then nothing.
#[derive(Drop)]
struct Full {
    bytes: Vec<u8>,
    room: usize,
}

impl Write for Full {
    fn write(&mut self, from: &[u8]) -> std::io::Result<usize> {
        let n = from.len().min(self.room).min(3);
        self.bytes.extend_from_slice(&from[..n])?;
        self.room -= n;
        Ok(n)
    }

    fn flush(&mut self) -> std::io::Result<()> {
        Ok(())
    }
}

// How giving the text to a writer with so much room ends, and how much of the text it has.
fn written(
    alloc: Global,
    devices: &MemDevices,
    room: usize,
) -> (Result<(), Failed>, Option<usize>) {
    let bytes = Vec::new(alloc);
    let mut sink = StdSink::new(Full { bytes, room });
    let given = give_all(&mut sink, TEXT, devices);
    (given, count_of(sink.into_inner().bytes.as_slice()))
}

#[test]
fn a_writer_is_a_sink_until_it_takes_nothing(rt: HostRuntime) -> Result<(), Fail> {
    let alloc = rt.alloc();
    let devices = MemDevices::blank(alloc, &[16])?;
    for (room, outcome) in [(10, Ok(())), (8, Err(Failed))] {
        assert!(rt; written(alloc, &devices, room) == (outcome, Some(room)));
    }
    Ok(())
}
